//! The lines of an exporter: updates and scrapes, and the words that describe how it is made.
#![tactic(auto)]

mod answering;
mod exporting;
mod laws;
mod pages;
mod plans;
mod requests;

pub use answering::{answer_request, report_text};
pub use exporting::{ExportLines, export, export_new, exporter_of};
pub use laws::export_law;
pub use pages::{Page, shown_at};
pub use plans::{ExportPlan, plan_of};
pub use requests::{Request, request_of};
