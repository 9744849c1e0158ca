//! What each line asks for: updates, descriptions and scrapes, by labels, decimal places and names; and why a line is bad.
#![tactic(auto)]

mod amounts;
mod cache;
mod dialect;
mod flaws;
mod labels;
mod laws;
mod names;
mod places;
mod renaming;
mod requests;
mod spelled;
mod words;

pub use dialect::Dialect;
pub use flaws::{Cause, Message, Unread};
pub use labels::common_labels;
pub use laws::{label_law, line_law};
pub use metrics::{Items, Label, Text};
pub use names::named_request_of;
pub use places::{KeptPlaces, PrefixPlaces, front_of};
pub use renaming::Room;
pub use requests::{Request, request_of};
pub use spelled::{Spelled, is_as_given};
