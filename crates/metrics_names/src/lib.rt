//! Names, labels and keys of metrics, and why a call on them failed.
#![tactic(auto)]

mod common;
mod items;
mod key;
mod kind;
mod label;
mod refused;
mod shared_items;
mod shared_text;
mod text;

pub use common::Unit;
pub use items::Items;
pub use key::{CompositeKey, Key, KeyName};
pub use kind::MetricKind;
pub use label::{Label, are_sorted, is_before, sort_labels};
pub use refused::Refused;
pub use shared_text::SharedText;
pub use text::Text;
