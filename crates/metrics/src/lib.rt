//! Handles and the `Recorder` trait, with the definitions of what a recorder means.
#![tactic(auto)]

mod calls;
mod cells;
mod debugging;
mod error;
mod handles;
mod kind;
mod one_of_two;
mod recorder;

pub use calls::{Answer, Call};
pub use cells::{CounterCell, GaugeCell, HistogramCell};
pub use debugging::{DebugValue, Reset, Row, RowValue, Snapshot};
pub use error::Error;
pub use handles::{Address, Counter, Gauge, Histogram, Update, update_all};
pub use kind::{MetricKindMask, PerKind};
pub use metrics_names::{
    CompositeKey, Items, Key, KeyName, Label, MetricKind, Refused, SharedText, Text, Unit,
};
pub use recorder::{Boxed, NoopRecorder, Recorder};
