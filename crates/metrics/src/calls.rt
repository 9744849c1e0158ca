//! Calls of a recorder as values, and their answers.

use crate::debugging::{Reset, Snapshot as Rows};
use crate::handles::{Address, Update as Change};
use metrics_names::{Items, Key, KeyName, MetricKind, Refused as Refusal, Text, Unit};

/// A call of a recorder.
#[derive(Debug, Drop)]
pub enum Call {
    /// Kind, name, unit and text.
    Describe(MetricKind, KeyName, Option<Unit>, Text),
    Register(MetricKind, Key),
    /// The number of a register call, from 0, counting failed ones too; and an update for each of its addresses.
    Update(usize, Change),
    /// The number of a book. Series of all kinds are reset.
    Snapshot(usize),
    /// The number of a book, and which of its series are reset.
    SnapshotWith(usize, Reset),
}

/// The answer of a call.
#[derive(Debug, Drop)]
pub enum Answer {
    /// The number of targets.
    Described(usize),
    /// The address in each target.
    Registered(Items<Address>),
    /// The number of targets.
    Updated(usize),
    Snapshot(Rows),
    Refused(Refusal),
}
