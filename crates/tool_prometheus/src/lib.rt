//! The lines of an exporter, answered by expositions for Prometheus: requests, the loop over them, and the program.
#![tactic(auto)]

mod answering;
mod commands;
mod counts;
mod laws;
mod limit;
mod making;
mod names;
mod own;
mod own_places;
mod serving;
mod showing;
mod strict;
mod surroundings;
mod timing;
mod watching;

pub use answering::{Served, answer_end, answer_request};
pub use commands::{Options, command, command_on};
pub use counts::Counts;
pub use laws::{output_law, self_law, strict_law};
pub use making::{PrefixBounds, UnitBounds, exporter_for};
pub use metrics::{Items, Label, Text};
pub use metrics_prometheus::{BadLabel, Naming, bad_label};
pub use serving::{PrometheusLines, prometheus};
pub use surroundings::Surroundings;
pub use timing::Timer;
pub use tool_grammar::RunError;
pub use tool_requests::{
    Cause, Dialect, Message, PrefixPlaces, Request, Unread, label_law, line_law, request_of,
};
pub use watching::Watch;
