//! Trees of layers over leaves of one type: prefix, filter, fanout and router at any depth.
#![tactic(auto)]

mod child;
mod fanout;
mod leaves;
mod over_error;
mod places;
mod router;
mod row;
mod visits;

pub use child::{Child, Fanout, Router};
pub use fanout::FanoutBuilder;
pub use over_error::OverError;
pub use router::RouterBuilder;
