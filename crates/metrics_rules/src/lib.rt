//! Where names go: a tree of prefixes, filters, fanouts and routers over numbered leaves, with no content of its own.
#![tactic(auto)]

mod branches;
mod fanout;
mod named;
mod node;
mod router;
mod routes;
mod rules;
mod scratch;
mod visitor;

pub use fanout::FanoutBuilder;
pub use named::Named;
pub use router::RouterBuilder;
pub use rules::Rules;
pub use scratch::Scratch;
pub use visitor::{Stopped, Visitor};
