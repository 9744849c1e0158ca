//! Laws of the definitions, and examples of them.
#![tactic(auto)]

mod examples;
mod laws;

pub use examples::worked_examples;
pub use laws::definition_laws;
