//! Tests of `tool_state`.
#![tactic(auto)]

#[cfg(test)]
mod given;
#[cfg(test)]
mod states;
