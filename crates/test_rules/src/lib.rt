//! Tests of rules.
#![tactic(auto)]

#[cfg(test)]
mod visits;
