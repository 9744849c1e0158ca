//! Tests of `metrics_storage`, of `prefix_match`, and of the names and kinds of `metrics` and `metrics_registry`,
//! through what they re-export.
//!
//! They are in a crate of their own: a crate with tests is proved twice.
#![tactic(auto)]

#[cfg(test)]
mod blocks;
#[cfg(test)]
mod cells;
#[cfg(test)]
mod histograms;
#[cfg(test)]
mod names;
#[cfg(test)]
mod prints;
#[cfg(test)]
mod reservoirs;
#[cfg(test)]
mod routes;
#[cfg(test)]
mod substrings;
#[cfg(test)]
mod values;
