//! Tests of `metrics_journal`, through what it re-exports.
#![tactic(auto)]

#[cfg(test)]
mod given;
#[cfg(test)]
mod kinds;
#[cfg(test)]
mod refused;
#[cfg(test)]
mod threads;
