//! Tests of the bucket that grows, through what `metrics_growing` re-exports.
#![tactic(auto)]

#[cfg(test)]
mod chains;
#[cfg(test)]
mod scarce;
#[cfg(test)]
mod threads;
