//! Tests of `AtomicBucket` and `RuledBucket`, through what `metrics_bucket` re-exports.
#![tactic(auto)]

#[cfg(test)]
mod atomic;
#[cfg(test)]
mod beside;
#[cfg(test)]
mod ruled;
#[cfg(test)]
mod scarce;
#[cfg(test)]
mod threads;
