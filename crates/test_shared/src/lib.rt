//! Tests of `metrics_shared`, through what it re-exports, and of `metrics_cells`.
//!
//! They are in a crate of their own: a crate with tests is proved twice.
#![tactic(auto)]

#[cfg(test)]
mod books;
#[cfg(test)]
mod cells;
#[cfg(test)]
mod course;
#[cfg(test)]
mod handles;
#[cfg(test)]
mod installs;
#[cfg(test)]
mod own;
#[cfg(test)]
mod raises;
#[cfg(test)]
mod reservoirs;
#[cfg(test)]
mod scarce;
#[cfg(test)]
mod shared;
#[cfg(test)]
mod slots;
#[cfg(test)]
mod waits;
