//! Tests of layers, of trees of them and of the books below.
//!
//! They are in a crate of their own: a crate with tests is proved twice.
#![tactic(auto)]

#[cfg(test)]
mod activity;
#[cfg(test)]
mod books;
#[cfg(test)]
mod builders;
#[cfg(test)]
mod filters;
#[cfg(test)]
mod given;
#[cfg(test)]
mod handles;
#[cfg(test)]
mod layers;
#[cfg(test)]
mod mixed;
#[cfg(test)]
mod over;
#[cfg(test)]
mod rounds;
#[cfg(test)]
mod snapshots;
