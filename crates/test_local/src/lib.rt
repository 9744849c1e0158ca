//! Tests of `metrics_local`, by what readings of collectors show and by the values of cells.
#![tactic(auto)]

#[cfg(test)]
mod asked;
#[cfg(test)]
mod given;
#[cfg(test)]
mod idle;
#[cfg(test)]
mod layers;
#[cfg(test)]
mod refused;
#[cfg(test)]
mod threads;
