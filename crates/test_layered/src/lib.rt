//! Tests of `metrics_layered`, by the texts of collectors under rules.
#![tactic(auto)]

#[cfg(test)]
mod given;
#[cfg(test)]
mod kinds;
#[cfg(test)]
mod layers;
#[cfg(test)]
mod samples;
