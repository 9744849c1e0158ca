//! Tests of `metrics_exporter` and `metrics_prometheus`, through what they re-export.
#![tactic(auto)]

#[cfg(test)]
mod activity;
#[cfg(test)]
mod books;
#[cfg(test)]
mod expositions;
#[cfg(test)]
mod given;
#[cfg(test)]
mod makers;
#[cfg(test)]
mod naming;
#[cfg(test)]
mod rows;
#[cfg(test)]
mod units;
