//! Tests of `metrics_collector`, by the texts that it renders.
#![tactic(auto)]

#[cfg(test)]
mod alone;
#[cfg(test)]
mod anew;
#[cfg(test)]
mod bounds;
#[cfg(test)]
mod counts;
#[cfg(test)]
mod gauges;
#[cfg(test)]
mod given;
#[cfg(test)]
mod handles;
#[cfg(test)]
mod histograms;
#[cfg(test)]
mod idle;
#[cfg(test)]
mod kept;
#[cfg(test)]
mod merged;
#[cfg(test)]
mod named;
#[cfg(test)]
mod once;
#[cfg(test)]
mod pushed;
#[cfg(test)]
mod readers;
#[cfg(test)]
mod refused;
#[cfg(test)]
mod removed;
#[cfg(test)]
mod series;
#[cfg(test)]
mod threads;
#[cfg(test)]
mod together;
#[cfg(test)]
mod turns;
