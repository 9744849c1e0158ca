//! Tests of `metrics_registry` and `metrics_shared_registry`, through what they re-export.
#![tactic(auto)]

#[cfg(test)]
mod cells;
#[cfg(test)]
mod checks;
#[cfg(test)]
mod copies;
#[cfg(test)]
mod entries;
#[cfg(test)]
mod idle;
#[cfg(test)]
mod kinds;
#[cfg(test)]
mod locks;
#[cfg(test)]
mod refused;
#[cfg(test)]
mod shards;
#[cfg(test)]
mod threads;
