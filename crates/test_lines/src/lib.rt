//! Tests of `tool_lines`, `tool_prometheus`, `tool_requests`, `tool_storm` and `metrics_textfile`.
#![tactic(auto)]

#[cfg(test)]
mod devices;
#[cfg(test)]
mod expositions;
#[cfg(test)]
mod limits;
#[cfg(test)]
mod lines;
#[cfg(test)]
mod rooms;
#[cfg(test)]
mod storms;
#[cfg(test)]
mod textfiles;
