//! Recorders that threads share, under rules: where a name goes is decided first, and then the recorder of each target hands out
//! a handle.
#![tactic(auto)]

mod ask;
mod collecting;
mod describe;
mod handles;
mod layered;
mod nested;
mod recorder;
mod registries;
mod updates;

pub use handles::Handles;
pub use layered::Layered;
pub use recorder::SharedRecorder;
pub use updates::{CounterHandles, GaugeHandles, HistogramHandles};
