//! Metrics that the threads of a program share, and their text for Prometheus.
#![tactic(auto)]

mod adding;
mod cells;
mod collector;
mod counted;
mod epoch;
mod gathered;
mod keys;
mod laws;
mod lists;
mod merging;
mod note;
mod parts;
mod quantiles;
mod readings;
mod repeats;
mod row_key;
mod rows;

pub use cells::{CollectorCells, CounterHandle, GaugeHandle, HistogramHandle};
pub use collector::Collector;
pub use counted::LEFT_OUT_NAME;
pub use gathered::{Gathered, GatheredSeries, Value};
pub use laws::absorb_law;
pub use lists::LabelList;
pub use merging::AbsorbError;
pub use metrics::Error;
pub use metrics_exporter::{Bounds, BoundsError};
pub use metrics_prometheus::{BadLabel, Described, Descriptions, Naming, left_out};
pub use metrics_registry::Quantile;
pub use quantiles::quantile_bound;
pub use row_key::RowKey;
