//! Prometheus's text exposition format of the series that an exporter holds.
#![tactic(auto)]

mod counted;
mod laws;
mod listing;
mod reasons;
mod repeated;
mod row;
mod rows;
mod taken;
mod text;

pub use counted::CountedText;
pub use laws::{exposition_law, exposition_text_law};
pub use listing::{left_out, left_out_at};
pub use metrics::Error;
pub use metrics_exporter::{
    Described, Descriptions, Exporter, ReadingRef, SeriesReading, SeriesRef,
};
pub use metrics_exposition::{
    BadLabel, DecimalPlaces, Naming, ReadSeries, WholeNumbers, are_ready, bad_label,
    first_bad_label,
};
pub use repeated::write_repeated;
pub use text::{
    counted_exposition, counted_exposition_of, exposition, exposition_named, exposition_of,
    scaled_exposition, scaled_exposition_of,
};
