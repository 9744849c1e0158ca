//! What text formats of Prometheus have in common: names, labels, numbers and samples as they are shown.
#![tactic(auto)]

mod common;
mod labels;
mod names;
mod naming;
mod numbers;
mod places;
mod samples;
mod series;
mod shown;

pub use common::{BadLabel, bad_label, first_bad_label};
pub use labels::{
    are_equal, are_fit, are_ready, first_key, first_value, is_last, is_reserved, repeats,
    reserved_of, shown_labels,
};
pub use metrics::Error;
pub use names::{allowed_name, is_name, label_name, metric_name, write_help_text, write_value};
pub use naming::{Naming, shown_name, shown_places, total_end, unit_end, without_end};
pub use numbers::{write_count, write_number};
pub use places::{DecimalPlaces, WholeNumbers, all_places};
pub use samples::{
    ascending, write_bucket, write_bucket_head, write_headed_sample, write_histogram, write_labels,
    write_sample, write_sample_head,
};
pub use series::{ReadSeries, reading_kind};
pub use shown::{ShownLabels, ShownName};
