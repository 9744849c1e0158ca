//! The kinds of metrics.
ghost use Rattle.std.specs.Prelude.{◌≡◌};
ghost use Rattle.metrics_names.specs.Names.{kind_word};

/// The kind of a metric. Kinds are ordered as listed here.
#[derive(Clone, Copy, Debug, PartialEq, Eq, PartialOrd, Ord, Hash)]
pub enum MetricKind {
    Counter,
    Gauge,
    Histogram,
}

impl MetricKind {
    /// Returns the kind's word in lower case, such as `counter`.
    pub fn as_str(self) -> &'static str
        ensures { result.now ≡ kind_word self }
    {
        match self {
            MetricKind::Counter => "counter",
            MetricKind::Gauge => "gauge",
            MetricKind::Histogram => "histogram",
        }
    }
}
