//! Series that a caller removes.

use crate::readings::Series;
use metrics::{Key, MetricKind};
use std::sync::Wait;

impl Series {
    /// Removes a series, whoever has handles of it, and what the readings noted of it. Returns whether it was there, and then
    /// ends the epoch: whoever finds the new one finds the series gone.
    ///
    /// It waits for a reading to end, as that has the notes.
    pub fn remove<W: Wait>(&self, rt: &W, kind: MetricKind, key: &Key) -> bool {
        let mut readings = self.readings.lock(rt);
        readings.forget(kind, key);
        let was_there = match kind {
            MetricKind::Counter => self.registry.delete_counter(rt, key),
            MetricKind::Gauge => self.registry.delete_gauge(rt, key),
            MetricKind::Histogram => self.registry.delete_histogram(rt, key),
        };
        if was_there {
            self.epoch.end();
        }
        was_there
    }
}
