//! The unit that a histogram is made in.
ghost use Rattle.std.specs.Prelude.{◌≡◌, true, IfSome};
ghost use Rattle.metrics_storage.specs.Histogram.{bounds_of};
ghost use Rattle.metrics_exporter.specs.Choice.{bounds_in};

use metrics::Unit;
use metrics_exporter::Bounds;
use metrics_storage::Histogram;

/// The units, in the order in which they are tried.
const UNITS: [Unit; 7] = [
    Unit::Count,
    Unit::Percent,
    Unit::Seconds,
    Unit::Milliseconds,
    Unit::Microseconds,
    Unit::Nanoseconds,
    Unit::Bytes,
];

/// Whether a histogram has the bounds of its name in a unit.
fn is_made_in(bounds: &Bounds, unit: Option<Unit>, name: &str, histogram: &Histogram) -> bool
    ensures { result ≡ true → bounds_in bounds.now unit name.now ≡ bounds_of histogram.now }
{
    bounds.of_unit(unit, name).same_bounds(histogram)
}

/// Returns a unit in which a name has the bounds of this histogram: none if that is one, otherwise the first of the seven.
pub(crate) fn unit_at(bounds: &Bounds, name: &str, histogram: &Histogram) -> Option<Option<Unit>>
    ensures { IfSome result (λ unit. bounds_in bounds.now unit name.now ≡ bounds_of histogram.now) }
{
    if is_made_in(bounds, None, name, histogram) {
        return Some(None);
    }
    for unit in UNITS {
        if is_made_in(bounds, Some(unit), name, histogram) {
            return Some(Some(unit));
        }
    }
    None
}
