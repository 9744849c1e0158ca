//! The names and units that series are shown with.

/// The names and the units of shown series. No number is rounded either way.
#[derive(Clone, Copy, Debug, Default, PartialEq, Eq)]
pub enum Naming {
    /// Names and numbers are those of the series.
    #[default]
    AsGiven,
    /// Names and units are those that Prometheus recommends.
    ///
    /// A described unit adds the suffix `_seconds`, `_ratio` or `_bytes` to the name, and a decimal point to the numbers.
    /// Milliseconds, microseconds and nanoseconds are seconds with up to 3, 6 and 9 decimal places, and percent a ratio with up
    /// to 2. A number has no zeros at its end. A counter's name ends in `_total`. Each of these suffixes comes once, however
    /// often it ends the name given.
    Recommended,
}

ghost use Rattle.std.specs.Prelude.{◌≡◌, IfOk, string_bytes};
ghost use Rattle.metrics_exposition.specs.Naming.{unit_end, unit_places, total_end, without_end, bare_name};
ghost use Rattle.metrics_exposition.specs.Naming.{recommended_name, shown_name, shown_places};

use crate::names::{allowed_name, metric_name};
use crate::shown::ShownName;
use metrics::{Key, MetricKind, Unit};
use std::alloc::{AllocError, Global};

/// Returns the suffix of a name whose numbers are of the unit's base unit, as `_seconds`. It is empty if there is none.
pub fn unit_end(unit: Option<Unit>) -> &'static str
    ensures { result.now ≡ unit_end unit }
{
    match unit {
        Some(Unit::Percent) => "_ratio",
        Some(Unit::Seconds) => "_seconds",
        Some(Unit::Milliseconds) => "_seconds",
        Some(Unit::Microseconds) => "_seconds",
        Some(Unit::Nanoseconds) => "_seconds",
        Some(Unit::Bytes) => "_bytes",
        Some(Unit::Count) => "",
        None => "",
    }
}

/// The decimal places of a number of the base unit.
fn unit_places(unit: Option<Unit>) -> u8
    ensures { result ≡ unit_places unit }
{
    match unit {
        Some(Unit::Percent) => 2,
        Some(Unit::Milliseconds) => 3,
        Some(Unit::Microseconds) => 6,
        Some(Unit::Nanoseconds) => 9,
        Some(Unit::Count) => 0,
        Some(Unit::Seconds) => 0,
        Some(Unit::Bytes) => 0,
        None => 0,
    }
}

/// Returns how many decimal places numbers of a unit are shown with: they are whole numbers of the last one.
pub fn shown_places(naming: Naming, unit: Option<Unit>) -> u8
    ensures { result ≡ shown_places naming unit }
{
    match naming {
        Naming::AsGiven => 0,
        Naming::Recommended => unit_places(unit),
    }
}

/// Returns the end of a name of the kind: `_total` for a counter, and otherwise nothing.
pub fn total_end(kind: MetricKind) -> &'static str
    ensures { result.now ≡ total_end kind }
{
    match kind {
        MetricKind::Counter => "_total",
        MetricKind::Gauge => "",
        MetricKind::Histogram => "",
    }
}

/// Returns the name without that end, or the name if it doesn't end so.
pub fn without_end<'a>(name: &'a str, end: &str) -> &'a str
    ensures { result.now ≡ without_end name.now end.now }
{
    match name.strip_suffix(end) {
        Some(front) => front,
        None => name,
    }
}

/// The name without any of these ends.
fn bare_name<'a>(name: &'a str, unit: &str, total: &str) -> &'a str
    ensures { result.now ≡ bare_name unit.now total.now name.now }
{
    let mut bare = name;
    for _step in 0..name.len() {
        let shorter = without_end(without_end(bare, total), unit);
        if shorter.len() == bare.len() {
            return bare;
        }
        bare = shorter;
    }
    bare
}

/// The name as Prometheus recommends it.
fn recommended_name(
    alloc: Global,
    kind: MetricKind,
    unit: Option<Unit>,
    name: &str,
) -> Result<String, AllocError>
    ensures { IfOk result (λ s. string_bytes s ≡ recommended_name kind unit name.now) }
{
    let unit = unit_end(unit);
    let total = total_end(kind);
    let mut recommended = String::from_str(alloc, bare_name(name, unit, total))?;
    recommended.push_str(unit)?;
    recommended.push_str(total)?;
    Ok(recommended)
}

/// Returns the name that series of the kind and the key's name are shown with. Under `Naming::AsGiven` a name that is allowed
/// allocates nothing.
pub fn shown_name<'a>(
    alloc: Global,
    naming: Naming,
    kind: MetricKind,
    unit: Option<Unit>,
    key: &'a Key,
) -> Result<ShownName<'a>, AllocError>
    ensures { IfOk result (λ n. n ≡ shown_name naming kind unit key.now.name) }
{
    match naming {
        Naming::AsGiven => allowed_name(alloc, key),
        Naming::Recommended => {
            let allowed = metric_name(alloc, key.name())?;
            let recommended = recommended_name(alloc, kind, unit, allowed.as_str())?;
            Ok(ShownName::made(recommended))
        }
    }
}
