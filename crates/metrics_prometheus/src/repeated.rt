//! The line of a series that comes again.
ghost use Rattle.std.specs.Prelude.{◌≡◌, ◌++◌, IfOk, IfErr, string_bytes};
ghost use Rattle.metrics.specs.declared.error.Error.TheVariants.{Memory as OutOfMemory};
ghost use Rattle.metrics_exporter.specs.Gathering.{series_at};
ghost use Rattle.metrics_prometheus.specs.Repeated.{repeated_line};

use crate::counted::CountedText;
use crate::reasons::{Reason, write_left_out};
use crate::row::{Head, ShownRow};
use metrics::{Error, Key, MetricKind};
use metrics_exporter::ReadingRef;
use metrics_exposition::{ShownName, shown_labels};
use std::alloc::Global;
use std::rc::Rc;

/// Adds the line that a series is left out, since a series of its own name and labels is written: it comes again.
pub fn write_repeated(
    alloc: Global,
    counted: CountedText,
    kind: MetricKind,
    key: &Key,
) -> Result<CountedText, Error>
    ensures ok { IfOk result (λ after. string_bytes after.text
        ≡ string_bytes counted.text ++ repeated_line (series_at kind key.now)) }
    ensures err { IfErr result (λ e. e ≡ OutOfMemory) }
{
    let labels = shown_labels(alloc, key)?;
    let head = Head {
        name: ShownName::given(key),
        kind,
        places: 0,
        help: None,
    };
    let row = ShownRow {
        head: Rc::new(alloc, head)?,
        labels,
        key,
        reading: ReadingRef::Count(0),
    };
    let CountedText {
        mut text,
        mut left_out,
    } = counted;
    left_out.push(text.len())?;
    write_left_out(&mut text, &row, Reason::LabelsTaken(key.name()))?;
    Ok(CountedText { text, left_out })
}
