//! The text of the held series.
ghost use Rattle.std.specs.Prelude.{◌≡◌, ◌<◌, ◌++◌, List, length, not, None, Some, option_map, string_bytes};
ghost use Rattle.std.specs.Prelude.{OnOk, OnErr, IfOk, IfErr, IfSome, IsTrue, MatchResult, map};
ghost use Rattle.std.specs.List.{AllByRecursion};
ghost use Rattle.std.specs.List.Sorted.{IsSorted};
ghost use Rattle.std.specs.Cmp.Lexicographic.{slice_cmp};
ghost use Rattle.std.specs.Ordering.{nat_cmp};
ghost use Rattle.metrics.specs.declared.error.Error.TheVariants.{Memory as OutOfMemory};
ghost use Rattle.metrics_exposition.specs.declared.naming.Naming.TheVariants.{AsGiven};
ghost use Rattle.metrics_exporter.specs.Exporting.{Cells, Setup, Log, steps, cells_after, HoldsSome};
ghost use Rattle.metrics_names.specs.Names.{label_cmp};
ghost use Rattle.metrics_exporter.specs.Kept.{IsAfter, described};
ghost use Rattle.metrics_descriptions.specs.Legends.{SameLegend, no_legend, described_by};
ghost use Rattle.metrics_exporter.specs.Readings.{AreReadings, AreOnce, KeyedReading, reading_shown, cells_of_readings};
ghost use Rattle.metrics_prometheus.specs.Exposition.{Row, row_cmp, histogram_names, is_left_out};
ghost use Rattle.metrics_prometheus.specs.Exposition.{help_line, type_line, name_lines, name_text};
ghost use Rattle.metrics_prometheus.specs.Exposition.{samples_of, row_lines, rows_text};
ghost use Rattle.metrics_prometheus.specs.Exposition.{IsExposition, IsDescribed, IsScaled};
ghost use Rattle.metrics_prometheus.specs.Heads.{HaveOneHead};
ghost use Rattle.metrics_prometheus.specs.LeftOut.{BeginLeftOut};
ghost use Rattle.metrics_prometheus.specs.Places.{rows_placed, AreAlike, line_head};
ghost use Rattle.metrics_prometheus.specs.Written.{AreLeftOut};
ghost use Rattle.metrics_exposition.specs.Reading.{AreOfKinds};
ghost use Rattle.metrics_prometheus.specs.Rows.{row_shown, rows_shown, Shows, names_shown, named};
ghost use Rattle.metrics_exposition.specs.Numbers.{number};
ghost use Rattle.metrics_exposition.specs.Samples.{sample_line, lines};

use crate::counted::CountedText;
use crate::reasons::{reason_of, write_left_out};
use crate::row::ShownRow;
use crate::rows::{Place, rows_of, sorted_rows};
use crate::taken::histogram_names;
use metrics::Error;
use metrics_exporter::{Descriptions, Exporter, ReadingRef};
use metrics_exposition::{
    DecimalPlaces, Naming, ReadSeries, WholeNumbers, first_key, write_headed_sample,
    write_help_text, write_histogram, write_sample, write_sample_head,
};
use std::alloc::{AllocError, Global};

fn write_type_line(text: &mut String, row: &ShownRow<'_>) -> Result<(), AllocError>
    ensures { OnOk result (string_bytes text.new ≡ string_bytes text.old ++ type_line (row_shown row.now)) }
{
    text.push_str("# TYPE ")?;
    text.push_str(row.head.name.as_str())?;
    text.push_str(" ")?;
    text.push_str(row.head.kind.as_str())?;
    text.push_str("\n")
}

/// Writes the description of a name, if there is one.
fn write_help(text: &mut String, name: &str, help: Option<&str>) -> Result<(), AllocError>
    ensures { OnOk result (string_bytes text.new
        ≡ string_bytes text.old ++ help_line name.now (option_map (λ t. t.now) help.entry)) }
{
    let Some(help) = help else {
        return Ok(());
    };
    text.push_str("# HELP ")?;
    text.push_str(name)?;
    text.push_str(" ")?;
    write_help_text(text, help)?;
    text.push_str("\n")
}

/// Writes the description of a name before its first sample.
fn write_name_lines(text: &mut String, row: &ShownRow<'_>) -> Result<(), AllocError>
    ensures { OnOk result (string_bytes text.new ≡ string_bytes text.old ++ name_lines (row_shown row.now)) }
{
    write_help(text, row.head.name.as_str(), row.head.help)?;
    write_type_line(text, row)
}

/// The row that was written last, if it has a row's name, as it has if all rows have one.
fn named<'w, 'r>(
    have_one_name: bool,
    last: Option<&'w ShownRow<'r>>,
    row: &ShownRow<'_>,
) -> Option<&'w ShownRow<'r>>
    requires { IsTrue have_one_name → IfSome last (λ w. w.now.head.value.name ≡ row.now.head.value.name) }
    ensures named { option_map (λ w. row_shown w.now) result
        ≡ named (option_map (λ w. row_shown w.now) last.entry) row.now.head.value.name }
    ensures same { IfSome result (λ w. w.now.head.value.name ≡ row.now.head.value.name) }
{
    match last {
        Some(written) => {
            if have_one_name || written.head.name == row.head.name {
                Some(written)
            } else {
                None
            }
        }
        None => None,
    }
}

/// Writes the description of a row's name, unless the row that was written last has it.
fn write_name(
    text: &mut String,
    last: Option<&ShownRow<'_>>,
    row: &ShownRow<'_>,
) -> Result<(), AllocError>
    requires { IfSome last (λ w. w.now.head.value.name ≡ row.now.head.value.name) }
    ensures { OnOk result (string_bytes text.new
        ≡ string_bytes text.old ++ name_text (option_map (λ w. row_shown w.now) last.entry) (row_shown row.now)) }
{
    match last {
        Some(_) => Ok(()),
        None => write_name_lines(text, row),
    }
}

/// Writes the sample of a counter or a gauge, with what its line begins with, if that is at hand.
fn write_number(
    text: &mut String,
    begun: Option<&str>,
    row: &ShownRow<'_>,
    value: i128,
) -> Result<(), AllocError>
    requires { IfSome begun (λ b. b.now ≡ line_head row.now) }
    ensures { OnOk result (string_bytes text.new ≡ string_bytes text.old ++ sample_line (record {
      name = row.now.head.value.name;
      labels = row.now.labels;
      value = number row.now.head.value.places value;
    })) }
{
    let places = row.head.places;
    let labels = row.labels.as_slice();
    match (begun, labels) {
        (Some(head), [first, more @ ..]) => {
            write_headed_sample(text, head, first.value(), more, places, value)
        }
        _ => write_sample(text, row.head.name.as_str(), "", labels, places, value),
    }
}

/// Writes the samples of a row's series.
fn write_samples(
    alloc: Global,
    text: &mut String,
    begun: Option<&str>,
    row: &ShownRow<'_>,
) -> Result<(), Error>
    requires { IfSome begun (λ b. b.now ≡ line_head row.now) }
    ensures ok { OnOk result (string_bytes text.new ≡ string_bytes text.old
        ++ lines (samples_of (row_shown row.now) (Some (reading_shown row.now.reading)))) }
    ensures err { IfErr result (λ e. e ≡ OutOfMemory) }
{
    match row.reading {
        ReadingRef::Count(count) => {
            write_number(text, begun, row, i128::from(count))?;
            Ok(())
        }
        ReadingRef::Level(level) => {
            write_number(text, begun, row, i128::from(level))?;
            Ok(())
        }
        ReadingRef::Samples(histogram) => write_histogram(
            alloc,
            text,
            row.head.name.as_str(),
            row.labels.as_slice(),
            row.head.places,
            histogram,
        ),
    }
}

/// Writes a row, or that it is left out. What its line begins with is at hand if all rows are alike. Returns whether it was
/// written.
fn write_row(
    alloc: Global,
    text: &mut String,
    histograms: &[&str],
    begun: Option<&str>,
    last: Option<&ShownRow<'_>>,
    row: &ShownRow<'_>,
) -> Result<bool, Error>
    requires sorted { IsSorted (slice_cmp nat_cmp) (names_shown histograms.now) }
    requires labels { IsSorted label_cmp row.now.labels }
    requires begun { IfSome begun (λ b. b.now ≡ line_head row.now) }
    requires named { IfSome begun (λ b. IfSome last (λ w. w.now.head.value.name ≡ row.now.head.value.name)) }
    ensures ok { OnOk result ((rows : List Row) → names_shown histograms.now ≡ histogram_names rows →
        string_bytes text.new ≡ string_bytes text.old ++ row_lines (Some (reading_shown row.now.reading)) rows
        (option_map (λ w. row_shown w.now) last.entry) (row_shown row.now)) }
    ensures written { IfOk result (λ written. (rows : List Row) → names_shown histograms.now ≡ histogram_names rows
        → written ≡ not (is_left_out rows (option_map (λ w. row_shown w.now) last.entry) (row_shown row.now))) }
    ensures err { IfErr result (λ e. e ≡ OutOfMemory) }
{
    let same = named(begun.is_some(), last, row);
    if let Some(reason) = reason_of(histograms, same, row) {
        write_left_out(text, row, reason)?;
        return Ok(false);
    }
    write_name(text, same, row)?;
    write_samples(alloc, text, begun, row)?;
    Ok(true)
}

/// About how many bytes a row's text has, at least.
const ROW_BYTES: usize = 48;

/// About how many bytes the beginning of a row's line has, at most.
const HEAD_BYTES: usize = 64;

/// What the line of each row's sample begins with, if the rows are alike.
fn begun_line(
    alloc: Global,
    places: &[Place<'_, '_>],
    are_alike: bool,
) -> Result<Option<String>, AllocError>
    requires { IsTrue are_alike → AreAlike (rows_placed places.now) }
    ensures begun { IfOk result (λ begun.
        IfSome begun (λ b. AllByRecursion (λ p. string_bytes b ≡ line_head p.row.now) places.now)) }
    ensures head { IfOk result (λ begun. IfSome begun (λ b. HaveOneHead (rows_placed places.now))) }
{
    if !are_alike {
        return Ok(None);
    }
    match places {
        [] => Ok(None),
        [first, ..] => {
            let key = first_key(first.row.labels.as_slice());
            let mut begun = String::with_capacity(alloc, HEAD_BYTES)?;
            write_sample_head(&mut begun, first.row.head.name.as_str(), key)?;
            Ok(Some(begun))
        }
    }
}

/// The text of rows, which may be alike, and where the lines of those begin that it leaves out.
fn rows_text(
    alloc: Global,
    places: &[Place<'_, '_>],
    are_alike: bool,
) -> Result<(String, Vec<usize>), Error>
    requires sorted { IsSorted row_cmp (rows_shown (rows_placed places.now)) }
    requires labels { AllByRecursion (λ p. IsSorted label_cmp p.row.now.labels) places.now }
    requires alike { IsTrue are_alike → AreAlike (rows_placed places.now) }
    ensures ok { (cells : Cells) → AllByRecursion (λ p. Shows cells p.row.now) places.now → IfOk result
        (λ t. string_bytes t.0
        ≡ rows_text cells (rows_shown (rows_placed places.now)) None (rows_shown (rows_placed places.now))) }
    ensures number { IfOk result (λ t. AreLeftOut (rows_shown (rows_placed places.now)) (length t.1.items)) }
    ensures places { IfOk result (λ t. BeginLeftOut (string_bytes t.0) t.1.items) }
    ensures err { IfErr result (λ e. e ≡ OutOfMemory) }
{
    let histograms = histogram_names(alloc, places, are_alike)?;
    let line = begun_line(alloc, places, are_alike)?;
    let begun = line.as_deref();
    let mut text = String::with_capacity(alloc, places.len().saturating_mul(ROW_BYTES))?;
    let mut left_out = Vec::new(alloc);
    let mut last = None;
    for place in places {
        let at = text.len();
        if write_row(alloc, &mut text, &histograms, begun, last, place.row)? {
            last = Some(place.row);
        } else {
            left_out.push(at)?;
        }
    }
    Ok((text, left_out))
}

/// Writes these series in Prometheus's text format, version 0.0.4, each name after its description. That is the description of
/// the first series that is written under it, by that series' kind and own name. The naming decides names and units; units are
/// those of the descriptions. Numbers are whole numbers of the last of their name's decimal places, bounds and sums too.
///
/// Returns the text with the places of what it leaves out. The whole text is in memory, with a row for each series. Fails
/// with `Error::Memory` when out of memory, and never for an empty list. A repeated series is written once.
pub fn counted_exposition_of<P: DecimalPlaces, S: ReadSeries>(
    alloc: Global,
    naming: Naming,
    scale: &P,
    descriptions: &Descriptions,
    series: &[S],
) -> Result<CountedText, Error>
    // For the cells that the series report.
    ensures ok { (cells : Cells) → AreReadings cells (map S.keyed series.now) → IfOk result
        (λ counted. IsScaled naming (described_by descriptions.now) (P.places scale.now) cells (string_bytes counted.text)) }
    // For any list: each series once.
    ensures each { IfOk result (λ counted. (kept : List KeyedReading) × AreOnce (map S.keyed series.now) kept
        × AreOfKinds (cells_of_readings kept)
        × IsScaled naming (described_by descriptions.now) (P.places scale.now) (cells_of_readings kept)
        (string_bytes counted.text)) }
    ensures err { IfErr result (λ e. e ≡ OutOfMemory) }
    ensures refused { OnErr result (0 < length series.now) }
{
    if series.is_empty() {
        return Ok(CountedText {
            text: String::new(alloc),
            left_out: Vec::new(alloc),
        });
    }
    let (rows, have_one_head) = rows_of(alloc, naming, scale, descriptions, series)?;
    let (places, are_alike) = sorted_rows(alloc, &rows, have_one_head)?;
    let (text, left_out) = rows_text(alloc, &places, are_alike)?;
    Ok(CountedText { text, left_out })
}

/// Writes these series as `counted_exposition_of` does, and returns the text alone.
pub fn scaled_exposition_of<P: DecimalPlaces, S: ReadSeries>(
    alloc: Global,
    naming: Naming,
    scale: &P,
    descriptions: &Descriptions,
    series: &[S],
) -> Result<String, Error>
    // For the cells that the series report.
    ensures ok { (cells : Cells) → AreReadings cells (map S.keyed series.now) → IfOk result
        (λ text. IsScaled naming (described_by descriptions.now) (P.places scale.now) cells (string_bytes text)) }
    // For any list: each series once.
    ensures each { IfOk result (λ text. (kept : List KeyedReading) × AreOnce (map S.keyed series.now) kept
        × AreOfKinds (cells_of_readings kept)
        × IsScaled naming (described_by descriptions.now) (P.places scale.now) (cells_of_readings kept) (string_bytes text)) }
    ensures err { IfErr result (λ e. e ≡ OutOfMemory) }
    ensures refused { OnErr result (0 < length series.now) }
{
    let counted = counted_exposition_of(alloc, naming, scale, descriptions, series)?;
    Ok(counted.text)
}

/// Writes these series as `scaled_exposition_of` does, with whole numbers, save for the decimal places of units.
pub fn exposition_of<S: ReadSeries>(
    alloc: Global,
    naming: Naming,
    descriptions: &Descriptions,
    series: &[S],
) -> Result<String, Error>
    // For the cells that the series report.
    ensures ok { (cells : Cells) → AreReadings cells (map S.keyed series.now)
        → IfOk result (λ text. IsDescribed naming (described_by descriptions.now) cells (string_bytes text)) }
    // For any list: each series once.
    ensures each { IfOk result (λ text. (kept : List KeyedReading) × AreOnce (map S.keyed series.now) kept
        × AreOfKinds (cells_of_readings kept)
        × IsDescribed naming (described_by descriptions.now) (cells_of_readings kept) (string_bytes text)) }
    ensures err { IfErr result (λ e. e ≡ OutOfMemory) }
    ensures refused { OnErr result (0 < length series.now) }
{
    scaled_exposition_of(alloc, naming, &WholeNumbers, descriptions, series)
}

/// Writes the held series in Prometheus's text format, version 0.0.4, each name after its description in the exporter. The
/// naming decides names and units. Numbers are whole numbers of the last of their name's decimal places.
///
/// Returns the text with the places of what it leaves out. The whole text is in memory, with a row for each series. Fails
/// with `Error::Memory` when out of memory, and never if no series is held.
pub fn counted_exposition<P: DecimalPlaces>(
    exporter: &Exporter,
    alloc: Global,
    naming: Naming,
    scale: &P,
) -> Result<CountedText, Error>
    ensures text { (setup : Setup) (log : Log) → IsAfter setup log exporter.now → MatchResult result
        (λ counted. IsScaled naming (described exporter.now) (P.places scale.now)
        (cells_after setup (steps log)) (string_bytes counted.text))
        (λ e. e ≡ OutOfMemory) }
    ensures refused { (setup : Setup) (log : Log) → IsAfter setup log exporter.now →
        OnErr result (HoldsSome (cells_after setup (steps log))) }
{
    let series = exporter.readings()?;
    counted_exposition_of(alloc, naming, scale, exporter.descriptions(), &series)
}

/// Writes the held series as `counted_exposition` does, and returns the text alone.
pub fn scaled_exposition<P: DecimalPlaces>(
    exporter: &Exporter,
    alloc: Global,
    naming: Naming,
    scale: &P,
) -> Result<String, Error>
    ensures text { (setup : Setup) (log : Log) → IsAfter setup log exporter.now → MatchResult result
        (λ text. IsScaled naming (described exporter.now) (P.places scale.now)
        (cells_after setup (steps log)) (string_bytes text))
        (λ e. e ≡ OutOfMemory) }
    ensures refused { (setup : Setup) (log : Log) → IsAfter setup log exporter.now →
        OnErr result (HoldsSome (cells_after setup (steps log))) }
{
    match counted_exposition(exporter, alloc, naming, scale) {
        Ok(counted) => Ok(counted.text),
        Err(e) => Err(e),
    }
}

/// Writes the held series as `scaled_exposition` does, with whole numbers, save for the decimal places of units.
pub fn exposition_named(exporter: &Exporter, alloc: Global, naming: Naming) -> Result<String, Error>
    ensures text { (setup : Setup) (log : Log) → IsAfter setup log exporter.now → MatchResult result
        (λ text. IsDescribed naming (described exporter.now) (cells_after setup (steps log)) (string_bytes text))
        (λ e. e ≡ OutOfMemory) }
    ensures refused { (setup : Setup) (log : Log) → IsAfter setup log exporter.now →
        OnErr result (HoldsSome (cells_after setup (steps log))) }
{
    scaled_exposition(exporter, alloc, naming, &WholeNumbers)
}

/// Writes the held series as `exposition_named` does, with unchanged names and numbers.
pub fn exposition(exporter: &Exporter, alloc: Global) -> Result<String, Error>
    ensures text { (setup : Setup) (log : Log) → IsAfter setup log exporter.now → MatchResult result
        (λ text. IsDescribed AsGiven (described exporter.now) (cells_after setup (steps log)) (string_bytes text))
        (λ e. e ≡ OutOfMemory) }
    // If no name was described there are no descriptions.
    ensures plain { SameLegend (described exporter.now) no_legend → (setup : Setup) (log : Log)
        → IsAfter setup log exporter.now
        → IfOk result (λ text. IsExposition (cells_after setup (steps log)) (string_bytes text)) }
    ensures refused { (setup : Setup) (log : Log) → IsAfter setup log exporter.now →
        OnErr result (HoldsSome (cells_after setup (steps log))) }
{
    exposition_named(exporter, alloc, Naming::AsGiven)
}
