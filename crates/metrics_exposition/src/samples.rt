//! The lines of samples.
ghost use Rattle.std.specs.Prelude.{◌≡◌, ◌++◌, ◌∷◌, [], codes, string_bytes};
ghost use Rattle.std.specs.Prelude.{IfOk, OnOk, IfErr, IsTrue, flat_map};
ghost use Rattle.metrics.specs.declared.error.Error.TheVariants.{Memory as OutOfMemory};
ghost use Rattle.metrics_storage.specs.Histogram.{ascending};
ghost use Rattle.metrics_exposition.specs.Numbers.{number};
ghost use Rattle.metrics_exposition.specs.Samples.{labels_text, sample_line, lines};
ghost use Rattle.metrics_exposition.specs.Samples.{histogram_samples};
ghost use Rattle.metrics_exposition.specs.Heads.{open_text, more_text, sample_head, headed_line};
ghost use Rattle.metrics_exposition.specs.Heads.{with_commas, bucket_head, bucket_line};

use crate::names::write_value;
use crate::numbers::{write_count, write_number};
use metrics::{Error, Label};
use metrics_storage::Histogram;
use std::alloc::{AllocError, Global};

/// Writes a label up to the quote that ends it: NAME="VALUE with the value escaped.
fn write_open(text: &mut String, label: &Label) -> Result<(), AllocError>
    ensures { OnOk result (string_bytes text.new ≡ string_bytes text.old ++ open_text label.now) }
{
    text.push_str(label.key())?;
    text.push_str("=\"")?;
    write_value(text, label.value())
}

/// Writes labels, each after the end of the one before, and all but that of the last.
fn write_more(text: &mut String, labels: &[Label]) -> Result<(), AllocError>
    ensures { OnOk result (string_bytes text.new ≡ string_bytes text.old ++ flat_map more_text labels.now) }
{
    for label in labels {
        text.push_str("\",")?;
        write_open(text, label)?;
    }
    Ok(())
}

/// Writes labels in braces, a first one and more. The end is the last quote and the brace, and perhaps a space.
fn write_braced(
    text: &mut String,
    first: &Label,
    more: &[Label],
    end: &str,
) -> Result<(), AllocError>
    ensures bare { end.now ≡ codes "\"}" → OnOk result
        (string_bytes text.new ≡ string_bytes text.old ++ labels_text (first.now ∷ more.now)) }
    ensures spaced { end.now ≡ codes "\"} " → OnOk result
        (string_bytes text.new ≡ string_bytes text.old ++ (labels_text (first.now ∷ more.now) ++ 32 ∷ [])) }
{
    text.push_str("{")?;
    write_open(text, first)?;
    write_more(text, more)?;
    text.push_str(end)?;
    Ok(())
}

/// Writes labels in braces, their values escaped, and nothing for none.
///
/// Fails when out of memory, after a part of them.
pub fn write_labels(text: &mut String, labels: &[Label]) -> Result<(), AllocError>
    ensures { OnOk result (string_bytes text.new ≡ string_bytes text.old ++ labels_text labels.now) }
{
    match labels {
        [] => Ok(()),
        [first, rest @ ..] => write_braced(text, first, rest, "\"}"),
    }
}

/// Writes labels as `write_labels` does, and a space.
fn write_spaced(text: &mut String, labels: &[Label]) -> Result<(), AllocError>
    ensures { OnOk result (string_bytes text.new ≡ string_bytes text.old ++ (labels_text labels.now ++ 32 ∷ [])) }
{
    match labels {
        [] => text.push_str(" "),
        [first, rest @ ..] => write_braced(text, first, rest, "\"} "),
    }
}

/// Writes the line of a sample that is no bucket. Its name is the metric's name and a suffix, its value so many units of the last
/// of the decimal places.
///
/// Fails when out of memory, after a part of the line.
pub fn write_sample(
    text: &mut String,
    name: &str,
    end: &str,
    labels: &[Label],
    places: u16,
    value: i128,
) -> Result<(), AllocError>
    ensures { OnOk result (string_bytes text.new ≡ string_bytes text.old
        ++ sample_line (record { name = name.now ++ end.now; labels = labels.now; value = number places value })) }
{
    text.push_str(name)?;
    if !end.is_empty() {
        text.push_str(end)?;
    }
    write_spaced(text, labels)?;
    write_number(text, places, value)?;
    text.push_str("\n")
}

/// Writes what the line of a sample begins with: its name and its first label's key, up to that label's value.
///
/// Fails when out of memory, after a part of it.
pub fn write_sample_head(text: &mut String, name: &str, key: &str) -> Result<(), AllocError>
    ensures { OnOk result (string_bytes text.new ≡ string_bytes text.old ++ sample_head name.now key.now) }
{
    text.push_str(name)?;
    text.push_str("{")?;
    text.push_str(key)?;
    text.push_str("=\"")
}

/// Writes the line of a sample after a head that `write_sample_head` wrote: the value of its first label, more labels, and the
/// sample's value as `write_sample` writes it.
///
/// Fails when out of memory, after a part of the line.
pub fn write_headed_sample(
    text: &mut String,
    head: &str,
    first: &str,
    more: &[Label],
    places: u16,
    value: i128,
) -> Result<(), AllocError>
    ensures { OnOk result (string_bytes text.new
        ≡ string_bytes text.old ++ headed_line head.now first.now more.now (number places value)) }
{
    text.push_str(head)?;
    write_value(text, first)?;
    write_more(text, more)?;
    text.push_str("\"} ")?;
    write_number(text, places, value)?;
    text.push_str("\n")
}

/// Writes labels with a comma after each.
fn write_with_commas(text: &mut String, labels: &[Label]) -> Result<(), AllocError>
    ensures { OnOk result (string_bytes text.new ≡ string_bytes text.old ++ with_commas labels.now) }
{
    for label in labels {
        write_open(text, label)?;
        text.push_str("\",")?;
    }
    Ok(())
}

/// Writes what the lines of a histogram's buckets begin with: its name and labels, up to the bound.
///
/// Fails when out of memory, after a part of it.
pub fn write_bucket_head(text: &mut String, name: &str, labels: &[Label]) -> Result<(), AllocError>
    ensures { OnOk result (string_bytes text.new ≡ string_bytes text.old ++ bucket_head name.now labels.now) }
{
    text.push_str(name)?;
    text.push_str("_bucket{")?;
    write_with_commas(text, labels)?;
    text.push_str("le=\"")
}

/// Writes the line of a bucket, with the bound's text as the value of `le`, after a head that `write_bucket_head` wrote.
///
/// Fails when out of memory, after a part of the line.
pub fn write_bucket(
    text: &mut String,
    head: &str,
    bound: &str,
    count: u64,
) -> Result<(), AllocError>
    ensures { OnOk result (string_bytes text.new ≡ string_bytes text.old ++ bucket_line head.now bound.now count) }
{
    text.push_str(head)?;
    write_value(text, bound)?;
    text.push_str("\"} ")?;
    write_count(text, count)?;
    text.push_str("\n")
}

/// How many bytes a bound's text mostly has at most.
const BOUND_BYTES: usize = 24;

/// Writes the line of each bucket.
fn write_buckets(
    text: &mut String,
    head: &str,
    places: u16,
    buckets: &[(i64, u64)],
) -> Result<(), AllocError>
    ensures { OnOk result (string_bytes text.new ≡ string_bytes text.old
        ++ flat_map (λ b. bucket_line head.now (number places b.0) b.1) buckets.now) }
{
    let mut shown = String::with_capacity(*text.allocator(), BOUND_BYTES)?;
    for (bound, count) in buckets {
        shown.clear();
        write_number(&mut shown, places, i128::from(*bound))?;
        write_bucket(text, head, &shown, *count)?;
    }
    Ok(())
}

/// Adds a bucket at the end, if all before it found room.
fn add_bucket(
    buckets: &mut Vec<(i64, u64)>,
    found_room: bool,
    bound: i64,
    count: u64,
) -> Result<(), AllocError>
    ensures added { OnOk result (buckets.new.items ≡ buckets.old.items ++ (bound, count) ∷ []) }
    ensures before { OnOk result (IsTrue found_room) }
{
    if !found_room {
        return Err(AllocError);
    }
    buckets.push((bound, count))?;
    Ok(())
}

/// Returns each bound once, in ascending order, with the number of samples at most it.
pub fn ascending(alloc: Global, histogram: &Histogram) -> Result<Vec<(i64, u64)>, AllocError>
    ensures { IfOk result (λ v. v.items ≡ ascending histogram.now.buckets) }
{
    let mut buckets = Vec::with_capacity(alloc, histogram.bounds().len())?;
    let mut done = Ok(());
    {
        let _shown = histogram.visit_ascending(|bound, count| {
            let found_room = done.is_ok();
            done = add_bucket(&mut buckets, found_room, bound, count);
        });
    }
    done?;
    Ok(buckets)
}

/// How many bytes a head mostly has at most, besides its name.
const HEAD_BYTES: usize = 72;

/// Writes the lines of a histogram: a bucket for each bound in ascending order, and one for `+Inf`, the sum and the count. Bounds
/// and sum are units of the last of the decimal places.
///
/// Fails only with `Error::Memory`, after a part of the lines.
pub fn write_histogram(
    alloc: Global,
    text: &mut String,
    name: &str,
    labels: &[Label],
    places: u16,
    histogram: &Histogram,
) -> Result<(), Error>
    ensures ok { OnOk result (string_bytes text.new
        ≡ string_bytes text.old ++ lines (histogram_samples places name.now labels.now histogram.now)) }
    ensures err { IfErr result (λ e. e ≡ OutOfMemory) }
{
    let buckets = ascending(alloc, histogram)?;
    let count = histogram.count();
    let mut head = String::with_capacity(alloc, name.len().saturating_add(HEAD_BYTES))?;
    write_bucket_head(&mut head, name, labels)?;
    write_buckets(text, &head, places, &buckets)?;
    write_bucket(text, &head, "+Inf", count)?;
    write_sample(text, name, "_sum", labels, places, histogram.sum())?;
    write_sample(text, name, "_count", labels, 0, i128::from(count))?;
    Ok(())
}
