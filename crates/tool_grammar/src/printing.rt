//! Prints answers.
ghost use Rattle.std.specs.Prelude.{◌≡◌, ◌++◌, ◌∷◌, [], OnOk, codes, decimal, length, string_bytes};
ghost use Rattle.tool_grammar.specs.Printing.{samples_text, value_text, note_text, row_text, rows_text, text_of, refusal_text_of};
ghost use Rattle.tool_grammar.specs.Printing.{book_of};

use crate::words::unit_text;
use itoa::Buffer;
use metrics::{Answer, Call, DebugValue, Refused, Row, SharedText};
use std::alloc::AllocError;

fn write_samples(text: &mut String, samples: &[i64]) -> Result<(), AllocError>
    ensures { OnOk result (string_bytes text.new ≡ string_bytes text.old ++ samples_text samples.now) }
{
    let Some((first, others)) = samples.split_first() else {
        return Ok(());
    };
    write!(text, "{first}")?;
    for sample in others {
        write!(text, ",{sample}")?;
    }
    Ok(())
}

fn write_value(text: &mut String, value: &DebugValue) -> Result<(), AllocError>
    ensures { OnOk result (string_bytes text.new ≡ string_bytes text.old ++ value_text value.now) }
{
    match value {
        DebugValue::Counter(n) => write!(text, "{n}"),
        DebugValue::Gauge(n) => write!(text, "{n}"),
        DebugValue::Histogram(samples) => {
            text.push_str("[")?;
            write_samples(text, samples.as_slice())?;
            text.push_str("]")
        }
    }
}

fn write_note(text: &mut String, note: &Option<SharedText>) -> Result<(), AllocError>
    ensures { OnOk result (string_bytes text.new ≡ string_bytes text.old ++ note_text note.now) }
{
    match note {
        None => Ok(()),
        Some(note) => write!(text, " text {note}"),
    }
}

fn write_row(text: &mut String, row: &Row) -> Result<(), AllocError>
    ensures { OnOk result (string_bytes text.new ≡ string_bytes text.old ++ row_text row.now) }
{
    let kind = row.0.kind().as_str();
    write!(text, "{kind} ")?;
    row.0.key().write_words(text)?;
    let unit = unit_text(row.1);
    write!(text, " unit {unit} value ")?;
    write_value(text, &row.3)?;
    write_note(text, &row.2)?;
    text.push_str("\n")
}

fn write_rows(text: &mut String, rows: &[Row]) -> Result<(), AllocError>
    ensures { OnOk result (string_bytes text.new ≡ string_bytes text.old ++ rows_text rows.now) }
{
    for row in rows {
        write_row(text, row)?;
    }
    Ok(())
}

/// The number of the book of a snapshot call.
fn book_number(call: &Call) -> usize
    ensures { result ≡ book_of call.now }
{
    match call {
        Call::Snapshot(book) | Call::SnapshotWith(book, _) => *book,
        Call::Describe(..) | Call::Register(..) | Call::Update(..) => 0,
    }
}

fn write_refusal(text: &mut String, refused: Refused) -> Result<(), AllocError>
    ensures { OnOk result (string_bytes text.new ≡ string_bytes text.old ++ refusal_text_of refused) }
{
    match refused {
        Refused::Memory { acted } => writeln!(text, "refused E1 memory, acted {acted}"),
        Refused::NoSuchAddress => text.push_str("refused E2 no such address\n"),
        Refused::NoSuchBook => text.push_str("refused E3 no such book\n"),
        Refused::BadHandle => text.push_str("refused E18 bad handle\n"),
    }
}

/// Writes a line of words and a number, digit by digit, which is faster than a format.
fn write_counted(text: &mut String, words: &str, count: usize) -> Result<(), AllocError>
    ensures { OnOk result (string_bytes text.new ≡ string_bytes text.old ++ (words.now ++ (decimal count ++ 10 ∷ []))) }
{
    let mut buffer = Buffer::new();
    text.push_str(words)?;
    text.push_str(buffer.format(count))?;
    text.push_str("\n")
}

/// Most updates meet one cell, so their line is ready-made.
fn write_updated(text: &mut String, count: usize) -> Result<(), AllocError>
    ensures { OnOk result (string_bytes text.new ≡ string_bytes text.old
        ++ (codes "updated " ++ (decimal count ++ 10 ∷ []))) }
{
    if count == 1 {
        text.push_str("updated 1\n")
    } else {
        write_counted(text, "updated ", count)
    }
}

fn write_registered(text: &mut String, number: usize, count: usize) -> Result<(), AllocError>
    ensures { OnOk result (string_bytes text.new ≡ string_bytes text.old
        ++ (codes "registered " ++ (decimal number ++ (32 ∷ (decimal count ++ 10 ∷ []))))) }
{
    text.push_str("registered ")?;
    text.push_str(Buffer::new().format(number))?;
    write_counted(text, " ", count)
}

fn write_snapshot(text: &mut String, book: usize, rows: &[Row]) -> Result<(), AllocError>
    ensures { OnOk result (string_bytes text.new ≡ string_bytes text.old
        ++ (codes "snapshot " ++ (decimal book ++ (32 ∷ (decimal (length rows.now) ++ (10 ∷ rows_text rows.now)))))) }
{
    let count = rows.len();
    writeln!(text, "snapshot {book} {count}")?;
    write_rows(text, rows)
}

/// Appends the text of an answer to `text`. `registers` is the number of register calls before it. When out of memory,
/// `text` may end in a part of it.
pub fn write_answer(
    text: &mut String,
    registers: usize,
    call: &Call,
    answer: &Answer,
) -> Result<(), AllocError>
    ensures { OnOk result (string_bytes text.new ≡ string_bytes text.old ++ text_of registers call.now answer.now) }
{
    match answer {
        Answer::Described(count) => write_counted(text, "described ", *count),
        Answer::Registered(found) => write_registered(text, registers, found.as_slice().len()),
        Answer::Updated(count) => write_updated(text, *count),
        Answer::Snapshot(rows) => write_snapshot(text, book_number(call), rows.as_slice()),
        Answer::Refused(refused) => write_refusal(text, *refused),
    }
}
