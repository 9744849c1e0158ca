//! Texts that wait, so that one write writes many.
ghost use Rattle.std.specs.Prelude.{◌≡◌, ◌++◌, [], if◌then◌else◌};
ghost use Rattle.tool_stream.specs.Lines.{ReadsAtHand, ReadsLine};
ghost use Rattle.tool_stream.specs.Waiting.{Writes, WritesBeside};

use crate::stream::{Broken, Fault, Found, Part, rest_of_line, take_part, write_text};
use std::io::{BufRead, Write};

/// The most bytes that wait before they are written; one shorter text may follow them.
const BLOCK: usize = 8192;

/// Writes what waits. Nothing waits afterwards, even if the writer failed.
pub fn write_out<O: Write>(output: &mut O, waiting: &mut Vec<u8>) -> Result<(), Broken>
    ensures waiting { waiting.new.items ≡ [] }
    ensures bytes { Writes (O.contents output.old) (O.contents output.new) waiting.old.items waiting.new.items result }
{
    let written = write_text(output, waiting);
    waiting.clear();
    written
}

/// Appends the text to what waits, if there is room and memory for it.
fn wait(waiting: &mut Vec<u8>, text: &[u8]) -> bool
    ensures { waiting.new.items ≡ (if result then waiting.old.items ++ text.now else waiting.old.items) }
{
    waiting.len() < BLOCK && text.len() < BLOCK && waiting.extend_from_slice(text).is_ok()
}

/// Appends the text to what waits. A full block is written first, and so is what waits when memory for more runs out.
pub fn put<O: Write>(output: &mut O, waiting: &mut Vec<u8>, text: &[u8]) -> Result<(), Broken>
    ensures { Writes (O.contents output.old) (O.contents output.new) (waiting.old.items ++ text.now) waiting.new.items result }
{
    if wait(waiting, text) {
        return Ok(());
    }
    write_out(output, waiting)?;
    if wait(waiting, text) {
        return Ok(());
    }
    write_text(output, text)
}

/// Reads the next line into `line` from the `at_hand` bytes that the reader shows. Returns whether it found the line's end.
fn line_at_hand<I: BufRead>(
    input: &mut I,
    line: &mut Vec<u8>,
    at_hand: &mut usize,
) -> Result<bool, Fault>
    ensures { ReadsAtHand (I.remaining input.old) (I.remaining input.new) line.new.items result }
{
    line.clear();
    if *at_hand == 0 {
        return Ok(false);
    }
    match take_part(input, line, at_hand)? {
        Part::Feed => Ok(true),
        Part::More | Part::Nothing => Ok(false),
    }
}

/// Reads the next line into `line`, as `next_line`, and writes what waits before a look at the reader that may wait.
pub fn read_line<I: BufRead, O: Write>(
    input: &mut I,
    line: &mut Vec<u8>,
    at_hand: &mut usize,
    output: &mut O,
    waiting: &mut Vec<u8>,
) -> Result<Found, Fault>
    ensures line { ReadsLine (I.remaining input.old) (I.remaining input.new) line.new.items result }
    ensures waiting { WritesBeside (O.contents output.old) (O.contents output.new) waiting.old.items waiting.new.items result }
{
    if line_at_hand(input, line, at_hand)? {
        return Ok(Found::Line);
    }
    write_out(output, waiting)?;
    rest_of_line(input, line, at_hand)
}
