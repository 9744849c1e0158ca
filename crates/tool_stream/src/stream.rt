//! Lines from a buffered reader, and whole texts to a writer.
ghost use Rattle.std.specs.Prelude.{◌≡◌, List, ℕ, [], ◌++◌, OnOk};
ghost use Rattle.std.specs.Io.KnownBytes.{Appends};
ghost use Rattle.tool_stream.specs.Lines.{IsLine, TakesPart, ReadsRest, ReadsLine};

use std::alloc::AllocError;
use std::io::{BufRead, ErrorKind, Write};
use tool_grammar::place_of;

/// Why a line could not be read.
#[derive(Clone, Copy)]
pub enum Fault {
    Memory,
    Device,
}

impl From<AllocError> for Fault {
    ghost use Rattle.tool_stream.specs.declared.stream.Fault.TheVariants.{Memory};

    ghost from_gives = { λ _ e. e ≡ Memory };

    fn from(_error: AllocError) -> Fault {
        Fault::Memory
    }
}

/// The writer failed.
#[derive(Clone, Copy)]
pub struct Broken;

impl From<Broken> for Fault {
    ghost use Rattle.tool_stream.specs.declared.stream.Fault.TheVariants.{Device};

    ghost from_gives = { λ _ e. e ≡ Device };

    fn from(_error: Broken) -> Fault {
        Fault::Device
    }
}

/// Writes the text by single writes, each of which may accept less than it is offered.
pub fn write_text<O: Write>(output: &mut O, text: &[u8]) -> Result<(), Broken>
    ensures { (done more : List ℕ) × (text.now ≡ done ++ more)
        × Appends (O.contents output.old) (O.contents output.new) done
        × OnOk result (more ≡ []) }
{
    let mut rest = text;
    for _ in 0..u64::MAX {
        if rest.is_empty() {
            return Ok(());
        }
        match output.write(rest) {
            Ok(0) => return Err(Broken),
            Ok(n) => rest = &rest[n..],
            Err(e) => {
                if e.kind() != ErrorKind::Interrupted {
                    return Err(Broken);
                }
            }
        }
    }
    Err(Broken)
}

/// What is left of a line at the start of a reader's bytes.
#[derive(Clone, Copy)]
pub enum Part {
    /// The line's end, with its line feed.
    Feed,
    /// A part of the line.
    More,
    /// Nothing: the reader is at its end.
    Nothing,
}

/// What `next_line` found.
#[derive(Clone, Copy)]
pub enum Found {
    /// A line with its line feed.
    Line,
    /// The last line, which has none.
    Last,
    /// No line.
    End,
}

/// Moves what the reader shows of the line to the end of `line`. `at_hand` is then how many bytes the reader shows
/// after it: at 0 the next look at the reader may wait.
pub fn take_part<I: BufRead>(
    input: &mut I,
    line: &mut Vec<u8>,
    at_hand: &mut usize,
) -> Result<Part, Fault>
    ensures { TakesPart (I.remaining input.old) (I.remaining input.new) line.old.items line.new.items result }
{
    *at_hand = 0;
    let shown = match input.fill_buf() {
        Ok(shown) => shown,
        Err(e) => {
            return if e.kind() == ErrorKind::Interrupted {
                Ok(Part::More)
            } else {
                Err(Fault::Device)
            };
        }
    };
    if shown.is_empty() {
        return Ok(Part::Nothing);
    }
    let end = place_of(shown, b'\n');
    let is_ended = end < shown.len();
    line.extend_from_slice(&shown[..end])?;
    if is_ended {
        *at_hand = shown.len() - end - 1;
        input.consume(end + 1);
        Ok(Part::Feed)
    } else {
        input.consume(end);
        Ok(Part::More)
    }
}

/// Appends what is left of the line to `line`, without its line feed. `at_hand` is as `take_part` leaves it.
pub fn rest_of_line<I: BufRead>(
    input: &mut I,
    line: &mut Vec<u8>,
    at_hand: &mut usize,
) -> Result<Found, Fault>
    requires { IsLine line.old.items }
    ensures { (rest : List ℕ) × (line.new.items ≡ line.old.items ++ rest)
        × ReadsRest (I.remaining input.old) (I.remaining input.new) line.new.items rest result }
{
    for _ in 0..u64::MAX {
        match take_part(input, line, at_hand)? {
            Part::Feed => return Ok(Found::Line),
            Part::More => {}
            Part::Nothing => {
                return Ok(if line.is_empty() {
                    Found::End
                } else {
                    Found::Last
                });
            }
        }
    }
    Err(Fault::Device)
}

/// Reads the next line into `line`, in place of its content, without its line feed.
pub fn next_line<I: BufRead>(input: &mut I, line: &mut Vec<u8>) -> Result<Found, Fault>
    ensures { ReadsLine (I.remaining input.old) (I.remaining input.new) line.new.items result }
{
    line.clear();
    let mut at_hand = 0;
    rest_of_line(input, line, &mut at_hand)
}
