//! The tree lines: a tree of new books.
ghost use Rattle.std.specs.Prelude.{◌≡◌, ◌+◌, ◌<◌, ◌^◌, ◌∷◌, [], ℕ, List, Some, OnSome, IfSome};
ghost use Rattle.std.specs.Prelude.{MatchResult};
ghost use Rattle.std.specs.Io.KnownBytes.{Consumes, IsAtEnd};
ghost use Rattle.tool_grammar.specs.declared.error.RunError.TheVariants.{Device as NoDevice};
ghost use Rattle.tool_trees.specs.declared.level.Level.{Level as Stacked};
ghost use Rattle.tool_trees.specs.Doing.{level_meaning};
ghost use Rattle.tool_lines.specs.TreeReading.{BuildsTree, RefusesTree, error_at};

use metrics::Recorder;
use metrics_debugging::DebuggingRecorder;
use metrics_trees::Child;
use std::alloc::Global;
use std::io::BufRead;
use tool_grammar::RunError;
use tool_stream::{Found, at_line, next_line};
use tool_trees::{Level, LineError, read_line};

/// The error at a tree line with this number.
fn at_tree_line(error: LineError, number: u64) -> RunError
    ensures { result ≡ error_at number error }
{
    match error {
        LineError::Memory => RunError::Memory(Some(number)),
        LineError::Bad => RunError::BadLine(number),
    }
}

/// The one recorder of the stack.
fn only_one(mut stack: Vec<Level>) -> Option<Child<DebuggingRecorder>>
    ensures { IfSome result (λ child. (l : Stacked) → stack.items ≡ l ∷ []
        → ⟦<Child<DebuggingRecorder> as Recorder>⟧.meaning child ≡ level_meaning l) }
{
    match stack.pop() {
        Some(Level { child, .. }) => Some(child),
        None => None,
    }
}

/// The one recorder of the stack, at an `end` with this number.
fn built(stack: Vec<Level>, number: u64) -> Result<(Child<DebuggingRecorder>, u64), RunError>
    requires { number + 1 < 2 ^ 64 }
    ensures { MatchResult result
        (λ found. (found.1 ≡ number + 1) × ((l : Stacked) → stack.items ≡ l ∷ []
        → ⟦<Child<DebuggingRecorder> as Recorder>⟧.meaning found.0 ≡ level_meaning l))
        (λ e. e ≡ NoDevice) }
{
    match only_one(stack) {
        Some(child) => Ok((child, number + 1)),
        None => Err(RunError::Device),
    }
}

/// Reads the tree lines, and returns a tree of new books and the number of the next line.
///
/// The lines work on a stack of recorders. `book` and `noop` push one, `prefix P` and `filter ..` wrap the top, `fanout
/// N` and `router T ROUTE ..` combine several, and at `end` there must be just one. An input that ends earlier has its
/// bad line at the number after its last line.
///
/// The error for out of memory has the number of the line after those that were accepted; at a device's fault at most
/// one line more was read.
pub fn tree<I: BufRead>(
    alloc: Global,
    input: &mut I,
) -> Result<(Child<DebuggingRecorder>, u64), RunError>
    ensures { (read : List ℕ) × Consumes (I.remaining input.old) (I.remaining input.new) read
        × MatchResult result
        (λ found. BuildsTree (OnSome (I.remaining input.old) (IsAtEnd (I.remaining input.new))) read
        (⟦<Child<DebuggingRecorder> as Recorder>⟧.meaning found.0) found.1)
        (λ e. RefusesTree (OnSome (I.remaining input.old) (IsAtEnd (I.remaining input.new))) read e) }
{
    let mut stack = Vec::new(alloc);
    let mut line = Vec::new(alloc);
    for number in 1..u64::MAX {
        match next_line(input, &mut line) {
            Ok(Found::Line) => match read_line(alloc, &mut stack, &line) {
                Ok(true) => return built(stack, number),
                Ok(false) => {}
                Err(error) => return Err(at_tree_line(error, number)),
            },
            Ok(Found::Last) => {
                return match read_line(alloc, &mut stack, &line) {
                    Ok(true) => built(stack, number),
                    Ok(false) => Err(RunError::BadLine(number + 1)),
                    Err(error) => Err(at_tree_line(error, number)),
                };
            }
            Ok(Found::End) => return Err(RunError::BadLine(number)),
            Err(fault) => return Err(at_line(fault, number)),
        }
    }
    Err(RunError::Device)
}
