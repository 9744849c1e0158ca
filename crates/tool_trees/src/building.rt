//! Builds recorders out of recorders.
ghost use Rattle.std.specs.Prelude.{◌≡◌, ◌<◌, ◌≤◌, ◌++◌, ◌∷◌, [], length, MatchResult};
ghost use Rattle.std.specs.List.{sum_by};
ghost use Rattle.metrics.specs.Book.{new_book};
ghost use Rattle.metrics.specs.Meaning.{one_book};
ghost use Rattle.metrics.specs.Layers.{joined_all};
ghost use Rattle.metrics_trees.specs.Recorders.{books_in};
ghost use Rattle.tool_trees.specs.declared.tree_line.TreeLine.TheVariants as line;
ghost use Rattle.tool_trees.specs.declared.level.LineError.TheVariants.{Memory as NoMemory, Bad as IsBadLine};
ghost use Rattle.tool_trees.specs.Trees.{line_meaning};
ghost use Rattle.tool_trees.specs.Doing.{level_meanings, most_of};

use crate::level::{Level, LineError, refusing};
use metrics::{Recorder, Text};
use metrics_debugging::DebuggingRecorder;
use metrics_layers::{FilterLayer, PrefixLayer};
use metrics_trees::{Child, FanoutBuilder};
use std::alloc::Global;
use std::collections::VecDeque;

/// Returns a new book.
pub fn book(alloc: Global) -> Result<Child<DebuggingRecorder>, LineError>
    ensures { MatchResult result (λ c. ⟦<Child<DebuggingRecorder> as Recorder>⟧.meaning c ≡ one_book new_book)
        (λ e. e ≡ NoMemory) }
{
    match DebuggingRecorder::new(alloc) {
        Ok(book) => Ok(Child::leaf(book)),
        Err(_) => Err(LineError::Memory),
    }
}

/// The one recorder of a list.
fn only(mut taken: VecDeque<Level>) -> Child<DebuggingRecorder>
    requires { length taken.items ≡ 1 }
    ensures { level_meanings taken.items ≡ ⟦<Child<DebuggingRecorder> as Recorder>⟧.meaning result ∷ [] }
{
    let Some(Level { child, levels: _ }) = taken.pop_front() else {
        unreachable!()
    };
    child
}

/// Returns the one recorder below a prefix.
pub fn below_prefix(
    alloc: Global,
    taken: VecDeque<Level>,
    prefix: &Text,
) -> Result<Child<DebuggingRecorder>, LineError>
    requires { length taken.items ≡ 1 }
    ensures { MatchResult result
        (λ c. ⟦<Child<DebuggingRecorder> as Recorder>⟧.meaning c
        ≡ line_meaning (line.Prefix prefix.now) (level_meanings taken.items))
        (λ e. e ≡ NoMemory) }
{
    match PrefixLayer::new(alloc, prefix.as_str()) {
        Ok(layer) => Ok(only(taken).prefix(alloc, &layer)?),
        Err(_) => Err(refusing(LineError::Memory, taken)),
    }
}

/// The layer of a filter line.
fn filter_layer(
    alloc: Global,
    fold: bool,
    table: bool,
    patterns: &[Text],
) -> Result<FilterLayer, LineError>
    ensures { MatchResult result (λ l. l ≡ record { listed = patterns.now; fold_case = fold; table = table })
        (λ e. e ≡ NoMemory) }
{
    let mut layer = FilterLayer::default(alloc);
    layer.case_insensitive(fold).use_dfa(table);
    for pattern in patterns {
        if layer.add_pattern(pattern.as_str()).is_err() {
            return Err(LineError::Memory);
        }
    }
    Ok(layer)
}

/// Returns the one recorder below a filter.
pub fn below_filter(
    alloc: Global,
    taken: VecDeque<Level>,
    fold: bool,
    table: bool,
    patterns: &[Text],
) -> Result<Child<DebuggingRecorder>, LineError>
    requires { length taken.items ≡ 1 }
    ensures { let said = line.Filter fold table patterns.now in MatchResult result
        (λ c. (sum_by length patterns.now ≤ 1048576)
        × (⟦<Child<DebuggingRecorder> as Recorder>⟧.meaning c ≡ line_meaning said (level_meanings taken.items)))
        (λ e. e ≡ IsBadLine → 1048576 < sum_by length patterns.now) }
{
    match filter_layer(alloc, fold, table, patterns) {
        Ok(layer) => Ok(only(taken).filter(alloc, &layer)?),
        Err(error) => Err(refusing(error, taken)),
    }
}

/// Removes recorders from the top of the stack. Returns them, the deepest first, and their greatest number of levels.
pub fn take_top(
    alloc: Global,
    stack: &mut Vec<Level>,
    count: u64,
) -> Result<(VecDeque<Level>, u64), LineError>
    ensures { MatchResult result
        (λ taken. (stack.old.items ≡ stack.new.items ++ taken.0.items) × (length taken.0.items ≡ count)
        × (taken.1 ≡ most_of taken.0.items))
        (λ e. e ≡ IsBadLine → length stack.old.items < count) }
{
    if count > stack.len() as u64 {
        return Err(LineError::Bad);
    }
    let mut taken = VecDeque::new(alloc);
    let mut most: u64 = 0;
    for _number in 0..count {
        let Some(level) = stack.pop() else {
            return Err(LineError::Bad);
        };
        most = most.max(level.levels);
        taken.push_front(level)?;
    }
    Ok((taken, most))
}

/// Returns a fanout over recorders.
pub fn fanout_over(
    alloc: Global,
    mut taken: VecDeque<Level>,
) -> Result<Child<DebuggingRecorder>, LineError>
    ensures { let all = level_meanings taken.items in MatchResult result
        (λ c. (books_in all ≤ 65536) × (⟦<Child<DebuggingRecorder> as Recorder>⟧.meaning c ≡ joined_all all))
        (λ e. e ≡ IsBadLine → 65536 < books_in all) }
{
    let mut builder = FanoutBuilder::default(alloc);
    while let Some(Level { child, levels: _ }) = taken.pop_front() {
        match builder.add_recorder(child) {
            Ok(()) => {}
            Err(refused) => return Err(LineError::from(refused)),
        }
    }
    let fanout = Child::fanout(builder.build());
    // The trait bounds the number of books when it is asked for.
    let _books = fanout.books();
    Ok(fanout)
}
