//! What each tree line does to the stack.
ghost use Rattle.std.specs.Prelude.{◌≡◌, ◌-◌, ◌^◌, ℕ, List, min, length, MatchResult};
ghost use Rattle.tool_trees.specs.declared.tree_line.TreeLine.TheVariants as line;
ghost use Rattle.tool_trees.specs.declared.level.LineError.TheVariants.{Bad as IsBadLine};
ghost use Rattle.tool_trees.specs.Words.{spelling, CanBeSpelled, Spells};
ghost use Rattle.tool_trees.specs.Trees.{arity, line_meaning, Fits};
ghost use Rattle.tool_trees.specs.Doing.{level_meanings, DoesLine};

use crate::building::{below_filter, below_prefix, book, fanout_over, take_top};
use crate::level::{Level, LineError, refusing};
use crate::routing::router_over;
use crate::tree_line::TreeLine;
use crate::words::tree_line_of;
use metrics::Recorder;
use metrics_debugging::DebuggingRecorder;
use metrics_trees::Child;
use std::alloc::Global;
use std::collections::VecDeque;

/// The greatest number of levels of a tree.
const MOST_LEVELS: u64 = 1000;

/// How many recorders a line uses, or as many as a number can say.
fn uses(said: &TreeLine) -> u64
    requires { CanBeSpelled said.now }
    ensures { result ≡ min (arity said.now) (2 ^ 64 - 1) }
{
    match said {
        TreeLine::Book | TreeLine::Noop | TreeLine::End => 0,
        TreeLine::Prefix(_) | TreeLine::Filter(..) => 1,
        TreeLine::Fanout(count) => *count,
        TreeLine::Router(targets, _) => targets.saturating_add(1),
    }
}

/// The recorder of a line, over the recorders that it uses.
fn made_of(
    alloc: Global,
    said: &TreeLine,
    taken: VecDeque<Level>,
) -> Result<Child<DebuggingRecorder>, LineError>
    requires said { CanBeSpelled said.now }
    requires taken { length taken.items ≡ arity said.now }
    ensures { let all = level_meanings taken.items in MatchResult result
        (λ c. Fits said.now all × (⟦<Child<DebuggingRecorder> as Recorder>⟧.meaning c ≡ line_meaning said.now all))
        (λ e. e ≡ IsBadLine → Fits said.now all → ⊥) }
{
    match said {
        TreeLine::Book => book(alloc),
        TreeLine::Noop => Ok(Child::noop()),
        TreeLine::Prefix(prefix) => below_prefix(alloc, taken, prefix),
        TreeLine::Filter(fold, table, patterns) => {
            below_filter(alloc, taken, *fold, *table, patterns.as_slice())
        }
        TreeLine::Fanout(_) => fanout_over(alloc, taken),
        TreeLine::Router(_, routes) => router_over(alloc, taken, routes.as_slice()),
        TreeLine::End => Err(LineError::Bad),
    }
}

/// Does what a line other than `end` says: replaces recorders at the top of the stack by one over them, the deepest first.
fn put_line(alloc: Global, stack: &mut Vec<Level>, said: &TreeLine) -> Result<bool, LineError>
    requires { CanBeSpelled said.now }
    ensures { (bytes : List ℕ) → Spells bytes said.now → (bytes ≡ spelling line.End → ⊥)
        → DoesLine bytes stack.old.items stack.new.items result }
{
    let (taken, most) = take_top(alloc, stack, uses(said))?;
    let child = made_of(alloc, said, taken)?;
    if most >= MOST_LEVELS {
        return Err(refusing(LineError::Bad, child));
    }
    stack.push(Level {
        child,
        levels: most + 1,
    })?;
    Ok(false)
}

/// Does what a line says, and returns whether the tree ends here, where the stack must hold just one recorder.
pub fn read_line(alloc: Global, stack: &mut Vec<Level>, line: &[u8]) -> Result<bool, LineError>
    ensures { DoesLine line.now stack.old.items stack.new.items result }
{
    if line == b"end".as_slice() {
        return if stack.len() == 1 {
            Ok(true)
        } else {
            Err(LineError::Bad)
        };
    }
    match tree_line_of(alloc, line) {
        Ok(Some(said)) => put_line(alloc, stack, &said),
        Ok(None) => Err(LineError::Bad),
        Err(_) => Err(LineError::Memory),
    }
}
