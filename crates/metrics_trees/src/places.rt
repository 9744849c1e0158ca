//! Where the books of several recorders are.
ghost use Rattle.std.specs.Prelude.{◌≡◌, ◌<◌, ◌++◌, IsTrue, OnOk, OnErr};
ghost use Rattle.std.specs.Result.{result_map_both};
ghost use Rattle.metrics_trees.specs.Places.{Ascends, IsLast, raised, IsAppended, CanRaise, CanAppend};

use metrics::{Address, Refused};
use std::alloc::AllocError;

/// The last of several starts that is at most a number, by place, where they ascend from 0. It looks first at the place of that
/// number, where it is if each has one book.
pub(crate) fn last_start(starts: &[usize], book: usize) -> usize
    requires { Ascends starts.now }
    ensures { IsLast starts.now book result }
{
    if is_last(starts, book, book) {
        return book;
    }
    starts.partition_point(|start| *start <= book) - 1
}

/// Whether that is at a place.
fn is_last(starts: &[usize], number: usize, book: usize) -> bool
    ensures { IsTrue result → IsLast starts.now book number }
{
    number < starts.len()
        && starts[number] <= book
        && (number + 1 == starts.len() || book < starts[number + 1])
}

/// Raises the addresses of a recorder that comes after `front` books.
fn raise(found: &mut [Address], front: usize)
    requires { CanRaise front found.old }
    ensures { found.new ≡ raised front found.old }
{
    for at in found {
        at.book = front + at.book;
    }
}

/// Adds the addresses of a recorder that comes after `front` books. The first list is reused, not copied.
#[inline(always)]
fn append_raised(
    found: &mut Vec<Address>,
    front: usize,
    mut there: Vec<Address>,
) -> Result<(), AllocError>
    requires { CanRaise front there.items }
    ensures ok { OnOk result (found.new.items ≡ found.old.items ++ raised front there.items) }
    ensures err { OnErr result (found.new.items ≡ found.old.items) }
{
    if there.is_empty() {
        return Ok(());
    }
    raise(&mut there, front);
    if found.is_empty() {
        *found = there;
        return Ok(());
    }
    found.extend_from_slice(&there)
}

/// Adds the result of a recorder that comes after `front` books to the results of those before it. The error of a call says how
/// many of that recorder's targets it acted on.
#[inline(always)]
pub(crate) fn append_answer(
    found: &mut Vec<Address>,
    front: usize,
    answer: Result<Vec<Address>, Refused>,
) -> Result<(), Refused>
    requires { CanAppend front (result_map_both (λ v. v.items) (λ e. e) answer) }
    ensures { IsAppended found.old.items found.new.items front
        (result_map_both (λ v. v.items) (λ e. e) answer) result }
{
    let there = answer?;
    let acted = there.len();
    match append_raised(found, front, there) {
        Ok(()) => Ok(()),
        Err(_) => Err(Refused::Memory { acted }),
    }
}
