//! Spare pens of a bucket, for threads that come to know it.
ghost use Rattle.std.specs.Prelude.{◌≡◌, ◌*◌, ◌^◌, ◌⊎◌, true, false, All, IfOk, OnOk, IfErr};
ghost use Rattle.metrics_bucket.specs.Account.{first_account, looked_at};
ghost use Rattle.metrics_bucket.specs.Spares.{fresh_account, spare_account, IsSpareOf, WithSpares};

use crate::pen::{Pen, Words};
use crate::view::{Turn, View};
use atomic_table::{PerchPlay, PerchRule, RuledPerch};
use metrics::Error;
use std::alloc::Global;
use std::marker::Model;
use std::sync::Arc;

/// How many pens wait at first.
const SPARES: usize = 127;

/// Into how many pens a first pen is divided, as a power of 2.
const DEPTH: usize = 7;

// The rule of a perch: its first mark knows whether it has stepped yet, and before its first step the perch is empty.
pub(crate) struct Vacant;

impl PerchRule<bool> for Vacant {
    ghost use Rattle.metrics_bucket.specs.Spares.{IsVacantFor};

    ghost holds = { IsVacantFor };

    ghost first = { true };
}

impl PerchPlay<bool> for Vacant {
    ghost use Rattle.metrics_bucket.specs.Spares.{found_vacant};

    ghost then = { found_vacant };
}

pub(crate) struct Leaves;

impl PerchPlay<bool> for Leaves {
    ghost use Rattle.std.specs.Prelude.{⊤};

    ghost then = { λ _ _ _ _ _. ⊤ };
}

type Post = RuledPerch<Turn, View, bool, Vacant>;

/// Pens of one bucket that wait, each of weight 8 and with an empty account.
///
/// Contracts see it as the home of its pens.
#[derive(Drop)]
pub struct Spares {
    table: Arc<Words, Global>,
    places: usize,
    posts: Vec<Post>,
}

impl Model for Spares {
    ghost use Rattle.metrics_bucket.specs.Account.{Home, home_code};

    ghost Value = { Home };

    ghost coded = { home_code };

    ghost use Rattle.metrics_bucket.specs.Spares.{spares_home, AreSpares};

    ghost view = { spares_home };

    ghost invariant = { AreSpares };
}

impl Spares {
    /// Divides a bucket's first pen into 128. The pen stays one of them, and the others wait.
    ///
    /// Fails only when out of memory.
    pub fn new(alloc: Global, places: usize, pen: &mut Pen) -> Result<Spares, Error>
        requires first { pen.old ≡ looked_at (first_account pen.old.home) pen.old.seen pen.old.looks }
        requires places { pen.old.home.places ≡ places }
        ensures ok { IfOk result (λ s. (s ≡ pen.old.home)
            × (pen.new ≡ looked_at (spare_account pen.old.home) pen.old.seen pen.old.looks)) }
        ensures err { IfErr result (λ e. e ≡ Error.Memory) }
    {
        let Ok(mut posts) = Vec::with_capacity(alloc, SPARES) else {
            return Err(Error::Memory);
        };
        divide(pen, DEPTH, &mut posts)?;
        let Ok(table) = Arc::try_clone(&pen.table) else {
            return Err(Error::Memory);
        };
        Ok(Spares {
            table,
            places,
            posts,
        })
    }

    /// Makes an empty list of waiting pens, for a bucket whose first pen stays whole.
    ///
    /// Fails only when out of memory.
    pub fn none(alloc: Global, places: usize, pen: &mut Pen) -> Result<Spares, Error>
        requires places { pen.old.home.places ≡ places }
        ensures ok { IfOk result (λ s. s ≡ pen.old.home) }
        ensures same { pen.new ≡ pen.old }
        ensures err { IfErr result (λ e. e ≡ Error.Memory) }
    {
        let Ok(table) = Arc::try_clone(&pen.table) else {
            return Err(Error::Memory);
        };
        Ok(Spares {
            table,
            places,
            posts: Vec::new(alloc),
        })
    }

    // Takes the pen that waits at this place.
    fn take_at(&self, at: usize) -> Result<Pen, Error>
        ensures ok { IfOk result (λ p. p ≡ spare_account self.now) }
        ensures err { IfErr result (λ e. (e ≡ Error.Memory) ⊎ (e ≡ Error.NoPen)) }
    {
        let Some(post) = self.posts.get(at) else {
            return Err(Error::NoPen);
        };
        let Ok(table) = Arc::try_clone(&self.table) else {
            return Err(Error::Memory);
        };
        let (_, _, found) = post.swap_new_mark::<Leaves>(0);
        let Some(seat) = found else {
            return Err(Error::NoPen);
        };
        Ok(Pen {
            table,
            seat,
            weight: 8,
            ticket: None,
        })
    }

    /// Takes a pen of this bucket that has done nothing.
    ///
    /// `NoPen`: none is left.
    pub fn take(&self) -> Result<Pen, Error>
        ensures ok { IfOk result (λ p. p ≡ spare_account self.now) }
        ensures err { IfErr result (λ e. (e ≡ Error.Memory) ⊎ (e ≡ Error.NoPen)) }
    {
        for at in 0..SPARES {
            match self.take_at(at) {
                Err(Error::NoPen) => {}
                found => return found,
            }
        }
        Err(Error::NoPen)
    }

    /// Joins all pens that still wait into this pen.
    ///
    /// If it runs out of memory, the pen keeps those that it has joined.
    pub fn gather(&self, pen: &mut Pen) -> Result<(), Error>
        requires own { pen.old.home ≡ self.now }
        requires free { pen.old.ticket ≡ false }
        ensures more { WithSpares pen.old pen.new }
        ensures err { IfErr result (λ e. e ≡ Error.Memory) }
    {
        for at in 0..SPARES {
            match self.take_at(at) {
                Ok(other) => pen.join(other),
                Err(Error::NoPen) => {}
                Err(_) => return Err(Error::Memory),
            }
        }
        Ok(())
    }
}

// Puts all parts of weight 8 but one on perches, and leaves that one to the pen.
fn divide(pen: &mut Pen, depth: usize, posts: &mut Vec<Post>) -> Result<(), Error>
    requires fresh { pen.old ≡ looked_at (fresh_account pen.old.home (8 * 2 ^ depth)) pen.old.seen pen.old.looks }
    requires spares { All (IsSpareOf pen.old.home) posts.old.items }
    ensures ok { OnOk result ((pen.new ≡ looked_at (spare_account pen.old.home) pen.old.seen pen.old.looks)
        × All (IsSpareOf pen.old.home) posts.new.items) }
    ensures err { IfErr result (λ e. e ≡ Error.Memory) }
{
    if depth == 0 {
        return Ok(());
    }
    let other = pen.split()?;
    scatter(other, depth - 1, posts)?;
    divide(pen, depth - 1, posts)
}

// Puts all parts of weight 8 on perches.
fn scatter(mut pen: Pen, depth: usize, posts: &mut Vec<Post>) -> Result<(), Error>
    requires fresh { pen ≡ fresh_account pen.home (8 * 2 ^ depth) }
    requires spares { All (IsSpareOf pen.home) posts.old.items }
    ensures ok { OnOk result (All (IsSpareOf pen.home) posts.new.items) }
    ensures err { IfErr result (λ e. e ≡ Error.Memory) }
{
    if depth == 0 {
        return rest(pen, posts);
    }
    let other = pen.split()?;
    scatter(other, depth - 1, posts)?;
    scatter(pen, depth - 1, posts)
}

// Puts the pen's seat on a perch of its own.
fn rest(pen: Pen, posts: &mut Vec<Post>) -> Result<(), Error>
    requires spare { pen ≡ spare_account pen.home }
    requires spares { All (IsSpareOf pen.home) posts.old.items }
    ensures ok { OnOk result (All (IsSpareOf pen.home) posts.new.items) }
    ensures err { IfErr result (λ e. e ≡ Error.Memory) }
{
    let Pen {
        table: _,
        seat,
        weight: _,
        ticket: _,
    } = pen;
    let (post, mut mark) = RuledPerch::<Turn, View, bool, Vacant>::new(&seat, 0);
    let Ok(()) = post.give::<Vacant>(&mut mark, seat, 0, 2) else {
        unreachable!()
    };
    let Ok(()) = posts.push(post) else {
        return Err(Error::Memory);
    };
    Ok(())
}
