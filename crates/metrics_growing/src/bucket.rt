//! The growing bucket, and the calls that push.
ghost use Rattle.std.specs.Prelude.{◌≡◌, ℕ, ◌+◌, ◌*◌, ◌<◌, ◌≤◌, ◌⊎◌, IfOk, OnOk, IfErr};
ghost use Rattle.std.specs.Prelude.{MatchBool, Some, All, length, [], ◌∷◌, ◌++◌};
ghost use Rattle.once_cell.specs.Once.{cell_name};
ghost use Rattle.metrics_bucket.specs.Account.{first_account};
ghost use Rattle.metrics_bucket.specs.Spares.{spare_account};
ghost use Rattle.metrics_growing.specs.Parts.{Part, IsOf, IsPassed, OnlyLooks, PassedAll, ChangedAt, MetOne, Reached};
ghost use Rattle.metrics_growing.specs.Parts.{PushedIn, PassedIn, LostIn, Pushed, PushedByTries, LosesRace};

use crate::known::Known;
use crate::pen::GrowPen;
use crate::segment::{BLOCK_SIZE, Segment};
use metrics::Error;
use metrics_bucket::{Pen, Sample, is_block_count};
use metrics_cells::Pause;
use once_cell::race::{Note, OnceBox};
use std::alloc::Global;
use std::marker::{Model, PhantomData};
use std::sync::Wait;

/// How many segments there may be.
pub(crate) const LINKS: usize = 64;

/// A bucket that any number of threads push into, each with a `GrowPen` of its own, while one at a time clears it.
///
/// It is a chain of segments, each with twice as many places as the one before it. A push that finds all of them full makes
/// the next.
///
/// Contracts see it as the names of its links.
#[derive(Drop)]
pub struct GrowingBucket<T: Sample> {
    pub(crate) links: Vec<OnceBox<Segment>>,
    pub(crate) alloc: Global,
    blocks: usize,
    of: PhantomData<T>,
}

impl<T: Sample> Model for GrowingBucket<T> {
    ghost use Rattle.std.specs.Prelude.{◌≡◌, ◌<◌, ◌≤◌, List, ℕ, length, map};
    ghost use Rattle.std.specs.Coded.{coded_list, coded_ℕ};
    ghost use Rattle.once_cell.specs.Once.{cell_name};

    ghost Value = { List ℕ };

    ghost coded = { coded_list coded_ℕ };

    ghost view = { λ b. map cell_name b.links.items };

    ghost invariant = { λ b. (0 < b.blocks) × (b.blocks ≤ 1024) × (length b.links.items ≡ 64) };
}

// Appends this many empty links to the others.
fn fill(alloc: Global, count: usize, links: &mut Vec<OnceBox<Segment>>) -> Result<(), Error>
    ensures more { (more : _) × (links.new.items ≡ links.old.items ++ more) }
    ensures count { OnOk result (length links.new.items ≡ length links.old.items + count) }
    ensures err { IfErr result (λ e. e ≡ Error.Memory) }
{
    for _ in 0..count {
        let Ok(()) = links.push(OnceBox::new(alloc)) else {
            return Err(Error::Memory);
        };
    }
    Ok(())
}

impl<T: Sample> GrowingBucket<T> {
    /// Makes a bucket whose first segment has 1 to 1,024 blocks on each side, and its first pen, which is whole.
    ///
    /// Fails with `BadBlocks` for another number of blocks, otherwise only when out of memory.
    pub fn new(alloc: Global, blocks: usize) -> Result<(GrowingBucket<T>, GrowPen), Error>
        ensures own { IfOk result (λ r. IsOf r.0 r.1) }
        ensures first { IfOk result (λ r. (p : Part) × (r.1 ≡ p ∷ []) × (p.account ≡ first_account p.account.home)
            × (p.account.home.places ≡ 64 * blocks)) }
        ensures good { (0 < blocks) × (blocks ≤ 1024) → IfErr result (λ e. e ≡ Error.Memory) }
        ensures bad { (blocks ≡ 0) ⊎ (1024 < blocks) → result ≡ Err Error.BadBlocks }
    {
        if !is_block_count(blocks) {
            return Err(Error::BadBlocks);
        }
        let (segment, pen) = Segment::first(alloc, BLOCK_SIZE * blocks)?;
        let Ok(segment) = Box::new(alloc, segment) else {
            return Err(Error::Memory);
        };
        let link = OnceBox::new(alloc);
        let mut note = link.note();
        // The link is new, so it is empty.
        let Ok(()) = link.set_as(segment, &mut note) else {
            return Err(Error::Memory);
        };
        let mut links = Vec::new(alloc);
        let Ok(()) = links.push(link) else {
            return Err(Error::Memory);
        };
        fill(alloc, LINKS - 1, &mut links)?;
        let mut known = Vec::new(alloc);
        let Ok(()) = known.push(Known { pen, note }) else {
            return Err(Error::Memory);
        };
        let bucket = GrowingBucket {
            links,
            alloc,
            blocks,
            of: PhantomData,
        };
        Ok((bucket, GrowPen { alloc, known }))
    }

    // Takes a spare pen of the next link's segment, if there is one. It makes none, and returns whether it met one.
    pub(crate) fn meet(&self, known: &mut Vec<Known>) -> Result<bool, Error>
        requires own { IsOf self.now known.old.items }
        ensures own { IsOf self.now known.new.items }
        ensures ok { IfOk result (λ met. MatchBool met (MetOne known.old.items known.new.items)
            (known.new.items ≡ known.old.items)) }
        ensures err { IfErr result (λ e. (known.new.items ≡ known.old.items)
            × ((e ≡ Error.Memory) ⊎ ((e ≡ Error.NoPen) × (length known.old.items < length self.now)))) }
    {
        let Some(link) = self.links.get(known.len()) else {
            return Ok(false);
        };
        let mut note = link.note();
        let Some(segment) = link.get_as(&mut note) else {
            return Ok(false);
        };
        let Ok(()) = known.reserve(1) else {
            return Err(Error::Memory);
        };
        let pen = segment.spares.take()?;
        known.push_reserved(Known { pen, note });
        Ok(true)
    }

    // Makes a segment for the next link, which is empty. If another thread was first, it drops its own and takes a spare pen of
    // the other's.
    fn make(
        &self,
        known: &[Known],
        link: &OnceBox<Segment>,
        note: &mut Note<Segment>,
    ) -> Result<Pen, Error>
        requires cell { note.old.cell ≡ cell_name link.now }
        requires few { length known.now < 64 }
        requires full { All IsPassed known.now }
        ensures cell { note.new.cell ≡ note.old.cell }
        ensures ok { IfOk result (λ p. (p ≡ spare_account p.home) × (note.new.known ≡ Some p.home)) }
        ensures err { IfErr result (λ e. (e ≡ Error.Memory) ⊎ (e ≡ Error.NoPen)) }
    {
        let (segment, pen) = Segment::after(self.alloc, self.blocks, known)?;
        let Ok(segment) = Box::new(self.alloc, segment) else {
            return Err(Error::Memory);
        };
        match link.set_as(segment, note) {
            Ok(()) => Ok(pen),
            Err(_) => {
                let Some(winner) = link.get_as(note) else {
                    unreachable!()
                };
                winner.spares.take()
            }
        }
    }

    // Makes the next segment, and meets it. The pen saw all segments full that it knows.
    fn extend(&self, known: &mut Vec<Known>) -> Result<(), Error>
        requires own { IsOf self.now known.old.items }
        requires full { All IsPassed known.old.items }
        ensures own { IsOf self.now known.new.items }
        ensures ok { OnOk result (MetOne known.old.items known.new.items) }
        ensures err { IfErr result (λ e. (known.new.items ≡ known.old.items)
            × ((e ≡ Error.Memory) ⊎ ((e ≡ Error.NoPen) × (length known.old.items < length self.now)))) }
    {
        let Some(link) = self.links.get(known.len()) else {
            return Err(Error::Memory);
        };
        let Ok(()) = known.reserve(1) else {
            return Err(Error::Memory);
        };
        let mut note = link.note();
        let pen = self.make(known.as_slice(), link, &mut note)?;
        known.push_reserved(Known { pen, note });
        Ok(())
    }

    // Pushes into a segment that is known.
    fn push_at(&self, known: &mut Vec<Known>, at: usize, word: u64) -> Result<(), Error>
        requires own { IsOf self.now known.old.items }
        requires at { at < length known.old.items }
        ensures own { IsOf self.now known.new.items }
        ensures ok { OnOk result (ChangedAt (PushedIn word) at known.old.items known.new.items) }
        ensures err { IfErr result (λ e. ((e ≡ Error.Full) × ChangedAt PassedIn at known.old.items known.new.items)
            ⊎ ((e ≡ Error.Raced) × ChangedAt LostIn at known.old.items known.new.items)) }
    {
        let Some(link) = self.links.get(at) else {
            unreachable!()
        };
        let Some(part) = known.get_mut(at) else {
            unreachable!()
        };
        part.push(link, word)
    }

    // Meets the next segment if this one isn't known, and makes it if there is none.
    fn reach(&self, known: &mut Vec<Known>, at: usize) -> Result<(), Error>
        requires own { IsOf self.now known.old.items }
        requires at { at ≤ length known.old.items }
        requires full { at ≡ length known.old.items → All IsPassed known.old.items }
        ensures own { IsOf self.now known.new.items }
        ensures ok { OnOk result (Reached at known.old.items known.new.items) }
        ensures err { IfErr result (λ e. (at ≡ length known.old.items) × (known.new.items ≡ known.old.items)
            × ((e ≡ Error.Memory) ⊎ ((e ≡ Error.NoPen) × (length known.old.items < length self.now)))) }
    {
        if at < known.len() {
            return Ok(());
        }
        if self.meet(known)? {
            return Ok(());
        }
        self.extend(known)
    }

    // Pushes a word into the first segment that has a free place, and makes the next one if none has.
    fn try_word(&self, known: &mut Vec<Known>, word: u64) -> Result<(), Error>
        requires own { IsOf self.now known.old.items }
        ensures own { IsOf self.now known.new.items }
        ensures ok { OnOk result (Pushed word known.old.items known.new.items) }
        ensures err { IfErr result (λ e. OnlyLooks known.old.items known.new.items
            × ((((e ≡ Error.Memory) ⊎ ((e ≡ Error.NoPen) × (length known.new.items < length self.now)))
            × PassedAll known.old.items known.new.items)
            ⊎ ((e ≡ Error.Raced) × LosesRace known.old.items known.new.items))) }
    {
        // The loop's facts are of the links.
        let _ = &self.links;
        for at in 0..LINKS {
            self.reach(known, at)?;
            match self.push_at(known, at, word) {
                Ok(()) => return Ok(()),
                Err(Error::Full) => {}
                Err(Error::Raced) => return Err(Error::Raced),
                Err(_) => unreachable!(),
            }
        }
        Err(Error::Memory)
    }

    /// Pushes a value into the first segment that has a free place, or returns it.
    ///
    /// `Raced`: another thread drew the ticket; another try may succeed.
    /// `NoPen`: a segment that the pen doesn't know has no spare pen left.
    /// `Memory`: out of memory for a segment or a pen of one, or there are 64 full segments.
    pub fn try_push(&self, pen: &mut GrowPen, value: T) -> Result<(), (Error, T)>
        requires own { IsOf self.now pen.old }
        ensures own { IsOf self.now pen.new }
        ensures ok { OnOk result (Pushed (T.word value) pen.old pen.new) }
        ensures err { IfErr result (λ e. OnlyLooks pen.old pen.new
            × ((((e.0 ≡ Error.Memory) ⊎ ((e.0 ≡ Error.NoPen) × (length pen.new < length self.now)))
            × PassedAll pen.old pen.new) ⊎ ((e.0 ≡ Error.Raced) × LosesRace pen.old pen.new)) × (e.1 ≡ value)) }
    {
        match self.try_word(&mut pen.known, value.to_word()) {
            Ok(()) => Ok(()),
            Err(e) => Err((e, value)),
        }
    }

    /// Pushes a value as `try_push` does, and tries again after a lost race.
    pub fn push<R: Wait>(&self, rt: &R, pen: &mut GrowPen, value: T) -> Result<(), (Error, T)>
        requires own { IsOf self.now pen.old }
        ensures own { IsOf self.now pen.new }
        ensures ok { OnOk result (PushedByTries (T.word value) pen.old pen.new) }
        ensures err { IfErr result (λ e. OnlyLooks pen.old pen.new
            × ((e.0 ≡ Error.Memory) ⊎ ((e.0 ≡ Error.NoPen) × (length pen.new < length self.now)))
            × PassedAll pen.old pen.new × (e.1 ≡ value)) }
    {
        let pause = Pause::new();
        for _ in rt.forever() {
            match self.try_push(pen, value) {
                Ok(()) => return Ok(()),
                Err((Error::Raced, _)) => pause.after_lost_race(),
                Err(refused) => return Err(refused),
            }
        }
        unreachable!()
    }
}
