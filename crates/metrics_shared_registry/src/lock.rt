//! A lock that many threads may share, or one may have alone.
ghost use Rattle.std.specs.Prelude.{◌≡◌, ◌%◌, ◌<◌, IsTrue, Some, IsSome, IfSome, IsSomeAnd};
ghost use Rattle.std.specs.Arc.{arc_value};
ghost use Rattle.counted_slot.specs.Counting.{readers};
ghost use Rattle.crossbeam_utils.specs.Padded.{padded_value};

use counted_slot::{Claim, Counted, Fits, MARKED, MOST_READERS, ONE_READER, PRESENT, TAKEN};
use crossbeam_utils::CachePadded;
use std::alloc::{AllocError, Global};
use std::hint::spin_loop;
use std::ops::{Deref, DerefMut};
use std::sync::atomic::{AtomicU64, Ordering};
use std::sync::{Arc, Mutex, MutexGuard, Wait};

/// How often a writer looks whether the last reader has left, before it sleeps.
const LOOKS: u32 = 100;

/// An owner of the value. Its place is empty while a writer has the value.
type Owner<T> = Arc<Option<T>>;

/// What a door's slot holds: an owner of the value, or nothing while a writer comes or has the value.
///
/// Readers change the word beside it as they come and leave, so what they read is on other cache lines, and so is the value.
#[derive(Drop)]
pub(crate) struct Kept<T>(CachePadded<Option<Owner<T>>>);

/// A word that counts the readers who came by it, and what they read.
type Door<T> = Counted<Kept<T>>;

impl<T> Fits for Kept<T> {
    type Tag = ();

    ghost fits = { λ _ _. Unit {0} };
}

/// Returns the state of a word: `PRESENT`, `MARKED` or `TAKEN`.
fn state_of(word: u64) -> u64
    ensures { result ≡ word % 4 }
{
    word % 4
}

/// Returns the number of readers that a word counts.
fn reader_count(word: u64) -> u64
    ensures { result ≡ readers word }
{
    word % 0x1_0000_0000 / ONE_READER
}

/// Returns whether a writer may take the value.
fn is_unread(word: u64) -> bool
    ensures { IsTrue result → (word % 4 < 3) × (readers word ≡ 0) }
{
    state_of(word) != TAKEN && reader_count(word) == 0
}

/// Keeps new readers out of a door.
fn mark<T>(door: &Door<T>) {
    let mut seen = door.load();
    for _ in 0..u64::MAX {
        if state_of(seen) != PRESENT {
            return;
        }
        let (found, claim) = door.turn(seen, seen - PRESENT + MARKED);
        claim.done();
        if found == seen {
            return;
        }
        seen = found;
    }
}

/// Exchanges what a door's slot holds, and leaves this state. Returns nothing if somebody reads.
fn exchange<T: Drop>(
    door: &Door<T>,
    owner: Option<Owner<T>>,
    state: u64,
) -> Option<Option<Owner<T>>>
    requires { state < 3 }
{
    let seen = door.load();
    if !is_unread(seen) {
        return None;
    }
    let (found, claim) = door.turn(seen, TAKEN);
    if found != seen {
        claim.done();
        return None;
    }
    Some(
        claim
            .put(Kept(CachePadded::new(owner)), state)
            .0
            .into_inner(),
    )
}

/// Takes the value out of its place, if nobody else owns it.
fn take<T: Drop>(owner: Option<Owner<T>>) -> Option<(Owner<T>, T)> {
    let mut owner = owner?;
    let value = Arc::get_mut(&mut owner)?.take()?;
    Some((owner, value))
}

/// A value that many threads may read at once, or one may change.
///
/// Readers come by one of two doors. Each tries the first as if nobody else read: a look before would fetch the word's cache
/// line once to read it and once more to change it. One that meets others there goes to the second, so that fewer threads change
/// each word. A reader comes only at `PRESENT`, and changes its door's word once more as it leaves. A writer marks both doors,
/// so that no more readers come, waits until the last has left, and takes what the slots hold. The doors stay marked, and it is
/// the value's only owner, until it puts the value back.
///
/// No contract says what the value is, since other threads may change it at any time.
#[derive(Drop)]
pub(crate) struct Lock<T> {
    /// Writers have this one at a time, and a reader that meets one waits for it.
    turn: Mutex<()>,
    /// 1 if a writer may sleep until the last reader of a door has left.
    sleeps: AtomicU64,
    first: Door<T>,
    second: Door<T>,
}

impl<T: Drop> Lock<T> {
    /// Makes a lock of a value.
    pub fn new(alloc: Global, value: T) -> Result<Lock<T>, AllocError> {
        let Ok(owner) = Arc::new(alloc, Some(value)) else {
            return Err(AllocError);
        };
        let lock = Lock {
            turn: Mutex::new(()),
            sleeps: AtomicU64::new(0),
            first: Counted::new(Kept(CachePadded::new(None)), &()),
            second: Counted::new(Kept(CachePadded::new(None)), &()),
        };
        lock.open(owner);
        Ok(lock)
    }

    /// Waits until no writer has the value or waits for it, and reads it.
    #[inline(always)]
    pub fn read<R: Wait>(&self, rt: &R) -> ReadGuard<'_, T> {
        match self.come() {
            Some(guard) => guard,
            None => self.come_later(rt),
        }
    }

    /// Waits for the writers that have their turn, until it can read.
    #[inline(never)]
    fn come_later<R: Wait>(&self, rt: &R) -> ReadGuard<'_, T> {
        for _ in rt.forever() {
            drop(self.turn.lock(rt));
            if let Some(guard) = self.come() {
                return guard;
            }
        }
        unreachable!()
    }

    /// Reads the value, unless a writer has it or waits for it.
    #[inline(always)]
    fn come(&self) -> Option<ReadGuard<'_, T>> {
        let (found, claim) = self.first.turn(PRESENT, PRESENT + ONE_READER);
        if found == PRESENT {
            return ReadGuard::new(self, claim);
        }
        claim.done();
        self.come_beside()
    }

    /// Comes by the second door.
    #[inline(always)]
    fn come_beside(&self) -> Option<ReadGuard<'_, T>> {
        let mut seen = PRESENT;
        // Each further turn follows a step of another thread.
        for _ in 0..u64::MAX {
            if state_of(seen) != PRESENT || reader_count(seen) == MOST_READERS {
                return None;
            }
            let (found, claim) = self.second.turn(seen, seen + ONE_READER);
            if found == seen {
                return ReadGuard::new(self, claim);
            }
            claim.done();
            seen = found;
        }
        None
    }

    /// Waits until nobody else has the value, and takes it.
    #[inline(never)]
    pub fn write<R: Wait>(&self, rt: &R) -> WriteGuard<'_, T> {
        let turn = self.turn.lock(rt);
        mark(&self.first);
        mark(&self.second);
        // The first turn returns, since nobody else owns the value then.
        for _ in rt.forever() {
            let owner = self.shut(rt, &self.first);
            drop(self.shut(rt, &self.second));
            if let Some((owner, value)) = take(owner) {
                return WriteGuard {
                    lock: self,
                    owner,
                    value,
                    turn,
                };
            }
        }
        unreachable!()
    }

    /// Waits until the last reader of a marked door has left, and takes what its slot holds.
    fn shut<R: Wait>(&self, rt: &R, door: &Door<T>) -> Option<Owner<T>> {
        for _ in rt.forever() {
            if let Some(owner) = exchange(door, None, MARKED) {
                return owner;
            }
            self.wait_for_readers(rt, door);
        }
        unreachable!()
    }

    /// Lets readers come by both doors, whose slots are empty. If it can't have a second owner, they come by the first.
    fn open(&self, owner: Owner<T>) {
        exchange(&self.second, Arc::try_clone(&owner).ok(), PRESENT);
        exchange(&self.first, Some(owner), PRESENT);
    }

    /// Puts the value back.
    fn give(&self, mut owner: Owner<T>, value: T) {
        if let Some(place) = Arc::get_mut(&mut owner) {
            *place = Some(value);
        }
        self.open(owner);
    }

    /// Waits until the readers of a marked door have left.
    fn wait_for_readers<R: Wait>(&self, rt: &R, door: &Door<T>) {
        for _ in 0..LOOKS {
            if is_unread(door.load()) {
                return;
            }
            spin_loop();
        }
        self.sleeps.store(1, Ordering::SeqCst);
        // A reader that leaves after this look finds the 1.
        if !is_unread(door.load()) {
            self.sleeps.park(rt, 1);
        }
    }
}

impl<T> Lock<T> {
    /// Ends a reader's claim. The last reader of a marked word wakes the writer.
    #[inline(always)]
    fn leave(&self, claim: Claim<'_, Kept<T>>)
        requires { claim.right ≡ 1 }
    {
        if claim.leave() == MARKED + ONE_READER {
            self.wake_writer();
        }
    }

    /// Wakes the writer if it sleeps.
    #[inline(never)]
    fn wake_writer(&self) {
        if self.sleeps.swap(0, Ordering::SeqCst) == 1 {
            self.sleeps.wake_one();
        }
    }
}

/// A reader of a lock's value.
pub(crate) struct ReadGuard<'a, T> {
    lock: &'a Lock<T>,
    claim: Claim<'a, Kept<T>>,
    ghost reads: { claim.right ≡ 1 },
    ghost filled: { ∥ IsSomeAnd claim.value (λ kept. IsSomeAnd (padded_value kept.0) (λ o. IsSome (arc_value o))) ∥₁ },
}

impl<'a, T> ReadGuard<'a, T> {
    /// Reads the value, or ends the claim if there is none.
    #[inline(always)]
    fn new(lock: &'a Lock<T>, claim: Claim<'a, Kept<T>>) -> Option<ReadGuard<'a, T>>
        requires { claim.right ≡ 1 }
    {
        if claim.get().0.as_ref().is_some_and(|owner| owner.is_some()) {
            Some(ReadGuard { lock, claim })
        } else {
            lock.leave(claim);
            None
        }
    }
}

impl<T> Deref for ReadGuard<'_, T> {
    type Target = T;

    ghost deref_gives = { λ g x. IfSome g.claim.value (λ kept. IfSome (padded_value kept.0) (λ o. arc_value o ≡ Some x)) };

    #[inline(always)]
    fn deref(&self) -> &T {
        let Some(owner) = &*self.claim.get().0 else {
            unreachable!()
        };
        match &**owner {
            Some(value) => value,
            None => unreachable!(),
        }
    }
}

impl<T> Drop for ReadGuard<'_, T> {
    #[inline(always)]
    fn drop(self) {
        let Self { lock, claim } = self;
        lock.leave(claim);
    }
}

/// A writer, which has a lock's value out. Dropped, it puts the value back.
pub(crate) struct WriteGuard<'a, T: Drop> {
    lock: &'a Lock<T>,
    owner: Owner<T>,
    value: T,
    turn: MutexGuard<'a, ()>,
}

impl<T: Drop> Deref for WriteGuard<'_, T> {
    type Target = T;

    ghost deref_gives = { λ g x. x ≡ g.value };

    fn deref(&self) -> &T {
        &self.value
    }
}

impl<T: Drop> DerefMut for WriteGuard<'_, T> {
    ghost deref_mut_gives = { λ g x. x ≡ g.value };

    fn deref_mut(&mut self) -> &mut T {
        &mut self.value
    }
}

impl<T: Drop> Drop for WriteGuard<'_, T> {
    fn drop(self) {
        let Self {
            lock,
            owner,
            value,
            turn,
        } = self;
        lock.give(owner, value);
        drop(turn);
    }
}
