//! The samples of a histogram in parts, so that threads that record at one time seldom wait for each other.
ghost use Rattle.std.specs.Prelude.{◌≡◌, IfOk, MatchResult};
ghost use Rattle.metrics_storage.specs.Histogram.{bounds_of, merged};
ghost use Rattle.metrics.specs.declared.error.Error.TheVariants.{CountFull};

use crate::note::KeyNote;
use crossbeam_utils::CachePadded;
use metrics::{Error, Key};
use metrics_storage::Histogram;
use once_cell::race::OnceBox;
use std::alloc::{AllocError, Global};
use std::sync::atomic::{AtomicUsize, Ordering};
use std::sync::{Mutex, Wait};

/// The samples of some handles, in cache lines of their own.
type Part = CachePadded<Mutex<Histogram>>;

/// The samples of a histogram. All parts have the same bounds, and no call holds the locks of two.
#[derive(Drop)]
pub(crate) struct Parts {
    alloc: Global,
    /// The key of the series.
    pub key: KeyNote,
    /// How many handles were given out, modulo 2^64.
    given: AtomicUsize,
    first: Part,
    /// Each is made at its first sample.
    others: Vec<OnceBox<Part>>,
}

/// Makes places for this many parts.
fn places(alloc: Global, count: usize) -> Result<Vec<OnceBox<Part>>, AllocError> {
    let mut places = Vec::with_capacity(alloc, count)?;
    for _ in 0..count {
        places.push(OnceBox::new(alloc))?;
    }
    Ok(places)
}

/// Adds the samples of a part.
fn add(total: &mut Histogram, part: &Histogram) -> Result<(), Error>
    ensures { bounds_of total.old ≡ bounds_of part.now → MatchResult result (λ _. total.new ≡ merged total.old part.now)
        (λ e. (e ≡ CountFull) × (total.new ≡ total.old)) }
{
    if total.same_bounds(part) {
        return total.merge(part);
    }
    Ok(())
}

impl Parts {
    /// Makes a histogram of a first part, which is there at once, and up to `others` further ones.
    pub fn new(
        alloc: Global,
        key: &Key,
        empty: Histogram,
        others: usize,
    ) -> Result<Parts, AllocError>
        ensures { IfOk result (λ p. p.key.key ≡ key.now) }
    {
        let others = places(alloc, others)?;
        Ok(Parts {
            alloc,
            key: KeyNote::of(key),
            given: AtomicUsize::new(0),
            first: CachePadded::new(Mutex::new(empty)),
            others,
        })
    }

    /// Returns the place of a new handle's part: that of the first part for the first handle, and then each in turn.
    pub fn next_place(&self) -> usize {
        let given = self.given.fetch_add(1, Ordering::SeqCst);
        self.others.len() - given % (self.others.len() + 1)
    }

    /// Makes a part without samples.
    fn new_part<W: Wait>(&self, rt: &W) -> Result<Box<Part>, Error> {
        let empty = self.first.lock(rt).new_like()?;
        Ok(Box::new(self.alloc, CachePadded::new(Mutex::new(empty)))?)
    }

    /// Returns the part at a place, and makes it unless another thread is first. Out of memory, it returns the first part.
    #[cold]
    fn make<'a, W: Wait>(&'a self, rt: &W, place: &'a OnceBox<Part>) -> &'a Part {
        match place.get_or_try_init(|| self.new_part(rt)) {
            Ok(part) => part,
            Err(_) => &self.first,
        }
    }

    /// Returns the part at a place, or the first part after the last place.
    fn at<W: Wait>(&self, rt: &W, place: usize) -> &Part {
        let Some(place) = self.others.get(place) else {
            return &self.first;
        };
        match place.get() {
            Some(part) => part,
            None => self.make(rt, place),
        }
    }

    /// Records a sample into the part at a place.
    pub fn record<W: Wait>(&self, rt: &W, place: usize, sample: i64) -> Result<(), Error> {
        self.at(rt, place).lock(rt).record(sample)
    }

    /// Returns where the parts' memory is from.
    pub fn allocator(&self) -> Global {
        self.alloc
    }

    /// Returns the number of samples in all parts, modulo 2^64.
    pub fn count<W: Wait>(&self, rt: &W) -> u64 {
        let mut count = self.first.lock(rt).count();
        for place in &self.others {
            if let Some(part) = place.get() {
                count = count.wrapping_add(part.lock(rt).count());
            }
        }
        count
    }

    /// Returns the samples of all parts. It locks one part at a time.
    pub fn read<W: Wait>(&self, rt: &W) -> Result<Histogram, Error> {
        let mut total = self.first.lock(rt).clone()?;
        for place in &self.others {
            if let Some(part) = place.get() {
                add(&mut total, &part.lock(rt))?;
            }
        }
        Ok(total)
    }
}
