//! The replies that a thread has counted.
ghost use Rattle.std.specs.Prelude.{◌≡◌, ◌+◌, ◌-◌, ◌*◌, ◌/◌, ◌≤◌, true, false, IsTrue, ◌↔◌};
ghost use Rattle.std.specs.Prelude.{IfOk, IfErr};
ghost use Rattle.metrics.specs.declared.error.Error.TheVariants.{NoPen as Least};
ghost use Rattle.metrics_journal.specs.Journal.{one_if};
ghost use Rattle.metrics_journal.specs.Tally.{counted, joined};

use metrics::Error;
use std::marker::Model;
use std::sync::ledger::{Blank, Book, Ledger, Share};

/// The weight of a whole tally.
const WHOLE: u64 = 1024;

/// What a call with reply true adds to the amount of `trues`. The rest of the amount, which is less, is `shards`.
const STEP: u64 = 2048;

/// How many of the calls made with this tally were answered true, and how many false.
///
/// The tallies of a registry weigh 1,024 together, and count for all its shards together. So the whole tally knows how many
/// journals there are.
#[derive(Drop)]
pub struct Tally<T: Ledger, F: Ledger> {
    weight: u64,
    shards: u64,
    trues: Share<T>,
    falses: Share<F>,
}

impl<T: Ledger, F: Ledger> Model for Tally<T, F> {
    ghost use Rattle.std.specs.Prelude.{◌≡◌, ◌<◌, ◌≤◌, ◌/◌, ◌%◌};
    ghost use Rattle.metrics_journal.specs.Tally.{Account};

    ghost Value = { Account };

    ghost view = { λ t. record {
      weight = t.weight;
      shards = t.shards;
      trues = t.trues.amount / 2048;
      falses = t.falses.amount;
    } };

    ghost invariant = { λ t. (0 < t.weight)
        × (t.trues.parts ≡ t.weight)
        × (t.falses.parts ≡ t.weight)
        × (T.parts ≡ 1024)
        × (F.parts ≡ 1024)
        × (t.trues.amount % 2048 ≡ t.shards)
        × (t.shards ≤ t.weight) };
}

impl<T: Ledger, F: Ledger> Tally<T, F> {
    /// Opens the books of two ledgers, and a tally of their whole weight that counts for this many shards.
    pub(crate) fn open(
        trues: Blank,
        falses: Blank,
        shards: usize,
    ) -> (Book<T>, Book<F>, Tally<T, F>)
        requires trues { (trues.name ≡ T.name) × (trues.parts ≡ T.parts) × (T.parts ≡ 1024) }
        requires falses { (falses.name ≡ F.name) × (falses.parts ≡ F.parts) × (F.parts ≡ 1024) }
        requires shards { shards ≤ 1024 }
        ensures books { (result.0.total ≡ shards) × (result.1.total ≡ 0) }
        ensures tally { result.2 ≡ record { weight = 1024; shards = shards; trues = 0; falses = 0 } }
    {
        let (mut trues_book, mut trues) = trues.open::<T>();
        let (falses_book, falses) = falses.open::<F>();
        trues_book.add(&mut trues, shards as u64);
        let tally = Tally {
            weight: WHOLE,
            shards: shards as u64,
            trues,
            falses,
        };
        (trues_book, falses_book, tally)
    }

    /// Returns whether this tally has all the weight, 1,024.
    pub fn is_whole(&self) -> bool
        ensures { IsTrue result ↔ (self.now.weight ≡ 1024) }
    {
        self.weight == WHOLE
    }

    /// Returns a new tally that has counted nothing, with half of the weight, rounded down. Fails if the weight is 1, as a pen
    /// does: with `Error::NoPen`, though a tally has no pens.
    pub fn split(&mut self) -> Result<Tally<T, F>, Error>
        ensures ok { IfOk result (λ t. (t.weight ≡ self.old.weight / 2) × (t.trues ≡ 0) × (t.falses ≡ 0)
            × (self.old ≡ joined self.new t)) }
        ensures err { IfErr result (λ e. (e ≡ Least) × (self.old.weight ≡ 1) × (self.new ≡ self.old)) }
    {
        let weight = self.weight / 2;
        if weight == 0 {
            return Err(Error::NoPen);
        }
        let Tally {
            weight: left,
            shards: kept,
            trues,
            falses,
        } = self;
        *left -= weight;
        let shards = kept.saturating_sub(*left);
        *kept -= shards;
        Ok(Tally {
            weight,
            shards,
            trues: trues.split_off(weight, shards),
            falses: falses.split_off(weight, 0),
        })
    }

    /// Adds the weight and the counts of another tally.
    pub fn join(&mut self, other: Tally<T, F>)
        ensures { self.new ≡ joined self.old other }
    {
        let Tally {
            weight,
            shards,
            trues,
            falses,
        } = other;
        self.trues.merge(trues);
        self.falses.merge(falses);
        self.weight += weight;
        self.shards += shards;
    }

    /// Counts a reply.
    pub(crate) fn count(&mut self, trues: &mut Book<T>, falses: &mut Book<F>, reply: bool)
        ensures trues { trues.new.total ≡ trues.old.total + 2048 * one_if true reply }
        ensures falses { falses.new.total ≡ falses.old.total + one_if false reply }
        ensures tally { self.new ≡ counted reply self.old }
    {
        if reply {
            trues.add(&mut self.trues, STEP);
        } else {
            falses.add(&mut self.falses, 1);
        }
    }

    /// Shows that the whole tally has counted what the books have.
    pub(crate) fn audit(self, trues: &mut Book<T>, falses: &mut Book<F>)
        requires whole { self.weight ≡ 1024 }
        ensures trues { trues.old.total ≡ self.shards + 2048 * self.trues }
        ensures falses { falses.old.total ≡ self.falses }
        ensures shards { self.shards ≤ 1024 }
    {
        let Tally {
            weight: _,
            shards: _,
            trues: mut mine_true,
            falses: mut mine_false,
        } = self;
        trues.audit(&mut mine_true);
        falses.audit(&mut mine_false);
    }
}
