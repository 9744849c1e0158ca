//! A thread's part of a bucket.
ghost use Rattle.std.specs.Prelude.{◌≡◌, ◌<◌, ◌↔◌, false, IsTrue, IfOk, IfErr};
ghost use Rattle.metrics_bucket.specs.Account.{left_account, right_account, joined_account};

use crate::rule::BucketRule;
use crate::steps::{Halves, LookAtWeight};
use crate::view::{Turn, View};
use atomic_table::{Seat, Shared, Table};
use metrics::Error;
use std::alloc::Global;
use std::marker::Model;
use std::sync::Arc;

pub(crate) type Words = Table<Turn, View, (usize, bool), BucketRule, Global>;

// The words of a bucket, as the threads share them.
pub(crate) type SharedWords = Shared<Turn, View, (usize, bool), BucketRule>;

/// A thread's part of one bucket, which each call on the bucket borrows.
///
/// It has a weight: of a bucket's 1,024 parts, the first pen has all. A pen that holds all the weight knows the state of the
/// whole bucket.
///
/// Contracts see it as its account: what it pushed, took and read, its weight, whether it has a ticket, the control word
/// that it saw last, how often it looked, and how many of its claims found the turn held.
#[derive(Drop)]
pub struct Pen {
    pub(crate) table: Arc<Words, Global>,
    pub(crate) seat: Seat<Turn, View>,
    pub(crate) weight: u64,
    pub(crate) ticket: Option<(usize, usize)>,
}

impl Model for Pen {
    ghost use Rattle.metrics_bucket.specs.Account.{Account, account_code};

    ghost Value = { Account };

    ghost coded = { account_code };

    ghost use Rattle.metrics_bucket.specs.Pens.{account_of, IsPen};

    ghost view = { account_of };

    ghost invariant = { IsPen };
}

impl Pen {
    /// Returns whether it has all parts, so that there is no other pen.
    pub fn is_whole(&self) -> bool
        ensures { IsTrue result ↔ (self.now.weight ≡ 1024) }
    {
        self.weight == 1024
    }

    /// Returns whether a push that it began isn't finished.
    pub fn has_ticket(&self) -> bool
        ensures { result ≡ self.now.ticket }
    {
        self.ticket.is_some()
    }

    /// Returns a new pen with half of the weight and an empty account.
    ///
    /// `NoPen`: one part can't be split.
    pub fn split(&mut self) -> Result<Pen, Error>
        requires { self.old.ticket ≡ false }
        ensures ok { IfOk result (λ p. (self.new ≡ left_account self.old) × (p ≡ right_account self.old)) }
        ensures err { IfErr result (λ e. (self.new ≡ self.old) × (1 < self.old.weight → e ≡ Error.Memory)) }
        ensures lightest { self.old.weight ≡ 1 → result ≡ Err Error.NoPen }
    {
        if self.weight < 2 {
            return Err(Error::NoPen);
        }
        let Ok(table) = Arc::try_clone(&self.table) else {
            return Err(Error::Memory);
        };
        let seat = table.shared.split_seat::<Halves>(&mut self.seat);
        let given = self.weight / 2;
        self.weight -= given;
        Ok(Pen {
            table,
            seat,
            weight: given,
            ticket: None,
        })
    }

    /// Adds another pen of the same bucket, with its account.
    pub fn join(&mut self, other: Pen)
        requires home { self.old.home ≡ other.home }
        requires free { (self.old.ticket ≡ false) × (other.ticket ≡ false) }
        ensures { self.new ≡ joined_account self.old other }
    {
        let Pen {
            table,
            seat,
            weight,
            ticket: _,
        } = other;
        table.shared.join_seat::<Halves>(&mut self.seat, seat);
        table.shared.load::<LookAtWeight>(&mut self.seat, 0);
        self.weight += weight;
    }
}
