//! Sets of kinds of metrics, and values for each kind.
ghost use Rattle.std.specs.Prelude.{◌≡◌, nat_eq};
ghost use Rattle.metrics.specs.Layers.{mask_has};

use metrics_names::MetricKind;
use std::marker::Model;
use std::ops::BitOr;

/// A set of kinds of metrics.
#[derive(Clone, Copy, Debug, PartialEq, Eq, PartialOrd, Ord, Hash)]
pub struct MetricKindMask(u8);

impl Model for MetricKindMask {
    ghost use Rattle.std.specs.Prelude.{ℕ, ◌≤◌};

    ghost Value = { ℕ };

    ghost view = { λ a. a.0 };

    ghost invariant = { λ a. a.0 ≤ 7 };

    ghost inverse = { λ n. record { 0 = n } };
}

impl MetricKindMask {
    /// No kind.
    pub const NONE: MetricKindMask = MetricKindMask(0);

    /// Counters alone.
    pub const COUNTER: MetricKindMask = MetricKindMask(1);

    /// Gauges alone.
    pub const GAUGE: MetricKindMask = MetricKindMask(2);

    /// Histograms alone.
    pub const HISTOGRAM: MetricKindMask = MetricKindMask(4);

    /// Every kind.
    pub const ALL: MetricKindMask = MetricKindMask(7);

    /// Returns whether the set has the kind.
    pub fn matches(&self, kind: MetricKind) -> bool
        ensures { result ≡ mask_has kind self.now }
    {
        let kinds = self.0;
        let from_kind = match kind {
            MetricKind::Counter => kinds,
            MetricKind::Gauge => kinds >> 1,
            MetricKind::Histogram => kinds >> 2,
        };
        from_kind & 1 == 1
    }

    /// Returns whether the set has no kind.
    pub fn is_empty(&self) -> bool
        ensures { result ≡ nat_eq self.now 0 }
    {
        self.0 == 0
    }
}

impl BitOr for MetricKindMask {
    ghost use Rattle.std.specs.Prelude.{◌≡◌, ◌||◌};
    ghost use Rattle.metrics_names.specs.declared.kind.MetricKind.{MetricKind};
    ghost use Rattle.metrics.specs.Layers.{mask_has};

    type Output = MetricKindMask;

    ghost bitor_gives = { λ a b both. (kind : MetricKind) → mask_has kind both ≡ (mask_has kind a || mask_has kind b) };

    /// The kinds of both sets.
    #[tactic(auto, using(crate::proofs::MaskLemmas::or_most, crate::proofs::MaskLemmas::or_has))]
    fn bitor(self, other: MetricKindMask) -> MetricKindMask {
        MetricKindMask(self.0 | other.0)
    }
}

/// A value for each kind.
#[derive(Clone, Debug, PartialEq, Eq, Drop)]
pub struct PerKind<T> {
    pub counter: T,
    pub gauge: T,
    pub histogram: T,
}

impl<T> PerKind<T> {
    ghost use Rattle.std.specs.Borrow.{sem};
    ghost use Rattle.metrics.specs.Kinds.{of_kind};
    ghost use Rattle.metrics.specs.Lending.{lends_kind};

    /// Returns the value of a kind.
    pub fn of(&self, kind: MetricKind) -> &T
        ensures { result.now ≡ of_kind kind self.now }
    {
        match kind {
            MetricKind::Counter => &self.counter,
            MetricKind::Gauge => &self.gauge,
            MetricKind::Histogram => &self.histogram,
        }
    }
    /// Borrows the value of a kind. The others stay unchanged.
    pub fn of_mut(&mut self, kind: MetricKind) -> &mut T
        ensures* lends { sem 𝓛 (lends_kind T.row kind self.entry result) }
        ensures value { result.now ≡ of_kind kind self.old }
    {
        match kind {
            MetricKind::Counter => &mut self.counter,
            MetricKind::Gauge => &mut self.gauge,
            MetricKind::Histogram => &mut self.histogram,
        }
    }
}
