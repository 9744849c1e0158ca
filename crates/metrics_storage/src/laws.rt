//! Laws of the definitions.
ghost use Rattle.std.specs.Prelude.{◌≡◌};
ghost use Rattle.metrics_storage.specs.Histogram.{MergingAddsSamples, AscendingIsInOrder};
ghost use Rattle.metrics_storage.specs.Reservoir.{ItemsCameLast, StepsHoldLast};
ghost use Rattle.metrics_storage.specs.Sample.{PushesAddUp};
ghost use Rattle.metrics_storage.specs.Fairness.{KeptHasPlace, IsFair, all, kept};

/// Does nothing. Its contract has the laws of the reservoir.
///
/// They are laws of the step that the contract of `Reservoir::push` uses.
pub fn reservoir_law()
    // The item at a place is the one that came last to it.
    ensures items { ItemsCameLast }
    // Over every list of values and draws, each place holds the value of the item that came last to it.
    ensures places { StepsHoldLast }
    // Over every list of values and draws, the pushes are counted and their values are added up.
    ensures sums { PushesAddUp }
    // An item is kept exactly if it is at some place.
    ensures placed { KeptHasPlace }
    // Sampling is fair by count: each of n items is kept under k of n parts of the lists of draws.
    ensures fair { IsFair }
    // With 2 places and 3 items there are 6 lists of draws, and each item is kept under 4. Without a place, under none.
    ensures six { all 3 ≡ 6 }
    ensures first { kept 2 0 3 ≡ 4 }
    ensures second { kept 2 1 3 ≡ 4 }
    ensures third { kept 2 2 3 ≡ 4 }
    ensures none { kept 0 1 3 ≡ 0 }
{}

/// Does nothing. Its contract has the laws of histograms.
pub fn histogram_law()
    // A histogram, merged with one that has other samples, is the one of the samples of both.
    ensures merging { MergingAddsSamples }
    // Buckets in ascending order have each bound once, with the number that it has in a bucket given.
    ensures ascending { AscendingIsInOrder }
{}
