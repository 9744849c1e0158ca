//! The routes of a router.
ghost use Rattle.std.specs.Prelude.{◌≡◌, ◌<◌, ◌^◌, ℕ, true, cond, ◌&&◌, List, length, Some, OnOk, OnErr, IfErr};
ghost use Rattle.std.specs.Str.{bytes_eq};
ghost use Rattle.prefix_match.specs.TriePatterns.{stored, HasRoom};
ghost use Rattle.prefix_match.specs.declared.error.MatchError.TheVariants.{Memory};
ghost use Rattle.metrics_rules.specs.Routing.{no_routes, AddsRoute, longest_within, target_of, branch_of};

use metrics::{MetricKind, MetricKindMask, PerKind};
use prefix_match::{MatchError, PrefixTrie};
use std::alloc::Global;
use std::marker::Model;

/// The routes of a router: for each kind the patterns of those that have it, each with its target.
#[derive(Drop)]
pub struct Routes {
    tables: PerKind<PrefixTrie>,
}

impl Model for Routes {
    ghost use Rattle.metrics_rules.specs.Routing.{RouteTables};

    ghost Value = { RouteTables };

    ghost view = { λ a. record {
      counter = a.tables.counter.pairs;
      gauge = a.tables.gauge.pairs;
      histogram = a.tables.histogram.pairs;
    } };
}

impl Routes {
    /// No routes.
    pub(crate) fn new(alloc: Global) -> Routes
        ensures { result ≡ no_routes }
    {
        Routes {
            tables: PerKind {
                counter: PrefixTrie::new(alloc),
                gauge: PrefixTrie::new(alloc),
                histogram: PrefixTrie::new(alloc),
            },
        }
    }

    /// Stores a route. It makes room for each kind before the first change, so a call that fails changes nothing.
    ///
    /// # Errors
    ///
    /// `Memory`.
    pub(crate) fn add(
        &mut self,
        mask: MetricKindMask,
        pattern: &str,
        target: usize,
    ) -> Result<(), MatchError>
        ensures ok { OnOk result (AddsRoute self.old self.new mask pattern.now target) }
        ensures err { OnErr result (self.new ≡ self.old) }
        ensures memory { IfErr result (λ e. e ≡ Memory) }
    {
        let counters = mask.matches(MetricKind::Counter);
        let gauges = mask.matches(MetricKind::Gauge);
        let histograms = mask.matches(MetricKind::Histogram);
        let pattern = pattern.as_bytes();
        reserve_if(counters, &mut self.tables.counter, pattern)?;
        reserve_if(gauges, &mut self.tables.gauge, pattern)?;
        reserve_if(histograms, &mut self.tables.histogram, pattern)?;
        insert_if(counters, &mut self.tables.counter, pattern, target);
        insert_if(gauges, &mut self.tables.gauge, pattern, target);
        insert_if(histograms, &mut self.tables.histogram, pattern, target);
        Ok(())
    }

    /// The target of the longest pattern of the kind that the name begins with.
    pub(crate) fn target(&self, kind: MetricKind, name: &str) -> Option<usize>
        ensures { result ≡ target_of self.now kind name.now }
    {
        target_within(self.tables.of(kind), name)
    }

    /// The number of the branch that a name goes to: the default is number 0, the targets follow it.
    pub(crate) fn branch(&self, kind: MetricKind, name: &str) -> usize
        requires { branch_of (target_of self.now kind name.now) < 2 ^ 64 }
        ensures { result ≡ branch_of (target_of self.now kind name.now) }
    {
        match self.target(kind, name) {
            None => 0,
            Some(target) => target + 1,
        }
    }
}

/// Makes room for the pattern, if the trie is to have it.
fn reserve_if(wanted: bool, trie: &mut PrefixTrie, pattern: &[u8]) -> Result<(), MatchError>
    ensures pairs { trie.new.pairs ≡ trie.old.pairs }
    ensures room { OnOk result (wanted ≡ true → HasRoom trie.new pattern.now) }
    ensures memory { IfErr result (λ e. e ≡ Memory) }
{
    if wanted {
        trie.reserve(pattern)?;
    }
    Ok(())
}

/// Stores the target, if the trie is to have it.
fn insert_if(wanted: bool, trie: &mut PrefixTrie, pattern: &[u8], target: usize)
    requires { wanted ≡ true → HasRoom trie.old pattern.now }
    ensures { (p : List ℕ) → stored trie.new.pairs p ≡
        cond (wanted && bytes_eq p pattern.now) (Some target) (stored trie.old.pairs p) }
{
    if wanted {
        let Ok(_) = trie.insert(pattern, target) else {
            unreachable!()
        };
    }
}

/// The target of the longest pattern that the name begins with.
#[tactic(auto, using(crate::proofs::RoutingLemmas::longest_answers))]
fn target_within(trie: &PrefixTrie, name: &str) -> Option<usize>
    ensures { result ≡ longest_within trie.now.pairs name.now (length name.now) }
{
    trie.longest(name.as_bytes())
}
