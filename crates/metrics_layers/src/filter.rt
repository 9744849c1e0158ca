//! A filter of names by the patterns that occur in them.
ghost use Rattle.std.specs.Prelude.{◌≡◌, ◌↔◌, ◌<◌, ◌≤◌, true, false, [], map, length};
ghost use Rattle.std.specs.Prelude.{IsTrue, IfOk, IfErr, OnErr, MatchResult};
ghost use Rattle.std.specs.List.{sum_by};
ghost use Rattle.metrics.specs.Layers.{matches, filtered};
ghost use Rattle.metrics_layers.specs.Filters.{with_pattern, with_folding, with_table, fault_of};
ghost use Rattle.prefix_match.specs.Substring.{Patterns, pattern_limit};
ghost use Rattle.metrics.specs.declared.error.Error.TheVariants.{Memory, PatternsTooLong};

use crate::layer::Layer;
use metrics::{
    Address, Error, Key, KeyName, MetricKind, Recorder, Refused, Reset, Snapshot, Text, Unit,
    Update,
};
use prefix_match::SubstringSet;
use std::alloc::{AllocError, Global};
use std::marker::Model;

/// How many bytes the patterns may have together.
const LIMIT: usize = 1_048_576;

/// Rejects each name in which a listed pattern occurs, by an automaton with fail links or with a full table.
///
/// If case is folded, ASCII letters are compared as if in lower case.
#[derive(Debug, Drop)]
pub struct FilterLayer {
    patterns: Vec<Text>,
    case_insensitive: bool,
    use_dfa: bool,
}

impl Model for FilterLayer {
    ghost use Rattle.prefix_match.specs.Substring.{Patterns};

    ghost Value = { Patterns };

    ghost view = { λ a. record {
      listed = a.patterns.items;
      fold_case = a.case_insensitive;
      table = a.use_dfa;
    } };
}

impl FilterLayer {
    /// Makes a layer without patterns, which rejects no name. It is case sensitive and uses the table.
    pub fn default(alloc: Global) -> FilterLayer
        ensures { result ≡ record { listed = []; fold_case = false; table = true } }
    {
        FilterLayer {
            patterns: Vec::new(alloc),
            case_insensitive: false,
            use_dfa: true,
        }
    }

    /// Makes a layer with copies of the patterns, otherwise as `default`.
    ///
    /// Fails only when out of memory, and never without patterns.
    pub fn from_patterns(alloc: Global, patterns: &[&str]) -> Result<FilterLayer, Error>
        ensures { MatchResult result
            (λ l. l ≡ record {
              listed = map (λ p. p.now) patterns.now;
              fold_case = false;
              table = true;
            })
            (λ e. (e ≡ Memory) × (0 < length patterns.now)) }
    {
        let mut layer = FilterLayer::default(alloc);
        layer.patterns = copied(alloc, patterns)?;
        Ok(layer)
    }

    /// Adds a pattern at the end. The layer stays unchanged when out of memory.
    pub fn add_pattern(&mut self, pattern: &str) -> Result<(), Error>
        ensures { MatchResult result
            (λ _. self.new ≡ with_pattern self.old pattern.now)
            (λ e. (self.new ≡ self.old) × (e ≡ Memory)) }
    {
        let pattern = Text::new(*self.patterns.allocator(), pattern)?;
        self.patterns.push(pattern)?;
        Ok(())
    }

    /// Sets whether ASCII letters of either case are one.
    pub fn case_insensitive(&mut self, case_insensitive: bool) -> &mut FilterLayer
        ensures same_reference { result.ghost_name ≡ self.entry.ghost_name }
        ensures value { result.now ≡ with_folding self.old case_insensitive }
    {
        self.case_insensitive = case_insensitive;
        self
    }

    /// Sets whether the automaton is a full table. The rejected names are the same.
    pub fn use_dfa(&mut self, use_dfa: bool) -> &mut FilterLayer
        ensures same_reference { result.ghost_name ≡ self.entry.ghost_name }
        ensures value { result.now ≡ with_table self.old use_dfa }
    {
        self.use_dfa = use_dfa;
        self
    }

    /// Makes the automaton of the listed patterns.
    ///
    /// Fails with `PatternsTooLong` if they have more than 1,048,576 bytes together, and else only when out of memory.
    pub fn automaton(&self, alloc: Global) -> Result<SubstringSet, Error>
        ensures set { IfOk result (λ s. s ≡ self.now) }
        ensures too_long { (result ≡ Err PatternsTooLong)
            ↔ (pattern_limit < sum_by length self.now.listed) }
        ensures memory { IfErr result (λ e.
            sum_by length self.now.listed ≤ pattern_limit → e ≡ Memory) }
    {
        if !are_within_limit(self.patterns.as_slice()) {
            return Err(Error::PatternsTooLong);
        }
        Ok(self.make_automaton(alloc)?)
    }

    /// Makes the automaton of patterns that are within the limit.
    fn make_automaton(&self, alloc: Global) -> Result<SubstringSet, AllocError>
        ensures { IfOk result (λ s. s ≡ self.now) }
    {
        let texts = borrowed(alloc, self.patterns.as_slice())?;
        match SubstringSet::new(alloc, texts.as_slice(), self.case_insensitive, self.use_dfa) {
            Ok(automaton) => Ok(automaton),
            Err(_) => Err(AllocError),
        }
    }
}

/// Whether the patterns have at most `LIMIT` bytes together.
fn are_within_limit(patterns: &[Text]) -> bool
    ensures { IsTrue result ↔ (sum_by length patterns.now ≤ pattern_limit) }
{
    let mut left = LIMIT;
    for pattern in patterns {
        let len = pattern.as_str().len();
        if len > left {
            return false;
        }
        left -= len;
    }
    true
}

/// Returns whether some pattern of the automaton occurs in the name.
pub fn is_refused(automaton: &SubstringSet, name: &str) -> bool
    ensures { result ≡ matches automaton.now.fold_case automaton.now.listed name.now }
{
    automaton.is_match(name.as_bytes())
}

fn copied(alloc: Global, patterns: &[&str]) -> Result<Vec<Text>, AllocError>
    ensures texts { IfOk result (λ v. v.items ≡ map (λ p. p.now) patterns.now) }
    ensures refused { OnErr result (0 < length patterns.now) }
{
    let mut kept = Vec::new(alloc);
    for pattern in patterns {
        kept.push(Text::new(alloc, pattern)?)?;
    }
    Ok(kept)
}

fn borrowed(alloc: Global, patterns: &[Text]) -> Result<Vec<&str>, AllocError>
    ensures { IfOk result (λ v. map (λ p. p.now) v.items ≡ patterns.now) }
{
    let mut texts = Vec::new(alloc);
    for pattern in patterns {
        texts.push(pattern.as_str())?;
    }
    Ok(texts)
}

impl<R: Recorder> Layer<R> for FilterLayer {
    type Output = Filter<R>;

    ghost over = { λ s. filtered s.fold_case s.listed };

    ghost fault = { fault_of };

    fn layer(&self, alloc: Global, inner: R) -> Result<Filter<R>, (Error, R)> {
        match self.automaton(alloc) {
            Ok(automaton) => Ok(Filter { automaton, inner }),
            Err(error) => Err((error, inner)),
        }
    }
}

/// A filter over a recorder: a rejected name reaches no book.
#[derive(Drop)]
pub struct Filter<R> {
    automaton: SubstringSet,
    inner: R,
}

impl<R: Recorder> Recorder for Filter<R> {
    ghost meaning = { λ f. filtered f.automaton.fold_case f.automaton.listed (R.meaning f.inner) };

    fn books(&self) -> usize {
        self.inner.books()
    }

    fn describe(
        &mut self,
        alloc: Global,
        kind: MetricKind,
        name: &KeyName,
        unit: Option<Unit>,
        text: &str,
    ) -> Result<usize, Refused> {
        if is_refused(&self.automaton, name.as_str()) {
            return Ok(0);
        }
        self.inner.describe(alloc, kind, name, unit, text)
    }

    fn register(
        &mut self,
        alloc: Global,
        kind: MetricKind,
        key: &Key,
    ) -> Result<Vec<Address>, Refused> {
        if is_refused(&self.automaton, key.name()) {
            return Ok(Vec::new(alloc));
        }
        self.inner.register(alloc, kind, key)
    }

    fn holds(&self, kind: MetricKind, at: Address) -> bool {
        self.inner.holds(kind, at)
    }

    fn update(&mut self, at: Address, by: Update) -> Result<(), Refused> {
        self.inner.update(at, by)
    }

    fn snapshot_with(
        &mut self,
        alloc: Global,
        book: usize,
        reset: Reset,
    ) -> Result<Snapshot, Refused> {
        self.inner.snapshot_with(alloc, book, reset)
    }
}
