//! Trees of layers over leaves of one type.
ghost use Rattle.std.specs.Prelude.{◌≡◌, None, length, map, unwrap_or, IsOk, MatchResult};
ghost use Rattle.metrics.specs.Layers.{prefixed, filtered};
ghost use Rattle.metrics.specs.Meaning.{nothing};
ghost use Rattle.metrics_layers.specs.Filters.{fault_of};
ghost use Rattle.metrics_rules.specs.Nodes.{leaves_of};
ghost use Rattle.metrics_rules.specs.Meanings.{rules_meaning};
ghost use Rattle.metrics_trees.specs.Leaves.{recorders_of};
ghost use Rattle.metrics_trees.specs.Over.{over};
ghost use Rattle.metrics_trees.specs.Recorders.{over_refusal};
ghost use Rattle.metrics.specs.declared.error.Error.TheVariants.{Memory};

use crate::leaves::Leaves;
use crate::over_error::OverError;
use crate::row::Row;
use crate::visits::{Below, Call, Describing, ended};
use metrics::{
    Address, Error, Key, KeyName, MetricKind, Recorder, Refused, Reset, Snapshot, Unit, Update,
};
use metrics_layers::{FilterLayer, PrefixLayer};
use metrics_rules::{Rules, Scratch};
use std::alloc::Global;
use std::mem;

/// A tree of layers over leaves of one type `B`.
///
/// Recorders of several types fit into one tree in two ways. A leaf type can be one of several, as
/// `Either<DebuggingRecorder, NoopRecorder>`, which is a recorder itself:
///
/// ```text
/// let book: Child<Either<DebuggingRecorder, NoopRecorder>> = Child::leaf(Either::Left(book));
/// ```
///
/// Or each is behind a pointer, as a `Boxed`: a function that is generic over its leaf makes the tree, and its caller
/// boxes.
///
/// ```text
/// fn both<B: Recorder>(alloc: Global, one: B, other: B) -> Result<Fanout<B>, Error>
///
/// both(alloc, Boxed(Box::new(alloc, book)?), Boxed(Box::new(alloc, NoopRecorder)?))
/// ```
///
/// The signature of a function can't name a `Child<Boxed>`.
#[derive(Drop)]
pub struct Child<B: Recorder> {
    pub(crate) rules: Rules,
    pub(crate) below: Below<B>,
    ghost as_many: { leaves_of (rules_meaning rules) ≡ length (recorders_of below.registrar.leaves) },
}

/// Several recorders, each of which gets each name. Made by a `FanoutBuilder`.
pub type Fanout<B> = Child<B>;

/// A default and targets: each name goes to the target of the route that wins, or else to the default. Made by a
/// `RouterBuilder`.
pub type Router<B> = Child<B>;

impl<B: Recorder> Child<B> {
    ghost use Rattle.metrics_trees.specs.Trees.{rules_of};

    /// Makes a tree of rules and recorders, one for each leaf, in the order of the leaves. Returns both if that fails.
    ///
    /// # Errors
    ///
    /// `NotOneEach` if there are fewer recorders than leaves or more, else `TooManyBooks` if they have more than 65,536 books,
    /// and else `Memory`.
    pub fn over(rules: Rules, leaves: Vec<B>) -> Result<Child<B>, (OverError, Rules, Vec<B>)>
        ensures { let all = map B.meaning leaves.items in MatchResult result
            (λ c. (length leaves.items ≡ leaves_of (rules_meaning rules)) × (rules_of c ≡ rules)
            × (⟦<Child<B> as Recorder>⟧.meaning c ≡ over (rules_meaning rules) all))
            (λ e. (e.0 ≡ over_refusal (leaves_of (rules_meaning rules)) all) × (e.1 ≡ rules) × (e.2 ≡ leaves)) }
    {
        if rules.leaves() != leaves.len() {
            return Err((OverError::NotOneEach, rules, leaves));
        }
        match Row::new(leaves) {
            Ok(row) => Ok(Child {
                rules,
                below: Below::new(Leaves::Several(row)),
            }),
            Err((error, leaves)) => Err((error, rules, leaves)),
        }
    }

    /// Returns where its names go: the rules, whose leaves are its recorders.
    pub fn rules(&self) -> &Rules
        ensures { result.now ≡ rules_of self.now }
    {
        &self.rules
    }

    /// Makes a tree of one recorder.
    #[tactic(auto, using(crate::proofs::OverLemmas::over_leaf))]
    pub fn leaf(recorder: B) -> Child<B>
        ensures { ⟦<Child<B> as Recorder>⟧.meaning result ≡ B.meaning recorder }
    {
        Child {
            rules: Rules::leaf(),
            below: Below::new(Leaves::One(recorder)),
        }
    }

    /// Makes a tree without books, which rejects each name.
    #[tactic(auto, using(crate::proofs::OverLemmas::over_nothing))]
    pub fn noop() -> Child<B>
        ensures { ⟦<Child<B> as Recorder>⟧.meaning result ≡ nothing }
    {
        Child {
            rules: Rules::noop(),
            below: Below::new(Leaves::Empty),
        }
    }

    /// Returns the fanout as a tree.
    pub fn fanout(fanout: Fanout<B>) -> Child<B>
        ensures { ⟦<Child<B> as Recorder>⟧.meaning result
            ≡ ⟦<Fanout<B> as Recorder>⟧.meaning fanout }
    {
        fanout
    }

    /// Returns the router as a tree. It allocates nothing, and never fails.
    pub fn router(router: Router<B>) -> Result<Child<B>, (Error, Router<B>)>
        ensures accepted { IsOk result }
        ensures meaning { MatchResult result
            (λ c. ⟦<Child<B> as Recorder>⟧.meaning c ≡ ⟦<Router<B> as Recorder>⟧.meaning router)
            (λ e. (e.0 ≡ Memory) × (e.1 ≡ router)) }
    {
        Ok(router)
    }

    /// Wraps the tree in a prefix layer. Returns the tree when out of memory.
    pub fn prefix(self, alloc: Global, layer: &PrefixLayer) -> Result<Child<B>, (Error, Child<B>)>
        ensures { MatchResult result
            (λ c. ⟦<Child<B> as Recorder>⟧.meaning c ≡
            prefixed layer.now (⟦<Child<B> as Recorder>⟧.meaning self))
            (λ e. (e.0 ≡ Memory) × (e.1 ≡ self)) }
    {
        let Child { rules, below } = self;
        match rules.prefix(alloc, layer) {
            Ok(rules) => Ok(Child { rules, below }),
            Err((error, rules)) => Err((error, Child { rules, below })),
        }
    }

    /// Wraps the tree in a filter layer. Returns the tree if that fails.
    ///
    /// # Errors
    ///
    /// `PatternsTooLong` if the patterns have more than 1,048,576 bytes together, and else `Memory`.
    pub fn filter(self, alloc: Global, layer: &FilterLayer) -> Result<Child<B>, (Error, Child<B>)>
        ensures { MatchResult result
            (λ c. (fault_of layer.now ≡ None)
            × (⟦<Child<B> as Recorder>⟧.meaning c ≡
            filtered layer.now.fold_case layer.now.listed
            (⟦<Child<B> as Recorder>⟧.meaning self)))
            (λ e. (e.0 ≡ unwrap_or (fault_of layer.now) Memory) × (e.1 ≡ self)) }
    {
        let Child { rules, below } = self;
        match rules.filter(alloc, layer) {
            Ok(rules) => Ok(Child { rules, below }),
            Err((error, rules)) => Err((error, Child { rules, below })),
        }
    }
}

impl<B: Recorder> Recorder for Child<B> {
    ghost meaning = { λ c. over (rules_meaning c.rules) (map B.meaning (recorders_of c.below.registrar.leaves)) };

    fn books(&self) -> usize {
        self.below.registrar.leaves.books()
    }

    fn describe(
        &mut self,
        alloc: Global,
        kind: MetricKind,
        name: &KeyName,
        unit: Option<Unit>,
        text: &str,
    ) -> Result<usize, Refused> {
        let leaves = mem::replace(&mut self.below.registrar.leaves, Leaves::Empty);
        let mut visitor = Describing {
            alloc,
            kind,
            unit,
            text,
            leaves,
            acted: 0,
        };
        let mut scratch = Scratch::new(alloc);
        let visited = self.rules.visit(kind, name, &mut scratch, &mut visitor);
        let Describing { leaves, acted, .. } = visitor;
        // This call brings in the bound on the number of books.
        let _books = leaves.books();
        self.below.registrar.leaves = leaves;
        ended(visited, acted, acted)
    }

    fn register(
        &mut self,
        alloc: Global,
        kind: MetricKind,
        key: &Key,
    ) -> Result<Vec<Address>, Refused> {
        self.below.registrar.call = Some(Call {
            alloc,
            kind,
            found: Vec::new(alloc),
        });
        let scratch = self
            .below
            .scratch
            .get_or_insert_with(|| Scratch::new(alloc));
        let visited = self
            .rules
            .visit(kind, key, scratch, &mut self.below.registrar);
        let found = self.below.registrar.finish(alloc);
        let acted = found.len();
        ended(visited, found, acted)
    }

    fn holds(&self, kind: MetricKind, at: Address) -> bool {
        self.below.registrar.leaves.holds(kind, at)
    }

    fn update(&mut self, at: Address, by: Update) -> Result<(), Refused> {
        self.below.registrar.leaves.update(at, by)
    }

    fn snapshot_with(
        &mut self,
        alloc: Global,
        book: usize,
        reset: Reset,
    ) -> Result<Snapshot, Refused> {
        self.below
            .registrar
            .leaves
            .snapshot_with(alloc, book, reset)
    }
}
