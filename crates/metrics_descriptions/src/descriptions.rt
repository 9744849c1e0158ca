//! The descriptions of names.
ghost use Rattle.std.specs.Prelude.{◌≡◌, if◌then◌else◌, bytes_eq, IsTrue, OnOk, OnErr, IfOk};
ghost use Rattle.std.specs.Option.{option_copied};
ghost use Rattle.indexmap.specs.IndexMap.{get_by_text};
ghost use Rattle.metrics.specs.Book.{described_again};
ghost use Rattle.metrics_descriptions.specs.Legends.{unit_in, text_in, description_of, described_by};
ghost use Rattle.metrics_descriptions.specs.Legends.{no_legend, legend_described, SameLegend};

use indexmap::IndexMap;
use metrics::{MetricKind, PerKind, SharedText, Unit};
use std::alloc::{AllocError, Global};

/// The description of a name: a text, and a unit if there is one.
#[derive(Drop)]
pub struct Described {
    unit: Option<Unit>,
    text: SharedText,
}

impl Described {
    /// Returns the unit.
    pub fn unit(&self) -> Option<Unit>
        ensures { result ≡ unit_in self.now }
    {
        self.unit
    }

    /// Returns the text.
    pub fn text(&self) -> &str
        ensures { result.now ≡ text_in self.now }
    {
        self.text.as_str()
    }

    /// Returns the text, which it shares. It allocates nothing.
    pub fn shared_text(&self) -> Result<SharedText, AllocError>
        ensures { IfOk result (λ t. t ≡ text_in self.now) }
    {
        self.text.clone()
    }
}

/// The descriptions of names, by kind and name.
#[derive(Drop)]
pub struct Descriptions {
    names: PerKind<IndexMap<String, Described>>,
}

impl Descriptions {
    /// Makes a list without descriptions. It allocates nothing.
    pub fn new(alloc: Global) -> Descriptions
        ensures { SameLegend (described_by result) no_legend }
    {
        Descriptions {
            names: PerKind {
                counter: IndexMap::new(alloc),
                gauge: IndexMap::new(alloc),
                histogram: IndexMap::new(alloc),
            },
        }
    }

    /// Returns where the description of a name is, or where the next new one comes. A place is a hint for `get_from`, and stays
    /// right, since no description is removed.
    pub fn place(&self, kind: MetricKind, name: &str) -> u32 {
        let names = self.names.of(kind);
        if names.is_empty() {
            return 0;
        }
        let place = names.get_index_of(name).unwrap_or(names.len());
        u32::try_from(place).unwrap_or(u32::MAX)
    }

    /// Returns the description of a name.
    pub fn get(&self, kind: MetricKind, name: &str) -> Option<&Described>
        ensures { description_of (option_copied result) ≡ described_by self.now kind name.now }
    {
        self.names.of(kind).get(name)
    }

    /// Returns the description of a name, whatever the place. It hashes the name only if the description isn't there.
    pub fn get_from(&self, kind: MetricKind, name: &str, place: u32) -> Option<&Described>
        ensures { description_of (option_copied result) ≡ described_by self.now kind name.now }
    {
        let names = self.names.of(kind);
        if names.is_empty() {
            return None;
        }
        if let Some((there, described)) = names.get_index(place as usize) {
            if there.as_str() == name {
                return Some(described);
            }
        }
        names.get(name)
    }

    /// Replaces the text of a name, and the unit if there is a new one. Repeating a description allocates nothing, and a name is
    /// copied only if it is new.
    ///
    /// Fails only when out of memory, and then changes nothing.
    pub fn describe(
        &mut self,
        alloc: Global,
        kind: MetricKind,
        name: &str,
        unit: Option<Unit>,
        text: &str,
    ) -> Result<(), AllocError>
        ensures ok { OnOk result ((k : _) (n : _)
            → described_by self.new k n ≡ legend_described kind name.now unit text.now (described_by self.old) k n) }
        ensures err { OnErr result ((k : _) (n : _) → described_by self.new k n ≡ described_by self.old k n) }
    {
        describe_name(alloc, self.names.of_mut(kind), name, unit, text)
    }
}

/// Returns whether a name has this text already, and this unit if there is one.
fn is_described_so(
    names: &IndexMap<String, Described>,
    name: &str,
    unit: Option<Unit>,
    text: &str,
) -> bool
    ensures { IsTrue result → described_again unit text.now (description_of (get_by_text names.now name.now))
        ≡ description_of (get_by_text names.now name.now) }
{
    match names.get(name) {
        Some(described) => {
            described.text.as_str() == text && unit.or(described.unit) == described.unit
        }
        None => false,
    }
}

fn describe_name(
    alloc: Global,
    names: &mut IndexMap<String, Described>,
    name: &str,
    unit: Option<Unit>,
    text: &str,
) -> Result<(), AllocError>
    ensures ok { OnOk result ((n : _) → description_of (get_by_text names.new n)
        ≡ (if bytes_eq name.now n then described_again unit text.now (description_of (get_by_text names.old n))
        else description_of (get_by_text names.old n))) }
    ensures err { OnErr result ((n : _) → description_of (get_by_text names.new n)
        ≡ description_of (get_by_text names.old n)) }
{
    if is_described_so(names, name, unit, text) {
        return Ok(());
    }
    let text = SharedText::new(alloc, text)?;
    if let Some(described) = names.get_mut(name) {
        described.unit = unit.or(described.unit);
        described.text = text;
        return Ok(());
    }
    names.insert(String::from_str(alloc, name)?, Described { unit, text })?;
    Ok(())
}
