//! Names and keys.
ghost use Rattle.std.specs.Prelude.{◌≡◌, ◌++◌, ◌∷◌, MatchResult, OnOk, [], map, string_bytes};
ghost use Rattle.std.specs.Cmp.{decided, partial_equiv_from_equiv};
ghost use Rattle.std.specs.Hash as fed;
ghost use Rattle.std.specs.Hash.{same_Alike};
ghost use Rattle.metrics_names.specs.Hashing.{key_number};
ghost use Rattle.metrics_names.specs.Names.{key_eq, name_word, label_words};
ghost use Rattle.metrics_names.specs.Equality.{key_eq-Decides};
ghost use Rattle.metrics_names.specs.declared.refused.Refused.TheVariants.{Memory};

use crate::kind::MetricKind;
use crate::label::Label;
use crate::refused::Refused;
use crate::shared_items::SharedItems;
use crate::text::Text;
use std::alloc::{AllocError, Global};
use std::fmt;
use std::hash::{FoldHasher, Hash, Hasher};
use std::marker::Model;

/// The name of a metric. Any text is a name, the empty one too. Names are ordered by their bytes.
#[derive(Clone, Debug, PartialEq, Eq, PartialOrd, Ord, Hash, Drop)]
pub struct KeyName {
    text: Text,
}

impl Model for KeyName {
    ghost use Rattle.std.specs.Prelude.{ℕ, List};

    ghost Value = { List ℕ };

    ghost view = { λ a. a.text };

    ghost inverse = { λ n. record { text = n } };
}

impl KeyName {
    /// Copies a text into a name.
    ///
    /// Fails only when out of memory.
    pub fn new(alloc: Global, name: &str) -> Result<KeyName, Refused>
        ensures { MatchResult result (λ n. n ≡ name.now) (λ e. e ≡ Memory 0) }
    {
        Ok(KeyName {
            text: Text::new(alloc, name)?,
        })
    }

    /// Returns the text of the name.
    pub fn as_str(&self) -> &str
        ensures { result.now ≡ self.now }
    {
        self.text.as_str()
    }

    /// Becomes prefix, dot, name. Reuses its memory if that suffices.
    fn set_dotted(&mut self, prefix: &str, name: &str) -> Result<(), AllocError>
        ensures { OnOk result (self.new ≡ prefix.now ++ 46 ∷ name.now) }
    {
        let string = &mut self.text.string;
        string.clear();
        string.reserve(prefix.len() + 1 + name.len())?;
        string.push_str(prefix)?;
        string.push_str(".")?;
        string.push_str(name)
    }
}

impl From<Text> for KeyName {
    ghost from_gives = { λ t n. n ≡ t };

    fn from(text: Text) -> KeyName {
        KeyName { text }
    }
}

impl From<String> for KeyName {
    ghost use Rattle.std.specs.Prelude.{string_bytes};

    ghost from_gives = { λ s n. n ≡ string_bytes s };

    fn from(string: String) -> KeyName {
        KeyName {
            text: Text { string },
        }
    }
}

/// A name with labels. Keys are ordered by name, then by their labels one after another.
///
/// A clone shares the labels and copies only the name.
///
/// A key keeps its number, which is made from its name and labels when the key is made. Its `Hash` writes only this number.
/// So whoever picks names and labels can make keys collide in any map, whatever the map's hasher.
#[derive(Clone, Drop)]
#[derive_where(PartialOrd, Ord)]
pub struct Key {
    name: KeyName,
    labels: SharedItems<Label>,
    #[derive_where(skip(EqHashOrd))]
    number: u64,
}

impl Model for Key {
    ghost use Rattle.std.specs.Prelude.{◌≡◌};
    ghost use Rattle.metrics_names.specs.Names.{KeyParts};
    ghost use Rattle.metrics_names.specs.Hashing.{key_number};

    ghost Value = { KeyParts };

    ghost view = { λ a. record { name = a.name; labels = a.labels } };

    ghost invariant = { λ a. a.number ≡ key_number (record { name = a.name; labels = a.labels }) };

    ghost inverse = { λ k. record { name = k.name; labels = k.labels; number = key_number k } };
}

/// Returns the number of the key of this name and these labels, by std's fast hasher, whose seed is fixed. It mixes in the
/// length of each text, so they need no separator.
fn number_of(name: &KeyName, labels: &SharedItems<Label>) -> u64
    ensures { result ≡ key_number (record { name = name.now; labels = labels.now }) }
{
    let mut state = FoldHasher::default();
    state.write(name.text.as_str().as_bytes());
    for label in labels.as_slice() {
        state.write(label.key.as_str().as_bytes());
        state.write(label.value.as_str().as_bytes());
    }
    state.finish()
}

/// The labels of these keys and values.
fn labels_of(alloc: Global, labels: &[(&str, &str)]) -> Result<Vec<Label>, Refused>
    ensures { MatchResult result (λ v. v.items ≡ map (λ l. (l.0.now, l.1.now)) labels.now) (λ e. e ≡ Memory 0) }
{
    let mut made = Vec::with_capacity(alloc, labels.len())?;
    for (key, value) in labels {
        made.push(Label::new(alloc, key, value)?)?;
    }
    Ok(made)
}

/// The word of a name. The empty one is written as a dash.
fn word_of_name(name: &str) -> &str
    ensures { result.now ≡ name_word name.now }
{
    if name.is_empty() { "-" } else { name }
}

fn write_labels(text: &mut String, labels: &[Label]) -> Result<(), AllocError>
    ensures { OnOk result (string_bytes text.new ≡ string_bytes text.old ++ label_words labels.now) }
{
    for label in labels {
        let key = label.key();
        let value = label.value();
        write!(text, " {key}={value}")?;
    }
    Ok(())
}

impl PartialEq for Key {
    ghost eq = { key_eq };

    ghost laws = { partial_equiv_from_equiv (decided key_eq key_eq-Decides) };

    /// Compares the numbers first, since keys of different numbers differ.
    fn eq(&self, other: &Key) -> bool {
        if self.number != other.number {
            return false;
        }
        self.name == other.name && self.labels == other.labels
    }
}

impl Eq for Key {
    ghost laws = { decided key_eq key_eq-Decides };
}

impl Hash for Key {
    ghost hash_input = { λ k. fed.u64 (key_number k) };

    ghost respects_eq = { (same_Alike (λ k. fed.u64 (key_number k)) key_eq-Decides).fed };

    fn hash<H: Hasher>(&self, state: &mut H) {
        state.write_u64(self.number);
    }
}

impl fmt::Debug for Key {
    fn fmt<W: fmt::Write>(&self, f: &mut fmt::Formatter<W>) -> fmt::Result {
        f.debug_struct("Key")
            .field("name", &self.name)
            .field("labels", &self.labels)
            .finish()
    }
}

/// Makes the key of the name, without labels.
impl From<KeyName> for Key {
    ghost use Rattle.std.specs.Prelude.{[]};

    ghost from_gives = { λ n k. k ≡ record { name = n; labels = [] } };

    fn from(name: KeyName) -> Key {
        let labels = SharedItems::empty();
        let number = number_of(&name, &labels);
        Key {
            name,
            labels,
            number,
        }
    }
}

impl Key {
    /// Makes the key of a copy of the name, without labels.
    ///
    /// Fails only when out of memory.
    pub fn from_name(alloc: Global, name: &str) -> Result<Key, Refused>
        ensures { MatchResult result (λ k. k ≡ record { name = name.now; labels = [] }) (λ e. e ≡ Memory 0) }
    {
        Key::from_parts(alloc, name, Vec::new(alloc))
    }

    /// Makes the key of a copy of the name, with these labels in their order.
    ///
    /// Fails only when out of memory, and then drops the labels.
    pub fn from_parts(alloc: Global, name: &str, labels: Vec<Label>) -> Result<Key, Refused>
        ensures { MatchResult result (λ k. k ≡ record { name = name.now; labels = labels.items }) (λ e. e ≡ Memory 0) }
    {
        let name = KeyName::new(alloc, name)?;
        let labels = SharedItems::new(alloc, labels)?;
        let number = number_of(&name, &labels);
        Ok(Key {
            name,
            labels,
            number,
        })
    }

    /// Makes a key from copies of the name and of these label keys and values, in their order.
    ///
    /// Fails with `Refused::Memory` when out of memory.
    pub fn from_labels(alloc: Global, name: &str, labels: &[(&str, &str)]) -> Result<Key, Refused>
        ensures { MatchResult result
            (λ k. k ≡ record { name = name.now; labels = map (λ l. (l.0.now, l.1.now)) labels.now })
            (λ e. e ≡ Memory 0) }
    {
        Key::from_parts(alloc, name, labels_of(alloc, labels)?)
    }

    /// Returns the name.
    pub fn name(&self) -> &str
        ensures { result.now ≡ self.now.name }
    {
        self.name.text.as_str()
    }

    /// Returns the labels, in their order.
    pub fn labels(&self) -> &[Label]
        ensures { result.now ≡ self.now.labels }
    {
        self.labels.as_slice()
    }

    /// Appends the name, or a dash for the empty one, and each label as a space, `key=value`.
    ///
    /// Fails only when out of memory, after a part of it.
    pub fn write_words(&self, text: &mut String) -> Result<(), AllocError>
        ensures { OnOk result (string_bytes text.new
            ≡ string_bytes text.old ++ (name_word self.now.name ++ label_words self.now.labels)) }
    {
        text.push_str(word_of_name(self.name()))?;
        write_labels(text, self.labels())
    }

    /// Becomes the key of prefix, dot and the name of `key`, with its labels, which both keys share.
    ///
    /// It allocates only if the name doesn't fit into the memory that it has.
    /// When out of memory the key is valid but unspecified.
    pub fn set_below(&mut self, prefix: &str, key: &Key) -> Result<(), Refused>
        ensures { MatchResult result
            (λ done. self.new ≡ record { name = prefix.now ++ 46 ∷ key.now.name; labels = key.now.labels })
            (λ e. e ≡ Memory 0) }
    {
        let labels = key.labels.clone()?;
        let named = self.name.set_dotted(prefix, key.name());
        self.labels = labels;
        self.number = number_of(&self.name, &self.labels);
        Ok(named?)
    }

    /// Returns the number of the key, which equal keys share. It was made with the key.
    pub fn number(&self) -> u64
        ensures { result ≡ key_number self.now }
    {
        self.number
    }
}

/// A kind and a key, which together name a series. Composite keys are ordered by kind, then by key.
#[derive(Clone, Debug, PartialEq, Eq, PartialOrd, Ord, Hash, Drop)]
pub struct CompositeKey {
    kind: MetricKind,
    key: Key,
}

impl Model for CompositeKey {
    ghost use Rattle.metrics_names.specs.Names.{SeriesKey};

    ghost Value = { SeriesKey };

    ghost view = { λ a. record { kind = a.kind; key = a.key } };

    ghost inverse = { λ k. record { kind = k.kind; key = k.key } };
}

impl CompositeKey {
    /// Joins a kind and a key.
    pub fn new(kind: MetricKind, key: Key) -> CompositeKey
        ensures { result ≡ record { kind = kind; key = key } }
    {
        CompositeKey { kind, key }
    }

    /// Returns the kind.
    pub fn kind(&self) -> MetricKind
        ensures { result ≡ self.now.kind }
    {
        self.kind
    }

    /// Returns the key.
    pub fn key(&self) -> &Key
        ensures { result.now ≡ self.now.key }
    {
        &self.key
    }

    /// Returns the kind and the key by value.
    pub fn into_parts(self) -> (MetricKind, Key)
        ensures { result ≡ (self.kind, self.key) }
    {
        let Self { kind, key } = self;
        (kind, key)
    }
}
