//! The series of earlier lines: a line of one of them is not read as a whole.
ghost use Rattle.std.specs.Prelude.{◌≡◌, ◌<◌, ◌≤◌, ◌∷◌, ◌++◌, true, take, length, slice_index, IfOk, IfSome, OnOk, MatchResult};
ghost use Rattle.tool_grammar.specs.Cuts.{Lacks, StartsAt};
ghost use Rattle.tool_numbers.specs.Numerals.{IsAmount};
ghost use Rattle.tool_grammar.specs.Grammar.{update_word};
ghost use Rattle.tool_requests.specs.Places.{places_at};
ghost use Rattle.tool_requests.specs.Lines.{SpellsSeries, Spells, IsBad, Fails, body_of as body};

use crate::dialect::Dialect;
use crate::flaws::Unread;
use crate::requests::{Request, body_of, places_for, request_of};
use metrics::{Key, Label, Refused, Update};
use std::alloc::Global;
use std::collections::HashMap;
use std::hash::{FoldHasher, Hasher};
use std::marker::Model;
use tool_grammar::strip_prefix;
use tool_numbers::update_in;

/// The most series that are kept.
const MOST: usize = 8192;

/// The longest series that is kept, in bytes.
const LONGEST: usize = 256;

/// The bytes of a series, and its key.
#[derive(Drop)]
struct Spelling {
    bytes: Vec<u8>,
    key: Key,
}

impl Model for Spelling {
    ghost use Rattle.std.specs.Prelude.{ℕ, List, length, ◌≤◌};
    ghost use Rattle.metrics_names.specs.Names.{KeyParts};

    ghost Value = { List ℕ × KeyParts };

    ghost view = { λ s. (s.bytes.items, s.key) };

    ghost invariant = { λ s. length s.bytes.items ≤ 256 };
}

/// Keys of series that earlier lines spelled: 8,192 at most, of at most 256 bytes each in their lines. Contracts see the labels
/// that the keys have beside those of their lines.
#[derive(Drop)]
pub(crate) struct SeriesCache {
    alloc: Global,
    common: Vec<Label>,
    spellings: HashMap<u64, Spelling>,
    /// The series of the last line was among them.
    pub is_hit: bool,
}

impl Model for SeriesCache {
    ghost use Rattle.std.specs.Prelude.{List, ◌≤◌, nat_eq};
    ghost use Rattle.std.specs.HashMap.{get, hash_map_len};
    ghost use Rattle.metrics_names.specs.Names.{LabelParts};
    ghost use Rattle.tool_requests.specs.Lines.{AreSpelled};

    ghost Value = { List LabelParts };

    ghost view = { λ c. c.common.items };

    ghost invariant = { λ c. AreSpelled c.common.items (get nat_eq c.spellings) × (hash_map_len c.spellings ≤ 8192) };
}

/// A number for the bytes of a series.
fn number_of(bytes: &[u8]) -> u64 {
    let mut state = FoldHasher::default();
    state.write(bytes);
    state.finish()
}

/// Returns whether labels are the same, in the same order.
#[tactic(auto, using(crate::proofs::CacheLemmas::labels_exact))]
fn are_same(labels: &[Label], others: &[Label]) -> bool
    ensures { result ≡ true → labels.now ≡ others.now }
{
    labels == others
}

/// Copies labels.
fn copied(alloc: Global, labels: &[Label]) -> Result<Vec<Label>, Refused>
    ensures { IfOk result (λ v. v.items ≡ labels.now) }
{
    let mut copies = Vec::with_capacity(alloc, labels.len())?;
    for label in labels {
        copies.push(label.clone()?)?;
    }
    Ok(copies)
}

impl SeriesCache {
    /// Begins without any, and doesn't allocate.
    pub fn new(alloc: Global) -> SeriesCache {
        SeriesCache {
            alloc,
            common: Vec::new(alloc),
            spellings: HashMap::new(alloc),
            is_hit: false,
        }
    }

    /// Forgets all, and keeps the memory of the table.
    pub fn clear(&mut self) {
        self.spellings.clear();
    }

    /// Becomes one for these common labels: forgets all, unless it has them.
    fn have(&mut self, common: &[Label]) -> Result<(), Refused>
        ensures { OnOk result (self.new ≡ common.now) }
    {
        if are_same(self.common.as_slice(), common) {
            return Ok(());
        }
        self.spellings.clear();
        self.common = copied(self.alloc, common)?;
        Ok(())
    }

    /// Returns the key that these bytes spell, if it is kept.
    fn get(&self, bytes: &[u8]) -> Option<&Key>
        ensures { IfSome result (λ key. SpellsSeries self.now bytes.now key.now) }
    {
        let spelling = self.spellings.get(&number_of(bytes))?;
        if spelling.bytes.as_slice() == bytes {
            Some(&spelling.key)
        } else {
            None
        }
    }

    /// Keeps a key with the bytes that spell it. It doesn't where it is full, where they are too long, and out of memory.
    fn keep(&mut self, bytes: &[u8], key: &Key)
        requires { SpellsSeries self.old bytes.now key.now }
    {
        if self.spellings.len() >= MOST || bytes.len() > LONGEST {
            return;
        }
        let Ok(copy) = Vec::from_slice(self.alloc, bytes) else {
            return;
        };
        let Ok(key) = key.clone() else {
            return;
        };
        let _ = self
            .spellings
            .insert(number_of(bytes), Spelling { bytes: copy, key });
    }
}

/// Returns how many bytes precede the first space, or the number of all. It looks at them one by one, since words are short.
fn word_len(bytes: &[u8]) -> usize
    ensures bound { result ≤ length bytes.now }
    ensures before { Lacks 32 (take result bytes.now) }
    ensures at { result < length bytes.now → slice_index bytes.now result ≡ 32 }
{
    match bytes.iter().position(|byte| *byte == b' ') {
        Some(place) => place,
        None => bytes.len(),
    }
}

/// Returns the bytes before the first space, and the others.
fn split_word(bytes: &[u8]) -> (&[u8], &[u8])
    ensures whole { bytes.now ≡ result.0.now ++ result.1.now }
    ensures before { Lacks 32 result.0.now }
    ensures others { StartsAt 32 result.1.now }
{
    let len = word_len(bytes);
    (&bytes[..len], &bytes[len..])
}

/// The first word of a line, the word after it, and the rest.
fn cut_of(line: &[u8]) -> Option<(&[u8], &[u8], &[u8])>
    ensures { IfSome result (λ c. (body line.now ≡ c.0.now ++ 32 ∷ (c.1.now ++ c.2.now)) × Lacks 32 c.0.now
        × Lacks 32 c.1.now × StartsAt 32 c.2.now) }
{
    let (word, rest) = split_word(body_of(line));
    let rest = strip_prefix(rest, b" ")?;
    let (amount, series) = split_word(rest);
    Some((word, amount, series))
}

/// The key of an update, and what the update is, if its series is kept.
fn kept_change<'a>(
    dialect: &Dialect,
    cache: &'a SeriesCache,
    word: &[u8],
    amount: &[u8],
    series: &[u8],
) -> Option<(&'a Key, Update)>
    ensures { IfSome result (λ c. SpellsSeries cache.now series.now c.0.now × (word.now ≡ update_word c.1)
        × IsAmount (places_at dialect.now.places c.0.now.name) c.1 amount.now) }
{
    let key = cache.get(series)?;
    let by = update_in(word, amount, places_for(dialect, key.name()))?;
    Some((key, by))
}

/// Returns the request of a line as `request_of` does. It keeps the key of an update, and so reads no later line of the same
/// series as a whole.
pub(crate) fn cached_request_of<'a>(
    alloc: Global,
    dialect: &Dialect,
    cache: &mut SeriesCache,
    line: &'a [u8],
) -> Result<Request, Unread<'a>>
    ensures { MatchResult result (Spells dialect.now line.now) (Fails (IsBad dialect.now line.now)) }
{
    cache.is_hit = false;
    cache.have(dialect.labels.as_slice())?;
    let Some((word, amount, series)) = cut_of(line) else {
        return request_of(alloc, dialect, line);
    };
    if let Some((key, by)) = kept_change(dialect, cache, word, amount, series) {
        let key = key.clone()?;
        cache.is_hit = true;
        return Ok(Request::Change(key, by));
    }
    let request = request_of(alloc, dialect, line)?;
    if let Request::Change(key, _by) = &request {
        cache.keep(series, key);
    }
    Ok(request)
}
