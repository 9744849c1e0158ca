//! The lines of an exporter: updates, and scrapes.
ghost use Rattle.std.specs.Prelude.{◌≡◌, ◌∷◌, ◌++◌, MatchResult, MatchOption};
ghost use Rattle.metrics.specs.declared.handles.Update.{Update as Change};
ghost use Rattle.metrics_names.specs.Names.{KeyParts, name_word, label_words};
ghost use Rattle.metrics_names.specs.declared.refused.Refused.TheVariants.{Memory};
ghost use Rattle.tool_grammar.specs.Grammar.{update_word, amount_word, IsName, AreLabels, IsInRange};
ghost use Rattle.tool_export.specs.Requests.{Spells, IsBad};

use metrics::{Key, Refused, Update};
use std::alloc::Global;
use tool_grammar::{key_of, number_of, split_at_first, update_of};

/// The request of a line.
#[derive(Debug, Drop)]
pub enum Request {
    /// An update of a series.
    Change(Key, Update),
    /// An expiry at this moment, and the text after it.
    Scrape(u64),
}

/// The update of a line, from its first word and the bytes after it.
fn change_of(alloc: Global, word: &[u8], bytes: &[u8]) -> Result<Option<Request>, Refused>
    ensures { MatchResult result (λ found. MatchOption found
        ((key : KeyParts) (by : Change) → IsInRange by → IsName key.name → AreLabels key.labels
        → word.now ≡ update_word by
        → bytes.now ≡ amount_word by ++ 32 ∷ (name_word key.name ++ label_words key.labels) → ⊥)
        (Spells (word.now ++ 32 ∷ bytes.now))) (λ e. e ≡ Memory 0) }
{
    let Some((amount, rest)) = split_at_first(bytes, b' ') else {
        return Ok(None);
    };
    let Some(by) = update_of(word, amount) else {
        return Ok(None);
    };
    match key_of(alloc, rest)? {
        Some(key) => Ok(Some(Request::Change(key, by))),
        None => Ok(None),
    }
}

/// Returns the request that a line spells, if it spells one. Fails only when out of memory.
pub fn request_of(alloc: Global, line: &[u8]) -> Result<Option<Request>, Refused>
    ensures { MatchResult result (λ found. MatchOption found (IsBad line.now) (Spells line.now)) (λ e. e ≡ Memory 0) }
{
    let Some((word, rest)) = split_at_first(line, b' ') else {
        return Ok(None);
    };
    if word == b"scrape".as_slice() {
        return match number_of(rest) {
            Some(now) => Ok(Some(Request::Scrape(now))),
            None => Ok(None),
        };
    }
    change_of(alloc, word, rest)
}
