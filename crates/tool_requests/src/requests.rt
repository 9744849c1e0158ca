//! The lines of this tool: updates, descriptions, scrapes, and lines that are skipped.
ghost use Rattle.std.specs.Prelude.{◌≡◌, ℕ, List, [], ◌∷◌, ◌++◌, ◌<◌, ◌^◌, codes, decimal};
ghost use Rattle.std.specs.Prelude.{IfOk, MatchResult, Option as Maybe};
ghost use Rattle.metrics_names.specs.Names.{name_word, kind_word};
ghost use Rattle.metrics_names.specs.declared.kind.MetricKind.{MetricKind as Kind};
ghost use Rattle.metrics_names.specs.declared.common.Unit.{Unit as Measure};
ghost use Rattle.metrics.specs.declared.handles.Update.{Update as Change};
ghost use Rattle.tool_grammar.specs.Cuts.{Lacks, StartsAt};
ghost use Rattle.tool_grammar.specs.Grammar.{unit_word, update_word};
ghost use Rattle.tool_numbers.specs.Numerals.{IsAmount};
ghost use Rattle.tool_requests.specs.declared.dialect.Dialect.{Dialect as Ways};
ghost use Rattle.tool_requests.specs.Places.{places_at};
ghost use Rattle.tool_requests.specs.Lines.{IsName, IsText, Written, AreWritten, label_words, Fails, Reads, IsNone, Spells};
ghost use Rattle.tool_requests.specs.Lines.{IsBad, body_of as body, IsBegun};
ghost use Rattle.tool_requests.specs.Parsed.{request_parsed};
ghost use Rattle.tool_requests.specs.Scrapes.{is_scrape, at_moment};

use crate::amounts::{amount_flaw, is_amount, no_amount};
use crate::dialect::Dialect;
use crate::flaws::{Cause, Unread};
use crate::labels::{labels_of, with_labels};
use crate::places::places_at;
use crate::words::{are_of_name, text_before, text_of};
use metrics::{Key, KeyName, Label, MetricKind, Refused, Text, Unit, Update};
use std::alloc::Global;
use tool_grammar::{kind_of, number_of, split_before, strip_prefix, unit_of};
use tool_numbers::update_in;

/// The request of a line.
#[derive(Debug, Drop)]
pub enum Request {
    /// An update of a series.
    Change(Key, Update),
    /// A description of a name.
    Describe(MetricKind, KeyName, Option<Unit>, Text),
    /// A scrape at this moment, or at the clock's.
    Scrape(Option<u64>),
    /// Nothing: an empty line, or a comment.
    Nothing,
}

impl Request {
    /// Returns whether a line asks for a scrape.
    pub fn is_scrape(&self) -> bool
        ensures { result ≡ is_scrape self.now }
    {
        matches!(self, Request::Scrape(_))
    }

    /// Returns the request; a scrape without a moment of its own has this one.
    pub fn at_moment(self, now: u64) -> Request
        ensures { result ≡ at_moment now self }
    {
        match self {
            Request::Scrape(None) => Request::Scrape(Some(now)),
            request => request,
        }
    }
}

/// What a line spells, with its name as it stands there.
#[derive(Drop)]
enum Parsed<'a> {
    Change(&'a str, Vec<Label>, Update),
    Describe(MetricKind, &'a str, Option<Unit>, &'a str),
    Scrape(Option<u64>),
    Nothing,
}

/// A line without a carriage return at its end.
pub(crate) fn body_of(line: &[u8]) -> &[u8]
    ensures { result.now ≡ body line.now }
{
    let Some((last, front)) = line.split_last() else {
        return line;
    };
    if *last == b'\r' { front } else { line }
}

/// The next word, which has a space before it, and what follows it.
fn next_word<'a>(bytes: &'a [u8], what: &'static str) -> Result<(&'a [u8], &'a [u8]), Unread<'a>>
    ensures { MatchResult result
        (λ f. (bytes.now ≡ 32 ∷ (f.0.now ++ f.1.now)) × Lacks 32 f.0.now × StartsAt 32 f.1.now)
        (Fails ((rest : List ℕ) → bytes.now ≡ 32 ∷ rest → ⊥)) }
{
    match strip_prefix(bytes, b" ") {
        Some(others) => Ok(split_before(others, b' ')),
        None => Err(Unread::Bad(Cause::Missing(what), bytes)),
    }
}

/// The name that a text spells: a dash is the empty one.
fn name_of(text: &str) -> Result<&str, Unread<'_>>
    requires { IsText text.now × Lacks 32 text.now }
    ensures { MatchResult result (λ name. IsName name.now × (text.now ≡ name_word name.now))
        (Fails ((name : List ℕ) → IsName name → text.now ≡ name_word name → ⊥)) }
{
    let word = text.as_bytes();
    if word.is_empty() {
        return Err(Unread::Bad(Cause::Empty, word));
    }
    if word == b"-".as_slice() {
        return Ok("");
    }
    if !are_of_name(word) {
        return Err(Unread::Bad(Cause::Name, word));
    }
    Ok(text)
}

/// The amount of an update, and what follows it.
fn amount_and_rest<'a>(word: &'a [u8], bytes: &'a [u8]) -> Result<(&'a [u8], &'a [u8]), Unread<'a>>
    ensures { MatchResult result
        (λ f. (bytes.now ≡ 32 ∷ (f.0.now ++ f.1.now)) × Lacks 32 f.0.now × StartsAt 32 f.1.now)
        (Fails ((rest : List ℕ) → bytes.now ≡ 32 ∷ rest → ⊥)) }
{
    match strip_prefix(bytes, b" ") {
        Some(others) => Ok(split_before(others, b' ')),
        None => Err(Unread::Bad(no_amount(word), word)),
    }
}

/// The update of a word, by an amount with so many decimal places at most.
fn update_by<'a>(word: &'a [u8], amount: &'a [u8], places: u8) -> Result<Update, Unread<'a>>
    ensures { MatchResult result (λ by. IsAmount places by amount.now × (word.now ≡ update_word by))
        (Fails ((by : Change) → IsAmount places by amount.now → word.now ≡ update_word by → ⊥)) }
{
    match update_in(word, amount, places) {
        Some(by) => Ok(by),
        None => {
            let (cause, flawed) = amount_flaw(word, amount, places);
            Err(Unread::Bad(cause, flawed))
        }
    }
}

/// The name of a line, and what follows it.
fn name_and_rest(bytes: &[u8]) -> Result<(&str, &[u8]), Unread<'_>>
    ensures { MatchResult result
        (λ f. IsName f.0.now × (bytes.now ≡ 32 ∷ (name_word f.0.now ++ f.1.now)) × StartsAt 32 f.1.now)
        (Fails ((name rest : List ℕ) → IsName name → StartsAt 32 rest
        → bytes.now ≡ 32 ∷ (name_word name ++ rest) → ⊥)) }
{
    let Some(others) = strip_prefix(bytes, b" ") else {
        return Err(Unread::Bad(Cause::Missing("NAME"), bytes));
    };
    let (text, rest) = text_before(others, b' ')?;
    let name = name_of(text)?;
    Ok((name, rest))
}

/// The first flaw of a line whose name has this one: its first word and its amount come before.
fn first_flaw<'a>(
    word: &'a [u8],
    amount: &'a [u8],
    cause: Cause,
    flawed: &'a [u8],
) -> (Cause, &'a [u8]) {
    if is_amount(word, amount) {
        (cause, flawed)
    } else {
        amount_flaw(word, amount, 0)
    }
}

/// The name of an update, and what follows it.
fn updated_name<'a>(
    word: &'a [u8],
    amount: &'a [u8],
    bytes: &'a [u8],
) -> Result<(&'a str, &'a [u8]), Unread<'a>>
    ensures { MatchResult result
        (λ f. IsName f.0.now × (bytes.now ≡ 32 ∷ (name_word f.0.now ++ f.1.now)) × StartsAt 32 f.1.now)
        (Fails ((name rest : List ℕ) → IsName name → StartsAt 32 rest
        → bytes.now ≡ 32 ∷ (name_word name ++ rest) → ⊥)) }
{
    match name_and_rest(bytes) {
        Ok(found) => Ok(found),
        Err(Unread::Memory) => Err(Unread::Memory),
        Err(Unread::Bad(cause, flawed)) => {
            let (cause, flawed) = first_flaw(word, amount, cause, flawed);
            Err(Unread::Bad(cause, flawed))
        }
    }
}

/// The decimal places of a name.
pub(crate) fn places_for(dialect: &Dialect, name: &str) -> u8
    ensures { result ≡ places_at dialect.now.places name.now }
{
    places_at(dialect.places.as_slice(), name.as_bytes())
}

/// The update of a line, from its first word and what follows it.
fn change_of<'a>(
    alloc: Global,
    dialect: &Dialect,
    word: &'a [u8],
    bytes: &'a [u8],
) -> Result<Parsed<'a>, Unread<'a>>
    ensures { MatchResult result (λ s. Reads dialect.now (word.now ++ bytes.now) (request_parsed s))
        (Fails ((by : Change) (amount name : List ℕ) (ws : List Written) → IsAmount (places_at dialect.now.places name) by amount
        → IsName name → AreWritten ws → word.now ≡ update_word by
        → bytes.now ≡ 32 ∷ (amount ++ 32 ∷ (name_word name ++ label_words ws)) → ⊥)) }
{
    let (amount, rest) = amount_and_rest(word, bytes)?;
    let (name, rest) = updated_name(word, amount, rest)?;
    let by = update_by(word, amount, places_for(dialect, name))?;
    let labels = with_labels(alloc, dialect.labels.as_slice(), labels_of(alloc, rest)?)?;
    Ok(Parsed::Change(name, labels, by))
}

/// The kind of a describe line, and what follows it.
fn kind_and_rest(bytes: &[u8]) -> Result<(MetricKind, &[u8]), Unread<'_>>
    ensures { MatchResult result (λ f. (bytes.now ≡ 32 ∷ (kind_word f.0 ++ f.1.now)) × StartsAt 32 f.1.now)
        (Fails ((kind : Kind) (rest : List ℕ) → StartsAt 32 rest → bytes.now ≡ 32 ∷ (kind_word kind ++ rest) → ⊥)) }
{
    let (word, rest) = next_word(bytes, "KIND")?;
    match kind_of(word) {
        Some(kind) => Ok((kind, rest)),
        None => Err(Unread::Bad(Cause::Kind, word)),
    }
}

/// The unit of a describe line, and what follows it.
fn unit_and_rest(bytes: &[u8]) -> Result<(Option<Unit>, &[u8]), Unread<'_>>
    ensures { MatchResult result (λ f. (bytes.now ≡ 32 ∷ (unit_word f.0 ++ f.1.now)) × StartsAt 32 f.1.now)
        (Fails ((unit : Maybe Measure) (rest : List ℕ) → StartsAt 32 rest
        → bytes.now ≡ 32 ∷ (unit_word unit ++ rest) → ⊥)) }
{
    let (word, rest) = next_word(bytes, "UNIT")?;
    match unit_of(word) {
        Some(unit) => Ok((unit, rest)),
        None => Err(Unread::Bad(Cause::Unit, word)),
    }
}

/// The text of a describe line: all that follows one space, without control characters.
fn note_of(bytes: &[u8]) -> Result<&str, Unread<'_>>
    ensures { MatchResult result (λ text. IsText text.now × (bytes.now ≡ 32 ∷ text.now))
        (Fails ((text : List ℕ) → IsText text → bytes.now ≡ 32 ∷ text → ⊥)) }
{
    let Some(text) = strip_prefix(bytes, b" ") else {
        return Err(Unread::Bad(Cause::Missing("TEXT"), bytes));
    };
    text_of(text)
}

/// The description of a line, from what follows its first word.
fn describe_of(bytes: &[u8]) -> Result<Parsed<'_>, Unread<'_>>
    ensures { (dialect : Ways) → MatchResult result (λ s. Reads dialect (codes "describe" ++ bytes.now) (request_parsed s))
        (Fails ((kind : Kind) (name : List ℕ) (unit : Maybe Measure) (text : List ℕ) → IsName name → IsText text
        → bytes.now ≡ 32 ∷ (kind_word kind ++ 32 ∷ (name_word name ++ 32 ∷ (unit_word unit ++ 32 ∷ text))) → ⊥)) }
{
    let (kind, rest) = kind_and_rest(bytes)?;
    let (name, rest) = name_and_rest(rest)?;
    let (unit, rest) = unit_and_rest(rest)?;
    let text = note_of(rest)?;
    Ok(Parsed::Describe(kind, name, unit, text))
}

/// The scrape of a line, from what follows its first word.
fn scrape_of(bytes: &[u8]) -> Result<Parsed<'_>, Unread<'_>>
    requires { StartsAt 32 bytes.now }
    ensures { (dialect : Ways) → MatchResult result (λ s. Reads dialect (codes "scrape" ++ bytes.now) (request_parsed s))
        (Fails ((bytes.now ≡ [] → ⊥) × ((now : ℕ) → now < 2 ^ 64 → bytes.now ≡ 32 ∷ decimal now → ⊥))) }
{
    let Some(digits) = strip_prefix(bytes, b" ") else {
        return Ok(Parsed::Scrape(None));
    };
    match number_of(digits) {
        Some(now) => Ok(Parsed::Scrape(Some(now))),
        None => Err(Unread::Bad(Cause::Whole, digits)),
    }
}

/// What a first word and what follows it spell.
fn parsed_from<'a>(
    alloc: Global,
    dialect: &Dialect,
    word: &'a [u8],
    rest: &'a [u8],
) -> Result<Parsed<'a>, Unread<'a>>
    requires { Lacks 32 word.now × StartsAt 32 rest.now × IsBegun (word.now ++ rest.now) }
    ensures { MatchResult result (λ s. Reads dialect.now (word.now ++ rest.now) (request_parsed s))
        (Fails (IsNone dialect.now (word.now ++ rest.now))) }
{
    if word == b"scrape".as_slice() {
        return scrape_of(rest);
    }
    if word == b"describe".as_slice() {
        return describe_of(rest);
    }
    change_of(alloc, dialect, word, rest)
}

/// What a line without its end spells.
fn sentence_of<'a>(
    alloc: Global,
    dialect: &Dialect,
    body: &'a [u8],
) -> Result<Parsed<'a>, Unread<'a>>
    ensures { MatchResult result (λ s. Reads dialect.now body.now (request_parsed s)) (Fails (IsNone dialect.now body.now)) }
{
    let Some((first, _others)) = body.split_first() else {
        return Ok(Parsed::Nothing);
    };
    if *first == b'#' {
        return Ok(Parsed::Nothing);
    }
    let (word, rest) = split_before(body, b' ');
    parsed_from(alloc, dialect, word, rest)
}

/// The request of what a line spells.
fn request_for(alloc: Global, parsed: Parsed<'_>) -> Result<Request, Refused>
    ensures { IfOk result (λ r. r ≡ request_parsed parsed.entry) }
{
    match parsed {
        Parsed::Change(name, labels, by) => {
            Ok(Request::Change(Key::from_parts(alloc, name, labels)?, by))
        }
        Parsed::Describe(kind, name, unit, note) => {
            let name = KeyName::new(alloc, name)?;
            let note = Text::new(alloc, note)?;
            Ok(Request::Describe(kind, name, unit, note))
        }
        Parsed::Scrape(moment) => Ok(Request::Scrape(moment)),
        Parsed::Nothing => Ok(Request::Nothing),
    }
}

/// Returns the request that a line spells, or why it spells none. An updated series has the dialect's labels beside its own, in
/// the order of their keys; its own label of a key wins. Its amount is in units of the last decimal place of its name.
pub fn request_of<'a>(
    alloc: Global,
    dialect: &Dialect,
    line: &'a [u8],
) -> Result<Request, Unread<'a>>
    ensures { MatchResult result (Spells dialect.now line.now) (Fails (IsBad dialect.now line.now)) }
{
    let parsed = sentence_of(alloc, dialect, body_of(line))?;
    Ok(request_for(alloc, parsed)?)
}
