//! How many decimal places the numbers of a name have.

use metrics::Text;

/// How many decimal places the numbers have whose names begin with a prefix.
#[derive(Drop)]
pub struct PrefixPlaces {
    /// The beginning of names.
    pub prefix: Text,
    /// The decimal places.
    pub places: u8,
}

ghost use Rattle.std.specs.Prelude.{◌≡◌, List, [], ◌∷◌, ◌++◌, true, false, option_map};
ghost use Rattle.tool_requests.specs.declared.places.PrefixPlaces.{PrefixPlaces as Entry};
ghost use Rattle.prefix_match.specs.TriePatterns.{IsFront};
ghost use Rattle.tool_requests.specs.Places.{places_at, front_of, IsBest};

use metrics_exposition::DecimalPlaces;

/// Whether a name begins with a prefix.
fn is_front(prefix: &[u8], name: &[u8]) -> bool
    ensures yes { result ≡ true → IsFront prefix.now name.now }
    ensures no { result ≡ false → IsFront prefix.now name.now → ⊥ }
{
    name.starts_with(prefix)
}

/// The one that decides for a name after one more of the list.
fn better<'a>(
    best: Option<&'a PrefixPlaces>,
    one: &'a PrefixPlaces,
    name: &[u8],
) -> Option<&'a PrefixPlaces>
    ensures { (list : List Entry) → IsBest list name.now (option_map (λ b. b.now) best.entry)
        → IsBest (list ++ one.now ∷ []) name.now (option_map (λ b. b.now) result) }
{
    if !is_front(one.prefix.as_str().as_bytes(), name) {
        return best;
    }
    match best {
        None => Some(one),
        Some(other) => {
            if other.prefix.as_str().len() <= one.prefix.as_str().len() {
                Some(one)
            } else {
                best
            }
        }
    }
}

/// Returns the decimal places of a name: those of its longest prefix in the list, or none.
pub(crate) fn places_at(list: &[PrefixPlaces], name: &[u8]) -> u8
    ensures { result ≡ places_at list.now name.now }
{
    let mut best: Option<&PrefixPlaces> = None;
    for one in list {
        best = better(best, one, name);
    }
    match best {
        Some(one) => one.places,
        None => 0,
    }
}

/// Returns how many bytes a kept name has before that of its line: those of the prefix and a dot.
pub fn front_of(prefix: &Option<Text>) -> usize
    ensures { result ≡ front_of prefix.now }
{
    match prefix {
        Some(prefix) => prefix.as_str().len() + 1,
        None => 0,
    }
}

/// The decimal places of kept names, which have so many bytes before the names of their lines.
#[derive(Clone, Copy)]
pub struct KeptPlaces<'a> {
    /// The decimal places of names as lines have them.
    pub list: &'a [PrefixPlaces],
    /// The number of those bytes.
    pub front: usize,
}

impl DecimalPlaces for KeptPlaces<'_> {
    ghost use Rattle.tool_requests.specs.Places.{kept_places};

    ghost places = { λ p. kept_places p.list.now p.front };

    fn places_of(&self, name: &str) -> u8 {
        let bytes = name.as_bytes();
        if self.front <= bytes.len() {
            places_at(self.list, &bytes[self.front..])
        } else {
            places_at(self.list, b"")
        }
    }
}
