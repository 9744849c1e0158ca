//! Which patterns a text has: some of them anywhere in it, by [`SubstringSet`], or the longest of them at its beginning, by
//! [`PrefixTrie`]. Texts and patterns are bytes.
#![tactic(auto)]

mod error;
mod substring;
mod trie;

pub use error::MatchError;
pub use substring::SubstringSet;
pub use trie::PrefixTrie;
