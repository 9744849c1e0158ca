//! Numbers in decimal notation: what a word is in units of the last of so many decimal places.
#![tactic(auto)]

mod laws;
mod numerals;
mod shifts;
mod units;

pub use laws::number_law;
pub use units::{has_place_too_many, is_numeral, update_in};
