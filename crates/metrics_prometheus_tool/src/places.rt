//! The decimal places of names, and bounds by them.

use crate::values::Unfit;
use metrics::{Items, Text, Update};
use std::alloc::{AllocError, Global};
use tool_numbers::{has_place_too_many, is_numeral, update_in};
use tool_prometheus::{PrefixBounds, PrefixPlaces};

/// The most decimal places: a number of 64 bits has 19 digits.
const MOST: u8 = 18;

const PLACES: &str = "--places <NAME=N>";

/// What a bound is.
const BOUND: &str = "N is a whole number from -9223372036854775808 to 9223372036854775807";

/// What a bound is where numbers have decimal places.
const PLACED_BOUND: &str = "N has more decimal places than its names, or is too large with theirs";

/// What is wrong with a value.
type Flaw = &'static str;

/// What the names that begin so have.
#[derive(Clone, Copy, Drop)]
pub struct Named<'a, T> {
    name: &'a str,
    value: T,
}

/// The names that begin so have numbers with so many decimal places.
pub type NamePlaces<'a> = Named<'a, u8>;

/// The names that begin so have these bounds.
type NameBounds<'a> = Named<'a, &'a str>;

/// The names and the decimal places that a value of the option sets, or what is wrong with it.
fn name_places<'a>(others: &[NamePlaces<'_>], given: &'a str) -> Result<NamePlaces<'a>, Flaw> {
    let Some((name, number)) = given.rsplit_once('=') else {
        return Err("it has no '='");
    };
    let Ok(value) = number.parse::<u8>() else {
        return Err("N is a whole number from 0 to 18");
    };
    if value > MOST {
        return Err("N is a whole number from 0 to 18");
    }
    if others.iter().any(|other| other.name == name) {
        return Err("each NAME is given once");
    }
    Ok(NamePlaces { name, value })
}

/// The decimal places by beginnings of names, in the order of the command line.
pub fn places_of<'a>(
    alloc: Global,
    given: Option<&[&'a str]>,
) -> Result<Vec<NamePlaces<'a>>, Unfit<'a>> {
    let mut places = Vec::new(alloc);
    for word in given.unwrap_or(&[]) {
        match name_places(&places, word) {
            Ok(one) => places.push(one)?,
            Err(accepted) => return Err(Unfit::Value(PLACES, word, accepted)),
        }
    }
    Ok(places)
}

/// The same, for lines.
pub fn prefix_places(
    alloc: Global,
    places: &[NamePlaces<'_>],
) -> Result<Items<PrefixPlaces>, AllocError> {
    let mut prefixes = Vec::new(alloc);
    for one in places {
        prefixes.push(PrefixPlaces {
            prefix: Text::from(String::from_str(alloc, one.name)?),
            places: one.value,
        })?;
    }
    Ok(Items::from(prefixes))
}

/// What the names that begin so have, unless more of a name decides.
fn longest<T: Copy>(all: &[Named<'_, T>], name: &str) -> Option<T> {
    let mut best: Option<&Named<'_, T>> = None;
    for one in all {
        if name.starts_with(one.name)
            && best.is_none_or(|other| other.name.len() < one.name.len())
        {
            best = Some(one);
        }
    }
    best.map(|one| one.value)
}

fn places_at(places: &[NamePlaces<'_>], name: &str) -> u8 {
    longest(places, name).unwrap_or(0)
}

/// A bound in units of the last of so many decimal places. It may have a plus and needless zeros.
fn units_of(bound: &str, places: u8) -> Option<i64> {
    if let Ok(whole) = bound.parse::<i64>() {
        return whole.checked_mul(10i64.checked_pow(u32::from(places))?);
    }
    match update_in(b"record", bound.as_bytes(), places) {
        Some(Update::Record(units)) => Some(units),
        _ => None,
    }
}

/// Whether no number with so many decimal places passes a bound.
fn is_past(bound: &str, places: u8) -> bool {
    let word = bound.as_bytes();
    bound.parse::<i64>().is_ok() || (is_numeral(word) && !has_place_too_many(word, places))
}

/// Bounds in units of the last of so many decimal places, or one that has a place too many or is too large. Of bounds that were
/// set for more names those are left out that no number passes.
fn all_units<'a>(
    alloc: Global,
    bounds: &[&'a str],
    places: u8,
    are_shared: bool,
) -> Result<Result<Items<i64>, &'a str>, AllocError> {
    let mut units = Vec::new(alloc);
    for bound in bounds {
        match units_of(bound, places) {
            Some(one) => units.push(one)?,
            None if are_shared && is_past(bound, places) => {}
            None => return Ok(Err(bound)),
        }
    }
    Ok(Ok(Items::from(units)))
}

/// The bounds between commas.
pub fn words_of<'a>(alloc: Global, bounds: &'a str) -> Result<Vec<&'a str>, AllocError> {
    let mut words = Vec::new(alloc);
    for bound in bounds.split(',') {
        words.push(bound)?;
    }
    Ok(words)
}

/// What a bound is, with so many decimal places.
fn bound_form(places: u8) -> &'static str {
    if places == 0 { BOUND } else { PLACED_BOUND }
}

/// The bounds of histograms for which no others are set, in the order of the command line.
pub fn bounds_of<'a>(
    alloc: Global,
    places: &[NamePlaces<'_>],
    bounds: &[&'a str],
) -> Result<Items<i64>, Unfit<'a>> {
    let places = places_at(places, "");
    match all_units(alloc, bounds, places, false)? {
        Ok(units) => Ok(units),
        Err(bound) => Err(Unfit::Value("--bounds <N,..>", bound, bound_form(places))),
    }
}

/// The names and the bounds that a value of the option sets, or what is wrong with it. The prefix may have equals signs.
fn name_bounds<'a>(others: &[NameBounds<'_>], given: &'a str) -> Result<NameBounds<'a>, Flaw> {
    let Some((name, value)) = given.rsplit_once('=') else {
        return Err("it has no '='");
    };
    if others.iter().any(|other| other.name == name) {
        return Err("each PREFIX is given once");
    }
    Ok(NameBounds { name, value })
}

/// What is before each name.
fn front_of(alloc: Global, prefix: Option<&str>) -> Result<String, AllocError> {
    match prefix {
        Some(prefix) => format!(in alloc; "{prefix}."),
        None => Ok(String::new(alloc)),
    }
}

/// Bounds by prefixes of kept names, each of which is below the one prefix.
#[derive(Drop)]
struct Prefixes {
    front: String,
    list: Vec<PrefixBounds>,
}

impl Prefixes {
    fn add(&mut self, alloc: Global, name: &str, bounds: Items<i64>) -> Result<(), AllocError> {
        let front = self.front.as_str();
        let prefix = Text::from(format!(in alloc; "{front}{name}")?);
        self.list.push(PrefixBounds { prefix, bounds })?;
        Ok(())
    }
}

/// Adds the bounds of one value of the option.
fn add_bounds<'a>(
    alloc: Global,
    prefixes: &mut Prefixes,
    places: u8,
    one: NameBounds<'a>,
    given: &'a str,
) -> Result<(), Unfit<'a>> {
    let words = words_of(alloc, one.value)?;
    match all_units(alloc, &words, places, false)? {
        Ok(units) => Ok(prefixes.add(alloc, one.name, units)?),
        Err(_) => Err(Unfit::Value("--bounds-of <PREFIX=N,..>", given, bound_form(places))),
    }
}

/// Adds the bounds of names that have decimal places of their own, and no bounds.
fn add_placed<'a>(
    alloc: Global,
    prefixes: &mut Prefixes,
    one: NamePlaces<'a>,
    bounds: &[&str],
    given: &'a str,
) -> Result<(), Unfit<'a>> {
    match all_units(alloc, bounds, one.value, true)? {
        Ok(units) => Ok(prefixes.add(alloc, one.name, units)?),
        Err(_) => Err(Unfit::Value(
            PLACES,
            given,
            "a bound of these names has more decimal places",
        )),
    }
}

/// The bounds by prefixes of names, in the order of the command line: first those that are given, and then, where names have
/// decimal places of their own, those of their longest prefix, or the default ones.
pub fn prefixes_of<'a>(
    alloc: Global,
    prefix: Option<&str>,
    places: &[NamePlaces<'a>],
    places_given: &[&'a str],
    defaults: &[&str],
    given: &[&'a str],
) -> Result<Items<PrefixBounds>, Unfit<'a>> {
    let mut prefixes = Prefixes {
        front: front_of(alloc, prefix)?,
        list: Vec::new(alloc),
    };
    let mut named: Vec<NameBounds<'a>> = Vec::new(alloc);
    for word in given {
        let one = match name_bounds(&named, word) {
            Ok(one) => one,
            Err(accepted) => return Err(Unfit::Value("--bounds-of <PREFIX=N,..>", word, accepted)),
        };
        named.push(one)?;
        add_bounds(alloc, &mut prefixes, places_at(places, one.name), one, word)?;
    }
    for (one, word) in places.iter().zip(places_given) {
        if named.iter().any(|other| other.name == one.name) {
            continue;
        }
        match longest(&named, one.name) {
            Some(bounds) => {
                let words = words_of(alloc, bounds)?;
                add_placed(alloc, &mut prefixes, *one, &words, word)?;
            }
            None => add_placed(alloc, &mut prefixes, *one, defaults, word)?,
        }
    }
    Ok(Items::from(prefixes.list))
}
