//! The values of the options for names.

use crate::values::Unfit;
use metrics::{Items, Text};
use std::alloc::Global;

/// How many bytes the texts of dropped names may have together.
const MOST: usize = 1_048_576;

/// Whether a name of the text format can begin with the byte.
fn begins(byte: u8) -> bool {
    byte.is_ascii_alphabetic() || byte == b'_' || byte == b':'
}

/// Whether a name of the text format can begin with a text as it is.
fn is_front(text: &str) -> bool {
    let Some((first, others)) = text.as_bytes().split_first() else {
        return false;
    };
    begins(*first)
        && others
            .iter()
            .all(|byte| begins(*byte) || byte.is_ascii_digit())
}

/// What is put before each name.
pub fn prefix_of(alloc: Global, given: Option<&str>) -> Result<Option<Text>, Unfit<'_>> {
    let Some(given) = given else {
        return Ok(None);
    };
    if !is_front(given) {
        return Err(Unfit::Value(
            "--prefix <PREFIX>",
            given,
            "PREFIX has letters, digits, _ and :, and begins with no digit",
        ));
    }
    Ok(Some(Text::new(alloc, given)?))
}

/// The texts of dropped names.
pub fn drops_of<'a>(alloc: Global, given: Option<&[&'a str]>) -> Result<Items<Text>, Unfit<'a>> {
    let mut drops = Vec::new(alloc);
    let mut left = MOST;
    for text in given.unwrap_or(&[]) {
        if text.is_empty() {
            return Err(Unfit::Value("--drop <TEXT>", text, "TEXT is empty"));
        }
        match left.checked_sub(text.len()) {
            Some(rest) => left = rest,
            None => {
                return Err(Unfit::Value(
                    "--drop <TEXT>",
                    "..",
                    "the texts have more than 1048576 bytes together",
                ));
            }
        }
        drops.push(Text::new(alloc, text)?)?;
    }
    Ok(Items::from(drops))
}
