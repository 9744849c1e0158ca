//! The bounds of histograms where the command line has none.

use crate::places::words_of;
use metrics::{Items, Unit};
use std::alloc::{AllocError, Global};
use tool_prometheus::UnitBounds;

/// Those of names without a unit. They suit milliseconds.
const PLAIN: &str = "5,10,25,50,100,250,500,1000,2500,5000,10000";

/// Those of names of a unit, where they are others.
const BY_UNIT: [(Unit, &[i64]); 5] = [
    (Unit::Percent, &[1, 5, 10, 25, 50, 75, 90, 95, 99, 100]),
    (
        Unit::Seconds,
        &[1, 2, 5, 10, 30, 60, 120, 300, 600, 1800, 3600],
    ),
    (
        Unit::Microseconds,
        &[
            100, 250, 500, 1000, 2500, 5000, 10_000, 25_000, 50_000, 100_000, 250_000, 500_000,
            1_000_000, 10_000_000,
        ],
    ),
    (
        Unit::Nanoseconds,
        &[
            1000,
            2500,
            5000,
            10_000,
            25_000,
            50_000,
            100_000,
            250_000,
            500_000,
            1_000_000,
            10_000_000,
            100_000_000,
            1_000_000_000,
        ],
    ),
    (
        Unit::Bytes,
        &[
            256,
            1024,
            4096,
            16_384,
            65_536,
            262_144,
            1_048_576,
            4_194_304,
            16_777_216,
            67_108_864,
            268_435_456,
            1_073_741_824,
        ],
    ),
];

/// The bounds that are given, or else those of names without a unit.
pub fn plain_bounds<'a>(
    alloc: Global,
    given: Option<&[&'a str]>,
) -> Result<Vec<&'a str>, AllocError> {
    let Some(given) = given else {
        return words_of(alloc, PLAIN);
    };
    let mut words = Vec::with_capacity(alloc, given.len())?;
    for word in given {
        words.push(*word)?;
    }
    Ok(words)
}

/// Copies of numbers.
fn copied(alloc: Global, numbers: &[i64]) -> Result<Items<i64>, AllocError> {
    let mut copies = Vec::with_capacity(alloc, numbers.len())?;
    for number in numbers {
        copies.push(*number)?;
    }
    Ok(Items::from(copies))
}

/// The bounds by units. There are none where bounds are given.
pub fn unit_bounds(alloc: Global, given: Option<&[&str]>) -> Result<Items<UnitBounds>, AllocError> {
    let mut all = Vec::new(alloc);
    if given.is_some() {
        return Ok(Items::from(all));
    }
    for (unit, bounds) in BY_UNIT {
        let bounds = copied(alloc, bounds)?;
        all.push(UnitBounds { unit, bounds })?;
    }
    Ok(Items::from(all))
}
