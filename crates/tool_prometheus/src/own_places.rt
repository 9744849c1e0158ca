//! The decimal places of the numbers that a text shows.
ghost use Rattle.std.specs.Prelude.{◌≡◌, bytes_eq};
ghost use Rattle.std.specs.List.{list_any};
ghost use Rattle.tool_requests.specs.Places.{kept_places as places_kept};
ghost use Rattle.tool_prometheus.specs.Own.{own_names};

use crate::own::{BAD_LINES, LEFT_OUT, LINES, REFUSED_CALLS, SCRAPED, SERIES};
use metrics_prometheus::DecimalPlaces;
use tool_requests::{Dialect, KeptPlaces};

/// The decimal places of kept names.
pub(crate) fn kept_places_of(dialect: &Dialect, front: usize) -> KeptPlaces<'_>
    ensures { places_kept result.list.now result.front ≡ places_kept dialect.now.places front }
{
    KeptPlaces {
        list: dialect.places.as_slice(),
        front,
    }
}

/// Whether a name is that of a series about the program itself.
fn is_own(name: &str) -> bool
    ensures { result ≡ list_any (bytes_eq name.now) own_names }
{
    name == LINES
        || name == BAD_LINES
        || name == REFUSED_CALLS
        || name == SERIES
        || name == LEFT_OUT
        || name == SCRAPED
}

/// The decimal places of kept names, and of the series about the program itself, which have none.
#[derive(Clone, Copy)]
pub(crate) struct OwnPlaces<'a> {
    pub kept: KeptPlaces<'a>,
}

impl DecimalPlaces for OwnPlaces<'_> {
    ghost use Rattle.tool_requests.specs.Places.{kept_places};
    ghost use Rattle.tool_prometheus.specs.Own.{own_places};

    ghost places = { λ p. own_places (kept_places p.kept.list.now p.kept.front) };

    fn places_of(&self, name: &str) -> u8 {
        if is_own(name) {
            0
        } else {
            self.kept.places_of(name)
        }
    }
}
