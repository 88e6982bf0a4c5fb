//! Calls of a map.
ghost use Rattle.std.specs.Prelude.{◌<◌};

use crate::PLACES;
use crate::ended::Ended;
use std::alloc::Global;
use tier_map::{Place, TierMap};

/// How many pages the map has.
const PAGES: u64 = 1_048_576;

/// How many pages the largest map has.
const LARGEST: u64 = 31_000_497;

/// A page that jumps about.
fn scattered(i: u64) -> u64
    ensures { result < PAGES }
{
    i.wrapping_mul(40_503) % 1_048_576
}

/// Maps of 62 tables of 1,000,000 rows with all places that there may be, made and put away, and how many of them place the
/// last page.
pub fn largest(alloc: Global, count: u64) -> Result<u64, Ended> {
    let mut placed: u64 = 0;
    for _ in 0..count {
        let map = TierMap::new(alloc, LARGEST, PLACES, PLACES, PLACES - 1)?;
        if map.place(LARGEST - 1) != Place::Absent {
            placed = placed.saturating_add(1);
        }
    }
    Ok(placed)
}

/// Look-ups of pages, and how many of them have a full copy.
pub fn places(alloc: Global, count: u64) -> Result<u64, Ended> {
    let mut map = TierMap::new(alloc, PAGES, PLACES, 1, 1)?;
    map.set_full(7, 3);
    let mut full: u64 = 0;
    for i in 0..count {
        if let Place::Full(_) = map.place(scattered(i)) {
            full = full.saturating_add(1);
        }
    }
    Ok(full)
}
