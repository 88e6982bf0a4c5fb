//! Draws, and calls of an admission queue.
ghost use Rattle.std.specs.Prelude.{◌≡◌, ◌≤◌};

use crate::PLACES;
use crate::ended::Ended;
use migration_policy::{AdmissionQueue, Draws};
use std::alloc::Global;

/// Draws with one half, and how many of them say yes.
pub fn draws(count: u64) -> Result<u64, Ended> {
    let mut draws = Draws::new(7);
    let mut said: u64 = 0;
    for _ in 0..count {
        if draws.yes(500) {
            said = said.saturating_add(1);
        }
    }
    Ok(said)
}

/// Questions for a page that was not asked for before, and how many answers are yes.
pub fn asks(alloc: Global, count: u64) -> Result<u64, Ended> {
    let mut queue = AdmissionQueue::new(alloc, PLACES)?;
    let mut admitted: u64 = 0;
    for page in 0..count {
        if queue.ask(page) {
            admitted = admitted.saturating_add(1);
        }
    }
    Ok(admitted)
}
