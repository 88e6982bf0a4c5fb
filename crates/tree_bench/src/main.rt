//! Measures trees over pages in memory: puts as many rows as the first argument says, at keys that jump about, gets each of
//! them as often as the second one says, takes as many out as the third one says, and prints what was there. The time is taken
//! from outside.
#![tactic(auto)]

mod grown;

use crate::grown::{Ended, Grown};
use std::env;

/// A number on the command line.
fn number(text: Option<String>) -> Result<u64, Ended> {
    match text {
        Some(text) => text.parse().map_err(|_| Ended::NoNumber),
        None => Err(Ended::NoNumber),
    }
}

fn main(rt: HostRuntime) -> Result<(), Ended> {
    let mut words = env::args(&rt)?.skip(1);
    let rows = number(words.next())?;
    let rounds = number(words.next())?;
    let deletes = number(words.next())?;
    let mut grown = Grown::new(rt.alloc(), rows, deletes)?;
    let fresh = grown.put_all(rows)?;
    let mut found: u64 = 0;
    for _ in 0..rounds {
        found = found.saturating_add(grown.get_all(rows)?);
    }
    let levels = grown.levels();
    let gone = grown.delete_all(deletes)?;
    println!(rt; "new rows {fresh}, found {found}, levels {levels}, deleted {gone}")?;
    Ok(())
}
