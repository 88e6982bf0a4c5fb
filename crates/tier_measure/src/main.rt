//! Measures the leaves of the tiers: does one call so often as the second argument says, the call that the first one names,
//! and prints a sum of the answers. Instructions and time are counted from outside.
#![tactic(auto)]

mod clocks;
mod ended;
mod maps;
mod policies;

use crate::ended::Ended;
use std::alloc::Global;
use std::env;

/// How many places a clock, and how many full places a map, and pages a queue has.
const PLACES: u32 = 65_536;

/// A number on the command line.
fn number(text: Option<String>) -> Result<u64, Ended> {
    match text {
        Some(text) => text.parse().map_err(|_| Ended::NoNumber),
        None => Err(Ended::NoNumber),
    }
}

/// The sum of the answers of so many calls of this name.
fn measured(alloc: Global, name: &str, count: u64) -> Result<u64, Ended> {
    if name == "touch" {
        clocks::touches(alloc, count)
    } else if name == "round" {
        clocks::rounds(alloc, count)
    } else if name == "sweep" {
        clocks::sweeps(alloc, count)
    } else if name == "room" {
        clocks::rooms(alloc, count)
    } else if name == "place" {
        maps::places(alloc, count)
    } else if name == "map" {
        maps::largest(alloc, count)
    } else if name == "yes" {
        policies::draws(count)
    } else if name == "ask" {
        policies::asks(alloc, count)
    } else {
        Err(Ended::NoSuchCall)
    }
}

fn main(rt: HostRuntime) -> Result<(), Ended> {
    let mut words = env::args(&rt)?.skip(1);
    let Some(name) = words.next() else {
        return Err(Ended::NoSuchCall);
    };
    let count = number(words.next())?;
    let sum = measured(rt.alloc(), name.as_str(), count)?;
    println!(rt; "{count} times {name}: {sum}")?;
    Ok(())
}
