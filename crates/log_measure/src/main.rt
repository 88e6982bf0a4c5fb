//! Measures the calls of a log on three tiers, over a world in memory: makes one call so often as the second argument says, the call
//! that the first one names, and prints a sum of the answers. Instructions are counted from outside.
#![tactic(auto)]

mod calls;
mod ended;
mod store;

use crate::ended::Ended;
use std::alloc::Global;
use std::env;

/// A number on the command line.
fn number(text: Option<String>) -> Result<u64, Ended> {
    match text {
        Some(text) => text.parse().map_err(|_| Ended::NoNumber),
        None => Err(Ended::NoNumber),
    }
}

/// The sum of the answers of so many calls of this name.
fn measured(alloc: Global, name: &str, count: u64) -> Result<u64, Ended> {
    if name == "bare" {
        calls::bare(alloc, count)
    } else if name == "append" {
        calls::appends(alloc, count)
    } else if name == "harden" {
        calls::hardens(alloc, count)
    } else if name == "end" {
        calls::ends(alloc, count)
    } else if name == "start" {
        calls::starts(alloc, count)
    } else if name == "drain" {
        calls::drains(alloc, count, 1)
    } else if name == "drain_16" {
        calls::drains(alloc, count, 16)
    } else if name == "line" {
        calls::lines(alloc, count, 0)
    } else if name == "drained_line" {
        calls::lines(alloc, count, 1024)
    } else if name == "back" {
        calls::backs(alloc, count)
    } else {
        Err(Ended::NoSuchCall)
    }
}

fn main(rt: HostRuntime) -> Result<(), Ended> {
    let mut words = env::args(&rt)?.skip(1);
    let Some(name) = words.next() else {
        return Err(Ended::NoSuchCall);
    };
    let count = number(words.next())?;
    let sum = measured(rt.alloc(), name.as_str(), count)?;
    println!(rt; "{count} times {name}: {sum}")?;
    Ok(())
}
