//! Measures frames and mini pages: does what the first argument names (`frames`, `minis`, `put`, `line`, `fill` or `find`)
//! as often as the second one says. Instructions and time are counted from outside.
#![tactic(auto)]

mod measured;

use crate::measured::{Ended, Task};
use std::env;

/// What a word names.
fn task(word: Option<String>) -> Result<Task, Ended> {
    match word {
        Some(word) => Task::named(&word).ok_or(Ended::NoTask),
        None => Err(Ended::NoTask),
    }
}

/// A number on the command line.
fn number(word: Option<String>) -> Result<u64, Ended> {
    match word {
        Some(word) => word.parse().map_err(|_| Ended::NoNumber),
        None => Err(Ended::NoNumber),
    }
}

fn main(rt: HostRuntime) -> Result<(), Ended> {
    let mut words = env::args(&rt)?.skip(1);
    let task = task(words.next())?;
    let count = number(words.next())?;
    let sum = task.perform(rt.alloc(), count)?;
    println!(rt; "sum {sum}")?;
    Ok(())
}
