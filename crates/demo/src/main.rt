//! A store at work in devices held in memory: it is made, answers a script, is stopped in the middle of a second commit, and what a
//! crash leaves of it is opened and answers again.
#![tactic(auto)]

mod ended;
mod session;

use crate::ended::Ended;
use crate::session::{answer, cut_short, made, reopened};
use nvm_model::Choice;

/// The first transaction.
const FIRST: &str =
    "begin\ncreate stock\nput stock 7 first\nput stock 9 second\ncommit\nscan stock 0 100\n";

/// A second one, whose run is stopped in its commit.
const SECOND: &str = "begin\nput stock 7 changed\ndel stock 9\ncommit\n";

/// What is asked after the crash.
const LAST: &str = "scan stock 0 100\nbegin\nput stock 11 third\ncommit\n";

fn main(rt: HostRuntime) -> Result<(), Ended> {
    let alloc = rt.alloc();
    println!(rt; "A new store, in devices held in memory")?;
    let fresh = made(&rt, alloc)?;

    println!(rt; "A script")?;
    let mut first = reopened(alloc, &fresh, fresh.events(), Choice::Newest, FIRST)?;
    answer(&rt, alloc, &mut first, FIRST)?;

    println!(rt; "A second script")?;
    let mut second = reopened(alloc, &first, first.events(), Choice::Newest, SECOND)?;
    answer(&rt, alloc, &mut second, SECOND)?;

    let at = cut_short(&rt, &second)?;
    println!(rt; "What that crash left is opened, and answers")?;
    let mut left = reopened(alloc, &second, at, Choice::Oldest, LAST)?;
    answer(&rt, alloc, &mut left, LAST)
}
