//! Tests of homes of pages by their public calls, over a world in memory that is stopped after each event; and lines that go to
//! their homes one after the other, as a recovery writes them.
#![tactic(auto)]

#[cfg(test)]
mod moves;
#[cfg(test)]
mod passages;
mod replaying;
#[cfg(test)]
mod tables;
#[cfg(test)]
mod worlds;

pub use replaying::{HomeLine, write_homes};
