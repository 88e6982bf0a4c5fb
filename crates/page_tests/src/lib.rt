//! Tests of pages and of what changes and reads them, by their public calls.
//!
//! There is no code but for the tests.
#![tactic(auto)]

#[cfg(test)]
mod by_hand;
#[cfg(test)]
mod checks;
#[cfg(test)]
mod early;
#[cfg(test)]
mod editing;
#[cfg(test)]
mod free_list;
#[cfg(test)]
mod lines;
#[cfg(test)]
mod nodes;
#[cfg(test)]
mod searching;
