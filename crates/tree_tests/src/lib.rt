//! Tests of trees and of tables by name over pages in memory, by their public calls.
//!
//! There is no code but for the tests.
#![tactic(auto)]

#[cfg(test)]
mod catalog;
#[cfg(test)]
mod early;
#[cfg(test)]
mod grown;
#[cfg(test)]
mod tables;
