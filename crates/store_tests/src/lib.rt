//! Tests of a store whose pages and log all stay in NVM, by the public calls of its parts. Stops after each event of whole
//! transactions are in `crash_tests`.
//!
//! There is no code but for the tests.
#![tactic(auto)]

#[cfg(test)]
mod layout;
#[cfg(test)]
mod logging;
#[cfg(test)]
mod recovering;
