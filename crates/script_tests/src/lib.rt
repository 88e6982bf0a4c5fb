//! Tests of the script language and of the plain machine.
//!
//! There is no code but for the tests.
#![tactic(auto)]

#[cfg(test)]
mod lines;
#[cfg(test)]
mod plain;
