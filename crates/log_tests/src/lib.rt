//! Tests of the log of a store on three tiers, and of the layout of its devices, by their public calls.
//!
//! There is no code but for the tests.
#![tactic(auto)]

#[cfg(test)]
mod calls;
#[cfg(test)]
mod counting;
#[cfg(test)]
mod crashes;
#[cfg(test)]
mod layout;
#[cfg(test)]
mod machine;
