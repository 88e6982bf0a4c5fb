//! The general laws of a store on three tiers, and those of homes: a page that gets a frame, loses it or passes through one, and a
//! line that is stored in place, keep what recovery gives and all that holds of the devices.
//!
//! The laws stand in proofs/; there is no code.
#![tactic(auto)]
