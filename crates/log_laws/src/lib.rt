//! The laws of the log of a store on three tiers: records behind the tail, a harden, both ends of a transaction, a drain and a log
//! that is emptied keep what recovery gives, or choose between the old and the new, and keep all that holds of the devices.
//!
//! The laws stand in proofs/; there is no code.
#![tactic(auto)]
