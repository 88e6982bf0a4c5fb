//! What a store on three tiers means: where everything stands in the NVM and on the SSD, the log in both rings, the frame table
//! and the home of each line, what recovery gives, its checks, and all that holds of the devices while a store is open.
//!
//! The definitions stand in specs/; there is no code.
#![tactic(auto)]
