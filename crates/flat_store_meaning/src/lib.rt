//! What a store on the devices means: where everything stands, the log, what recovery gives, and what holds of the devices
//! while a store is open.
//!
//! The definitions stand in specs/, and their laws in proofs/; there is no code.
#![tactic(auto)]
