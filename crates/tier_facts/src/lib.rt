//! What holds of the devices and the tiers between two calls, at each moment on the way, and what each kind of step makes of it.
//!
//! The definitions stand in specs/, the laws of the steps in proofs/; there is no code.
#![tactic(auto)]
