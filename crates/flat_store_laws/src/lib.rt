//! The laws of a store that is open with all its pages and its log in NVM: what holds of the devices between its calls, and
//! that a write, both ends of a transaction and a line taken back keep it.
//!
//! The definitions stand in specs/, and their laws in proofs/; there is no code.
#![tactic(auto)]
