//! The fields of a manager of the tiers as the plain data of the facts, and what each change of the fields makes of these.
//!
//! The definitions stand in specs/, the laws in proofs/; there is no code.
#![tactic(auto)]
