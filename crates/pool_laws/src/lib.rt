//! The fields of the pool as the state that the rules of placement speak of: what each call makes of the fields is what its rule makes
//! of the state.
//!
//! The definitions stand in specs/, the laws in proofs/; there is no code.
#![tactic(auto)]
