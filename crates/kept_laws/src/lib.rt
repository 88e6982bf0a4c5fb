//! What a store on three tiers keeps between its calls, with a law for each step: moves of homes, copies, records, both ends of a
//! transaction, what is taken back, a log that is emptied, and the opening.
//!
//! The laws stand in proofs/; there is no code.
#![tactic(auto)]
