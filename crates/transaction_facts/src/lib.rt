//! What holds of a store between two calls, with the records that wait behind the log's tail, and what each step of the log makes of
//! it; and what the layers above see of a call.
//!
//! The definitions stand in specs/, the laws in proofs/; there is no code.
#![tactic(auto)]
