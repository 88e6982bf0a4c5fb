//! Calls on both devices, as all crates above state them: each device call answers a `Stop` that names its device, and its contract
//! says what was made, or that the devices were only read.
//!
//! A call above that makes as many device calls as the state asks for has one clause, `Leads`: what holds of the devices before it
//! leads to what holds after it, and at each moment on the way something holds. Two such calls join by one law (`leads_then`).
#![tactic(auto)]

mod calls;

pub use calls::{fence, load, put_block, put_line, put_word, read_block, sync, write_block};
