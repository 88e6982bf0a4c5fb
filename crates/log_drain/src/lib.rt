//! The log of a store over both of its rings: blocks of its lines that go from the ring in NVM to the ring on the SSD, its lines
//! read from where they stand, and its room.
//!
//! A drain copies blocks of 64 lines, one after the other, makes all of them durable by one sync, and then raises the gate
//! `drained` over them, durable. So at each moment each image that a crash leaves has the same log.
#![tactic(auto)]

mod copying;
mod draining;
mod reading;

pub use draining::{drain_block, drain_blocks};
pub use reading::{read_log_line, room};
