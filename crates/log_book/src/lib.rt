//! What a store keeps of its log: the log itself, the lines of pages that its records name, and where the open group begins.
//!
//! A record is stored behind all that is stored, and waits there. A harden makes all that waits part of the log, and so does the
//! end of a group. Where the ring in NVM lacks lines, blocks of the log are drained to the ring on the SSD, with nothing waiting.
//! The log is emptied where every page's home is durable. Each call says what it makes of a store, whatever its pages have in
//! memory: what held of it leads to what holds, and at each moment on the way the facts of a store hold.
#![tactic(auto)]

mod aborting;
mod book;
mod draining;
mod ending;
mod putting;

pub use book::LogBook;
