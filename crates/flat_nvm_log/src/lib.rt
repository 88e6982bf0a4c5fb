//! The log of a store in NVM: a ring of lines between two gates, the start and the tail.
//!
//! A record or an end is stored behind the tail, durable, and then the tail moves over it, durable. So each image that a
//! crash leaves has the old groups, or those with the new entry last. Offsets only rise.
#![tactic(auto)]

mod ending;
mod head;
mod log;
mod putting;
mod record;

pub use head::{Head, read_head};
pub use log::Log;
pub use putting::{put_gate, put_line};
pub use record::{EndKind, LineRecord, eight};
