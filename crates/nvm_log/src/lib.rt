//! The log of a store on three tiers: lines between two gates, the start and the tail, in a ring in NVM; those below a third
//! gate, `drained`, stand in a ring on the SSD.
//!
//! Records are stored behind the tail and flushed, without a fence: they are pending, and no image that a crash leaves has
//! them in its log. A harden, or the end of a group, makes all of them durable by one fence, and then moves the tail over
//! them, durable: so each image has the old groups or those with all that was pending. Offsets only rise.
#![tactic(auto)]

mod head;
mod log;
mod putting;
mod record;

pub use head::{Head, read_head};
pub use log::Log;
pub use putting::{put_gate, put_line};
pub use record::{EndKind, LineRecord, eight};
