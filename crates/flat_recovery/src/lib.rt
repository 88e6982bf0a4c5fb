//! The store's beginning and its opening: an empty store is made, and what a crash left of one is recovered, while all its
//! pages and its log stay in NVM.
#![tactic(auto)]

mod checking;
mod errors;
mod formatting;
mod opening;
mod replaying;
mod storing;

pub use errors::{FormatError, OpenError};
pub use formatting::{format, format_at};
pub use opening::{Parts, recover};
