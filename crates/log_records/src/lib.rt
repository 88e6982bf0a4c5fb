//! The records of a group, read back from the last to the first: what takes back a group that does not stand.
//!
//! Each step reads two lines, the head of a record and the line before, from the ring in which each stands.
#![tactic(auto)]

mod back;

pub use back::{BeforeImage, read_last};
