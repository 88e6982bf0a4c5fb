//! The outside: both devices, the streams, and the one clock over them.
//!
//! `Devices` is an NVM of lines and a disk of blocks; `World` adds the settings, the script and the output.
#![tactic(auto)]

mod copies;
mod faults;
mod images;
mod inspect;
mod leaving;
mod mem_world;
mod past;
mod replay;
mod step;
mod stream;
mod traits;

pub use faults::{Fault, FaultKind};
pub use images::Images;
pub use mem_world::MemWorld;
pub use traits::{Devices, Failed, World};
