//! The CLOCK rule of replacement over numbered places, with a count of the places that a sweep looks at.
#![tactic(auto)]

mod clock;
mod steps;

pub use clock::{Clock, Slot};
pub use steps::Steps;
