//! Which page lies where: of each page its copy in DRAM and its frame in NVM, and of each place and each frame its page.
#![tactic(auto)]

mod map;
mod place;

pub use map::TierMap;
#[doc(hidden)]
pub use place::PagePlaces;
pub use place::Place;
