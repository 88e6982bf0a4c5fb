//! What both devices hold at one moment, as lines and blocks.
use nvm_model::Line;
use ssd_model::PageBuf;
use std::collections::BTreeMap;

/// The lines of an NVM, and the blocks of a disk by their numbers. A block that is absent holds zeros.
#[derive(Drop)]
pub struct Images {
    /// The lines, in order.
    pub nvm: Vec<Line>,
    /// How many blocks the disk has.
    pub ssd_blocks: u64,
    /// The bytes of blocks.
    pub ssd: BTreeMap<u64, PageBuf>,
}
