//! The blocks of a disk.
ghost use Rattle.std.specs.Prelude.{◌≡◌, ◌<◌, OnOk, OnErr, length};
ghost use Rattle.ssd_model.specs.Block.{zero_disk, with_block, all_settled};
ghost use Rattle.ssd_model.specs.Page.{zero_page};
ghost use Rattle.ssd_model.specs.Choose.{chosen_bytes};
ghost use Rattle.ssd_model.specs.Sectors.{AreUpTo, AreWithin};

use crate::choice::BlockChoice;
use crate::page::PageBuf;
use crate::sector::Sector;
use crate::sectors::{restart_all, write_at};
use std::alloc::{AllocError, Global};
use std::collections::BTreeMap;

/// A disk of blocks of 4,096 bytes. Blocks that were never written take no memory.
#[derive(Drop)]
pub struct SsdState {
    alloc: Global,
    blocks: u64,
    /// The blocks that were written, by number.
    written: BTreeMap<u64, Sector>,
    /// How many syncs there were since all blocks began at the first interval.
    interval: u64,
    ghost up_to: { AreUpTo interval written },
    ghost within: { AreWithin blocks written },
}

impl SsdState {
    ghost use Rattle.ssd_model.specs.Contents.{disk_of, synced_of, blocks_of};

    /// A disk of so many blocks, all of zeros and settled. It takes no memory.
    pub fn new(alloc: Global, blocks: u64) -> SsdState
        ensures blocks { disk_of result ≡ zero_disk }
        ensures synced { synced_of result ≡ λ _b. zero_page }
        ensures size { blocks_of result ≡ blocks }
    {
        SsdState {
            alloc,
            blocks,
            written: BTreeMap::new(alloc),
            interval: 0,
        }
    }

    /// How many blocks it has.
    pub fn blocks(&self) -> u64
        ensures { result ≡ blocks_of self.now }
    {
        self.blocks
    }

    /// Gives the current bytes of a block.
    pub fn read(&self, block: u64, into: &mut PageBuf)
        requires { block < blocks_of self.now }
        ensures value { into.new ≡ (disk_of self.now block).bytes }
        ensures page { length into.new ≡ 4096 }
    {
        match self.written.get(&block) {
            Some(sector) => sector.read(into),
            None => into.fill(0),
        }
    }

    /// Makes these bytes the current ones of a block, which is unsettled then. After the error all blocks are as they
    /// were.
    pub fn write(&mut self, block: u64, from: &PageBuf) -> Result<(), AllocError>
        requires { block < blocks_of self.old }
        ensures written { OnOk result
            (disk_of self.new ≡ with_block block from.now (disk_of self.old)) }
        ensures unchanged { OnErr result (disk_of self.new ≡ disk_of self.old) }
        ensures synced { synced_of self.new ≡ synced_of self.old }
        ensures page { length from.now ≡ 4096 }
        ensures size { blocks_of self.new ≡ blocks_of self.old }
    {
        write_at(&mut self.written, self.alloc, self.interval, block, from)
    }

    /// Settles all blocks. It takes no memory, and goes over no block but once in `u64::MAX` calls.
    pub fn sync(&mut self)
        ensures settled { disk_of self.new ≡ all_settled (disk_of self.old) }
        ensures synced { synced_of self.new ≡ λ b. (disk_of self.old b).bytes }
        ensures size { blocks_of self.new ≡ blocks_of self.old }
    {
        if self.interval == u64::MAX {
            restart_all(&mut self.written);
            self.interval = 1;
        } else {
            self.interval += 1;
        }
    }

    /// Gives what a choice leaves of a block.
    pub fn image_block(&self, block: u64, choice: BlockChoice, into: &mut PageBuf)
        requires { block < blocks_of self.now }
        ensures value { into.new
            ≡ chosen_bytes choice block (disk_of self.now block) (synced_of self.now block) }
        ensures page { length into.new ≡ 4096 }
    {
        match self.written.get(&block) {
            Some(sector) => sector.choose(self.interval, choice, block, into),
            None => into.fill(0),
        }
    }
}
