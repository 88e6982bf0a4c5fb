//! One block that was written.
//!
//! A sync goes over no block: each block has the number of the sync interval in which it was last written, and where
//! that is an earlier one, it counts as settled.
ghost use Rattle.std.specs.Prelude.{◌≡◌, IfOk, None, length};

use crate::choice::BlockChoice;
use crate::page::PageBuf;
use std::alloc::{AllocError, Global};

/// One block.
#[derive(Drop)]
pub struct Sector {
    /// Its current bytes.
    current: Box<PageBuf>,
    /// Its bytes at the last sync before the last write.
    synced: Box<PageBuf>,
    /// The sync interval of the last write.
    pub(crate) interval: u64,
}

impl Sector {
    ghost use Rattle.ssd_model.specs.Choose.{unsettled_bytes, chosen_bytes};
    ghost use Rattle.ssd_model.specs.Sectors.{block_in, synced_in, IsWritten};

    /// A block of zeros into which these bytes were written.
    pub fn new(alloc: Global, interval: u64, from: &PageBuf) -> Result<Sector, AllocError>
        ensures written { IfOk result (IsWritten interval from.now None) }
        ensures page { length from.now ≡ 4096 }
    {
        let current = Box::new(alloc, from.copy())?;
        let synced = Box::new(alloc, PageBuf::zero())?;
        Ok(Sector {
            current,
            synced,
            interval,
        })
    }

    /// Makes these bytes the current ones.
    pub fn write(&mut self, interval: u64, from: &PageBuf)
        ensures written { IsWritten interval from.now (Some self.old) self.new }
        ensures page { length from.now ≡ 4096 }
    {
        if self.interval < interval {
            self.synced.copy_from(&self.current);
        }
        self.current.copy_from(from);
        self.interval = interval;
    }

    /// Gives the current bytes.
    pub fn read(&self, into: &mut PageBuf)
        ensures value { into.new ≡ self.now.current.value }
        ensures page { length into.new ≡ 4096 }
    {
        into.copy_from(&self.current);
    }

    /// Gives what a choice leaves of the block of this number.
    pub fn choose(&self, interval: u64, choice: BlockChoice, number: u64, into: &mut PageBuf)
        ensures value { into.new
            ≡ chosen_bytes choice number (block_in interval (Some self.now))
            (synced_in interval (Some self.now)) }
        ensures page { length into.new ≡ 4096 }
    {
        if self.interval < interval {
            into.copy_from(&self.current);
        } else {
            self.choose_unsettled(choice, number, into);
        }
    }

    /// Gives what a choice leaves of it where it is not settled.
    fn choose_unsettled(&self, choice: BlockChoice, number: u64, into: &mut PageBuf)
        ensures value { into.new
            ≡ unsettled_bytes choice number self.now.current.value self.now.synced.value }
        ensures page { length into.new ≡ 4096 }
    {
        match choice {
            BlockChoice::Settled => into.copy_from(&self.synced),
            BlockChoice::Current => into.copy_from(&self.current),
            BlockChoice::Alternating => {
                if number % 2 == 0 {
                    into.copy_from(&self.synced);
                } else {
                    into.copy_from(&self.current);
                }
            }
            BlockChoice::Fill(value) => into.fill(value),
        }
    }
}
