//! Blocks of the log that are drained, and room in the ring in NVM.
ghost use Rattle.std.specs.Prelude.{◌≡◌, ◌+◌, ◌*◌, ◌≤◌, ◌<◌, OnOk};
ghost use Rattle.store_model.specs.Layout.{nvm_lines, ssd_blocks, ring_lines, ring_blocks, floor64};

use crate::book::LogBook;
use devices::Devices;
use line_pages::Stop;
use log_drain::drain_blocks;

/// How many log lines a block has.
const BLOCK_LINES: u64 = 64;

impl LogBook {
    ghost use Rattle.log_book.specs.LogData.{data_of, book_sizes, all_hardened, MoreDrained, RoomMade, SameSizes, SameRange};
    ghost use Rattle.log_book.specs.Calls.{KeepsOpen};

    /// Makes all that waits part of the log, and drains blocks while one stands whole in the ring in NVM: fewer than 64 lines stand
    /// there then. `Nvm` and `Ssd` where that count of faults rose; no further call is made then.
    pub fn drain<D: Devices>(&mut self, dev: &mut D) -> Result<(), Stop>
        requires stands { self.old.log.written
            ≤ floor64 self.old.log.start + 64 * ring_blocks (book_sizes self.old) }
        requires fits { nvm_lines (book_sizes self.old) ≤ (D.standing dev.old).lines }
        requires blocks { ssd_blocks (book_sizes self.old) ≤ (D.standing dev.old).blocks }
        ensures same { SameSizes self.old self.new }
        ensures range { SameRange self.old.log self.new.log }
        ensures more { OnOk result
            (MoreDrained (all_hardened (data_of self.old)) (data_of self.new)) }
        ensures few { OnOk result (self.new.log.tail < self.new.log.drained + 64) }
        ensures open { KeepsOpen (book_sizes self.old) (data_of self.old) (data_of self.new)
            (D.standing dev.old) (D.standing dev.new) result }
    {
        self.harden(dev)?;
        self.drain_hard(dev)
    }

    /// Sees to it that the ring in NVM has so many free lines, at most 64: where it lacks them, a drain makes room. `Nvm` and `Ssd` where
    /// that count of faults rose; no further call is made then.
    pub fn make_room<D: Devices>(&mut self, dev: &mut D, lines: u64) -> Result<(), Stop>
        requires lines { lines ≤ 64 }
        requires stands { self.old.log.written
            ≤ floor64 self.old.log.start + 64 * ring_blocks (book_sizes self.old) }
        requires fits { nvm_lines (book_sizes self.old) ≤ (D.standing dev.old).lines }
        requires blocks { ssd_blocks (book_sizes self.old) ≤ (D.standing dev.old).blocks }
        ensures same { SameSizes self.old self.new }
        ensures range { SameRange self.old.log self.new.log }
        ensures room { OnOk result
            (self.new.log.written + lines
            ≤ self.new.log.drained + ring_lines (book_sizes self.old)) }
        ensures more { OnOk result (RoomMade (data_of self.old) (data_of self.new)) }
        ensures open { KeepsOpen (book_sizes self.old) (data_of self.old) (data_of self.new)
            (D.standing dev.old) (D.standing dev.new) result }
    {
        if self.log.free_lines() >= lines {
            return Ok(());
        }
        self.drain(dev)
    }

    /// Drains blocks while one stands whole in the ring in NVM. Nothing waits.
    fn drain_hard<D: Devices>(&mut self, dev: &mut D) -> Result<(), Stop>
        requires nothing { self.old.log.written ≡ self.old.log.tail }
        requires stands { self.old.log.written
            ≤ floor64 self.old.log.start + 64 * ring_blocks (book_sizes self.old) }
        requires fits { nvm_lines (book_sizes self.old) ≤ (D.standing dev.old).lines }
        requires blocks { ssd_blocks (book_sizes self.old) ≤ (D.standing dev.old).blocks }
        ensures same { SameSizes self.old self.new }
        ensures range { SameRange self.old.log self.new.log }
        ensures more { OnOk result (MoreDrained (data_of self.old) (data_of self.new)) }
        ensures few { OnOk result (self.new.log.tail < self.new.log.drained + 64) }
        ensures open { KeepsOpen (book_sizes self.old) (data_of self.old) (data_of self.new)
            (D.standing dev.old) (D.standing dev.new) result }
    {
        while self.log.tail - self.log.drained >= BLOCK_LINES {
            self.drain_some(dev)?;
        }
        Ok(())
    }

    /// Drains as many whole blocks as can be, at least one, under one sync. Nothing waits, and a block stands whole in the ring in NVM.
    fn drain_some<D: Devices>(&mut self, dev: &mut D) -> Result<(), Stop>
        requires nothing { self.old.log.written ≡ self.old.log.tail }
        requires some { self.old.log.drained + 64 ≤ self.old.log.tail }
        requires stands { self.old.log.written
            ≤ floor64 self.old.log.start + 64 * ring_blocks (book_sizes self.old) }
        requires fits { nvm_lines (book_sizes self.old) ≤ (D.standing dev.old).lines }
        requires blocks { ssd_blocks (book_sizes self.old) ≤ (D.standing dev.old).blocks }
        ensures same { SameSizes self.old self.new }
        ensures range { SameRange self.old.log self.new.log }
        ensures more { OnOk result (MoreDrained (data_of self.old) (data_of self.new)) }
        ensures some { OnOk result (self.old.log.drained + 64 ≤ self.new.log.drained) }
        ensures open { KeepsOpen (book_sizes self.old) (data_of self.old) (data_of self.new)
            (D.standing dev.old) (D.standing dev.new) result }
    {
        drain_blocks(&mut self.log, dev, u64::MAX)?;
        Ok(())
    }
}
