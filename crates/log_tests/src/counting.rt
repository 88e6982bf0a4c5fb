//! A device that counts what is asked of another one.
ghost use Rattle.std.specs.Prelude.{◌≡◌, ◌<◌, ℕ, length, IsTrue, IfOk, OnErr, OnOk};
ghost use Rattle.devices.specs.State.{line_at};
ghost use Rattle.devices.specs.World.{Standing, now};

use devices::{Devices, Failed};
use nvm_model::Line;
use ssd_model::PageBuf;

/// How many calls of each kind were made, and how many bytes they moved.
#[derive(Clone, Copy, Debug, PartialEq, Eq)]
pub struct Counts {
    /// Lines that were loaded.
    pub loads: u64,
    /// Bytes that were stored.
    pub stored: u64,
    /// Lines that were flushed.
    pub flushes: u64,
    /// Fences.
    pub fences: u64,
    /// Blocks that were read.
    pub reads: u64,
    /// Blocks that were written.
    pub writes: u64,
    /// Syncs.
    pub syncs: u64,
}

impl Counts {
    /// No call.
    pub fn none() -> Counts {
        Counts {
            loads: 0,
            stored: 0,
            flushes: 0,
            fences: 0,
            reads: 0,
            writes: 0,
            syncs: 0,
        }
    }
}

/// A device and the counts of its calls.
#[derive(Drop)]
pub struct Counted<'a, D: Devices> {
    /// The device.
    pub inner: &'a mut D,
    /// The counts.
    pub counts: Counts,
}

impl<D: Devices> Devices for Counted<'_, D> {
    ghost standing = { λ counted. D.standing counted.inner.now };

    fn nvm_lines(&self) -> u64 {
        self.inner.nvm_lines()
    }

    fn ssd_blocks(&self) -> u64 {
        self.inner.ssd_blocks()
    }

    fn load(&mut self, line: u64) -> Result<Line, Failed> {
        self.counts.loads = self.counts.loads.saturating_add(1);
        self.inner.load(line)
    }

    fn store_word(&mut self, line: u64, word: usize, value: u64) -> Result<(), Failed> {
        self.counts.stored = self.counts.stored.saturating_add(8);
        self.inner.store_word(line, word, value)
    }

    fn store_line(&mut self, line: u64, value: &Line) -> Result<(), Failed> {
        self.counts.stored = self.counts.stored.saturating_add(64);
        self.inner.store_line(line, value)
    }

    fn flush(&mut self, line: u64) -> Result<(), Failed> {
        self.counts.flushes = self.counts.flushes.saturating_add(1);
        self.inner.flush(line)
    }

    fn fence(&mut self) -> Result<(), Failed> {
        self.counts.fences = self.counts.fences.saturating_add(1);
        self.inner.fence()
    }

    fn read_block(&mut self, block: u64, into: &mut PageBuf) -> Result<(), Failed> {
        self.counts.reads = self.counts.reads.saturating_add(1);
        self.inner.read_block(block, into)
    }

    fn write_block(&mut self, block: u64, from: &PageBuf) -> Result<(), Failed> {
        self.counts.writes = self.counts.writes.saturating_add(1);
        self.inner.write_block(block, from)
    }

    fn sync(&mut self) -> Result<(), Failed> {
        self.counts.syncs = self.counts.syncs.saturating_add(1);
        self.inner.sync()
    }
}
