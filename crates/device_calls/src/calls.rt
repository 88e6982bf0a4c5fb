//! The calls of a device, and a line, a word and a block that are put.
ghost use Rattle.std.specs.Prelude.{◌≡◌, ◌<◌, [], ◌∷◌, IsTrue, IfOk, OnOk};
ghost use Rattle.devices.specs.State.{line_at};
ghost use Rattle.devices.specs.State.Call.{store_word, store_line, flush, fence, write_block, sync};
ghost use Rattle.devices.specs.World.{Counts, now};
ghost use Rattle.device_calls.specs.Leads.{Made, Looked};
ghost use Rattle.device_calls.specs.Stops.{StopsWith};
ghost use Rattle.line_pages.specs.declared.stop.Stop.TheVariants.{Nvm, Ssd};

use devices::{Devices, Failed};
use line_pages::Stop;
use nvm_model::Line;
use ssd_model::PageBuf;

/// A line of the NVM, counted from 0: the last version of each of its eight words.
pub fn load<D: Devices>(dev: &mut D, line: u64) -> Result<Line, Stop>
    requires { line < (D.standing dev.old).lines }
    ensures looked { Looked (D.standing dev.old) (D.standing dev.new) result }
    ensures stops { StopsWith Nvm result }
    ensures reads { (D.standing dev.new).block_reads ≡ (D.standing dev.old).block_reads }
    ensures value { IsTrue (D.standing dev.old).told
        → IfOk result (λ found. found ≡ line_at (now (D.standing dev.old)) line) }
{
    match dev.load(line) {
        Ok(found) => Ok(found),
        Err(Failed) => Err(Stop::Nvm),
    }
}

/// The 4,096 bytes of a block of the SSD, counted from 0. After a `Stop` the buffer holds any bytes.
pub fn read_block<D: Devices>(dev: &mut D, block: u64, into: &mut PageBuf) -> Result<(), Stop>
    requires { block < (D.standing dev.old).blocks }
    ensures looked { Looked (D.standing dev.old) (D.standing dev.new) result }
    ensures stops { StopsWith Ssd result }
    ensures reads { Counts (D.standing dev.old) (D.standing dev.new) }
    ensures value { IsTrue (D.standing dev.old).told
        → OnOk result (into.new ≡ ((now (D.standing dev.old)).ssd block).bytes) }
{
    match dev.read_block(block, into) {
        Ok(()) => Ok(()),
        Err(Failed) => Err(Stop::Ssd),
    }
}

/// Stores a line of eight words and flushes it; the next fence makes it durable.
pub fn put_line<D: Devices>(dev: &mut D, line: u64, value: &Line) -> Result<(), Stop>
    requires { line < (D.standing dev.old).lines }
    ensures { Made (store_line line value.now ∷ flush line ∷ [])
        (D.standing dev.old) (D.standing dev.new) result }
{
    store_line(dev, line, value)?;
    flush(dev, line)
}

/// Stores one word of a line, which is changed alone, and makes it durable: the word, a flush, a fence.
pub fn put_word<D: Devices>(dev: &mut D, line: u64, word: usize, value: u64) -> Result<(), Stop>
    requires line { line < (D.standing dev.old).lines }
    requires word { word < 8 }
    ensures { Made (store_word line word value ∷ flush line ∷ fence ∷ [])
        (D.standing dev.old) (D.standing dev.new) result }
{
    store_word(dev, line, word, value)?;
    flush(dev, line)?;
    fence(dev)
}

/// Writes the 4,096 bytes of a block, durable: a write, a sync.
pub fn put_block<D: Devices>(dev: &mut D, block: u64, from: &PageBuf) -> Result<(), Stop>
    requires { block < (D.standing dev.old).blocks }
    ensures { Made (write_block block from.now ∷ sync ∷ [])
        (D.standing dev.old) (D.standing dev.new) result }
{
    write_block(dev, block, from)?;
    sync(dev)
}

/// Makes durable what was flushed.
pub fn fence<D: Devices>(dev: &mut D) -> Result<(), Stop>
    ensures { Made (fence ∷ []) (D.standing dev.old) (D.standing dev.new) result }
{
    match dev.fence() {
        Ok(()) => Ok(()),
        Err(Failed) => Err(Stop::Nvm),
    }
}

/// Writes the 4,096 bytes of a block; the next sync settles it. After a `Stop` the block holds any bytes.
pub fn write_block<D: Devices>(dev: &mut D, block: u64, from: &PageBuf) -> Result<(), Stop>
    requires { block < (D.standing dev.old).blocks }
    ensures { Made (write_block block from.now ∷ []) (D.standing dev.old) (D.standing dev.new) result }
{
    match dev.write_block(block, from) {
        Ok(()) => Ok(()),
        Err(Failed) => Err(Stop::Ssd),
    }
}

/// Settles all blocks.
pub fn sync<D: Devices>(dev: &mut D) -> Result<(), Stop>
    ensures { Made (sync ∷ []) (D.standing dev.old) (D.standing dev.new) result }
{
    match dev.sync() {
        Ok(()) => Ok(()),
        Err(Failed) => Err(Stop::Ssd),
    }
}

/// Stores a line of eight words.
fn store_line<D: Devices>(dev: &mut D, line: u64, value: &Line) -> Result<(), Stop>
    requires { line < (D.standing dev.old).lines }
    ensures { Made (store_line line value.now ∷ []) (D.standing dev.old) (D.standing dev.new) result }
{
    match dev.store_line(line, value) {
        Ok(()) => Ok(()),
        Err(Failed) => Err(Stop::Nvm),
    }
}

/// Stores a word of a line.
fn store_word<D: Devices>(dev: &mut D, line: u64, word: usize, value: u64) -> Result<(), Stop>
    requires line { line < (D.standing dev.old).lines }
    requires word { word < 8 }
    ensures { Made (store_word line word value ∷ []) (D.standing dev.old) (D.standing dev.new) result }
{
    match dev.store_word(line, word, value) {
        Ok(()) => Ok(()),
        Err(Failed) => Err(Stop::Nvm),
    }
}

/// Flushes a line.
fn flush<D: Devices>(dev: &mut D, line: u64) -> Result<(), Stop>
    requires { line < (D.standing dev.old).lines }
    ensures { Made (flush line ∷ []) (D.standing dev.old) (D.standing dev.new) result }
{
    match dev.flush(line) {
        Ok(()) => Ok(()),
        Err(Failed) => Err(Stop::Nvm),
    }
}
