//! Blocks of log lines, copied from the ring in NVM to that on the SSD, where no sync has settled them yet.
ghost use Rattle.std.specs.Prelude.{◌≡◌, ◌≤◌, ◌<◌, ℕ, ◌+◌, ◌*◌, ◌%◌, ◌^◌, [], ◌∷◌, length, IsTrue, IfOk, OnOk};
ghost use Rattle.devices.specs.State.{line_at};
ghost use Rattle.devices.specs.State.Call.{write_block};
ghost use Rattle.devices.specs.World.{Goes, Stays, MakesAll, now};
ghost use Rattle.store_model.specs.Layout.{nvm_lines, ssd_blocks};
ghost use Rattle.nvm_layout.specs.Sizes.{sizes_of};
ghost use Rattle.device_calls.specs.Stops.{StopCause};
ghost use Rattle.log_drain.specs.Copies.{Copies, AreLoaded};

use devices::{Devices, Failed};
use line_pages::{Stop, set_page_line, whole_line};
use nvm_layout::Geometry;
use nvm_model::Line;
use ssd_model::PageBuf;

/// How many log lines a block has.
pub(crate) const BLOCK_LINES: u64 = 64;

/// A line of the NVM.
pub(crate) fn load<D: Devices>(dev: &mut D, line: u64) -> Result<Line, Stop>
    requires { line < (D.standing dev.old).lines }
    ensures goes { Goes (D.standing dev.old) (D.standing dev.new) }
    ensures stays { Stays (D.standing dev.old) (D.standing dev.new) }
    ensures cause { StopCause (D.standing dev.old) (D.standing dev.new) result }
    ensures reads { (D.standing dev.new).block_reads ≡ (D.standing dev.old).block_reads }
    ensures value { IsTrue (D.standing dev.old).told
        → IfOk result (λ found. found ≡ line_at (now (D.standing dev.old)) line) }
{
    match dev.load(line) {
        Ok(found) => Ok(found),
        Err(Failed) => Err(Stop::Nvm),
    }
}

/// Writes a block of the SSD; the next sync settles it.
fn write<D: Devices>(dev: &mut D, block: u64, bytes: &PageBuf) -> Result<(), Stop>
    requires { block < (D.standing dev.old).blocks }
    ensures goes { Goes (D.standing dev.old) (D.standing dev.new) }
    ensures cause { StopCause (D.standing dev.old) (D.standing dev.new) result }
    ensures reads { (D.standing dev.new).block_reads ≡ (D.standing dev.old).block_reads }
    ensures makes { MakesAll (write_block block bytes.now ∷ [])
        (D.standing dev.old) (D.standing dev.new) result }
{
    match dev.write_block(block, bytes) {
        Ok(()) => Ok(()),
        Err(Failed) => Err(Stop::Ssd),
    }
}

/// Loads the 64 log lines from an offset on, a multiple of 64, into a buffer. After a `Stop` it holds any bytes.
fn load_block<D: Devices>(
    geometry: &Geometry,
    dev: &mut D,
    offset: u64,
    into: &mut PageBuf,
) -> Result<(), Stop>
    requires fits { nvm_lines (sizes_of geometry.now) ≤ (D.standing dev.old).lines }
    requires below { offset + 64 < 2 ^ 64 }
    requires size { length into.old ≡ 4096 }
    ensures goes { Goes (D.standing dev.old) (D.standing dev.new) }
    ensures stays { Stays (D.standing dev.old) (D.standing dev.new) }
    ensures cause { StopCause (D.standing dev.old) (D.standing dev.new) result }
    ensures reads { (D.standing dev.new).block_reads ≡ (D.standing dev.old).block_reads }
    ensures value { IsTrue (D.standing dev.old).told
        → OnOk result
        (AreLoaded (sizes_of geometry.now) offset 64 into.new (now (D.standing dev.old))) }
{
    for line in 0..64usize {
        let found = load(dev, geometry.ring_line(offset + line as u64))?;
        set_page_line(into, line, &whole_line(&found));
    }
    Ok(())
}

/// Copies the 64 log lines from an offset on, a multiple of 64.
fn copy_block<D: Devices>(geometry: &Geometry, dev: &mut D, offset: u64) -> Result<(), Stop>
    requires fits { nvm_lines (sizes_of geometry.now) ≤ (D.standing dev.old).lines }
    requires blocks { ssd_blocks (sizes_of geometry.now) ≤ (D.standing dev.old).blocks }
    requires below { offset + 64 < 2 ^ 64 }
    requires aligned { offset % 64 ≡ 0 }
    ensures goes { Goes (D.standing dev.old) (D.standing dev.new) }
    ensures cause { StopCause (D.standing dev.old) (D.standing dev.new) result }
    ensures reads { (D.standing dev.new).block_reads ≡ (D.standing dev.old).block_reads }
    ensures copies { Copies (sizes_of geometry.now) offset 1 (D.standing dev.old)
        (D.standing dev.new) result }
{
    let mut bytes = PageBuf::zero();
    load_block(geometry, dev, offset, &mut bytes)?;
    write(dev, geometry.ring_block(offset), &bytes)
}

/// Copies so many blocks of 64 log lines, from an offset on, a multiple of 64.
pub(crate) fn copy_blocks<D: Devices>(
    geometry: &Geometry,
    dev: &mut D,
    offset: u64,
    count: u64,
) -> Result<(), Stop>
    requires fits { nvm_lines (sizes_of geometry.now) ≤ (D.standing dev.old).lines }
    requires blocks { ssd_blocks (sizes_of geometry.now) ≤ (D.standing dev.old).blocks }
    requires below { offset + 64 * count < 2 ^ 64 }
    requires aligned { offset % 64 ≡ 0 }
    ensures goes { Goes (D.standing dev.old) (D.standing dev.new) }
    ensures cause { StopCause (D.standing dev.old) (D.standing dev.new) result }
    ensures reads { (D.standing dev.new).block_reads ≡ (D.standing dev.old).block_reads }
    ensures copies { Copies (sizes_of geometry.now) offset count (D.standing dev.old)
        (D.standing dev.new) result }
{
    for block in 0..count {
        copy_block(geometry, dev, offset + BLOCK_LINES * block)?;
    }
    Ok(())
}
