//! Lines of the log, read from where they stand, and the room that is left.
ghost use Rattle.std.specs.Prelude.{◌≡◌, ◌≤◌, ◌<◌, ℕ, ◌+◌, ◌-◌, ◌*◌, ◌%◌};
ghost use Rattle.devices.specs.World.{Goes, Stays};
ghost use Rattle.store_model.specs.Layout.{nvm_lines, ssd_blocks, ring_blocks, floor64};
ghost use Rattle.nvm_layout.specs.Sizes.{sizes_of};
ghost use Rattle.device_calls.specs.Stops.{StopCause};
ghost use Rattle.log_drain.specs.Reading.{ReadsLine, ReadsBlockLine};

use crate::copying::load;
use devices::{Devices, Failed};
use line_pages::{Stop, page_line};
use nvm_log::Log;
use nvm_model::Line;
use ssd_model::PageBuf;

/// How many lines can still be stored before the start moves: from `written` on, as far as the ring on the SSD takes, from the
/// block of the start on.
pub fn room(log: &Log) -> u64
    requires { log.now.written
        ≤ floor64 log.now.start + 64 * ring_blocks (sizes_of log.now.geometry) }
    ensures { result
        ≡ floor64 log.now.start + 64 * ring_blocks (sizes_of log.now.geometry) - log.now.written }
{
    let floor = log.start / 64 * 64;
    64 * log.geometry.ring_blocks() - (log.written - floor)
}

/// The line at an offset, from the start up to the tail: below `drained` by one read of a block, else by one load. `Nvm` and `Ssd`
/// where that count rose.
pub fn read_log_line<D: Devices>(log: &Log, dev: &mut D, offset: u64) -> Result<Line, Stop>
    requires above { log.now.start ≤ offset }
    requires below { offset < log.now.tail }
    requires fits { nvm_lines (sizes_of log.now.geometry) ≤ (D.standing dev.old).lines }
    requires blocks { ssd_blocks (sizes_of log.now.geometry) ≤ (D.standing dev.old).blocks }
    ensures reads { ReadsLine log.now offset (D.standing dev.old) (D.standing dev.new) result }
    ensures cause { StopCause (D.standing dev.old) (D.standing dev.new) result }
    ensures goes { Goes (D.standing dev.old) (D.standing dev.new) }
    ensures stays { Stays (D.standing dev.old) (D.standing dev.new) }
{
    if offset < log.drained {
        let block = log.geometry.ring_block(offset);
        return read_block_line(dev, block, (offset % 64) as usize);
    }
    load(dev, log.geometry.ring_line(offset))
}

/// A line of a block of the SSD.
fn read_block_line<D: Devices>(dev: &mut D, block: u64, line: usize) -> Result<Line, Stop>
    requires block { block < (D.standing dev.old).blocks }
    requires line { line < 64 }
    ensures reads { ReadsBlockLine block line (D.standing dev.old) (D.standing dev.new) result }
    ensures cause { StopCause (D.standing dev.old) (D.standing dev.new) result }
    ensures goes { Goes (D.standing dev.old) (D.standing dev.new) }
    ensures stays { Stays (D.standing dev.old) (D.standing dev.new) }
{
    let mut bytes = PageBuf::zero();
    match dev.read_block(block, &mut bytes) {
        Ok(()) => Ok(page_line(&bytes, line)),
        Err(Failed) => Err(Stop::Ssd),
    }
}
