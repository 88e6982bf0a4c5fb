//! Lines that are put into the NVM, durable, and gates behind them.
ghost use Rattle.std.specs.Prelude.{◌<◌, ◌≤◌, ◌^◌, ℕ, [], ◌∷◌};
ghost use Rattle.devices.specs.World.{Goes, MakesAll, NvmCause};
ghost use Rattle.store_model.specs.Layout.{nvm_lines};
ghost use Rattle.store_model.specs.Put.{put_calls};
ghost use Rattle.store_model.specs.Pending.{harden_calls, end_calls};
ghost use Rattle.nvm_layout.specs.Sizes.{sizes_of};
ghost use Rattle.nvm_log.specs.Entries.{record_lines, end_lines};
ghost use Rattle.nvm_log.specs.Puts.{line_put, gate_put};

use crate::record::{EndKind, LineRecord, end_line, record_head};
use devices::{Devices, Failed};
use nvm_layout::Geometry;
use nvm_model::Line;

/// The NVM line of the gate `start`.
pub(crate) const START_LINE: u64 = 1;

/// The NVM line of the gate `tail`.
const TAIL_LINE: u64 = 3;

/// Stores a line of eight words and flushes it; the next fence makes it durable. `line` counts lines of the NVM, from 0, and is
/// below their number. `Failed` is a fault of the NVM: each word may then be the new one or not.
pub fn put_line<D: Devices>(dev: &mut D, line: u64, value: &Line) -> Result<(), Failed>
    requires { line < (D.standing dev.old).lines }
    ensures goes { Goes (D.standing dev.old) (D.standing dev.new) }
    ensures makes { MakesAll (line_put line value.now)
        (D.standing dev.old) (D.standing dev.new) result }
    ensures cause { NvmCause (D.standing dev.old) (D.standing dev.new) result }
{
    dev.store_line(line, value)?;
    dev.flush(line)
}

/// Stores a gate, durable: word 0 of a line is stored, the line flushed, and a fence; its other seven words stay. `line` counts
/// lines of the NVM, from 0, and is below their number. `Failed` is a fault of the NVM: the gate may then be the new one or not.
pub fn put_gate<D: Devices>(dev: &mut D, line: u64, value: u64) -> Result<(), Failed>
    requires { line < (D.standing dev.old).lines }
    ensures goes { Goes (D.standing dev.old) (D.standing dev.new) }
    ensures makes { MakesAll (gate_put line value)
        (D.standing dev.old) (D.standing dev.new) result }
    ensures cause { NvmCause (D.standing dev.old) (D.standing dev.new) result }
{
    dev.store_word(line, 0, value)?;
    dev.flush(line)?;
    dev.fence()
}

/// Stores a line at its place in the ring in NVM and flushes it; `offset` is that of the log.
pub(crate) fn put_log_line<D: Devices>(
    dev: &mut D,
    geometry: &Geometry,
    offset: u64,
    value: &Line,
) -> Result<(), Failed>
    requires { nvm_lines (sizes_of geometry.now) ≤ (D.standing dev.old).lines }
    ensures goes { Goes (D.standing dev.old) (D.standing dev.new) }
    ensures makes { MakesAll (put_calls (sizes_of geometry.now) offset (value.now ∷ []))
        (D.standing dev.old) (D.standing dev.new) result }
    ensures cause { NvmCause (D.standing dev.old) (D.standing dev.new) result }
{
    put_line(dev, geometry.ring_line(offset), value)
}

/// Stores the three lines of a record and flushes them, from an offset of the log on.
pub(crate) fn put_record<D: Devices>(
    dev: &mut D,
    geometry: &Geometry,
    offset: u64,
    change: &LineRecord,
) -> Result<(), Failed>
    requires fits { nvm_lines (sizes_of geometry.now) ≤ (D.standing dev.old).lines }
    requires below { offset < 2 ^ 62 }
    ensures goes { Goes (D.standing dev.old) (D.standing dev.new) }
    ensures makes { MakesAll (put_calls (sizes_of geometry.now) offset (record_lines change.now))
        (D.standing dev.old) (D.standing dev.new) result }
    ensures cause { NvmCause (D.standing dev.old) (D.standing dev.new) result }
{
    let head = record_head(change);
    put_log_line(dev, geometry, offset, &head)?;
    put_log_line(dev, geometry, offset + 1, &change.before)?;
    put_log_line(dev, geometry, offset + 1 + 1, &change.after)
}

/// Makes durable by a fence what was flushed, and then the tail, durable.
pub(crate) fn harden_to<D: Devices>(dev: &mut D, tail: u64) -> Result<(), Failed>
    requires { 3 < (D.standing dev.old).lines }
    ensures goes { Goes (D.standing dev.old) (D.standing dev.new) }
    ensures makes { MakesAll (harden_calls tail) (D.standing dev.old) (D.standing dev.new) result }
    ensures cause { NvmCause (D.standing dev.old) (D.standing dev.new) result }
{
    dev.fence()?;
    put_gate(dev, TAIL_LINE, tail)
}

/// Stores the line of an end at an offset of the log and flushes it, and hardens it with all that was flushed before.
pub(crate) fn end_at<D: Devices>(
    dev: &mut D,
    geometry: &Geometry,
    offset: u64,
    kind: EndKind,
) -> Result<(), Failed>
    requires fits { nvm_lines (sizes_of geometry.now) ≤ (D.standing dev.old).lines }
    requires below { offset < 2 ^ 62 }
    ensures goes { Goes (D.standing dev.old) (D.standing dev.new) }
    ensures makes { MakesAll (end_calls (sizes_of geometry.now) offset (end_lines kind))
        (D.standing dev.old) (D.standing dev.new) result }
    ensures cause { NvmCause (D.standing dev.old) (D.standing dev.new) result }
{
    let head = end_line(kind);
    put_log_line(dev, geometry, offset, &head)?;
    harden_to(dev, offset + 1)
}
