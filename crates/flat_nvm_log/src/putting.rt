//! Lines that are put into the NVM, durable, and gates behind them.
ghost use Rattle.std.specs.Prelude.{◌<◌, [], ◌∷◌};
ghost use Rattle.devices.specs.State.Call.{store_word, store_line, flush, fence};
ghost use Rattle.devices.specs.World.{Goes, MakesAll, NvmCause};
ghost use Rattle.flat_nvm_log.specs.Puts.{line_put, gate_put};

use devices::{Devices, Failed};
use nvm_model::Line;

/// Stores a line of eight words and flushes it; the next fence makes it durable. `line` counts lines of the NVM, from 0, and is
/// below their number. `Failed` is a fault of the NVM: each word may then be the new one or not.
pub fn put_line<D: Devices>(dev: &mut D, line: u64, value: &Line) -> Result<(), Failed>
    requires { line < (D.standing dev.old).lines }
    ensures goes { Goes (D.standing dev.old) (D.standing dev.new) }
    ensures makes { MakesAll (line_put line value.now) (D.standing dev.old)
        (D.standing dev.new) result }
    ensures cause { NvmCause (D.standing dev.old) (D.standing dev.new) result }
{
    dev.store_line(line, value)?;
    dev.flush(line)
}

/// Stores a gate, durable: word 0 of a line is stored, the line flushed, and a fence; its other seven words stay. `line` counts
/// lines of the NVM, from 0, and is below their number. `Failed` is a fault of the NVM: the gate may then be the new one or not.
pub fn put_gate<D: Devices>(dev: &mut D, line: u64, value: u64) -> Result<(), Failed>
    requires { line < (D.standing dev.old).lines }
    ensures goes { Goes (D.standing dev.old) (D.standing dev.new) }
    ensures makes { MakesAll (gate_put line value) (D.standing dev.old)
        (D.standing dev.new) result }
    ensures cause { NvmCause (D.standing dev.old) (D.standing dev.new) result }
{
    dev.store_word(line, 0, value)?;
    dev.flush(line)?;
    dev.fence()
}

/// Three lines, durable.
pub(crate) fn put_three<D: Devices>(
    dev: &mut D,
    places: (u64, u64, u64),
    head: &Line,
    before: &Line,
    after: &Line,
) -> Result<(), Failed>
    requires first { places.0 < (D.standing dev.old).lines }
    requires second { places.1 < (D.standing dev.old).lines }
    requires third { places.2 < (D.standing dev.old).lines }
    ensures goes { Goes (D.standing dev.old) (D.standing dev.new) }
    ensures makes { MakesAll
        (store_line places.0 head.now ∷ flush places.0 ∷ store_line places.1 before.now
        ∷ flush places.1 ∷ store_line places.2 after.now ∷ flush places.2 ∷ fence ∷ [])
        (D.standing dev.old) (D.standing dev.new) result }
    ensures cause { NvmCause (D.standing dev.old) (D.standing dev.new) result }
{
    put_line(dev, places.0, head)?;
    put_line(dev, places.1, before)?;
    put_line(dev, places.2, after)?;
    dev.fence()
}

/// A record of three lines, durable, and then the tail, durable.
pub(crate) fn append_at<D: Devices>(
    dev: &mut D,
    places: (u64, u64, u64),
    head: &Line,
    before: &Line,
    after: &Line,
    tail: u64,
) -> Result<(), Failed>
    requires gates { 3 < (D.standing dev.old).lines }
    requires first { places.0 < (D.standing dev.old).lines }
    requires second { places.1 < (D.standing dev.old).lines }
    requires third { places.2 < (D.standing dev.old).lines }
    ensures goes { Goes (D.standing dev.old) (D.standing dev.new) }
    ensures makes { MakesAll
        (store_line places.0 head.now ∷ flush places.0 ∷ store_line places.1 before.now
        ∷ flush places.1 ∷ store_line places.2 after.now ∷ flush places.2 ∷ fence
        ∷ store_word 3 0 tail ∷ flush 3 ∷ fence ∷ []) (D.standing dev.old)
        (D.standing dev.new) result }
    ensures cause { NvmCause (D.standing dev.old) (D.standing dev.new) result }
{
    put_three(dev, places, head, before, after)?;
    put_gate(dev, 3, tail)
}
