//! Lines that are flushed.
ghost use Rattle.std.specs.Prelude.{◌+◌, ◌<◌, ◌≤◌, ◌^◌};
ghost use Rattle.devices.specs.World.{Goes, MakesAll, NvmCause};
ghost use Rattle.flat_recovery.specs.Calls.{flush_calls};

use devices::{Devices, Failed};

/// Flushes so many lines, from this one on.
pub(crate) fn flush_lines<D: Devices>(dev: &mut D, first: u64, count: u64) -> Result<(), Failed>
    requires within { first + count ≤ (D.standing dev.old).lines }
    requires low { first + count < 2 ^ 64 }
    ensures goes { Goes (D.standing dev.old) (D.standing dev.new) }
    ensures makes { MakesAll (flush_calls first count) (D.standing dev.old)
        (D.standing dev.new) result }
    ensures cause { NvmCause (D.standing dev.old) (D.standing dev.new) result }
{
    for i in 0..count {
        dev.flush(first + i)?;
    }
    Ok(())
}
