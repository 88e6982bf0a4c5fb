//! Emptying a log.
ghost use Rattle.std.specs.Prelude.{◌≤◌, IsTrue};
ghost use Rattle.devices.specs.World.{Goes, MakesAll, NvmCause};
ghost use Rattle.flat_store_meaning.specs.Layout.{nvm_lines};
ghost use Rattle.flat_store_laws.specs.Calls.{checkpoint_calls};
ghost use Rattle.flat_nvm_layout.specs.Sizes.{sizes_of};
ghost use Rattle.flat_nvm_log.specs.Moved.{IsEmptied};
ghost use Rattle.flat_transactions.specs.Closing.{Empties};

use devices::{Devices, Failed};
use flat_nvm_log::Log;

/// Empties the log: a fence, which makes each line of a page durable in its place, and then the start becomes the tail,
/// durable.
pub(crate) fn empty_log<D: Devices>(log: &mut Log, dev: &mut D) -> Result<(), Failed>
    requires fits { nvm_lines (sizes_of log.old.geometry) ≤ (D.standing dev.old).lines }

    // What it does to the log, in memory, on the device, and to an open store.
    ensures emptied { IsEmptied log.old log.new result }
    ensures makes { MakesAll (checkpoint_calls log.old.tail) (D.standing dev.old)
        (D.standing dev.new) result }
    ensures empties { IsTrue (D.standing dev.old).told
        → Empties (sizes_of log.old.geometry) log.old.start log.old.tail (D.standing dev.old)
        (D.standing dev.new) result }

    // Why it fails.
    ensures cause { NvmCause (D.standing dev.old) (D.standing dev.new) result }

    // What stays, however far it gets.
    ensures goes { Goes (D.standing dev.old) (D.standing dev.new) }
{
    dev.fence()?;
    log.move_start(dev)
}
