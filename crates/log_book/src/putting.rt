//! The calls of a log, with a `Stop` for an answer.
ghost use Rattle.std.specs.Prelude.{◌≡◌, ◌≤◌, ◌<◌, ◌+◌, ◌^◌, OnErr};
ghost use Rattle.store_model.specs.Layout.{nvm_lines, ring_lines};
ghost use Rattle.store_model.specs.Put.{IsLine};
ghost use Rattle.nvm_layout.specs.Sizes.{sizes_of};
ghost use Rattle.nvm_log.specs.Calls.{append_makes, harden_makes, end_makes, start_makes};
ghost use Rattle.nvm_log.specs.Offsets.{offsets_of, appended, hardened, emptied, IsMoved};
ghost use Rattle.device_calls.specs.Leads.{Made};
ghost use Rattle.log_book.specs.LogData.{SameRange};

use devices::{Devices, Failed};
use line_pages::Stop;
use nvm_log::{EndKind, LineRecord, Log, eight};

/// Stores a record behind all that is stored.
pub(crate) fn put_record<D: Devices>(
    log: &mut Log,
    dev: &mut D,
    change: &LineRecord,
) -> Result<(), Stop>
    requires room { log.old.written + 3 ≤ log.old.drained + ring_lines (sizes_of log.old.geometry) }
    requires below { log.old.written < 2 ^ 62 }
    requires fits { nvm_lines (sizes_of log.old.geometry) ≤ (D.standing dev.old).lines }
    ensures lines { IsLine change.now.before × IsLine change.now.after }
    ensures moved { IsMoved log.old log.new (appended 3 (offsets_of log.old)) result }
    ensures made { Made (append_makes log.old change.now) (D.standing dev.old)
        (D.standing dev.new) result }
    ensures stays { OnErr result (SameRange log.old log.new) }
    ensures start { log.new.start ≡ log.old.start }
{
    eight(&change.before);
    eight(&change.after);
    match log.append(dev, change) {
        Ok(()) => Ok(()),
        Err(Failed) => Err(Stop::Nvm),
    }
}

/// Makes all that is stored part of the log.
pub(crate) fn put_harden<D: Devices>(log: &mut Log, dev: &mut D) -> Result<(), Stop>
    requires fits { nvm_lines (sizes_of log.old.geometry) ≤ (D.standing dev.old).lines }
    ensures moved { IsMoved log.old log.new (hardened (offsets_of log.old)) result }
    ensures made { Made (harden_makes log.old) (D.standing dev.old) (D.standing dev.new) result }
    ensures range { SameRange log.old log.new }
{
    match log.harden(dev) {
        Ok(()) => Ok(()),
        Err(Failed) => Err(Stop::Nvm),
    }
}

/// Stores the end of a group behind all that is stored, and makes all of it part of the log.
pub(crate) fn put_end<D: Devices>(log: &mut Log, dev: &mut D, kind: EndKind) -> Result<(), Stop>
    requires room { log.old.written + 1 ≤ log.old.drained + ring_lines (sizes_of log.old.geometry) }
    requires below { log.old.written < 2 ^ 62 }
    requires fits { nvm_lines (sizes_of log.old.geometry) ≤ (D.standing dev.old).lines }
    ensures moved { IsMoved log.old log.new (hardened (appended 1 (offsets_of log.old))) result }
    ensures made { Made (end_makes kind log.old) (D.standing dev.old) (D.standing dev.new) result }
{
    match log.end(dev, kind) {
        Ok(()) => Ok(()),
        Err(Failed) => Err(Stop::Nvm),
    }
}

/// Empties the log.
pub(crate) fn put_start<D: Devices>(log: &mut Log, dev: &mut D) -> Result<(), Stop>
    requires nothing { log.old.written ≡ log.old.tail }
    requires fits { nvm_lines (sizes_of log.old.geometry) ≤ (D.standing dev.old).lines }
    ensures moved { IsMoved log.old log.new (emptied (offsets_of log.old)) result }
    ensures made { Made (start_makes log.old) (D.standing dev.old) (D.standing dev.new) result }
{
    match log.move_start(dev) {
        Ok(()) => Ok(()),
        Err(Failed) => Err(Stop::Nvm),
    }
}
