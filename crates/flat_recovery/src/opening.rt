//! The opening of a store: what a crash left is recovered.
ghost use Rattle.std.specs.Prelude.{◌≡◌, ◌≢◌, ◌<◌, ◌≤◌, ℕ, Err, IsTrue, IfOk};
ghost use Rattle.devices.specs.World.{Goes, MakesAll, NvmCause};
ghost use Rattle.flat_nvm_layout.specs.Opening.{IsOpen};
ghost use Rattle.flat_nvm_layout.specs.Sizes.{sizes_of};
ghost use Rattle.flat_nvm_log.specs.Moved.{IsEmptied};
ghost use Rattle.flat_store_meaning.specs.Layout.{pages, nvm_lines};
ghost use Rattle.flat_recovery.specs.Calls.{super_calls, settle_calls};
ghost use Rattle.flat_recovery.specs.Causes.{OpenCause};
ghost use Rattle.flat_recovery.specs.Heads.{KeepsFault};

use crate::checking::check_log;
use crate::errors::OpenError;
use crate::replaying::replay;
use crate::storing::flush_lines;
use devices::{Devices, Failed};
use flat_nvm_layout::{Geometry, Super, read_super};
use flat_nvm_log::Log;
use line_pages::LineSet;
use std::alloc::Global;

/// What a store goes on with.
#[derive(Drop)]
pub struct Parts {
    /// Its log, which is empty.
    pub log: Log,
    /// The lines of pages whose words may differ from their homes: none.
    pub loose: LineSet,
    /// The sizes of the store.
    pub geometry: Geometry,
}

ghost use Rattle.flat_recovery.specs.Opening.{Answers, FindsInLog, IsComplete, ChangesNothing, KeepsStore, Recovered, AreParts, ReopensLog, IsReopened};

/// Recovers the store that the devices hold. The superblock is read and checked; then all memory is taken; then each head of
/// the log is read and checked. Before anything is stored the superblock is flushed and fenced: what was read of it may be newer
/// than what a crash would leave. Then the log is replayed over the homes, group by group. Every line of every page is flushed, a
/// fence, and the log is empty.
///
/// What is wrong with the superblock is answered first (`SuperError`), then want of memory, then a head that fails check 7, 8 or 9;
/// `Nvm` where that count of faults rose.
pub fn recover<D: Devices>(alloc: Global, dev: &mut D) -> Result<Parts, OpenError>
    // What is found, and what an answer other than success says.
    ensures answers { 4 ≤ (D.standing dev.old).lines → Answers (D.standing dev.old) result }
    ensures small { (D.standing dev.old).lines < 4 → result ≡ Err OpenError.TooSmall }
    ensures finds { FindsInLog (D.standing dev.old) result }
    ensures complete { IsComplete (D.standing dev.old) result }
    ensures cause { OpenCause (D.standing dev.old) (D.standing dev.new) result }

    // What is recovered.
    ensures recovered { IsTrue (D.standing dev.old).told
        → IfOk result (λ parts. Recovered parts (D.standing dev.old) (D.standing dev.new)) }
    ensures parts { IfOk result
        (λ parts. AreParts parts (D.standing dev.old).lines (D.standing dev.old).blocks) }

    // What stays, whatever is answered, at each moment.
    ensures keeps { IsTrue (D.standing dev.old).told
        → KeepsStore (D.standing dev.old) (D.standing dev.new) }
    ensures nothing { ChangesNothing (D.standing dev.old) (D.standing dev.new) result }
    ensures goes { Goes (D.standing dev.old) (D.standing dev.new) }
{
    let gates = read_super(dev)?;
    let loose = LineSet::new(alloc, gates.geometry.pages())?;
    let log = reopen(dev, &gates)?;
    Ok(Parts {
        log,
        loose,
        geometry: gates.geometry,
    })
}

/// Recovers the store of a superblock that was read: its log is checked and replayed.
fn reopen<D: Devices>(dev: &mut D, gates: &Super) -> Result<Log, OpenError>
    requires { IsOpen (D.standing dev.old).lines (D.standing dev.old).blocks gates.now }
    ensures reopens { ReopensLog gates.now (D.standing dev.old) (D.standing dev.new) result }
    ensures log { IsReopened gates.now result }
    ensures keeps { KeepsFault (sizes_of gates.now.geometry) gates.now.tail result }
    ensures cause { OpenCause (D.standing dev.old) (D.standing dev.new) result }
    ensures goes { Goes (D.standing dev.old) (D.standing dev.new) }
{
    let mut log = Log::open(&gates.geometry, gates);
    check_log(dev, &log)?;
    keep_super(dev)?;
    replay(dev, &log)?;
    settle(dev, &mut log)?;
    Ok(log)
}

/// Makes the lines of the superblock durable, as they were read.
fn keep_super<D: Devices>(dev: &mut D) -> Result<(), Failed>
    requires { 4 ≤ (D.standing dev.old).lines }
    ensures makes { MakesAll super_calls (D.standing dev.old) (D.standing dev.new) result }
    ensures cause { NvmCause (D.standing dev.old) (D.standing dev.new) result }
    ensures goes { Goes (D.standing dev.old) (D.standing dev.new) }
{
    flush_lines(dev, 0, 4)?;
    dev.fence()
}

/// Makes every line of every page durable, and empties the log.
fn settle<D: Devices>(dev: &mut D, log: &mut Log) -> Result<(), Failed>
    requires fits { nvm_lines (sizes_of log.old.geometry) ≤ (D.standing dev.old).lines }
    requires framed { pages (sizes_of log.old.geometry) ≤ log.old.geometry.frames }
    ensures makes { MakesAll (settle_calls (sizes_of log.old.geometry) log.old.tail)
        (D.standing dev.old) (D.standing dev.new) result }
    ensures emptied { IsEmptied log.old log.new result }
    ensures cause { NvmCause (D.standing dev.old) (D.standing dev.new) result }
    ensures goes { Goes (D.standing dev.old) (D.standing dev.new) }
{
    let first = log.geometry.frame_line(0, 0);
    flush_lines(dev, first, 64 * log.geometry.pages())?;
    dev.fence()?;
    log.move_start(dev)
}
