//! Blocks of log lines that are drained: copied to the ring on the SSD, settled by one sync, and then named by the gate.
ghost use Rattle.std.specs.Prelude.{◌≡◌, ◌≤◌, ◌<◌, ℕ, ◌+◌, ◌*◌, ◌%◌, ◌^◌, [], ◌∷◌, IsTrue};
ghost use Rattle.devices.specs.State.Call.{sync};
ghost use Rattle.devices.specs.World.{Goes, MakesAll};
ghost use Rattle.store_model.specs.Layout.{nvm_lines, ssd_blocks, ring_blocks, floor64};
ghost use Rattle.nvm_layout.specs.Sizes.{sizes_of};
ghost use Rattle.nvm_log.specs.Puts.{gate_put};
ghost use Rattle.nvm_log.specs.Offsets.{offsets_of, IsMoved};
ghost use Rattle.device_calls.specs.Stops.{StopCause};
ghost use Rattle.log_drain.specs.Drains.{raised, drainable, MovesBlocks, Drains, DrainLines, DrainKeeps};

use crate::copying::{BLOCK_LINES, copy_blocks};
use devices::{Devices, Failed};
use line_pages::Stop;
use nvm_log::{Log, put_gate};

/// The NVM line of the gate `drained`.
const DRAINED_LINE: u64 = 2;

/// Drains one block: copies the 64 log lines from `drained` on to their block of the SSD, syncs, and then raises `drained` by 64,
/// durable. These lines stand below the tail, and their block is free. `Nvm` and `Ssd` where that count rose; no further call is
/// made then.
pub fn drain_block<D: Devices>(log: &mut Log, dev: &mut D) -> Result<(), Stop>
    requires lines { log.old.drained + 64 ≤ log.old.tail }
    requires room { log.old.drained + 64
        ≤ floor64 log.old.start + 64 * ring_blocks (sizes_of log.old.geometry) }
    requires fits { nvm_lines (sizes_of log.old.geometry) ≤ (D.standing dev.old).lines }
    requires blocks { ssd_blocks (sizes_of log.old.geometry) ≤ (D.standing dev.old).blocks }

    // What it does to the log in memory, to the devices, and to the log of every image.
    ensures moved { IsMoved log.old log.new (raised 1 (offsets_of log.old)) result }
    ensures makes { Drains log.old 1 log.new.drained (D.standing dev.old)
        (D.standing dev.new) result }
    ensures lines { DrainLines log.old log.new (D.standing dev.old) (D.standing dev.new) result }

    // Why it fails.
    ensures cause { StopCause (D.standing dev.old) (D.standing dev.new) result }

    // What stays, however far it gets.
    ensures goes { Goes (D.standing dev.old) (D.standing dev.new) }
    ensures keeps { DrainKeeps log.old 1 log.new (D.standing dev.old) (D.standing dev.new) result }
{
    drain(log, dev, 1)
}

/// Drains as many whole blocks as stand below the tail and have room in the ring on the SSD, `most` at most, under one sync and
/// one change of the gate, and answers how many. Where there is none no device call is made. `Nvm` and `Ssd` where that count
/// rose; no further call is made then.
pub fn drain_blocks<D: Devices>(log: &mut Log, dev: &mut D, most: u64) -> Result<u64, Stop>
    requires fits { nvm_lines (sizes_of log.old.geometry) ≤ (D.standing dev.old).lines }
    requires blocks { ssd_blocks (sizes_of log.old.geometry) ≤ (D.standing dev.old).blocks }

    // What it does to the log in memory, to the devices, and to the log of every image.
    ensures moved { MovesBlocks log.old log.new most result }
    ensures makes { Drains log.old (drainable most log.old) log.new.drained (D.standing dev.old)
        (D.standing dev.new) result }
    ensures nothing { drainable most log.old ≡ 0 → D.standing dev.new ≡ D.standing dev.old }
    ensures lines { DrainLines log.old log.new (D.standing dev.old) (D.standing dev.new) result }

    // Why it fails.
    ensures cause { StopCause (D.standing dev.old) (D.standing dev.new) result }

    // What stays, however far it gets.
    ensures goes { Goes (D.standing dev.old) (D.standing dev.new) }
    ensures keeps { DrainKeeps log.old (drainable most log.old) log.new (D.standing dev.old)
        (D.standing dev.new) result }
{
    let count = drainable(log, most);
    if count == 0 {
        return Ok(0);
    }
    drain(log, dev, count)?;
    Ok(count)
}

/// How many whole blocks can be drained, `most` at most.
fn drainable(log: &Log, most: u64) -> u64
    ensures { result ≡ drainable most log.now }
{
    let ring = log.geometry.ring_blocks();
    let standing = (log.tail - log.drained) / BLOCK_LINES;
    let free = ring - log.drained.saturating_sub(log.start / 64 * 64) / BLOCK_LINES;
    most.min(ring).min(standing).min(free)
}

/// Settles all blocks of the SSD.
fn settle<D: Devices>(dev: &mut D) -> Result<(), Stop>
    ensures goes { Goes (D.standing dev.old) (D.standing dev.new) }
    ensures cause { StopCause (D.standing dev.old) (D.standing dev.new) result }
    ensures reads { (D.standing dev.new).block_reads ≡ (D.standing dev.old).block_reads }
    ensures makes { MakesAll (sync ∷ []) (D.standing dev.old) (D.standing dev.new) result }
{
    match dev.sync() {
        Ok(()) => Ok(()),
        Err(Failed) => Err(Stop::Ssd),
    }
}

/// Raises the gate, durable.
fn raise<D: Devices>(dev: &mut D, drained: u64) -> Result<(), Stop>
    requires { 3 < (D.standing dev.old).lines }
    ensures goes { Goes (D.standing dev.old) (D.standing dev.new) }
    ensures cause { StopCause (D.standing dev.old) (D.standing dev.new) result }
    ensures makes { MakesAll (gate_put 2 drained) (D.standing dev.old) (D.standing dev.new) result }
{
    match put_gate(dev, DRAINED_LINE, drained) {
        Ok(()) => Ok(()),
        Err(Failed) => Err(Stop::Nvm),
    }
}

/// Drains so many blocks.
fn drain<D: Devices>(log: &mut Log, dev: &mut D, count: u64) -> Result<(), Stop>
    requires some { 0 < count }
    requires lines { log.old.drained + 64 * count ≤ log.old.tail }
    requires room { log.old.drained + 64 * count
        ≤ floor64 log.old.start + 64 * ring_blocks (sizes_of log.old.geometry) }
    requires few { count ≤ ring_blocks (sizes_of log.old.geometry) }
    requires fits { nvm_lines (sizes_of log.old.geometry) ≤ (D.standing dev.old).lines }
    requires blocks { ssd_blocks (sizes_of log.old.geometry) ≤ (D.standing dev.old).blocks }
    ensures moved { IsMoved log.old log.new (raised count (offsets_of log.old)) result }
    ensures makes { Drains log.old count log.new.drained (D.standing dev.old)
        (D.standing dev.new) result }
    ensures lines { DrainLines log.old log.new (D.standing dev.old) (D.standing dev.new) result }
    ensures cause { StopCause (D.standing dev.old) (D.standing dev.new) result }
    ensures goes { Goes (D.standing dev.old) (D.standing dev.new) }
    ensures keeps { DrainKeeps log.old count log.new (D.standing dev.old)
        (D.standing dev.new) result }
{
    prove!(log.drained <= log.tail);
    let drained = log.drained + BLOCK_LINES * count;
    copy_blocks(&log.geometry, dev, log.drained, count)?;
    settle(dev)?;
    raise(dev, drained)?;
    log.drained = drained;
    Ok(())
}
