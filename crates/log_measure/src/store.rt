//! A log in a world in memory, and its calls with their conditions tested.
ghost use Rattle.std.specs.Prelude.{◌≡◌, ◌≤◌, true};
ghost use Rattle.store_model.specs.Layout.{nvm_lines, ssd_blocks};
ghost use Rattle.nvm_layout.specs.Sizes.{sizes_of};

use crate::ended::Ended;
use devices::{Devices, MemWorld};
use line_pages::Stop;
use log_drain::{drain_blocks, read_log_line};
use log_records::{BeforeImage, read_last};
use nvm_layout::{Geometry, MAGIC, read_super};
use nvm_log::{EndKind, LineRecord, Log};
use nvm_model::Line;
use std::alloc::Global;

/// The largest offset at which the calls of a log put something.
const LAST_OFFSET: u64 = 1 << 61;

/// The longest rings: 65,536 lines in NVM, 1,028 blocks on the SSD.
fn sizes() -> Geometry {
    Geometry {
        tables: 1,
        rows: 100,
        writes: 32,
        frames: 0,
        log_blocks: 1024,
    }
}

/// A world with an empty store.
pub fn empty_world(alloc: Global) -> Result<MemWorld, Ended> {
    let geometry = sizes();
    let lines = geometry.nvm_lines();
    let mut world = MemWorld::new(alloc, lines, geometry.ssd_blocks(), b"", b"", &[])?;
    if world.nvm_lines() < 4 {
        return Err(Ended::NoRoom);
    }
    world.store_line(
        0,
        &Line {
            words: [MAGIC, 1, 100, 32, 0, 1024, 0, 0],
        },
    )?;
    world.flush(0)?;
    world.fence()?;
    Ok(world)
}

/// The log of the store that a device holds.
pub fn opened<D: Devices>(dev: &mut D) -> Result<Log, Ended> {
    let gates = read_super(dev)?;
    Ok(Log::open(&gates.geometry, &gates))
}

/// Some record.
pub fn record(number: u64) -> LineRecord {
    LineRecord {
        page: number % 50,
        line: (number % 64) as u8,
        before: Line { words: [number; 8] },
        after: Line { words: [7; 8] },
    }
}

/// Whether a device has room for the store.
fn fits<D: Devices>(log: &Log, dev: &D) -> bool
    ensures nvm { result ≡ true
        → nvm_lines (sizes_of log.now.geometry) ≤ (D.standing dev.now).lines }
    ensures ssd { result ≡ true
        → ssd_blocks (sizes_of log.now.geometry) ≤ (D.standing dev.now).blocks }
{
    log.geometry.nvm_lines() <= dev.nvm_lines() && log.geometry.ssd_blocks() <= dev.ssd_blocks()
}

pub fn append<D: Devices>(log: &mut Log, dev: &mut D, change: &LineRecord) -> Result<(), Ended> {
    if !fits(log, dev) || log.free_lines() < 3 || log.written() > LAST_OFFSET {
        return Err(Ended::NoRoom);
    }
    log.append(dev, change)?;
    Ok(())
}

pub fn harden<D: Devices>(log: &mut Log, dev: &mut D) -> Result<(), Ended> {
    if !fits(log, dev) {
        return Err(Ended::NoRoom);
    }
    log.harden(dev)?;
    Ok(())
}

pub fn commit<D: Devices>(log: &mut Log, dev: &mut D) -> Result<(), Ended> {
    if !fits(log, dev) || log.free_lines() < 1 || log.written() > LAST_OFFSET {
        return Err(Ended::NoRoom);
    }
    log.end(dev, EndKind::Commit)?;
    Ok(())
}

pub fn move_start<D: Devices>(log: &mut Log, dev: &mut D) -> Result<(), Ended> {
    if !fits(log, dev) || log.written() != log.tail() {
        return Err(Ended::Pending);
    }
    log.move_start(dev)?;
    Ok(())
}

pub fn drain<D: Devices>(log: &mut Log, dev: &mut D, most: u64) -> Result<u64, Ended> {
    if !fits(log, dev) {
        return Err(Ended::NoRoom);
    }
    Ok(drain_blocks(log, dev, most)?)
}

pub fn line<D: Devices>(log: &Log, dev: &mut D, offset: u64) -> Result<Line, Ended> {
    if !fits(log, dev) || offset < log.start() || offset >= log.tail() {
        return Err(Ended::NoRoom);
    }
    Ok(read_log_line(log, dev, offset)?)
}

pub fn last<D: Devices>(log: &Log, dev: &mut D, end: u64) -> Result<Option<BeforeImage>, Ended> {
    if !fits(log, dev) || end < log.start() || end > log.tail() {
        return Err(Ended::NoRoom);
    }
    Ok(read_last(log, dev, log.start(), end)?)
}
