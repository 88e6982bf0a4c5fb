//! The calls that are measured.
use crate::ended::Ended;
use crate::store::{
    append, commit, drain, empty_world, harden, last, line, move_start, opened, record,
};
use devices::{Devices, Failed, MemWorld};
use nvm_log::Log;
use nvm_model::Line;
use std::alloc::Global;

/// How many records fill the ring in NVM, but for its last lines.
const RECORDS: u64 = 21_840;

/// Three lines, stored and flushed with no log around them.
fn store_three<D: Devices>(dev: &mut D, line: &Line) -> Result<(), Failed> {
    if dev.nvm_lines() < 103 {
        return Ok(());
    }
    dev.store_line(100, line)?;
    dev.flush(100)?;
    dev.store_line(101, line)?;
    dev.flush(101)?;
    dev.store_line(102, line)?;
    dev.flush(102)
}

/// The device calls of records alone.
pub fn bare(alloc: Global, count: u64) -> Result<u64, Ended> {
    let mut world = empty_world(alloc)?;
    for number in 0..count {
        store_three(&mut world, &record(number).before)?;
    }
    Ok(world.events())
}

/// Records that stay pending.
pub fn appends(alloc: Global, count: u64) -> Result<u64, Ended> {
    let mut world = empty_world(alloc)?;
    let mut log = opened(&mut world)?;
    for number in 0..count {
        append(&mut log, &mut world, &record(number))?;
    }
    Ok(log.written())
}

/// Records, each hardened.
pub fn hardens(alloc: Global, count: u64) -> Result<u64, Ended> {
    let mut world = empty_world(alloc)?;
    let mut log = opened(&mut world)?;
    for number in 0..count {
        append(&mut log, &mut world, &record(number))?;
        harden(&mut log, &mut world)?;
    }
    Ok(log.tail())
}

/// Commits of no record.
pub fn ends(alloc: Global, count: u64) -> Result<u64, Ended> {
    let mut world = empty_world(alloc)?;
    let mut log = opened(&mut world)?;
    for _ in 0..count {
        commit(&mut log, &mut world)?;
    }
    Ok(log.tail())
}

/// New starts of a log in which nothing is pending.
pub fn starts(alloc: Global, count: u64) -> Result<u64, Ended> {
    let mut world = empty_world(alloc)?;
    let mut log = opened(&mut world)?;
    for _ in 0..count {
        move_start(&mut log, &mut world)?;
    }
    Ok(world.events())
}

/// A log that fills its ring in NVM.
fn filled(world: &mut MemWorld) -> Result<Log, Ended> {
    let mut log = opened(world)?;
    for number in 0..RECORDS {
        append(&mut log, world, &record(number))?;
    }
    harden(&mut log, world)?;
    Ok(log)
}

/// Drains of a full ring, of so many blocks each.
pub fn drains(alloc: Global, count: u64, most: u64) -> Result<u64, Ended> {
    let mut world = empty_world(alloc)?;
    let mut log = filled(&mut world)?;
    let mut blocks = 0u64;
    for _ in 0..count {
        blocks = blocks.saturating_add(drain(&mut log, &mut world, most)?);
    }
    Ok(blocks)
}

/// Lines of a full log, read after a drain of so many blocks at most.
pub fn lines(alloc: Global, count: u64, drained: u64) -> Result<u64, Ended> {
    let mut world = empty_world(alloc)?;
    let mut log = filled(&mut world)?;
    drain(&mut log, &mut world, drained)?;
    let mut sum = 0u64;
    for number in 0..count {
        let found = line(&log, &mut world, number % 60_000)?;
        sum = sum.wrapping_add(found.words[0]);
    }
    Ok(sum)
}

/// Records of a full log in NVM, read back from the last on.
pub fn backs(alloc: Global, count: u64) -> Result<u64, Ended> {
    let mut world = empty_world(alloc)?;
    let log = filled(&mut world)?;
    let mut end = log.tail();
    for _ in 0..count {
        if let Some(found) = last(&log, &mut world, end)? {
            end = found.head;
        }
    }
    Ok(end)
}
