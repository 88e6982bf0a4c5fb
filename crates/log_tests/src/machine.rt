//! A log over a small world, its calls with their conditions tested, and the entries that are read back of it.
ghost use Rattle.std.specs.Prelude.{◌≡◌, ◌≤◌, ◌+◌, ◌*◌, true, IfOk, OnOk};
ghost use Rattle.store_model.specs.Layout.{nvm_lines, ssd_blocks, ring_blocks, floor64};
ghost use Rattle.nvm_layout.specs.Sizes.{sizes_of};

use devices::{Devices, Failed, Fault, MemWorld};
use line_pages::Stop;
use log_drain::{drain_block, drain_blocks, read_log_line};
use log_records::{BeforeImage, read_last};
use nvm_layout::{Geometry, MAGIC, read_super};
use nvm_log::{EndKind, Head, LineRecord, Log, put_gate, put_line, read_head};
use nvm_model::Line;
use std::alloc::Global;
use std::test::Fail;

/// The largest offset at which the calls of a log put something.
const LAST_OFFSET: u64 = 1 << 61;

/// One table of two rows: ten pages, no frames, a ring of 128 lines in NVM and one of 36 blocks on the SSD.
pub fn small() -> Geometry {
    Geometry {
        tables: 1,
        rows: 2,
        writes: 1,
        frames: 0,
        log_blocks: 2,
    }
}

/// A line of eight such words.
pub fn filled(word: u64) -> Line {
    Line { words: [word; 8] }
}

/// Some record of a line of the small store.
pub fn record(number: u64) -> LineRecord {
    LineRecord {
        page: number % 10,
        line: (number % 64) as u8,
        before: filled(number),
        after: filled(number.wrapping_add(1000)),
    }
}

/// Why a call was not made, or stopped.
#[derive(Clone, Copy, Debug, PartialEq, Eq)]
pub enum Trouble {
    /// Its condition does not hold.
    Refused,
    /// A call on NVM failed.
    Failed,
    /// It stopped.
    Stopped(Stop),
    /// There was no memory for what the test notes.
    NoMemory,
}

impl From<Failed> for Trouble {
    fn from(_error: Failed) -> Trouble {
        Trouble::Failed
    }
}

impl From<Stop> for Trouble {
    fn from(why: Stop) -> Trouble {
        Trouble::Stopped(why)
    }
}

/// What stands in a log.
#[derive(Clone, Copy, Debug, PartialEq, Eq)]
pub enum Entry {
    /// A record of a line.
    Record(LineRecord),
    /// The end of a group.
    End(EndKind),
}

/// A world with an empty store of these sizes, whose log begins at offset 0, and which fails where these faults say.
pub fn empty_world(alloc: Global, geometry: &Geometry, faults: &[Fault]) -> Result<MemWorld, Fail> {
    let lines = geometry.nvm_lines();
    let blocks = geometry.ssd_blocks();
    let mut world = MemWorld::new(alloc, lines, blocks, b"", b"", faults)?;
    let head = Line {
        words: [
            MAGIC,
            geometry.tables as u64,
            geometry.rows,
            geometry.writes as u64,
            geometry.frames as u64,
            geometry.log_blocks as u64,
            0,
            0,
        ],
    };
    if world.nvm_lines() < 4 {
        return Err("no superblock")?;
    }
    world.store_line(0, &head)?;
    world.flush(0)?;
    world.fence()?;
    Ok(world)
}

/// The log of the store that a device holds.
pub fn opened<D: Devices>(dev: &mut D) -> Result<Log, Fail> {
    let gates = read_super(dev)?;
    Ok(Log::open(&gates.geometry, &gates))
}

/// Whether a device has room for the store.
fn fits<D: Devices>(log: &Log, dev: &D) -> bool
    ensures nvm { result ≡ true
        → nvm_lines (sizes_of log.now.geometry) ≤ (D.standing dev.now).lines }
    ensures ssd { result ≡ true
        → ssd_blocks (sizes_of log.now.geometry) ≤ (D.standing dev.now).blocks }
{
    log.geometry.nvm_lines() <= dev.nvm_lines() && log.geometry.ssd_blocks() <= dev.ssd_blocks()
}

/// Appends a record.
pub fn append<D: Devices>(log: &mut Log, dev: &mut D, change: &LineRecord) -> Result<(), Trouble> {
    if !fits(log, dev) || log.free_lines() < 3 || log.written() > LAST_OFFSET {
        return Err(Trouble::Refused);
    }
    log.append(dev, change)?;
    Ok(())
}

/// Hardens what is pending.
pub fn harden<D: Devices>(log: &mut Log, dev: &mut D) -> Result<(), Trouble> {
    if !fits(log, dev) {
        return Err(Trouble::Refused);
    }
    log.harden(dev)?;
    Ok(())
}

/// Ends the open group.
pub fn end<D: Devices>(log: &mut Log, dev: &mut D, kind: EndKind) -> Result<(), Trouble> {
    if !fits(log, dev) || log.free_lines() < 1 || log.written() > LAST_OFFSET {
        return Err(Trouble::Refused);
    }
    log.end(dev, kind)?;
    Ok(())
}

/// Drains so many blocks at most, and gives their number.
pub fn drain<D: Devices>(log: &mut Log, dev: &mut D, most: u64) -> Result<u64, Trouble> {
    if !fits(log, dev) {
        return Err(Trouble::Refused);
    }
    Ok(drain_blocks(log, dev, most)?)
}

/// Whether a whole block stands from `drained` on and has a place in the ring on the SSD.
fn has_block(log: &Log) -> bool
    ensures lines { result ≡ true → log.now.drained + 64 ≤ log.now.tail }
    ensures room { result ≡ true
        → log.now.drained + 64
        ≤ floor64 log.now.start + 64 * ring_blocks (sizes_of log.now.geometry) }
{
    if log.tail > LAST_OFFSET {
        return false;
    }
    let end = log.drained + 64;
    end <= log.tail && end <= log.start / 64 * 64 + 64 * log.geometry.ring_blocks()
}

/// Drains one block.
pub fn drain_one<D: Devices>(log: &mut Log, dev: &mut D) -> Result<(), Trouble> {
    if !fits(log, dev) || !has_block(log) {
        return Err(Trouble::Refused);
    }
    drain_block(log, dev)?;
    Ok(())
}

/// Empties the log, in which nothing is pending.
pub fn move_start<D: Devices>(log: &mut Log, dev: &mut D) -> Result<(), Trouble> {
    if !fits(log, dev) || log.written() != log.tail() {
        return Err(Trouble::Refused);
    }
    log.move_start(dev)?;
    Ok(())
}

/// Puts a line at a place of the NVM.
pub fn line_at_place<D: Devices>(dev: &mut D, place: u64, value: &Line) -> Result<(), Trouble> {
    if place >= dev.nvm_lines() {
        return Err(Trouble::Refused);
    }
    put_line(dev, place, value)?;
    Ok(())
}

/// Puts a gate into a line of the NVM.
pub fn gate_at_place<D: Devices>(dev: &mut D, place: u64, value: u64) -> Result<(), Trouble> {
    if place >= dev.nvm_lines() {
        return Err(Trouble::Refused);
    }
    put_gate(dev, place, value)?;
    Ok(())
}

/// The line of the log at an offset.
pub fn line<D: Devices>(log: &Log, dev: &mut D, offset: u64) -> Result<Line, Fail> {
    if !fits(log, dev) || offset < log.start() || offset >= log.tail() {
        return Err("no such line")?;
    }
    Ok(read_log_line(log, dev, offset)?)
}

/// What is read back of the records that stand from one offset up to another.
pub fn last<D: Devices>(
    log: &Log,
    dev: &mut D,
    first: u64,
    end: u64,
) -> Result<Result<Option<BeforeImage>, Stop>, Fail> {
    if !fits(log, dev) || first < log.start() || first > end || end > log.tail() {
        return Err("no such records")?;
    }
    Ok(read_last(log, dev, first, end))
}

/// The entry whose head stands at an offset, and how many lines it has.
fn entry_at<D: Devices>(log: &Log, dev: &mut D, offset: u64) -> Result<(Entry, u64), Fail> {
    let head = line(log, dev, offset)?;
    match read_head(&log.geometry, &head) {
        Ok(Head::Line { page, line: place }) => {
            let before = line(log, dev, offset.saturating_add(1))?;
            let after = line(log, dev, offset.saturating_add(2))?;
            let change = LineRecord {
                page,
                line: place,
                before,
                after,
            };
            Ok((Entry::Record(change), 3))
        }
        Ok(Head::End(kind)) => Ok((Entry::End(kind), 1)),
        Err(_) => Err("a head that fails its check")?,
    }
}

/// All entries of a log, the first of them first.
pub fn entries<D: Devices>(alloc: Global, log: &Log, dev: &mut D) -> Result<Vec<Entry>, Fail> {
    let mut found = Vec::new(alloc);
    let mut offset = log.start();
    for _ in log.start()..log.tail() {
        if offset < log.tail() {
            let (next, lines) = entry_at(log, dev, offset)?;
            found.push(next)?;
            offset = offset.saturating_add(lines);
        }
    }
    Ok(found)
}
