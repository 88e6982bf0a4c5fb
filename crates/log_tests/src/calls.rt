//! What the calls of a log make of the devices, counted, and the records of a group that are read back.
use crate::counting::{Counted, Counts};
use crate::machine::{
    append, drain, drain_one, empty_world, end, filled, gate_at_place, harden, last, line,
    line_at_place, move_start, opened, record, small,
};
use damage::Evidence;
use devices::{Devices, MemWorld};
use line_pages::Stop;
use log_drain::room;
use log_records::BeforeImage;
use nvm_log::{EndKind, Log};
use nvm_model::Line;
use std::alloc::Global;
use std::process::Abort;
use std::test::Fail;

/// A device that counts from here on.
fn counted<D: Devices>(inner: &mut D) -> Counted<'_, D> {
    Counted {
        inner,
        counts: Counts::none(),
    }
}

/// What puts of so many bytes cost, with so many flushes and fences.
fn puts(stored: u64, flushes: u64, fences: u64) -> Counts {
    Counts {
        stored,
        flushes,
        fences,
        ..Counts::none()
    }
}

/// What a drain of so many blocks costs.
fn drains(blocks: u64) -> Counts {
    Counts {
        loads: blocks.saturating_mul(64),
        writes: blocks,
        syncs: 1,
        ..puts(8, 1, 1)
    }
}

/// What an append costs.
fn append_counts(log: &mut Log, world: &mut MemWorld, number: u64) -> Result<Counts, Fail> {
    let mut dev = counted(world);
    append(log, &mut dev, &record(number))?;
    Ok(dev.counts)
}

/// What a harden costs.
fn harden_counts(log: &mut Log, world: &mut MemWorld) -> Result<Counts, Fail> {
    let mut dev = counted(world);
    harden(log, &mut dev)?;
    Ok(dev.counts)
}

/// What an end costs.
fn end_counts(log: &mut Log, world: &mut MemWorld, kind: EndKind) -> Result<Counts, Fail> {
    let mut dev = counted(world);
    end(log, &mut dev, kind)?;
    Ok(dev.counts)
}

/// What a new start costs.
fn start_counts(log: &mut Log, world: &mut MemWorld) -> Result<Counts, Fail> {
    let mut dev = counted(world);
    move_start(log, &mut dev)?;
    Ok(dev.counts)
}

/// How many blocks a drain of so many at most drains, and what it costs.
fn drain_counts(log: &mut Log, world: &mut MemWorld, most: u64) -> Result<(u64, Counts), Fail> {
    let mut dev = counted(world);
    let blocks = drain(log, &mut dev, most)?;
    Ok((blocks, dev.counts))
}

/// What the drain of one block costs.
fn block_counts(log: &mut Log, world: &mut MemWorld) -> Result<Counts, Fail> {
    let mut dev = counted(world);
    drain_one(log, &mut dev)?;
    Ok(dev.counts)
}

/// What a line that is put costs.
fn put_counts(world: &mut MemWorld, place: u64, value: &Line) -> Result<Counts, Fail> {
    let mut dev = counted(world);
    line_at_place(&mut dev, place, value)?;
    Ok(dev.counts)
}

/// What a gate that is put costs.
fn gate_counts(world: &mut MemWorld, place: u64, value: u64) -> Result<Counts, Fail> {
    let mut dev = counted(world);
    gate_at_place(&mut dev, place, value)?;
    Ok(dev.counts)
}

/// What the read of a line of the log costs.
fn line_counts(log: &Log, world: &mut MemWorld, offset: u64) -> Result<Counts, Fail> {
    let mut dev = counted(world);
    line(log, &mut dev, offset)?;
    Ok(dev.counts)
}

/// Whether a record was read back, and what that cost.
fn back_counts(
    log: &Log,
    world: &mut MemWorld,
    first: u64,
    end: u64,
) -> Result<(bool, Counts), Fail> {
    let mut dev = counted(world);
    let found = last(log, &mut dev, first, end)??;
    Ok((found.is_some(), dev.counts))
}

/// What so many loads and reads of blocks cost.
fn reads(loads: u64, reads: u64) -> Counts {
    Counts {
        loads,
        reads,
        ..Counts::none()
    }
}

/// Appends so many records, the first of them with this number.
fn append_all(log: &mut Log, world: &mut MemWorld, first: u64, count: u64) -> Result<(), Fail> {
    for number in 0..count {
        append(log, world, &record(first.saturating_add(number)))?;
    }
    Ok(())
}

#[test]
fn costs_of_records(rt: HostRuntime) -> Result<(), Fail> {
    let mut world = empty_world(rt.alloc(), &small(), &[])?;
    let mut log = opened(&mut world)?;
    assert!(rt; append_counts(&mut log, &mut world, 1)? == puts(192, 3, 0));
    assert!(rt; append_counts(&mut log, &mut world, 2)? == puts(192, 3, 0));
    assert!(rt; log.tail() == 0 && log.written() == 6 && log.free_lines() == 122);
    assert!(rt; harden_counts(&mut log, &mut world)? == puts(8, 1, 2));
    assert!(rt; harden_counts(&mut log, &mut world)? == Counts::none());
    assert!(rt; log.tail() == 6);
    assert!(rt; append_counts(&mut log, &mut world, 3)? == puts(192, 3, 0));
    assert!(rt; end_counts(&mut log, &mut world, EndKind::Commit)? == puts(72, 2, 2));
    assert!(rt; end_counts(&mut log, &mut world, EndKind::Abort)? == puts(72, 2, 2));
    assert!(rt; log.tail() == 11 && log.written() == 11);
    assert!(rt; start_counts(&mut log, &mut world)? == puts(8, 1, 1));
    assert!(rt; log.start() == 11 && log.drained() == 0);
    Ok(())
}

/// A line is put, and then a gate into it, of which the other words stay.
#[test]
fn costs_of_puts(rt: HostRuntime) -> Result<(), Fail> {
    let mut world = empty_world(rt.alloc(), &small(), &[])?;
    assert!(rt; put_counts(&mut world, 17, &filled(7))? == puts(64, 1, 0));
    assert!(rt; gate_counts(&mut world, 17, 9)? == puts(8, 1, 1));
    if world.nvm_lines() <= 17 {
        return Err("no such line")?;
    }
    let both = Line {
        words: [9, 7, 7, 7, 7, 7, 7, 7],
    };
    assert!(rt; world.load(17)? == both);
    Ok(())
}

#[test]
fn costs_of_drains_and_reads(rt: HostRuntime) -> Result<(), Fail> {
    let mut world = empty_world(rt.alloc(), &small(), &[])?;
    let mut log = opened(&mut world)?;
    append_all(&mut log, &mut world, 0, 42)?;
    assert!(rt; drain_counts(&mut log, &mut world, 36)? == (0, Counts::none()));
    assert!(rt; end_counts(&mut log, &mut world, EndKind::Commit)? == puts(72, 2, 2));
    assert!(rt; end_counts(&mut log, &mut world, EndKind::Commit)? == puts(72, 2, 2));
    assert!(rt; log.free_lines() == 0);
    assert!(rt; drain_counts(&mut log, &mut world, 36)? == (2, drains(2)));
    append_all(&mut log, &mut world, 0, 22)?;
    assert!(rt; harden_counts(&mut log, &mut world)? == puts(8, 1, 2));
    assert!(rt; block_counts(&mut log, &mut world)? == drains(1));
    assert!(rt; log.drained() == 192 && log.tail() == 194);
    assert!(rt; line_counts(&log, &mut world, 191)? == reads(0, 1));
    assert!(rt; line_counts(&log, &mut world, 192)? == reads(1, 0));
    assert!(rt; line(&log, &mut world, 1)? == filled(0));
    assert!(rt; line(&log, &mut world, 193)? == filled(1021));
    if log.written() > 2304 || log.start() != 0 {
        return Err("the log stands elsewhere")?;
    }
    assert!(rt; room(&log) == 2304 - 194);
    Ok(())
}

/// A group of so many records, the first drained as far as there is need, and hardened.
fn group(log: &mut Log, world: &mut MemWorld, records: u64) -> Result<(), Fail> {
    for number in 0..records {
        if log.free_lines() < 3 {
            harden(log, world)?;
            drain(log, world, 1)?;
        }
        append(log, world, &record(number))?;
    }
    Ok(harden(log, world)?)
}

/// What the record with this number and this head is read back as.
fn image(number: u64, head: u64) -> BeforeImage {
    let change = record(number);
    BeforeImage {
        head,
        page: change.page,
        line: change.line,
        value: change.before,
    }
}

/// Reads back so many records from an offset on, last to first, and compares each; then none is left.
fn read_back(
    rt: &impl Abort,
    log: &Log,
    world: &mut MemWorld,
    first: u64,
    records: u64,
) -> Result<(), Fail> {
    let mut end = log.tail();
    for read in 0..records {
        let number = records - 1 - read;
        let head = first.saturating_add(number.saturating_mul(3));
        assert!(rt; last(log, world, first, end)? == Ok(Some(image(number, head))));
        end = head;
    }
    assert!(rt; last(log, world, first, end)? == Ok(None));
    Ok(())
}

/// A group of 60 records behind another one, in both rings: 128 lines of it are drained.
#[test]
fn a_group_read_back(rt: HostRuntime) -> Result<(), Fail> {
    let mut world = empty_world(rt.alloc(), &small(), &[])?;
    let mut log = opened(&mut world)?;
    append_all(&mut log, &mut world, 0, 2)?;
    end(&mut log, &mut world, EndKind::Commit)?;
    let first = log.tail();
    group(&mut log, &mut world, 60)?;
    assert!(rt; log.drained() == 64 && log.tail() == 187);
    let tail = log.tail();
    assert!(rt; back_counts(&log, &mut world, first, tail)? == (true, reads(2, 0)));
    assert!(rt;
        back_counts(&log, &mut world, first, first.saturating_add(3))? == (true, reads(0, 2))
    );
    assert!(rt; back_counts(&log, &mut world, first, first)? == (false, Counts::none()));
    read_back(&rt, &log, &mut world, first, 60)
}

/// What is told where a line stands in place of the head of the only record.
fn told(alloc: Global, head: &Line) -> Result<Result<Option<BeforeImage>, Stop>, Fail> {
    let mut world = empty_world(alloc, &small(), &[])?;
    let mut log = opened(&mut world)?;
    append_all(&mut log, &mut world, 0, 1)?;
    harden(&mut log, &mut world)?;
    let place = log.geometry.ring_line(0);
    if place < world.nvm_lines() {
        world.store_line(place, head)?;
    }
    last(&log, &mut world, 0, 3)
}

/// Damage of the head of the only record.
fn damaged(line: &Line, check: u8) -> Result<Option<BeforeImage>, Stop> {
    Err(Stop::Damaged(Evidence::Log {
        offset: 0,
        line: *line,
        tail: 3,
        check,
    }))
}

#[test]
fn heads_that_fail(rt: HostRuntime) -> Result<(), Fail> {
    for (words, check) in [
        ([0, 0, 0, 0, 0, 0, 0, 0], 7),
        ([2, 0, 0, 0, 0, 0, 0, 0], 7),
        ([3, 0, 0, 0, 0, 0, 0, 0], 7),
        ([4, 0, 0, 0, 0, 0, 0, 0], 7),
        ([1, 10, 0, 0, 0, 0, 0, 0], 8),
        ([1, 9, 64, 0, 0, 0, 0, 0], 8),
    ] {
        let head = Line { words };
        assert!(rt; told(rt.alloc(), &head)? == damaged(&head, check));
    }
    let head = Line {
        words: [1, 9, 63, 7, 7, 7, 7, 7],
    };
    let found = BeforeImage {
        head: 0,
        page: 9,
        line: 63,
        value: filled(0),
    };
    assert!(rt; told(rt.alloc(), &head)? == Ok(Some(found)));
    Ok(())
}
