//! A log in a ring of two blocks that is stopped after each event, and at each fault, and what its images hold.
use crate::machine;
use crate::machine::{Entry, Trouble, empty_world, entries, opened, record, small};
use devices::{Fault, FaultKind, MemWorld};
use nvm_log::{EndKind, Log};
use nvm_model::Choice;
use ssd_model::BlockChoice;
use std::alloc::Global;
use std::process::Abort;
use std::test::Fail;

/// Some of the entries that were put, from the one number up to the other.
#[derive(Clone, Copy)]
struct Part {
    first: usize,
    end: usize,
}

/// A call: how many events there were before it, what each image had then, and what it leads to.
#[derive(Clone, Copy)]
struct Mark {
    events: u64,
    before: Part,
    after: Part,
}

/// How the blocks of a run are drained.
#[derive(Clone, Copy)]
enum Drains {
    /// One, where it is needed.
    One,
    /// All that stand whole, under one sync.
    All,
}

/// How many records the groups of a run have, and how it is drained.
#[derive(Clone, Copy)]
struct Plan {
    /// The first group, which is emptied.
    first: u64,
    /// The second group, of which lines go to the SSD.
    second: u64,
    drains: Drains,
}

/// The start stands within the first block, and the second group is longer than the ring in NVM.
const WITHIN: Plan = Plan {
    first: 2,
    second: 44,
    drains: Drains::One,
};

/// The start stands above the first block while `drained` is 0, and the second group wraps.
const ABOVE: Plan = Plan {
    first: 22,
    second: 44,
    drains: Drains::All,
};

/// The same, and the second group ends with the ring full, of which both blocks are drained.
const FULL: Plan = Plan {
    first: 22,
    second: 20,
    drains: Drains::All,
};

/// A log, all that was put into it, the calls that were made, and what each image has.
#[derive(Drop)]
struct Run {
    plan: Plan,
    log: Log,
    put: Vec<Entry>,
    marks: Vec<Mark>,
    stands: Part,
}

/// The log of an empty store.
fn begun(alloc: Global, world: &mut MemWorld, plan: Plan) -> Result<Run, Fail> {
    Ok(Run {
        plan,
        log: opened(world)?,
        put: Vec::new(alloc),
        marks: Vec::new(alloc),
        stands: Part { first: 0, end: 0 },
    })
}

/// Notes a call that leads to this part.
fn note(run: &mut Run, world: &MemWorld, after: Part) -> Result<(), Trouble> {
    let before = run.stands;
    let mark = Mark {
        events: world.events(),
        before,
        after,
    };
    run.marks.push(mark).map_err(|_| Trouble::NoMemory)
}

/// All that was put and not yet emptied.
fn all(run: &Run) -> Part {
    Part {
        first: run.stands.first,
        end: run.put.len(),
    }
}

fn harden(run: &mut Run, world: &mut MemWorld) -> Result<(), Trouble> {
    let after = all(run);
    note(run, world, after)?;
    machine::harden(&mut run.log, world)?;
    run.stands = after;
    Ok(())
}

/// Drains a block, or all that stand whole.
fn drain(run: &mut Run, world: &mut MemWorld) -> Result<(), Trouble> {
    let after = run.stands;
    note(run, world, after)?;
    match run.plan.drains {
        Drains::One => machine::drain_one(&mut run.log, world),
        Drains::All => {
            machine::drain(&mut run.log, world, 36)?;
            Ok(())
        }
    }
}

fn end(run: &mut Run, world: &mut MemWorld, kind: EndKind) -> Result<(), Trouble> {
    run.put
        .push(Entry::End(kind))
        .map_err(|_| Trouble::NoMemory)?;
    let after = all(run);
    note(run, world, after)?;
    machine::end(&mut run.log, world, kind)?;
    run.stands = after;
    Ok(())
}

fn empty(run: &mut Run, world: &mut MemWorld) -> Result<(), Trouble> {
    let after = Part {
        first: run.put.len(),
        end: run.put.len(),
    };
    note(run, world, after)?;
    machine::move_start(&mut run.log, world)?;
    run.stands = after;
    Ok(())
}

/// Appends a record, and drains before where there is no room.
fn append(run: &mut Run, world: &mut MemWorld, number: u64) -> Result<(), Trouble> {
    if run.log.free_lines() < 3 {
        harden(run, world)?;
        drain(run, world)?;
    }
    let change = record(number);
    run.put
        .push(Entry::Record(change))
        .map_err(|_| Trouble::NoMemory)?;
    let after = run.stands;
    note(run, world, after)?;
    machine::append(&mut run.log, world, &change)
}

/// Appends so many records, the first of them with this number.
fn append_all(run: &mut Run, world: &mut MemWorld, number: u64, count: u64) -> Result<(), Trouble> {
    for more in 0..count {
        append(run, world, number.saturating_add(more))?;
    }
    Ok(())
}

/// A group that is emptied, so that the start stands above `drained`. Then a group that ends by an abort, a drain, and a group of two
/// records, of which one is pending.
fn run_all(run: &mut Run, world: &mut MemWorld) -> Result<(), Trouble> {
    let plan = run.plan;
    append_all(run, world, 1, plan.first)?;
    end(run, world, EndKind::Commit)?;
    empty(run, world)?;
    append_all(run, world, plan.first.saturating_add(1), plan.second)?;
    end(run, world, EndKind::Abort)?;
    drain(run, world)?;
    append(run, world, 100)?;
    harden(run, world)?;
    append(run, world, 101)?;
    mark_end(run, world)
}

/// Notes the end.
fn mark_end(run: &mut Run, world: &MemWorld) -> Result<(), Trouble> {
    let after = run.stands;
    note(run, world, after)
}

/// What the log of an image holds.
fn left(
    alloc: Global,
    world: &MemWorld,
    events: u64,
    choice: Choice,
    blocks: BlockChoice,
) -> Result<Vec<Entry>, Fail> {
    if events > world.events() {
        return Err("no such event")?;
    }
    let images = world.images_at(alloc, events, choice, blocks)?;
    let mut again = MemWorld::from_images(alloc, &images, b"", b"", &[])?;
    let log = opened(&mut again)?;
    entries(alloc, &log, &mut again)
}

/// Whether these are that part of all that was put.
fn is_part(run: &Run, found: &[Entry], part: Part) -> bool {
    match run.put.get(part.first..part.end) {
        Some(expected) => expected == found,
        None => false,
    }
}

/// Whether an image after so many events may hold these entries: those from before the call that was being made then, or, once it was
/// begun, those that it leads to.
fn may_be(run: &Run, found: &[Entry], events: u64) -> bool {
    let mut last = None;
    for mark in &run.marks {
        if mark.events <= events {
            last = Some(*mark);
        }
    }
    match last {
        Some(mark) => {
            is_part(run, found, mark.before)
                || (events > mark.events && is_part(run, found, mark.after))
        }
        None => found.is_empty(),
    }
}

/// The four choices of blocks.
const BLOCKS: [BlockChoice; 4] = [
    BlockChoice::Settled,
    BlockChoice::Current,
    BlockChoice::Alternating,
    BlockChoice::Fill(0xA5),
];

/// Reads each image from one event on.
fn images(
    rt: &impl Abort,
    alloc: Global,
    run: &Run,
    world: &MemWorld,
    from: u64,
    choice: Choice,
) -> Result<(), Fail> {
    for events in from..=world.events() {
        for blocks in BLOCKS {
            let found = left(alloc, world, events, choice, blocks)?;
            assert!(rt; may_be(run, &found, events), "at {events}");
        }
    }
    Ok(())
}

/// The start, `drained` and `written` of a log.
fn gates(log: &Log) -> (u64, u64, u64) {
    (log.start(), log.drained(), log.written())
}

/// Stops the log after each event, with this choice of versions and each of blocks, and compares where it stands at last.
fn crashes(
    rt: &impl Abort,
    alloc: Global,
    plan: Plan,
    stands: (u64, u64, u64),
    choice: Choice,
) -> Result<(), Fail> {
    let mut world = empty_world(alloc, &small(), &[])?;
    let mut run = begun(alloc, &mut world, plan)?;
    let from = world.events();
    run_all(&mut run, &mut world)?;
    assert!(rt; gates(&run.log) == stands);
    images(rt, alloc, &run, &world, from, choice)
}

/// The choices of versions.
const CHOICES: [Choice; 3] = [Choice::Oldest, Choice::Newest, Choice::Alternating];

#[test]
fn a_log_that_starts_within_a_block(rt: HostRuntime) -> Result<(), Fail> {
    for choice in CHOICES {
        crashes(&rt, rt.alloc(), WITHIN, (7, 128, 146), choice)?;
    }
    Ok(())
}

/// The first drain moves a block that stands wholly below the start.
#[test]
fn a_log_that_starts_above_a_block(rt: HostRuntime) -> Result<(), Fail> {
    for choice in CHOICES {
        crashes(&rt, rt.alloc(), ABOVE, (67, 192, 206), choice)?;
    }
    Ok(())
}

/// The only drain moves a block that stands wholly below the start, and the block in which it stands.
#[test]
fn a_full_ring_that_starts_above_a_block(rt: HostRuntime) -> Result<(), Fail> {
    for choice in CHOICES {
        crashes(&rt, rt.alloc(), FULL, (67, 128, 134), choice)?;
    }
    Ok(())
}

/// Makes one call of a device fail, and reads the images that are left behind it; whether a call of the log was stopped.
fn stops(
    rt: &impl Abort,
    alloc: Global,
    plan: Plan,
    kind: FaultKind,
    nth: u64,
) -> Result<bool, Fail> {
    let mut world = empty_world(alloc, &small(), &[Fault { kind, nth }])?;
    let mut run = begun(alloc, &mut world, plan)?;
    if run_all(&mut run, &mut world).is_ok() {
        return Ok(false);
    }
    let from = world.events();
    for choice in CHOICES {
        images(rt, alloc, &run, &world, from, choice)?;
    }
    Ok(true)
}

/// The first call of a device, from this one on, that stops no call of the log.
fn stopped(
    rt: &impl Abort,
    alloc: Global,
    plan: Plan,
    kind: FaultKind,
    from: u64,
) -> Result<u64, Fail> {
    for nth in from..1000u64 {
        if !stops(rt, alloc, plan, kind, nth)? {
            return Ok(nth);
        }
    }
    Ok(1000)
}

/// Seven calls of the NVM make the store and open its log. Then 48 appends make 288, two ends 12, a new start 3, two hardens 8, and
/// two drains of a block 134.
#[test]
fn each_call_of_the_nvm_fails(rt: HostRuntime) -> Result<(), Fail> {
    assert_eq!(rt;
        stopped(&rt, rt.alloc(), WITHIN, FaultKind::Nvm, 7)?,
        7 + 445
    );
    Ok(())
}

/// 44 appends make 264 calls, two ends 12, a new start 3, a harden 4, and a drain of two blocks 131.
#[test]
fn each_call_of_the_nvm_fails_above_a_block(rt: HostRuntime) -> Result<(), Fail> {
    assert_eq!(rt; stopped(&rt, rt.alloc(), FULL, FaultKind::Nvm, 7)?, 7 + 414);
    Ok(())
}

/// Two drains of one block make two writes and two syncs, three make three of each, and one of two blocks two writes and a sync.
#[test]
fn each_call_of_the_ssd_fails(rt: HostRuntime) -> Result<(), Fail> {
    assert_eq!(rt; stopped(&rt, rt.alloc(), WITHIN, FaultKind::Ssd, 0)?, 4);
    assert_eq!(rt; stopped(&rt, rt.alloc(), ABOVE, FaultKind::Ssd, 0)?, 6);
    assert_eq!(rt; stopped(&rt, rt.alloc(), FULL, FaultKind::Ssd, 0)?, 3);
    Ok(())
}
