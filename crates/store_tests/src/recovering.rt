//! Worked examples over a world in memory: empty stores, each refusal, each fault, and stops at each event while a log is written
//! and while it is recovered.
ghost use Rattle.std.specs.Prelude.{◌<◌};

use damage::Evidence;
use devices::{Devices, Fault, FaultKind, MemWorld};
use flat_nvm_layout::Geometry;
use flat_nvm_log::{EndKind, LineRecord, Log};
use flat_recovery::{FormatError, OpenError, format, format_at, recover};
use nvm_model::{Choice, Line};
use ssd_model::BlockChoice;
use std::alloc::Global;

const CHOICES: [Choice; 3] = [Choice::Oldest, Choice::Newest, Choice::Alternating];

/// One table of two rows, with each of its ten pages in a frame.
fn small() -> Geometry {
    Geometry {
        tables: 1,
        rows: 2,
        writes: 1,
        frames: 10,
        log_blocks: 31,
    }
}

/// Four tables of a hundred rows: 233 pages.
fn larger() -> Geometry {
    Geometry {
        tables: 4,
        rows: 100,
        writes: 32,
        frames: 256,
        log_blocks: 1024,
    }
}

/// A world of zeros that a store of these sizes fits, with these faults.
fn zeros(alloc: Global, geometry: &Geometry, fail: &[Fault]) -> Option<MemWorld> {
    MemWorld::new(
        alloc,
        geometry.nvm_lines(),
        geometry.ssd_blocks(),
        b"",
        b"",
        fail,
    )
    .ok()
}

/// A world with an empty small store, whose log begins at this offset.
fn empty(alloc: Global, first: u64) -> Option<MemWorld> {
    let mut world = zeros(alloc, &small(), &[])?;
    format_at(&mut world, &small(), first).ok()?;
    Some(world)
}

/// A line of eight such words.
fn filled(word: u64) -> Line {
    Line { words: [word; 8] }
}

/// A line of page 3 of a store of these sizes.
fn load<D: Devices>(dev: &mut D, geometry: &Geometry, line: usize) -> Option<Line> {
    if geometry.frames < 3 || line >= 64 {
        return None;
    }
    let place = geometry.frame_line(3, line);
    if place < dev.nvm_lines() {
        dev.load(place).ok()
    } else {
        None
    }
}

/// Stores a word, where the device has it.
fn store<D: Devices>(dev: &mut D, line: u64, word: usize, value: u64) -> bool {
    line < dev.nvm_lines() && word < 8 && dev.store_word(line, word, value).is_ok()
}

/// Writes a line of page 3 as a store does: its record, and then the line in place.
fn write<D: Devices>(log: &mut Log, dev: &mut D, line: u8, value: &Line) -> Option<()> {
    let before = load(dev, &log.geometry, line as usize)?;
    let record = LineRecord {
        page: 3,
        line,
        before,
        after: *value,
    };
    if log.free_lines() < 3
        || log.tail() >= 0x4000_0000_0000_0000
        || log.geometry.nvm_lines() > dev.nvm_lines()
        || log.geometry.frames < 3
        || line >= 64
    {
        return None;
    }
    let place = log.geometry.frame_line(3, line as usize);
    log.append(dev, &record).ok()?;
    dev.store_line(place, value).ok()?;
    dev.flush(place).ok()
}

/// Ends a group.
fn end<D: Devices>(log: &mut Log, dev: &mut D, kind: EndKind) -> Option<()> {
    if log.free_lines() < 1
        || log.tail() >= 0x4000_0000_0000_0000
        || log.geometry.nvm_lines() > dev.nvm_lines()
    {
        return None;
    }
    log.end(dev, kind).ok()
}

/// A world over what a crash leaves after so many events.
fn stopped(world: &MemWorld, alloc: Global, events: u64, choice: Choice) -> Option<MemWorld> {
    if events > world.events() {
        return None;
    }
    let images = world
        .images_at(alloc, events, choice, BlockChoice::Current)
        .ok()?;
    MemWorld::from_images(alloc, &images, b"", b"", &[]).ok()
}

/// A world over the last versions, with these faults.
fn again(world: &MemWorld, alloc: Global, fail: &[Fault]) -> Option<MemWorld> {
    let events = world.events();
    let images = world
        .images_at(alloc, events, Choice::Newest, BlockChoice::Current)
        .ok()?;
    MemWorld::from_images(alloc, &images, b"", b"", fail).ok()
}

/// The first words of lines 0 and 5 of page 3, after a recovery.
fn recovered(dev: &mut MemWorld, alloc: Global) -> Option<(u64, u64)> {
    let parts = recover(alloc, dev).ok()?;
    let first = load(dev, &parts.geometry, 0)?;
    let fifth = load(dev, &parts.geometry, 5)?;
    if parts.log.free_lines() == 64 * parts.geometry.log_blocks as u64 {
        Some((first.words[0], fifth.words[0]))
    } else {
        None
    }
}

/// A store with a committed group of lines 0 and 5 of page 3, and an open one of line 0.
fn with_groups(alloc: Global) -> Option<MemWorld> {
    let mut world = empty(alloc, 1980)?;
    let mut log = recover(alloc, &mut world).ok()?.log;
    write(&mut log, &mut world, 0, &filled(7))?;
    write(&mut log, &mut world, 5, &filled(8))?;
    end(&mut log, &mut world, EndKind::Commit)?;
    write(&mut log, &mut world, 0, &filled(9))?;
    Some(world)
}

/// Why a store is not recovered.
fn refusal(dev: &mut MemWorld, alloc: Global) -> Option<OpenError> {
    recover(alloc, dev).err()
}

#[test]
fn an_empty_store_is_opened(rt: HostRuntime) {
    for geometry in [small(), larger()] {
        let Some(mut world) = zeros(rt.alloc(), &geometry, &[]) else {
            return assert!(rt; false, "no memory");
        };
        assert_eq!(rt; format(&mut world, &geometry), Ok(()));
        let Ok(parts) = recover(rt.alloc(), &mut world) else {
            return assert!(rt; false, "not opened");
        };
        assert_eq!(rt; parts.geometry, geometry);
        assert_eq!(rt; (parts.log.start(), parts.log.tail()), (0, 0));
        assert!(rt; !parts.loose.has(0, 0));
        let place = geometry.frame_line(0, 0);
        let header = if place < world.nvm_lines() {
            world.load(place).ok()
        } else {
            None
        };
        assert_eq!(rt;
            header,
            Some(Line {
                words: [4, 0, 1, 0, 0, 0, 0, 0]
            })
        );
    }
}

#[test]
fn offsets_end(rt: HostRuntime) {
    for (first, why) in [
        (0x2000_0000_0000_0000, None),
        (0x2000_0000_0000_0001, Some(OpenError::LogEnded)),
    ] {
        let Some(mut world) = empty(rt.alloc(), first) else {
            return assert!(rt; false, "no memory");
        };
        assert_eq!(rt; refusal(&mut world, rt.alloc()), why);
    }
}

#[test]
fn small_devices_are_refused(rt: HostRuntime) {
    for (lines, blocks) in [(2705, 46), (2706, 45), (3, 46)] {
        let Ok(mut world) = MemWorld::new(rt.alloc(), lines, blocks, b"", b"", &[]) else {
            return assert!(rt; false, "no memory");
        };
        assert_eq!(rt; format(&mut world, &small()), Err(FormatError::TooSmall));
        assert_eq!(rt; world.events(), 0);
        let why = if lines < 4 {
            OpenError::TooSmall
        } else {
            OpenError::NotAStore
        };
        assert_eq!(rt; refusal(&mut world, rt.alloc()), Some(why));
    }
}

#[test]
fn damage_is_told(rt: HostRuntime) {
    // line, word and value of the superblock, and the check that fails then
    for (line, word, value, check) in [(0, 4, 9, 1), (1, 0, 8, 2), (3, 0, 1992, 3)] {
        let Some(mut world) = empty(rt.alloc(), 7) else {
            return assert!(rt; false, "no memory");
        };
        assert!(rt; store(&mut world, line, word, value));
        let told = match refusal(&mut world, rt.alloc()) {
            Some(OpenError::Damaged(Evidence::Super { check, .. })) => check,
            _ => 0,
        };
        assert_eq!(rt; told, check);
    }
}

#[test]
fn damage_of_the_log_is_told(rt: HostRuntime) {
    // the three words of a head at the end of a log of one commit, how many lines stand with it, and the check that fails
    let heads = [
        ([0, 0, 0], 1, Some(7)),
        ([4, 0, 0], 1, Some(7)),
        ([1, 10, 0], 3, Some(8)),
        ([1, 0, 64], 3, Some(8)),
        ([1, 0, 0], 2, Some(9)),
        ([1, 9, 63], 3, None),
        ([2, 0, 0], 1, None),
        ([3, 0, 0], 1, None),
    ];
    for (words, lines, check) in heads {
        let Some(mut world) = empty(rt.alloc(), 1983) else {
            return assert!(rt; false, "no memory");
        };
        // the ring has 1,984 lines from line 18 on: the commit stands last in it, and the head first
        assert!(rt; store(&mut world, 18 + 1983, 0, 2));
        for word in 0..3 {
            assert!(rt; store(&mut world, 18, word, words[word]));
        }
        assert!(rt; store(&mut world, 3, 0, 1984 + lines));
        let line = Line {
            words: [words[0], words[1], words[2], 0, 0, 0, 0, 0],
        };
        let why = check.map(|check| {
            OpenError::Damaged(Evidence::Log {
                offset: 1984,
                line,
                tail: 1984 + lines,
                check,
            })
        });
        assert!(rt; refusal(&mut world, rt.alloc()) == why);
    }
}

#[test]
fn each_call_of_a_format_may_fail(rt: HostRuntime) {
    for nth in 0..722 {
        let fail = [Fault {
            kind: FaultKind::Nvm,
            nth,
        }];
        let Some(mut world) = zeros(rt.alloc(), &small(), &fail) else {
            return assert!(rt; false, "no memory");
        };
        let made = if nth < 721 {
            Err(FormatError::Nvm)
        } else {
            Ok(())
        };
        assert_eq!(rt; format(&mut world, &small()), made, "at {nth}");
    }
}

#[test]
fn each_call_of_a_recovery_may_fail(rt: HostRuntime) {
    // the superblock, read and made durable; the four heads, checked and read again; a head, a line and a store for each of three
    // records; the lines of ten pages, of which two are tried; the fence; the start
    let calls = 4 + 5 + 4 + 4 + 9 + 640 + 1 + 3;
    let Some(first) = with_groups(rt.alloc()) else {
        return assert!(rt; false, "no memory");
    };
    for nth in 0..calls + 1 {
        if nth < 28 || nth > calls - 6 {
            let fail = [Fault {
                kind: FaultKind::Nvm,
                nth,
            }];
            let Some(mut world) = again(&first, rt.alloc(), &fail) else {
                return assert!(rt; false, "no memory");
            };
            let why = if nth < calls {
                Some(OpenError::Nvm)
            } else {
                None
            };
            assert_eq!(rt; refusal(&mut world, rt.alloc()), why, "at {nth}");
        }
    }
}

/// Writes lines 0 and 5 of page 3 and ends the group, in a store where they were 7 and 8. Answers the world with the number
/// of its events before.
fn rewritten(alloc: Global, kind: EndKind) -> Option<(MemWorld, u64)> {
    let mut world = empty(alloc, 1980)?;
    let mut log = recover(alloc, &mut world).ok()?.log;
    write(&mut log, &mut world, 0, &filled(7))?;
    write(&mut log, &mut world, 5, &filled(8))?;
    end(&mut log, &mut world, EndKind::Commit)?;
    let before = world.events();
    write(&mut log, &mut world, 0, &filled(9))?;
    write(&mut log, &mut world, 5, &filled(10))?;
    end(&mut log, &mut world, kind)?;
    Some((world, before))
}

/// What a recovery gives after a stop.
fn after_stop(world: &MemWorld, alloc: Global, events: u64, choice: Choice) -> Option<(u64, u64)> {
    let mut left = stopped(world, alloc, events, choice)?;
    recovered(&mut left, alloc)
}

/// Whether each choice gives the old lines or the new ones after a stop.
fn gives_either(world: &MemWorld, alloc: Global, events: u64, old: u64, new: u64) -> bool {
    for choice in CHOICES {
        match after_stop(world, alloc, events, choice) {
            Some((first, fifth)) => {
                if fifth != first.wrapping_add(1) || (first != old && first != new) {
                    return false;
                }
            }
            None => return false,
        }
    }
    true
}

#[test]
fn a_commit_is_recovered_whole_or_not_at_all(rt: HostRuntime) {
    let Some((world, before)) = rewritten(rt.alloc(), EndKind::Commit) else {
        return assert!(rt; false, "no memory");
    };
    let last = world.events();
    for events in before..last {
        assert!(rt; gives_either(&world, rt.alloc(), events, 7, 9));
    }
    assert!(rt; gives_either(&world, rt.alloc(), last, 9, 9));
}

#[test]
fn an_abort_leaves_the_old_lines(rt: HostRuntime) {
    let Some((world, before)) = rewritten(rt.alloc(), EndKind::Abort) else {
        return assert!(rt; false, "no memory");
    };
    let last = world.events();
    for events in before..last {
        assert!(rt; gives_either(&world, rt.alloc(), events, 7, 7));
    }
    assert!(rt; gives_either(&world, rt.alloc(), last, 7, 7));
}

/// Whether a recovery gives the committed lines after stops of a world, this many events apart.
fn recovers_from_stops(world: &MemWorld, alloc: Global, apart: u64) -> bool
    requires { 0 < apart }
{
    let last = world.events();
    for events in 0..last {
        if events % apart == 0 && !gives_either(world, alloc, events, 7, 7) {
            return false;
        }
    }
    gives_either(world, alloc, last, 7, 7)
}

/// Whether a recovery that is stopped after so many events is recovered, wherever that is stopped again.
fn recovers_twice(world: &MemWorld, alloc: Global, events: u64) -> bool {
    let Some(mut left) = stopped(world, alloc, events, Choice::Oldest) else {
        return false;
    };
    recovered(&mut left, alloc) == Some((7, 8)) && recovers_from_stops(&left, alloc, 331)
}

#[test]
fn a_recovery_is_recovered(rt: HostRuntime) {
    let first = with_groups(rt.alloc()).and_then(|world| again(&world, rt.alloc(), &[]));
    let Some(mut world) = first else {
        return assert!(rt; false, "no memory");
    };
    assert!(rt; recovered(&mut world, rt.alloc()) == Some((7, 8)));
    assert!(rt; recovers_from_stops(&world, rt.alloc(), 83));
    // the superblock made durable and the three stores are the first eight events
    for events in [3, 5, 6, 8, 21] {
        assert!(rt; recovers_twice(&world, rt.alloc(), events));
    }
}

/// A store whose lines 0 and 5 of page 3 were 7 and 8, over whose end of a commit of 9 and 10 a fault comes: at this one of its
/// calls.
fn with_a_failed_end(alloc: Global, call: u64) -> Option<MemWorld>
    requires { call < 6 }
{
    let mut first = empty(alloc, 1980)?;
    let mut log = recover(alloc, &mut first).ok()?.log;
    write(&mut log, &mut first, 0, &filled(7))?;
    write(&mut log, &mut first, 5, &filled(8))?;
    end(&mut log, &mut first, EndKind::Commit)?;
    // a recovery of two records and an end; two lines written, each with its record
    let before = 4 + 5 + 3 + 3 + 6 + 640 + 1 + 3 + 2 * 13;
    let fail = [Fault {
        kind: FaultKind::Nvm,
        nth: before + call,
    }];
    let mut world = again(&first, alloc, &fail)?;
    let mut log = recover(alloc, &mut world).ok()?.log;
    write(&mut log, &mut world, 0, &filled(9))?;
    write(&mut log, &mut world, 5, &filled(10))?;
    if end(&mut log, &mut world, EndKind::Commit).is_some() {
        return None;
    }
    Some(world)
}

#[test]
fn what_a_recovery_read_stands(rt: HostRuntime) {
    // the line, flushed, and a fence; the tail, flushed, and a fence. From the store of the tail on the new lines are read.
    for call in 0..6 {
        let Some(mut world) = with_a_failed_end(rt.alloc(), call) else {
            return assert!(rt; false, "no memory, or no fault");
        };
        let read = if call < 4 { 7 } else { 9 };
        assert!(rt; recovered(&mut world, rt.alloc()) == Some((read, read + 1)));
        assert!(rt;
            gives_either(&world, rt.alloc(), world.events(), read, read),
            "at {call}"
        );
    }
}
