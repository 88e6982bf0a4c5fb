//! Lines that go to their homes: pages that pass through the last frame, one block write for the lines of one page.
ghost use Rattle.std.specs.Prelude.{◌≡◌, true, length};
ghost use Rattle.nvm_layout.specs.Sizes.{sizes_of};
ghost use Rattle.home_tests.specs.Replay.{IsInStore, AreInStore};

use crate::replaying::{HomeLine, write_homes};
use crate::worlds::{
    AFTER, CHOICES, Ended, entry, filled, fits, left, logged, page_of, put, same_lines, small,
    start,
};
use devices::{Devices, MemWorld};
use home_move::{Passage, end_passage, write_home};
use line_pages::{page_line, set_page_line};
use nvm_layout::Geometry;
use nvm_model::{Choice, Line};
use ssd_model::{BlockChoice, PageBuf};
use std::alloc::Global;
use std::process::Abort;
use std::test::Fail;

/// Writes a line of a page to its home.
fn write<D: Devices>(
    dev: &mut D,
    passage: &mut Passage,
    home: Option<u32>,
    page: u64,
    line: usize,
    value: &Line,
) -> Result<(), Fail> {
    let geometry = small();
    let low = match home {
        Some(frame) => frame < geometry.frames,
        None => true,
    };
    let passes = match passage.page {
        Some(there) => there < geometry.pages(),
        None => true,
    };
    if !low || !passes || page >= geometry.pages() || line >= 64 || !fits(dev, &geometry) {
        return Err("no such place")?;
    }
    write_home(dev, &geometry, passage, home, page, line, value)?;
    Ok(())
}

fn end<D: Devices>(dev: &mut D, passage: &mut Passage) -> Result<(), Fail> {
    let geometry = small();
    let passes = match passage.page {
        Some(there) => there < geometry.pages(),
        None => true,
    };
    if !passes || !fits(dev, &geometry) {
        return Err("no such place")?;
    }
    end_passage(dev, &geometry, passage)?;
    Ok(())
}

/// Two lines of page 4, one of page 5, and one of page 3, which has a frame.
fn four_lines<D: Devices>(dev: &mut D, passage: &mut Passage) -> Result<(), Fail> {
    write(dev, passage, None, 4, 0, &Line { words: [40; 8] })?;
    write(dev, passage, None, 4, 63, &Line { words: [41; 8] })?;
    write(dev, passage, None, 5, 7, &Line { words: [50; 8] })?;
    write(dev, passage, Some(1), 3, 9, &Line { words: [30; 8] })?;
    Ok(())
}

/// Page 4 with both lines, page 5 and page 3 with one.
fn written(rt: &impl Abort, world: &mut MemWorld) -> Result<(), Fail> {
    let mut fourth = filled(4);
    set_page_line(&mut fourth, 0, &Line { words: [40; 8] });
    set_page_line(&mut fourth, 63, &Line { words: [41; 8] });
    let mut fifth = filled(5);
    set_page_line(&mut fifth, 7, &Line { words: [50; 8] });
    let mut third = filled(3);
    set_page_line(&mut third, 9, &Line { words: [30; 8] });
    assert!(rt; same_lines(&page_of(world, 4)?, &fourth));
    assert!(rt; same_lines(&page_of(world, 5)?, &fifth));
    assert!(rt; same_lines(&page_of(world, 3)?, &third));
    Ok(())
}

#[test]
fn lines_go_to_their_homes(rt: HostRuntime) -> Result<(), Fail> {
    let mut world = start(rt.alloc())?;
    put(&mut world, 1, 3, &filled(3))?;
    let mut passage = Passage { page: None };
    four_lines(&mut world, &mut passage)?;
    assert!(rt; passage == Passage { page: Some(5) });
    assert!(rt; entry(&mut world, &small(), 2)? == 6);
    end(&mut world, &mut passage)?;
    world.fence()?;
    assert!(rt; passage == Passage { page: None } && world.block_reads() == 2);
    let events = world.events();
    let mut after = left(
        rt.alloc(),
        &world,
        events,
        Choice::Oldest,
        BlockChoice::Settled,
    )?;
    assert!(rt; entry(&mut after, &small(), 2)? == 0);
    written(&rt, &mut after)
}

/// Whether a line has a place in the store.
fn is_in_store(geometry: &Geometry, line: &HomeLine) -> bool
    ensures { result ≡ true → IsInStore (sizes_of geometry.now) line.now }
{
    let framed = match line.home {
        Some(frame) => frame < geometry.frames,
        None => true,
    };
    framed && line.page < geometry.pages() && line.line < 64
}

/// Whether each of them has.
fn are_in_store(geometry: &Geometry, lines: &[HomeLine]) -> bool
    ensures { result ≡ true → AreInStore (sizes_of geometry.now) (length lines.now) lines.now }
{
    for at in 0..lines.len() {
        if !is_in_store(geometry, &lines[at]) {
            return false;
        }
    }
    true
}

/// Writes these lines, one after the other.
fn write_all<D: Devices>(
    dev: &mut D,
    passage: &mut Passage,
    lines: &[HomeLine],
) -> Result<(), Fail> {
    let geometry = small();
    let passes = match passage.page {
        Some(there) => there < geometry.pages(),
        None => true,
    };
    if !passes || !are_in_store(&geometry, lines) || !fits(dev, &geometry) {
        return Err("no such place")?;
    }
    write_homes(dev, &geometry, passage, lines)?;
    Ok(())
}

/// The same four lines.
const FOUR: [HomeLine; 4] = [
    HomeLine {
        home: None,
        page: 4,
        line: 0,
        value: Line { words: [40; 8] },
    },
    HomeLine {
        home: None,
        page: 4,
        line: 63,
        value: Line { words: [41; 8] },
    },
    HomeLine {
        home: None,
        page: 5,
        line: 7,
        value: Line { words: [50; 8] },
    },
    HomeLine {
        home: Some(1),
        page: 3,
        line: 9,
        value: Line { words: [30; 8] },
    },
];

#[test]
fn lines_of_a_slice_go_to_their_homes(rt: HostRuntime) -> Result<(), Fail> {
    let mut world = start(rt.alloc())?;
    put(&mut world, 1, 3, &filled(3))?;
    let mut passage = Passage { page: None };
    write_all(&mut world, &mut passage, &FOUR)?;
    assert!(rt; passage == Passage { page: Some(5) });
    end(&mut world, &mut passage)?;
    written(&rt, &mut world)
}

/// Device calls of a page that comes in: its block is read, 64 lines and an entry are stored and flushed, two fences.
const ENTERED: u64 = 133;

/// Of a line that is stored and flushed.
const STORED: u64 = 2;

/// Of a page that leaves: 64 loads, one write and a sync, and an entry.
const LEFT: u64 = 69;

#[test]
fn lines_of_one_page_make_one_write(rt: HostRuntime) -> Result<(), Fail> {
    let mut world = start(rt.alloc())?;
    let mut passage = Passage { page: None };
    let line = Line { words: [40; 8] };
    write(&mut world, &mut passage, None, 4, 0, &line)?;
    assert!(rt; world.events() == ENTERED + STORED);
    for at in 1..5 {
        let before = world.events();
        write(&mut world, &mut passage, None, 4, at, &line)?;
        assert!(rt; world.events().saturating_sub(before) == STORED);
    }
    let before = world.events();
    end(&mut world, &mut passage)?;
    assert!(rt; world.events().saturating_sub(before) == LEFT && world.block_reads() == 1);
    Ok(())
}

/// Ends the passage that an opening finds, by the entry of the last frame.
fn end_left(rt: &impl Abort, world: &mut MemWorld) -> Result<(), Fail> {
    let found = entry(world, &small(), 2)?;
    let mut passage = Passage::left_by(found);
    end(world, &mut passage)?;
    assert!(rt; entry(world, &small(), 2)? == 0);
    Ok(())
}

/// After so many events an opening ends the passage that was left, and each page is as recovery gave it.
fn reopened(
    rt: &impl Abort,
    alloc: Global,
    world: &MemWorld,
    at: u64,
    choice: (Choice, BlockChoice),
    fourth: &PageBuf,
) -> Result<(), Fail> {
    let mut after = left(alloc, world, at, choice.0, choice.1)?;
    assert!(rt;
        same_lines(&page_of(&mut after, 4)?, fourth),
        "page 4 at {at}"
    );
    end_left(rt, &mut after)?;
    assert!(rt;
        same_lines(&page_of(&mut after, 4)?, fourth),
        "page 4 opened at {at}"
    );
    assert!(rt;
        same_lines(&page_of(&mut after, 5)?, &filled(5)),
        "page 5 at {at}"
    );
    Ok(())
}

/// The line that the log names goes to its home in page 4, and a line of page 5 with the words that it has.
fn passed_under_a_log(rt: &impl Abort, alloc: Global, ended: Ended) -> Result<(), Fail> {
    let mut world = logged(alloc, 4, 7, ended)?;
    let fourth = page_of(&mut world, 4)?;
    let mut passage = Passage { page: None };
    write(&mut world, &mut passage, None, 4, 7, &AFTER)?;
    let same = page_line(&filled(5), 1);
    write(&mut world, &mut passage, None, 5, 1, &same)?;
    end(&mut world, &mut passage)?;
    for at in 0..=world.events() {
        for choice in CHOICES {
            reopened(rt, alloc, &world, at, choice, &fourth)?;
        }
    }
    Ok(())
}

#[test]
fn a_passage_under_a_committed_record(rt: HostRuntime) -> Result<(), Fail> {
    passed_under_a_log(&rt, rt.alloc(), Ended::Committed)
}

#[test]
fn a_passage_under_an_open_record(rt: HostRuntime) -> Result<(), Fail> {
    passed_under_a_log(&rt, rt.alloc(), Ended::Open)
}
