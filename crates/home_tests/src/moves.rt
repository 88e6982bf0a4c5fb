//! Installs, releases and installs elsewhere, stopped after each event, with each choice of what a crash leaves.
use crate::worlds::{
    CHOICES, Ended, again, filled, fits, give_up, left, logged, page_of, put, same_lines, small,
    start, store,
};
use devices::{Devices, Fault, FaultKind, MemWorld};
use home_move::{install, release};
use line_pages::{Stop, set_page_line};
use nvm_model::{Choice, Line};
use ssd_model::{BlockChoice, PageBuf};
use std::alloc::Global;
use std::process::Abort;
use std::test::Fail;

/// The line that page 3 gets in its frame.
const CHANGED: Line = Line { words: [77; 8] };

/// Page 3 with that line.
fn changed() -> PageBuf {
    let mut page = filled(3);
    set_page_line(&mut page, 5, &CHANGED);
    page
}

/// From one event to another one page 3 is this page, and page 4 is as it was, whatever a crash leaves.
fn stays(
    rt: &impl Abort,
    alloc: Global,
    world: &MemWorld,
    events: (u64, u64),
    page: &PageBuf,
) -> Result<(), Fail> {
    for at in events.0..=events.1 {
        for words in [Choice::Oldest, Choice::Newest, Choice::Alternating] {
            stays_at(rt, alloc, world, at, words, page)?;
        }
    }
    Ok(())
}

fn stays_at(
    rt: &impl Abort,
    alloc: Global,
    world: &MemWorld,
    at: u64,
    words: Choice,
    page: &PageBuf,
) -> Result<(), Fail> {
    let choices = [
        BlockChoice::Settled,
        BlockChoice::Current,
        BlockChoice::Alternating,
        BlockChoice::Fill(0xA5),
    ];
    for blocks in choices {
        let mut after = left(alloc, world, at, words, blocks)?;
        let third = page_of(&mut after, 3)?;
        let fourth = page_of(&mut after, 4)?;
        assert!(rt; same_lines(&third, page), "page 3 at {at}");
        assert!(rt; same_lines(&fourth, &filled(4)), "page 4 at {at}");
    }
    Ok(())
}

#[test]
fn an_install(rt: HostRuntime) -> Result<(), Fail> {
    let mut world = start(rt.alloc())?;
    put(&mut world, 1, 3, &filled(3))?;
    stays(&rt, rt.alloc(), &world, (0, world.events()), &filled(3))
}

#[test]
fn a_release_without_a_write(rt: HostRuntime) -> Result<(), Fail> {
    let mut world = start(rt.alloc())?;
    put(&mut world, 1, 3, &filled(3))?;
    let from = world.events();
    give_up(&mut world, 1, 3, false)?;
    stays(&rt, rt.alloc(), &world, (from, world.events()), &filled(3))
}

#[test]
fn a_release_with_a_write(rt: HostRuntime) -> Result<(), Fail> {
    let mut world = start(rt.alloc())?;
    put(&mut world, 1, 3, &filled(3))?;
    store(&mut world, 1, 5, &CHANGED)?;
    world.fence()?;
    let from = world.events();
    give_up(&mut world, 1, 3, true)?;
    stays(&rt, rt.alloc(), &world, (from, world.events()), &changed())
}

#[test]
fn an_install_elsewhere(rt: HostRuntime) -> Result<(), Fail> {
    let mut world = start(rt.alloc())?;
    put(&mut world, 1, 3, &filled(3))?;
    store(&mut world, 1, 5, &CHANGED)?;
    world.fence()?;
    give_up(&mut world, 1, 3, true)?;
    let from = world.events();
    put(&mut world, 0, 3, &changed())?;
    stays(&rt, rt.alloc(), &world, (from, world.events()), &changed())
}

/// Page 3 is put into a frame, where the line that the log names has any words, and given up with a write.
fn moved_under_a_log(rt: &impl Abort, alloc: Global, ended: Ended) -> Result<(), Fail> {
    let mut world = logged(alloc, 3, 5, ended)?;
    let recovered = page_of(&mut world, 3)?;
    assert!(rt; !same_lines(&recovered, &filled(3)));
    put(&mut world, 1, 3, &changed())?;
    store(&mut world, 1, 5, &Line { words: [99; 8] })?;
    world.fence()?;
    give_up(&mut world, 1, 3, true)?;
    for at in 0..=world.events() {
        for (words, blocks) in CHOICES {
            let mut after = left(alloc, &world, at, words, blocks)?;
            assert!(rt;
                same_lines(&page_of(&mut after, 3)?, &recovered),
                "page 3 at {at}"
            );
        }
    }
    Ok(())
}

#[test]
fn moves_under_a_committed_record(rt: HostRuntime) -> Result<(), Fail> {
    moved_under_a_log(&rt, rt.alloc(), Ended::Committed)
}

#[test]
fn moves_under_an_open_record(rt: HostRuntime) -> Result<(), Fail> {
    moved_under_a_log(&rt, rt.alloc(), Ended::Open)
}

/// An install, and a release with a write.
fn there_and_back<D: Devices>(dev: &mut D) -> Result<(), Stop> {
    let geometry = small();
    if geometry.frames < 1 || geometry.pages() <= 3 || !fits(dev, &geometry) {
        return Ok(());
    }
    install(dev, &geometry, 1, 3, &filled(3))?;
    release(dev, &geometry, 1, 3, true)
}

/// With a fault the calls stop, and page 3 is as it was.
fn stopped(
    rt: &impl Abort,
    alloc: Global,
    first: &MemWorld,
    fault: Fault,
    why: Stop,
) -> Result<(), Fail> {
    let mut world = again(alloc, first, &[fault])?;
    assert!(rt; there_and_back(&mut world) == Err(why));
    let mut after = left(
        alloc,
        &world,
        world.events(),
        Choice::Alternating,
        BlockChoice::Fill(0xA5),
    )?;
    let third = page_of(&mut after, 3)?;
    assert!(rt; same_lines(&third, &filled(3)));
    Ok(())
}

#[test]
fn each_fault_in_turn(rt: HostRuntime) -> Result<(), Fail> {
    let first = start(rt.alloc())?;
    for nth in 0..199 {
        let fault = Fault {
            kind: FaultKind::Nvm,
            nth,
        };
        stopped(&rt, rt.alloc(), &first, fault, Stop::Nvm)?;
    }
    for nth in 0..2 {
        let fault = Fault {
            kind: FaultKind::Ssd,
            nth,
        };
        stopped(&rt, rt.alloc(), &first, fault, Stop::Ssd)?;
    }
    Ok(())
}
