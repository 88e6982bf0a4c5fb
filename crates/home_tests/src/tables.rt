//! Frame tables that pass their checks, and that fail them.
use crate::worlds::{again, fits, small, start};
use damage::Evidence;
use devices::{Devices, Fault, FaultKind};
use home_move::read_table;
use line_pages::{LineSet, Stop};
use nvm_model::Line;
use std::alloc::Global;
use std::test::Fail;

/// What a table with these entries is read as.
fn answer(alloc: Global, entries: [u64; 3], fail: &[Fault]) -> Result<Result<(), Stop>, Fail> {
    let first = start(alloc)?;
    let mut world = again(alloc, &first, fail)?;
    let [first, second, last] = entries;
    let line = Line {
        words: [first, second, last, 0, 0, 0, 0, 0],
    };
    if world.nvm_lines() <= 16 {
        return Err("no line 16")?;
    }
    world.store_line(16, &line)?;
    read(alloc, &mut world)
}

fn read<D: Devices>(alloc: Global, dev: &mut D) -> Result<Result<(), Stop>, Fail> {
    let geometry = small();
    let mut entries = [0; 3];
    let mut seen = LineSet::new(alloc, geometry.pages())?;
    if !fits(dev, &geometry) {
        return Err("the store is larger")?;
    }
    Ok(read_table(dev, &geometry, &mut entries, &mut seen))
}

/// Evidence of two entries.
fn evidence(first: u32, second: u32, word: u64, check: u8) -> Result<(), Stop> {
    Err(Stop::Damaged(Evidence::Frames {
        first,
        second,
        word,
        check,
    }))
}

#[test]
fn a_table_that_passes(rt: HostRuntime) -> Result<(), Fail> {
    assert!(rt; answer(rt.alloc(), [10, 0, 0], &[])? == Ok(()));
    assert!(rt; answer(rt.alloc(), [1, 2, 10], &[])? == Ok(()));
    Ok(())
}

#[test]
fn an_entry_above_the_number_of_pages(rt: HostRuntime) -> Result<(), Fail> {
    assert!(rt; answer(rt.alloc(), [4, 11, 4], &[])? == evidence(1, 1, 11, 5));
    assert!(rt; answer(rt.alloc(), [0, 0, u64::MAX], &[])? == evidence(2, 2, u64::MAX, 5));
    Ok(())
}

#[test]
fn two_equal_entries(rt: HostRuntime) -> Result<(), Fail> {
    assert!(rt; answer(rt.alloc(), [4, 4, 0], &[])? == evidence(0, 1, 4, 6));
    assert!(rt; answer(rt.alloc(), [9, 4, 9], &[])? == evidence(0, 2, 9, 6));
    Ok(())
}

#[test]
fn each_load_may_fail(rt: HostRuntime) -> Result<(), Fail> {
    for nth in 1..4 {
        let fail = [Fault {
            kind: FaultKind::Nvm,
            nth,
        }];
        assert!(rt; answer(rt.alloc(), [4, 4, 0], &fail)? == Err(Stop::Nvm));
    }
    Ok(())
}
