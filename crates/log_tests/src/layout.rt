//! Sizes and places of worked geometries, and each answer of reading a superblock on a world in memory.
use damage::Evidence;
use devices::{Devices, Fault, FaultKind, MemWorld};
use nvm_layout::{Geometry, MAGIC, Super, SuperError, read_super};
use nvm_model::Line;
use std::alloc::Global;

/// The geometry that settings without keys have.
fn defaults() -> Geometry {
    Geometry {
        tables: 4,
        rows: 20_000,
        writes: 32,
        frames: 256,
        log_blocks: 16,
    }
}

/// The geometry of the largest numbers.
fn largest() -> Geometry {
    Geometry {
        tables: 62,
        rows: 1_000_000,
        writes: 1024,
        frames: 65_535,
        log_blocks: 1024,
    }
}

/// One table of two rows, with no frames.
fn small() -> Geometry {
    Geometry {
        tables: 1,
        rows: 2,
        writes: 1,
        frames: 0,
        log_blocks: 2,
    }
}

#[test]
fn magic_word_is_its_bytes(rt: HostRuntime) {
    assert_eq!(rt; MAGIC.to_le_bytes(), *b"SPITFIR1");
}

#[test]
fn sizes_of_the_defaults(rt: HostRuntime) {
    let geometry = defaults();
    assert_eq!(rt; geometry.pages(), 40_033);
    assert_eq!(rt; geometry.nvm_lines(), 17_521);
    assert_eq!(rt; geometry.ring_blocks(), 1028);
    assert_eq!(rt; geometry.ssd_blocks(), 41_061);
    assert_eq!(rt; geometry.frame_line(256, 63), 17_520);
    assert_eq!(rt; geometry.table_word(256), (48, 0));
    assert_eq!(rt; geometry.ring_line(1024), 49);
    assert_eq!(rt; geometry.ring_block(65_792), 0);
    assert_eq!(rt; geometry.page_block(0), 1028);
}

#[test]
fn sizes_of_the_largest(rt: HostRuntime) {
    let geometry = largest();
    assert_eq!(rt; geometry.pages(), 31_000_497);
    assert_eq!(rt; geometry.nvm_lines(), 4_268_048);
    assert_eq!(rt; geometry.ring_blocks(), 32_772);
    assert_eq!(rt; geometry.ssd_blocks(), 31_033_269);
    assert_eq!(rt; geometry.frame_line(65_535, 63), 4_268_047);
}

#[test]
fn sizes_without_frames(rt: HostRuntime) {
    let geometry = small();
    assert_eq!(rt; geometry.pages(), 10);
    assert_eq!(rt; geometry.nvm_lines(), 209);
    assert_eq!(rt; geometry.ssd_blocks(), 46);
    assert_eq!(rt; geometry.table_word(0), (16, 0));
    assert_eq!(rt; geometry.ring_line(128), 17);
    assert_eq!(rt; geometry.frame_line(0, 0), 145);
}

/// Line 0 of the small store, with this magic word and this number of tables.
fn head(name: u64, tables: u64) -> Line {
    Line {
        words: [name, tables, 2, 1, 0, 2, 0, 0],
    }
}

/// The start, `drained` and the tail.
#[derive(Clone, Copy)]
struct Gates {
    start: u64,
    drained: u64,
    tail: u64,
}

/// What a superblock with this head and these gates is read as, on a world of these sizes.
fn answer(
    alloc: Global,
    sizes: (u64, u64),
    head: &Line,
    gates: Gates,
    fail: &[Fault],
) -> Option<Result<Super, SuperError>> {
    let mut world = MemWorld::new(alloc, sizes.0, sizes.1, b"", b"", fail).ok()?;
    if world.nvm_lines() < 4 {
        return Some(read_super(&mut world));
    }
    world.store_line(0, head).ok()?;
    world.store_word(1, 0, gates.start).ok()?;
    world.store_word(2, 0, gates.drained).ok()?;
    world.store_word(3, 0, gates.tail).ok()?;
    Some(read_super(&mut world))
}

/// What the small store is read as with these gates.
fn opened(alloc: Global, start: u64, drained: u64, tail: u64) -> Option<Result<Super, SuperError>> {
    let gates = Gates {
        start,
        drained,
        tail,
    };
    answer(alloc, (209, 46), &head(MAGIC, 1), gates, &[])
}

/// What damage of the small store is told as.
fn damage(
    tables: u64,
    start: u64,
    drained: u64,
    tail: u64,
    check: u8,
) -> Option<Result<Super, SuperError>> {
    let words = [tables, 2, 1, 0, 2, start, drained, tail];
    Some(Err(SuperError::Damaged(Evidence::Super { words, check })))
}

#[test]
fn reads_gates(rt: HostRuntime) {
    let gates = Super {
        geometry: small(),
        start: 70,
        drained: 64,
        tail: 192,
    };
    assert!(rt; opened(rt.alloc(), 70, 64, 192) == Some(Ok(gates)));
    assert!(rt; opened(rt.alloc(), 193, 64, 192) == damage(1, 193, 64, 192, 2));
    assert!(rt; opened(rt.alloc(), 70, 256, 192) == damage(1, 70, 256, 192, 2));
    assert!(rt; opened(rt.alloc(), 70, 65, 192) == damage(1, 70, 65, 192, 2));
    assert!(rt; opened(rt.alloc(), 70, 64, 193) == damage(1, 70, 64, 193, 3));
}

#[test]
fn tests_both_rings(rt: HostRuntime) {
    let gates = Super {
        geometry: small(),
        start: 63,
        drained: 2304,
        tail: 2304,
    };
    assert!(rt; opened(rt.alloc(), 63, 2304, 2304) == Some(Ok(gates)));
    assert!(rt; opened(rt.alloc(), 63, 2368, 2368) == damage(1, 63, 2368, 2368, 4));
    assert!(rt; opened(rt.alloc(), 0, 0, 0x2000_0000_0000_0001) == Some(Err(SuperError::LogEnded)));
    assert!(rt;
        opened(rt.alloc(), 0, 0, 0x2000_0000_0000_0000) == damage(1, 0, 0, 0x2000_0000_0000_0000, 3)
    );
}

#[test]
fn tests_sizes_in_order(rt: HostRuntime) {
    let alloc = rt.alloc();
    let gates = Gates {
        start: 2,
        drained: 0,
        tail: 1,
    };
    let small_answer = Some(Err(SuperError::TooSmall));
    assert!(rt; answer(alloc, (3, 46), &head(MAGIC, 1), gates, &[]) == small_answer);
    assert!(rt;
        answer(alloc, (4, 46), &head(MAGIC + 1, 63), gates, &[]) == Some(Err(SuperError::NotAStore))
    );
    assert!(rt; answer(alloc, (4, 46), &head(MAGIC, 63), gates, &[]) == damage(63, 2, 0, 1, 1));
    assert!(rt; answer(alloc, (208, 46), &head(MAGIC, 1), gates, &[]) == small_answer);
    assert!(rt; answer(alloc, (209, 45), &head(MAGIC, 1), gates, &[]) == small_answer);
}

#[test]
fn each_load_may_fail(rt: HostRuntime) {
    let gates = Gates {
        start: 0,
        drained: 0,
        tail: 0,
    };
    for nth in 4..8 {
        let fail = [Fault {
            kind: FaultKind::Nvm,
            nth,
        }];
        assert!(rt;
            answer(rt.alloc(), (209, 46), &head(MAGIC, 1), gates, &fail)
                == Some(Err(SuperError::Nvm))
        );
    }
}
