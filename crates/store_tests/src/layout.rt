//! Sizes and places of worked geometries, and each answer of reading a superblock on a world in memory.
use damage::Evidence;
use devices::{Devices, Fault, FaultKind, MemWorld};
use flat_nvm_layout::{Geometry, MAGIC, Super, SuperError, read_super};
use nvm_model::Line;
use std::alloc::Global;

/// The geometry that settings without keys have.
fn defaults() -> Geometry {
    Geometry {
        tables: 4,
        rows: 20_000,
        writes: 32,
        frames: 256,
        log_blocks: 16,
    }
}

/// One table of two rows, with each of its ten pages in a frame.
fn small() -> Geometry {
    Geometry {
        tables: 1,
        rows: 2,
        writes: 1,
        frames: 10,
        log_blocks: 31,
    }
}

#[test]
fn magic_word_is_its_bytes(rt: HostRuntime) {
    assert_eq!(rt; MAGIC.to_le_bytes(), *b"SPITFIR1");
}

#[test]
fn sizes_of_the_defaults(rt: HostRuntime) {
    let geometry = defaults();
    assert_eq!(rt; geometry.pages(), 40_033);
    assert_eq!(rt; geometry.nvm_lines(), 17_521);
    assert_eq!(rt; geometry.ring_blocks(), 1028);
    assert_eq!(rt; geometry.ssd_blocks(), 41_061);
    assert_eq!(rt; geometry.frame_line(256, 63), 17_520);
    assert_eq!(rt; geometry.table_word(256), (48, 0));
    assert_eq!(rt; geometry.ring_line(1024), 49);
    assert_eq!(rt; geometry.ring_block(65_792), 0);
    assert_eq!(rt; geometry.page_block(0), 1028);
}

#[test]
fn sizes_of_a_small_store(rt: HostRuntime) {
    let geometry = small();
    assert_eq!(rt; geometry.pages(), 10);
    assert_eq!(rt; geometry.nvm_lines(), 2706);
    assert_eq!(rt; geometry.ssd_blocks(), 46);
}

/// Line 0 of the small store, with these sizes in place of its first and its fourth.
fn head(name: u64, tables: u64, frames: u64) -> Line {
    Line {
        words: [name, tables, 2, 1, frames, 31, 0, 0],
    }
}

/// What a superblock with this head, start and tail is read as, on a world of these sizes.
fn answer(
    alloc: Global,
    lines: u64,
    blocks: u64,
    head: &Line,
    start: u64,
    tail: u64,
    fail: &[Fault],
) -> Option<Result<Super, SuperError>> {
    let mut world = MemWorld::new(alloc, lines, blocks, b"", b"", fail).ok()?;
    if world.nvm_lines() < 4 {
        return Some(read_super(&mut world));
    }
    world.store_line(0, head).ok()?;
    world.store_word(1, 0, start).ok()?;
    world.store_word(3, 0, tail).ok()?;
    Some(read_super(&mut world))
}

/// What the small store is read as with these gates.
fn gates(alloc: Global, start: u64, tail: u64) -> Option<Result<Super, SuperError>> {
    answer(alloc, 2706, 46, &head(MAGIC, 1, 10), start, tail, &[])
}

/// What damage of the small store is told as.
fn damage(tables: u64, start: u64, tail: u64, check: u8) -> Option<Result<Super, SuperError>> {
    let words = [tables, 2, 1, 10, 31, start, 0, tail];
    Some(Err(SuperError::Damaged(Evidence::Super { words, check })))
}

#[test]
fn reads_gates(rt: HostRuntime) {
    let opened = Super {
        geometry: small(),
        start: 5,
        drained: 0,
        tail: 1989,
    };
    assert!(rt; gates(rt.alloc(), 5, 1989) == Some(Ok(opened)));
    assert!(rt; gates(rt.alloc(), 5, 1990) == damage(1, 5, 1990, 3));
    assert!(rt; gates(rt.alloc(), 6, 5) == damage(1, 6, 5, 2));
    assert!(rt; gates(rt.alloc(), 6, 0x2000_0000_0000_0001) == Some(Err(SuperError::LogEnded)));
    assert!(rt;
        gates(rt.alloc(), 6, 0x2000_0000_0000_0000) == damage(1, 6, 0x2000_0000_0000_0000, 3)
    );
}

#[test]
fn tests_sizes_in_order(rt: HostRuntime) {
    let alloc = rt.alloc();
    assert!(rt;
        answer(alloc, 3, 46, &head(MAGIC, 1, 10), 0, 0, &[]) == Some(Err(SuperError::TooSmall))
    );
    assert!(rt;
        answer(alloc, 4, 46, &head(MAGIC + 1, 63, 10), 0, 0, &[])
            == Some(Err(SuperError::NotAStore))
    );
    assert!(rt; answer(alloc, 4, 46, &head(MAGIC, 63, 10), 2, 1, &[]) == damage(63, 2, 1, 1));
    assert!(rt;
        answer(alloc, 2705, 46, &head(MAGIC, 1, 10), 2, 1, &[]) == Some(Err(SuperError::TooSmall))
    );
    assert!(rt;
        answer(alloc, 2706, 45, &head(MAGIC, 1, 10), 2, 1, &[]) == Some(Err(SuperError::TooSmall))
    );
}

#[test]
fn each_page_needs_a_frame(rt: HostRuntime) {
    let words = [1, 2, 1, 9, 31, 0, 0, 0];
    let told = Some(Err(SuperError::Damaged(Evidence::Super { words, check: 1 })));
    assert!(rt; answer(rt.alloc(), 2706, 46, &head(MAGIC, 1, 9), 0, 0, &[]) == told);
}

#[test]
fn each_load_may_fail(rt: HostRuntime) {
    for nth in 3..7 {
        let fail = [Fault {
            kind: FaultKind::Nvm,
            nth,
        }];
        assert!(rt;
            answer(rt.alloc(), 2706, 46, &head(MAGIC, 1, 10), 0, 0, &fail)
                == Some(Err(SuperError::Nvm))
        );
    }
}
