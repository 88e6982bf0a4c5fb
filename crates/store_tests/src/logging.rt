//! Heads made by hand, each public call on a world in memory, and each fault in turn.
use devices::{Devices, Failed, Fault, FaultKind, MemWorld};
use flat_nvm_layout::{Geometry, Super};
use flat_nvm_log::{EndKind, Head, LineRecord, Log, put_gate, put_line, read_head};
use nvm_model::Line;
use std::alloc::Global;

/// One table of two rows, with each of its ten pages in a frame.
fn small() -> Geometry {
    Geometry {
        tables: 1,
        rows: 2,
        writes: 1,
        frames: 10,
        log_blocks: 31,
    }
}

/// A line with these first words.
fn line(first: u64, second: u64, third: u64) -> Line {
    Line {
        words: [first, second, third, 0, 0, 0, 0, 9],
    }
}

/// The log of the small store that begins and ends here.
fn log_at(at: u64) -> Log {
    let geometry = small();
    let gates = Super {
        geometry,
        start: at,
        drained: 0,
        tail: at,
    };
    Log::open(&geometry, &gates)
}

/// A record of line 5 of page 3.
fn change() -> LineRecord {
    LineRecord {
        page: 3,
        line: 5,
        before: line(10, 11, 12),
        after: line(20, 21, 22),
    }
}

/// A world that the small store fits, with these faults.
fn world(alloc: Global, fail: &[Fault]) -> Option<MemWorld> {
    MemWorld::new(alloc, 2706, 46, b"", b"", fail).ok()
}

/// Puts a record, where there is room.
fn append<D: Devices>(
    log: &mut Log,
    dev: &mut D,
    record: &LineRecord,
) -> Option<Result<(), Failed>> {
    if 3 <= log.free_lines()
        && log.tail() < 0x4000_0000_0000_0000
        && log.geometry.nvm_lines() <= dev.nvm_lines()
    {
        Some(log.append(dev, record))
    } else {
        None
    }
}

/// Puts an end, where there is room.
fn end<D: Devices>(log: &mut Log, dev: &mut D, kind: EndKind) -> Option<Result<(), Failed>> {
    if 1 <= log.free_lines()
        && log.tail() < 0x4000_0000_0000_0000
        && log.geometry.nvm_lines() <= dev.nvm_lines()
    {
        Some(log.end(dev, kind))
    } else {
        None
    }
}

/// Empties a log.
fn empty<D: Devices>(log: &mut Log, dev: &mut D) -> Option<Result<(), Failed>> {
    if log.geometry.nvm_lines() <= dev.nvm_lines() {
        Some(log.move_start(dev))
    } else {
        None
    }
}

/// A line of a log, where it stands.
fn loaded<D: Devices>(log: &Log, dev: &mut D, offset: u64) -> Option<Line> {
    if log.start() <= offset && offset < log.tail() && log.geometry.nvm_lines() <= dev.nvm_lines() {
        log.load_line(dev, offset).ok()
    } else {
        None
    }
}

#[test]
fn reads_heads(rt: HostRuntime) {
    let geometry = small();
    assert_eq!(rt;
        read_head(&geometry, &line(1, 9, 63)),
        Ok(Head::Line { page: 9, line: 63 })
    );
    assert_eq!(rt; read_head(&geometry, &line(1, 10, 0)), Err(8));
    assert_eq!(rt; read_head(&geometry, &line(1, 0, 64)), Err(8));
    assert_eq!(rt;
        read_head(&geometry, &line(2, 99, 99)),
        Ok(Head::End(EndKind::Commit))
    );
    assert_eq!(rt;
        read_head(&geometry, &line(3, 0, 0)),
        Ok(Head::End(EndKind::Abort))
    );
    assert_eq!(rt; read_head(&geometry, &line(0, 0, 0)), Err(7));
    assert_eq!(rt; read_head(&geometry, &line(4, 99, 99)), Err(7));
}

#[test]
fn reads_back_what_was_put(rt: HostRuntime) {
    let Some(mut dev) = world(rt.alloc(), &[]) else {
        return assert!(rt; false, "no memory");
    };
    let mut log = log_at(1982);
    assert_eq!(rt; log.free_lines(), 1984);
    assert_eq!(rt; append(&mut log, &mut dev, &change()), Some(Ok(())));
    assert_eq!(rt; end(&mut log, &mut dev, EndKind::Commit), Some(Ok(())));
    assert_eq!(rt; log.start(), 1982);
    assert_eq!(rt; log.tail(), 1986);
    assert_eq!(rt; log.drained(), 0);
    assert_eq!(rt; log.free_lines(), 1980);
    let head = Line {
        words: [1, 3, 5, 0, 0, 0, 0, 0],
    };
    assert_eq!(rt; loaded(&log, &mut dev, 1982), Some(head));
    assert_eq!(rt; loaded(&log, &mut dev, 1983), Some(change().before));
    assert_eq!(rt; loaded(&log, &mut dev, 1984), Some(change().after));
    let last = loaded(&log, &mut dev, 1985).and_then(|found| read_head(&log.geometry, &found).ok());
    assert_eq!(rt; last, Some(Head::End(EndKind::Commit)));
}

#[test]
fn stands_in_its_ring(rt: HostRuntime) {
    let Some(mut dev) = world(rt.alloc(), &[]) else {
        return assert!(rt; false, "no memory");
    };
    let mut log = log_at(1982);
    assert_eq!(rt; append(&mut log, &mut dev, &change()), Some(Ok(())));
    assert_eq!(rt; end(&mut log, &mut dev, EndKind::Abort), Some(Ok(())));
    // the ring begins at line 18 and has 1,984 lines
    assert_eq!(rt; word(&mut dev, 2000), Some(1));
    assert_eq!(rt; word(&mut dev, 2001), Some(10));
    assert_eq!(rt; word(&mut dev, 18), Some(20));
    assert_eq!(rt; word(&mut dev, 19), Some(3));
    assert_eq!(rt; word(&mut dev, 3), Some(1986));
    assert_eq!(rt; empty(&mut log, &mut dev), Some(Ok(())));
    assert_eq!(rt; log.start(), 1986);
    assert_eq!(rt; log.free_lines(), 1984);
    assert_eq!(rt; word(&mut dev, 1), Some(1986));
}

/// Word 0 of a line.
fn word<D: Devices>(dev: &mut D, line: u64) -> Option<u64> {
    if line < dev.nvm_lines() {
        dev.load(line).ok().map(|found| found.words[0])
    } else {
        None
    }
}

/// Puts a line where there is one.
fn put<D: Devices>(dev: &mut D, place: u64, value: &Line) -> Option<Result<(), Failed>> {
    if place < dev.nvm_lines() {
        Some(put_line(dev, place, value))
    } else {
        None
    }
}

/// Puts a gate where there is a line.
fn put_word<D: Devices>(dev: &mut D, place: u64, value: u64) -> Option<Result<(), Failed>> {
    if place < dev.nvm_lines() {
        Some(put_gate(dev, place, value))
    } else {
        None
    }
}

/// A line of the NVM.
fn line_at<D: Devices>(dev: &mut D, place: u64) -> Option<Line> {
    if place < dev.nvm_lines() {
        dev.load(place).ok()
    } else {
        None
    }
}

#[test]
fn puts_a_line_and_a_gate(rt: HostRuntime) {
    let Some(mut dev) = world(rt.alloc(), &[]) else {
        return assert!(rt; false, "no memory");
    };
    assert_eq!(rt; put(&mut dev, 2705, &line(1, 2, 3)), Some(Ok(())));
    assert_eq!(rt; line_at(&mut dev, 2705), Some(line(1, 2, 3)));
    assert_eq!(rt; put_word(&mut dev, 2705, 7), Some(Ok(())));
    assert_eq!(rt; line_at(&mut dev, 2705), Some(line(7, 2, 3)));
}

#[test]
fn each_call_of_a_put_may_fail(rt: HostRuntime) {
    for nth in 0..2 {
        let fail = [Fault {
            kind: FaultKind::Nvm,
            nth,
        }];
        let Some(mut dev) = world(rt.alloc(), &fail) else {
            return assert!(rt; false, "no memory");
        };
        assert_eq!(rt; put(&mut dev, 0, &line(1, 2, 3)), Some(Err(Failed)));
        assert_eq!(rt; put(&mut dev, 0, &line(1, 2, 3)), Some(Ok(())));
    }
    for nth in 0..3 {
        let fail = [Fault {
            kind: FaultKind::Nvm,
            nth,
        }];
        let Some(mut dev) = world(rt.alloc(), &fail) else {
            return assert!(rt; false, "no memory");
        };
        assert_eq!(rt; put_word(&mut dev, 0, 7), Some(Err(Failed)));
        assert_eq!(rt; put_word(&mut dev, 0, 7), Some(Ok(())));
    }
}

#[test]
fn each_call_of_a_record_may_fail(rt: HostRuntime) {
    for nth in 0..10 {
        let fail = [Fault {
            kind: FaultKind::Nvm,
            nth,
        }];
        let Some(mut dev) = world(rt.alloc(), &fail) else {
            return assert!(rt; false, "no memory");
        };
        let mut log = log_at(0);
        assert_eq!(rt; append(&mut log, &mut dev, &change()), Some(Err(Failed)));
        assert_eq!(rt; log.tail(), 0);
        assert_eq!(rt; append(&mut log, &mut dev, &change()), Some(Ok(())));
    }
}

#[test]
fn each_call_of_an_end_may_fail(rt: HostRuntime) {
    for nth in 0..6 {
        let fail = [Fault {
            kind: FaultKind::Nvm,
            nth,
        }];
        let Some(mut dev) = world(rt.alloc(), &fail) else {
            return assert!(rt; false, "no memory");
        };
        let mut log = log_at(0);
        assert_eq!(rt; end(&mut log, &mut dev, EndKind::Commit), Some(Err(Failed)));
        assert_eq!(rt; log.tail(), 0);
    }
}

#[test]
fn each_call_of_a_new_start_may_fail(rt: HostRuntime) {
    for nth in 4..7 {
        let fail = [Fault {
            kind: FaultKind::Nvm,
            nth: 2 + nth,
        }];
        let Some(mut dev) = world(rt.alloc(), &fail) else {
            return assert!(rt; false, "no memory");
        };
        let mut log = log_at(7);
        assert_eq!(rt; end(&mut log, &mut dev, EndKind::Commit), Some(Ok(())));
        assert_eq!(rt; empty(&mut log, &mut dev), Some(Err(Failed)));
        assert_eq!(rt; log.start(), 7);
    }
}
