//! Worked examples of the top call over a world in memory.
ghost use Rattle.std.specs.Prelude.{◌≡◌};

use devices::{Devices, Fault, FaultKind, MemWorld};
use flat_nvm_layout::Geometry;
use flat_recovery::format_at;
use nvm_model::Choice;
use spitfire_app::{Words, spitfire};
use ssd_model::BlockChoice;
use std::alloc::Global;
use std::process::Abort;
use std::test::Fail;

/// How many lines of NVM and how many blocks the program's stores need.
const LINES: u64 = 82033;

const BLOCKS: u64 = 1261;

const SCRIPT: &[u8] = b"begin\ncreate a\nput a 7 x\ncommit\nget a 7\n";

const REPLIES: &[u8] = b"ok\nok\nok\ncommitted 1\nvalue x\n";

/// One word of the command line.
fn word(text: &str) -> Words {
    let mut words = Words::new();
    words.push(text);
    words
}

/// A store of one table of a few rows.
fn small() -> Geometry
    ensures { result.frames ≡ 10 }
{
    Geometry {
        tables: 1,
        rows: 3,
        writes: 2,
        frames: 10,
        log_blocks: 61,
    }
}

/// A world that holds an empty store of one table, whose log begins at this offset, with this script.
fn formatted(alloc: Global, script: &[u8], first: u64, fail: &[Fault]) -> Result<MemWorld, Fail> {
    let geometry = small();
    let lines = geometry.nvm_lines();
    let blocks = geometry.ssd_blocks();
    let mut world = MemWorld::new(alloc, lines, blocks, b"", script, fail)?;
    match format_at(&mut world, &geometry, first) {
        Ok(()) => Ok(world),
        Err(_) => Err("no store was made")?,
    }
}

/// The world that the devices hold when all is settled, with this script.
fn reopened(alloc: Global, world: &MemWorld, script: &[u8]) -> Result<MemWorld, Fail> {
    let images = world.images_at(alloc, world.events(), Choice::Newest, BlockChoice::Current)?;
    Ok(MemWorld::from_images(alloc, &images, b"", script, &[])?)
}

/// A store that holds a table of one row, after the run that put it there, with this script.
fn filled(rt: &impl Abort, alloc: Global, script: &[u8]) -> Result<MemWorld, Fail> {
    let mut world = formatted(alloc, SCRIPT, 0, &[])?;
    assert_eq!(rt; spitfire(alloc, &word("run"), &mut world), 0);
    assert_eq!(rt; world.output(), REPLIES);
    reopened(alloc, &world, script)
}

/// The same, of which the log is empty.
fn settled(rt: &impl Abort, alloc: Global, script: &[u8]) -> Result<MemWorld, Fail> {
    let mut world = filled(rt, alloc, b"")?;
    assert_eq!(rt; spitfire(alloc, &word("run"), &mut world), 0);
    assert_eq!(rt; world.output(), b"".as_slice());
    reopened(alloc, &world, script)
}

#[test]
fn both_words_on_one_world(rt: HostRuntime) -> Result<(), Fail> {
    let alloc = rt.alloc();
    let mut world = MemWorld::new(alloc, LINES, BLOCKS, b"", SCRIPT, &[])?;
    assert_eq!(rt; spitfire(alloc, &word("format"), &mut world), 0);
    assert_eq!(rt; spitfire(alloc, &word("run"), &mut world), 0);
    assert_eq!(rt;
        world.output(),
        b"formatted\nok\nok\nok\ncommitted 1\nvalue x\n".as_slice()
    );
    Ok(())
}

#[test]
fn other_words_are_refused(rt: HostRuntime) -> Result<(), Fail> {
    let alloc = rt.alloc();
    let mut world = MemWorld::new(alloc, 4, 0, b"", b"", &[])?;
    for text in [
        "frobnicate",
        "",
        "run ",
        "Run",
        "load",
        "--help",
        "formatformatformatformatformatformat",
    ] {
        assert_eq!(rt; spitfire(alloc, &word(text), &mut world), 1, "{text}");
    }
    for (first, second) in [("run", "--Trace"), ("load", "0")] {
        let mut two = word(first);
        two.push(second);
        assert_eq!(rt; spitfire(alloc, &two, &mut world), 1, "{first} {second}");
    }
    assert_eq!(rt; spitfire(alloc, &Words::new(), &mut world), 1);
    assert_eq!(rt; world.events(), 0);
    Ok(())
}

#[test]
fn small_and_empty_devices(rt: HostRuntime) -> Result<(), Fail> {
    let alloc = rt.alloc();
    for (lines, blocks, format, run) in [
        (LINES - 1, BLOCKS, 4, 3),
        (LINES, BLOCKS - 1, 4, 3),
        (3, BLOCKS, 4, 4),
        (4, 0, 4, 3),
    ] {
        let mut world = MemWorld::new(alloc, lines, blocks, b"", SCRIPT, &[])?;
        assert_eq!(rt; spitfire(alloc, &word("format"), &mut world), format);
        assert_eq!(rt; spitfire(alloc, &word("run"), &mut world), run);
        assert_eq!(rt; world.output(), b"".as_slice());
    }
    Ok(())
}

#[test]
fn the_end_of_the_offsets(rt: HostRuntime) -> Result<(), Fail> {
    let alloc = rt.alloc();
    let last: u64 = 1 << 61;
    let mut world = formatted(alloc, SCRIPT, last, &[])?;
    assert_eq!(rt; spitfire(alloc, &word("run"), &mut world), 0);
    assert_eq!(rt; world.output(), REPLIES);
    let mut behind = formatted(alloc, SCRIPT, last + 1, &[])?;
    assert_eq!(rt; spitfire(alloc, &word("run"), &mut behind), 13);
    assert_eq!(rt; behind.output(), b"".as_slice());
    Ok(())
}

#[test]
fn a_further_run_has_what_was_committed(rt: HostRuntime) -> Result<(), Fail> {
    let script = b"get a 7\nbegin\ndel a 7\n";
    let mut world = filled(&rt, rt.alloc(), script)?;
    assert_eq!(rt; spitfire(rt.alloc(), &word("run"), &mut world), 0);
    assert_eq!(rt; world.output(), b"value x\nok\nok\n".as_slice());
    let mut again = reopened(rt.alloc(), &world, b"get a 7\n")?;
    assert_eq!(rt; spitfire(rt.alloc(), &word("run"), &mut again), 0);
    assert_eq!(rt; again.output(), b"value x\n".as_slice());
    Ok(())
}

/// Changes one word of the NVM.
fn change(world: &mut MemWorld, line: u64, word: usize, value: u64) -> Result<(), Fail> {
    if line >= world.nvm_lines() || word >= 8 {
        return Err("no such word")?;
    }
    match world.store_word(line, word, value) {
        Ok(()) => Ok(()),
        Err(_) => Err("a store failed")?,
    }
}

#[test]
fn damage_of_the_superblock(rt: HostRuntime) -> Result<(), Fail> {
    let mut world = settled(&rt, rt.alloc(), b"get a 7\n")?;
    change(&mut world, 0, 1, 63)?;
    assert_eq!(rt; spitfire(rt.alloc(), &word("run"), &mut world), 5);
    assert!(rt;
        world
            .output()
            .starts_with(b"! super check 1\n! 000000000000003f 0000000000000003 ")
    );
    Ok(())
}

#[test]
fn damage_of_the_log(rt: HostRuntime) -> Result<(), Fail> {
    let mut world = filled(&rt, rt.alloc(), b"get a 7\n")?;
    // the kind of the head at offset 0; the words behind the kind, the page and the line are zeros
    change(&mut world, small().ring_line(0), 0, 9)?;
    assert_eq!(rt; spitfire(rt.alloc(), &word("run"), &mut world), 5);
    let output = world.output();
    assert_eq!(rt; output.len(), 16 + 2 + 128 + 1);
    assert!(rt; output.starts_with(b"! log 0 check 7\n! 0900000000000000"));
    assert!(rt;
        output.ends_with(
            b"00000000000000000000000000000000000000000000000000000000000000000000000000000000\n"
        )
    );
    Ok(())
}

#[test]
fn damage_of_a_page(rt: HostRuntime) -> Result<(), Fail> {
    let mut world = settled(&rt, rt.alloc(), b"get a 7\n")?;
    change(&mut world, small().frame_line(1, 0), 2, 7)?;
    assert_eq!(rt; spitfire(rt.alloc(), &word("run"), &mut world), 5);
    let output = world.output();
    assert!(rt;
        output.starts_with(
            b"! page 1 level 0 low 0 high 18446744073709551615 check 12\n! 0100000000000000"
        )
    );
    let mut ends = 0_usize;
    for byte in output {
        if *byte == b'\n' && ends < 1000 {
            ends += 1;
        }
    }
    assert_eq!(rt; ends, 65);
    Ok(())
}

#[test]
fn faults_have_their_statuses(rt: HostRuntime) -> Result<(), Fail> {
    let alloc = rt.alloc();
    let first = |kind| Fault { kind, nth: 0 };
    let mut nvm = MemWorld::new(alloc, LINES, BLOCKS, b"", b"", &[first(FaultKind::Nvm)])?;
    assert_eq!(rt; spitfire(alloc, &word("format"), &mut nvm), 6);
    assert_eq!(rt; nvm.faults(FaultKind::Nvm), 1);
    let mut sink = MemWorld::new(alloc, LINES, BLOCKS, b"", b"", &[first(FaultKind::Sink)])?;
    assert_eq!(rt; spitfire(alloc, &word("format"), &mut sink), 9);
    for (kind, status) in [(FaultKind::Source, 8), (FaultKind::Sink, 9)] {
        let mut world = formatted(alloc, SCRIPT, 0, &[first(kind)])?;
        assert_eq!(rt; spitfire(alloc, &word("run"), &mut world), status);
        assert_eq!(rt; world.output(), b"".as_slice());
    }
    Ok(())
}

#[test]
fn a_reply_that_cannot_be_sent(rt: HostRuntime) -> Result<(), Fail> {
    let alloc = rt.alloc();
    // the reply to the commit
    let fault = Fault {
        kind: FaultKind::Sink,
        nth: 3,
    };
    let mut world = formatted(alloc, SCRIPT, 0, &[fault])?;
    assert_eq!(rt; spitfire(alloc, &word("run"), &mut world), 9);
    assert_eq!(rt; world.output(), b"ok\nok\nok\n".as_slice());
    let mut again = reopened(alloc, &world, b"get a 7\n")?;
    assert_eq!(rt; spitfire(alloc, &word("run"), &mut again), 0);
    assert_eq!(rt; again.output(), b"value x\n".as_slice());
    Ok(())
}
