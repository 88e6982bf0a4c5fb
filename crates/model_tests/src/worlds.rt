//! Worked examples of worlds in memory, each public call once with ample memory, and a fault of each kind.
ghost use Rattle.std.specs.Prelude.{◌≡◌, IfOk};
ghost use Rattle.devices.specs.MemWorld.{world};

use devices::{Devices, Failed, Fault, FaultKind, Images, MemWorld, World};
use nvm_model::{Choice, Line, NoMemory};
use ssd_model::{BlockChoice, PageBuf};
use std::alloc::Global;

const COUNTING: Line = Line {
    words: [1, 2, 3, 4, 5, 6, 7, 8],
};

/// Two lines, eight blocks, settings and a script.
fn small(alloc: Global, fail: &[Fault]) -> Result<MemWorld, Failed>
    ensures { IfOk result (λ made. ((world made).lines ≡ 2) × ((world made).blocks ≡ 8)) }
{
    match MemWorld::new(alloc, 2, 8, b"set", b"abcdefg", fail) {
        Ok(made) => Ok(made),
        Err(NoMemory) => Err(Failed),
    }
}

/// What these choices leave after so many events.
fn after(
    world: &MemWorld,
    alloc: Global,
    events: u64,
    nvm: Choice,
    ssd: BlockChoice,
) -> Result<Images, Failed> {
    if events > world.events() {
        return Err(Failed);
    }
    match world.images_at(alloc, events, nvm, ssd) {
        Ok(images) => Ok(images),
        Err(NoMemory) => Err(Failed),
    }
}

/// A world over what is left after so many events, with the last versions and the current bytes.
fn resumed(first: &MemWorld, alloc: Global, events: u64) -> Result<MemWorld, Failed>
    ensures { IfOk result
        (λ made. ((world made).lines ≡ (world first.now).lines)
        × ((world made).blocks ≡ (world first.now).blocks)) }
{
    if events > first.events() {
        return Err(Failed);
    }
    let Ok(images) = first.images_at(alloc, events, Choice::Newest, BlockChoice::Current) else {
        return Err(Failed);
    };
    match MemWorld::from_images(alloc, &images, b"", b"", &[]) {
        Ok(made) => Ok(made),
        Err(NoMemory) => Err(Failed),
    }
}

/// The words of the first line that a choice leaves.
fn words(
    world: &MemWorld,
    alloc: Global,
    events: u64,
    nvm: Choice,
) -> Result<Option<Line>, Failed> {
    let images = after(world, alloc, events, nvm, BlockChoice::Current)?;
    Ok(images.nvm.first().copied())
}

/// The first byte of a block that a choice leaves.
fn first_byte(
    world: &MemWorld,
    alloc: Global,
    events: u64,
    ssd: BlockChoice,
    block: u64,
) -> Result<u8, Failed> {
    let images = after(world, alloc, events, Choice::Newest, ssd)?;
    Ok(match images.ssd.get(&block) {
        Some(page) => page.byte(0),
        None => 0,
    })
}

/// A page whose first byte is this one, and else zeros.
fn marked(first: u8) -> PageBuf {
    let mut page = PageBuf::zero();
    page.set_byte(0, first);
    page
}

#[test]
fn holds_zeros_at_first(rt: HostRuntime) -> Result<(), Failed> {
    let mut world = small(rt.alloc(), &[])?;
    assert_eq!(rt; world.nvm_lines(), 2);
    assert_eq!(rt; world.ssd_blocks(), 8);
    assert_eq!(rt; world.load(1)?, Line { words: [0; 8] });
    let mut page = marked(9);
    world.read_block(7, &mut page)?;
    assert_eq!(rt; page.byte(0), 0);
    assert_eq!(rt; world.block_reads(), 1);
    assert_eq!(rt; world.events(), 2);
    Ok(())
}

#[test]
fn leaves_each_version_until_the_fence(rt: HostRuntime) -> Result<(), Failed> {
    let mut world = small(rt.alloc(), &[])?;
    world.store_line(0, &COUNTING)?;
    world.flush(0)?;
    world.fence()?;
    world.store_word(0, 1, 20)?;
    assert_eq!(rt; world.load(0)?.words, [1, 20, 3, 4, 5, 6, 7, 8]);
    let zeros = Line { words: [0; 8] };
    let odd = Line {
        words: [0, 2, 0, 4, 0, 6, 0, 8],
    };
    let last = Line {
        words: [1, 20, 3, 4, 5, 6, 7, 8],
    };
    for (events, nvm, left) in [
        (0, Choice::Newest, zeros),
        (1, Choice::Oldest, zeros),
        (1, Choice::Newest, COUNTING),
        (1, Choice::Alternating, odd),
        (2, Choice::Oldest, zeros),
        (3, Choice::Oldest, COUNTING),
        (4, Choice::Oldest, COUNTING),
        (5, Choice::Newest, last),
    ] {
        assert_eq!(rt;
            words(&world, rt.alloc(), events, nvm)?,
            Some(left),
            "after {events}"
        );
    }
    Ok(())
}

#[test]
fn leaves_what_the_choice_says_until_the_sync(rt: HostRuntime) -> Result<(), Failed> {
    let mut world = small(rt.alloc(), &[])?;
    world.write_block(2, &marked(4))?;
    world.write_block(3, &marked(5))?;
    world.sync()?;
    world.write_block(3, &marked(6))?;
    let mut page = PageBuf::zero();
    world.read_block(3, &mut page)?;
    assert_eq!(rt; page.byte(0), 6);
    for (events, ssd, two, three) in [
        (0, BlockChoice::Fill(0xa5), 0, 0),
        (2, BlockChoice::Settled, 0, 0),
        (2, BlockChoice::Current, 4, 5),
        (2, BlockChoice::Alternating, 0, 5),
        (2, BlockChoice::Fill(0xa5), 0xa5, 0xa5),
        (3, BlockChoice::Fill(0xa5), 4, 5),
        (4, BlockChoice::Settled, 4, 5),
        (5, BlockChoice::Alternating, 4, 6),
    ] {
        assert_eq!(rt;
            first_byte(&world, rt.alloc(), events, ssd, 2)?,
            two,
            "block 2 after {events}"
        );
        assert_eq!(rt;
            first_byte(&world, rt.alloc(), events, ssd, 3)?,
            three,
            "block 3 after {events}"
        );
    }
    Ok(())
}

/// Makes one call of a device or a stream.
fn called(tried: &mut MemWorld, kind: FaultKind) -> Result<(), Failed> {
    if tried.nvm_lines() == 0 {
        return Err(Failed);
    }
    let mut into = [0; 3];
    match kind {
        FaultKind::Nvm => tried.store_word(0, 0, 1),
        FaultKind::Ssd => tried.sync(),
        FaultKind::Settings => tried.read_settings(&mut into).map(|_| ()),
        FaultKind::Source => tried.read(&mut into).map(|_| ()),
        FaultKind::Sink => tried.write(b"x").map(|_| ()),
    }
}

const KINDS: [FaultKind; 5] = [
    FaultKind::Nvm,
    FaultKind::Ssd,
    FaultKind::Settings,
    FaultKind::Source,
    FaultKind::Sink,
];

#[test]
fn fails_the_named_call_alone(rt: HostRuntime) -> Result<(), Failed> {
    for kind in KINDS {
        let mut world = small(rt.alloc(), &[Fault { kind, nth: 1 }])?;
        for (nth, other) in KINDS.iter().enumerate() {
            called(&mut world, *other)?;
            assert_eq!(rt; world.events(), nth as u64 + 1);
        }
        for other in KINDS {
            let done = called(&mut world, other).is_ok();
            assert_eq!(rt; done, other != kind, "{kind:?} {other:?}");
            assert_eq!(rt;
                world.faults(other),
                u64::from(other == kind),
                "{kind:?} {other:?}"
            );
        }
        assert_eq!(rt; world.short(), 0);
    }
    Ok(())
}

#[test]
fn reads_the_script_to_its_end(rt: HostRuntime) -> Result<(), Failed> {
    let mut world = small(rt.alloc(), &[])?;
    let mut into = [0; 4];
    assert_eq!(rt; world.read(&mut into), Ok(4));
    assert_eq!(rt; &into, b"abcd");
    assert_eq!(rt; world.read(&mut into), Ok(3));
    assert_eq!(rt; &into[..3], b"efg".as_slice());
    assert_eq!(rt; world.read(&mut into), Ok(0));
    Ok(())
}

#[test]
fn tells_what_was_sent_by_each_event(rt: HostRuntime) -> Result<(), Failed> {
    let mut world = small(rt.alloc(), &[])?;
    world.write(b"one")?;
    world.fence()?;
    world.write(b"four")?;
    assert_eq!(rt; world.output(), b"onefour".as_slice());
    for (events, sent) in [(0, 0), (1, 3), (2, 3), (3, 7)] {
        assert!(rt; events <= world.events());
        assert_eq!(rt; world.sent_at(events), sent, "after {events}");
    }
    Ok(())
}

#[test]
fn goes_on_from_what_was_left(rt: HostRuntime) -> Result<(), Failed> {
    let mut world = small(rt.alloc(), &[])?;
    world.store_line(0, &COUNTING)?;
    world.write_block(5, &marked(3))?;
    world.write_block(5, &marked(4))?;
    let mut next = resumed(&world, rt.alloc(), 2)?;
    assert_eq!(rt; next.events(), 0);
    assert_eq!(rt; next.load(0)?, COUNTING);
    let mut page = PageBuf::zero();
    next.read_block(5, &mut page)?;
    assert_eq!(rt; page.byte(0), 3);
    assert_eq!(rt;
        words(&next, rt.alloc(), 0, Choice::Oldest)?,
        Some(COUNTING)
    );
    assert_eq!(rt;
        first_byte(&next, rt.alloc(), 0, BlockChoice::Fill(9), 5)?,
        3
    );
    next.write_block(5, &marked(6))?;
    assert_eq!(rt;
        first_byte(&next, rt.alloc(), 3, BlockChoice::Settled, 5)?,
        3
    );
    Ok(())
}

#[test]
fn refuses_more_lines_than_memory(rt: HostRuntime) {
    let made = MemWorld::new(rt.alloc(), u64::MAX, 8, b"", b"", &[]);
    assert!(rt; made.is_err());
}
