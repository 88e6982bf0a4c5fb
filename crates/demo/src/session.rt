//! The steps of the session.
ghost use Rattle.std.specs.Prelude.{◌≤◌, IfOk};

use crate::ended::Ended;
use devices::MemWorld;
use flat_nvm_layout::Geometry;
use flat_recovery::format;
use nvm_model::Choice;
use spitfire_app::{Words, spitfire};
use ssd_model::BlockChoice;
use std::alloc::Global;
use std::io;
use std::io::Print;

/// The sizes of the session's store: two tables of 20 rows, and 4 writes to a transaction.
const SIZES: Geometry = Geometry {
    tables: 2,
    rows: 20,
    writes: 4,
    frames: 40,
    log_blocks: 128,
};

/// How many bytes of replies the second script gets before its commit is answered: `ok` three times.
const BEFORE_COMMIT: usize = 9;

/// One word of the command line.
fn word(text: &str) -> Words {
    let mut words = Words::new();
    words.push(text);
    words
}

/// Prints each line of a text behind a mark.
fn show(rt: &impl Print, mark: &str, text: &[u8]) -> io::Result<()> {
    for line in text.split(|byte| *byte == b'\n') {
        if let Ok(line) = std::str::from_utf8(line) {
            if !line.is_empty() {
                println!(rt; "  {mark} {line}")?;
            }
        }
    }
    Ok(())
}

/// A world that holds a new store.
pub fn made(rt: &impl Print, alloc: Global) -> Result<MemWorld, Ended> {
    let (lines, blocks) = (SIZES.nvm_lines(), SIZES.ssd_blocks());
    let mut world = MemWorld::new(alloc, lines, blocks, b"", b"", &[])?;
    format(&mut world, &SIZES)?;
    println!(rt;
        "  {} tables of {} rows: NVM {lines} lines of 64 bytes, disk {blocks} blocks of 4,096",
        SIZES.tables, SIZES.rows
    )?;
    Ok(world)
}

/// A world of what the devices hold after so many events, by this choice of versions, with this script.
pub fn reopened(
    alloc: Global,
    world: &MemWorld,
    events: u64,
    choice: Choice,
    script: &str,
) -> Result<MemWorld, Ended>
    requires { events ≤ world.now.events }
{
    let images = world.images_at(alloc, events, choice, BlockChoice::Settled)?;
    Ok(MemWorld::from_images(alloc, &images, b"", script.as_bytes(), &[])?)
}

/// Answers the script of a world, and prints both.
pub fn answer(
    rt: &impl Print,
    alloc: Global,
    world: &mut MemWorld,
    script: &str,
) -> Result<(), Ended> {
    let status = spitfire(alloc, &word("run"), world);
    show(rt, "<", script.as_bytes())?;
    show(rt, ">", world.output())?;
    println!(rt; "  status {status}")?;
    if status == 0 {
        Ok(())
    } else {
        Err(Ended::Status(status))
    }
}

/// The least number of events after which at least so many bytes were sent, or all events.
fn events_until(world: &MemWorld, bytes: usize) -> u64
    ensures { result ≤ world.now.events }
{
    let mut low = 0;
    let mut high = world.events();
    while low < high {
        let middle = low + (high - low) / 2;
        if world.sent_at(middle) < bytes {
            low = middle + 1;
        } else {
            high = middle;
        }
    }
    high
}

/// Picks an event in the middle of the second script's commit, and says what had been sent by then.
pub fn cut_short(rt: &impl Print, world: &MemWorld) -> Result<u64, Ended>
    ensures { IfOk result (λ at. at ≤ world.now.events) }
{
    let from = events_until(world, BEFORE_COMMIT);
    let to = events_until(world, BEFORE_COMMIT + 1);
    let at = if from < to {
        from + (to - from) / 2
    } else {
        to
    };
    println!(rt;
        "The same run, stopped after {at} of its {} events, in the middle of the commit",
        world.events()
    )?;
    println!(rt;
        "  {} of {} bytes of replies were sent",
        world.sent_at(at),
        world.output().len()
    )?;
    Ok(at)
}
