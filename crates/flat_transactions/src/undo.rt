//! Taking back the lines of the open group.
//!
//! The before images of its records are put back in their places, from the last record to the first, and then the end of an
//! abort is put last in the log. So at each moment recovery gives the lines that were committed before: it takes back the
//! same lines again.
ghost use Rattle.std.specs.Prelude.{◌≡◌, ◌≤◌, ◌<◌, ◌^◌, ℕ, ◌+◌, ◌-◌, ◌*◌, ◌/◌, IsTrue, IfOk, IfErr, OnOk};
ghost use Rattle.devices.specs.State.{current};
ghost use Rattle.devices.specs.World.{Goes, Stays, MakesAll, now};
ghost use Rattle.flat_store_meaning.specs.Layout.{pages, nvm_lines, ring_line, frame_line};
ghost use Rattle.flat_store_meaning.specs.Recovered.{log_line};
ghost use Rattle.flat_store_meaning.specs.Put.{append_calls};
ghost use Rattle.flat_store_meaning.specs.Append.{abort_lines};
ghost use Rattle.flat_store_meaning.specs.InPlace.{store_calls};
ghost use Rattle.flat_nvm_layout.specs.Sizes.{sizes_of};

use damage::Evidence;
use devices::{Devices, Failed};
use flat_nvm_layout::Geometry;
use flat_nvm_log::{EndKind, Head, Log, put_line, read_head};
use line_pages::Stop;
use nvm_model::Line;

/// A line of a page.
#[derive(Clone, Copy, Debug, PartialEq, Eq)]
struct PageLine {
    /// The number of the page.
    page: u64,
    /// The line of the page, from 0 to 63.
    line: u8,
}

ghost use Rattle.flat_nvm_log.specs.Moved.{IsMoved};
ghost use Rattle.flat_transactions.specs.Closing.{Aborts};
ghost use Rattle.flat_transactions.specs.TakenBack.{IsPlace, AbortCause, IsNvm, FindsPlace, TakesLine, SameLog, TakesBack};

/// Reads a line as the head of a record. `Err` is the number of the first check that the line fails: 7 its kind is not that
/// of a record; 8 its page is none of the store's, or its line not below 64.
fn read_place(geometry: &Geometry, head: &Line) -> Result<PageLine, u8>
    ensures { IsPlace (sizes_of geometry.now) head.now result }
{
    match read_head(geometry, head) {
        Ok(Head::Line { page, line }) => Ok(PageLine { page, line }),
        Ok(Head::End(_)) => Err(7),
        Err(check) => Err(check),
    }
}

/// The line of the log at an offset.
fn load<D: Devices>(log: &Log, dev: &mut D, offset: u64) -> Result<Line, Stop>
    requires above { log.now.start ≤ offset }
    requires below { offset < log.now.tail }
    requires fits { nvm_lines (sizes_of log.now.geometry) ≤ (D.standing dev.old).lines }
    ensures value { IsTrue (D.standing dev.old).told
        → IfOk result
        (λ found. found ≡ log_line (sizes_of log.now.geometry) log.now.start
        (current (now (D.standing dev.old))) offset) }
    ensures stops { IfErr result IsNvm }
    ensures cause { AbortCause (sizes_of log.now.geometry) log.now.start log.now.tail
        (D.standing dev.old) (D.standing dev.new) result }
    ensures goes { Goes (D.standing dev.old) (D.standing dev.new) }
    ensures stays { Stays (D.standing dev.old) (D.standing dev.new) }
{
    match log.load_line(dev, offset) {
        Ok(line) => Ok(line),
        Err(Failed) => Err(Stop::Nvm),
    }
}

/// The line that the record at an offset of the log names.
fn load_place<D: Devices>(log: &Log, dev: &mut D, offset: u64) -> Result<PageLine, Stop>
    requires above { log.now.start ≤ offset }
    requires below { offset < log.now.tail }
    requires fits { nvm_lines (sizes_of log.now.geometry) ≤ (D.standing dev.old).lines }
    ensures place { IsTrue (D.standing dev.old).told
        → FindsPlace (sizes_of log.now.geometry) log.now.start offset (D.standing dev.old) result }
    ensures within { IfOk result
        (λ place. (place.page < pages (sizes_of log.now.geometry)) × (place.line < 64)) }
    ensures cause { AbortCause (sizes_of log.now.geometry) log.now.start log.now.tail
        (D.standing dev.old) (D.standing dev.new) result }
    ensures goes { Goes (D.standing dev.old) (D.standing dev.new) }
    ensures stays { Stays (D.standing dev.old) (D.standing dev.new) }
{
    let head = load(log, dev, offset)?;
    match read_place(&log.geometry, &head) {
        Ok(place) => Ok(place),
        Err(check) => Err(Stop::Damaged(Evidence::Log {
            offset,
            line: head,
            tail: log.tail,
            check,
        })),
    }
}

/// Puts a line of a page back in its frame, and flushes it.
fn put_back<D: Devices>(log: &Log, dev: &mut D, place: PageLine, before: &Line) -> Result<(), Stop>
    requires page { place.page < pages (sizes_of log.now.geometry) }
    requires line { place.line < 64 }
    requires framed { pages (sizes_of log.now.geometry) ≤ log.now.geometry.frames }
    requires fits { nvm_lines (sizes_of log.now.geometry) ≤ (D.standing dev.old).lines }
    ensures makes { MakesAll
        (store_calls (sizes_of log.now.geometry) place.page place.line before.now)
        (D.standing dev.old) (D.standing dev.new) result }
    ensures apart { (offset : ℕ)
        → ring_line (sizes_of log.now.geometry) offset
        < frame_line (sizes_of log.now.geometry) place.page place.line }
    ensures stops { IfErr result IsNvm }
    ensures cause { AbortCause (sizes_of log.now.geometry) log.now.start log.now.tail
        (D.standing dev.old) (D.standing dev.new) result }
    ensures goes { Goes (D.standing dev.old) (D.standing dev.new) }
{
    let line = log
        .geometry
        .frame_line(place.page as u32, place.line as usize);
    match put_line(dev, line, before) {
        Ok(()) => Ok(()),
        Err(Failed) => Err(Stop::Nvm),
    }
}

/// Takes back the line of the record at an offset: its before image is put back in its place.
fn take_back_line<D: Devices>(log: &Log, dev: &mut D, offset: u64) -> Result<(), Stop>
    requires above { log.now.start ≤ offset }
    requires within { offset + 3 ≤ log.now.tail }
    requires below { log.now.tail < 2 ^ 62 }
    requires framed { pages (sizes_of log.now.geometry) ≤ log.now.geometry.frames }
    requires fits { nvm_lines (sizes_of log.now.geometry) ≤ (D.standing dev.old).lines }
    ensures takes { IsTrue (D.standing dev.old).told
        → TakesLine (sizes_of log.now.geometry) log.now.start offset (D.standing dev.old)
        (D.standing dev.new) result }
    ensures cause { AbortCause (sizes_of log.now.geometry) log.now.start log.now.tail
        (D.standing dev.old) (D.standing dev.new) result }
    ensures goes { Goes (D.standing dev.old) (D.standing dev.new) }
{
    let place = load_place(log, dev, offset)?;
    let before = load(log, dev, offset + 1)?;
    put_back(log, dev, place, &before)
}

/// Takes back the lines of the records from an offset on, from the last record to the first.
fn take_back<D: Devices>(log: &Log, dev: &mut D, first: u64) -> Result<(), Stop>
    requires begins { log.now.start ≤ first }
    requires within { first ≤ log.now.tail }
    requires below { log.now.tail < 2 ^ 62 }
    requires framed { pages (sizes_of log.now.geometry) ≤ log.now.geometry.frames }
    requires fits { nvm_lines (sizes_of log.now.geometry) ≤ (D.standing dev.old).lines }
    ensures takes { IsTrue (D.standing dev.old).told
        → TakesBack (sizes_of log.now.geometry) log.now.start log.now.tail first
        ((log.now.tail - first) / 3) 0 (D.standing dev.old) (D.standing dev.new) result }
    ensures log { IsTrue (D.standing dev.old).told
        → OnOk result
        (SameLog (sizes_of log.now.geometry) log.now.start (D.standing dev.old)
        (D.standing dev.new)) }
    ensures cause { AbortCause (sizes_of log.now.geometry) log.now.start log.now.tail
        (D.standing dev.old) (D.standing dev.new) result }
    ensures goes { Goes (D.standing dev.old) (D.standing dev.new) }
{
    let records = (log.tail - first) / 3;
    for taken in 0..records {
        take_back_line(log, dev, first + 3 * (records - 1 - taken))?;
    }
    Ok(())
}

/// Puts the end of an abort last in the log.
fn end_abort<D: Devices>(log: &mut Log, dev: &mut D) -> Result<(), Stop>
    requires room { log.old.tail + 1 ≤ log.old.start + 64 * log.old.geometry.log_blocks }
    requires below { log.old.tail < 2 ^ 62 }
    requires fits { nvm_lines (sizes_of log.old.geometry) ≤ (D.standing dev.old).lines }
    ensures moved { IsMoved log.old log.new 1 result }
    ensures makes { MakesAll (append_calls (sizes_of log.old.geometry) log.old.tail abort_lines)
        (D.standing dev.old) (D.standing dev.new) result }
    ensures stops { IfErr result IsNvm }
    ensures cause { AbortCause (sizes_of log.old.geometry) log.old.start log.old.tail
        (D.standing dev.old) (D.standing dev.new) result }
    ensures goes { Goes (D.standing dev.old) (D.standing dev.new) }
{
    match log.end(dev, EndKind::Abort) {
        Ok(()) => Ok(()),
        Err(Failed) => Err(Stop::Nvm),
    }
}

/// Takes back the group that is open from an offset on, and ends it as an abort. `Damaged` carries a line of the log that
/// fails check 7 or 8 where the head of a record was to stand; it never comes where the facts of an open store hold.
pub(crate) fn undo<D: Devices>(log: &mut Log, dev: &mut D, first: u64) -> Result<(), Stop>
    requires begins { log.old.start ≤ first }
    requires within { first ≤ log.old.tail }
    requires room { log.old.tail + 1 ≤ log.old.start + 64 * log.old.geometry.log_blocks }
    requires below { log.old.tail < 2 ^ 62 }
    requires framed { pages (sizes_of log.old.geometry) ≤ log.old.geometry.frames }
    requires fits { nvm_lines (sizes_of log.old.geometry) ≤ (D.standing dev.old).lines }

    // What it does to the log in memory, and to an open store.
    ensures moved { IsMoved log.old log.new 1 result }
    ensures aborts { IsTrue (D.standing dev.old).told
        → Aborts (sizes_of log.old.geometry) log.old.start log.old.tail first (D.standing dev.old)
        (D.standing dev.new) result }

    // Why it stops.
    ensures cause { AbortCause (sizes_of log.old.geometry) log.old.start log.old.tail
        (D.standing dev.old) (D.standing dev.new) result }

    // What stays, however far it gets.
    ensures goes { Goes (D.standing dev.old) (D.standing dev.new) }
{
    take_back(log, dev, first)?;
    end_abort(log, dev)
}
