//! The last record of those that stand up to an offset of the log.
ghost use Rattle.std.specs.Prelude.{◌≡◌, ◌≤◌, ◌<◌, ◌-◌};
ghost use Rattle.devices.specs.World.{Goes, Stays};
ghost use Rattle.store_model.specs.Layout.{nvm_lines, ssd_blocks};
ghost use Rattle.nvm_layout.specs.Sizes.{sizes_of};

use damage::Evidence;
use devices::Devices;
use line_pages::Stop;
use log_drain::read_log_line;
use nvm_layout::Geometry;
use nvm_log::{Head, Log, read_head};
use nvm_model::Line;

/// How many lines a record has: its head, the line before and the line after.
const RECORD_LINES: u64 = 3;

/// The line of a page that a record names.
#[derive(Clone, Copy, Debug, PartialEq, Eq)]
struct PageLine {
    /// The number of the page.
    page: u64,
    /// The line of the page, from 0 to 63.
    line: u8,
}

/// What stood in the line that a record of the log names, before the change that it records.
#[derive(Clone, Copy, Debug, PartialEq, Eq)]
pub struct BeforeImage {
    /// The offset of the record's head: the records before it stand up to here.
    pub head: u64,
    /// The number of the page.
    pub page: u64,
    /// The line of the page, from 0 to 63.
    pub line: u8,
    /// What stood there.
    pub value: Line,
}

ghost use Rattle.log_records.specs.Back.{IsPlace, FindsPlace, BackCause, ReadsBack};

/// Reads a line as the head of a record. `Err` is the number of the first check that the line fails: 7 its kind is not that
/// of a record; 8 its page is none of the store's, or its line not below 64.
fn record_place(geometry: &Geometry, head: &Line) -> Result<PageLine, u8>
    ensures { IsPlace (sizes_of geometry.now) head.now result }
{
    match read_head(geometry, head) {
        Ok(Head::Line { page, line }) => Ok(PageLine { page, line }),
        Ok(Head::End(_)) => Err(7),
        Err(check) => Err(check),
    }
}

/// The line that the record with this head names.
fn read_place<D: Devices>(log: &Log, dev: &mut D, head: u64) -> Result<PageLine, Stop>
    requires above { log.now.start ≤ head }
    requires below { head < log.now.tail }
    requires fits { nvm_lines (sizes_of log.now.geometry) ≤ (D.standing dev.old).lines }
    requires blocks { ssd_blocks (sizes_of log.now.geometry) ≤ (D.standing dev.old).blocks }
    ensures finds { FindsPlace log.now head (D.standing dev.old) (D.standing dev.new) result }
    ensures cause { BackCause log.now head (D.standing dev.old) (D.standing dev.new) result }
    ensures goes { Goes (D.standing dev.old) (D.standing dev.new) }
    ensures stays { Stays (D.standing dev.old) (D.standing dev.new) }
{
    let line = read_log_line(log, dev, head)?;
    match record_place(&log.geometry, &line) {
        Ok(place) => Ok(place),
        Err(check) => Err(Stop::Damaged(Evidence::Log {
            offset: head,
            line,
            tail: log.tail,
            check,
        })),
    }
}

/// Reads back the last of the records that stand from `first` up to `end`, the offset of a head or the end of the log: the line that
/// it names, and what stood there before. `None` where there is none.
///
/// `Nvm` and `Ssd` where that count rose. `Damaged` with the line of the log where the record's head was to stand, which fails
/// check 7, its kind is not 1, or 8, its page or its line is none of the store's.
pub fn read_last<D: Devices>(
    log: &Log,
    dev: &mut D,
    first: u64,
    end: u64,
) -> Result<Option<BeforeImage>, Stop>
    requires above { log.now.start ≤ first }
    requires order { first ≤ end }
    requires below { end ≤ log.now.tail }
    requires fits { nvm_lines (sizes_of log.now.geometry) ≤ (D.standing dev.old).lines }
    requires blocks { ssd_blocks (sizes_of log.now.geometry) ≤ (D.standing dev.old).blocks }

    // What is found.
    ensures back { ReadsBack log.now first end (D.standing dev.old) (D.standing dev.new) result }

    // Why it stops.
    ensures cause { BackCause log.now (end - 3) (D.standing dev.old) (D.standing dev.new) result }

    // What stays, however far it gets.
    ensures goes { Goes (D.standing dev.old) (D.standing dev.new) }
    ensures stays { Stays (D.standing dev.old) (D.standing dev.new) }
{
    if end - first < RECORD_LINES {
        return Ok(None);
    }
    let head = end - RECORD_LINES;
    let place = read_place(log, dev, head)?;
    let value = read_log_line(log, dev, head + 1)?;
    Ok(Some(BeforeImage {
        head,
        page: place.page,
        line: place.line,
        value,
    }))
}
