//! An empty store.
ghost use Rattle.std.specs.Prelude.{◌≡◌, ◌≤◌, ◌↔◌, Err};
ghost use Rattle.devices.specs.World.{Goes, MakesAll, NvmCause};
ghost use Rattle.flat_nvm_layout.specs.Sizes.{sizes_of};
ghost use Rattle.flat_store_meaning.specs.Layout.{nvm_lines};
ghost use Rattle.flat_recovery.specs.Calls.{number_line, sizes_line, ends_puts, super_puts, pages_puts, prepare_calls, format_calls};
ghost use Rattle.flat_recovery.specs.Empty.{catalog_line, MakesEmpty};
ghost use Rattle.flat_recovery.specs.Causes.{FormatCause, IsTooSmall};

use crate::errors::FormatError;
use crate::storing::flush_lines;
use devices::{Devices, Failed};
use flat_nvm_layout::{Geometry, MAGIC};
use flat_nvm_log::{put_gate, put_line};
use nvm_model::Line;

/// Makes an empty store, whose log begins at the offset 0. `TooSmall` comes, with nothing written, exactly where a device is
/// smaller than the geometry needs; `Nvm` where that count of faults rose. The store can be opened where each page has a
/// frame and the ring takes the longest transaction (`read_super`).
pub fn format<D: Devices>(dev: &mut D, geometry: &Geometry) -> Result<(), FormatError>
    // What stays, whatever is answered, and why it fails.
    ensures goes { Goes (D.standing dev.old) (D.standing dev.new) }
    ensures small { (result ≡ Err FormatError.TooSmall) ↔ IsTooSmall (sizes_of geometry.now)
        (D.standing dev.old) }
    ensures cause { FormatCause (D.standing dev.old) (D.standing dev.new) result }

    // The store at each moment, and at the end.
    ensures formats { MakesEmpty (sizes_of geometry.now) 0 (D.standing dev.old)
        (D.standing dev.new) result }
{
    format_at(dev, geometry, 0)
}

/// Makes an empty store, whose log begins at an offset: the magic word away, durable; the sizes, the gates and an empty
/// catalog, and every line of the frames, durable; the magic word, durable. A crash within it leaves what was there, no
/// store, or the empty store. Nothing else of the pages changes. `first` counts lines of the log; a store whose log begins above
/// 2^61 is made and then answered `LogEnded` when it is opened. Its answers are those of `format`.
pub fn format_at<D: Devices>(
    dev: &mut D,
    geometry: &Geometry,
    first: u64,
) -> Result<(), FormatError>
    // What stays, whatever is answered, and why it fails.
    ensures goes { Goes (D.standing dev.old) (D.standing dev.new) }
    ensures small { (result ≡ Err FormatError.TooSmall) ↔ IsTooSmall (sizes_of geometry.now)
        (D.standing dev.old) }
    ensures cause { FormatCause (D.standing dev.old) (D.standing dev.new) result }

    // The store at each moment, and at the end.
    ensures formats { MakesEmpty (sizes_of geometry.now) first (D.standing dev.old)
        (D.standing dev.new) result }
{
    if dev.nvm_lines() < geometry.nvm_lines() || dev.ssd_blocks() < geometry.ssd_blocks() {
        return Err(FormatError::TooSmall);
    }
    match make_empty(dev, geometry, first) {
        Ok(()) => Ok(()),
        Err(_) => Err(FormatError::Nvm),
    }
}

/// Takes the magic word away, puts what an empty store has, and sets the magic word.
fn make_empty<D: Devices>(dev: &mut D, geometry: &Geometry, first: u64) -> Result<(), Failed>
    requires { nvm_lines (sizes_of geometry.now) ≤ (D.standing dev.old).lines }
    ensures goes { Goes (D.standing dev.old) (D.standing dev.new) }
    ensures makes { MakesAll (format_calls (sizes_of geometry.now) first) (D.standing dev.old)
        (D.standing dev.new) result }
    ensures cause { NvmCause (D.standing dev.old) (D.standing dev.new) result }
{
    put_gate(dev, 0, 0)?;
    prepare(dev, geometry, first)?;
    put_gate(dev, 0, MAGIC)
}

/// Makes all that an empty store has durable, but for its magic word.
fn prepare<D: Devices>(dev: &mut D, geometry: &Geometry, first: u64) -> Result<(), Failed>
    requires { nvm_lines (sizes_of geometry.now) ≤ (D.standing dev.old).lines }
    ensures goes { Goes (D.standing dev.old) (D.standing dev.new) }
    ensures makes { MakesAll (prepare_calls (sizes_of geometry.now) first) (D.standing dev.old)
        (D.standing dev.new) result }
    ensures cause { NvmCause (D.standing dev.old) (D.standing dev.new) result }
{
    put_pages(dev, geometry)?;
    put_super(dev, geometry, first)?;
    dev.fence()
}

/// Flushes all that stands in the frames, and puts an empty catalog.
fn put_pages<D: Devices>(dev: &mut D, geometry: &Geometry) -> Result<(), Failed>
    requires { nvm_lines (sizes_of geometry.now) ≤ (D.standing dev.old).lines }
    ensures goes { Goes (D.standing dev.old) (D.standing dev.new) }
    ensures makes { MakesAll (pages_puts (sizes_of geometry.now)) (D.standing dev.old)
        (D.standing dev.new) result }
    ensures cause { NvmCause (D.standing dev.old) (D.standing dev.new) result }
{
    let page = geometry.frame_line(0, 0);
    flush_lines(dev, page, 64 * (geometry.frames as u64 + 1))?;
    put_line(dev, page, &catalog())
}

/// Puts the sizes, with no magic word, and the gates.
fn put_super<D: Devices>(dev: &mut D, geometry: &Geometry, first: u64) -> Result<(), Failed>
    requires { 4 ≤ (D.standing dev.old).lines }
    ensures goes { Goes (D.standing dev.old) (D.standing dev.new) }
    ensures makes { MakesAll (super_puts (sizes_of geometry.now) first) (D.standing dev.old)
        (D.standing dev.new) result }
    ensures cause { NvmCause (D.standing dev.old) (D.standing dev.new) result }
{
    put_line(dev, 0, &sizes(geometry))?;
    put_ends(dev, first)
}

/// Puts the gates of an empty log.
fn put_ends<D: Devices>(dev: &mut D, first: u64) -> Result<(), Failed>
    requires { 4 ≤ (D.standing dev.old).lines }
    ensures goes { Goes (D.standing dev.old) (D.standing dev.new) }
    ensures makes { MakesAll (ends_puts first) (D.standing dev.old) (D.standing dev.new) result }
    ensures cause { NvmCause (D.standing dev.old) (D.standing dev.new) result }
{
    put_line(dev, 1, &number(first))?;
    put_line(dev, 2, &number(0))?;
    put_line(dev, 3, &number(first))
}

/// Line 0 with these sizes and no magic word.
fn sizes(geometry: &Geometry) -> Line
    ensures { result ≡ sizes_line (sizes_of geometry.now) }
{
    Line {
        words: [
            0,
            geometry.tables as u64,
            geometry.rows,
            geometry.writes as u64,
            geometry.frames as u64,
            geometry.log_blocks as u64,
            0,
            0,
        ],
    }
}

/// A line of one number.
fn number(value: u64) -> Line
    ensures { result ≡ number_line value }
{
    Line {
        words: [value, 0, 0, 0, 0, 0, 0, 0],
    }
}

/// Line 0 of page 0 in an empty store: a catalog of no table, the high water 1, no free page.
fn catalog() -> Line
    ensures { result ≡ catalog_line }
{
    Line {
        words: [4, 0, 1, 0, 0, 0, 0, 0],
    }
}
