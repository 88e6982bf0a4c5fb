//! A page comes into a frame, and is given up by it.
ghost use Rattle.std.specs.Prelude.{◌≡◌, ◌<◌, ◌≤◌, ℕ, ◌+◌, true, false};
ghost use Rattle.device_calls.specs.Leads.{Made};
ghost use Rattle.store_model.specs.Layout.{pages, nvm_lines, ssd_blocks};
ghost use Rattle.store_model.specs.Install.{entry_calls, install_calls};
ghost use Rattle.nvm_layout.specs.Sizes.{sizes_of};
ghost use Rattle.home_move.specs.Frames.{page_lines};
ghost use Rattle.home_move.specs.Moves.{Releases, InstallKeeps, ReleaseKeeps, ClearKeeps};

use crate::frames::{fill_frame, read_frame};
use device_calls::{fence, put_block, put_word};
use devices::Devices;
use line_pages::Stop;
use nvm_layout::Geometry;
use ssd_model::PageBuf;

/// Puts the 64 lines of a page into a frame: each is stored and flushed, a fence, and then the entry names the page, durable.
pub fn install<D: Devices>(
    dev: &mut D,
    geometry: &Geometry,
    frame: u32,
    page: u64,
    lines: &PageBuf,
) -> Result<(), Stop>
    requires fits { nvm_lines (sizes_of geometry.now) ≤ (D.standing dev.old).lines }
    requires frame { frame ≤ geometry.now.frames }
    requires page { page < pages (sizes_of geometry.now) }
    ensures made { Made (install_calls (sizes_of geometry.now) frame page (page_lines lines.now))
        (D.standing dev.old) (D.standing dev.new) result }
    ensures keeps { InstallKeeps (sizes_of geometry.now) frame page lines.now
        (D.standing dev.old) (D.standing dev.new) result }
{
    fill_frame(dev, geometry, frame, lines)?;
    fence(dev)?;
    put_entry(dev, geometry, frame, page + 1)
}

/// Gives up the page of a frame: the entry is 0, durable. With `write` the lines of the frame are written to the home block of
/// the page before, and a sync settles it.
pub fn release<D: Devices>(
    dev: &mut D,
    geometry: &Geometry,
    frame: u32,
    page: u64,
    write: bool,
) -> Result<(), Stop>
    requires fits { nvm_lines (sizes_of geometry.now) ≤ (D.standing dev.old).lines }
    requires blocks { ssd_blocks (sizes_of geometry.now) ≤ (D.standing dev.old).blocks }
    requires frame { frame ≤ geometry.now.frames }
    requires page { page < pages (sizes_of geometry.now) }
    ensures releases { Releases (sizes_of geometry.now) frame page write
        (D.standing dev.old) (D.standing dev.new) result }
    ensures keeps { write ≡ true → ReleaseKeeps (sizes_of geometry.now) frame page
        (D.standing dev.old) (D.standing dev.new) result }
    ensures clears { write ≡ false → ClearKeeps (sizes_of geometry.now) frame page
        (D.standing dev.old) (D.standing dev.new) result }
{
    if write {
        release_written(dev, geometry, frame, page)
    } else {
        put_entry(dev, geometry, frame, 0)
    }
}

/// The same with a write.
fn release_written<D: Devices>(
    dev: &mut D,
    geometry: &Geometry,
    frame: u32,
    page: u64,
) -> Result<(), Stop>
    requires fits { nvm_lines (sizes_of geometry.now) ≤ (D.standing dev.old).lines }
    requires blocks { ssd_blocks (sizes_of geometry.now) ≤ (D.standing dev.old).blocks }
    requires frame { frame ≤ geometry.now.frames }
    requires page { page < pages (sizes_of geometry.now) }
    ensures { Releases (sizes_of geometry.now) frame page true
        (D.standing dev.old) (D.standing dev.new) result }
{
    let mut bytes = PageBuf::zero();
    read_frame(dev, geometry, frame, &mut bytes)?;
    put_block(dev, geometry.page_block(page), &bytes)?;
    put_entry(dev, geometry, frame, 0)
}

/// Makes the table entry of a frame this one, durable.
fn put_entry<D: Devices>(
    dev: &mut D,
    geometry: &Geometry,
    frame: u32,
    entry: u64,
) -> Result<(), Stop>
    requires fits { nvm_lines (sizes_of geometry.now) ≤ (D.standing dev.old).lines }
    requires frame { frame ≤ geometry.now.frames }
    ensures { Made (entry_calls frame entry) (D.standing dev.old) (D.standing dev.new) result }
{
    let (line, word) = geometry.table_word(frame);
    put_word(dev, line, word, entry)
}
