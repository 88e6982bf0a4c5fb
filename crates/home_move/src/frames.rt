//! The lines of a frame, and the home block of a page.
ghost use Rattle.std.specs.Prelude.{◌≡◌, ◌<◌, ◌≤◌, ℕ, IsTrue, IfOk, OnOk};
ghost use Rattle.devices.specs.State.{line_at};
ghost use Rattle.devices.specs.World.{Counts, now};
ghost use Rattle.device_calls.specs.Leads.{Made, Looked};
ghost use Rattle.device_calls.specs.Stops.{StopsWith};
ghost use Rattle.line_pages.specs.declared.stop.Stop.TheVariants.{Nvm, Ssd};
ghost use Rattle.store_model.specs.Layout.{pages, nvm_lines, ssd_blocks, frame_line, page_block};
ghost use Rattle.store_model.specs.Install.{store_calls, frame_calls};
ghost use Rattle.nvm_layout.specs.Sizes.{sizes_of};
ghost use Rattle.home_move.specs.Frames.{HoldsFrame, page_lines};
ghost use Rattle.home_move.specs.Moves.{StoreKeeps};

use device_calls::{load, put_line, read_block};
use devices::Devices;
use line_pages::{Stop, page_line, set_page_line, whole_line};
use nvm_layout::Geometry;
use nvm_model::Line;
use ssd_model::PageBuf;

/// A line of a frame.
pub fn load_line<D: Devices>(
    dev: &mut D,
    geometry: &Geometry,
    frame: u32,
    line: usize,
) -> Result<Line, Stop>
    requires fits { nvm_lines (sizes_of geometry.now) ≤ (D.standing dev.old).lines }
    requires frame { frame ≤ geometry.now.frames }
    requires line { line < 64 }
    ensures looked { Looked (D.standing dev.old) (D.standing dev.new) result }
    ensures stops { StopsWith Nvm result }
    ensures reads { (D.standing dev.new).block_reads ≡ (D.standing dev.old).block_reads }
    ensures value { IsTrue (D.standing dev.old).told → IfOk result (λ found.
        found ≡ line_at (now (D.standing dev.old)) (frame_line (sizes_of geometry.now) frame line)) }
{
    load(dev, geometry.frame_line(frame, line))
}

/// Stores a line of a frame and flushes it; the next fence makes it durable.
pub fn store_line<D: Devices>(
    dev: &mut D,
    geometry: &Geometry,
    frame: u32,
    line: usize,
    value: &Line,
) -> Result<(), Stop>
    requires fits { nvm_lines (sizes_of geometry.now) ≤ (D.standing dev.old).lines }
    requires frame { frame ≤ geometry.now.frames }
    requires line { line < 64 }
    ensures made { Made (store_calls (sizes_of geometry.now) frame line value.now)
        (D.standing dev.old) (D.standing dev.new) result }
    ensures keeps { (page : ℕ) → StoreKeeps (sizes_of geometry.now) frame page line value.now
        (D.standing dev.old) (D.standing dev.new) result }
{
    put_line(dev, geometry.frame_line(frame, line), value)
}

/// Loads the 64 lines of a frame. After a `Stop` the buffer holds any bytes.
pub fn read_frame<D: Devices>(
    dev: &mut D,
    geometry: &Geometry,
    frame: u32,
    into: &mut PageBuf,
) -> Result<(), Stop>
    requires fits { nvm_lines (sizes_of geometry.now) ≤ (D.standing dev.old).lines }
    requires frame { frame ≤ geometry.now.frames }
    ensures looked { Looked (D.standing dev.old) (D.standing dev.new) result }
    ensures stops { StopsWith Nvm result }
    ensures reads { (D.standing dev.new).block_reads ≡ (D.standing dev.old).block_reads }
    ensures value { IsTrue (D.standing dev.old).told
        → OnOk result (HoldsFrame (sizes_of geometry.now) frame into.new (now (D.standing dev.old))) }
{
    for line in 0..64usize {
        let found = load_line(dev, geometry, frame, line)?;
        set_page_line(into, line, &whole_line(&found));
    }
    Ok(())
}

/// Reads the home block of a page. After a `Stop` the buffer holds any bytes.
pub fn read_home_block<D: Devices>(
    dev: &mut D,
    geometry: &Geometry,
    page: u64,
    into: &mut PageBuf,
) -> Result<(), Stop>
    requires fits { ssd_blocks (sizes_of geometry.now) ≤ (D.standing dev.old).blocks }
    requires page { page < pages (sizes_of geometry.now) }
    ensures looked { Looked (D.standing dev.old) (D.standing dev.new) result }
    ensures stops { StopsWith Ssd result }
    ensures reads { Counts (D.standing dev.old) (D.standing dev.new) }
    ensures value { IsTrue (D.standing dev.old).told → OnOk result
        (into.new ≡ ((now (D.standing dev.old)).ssd (page_block (sizes_of geometry.now) page)).bytes) }
{
    read_block(dev, geometry.page_block(page), into)
}

/// Stores the 64 lines of a page in a frame and flushes each.
pub(crate) fn fill_frame<D: Devices>(
    dev: &mut D,
    geometry: &Geometry,
    frame: u32,
    lines: &PageBuf,
) -> Result<(), Stop>
    requires fits { nvm_lines (sizes_of geometry.now) ≤ (D.standing dev.old).lines }
    requires frame { frame ≤ geometry.now.frames }
    ensures { Made (frame_calls (sizes_of geometry.now) frame 0 (page_lines lines.now))
        (D.standing dev.old) (D.standing dev.new) result }
{
    for line in 0..64usize {
        store_line(dev, geometry, frame, line, &page_line(lines, line))?;
    }
    Ok(())
}
