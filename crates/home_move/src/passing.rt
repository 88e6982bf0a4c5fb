//! Lines that go to their homes, page by page, those of pages in no frame through the frame behind the others.
ghost use Rattle.std.specs.Prelude.{◌≡◌, ◌≢◌, ◌<◌, ◌≤◌, ℕ, true, Option, Some, None, IfSome, OnOk, IsOk};
ghost use Rattle.devices.specs.State.{State};
ghost use Rattle.devices.specs.World.{Counts};
ghost use Rattle.device_calls.specs.Leads.{Leads, Given};
ghost use Rattle.store_model.specs.Layout.{pages, nvm_lines, ssd_blocks};
ghost use Rattle.nvm_layout.specs.Sizes.{sizes_of};
ghost use Rattle.line_pages.specs.Pairs.{no_pairs};
ghost use Rattle.home_move.specs.Homes.{Aim, KeepsBut, Homes, CanWrite, IsKeptIn, aim_with, only_pair};
ghost use Rattle.home_move.specs.Passing.{FitsStore, IsPassing, ReadsOneAtMost, ReadsWhereItComes};
ghost use Rattle.home_move.specs.Passing.{StoresAlone, passing_behind, WritesBlocks};
ghost use Rattle.home_move.specs.Passing.{leaving, leaving_for};
ghost use Rattle.home_move.specs.Moves.{Releases};

use crate::frames::{read_home_block, store_line};
use crate::moving::{install, release};
use devices::Devices;
use line_pages::Stop;
use nvm_layout::Geometry;
use nvm_model::Line;
use ssd_model::PageBuf;

/// The page in the frame through which pages pass, if one is there.
#[derive(Clone, Copy, Debug, PartialEq, Eq, Drop)]
pub struct Passage {
    /// The number of the page.
    pub page: Option<u64>,
}

impl Passage {
    ghost use Rattle.home_move.specs.Homes.{entry_of};

    /// What an opened store begins with, by the table entry of that frame: the page that was left there, or none.
    pub fn left_by(entry: u64) -> Passage
        ensures page { entry_of result.page ≡ entry }
        ensures within { (count : ℕ) → entry ≤ count → IfSome result.page (λ page. page < count) }
    {
        if entry == 0 {
            return Passage { page: None };
        }
        Passage {
            page: Some(entry - 1),
        }
    }
}

/// Writes a line to the home of its page, which is `home`, a frame that keeps pages, or else its block. A page in no frame comes
/// into the frame through which pages pass, and stays there until a line of another such page is written or the passage is ended.
pub fn write_home<D: Devices>(
    dev: &mut D,
    geometry: &Geometry,
    passage: &mut Passage,
    home: Option<u32>,
    page: u64,
    line: usize,
    value: &Line,
) -> Result<(), Stop>
    requires fits { FitsStore (sizes_of geometry.now) (D.standing dev.old) }
    requires home { IfSome home (λ frame. frame < geometry.now.frames) }
    requires page { page < pages (sizes_of geometry.now) }
    requires line { line < 64 }
    requires passing { IsPassing (sizes_of geometry.now) passage.old.page }
    ensures call { Leads (KeepsBut (only_pair page line))
        (Given (CanWrite (sizes_of geometry.now) page line home value.now)
        (Homes (sizes_of geometry.now) passage.old.page))
        (λ (aim : Aim). Homes (sizes_of geometry.now) passage.new.page
        (aim_with page line value.now aim))
        (D.standing dev.old) (D.standing dev.new) result }
    ensures stores { StoresAlone (sizes_of geometry.now) home page passage.old.page line value.now
        (D.standing dev.old) (D.standing dev.new) result }
    ensures passing { OnOk result (IsPassing (sizes_of geometry.now) passage.new.page) }
    ensures behind { OnOk result (passage.new.page ≡ passing_behind home page passage.old.page) }
    ensures reads { ReadsOneAtMost (D.standing dev.old) (D.standing dev.new) }
    ensures comes { ReadsWhereItComes home page passage.old.page
        (D.standing dev.old) (D.standing dev.new) result }
    ensures writes { WritesBlocks (leaving_for home page passage.old.page)
        (D.standing dev.old) (D.standing dev.new) result }
{
    match home {
        Some(frame) => store_line(dev, geometry, frame, line, value),
        None => {
            pass_page(dev, geometry, passage, page)?;
            store_line(dev, geometry, geometry.frames, line, value)
        }
    }
}

/// Ends a passage: the page in the frame through which pages pass goes to its block, and the frame is empty.
pub fn end_passage<D: Devices>(
    dev: &mut D,
    geometry: &Geometry,
    passage: &mut Passage,
) -> Result<(), Stop>
    requires fits { FitsStore (sizes_of geometry.now) (D.standing dev.old) }
    requires passing { IsPassing (sizes_of geometry.now) passage.old.page }
    ensures call { Leads (KeepsBut no_pairs) (Homes (sizes_of geometry.now) passage.old.page)
        (Homes (sizes_of geometry.now) None) (D.standing dev.old) (D.standing dev.new) result }
    ensures ended { OnOk result (passage.new.page ≡ None) }
    ensures releases { IfSome passage.old.page (λ page.
        Releases (sizes_of geometry.now) geometry.now.frames page true
        (D.standing dev.old) (D.standing dev.new) result) }
    ensures nothing { passage.old.page ≡ None → (dev.new ≡ dev.old) × IsOk result }
    ensures reads { (D.standing dev.new).block_reads ≡ (D.standing dev.old).block_reads }
    ensures writes { WritesBlocks (leaving passage.old.page)
        (D.standing dev.old) (D.standing dev.new) result }
{
    match passage.page {
        Some(page) => {
            leave(dev, geometry, page)?;
            passage.page = None;
            Ok(())
        }
        None => Ok(()),
    }
}

/// Sees to it that a page in no frame that keeps pages is in the one through which pages pass.
fn pass_page<D: Devices>(
    dev: &mut D,
    geometry: &Geometry,
    passage: &mut Passage,
    page: u64,
) -> Result<(), Stop>
    requires fits { FitsStore (sizes_of geometry.now) (D.standing dev.old) }
    requires page { page < pages (sizes_of geometry.now) }
    requires passing { IsPassing (sizes_of geometry.now) passage.old.page }
    ensures call { Leads (KeepsBut no_pairs)
        (Given (IsKeptIn (sizes_of geometry.now) page None)
        (Homes (sizes_of geometry.now) passage.old.page))
        (Homes (sizes_of geometry.now) (Some page))
        (D.standing dev.old) (D.standing dev.new) result }
    ensures page { OnOk result (passage.new.page ≡ Some page) }
    ensures there { passage.old.page ≡ Some page → (dev.new ≡ dev.old) × IsOk result }
    ensures reads { ReadsOneAtMost (D.standing dev.old) (D.standing dev.new) }
    ensures comes { passage.old.page ≢ Some page
        → OnOk result (Counts (D.standing dev.old) (D.standing dev.new)) }
    ensures writes { WritesBlocks (leaving_for None page passage.old.page)
        (D.standing dev.old) (D.standing dev.new) result }
{
    if passage.page == Some(page) {
        return Ok(());
    }
    end_passage(dev, geometry, passage)?;
    enter(dev, geometry, page)?;
    passage.page = Some(page);
    Ok(())
}

/// A page comes from its block into the frame through which pages pass.
fn enter<D: Devices>(dev: &mut D, geometry: &Geometry, page: u64) -> Result<(), Stop>
    requires fits { FitsStore (sizes_of geometry.now) (D.standing dev.old) }
    requires page { page < pages (sizes_of geometry.now) }
    ensures call { Leads (KeepsBut no_pairs)
        (Given (IsKeptIn (sizes_of geometry.now) page None) (Homes (sizes_of geometry.now) None))
        (Homes (sizes_of geometry.now) (Some page))
        (D.standing dev.old) (D.standing dev.new) result }
    ensures reads { Counts (D.standing dev.old) (D.standing dev.new) }
    ensures writes { WritesBlocks 0 (D.standing dev.old) (D.standing dev.new) result }
{
    let mut bytes = PageBuf::zero();
    read_home_block(dev, geometry, page, &mut bytes)?;
    install(dev, geometry, geometry.frames, page, &bytes)
}

/// A page goes from that frame to its block.
fn leave<D: Devices>(dev: &mut D, geometry: &Geometry, page: u64) -> Result<(), Stop>
    requires fits { FitsStore (sizes_of geometry.now) (D.standing dev.old) }
    requires page { page < pages (sizes_of geometry.now) }
    ensures call { Leads (KeepsBut no_pairs) (Homes (sizes_of geometry.now) (Some page))
        (Homes (sizes_of geometry.now) None) (D.standing dev.old) (D.standing dev.new) result }
    ensures releases { Releases (sizes_of geometry.now) geometry.now.frames page true
        (D.standing dev.old) (D.standing dev.new) result }
    ensures reads { (D.standing dev.new).block_reads ≡ (D.standing dev.old).block_reads }
    ensures writes { WritesBlocks 1 (D.standing dev.old) (D.standing dev.new) result }
{
    release(dev, geometry, geometry.frames, page, true)
}
