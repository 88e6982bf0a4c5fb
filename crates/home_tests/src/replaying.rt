//! Lines that go to their homes one after the other, as a recovery writes what its log names.
ghost use Rattle.std.specs.Prelude.{◌≡◌, ℕ, length, OnOk};
ghost use Rattle.devices.specs.State.{State};
ghost use Rattle.device_calls.specs.Leads.{Leads, Given};
ghost use Rattle.nvm_layout.specs.Sizes.{sizes_of};
ghost use Rattle.home_move.specs.Homes.{Aim, Keeps, Homes, over};
ghost use Rattle.home_move.specs.Passing.{FitsStore, IsPassing};
ghost use Rattle.home_tests.specs.Replay.{AreInStore, CanReplayAll, rewritten, known_with};

use devices::Devices;
use home_move::{Passage, write_home};
use line_pages::Stop;
use nvm_layout::Geometry;
use nvm_model::Line;

/// A line that goes to its home: the frame of its page, or none where its block is the home.
#[derive(Clone, Copy, Debug, PartialEq, Eq, Drop)]
pub struct HomeLine {
    /// The frame that keeps the page.
    pub home: Option<u32>,
    /// The page.
    pub page: u64,
    /// The line of the page.
    pub line: usize,
    /// What it gets.
    pub value: Line,
}

/// Writes these lines to their homes, the first of them first, up to the first that stops. The log names each of them in whole.
pub fn write_homes<D: Devices>(
    dev: &mut D,
    geometry: &Geometry,
    passage: &mut Passage,
    lines: &[HomeLine],
) -> Result<(), Stop>
    requires fits { FitsStore (sizes_of geometry.now) (D.standing dev.old) }
    requires places { AreInStore (sizes_of geometry.now) (length lines.now) lines.now }
    requires passing { IsPassing (sizes_of geometry.now) passage.old.page }
    ensures call { Leads Keeps
        (Given (CanReplayAll (sizes_of geometry.now) lines.now)
        (Homes (sizes_of geometry.now) passage.old.page))
        (λ (aim : Aim). Homes (sizes_of geometry.now) passage.new.page
        (over (rewritten lines.now) (known_with lines.now) aim))
        (D.standing dev.old) (D.standing dev.new) result }
    ensures passing { OnOk result (IsPassing (sizes_of geometry.now) passage.new.page) }
{
    for at in 0..lines.len() {
        let next = lines[at];
        write_home(
            dev,
            geometry,
            passage,
            next.home,
            next.page,
            next.line,
            &next.value,
        )?;
    }
    Ok(())
}
