//! The parts of a touch: a line is loaded from a frame, written in a copy, or stored in place.
ghost use Rattle.std.specs.Prelude.{◌≡◌, ℕ, ◌<◌, Some, IsTrue, IfOk, IfSome, OnOk};
ghost use Rattle.devices.specs.State.{line_at};
ghost use Rattle.devices.specs.World.{now};
ghost use Rattle.device_calls.specs.Leads.{Looked};
ghost use Rattle.store_model.specs.Layout.{frame_line};
ghost use Rattle.nvm_layout.specs.Sizes.{sizes_of};
ghost use Rattle.tier_pool.specs.Fields.{parts_of, SameSizes};
ghost use Rattle.tier_pool.specs.Places.{frame_marked};
ghost use Rattle.tier_pool.specs.Touching.{HasFrame, LiesInFrame, LoadedToFull, full_written};
ghost use Rattle.tier_pool.specs.Standing.{AreThere};
ghost use Rattle.tier_pool.specs.Storing.{LeadsFacts, LeadsToLine, LeadsWritten};
ghost use Rattle.tier_pool.specs.Calls.{Fits, Stores};

use crate::counting::count_one;
use crate::pool::{Spot, TierPool};
use device_calls::fence;
use devices::Devices;
use home_move::{load_line, store_line};
use line_pages::Stop;
use nvm_model::Line;
use tier_map::Place;

impl TierPool {
    /// A line of the page's frame.
    pub fn load_line<D: Devices>(&self, dev: &mut D, spot: Spot, line: usize) -> Result<Line, Stop>
        requires fits { Fits self.now.geometry (D.standing dev.old) }
        requires frame { HasFrame spot.frame self.now.geometry.frames }
        requires line { line < 64 }
        ensures call { Stores (D.standing dev.old) (D.standing dev.new) result }
        ensures leads { (page : ℕ)
            → LiesInFrame (sizes_of self.now.geometry) page line spot.frame (parts_of self.now)
            → LeadsToLine page line self.now (D.standing dev.old) (D.standing dev.new) result }
        ensures looked { Looked (D.standing dev.old) (D.standing dev.new) result }
        ensures value { IsTrue (D.standing dev.old).told → IfOk result (λ found.
            let g = sizes_of self.now.geometry in IfSome spot.frame (λ k.
            found ≡ line_at (now (D.standing dev.old)) (frame_line g k line))) }
    {
        load_line(dev, &self.geometry, spot.frame.unwrap(), line)
    }

    /// A line is loaded from the page's frame to its full copy.
    pub fn load_to_full<D: Devices>(
        &mut self,
        dev: &mut D,
        spot: Spot,
        line: usize,
        full: u32,
    ) -> Result<(), Stop>
        requires fits { Fits self.old.geometry (D.standing dev.old) }
        requires frame { HasFrame spot.frame self.old.geometry.frames }
        requires full { full < self.old.policy.dram_frames }
        requires line { line < 64 }
        ensures call { Stores (D.standing dev.old) (D.standing dev.new) result }
        ensures leads { (page : ℕ)
            → LiesInFrame (sizes_of self.old.geometry) page line spot.frame (parts_of self.old)
            → (parts_of self.old).map.place page ≡ Place.Full full → AreThere (parts_of self.old)
            → LeadsFacts self.old self.new (D.standing dev.old) (D.standing dev.new) result }
        ensures parts { OnOk result (LoadedToFull full line (parts_of self.old) (parts_of self.new)) }
        ensures same { SameSizes self.old self.new }
    {
        let value = self.load_line(dev, spot, line)?;
        self.arena.set_line(full, line, &value);
        count_one(&mut self.tally.lines);
        Ok(())
    }

    /// A line of a full copy has this value and is dirty.
    pub fn write_full(&mut self, full: u32, line: usize, value: &Line)
        requires full { full < self.old.policy.dram_frames }
        requires line { line < 64 }
        ensures parts { parts_of self.new ≡ full_written full line value.now (parts_of self.old) }
        ensures same { SameSizes self.old self.new }
    {
        self.arena.set_line(full, line, value);
        self.full_dirty[full as usize] |= 1 << line;
    }

    /// Stores a line in a frame, durable. The frame is dirty.
    pub fn store_in_place<D: Devices>(
        &mut self,
        dev: &mut D,
        frame: u32,
        line: usize,
        value: &Line,
    ) -> Result<(), Stop>
        requires fits { Fits self.old.geometry (D.standing dev.old) }
        requires frame { frame < self.old.geometry.frames }
        requires line { line < 64 }
        ensures call { Stores (D.standing dev.old) (D.standing dev.new) result }
        ensures leads { (page : ℕ)
            → LiesInFrame (sizes_of self.old.geometry) page line (Some frame) (parts_of self.old)
            → LeadsWritten page line value.now self.old self.new
            (D.standing dev.old) (D.standing dev.new) result }
        ensures parts { parts_of self.new ≡ frame_marked frame (parts_of self.old) }
        ensures same { SameSizes self.old self.new }
    {
        self.mark_frame(frame);
        store_line(dev, &self.geometry, frame, line, value)?;
        fence(dev)
    }
}
