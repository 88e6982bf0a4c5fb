//! A mini copy: a line is loaded to it or written in it, and its lines move to a full place.
ghost use Rattle.std.specs.Prelude.{◌≡◌, ℕ, ◌<◌, OnOk, None, IsTrue, false};
ghost use Rattle.page_frame.specs.LineSets.{no_lines};
ghost use Rattle.page_frame.specs.Frames.{is_resident, resident_lines};
ghost use Rattle.mini_page.specs.MiniPages.{mini_at, is_full};
ghost use Rattle.store_model.specs.Layout.{pages};
ghost use Rattle.nvm_layout.specs.Sizes.{sizes_of};
ghost use Rattle.tier_rules.specs.Parts.{copy_at};
ghost use Rattle.tier_pool.specs.Fields.{parts_of, SameSizes};
ghost use Rattle.tier_pool.specs.Touching.{HasFrame, LiesInFrame, LoadedToMini, mini_written, lines_moved, promoted};
ghost use Rattle.tier_pool.specs.Standing.{AreThere};
ghost use Rattle.tier_pool.specs.Storing.{LeadsFacts};
ghost use Rattle.tier_pool.specs.Calls.{Fits, Stores};

use crate::counting::count_one;
use crate::pool::{Spot, TierPool};
use devices::Devices;
use line_pages::Stop;
use nvm_model::Line;
use tier_map::Place;

impl TierPool {
    /// A line is loaded from the page's frame to its mini copy, which has room for it.
    pub fn load_to_mini<D: Devices>(
        &mut self,
        dev: &mut D,
        spot: Spot,
        line: usize,
        mini: u32,
    ) -> Result<(), Stop>
        requires fits { Fits self.old.geometry (D.standing dev.old) }
        requires frame { HasFrame spot.frame self.old.geometry.frames }
        requires mini { mini < self.old.policy.minis }
        requires line { line < 64 }
        requires absent { is_resident (mini_at (parts_of self.old).minis mini).places line ≡ false }
        requires room { is_full (mini_at (parts_of self.old).minis mini) ≡ false }
        ensures call { Stores (D.standing dev.old) (D.standing dev.new) result }
        ensures leads { (page : ℕ)
            → LiesInFrame (sizes_of self.old.geometry) page line spot.frame (parts_of self.old)
            → (parts_of self.old).map.place page ≡ Place.Mini mini → AreThere (parts_of self.old)
            → LeadsFacts self.old self.new (D.standing dev.old) (D.standing dev.new) result }
        ensures parts { OnOk result (LoadedToMini mini line (parts_of self.old) (parts_of self.new)) }
        ensures same { SameSizes self.old self.new }
    {
        let value = self.load_line(dev, spot, line)?;
        self.minis.add(mini, line, &value).unwrap();
        count_one(&mut self.tally.lines);
        Ok(())
    }

    /// A line of a mini copy that is resident has this value and is dirty.
    pub fn write_mini(&mut self, mini: u32, line: usize, value: &Line)
        requires mini { mini < self.old.policy.minis }
        requires line { line < 64 }
        requires resident { IsTrue (is_resident (mini_at (parts_of self.old).minis mini).places line) }
        ensures parts { parts_of self.new ≡ mini_written mini line value.now (parts_of self.old) }
        ensures same { SameSizes self.old self.new }
    {
        self.minis.set(mini, line, value);
    }

    /// Promotion: the page's mini copy becomes a full one in this free place.
    pub fn promote(&mut self, page: u64, mini: u32, full: u32)
        requires page { page < pages (sizes_of self.old.geometry) }
        requires mini { mini < self.old.policy.minis }
        requires full { full < self.old.policy.dram_frames }
        requires here { (parts_of self.old).map.place page ≡ Place.Mini mini }
        requires free { (parts_of self.old).map.full_page full ≡ None }
        requires empty { let parts = parts_of self.old in
            resident_lines (copy_at (Place.Full full) parts.arena parts.minis) ≡ no_lines }
        ensures parts { parts_of self.new ≡ promoted page mini full (parts_of self.old) }
        ensures same { SameSizes self.old self.new }
    {
        self.move_lines(mini, full);
        self.drop_copy(page);
        self.place_full(page, full);
        count_one(&mut self.tally.promotions);
    }

    /// The lines of a mini copy, and which of them are dirty, move to an empty full place.
    fn move_lines(&mut self, mini: u32, full: u32)
        requires mini { mini < self.old.policy.minis }
        requires full { full < self.old.policy.dram_frames }
        requires empty { let parts = parts_of self.old in
            resident_lines (copy_at (Place.Full full) parts.arena parts.minis) ≡ no_lines }
        ensures parts { parts_of self.new ≡ lines_moved mini full (parts_of self.old) }
        ensures same { SameSizes self.old self.new }
    {
        let moved = self.minis.promote_into(mini, &mut self.arena, full);
        self.full_dirty[full as usize] = moved.dirty;
    }
}
