//! How the lines of a copy leave it: to the page's frame, or through the pass-through frame to its home block.
ghost use Rattle.std.specs.Prelude.{◌≡◌, ◌<◌, ◌≤◌, ◌+◌, OnOk, slice_set, true};
ghost use Rattle.store_model.specs.Layout.{pages};
ghost use Rattle.nvm_layout.specs.Sizes.{sizes_of};
ghost use Rattle.tier_pool.specs.Fields.{parts_of, SameSizes};
ghost use Rattle.tier_pool.specs.Places.{IsPlace, frame_marked, copy_cleaned, copy_stored, copy_passed};
ghost use Rattle.tier_pool.specs.Calls.{Fits, Stores};
ghost use Rattle.tier_pool.specs.Storing.{StoresLines, StoresBack, LeadsHard};
ghost use Rattle.tier_pool.specs.Handing.{StandsWhole, StandsAt, PassesPage};
ghost use Rattle.tier_pool.specs.Cleaning.{written_by, copy_written};

use crate::copies::has_line;
use crate::counting::count_one;
use crate::pool::TierPool;
use device_calls::fence;
use devices::Devices;
use home_move::{install, release, store_line};
use line_pages::Stop;
use ssd_model::PageBuf;
use tier_map::Place;

impl TierPool {
    /// Stores a line of a copy in its frame, where it is dirty.
    fn store_line_back<D: Devices>(
        &self,
        dev: &mut D,
        place: Place,
        frame: u32,
        line: usize,
    ) -> Result<(), Stop>
        requires fits { Fits self.now.geometry (D.standing dev.old) }
        requires place { IsPlace (parts_of self.now).plan place }
        requires frame { frame < self.now.geometry.frames }
        requires line { line < 64 }
        ensures call { Stores (D.standing dev.old) (D.standing dev.new) result }
        ensures lines { StoresLines (sizes_of self.now.geometry) place frame line (line + 1)
            (parts_of self.now) (D.standing dev.old) (D.standing dev.new) result }
    {
        if !has_line(self.dirty_lines(place), line) {
            return Ok(());
        }
        match self.copy_line(place, line) {
            Some(value) => store_line(dev, &self.geometry, frame, line, &value),
            None => Ok(()),
        }
    }

    /// Stores each dirty line of a copy in its frame.
    fn store_lines_back<D: Devices>(
        &self,
        dev: &mut D,
        place: Place,
        frame: u32,
    ) -> Result<(), Stop>
        requires fits { Fits self.now.geometry (D.standing dev.old) }
        requires place { IsPlace (parts_of self.now).plan place }
        requires frame { frame < self.now.geometry.frames }
        ensures call { Stores (D.standing dev.old) (D.standing dev.new) result }
        ensures lines { StoresLines (sizes_of self.now.geometry) place frame 0 64
            (parts_of self.now) (D.standing dev.old) (D.standing dev.new) result }
    {
        for line in 0..64usize {
            self.store_line_back(dev, place, frame, line)?;
        }
        Ok(())
    }

    /// Storing back: each dirty line of a copy is stored in its frame, durable. The frame is dirty where there was one.
    pub(crate) fn store_back<D: Devices>(
        &mut self,
        dev: &mut D,
        place: Place,
        frame: u32,
    ) -> Result<(), Stop>
        requires fits { Fits self.old.geometry (D.standing dev.old) }
        requires place { IsPlace (parts_of self.old).plan place }
        requires frame { frame < self.old.geometry.frames }
        ensures call { Stores (D.standing dev.old) (D.standing dev.new) result }
        ensures back { StoresBack (sizes_of self.old.geometry) place frame (parts_of self.old)
            (parts_of self.new) (D.standing dev.old) (D.standing dev.new) result }
        ensures parts { OnOk result (parts_of self.new ≡ copy_stored place frame (parts_of self.old)) }
        ensures same { SameSizes self.old self.new }
    {
        if self.dirty_lines(place) == 0 {
            return Ok(());
        }
        self.mark_frame(frame);
        self.store_lines_back(dev, place, frame)?;
        fence(dev)?;
        self.clean_copy(place);
        Ok(())
    }

    /// The frame may differ from the home block of its page.
    pub(crate) fn mark_frame(&mut self, frame: u32)
        requires { frame < self.old.geometry.frames }
        ensures parts { parts_of self.new ≡ frame_marked frame (parts_of self.old) }
        ensures same { SameSizes self.old self.new }
    {
        self.frame_dirty[frame as usize] = true;
    }

    /// Passing through: the page, all of whose lines are in its copy, goes to its home block by the pass-through frame.
    pub(crate) fn pass_through<D: Devices>(
        &mut self,
        dev: &mut D,
        page: u64,
        place: Place,
    ) -> Result<(), Stop>
        requires fits { Fits self.old.geometry (D.standing dev.old) }
        requires place { IsPlace (parts_of self.old).plan place }
        requires page { page < pages (sizes_of self.old.geometry) }
        ensures call { Stores (D.standing dev.old) (D.standing dev.new) result }
        ensures leads { StandsWhole page place (parts_of self.old)
            → LeadsHard self.old self.new (D.standing dev.old) (D.standing dev.new) result }
        ensures parts { OnOk result (parts_of self.new ≡ copy_passed place (parts_of self.old)) }
        ensures same { SameSizes self.old self.new }
    {
        self.write_through(dev, page, place)?;
        count_one(&mut self.tally.passes);
        self.clean_copy(place);
        Ok(())
    }

    /// The page, all of whose lines are in its copy, is installed in the pass-through frame and released from it.
    fn write_through<D: Devices>(&self, dev: &mut D, page: u64, place: Place) -> Result<(), Stop>
        requires fits { Fits self.now.geometry (D.standing dev.old) }
        requires place { IsPlace (parts_of self.now).plan place }
        requires page { page < pages (sizes_of self.now.geometry) }
        ensures call { Stores (D.standing dev.old) (D.standing dev.new) result }
        ensures passes { PassesPage (sizes_of self.now.geometry) page place (parts_of self.now)
            (D.standing dev.old) (D.standing dev.new) result }
    {
        let frame = self.geometry.frames;
        let mut lines = PageBuf::zero();
        self.put_copy(place, &mut lines);
        install(dev, &self.geometry, frame, page, &lines)?;
        release(dev, &self.geometry, frame, page, true)
    }

    /// The page's copy becomes clean, which is counted.
    pub fn write_copy<D: Devices>(
        &mut self,
        dev: &mut D,
        page: u64,
        place: Place,
    ) -> Result<(), Stop>
        requires fits { Fits self.old.geometry (D.standing dev.old) }
        requires place { IsPlace (parts_of self.old).plan place }
        requires page { page < pages (sizes_of self.old.geometry) }
        ensures call { Stores (D.standing dev.old) (D.standing dev.new) result }
        ensures leads { StandsAt page place (parts_of self.old)
            → LeadsHard self.old self.new (D.standing dev.old) (D.standing dev.new) result }
        ensures parts { OnOk result (parts_of self.new ≡ copy_written page place (parts_of self.old)) }
        ensures same { SameSizes self.old self.new }
    {
        self.store_or_pass(dev, page, place)?;
        count_one(&mut self.tally.cleaned);
        Ok(())
    }

    /// The dirty lines of the page's copy are stored back to its frame, or else the page passes through.
    fn store_or_pass<D: Devices>(
        &mut self,
        dev: &mut D,
        page: u64,
        place: Place,
    ) -> Result<(), Stop>
        requires fits { Fits self.old.geometry (D.standing dev.old) }
        requires place { IsPlace (parts_of self.old).plan place }
        requires page { page < pages (sizes_of self.old.geometry) }
        ensures call { Stores (D.standing dev.old) (D.standing dev.new) result }
        ensures leads { StandsAt page place (parts_of self.old)
            → LeadsHard self.old self.new (D.standing dev.old) (D.standing dev.new) result }
        ensures parts { OnOk result (let parts = parts_of self.old in
            parts_of self.new ≡ written_by (parts.map.nvm page) place parts) }
        ensures same { SameSizes self.old self.new }
    {
        match self.frame(page) {
            Some(frame) => self.store_back(dev, place, frame),
            None => self.pass_through(dev, page, place),
        }
    }
}
