//! Room in NVM, and what stands there.
ghost use Rattle.std.specs.Prelude.{◌≡◌, ◌<◌, ◌≤◌, IfOk, OnOk, IfSome, Some, None};
ghost use Rattle.store_model.specs.Layout.{pages};
ghost use Rattle.nvm_layout.specs.Sizes.{sizes_of};
ghost use Rattle.clock_sweep.specs.Clock.{lowest_empty, victim};
ghost use Rattle.tier_pool.specs.Fields.{parts_of, SameSizes};
ghost use Rattle.tier_pool.specs.Places.{IsPlace};
ghost use Rattle.tier_pool.specs.NvmRoom.{copy_given_up, frame_left, victim_left, frame_swept, swept_left, frame_room, page_installed};
ghost use Rattle.tier_pool.specs.Calls.{Fits, Stores};
ghost use Rattle.tier_pool.specs.Storing.{LeadsHard};
ghost use Rattle.tier_pool.specs.Handing.{InstallsPage};

use crate::counting::count_one;
use crate::pool::TierPool;
use clock_sweep::Steps;
use devices::Devices;
use home_move::{install, release};
use line_pages::Stop;
use ssd_model::PageBuf;

impl TierPool {
    /// Room in NVM: the lowest empty frame, or else that of a victim, which is released.
    pub(crate) fn room_in_nvm<D: Devices>(&mut self, dev: &mut D) -> Result<u32, Stop>
        requires fits { Fits self.old.geometry (D.standing dev.old) }
        requires some { 1 ≤ self.old.geometry.frames }
        ensures call { Stores (D.standing dev.old) (D.standing dev.new) result }
        ensures leads { LeadsHard self.old self.new (D.standing dev.old) (D.standing dev.new) result }
        ensures room { IfOk result (λ k.
            frame_room (parts_of self.old) ≡ record { place = k; parts = parts_of self.new }) }
        ensures within { IfOk result (λ k. k < self.new.geometry.frames) }
        ensures same { SameSizes self.old self.new }
    {
        match self.nvm_clock.empty() {
            Some(frame) => Ok(frame),
            None => self.evict_frame(dev),
        }
    }

    /// The page of the victim leaves its frame.
    fn evict_frame<D: Devices>(&mut self, dev: &mut D) -> Result<u32, Stop>
        requires fits { Fits self.old.geometry (D.standing dev.old) }
        requires some { 1 ≤ self.old.geometry.frames }
        requires all_stand { lowest_empty self.old.nvm_clock ≡ None }
        ensures call { Stores (D.standing dev.old) (D.standing dev.new) result }
        ensures leads { LeadsHard self.old self.new (D.standing dev.old) (D.standing dev.new) result }
        ensures room { IfOk result (λ k. let parts = parts_of self.old in
            swept_left (frame_swept (victim parts.nvm_clock) parts) ≡ record { place = k; parts = parts_of self.new }) }
        ensures within { IfOk result (λ k. k < self.new.geometry.frames) }
        ensures same { SameSizes self.old self.new }
    {
        let frame = self.sweep_frames();
        self.leave_frame(dev, frame)?;
        Ok(frame)
    }

    /// The victim of the clock of frames.
    fn sweep_frames(&mut self) -> u32
        requires some { 1 ≤ self.old.geometry.frames }
        requires all_stand { lowest_empty self.old.nvm_clock ≡ None }
        ensures swept { let parts = parts_of self.old in
            frame_swept (victim parts.nvm_clock) parts ≡ record { place = result; parts = parts_of self.new } }
        ensures within { result < self.new.geometry.frames }
        ensures same { SameSizes self.old self.new }
    {
        let frame = self.nvm_clock.victim(&mut Steps::new());
        count_one(&mut self.tally.nvm_evictions);
        frame
    }

    /// The page of a frame, if there is one, leaves it, and its copy is dropped.
    fn leave_frame<D: Devices>(&mut self, dev: &mut D, frame: u32) -> Result<(), Stop>
        requires fits { Fits self.old.geometry (D.standing dev.old) }
        requires frame { frame < self.old.geometry.frames }
        ensures call { Stores (D.standing dev.old) (D.standing dev.new) result }
        ensures leads { LeadsHard self.old self.new (D.standing dev.old) (D.standing dev.new) result }
        ensures parts { OnOk result (let parts = parts_of self.old in
            parts_of self.new ≡ victim_left (parts.map.frame_page frame) frame parts) }
        ensures same { SameSizes self.old self.new }
    {
        match self.frame_page(frame) {
            Some(page) => self.release_page(dev, page, frame),
            None => Ok(()),
        }
    }

    /// The page leaves its frame, and its copy is dropped first.
    fn release_page<D: Devices>(&mut self, dev: &mut D, page: u64, frame: u32) -> Result<(), Stop>
        requires fits { Fits self.old.geometry (D.standing dev.old) }
        requires frame { frame < self.old.geometry.frames }
        requires page { page < pages (sizes_of self.old.geometry) }
        requires placed { (parts_of self.old).map.nvm page ≡ Some frame }
        ensures call { Stores (D.standing dev.old) (D.standing dev.new) result }
        ensures leads { LeadsHard self.old self.new (D.standing dev.old) (D.standing dev.new) result }
        ensures parts { OnOk result (
            parts_of self.new ≡ frame_left page frame (copy_given_up page frame (parts_of self.old))) }
        ensures same { SameSizes self.old self.new }
    {
        self.give_up_copy(dev, page, frame)?;
        self.empty_frame(dev, page, frame)
    }

    /// The page's copy, where it has one, is dropped, with its dirty lines stored back to its frame.
    pub(crate) fn give_up_copy<D: Devices>(
        &mut self,
        dev: &mut D,
        page: u64,
        frame: u32,
    ) -> Result<(), Stop>
        requires fits { Fits self.old.geometry (D.standing dev.old) }
        requires frame { frame < self.old.geometry.frames }
        requires page { page < pages (sizes_of self.old.geometry) }
        requires placed { (parts_of self.old).map.nvm page ≡ Some frame }
        ensures call { Stores (D.standing dev.old) (D.standing dev.new) result }
        ensures leads { LeadsHard self.old self.new (D.standing dev.old) (D.standing dev.new) result }
        ensures parts { OnOk result (parts_of self.new ≡ copy_given_up page frame (parts_of self.old)) }
        ensures same { SameSizes self.old self.new }
    {
        let place = self.place(page);
        self.store_back(dev, place, frame)?;
        self.drop_copy(page);
        Ok(())
    }

    /// The page leaves its frame. Its home block is written exactly where the frame is dirty.
    fn empty_frame<D: Devices>(&mut self, dev: &mut D, page: u64, frame: u32) -> Result<(), Stop>
        requires fits { Fits self.old.geometry (D.standing dev.old) }
        requires frame { frame < self.old.geometry.frames }
        requires page { page < pages (sizes_of self.old.geometry) }
        requires placed { (parts_of self.old).map.nvm page ≡ Some frame }
        ensures call { Stores (D.standing dev.old) (D.standing dev.new) result }
        ensures leads { LeadsHard self.old self.new (D.standing dev.old) (D.standing dev.new) result }
        ensures parts { OnOk result (parts_of self.new ≡ frame_left page frame (parts_of self.old)) }
        ensures same { SameSizes self.old self.new }
    {
        let write = self.frame_dirty[frame as usize];
        release(dev, &self.geometry, frame, page, write)?;
        self.map.clear_nvm(page);
        self.frame_dirty[frame as usize] = false;
        Ok(())
    }

    /// The page stands in an empty frame, which is dirty or not.
    fn place_nvm(&mut self, page: u64, frame: u32, dirty: bool)
        requires frame { frame < self.old.geometry.frames }
        requires page { page < pages (sizes_of self.old.geometry) }
        requires homeless { (parts_of self.old).map.nvm page ≡ None }
        requires free { (parts_of self.old).map.frame_page frame ≡ None }
        ensures parts { parts_of self.new ≡ page_installed page frame dirty (parts_of self.old) }
        ensures same { SameSizes self.old self.new }
    {
        self.map.set_nvm(page, frame);
        self.frame_dirty[frame as usize] = dirty;
        self.nvm_clock.insert(frame);
        count_one(&mut self.tally.nvm_installs);
    }

    /// The page is installed in an empty frame, which is dirty or not.
    pub(crate) fn install_page<D: Devices>(
        &mut self,
        dev: &mut D,
        page: u64,
        frame: u32,
        lines: &PageBuf,
        dirty: bool,
    ) -> Result<(), Stop>
        requires fits { Fits self.old.geometry (D.standing dev.old) }
        requires frame { frame < self.old.geometry.frames }
        requires page { page < pages (sizes_of self.old.geometry) }
        requires homeless { (parts_of self.old).map.nvm page ≡ None }
        requires free { (parts_of self.old).map.frame_page frame ≡ None }
        ensures call { Stores (D.standing dev.old) (D.standing dev.new) result }
        ensures installs { InstallsPage (sizes_of self.old.geometry) page frame dirty lines.now
            (parts_of self.old) (D.standing dev.old) (D.standing dev.new) result }
        ensures parts { OnOk result (parts_of self.new ≡ page_installed page frame dirty (parts_of self.old)) }
        ensures same { SameSizes self.old self.new }
    {
        install(dev, &self.geometry, frame, page, lines)?;
        self.place_nvm(page, frame, dirty);
        Ok(())
    }
}
