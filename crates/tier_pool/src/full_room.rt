//! Room for a full copy, and what becomes of the page that has to leave.
ghost use Rattle.std.specs.Prelude.{◌≡◌, ◌≢◌, ◌<◌, ◌≤◌, IfOk, OnOk, Some, None, true};
ghost use Rattle.store_model.specs.Layout.{pages};
ghost use Rattle.nvm_layout.specs.Sizes.{sizes_of};
ghost use Rattle.clock_sweep.specs.Clock.{lowest_empty, victim};
ghost use Rattle.tier_rules.specs.Sound.{Clocked};
ghost use Rattle.tier_pool.specs.Fields.{parts_of, SameSizes};
ghost use Rattle.tier_pool.specs.FullRoom.{drawn, drawn_if, admitted, moved_down, moved_by, handed_down, full_dirty_at, full_left, full_swept, full_swept_left, full_room};
ghost use Rattle.tier_pool.specs.NvmRoom.{page_installed};
ghost use Rattle.tier_pool.specs.Places.{copy_cleaned};
ghost use Rattle.tier_pool.specs.Calls.{Fits, Stores};
ghost use Rattle.tier_pool.specs.Storing.{LeadsHard};
ghost use Rattle.tier_pool.specs.Handing.{StandsWhole, StandsAt, AreWhole};

use crate::counting::count_one;
use crate::pool::TierPool;
use clock_sweep::Steps;
use devices::Devices;
use line_pages::Stop;
use migration_policy::Question;
use ssd_model::PageBuf;
use tier_map::Place;

impl TierPool {
    /// Room for a full copy: the lowest empty place, or else that of a victim, which is evicted.
    pub fn room_in_full<D: Devices>(&mut self, dev: &mut D) -> Result<u32, Stop>
        requires fits { Fits self.old.geometry (D.standing dev.old) }
        requires clocked { Clocked self.old.nvm_clock (parts_of self.old).map.frame_page }
        ensures call { Stores (D.standing dev.old) (D.standing dev.new) result }
        ensures leads { AreWhole (parts_of self.old)
            → LeadsHard self.old self.new (D.standing dev.old) (D.standing dev.new) result }
        ensures room { IfOk result (λ i.
            full_room (parts_of self.old) ≡ record { place = i; parts = parts_of self.new }) }
        ensures within { IfOk result (λ i. i < self.new.policy.dram_frames) }
        ensures same { SameSizes self.old self.new }
    {
        match self.full_clock.empty() {
            Some(full) => Ok(full),
            None => self.evict_full(dev),
        }
    }

    /// The victim's copy is dropped.
    fn evict_full<D: Devices>(&mut self, dev: &mut D) -> Result<u32, Stop>
        requires fits { Fits self.old.geometry (D.standing dev.old) }
        requires clocked { Clocked self.old.nvm_clock (parts_of self.old).map.frame_page }
        requires all_stand { lowest_empty self.old.full_clock ≡ None }
        ensures call { Stores (D.standing dev.old) (D.standing dev.new) result }
        ensures leads { AreWhole (parts_of self.old)
            → LeadsHard self.old self.new (D.standing dev.old) (D.standing dev.new) result }
        ensures room { IfOk result (λ i. let parts = parts_of self.old in
            full_swept_left (full_swept (victim parts.full_clock) parts) ≡ record { place = i; parts = parts_of self.new }) }
        ensures within { IfOk result (λ i. i < self.new.policy.dram_frames) }
        ensures same { SameSizes self.old self.new }
    {
        let full = self.sweep_full();
        self.leave_full(dev, full)?;
        Ok(full)
    }

    /// The victim of the clock of full places.
    fn sweep_full(&mut self) -> u32
        requires all_stand { lowest_empty self.old.full_clock ≡ None }
        ensures swept { let parts = parts_of self.old in
            full_swept (victim parts.full_clock) parts ≡ record { place = result; parts = parts_of self.new } }
        ensures within { result < self.new.policy.dram_frames }
        ensures frames { self.new.nvm_clock ≡ self.old.nvm_clock }
        ensures map { (parts_of self.new).map ≡ (parts_of self.old).map }
        ensures same { SameSizes self.old self.new }
    {
        let full = self.full_clock.victim(&mut Steps::new());
        count_one(&mut self.tally.dram_evictions);
        full
    }

    /// The page of a full place, if there is one, leaves it.
    fn leave_full<D: Devices>(&mut self, dev: &mut D, full: u32) -> Result<(), Stop>
        requires fits { Fits self.old.geometry (D.standing dev.old) }
        requires clocked { Clocked self.old.nvm_clock (parts_of self.old).map.frame_page }
        requires full { full < self.old.policy.dram_frames }
        ensures call { Stores (D.standing dev.old) (D.standing dev.new) result }
        ensures leads { AreWhole (parts_of self.old)
            → LeadsHard self.old self.new (D.standing dev.old) (D.standing dev.new) result }
        ensures parts { OnOk result (let parts = parts_of self.old in
            parts_of self.new ≡ full_left (parts.map.full_page full) full parts) }
        ensures same { SameSizes self.old self.new }
    {
        match self.full_page(full) {
            Some(page) => {
                self.hand_down(dev, page, full)?;
                self.drop_copy(page);
                Ok(())
            }
            None => Ok(()),
        }
    }

    /// Where the lines of a full copy go: to its page's frame, to a new one, to the home block, or nowhere.
    fn hand_down<D: Devices>(&mut self, dev: &mut D, page: u64, full: u32) -> Result<(), Stop>
        requires fits { Fits self.old.geometry (D.standing dev.old) }
        requires clocked { Clocked self.old.nvm_clock (parts_of self.old).map.frame_page }
        requires full { full < self.old.policy.dram_frames }
        requires page { page < pages (sizes_of self.old.geometry) }
        ensures call { Stores (D.standing dev.old) (D.standing dev.new) result }
        ensures leads { StandsAt page (Place.Full full) (parts_of self.old)
            → LeadsHard self.old self.new (D.standing dev.old) (D.standing dev.new) result }
        ensures parts { OnOk result (parts_of self.new ≡ handed_down page full (parts_of self.old)) }
        ensures same { SameSizes self.old self.new }
    {
        match self.frame(page) {
            Some(frame) => self.store_back(dev, Place::Full(full), frame),
            None => self.admit_or_pass(dev, page, full),
        }
    }

    /// A page without a frame is admitted to NVM, passes through where it is dirty, or is left.
    fn admit_or_pass<D: Devices>(&mut self, dev: &mut D, page: u64, full: u32) -> Result<(), Stop>
        requires fits { Fits self.old.geometry (D.standing dev.old) }
        requires clocked { Clocked self.old.nvm_clock (parts_of self.old).map.frame_page }
        requires full { full < self.old.policy.dram_frames }
        requires page { page < pages (sizes_of self.old.geometry) }
        requires homeless { (parts_of self.old).map.nvm page ≡ None }
        ensures call { Stores (D.standing dev.old) (D.standing dev.new) result }
        ensures leads { StandsWhole page (Place.Full full) (parts_of self.old)
            → LeadsHard self.old self.new (D.standing dev.old) (D.standing dev.new) result }
        ensures parts { OnOk result (let parts = parts_of self.old in let dirty = full_dirty_at full parts in
            parts_of self.new ≡ moved_by (admitted dirty page parts) dirty page full) }
        ensures same { SameSizes self.old self.new }
    {
        let dirty = self.is_full_dirty(full);
        if self.admits(page, dirty) {
            return self.move_down(dev, page, full, dirty);
        }
        if dirty {
            self.pass_through(dev, page, Place::Full(full))
        } else {
            Ok(())
        }
    }

    /// Whether a full copy is dirty.
    fn is_full_dirty(&self, full: u32) -> bool
        requires { full < self.now.policy.dram_frames }
        ensures { result ≡ full_dirty_at full (parts_of self.now) }
    {
        self.dirty_lines(Place::Full(full)) != 0
    }

    /// Whether a page that has no frame is admitted to NVM, by whether its copy is dirty.
    fn admits(&mut self, page: u64, dirty: bool) -> bool
        ensures answer { admitted dirty page (parts_of self.old) ≡ record { yes = result; parts = parts_of self.new } }
        ensures some { result ≡ true → 1 ≤ self.new.geometry.frames }
        ensures map { (parts_of self.new).map ≡ (parts_of self.old).map }
        ensures frames { self.new.nvm_clock ≡ self.old.nvm_clock }
        ensures same { SameSizes self.old self.new }
    {
        if self.geometry.frames == 0 {
            return false;
        }
        if self.policy.queue_len == 0 {
            return self.draws_for(dirty);
        }
        self.queue.ask(page)
    }

    /// One draw for a dirty copy; a clean one is not admitted.
    fn draws_for(&mut self, dirty: bool) -> bool
        ensures answer { drawn_if dirty (parts_of self.old) ≡ record { yes = result; parts = parts_of self.new } }
        ensures map { (parts_of self.new).map ≡ (parts_of self.old).map }
        ensures frames { self.new.nvm_clock ≡ self.old.nvm_clock }
        ensures same { SameSizes self.old self.new }
    {
        if dirty {
            self.decides(Question::NvmWrite)
        } else {
            false
        }
    }

    /// One draw with the probability that decides the question.
    pub fn decides(&mut self, question: Question) -> bool
        ensures answer { drawn question (parts_of self.old) ≡ record { yes = result; parts = parts_of self.new } }
        ensures map { (parts_of self.new).map ≡ (parts_of self.old).map }
        ensures frames { self.new.nvm_clock ≡ self.old.nvm_clock }
        ensures same { SameSizes self.old self.new }
    {
        self.policy.decide(&mut self.draws, question)
    }

    /// The page, all of whose lines are in its full copy, is installed in a frame, which is dirty where the copy was.
    fn move_down<D: Devices>(
        &mut self,
        dev: &mut D,
        page: u64,
        full: u32,
        dirty: bool,
    ) -> Result<(), Stop>
        requires fits { Fits self.old.geometry (D.standing dev.old) }
        requires some { 1 ≤ self.old.geometry.frames }
        requires clocked { Clocked self.old.nvm_clock (parts_of self.old).map.frame_page }
        requires full { full < self.old.policy.dram_frames }
        requires page { page < pages (sizes_of self.old.geometry) }
        requires homeless { (parts_of self.old).map.nvm page ≡ None }
        ensures call { Stores (D.standing dev.old) (D.standing dev.new) result }
        ensures leads { StandsWhole page (Place.Full full) (parts_of self.old)
            → dirty ≡ full_dirty_at full (parts_of self.old)
            → LeadsHard self.old self.new (D.standing dev.old) (D.standing dev.new) result }
        ensures parts { OnOk result (parts_of self.new ≡ moved_down dirty page full (parts_of self.old)) }
        ensures same { SameSizes self.old self.new }
    {
        let frame = self.room_in_nvm(dev)?;
        self.install_copy(dev, page, frame, full, dirty)
    }

    /// The page, all of whose lines are in its full copy, is installed in this empty frame.
    fn install_copy<D: Devices>(
        &mut self,
        dev: &mut D,
        page: u64,
        frame: u32,
        full: u32,
        dirty: bool,
    ) -> Result<(), Stop>
        requires fits { Fits self.old.geometry (D.standing dev.old) }
        requires frame { frame < self.old.geometry.frames }
        requires full { full < self.old.policy.dram_frames }
        requires page { page < pages (sizes_of self.old.geometry) }
        requires homeless { (parts_of self.old).map.nvm page ≡ None }
        requires free { (parts_of self.old).map.frame_page frame ≡ None }
        ensures call { Stores (D.standing dev.old) (D.standing dev.new) result }
        ensures leads { StandsWhole page (Place.Full full) (parts_of self.old)
            → dirty ≡ full_dirty_at full (parts_of self.old)
            → LeadsHard self.old self.new (D.standing dev.old) (D.standing dev.new) result }
        ensures parts { OnOk result (
            parts_of self.new ≡ copy_cleaned (Place.Full full) (page_installed page frame dirty (parts_of self.old))) }
        ensures same { SameSizes self.old self.new }
    {
        let mut lines = PageBuf::zero();
        self.put_copy(Place::Full(full), &mut lines);
        self.install_page(dev, page, frame, &lines, dirty)?;
        self.clean_copy(Place::Full(full));
        Ok(())
    }
}
