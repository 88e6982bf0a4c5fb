//! How a page comes to DRAM.
ghost use Rattle.std.specs.Prelude.{◌≡◌, ◌<◌, ◌≤◌, IfOk, OnOk, None, IsTrue};
ghost use Rattle.devices.specs.World.{now};
ghost use Rattle.device_calls.specs.Leads.{Looked};
ghost use Rattle.store_model.specs.Layout.{pages, page_block};
ghost use Rattle.nvm_layout.specs.Sizes.{sizes_of};
ghost use Rattle.clock_sweep.specs.Clock.{lowest_empty, victim};
ghost use Rattle.tier_rules.specs.Sound.{Clocked};
ghost use Rattle.tier_pool.specs.Fields.{parts_of, SameSizes};
ghost use Rattle.tier_pool.specs.Bringing.{full_placed, mini_placed, block_fetched, place_filled, placed_at, copied_to, BroughtTo, Brought, dram_room, IsFree, fetched_to_frame, fetched_to_nvm, brought_through, FetchedInto, mini_given_up, mini_left, mini_swept, mini_swept_left, mini_room};
ghost use Rattle.tier_pool.specs.Standing.{IsStanding, IsBare, IsSteady};
ghost use Rattle.tier_pool.specs.Places.{IsPlace};
ghost use Rattle.tier_pool.specs.FullRoom.{full_room};
ghost use Rattle.tier_pool.specs.Calls.{Fits, Calls, Stores, FetchesCounted};
ghost use Rattle.tier_pool.specs.Storing.{LeadsHard, LeadsFacts};
ghost use Rattle.tier_pool.specs.Handing.{AreWhole};

use crate::counting::count_one;
use crate::pool::TierPool;
use clock_sweep::Steps;
use devices::Devices;
use home_move::read_home_block;
use line_pages::Stop;
use ssd_model::PageBuf;
use tier_map::Place;

impl TierPool {
    /// Fetching: the page is read from its home block into a full place, whole and clean.
    pub fn fetch_into<D: Devices>(&mut self, dev: &mut D, page: u64, full: u32) -> Result<(), Stop>
        requires fits { Fits self.old.geometry (D.standing dev.old) }
        requires page { page < pages (sizes_of self.old.geometry) }
        requires full { full < self.old.policy.dram_frames }
        requires absent { (parts_of self.old).map.place page ≡ Place.Absent }
        requires free { (parts_of self.old).map.full_page full ≡ None }
        ensures call { Calls (D.standing dev.old) (D.standing dev.new) result }
        ensures leads { (parts_of self.old).map.nvm page ≡ None
            → IsBare (parts_of self.old) (Place.Full full)
            → LeadsFacts self.old self.new (D.standing dev.old) (D.standing dev.new) result }
        ensures parts { OnOk result (FetchedInto page full (parts_of self.old) (parts_of self.new)) }
        ensures reads { OnOk result (let parts = parts_of self.old in
            FetchesCounted parts (parts_of self.new) (D.standing dev.old) (D.standing dev.new)) }
        ensures same { SameSizes self.old self.new }
    {
        let mut lines = PageBuf::zero();
        self.fetch(dev, page, &mut lines)?;
        self.fill_full(page, full, &lines);
        Ok(())
    }

    /// The page's copy is in this full place, with all its lines.
    fn fill_full(&mut self, page: u64, full: u32, lines: &PageBuf)
        requires page { page < pages (sizes_of self.old.geometry) }
        requires full { full < self.old.policy.dram_frames }
        requires absent { (parts_of self.old).map.place page ≡ Place.Absent }
        requires free { (parts_of self.old).map.full_page full ≡ None }
        ensures parts { parts_of self.new ≡ full_placed page full (place_filled full lines.now (parts_of self.old)) }
        ensures same { SameSizes self.old self.new }
    {
        self.arena.fill(full, lines);
        self.place_full(page, full);
    }

    /// The page's copy is in this full place, with what lines stand there.
    pub fn place_full(&mut self, page: u64, full: u32)
        requires page { page < pages (sizes_of self.old.geometry) }
        requires full { full < self.old.policy.dram_frames }
        requires absent { (parts_of self.old).map.place page ≡ Place.Absent }
        requires free { (parts_of self.old).map.full_page full ≡ None }
        ensures parts { parts_of self.new ≡ full_placed page full (parts_of self.old) }
        ensures same { SameSizes self.old self.new }
    {
        self.map.set_full(page, full);
        self.full_clock.insert(full);
    }

    /// The page's copy is in this mini place.
    fn place_mini(&mut self, page: u64, mini: u32)
        requires page { page < pages (sizes_of self.old.geometry) }
        requires mini { mini < self.old.policy.minis }
        requires absent { (parts_of self.old).map.place page ≡ Place.Absent }
        requires free { (parts_of self.old).map.mini_owner mini ≡ None }
        ensures parts { parts_of self.new ≡ mini_placed page mini (parts_of self.old) }
        ensures same { SameSizes self.old self.new }
    {
        self.map.set_mini(page, mini);
        self.mini_clock.insert(mini);
    }

    /// Room for a mini copy: the lowest empty place, or else that of a victim, which is evicted.
    fn room_in_mini<D: Devices>(&mut self, dev: &mut D) -> Result<u32, Stop>
        requires fits { Fits self.old.geometry (D.standing dev.old) }
        requires some { 1 ≤ self.old.policy.minis }
        ensures call { Stores (D.standing dev.old) (D.standing dev.new) result }
        ensures leads { LeadsHard self.old self.new (D.standing dev.old) (D.standing dev.new) result }
        ensures room { IfOk result (λ j.
            mini_room (parts_of self.old) ≡ record { place = j; parts = parts_of self.new }) }
        ensures within { IfOk result (λ j. j < self.new.policy.minis) }
        ensures same { SameSizes self.old self.new }
    {
        match self.mini_clock.empty() {
            Some(mini) => Ok(mini),
            None => self.evict_mini(dev),
        }
    }

    /// The victim's copy is dropped, with its dirty lines stored back to its page's frame.
    fn evict_mini<D: Devices>(&mut self, dev: &mut D) -> Result<u32, Stop>
        requires fits { Fits self.old.geometry (D.standing dev.old) }
        requires some { 1 ≤ self.old.policy.minis }
        requires all_stand { lowest_empty self.old.mini_clock ≡ None }
        ensures call { Stores (D.standing dev.old) (D.standing dev.new) result }
        ensures leads { LeadsHard self.old self.new (D.standing dev.old) (D.standing dev.new) result }
        ensures room { IfOk result (λ j. let parts = parts_of self.old in
            mini_swept_left (mini_swept (victim parts.mini_clock) parts) ≡ record { place = j; parts = parts_of self.new }) }
        ensures within { IfOk result (λ j. j < self.new.policy.minis) }
        ensures same { SameSizes self.old self.new }
    {
        let mini = self.sweep_minis();
        self.leave_mini(dev, mini)?;
        Ok(mini)
    }

    /// The victim of the clock of mini places.
    fn sweep_minis(&mut self) -> u32
        requires some { 1 ≤ self.old.policy.minis }
        requires all_stand { lowest_empty self.old.mini_clock ≡ None }
        ensures swept { let parts = parts_of self.old in
            mini_swept (victim parts.mini_clock) parts ≡ record { place = result; parts = parts_of self.new } }
        ensures within { result < self.new.policy.minis }
        ensures same { SameSizes self.old self.new }
    {
        let mini = self.mini_clock.victim(&mut Steps::new());
        count_one(&mut self.tally.dram_evictions);
        mini
    }

    /// The page of a mini place, if there is one, leaves it.
    fn leave_mini<D: Devices>(&mut self, dev: &mut D, mini: u32) -> Result<(), Stop>
        requires fits { Fits self.old.geometry (D.standing dev.old) }
        requires mini { mini < self.old.policy.minis }
        ensures call { Stores (D.standing dev.old) (D.standing dev.new) result }
        ensures leads { LeadsHard self.old self.new (D.standing dev.old) (D.standing dev.new) result }
        ensures parts { OnOk result (let parts = parts_of self.old in
            parts_of self.new ≡ mini_left (parts.map.mini_owner mini) parts) }
        ensures same { SameSizes self.old self.new }
    {
        match self.mini_owner(mini) {
            Some(page) => self.give_up_mini(dev, page),
            None => Ok(()),
        }
    }

    /// The page's mini copy is dropped. It lies over a frame.
    fn give_up_mini<D: Devices>(&mut self, dev: &mut D, page: u64) -> Result<(), Stop>
        requires fits { Fits self.old.geometry (D.standing dev.old) }
        requires page { page < pages (sizes_of self.old.geometry) }
        ensures call { Stores (D.standing dev.old) (D.standing dev.new) result }
        ensures leads { LeadsHard self.old self.new (D.standing dev.old) (D.standing dev.new) result }
        ensures parts { OnOk result (let parts = parts_of self.old in
            parts_of self.new ≡ mini_given_up (parts.map.nvm page) page parts) }
        ensures same { SameSizes self.old self.new }
    {
        match self.frame(page) {
            Some(frame) => self.give_up_copy(dev, page, frame),
            None => Ok(()),
        }
    }

    /// The page's home block is read.
    fn fetch<D: Devices>(&mut self, dev: &mut D, page: u64, into: &mut PageBuf) -> Result<(), Stop>
        requires fits { Fits self.old.geometry (D.standing dev.old) }
        requires page { page < pages (sizes_of self.old.geometry) }
        ensures call { Calls (D.standing dev.old) (D.standing dev.new) result }
        ensures looked { Looked (D.standing dev.old) (D.standing dev.new) result }
        ensures value { IsTrue (D.standing dev.old).told → OnOk result (
            let block = page_block (sizes_of self.old.geometry) page in
            into.new ≡ ((now (D.standing dev.old)).ssd block).bytes) }
        ensures parts { OnOk result (parts_of self.new ≡ block_fetched (parts_of self.old)) }
        ensures map { (parts_of self.new).map ≡ (parts_of self.old).map }
        ensures reads { OnOk result (let parts = parts_of self.old in
            FetchesCounted parts (parts_of self.new) (D.standing dev.old) (D.standing dev.new)) }
        ensures same { SameSizes self.old self.new }
    {
        read_home_block(dev, &self.geometry, page, into)?;
        count_one(&mut self.tally.fetches);
        Ok(())
    }

    /// The page is fetched and installed as a clean frame.
    pub fn fetch_to_nvm<D: Devices>(&mut self, dev: &mut D, page: u64) -> Result<(), Stop>
        requires fits { Fits self.old.geometry (D.standing dev.old) }
        requires page { page < pages (sizes_of self.old.geometry) }
        requires some { 1 ≤ self.old.geometry.frames }
        requires clocked { Clocked self.old.nvm_clock (parts_of self.old).map.frame_page }
        requires homeless { (parts_of self.old).map.nvm page ≡ None }
        ensures call { Calls (D.standing dev.old) (D.standing dev.new) result }
        ensures leads { (parts_of self.old).map.place page ≡ Place.Absent
            → LeadsHard self.old self.new (D.standing dev.old) (D.standing dev.new) result }
        ensures parts { OnOk result (parts_of self.new ≡ fetched_to_nvm page (parts_of self.old)) }
        ensures reads { OnOk result (let parts = parts_of self.old in
            FetchesCounted parts (parts_of self.new) (D.standing dev.old) (D.standing dev.new)) }
        ensures same { SameSizes self.old self.new }
    {
        let frame = self.room_in_nvm(dev)?;
        self.fetch_to_frame(dev, page, frame)
    }

    /// The page is fetched and installed in this empty frame.
    fn fetch_to_frame<D: Devices>(&mut self, dev: &mut D, page: u64, frame: u32) -> Result<(), Stop>
        requires fits { Fits self.old.geometry (D.standing dev.old) }
        requires page { page < pages (sizes_of self.old.geometry) }
        requires frame { frame < self.old.geometry.frames }
        requires homeless { (parts_of self.old).map.nvm page ≡ None }
        requires free { (parts_of self.old).map.frame_page frame ≡ None }
        ensures call { Calls (D.standing dev.old) (D.standing dev.new) result }
        ensures leads { (parts_of self.old).map.place page ≡ Place.Absent
            → LeadsFacts self.old self.new (D.standing dev.old) (D.standing dev.new) result }
        ensures parts { OnOk result (parts_of self.new ≡ fetched_to_frame page frame (parts_of self.old)) }
        ensures reads { OnOk result (let parts = parts_of self.old in
            FetchesCounted parts (parts_of self.new) (D.standing dev.old) (D.standing dev.new)) }
        ensures same { SameSizes self.old self.new }
    {
        let mut lines = PageBuf::zero();
        self.fetch(dev, page, &mut lines)?;
        self.install_page(dev, page, frame, &lines, false)
    }

    /// Bringing past NVM: a page on the SSD is read into a full place.
    pub fn bring_past<D: Devices>(&mut self, dev: &mut D, page: u64) -> Result<Place, Stop>
        requires fits { Fits self.old.geometry (D.standing dev.old) }
        requires page { page < pages (sizes_of self.old.geometry) }
        requires frames { Clocked self.old.nvm_clock (parts_of self.old).map.frame_page }
        requires fulls { Clocked self.old.full_clock (parts_of self.old).map.full_page }
        requires absent { (parts_of self.old).map.place page ≡ Place.Absent }
        ensures call { Calls (D.standing dev.old) (D.standing dev.new) result }
        ensures leads { IsSteady (parts_of self.old) → (parts_of self.old).map.nvm page ≡ None
            → LeadsHard self.old self.new (D.standing dev.old) (D.standing dev.new) result }
        ensures place { IfOk result (λ place. place ≡ Place.Full (full_room (parts_of self.old)).place) }
        ensures parts { OnOk result (let room = full_room (parts_of self.old) in
            FetchedInto page room.place room.parts (parts_of self.new)) }
        ensures reads { OnOk result (let parts = parts_of self.old in
            FetchesCounted parts (parts_of self.new) (D.standing dev.old) (D.standing dev.new)) }
        ensures same { SameSizes self.old self.new }
    {
        let full = self.room_in_full(dev)?;
        self.fetch_into(dev, page, full)?;
        Ok(Place::Full(full))
    }

    /// Room for a copy over a frame: a mini place, or a full one where there are no mini places.
    fn room_in_dram<D: Devices>(&mut self, dev: &mut D) -> Result<Place, Stop>
        requires fits { Fits self.old.geometry (D.standing dev.old) }
        requires frames { Clocked self.old.nvm_clock (parts_of self.old).map.frame_page }
        ensures call { Stores (D.standing dev.old) (D.standing dev.new) result }
        ensures leads { AreWhole (parts_of self.old)
            → LeadsHard self.old self.new (D.standing dev.old) (D.standing dev.new) result }
        ensures room { IfOk result (λ place.
            dram_room (parts_of self.old) ≡ record { place = place; parts = parts_of self.new }) }
        ensures within { IfOk result (λ place. IsPlace (parts_of self.new).plan place) }
        ensures same { SameSizes self.old self.new }
    {
        if self.policy.minis == 0 {
            Ok(Place::Full(self.room_in_full(dev)?))
        } else {
            Ok(Place::Mini(self.room_in_mini(dev)?))
        }
    }

    /// A copy over the page's frame, with no line.
    fn copy_to(&mut self, page: u64, place: Place)
        requires page { page < pages (sizes_of self.old.geometry) }
        requires place { IsPlace (parts_of self.old).plan place }
        requires absent { (parts_of self.old).map.place page ≡ Place.Absent }
        requires free { IsFree (parts_of self.old).map place }
        ensures parts { parts_of self.new ≡ copied_to place page (parts_of self.old) }
        ensures same { SameSizes self.old self.new }
    {
        count_one(&mut self.tally.dram_loads);
        self.place_copy(page, place);
    }

    /// The page's copy is in this place, with what lines stand there.
    fn place_copy(&mut self, page: u64, place: Place)
        requires page { page < pages (sizes_of self.old.geometry) }
        requires place { IsPlace (parts_of self.old).plan place }
        requires absent { (parts_of self.old).map.place page ≡ Place.Absent }
        requires free { IsFree (parts_of self.old).map place }
        ensures parts { parts_of self.new ≡ placed_at place page (parts_of self.old) }
        ensures same { SameSizes self.old self.new }
    {
        match place {
            Place::Absent => {}
            Place::Full(full) => self.place_full(page, full),
            Place::Mini(mini) => self.place_mini(page, mini),
        }
    }

    /// Bringing: a page in NVM comes to DRAM. It is fetched where it lost its frame while room was made.
    pub fn bring<D: Devices>(&mut self, dev: &mut D, page: u64) -> Result<Place, Stop>
        requires fits { Fits self.old.geometry (D.standing dev.old) }
        requires page { page < pages (sizes_of self.old.geometry) }
        requires standing { IsStanding (parts_of self.old) }
        requires absent { (parts_of self.old).map.place page ≡ Place.Absent }
        ensures call { Calls (D.standing dev.old) (D.standing dev.new) result }
        ensures leads { IsSteady (parts_of self.old)
            → LeadsHard self.old self.new (D.standing dev.old) (D.standing dev.new) result }
        ensures brought { IfOk result (λ place.
            Brought page place (parts_of self.old) (parts_of self.new)) }
        ensures reads { OnOk result (let parts = parts_of self.old in
            FetchesCounted parts (parts_of self.new) (D.standing dev.old) (D.standing dev.new)) }
        ensures same { SameSizes self.old self.new }
    {
        let place = self.room_in_dram(dev)?;
        self.copy_or_fetch(dev, page, place)?;
        Ok(place)
    }

    /// The page gets a copy over its frame at a free place, or, where it lost its frame, is fetched there.
    fn copy_or_fetch<D: Devices>(
        &mut self,
        dev: &mut D,
        page: u64,
        place: Place,
    ) -> Result<(), Stop>
        requires fits { Fits self.old.geometry (D.standing dev.old) }
        requires page { page < pages (sizes_of self.old.geometry) }
        requires place { IsPlace (parts_of self.old).plan place }
        requires absent { (parts_of self.old).map.place page ≡ Place.Absent }
        requires free { IsFree (parts_of self.old).map place }
        ensures call { Calls (D.standing dev.old) (D.standing dev.new) result }
        ensures leads { IsBare (parts_of self.old) place
            → LeadsFacts self.old self.new (D.standing dev.old) (D.standing dev.new) result }
        ensures parts { OnOk result (let parts = parts_of self.old in
            BroughtTo (parts.map.nvm page) page place parts (parts_of self.new)) }
        ensures reads { OnOk result (let parts = parts_of self.old in
            FetchesCounted parts (parts_of self.new) (D.standing dev.old) (D.standing dev.new)) }
        ensures same { SameSizes self.old self.new }
    {
        match self.frame(page) {
            Some(_) => {
                self.copy_to(page, place);
                Ok(())
            }
            None => self.fetch_to(dev, page, place),
        }
    }

    /// A page without a frame is fetched to a free place, which is a full one.
    fn fetch_to<D: Devices>(&mut self, dev: &mut D, page: u64, place: Place) -> Result<(), Stop>
        requires fits { Fits self.old.geometry (D.standing dev.old) }
        requires page { page < pages (sizes_of self.old.geometry) }
        requires place { IsPlace (parts_of self.old).plan place }
        requires absent { (parts_of self.old).map.place page ≡ Place.Absent }
        requires free { IsFree (parts_of self.old).map place }
        ensures call { Calls (D.standing dev.old) (D.standing dev.new) result }
        ensures leads { (parts_of self.old).map.nvm page ≡ None → IsBare (parts_of self.old) place
            → LeadsFacts self.old self.new (D.standing dev.old) (D.standing dev.new) result }
        ensures parts { OnOk result (BroughtTo None page place (parts_of self.old) (parts_of self.new)) }
        ensures reads { OnOk result (let parts = parts_of self.old in
            FetchesCounted parts (parts_of self.new) (D.standing dev.old) (D.standing dev.new)) }
        ensures same { SameSizes self.old self.new }
    {
        match place {
            Place::Full(full) => self.fetch_into(dev, page, full),
            Place::Absent | Place::Mini(_) => Ok(()),
        }
    }

    /// Bringing through NVM: a page on the SSD is installed in a frame, and gets a copy over it.
    pub fn bring_through<D: Devices>(&mut self, dev: &mut D, page: u64) -> Result<Place, Stop>
        requires fits { Fits self.old.geometry (D.standing dev.old) }
        requires page { page < pages (sizes_of self.old.geometry) }
        requires some { 1 ≤ self.old.geometry.frames }
        requires standing { IsStanding (parts_of self.old) }
        requires absent { (parts_of self.old).map.place page ≡ Place.Absent }
        requires homeless { (parts_of self.old).map.nvm page ≡ None }
        ensures call { Calls (D.standing dev.old) (D.standing dev.new) result }
        ensures leads { IsSteady (parts_of self.old)
            → LeadsHard self.old self.new (D.standing dev.old) (D.standing dev.new) result }
        ensures brought { IfOk result (λ place. let parts = parts_of self.old in
            brought_through page parts ≡ record { place = place; parts = parts_of self.new }) }
        ensures reads { OnOk result (let parts = parts_of self.old in
            FetchesCounted parts (parts_of self.new) (D.standing dev.old) (D.standing dev.new)) }
        ensures same { SameSizes self.old self.new }
    {
        let place = self.room_in_dram(dev)?;
        self.fetch_to_nvm(dev, page)?;
        self.copy_to(page, place);
        Ok(place)
    }
}
