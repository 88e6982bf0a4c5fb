//! The beginning of an access.
ghost use Rattle.std.specs.Prelude.{◌≡◌, ◌≢◌, ◌<◌, ◌≤◌, IfOk, OnOk, IfSome, Some, None, not, true};
ghost use Rattle.std.specs.Option.{is_some};
ghost use Rattle.store_model.specs.Layout.{pages};
ghost use Rattle.nvm_layout.specs.Sizes.{sizes_of};
ghost use Rattle.tier_rules.specs.Plans.{dram_question};
ghost use Rattle.tier_rules.specs.Entering.{begins};
ghost use Rattle.tier_pool.specs.Calls.{Fits, Calls};
ghost use Rattle.tier_pool.specs.FullRoom.{drawn};
ghost use Rattle.tier_pool.specs.Hits.{frame_hit};
ghost use Rattle.tier_pool.specs.Standing.{IsSteady as AreSteady};
ghost use Rattle.tier_pool.specs.Storing.{LeadsHard, LeadsFacts};
ghost use Rattle.tier_manager.specs.Entering.{through_nvm, BroughtIf, BroughtBy, ThroughIf, ThroughBy, ReadInBy, EnteredBelow, Entered, Begun, Opened};
ghost use Rattle.tier_manager.specs.Fields.{parts_of, SameSizes};
ghost use Rattle.tier_manager.specs.Steady.{IsSteady, LiesAt};
ghost use Rattle.tier_manager.specs.Telling.{told_of};

use crate::tiers::Tiers;
use devices::Devices;
use line_pages::Stop;
use migration_policy::Question;
use tier_map::Place;
use tier_pool::{Access, Spot};

/// Whether to bring a page to DRAM, by whether the access writes.
fn dram_question(writes: bool) -> Question
    ensures { result ≡ dram_question writes }
{
    if writes {
        Question::DramWrite
    } else {
        Question::DramRead
    }
}

impl Tiers {
    /// Where the open access works, if it is one of this page and kind.
    fn open_spot(&self, page: u64, writes: bool) -> Option<Spot>
        requires steady { IsSteady self.now }
        ensures begins { begins (parts_of self.now).access page writes ≡ not (is_some result) }
        ensures lies { IfSome result (λ spot. LiesAt page spot (parts_of self.now).map) }
    {
        match &self.pool.access {
            Some(access) => {
                if access.page == page && access.writes == writes {
                    Some(access.spot)
                } else {
                    None
                }
            }
            None => None,
        }
    }

    /// The access stands open: it begins here, or goes on. The answer is where it works.
    pub(crate) fn open_access<D: Devices>(
        &mut self,
        dev: &mut D,
        page: u64,
        writes: bool,
    ) -> Result<Spot, Stop>
        requires fits { Fits self.old.pool.geometry (D.standing dev.old) }
        requires page { page < pages (sizes_of self.old.pool.geometry) }
        requires steady { IsSteady self.old }
        ensures call { Calls (D.standing dev.old) (D.standing dev.new) result }
        ensures leads { LeadsHard self.old.pool self.new.pool (D.standing dev.old) (D.standing dev.new) result }
        ensures quiet { (parts_of self.old).map.place page ≢ Place.Absent
            → LeadsFacts self.old.pool self.new.pool (D.standing dev.old) (D.standing dev.new) result }
        ensures opened { OnOk result (Opened page writes (parts_of self.old) (parts_of self.new)) }
        ensures lies { IfOk result (λ spot. LiesAt page spot (parts_of self.new).map) }
        ensures told { told_of self.new ≡ told_of self.old }
        ensures keeps { OnOk result (IsSteady self.new) }
        ensures same { SameSizes self.old self.new }
    {
        match self.open_spot(page, writes) {
            Some(spot) => Ok(spot),
            None => self.begin_access(dev, page, writes),
        }
    }

    /// An access begins. The answer is where it works.
    fn begin_access<D: Devices>(
        &mut self,
        dev: &mut D,
        page: u64,
        writes: bool,
    ) -> Result<Spot, Stop>
        requires fits { Fits self.old.pool.geometry (D.standing dev.old) }
        requires page { page < pages (sizes_of self.old.pool.geometry) }
        requires steady { AreSteady (parts_of self.old) }
        ensures call { Calls (D.standing dev.old) (D.standing dev.new) result }
        ensures leads { LeadsHard self.old.pool self.new.pool (D.standing dev.old) (D.standing dev.new) result }
        ensures quiet { (parts_of self.old).map.place page ≢ Place.Absent
            → LeadsFacts self.old.pool self.new.pool (D.standing dev.old) (D.standing dev.new) result }
        ensures begun { OnOk result (Begun page writes (parts_of self.old) (parts_of self.new)) }
        ensures lies { IfOk result (λ spot. LiesAt page spot (parts_of self.new).map) }
        ensures told { told_of self.new ≡ told_of self.old }
        ensures keeps { OnOk result (IsSteady self.new) }
        ensures same { SameSizes self.old self.new }
    {
        self.enter(dev, page, writes)?;
        Ok(self.work_at(page, writes))
    }

    /// Where a page lies: in its copy, or else in its frame.
    pub(crate) fn spot(&self, page: u64) -> Spot
        requires page { page < pages (sizes_of self.now.pool.geometry) }
        ensures place { result.place ≡ (parts_of self.now).map.place page }
        ensures frame { result.frame ≡ (parts_of self.now).map.nvm page }
    {
        Spot {
            place: self.pool.place(page),
            frame: self.pool.frame(page),
        }
    }

    /// The open access is one of this page and kind, works where the page lies, and told of nothing.
    fn work_at(&mut self, page: u64, writes: bool) -> Spot
        requires page { page < pages (sizes_of self.old.pool.geometry) }
        ensures parts { parts_of self.new ≡ record (parts_of self.old) { access = Some (page, writes) } }
        ensures of { IfSome self.new.pool.access (λ access. access.page ≡ page) }
        ensures there { IfSome self.new.pool.access (λ access. access.spot ≡ result) }
        ensures place { result.place ≡ (parts_of self.old).map.place page }
        ensures frame { result.frame ≡ (parts_of self.old).map.nvm page }
        ensures told { told_of self.new ≡ told_of self.old }
        ensures same { SameSizes self.old self.new }
    {
        let spot = self.spot(page);
        self.pool.access = Some(Access {
            page,
            writes,
            spot,
            told: 0,
        });
        spot
    }

    /// Entering: the page's copy is touched, or else it may come to a higher tier.
    fn enter<D: Devices>(&mut self, dev: &mut D, page: u64, writes: bool) -> Result<(), Stop>
        requires fits { Fits self.old.pool.geometry (D.standing dev.old) }
        requires page { page < pages (sizes_of self.old.pool.geometry) }
        requires steady { AreSteady (parts_of self.old) }
        ensures call { Calls (D.standing dev.old) (D.standing dev.new) result }
        ensures leads { LeadsHard self.old.pool self.new.pool (D.standing dev.old) (D.standing dev.new) result }
        ensures quiet { (parts_of self.old).map.place page ≢ Place.Absent
            → LeadsFacts self.old.pool self.new.pool (D.standing dev.old) (D.standing dev.new) result }
        ensures entered { OnOk result (Entered page writes (parts_of self.old) (parts_of self.new)) }
        ensures told { told_of self.new ≡ told_of self.old }
        ensures keeps { OnOk result (AreSteady (parts_of self.new)) }
        ensures same { SameSizes self.old self.new }
    {
        match self.pool.place(page) {
            Place::Absent => return self.enter_below(dev, page, writes),
            Place::Full(full) => self.pool.hit_full(full),
            Place::Mini(mini) => self.pool.hit_mini(mini),
        }
        Ok(())
    }

    /// Entering a page that has no copy.
    fn enter_below<D: Devices>(&mut self, dev: &mut D, page: u64, writes: bool) -> Result<(), Stop>
        requires fits { Fits self.old.pool.geometry (D.standing dev.old) }
        requires page { page < pages (sizes_of self.old.pool.geometry) }
        requires steady { AreSteady (parts_of self.old) }
        requires absent { (parts_of self.old).map.place page ≡ Place.Absent }
        ensures call { Calls (D.standing dev.old) (D.standing dev.new) result }
        ensures leads { LeadsHard self.old.pool self.new.pool (D.standing dev.old) (D.standing dev.new) result }
        ensures entered { OnOk result (let parts = parts_of self.old in
            EnteredBelow (parts.map.nvm page) page writes parts (parts_of self.new)) }
        ensures told { told_of self.new ≡ told_of self.old }
        ensures keeps { OnOk result (AreSteady (parts_of self.new)) }
        ensures same { SameSizes self.old self.new }
    {
        match self.pool.frame(page) {
            Some(frame) => self.enter_framed(dev, page, frame, writes),
            None => self.enter_homed(dev, page, writes),
        }
    }

    /// Entering a page that has a frame and no copy.
    fn enter_framed<D: Devices>(
        &mut self,
        dev: &mut D,
        page: u64,
        frame: u32,
        writes: bool,
    ) -> Result<(), Stop>
        requires fits { Fits self.old.pool.geometry (D.standing dev.old) }
        requires page { page < pages (sizes_of self.old.pool.geometry) }
        requires frame { frame < self.old.pool.geometry.frames }
        requires steady { AreSteady (parts_of self.old) }
        requires absent { (parts_of self.old).map.place page ≡ Place.Absent }
        ensures call { Calls (D.standing dev.old) (D.standing dev.new) result }
        ensures leads { LeadsHard self.old.pool self.new.pool (D.standing dev.old) (D.standing dev.new) result }
        ensures entered { OnOk result (let answer = drawn (dram_question writes) (frame_hit frame (parts_of self.old)) in
            BroughtBy answer page (parts_of self.new)) }
        ensures told { told_of self.new ≡ told_of self.old }
        ensures keeps { OnOk result (AreSteady (parts_of self.new)) }
        ensures same { SameSizes self.old self.new }
    {
        self.pool.hit_frame(frame);
        let brings = self.pool.decides(dram_question(writes));
        self.bring_if(dev, page, brings)
    }

    /// A page in NVM comes to DRAM, or the access works in its frame.
    fn bring_if<D: Devices>(&mut self, dev: &mut D, page: u64, brings: bool) -> Result<(), Stop>
        requires fits { Fits self.old.pool.geometry (D.standing dev.old) }
        requires page { page < pages (sizes_of self.old.pool.geometry) }
        requires steady { AreSteady (parts_of self.old) }
        requires absent { (parts_of self.old).map.place page ≡ Place.Absent }
        ensures call { Calls (D.standing dev.old) (D.standing dev.new) result }
        ensures leads { LeadsHard self.old.pool self.new.pool (D.standing dev.old) (D.standing dev.new) result }
        ensures brought { OnOk result (BroughtIf brings page (parts_of self.old) (parts_of self.new)) }
        ensures told { told_of self.new ≡ told_of self.old }
        ensures keeps { OnOk result (AreSteady (parts_of self.new)) }
        ensures same { SameSizes self.old self.new }
    {
        if brings {
            self.pool.bring(dev, page)?;
        }
        Ok(())
    }

    /// Entering a page that is on the SSD alone.
    fn enter_homed<D: Devices>(&mut self, dev: &mut D, page: u64, writes: bool) -> Result<(), Stop>
        requires fits { Fits self.old.pool.geometry (D.standing dev.old) }
        requires page { page < pages (sizes_of self.old.pool.geometry) }
        requires steady { AreSteady (parts_of self.old) }
        requires absent { (parts_of self.old).map.place page ≡ Place.Absent }
        requires homeless { (parts_of self.old).map.nvm page ≡ None }
        ensures call { Calls (D.standing dev.old) (D.standing dev.new) result }
        ensures leads { LeadsHard self.old.pool self.new.pool (D.standing dev.old) (D.standing dev.new) result }
        ensures entered { OnOk result (ReadInBy (through_nvm (parts_of self.old)) page writes (parts_of self.new)) }
        ensures told { told_of self.new ≡ told_of self.old }
        ensures keeps { OnOk result (AreSteady (parts_of self.new)) }
        ensures same { SameSizes self.old self.new }
    {
        let through = self.goes_through_nvm();
        if through {
            return self.read_in(dev, page, writes);
        }
        self.pool.bring_past(dev, page)?;
        Ok(())
    }

    /// A page on the SSD is read into NVM, and may come on to DRAM.
    fn read_in<D: Devices>(&mut self, dev: &mut D, page: u64, writes: bool) -> Result<(), Stop>
        requires fits { Fits self.old.pool.geometry (D.standing dev.old) }
        requires page { page < pages (sizes_of self.old.pool.geometry) }
        requires some { 1 ≤ self.old.pool.geometry.frames }
        requires steady { AreSteady (parts_of self.old) }
        requires absent { (parts_of self.old).map.place page ≡ Place.Absent }
        requires homeless { (parts_of self.old).map.nvm page ≡ None }
        ensures call { Calls (D.standing dev.old) (D.standing dev.new) result }
        ensures leads { LeadsHard self.old.pool self.new.pool (D.standing dev.old) (D.standing dev.new) result }
        ensures entered { OnOk result (let answer = drawn (dram_question writes) (parts_of self.old) in
            ThroughBy answer page (parts_of self.new)) }
        ensures told { told_of self.new ≡ told_of self.old }
        ensures keeps { OnOk result (AreSteady (parts_of self.new)) }
        ensures same { SameSizes self.old self.new }
    {
        let brings = self.pool.decides(dram_question(writes));
        self.bring_through_if(dev, page, brings)
    }

    /// A page on the SSD comes to DRAM through NVM, or to NVM alone.
    fn bring_through_if<D: Devices>(
        &mut self,
        dev: &mut D,
        page: u64,
        brings: bool,
    ) -> Result<(), Stop>
        requires fits { Fits self.old.pool.geometry (D.standing dev.old) }
        requires page { page < pages (sizes_of self.old.pool.geometry) }
        requires some { 1 ≤ self.old.pool.geometry.frames }
        requires steady { AreSteady (parts_of self.old) }
        requires absent { (parts_of self.old).map.place page ≡ Place.Absent }
        requires homeless { (parts_of self.old).map.nvm page ≡ None }
        ensures call { Calls (D.standing dev.old) (D.standing dev.new) result }
        ensures leads { LeadsHard self.old.pool self.new.pool (D.standing dev.old) (D.standing dev.new) result }
        ensures through { OnOk result (ThroughIf brings page (parts_of self.old) (parts_of self.new)) }
        ensures told { told_of self.new ≡ told_of self.old }
        ensures keeps { OnOk result (AreSteady (parts_of self.new)) }
        ensures same { SameSizes self.old self.new }
    {
        if !brings {
            return self.pool.fetch_to_nvm(dev, page);
        }
        self.pool.bring_through(dev, page)?;
        Ok(())
    }

    /// Whether a page on the SSD goes through NVM, where there is any.
    fn goes_through_nvm(&mut self) -> bool
        ensures answer { through_nvm (parts_of self.old) ≡ record { yes = result; parts = parts_of self.new } }
        ensures map { (parts_of self.new).map ≡ (parts_of self.old).map }
        ensures some { result ≡ true → 1 ≤ self.new.pool.geometry.frames }
        ensures told { told_of self.new ≡ told_of self.old }
        ensures same { SameSizes self.old self.new }
    {
        if self.pool.geometry.frames == 0 {
            false
        } else {
            self.pool.decides(Question::NvmRead)
        }
    }
}
