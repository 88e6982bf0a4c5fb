//! The touch of a line: it is read, made ready to be written, or written.
ghost use Rattle.std.specs.Prelude.{◌≡◌, ℕ, ◌<◌, ◌≤◌, IfOk, OnOk, IfSome, IsSome, None, true, false};
ghost use Rattle.line_pages.specs.Lines.{IsLine};
ghost use Rattle.device_calls.specs.Leads.{Leads, Given};
ghost use Rattle.store_model.specs.Layout.{pages};
ghost use Rattle.nvm_layout.specs.Sizes.{sizes_of};
ghost use Rattle.tier_facts.specs.Facts.{Held, Facts, Hard, IsLoose, FactsWith};
ghost use Rattle.tier_facts.specs.Reads.{IsCurrentLine};
ghost use Rattle.tier_rules.specs.Parts.{copy_line};
ghost use Rattle.tier_pool.specs.Calls.{Fits, Calls};
ghost use Rattle.tier_pool.specs.Bringing.{FetchedInto};
ghost use Rattle.tier_pool.specs.Standing.{IsSteady as AreSteady};
ghost use Rattle.tier_pool.specs.Storing.{LeadsHard, LeadsFacts, LeadsToLine, LeadsWritten};
ghost use Rattle.tier_pool.specs.Touching.{LoadedToFull, promoted};
ghost use Rattle.tier_manager.specs.Fields.{parts_of, data_of, SameSizes};
ghost use Rattle.tier_manager.specs.Quiet.{is_quiet};
ghost use Rattle.tier_manager.specs.Steady.{IsSteady, LiesAt};
ghost use Rattle.tier_manager.specs.Telling.{told_of};
ghost use Rattle.tier_manager.specs.Touching.{IsThere, IsCopy, Outgrown, PromotedTo, Readied, Touched, Wrote, line_written};

use crate::quiet::has_room;
use crate::tiers::Tiers;
use devices::Devices;
use line_pages::{Stop, whole_line};
use nvm_model::Line;
use tier_map::Place;
use tier_pool::{Spot, has_line};
use tier_rules::TraceLine;

/// What is told of a touch.
fn touch_told(page: u64, line: usize, writes: bool) -> TraceLine
    requires { line < 64 }
{
    if writes {
        TraceLine::Write(page, line as u8)
    } else {
        TraceLine::Read(page, line as u8)
    }
}

impl Tiers {
    /// The current line.
    pub fn read_line<D: Devices>(
        &mut self,
        dev: &mut D,
        page: u64,
        line: usize,
    ) -> Result<Line, Stop>
        requires fits { Fits self.old.pool.geometry (D.standing dev.old) }
        requires page { page < pages (sizes_of self.old.pool.geometry) }
        requires line { line < 64 }
        requires steady { IsSteady self.old }
        ensures call { Calls (D.standing dev.old) (D.standing dev.new) result }
        ensures leads { Leads Held (Hard (data_of self.old))
            (Given (IsCurrentLine page line result) (Hard (data_of self.new)))
            (D.standing dev.old) (D.standing dev.new) result }
        ensures quiet { is_quiet self.old page line ≡ true → Leads Held (Facts (data_of self.old))
            (Given (IsCurrentLine page line result) (Facts (data_of self.new)))
            (D.standing dev.old) (D.standing dev.new) result }
        ensures is_line { IfOk result IsLine }
        ensures touched { OnOk result (Touched page line false (parts_of self.old) (parts_of self.new)) }
        ensures keeps { OnOk result (IsSteady self.new) }
        ensures same { SameSizes self.old self.new }
    {
        self.current_line(dev, page, line, false)
    }

    /// The line is ready to be written: its access stands open. The answer is the current line.
    pub fn ready_line<D: Devices>(
        &mut self,
        dev: &mut D,
        page: u64,
        line: usize,
    ) -> Result<Line, Stop>
        requires fits { Fits self.old.pool.geometry (D.standing dev.old) }
        requires page { page < pages (sizes_of self.old.pool.geometry) }
        requires line { line < 64 }
        requires steady { IsSteady self.old }
        ensures call { Calls (D.standing dev.old) (D.standing dev.new) result }
        ensures leads { Leads Held (Hard (data_of self.old))
            (Given (IsCurrentLine page line result) (Hard (data_of self.new)))
            (D.standing dev.old) (D.standing dev.new) result }
        ensures quiet { is_quiet self.old page line ≡ true → Leads Held (Facts (data_of self.old))
            (Given (IsCurrentLine page line result) (Facts (data_of self.new)))
            (D.standing dev.old) (D.standing dev.new) result }
        ensures is_line { IfOk result IsLine }
        ensures touched { OnOk result (Touched page line true (parts_of self.old) (parts_of self.new)) }
        ensures keeps { OnOk result (IsSteady self.new) }
        ensures same { SameSizes self.old self.new }
    {
        self.current_line(dev, page, line, true)
    }

    /// The line has this value.
    pub fn write_line<D: Devices>(
        &mut self,
        dev: &mut D,
        page: u64,
        line: usize,
        value: &Line,
    ) -> Result<(), Stop>
        requires fits { Fits self.old.pool.geometry (D.standing dev.old) }
        requires page { page < pages (sizes_of self.old.pool.geometry) }
        requires line { line < 64 }
        requires steady { IsSteady self.old }
        ensures call { Calls (D.standing dev.old) (D.standing dev.new) result }
        ensures leads { Leads Held (Given (IsLoose page line) (Hard (data_of self.old)))
            (FactsWith page line value.now (data_of self.new)) (D.standing dev.old) (D.standing dev.new) result }
        ensures quiet { is_quiet self.old page line ≡ true
            → Leads Held (Given (IsLoose page line) (Facts (data_of self.old)))
            (FactsWith page line value.now (data_of self.new)) (D.standing dev.old) (D.standing dev.new) result }
        ensures written { OnOk result (Wrote page line value.now (parts_of self.old) (parts_of self.new)) }
        ensures keeps { OnOk result (IsSteady self.new) }
        ensures same { SameSizes self.old self.new }
    {
        let spot = self.touch(dev, page, line, true)?;
        match spot.place {
            Place::Absent => self
                .pool
                .store_in_place(dev, spot.frame.unwrap(), line, value)?,
            Place::Full(full) => self.pool.write_full(full, line, value),
            Place::Mini(mini) => self.pool.write_mini(mini, line, value),
        }
        Ok(())
    }

    /// A line of the page is touched. The answer is the current line.
    fn current_line<D: Devices>(
        &mut self,
        dev: &mut D,
        page: u64,
        line: usize,
        writes: bool,
    ) -> Result<Line, Stop>
        requires fits { Fits self.old.pool.geometry (D.standing dev.old) }
        requires page { page < pages (sizes_of self.old.pool.geometry) }
        requires line { line < 64 }
        requires steady { IsSteady self.old }
        ensures call { Calls (D.standing dev.old) (D.standing dev.new) result }
        ensures leads { Leads Held (Hard (data_of self.old))
            (Given (IsCurrentLine page line result) (Hard (data_of self.new)))
            (D.standing dev.old) (D.standing dev.new) result }
        ensures quiet { is_quiet self.old page line ≡ true → Leads Held (Facts (data_of self.old))
            (Given (IsCurrentLine page line result) (Facts (data_of self.new)))
            (D.standing dev.old) (D.standing dev.new) result }
        ensures is_line { IfOk result IsLine }
        ensures touched { OnOk result (Touched page line writes (parts_of self.old) (parts_of self.new)) }
        ensures keeps { OnOk result (IsSteady self.new) }
        ensures same { SameSizes self.old self.new }
    {
        let spot = self.touch(dev, page, line, writes)?;
        let value = match self.pool.copy_line(spot.place, line) {
            Some(value) => value,
            None => self.pool.load_line(dev, spot, line)?,
        };
        Ok(whole_line(&value))
    }

    /// The access stands open, and where its page has a copy, the line is resident there. The answer is where the access works.
    fn touch<D: Devices>(
        &mut self,
        dev: &mut D,
        page: u64,
        line: usize,
        writes: bool,
    ) -> Result<Spot, Stop>
        requires fits { Fits self.old.pool.geometry (D.standing dev.old) }
        requires page { page < pages (sizes_of self.old.pool.geometry) }
        requires line { line < 64 }
        requires steady { IsSteady self.old }
        ensures call { Calls (D.standing dev.old) (D.standing dev.new) result }
        ensures leads { LeadsHard self.old.pool self.new.pool (D.standing dev.old) (D.standing dev.new) result }
        ensures quiet { is_quiet self.old page line ≡ true
            → LeadsFacts self.old.pool self.new.pool (D.standing dev.old) (D.standing dev.new) result }
        ensures copied { is_quiet self.old page line ≡ true → IfOk result (λ spot. IsCopy spot.place) }
        ensures touched { OnOk result (Touched page line writes (parts_of self.old) (parts_of self.new)) }
        ensures lies { IfOk result (λ spot. LiesAt page spot (parts_of self.new).map) }
        ensures there { IfOk result (λ spot. IsThere spot.place line (parts_of self.new)) }
        ensures keeps { OnOk result (IsSteady self.new) }
        ensures same { SameSizes self.old self.new }
    {
        let spot = self.open_access(dev, page, writes)?;
        self.tell_touch(page, line, writes);
        self.make_ready(dev, page, line, spot)
    }

    /// The first touch of each line in an access is told.
    fn tell_touch(&mut self, page: u64, line: usize, writes: bool)
        requires line { line < 64 }
        requires steady { IsSteady self.old }
        ensures parts { parts_of self.new ≡ parts_of self.old }
        ensures keeps { IsSteady self.new }
        ensures same { SameSizes self.old self.new }
    {
        if !self.trace.is_kept() {
            return;
        }
        if let Some(access) = &mut self.pool.access {
            if !has_line(access.told, line) {
                access.told |= 1 << line;
                self.trace.tell(touch_told(page, line, writes));
            }
        }
    }

    /// The line is resident in the page's copy. In place there is nothing to do. The answer is where the access works then.
    fn make_ready<D: Devices>(
        &mut self,
        dev: &mut D,
        page: u64,
        line: usize,
        spot: Spot,
    ) -> Result<Spot, Stop>
        requires fits { Fits self.old.pool.geometry (D.standing dev.old) }
        requires page { page < pages (sizes_of self.old.pool.geometry) }
        requires line { line < 64 }
        requires steady { IsSteady self.old }
        requires opened { IfSome (parts_of self.old).access (λ access. access.0 ≡ page) }
        requires lies { LiesAt page spot (parts_of self.old).map }
        ensures call { Calls (D.standing dev.old) (D.standing dev.new) result }
        ensures leads { LeadsHard self.old.pool self.new.pool (D.standing dev.old) (D.standing dev.new) result }
        ensures quiet { is_quiet self.old page line ≡ true
            → LeadsFacts self.old.pool self.new.pool (D.standing dev.old) (D.standing dev.new) result }
        ensures copied { is_quiet self.old page line ≡ true → IfOk result (λ spot. IsCopy spot.place) }
        ensures readied { OnOk result (Readied page line (parts_of self.old) (parts_of self.new)) }
        ensures lies { IfOk result (λ spot. LiesAt page spot (parts_of self.new).map) }
        ensures there { IfOk result (λ spot. IsThere spot.place line (parts_of self.new)) }
        ensures told { told_of self.new ≡ told_of self.old }
        ensures keeps { OnOk result (IsSteady self.new) }
        ensures same { SameSizes self.old self.new }
    {
        match spot.place {
            Place::Absent => Ok(spot),
            Place::Full(full) => {
                if !has_line(self.pool.resident_lines(spot.place), line) {
                    self.pool.load_to_full(dev, spot, line, full)?;
                }
                Ok(spot)
            }
            Place::Mini(mini) => self.ready_mini(dev, page, line, spot, mini),
        }
    }

    /// The line is resident in a mini copy, or, where that has no room for it, in the full copy that comes of it.
    fn ready_mini<D: Devices>(
        &mut self,
        dev: &mut D,
        page: u64,
        line: usize,
        spot: Spot,
        mini: u32,
    ) -> Result<Spot, Stop>
        requires fits { Fits self.old.pool.geometry (D.standing dev.old) }
        requires page { page < pages (sizes_of self.old.pool.geometry) }
        requires line { line < 64 }
        requires steady { IsSteady self.old }
        requires opened { IfSome (parts_of self.old).access (λ access. access.0 ≡ page) }
        requires lies { LiesAt page spot (parts_of self.old).map }
        requires mini { spot.place ≡ Place.Mini mini }
        ensures call { Calls (D.standing dev.old) (D.standing dev.new) result }
        ensures leads { LeadsHard self.old.pool self.new.pool (D.standing dev.old) (D.standing dev.new) result }
        ensures quiet { is_quiet self.old page line ≡ true
            → LeadsFacts self.old.pool self.new.pool (D.standing dev.old) (D.standing dev.new) result }
        ensures copied { is_quiet self.old page line ≡ true → IfOk result (λ spot. IsCopy spot.place) }
        ensures readied { OnOk result (Readied page line (parts_of self.old) (parts_of self.new)) }
        ensures lies { IfOk result (λ spot. LiesAt page spot (parts_of self.new).map) }
        ensures there { IfOk result (λ spot. IsThere spot.place line (parts_of self.new)) }
        ensures told { told_of self.new ≡ told_of self.old }
        ensures keeps { OnOk result (IsSteady self.new) }
        ensures same { SameSizes self.old self.new }
    {
        let lines = self.pool.resident_lines(spot.place);
        if has_line(lines, line) {
            return Ok(spot);
        }
        if !has_room(lines) {
            return self.outgrow(dev, page, line);
        }
        self.pool.load_to_mini(dev, spot, line, mini)?;
        Ok(spot)
    }

    /// Promotion: a mini copy that has no room for a further line becomes a full one with that line. The answer is where the access
    /// works then.
    fn outgrow<D: Devices>(&mut self, dev: &mut D, page: u64, line: usize) -> Result<Spot, Stop>
        requires fits { Fits self.old.pool.geometry (D.standing dev.old) }
        requires page { page < pages (sizes_of self.old.pool.geometry) }
        requires line { line < 64 }
        requires steady { IsSteady self.old }
        requires opened { IfSome (parts_of self.old).access (λ access. access.0 ≡ page) }
        requires copied { IsCopy ((parts_of self.old).map.place page) }
        requires quiet { is_quiet self.old page line ≡ false }
        ensures call { Calls (D.standing dev.old) (D.standing dev.new) result }
        ensures leads { LeadsHard self.old.pool self.new.pool (D.standing dev.old) (D.standing dev.new) result }
        ensures outgrown { OnOk result (Outgrown page line (parts_of self.old) (parts_of self.new)) }
        ensures lies { IfOk result (λ spot. LiesAt page spot (parts_of self.new).map) }
        ensures there { IfOk result (λ spot. IsThere spot.place line (parts_of self.new)) }
        ensures told { told_of self.new ≡ told_of self.old }
        ensures keeps { OnOk result (IsSteady self.new) }
        ensures same { SameSizes self.old self.new }
    {
        let full = self.pool.room_in_full(dev)?;
        self.promote_to(dev, page, line, full)?;
        Ok(self.move_access(page))
    }

    /// The open access, which is one of this page, works where the page lies now.
    fn move_access(&mut self, page: u64) -> Spot
        requires page { page < pages (sizes_of self.old.pool.geometry) }
        ensures parts { parts_of self.new ≡ parts_of self.old }
        ensures access { IfSome self.new.pool.access (λ access. access.spot ≡ result) }
        ensures place { result.place ≡ (parts_of self.old).map.place page }
        ensures frame { result.frame ≡ (parts_of self.old).map.nvm page }
        ensures told { told_of self.new ≡ told_of self.old }
        ensures same { SameSizes self.old self.new }
    {
        let spot = self.spot(page);
        if let Some(access) = &mut self.pool.access {
            access.spot = spot;
        }
        spot
    }

    /// The page's mini copy becomes a full one in this free place, which gets the line. The page is fetched where it lost its frame, and
    /// with it its copy, while room was made.
    fn promote_to<D: Devices>(
        &mut self,
        dev: &mut D,
        page: u64,
        line: usize,
        full: u32,
    ) -> Result<(), Stop>
        requires fits { Fits self.old.pool.geometry (D.standing dev.old) }
        requires page { page < pages (sizes_of self.old.pool.geometry) }
        requires line { line < 64 }
        requires full { full < self.old.pool.policy.dram_frames }
        requires steady { AreSteady (parts_of self.old) }
        requires free { (parts_of self.old).map.full_page full ≡ None }
        requires homeless { let parts = parts_of self.old in
            parts.map.place page ≡ Place.Absent → parts.map.nvm page ≡ None }
        requires uncopied { copy_line (parts_of self.old) page line ≡ None }
        ensures call { Calls (D.standing dev.old) (D.standing dev.new) result }
        ensures leads { LeadsHard self.old.pool self.new.pool (D.standing dev.old) (D.standing dev.new) result }
        ensures promoted { OnOk result (let parts = parts_of self.old in
            PromotedTo (parts.map.place page) page line full parts (parts_of self.new)) }
        ensures told { told_of self.new ≡ told_of self.old }
        ensures keeps { OnOk result (AreSteady (parts_of self.new)) }
        ensures same { SameSizes self.old self.new }
    {
        match self.pool.place(page) {
            Place::Full(_) => Ok(()),
            Place::Absent => self.pool.fetch_into(dev, page, full),
            Place::Mini(mini) => self.promote_and_load(dev, page, line, mini, full),
        }
    }

    /// The page's mini copy becomes a full one, and the line is loaded to it.
    fn promote_and_load<D: Devices>(
        &mut self,
        dev: &mut D,
        page: u64,
        line: usize,
        mini: u32,
        full: u32,
    ) -> Result<(), Stop>
        requires fits { Fits self.old.pool.geometry (D.standing dev.old) }
        requires page { page < pages (sizes_of self.old.pool.geometry) }
        requires line { line < 64 }
        requires full { full < self.old.pool.policy.dram_frames }
        requires steady { AreSteady (parts_of self.old) }
        requires here { (parts_of self.old).map.place page ≡ Place.Mini mini }
        requires free { (parts_of self.old).map.full_page full ≡ None }
        requires uncopied { copy_line (parts_of self.old) page line ≡ None }
        ensures call { Calls (D.standing dev.old) (D.standing dev.new) result }
        ensures leads { LeadsHard self.old.pool self.new.pool (D.standing dev.old) (D.standing dev.new) result }
        ensures loaded { OnOk result (let parts = parts_of self.old in
            LoadedToFull full line (promoted page mini full parts) (parts_of self.new)) }
        ensures told { told_of self.new ≡ told_of self.old }
        ensures keeps { OnOk result (AreSteady (parts_of self.new)) }
        ensures same { SameSizes self.old self.new }
    {
        self.pool.promote(page, mini, full);
        let spot = self.spot(page);
        self.pool.load_to_full(dev, spot, line, full)
    }
}
