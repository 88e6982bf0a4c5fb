//! A copy in DRAM, full or mini, by its place: its lines, which of them are dirty, and how it comes and goes.
ghost use Rattle.std.specs.Prelude.{◌≡◌, ◌<◌, ◌+◌};
ghost use Rattle.page_frame.specs.LineSets.{has_line};
ghost use Rattle.page_frame.specs.Frames.{line_at, resident_lines};
ghost use Rattle.store_model.specs.Layout.{pages};
ghost use Rattle.nvm_layout.specs.Sizes.{sizes_of};
ghost use Rattle.tier_rules.specs.Parts.{copy_at, dirty_at};
ghost use Rattle.tier_pool.specs.Fields.{parts_of, SameSizes};
ghost use Rattle.tier_pool.specs.Places.{IsPlace, copy_cleaned, place_emptied, copy_dropped};
ghost use Rattle.tier_pool.specs.Handing.{HoldsCopy};

use crate::pool::TierPool;
use line_pages::{set_page_line, whole_line};
use nvm_model::Line;
use ssd_model::PageBuf;
use tier_map::Place;

/// Whether a line is in a set of lines.
pub fn has_line(lines: u64, line: usize) -> bool
    requires { line < 64 }
    ensures { result ≡ has_line lines line }
{
    (lines >> line) & 1 == 1
}

impl TierPool {
    /// The lines of a copy that are resident.
    pub fn resident_lines(&self, place: Place) -> u64
        requires { IsPlace (parts_of self.now).plan place }
        ensures { let parts = parts_of self.now in
            result ≡ resident_lines (copy_at place parts.arena parts.minis) }
    {
        match place {
            Place::Absent => 0,
            Place::Full(full) => self.arena.resident(full),
            Place::Mini(mini) => self.minis.mask(mini).resident,
        }
    }

    /// The lines of a copy that are dirty.
    pub fn dirty_lines(&self, place: Place) -> u64
        requires { IsPlace (parts_of self.now).plan place }
        ensures { let parts = parts_of self.now in
            result ≡ dirty_at place parts.full_dirty parts.minis }
    {
        match place {
            Place::Absent => 0,
            Place::Full(full) => self.full_dirty[full as usize],
            Place::Mini(mini) => self.minis.mask(mini).dirty,
        }
    }

    /// A line of a full copy, where it is resident.
    pub fn full_line(&self, full: u32, line: usize) -> Option<Line>
        requires place { IsPlace (parts_of self.now).plan (Place.Full full) }
        requires line { line < 64 }
        ensures { let parts = parts_of self.now in
            result ≡ line_at (copy_at (Place.Full full) parts.arena parts.minis) line }
    {
        if has_line(self.arena.resident(full), line) {
            Some(self.arena.line(full, line))
        } else {
            None
        }
    }

    /// A line of a copy, where it is resident.
    pub fn copy_line(&self, place: Place, line: usize) -> Option<Line>
        requires place { IsPlace (parts_of self.now).plan place }
        requires line { line < 64 }
        ensures { let parts = parts_of self.now in
            result ≡ line_at (copy_at place parts.arena parts.minis) line }
    {
        match place {
            Place::Absent => None,
            Place::Full(full) => self.full_line(full, line),
            Place::Mini(mini) => self.minis.find(mini, line),
        }
    }

    /// Puts a line of a copy into a buffer, where it is resident.
    fn put_copy_line(&self, place: Place, line: usize, into: &mut PageBuf)
        requires place { IsPlace (parts_of self.now).plan place }
        requires line { line < 64 }
        ensures { HoldsCopy (parts_of self.now) place line into.old
            → HoldsCopy (parts_of self.now) place (line + 1) into.new }
    {
        if let Some(value) = self.copy_line(place, line) {
            set_page_line(into, line, &whole_line(&value));
        }
    }

    /// Puts the resident lines of a copy into a buffer.
    pub(crate) fn put_copy(&self, place: Place, into: &mut PageBuf)
        requires { IsPlace (parts_of self.now).plan place }
        ensures { HoldsCopy (parts_of self.now) place 64 into.new }
    {
        for line in 0..64usize {
            self.put_copy_line(place, line, into);
        }
    }

    /// Makes the lines of a copy clean.
    pub(crate) fn clean_copy(&mut self, place: Place)
        requires { IsPlace (parts_of self.old).plan place }
        ensures parts { parts_of self.new ≡ copy_cleaned place (parts_of self.old) }
        ensures same { SameSizes self.old self.new }
    {
        match place {
            Place::Absent => {}
            Place::Full(full) => self.full_dirty[full as usize] = 0,
            Place::Mini(mini) => self.minis.clean(mini),
        }
    }

    /// A full copy without lines is dropped from its place.
    fn empty_full(&mut self, full: u32)
        requires { full < self.old.policy.dram_frames }
        ensures parts { parts_of self.new ≡ place_emptied (Place.Full full) (parts_of self.old) }
        ensures same { SameSizes self.old self.new }
    {
        self.arena.clear(full);
        self.full_dirty[full as usize] = 0;
        self.full_clock.remove(full);
    }

    /// A mini copy is dropped from its place.
    fn empty_mini(&mut self, mini: u32)
        requires { mini < self.old.policy.minis }
        ensures parts { parts_of self.new ≡ place_emptied (Place.Mini mini) (parts_of self.old) }
        ensures same { SameSizes self.old self.new }
    {
        self.minis.clear(mini);
        self.mini_clock.remove(mini);
    }

    /// Nothing stands at a place any more.
    fn empty_place(&mut self, place: Place)
        requires { IsPlace (parts_of self.old).plan place }
        ensures parts { parts_of self.new ≡ place_emptied place (parts_of self.old) }
        ensures same { SameSizes self.old self.new }
    {
        match place {
            Place::Absent => {}
            Place::Full(full) => self.empty_full(full),
            Place::Mini(mini) => self.empty_mini(mini),
        }
    }

    /// The page's copy is dropped.
    pub(crate) fn drop_copy(&mut self, page: u64)
        requires { page < pages (sizes_of self.old.geometry) }
        ensures parts { parts_of self.new ≡ copy_dropped page (parts_of self.old) }
        ensures same { SameSizes self.old self.new }
    {
        let place = self.place(page);
        self.empty_place(place);
        self.map.clear_dram(page);
    }
}
