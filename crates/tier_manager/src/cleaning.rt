//! Cleaning in the background.
ghost use Rattle.std.specs.Prelude.{◌≡◌, ◌<◌, ◌≤◌, IfOk, IfSome, OnOk};
ghost use Rattle.store_model.specs.Layout.{pages};
ghost use Rattle.nvm_layout.specs.Sizes.{sizes_of};
ghost use Rattle.device_calls.specs.Leads.{Leads};
ghost use Rattle.tier_facts.specs.Facts.{Held, Hard, Settled, AreClean};
ghost use Rattle.tier_pool.specs.Calls.{Fits, Stores};
ghost use Rattle.tier_pool.specs.Fields.{SameSizes as SamePool};
ghost use Rattle.tier_pool.specs.Handing.{StandsAt};
ghost use Rattle.tier_pool.specs.Places.{IsPlace};
ghost use Rattle.tier_pool.specs.Standing.{IsSteady as AreSteady};
ghost use Rattle.tier_pool.specs.Storing.{LeadsHard};
ghost use Rattle.tier_manager.specs.Cleaning.{cleaned, minis_cleaned, settled, place_cleaned};
ghost use Rattle.tier_manager.specs.Fields.{parts_of, data_of, SameSizes};
ghost use Rattle.tier_manager.specs.Steady.{IsSteady};
ghost use Rattle.tier_manager.specs.Telling.{told_of, told_with};

use crate::tiers::Tiers;
use device_calls::fence;
use devices::Devices;
use line_pages::Stop;
use tier_map::Place;
use tier_rules::TraceLine;

/// More copies than there are.
const ALL_COPIES: u32 = u32::MAX;

impl Tiers {
    /// The first `count` dirty copies become clean and stay: the full places in ascending order, then the mini places.
    pub fn clean<D: Devices>(&mut self, dev: &mut D, count: u32) -> Result<(), Stop>
        requires fits { Fits self.old.pool.geometry (D.standing dev.old) }
        requires steady { IsSteady self.old }
        ensures call { Stores (D.standing dev.old) (D.standing dev.new) result }
        ensures leads { LeadsHard self.old.pool self.new.pool (D.standing dev.old) (D.standing dev.new) result }
        ensures parts { OnOk result (parts_of self.new ≡ cleaned count (parts_of self.old)) }
        ensures told { told_of self.new ≡ told_with (TraceLine.Clean count) (told_of self.old) }
        ensures keeps { OnOk result (IsSteady self.new) }
        ensures same { SameSizes self.old self.new }
    {
        self.trace.tell(TraceLine::Clean(count));
        self.clean_copies(dev, count)
    }

    /// Every dirty copy becomes clean and stays: each page's home has its current lines, durable.
    pub fn settle_all<D: Devices>(&mut self, dev: &mut D) -> Result<(), Stop>
        requires fits { Fits self.old.pool.geometry (D.standing dev.old) }
        requires steady { IsSteady self.old }
        ensures call { Stores (D.standing dev.old) (D.standing dev.new) result }
        ensures leads { Leads Held (Hard (data_of self.old)) (Settled (data_of self.new))
            (D.standing dev.old) (D.standing dev.new) result }
        ensures clean { OnOk result (AreClean (data_of self.new)) }
        ensures parts { OnOk result (parts_of self.new ≡ settled (parts_of self.old)) }
        ensures told { told_of self.new ≡ told_with TraceLine.Settle (told_of self.old) }
        ensures keeps { OnOk result (IsSteady self.new) }
        ensures same { SameSizes self.old self.new }
    {
        self.trace.tell(TraceLine::Settle);
        self.clean_copies(dev, ALL_COPIES)?;
        fence(dev)
    }

    /// The first dirty copies become clean.
    fn clean_copies<D: Devices>(&mut self, dev: &mut D, count: u32) -> Result<(), Stop>
        requires fits { Fits self.old.pool.geometry (D.standing dev.old) }
        requires steady { AreSteady (parts_of self.old) }
        ensures call { Stores (D.standing dev.old) (D.standing dev.new) result }
        ensures leads { LeadsHard self.old.pool self.new.pool (D.standing dev.old) (D.standing dev.new) result }
        ensures parts { OnOk result (parts_of self.new ≡ cleaned count (parts_of self.old)) }
        ensures told { told_of self.new ≡ told_of self.old }
        ensures keeps { OnOk result (AreSteady (parts_of self.new)) }
        ensures same { SamePool self.old.pool self.new.pool }
    {
        let left = self.clean_fulls(dev, count)?;
        self.clean_minis(dev, left)
    }

    /// The first dirty full copies become clean. The answer is how many more may.
    fn clean_fulls<D: Devices>(&mut self, dev: &mut D, count: u32) -> Result<u32, Stop>
        requires fits { Fits self.old.pool.geometry (D.standing dev.old) }
        requires steady { AreSteady (parts_of self.old) }
        ensures call { Stores (D.standing dev.old) (D.standing dev.new) result }
        ensures leads { LeadsHard self.old.pool self.new.pool (D.standing dev.old) (D.standing dev.new) result }
        ensures parts { IfOk result (λ left.
            minis_cleaned left (parts_of self.new) ≡ cleaned count (parts_of self.old)) }
        ensures told { told_of self.new ≡ told_of self.old }
        ensures keeps { OnOk result (AreSteady (parts_of self.new)) }
        ensures same { SamePool self.old.pool self.new.pool }
    {
        let mut left = count;
        for full in 0..self.pool.policy.dram_frames {
            let page = self.pool.full_page(full);
            left = self.clean_place(dev, page, Place::Full(full), left)?;
        }
        Ok(left)
    }

    /// The first dirty mini copies become clean.
    fn clean_minis<D: Devices>(&mut self, dev: &mut D, count: u32) -> Result<(), Stop>
        requires fits { Fits self.old.pool.geometry (D.standing dev.old) }
        requires steady { AreSteady (parts_of self.old) }
        ensures call { Stores (D.standing dev.old) (D.standing dev.new) result }
        ensures leads { LeadsHard self.old.pool self.new.pool (D.standing dev.old) (D.standing dev.new) result }
        ensures parts { OnOk result (parts_of self.new ≡ minis_cleaned count (parts_of self.old)) }
        ensures told { told_of self.new ≡ told_of self.old }
        ensures keeps { OnOk result (AreSteady (parts_of self.new)) }
        ensures same { SamePool self.old.pool self.new.pool }
    {
        let mut left = count;
        for mini in 0..self.pool.policy.minis {
            let page = self.pool.mini_owner(mini);
            left = self.clean_place(dev, page, Place::Mini(mini), left)?;
        }
        Ok(())
    }

    /// The copy at a place becomes clean, where there is one, it is dirty, and one more may. The answer is how many more may.
    fn clean_place<D: Devices>(
        &mut self,
        dev: &mut D,
        page: Option<u64>,
        place: Place,
        left: u32,
    ) -> Result<u32, Stop>
        requires fits { Fits self.old.pool.geometry (D.standing dev.old) }
        requires place { IsPlace (parts_of self.old).plan place }
        requires page { IfSome page (λ page. page < pages (sizes_of self.old.pool.geometry)) }
        requires stands { IfSome page (λ page. StandsAt page place (parts_of self.old)) }
        ensures call { Stores (D.standing dev.old) (D.standing dev.new) result }
        ensures leads { LeadsHard self.old.pool self.new.pool (D.standing dev.old) (D.standing dev.new) result }
        ensures parts { IfOk result (λ more.
            place_cleaned page place (record { left = left; parts = parts_of self.old })
            ≡ record { left = more; parts = parts_of self.new }) }
        ensures told { told_of self.new ≡ told_of self.old }
        ensures same { SamePool self.old.pool self.new.pool }
    {
        if left == 0 || self.pool.dirty_lines(place) == 0 {
            return Ok(left);
        }
        match page {
            Some(page) => {
                self.pool.write_copy(dev, page, place)?;
                Ok(left - 1)
            }
            None => Ok(left),
        }
    }
}
