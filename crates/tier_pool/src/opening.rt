//! How the pool is made.
ghost use Rattle.std.specs.Prelude.{◌≡◌, ◌+◌, ◌<◌, IfOk, IfSome, None, Some, length, replicate, false};
ghost use Rattle.store_model.specs.Layout.{pages};
ghost use Rattle.nvm_layout.specs.Sizes.{sizes_of};
ghost use Rattle.tier_rules.specs.Plans.{plan_of};
ghost use Rattle.tier_rules.specs.Opening.{named_page, IsTable};
ghost use Rattle.tier_pool.specs.Fields.{parts_of, SameSizes};
ghost use Rattle.tier_pool.specs.Standing.{IsStanding, IsSteady};
ghost use Rattle.tier_pool.specs.Opening.{NamesWithin, IsMadeFor, empty_parts, entry_placed, entries_placed};
ghost use Rattle.tier_map.specs.Contents.{placement_of, sizes_of as map_sizes_of};
ghost use Rattle.tier_map.specs.Placement.{nothing_placed};
ghost use Rattle.tier_pool.specs.Sizes.{map_sizes};

use crate::counting::nothing_counted;
use crate::pool::TierPool;
use clock_sweep::Clock;
use migration_policy::{AdmissionQueue, Draws, Policy};
use mini_page::MiniArena;
use nvm_layout::Geometry;
use nvm_model::NoMemory;
use page_frame::FrameArena;
use std::alloc::Global;
use tier_map::TierMap;

/// This many masks with no line.
fn no_lines(alloc: Global, count: u32) -> Result<Vec<u64>, NoMemory>
    ensures { IfOk result (λ made. made.items ≡ replicate count 0) }
{
    Ok(vec![in alloc; 0; count as usize]?)
}

/// This many marks that are not set.
fn no_marks(alloc: Global, count: u32) -> Result<Vec<bool>, NoMemory>
    ensures { IfOk result (λ made. made.items ≡ replicate count false) }
{
    Ok(vec![in alloc; false; count as usize]?)
}

/// The map of a store, with nothing placed.
fn empty_map(alloc: Global, geometry: &Geometry, policy: &Policy) -> Result<TierMap, NoMemory>
    ensures placement { IfOk result (λ map. placement_of map ≡ nothing_placed) }
    ensures sizes { IfOk result (λ map. map_sizes_of map ≡ map_sizes geometry.now policy.now) }
{
    TierMap::new(
        alloc,
        geometry.pages(),
        policy.dram_frames,
        policy.minis,
        geometry.frames,
    )
}

/// The page that an entry of the frame table names.
fn named_page(entry: u64) -> Option<u64>
    ensures { result ≡ named_page entry }
{
    if entry == 0 { None } else { Some(entry - 1) }
}

impl TierPool {
    /// The pool as the words of the frame table say: each frame's entry is 0, or the number of its page plus 1. The last word is
    /// that of the frame through which pages pass. DRAM is empty.
    pub fn new(
        alloc: Global,
        geometry: &Geometry,
        policy: &Policy,
        words: &[u64],
    ) -> Result<TierPool, NoMemory>
        requires words { length words.now ≡ geometry.now.frames + 1 }
        requires within { NamesWithin (pages (sizes_of geometry.now)) words.now }
        requires table { IsTable words.now }
        ensures parts { IfOk result (λ made.
            let n = geometry.now.frames in
            parts_of made ≡ entries_placed n words.now (empty_parts (plan_of policy.now) n)) }
        ensures standing { IfOk result (λ made. IsStanding (parts_of made)) }
        ensures steady { IfOk result (λ made. IsSteady (parts_of made)) }
        ensures of { IfOk result (λ made. IsMadeFor geometry.now policy.now made) }
    {
        let mut pool = TierPool::empty(alloc, geometry, policy)?;
        pool.place_frames(words);
        Ok(pool)
    }

    /// A pool with no page placed.
    fn empty(alloc: Global, geometry: &Geometry, policy: &Policy) -> Result<TierPool, NoMemory>
        ensures parts { IfOk result (λ made.
            parts_of made ≡ empty_parts (plan_of policy.now) geometry.now.frames) }
        ensures of { IfOk result (λ made. IsMadeFor geometry.now policy.now made) }
    {
        Ok(TierPool {
            geometry: *geometry,
            policy: *policy,
            map: empty_map(alloc, geometry, policy)?,
            arena: FrameArena::new(alloc, policy.dram_frames)?,
            full_dirty: no_lines(alloc, policy.dram_frames)?,
            minis: MiniArena::new(alloc, policy.minis)?,
            frame_dirty: no_marks(alloc, geometry.frames)?,
            full_clock: Clock::new(alloc, policy.dram_frames)?,
            mini_clock: Clock::new(alloc, policy.minis)?,
            nvm_clock: Clock::new(alloc, geometry.frames)?,
            queue: AdmissionQueue::new(alloc, policy.queue_len)?,
            draws: Draws::new(policy.seed),
            access: None,
            tally: nothing_counted(),
        })
    }

    /// Places each page that an entry of the frame table names.
    fn place_frames(&mut self, words: &[u64])
        requires words { length words.now ≡ self.old.geometry.frames + 1 }
        requires within { NamesWithin (pages (sizes_of self.old.geometry)) words.now }
        requires table { IsTable words.now }
        requires nothing { (parts_of self.old).map ≡ nothing_placed }
        ensures parts { let n = self.old.geometry.frames in
            parts_of self.new ≡ entries_placed n words.now (parts_of self.old) }
        ensures same { SameSizes self.old self.new }
    {
        for frame in 0..self.geometry.frames {
            self.place_named(frame, named_page(words[frame as usize]));
        }
    }

    /// Places the page that an entry names, if it names one.
    fn place_named(&mut self, frame: u32, named: Option<u64>)
        requires frame { frame < self.old.geometry.frames }
        requires within { IfSome named (λ page. page < pages (sizes_of self.old.geometry)) }
        requires homeless { IfSome named (λ page. (parts_of self.old).map.nvm page ≡ None) }
        requires free { (parts_of self.old).map.frame_page frame ≡ None }
        ensures parts { parts_of self.new ≡ entry_placed named frame (parts_of self.old) }
        ensures same { SameSizes self.old self.new }
    {
        if let Some(page) = named {
            self.place_framed(page, frame);
        }
    }

    /// Places a page in a frame that counts as dirty.
    fn place_framed(&mut self, page: u64, frame: u32)
        requires frame { frame < self.old.geometry.frames }
        requires page { page < pages (sizes_of self.old.geometry) }
        requires homeless { (parts_of self.old).map.nvm page ≡ None }
        requires free { (parts_of self.old).map.frame_page frame ≡ None }
        ensures parts { parts_of self.new ≡ entry_placed (Some page) frame (parts_of self.old) }
        ensures same { SameSizes self.old self.new }
    {
        self.map.set_nvm(page, frame);
        self.frame_dirty[frame as usize] = true;
        self.nvm_clock.insert(frame);
    }
}
