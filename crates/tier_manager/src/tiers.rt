//! The tiers: a pool and what is told of it.
ghost use Rattle.std.specs.Prelude.{◌≡◌, ◌+◌, IfOk, None, length};
ghost use Rattle.store_model.specs.Layout.{pages};
ghost use Rattle.nvm_layout.specs.Sizes.{sizes_of};
ghost use Rattle.tier_rules.specs.Plans.{plan_of};
ghost use Rattle.tier_rules.specs.Opening.{IsTable};
ghost use Rattle.tier_rules.specs.Tallies.{log_lines_read};
ghost use Rattle.tier_pool.specs.Opening.{NamesWithin, IsMadeFor, empty_parts, entries_placed};
ghost use Rattle.tier_manager.specs.Sizes.{trace_room};

use crate::trace::Trace;
use migration_policy::Policy;
use nvm_layout::Geometry;
use nvm_model::NoMemory;
use std::alloc::Global;
use tier_pool::TierPool;
use tier_rules::{Tally, TraceLine};

/// Pages in three tiers.
#[derive(Drop)]
pub struct Tiers {
    pub(crate) pool: TierPool,
    pub(crate) trace: Trace,
}

impl Tiers {
    ghost use Rattle.tier_manager.specs.Fields.{parts_of, SameSizes};
    ghost use Rattle.tier_manager.specs.Steady.{IsSteady};
    ghost use Rattle.tier_manager.specs.Telling.{told_of, nothing_told, told_with, log_reads_told};

    /// The tiers as the words of the frame table say: each frame's entry is 0, or the number of its page plus 1. The last word is
    /// that of the frame through which pages pass. DRAM is empty.
    pub fn new(
        alloc: Global,
        geometry: &Geometry,
        policy: &Policy,
        words: &[u64],
        trace: bool,
    ) -> Result<Tiers, NoMemory>
        requires words { length words.now ≡ geometry.now.frames + 1 }
        requires within { NamesWithin (pages (sizes_of geometry.now)) words.now }
        requires table { IsTable words.now }
        ensures parts { IfOk result (λ made.
            let n = geometry.now.frames in
            parts_of made ≡ entries_placed n words.now (empty_parts (plan_of policy.now) n)) }
        ensures keeps { IfOk result IsSteady }
        ensures told { IfOk result (λ made. told_of made ≡ nothing_told (trace_room geometry.now trace)) }
        ensures of { IfOk result (λ made. IsMadeFor geometry.now policy.now made.pool) }
    {
        Ok(Tiers {
            pool: TierPool::new(alloc, geometry, policy, words)?,
            trace: Trace::new(alloc, geometry, trace)?,
        })
    }

    /// What was counted since the tiers were made.
    pub fn tally(&self) -> Tally
        ensures { result ≡ (parts_of self.now).tally }
    {
        self.pool.tally()
    }

    /// What was told since the trace was cleared, as far as there was room.
    pub fn trace(&self) -> &[TraceLine]
        ensures { result.now ≡ (told_of self.now).lines }
    {
        self.trace.lines()
    }

    /// Nothing is told.
    pub fn clear_trace(&mut self)
        ensures told { told_of self.new ≡ nothing_told (told_of self.old).room }
        ensures pool { self.new.pool ≡ self.old.pool }
    {
        self.trace.clear();
    }

    /// Counts lines of the log that were read from the SSD, and tells them where there were any.
    pub fn count_log_reads(&mut self, count: u64)
        ensures parts { let tally = log_lines_read count (parts_of self.old).tally in
            parts_of self.new ≡ record (parts_of self.old) { tally = tally } }
        ensures told { told_of self.new ≡ log_reads_told count (told_of self.old) }
        ensures keeps { IsSteady self.old → IsSteady self.new }
        ensures same { SameSizes self.old self.new }
    {
        self.pool.count_log_reads(count);
        if count > 0 {
            self.trace.tell(TraceLine::LogReads(count));
        }
    }

    /// No access is open.
    pub fn rest(&mut self)
        ensures parts { parts_of self.new ≡ record (parts_of self.old) { access = None } }
        ensures told { told_of self.new ≡ told_of self.old }
        ensures keeps { IsSteady self.old → IsSteady self.new }
        ensures same { SameSizes self.old self.new }
    {
        self.pool.access = None;
    }
}
