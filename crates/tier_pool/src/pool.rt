//! The fields of the pool, and what is read of them.
ghost use Rattle.std.specs.Prelude.{◌≡◌, None, length};
ghost use Rattle.page_frame.specs.Arena.{frames_of};
ghost use Rattle.mini_page.specs.Minis.{minis_of};
ghost use Rattle.tier_map.specs.Contents.{sizes_of as map_sizes_of};
ghost use Rattle.tier_pool.specs.Sizes.{map_sizes};
ghost use Rattle.tier_rules.specs.Tallies.{log_lines_read};

use crate::counting::count_some;
use clock_sweep::Clock;
use migration_policy::{AdmissionQueue, Draws, Policy};
use mini_page::MiniArena;
use nvm_layout::Geometry;
use page_frame::FrameArena;
use tier_map::{Place, TierMap};
use tier_rules::Tally;

/// Where an access works: in the page's copy, or where it has none, in its frame.
#[derive(Clone, Copy)]
pub struct Spot {
    /// The place of the page's copy.
    pub place: Place,
    /// The page's frame.
    pub frame: Option<u32>,
}

/// The open access: its page, whether it writes, where it works, and the lines that it told of.
#[derive(Clone, Copy)]
pub struct Access {
    /// The number of its page.
    pub page: u64,
    /// Whether it writes.
    pub writes: bool,
    /// Where it works.
    pub spot: Spot,
    /// The lines of which it told, a bit for each.
    pub told: u64,
}

/// Pages in three tiers, and the access that is open.
#[derive(Drop)]
pub struct TierPool {
    /// How large the store is.
    pub geometry: Geometry,
    /// How large the tiers are, and how pages come to them.
    pub policy: Policy,
    pub(crate) map: TierMap,
    pub(crate) arena: FrameArena,
    /// One mask for each full place: the lines of its copy that may differ from their home.
    pub(crate) full_dirty: Vec<u64>,
    pub(crate) minis: MiniArena,
    /// Whether a frame may differ from the home block of its page.
    pub(crate) frame_dirty: Vec<bool>,
    pub(crate) full_clock: Clock,
    pub(crate) mini_clock: Clock,
    pub(crate) nvm_clock: Clock,
    pub(crate) queue: AdmissionQueue,
    pub(crate) draws: Draws,
    /// The open access, if there is one.
    pub access: Option<Access>,
    pub(crate) tally: Tally,
    ghost arena_fits: { length (frames_of arena) ≡ policy.dram_frames },
    ghost marks_fit: { length full_dirty.items ≡ policy.dram_frames },
    ghost minis_fit: { length (minis_of minis) ≡ policy.minis },
    ghost frame_marks_fit: { length frame_dirty.items ≡ geometry.frames },
    ghost full_clock_fits: { length full_clock ≡ policy.dram_frames },
    ghost mini_clock_fits: { length mini_clock ≡ policy.minis },
    ghost nvm_clock_fits: { length nvm_clock ≡ geometry.frames },
    ghost map_fits: { map_sizes_of map ≡ map_sizes geometry policy },
    ghost queue_fits: { queue.len ≡ policy.queue_len },
}

impl TierPool {
    ghost use Rattle.tier_pool.specs.Fields.{parts_of, SameSizes};

    /// What was counted since the tiers were made.
    pub fn tally(&self) -> Tally
        ensures { result ≡ (parts_of self.now).tally }
    {
        self.tally
    }

    /// Counts lines of the log that were read from the SSD.
    pub fn count_log_reads(&mut self, count: u64)
        ensures parts { let tally = log_lines_read count (parts_of self.old).tally in
            parts_of self.new ≡ record (parts_of self.old) { tally = tally } }
        ensures same { SameSizes self.old self.new }
    {
        count_some(&mut self.tally.log_reads, count);
    }
}
