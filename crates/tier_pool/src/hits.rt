//! Touches of a copy or of a frame: they are counted, and the clocks know of them.
ghost use Rattle.std.specs.Prelude.{◌≡◌, ◌<◌};
ghost use Rattle.tier_pool.specs.Fields.{parts_of, SameSizes};
ghost use Rattle.tier_pool.specs.Hits.{full_hit, mini_hit, frame_hit};

use crate::counting::count_one;
use crate::pool::TierPool;

impl TierPool {
    /// A full copy is touched.
    pub fn hit_full(&mut self, full: u32)
        requires { full < self.old.policy.dram_frames }
        ensures parts { parts_of self.new ≡ full_hit full (parts_of self.old) }
        ensures same { SameSizes self.old self.new }
    {
        count_one(&mut self.tally.dram_hits);
        self.full_clock.touch(full);
    }

    /// A mini copy is touched.
    pub fn hit_mini(&mut self, mini: u32)
        requires { mini < self.old.policy.minis }
        ensures parts { parts_of self.new ≡ mini_hit mini (parts_of self.old) }
        ensures same { SameSizes self.old self.new }
    {
        count_one(&mut self.tally.dram_hits);
        self.mini_clock.touch(mini);
    }

    /// A frame is touched.
    pub fn hit_frame(&mut self, frame: u32)
        requires { frame < self.old.geometry.frames }
        ensures parts { parts_of self.new ≡ frame_hit frame (parts_of self.old) }
        ensures same { SameSizes self.old self.new }
    {
        count_one(&mut self.tally.nvm_hits);
        self.nvm_clock.touch(frame);
    }
}
