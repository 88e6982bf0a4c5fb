//! Whether a touch would change no placement and store nothing to NVM.
ghost use Rattle.std.specs.Prelude.{◌≡◌, ◌<◌, ◌||◌, nat_lt};
ghost use Rattle.page_frame.specs.LineSets.{has_line, line_count};
ghost use Rattle.store_model.specs.Layout.{pages};
ghost use Rattle.nvm_layout.specs.Sizes.{sizes_of};
ghost use Rattle.tier_manager.specs.Quiet.{is_quiet};

use crate::tiers::Tiers;
use tier_map::Place;
use tier_pool::has_line;

/// How many lines a mini copy holds.
pub(crate) const MINI_LINES: u32 = 16;

/// Whether a mini copy with these lines has room for a further one.
#[tactic(auto, using(mini_page::proofs::CountLaws::counted))]
pub(crate) fn has_room(lines: u64) -> bool
    ensures { result ≡ nat_lt (line_count lines) 16 }
{
    lines.count_ones() < MINI_LINES
}

/// Whether a mini copy with these lines has the line, or room for it.
fn has_or_fits(lines: u64, line: usize) -> bool
    requires { line < 64 }
    ensures { result ≡ (has_line lines line || nat_lt (line_count lines) 16) }
{
    has_line(lines, line) || has_room(lines)
}

impl Tiers {
    /// Whether a touch of the line would change no placement and store nothing to NVM.
    pub fn quiet(&self, page: u64, line: usize) -> bool
        requires page { page < pages (sizes_of self.now.pool.geometry) }
        requires line { line < 64 }
        ensures { result ≡ is_quiet self.now page line }
    {
        let place = self.pool.place(page);
        match place {
            Place::Absent => false,
            Place::Full(_) => true,
            Place::Mini(_) => has_or_fits(self.pool.resident_lines(place), line),
        }
    }
}
