//! The tally: a function for each count, which stands still at the end of its type.
ghost use Rattle.std.specs.Prelude.{◌≡◌};
ghost use Rattle.tier_rules.specs.Tallies.{counted, zero_tally};

use tier_rules::Tally;

/// Nothing was counted.
pub(crate) fn nothing_counted() -> Tally
    ensures { result ≡ zero_tally }
{
    Tally {
        dram_hits: 0,
        nvm_hits: 0,
        fetches: 0,
        nvm_installs: 0,
        dram_loads: 0,
        lines: 0,
        promotions: 0,
        dram_evictions: 0,
        nvm_evictions: 0,
        passes: 0,
        cleaned: 0,
        log_reads: 0,
    }
}

/// One more.
pub(crate) fn count_one(count: &mut u64)
    ensures { count.new ≡ counted 1 count.old }
{
    *count = count.saturating_add(1);
}

/// So many more.
pub(crate) fn count_some(count: &mut u64, some: u64)
    ensures { count.new ≡ counted some count.old }
{
    *count = count.saturating_add(some);
}
