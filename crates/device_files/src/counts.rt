//! How often the calls of a world failed, and how many blocks were read.
ghost use Rattle.std.specs.Prelude.{◌≡◌, ◌+◌, ◌≤◌, min};
ghost use Rattle.devices.specs.World.{last_count};

use devices::Failed;

/// The counts of a world. Each stops at 2^64 - 1.
#[derive(Clone, Copy, Debug, PartialEq, Eq)]
pub struct CallCounts {
    /// Calls on NVM that failed.
    pub nvm_faults: u64,
    /// Calls on the disk that failed.
    pub ssd_faults: u64,
    /// Reads of a block, also those that failed.
    pub block_reads: u64,
    /// Reads of the settings that failed.
    pub settings_faults: u64,
    /// Reads of the script that failed.
    pub source_faults: u64,
    /// Writes to the output that failed.
    pub sink_faults: u64,
}

impl CallCounts {
    ghost use Rattle.device_files.specs.FileWorld.{no_counts};

    /// No call was made.
    pub fn new() -> CallCounts
        ensures { result ≡ no_counts }
    {
        CallCounts {
            nvm_faults: 0,
            ssd_faults: 0,
            block_reads: 0,
            settings_faults: 0,
            source_faults: 0,
            sink_faults: 0,
        }
    }
}

/// Raises a count by one, where it does not stand at its end.
pub fn raise(count: &mut u64)
    ensures raised { count.new ≡ min (count.old + 1) last_count }
    ensures no_less { count.old ≤ count.new }
{
    *count = count.saturating_add(1);
}

/// A call failed: its count rises.
pub fn fault(count: &mut u64) -> Failed
    ensures raised { count.new ≡ min (count.old + 1) last_count }
    ensures no_less { count.old ≤ count.new }
{
    raise(count);
    Failed
}
