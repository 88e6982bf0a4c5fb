//! What is counted of the tiers.

/// What the tiers did since the store was opened. Each count stands still at 2^64 - 1.
#[derive(Clone, Copy, Debug, PartialEq, Eq)]
pub struct Tally {
    /// Accesses that began with a copy of their page in DRAM.
    pub dram_hits: u64,
    /// Accesses that began with their page in an NVM frame, and no copy in DRAM.
    pub nvm_hits: u64,
    /// Reads of a page's home block on the SSD.
    pub fetches: u64,
    /// Pages that were put into an NVM frame.
    pub nvm_installs: u64,
    /// Copies that were made in DRAM over an NVM frame.
    pub dram_loads: u64,
    /// Lines that were loaded from an NVM frame into a copy.
    pub lines: u64,
    /// Mini copies that became full ones.
    pub promotions: u64,
    /// Copies that left DRAM so that another one had room.
    pub dram_evictions: u64,
    /// Pages that left NVM so that another one had room.
    pub nvm_evictions: u64,
    /// Pages that passed through the pass-through frame to their home block.
    pub passes: u64,
    /// Dirty copies that became clean and stayed.
    pub cleaned: u64,
    /// Lines of the log that were read from the SSD.
    pub log_reads: u64,
}
