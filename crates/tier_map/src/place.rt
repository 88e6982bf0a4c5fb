//! Where a page lies.

/// Where a page lies in DRAM.
#[derive(Clone, Copy, Debug, PartialEq, Eq)]
pub enum Place {
    /// It has no copy there.
    Absent,
    /// A full copy, in the full place of this number.
    Full(u32),
    /// A mini copy, in the mini place of this number.
    Mini(u32),
}

/// Where a page lies in both tiers, as a map keeps it: 16 bytes.
#[derive(Clone, Copy, Debug, PartialEq, Eq)]
pub struct PagePlaces {
    /// Its copy in DRAM.
    pub place: Place,
    /// The number of its frame in NVM, if it has one.
    pub nvm: Option<u32>,
}
