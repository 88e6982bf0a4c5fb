//! What is kept of each call that changed a device or the output.
use nvm_model::Line;
use ssd_model::PageBuf;

/// What a call did.
#[derive(Drop)]
pub(crate) enum Step {
    /// A store of one word.
    StoreWord { line: u64, word: usize, value: u64 },
    /// A store of a line.
    StoreLine { line: u64, value: Line },
    /// A flush of a line.
    Flush { line: u64 },
    /// A fence.
    Fence,
    /// A write of a block.
    WriteBlock { block: u64, page: Box<PageBuf> },
    /// A sync.
    Sync,
    /// A write to the output.
    Send,
}

/// A call, with its number among all calls, counted from 1.
#[derive(Drop)]
pub(crate) struct Entry {
    pub(crate) event: u64,
    pub(crate) step: Step,
}

/// So many calls were kept when so many bytes were sent.
#[derive(Clone, Copy, Debug)]
pub(crate) struct Sending {
    pub(crate) moment: usize,
    pub(crate) sent_end: usize,
}

// A call takes little memory.
const _: () = prove!(size_of::<Entry>() <= 96);
