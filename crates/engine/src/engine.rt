//! An opened store of tables, and what a line of a script does to it.
use flat_transactions::Book;
use page_format::Work;
use table_store::Limits;

/// A store that stands open: its book, its limits, and how many commits of it were done.
#[derive(Drop)]
pub struct Engine {
    /// What is kept of the store beside its device.
    pub(crate) book: Book,
    /// How many tables and rows there may be.
    pub(crate) limits: Limits,
    /// How many writes a transaction may have.
    pub(crate) writes: u32,
    /// Buffers for the work on pages; damage is shown of the page in them.
    pub(crate) work: Work,
    /// How many commits were done.
    pub(crate) commits: u64,
}
