//! What a store of pages keeps in memory beside its device.
ghost use Rattle.std.specs.Prelude.{◌≡◌, ◌<◌, ◌≤◌, true, None};
ghost use Rattle.flat_store_meaning.specs.Layout.{pages, nvm_lines, frame_line, is_allowed};

use flat_nvm_layout::Geometry;
use flat_nvm_log::Log;
use line_pages::{Accesses, LineSet};

/// What a store of pages keeps in memory: its log, the lines that the log names, the transaction that is open, and the
/// accesses.
#[derive(Drop)]
pub struct Book {
    /// The log.
    pub(crate) log: Log,
    /// The lines that the log names.
    pub(crate) loose: LineSet,
    /// The offset of the log at which the open group begins; the tail where none is open.
    pub(crate) first: u64,
    /// Whether a transaction is open.
    pub(crate) is_open: bool,
    /// How many writes of it are done.
    pub(crate) accepted: u32,
    /// How many lines may still be written.
    pub(crate) room: u64,
    /// The open access, and the touches so far.
    pub(crate) accesses: Accesses,
}

impl Book {
    ghost use Rattle.flat_transactions.specs.StoreStanding.{book_sizes};
    ghost use Rattle.flat_transactions.specs.BookCalls.{IsNew};
    ghost use Rattle.flat_transactions.specs.OpenStore.{account};

    /// The book of a store just opened, with its log, which is empty, and the geometry of that: no transaction is open, and
    /// nothing is touched.
    pub fn new(log: Log, loose: LineSet, _geometry: &Geometry) -> Book
        requires geometry { log.geometry ≡ _geometry.now }
        requires empty { log.start ≡ log.tail }
        ensures { IsNew log loose result }
    {
        Book {
            first: log.tail(),
            log,
            loose,
            is_open: false,
            accepted: 0,
            room: 0,
            accesses: Accesses::new(),
        }
    }

    /// Whether a transaction is open.
    pub fn is_open(&self) -> bool
        ensures { result ≡ (account self.now).is_open }
    {
        self.is_open
    }

    /// How many writes of the open transaction, or of the last one, were done.
    pub fn accepted(&self) -> u32
        ensures { result ≡ (account self.now).accepted }
    {
        self.accepted
    }

    /// Ends the open access: the next call on a page begins one. No device is needed for it.
    pub fn rest(&mut self)
        ensures same { self.new ≡ record self.old { accesses = self.new.accesses } }
        ensures access { self.new.accesses.open_access ≡ None }
        ensures touches { self.new.accesses.touches.list ≡ self.old.accesses.touches.list }
    {
        self.accesses.end();
    }

    /// The NVM line of a line of a page: page p stands in frame p.
    #[tactic(auto, using(crate::proofs::SizeLaws::page_framed))]
    pub(crate) fn place(&self, page: u64, line: usize) -> u64
        requires allowed { is_allowed (book_sizes self.now) ≡ true }
        requires page { page < pages (book_sizes self.now) }
        requires line { line < 64 }
        ensures place { result ≡ frame_line (book_sizes self.now) page line }
        ensures within { result < nvm_lines (book_sizes self.now) }
    {
        self.log.geometry.frame_line(page as u32, line)
    }
}
