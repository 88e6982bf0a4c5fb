//! The log of a store, the lines that its records name, and its open group.
ghost use Rattle.std.specs.Prelude.{◌≡◌, ◌+◌, ◌≤◌, ◌<◌, ◌^◌, Ok, OnErr};
ghost use Rattle.store_model.specs.Layout.{pages, nvm_lines, ring_lines};

use crate::putting::{put_harden, put_record};
use devices::Devices;
use line_pages::{LineSet, Stop};
use nvm_log::{LineRecord, Log};

/// The log of a store, the lines of pages that its records name, and the offset at which the open group begins: that behind all
/// that is stored where it has no record.
#[derive(Drop)]
pub struct LogBook {
    /// The log.
    pub log: Log,
    /// The lines that its records name.
    pub loose: LineSet,
    /// The offset at which the open group begins.
    pub first: u64,
}

impl LogBook {
    ghost use Rattle.line_pages.specs.LineSets.{pages_of};
    ghost use Rattle.transaction_facts.specs.Books.{HeldGoal};
    ghost use Rattle.log_book.specs.LogData.{data_of, book_sizes, with_record, with_line, all_hardened, Becomes, SameSizes, SameRange};
    ghost use Rattle.log_book.specs.Open.{ReadyIn, RecordedIn};
    ghost use Rattle.log_book.specs.Calls.{ForTiers, KeepsOpen, KeepsRecorded};

    /// The book of a log that is empty, with the lines that its records name.
    pub fn new(log: Log, loose: LineSet) -> LogBook
        ensures { result ≡ record { log = log; loose = loose; first = log.written } }
    {
        LogBook {
            first: log.written(),
            log,
            loose,
        }
    }

    /// Stores a record behind all that is stored; it waits. Its line is among those that records name from then on. The ring in NVM has
    /// three free lines, and the record's line before is the current one. `Nvm` where that count of faults rose; no further call is
    /// made then.
    pub fn record<D: Devices>(&mut self, dev: &mut D, change: &LineRecord) -> Result<(), Stop>
        requires page { change.now.page < pages (book_sizes self.old) }
        requires line { change.now.line < 64 }
        requires marks { pages (book_sizes self.old) ≤ pages_of self.old.loose }
        requires room { self.old.log.written + 3
            ≤ self.old.log.drained + ring_lines (book_sizes self.old) }
        requires below { self.old.log.written < 2 ^ 62 }
        requires fits { nvm_lines (book_sizes self.old) ≤ (D.standing dev.old).lines }
        ensures stays { OnErr result (SameRange self.old.log self.new.log) }
        ensures start { self.new.log.start ≡ self.old.log.start }
        ensures becomes { Becomes
            (with_record change.now.page change.now.line (data_of self.old)) self.old self.new
            result }
        ensures leads { ForTiers (book_sizes self.old) HeldGoal
            (λ t. ReadyIn change.now.page change.now.line (Ok change.now.before) t
            (data_of self.old))
            (λ t. RecordedIn change.now.page change.now.line change.now.after t (data_of self.new))
            (D.standing dev.old) (D.standing dev.new) result }
    {
        put_record(&mut self.log, dev, change)?;
        self.loose.insert(change.page, change.line as usize);
        Ok(())
    }

    /// Puts a line among those that records name.
    pub fn name_line(&mut self, page: u64, line: usize)
        requires page { page < pages_of self.old.loose }
        requires line { line < 64 }
        ensures data { data_of self.new ≡ with_line page line (data_of self.old) }
        ensures same { SameSizes self.old self.new }
    {
        self.loose.insert(page, line);
    }

    /// Makes all that waits part of the log. No device call is made where nothing waits. `Nvm` where that count of faults rose; no
    /// further call is made then.
    pub fn harden<D: Devices>(&mut self, dev: &mut D) -> Result<(), Stop>
        requires fits { nvm_lines (book_sizes self.old) ≤ (D.standing dev.old).lines }
        ensures becomes { Becomes (all_hardened (data_of self.old)) self.old self.new result }
        ensures open { KeepsOpen (book_sizes self.old) (data_of self.old) (data_of self.new)
            (D.standing dev.old) (D.standing dev.new) result }
        ensures range { SameRange self.old.log self.new.log }
        ensures recorded { KeepsRecorded (book_sizes self.old) (data_of self.old) (data_of self.new)
            (D.standing dev.old) (D.standing dev.new) result }
    {
        put_harden(&mut self.log, dev)
    }
}
