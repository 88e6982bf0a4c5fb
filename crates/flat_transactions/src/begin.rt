//! The beginning of a transaction, and its next write.
ghost use Rattle.std.specs.Prelude.{◌≡◌, ◌<◌, ◌≤◌, ◌+◌, ◌^◌, true, false, OnOk, IsTrue};

use crate::book::Book;
use crate::store::Store;
use devices::Devices;
use line_pages::Stop;

impl Book {
    ghost use Rattle.flat_transactions.specs.StoreCalls.{has_room};

    /// Whether the log has room for the longest transaction: 640 records of three lines for each write, and an end.
    fn has_room(&self) -> bool
        ensures { result ≡ has_room self.now }
    {
        1920 * self.log.geometry.writes as u64 + 1 <= self.log.free_lines()
    }

    /// A transaction is open, and its first write may begin.
    pub(crate) fn open(&mut self)
        ensures { self.new ≡ record self.old { is_open = true; accepted = 0; room = 640 } }
    {
        self.is_open = true;
        self.accepted = 0;
        self.room = 640;
    }

    /// No transaction is open.
    pub(crate) fn close(&mut self)
        ensures { self.new
            ≡ record self.old { is_open = false; room = 0; first = self.old.log.tail } }
    {
        self.is_open = false;
        self.room = 0;
        self.first = self.log.tail();
    }
}

impl<'a, D: Devices> Store<'a, D> {
    ghost use Rattle.flat_transactions.specs.OpenStore.{account};
    ghost use Rattle.flat_transactions.specs.StoreStanding.{book_sizes, IsReady, IsSteady};
    ghost use Rattle.flat_transactions.specs.StoreCalls.{StoreCall, IsCommitted, KeepsLines, MakesRoom, Begins, NextWrite, FaultCause};

    /// Opens a transaction, whose first write may write 640 lines. No line changes.
    ///
    /// Where the log has no room for the longest transaction, `1920 * writes + 1` lines, a checkpoint is made first. Else no
    /// device call is made.
    ///
    /// `Nvm` where that count of faults rose.
    pub fn begin(&mut self) -> Result<(), Stop>
        requires ready { IsReady self.old.book.now (D.standing self.old.dev.now) }
        requires closed { (account self.old.book.now).is_open ≡ false }
        requires tail { (account self.old.book.now).tail ≤ 2 ^ 61 + 2 ^ 46 }

        // What Ok means.
        ensures lines { IsTrue (D.standing self.old.dev.now).told
            → OnOk result
            (KeepsLines self.old.book.now (D.standing self.old.dev.now) self.new.book.now
            (D.standing self.new.dev.now)) }
        ensures begins { OnOk result (Begins self.old.book.now self.new.book.now) }
        ensures ready { OnOk result (IsReady self.new.book.now (D.standing self.new.dev.now)) }
        ensures steady { IsSteady self.old.book.now (D.standing self.old.dev.now)
            → OnOk result (IsSteady self.new.book.now (D.standing self.new.dev.now)) }

        // Why it fails.
        ensures cause { FaultCause (D.standing self.old.dev.now)
            (D.standing self.new.dev.now) result }

        // What stays, however far it gets.
        ensures call { StoreCall (IsCommitted (D.standing self.old.dev.now)) self.old.book.now
            (D.standing self.old.dev.now) self.new.book.now (D.standing self.new.dev.now) }
        ensures same_references { (self.new.book.ghost_name ≡ self.old.book.ghost_name)
            × (self.new.dev.ghost_name ≡ self.old.dev.ghost_name) }
        ensures before { self.new.before ≡ self.old.before }
    {
        self.make_room()?;
        let book = &mut *self.book;
        book.open();
        Ok(())
    }

    /// Makes a checkpoint where the log has no room for the longest transaction.
    fn make_room(&mut self) -> Result<(), Stop>
        requires ready { IsReady self.old.book.now (D.standing self.old.dev.now) }
        requires closed { (account self.old.book.now).is_open ≡ false }
        ensures lines { IsTrue (D.standing self.old.dev.now).told
            → OnOk result
            (KeepsLines self.old.book.now (D.standing self.old.dev.now) self.new.book.now
            (D.standing self.new.dev.now)) }
        ensures makes { OnOk result (MakesRoom self.old.book.now self.new.book.now) }
        ensures ready { OnOk result (IsReady self.new.book.now (D.standing self.new.dev.now)) }
        ensures steady { IsSteady self.old.book.now (D.standing self.old.dev.now)
            → OnOk result (IsSteady self.new.book.now (D.standing self.new.dev.now)) }
        ensures cause { FaultCause (D.standing self.old.dev.now)
            (D.standing self.new.dev.now) result }
        ensures call { StoreCall (IsCommitted (D.standing self.old.dev.now)) self.old.book.now
            (D.standing self.old.dev.now) self.new.book.now (D.standing self.new.dev.now) }
        ensures same_references { (self.new.book.ghost_name ≡ self.old.book.ghost_name)
            × (self.new.dev.ghost_name ≡ self.old.dev.ghost_name) }
        ensures before { self.new.before ≡ self.old.before }
    {
        let book = &*self.book;
        if book.has_room() {
            Ok(())
        } else {
            self.checkpoint()
        }
    }

    /// Counts a write of the open transaction as done. The next one may write 640 lines; behind the last one, none may be
    /// written. No device call is made.
    pub fn next_write(&mut self)
        requires ready { IsReady self.old.book.now (D.standing self.old.dev.now) }
        requires is_open { (account self.old.book.now).is_open ≡ true }
        requires more { (account self.old.book.now).accepted
            < (book_sizes self.old.book.now).writes }
        ensures next { NextWrite self.old.book.now self.new.book.now }
        ensures accesses { self.new.book.now.accesses ≡ self.old.book.now.accesses }
        ensures device { self.new.dev.now ≡ self.old.dev.now }
        ensures ready { IsReady self.new.book.now (D.standing self.new.dev.now) }
        ensures steady { IsSteady self.old.book.now (D.standing self.old.dev.now)
            → IsSteady self.new.book.now (D.standing self.new.dev.now) }
        ensures same_references { (self.new.book.ghost_name ≡ self.old.book.ghost_name)
            × (self.new.dev.ghost_name ≡ self.old.dev.ghost_name) }
        ensures before { self.new.before ≡ self.old.before }
    {
        let book = &mut *self.book;
        book.accepted += 1;
        book.room = if book.accepted == book.log.geometry.writes {
            0
        } else {
            640
        };
    }
}
