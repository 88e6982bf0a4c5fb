//! The end of a transaction whose changes are taken back.
ghost use Rattle.std.specs.Prelude.{◌≡◌, true, OnOk, IfErr, IsTrue};

use crate::store::Store;
use crate::undo::undo;
use devices::Devices;
use line_pages::Stop;

impl<'a, D: Devices> Store<'a, D> {
    ghost use Rattle.flat_transactions.specs.OpenStore.{account};
    ghost use Rattle.flat_transactions.specs.StoreStanding.{book_sizes, IsReady, IsSteady};
    ghost use Rattle.flat_transactions.specs.StoreCalls.{StoreCall, IsCommitted, AbortsLines, Ends};
    ghost use Rattle.flat_transactions.specs.TakenBack.{AbortCause, IsNvm};

    /// Ends the open transaction and takes its changes back: the current lines are the committed ones.
    ///
    /// The before images of its records are written in their places, from the last record to the first, and then an abort is
    /// put into the log. At each moment what a crash leaves recovers to the committed lines.
    ///
    /// `Nvm` where that count of faults rose. `Damaged` with a line of the log, between its start and its tail, that was to be
    /// the head of a record and fails check 7, its kind is not 1, or 8, its page or its line is none of the store's. It never
    /// comes of a device that is told.
    #[tactic(auto, using(crate::proofs::SizeLaws::pages_framed))]
    pub fn abort(&mut self) -> Result<(), Stop>
        requires ready { IsReady self.old.book.now (D.standing self.old.dev.now) }
        requires is_open { (account self.old.book.now).is_open ≡ true }

        // What Ok means.
        ensures lines { IsTrue (D.standing self.old.dev.now).told
            → OnOk result
            (AbortsLines self.old.book.now (D.standing self.old.dev.now) self.new.book.now
            (D.standing self.new.dev.now)) }
        ensures ends { OnOk result (Ends self.old.book.now self.new.book.now) }
        ensures ready { OnOk result (IsReady self.new.book.now (D.standing self.new.dev.now)) }
        ensures steady { IsSteady self.old.book.now (D.standing self.old.dev.now)
            → OnOk result (IsSteady self.new.book.now (D.standing self.new.dev.now)) }

        // Why it stops.
        ensures cause { AbortCause (book_sizes self.old.book.now) (account self.old.book.now).start
            (account self.old.book.now).tail (D.standing self.old.dev.now)
            (D.standing self.new.dev.now) result }
        ensures sound { IsTrue (D.standing self.old.dev.now).told → IfErr result IsNvm }

        // What stays, however far it gets.
        ensures call { StoreCall (IsCommitted (D.standing self.old.dev.now)) self.old.book.now
            (D.standing self.old.dev.now) self.new.book.now (D.standing self.new.dev.now) }
        ensures same_references { (self.new.book.ghost_name ≡ self.old.book.ghost_name)
            × (self.new.dev.ghost_name ≡ self.old.dev.ghost_name) }
        ensures before { self.new.before ≡ self.old.before }
    {
        let book = &mut *self.book;
        undo(&mut book.log, self.dev, book.first)?;
        book.close();
        Ok(())
    }
}
