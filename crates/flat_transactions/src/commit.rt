//! The end of a transaction whose changes stand.
ghost use Rattle.std.specs.Prelude.{◌≡◌, true, OnOk, IsTrue};
ghost use Rattle.devices.specs.World.{now};
ghost use Rattle.flat_store_laws.specs.ShownPages.{pages_in};

use crate::store::Store;
use devices::{Devices, Failed};
use flat_nvm_log::EndKind;
use line_pages::Stop;

impl<'a, D: Devices> Store<'a, D> {
    ghost use Rattle.flat_transactions.specs.OpenStore.{account};
    ghost use Rattle.flat_transactions.specs.StoreStanding.{book_sizes, IsReady, IsSteady};
    ghost use Rattle.flat_transactions.specs.StoreCalls.{StoreCall, IsOldOrNew, CommitsLines, LeavesOnly, Ends, FaultCause};

    /// Ends the open transaction: its lines become the committed ones.
    ///
    /// It is one put of one line into the log. Up to the moment at which the log's tail moves over it, what a crash leaves
    /// recovers to the lines that were committed before, and from then on to the new ones.
    ///
    /// `Nvm` where that count of faults rose; then either may stand.
    pub fn commit(&mut self) -> Result<(), Stop>
        requires ready { IsReady self.old.book.now (D.standing self.old.dev.now) }
        requires is_open { (account self.old.book.now).is_open ≡ true }

        // What Ok means.
        ensures lines { IsTrue (D.standing self.old.dev.now).told
            → OnOk result
            (CommitsLines self.old.book.now (D.standing self.old.dev.now) self.new.book.now
            (D.standing self.new.dev.now)) }
        ensures leaves { IsTrue (D.standing self.old.dev.now).told
            → IsSteady self.old.book.now (D.standing self.old.dev.now)
            → OnOk result
            (LeavesOnly (book_sizes self.old.book.now)
            (pages_in (book_sizes self.old.book.now) (now (D.standing self.old.dev.now)))
            (D.standing self.new.dev.now)) }
        ensures ends { OnOk result (Ends self.old.book.now self.new.book.now) }
        ensures ready { OnOk result (IsReady self.new.book.now (D.standing self.new.dev.now)) }
        ensures steady { IsSteady self.old.book.now (D.standing self.old.dev.now)
            → OnOk result (IsSteady self.new.book.now (D.standing self.new.dev.now)) }

        // Why it fails.
        ensures cause { FaultCause (D.standing self.old.dev.now)
            (D.standing self.new.dev.now) result }

        // What stays, however far it gets.
        ensures call { StoreCall
            (IsOldOrNew self.old.book.now (D.standing self.old.dev.now)) self.old.book.now
            (D.standing self.old.dev.now) self.new.book.now (D.standing self.new.dev.now) }
        ensures same_references { (self.new.book.ghost_name ≡ self.old.book.ghost_name)
            × (self.new.dev.ghost_name ≡ self.old.dev.ghost_name) }
        ensures before { self.new.before ≡ self.old.before }
    {
        let book = &mut *self.book;
        match book.log.end(self.dev, EndKind::Commit) {
            Ok(()) => {
                book.close();
                Ok(())
            }
            Err(Failed) => Err(Stop::Nvm),
        }
    }
}
