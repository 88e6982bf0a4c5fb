//! A checkpoint, and what a store whose pages all stay in NVM has not to do.
ghost use Rattle.std.specs.Prelude.{◌≡◌, false, Ok, OnOk, IsTrue};

use crate::emptying::empty_log;
use crate::store::Store;
use devices::{Devices, Failed};
use line_pages::Stop;

impl<'a, D: Devices> Store<'a, D> {
    ghost use Rattle.flat_transactions.specs.OpenStore.{account};
    ghost use Rattle.flat_transactions.specs.StoreStanding.{IsReady, IsSteady};
    ghost use Rattle.flat_transactions.specs.StoreCalls.{StoreCall, IsCommitted, KeepsLines, Checkpoints, FaultCause};

    /// Makes each page durable in its place, and empties the log. No line changes.
    ///
    /// It is a fence, and then the log's start becomes its tail, durable.
    ///
    /// `Nvm` where that count of faults rose.
    pub fn checkpoint(&mut self) -> Result<(), Stop>
        requires ready { IsReady self.old.book.now (D.standing self.old.dev.now) }
        requires closed { (account self.old.book.now).is_open ≡ false }

        // What Ok means.
        ensures lines { IsTrue (D.standing self.old.dev.now).told
            → OnOk result
            (KeepsLines self.old.book.now (D.standing self.old.dev.now) self.new.book.now
            (D.standing self.new.dev.now)) }
        ensures checkpoints { OnOk result (Checkpoints self.old.book.now self.new.book.now) }
        ensures ready { OnOk result (IsReady self.new.book.now (D.standing self.new.dev.now)) }
        ensures steady { IsSteady self.old.book.now (D.standing self.old.dev.now)
            → OnOk result (IsSteady self.new.book.now (D.standing self.new.dev.now)) }

        // Why it fails.
        ensures cause { FaultCause (D.standing self.old.dev.now)
            (D.standing self.new.dev.now) result }

        // What stays, however far it gets.
        ensures call { StoreCall (IsCommitted (D.standing self.old.dev.now)) self.old.book.now
            (D.standing self.old.dev.now) self.new.book.now (D.standing self.new.dev.now) }
        ensures same_references { (self.new.book.ghost_name ≡ self.old.book.ghost_name)
            × (self.new.dev.ghost_name ≡ self.old.dev.ghost_name) }
        ensures before { self.new.before ≡ self.old.before }
    {
        let book = &mut *self.book;
        match empty_log(&mut book.log, self.dev) {
            Ok(()) => {
                book.loose.clear();
                Ok(())
            }
            Err(Failed) => Err(Stop::Nvm),
        }
    }

    /// Nothing: all log lines stay in NVM.
    pub fn drain(&mut self) -> Result<(), Stop>
        requires ready { IsReady self.old.book.now (D.standing self.old.dev.now) }
        ensures lines { IsTrue (D.standing self.old.dev.now).told
            → OnOk result
            (KeepsLines self.old.book.now (D.standing self.old.dev.now) self.new.book.now
            (D.standing self.new.dev.now)) }
        ensures keeps { OnOk result (account self.new.book.now ≡ account self.old.book.now) }
        ensures ready { OnOk result (IsReady self.new.book.now (D.standing self.new.dev.now)) }
        ensures steady { IsSteady self.old.book.now (D.standing self.old.dev.now)
            → OnOk result (IsSteady self.new.book.now (D.standing self.new.dev.now)) }
        ensures cause { FaultCause (D.standing self.old.dev.now)
            (D.standing self.new.dev.now) result }
        ensures call { StoreCall (IsCommitted (D.standing self.old.dev.now)) self.old.book.now
            (D.standing self.old.dev.now) self.new.book.now (D.standing self.new.dev.now) }
        ensures ok { result ≡ Ok tt }
        ensures same { (self.new.book.now ≡ self.old.book.now)
            × (self.new.dev.now ≡ self.old.dev.now) }
        ensures same_references { (self.new.book.ghost_name ≡ self.old.book.ghost_name)
            × (self.new.dev.ghost_name ≡ self.old.dev.ghost_name) }
        ensures before { self.new.before ≡ self.old.before }
    {
        Ok(())
    }

    /// Nothing: no page has a copy that could be cleaned.
    pub fn clean(&mut self, _n: u32) -> Result<(), Stop>
        requires ready { IsReady self.old.book.now (D.standing self.old.dev.now) }
        ensures lines { IsTrue (D.standing self.old.dev.now).told
            → OnOk result
            (KeepsLines self.old.book.now (D.standing self.old.dev.now) self.new.book.now
            (D.standing self.new.dev.now)) }
        ensures keeps { OnOk result (account self.new.book.now ≡ account self.old.book.now) }
        ensures ready { OnOk result (IsReady self.new.book.now (D.standing self.new.dev.now)) }
        ensures steady { IsSteady self.old.book.now (D.standing self.old.dev.now)
            → OnOk result (IsSteady self.new.book.now (D.standing self.new.dev.now)) }
        ensures cause { FaultCause (D.standing self.old.dev.now)
            (D.standing self.new.dev.now) result }
        ensures call { StoreCall (IsCommitted (D.standing self.old.dev.now)) self.old.book.now
            (D.standing self.old.dev.now) self.new.book.now (D.standing self.new.dev.now) }
        ensures ok { result ≡ Ok tt }
        ensures same { (self.new.book.now ≡ self.old.book.now)
            × (self.new.dev.now ≡ self.old.dev.now) }
        ensures same_references { (self.new.book.ghost_name ≡ self.old.book.ghost_name)
            × (self.new.dev.ghost_name ≡ self.old.dev.ghost_name) }
        ensures before { self.new.before ≡ self.old.before }
    {
        Ok(())
    }
}
