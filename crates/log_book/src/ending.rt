//! The end of a group, and a log that is emptied.
ghost use Rattle.std.specs.Prelude.{◌≡◌, ◌+◌, ◌≤◌, ◌<◌, ◌^◌};
ghost use Rattle.store_model.specs.Layout.{nvm_lines, ring_lines};

use crate::book::LogBook;
use crate::putting::{put_end, put_start};
use devices::Devices;
use line_pages::Stop;
use nvm_log::EndKind;

impl LogBook {
    ghost use Rattle.transaction_facts.specs.Books.{HeldEnd};
    ghost use Rattle.log_book.specs.LogData.{data_of, book_sizes, group_closed, made_empty, Becomes};
    ghost use Rattle.log_book.specs.Open.{OpenIn, CommittedIn};
    ghost use Rattle.log_book.specs.Calls.{ForTiers, Empties};

    /// Ends the open group as a commit, with all that waits: its lines are the committed ones then. The ring in NVM has a free line. `Nvm`
    /// where that count of faults rose; then the group may stand or not.
    pub fn commit<D: Devices>(&mut self, dev: &mut D) -> Result<(), Stop>
        requires room { self.old.log.written + 1
            ≤ self.old.log.drained + ring_lines (book_sizes self.old) }
        requires below { self.old.log.written < 2 ^ 62 }
        requires fits { nvm_lines (book_sizes self.old) ≤ (D.standing dev.old).lines }
        ensures becomes { Becomes (group_closed (data_of self.old)) self.old self.new result }
        ensures leads { ForTiers (book_sizes self.old) HeldEnd
            (λ t. OpenIn t (data_of self.old)) (λ t. CommittedIn t (data_of self.new))
            (D.standing dev.old) (D.standing dev.new) result }
    {
        put_end(&mut self.log, dev, EndKind::Commit)?;
        self.first = self.log.tail();
        Ok(())
    }

    /// Empties the log: its start becomes its tail, and its records name no line. Nothing waits and no record is open, and every page's
    /// home is durable and current. `Nvm` where that count of faults rose; no further call is made then.
    pub fn empty<D: Devices>(&mut self, dev: &mut D) -> Result<(), Stop>
        requires nothing { self.old.log.written ≡ self.old.log.tail }
        requires none_open { self.old.first ≡ self.old.log.written }
        requires fits { nvm_lines (book_sizes self.old) ≤ (D.standing dev.old).lines }
        ensures becomes { Becomes (made_empty (data_of self.old)) self.old self.new result }
        ensures leads { Empties (book_sizes self.old) (data_of self.old) (data_of self.new)
            (D.standing dev.old) (D.standing dev.new) result }
    {
        put_start(&mut self.log, dev)?;
        self.loose.clear();
        Ok(())
    }
}
