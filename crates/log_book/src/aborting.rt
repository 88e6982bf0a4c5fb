//! An abort: the records of the open group, read back from the last to the first, and its end.
ghost use Rattle.std.specs.Prelude.{◌≡◌, ◌+◌, ◌-◌, ◌≤◌, ◌<◌, ◌^◌, IfOk};
ghost use Rattle.devices.specs.World.{Goes};
ghost use Rattle.store_model.specs.Layout.{nvm_lines, ssd_blocks, ring_lines};
ghost use Rattle.log_records.specs.Back.{IsBack, BackCause};

use crate::book::LogBook;
use crate::putting::put_end;
use devices::Devices;
use line_pages::Stop;
use log_records::{BeforeImage, read_last};
use nvm_log::EndKind;

impl LogBook {
    ghost use Rattle.transaction_facts.specs.Books.{HeldGoal};
    ghost use Rattle.log_book.specs.LogData.{data_of, book_sizes, group_closed, Becomes};
    ghost use Rattle.log_book.specs.Open.{BackIn, ReadBackIn, DoneIn, AbortedIn};
    ghost use Rattle.log_book.specs.Calls.{ForTiers};
    ghost use Rattle.log_book.specs.Undoing.{UndoesFor};

    /// Reads back the last of the open group's records that stand up to an offset, where those behind it were taken back. `None` where
    /// there is none. Nothing waits.
    ///
    /// `Nvm` and `Ssd` where that count of faults rose. `Damaged` with the line of the log where the record's head was to stand.
    pub fn last_record<D: Devices>(
        &self,
        dev: &mut D,
        end: u64,
    ) -> Result<Option<BeforeImage>, Stop>
        requires begins { self.now.log.start ≤ self.now.first }
        requires order { self.now.first ≤ end }
        requires within { end ≤ self.now.log.tail }
        requires fits { nvm_lines (book_sizes self.now) ≤ (D.standing dev.old).lines }
        requires blocks { ssd_blocks (book_sizes self.now) ≤ (D.standing dev.old).blocks }
        ensures found { IfOk result
            (IsBack self.now.log self.now.first end (D.standing dev.old) (D.standing dev.new)) }
        ensures cause { BackCause self.now.log (end - 3) (D.standing dev.old)
            (D.standing dev.new) result }
        ensures goes { Goes (D.standing dev.old) (D.standing dev.new) }
        ensures leads { UndoesFor (book_sizes self.now)
            (λ t. BackIn end t (data_of self.now)) (λ t. ReadBackIn result t (data_of self.now))
            (D.standing dev.old) (D.standing dev.new) result }
    {
        read_last(&self.log, dev, self.first, end)
    }

    /// Ends the open group as an abort, behind its records, all of which were taken back. The ring in NVM has a free line. `Nvm` where
    /// that count of faults rose; no further call is made then.
    pub fn end_abort<D: Devices>(&mut self, dev: &mut D) -> Result<(), Stop>
        requires room { self.old.log.written + 1
            ≤ self.old.log.drained + ring_lines (book_sizes self.old) }
        requires below { self.old.log.written < 2 ^ 62 }
        requires fits { nvm_lines (book_sizes self.old) ≤ (D.standing dev.old).lines }
        ensures becomes { Becomes (group_closed (data_of self.old)) self.old self.new result }
        ensures leads { ForTiers (book_sizes self.old) HeldGoal
            (λ t. DoneIn t (data_of self.old)) (λ t. AbortedIn t (data_of self.new))
            (D.standing dev.old) (D.standing dev.new) result }
    {
        put_end(&mut self.log, dev, EndKind::Abort)?;
        self.first = self.log.tail();
        Ok(())
    }
}
