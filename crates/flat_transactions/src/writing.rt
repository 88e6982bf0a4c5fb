//! A line written in place.
ghost use Rattle.std.specs.Prelude.{◌≡◌, ◌≤◌, ◌<◌, IsTrue};
ghost use Rattle.devices.specs.World.{Goes, MakesAll, NvmCause, now};
ghost use Rattle.flat_store_meaning.specs.Layout.{pages};
ghost use Rattle.flat_store_meaning.specs.Put.{append_calls, IsLine};
ghost use Rattle.flat_store_laws.specs.Calls.{write_calls};
ghost use Rattle.flat_nvm_log.specs.Entries.{record_lines};

use crate::book::Book;
use devices::{Devices, Failed};
use flat_nvm_log::{LineRecord, put_line};
use nvm_model::Line;

impl Book {
    ghost use Rattle.flat_transactions.specs.StoreStanding.{book_sizes, IsReady, IsSteady};
    ghost use Rattle.flat_transactions.specs.BookCalls.{IsWritten};
    ghost use Rattle.flat_transactions.specs.StoreCalls.{HoldsAlong};

    /// Writes a line: the record of what stands there and of the value, durable, and then the value in its place, flushed.
    pub(crate) fn write_in_place<D: Devices>(
        &mut self,
        dev: &mut D,
        page: u64,
        line: usize,
        value: &Line,
    ) -> Result<(), Failed>
        requires ready { IsReady self.old (D.standing dev.old) }
        requires page { page < pages (book_sizes self.old) }
        requires line { line < 64 }
        requires room { 1 ≤ self.old.room }
        requires is_line { IsLine value.now }
        ensures written { IsWritten page line self.old self.new result }
        ensures held { IsTrue (D.standing dev.old).told → IsSteady self.old (D.standing dev.old)
            → HoldsAlong (book_sizes self.old) (D.standing dev.old) (D.standing dev.new) }
        ensures makes { MakesAll
            (write_calls (book_sizes self.old) self.old.log.tail page line value.now
            (now (D.standing dev.old))) (D.standing dev.old) (D.standing dev.new) result }
        ensures cause { NvmCause (D.standing dev.old) (D.standing dev.new) result }
        ensures goes { Goes (D.standing dev.old) (D.standing dev.new) }
    {
        let place = self.place(page, line);
        let before = dev.load(place)?;
        let change = LineRecord {
            page,
            line: line as u8,
            before,
            after: *value,
        };
        self.record(dev, &change)?;
        put_line(dev, place, value)
    }

    /// Puts a record into the log, durable, and its line among those that the log names.
    fn record<D: Devices>(&mut self, dev: &mut D, change: &LineRecord) -> Result<(), Failed>
        requires ready { IsReady self.old (D.standing dev.old) }
        requires page { change.now.page < pages (book_sizes self.old) }
        requires line { change.now.line < 64 }
        requires room { 1 ≤ self.old.room }
        ensures written { IsWritten change.now.page change.now.line self.old self.new result }
        ensures makes { MakesAll
            (append_calls (book_sizes self.old) self.old.log.tail (record_lines change.now))
            (D.standing dev.old) (D.standing dev.new) result }
        ensures cause { NvmCause (D.standing dev.old) (D.standing dev.new) result }
        ensures goes { Goes (D.standing dev.old) (D.standing dev.new) }
    {
        self.log.append(dev, change)?;
        self.room -= 1;
        self.loose.insert(change.page, change.line as usize);
        Ok(())
    }
}
