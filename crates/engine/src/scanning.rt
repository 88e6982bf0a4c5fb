//! The rows of a scan, one by one.
ghost use Rattle.std.specs.Prelude.{◌≡◌, ◌∷◌, ◌<◌, ◌≤◌, false, IsTrue, IfOk, OnOk, OnErr};
ghost use Rattle.line_pages.specs.Standing.{HasCause, last_count};
ghost use Rattle.rows.specs.Tables.{rows_of};
ghost use Rattle.table_store.specs.Scanning.{next_of};
ghost use Rattle.script.specs.Tables.{rows_or_none};
ghost use Rattle.script.specs.Machine.{State, current as seen_tables};
ghost use Rattle.engine.specs.Commands.{shown};
ghost use Rattle.engine.specs.Causes.{IsRowDamage};
ghost use Rattle.engine.specs.Engine.{engine_reach, evidence_bytes, StandsFor, Shows};
ghost use Rattle.engine.specs.Scanning.{behind, ended, reply_by, scan_by, Gives};
ghost use Rattle.engine.specs.Steps.{Does, scan_replies, calls_left};
ghost use Rattle.engine.specs.Resting.{Reads};

use crate::engine::Engine;
use crate::scan::Scan;
use devices::{Devices, World};
use flat_transactions::Store;
use line_pages::Stop;
use rows::Value;
use script::Reply;
use table_store::{Next, scan_next};

impl Scan {
    /// The end of the scan.
    fn finish(&mut self) -> Reply
        ensures reply { result ≡ Reply.Finish self.old.count }
        ensures over { self.new ≡ ended self.old }
    {
        self.over = true;
        Reply::Finish(self.count)
    }

    /// A row of the scan; the keys behind it are still to come.
    fn give(&mut self, key: u64, value: Value) -> Reply
        requires { key ≤ self.old.to }
        ensures reply { result ≡ Reply.Row key value }
        ensures left { self.new ≡ behind key self.old }
    {
        self.count = self.count.saturating_add(1);
        if key == self.to {
            self.from = 1;
            self.to = 0;
        } else {
            self.from = key + 1;
        }
        Reply::Row(key, value)
    }

    /// Gives what was found, if it is a row within the bounds.
    fn take(&mut self, next: Next) -> Reply
        ensures reply { result ≡ reply_by self.old next }
        ensures left { self.new ≡ scan_by self.old next }
    {
        match next {
            Next::Row(key, value) => {
                if self.from <= key && key <= self.to {
                    self.give(key, value)
                } else {
                    self.finish()
                }
            }
            Next::End => self.finish(),
            Next::NoTable => self.finish(),
        }
    }
}

impl Engine {
    /// The next row of a scan, or its end. It begins with the end of the open access where a row was given before.
    ///
    /// Behind a row its keys begin at the next one, and behind the greatest key there is none; at its end it is over. It stops for a
    /// fault whose count rose, or for damage of a page, which stands in `evidence_page`.
    pub fn next_row<W: World>(&mut self, world: &mut W, scan: &mut Scan) -> Result<Reply, Stop>
        requires stands { StandsFor self.old (W.Devices.standing world.old) }
        requires left { scan.old.over ≡ false }
        // what it gives
        ensures replies { IsTrue (W.Devices.standing world.old).told → (s : State) → Shows self.old (W.Devices.standing world.old) s → scan.old.count < last_count
            → IfOk result (λ reply. scan_replies scan.old (rows_or_none scan.old.name (seen_tables s)) ≡ reply ∷ scan_replies scan.new (rows_or_none scan.old.name (seen_tables s))) }
        ensures gives { IfOk result (λ reply. Gives scan.old reply scan.new) }
        ensures fewer { OnOk result (calls_left scan.new < calls_left scan.old) }
        // why it stops
        ensures cause { HasCause (IsRowDamage self.old (W.Devices.standing world.old) (evidence_bytes self.new)) (shown self.old (W.Devices.standing world.old)) (shown self.new (W.Devices.standing world.new)) result }
        ensures reads { Reads self.old (W.Devices.standing world.old) self.new (W.Devices.standing world.new) result }
        ensures same { OnErr result (scan.new ≡ scan.old) }
        // what it does
        ensures does { Does (λ s. s) self.old (W.Devices.standing world.old) self.new (W.Devices.standing world.new) result }
        ensures same_reach { OnOk result (engine_reach self.new ≡ engine_reach self.old) }
    {
        self.rest_after(scan.count);
        let next = self.seek(world, scan)?;
        Ok(scan.take(next))
    }

    /// Ends the open access where rows were given.
    fn rest_after(&mut self, rows: u64)
        ensures { self.new ≡ record self.old { book = record self.old.book { accesses = self.new.book.accesses } } }
    {
        if rows > 0 {
            self.book.rest();
        }
    }

    /// What stands next in the bounds of a scan.
    fn seek<W: World>(&mut self, world: &mut W, scan: &Scan) -> Result<Next, Stop>
        requires { StandsFor self.old (W.Devices.standing world.old) }
        ensures reply { IsTrue (W.Devices.standing world.old).told → (s : State) → Shows self.old (W.Devices.standing world.old) s → IfOk result (λ next. reply_by scan.now next ≡ reply_by scan.now (next_of scan.now.from scan.now.to (rows_of scan.now.name (seen_tables s)))) }
        ensures left { IsTrue (W.Devices.standing world.old).told → (s : State) → Shows self.old (W.Devices.standing world.old) s → IfOk result (λ next. scan_by scan.now next ≡ scan_by scan.now (next_of scan.now.from scan.now.to (rows_of scan.now.name (seen_tables s)))) }
        ensures cause { HasCause (IsRowDamage self.old (W.Devices.standing world.old) (evidence_bytes self.new)) (shown self.old (W.Devices.standing world.old)) (shown self.new (W.Devices.standing world.new)) result }
        ensures reads { Reads self.old (W.Devices.standing world.old) self.new (W.Devices.standing world.new) result }
        ensures does { Does (λ s. s) self.old (W.Devices.standing world.old) self.new (W.Devices.standing world.new) result }
        ensures same_reach { OnOk result (engine_reach self.new ≡ engine_reach self.old) }
    {
        if scan.from > scan.to {
            return Ok(Next::End);
        }
        let mut store = Store::over(&mut self.book, world);
        let next = scan_next(
            &mut store,
            &self.limits,
            &scan.name,
            scan.from,
            scan.to,
            &mut self.work,
        )?;
        Ok(next)
    }
}
