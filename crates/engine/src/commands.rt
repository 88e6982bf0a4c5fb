//! What commands on tables do.
ghost use Rattle.std.specs.Prelude.{◌≡◌, ◌<◌, ◌≤◌, true, Some, IsTrue, IfOk, OnOk};
ghost use Rattle.line_pages.specs.Standing.{HasCause};
ghost use Rattle.rows.specs.Tables.{is_known};
ghost use Rattle.script.specs.Machine.{State, current as seen_tables};
ghost use Rattle.script.specs.declared.command.Command.TheVariants.{Create, Put, Del, Get, Scan as ScanRows};
ghost use Rattle.engine.specs.Commands.{shown, reply_of, reason_of};
ghost use Rattle.engine.specs.Causes.{IsNameDamage, IsRowDamage, IsNewTableDamage, IsNewRowsDamage};
ghost use Rattle.engine.specs.Engine.{has_open, writes_done, most_writes, evidence_bytes, StandsFor, Shows};
ghost use Rattle.engine.specs.Steps.{Does, after_command, IsBegun};
ghost use Rattle.engine.specs.Answers.{Answers};
ghost use Rattle.engine.specs.Resting.{Reads};
ghost use Rattle.engine.specs.Refused.{Stays, LineStaysIfRefused};

use crate::engine::Engine;
use crate::scan::{Scan, Step};
use devices::{Devices, World};
use flat_transactions::Store;
use line_pages::Stop;
use rows::Value;
use script::{Reason, Reply};
use table_store::{Created, Deleted, Got, Name, Stored, has_table};

/// The reply to a look-up.
fn reply_to(got: Got) -> Reply
    ensures { result ≡ reply_of got }
{
    match got {
        Got::Found(value) => Reply::Found(value),
        Got::Absent => Reply::Absent,
        Got::NoTable => Reply::Refused(Reason::Table),
    }
}

/// Why a write is refused that would be one too many, its name being known or new.
fn spent_reason(known: bool, creates: bool) -> Reason
    ensures { result ≡ reason_of known creates }
{
    match (known, creates) {
        (true, true) | (false, false) => Reason::Table,
        (true, false) | (false, true) => Reason::Writes,
    }
}

impl Engine {
    /// Whether a table has the name.
    fn knows<W: World>(&mut self, world: &mut W, name: &Name) -> Result<bool, Stop>
        requires { StandsFor self.old (W.Devices.standing world.old) }
        ensures does { Does (λ s. s) self.old (W.Devices.standing world.old) self.new (W.Devices.standing world.new) result }
        ensures known { IsTrue (W.Devices.standing world.old).told → (s : State) → Shows self.old (W.Devices.standing world.old) s → IfOk result (λ known. known ≡ is_known name.now (seen_tables s)) }
        ensures stays { OnOk result (Stays self.old (W.Devices.standing world.old) self.new (W.Devices.standing world.new)) }
        ensures cause { HasCause (IsNameDamage self.old (W.Devices.standing world.old) (evidence_bytes self.new)) (shown self.old (W.Devices.standing world.old)) (shown self.new (W.Devices.standing world.new)) result }
        ensures reads { Reads self.old (W.Devices.standing world.old) self.new (W.Devices.standing world.new) result }
    {
        let mut store = Store::over(&mut self.book, world);
        let known = has_table(&mut store, &self.limits, name, &mut self.work)?;
        Ok(known)
    }

    /// Refuses a write of a transaction that has had all its writes: for its name, if that is not as it must be.
    #[inline(never)]
    fn refuse_write<W: World>(
        &mut self,
        world: &mut W,
        name: &Name,
        creates: bool,
    ) -> Result<Step, Stop>
        requires { StandsFor self.old (W.Devices.standing world.old) }
        ensures does { Does (λ s. s) self.old (W.Devices.standing world.old) self.new (W.Devices.standing world.new) result }
        ensures refused { IsTrue (W.Devices.standing world.old).told → (s : State) → Shows self.old (W.Devices.standing world.old) s → IfOk result (λ step. step ≡ Step.Said (Reply.Refused (reason_of (is_known name.now (seen_tables s)) creates))) }
        ensures begun { IfOk result IsBegun }
        ensures stays { OnOk result (Stays self.old (W.Devices.standing world.old) self.new (W.Devices.standing world.new)) }
        ensures cause { HasCause (IsNameDamage self.old (W.Devices.standing world.old) (evidence_bytes self.new)) (shown self.old (W.Devices.standing world.old)) (shown self.new (W.Devices.standing world.new)) result }
    {
        let known = self.knows(world, name)?;
        Ok(Step::Said(Reply::Refused(spent_reason(known, creates))))
    }

    /// `get`: the value at a key.
    #[inline(never)]
    pub(crate) fn get<W: World>(
        &mut self,
        world: &mut W,
        name: &Name,
        key: u64,
    ) -> Result<Step, Stop>
        requires { StandsFor self.old (W.Devices.standing world.old) }
        ensures does { Does (after_command self.old (Some (Get name.now key))) self.old (W.Devices.standing world.old) self.new (W.Devices.standing world.new) result }
        ensures replies { Answers self.old (W.Devices.standing world.old) (Some (Get name.now key)) result }
        ensures begun { IfOk result IsBegun }
        ensures refused { IfOk result (LineStaysIfRefused self.old (W.Devices.standing world.old) self.new (W.Devices.standing world.new)) }
        ensures cause { HasCause (IsRowDamage self.old (W.Devices.standing world.old) (evidence_bytes self.new)) (shown self.old (W.Devices.standing world.old)) (shown self.new (W.Devices.standing world.new)) result }
        ensures reads { Reads self.old (W.Devices.standing world.old) self.new (W.Devices.standing world.new) result }
    {
        let mut store = Store::over(&mut self.book, world);
        let got = table_store::get(&mut store, &self.limits, name, key, &mut self.work)?;
        Ok(Step::Said(reply_to(got)))
    }

    /// `scan`: the rows from one key to another, which `next_row` gives.
    #[inline(never)]
    pub(crate) fn scan<W: World>(
        &mut self,
        world: &mut W,
        name: &Name,
        from: u64,
        to: u64,
    ) -> Result<Step, Stop>
        requires { StandsFor self.old (W.Devices.standing world.old) }
        ensures does { Does (after_command self.old (Some (ScanRows name.now from to))) self.old (W.Devices.standing world.old) self.new (W.Devices.standing world.new) result }
        ensures replies { Answers self.old (W.Devices.standing world.old) (Some (ScanRows name.now from to)) result }
        ensures begun { IfOk result IsBegun }
        ensures refused { IfOk result (LineStaysIfRefused self.old (W.Devices.standing world.old) self.new (W.Devices.standing world.new)) }
        ensures cause { HasCause (IsNameDamage self.old (W.Devices.standing world.old) (evidence_bytes self.new)) (shown self.old (W.Devices.standing world.old)) (shown self.new (W.Devices.standing world.new)) result }
        ensures reads { Reads self.old (W.Devices.standing world.old) self.new (W.Devices.standing world.new) result }
    {
        if !self.knows(world, name)? {
            return Ok(Step::Said(Reply::Refused(Reason::Table)));
        }
        Ok(Step::Scanning(Scan {
            name: name.copy(),
            from,
            to,
            count: 0,
            over: false,
        }))
    }

    /// `create`: a table without rows, in an open transaction.
    #[inline(never)]
    pub(crate) fn create<W: World>(&mut self, world: &mut W, name: &Name) -> Result<Step, Stop>
        requires stands { StandsFor self.old (W.Devices.standing world.old) }
        requires is_open { has_open self.old ≡ true }
        ensures does { Does (after_command self.old (Some (Create name.now))) self.old (W.Devices.standing world.old) self.new (W.Devices.standing world.new) result }
        ensures replies { Answers self.old (W.Devices.standing world.old) (Some (Create name.now)) result }
        ensures begun { IfOk result IsBegun }
        ensures refused { IfOk result (LineStaysIfRefused self.old (W.Devices.standing world.old) self.new (W.Devices.standing world.new)) }
        ensures cause { HasCause (IsNewTableDamage self.old (W.Devices.standing world.old) (evidence_bytes self.new)) (shown self.old (W.Devices.standing world.old)) (shown self.new (W.Devices.standing world.new)) result }
    {
        if self.book.accepted() >= self.writes {
            return self.refuse_write(world, name, true);
        }
        self.create_table(world, name)
    }

    /// The same where the transaction may have one more write.
    fn create_table<W: World>(&mut self, world: &mut W, name: &Name) -> Result<Step, Stop>
        requires stands { StandsFor self.old (W.Devices.standing world.old) }
        requires is_open { has_open self.old ≡ true }
        requires more { writes_done self.old < most_writes self.old }
        ensures does { Does (after_command self.old (Some (Create name.now))) self.old (W.Devices.standing world.old) self.new (W.Devices.standing world.new) result }
        ensures replies { Answers self.old (W.Devices.standing world.old) (Some (Create name.now)) result }
        ensures begun { IfOk result IsBegun }
        ensures refused { IfOk result (LineStaysIfRefused self.old (W.Devices.standing world.old) self.new (W.Devices.standing world.new)) }
        ensures cause { HasCause (IsNewTableDamage self.old (W.Devices.standing world.old) (evidence_bytes self.new)) (shown self.old (W.Devices.standing world.old)) (shown self.new (W.Devices.standing world.new)) result }
    {
        let mut store = Store::over(&mut self.book, world);
        match table_store::create(&mut store, &self.limits, name, &mut self.work)? {
            Created::Made => {
                store.next_write();
                Ok(Step::Said(Reply::Fine))
            }
            Created::Present => Ok(Step::Said(Reply::Refused(Reason::Table))),
            Created::NoSlot => Ok(Step::Said(Reply::Refused(Reason::Tables))),
        }
    }

    /// `put`: a value at a key, in an open transaction.
    #[inline(never)]
    pub(crate) fn put<W: World>(
        &mut self,
        world: &mut W,
        name: &Name,
        key: u64,
        value: &Value,
    ) -> Result<Step, Stop>
        requires stands { StandsFor self.old (W.Devices.standing world.old) }
        requires is_open { has_open self.old ≡ true }
        ensures does { Does (after_command self.old (Some (Put name.now key value.now))) self.old (W.Devices.standing world.old) self.new (W.Devices.standing world.new) result }
        ensures replies { Answers self.old (W.Devices.standing world.old) (Some (Put name.now key value.now)) result }
        ensures begun { IfOk result IsBegun }
        ensures refused { IfOk result (LineStaysIfRefused self.old (W.Devices.standing world.old) self.new (W.Devices.standing world.new)) }
        ensures cause { HasCause (IsNewRowsDamage self.old (W.Devices.standing world.old) self.new (W.Devices.standing world.new) (evidence_bytes self.new)) (shown self.old (W.Devices.standing world.old)) (shown self.new (W.Devices.standing world.new)) result }
    {
        if self.book.accepted() >= self.writes {
            return self.refuse_write(world, name, false);
        }
        self.put_row(world, name, key, value)
    }

    /// The same where the transaction may have one more write.
    fn put_row<W: World>(
        &mut self,
        world: &mut W,
        name: &Name,
        key: u64,
        value: &Value,
    ) -> Result<Step, Stop>
        requires stands { StandsFor self.old (W.Devices.standing world.old) }
        requires is_open { has_open self.old ≡ true }
        requires more { writes_done self.old < most_writes self.old }
        ensures does { Does (after_command self.old (Some (Put name.now key value.now))) self.old (W.Devices.standing world.old) self.new (W.Devices.standing world.new) result }
        ensures replies { Answers self.old (W.Devices.standing world.old) (Some (Put name.now key value.now)) result }
        ensures begun { IfOk result IsBegun }
        ensures refused { IfOk result (LineStaysIfRefused self.old (W.Devices.standing world.old) self.new (W.Devices.standing world.new)) }
        ensures cause { HasCause (IsNewRowsDamage self.old (W.Devices.standing world.old) self.new (W.Devices.standing world.new) (evidence_bytes self.new)) (shown self.old (W.Devices.standing world.old)) (shown self.new (W.Devices.standing world.new)) result }
    {
        let mut store = Store::over(&mut self.book, world);
        match table_store::put(&mut store, &self.limits, name, key, value, &mut self.work)? {
            Stored::Done => {
                store.next_write();
                Ok(Step::Said(Reply::Fine))
            }
            Stored::TableFull => Ok(Step::Said(Reply::Refused(Reason::Full))),
            Stored::NoTable => Ok(Step::Said(Reply::Refused(Reason::Table))),
        }
    }

    /// `del`: no row with the key, in an open transaction.
    #[inline(never)]
    pub(crate) fn del<W: World>(
        &mut self,
        world: &mut W,
        name: &Name,
        key: u64,
    ) -> Result<Step, Stop>
        requires stands { StandsFor self.old (W.Devices.standing world.old) }
        requires is_open { has_open self.old ≡ true }
        ensures does { Does (after_command self.old (Some (Del name.now key))) self.old (W.Devices.standing world.old) self.new (W.Devices.standing world.new) result }
        ensures replies { Answers self.old (W.Devices.standing world.old) (Some (Del name.now key)) result }
        ensures begun { IfOk result IsBegun }
        ensures refused { IfOk result (LineStaysIfRefused self.old (W.Devices.standing world.old) self.new (W.Devices.standing world.new)) }
        ensures cause { HasCause (IsNewRowsDamage self.old (W.Devices.standing world.old) self.new (W.Devices.standing world.new) (evidence_bytes self.new)) (shown self.old (W.Devices.standing world.old)) (shown self.new (W.Devices.standing world.new)) result }
    {
        if self.book.accepted() >= self.writes {
            return self.refuse_write(world, name, false);
        }
        self.del_row(world, name, key)
    }

    /// The same where the transaction may have one more write.
    fn del_row<W: World>(&mut self, world: &mut W, name: &Name, key: u64) -> Result<Step, Stop>
        requires stands { StandsFor self.old (W.Devices.standing world.old) }
        requires is_open { has_open self.old ≡ true }
        requires more { writes_done self.old < most_writes self.old }
        ensures does { Does (after_command self.old (Some (Del name.now key))) self.old (W.Devices.standing world.old) self.new (W.Devices.standing world.new) result }
        ensures replies { Answers self.old (W.Devices.standing world.old) (Some (Del name.now key)) result }
        ensures begun { IfOk result IsBegun }
        ensures refused { IfOk result (LineStaysIfRefused self.old (W.Devices.standing world.old) self.new (W.Devices.standing world.new)) }
        ensures cause { HasCause (IsNewRowsDamage self.old (W.Devices.standing world.old) self.new (W.Devices.standing world.new) (evidence_bytes self.new)) (shown self.old (W.Devices.standing world.old)) (shown self.new (W.Devices.standing world.new)) result }
    {
        let mut store = Store::over(&mut self.book, world);
        match table_store::delete(&mut store, &self.limits, name, key, &mut self.work)? {
            Deleted::Done => {
                store.next_write();
                Ok(Step::Said(Reply::Fine))
            }
            Deleted::Absent => Ok(Step::Said(Reply::Absent)),
            Deleted::NoTable => Ok(Step::Said(Reply::Refused(Reason::Table))),
        }
    }
}
