//! What a line of a script does, and the end of a run.
ghost use Rattle.std.specs.Prelude.{◌≡◌, ◌+◌, ◌^◌, ◌≤◌, [], ◌∷◌, Option, Some, None, Err, Ok, true, false, IfOk, IsTrue};
ghost use Rattle.script.specs.Machine.{transaction_wrong};
ghost use Rattle.script.specs.Grammar.{command_in};

use crate::engine::Engine;
use crate::scan::Step;
use devices::{Devices, World};
use line_pages::Stop;
use script::{Command, Reason, Reply, is_silent, read_line};
use ssd_model::PageBuf;

/// Whether a transaction is open where none may be, or none where one must be.
fn is_misplaced(command: &Command, is_open: bool) -> bool
    ensures { result ≡ transaction_wrong command.now is_open }
{
    match command {
        Command::Begin | Command::Checkpoint => is_open,
        Command::Create(_)
        | Command::Put(..)
        | Command::Del(..)
        | Command::Commit
        | Command::Abort => !is_open,
        Command::Get(..) | Command::Scan(..) | Command::Drain | Command::Clean(_) => false,
    }
}

impl Engine {
    ghost use Rattle.engine.specs.Engine.{StandsFor, has_open, log_end, evidence_bytes};
    ghost use Rattle.engine.specs.Causes.{Stops, StopsUndoing};
    ghost use Rattle.engine.specs.Steps.{Does, IsBegun, after_line};
    ghost use Rattle.engine.specs.Answers.{AnswersLine, Obeys, closed};
    ghost use Rattle.engine.specs.Resting.{AreReads, Reads};
    ghost use Rattle.engine.specs.Refused.{LineStaysIfRefused};

    /// Does what a line of a script asks, which is given without its line feed; of a line of more than 1,024 bytes the first
    /// 1,025 serve. A silent line does nothing. It begins with the end of the open access, and takes no memory.
    ///
    /// `Nvm` and `Ssd` where that count of faults rose; `Damaged` with evidence, whose page is `evidence_page`, and never over
    /// pages in order.
    pub fn step<W: World>(&mut self, world: &mut W, line: &[u8]) -> Result<Step, Stop>
        requires ready { StandsFor self.old (W.Devices.standing world.old) }
        requires low { log_end self.old ≤ 2 ^ 61 + 2 ^ 46 }
        // what it does, and what is replied
        ensures does { Does (after_line self.old (command_in line.now)) self.old (W.Devices.standing world.old) self.new (W.Devices.standing world.new) result }
        ensures replies { AnswersLine self.old (W.Devices.standing world.old) (command_in line.now) result }
        ensures begun { IfOk result IsBegun }
        // a refusal changes neither the tables nor the transaction
        ensures refused { IfOk result (LineStaysIfRefused self.old (W.Devices.standing world.old) self.new (W.Devices.standing world.new)) }
        // why it stops
        ensures cause { Stops self.old (W.Devices.standing world.old) self.new (W.Devices.standing world.new) result }
        ensures reads { AreReads (command_in line.now) → Reads self.old (W.Devices.standing world.old) self.new (W.Devices.standing world.new) result }
    {
        self.book.rest();
        if is_silent(line) {
            return Ok(Step::Silent);
        }
        match read_line(line) {
            None => Ok(Step::Said(Reply::Refused(Reason::Form))),
            Some(command) => self.answer(world, &command),
        }
    }

    /// Does what a command asks, if a transaction is open where one must be and none where none may be.
    fn answer<W: World>(&mut self, world: &mut W, command: &Command) -> Result<Step, Stop>
        requires ready { StandsFor self.old (W.Devices.standing world.old) }
        requires low { log_end self.old ≤ 2 ^ 61 + 2 ^ 46 }
        ensures { Obeys (Some command.now) self.old (W.Devices.standing world.old) self.new (W.Devices.standing world.new) result }
    {
        if is_misplaced(command, self.book.is_open()) {
            return Ok(Step::Said(Reply::Refused(Reason::Transaction)));
        }
        self.obey(world, command)
    }

    /// The same where it is so.
    fn obey<W: World>(&mut self, world: &mut W, command: &Command) -> Result<Step, Stop>
        requires ready { StandsFor self.old (W.Devices.standing world.old) }
        requires low { log_end self.old ≤ 2 ^ 61 + 2 ^ 46 }
        requires placed { transaction_wrong command.now (has_open self.old) ≡ false }
        ensures { Obeys (Some command.now) self.old (W.Devices.standing world.old) self.new (W.Devices.standing world.new) result }
    {
        match command {
            Command::Create(name) => self.create(world, name),
            Command::Begin => self.begin(world),
            Command::Put(name, key, value) => self.put(world, name, *key, value),
            Command::Del(name, key) => self.del(world, name, *key),
            Command::Get(name, key) => self.get(world, name, *key),
            Command::Scan(name, from, to) => self.scan(world, name, *from, *to),
            Command::Commit => self.commit(world),
            Command::Abort => self.abort(world),
            Command::Checkpoint => self.checkpoint(world),
            Command::Drain => self.drain(world),
            Command::Clean(frames) => self.clean(world, *frames),
        }
    }

    /// Ends a run: an open transaction is aborted. It stops where the abort does: for a fault whose count rose, or for a line of the
    /// log that is no record of the store's.
    pub fn finish<W: World>(&mut self, world: &mut W) -> Result<(), Stop>
        requires ready { StandsFor self.old (W.Devices.standing world.old) }
        ensures does { Does closed self.old (W.Devices.standing world.old) self.new (W.Devices.standing world.new) result }
        ensures cause { StopsUndoing self.old (W.Devices.standing world.old) self.new (W.Devices.standing world.new) result }
        ensures reads { Reads self.old (W.Devices.standing world.old) self.new (W.Devices.standing world.new) result }
    {
        self.book.rest();
        self.close(world)
    }

    /// Aborts an open transaction.
    fn close<W: World>(&mut self, world: &mut W) -> Result<(), Stop>
        requires ready { StandsFor self.old (W.Devices.standing world.old) }
        ensures does { Does closed self.old (W.Devices.standing world.old) self.new (W.Devices.standing world.new) result }
        ensures cause { StopsUndoing self.old (W.Devices.standing world.old) self.new (W.Devices.standing world.new) result }
        ensures reads { Reads self.old (W.Devices.standing world.old) self.new (W.Devices.standing world.new) result }
    {
        if self.book.is_open() {
            self.abort(world)?;
        }
        Ok(())
    }

    /// The page of the evidence with which a call stopped.
    pub fn evidence_page(&self) -> &PageBuf
        ensures { result.now ≡ evidence_bytes self.now }
    {
        &self.work.page
    }
}
