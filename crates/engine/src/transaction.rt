//! The commands that open and end transactions, and those that only move what is stored.
ghost use Rattle.std.specs.Prelude.{◌≡◌, ◌+◌, ◌^◌, ◌≤◌, true, false, Some, IsTrue, IfOk};
ghost use Rattle.script.specs.declared.command.Command.TheVariants as command;

use crate::engine::Engine;
use crate::scan::Step;
use crate::storing;
use devices::{Devices, World};
use line_pages::Stop;
use script::Reply;

impl Engine {
    ghost use Rattle.engine.specs.Engine.{StandsFor, has_open, log_end};
    ghost use Rattle.engine.specs.Causes.{Stops, StopsUndoing};
    ghost use Rattle.engine.specs.Steps.{Does, IsBegun, after_command};
    ghost use Rattle.engine.specs.Answers.{Answers};
    ghost use Rattle.engine.specs.Resting.{Reads};
    ghost use Rattle.engine.specs.Refused.{LineStaysIfRefused};

    /// Opens a transaction.
    #[inline(never)]
    pub(crate) fn begin<W: World>(&mut self, world: &mut W) -> Result<Step, Stop>
        requires ready { StandsFor self.old (W.Devices.standing world.old) }
        requires closed { has_open self.old ≡ false }
        requires tail { log_end self.old ≤ 2 ^ 61 + 2 ^ 46 }
        ensures does { Does (after_command self.old (Some command.Begin)) self.old (W.Devices.standing world.old) self.new (W.Devices.standing world.new) result }
        ensures replies { Answers self.old (W.Devices.standing world.old) (Some command.Begin) result }
        ensures begun { IfOk result IsBegun }
        ensures refused { IfOk result (LineStaysIfRefused self.old (W.Devices.standing world.old) self.new (W.Devices.standing world.new)) }
        ensures cause { Stops self.old (W.Devices.standing world.old) self.new (W.Devices.standing world.new) result }
        ensures reads { Reads self.old (W.Devices.standing world.old) self.new (W.Devices.standing world.new) result }
    {
        storing::begin(&mut self.book, world)?;
        Ok(Step::Said(Reply::Fine))
    }

    /// Ends the open transaction: its writes stand, and are counted as one commit.
    #[inline(never)]
    pub(crate) fn commit<W: World>(&mut self, world: &mut W) -> Result<Step, Stop>
        requires ready { StandsFor self.old (W.Devices.standing world.old) }
        requires is_open { has_open self.old ≡ true }
        ensures does { Does (after_command self.old (Some command.Commit)) self.old (W.Devices.standing world.old) self.new (W.Devices.standing world.new) result }
        ensures replies { Answers self.old (W.Devices.standing world.old) (Some command.Commit) result }
        ensures begun { IfOk result IsBegun }
        ensures refused { IfOk result (LineStaysIfRefused self.old (W.Devices.standing world.old) self.new (W.Devices.standing world.new)) }
        ensures cause { Stops self.old (W.Devices.standing world.old) self.new (W.Devices.standing world.new) result }
        ensures reads { Reads self.old (W.Devices.standing world.old) self.new (W.Devices.standing world.new) result }
    {
        storing::commit(&mut self.book, world)?;
        self.commits += 1;
        Ok(Step::Said(Reply::Committed(self.commits)))
    }

    /// Ends the open transaction: its writes are dropped.
    #[inline(never)]
    pub(crate) fn abort<W: World>(&mut self, world: &mut W) -> Result<Step, Stop>
        requires ready { StandsFor self.old (W.Devices.standing world.old) }
        requires is_open { has_open self.old ≡ true }
        ensures does { Does (after_command self.old (Some command.Abort)) self.old (W.Devices.standing world.old) self.new (W.Devices.standing world.new) result }
        ensures replies { Answers self.old (W.Devices.standing world.old) (Some command.Abort) result }
        ensures begun { IfOk result IsBegun }
        ensures refused { IfOk result (LineStaysIfRefused self.old (W.Devices.standing world.old) self.new (W.Devices.standing world.new)) }
        ensures cause { StopsUndoing self.old (W.Devices.standing world.old) self.new (W.Devices.standing world.new) result }
        ensures reads { Reads self.old (W.Devices.standing world.old) self.new (W.Devices.standing world.new) result }
    {
        storing::abort(&mut self.book, world)?;
        Ok(Step::Said(Reply::Aborted))
    }

    /// Empties the log. No table changes.
    #[inline(never)]
    pub(crate) fn checkpoint<W: World>(&mut self, world: &mut W) -> Result<Step, Stop>
        requires ready { StandsFor self.old (W.Devices.standing world.old) }
        requires closed { has_open self.old ≡ false }
        ensures does { Does (after_command self.old (Some command.Checkpoint)) self.old (W.Devices.standing world.old) self.new (W.Devices.standing world.new) result }
        ensures replies { Answers self.old (W.Devices.standing world.old) (Some command.Checkpoint) result }
        ensures begun { IfOk result IsBegun }
        ensures refused { IfOk result (LineStaysIfRefused self.old (W.Devices.standing world.old) self.new (W.Devices.standing world.new)) }
        ensures cause { Stops self.old (W.Devices.standing world.old) self.new (W.Devices.standing world.new) result }
        ensures reads { Reads self.old (W.Devices.standing world.old) self.new (W.Devices.standing world.new) result }
    {
        storing::checkpoint(&mut self.book, world)?;
        Ok(Step::Said(Reply::Fine))
    }

    /// Drains a block of the log. No table changes.
    #[inline(never)]
    pub(crate) fn drain<W: World>(&mut self, world: &mut W) -> Result<Step, Stop>
        requires { StandsFor self.old (W.Devices.standing world.old) }
        ensures does { Does (after_command self.old (Some command.Drain)) self.old (W.Devices.standing world.old) self.new (W.Devices.standing world.new) result }
        ensures replies { Answers self.old (W.Devices.standing world.old) (Some command.Drain) result }
        ensures begun { IfOk result IsBegun }
        ensures refused { IfOk result (LineStaysIfRefused self.old (W.Devices.standing world.old) self.new (W.Devices.standing world.new)) }
        ensures cause { Stops self.old (W.Devices.standing world.old) self.new (W.Devices.standing world.new) result }
        ensures reads { Reads self.old (W.Devices.standing world.old) self.new (W.Devices.standing world.new) result }
    {
        storing::drain(&mut self.book, world)?;
        Ok(Step::Said(Reply::Fine))
    }

    /// Cleans up to so many frames. No table changes.
    #[inline(never)]
    pub(crate) fn clean<W: World>(&mut self, world: &mut W, frames: u32) -> Result<Step, Stop>
        requires { StandsFor self.old (W.Devices.standing world.old) }
        ensures does { Does (after_command self.old (Some (command.Clean frames))) self.old (W.Devices.standing world.old) self.new (W.Devices.standing world.new) result }
        ensures replies { Answers self.old (W.Devices.standing world.old) (Some (command.Clean frames)) result }
        ensures begun { IfOk result IsBegun }
        ensures refused { IfOk result (LineStaysIfRefused self.old (W.Devices.standing world.old) self.new (W.Devices.standing world.new)) }
        ensures cause { Stops self.old (W.Devices.standing world.old) self.new (W.Devices.standing world.new) result }
        ensures reads { Reads self.old (W.Devices.standing world.old) self.new (W.Devices.standing world.new) result }
    {
        storing::clean(&mut self.book, world, frames)?;
        Ok(Step::Said(Reply::Fine))
    }
}
