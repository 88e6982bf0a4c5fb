//! Sending bytes whole.
ghost use Rattle.std.specs.Prelude.{◌≡◌, ℕ, List, [], ◌++◌, true, false, IsTrue, IfOk, IfErr, OnOk, Option};
ghost use Rattle.devices.specs.World.{Standing, WorldCall, OwnCause, OnlyChanges, GoesOn, Stays, sent};
ghost use Rattle.script.specs.declared.command.Command.{Command};
ghost use Rattle.script.specs.Machine.{State};
ghost use Rattle.texts.specs.Output.{IsWhole};
ghost use Rattle.engine.specs.Engine.{StandsFor};
ghost use Rattle.engine.specs.declared.engine.Engine.{Engine};
ghost use Rattle.runner.specs.Sent.{SendsBytes};
ghost use Rattle.runner.specs.Cause.{HasCause};
ghost use Rattle.runner.specs.Run.{Aim, Owes, Proceeds};

use crate::stop::Halt;
use devices::{Failed, World};

/// Sends the bytes, all of them. It fails only where a write failed; some first part of them was sent then.
pub fn write_all<W: World>(world: &mut W, bytes: &[u8]) -> Result<(), Failed>
    ensures call { WorldCall (W.Devices.standing world.old) (W.Devices.standing world.new) }
    ensures rest { OnlyChanges false false true (W.Devices.standing world.old) (W.Devices.standing world.new) }
    ensures cause { OwnCause (W.Devices.standing world.old).outside.sink_faults (W.Devices.standing world.new).outside.sink_faults result }
    ensures writes { IsTrue (W.Devices.standing world.old).told → SendsBytes bytes.now (W.Devices.standing world.old) (W.Devices.standing world.new) result }
{
    let mut rest = bytes;
    while !rest.is_empty() {
        let count = world.write(rest)?;
        rest = &rest[count..];
    }
    Ok(())
}

/// Sends the first bytes of what is owed.
pub(crate) fn say<W: World>(world: &mut W, bytes: &[u8]) -> Result<(), Halt>
    ensures call { WorldCall (W.Devices.standing world.old) (W.Devices.standing world.new) }
    ensures rest { OnlyChanges false false true (W.Devices.standing world.old) (W.Devices.standing world.new) }
    ensures cause { (engine : Engine) → HasCause (W.Devices.standing world.old) engine (W.Devices.standing world.new) result }
    ensures sink { IfErr result (λ why. why ≡ Halt.Sink) }
    ensures sends { IsTrue (W.Devices.standing world.old).told → OnOk result (sent (W.Devices.standing world.new) ≡ sent (W.Devices.standing world.old) ++ bytes.now) }
    ensures stands { (engine : Engine) → StandsFor engine (W.Devices.standing world.old) → StandsFor engine (W.Devices.standing world.new) }
    ensures proceeds { (aim : Aim) (engine : Engine) (s : State) (more : List ℕ) (commands : List (Option Command)) → IsTrue (W.Devices.standing world.old).told
        → StandsFor engine (W.Devices.standing world.old) → IsWhole bytes.now → IsWhole more → Owes aim engine s (bytes.now ++ more) commands (W.Devices.standing world.old)
        → Proceeds aim engine s more commands (W.Devices.standing world.old) (W.Devices.standing world.new) result }
{
    match write_all(world, bytes) {
        Ok(()) => Ok(()),
        Err(_) => Err(Halt::Sink),
    }
}
