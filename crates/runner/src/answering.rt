//! The answer to a line.
ghost use Rattle.std.specs.Prelude.{◌≡◌, ◌+◌, ◌*◌, ◌^◌, ◌≤◌, ℕ, List, [], ◌++◌, Option, IsTrue, OnOk};
ghost use Rattle.devices.specs.World.{Standing, GoesOn};
ghost use Rattle.script.specs.declared.command.Command.{Command};
ghost use Rattle.script.specs.Grammar.{command_in};
ghost use Rattle.script.specs.Machine.{State, current};
ghost use Rattle.script.specs.Tables.{rows_or_none};
ghost use Rattle.script.specs.Replies.{text};
ghost use Rattle.engine.specs.Engine.{engine_sizes, StandsFor, engine_reach};
ghost use Rattle.engine.specs.Steps.{after_line, scan_replies};
ghost use Rattle.runner.specs.Cause.{HasCause};
ghost use Rattle.runner.specs.Run.{Aim, IsFew, Owes, Proceeds};
ghost use Rattle.runner.specs.Resting.{ReadsOn};
ghost use Rattle.runner.specs.Sent.{TalksOn};
ghost use Rattle.engine.specs.Resting.{AreReads, Rests};
ghost use Rattle.line_pages.specs.Lines.{Lines};

use crate::sending::say;
use crate::stop::Halt;
use devices::{Devices, World};
use engine::{Engine, Scan, Step};
use script::reply_text;

/// Answers one line: what a commit leaves is durable before its reply is sent.
pub(crate) fn answer<W: World>(engine: &mut Engine, world: &mut W, line: &[u8]) -> Result<(), Halt>
    requires ready { StandsFor engine.old (W.Devices.standing world.old) }
    requires low { engine_reach engine.old ≤ 2 ^ 61 + 2 ^ 46 }
    ensures goes { GoesOn (W.Devices.standing world.old) (W.Devices.standing world.new) }
    ensures cause { HasCause (W.Devices.standing world.old) engine.new (W.Devices.standing world.new) result }
    ensures reads { (lines : Lines) → IsTrue (W.Devices.standing world.old).told → Rests lines engine.old (W.Devices.standing world.old) → AreReads (command_in line.now) → ReadsOn lines engine.new [] (W.Devices.standing world.new) result }
    ensures talks { TalksOn (W.Devices.standing world.old) (W.Devices.standing world.new) result }
    ensures input { (W.Devices.standing world.new).outside.input ≡ (W.Devices.standing world.old).outside.input }
    ensures sizes { engine_sizes engine.new ≡ engine_sizes engine.old }
    ensures ready { OnOk result (StandsFor engine.new (W.Devices.standing world.new)) }
    ensures reaches { OnOk result (engine_reach engine.new ≤ engine_reach engine.old + 1921) }
    ensures proceeds { (aim : Aim) (s : State) (commands : List (Option Command)) → IsTrue (W.Devices.standing world.old).told
        → Owes aim engine.old s [] (command_in line.now ++ commands) (W.Devices.standing world.old)
        → Proceeds aim engine.new (after_line engine.old (command_in line.now) s) [] commands (W.Devices.standing world.old) (W.Devices.standing world.new) result }
{
    match engine.step(world, line)? {
        Step::Silent => Ok(()),
        Step::Said(reply) => say(world, reply_text(&reply).as_slice()),
        Step::Scanning(mut scan) => give_rows(engine, world, &mut scan),
    }
}

/// Sends the rows of a scan and its end.
fn give_rows<W: World>(engine: &mut Engine, world: &mut W, scan: &mut Scan) -> Result<(), Halt>
    requires ready { StandsFor engine.old (W.Devices.standing world.old) }
    ensures goes { GoesOn (W.Devices.standing world.old) (W.Devices.standing world.new) }
    ensures cause { HasCause (W.Devices.standing world.old) engine.new (W.Devices.standing world.new) result }
    ensures reads { (lines : Lines) → IsTrue (W.Devices.standing world.old).told → Rests lines engine.old (W.Devices.standing world.old) → ReadsOn lines engine.new [] (W.Devices.standing world.new) result }
    ensures talks { TalksOn (W.Devices.standing world.old) (W.Devices.standing world.new) result }
    ensures input { (W.Devices.standing world.new).outside.input ≡ (W.Devices.standing world.old).outside.input }
    ensures sizes { engine_sizes engine.new ≡ engine_sizes engine.old }
    ensures ready { OnOk result (StandsFor engine.new (W.Devices.standing world.new)) }
    ensures reaches { OnOk result (engine_reach engine.new ≡ engine_reach engine.old) }
    ensures proceeds { (aim : Aim) (s : State) (commands : List (Option Command)) → IsTrue (W.Devices.standing world.old).told → IsFew scan.old (rows_or_none scan.old.name (current s))
        → Owes aim engine.old s (text (scan_replies scan.old (rows_or_none scan.old.name (current s)))) commands (W.Devices.standing world.old)
        → Proceeds aim engine.new s [] commands (W.Devices.standing world.old) (W.Devices.standing world.new) result }
{
    while !scan.over {
        let reply = engine.next_row(world, scan)?;
        say(world, reply_text(&reply).as_slice())?;
    }
    Ok(())
}
