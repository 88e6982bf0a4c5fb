//! A script's run, by its status.
ghost use Rattle.std.specs.Prelude.{◌≡◌, ◌^◌, ◌≤◌, [], Bool, IsTrue};
ghost use Rattle.devices.specs.World.{Standing, GoesOn};
ghost use Rattle.script.specs.Machine.{State};
ghost use Rattle.engine.specs.Engine.{engine_sizes, evidence_bytes, log_end, StandsFor, IsSteadyFor, Shows};
ghost use Rattle.runner.specs.Run.{aim_of, AreSafe, IsReached};
ghost use Rattle.runner.specs.Statuses.{ScriptCauses};

use crate::running::run_lines;
use crate::stop::{Ending, Halt};
use crate::telling::tell_damage;
use damage::Evidence;
use devices::{Devices, World};
use engine::Engine;
use line_pages::Stop;

/// Answers a script of at most `limit` bytes, line by line, and aborts at its end a transaction that is open. Takes no memory.
///
/// Statuses: 0 it was read to its end; 12 there are more bytes; 5 damage, whose text was sent; 6, 7, 8 and 9 a fault of the NVM,
/// the disk, the script and the output.
pub fn run_script<W: World>(engine: &mut Engine, world: &mut W, limit: u64) -> u8
    requires ready { StandsFor engine.old (W.Devices.standing world.old) }
    requires low { log_end engine.old ≤ 2 ^ 61 }
    requires few { limit ≤ 2 ^ 32 }
    // why each status comes
    ensures causes { ScriptCauses limit engine.old (W.Devices.standing world.old) engine.new (W.Devices.standing world.new) result }
    // how far it came
    ensures read { IsTrue (W.Devices.standing world.old).told → result ≡ 0 → (W.Devices.standing world.new).outside.input ≡ [] }
    // over pages in order: each moment is on the way to its aim, and with status 0 that is reached
    ensures safe { (s : State) (sure : Bool) → IsTrue (W.Devices.standing world.old).told → Shows engine.old (W.Devices.standing world.old) s
        → (IsTrue sure → IsSteadyFor engine.old (W.Devices.standing world.old))
        → AreSafe (aim_of engine.old s (W.Devices.standing world.old) sure) (W.Devices.standing world.old) (W.Devices.standing world.new) }
    ensures ends { (s : State) (sure : Bool) → IsTrue (W.Devices.standing world.old).told → Shows engine.old (W.Devices.standing world.old) s
        → (IsTrue sure → IsSteadyFor engine.old (W.Devices.standing world.old))
        → result ≡ 0 → IsReached (aim_of engine.old s (W.Devices.standing world.old) sure) engine.new (W.Devices.standing world.new) }
    // what stays; it reads no settings
    ensures settings { ((W.Devices.standing world.new).outside.settings ≡ (W.Devices.standing world.old).outside.settings)
        × ((W.Devices.standing world.new).outside.settings_faults ≡ (W.Devices.standing world.old).outside.settings_faults) }
    ensures ready { result ≡ 0 → StandsFor engine.new (W.Devices.standing world.new) }
    ensures sizes { engine_sizes engine.new ≡ engine_sizes engine.old }
    ensures goes { GoesOn (W.Devices.standing world.old) (W.Devices.standing world.new) }
{
    match run_lines(engine, world, limit) {
        Ok(Ending::End) => 0,
        Ok(Ending::Limit) => 12,
        Err(Halt::Store(Stop::Nvm)) => 6,
        Err(Halt::Store(Stop::Ssd)) => 7,
        Err(Halt::Store(Stop::Damaged(evidence))) => show_damage(engine, world, &evidence),
        Err(Halt::Source) => 8,
        Err(Halt::Sink) => 9,
    }
}

ghost use Rattle.std.specs.Prelude.{◌∷◌, true, false};
ghost use Rattle.devices.specs.World.{WorldCall, OnlyChanges, Rose};
ghost use Rattle.runner.specs.Cause.{Shown};
ghost use Rattle.engine.specs.declared.engine.Engine.{Engine};
ghost use Rattle.runner.specs.Sent.{SendsReplies};
ghost use Rattle.runner.specs.Statuses.{IsOneOf, IsFirstPage, Told};

/// Tells of damage that a call of the engine showed. Statuses: 5, and 9 a fault of the output.
fn show_damage<W: World>(engine: &Engine, world: &mut W, evidence: &Evidence) -> u8
    ensures call { WorldCall (W.Devices.standing world.old) (W.Devices.standing world.new) }
    ensures rest { OnlyChanges false false true (W.Devices.standing world.old) (W.Devices.standing world.new) }
    ensures known { IsOneOf result (5 ∷ 9 ∷ []) }
    ensures sink { result ≡ 9 → Rose (W.Devices.standing world.old).outside.sink_faults (W.Devices.standing world.new).outside.sink_faults }
    ensures told { (before : Engine) (begin : Standing) → Shown (evidence_bytes engine.now) evidence.now engine.now begin (W.Devices.standing world.old)
        → IsFirstPage before begin (evidence_bytes engine.now) evidence.now (W.Devices.standing world.old)
        → (IsTrue (W.Devices.standing world.old).told → SendsReplies begin (W.Devices.standing world.old)) → result ≡ 5 → Told before begin engine.now (W.Devices.standing world.new) }
{
    match tell_damage(world, evidence, engine.evidence_page()) {
        Ok(()) => 5,
        Err(_) => 9,
    }
}
