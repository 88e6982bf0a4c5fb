//! The top call, and all that the program does.
ghost use Rattle.std.specs.Prelude.{◌≡◌, ◌≤◌, ◌⊎◌, ◌^◌, List, [], ◌∷◌, ◌++◌, Some, true, false, IsTrue, length};
ghost use Rattle.ssd_model.specs.Page.{zero_page};
ghost use Rattle.devices.specs.World.{GoesOn, WorldCall, OnlyChanges, IsHonest, Rose, now, sent};
ghost use Rattle.flat_transactions.specs.Order.{Sizes, nvm_lines, ssd_blocks};
ghost use Rattle.flat_recovery.specs.Opening.{HoldsStore};
ghost use Rattle.rows.specs.Tables.{Table};
ghost use Rattle.engine.specs.Holds.{Holds, InOrder};
ghost use Rattle.flat_nvm_layout.specs.Sizes.{sizes_of};
ghost use Rattle.damage.specs.DamageText.{damage_text};
ghost use Rattle.runner.specs.Statuses.{IsOneOf};
ghost use Rattle.spitfire_app.specs.CommandLine.{task_of};
ghost use Rattle.spitfire_app.specs.Promises.{first_sizes, Replies, Survives, Formatted, Causes, RunCauses, FormatCauses, NoFaultCame, ReadsNoSettings};
ghost use Rattle.spitfire_app.specs.declared.words.Task.TheVariants.{Format, Run};

use crate::words::{Task, Words};
use damage::Evidence;
use devices::{Devices, World};
use engine::{Engine, OpenError};
use flat_nvm_layout::Geometry;
use flat_recovery::FormatError;
use runner::{run_script, tell_damage, write_all};
use ssd_model::PageBuf;
use std::alloc::Global;

/// How many bytes of a script are taken.
const LIMIT: u64 = 1 << 32;

/// Does what the words ask for, over the world, and answers the status: 0 done, 1 no form, 3 not a store, 4 a device is too
/// small, 5 damage, of which the output tells, 6, 7, 8 and 9 a fault of the NVM, the disk, the script and the output, 11 want of
/// memory, 12 a script of more than 2^32 bytes, 13 a log whose offsets end.
pub fn spitfire<W: World>(alloc: Global, words: &Words, world: &mut W) -> u8
    ensures goes { GoesOn (W.Devices.standing world.old) (W.Devices.standing world.new) }
    // no settings are read
    ensures settings { ReadsNoSettings (W.Devices.standing world.old)
        (W.Devices.standing world.new) }
    // why each status comes
    ensures causes { Causes words.now (W.Devices.standing world.old)
        (W.Devices.standing world.new) result }
    // `run` over devices that hold tables: the replies are those of plain tables
    ensures replies { (g : Sizes) (T : List Table) → task_of words.now ≡ Some Run
        → IsTrue (W.Devices.standing world.old).told
        → Holds g T (now (W.Devices.standing world.old))
        → Replies g T (W.Devices.standing world.old) (W.Devices.standing world.new) result }
    // `run` over an honest world in order: a crash at any moment keeps every acknowledged commit
    ensures survives { (g : Sizes) (T : List Table) → task_of words.now ≡ Some Run
        → IsHonest (W.Devices.standing world.old)
        → InOrder g T (W.Devices.standing world.old).lines (W.Devices.standing world.old).blocks
        (now (W.Devices.standing world.old))
        → Survives g T (W.Devices.standing world.old) (W.Devices.standing world.new) result }
    // and where no fault comes it ends well
    ensures complete { (g : Sizes) (T : List Table) → task_of words.now ≡ Some Run
        → HoldsStore (W.Devices.standing world.old) → Holds g T (now (W.Devices.standing world.old))
        → length (W.Devices.standing world.old).outside.input ≤ 2 ^ 32
        → NoFaultCame (W.Devices.standing world.old) (W.Devices.standing world.new)
        → (result ≡ 0) ⊎ (result ≡ 11) }
    // `format` over a told world that is large enough, whatever it holds
    ensures formats { task_of words.now ≡ Some Format → IsTrue (W.Devices.standing world.old).told
        → nvm_lines first_sizes ≤ (W.Devices.standing world.old).lines
        → ssd_blocks first_sizes ≤ (W.Devices.standing world.old).blocks
        → Formatted (W.Devices.standing world.old) (W.Devices.standing world.new) result }
    ensures formats_complete { task_of words.now ≡ Some Format
        → nvm_lines first_sizes ≤ (W.Devices.standing world.old).lines
        → ssd_blocks first_sizes ≤ (W.Devices.standing world.old).blocks
        → NoFaultCame (W.Devices.standing world.old) (W.Devices.standing world.new) → result ≡ 0 }
{
    match words.task() {
        None => 1,
        Some(Task::Format) => format(world),
        Some(Task::Run) => run(alloc, world),
    }
}

/// The geometry of a store that is made here.
fn first_geometry() -> Geometry
    ensures { sizes_of result ≡ first_sizes }
{
    Geometry {
        tables: 4,
        rows: 100,
        writes: 32,
        frames: 256,
        log_blocks: 1024,
    }
}

/// Makes an empty store and says so.
fn format<W: World>(world: &mut W) -> u8
    ensures goes { GoesOn (W.Devices.standing world.old) (W.Devices.standing world.new) }
    ensures settings { ReadsNoSettings (W.Devices.standing world.old)
        (W.Devices.standing world.new) }
    ensures causes { FormatCauses (W.Devices.standing world.old)
        (W.Devices.standing world.new) result }
    ensures formats { IsTrue (W.Devices.standing world.old).told
        → nvm_lines first_sizes ≤ (W.Devices.standing world.old).lines
        → ssd_blocks first_sizes ≤ (W.Devices.standing world.old).blocks
        → Formatted (W.Devices.standing world.old) (W.Devices.standing world.new) result }
{
    match flat_recovery::format(world, &first_geometry()) {
        Ok(()) => match write_all(world, b"formatted\n") {
            Ok(()) => 0,
            Err(_) => 9,
        },
        Err(FormatError::TooSmall) => 4,
        Err(FormatError::Nvm) => 6,
        Err(FormatError::Ssd) => 7,
    }
}

/// Opens the store and answers the script.
fn run<W: World>(alloc: Global, world: &mut W) -> u8
    ensures goes { GoesOn (W.Devices.standing world.old) (W.Devices.standing world.new) }
    ensures settings { ReadsNoSettings (W.Devices.standing world.old)
        (W.Devices.standing world.new) }
    ensures causes { RunCauses (W.Devices.standing world.old)
        (W.Devices.standing world.new) result }
    ensures replies { (g : Sizes) (T : List Table) → IsTrue (W.Devices.standing world.old).told
        → Holds g T (now (W.Devices.standing world.old))
        → Replies g T (W.Devices.standing world.old) (W.Devices.standing world.new) result }
    ensures survives { (g : Sizes) (T : List Table) → IsTrue (W.Devices.standing world.old).told
        → InOrder g T (W.Devices.standing world.old).lines (W.Devices.standing world.old).blocks
        (now (W.Devices.standing world.old))
        → Survives g T (W.Devices.standing world.old) (W.Devices.standing world.new) result }
    ensures complete { (g : Sizes) (T : List Table) → HoldsStore (W.Devices.standing world.old)
        → Holds g T (now (W.Devices.standing world.old))
        → length (W.Devices.standing world.old).outside.input ≤ 2 ^ 32
        → NoFaultCame (W.Devices.standing world.old) (W.Devices.standing world.new)
        → (result ≡ 0) ⊎ (result ≡ 11) }
{
    match Engine::open(alloc, world) {
        Ok(mut engine) => run_script(&mut engine, world, LIMIT),
        Err(OpenError::TooSmall) => 4,
        Err(OpenError::Nvm) => 6,
        Err(OpenError::Ssd) => 7,
        Err(OpenError::NotAStore) => 3,
        Err(OpenError::LogEnded) => 13,
        Err(OpenError::Damaged(evidence)) => show_damage(world, &evidence),
        Err(OpenError::NoMemory) => 11,
    }
}

/// Tells of damage that the opening found, whose evidence is of no page. Statuses: 5, and 9 a fault of the output.
fn show_damage<W: World>(world: &mut W, evidence: &Evidence) -> u8
    ensures call { WorldCall (W.Devices.standing world.old) (W.Devices.standing world.new) }
    ensures rest { OnlyChanges false false true (W.Devices.standing world.old)
        (W.Devices.standing world.new) }
    ensures known { IsOneOf result (5 ∷ 9 ∷ []) }
    ensures sink { result ≡ 9
        → Rose (W.Devices.standing world.old).outside.sink_faults
        (W.Devices.standing world.new).outside.sink_faults }
    ensures ends { IsTrue (W.Devices.standing world.old).told → result ≡ 5
        → sent (W.Devices.standing world.new)
        ≡ sent (W.Devices.standing world.old) ++ damage_text evidence.now zero_page }
{
    match tell_damage(world, evidence, &PageBuf::zero()) {
        Ok(()) => 5,
        Err(_) => 9,
    }
}
