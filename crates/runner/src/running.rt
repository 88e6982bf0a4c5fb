//! The run of a whole script.
ghost use Rattle.std.specs.Prelude.{◌≡◌, ◌+◌, ◌*◌, ◌^◌, ◌<◌, ◌≤◌, ℕ, List, [], ◌∷◌, ◌++◌, IsTrue, OnOk, IfOk, IfErr, length, true, false};
ghost use Rattle.devices.specs.World.{Standing, GoesOn, WorldCall, OnlyChanges, ReadsNext};
ghost use Rattle.texts.specs.Lines.{IsOneLine};
ghost use Rattle.script.specs.Grammar.{commands};
ghost use Rattle.script.specs.Machine.{State};
ghost use Rattle.engine.specs.declared.engine.Engine.{Engine};
ghost use Rattle.engine.specs.Engine.{engine_sizes, StandsFor, engine_reach, evidence_bytes};
ghost use Rattle.runner.specs.Cause.{HasCause, HaltsByFault};
ghost use Rattle.runner.specs.Run.{Aim, Owes, AreSafe, Proceeds, Comes, Reaches, Ends};
ghost use Rattle.runner.specs.Sent.{TalksOn};
ghost use Rattle.runner.specs.Resting.{IsHaltOf, ReadsOn, Follows, TakesOn};
ghost use Rattle.engine.specs.Resting.{AreReads, Rests};
ghost use Rattle.line_pages.specs.Lines.{Lines};

use crate::answering::answer;
use crate::stop::{Ending, Halt};
use arrayvec::ArrayVec;
use devices::{Devices, World};
use engine::Engine;

/// What ends a line.
const LINE_FEED: u8 = b'\n';

/// Takes the next byte of the script. A line of more than 1,024 bytes is kept by its first 1,025.
fn take_byte<W: World>(
    engine: &mut Engine,
    world: &mut W,
    kept: &mut ArrayVec<u8, 1025>,
    byte: u8,
) -> Result<(), Halt>
    requires ready { StandsFor engine.old (W.Devices.standing world.old) }
    requires low { engine_reach engine.old ≤ 2 ^ 61 + 2 ^ 46 }
    requires one { IsOneLine kept.old.items }
    ensures goes { GoesOn (W.Devices.standing world.old) (W.Devices.standing world.new) }
    ensures cause { HasCause (W.Devices.standing world.old) engine.new (W.Devices.standing world.new) result }
    ensures reads { (lines : Lines) (more : List ℕ) → IsTrue (W.Devices.standing world.old).told → Rests lines engine.old (W.Devices.standing world.old) → AreReads (commands (kept.old.items ++ byte ∷ more))
        → ReadsOn lines engine.new (commands (kept.new.items ++ more)) (W.Devices.standing world.new) result }
    ensures input { (W.Devices.standing world.new).outside.input ≡ (W.Devices.standing world.old).outside.input }
    ensures talks { TalksOn (W.Devices.standing world.old) (W.Devices.standing world.new) result }
    ensures sizes { engine_sizes engine.new ≡ engine_sizes engine.old }
    ensures ready { OnOk result (StandsFor engine.new (W.Devices.standing world.new)) }
    ensures reaches { OnOk result (engine_reach engine.new ≤ engine_reach engine.old + 1921) }
    ensures one { OnOk result (IsOneLine kept.new.items) }
    ensures comes { (aim : Aim) (s : State) (more : List ℕ) → IsTrue (W.Devices.standing world.old).told
        → Owes aim engine.old s [] (commands (kept.old.items ++ byte ∷ more)) (W.Devices.standing world.old)
        → Comes aim engine.new [] (commands (kept.new.items ++ more)) (W.Devices.standing world.old) (W.Devices.standing world.new) result }
{
    if byte == LINE_FEED {
        answer(engine, world, kept.as_slice())?;
        kept.clear();
    } else if !kept.is_full() {
        kept.push(byte);
    }
    Ok(())
}

/// Takes a piece of the script.
fn take_piece<W: World>(
    engine: &mut Engine,
    world: &mut W,
    kept: &mut ArrayVec<u8, 1025>,
    piece: &[u8],
) -> Result<(), Halt>
    requires ready { StandsFor engine.old (W.Devices.standing world.old) }
    requires low { engine_reach engine.old + 1921 * length piece.now ≤ 2 ^ 61 + 2 ^ 46 }
    requires one { IsOneLine kept.old.items }
    ensures goes { GoesOn (W.Devices.standing world.old) (W.Devices.standing world.new) }
    ensures cause { HasCause (W.Devices.standing world.old) engine.new (W.Devices.standing world.new) result }
    ensures reads { (lines : Lines) (more : List ℕ) → IsTrue (W.Devices.standing world.old).told → Rests lines engine.old (W.Devices.standing world.old) → AreReads (commands (kept.old.items ++ (piece.now ++ more)))
        → ReadsOn lines engine.new (commands (kept.new.items ++ more)) (W.Devices.standing world.new) result }
    ensures input { (W.Devices.standing world.new).outside.input ≡ (W.Devices.standing world.old).outside.input }
    ensures talks { TalksOn (W.Devices.standing world.old) (W.Devices.standing world.new) result }
    ensures sizes { engine_sizes engine.new ≡ engine_sizes engine.old }
    ensures ready { OnOk result (StandsFor engine.new (W.Devices.standing world.new)) }
    ensures reaches { OnOk result (engine_reach engine.new ≤ engine_reach engine.old + 1921 * length piece.now) }
    ensures one { OnOk result (IsOneLine kept.new.items) }
    ensures comes { (aim : Aim) (s : State) (more : List ℕ) → IsTrue (W.Devices.standing world.old).told
        → Owes aim engine.old s [] (commands (kept.old.items ++ (piece.now ++ more))) (W.Devices.standing world.old)
        → Comes aim engine.new [] (commands (kept.new.items ++ more)) (W.Devices.standing world.old) (W.Devices.standing world.new) result }
{
    for byte in piece {
        take_byte(engine, world, kept, *byte)?;
    }
    Ok(())
}

/// Reads bytes of the script.
fn read_script<W: World>(world: &mut W, into: &mut [u8]) -> Result<usize, Halt>
    requires { 0 < length into.old }
    ensures call { WorldCall (W.Devices.standing world.old) (W.Devices.standing world.new) }
    ensures rest { OnlyChanges false true false (W.Devices.standing world.old) (W.Devices.standing world.new) }
    ensures cause { (engine : Engine) → HasCause (W.Devices.standing world.old) engine (W.Devices.standing world.new) result }
    ensures fault { IfErr result HaltsByFault }
    ensures source { IfErr result (λ why. why ≡ Halt.Source) }
    ensures bound { IfOk result (λ count. count ≤ length into.new) }
    ensures reads { ReadsNext (W.Devices.standing world.old).told (W.Devices.standing world.old).outside.input (W.Devices.standing world.new).outside.input result into.new }
{
    match world.read(into) {
        Ok(count) => Ok(count),
        Err(_) => Err(Halt::Source),
    }
}

/// Reads some bytes of the script and takes them; the answer is how many, and 0 is the end.
fn take_some<W: World>(
    engine: &mut Engine,
    world: &mut W,
    kept: &mut ArrayVec<u8, 1025>,
    buffer: &mut [u8],
) -> Result<usize, Halt>
    requires ready { StandsFor engine.old (W.Devices.standing world.old) }
    requires low { engine_reach engine.old + 1921 * length buffer.old ≤ 2 ^ 61 + 2 ^ 46 }
    requires one { IsOneLine kept.old.items }
    requires room { 0 < length buffer.old }
    ensures goes { GoesOn (W.Devices.standing world.old) (W.Devices.standing world.new) }
    ensures cause { HasCause (W.Devices.standing world.old) engine.new (W.Devices.standing world.new) result }
    ensures reads { (lines : Lines) (before : List ℕ) → IsTrue (W.Devices.standing world.old).told → Follows lines before kept.old.items engine.old (W.Devices.standing world.old)
        → TakesOn lines before kept.new.items engine.new (W.Devices.standing world.old) (W.Devices.standing world.new) result }
    ensures talks { TalksOn (W.Devices.standing world.old) (W.Devices.standing world.new) result }
    ensures sizes { engine_sizes engine.new ≡ engine_sizes engine.old }
    ensures ready { OnOk result (StandsFor engine.new (W.Devices.standing world.new)) }
    ensures reaches { IfOk result (λ count. engine_reach engine.new ≤ engine_reach engine.old + 1921 * count) }
    ensures bound { IfOk result (λ count. count ≤ length buffer.old) }
    ensures one { OnOk result (IsOneLine kept.new.items) }
    ensures taken { IsTrue (W.Devices.standing world.old).told → IfOk result (λ count. length (W.Devices.standing world.old).outside.input ≡ count + length (W.Devices.standing world.new).outside.input) }
    ensures end { IsTrue (W.Devices.standing world.old).told → IfOk result (λ count. count ≡ 0 → (W.Devices.standing world.new).outside.input ≡ []) }
    ensures comes { (aim : Aim) (s : State) → IsTrue (W.Devices.standing world.old).told
        → Owes aim engine.old s [] (commands (kept.old.items ++ (W.Devices.standing world.old).outside.input)) (W.Devices.standing world.old)
        → Comes aim engine.new [] (commands (kept.new.items ++ (W.Devices.standing world.new).outside.input)) (W.Devices.standing world.old) (W.Devices.standing world.new) result }
{
    let count = read_script(world, buffer)?;
    take_piece(engine, world, kept, &buffer[..count])?;
    Ok(count)
}

/// Answers the last line and ends the run: an open transaction is aborted.
fn end_run<W: World>(engine: &mut Engine, world: &mut W, line: &[u8]) -> Result<Ending, Halt>
    requires ready { StandsFor engine.old (W.Devices.standing world.old) }
    requires low { engine_reach engine.old ≤ 2 ^ 61 + 2 ^ 46 }
    requires one { IsOneLine line.now }
    ensures goes { GoesOn (W.Devices.standing world.old) (W.Devices.standing world.new) }
    ensures cause { HasCause (W.Devices.standing world.old) engine.new (W.Devices.standing world.new) result }
    ensures reads { (lines : Lines) (before : List ℕ) → IsTrue (W.Devices.standing world.old).told → Follows lines before line.now engine.old (W.Devices.standing world.old) → AreReads (commands before)
        → IfErr result (IsHaltOf lines (evidence_bytes engine.new)) }
    ensures input { (W.Devices.standing world.new).outside.input ≡ (W.Devices.standing world.old).outside.input }
    ensures talks { TalksOn (W.Devices.standing world.old) (W.Devices.standing world.new) result }
    ensures sizes { engine_sizes engine.new ≡ engine_sizes engine.old }
    ensures end { IfOk result (λ ending. ending ≡ Ending.End) }
    ensures ready { OnOk result (StandsFor engine.new (W.Devices.standing world.new)) }
    ensures safe { (aim : Aim) (s : State) → IsTrue (W.Devices.standing world.old).told → Owes aim engine.old s [] (commands line.now) (W.Devices.standing world.old)
        → AreSafe aim (W.Devices.standing world.old) (W.Devices.standing world.new) }
    ensures sound { (aim : Aim) (s : State) → IsTrue (W.Devices.standing world.old).told → Owes aim engine.old s [] (commands line.now) (W.Devices.standing world.old)
        → IfErr result HaltsByFault }
    ensures ends { (aim : Aim) (s : State) → IsTrue (W.Devices.standing world.old).told → Owes aim engine.old s [] (commands line.now) (W.Devices.standing world.old)
        → IfOk result (λ ending. Ends aim engine.new ending (W.Devices.standing world.new)) }
{
    answer(engine, world, line)?;
    engine.finish(world)?;
    Ok(Ending::End)
}

/// Answers a whole script of at most `limit` bytes; where there are more, the run stops behind that many.
pub(crate) fn run_lines<W: World>(
    engine: &mut Engine,
    world: &mut W,
    limit: u64,
) -> Result<Ending, Halt>
    requires ready { StandsFor engine.old (W.Devices.standing world.old) }
    requires low { engine_reach engine.old ≤ 2 ^ 61 + 1920 }
    requires few { limit ≤ 2 ^ 32 }
    ensures goes { GoesOn (W.Devices.standing world.old) (W.Devices.standing world.new) }
    ensures cause { HasCause (W.Devices.standing world.old) engine.new (W.Devices.standing world.new) result }
    ensures reads { (lines : Lines) (taken : List ℕ) → IsTrue (W.Devices.standing world.old).told → Rests lines engine.old (W.Devices.standing world.old) → (W.Devices.standing world.old).outside.input ≡ taken ++ (W.Devices.standing world.new).outside.input → AreReads (commands taken)
        → IfErr result (IsHaltOf lines (evidence_bytes engine.new)) }
    ensures talks { TalksOn (W.Devices.standing world.old) (W.Devices.standing world.new) result }
    ensures sizes { engine_sizes engine.new ≡ engine_sizes engine.old }
    ensures reaches { IsTrue (W.Devices.standing world.old).told → IfOk result (λ ending. Reaches limit ending (W.Devices.standing world.old) (W.Devices.standing world.new)) }
    ensures ready { IfOk result (λ ending. ending ≡ Ending.End → StandsFor engine.new (W.Devices.standing world.new)) }
    ensures safe { (aim : Aim) (s : State) → IsTrue (W.Devices.standing world.old).told → Owes aim engine.old s [] (commands (W.Devices.standing world.old).outside.input) (W.Devices.standing world.old)
        → AreSafe aim (W.Devices.standing world.old) (W.Devices.standing world.new) }
    ensures sound { (aim : Aim) (s : State) → IsTrue (W.Devices.standing world.old).told → Owes aim engine.old s [] (commands (W.Devices.standing world.old).outside.input) (W.Devices.standing world.old)
        → IfErr result HaltsByFault }
    ensures ends { (aim : Aim) (s : State) → IsTrue (W.Devices.standing world.old).told → Owes aim engine.old s [] (commands (W.Devices.standing world.old).outside.input) (W.Devices.standing world.old)
        → IfOk result (λ ending. Ends aim engine.new ending (W.Devices.standing world.new)) }
{
    let mut kept = ArrayVec::new();
    let mut buffer = [0; 4096];
    let mut left = limit;
    while left > 0 {
        let room = left.min(4096) as usize;
        let count = take_some(engine, world, &mut kept, &mut buffer[..room])?;
        if count == 0 {
            return end_run(engine, world, kept.as_slice());
        }
        left -= count as u64;
    }
    if read_script(world, &mut buffer)? > 0 {
        return Ok(Ending::Limit);
    }
    end_run(engine, world, kept.as_slice())
}
