//! Which calls of a world in memory fail, and the counts of its calls.
ghost use Rattle.std.specs.Prelude.{◌≡◌, ◌≤◌, ◌+◌, ◌↔◌, min, OnOk, OnErr, IsErr, IsTrue};
ghost use Rattle.devices.specs.World.{last_count};
ghost use Rattle.devices.specs.Faults.{number_of, is_named};

use crate::traits::Failed;

/// A device or a stream, of which calls may fail.
#[derive(Clone, Copy, Debug, PartialEq, Eq)]
pub enum FaultKind {
    /// Loads, stores, flushes and fences.
    Nvm,
    /// Reads and writes of blocks, and syncs.
    Ssd,
    /// Reads of the settings.
    Settings,
    /// Reads of the script.
    Source,
    /// Writes.
    Sink,
}

impl FaultKind {
    /// A number of its own for each kind.
    fn number(self) -> u8
        ensures { result ≡ number_of self }
    {
        match self {
            FaultKind::Nvm => 0,
            FaultKind::Ssd => 1,
            FaultKind::Settings => 2,
            FaultKind::Source => 3,
            FaultKind::Sink => 4,
        }
    }
}

/// Makes the nth call of its kind fail, counted from 0, with no work done.
#[derive(Clone, Copy, Debug, PartialEq, Eq)]
pub struct Fault {
    /// Of which device or stream the call is.
    pub kind: FaultKind,
    /// Its number among the calls of that kind.
    pub nth: u64,
}

/// The calls of one device or stream, and those among them that failed.
#[derive(Clone, Copy, Debug)]
pub(crate) struct Tally {
    pub(crate) calls: u64,
    pub(crate) faults: u64,
}

/// Whether a fault names this call.
fn names(plan: &[Fault], kind: FaultKind, nth: u64) -> bool
    ensures { result ≡ is_named plan.now kind nth }
{
    plan.iter().any(|fault| fault.kind.number() == kind.number() && fault.nth == nth)
}

/// Counts one call more, which fails exactly where a fault names it.
pub(crate) fn begin(
    plan: &[Fault],
    kind: FaultKind,
    tally: &mut Tally,
    events: &mut u64,
) -> Result<(), Failed>
    ensures named { IsErr result ↔ IsTrue (is_named plan.now kind tally.old.calls) }
    ensures ok { OnOk result (tally.new.faults ≡ tally.old.faults) }
    ensures err { OnErr result (tally.new.faults ≡ min (tally.old.faults + 1) last_count) }
    ensures later { tally.old.faults ≤ tally.new.faults }
    ensures calls { tally.new.calls ≡ min (tally.old.calls + 1) last_count }
    ensures events { events.new ≡ min (events.old + 1) last_count }
    ensures more_events { events.old ≤ events.new }
{
    let named = names(plan, kind, tally.calls);
    *events = events.saturating_add(1);
    tally.calls = tally.calls.saturating_add(1);
    if named {
        tally.faults = tally.faults.saturating_add(1);
        return Err(Failed);
    }
    Ok(())
}

/// What a call answers that found no memory.
pub(crate) fn run_short(tally: &mut Tally, short: &mut u64) -> Failed
    ensures faults { tally.new.faults ≡ min (tally.old.faults + 1) last_count }
    ensures later { tally.old.faults ≤ tally.new.faults }
    ensures calls { tally.new.calls ≡ tally.old.calls }
    ensures short { short.new ≡ min (short.old + 1) last_count }
{
    tally.faults = tally.faults.saturating_add(1);
    *short = short.saturating_add(1);
    Failed
}
