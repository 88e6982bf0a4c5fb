//! Calls of a clock.
ghost use Rattle.std.specs.Prelude.{◌≡◌, ◌<◌, ◌^◌, IfOk, IsTrue, length};
ghost use Rattle.clock_sweep.specs.Clock.{any_stands};

use crate::PLACES;
use crate::ended::Ended;
use clock_sweep::{Clock, Steps};
use std::alloc::Global;

/// A place that jumps about.
fn scattered(i: u64) -> u32
    ensures { result < PLACES }
{
    (i.wrapping_mul(40_503) % 65_536) as u32
}

/// A clock of so many places, all of which stand.
fn full_clock(alloc: Global, places: u32) -> Result<Clock, Ended>
    requires { 0 < places }
    ensures size { IfOk result (λ clock. length clock ≡ places) }
    ensures stands { IfOk result (λ clock. IsTrue (any_stands clock)) }
{
    let mut clock = Clock::new(alloc, places)?;
    clock.insert(places - 1);
    for place in 0..places {
        clock.insert(place);
    }
    Ok(clock)
}

/// Touches of places that jump about.
pub fn touches(alloc: Global, count: u64) -> Result<u64, Ended> {
    let mut clock = full_clock(alloc, PLACES)?;
    for i in 0..count {
        clock.touch(scattered(i));
    }
    Ok(u64::from(clock.empty().is_some()))
}

/// Sweeps, each with all bits set before it, and the steps that they took.
pub fn sweeps(alloc: Global, count: u64) -> Result<u64, Ended> {
    let mut clock = full_clock(alloc, PLACES)?;
    let mut taken: u64 = 0;
    for _ in 0..count {
        touch_all(&mut clock);
        taken = taken.saturating_add(sweep(&mut clock));
    }
    Ok(taken)
}

/// The touches of so many sweeps alone.
pub fn rounds(alloc: Global, count: u64) -> Result<u64, Ended> {
    let mut clock = full_clock(alloc, PLACES)?;
    for _ in 0..count {
        touch_all(&mut clock);
    }
    Ok(u64::from(clock.empty().is_some()))
}

/// Touches each place.
fn touch_all(clock: &mut Clock)
    requires size { length clock.old ≡ PLACES }
    requires stands { IsTrue (any_stands clock.old) }
    ensures size { length clock.new ≡ PLACES }
    ensures stands { IsTrue (any_stands clock.new) }
{
    for place in 0..PLACES {
        clock.touch(place);
    }
}

/// Finds a victim, which then stands again, and gives the steps.
fn sweep(clock: &mut Clock) -> u64
    requires size { length clock.old ≡ PLACES }
    requires stands { IsTrue (any_stands clock.old) }
    ensures size { length clock.new ≡ PLACES }
    ensures stands { IsTrue (any_stands clock.new) }
{
    let mut steps = Steps::new();
    let victim = clock.victim(&mut steps);
    clock.insert(victim);
    steps.taken()
}

/// Turns of a full clock: each looks for an empty place, takes a victim instead, and puts it back.
pub fn rooms(alloc: Global, count: u64) -> Result<u64, Ended> {
    let mut clock = full_clock(alloc, PLACES)?;
    let mut taken: u64 = 0;
    for _ in 0..count {
        if clock.empty().is_none() {
            taken = taken.saturating_add(sweep(&mut clock));
        }
    }
    Ok(taken)
}
