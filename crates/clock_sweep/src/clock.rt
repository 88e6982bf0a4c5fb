//! A clock: places that stand or are empty, each with a bit, and a hand that looks for a victim.
ghost use Rattle.std.specs.Prelude.{◌≡◌, ◌⊎◌, ◌+◌, ◌-◌, ◌*◌, ◌<◌, ◌≤◌, ◌^◌, ℕ, IsTrue, IfOk, IfSome};
ghost use Rattle.std.specs.Prelude.{length, replicate, slice_index_or, slice_set};
ghost use Rattle.clock_sweep.specs.Circles.{turned, left_behind, found_at, vacancy, low_after};
ghost use Rattle.clock_sweep.specs.Circles.{vacant_found, low_found};
ghost use Rattle.std.specs.List.{position};
ghost use Rattle.clock_sweep.specs.Clock.{with_slot, any_stands, victim, is_empty, new_clock};
ghost use Rattle.clock_sweep.specs.Clock.{lowest_empty, inserted, touched, removed};

use crate::steps::Steps;
use nvm_model::NoMemory;
use std::alloc::Global;
use std::marker::Model;

/// One place of a clock: empty, or standing with its bit clear or set.
#[derive(Clone, Copy, Debug, PartialEq, Eq)]
pub enum Slot {
    Empty,
    Clear,
    Set,
}

/// The places in order, and the hand.
#[derive(Drop)]
pub struct Clock {
    slots: Vec<Slot>,
    /// The place that a sweep looks at first; where it is past the last one, the first.
    hand: usize,
    /// How many places are empty.
    vacant: usize,
    /// No place below this one is empty.
    low: usize,
}

impl Model for Clock {
    ghost use Rattle.std.specs.Prelude.{ℕ, List, ◌<◌, ◌≤◌, length, ◌^◌};
    ghost use Rattle.clock_sweep.specs.declared.clock.Slot.{Slot};

    ghost Value = { List (ℕ × Slot) };

    ghost use Rattle.clock_sweep.specs.Circles.{circle_of, IsKept};

    ghost view = { λ c. circle_of c.slots.items c.hand };

    ghost invariant = { λ c. IsKept c.slots.items c.hand c.vacant c.low };
}

/// The place under the hand, which is the first where the hand is past the last.
fn under_hand(hand: usize, len: usize) -> usize
    requires some { 0 < len }
    requires hand { hand ≤ len }
    ensures within { result < len }
    ensures value { (result ≡ hand) ⊎ ((result ≡ 0) × (hand ≡ len)) }
{
    if hand < len { hand } else { 0 }
}

/// The slot at a place. Each look is one step.
fn look(slots: &[Slot], place: usize, steps: &mut Steps) -> Slot
    requires place { place < length slots.now }
    requires room { steps.old < 2 ^ 64 - 1 }
    ensures value { result ≡ slice_index_or slots.now place Slot.Empty }
    ensures step { steps.new ≡ steps.old + 1 }
{
    steps.count_one();
    slots[place]
}

/// Looks at a place, and leaves it as a sweep does.
fn pass(slots: &mut [Slot], place: usize, steps: &mut Steps) -> Option<u32>
    requires place { place < length slots.old }
    requires few { length slots.old < 2 ^ 32 }
    requires room { steps.old < 2 ^ 64 - 1 }
    ensures found { result ≡ found_at (slice_index_or slots.old place Slot.Empty) place }
    ensures slots { let before = slice_index_or slots.old place Slot.Empty in
        slots.new ≡ slice_set slots.old place (left_behind before) }
    ensures step { steps.new ≡ steps.old + 1 }
{
    let slot = look(slots, place, steps);
    let (found, left) = match slot {
        Slot::Empty => (None, Slot::Empty),
        Slot::Clear => (Some(place as u32), Slot::Empty),
        Slot::Set => (None, Slot::Clear),
    };
    slots[place] = left;
    found
}

/// Puts a slot in the place of another, and gives that one.
fn replace_slot(slots: &mut [Slot], place: usize, slot: Slot) -> Slot
    requires { place < length slots.old }
    ensures before { result ≡ slice_index_or slots.old place Slot.Empty }
    ensures slots { slots.new ≡ slice_set slots.old place slot }
{
    let before = slots[place];
    slots[place] = slot;
    before
}

/// How many slots are empty after one of them became another.
fn vacant_after(vacant: usize, before: Slot, after: Slot) -> usize
    requires counted { vacancy before ≤ vacant }
    requires few { vacant < 2 ^ 32 }
    ensures { result + vacancy before ≡ vacant + vacancy after }
{
    let others = vacant - usize::from(matches!(before, Slot::Empty));
    others + usize::from(matches!(after, Slot::Empty))
}

/// A place below which none is empty, after one place got this slot.
fn low_after(low: usize, place: usize, slot: Slot) -> usize
    requires { place < 2 ^ 32 }
    ensures { result ≡ low_after low place slot }
{
    match slot {
        Slot::Empty => low.min(place),
        Slot::Clear | Slot::Set => { if low == place { place + 1 } else { low } }
    }
}

/// How many slots are empty after a look, which empties one where it finds a victim.
fn vacant_found(vacant: usize, found: Option<u32>) -> usize
    requires { vacant < 2 ^ 33 }
    ensures { result ≡ vacant_found vacant found }
{
    match found {
        Some(_) => vacant + 1,
        None => vacant,
    }
}

/// A place below which none is empty, after a look at this one.
fn low_found(low: usize, place: usize, found: Option<u32>) -> usize
    ensures { result ≡ low_found low place found }
{
    match found {
        Some(_) => low.min(place),
        None => low,
    }
}

/// The first empty slot.
fn first_empty(slots: &[Slot]) -> Option<usize>
    ensures { result ≡ position is_empty slots.now }
{
    slots.iter().position(|slot| matches!(slot, Slot::Empty))
}

fn empty_slots(alloc: Global, n: usize) -> Result<Vec<Slot>, NoMemory>
    ensures { IfOk result (λ slots. slots.items ≡ replicate n Slot.Empty) }
{
    Ok(vec![in alloc; Slot::Empty; n]?)
}

impl Clock {
    /// A clock of `n` empty places, the hand at the first. `NoMemory` where the memory is not to be had.
    pub fn new(alloc: Global, n: u32) -> Result<Clock, NoMemory>
        ensures { IfOk result (λ clock. clock ≡ new_clock n) }
    {
        Ok(Clock {
            slots: empty_slots(alloc, n as usize)?,
            hand: 0,
            vacant: n as usize,
            low: 0,
        })
    }

    /// The lowest-numbered empty place. It looks at none where all stand, and at none below one that was found before.
    pub fn empty(&self) -> Option<u32>
        ensures lowest { result ≡ lowest_empty self.now }
        ensures within { IfSome result (λ place. place < length self.now) }
    {
        if self.vacant == 0 {
            return None;
        }
        match first_empty(&self.slots[self.low..]) {
            Some(at) => Some((self.low + at) as u32),
            None => None,
        }
    }

    /// The place stands, with its bit set.
    pub fn insert(&mut self, place: u32)
        requires { place < length self.old }
        ensures { self.new ≡ inserted place self.old }
    {
        self.put(place, Slot::Set);
    }

    /// Sets the bit of a place; an empty one stands then.
    pub fn touch(&mut self, place: u32)
        requires { place < length self.old }
        ensures { self.new ≡ touched place self.old }
    {
        self.put(place, Slot::Set);
    }

    /// Makes a place empty.
    pub fn remove(&mut self, place: u32)
        requires { place < length self.old }
        ensures { self.new ≡ removed place self.old }
    {
        self.put(place, Slot::Empty);
    }

    /// The place gets this slot.
    fn put(&mut self, place: u32, slot: Slot)
        requires { place < length self.old }
        ensures { self.new ≡ with_slot place slot self.old }
    {
        let place = place as usize;
        let before = replace_slot(&mut self.slots, place, slot);
        self.vacant = vacant_after(self.vacant, before, slot);
        self.low = low_after(self.low, place, slot);
    }

    /// One look of a sweep: the place under the hand, and the hand is behind it then.
    fn turn(&mut self, steps: &mut Steps) -> Option<u32>
        requires some { 0 < length self.old }
        requires room { steps.old < 2 ^ 64 - 1 }
        ensures turned { (result, self.new) ≡ turned self.old }
        ensures within { IfSome result (λ place. place < length self.old) }
        ensures step { steps.new ≡ steps.old + 1 }
    {
        let place = under_hand(self.hand, self.slots.len());
        let found = pass(&mut self.slots, place, steps);
        self.hand = place + 1;
        self.vacant = vacant_found(self.vacant, found);
        self.low = low_found(self.low, place, found);
        found
    }

    /// The place to be emptied next, by the rule of the clock. It becomes empty, and the hand is behind it.
    pub fn victim(&mut self, steps: &mut Steps) -> u32
        requires stands { IsTrue (any_stands self.old) }
        requires room { steps.old < 2 ^ 63 }
        ensures victim { victim self.old ≡ Some (record {
          place = result;
          steps = steps.new - steps.old;
          clock = self.new;
        }) }
        ensures counted { steps.old ≤ steps.new }
        ensures bound { steps.new ≤ steps.old + 2 * length self.old }
        ensures places { length self.new ≡ length self.old }
        ensures within { result < length self.new }
    {
        let _few = &self.hand;
        'sweep: loop {
            if let Some(place) = self.turn(steps) {
                return place;
            }
        }
    }
}
