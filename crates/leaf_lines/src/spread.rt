//! The lines of a leaf that a change reads and writes.
ghost use Rattle.std.specs.Prelude.{◌≡◌, ◌+◌, ◌-◌, ◌*◌, ◌/◌, ◌≤◌, ◌⊎◌};
ghost use Rattle.leaf_lines.specs.Spread.{InOrder, Covers};

/// The lines of a leaf that a change reads and writes beside line 0: those of some slots, and those of a record behind them.
#[derive(Clone, Copy)]
pub struct Spread {
    /// The first line of the slots.
    pub slots: usize,
    /// The line behind the last one of the slots.
    pub slots_end: usize,
    /// The first line of the record that has none of these slots.
    pub heap: usize,
    /// The line behind the last one of the record.
    pub heap_end: usize,
}

/// The lines of the slots from an index on, with one slot more, and those of a record.
pub fn spread_of(at: usize, count: usize, place: usize, size: usize) -> Spread
    requires at { at ≤ count }
    requires room { 68 + 4 * count ≤ place }
    requires within { place + size ≤ 4096 }
    ensures order { InOrder result }
    ensures covers { Covers at count place size result }
    ensures few_slots { result.slots_end - result.slots ≤ 1 + (count - at + 15) / 16 }
    ensures few { result.heap_end - result.heap ≤ 1 + (size + 62) / 64 }
{
    let slots = 1 + at / 16;
    let slots_end = 1 + (count + 16) / 16;
    let heap = later(place / 64, slots_end);
    let heap_end = later((place + size + 63) / 64, heap);
    Spread {
        slots,
        slots_end,
        heap,
        heap_end,
    }
}

/// The lines of the slots from an index on, and of no record.
pub fn slot_lines(from: usize, count: usize) -> Spread
    requires order { from ≤ count }
    requires few { count ≤ 1008 }
    ensures order { InOrder result }
    ensures slots { 64 * result.slots ≤ 64 + 4 * from }
    ensures slots_end { 64 + 4 * count ≤ 64 * result.slots_end }
    ensures few_slots { result.slots_end - result.slots ≤ (count + 15) / 16 }
    ensures none { result.heap_end ≡ result.heap }
{
    let slots_end = 1 + (count + 15) / 16;
    Spread {
        slots: 1 + from / 16,
        slots_end,
        heap: slots_end,
        heap_end: slots_end,
    }
}

/// The greater of two numbers.
fn later(one: usize, other: usize) -> usize
    ensures one { one ≤ result }
    ensures other { other ≤ result }
    ensures is { (result ≡ one) ⊎ (result ≡ other) }
{
    if one < other { other } else { one }
}
