//! Lines that were read, for later loads: each has one slot, which it shares with the lines of the same remainder.
ghost use Rattle.std.specs.Prelude.{◌≡◌, ◌≢◌, ◌<◌, ◌%◌, ℕ, false, MatchOption};
ghost use Rattle.device_files.specs.LineCache.{IsCached};
ghost use Rattle.device_files.specs.FileWorld.{told_lines};
ghost use Rattle.nvm_model.specs.declared.line.Line.{Line};

use crate::placed_line::PlacedLine;
use nvm_model::Line;

/// How many slots there are.
pub const CACHED_LINES: usize = 4096;

/// The slots.
#[derive(Drop)]
pub struct LineCache {
    pub slots: [Option<PlacedLine>; CACHED_LINES],
}

impl LineCache {
    /// No line is kept.
    pub fn new() -> LineCache
        ensures { (line : ℕ) (value : Line) → IsCached result line value → ⊥ }
    {
        LineCache {
            slots: [None; CACHED_LINES],
        }
    }

    /// The line, where it is kept.
    pub fn get(&self, line: u64) -> Option<Line>
        ensures { MatchOption result ((value : Line) → IsCached self.now line value → ⊥) (λ value. IsCached self.now line value) }
    {
        match &self.slots[slot_of(line)] {
            Some(known) if known.line == line => Some(known.value),
            _ => None,
        }
    }

    /// Keeps the line in place of the one in its slot.
    pub fn keep(&mut self, line: u64, value: &Line)
        requires { line < told_lines }
        ensures kept { IsCached self.new line value.now }
        ensures alone { (found : Line) → IsCached self.new line found → found ≡ value.now }
        ensures fewer { (other : ℕ) (found : Line) → other ≢ line → IsCached self.new other found → IsCached self.old other found }
        ensures stay { (other : ℕ) (found : Line) → other % 4096 ≢ line % 4096 → IsCached self.old other found → IsCached self.new other found }
    {
        let known = PlacedLine {
            line,
            value: *value,
        };
        self.slots[slot_of(line)] = Some(known);
    }

    /// Gives a line that is kept a new value. Any other takes no slot.
    pub fn renew(&mut self, line: u64, value: &Line)
        requires { line < told_lines }
        ensures alone { (found : Line) → IsCached self.new line found → found ≡ value.now }
        ensures fewer { (other : ℕ) (found : Line) → other ≢ line → IsCached self.new other found → IsCached self.old other found }
    {
        if self.has(line) {
            self.keep(line, value);
        }
    }

    /// Whether the line is kept.
    fn has(&self, line: u64) -> bool
        ensures { result ≡ false → (value : Line) → IsCached self.now line value → ⊥ }
    {
        match &self.slots[slot_of(line)] {
            Some(known) => known.line == line,
            None => false,
        }
    }
}

/// The slot of a line.
fn slot_of(line: u64) -> usize
    ensures value { result ≡ line % 4096 }
    ensures bound { result < 4096 }
{
    (line % CACHED_LINES as u64) as usize
}
