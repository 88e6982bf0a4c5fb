//! Lines that were stored and not yet written.
ghost use Rattle.std.specs.Prelude.{◌≡◌, ◌≢◌, ◌≤◌, ◌<◌, ◌+◌, ◌↔◌, ℕ, false, MatchOption, IsTrue, get_or, length};
ghost use Rattle.device_files.specs.PlacedLines.{AreDistinct, ArePlaced};

use crate::placed_line::PlacedLine;
use nvm_model::Line;

/// How many lines are gathered at most.
pub const GATHERED_LINES: usize = 64;

/// The first `count` of the lines, in the order in which they were stored first. None stands there twice.
#[derive(Drop)]
pub struct Gathered {
    pub count: usize,
    pub lines: [PlacedLine; GATHERED_LINES],
    ghost bound: { count ≤ 64 },
    ghost placed: { ArePlaced count lines },
    ghost distinct: { AreDistinct count lines },
}

impl Gathered {
    ghost use Rattle.nvm_model.specs.declared.line.Line.{Line};
    ghost use Rattle.device_files.specs.Gathered.{IsGathered, IsEmpty, gathered_lines};
    ghost use Rattle.device_files.specs.PlacedLines.{no_place};
    ghost use Rattle.device_files.specs.FileWorld.{told_lines};

    /// No line is gathered.
    pub fn new() -> Gathered
        ensures { IsEmpty result }
    {
        let blank = PlacedLine {
            line: 0,
            value: Line { words: [0; 8] },
        };
        Gathered {
            count: 0,
            lines: [blank; GATHERED_LINES],
        }
    }

    /// The line, where it is gathered.
    pub fn get(&self, line: u64) -> Option<Line>
        ensures { MatchOption result ((value : Line) → IsGathered self.now line value → ⊥) (λ value. IsGathered self.now line value) }
    {
        match self.place_of(line) {
            Some(at) => Some(self.lines[at].value),
            None => None,
        }
    }

    /// Gathers the line with this value. Where it answers false, there is no room, and nothing is changed.
    pub fn put(&mut self, line: u64, value: &Line) -> bool
        requires { line < told_lines }
        ensures taken { IsTrue result → IsGathered self.new line value.now }
        ensures fewer { (other : ℕ) (found : Line) → other ≢ line → IsGathered self.new other found → IsGathered self.old other found }
        ensures stay { (other : ℕ) (found : Line) → other ≢ line → IsGathered self.old other found → IsGathered self.new other found }
        ensures refused { result ≡ false → self.new ≡ self.old }
        ensures empty { IsEmpty self.old → IsTrue result }
    {
        let placed = PlacedLine {
            line,
            value: *value,
        };
        match self.place_of(line) {
            Some(at) => {
                self.renew(at, &placed);
                true
            }
            None => self.push(&placed),
        }
    }

    /// Whether no line is gathered.
    pub fn is_empty(&self) -> bool
        ensures { IsTrue result ↔ IsEmpty self.now }
    {
        self.count == 0
    }

    /// Forgets all lines.
    pub fn clear(&mut self)
        ensures { IsEmpty self.new }
    {
        self.count = 0;
    }

    /// The gathered lines, in the order in which they were stored first.
    pub fn lines(&self) -> &[PlacedLine]
        ensures lines { result.now ≡ gathered_lines self.now }
        ensures placed { ArePlaced (length result.now) result.now }
    {
        &self.lines[..self.count]
    }

    /// Where the line stands.
    fn place_of(&self, line: u64) -> Option<usize>
        ensures { MatchOption result ((i : ℕ) → i < self.now.count → (get_or self.now.lines i no_place).line ≢ line) (λ at. (at < self.now.count) × ((get_or self.now.lines at no_place).line ≡ line)) }
    {
        'places: for at in 0..self.count {
            if self.lines[at].line == line {
                return Some(at);
            }
        }
        None
    }

    /// Gives the line that stands there a new value.
    fn renew(&mut self, at: usize, placed: &PlacedLine)
        requires below { at < self.old.count }
        requires line { placed.now.line < told_lines }
        requires same { (get_or self.old.lines at no_place).line ≡ placed.now.line }
        ensures taken { IsGathered self.new placed.now.line placed.now.value }
        ensures fewer { (other : ℕ) (found : Line) → other ≢ placed.now.line → IsGathered self.new other found → IsGathered self.old other found }
        ensures stay { (other : ℕ) (found : Line) → other ≢ placed.now.line → IsGathered self.old other found → IsGathered self.new other found }
    {
        self.lines[at] = *placed;
    }

    /// Puts a line behind the others, where there is room.
    fn push(&mut self, placed: &PlacedLine) -> bool
        requires line { placed.now.line < told_lines }
        requires other { (i : ℕ) → i < self.old.count → (get_or self.old.lines i no_place).line ≢ placed.now.line }
        ensures taken { IsTrue result → IsGathered self.new placed.now.line placed.now.value }
        ensures fewer { (other : ℕ) (found : Line) → other ≢ placed.now.line → IsGathered self.new other found → IsGathered self.old other found }
        ensures stay { (other : ℕ) (found : Line) → other ≢ placed.now.line → IsGathered self.old other found → IsGathered self.new other found }
        ensures refused { result ≡ false → self.new ≡ self.old }
        ensures empty { IsEmpty self.old → IsTrue result }
    {
        if self.count >= GATHERED_LINES {
            return false;
        }
        self.lines[self.count] = *placed;
        self.count += 1;
        true
    }
}
