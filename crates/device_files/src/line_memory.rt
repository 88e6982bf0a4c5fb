//! What is remembered of the lines of the NVM.
ghost use Rattle.std.specs.Prelude.{◌≡◌, ◌≢◌, ◌<◌, ◌%◌, ℕ, IfSome, IsTrue, Some, false};
ghost use Rattle.nvm_model.specs.declared.line.Line.{Line};
ghost use Rattle.device_files.specs.FileWorld.{told_lines};
ghost use Rattle.device_files.specs.Gathered.{IsGathered, IsEmpty};
ghost use Rattle.device_files.specs.LineMemory.{Agree, Recalls, IsUnknown, NoMore, Learns, StillGathered};

use crate::gathered::Gathered;
use crate::line_cache::LineCache;
use nvm_model::Line;

/// The lines that are gathered, and those that are kept for later loads. A line that is both has one value.
#[derive(Drop)]
pub struct LineMemory {
    pub gathered: Gathered,
    pub cache: LineCache,
    ghost agree: { Agree gathered cache },
}

impl LineMemory {
    /// Nothing is remembered.
    pub fn new() -> LineMemory
        ensures { IsEmpty result.gathered }
    {
        LineMemory {
            gathered: Gathered::new(),
            cache: LineCache::new(),
        }
    }

    /// The line, where it is remembered.
    pub fn get(&self, line: u64) -> Option<Line>
        ensures known { (value : Line) → Recalls self.now.gathered self.now.cache line value → result ≡ Some value }
        ensures found { IfSome result (λ value. Recalls self.now.gathered self.now.cache line value) }
    {
        match self.cache.get(line) {
            Some(value) => Some(value),
            None => self.gathered.get(line),
        }
    }

    /// Keeps a line that was read, where nothing is known of it.
    pub fn learn(&mut self, line: u64, value: &Line)
        requires { line < told_lines }
        ensures now { IsUnknown self.old.gathered self.old.cache line → Recalls self.new.gathered self.new.cache line value.now }
        ensures learns { Learns (λ other found. (other ≡ line) × (found ≡ value.now)) self.old.gathered self.old.cache self.new.gathered self.new.cache }
        ensures stay { (other : ℕ) (found : Line) → other % 4096 ≢ line % 4096 → Recalls self.old.gathered self.old.cache other found → Recalls self.new.gathered self.new.cache other found }
    {
        if self.get(line).is_none() {
            self.keep(line, value);
        }
    }

    /// Keeps a line of which nothing is known.
    fn keep(&mut self, line: u64, value: &Line)
        requires line { line < told_lines }
        requires unknown { IsUnknown self.old.gathered self.old.cache line }
        ensures now { Recalls self.new.gathered self.new.cache line value.now }
        ensures learns { Learns (λ other found. (other ≡ line) × (found ≡ value.now)) self.old.gathered self.old.cache self.new.gathered self.new.cache }
        ensures stay { (other : ℕ) (found : Line) → other % 4096 ≢ line % 4096 → Recalls self.old.gathered self.old.cache other found → Recalls self.new.gathered self.new.cache other found }
    {
        self.cache.keep(line, value);
    }

    /// Gathers a line that is stored. Where there is no room, the answer is false and nothing is changed.
    pub fn put(&mut self, line: u64, value: &Line) -> bool
        requires { line < told_lines }
        ensures taken { IsTrue result → IsGathered self.new.gathered line value.now }
        ensures others { NoMore line self.old.gathered self.old.cache self.new.gathered self.new.cache }
        ensures stay { StillGathered line self.old.gathered self.new.gathered }
        ensures refused { result ≡ false → self.new ≡ self.old }
        ensures empty { IsEmpty self.old.gathered → IsTrue result }
    {
        if !self.gathered.put(line, value) {
            return false;
        }
        self.cache.renew(line, value);
        true
    }

    /// What was gathered was written.
    pub fn written(&mut self)
        ensures empty { IsEmpty self.new.gathered }
        ensures cache { self.new.cache ≡ self.old.cache }
    {
        self.gathered.clear();
    }
}
