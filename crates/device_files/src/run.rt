//! A run of neighbouring lines, whose bytes one write takes.
ghost use Rattle.std.specs.Prelude.{◌≡◌, ◌≤◌, ◌<◌, ◌+◌, ◌++◌, [], ℕ, List, false, IsTrue, OnOk};
ghost use Rattle.device_files.specs.FileWorld.{told_lines};

use crate::line_bytes::{LINE_SIZE, bytes_of_line, start_of_line};
use crate::placed_line::PlacedLine;
use crate::positioned::{PositionedFile, drain_at};
use std::io;

/// How many lines a run has at most.
pub const RUN_LINES: usize = 64;

/// The bytes of so many lines.
pub const RUN_BYTES: usize = LINE_SIZE * RUN_LINES;

/// The bytes of `count` lines from `first` on.
#[derive(Drop)]
pub struct Run {
    pub first: u64,
    pub count: usize,
    pub bytes: [u8; RUN_BYTES],
    ghost bound: { count ≤ 64 },
    ghost placed: { first + count ≤ told_lines },
}

impl Run {
    ghost use Rattle.device_files.specs.LineBytes.{line_start, with_line};
    ghost use Rattle.device_files.specs.Positioned.{WritesBytes};
    ghost use Rattle.device_files.specs.Run.{run_bytes, with_run};

    /// A run of no lines.
    pub fn new() -> Run
        ensures { run_bytes result ≡ [] }
    {
        Run {
            first: 0,
            count: 0,
            bytes: [0; RUN_BYTES],
        }
    }

    /// Takes all lines out.
    pub fn clear(&mut self)
        ensures { self.new.count ≡ 0 }
    {
        self.count = 0;
    }

    /// Puts a line behind the last one, where it is its neighbour and there is room. An empty run begins with it.
    pub fn push(&mut self, placed: &PlacedLine) -> bool
        requires { placed.now.line < told_lines }
        ensures taken { IsTrue result → (xs : List ℕ) → with_run self.new xs ≡ with_line placed.now (with_run self.old xs) }
        ensures refused { result ≡ false → (xs : List ℕ) → with_run self.new xs ≡ with_run self.old xs }
        ensures empty { self.old.count ≡ 0 → IsTrue result }
    {
        self.begin(placed.line);
        self.extend(placed)
    }

    /// An empty run begins at the line, and any other stays.
    fn begin(&mut self, line: u64)
        requires { line < told_lines }
        ensures same { (xs : List ℕ) → with_run self.new xs ≡ with_run self.old xs }
        ensures begins { self.old.count ≡ 0 → (self.new.first ≡ line) × (self.new.count ≡ 0) }
    {
        if self.count == 0 {
            self.first = line;
        }
    }

    /// Puts a line behind the last one, where it is its neighbour and there is room.
    fn extend(&mut self, placed: &PlacedLine) -> bool
        requires { placed.now.line < told_lines }
        ensures taken { IsTrue result → (xs : List ℕ) → with_run self.new xs ≡ with_line placed.now (with_run self.old xs) }
        ensures refused { result ≡ false → self.new ≡ self.old }
        ensures fits { self.old.first ≡ placed.now.line → self.old.count ≡ 0 → IsTrue result }
    {
        if self.first + self.count as u64 != placed.line || self.count >= RUN_LINES {
            return false;
        }
        self.append(&bytes_of_line(&placed.value));
        true
    }

    /// Puts the bytes of a line behind the others.
    fn append(&mut self, line: &[u8; LINE_SIZE])
        requires room { self.old.count + 1 ≤ 64 }
        requires placed { self.old.first + self.old.count + 1 ≤ told_lines }
        ensures bytes { run_bytes self.new ≡ run_bytes self.old ++ line.now }
        ensures first { self.new.first ≡ self.old.first }
        ensures count { self.new.count ≡ self.old.count + 1 }
    {
        let start = LINE_SIZE * self.count;
        self.bytes[start..start + LINE_SIZE].copy_from_slice(line);
        self.count += 1;
    }

    /// Writes the lines where they stand, and the run is empty then.
    pub fn write<F: PositionedFile>(&mut self, file: &mut F) -> io::Result<()>
        ensures written { OnOk result (WritesBytes (line_start self.old.first) (run_bytes self.old) (F.known_bytes file.old) (F.known_bytes file.new)) }
        ensures empty { OnOk result (self.new.count ≡ 0) }
    {
        if self.count > 0 {
            let size = LINE_SIZE * self.count;
            drain_at(file, start_of_line(self.first), &self.bytes[..size])?;
        }
        self.clear();
        Ok(())
    }
}
