//! Mini pages: up to sixteen lines of a page each, over one block of which no byte is touched before it is written.
ghost use Rattle.std.specs.Prelude.{◌≡◌, ◌*◌, ◌+◌, ◌<◌, ◌≤◌, ◌↔◌, IsTrue, true, false};
ghost use Rattle.std.specs.Prelude.{replicate, length, get_or, IfOk, IsErr, OnOk, OnErr};
ghost use Rattle.page_frame.specs.Blocks.{places_of};
ghost use Rattle.page_frame.specs.Places.{IsFilled};
ghost use Rattle.page_frame.specs.LineSets.{has_line};
ghost use Rattle.page_frame.specs.Frames.{Frame, line_at, resident_lines, is_resident};
ghost use Rattle.page_frame.specs.Frames.{frame_at, with_frame, frame_changed};
ghost use Rattle.page_frame.specs.Arena.{frames_of};
ghost use Rattle.mini_page.specs.MiniPages.{MiniPage, IsMini, empty_mini, is_full, mini_at};
ghost use Rattle.mini_page.specs.MiniPages.{added, with_place, changed_line, cleaned_mini, with_mini, mini_changed};
ghost use Rattle.mini_page.specs.Tables.{AreKept};

use crate::mask::{LineMask, MiniFull};
use nvm_model::{Line, NoMemory};
use page_frame::{FrameArena, LineBlock};
use std::alloc::Global;

/// This many masks with no line.
fn no_lines(alloc: Global, n: u32) -> Result<Vec<u64>, NoMemory>
    ensures { IfOk result (λ made. made.items ≡ replicate n 0) }
{
    let mut masks: Vec<u64> = Vec::new(alloc);
    masks.resize(n as usize, 0)?;
    Ok(masks)
}

/// A table for this many mini pages, 64 numbers each.
fn no_places(alloc: Global, n: u32) -> Result<Vec<u8>, NoMemory>
    ensures { IfOk result (λ made. made.items ≡ replicate (64 * n) 0) }
{
    let mut table: Vec<u8> = Vec::new(alloc);
    table.resize(64 * n as usize, 0)?;
    Ok(table)
}

/// Mini pages. Contracts see them by `minis_of`, a list of 64 places with a set of dirty lines for each.
#[derive(Drop)]
pub struct MiniArena {
    /// Sixteen places for each mini page.
    lines: LineBlock,
    /// A mask of the resident lines for each mini page.
    resident: Vec<u64>,
    /// A mask of the dirty lines for each mini page.
    dirty: Vec<u64>,
    /// For each mini page and line, in which of the sixteen places the line stands, if it is resident.
    table: Vec<u8>,
    ghost kept: { AreKept resident.items dirty.items table.items (places_of lines) },
}

impl MiniArena {
    ghost use Rattle.mini_page.specs.Minis.{minis_of};

    /// This many empty mini pages. Of their lines no byte is touched.
    pub fn new(alloc: Global, n: u32) -> Result<MiniArena, NoMemory>
        requires { n ≤ 65536 }
        ensures { IfOk result (λ made. minis_of made ≡ replicate n empty_mini) }
    {
        let resident = no_lines(alloc, n)?;
        let dirty = no_lines(alloc, n)?;
        let table = no_places(alloc, n)?;
        let lines = LineBlock::new(alloc, 16 * n as usize)?;
        Ok(MiniArena {
            lines,
            resident,
            dirty,
            table,
        })
    }

    /// The sets of its resident and of its dirty lines.
    pub fn mask(&self, mini: u32) -> LineMask
        requires { mini < length (minis_of self.now) }
        ensures resident { let places = (mini_at (minis_of self.now) mini).places in
            result.resident ≡ resident_lines places }
        ensures dirty { result.dirty ≡ (mini_at (minis_of self.now) mini).dirty }
        ensures is_mini { IsMini (mini_at (minis_of self.now) mini) }
    {
        LineMask {
            resident: self.resident[mini as usize],
            dirty: self.dirty[mini as usize],
        }
    }

    /// Where a line stands in the block, if it is resident.
    fn place(&self, mini: u32, line: usize) -> usize
        requires mini { mini < length self.now.resident.items }
        requires line { line < 64 }
        ensures { result ≡ 16 * mini + get_or self.now.table.items (64 * mini + line) 0 }
    {
        16 * mini as usize + self.table[64 * mini as usize + line] as usize
    }

    /// Whether a line is resident.
    fn has(&self, mini: u32, line: usize) -> bool
        requires mini { mini < length self.now.resident.items }
        requires line { line < 64 }
        ensures { result ≡ has_line (get_or self.now.resident.items mini 0) line }
    {
        (self.resident[mini as usize] >> line) & 1 == 1
    }

    /// A line, or `None` exactly where it is not resident.
    pub fn find(&self, mini: u32, line: usize) -> Option<Line>
        requires mini { mini < length (minis_of self.now) }
        requires line { line < 64 }
        ensures { result ≡ line_at (mini_at (minis_of self.now) mini).places line }
    {
        if !self.has(mini, line) {
            return None;
        }
        Some(*self.lines.get(self.place(mini, line)))
    }

    /// Adds a line that is not resident, which is then clean. `MiniFull` exactly where sixteen lines stand, and then
    /// nothing changed.
    pub fn add(&mut self, mini: u32, line: usize, value: &Line) -> Result<(), MiniFull>
        requires mini { mini < length (minis_of self.old) }
        requires line { line < 64 }
        requires absent { is_resident (mini_at (minis_of self.old) mini).places line ≡ false }
        ensures refused { IsErr result ↔ IsTrue (is_full (mini_at (minis_of self.old) mini)) }
        ensures added { let minis = mini_changed mini (added line value.now) (minis_of self.old) in
            OnOk result (minis_of self.new ≡ minis) }
        ensures unchanged { OnErr result (self.new ≡ self.old) }
    {
        let count = self.resident[mini as usize].count_ones();
        if count == 16 {
            return Err(MiniFull);
        }
        self.lines.put(16 * mini as usize + count as usize, value);
        self.table[64 * mini as usize + line] = count as u8;
        self.resident[mini as usize] |= 1 << line;
        Ok(())
    }

    /// Gives a resident line this value, and marks it dirty.
    pub fn set(&mut self, mini: u32, line: usize, value: &Line)
        requires mini { mini < length (minis_of self.old) }
        requires line { line < 64 }
        requires resident { IsTrue (is_resident (mini_at (minis_of self.old) mini).places line) }
        ensures { let change = changed_line line value.now in
            minis_of self.new ≡ mini_changed mini change (minis_of self.old) }
    {
        let place = self.place(mini, line);
        self.lines.put(place, value);
        self.dirty[mini as usize] |= 1 << line;
    }

    /// Makes each line of a mini page clean.
    pub fn clean(&mut self, mini: u32)
        requires { mini < length (minis_of self.old) }
        ensures { minis_of self.new ≡ mini_changed mini cleaned_mini (minis_of self.old) }
    {
        self.dirty[mini as usize] = 0;
    }

    /// Makes a mini page empty.
    pub fn clear(&mut self, mini: u32)
        requires { mini < length (minis_of self.old) }
        ensures { minis_of self.new ≡ with_mini mini empty_mini (minis_of self.old) }
    {
        self.resident[mini as usize] = 0;
        self.dirty[mini as usize] = 0;
    }

    /// Puts a line of a mini page into its place of a frame, if it is resident.
    fn copy_line(&self, mini: u32, line: usize, frames: &mut FrameArena, frame: u32)
        requires mini { mini < length (minis_of self.now) }
        requires line { line < 64 }
        requires frame { frame < length (frames_of frames.old) }
        ensures { let change = with_place line
            (line_at (mini_at (minis_of self.now) mini).places line)
            in frames_of frames.new ≡ frame_changed frame change (frames_of frames.old) }
    {
        if let Some(value) = self.find(mini, line) {
            frames.set_line(frame, line, &value);
        }
    }

    /// Moves the lines of a mini page into an empty frame, and empties the mini page. The answer is its sets before.
    pub fn promote_into(&mut self, mini: u32, frames: &mut FrameArena, frame: u32) -> LineMask
        requires mini { mini < length (minis_of self.old) }
        requires frame { frame < length (frames_of frames.old) }
        requires empty { resident_lines (frame_at (frames_of frames.old) frame) ≡ 0 }
        ensures frame { let places = (mini_at (minis_of self.old) mini).places in
            frames_of frames.new ≡ with_frame frame places (frames_of frames.old) }
        ensures mini { minis_of self.new ≡ with_mini mini empty_mini (minis_of self.old) }
        ensures resident { let places = (mini_at (minis_of self.old) mini).places in
            result.resident ≡ resident_lines places }
        ensures dirty { result.dirty ≡ (mini_at (minis_of self.old) mini).dirty }
        ensures is_mini { IsMini (mini_at (minis_of self.old) mini) }
    {
        let mask = self.mask(mini);
        for line in 0..64 {
            self.copy_line(mini, line, frames, frame);
        }
        self.clear(mini);
        mask
    }
}
