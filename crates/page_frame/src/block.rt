//! A row of places over one raw block, each empty or holding a line.
ghost use Rattle.std.specs.Prelude.{◌≡◌, ◌+◌, ◌<◌, ◌≤◌, Some, None, length, replicate, get_or, slice_set, IfOk};
ghost use denote.RawPtr.{◌+ₚ◌};
ghost use Rattle.page_frame.specs.Places.{IsFilled, emptied, replaced};
ghost use Rattle.page_frame.specs.Frames.{filled, lines_of_page};
ghost use Rattle.page_frame.specs.Ownership.{front};
ghost use Rattle.page_frame.specs.Parts.{IsBlock};

use crate::cells::{Base, Cells, Deed};
use line_pages::page_line;
use nvm_model::{Line, NoMemory};
use ssd_model::PageBuf;
use std::alloc::Global;
use std_alloc::room::may_hold;

/// Places for lines. Contracts see it by `places_of`. A place is read only where it holds a line, and the block goes
/// back when the value is dropped.
pub struct LineBlock {
    /// Where the block begins.
    start: Base<Line>,
    /// Where its first place is.
    base: Base<Line>,
    cells: Cells<Line>,
    deed: Deed<Global>,
    count: usize,
    alloc: Global,
    ghost block: { IsBlock count alloc start cells deed },
    ghost first: { base.ptr ≡ start.ptr +ₚ front },
}

impl LineBlock {
    ghost use Rattle.page_frame.specs.Blocks.{places_of};

    /// This many empty places, of which no byte is touched. `NoMemory` also where they cannot be numbered.
    pub fn new(alloc: Global, count: usize) -> Result<LineBlock, NoMemory>
        ensures { IfOk result (λ made. places_of made ≡ replicate count None) }
    {
        if count == usize::MAX || !may_hold::<Line>(count + 1) {
            return Err(NoMemory);
        }
        let (start, cells, deed) = Cells::allocate(&alloc, count)?;
        let base = start.first_place();
        Ok(LineBlock {
            start,
            base,
            cells,
            deed,
            count,
            alloc,
        })
    }

    /// Lends the line of a place that holds one.
    pub fn get(&self, place: usize) -> &Line
        requires { IsFilled (places_of self.now) place }
        ensures { get_or (places_of self.now) place None ≡ Some result.now }
    {
        self.cells.get(self.base, place)
    }

    /// Puts a line into a place, over what stands there.
    pub fn put(&mut self, place: usize, line: &Line)
        requires { place < length (places_of self.old) }
        ensures { places_of self.new ≡ slice_set (places_of self.old) place (Some line.now) }
    {
        self.cells.put(self.base, place, *line);
    }

    /// Puts the lines of a page into the 64 places from `from` on, over what stands there.
    pub fn put_page(&mut self, from: usize, page: &PageBuf)
        requires { from + 64 ≤ length (places_of self.old) }
        ensures { let lines = filled (lines_of_page page.now) in
            places_of self.new ≡ replaced from 64 lines (places_of self.old) }
    {
        for line in 0..64 {
            self.put(from + line, &page_line(page, line));
        }
    }

    /// Makes `count` places from `from` on empty. It does nothing when it runs.
    pub fn forget(&mut self, from: usize, count: usize)
        requires { from + count ≤ length (places_of self.old) }
        ensures { places_of self.new ≡ emptied from count (places_of self.old) }
    {
        self.cells.forget(from, count);
    }
}

impl Drop for LineBlock {
    fn drop(self) {
        let LineBlock {
            start,
            base: _,
            cells,
            deed,
            count,
            alloc,
        } = self;
        Cells::deallocate(&alloc, start, count, cells, deed);
    }
}
