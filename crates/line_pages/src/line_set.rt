//! A set of lines of pages, kept as one mask for each page.
ghost use Rattle.std.specs.Prelude.{◌≡◌, ◌<◌, length, IfOk};
ghost use Rattle.line_pages.specs.Pairs.{pairs_in, no_pairs, with_pair};

use nvm_model::NoMemory;
use std::alloc::Global;

/// A set of pairs of a page and a line. Contracts see it by `pairs_of` and `pages_of`.
#[derive(Drop)]
pub struct LineSet {
    masks: Vec<u64>,
}

impl LineSet {
    ghost use Rattle.line_pages.specs.LineSets.{pairs_of, pages_of};

    /// The empty set over this many pages, each of 64 lines: eight bytes a page. `NoMemory` where they are not to be had.
    #[tactic(auto, using(crate::proofs::PairLaws::blank_masks))]
    pub fn new(alloc: Global, pages: u64) -> Result<LineSet, NoMemory>
        ensures pairs { IfOk result (λ made. pairs_of made ≡ no_pairs) }
        ensures pages { IfOk result (λ made. pages_of made ≡ pages) }
    {
        let mut masks: Vec<u64> = Vec::new(alloc);
        masks.resize(pages as usize, 0)?;
        Ok(LineSet { masks })
    }

    /// Whether the line of the page is in the set.
    pub fn has(&self, page: u64, line: usize) -> bool
        requires page { page < pages_of self.now }
        requires line { line < 64 }
        ensures { result ≡ pairs_of self.now page line }
    {
        (self.masks[page as usize] >> line) & 1 == 1
    }

    /// Puts the line of the page into the set.
    pub fn insert(&mut self, page: u64, line: usize)
        requires page { page < pages_of self.old }
        requires line { line < 64 }
        ensures pairs { pairs_of self.new ≡ with_pair page line (pairs_of self.old) }
        ensures pages { pages_of self.new ≡ pages_of self.old }
    {
        self.masks[page as usize] |= 1 << line;
    }

    /// Takes all out.
    pub fn clear(&mut self)
        ensures pairs { pairs_of self.new ≡ no_pairs }
        ensures pages { pages_of self.new ≡ pages_of self.old }
    {
        self.masks.fill(0);
    }
}
