//! Worked examples over pages in memory.
ghost use Rattle.std.specs.Prelude.{◌≤◌, ◌<◌, ◌*◌};

use crate::early::Early;
use damage::Evidence;
use line_pages::{Pages, Stop, VecPages, set_page_word};
use nvm_model::Line;
use page_alloc::{give_page, take_page, write_changes};
use page_format::Work;
use ssd_model::PageBuf;
use std::alloc::Global;

/// Pages in memory with a header, and how many changes may still be made.
#[derive(Drop)]
struct Space {
    pages: VecPages,
    work: Work,
    left: u64,
    ghost room: { 64 * left ≤ (⟦<VecPages as Pages>⟧.standing pages).room },
}

impl Space {
    /// So many pages, of which the first two are used.
    fn new(alloc: Global, count: u64) -> Result<Space, Early>
        requires { 3 ≤ count }
    {
        let mut pages = VecPages::new(alloc, count, 6_401)?;
        let header = Line {
            words: [4, 0, 2, 0, 0, 0, 0, 0],
        };
        pages.write_line(0, 0, &header)?;
        Ok(Space {
            pages,
            work: Work::new(),
            left: 100,
        })
    }

    /// Takes a page.
    fn take(&mut self) -> Result<u64, Early> {
        let left = self.left;
        if left == 0 {
            return Err(Early::Spent);
        }
        self.left = 0;
        let page = take_page(&mut self.pages, &mut self.work)?;
        self.left = left - 1;
        Ok(page)
    }

    /// Gives a page back.
    fn give(&mut self, page: u64) -> Result<(), Early> {
        let left = self.left;
        if left == 0 {
            return Err(Early::Spent);
        }
        if page < 1 || page >= self.pages.page_count() {
            return Err(Early::NoPage(page));
        }
        self.left = 0;
        give_page(&mut self.pages, &mut self.work, page)?;
        self.left = left - 1;
        Ok(())
    }

    /// Writes a page of zeros, but for the word at byte 128.
    #[tactic(auto, using(page_alloc::proofs::WrittenLaws::changed_most))]
    fn write(&mut self, page: u64, word: u64) -> Result<(), Early> {
        let left = self.left;
        if left == 0 {
            return Err(Early::Spent);
        }
        if page >= self.pages.page_count() {
            return Err(Early::NoPage(page));
        }
        let old = PageBuf::zero();
        let mut new = PageBuf::zero();
        set_page_word(&mut new, 128, word);
        self.left = 0;
        write_changes(&mut self.pages, page, &old, &new)?;
        self.left = left - 1;
        Ok(())
    }

    /// A word of a line of a page.
    fn word(&mut self, page: u64, line: usize, at: usize) -> Result<u64, Early>
        requires line { line < 64 }
        requires at { at < 8 }
    {
        if page >= self.pages.page_count() {
            return Err(Early::NoPage(page));
        }
        let left = self.left;
        self.left = 0;
        let found = self.pages.read_line(page, line)?;
        self.left = left;
        Ok(found.words[at])
    }
}

#[test]
fn takes_what_was_given_back(rt: HostRuntime) -> Result<(), Early> {
    let mut space = Space::new(rt.alloc(), 3)?;
    assert_eq!(rt; space.take()?, 2);
    assert_eq!(rt; space.word(0, 0, 2)?, 3);
    space.give(2)?;
    assert_eq!(rt; space.word(0, 0, 3)?, 2);
    assert_eq!(rt; space.word(2, 0, 1)?, 0);
    assert_eq!(rt; space.take()?, 2);
    assert_eq!(rt; space.word(0, 0, 3)?, 0);
    Ok(())
}

/// Check 37: no page is free, and none is left behind the high water.
#[test]
fn has_no_page_left(rt: HostRuntime) -> Result<(), Early> {
    let mut space = Space::new(rt.alloc(), 3)?;
    space.take()?;
    let refused = Evidence::Page {
        page: 0,
        level: 0,
        low: 0,
        high: u64::MAX,
        check: 37,
    };
    match space.take() {
        Err(Early::Stopped(stop)) => assert_eq!(rt; stop, Stop::Damaged(refused)),
        _ => assert!(rt; false),
    }
    Ok(())
}

#[test]
fn writes_the_line_that_differs(rt: HostRuntime) -> Result<(), Early> {
    let mut space = Space::new(rt.alloc(), 3)?;
    space.write(1, 7)?;
    assert_eq!(rt; space.word(1, 2, 0)?, 7);
    assert_eq!(rt; space.word(1, 1, 0)?, 0);
    Ok(())
}
