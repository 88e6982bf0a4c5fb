//! Pages in memory.
ghost use Rattle.std.specs.Prelude.{◌≡◌, ◌+◌, ◌*◌, ◌<◌, ◌≤◌, ℕ, [], ◌∷◌, ◌++◌, true, false, None, Some, length, IfOk};
ghost use Rattle.line_pages.specs.Lines.{Lines, IsLine};
ghost use Rattle.line_pages.specs.Touch.{accesses, touch_of};
ghost use Rattle.line_pages.specs.Stored.{pages_in, blank_pages, fresh};
ghost use Rattle.line_pages.specs.Standing.{Standing};

use crate::line::whole_line;
use crate::pages::Pages;
use crate::stop::Stop;
use crate::touches::Accesses;
use nvm_model::{Line, NoMemory};
use std::alloc::Global;

/// Pages in memory, all blank at first. It is always ready, it never fails, and what a crash leaves of it is blank.
#[derive(Drop)]
pub struct VecPages {
    count: u64,
    room: u64,
    lines: Vec<Line>,
    accesses: Accesses,
    ghost some: { 1 ≤ count },
    ghost sized: { length lines.items ≡ 64 * count },
}

impl VecPages {
    /// This many blank pages, with room for this many writes of a line. `NoMemory` also where their lines cannot be numbered.
    #[tactic(auto, using(crate::proofs::StoredLaws::blank_back))]
    pub fn new(alloc: Global, pages: u64, room: u64) -> Result<VecPages, NoMemory>
        requires { 1 ≤ pages }
        ensures { IfOk result (λ made. ⟦<VecPages as Pages>⟧.standing made ≡ fresh pages room) }
    {
        let Some(total) = pages.checked_mul(64) else {
            return Err(NoMemory);
        };
        let blank = Line { words: [0; 8] };
        let mut lines: Vec<Line> = Vec::new(alloc);
        lines.resize(total as usize, blank)?;
        Ok(VecPages {
            count: pages,
            room,
            lines,
            accesses: Accesses::new(),
        })
    }
}

impl Pages for VecPages {
    ghost Apart = { Unit {0} };

    ghost standing = { λ s. record {
      count = s.count;
      told = true;
      current = pages_in s.lines.items;
      committed = blank_pages;
      room = s.room;
      visits = length (accesses s.accesses.touches.list);
      touches = s.accesses.touches.list;
      access = s.accesses.open_access;
      nvm_faults = 0;
      ssd_faults = 0;
      clock = 0;
      apart = tt;
    } };

    ghost is_ready = { λ s. Unit {0} };

    ghost is_steady = { λ s. Unit {0} };

    ghost may_leave = { λ s m lines. lines ≡ blank_pages };

    fn page_count(&self) -> u64 {
        self.count
    }

    #[tactic(auto, using(crate::proofs::TouchLaws::accesses_push, crate::proofs::StoredLaws::read_back))]
    fn read_line(&mut self, page: u64, line: usize) -> Result<Line, Stop> {
        self.accesses.touch(page, line, false);
        Ok(whole_line(&self.lines[page as usize * 64 + line]))
    }

    #[tactic(auto, using(crate::proofs::TouchLaws::accesses_push, crate::proofs::StoredLaws::write_back))]
    fn write_line(&mut self, page: u64, line: usize, value: &Line) -> Result<(), Stop> {
        self.accesses.touch(page, line, true);
        self.lines[page as usize * 64 + line] = *value;
        self.room -= 1;
        Ok(())
    }

    fn rest(&mut self) {
        self.accesses.end();
    }

    ghost left_now = { λ pages ready steady told lines left. left };
}
