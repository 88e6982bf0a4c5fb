//! The trait through which every layer above reads and writes pages.
ghost use Rattle.std.specs.Prelude.{◌≡◌, ◌<◌, ◌≤◌, ℕ, IsTrue, IfOk, Ok};
ghost use Rattle.line_pages.specs.Lines.{Lines, IsLine};
ghost use Rattle.line_pages.specs.Standing.{Standing, KeepsPages, Reads, Writes, Rests, HasCause, Never};

use crate::stop::Stop;
use nvm_model::Line;

/// A store of pages, each of 64 lines.
///
/// `standing` is all that contracts see of it at one moment. A value that is ready may be called; it is ready again after
/// `rest` and after each `Ok`, and after a `Stop` no further call is made on it. `is_steady` says that it is known what
/// recovery would give, and `may_leave moment lines` that a crash at that moment may leave what recovers to these lines:
/// where it is steady and told, these are the committed lines at each moment of a call, whatever it answers, and where it
/// is ready too, at the present one.
///
/// An access begins at the first call on a page after a call on another page, at a change between reading and writing,
/// and at the first call after `rest`. `Nvm` and `Ssd` come only where that count of faults rose, `Damaged` never.
pub trait Pages {
    ghost Apart: { Type 0 };

    ghost standing: { Self → Standing Apart };

    ghost is_ready: { Self → Type 0 };

    ghost is_steady: { Self → Type 0 };

    ghost may_leave: { Self → ℕ → Lines → Type 0 };

    /// The number of pages, which never changes.
    fn page_count(&self) -> u64
        ensures count { result ≡ (standing self.now).count }
        ensures some { 1 ≤ result };

    /// The current line. It changes no line.
    fn read_line(&mut self, page: u64, line: usize) -> Result<Line, Stop>
        requires ready { is_ready self.old }
        requires page { page < (standing self.old).count }
        requires line { line < 64 }
        ensures call { KeepsPages (may_leave self.old) (may_leave self.new)
            (is_steady self.old) (is_steady self.new) (is_ready self.new)
            (standing self.old) (standing self.new) result }
        ensures reads { Reads page line (standing self.old) (standing self.new) result }
        ensures cause { HasCause Never (standing self.old) (standing self.new) result }
        ensures value { IsTrue (standing self.old).told
            → IfOk result (λ found. found ≡ (standing self.old).current page line) }
        ensures is_line { IfOk result IsLine };

    /// Changes that one line, and lowers the room by one.
    fn write_line(&mut self, page: u64, line: usize, value: &Line) -> Result<(), Stop>
        requires ready { is_ready self.old }
        requires page { page < (standing self.old).count }
        requires line { line < 64 }
        requires room { 1 ≤ (standing self.old).room }
        ensures call { KeepsPages (may_leave self.old) (may_leave self.new)
            (is_steady self.old) (is_steady self.new) (is_ready self.new)
            (standing self.old) (standing self.new) result }
        ensures writes { Writes page line value.now (standing self.old) (standing self.new) result }
        ensures cause { HasCause Never (standing self.old) (standing self.new) result };

    /// Ends the open access.
    fn rest(&mut self)
        requires { is_ready self.old }
        ensures call { KeepsPages (may_leave self.old) (may_leave self.new)
            (is_steady self.old) (is_steady self.new) (is_ready self.new)
            (standing self.old) (standing self.new) (Ok (tt {0})) }
        ensures rests { Rests (standing self.old) (standing self.new) };

    ghost left_now: { (pages : Self) → is_ready pages → is_steady pages
        → IsTrue (standing pages).told → (lines : Lines)
        → may_leave pages (standing pages).clock lines → lines ≡ (standing pages).committed };
}
