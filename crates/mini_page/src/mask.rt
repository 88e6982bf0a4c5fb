//! Sets of the lines of a page, and the one refusal of this crate.
ghost use Rattle.std.specs.Prelude.{ℕ, ◌<◌, IsTrue};
ghost use Rattle.page_frame.specs.LineSets.{has_line};

/// The resident and the dirty lines of a copy. Bit l stands for line l. The dirty lines are resident.
#[derive(Clone, Copy, Debug, PartialEq, Eq)]
pub struct LineMask {
    pub resident: u64,
    pub dirty: u64,
    ghost covered: { (l : ℕ) → l < 64 → IsTrue (has_line dirty l) → IsTrue (has_line resident l) },
}

/// Sixteen lines stand in the mini page.
#[derive(Clone, Copy, Debug, PartialEq, Eq)]
pub struct MiniFull;
