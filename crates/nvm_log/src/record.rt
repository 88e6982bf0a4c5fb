//! What stands in a log.
//!
//! | Entry | Lines | Head, word by word |
//! |---|---|---|
//! | record of a line | head, the line before, the line after | 1, the page, the line of the page, 0 .. |
//! | commit | head | 2, 0 .. |
//! | abort | head | 3, 0 .. |
//!
//! A group is the records since the last end, with the commit or abort that follows; the last group may have no end. Words
//! of a head that have no meaning are written as 0 and ignored when read.
ghost use Rattle.std.specs.Prelude.{◌≡◌};
ghost use Rattle.store_model.specs.Append.{head_line};
ghost use Rattle.store_model.specs.Put.{IsLine};

use nvm_model::Line;

/// The old and the new contents of a line of a page.
#[derive(Clone, Copy, Debug, PartialEq, Eq)]
pub struct LineRecord {
    /// The number of the page.
    pub page: u64,
    /// The line of the page, from 0 to 63.
    pub line: u8,
    /// What stood there.
    pub before: Line,
    /// What is to stand there.
    pub after: Line,
}

/// How a group ends.
#[derive(Clone, Copy, Debug, PartialEq, Eq)]
pub enum EndKind {
    /// Its records are to stand.
    Commit,
    /// Its records were taken back.
    Abort,
}

ghost use Rattle.nvm_log.specs.Entries.{end_head};

/// The head of a record.
pub(crate) fn record_head(change: &LineRecord) -> Line
    ensures { result ≡ head_line 1 change.now.page change.now.line 0 }
{
    Line {
        words: [1, change.page, change.line as u64, 0, 0, 0, 0, 0],
    }
}

/// The one line of an end.
pub(crate) fn end_line(kind: EndKind) -> Line
    ensures { result ≡ end_head kind }
{
    match kind {
        EndKind::Commit => Line {
            words: [2, 0, 0, 0, 0, 0, 0, 0],
        },
        EndKind::Abort => Line {
            words: [3, 0, 0, 0, 0, 0, 0, 0],
        },
    }
}

/// A line has eight words, for a caller whose proof asks for it. It does nothing, and never fails.
pub fn eight(line: &Line)
    ensures { IsLine line.now }
{
    let _words = line.words;
}
