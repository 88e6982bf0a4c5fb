//! The head of an entry, as it is read.
ghost use Rattle.std.specs.Prelude.{◌≡◌};

use crate::record::EndKind;
use nvm_layout::Geometry;
use nvm_model::Line;

/// What a head says.
#[derive(Clone, Copy, Debug, PartialEq, Eq)]
pub enum Head {
    /// A record of this line of this page; the line before and the line after follow.
    Line {
        /// The number of the page.
        page: u64,
        /// The line of the page.
        line: u8,
    },
    /// The end of a group.
    End(EndKind),
}

ghost use Rattle.nvm_log.specs.Heads.{IsRead, IsRecord};

/// Reads a line as the head of an entry. `Err` is the number of the first check that the line fails: 7 its kind is not 1,
/// 2 or 3; 8 it is a record, whose page is none of the store's or whose line is not below 64.
pub fn read_head(geometry: &Geometry, line: &Line) -> Result<Head, u8>
    ensures { IsRead geometry.now line.now result }
{
    match line.words[0] {
        1 => read_record(geometry, line.words[1], line.words[2]),
        2 => Ok(Head::End(EndKind::Commit)),
        3 => Ok(Head::End(EndKind::Abort)),
        _ => Err(7),
    }
}

/// Reads the words of a record's head.
fn read_record(geometry: &Geometry, page: u64, line: u64) -> Result<Head, u8>
    ensures { IsRecord geometry.now page line result }
{
    if page >= geometry.pages() || line >= 64 {
        return Err(8);
    }
    Ok(Head::Line {
        page,
        line: line as u8,
    })
}
