//! A row taken out of a leaf by the lines that it needs.
ghost use Rattle.std.specs.Prelude.{◌≡◌, ◌+◌, ◌*◌, ◌<◌, ◌≤◌, ◌||◌, nat_le, true, false, IsTrue, OnOk, IfOk};
ghost use Rattle.std.specs.List.{remove};
ghost use Rattle.line_pages.specs.PagesCall.{PagesCall};
ghost use Rattle.line_pages.specs.Bytes.{bytes_of};
ghost use Rattle.line_pages.specs.Cost.{Costs};
ghost use Rattle.line_pages.specs.Standing.{HasCause, Never};
ghost use Rattle.page_format.specs.Node.{IsWellFormed, bytes_used, entry_count, leaf_rows, slots};
ghost use Rattle.page_format.specs.Sound.{slot_of};
ghost use Rattle.leaf_lines.specs.Put.{IsLeft};
ghost use Rattle.leaf_lines.specs.Removal.{IsRemovedByLines, keeps_floor, removal_cost};

use crate::lines::{read_header, read_spread, write_spread};
use crate::put::top_of;
use crate::spread::slot_lines;
use line_pages::{Pages, Stop, page_half, page_word};
use page_edit::drop_slot;
use page_format::{Expect, Work, slots_used};
use ssd_model::PageBuf;

/// The fewest bytes that the rows of a leaf below a root take.
const LEAF_FLOOR: usize = 1344;

/// The most rows of a leaf: each takes 12 bytes and its value, of 4,032.
const MOST_ROWS: u64 = 336;

/// The first slot that is read: below a root all are, since they tell how many bytes the rows take.
fn first_slot(at: usize, root: bool) -> usize
    ensures order { result ≤ at }
    ensures all { root ≡ false → result ≡ 0 }
{
    if root { at } else { 0 }
}

/// Whether a leaf has the bytes that it has to have without the row at a place, by its slots. A root has to have none.
fn is_enough(page: &PageBuf, at: usize, count: usize, root: bool) -> bool
    requires count { count ≡ entry_count page.now }
    requires few { count ≤ 1008 }
    requires at { at < count }
    ensures { result
        ≡ (root || nat_le (1344 + (4 + (slot_of page.now at).size)) (bytes_used (slots page.now))) }
{
    root || LEAF_FLOOR + (4 + page_half(page, 64 + 4 * at + 2) as usize) <= slots_used(page, count)
}

/// Takes the row at a place out of a leaf by the lines that it needs: the header, and the slots from its place on; below a root all
/// slots, which tell how many bytes the other rows take. It answers true exactly where, of a leaf in order, the other rows have the
/// bytes that a leaf has to have. Else nothing is changed, and the leaf has to be read whole.
pub fn remove_by_lines<P: Pages>(
    pages: &mut P,
    page: u64,
    expect: &Expect,
    at: usize,
    work: &mut Work,
) -> Result<bool, Stop>
    requires ready { P.is_ready pages.old }
    requires page { page < (P.standing pages.old).count }
    requires level { expect.now.level ≡ 0 }
    requires room { 22 ≤ (P.standing pages.old).room }
    requires at { IsTrue (P.standing pages.old).told
        → IsWellFormed (bytes_of (P.standing pages.old).current page) expect.now
        → at < entry_count (bytes_of (P.standing pages.old).current page) }
    ensures removed { IsTrue (P.standing pages.old).told
        → IfOk result (IsRemovedByLines page expect.now at (P.standing pages.old)
        (P.standing pages.new)) }
    ensures left { IfOk result (IsLeft page (P.standing pages.old) (P.standing pages.new)) }
    ensures when { IsTrue (P.standing pages.old).told
        → IsWellFormed (bytes_of (P.standing pages.old).current page) expect.now
        → IfOk result
        (λ done. done ≡ keeps_floor expect.now.root
        (remove (leaf_rows (bytes_of (P.standing pages.old).current page)) at)) }
    ensures costs { IsTrue (P.standing pages.old).told
        → OnOk result
        (Costs (removal_cost (entry_count (bytes_of (P.standing pages.old).current page)))
        (P.standing pages.old) (P.standing pages.new)) }
    ensures room { OnOk result ((P.standing pages.old).room ≤ (P.standing pages.new).room + 22) }
    ensures cause { HasCause Never (P.standing pages.old) (P.standing pages.new) result }
    ensures call { PagesCall P.Pages pages.old pages.new result }
    ensures few { (P.standing pages.new).visits ≤ (P.standing pages.old).visits + 2 }
{
    top_of(expect);
    read_header(pages, page, &mut work.page)?;
    let rows = page_word(&work.page, 8);
    if rows > MOST_ROWS || at as u64 >= rows {
        return Ok(false);
    }
    let count = rows as usize;
    let lines = slot_lines(first_slot(at, expect.root), count);
    read_spread(pages, page, &lines, &mut work.page)?;
    if !is_enough(&work.page, at, count, expect.root) {
        return Ok(false);
    }
    work.spare.copy_from(&work.page);
    drop_slot(&mut work.page, at, count);
    write_spread(pages, page, &lines, &work.spare, &work.page)?;
    Ok(true)
}
