//! Two leaves joined, or their rows divided anew.
ghost use Rattle.std.specs.Prelude.{◌≡◌, ◌+◌, ◌*◌, ◌<◌, ◌≤◌, ◌⊎◌, ℕ, List, [], ◌∷◌, ◌++◌, true, false, length, slice_range, take, drop, if◌then◌else◌};
ghost use Rattle.rows.specs.Rows.{Ascends, keys, last_key};
ghost use Rattle.page_edit.specs.Cut.{rows_left};
ghost use Rattle.page_format.specs.Node.{IsLeaf, leaf_rows as rows_of};
ghost use Rattle.page_format.specs.Sound.{IsSound, row_bytes};
ghost use Rattle.page_edit.specs.Packed.{IsPackedInOrder};
ghost use Rattle.page_edit.specs.Join.{IsJoined, IsDivided};

use crate::build::{clear_leaf, pack, push_rows};
use crate::cut::{part_bytes, part_needed};
use page_format::open_leaf;
use ssd_model::PageBuf;

/// Adds some rows of one leaf and then some of another to a packed leaf.
fn push_both(
    page: &mut PageBuf,
    first: &PageBuf,
    start: usize,
    end: usize,
    second: &PageBuf,
    from: usize,
    to: usize,
)
    requires packed { IsPackedInOrder page.old }
    requires first { IsSound first.now }
    requires second { IsSound second.now }
    requires order { start ≤ end }
    requires within { end ≤ length (rows_of first.now) }
    requires second_order { from ≤ to }
    requires second_within { to ≤ length (rows_of second.now) }
    requires room { row_bytes
        (rows_of page.old ++ (slice_range (rows_of first.now) start end ++ slice_range
        (rows_of second.now) from to)) ≤ 4032 }
    ensures rows { rows_of page.new
        ≡ rows_of page.old
        ++ (slice_range (rows_of first.now) start end ++ slice_range (rows_of second.now) from to) }
    ensures packed { IsPackedInOrder page.new }
{
    push_rows(page, first, start, end);
    push_rows(page, second, from, to);
}

/// Writes the rows of two leaves into two others, so many into the first.
fn share(
    left: &mut PageBuf,
    right: &mut PageBuf,
    first: &PageBuf,
    second: &PageBuf,
    first_count: usize,
    second_count: usize,
    part: usize,
)
    requires first { IsSound first.now }
    requires second { IsSound second.now }
    requires first_count { first_count ≡ length (rows_of first.now) }
    requires second_count { second_count ≡ length (rows_of second.now) }
    requires part { part ≤ first_count + second_count }
    requires left_room { row_bytes (take part (rows_of first.now ++ rows_of second.now)) ≤ 4032 }
    requires right_room { row_bytes (drop part (rows_of first.now ++ rows_of second.now)) ≤ 4032 }
    ensures left { rows_of left.new ≡ take part (rows_of first.now ++ rows_of second.now) }
    ensures right { rows_of right.new ≡ drop part (rows_of first.now ++ rows_of second.now) }
    ensures left_packed { IsPackedInOrder left.new }
    ensures right_packed { IsPackedInOrder right.new }
{
    clear_leaf(left);
    clear_leaf(right);
    if part <= first_count {
        push_rows(left, first, 0, part);
        push_both(right, first, part, first_count, second, 0, second_count);
    } else {
        push_both(left, first, 0, first_count, second, 0, part - first_count);
        push_rows(right, second, part - first_count, second_count);
    }
}

/// How many rows the left one of two leaves has after their rows were divided.
fn joined_part(
    left: &PageBuf,
    right: &PageBuf,
    left_count: usize,
    right_count: usize,
    one: usize,
    two: usize,
) -> usize
    requires left { IsSound left.now }
    requires right { IsSound right.now }
    requires left_count { left_count ≡ length (rows_of left.now) }
    requires right_count { right_count ≡ length (rows_of right.now) }
    requires one { one ≡ row_bytes (rows_of left.now) }
    requires two { two ≡ row_bytes (rows_of right.now) }
    requires small { one + two ≤ 8064 }
    ensures { result ≡ rows_left (rows_of left.now ++ rows_of right.now) }
{
    let first = part_needed(left, 0, left_count, one + two);
    let second = part_needed(right, 0, right_count, (one + two).saturating_sub(2 * one));
    first + second
}

/// Joins two leaves, of which one holds fewer than 1,344 bytes and the left one the lower keys: true where all rows fit in
/// the left one and were put there, and the right one is as it was. Else the rows of both are divided as in a cut. A page
/// that is written is packed.
pub fn leaf_join(left: &mut PageBuf, right: &mut PageBuf) -> bool
    requires left { IsLeaf left.old }
    requires right { IsLeaf right.old }
    requires order { Ascends 0 last_key (keys (rows_of left.old ++ rows_of right.old)) }
    requires low { (row_bytes (rows_of left.old) < 1344) ⊎ (row_bytes (rows_of right.old) < 1344) }
    ensures joined { result ≡ true → IsJoined left.old right.old left.new }
    ensures divided { result ≡ false → IsDivided left.old right.old left.new right.new }
    ensures kept { result ≡ true → right.new ≡ right.old }
{
    let left_count = open_leaf(left);
    let right_count = open_leaf(right);
    let one = part_bytes(left, 0, left_count);
    let two = part_bytes(right, 0, right_count);
    if one + two <= 4032 {
        pack(left);
        push_rows(left, right, 0, right_count);
        return true;
    }
    let part = joined_part(left, right, left_count, right_count, one, two);
    let first = left.copy();
    let second = right.copy();
    share(left, right, &first, &second, left_count, right_count, part);
    false
}
