//! A leaf cut in two with a new row.
ghost use Rattle.std.specs.Prelude.{◌≡◌, ◌+◌, ◌-◌, ◌*◌, ◌<◌, ◌≤◌, ℕ, List, [], ◌∷◌, ◌++◌, true, length, slice_range, take, drop};
ghost use Rattle.std.specs.List.{insert, list_all};
ghost use Rattle.rows.specs.Rows.{Ascends, keys, last_key};
ghost use Rattle.page_edit.specs.Cut.{needed, rows_left, IsCut, IsFilled};
ghost use Rattle.page_format.specs.Room.{sizes};
ghost use Rattle.page_format.specs.Node.{IsLeaf, leaf_rows as rows_of};
ghost use Rattle.rows.specs.Value.{is_printable};
ghost use Rattle.page_format.specs.Sound.{IsSound, row_bytes};
ghost use Rattle.page_edit.specs.Packed.{IsPackedInOrder};

use crate::build::{clear_leaf, push_row, push_rows};
use page_format::{leaf_value, open_leaf};
use ssd_model::PageBuf;

/// The bytes that some rows of a leaf take.
pub fn part_bytes(page: &PageBuf, start: usize, end: usize) -> usize
    requires sound { IsSound page.now }
    requires order { start ≤ end }
    requires within { end ≤ length (rows_of page.now) }
    requires room { row_bytes (rows_of page.now) ≤ 4032 }
    ensures bytes { result ≡ row_bytes (slice_range (rows_of page.now) start end) }
    ensures few { result ≤ 4032 }
{
    let mut total = 0;
    for i in start..end {
        total += 12 + leaf_value(page, i).len();
    }
    total
}

/// How many of some rows of a leaf it takes until twice their bytes reach a number.
#[tactic(auto, using(page_format::proofs::SlotLemmas::length_rows))]
pub fn part_needed(page: &PageBuf, start: usize, end: usize, all: usize) -> usize
    requires sound { IsSound page.now }
    requires order { start ≤ end }
    requires within { end ≤ length (rows_of page.now) }
    ensures number { result ≡ needed all (sizes (slice_range (rows_of page.now) start end)) }
    ensures within { result ≤ end - start }
    ensures few { result ≤ 1008 }
{
    let mut goal = all;
    for i in start..end {
        if goal == 0 {
            return i - start;
        }
        goal = goal.saturating_sub(2 * (12 + leaf_value(page, i).len()));
    }
    end - start
}

/// Whether one row more is needed.
fn one_needed(goal: usize, size: usize) -> usize
    ensures number { result ≡ needed goal (size ∷ []) }
    ensures few { result ≤ 1 }
{
    if goal == 0 { 0 } else { 1 }
}

/// How many rows the left part has where a leaf with one row more is cut.
fn left_part(page: &PageBuf, at: usize, count: usize, key: u64, value: &[u8]) -> usize
    requires sound { IsSound page.now }
    requires count { count ≡ length (rows_of page.now) }
    requires at { at ≤ count }
    requires few { length value.now ≤ 480 }
    requires room { row_bytes (rows_of page.now) ≤ 4032 }
    ensures { result ≡ rows_left (insert (rows_of page.now) at (key, value.now)) }
{
    let before = part_bytes(page, 0, at);
    let after = part_bytes(page, at, count);
    let size = 12 + value.len();
    let total = before + size + after;
    let rest = total.saturating_sub(2 * before);
    let first = part_needed(page, 0, at, total);
    let middle = one_needed(rest, size);
    let last = part_needed(page, at, count, rest.saturating_sub(2 * size));
    first + middle + last
}

/// Adds some rows of a leaf, with a new one among them, to a packed leaf.
fn push_with(
    page: &mut PageBuf,
    from: &PageBuf,
    start: usize,
    at: usize,
    end: usize,
    key: u64,
    value: &[u8],
)
    requires packed { IsPackedInOrder page.old }
    requires sound { IsSound from.now }
    requires before { start ≤ at }
    requires behind { at ≤ end }
    requires within { end ≤ length (rows_of from.now) }
    requires few { length value.now ≤ 480 }
    requires room { row_bytes
        (rows_of page.old ++ (slice_range
        (rows_of from.now) start at ++ (key, value.now) ∷ slice_range (rows_of from.now) at end))
        ≤ 4032 }
    ensures rows { rows_of page.new
        ≡ rows_of page.old
        ++ (slice_range (rows_of from.now) start at ++ (key, value.now) ∷ slice_range
        (rows_of from.now) at end) }
    ensures packed { IsPackedInOrder page.new }
{
    push_rows(page, from, start, at);
    push_row(page, key, value);
    push_rows(page, from, at, end);
}

/// Writes the rows of a leaf, with a new one among them, into two leaves.
fn divide(
    left: &mut PageBuf,
    right: &mut PageBuf,
    from: &PageBuf,
    part: usize,
    at: usize,
    count: usize,
    key: u64,
    value: &[u8],
)
    requires sound { IsSound from.now }
    requires count { count ≡ length (rows_of from.now) }
    requires at { at ≤ count }
    requires part { part ≤ count + 1 }
    requires few { length value.now ≤ 480 }
    requires left_room { row_bytes (take part (insert (rows_of from.now) at (key, value.now)))
        ≤ 4032 }
    requires right_room { row_bytes (drop part (insert (rows_of from.now) at (key, value.now)))
        ≤ 4032 }
    ensures left { rows_of left.new ≡ take part (insert (rows_of from.now) at (key, value.now)) }
    ensures right { rows_of right.new ≡ drop part (insert (rows_of from.now) at (key, value.now)) }
    ensures left_packed { IsPackedInOrder left.new }
    ensures right_packed { IsPackedInOrder right.new }
{
    clear_leaf(left);
    clear_leaf(right);
    if part <= at {
        push_rows(left, from, 0, part);
        push_with(right, from, part, at, count, key, value);
    } else {
        push_with(left, from, 0, at, part - 1, key, value);
        push_rows(right, from, part - 1, count);
    }
}

/// Cuts a leaf in two, with a new row put in at a place. The left part is the shortest prefix of the rows whose bytes,
/// doubled, reach the total; both pages are packed. Where the rows do not fit in one leaf, each part has 1,525 to 3,179 bytes.
pub fn leaf_cut(left: &mut PageBuf, right: &mut PageBuf, at: usize, key: u64, value: &[u8])
    requires leaf { IsLeaf left.old }
    requires at { at ≤ length (rows_of left.old) }
    requires order { Ascends 0 last_key (keys (insert (rows_of left.old) at (key, value.now))) }
    requires few { length value.now ≤ 480 }
    requires printable { list_all is_printable value.now ≡ true }
    ensures left { let all = insert (rows_of left.old) at (key, value.now)
        in rows_of left.new ≡ take (rows_left all) all }
    ensures right { let all = insert (rows_of left.old) at (key, value.now)
        in rows_of right.new ≡ drop (rows_left all) all }
    ensures left_leaf { IsLeaf left.new }
    ensures right_leaf { IsLeaf right.new }
    ensures left_full { 4032 < row_bytes (insert (rows_of left.old) at (key, value.now))
        → 1344 ≤ row_bytes (rows_of left.new) }
    ensures right_full { 4032 < row_bytes (insert (rows_of left.old) at (key, value.now))
        → 1344 ≤ row_bytes (rows_of right.new) }
    ensures halves { IsCut (insert (rows_of left.old) at (key, value.now)) (rows_of left.new)
        (rows_of right.new) }
    ensures left_filled { 4032 < row_bytes (insert (rows_of left.old) at (key, value.now))
        → IsFilled (rows_of left.new) }
    ensures right_filled { 4032 < row_bytes (insert (rows_of left.old) at (key, value.now))
        → IsFilled (rows_of right.new) }
    ensures left_packed { IsPackedInOrder left.new }
    ensures right_packed { IsPackedInOrder right.new }
{
    let count = open_leaf(left);
    let part = left_part(left, at, count, key, value);
    let from = left.copy();
    divide(left, right, &from, part, at, count, key, value);
}
