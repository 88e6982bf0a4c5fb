//! Two neighbours joined in memory.
ghost use Rattle.std.specs.Prelude.{◌≡◌, ◌+◌, ◌-◌, ◌<◌, ◌≤◌, ◌⊎◌, ◌++◌, ℕ, List, length, Option, None, Some, true, false};
ghost use Rattle.page_format.specs.Node.{IsWellFormed, leaf_rows as rows_of, children as children_of};
ghost use Rattle.page_format.specs.Sound.{row_bytes};
ghost use Rattle.node_edit.specs.Edit.{left_of, right_of, whole_of, Merges, IsEnoughLeaf, IsEnoughInner, IsCutIn, IsPair};
ghost use Rattle.node_edit.specs.Cuts.{JoinsRows, JoinsChildren};

use crate::inner_edit::enter as enter_inner;
use crate::leaf_edit::{enter, open_leaf, top_of};
use crate::pair::Pair;
use page_edit::{inner_join, leaf_join};
use page_format::{Expect, child_key, children, leaf_key, leaf_used};
use ssd_model::PageBuf;

/// What is expected of the left one of two neighbours.
pub fn left_expect(pair: &Pair, level: u8, count: u64) -> Expect
    requires { 1 ≤ pair.now.middle }
    ensures { result ≡ left_of count level pair.now }
{
    Expect {
        level,
        low: pair.low,
        high: pair.middle - 1,
        root: true,
        pages: count,
    }
}

/// What is expected of the right one of two neighbours.
pub fn right_expect(pair: &Pair, level: u8, count: u64) -> Expect
    ensures { result ≡ right_of count level pair.now }
{
    Expect {
        level,
        low: pair.middle,
        high: pair.high,
        root: true,
        pages: count,
    }
}

/// Whether both leaves are as full as they have to be.
fn are_full(left: &PageBuf, right: &PageBuf, one: &Expect, two: &Expect) -> bool
    requires left_level { one.now.level ≡ 0 }
    requires right_level { two.now.level ≡ 0 }
    requires left { IsWellFormed left.now one.now }
    requires right { IsWellFormed right.now two.now }
    ensures full { result ≡ true → IsEnoughLeaf left.now × IsEnoughLeaf right.now }
    ensures low { result ≡ false
        → (row_bytes (rows_of left.now) < 1344) ⊎ (row_bytes (rows_of right.now) < 1344) }
{
    enter(left, one);
    enter(right, two);
    open_leaf(left);
    open_leaf(right);
    if leaf_used(left) < 1344 {
        return false;
    }
    leaf_used(right) >= 1344
}

/// Joins two leaves, or divides their rows anew. The answer is the key from which on the rows are in the right one; `None` where
/// all are in the left one. Two leaves that are full enough stay as they are.
pub fn merge_leaves(left: &mut PageBuf, right: &mut PageBuf, pair: &Pair, count: u64) -> Option<u64>
    requires is { IsPair count pair.now }
    requires left { IsWellFormed left.old (left_of count 0 pair.now) }
    requires right { IsWellFormed right.old (right_of count 0 pair.now) }
    ensures cut { IsCutIn pair.now result }
    ensures merges { (IsEnoughLeaf left.old ⊎ IsEnoughLeaf right.old)
        → Merges rows_of (whole_of count 0 pair.now) left.new right.new
        (rows_of left.old ++ rows_of right.old) result }
    ensures joins { ((row_bytes (rows_of left.old) < 1344) ⊎ (row_bytes (rows_of right.old) < 1344))
        → JoinsRows (rows_of left.old ++ rows_of right.old) (rows_of left.new)
        (rows_of right.new) result }
{
    let one = left_expect(pair, 0, count);
    let two = right_expect(pair, 0, count);
    enter(left, &one);
    enter(right, &two);
    top_of(&two);
    if are_full(left, right, &one, &two) {
        return Some(pair.middle);
    }
    if leaf_join(left, right) {
        open_leaf(left);
        return None;
    }
    open_leaf(left);
    open_leaf(right);
    Some(leaf_key(right, 0))
}

/// Joins two inner pages, or divides their children anew. The answer is the key from which on the children are in the right one;
/// `None` where all are in the left one.
pub fn merge_inner(
    left: &mut PageBuf,
    right: &mut PageBuf,
    pair: &Pair,
    level: u8,
    count: u64,
) -> Option<u64>
    requires is { IsPair count pair.now }
    requires level { 1 ≤ level }
    requires left { IsWellFormed left.old (left_of count level pair.now) }
    requires right { IsWellFormed right.old (right_of count level pair.now) }
    ensures cut { IsCutIn pair.now result }
    ensures merges { (IsEnoughInner left.old ⊎ IsEnoughInner right.old)
        → Merges children_of (whole_of count level pair.now) left.new right.new
        (children_of left.old ++ children_of right.old) result }
    ensures joins { JoinsChildren (children_of left.old ++ children_of right.old)
        (children_of left.new) (children_of right.new) result }
{
    let one = left_expect(pair, level, count);
    let two = right_expect(pair, level, count);
    enter_inner(left, &one);
    enter_inner(right, &two);
    top_of(&two);
    if inner_join(left, right, pair.middle) {
        return None;
    }
    children(right);
    Some(child_key(right, 0))
}
