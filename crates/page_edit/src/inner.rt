//! Inner pages as lists of children.
ghost use Rattle.std.specs.Prelude.{◌≡◌, ◌+◌, ◌*◌, ◌<◌, ◌≤◌, ◌⊎◌, ℕ, List, ◌++◌, true, false, length, take, drop};
ghost use Rattle.std.specs.List.{insert, remove};
ghost use Rattle.ssd_model.specs.Page.{Same};
ghost use Rattle.rows.specs.Rows.{Ascends, last_key};
ghost use Rattle.page_edit.specs.Cut.{children_left};
ghost use Rattle.page_format.specs.Node.{begins_at, entry_count, page_level, first_keys, children as children_of};
ghost use Rattle.page_format.specs.Inner.{IsInner, IsBranch};
ghost use Rattle.page_edit.specs.Join.{IsJoinedBranch, IsDividedBranch, unused_word};

use crate::entries::{clear_inner, insert_child, keep_children, push_children, remove_child};
use line_pages::page_word;
use page_format::children;
use ssd_model::PageBuf;

/// Puts a child at a place of an inner page that has fewer than 240, where the keys stay in order.
pub fn inner_insert(page: &mut PageBuf, at: usize, key: u64, child: u64)
    requires branch { IsBranch page.old }
    requires at { at ≤ length (children_of page.old) }
    requires room { length (children_of page.old) < 240 }
    requires order { Ascends 0 last_key
        (first_keys (insert (children_of page.old) at (key, child))) }
    ensures children { children_of page.new ≡ insert (children_of page.old) at (key, child) }
    ensures branch { IsBranch page.new }
    ensures level { page_level page.new ≡ page_level page.old }
    ensures unused { unused_word page.new ≡ unused_word page.old }
    ensures rest { Same 3904 4096 page.old page.new }
{
    children(page);
    insert_child(page, at, key, child);
}

/// Takes the child at a place out of an inner page, of which any number may be left.
pub fn inner_remove(page: &mut PageBuf, at: usize)
    requires branch { IsBranch page.old }
    requires at { at < length (children_of page.old) }
    ensures children { children_of page.new ≡ remove (children_of page.old) at }
    ensures branch { IsBranch page.new }
    ensures level { page_level page.new ≡ page_level page.old }
    ensures unused { unused_word page.new ≡ unused_word page.old }
    ensures rest { Same 3904 4096 page.old page.new }
{
    children(page);
    remove_child(page, at);
}

/// Cuts an inner page in two, with a new child put in at a place. Of n children the left page has `(n + 1) / 2`.
pub fn inner_cut(left: &mut PageBuf, right: &mut PageBuf, at: usize, key: u64, child: u64)
    requires branch { IsBranch left.old }
    requires at { at ≤ length (children_of left.old) }
    requires order { Ascends 0 last_key
        (first_keys (insert (children_of left.old) at (key, child))) }
    ensures left { let all = insert (children_of left.old) at (key, child)
        in children_of left.new ≡ take (children_left (length all)) all }
    ensures right { let all = insert (children_of left.old) at (key, child)
        in children_of right.new ≡ drop (children_left (length all)) all }
    ensures left_branch { IsBranch left.new }
    ensures right_branch { IsBranch right.new }
    ensures left_level { page_level left.new ≡ page_level left.old }
    ensures right_level { page_level right.new ≡ page_level left.old }
    ensures left_unused { unused_word left.new ≡ unused_word left.old }
    ensures right_unused { unused_word right.new ≡ 0 }
{
    let count = children(left);
    let level = page_word(left, 16);
    insert_child(left, at, key, child);
    let part = (count + 2) / 2;
    clear_inner(right, level);
    push_children(right, left, part, count + 1);
    keep_children(left, part);
}

/// Divides the children of two pages, so many in the left one.
fn share_children(
    left: &mut PageBuf,
    right: &mut PageBuf,
    left_count: usize,
    right_count: usize,
    part: usize,
)
    requires left { IsInner left.old }
    requires right { IsInner right.old }
    requires left_count { left_count ≡ entry_count left.old }
    requires right_count { right_count ≡ entry_count right.old }
    requires part { part ≤ left_count + right_count }
    requires left_room { part ≤ 240 }
    requires right_room { left_count + right_count ≤ 240 + part }
    ensures left { children_of left.new
        ≡ take part (children_of left.old ++ children_of right.old) }
    ensures right { children_of right.new
        ≡ drop part (children_of left.old ++ children_of right.old) }
    ensures left_inner { IsInner left.new }
    ensures right_inner { IsInner right.new }
    ensures left_level { page_level left.new ≡ page_level left.old }
    ensures right_level { page_level right.new ≡ page_level right.old }
    ensures left_unused { unused_word left.new ≡ unused_word left.old }
    ensures right_unused { unused_word right.new ≡ 0 }
    ensures left_rest { Same 3904 4096 left.old left.new }
    ensures right_rest { Same 3904 4096 right.old right.new }
{
    let copy = right.copy();
    let level = page_word(right, 16);
    clear_inner(right, level);
    if part <= left_count {
        push_children(right, left, part, left_count);
        push_children(right, &copy, 0, right_count);
        keep_children(left, part);
    } else {
        push_children(left, &copy, 0, part - left_count);
        push_children(right, &copy, part - left_count, right_count);
    }
}

/// Joins two inner pages, of which the left one has the lower keys and the right one begins at `key`: true where all
/// children are at most 240 and were put in the left one, and the right one is as it was. Else they are divided as in a cut.
pub fn inner_join(left: &mut PageBuf, right: &mut PageBuf, key: u64) -> bool
    requires left { IsBranch left.old }
    requires right { IsBranch right.old }
    requires key { begins_at key (children_of right.old) ≡ true }
    requires order { Ascends 0 last_key
        (first_keys (children_of left.old ++ children_of right.old)) }
    ensures left_rest { Same 3904 4096 left.old left.new }
    ensures right_rest { Same 3904 4096 right.old right.new }
    ensures joined { result ≡ true → IsJoinedBranch left.old right.old left.new }
    ensures divided { result ≡ false → IsDividedBranch left.old right.old left.new right.new }
    ensures kept { result ≡ true → right.new ≡ right.old }
{
    let left_count = children(left);
    let right_count = children(right);
    if left_count + right_count <= 240 {
        push_children(left, right, 0, right_count);
        return true;
    }
    let part = (left_count + right_count + 1) / 2;
    share_children(left, right, left_count, right_count, part);
    false
}
