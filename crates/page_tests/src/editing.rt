//! Worked examples: rows and children put, cut and joined, against bytes written by hand.
ghost use Rattle.std.specs.Prelude.{◌≡◌, ◌+◌, ◌<◌, ◌≤◌, ◌⊎◌, ◌++◌, ℕ, true, length};
ghost use Rattle.std.specs.List.{insert};
ghost use Rattle.rows.specs.Rows.{Ascends, keys, last_key};
ghost use Rattle.page_format.specs.Node.{IsLeaf, first_keys, leaf_rows as rows_of, children as children_of};
ghost use Rattle.page_format.specs.Inner.{IsBranch};

use crate::by_hand::{
    empty_leaf, has_row, is_branch, is_leaf, last_child, leaf_by_hand, letters, place, rows_in,
};
use line_pages::{page_half, page_word, set_page_word};
use page_edit::{
    inner_cut, inner_insert, inner_join, inner_remove, leaf_cut, leaf_insert, leaf_join,
    leaf_remove, leaf_set,
};
use page_format::{
    Spot, Work, child, child_key, children, leaf_key, leaf_rows, leaf_used, leaf_value, open_leaf,
};
use rows::Value;
use ssd_model::PageBuf;

/// Puts a row where it belongs. False where the page is no leaf, the key is there, or the row does not fit.
fn put(page: &mut PageBuf, key: u64, value: &Value) -> bool {
    if !is_leaf(page) {
        return false;
    }
    open_leaf(page);
    if leaf_used(page) + 12 + value.bytes().len() > 4032 {
        return false;
    }
    match place(page, key) {
        Spot::Gap(at) => {
            leaf_insert(page, at, key, value.bytes());
            true
        }
        _ => false,
    }
}

/// Takes a row out. False where the page is no leaf or has no such row.
fn remove(page: &mut PageBuf, key: u64) -> bool {
    if !is_leaf(page) {
        return false;
    }
    match place(page, key) {
        Spot::Row(at) => {
            leaf_remove(page, at);
            true
        }
        _ => false,
    }
}

/// Puts another value at the first row. False where the page is no leaf, or the value has another length.
fn set_first(page: &mut PageBuf, value: &Value) -> bool {
    if !is_leaf(page) {
        return false;
    }
    if open_leaf(page) == 0 || leaf_value(page, 0).len() != value.bytes().len() {
        return false;
    }
    leaf_set(page, 0, value.bytes());
    true
}

/// Cuts a leaf with a row put where it belongs. False where the page is no leaf or the key is there.
fn cut(left: &mut PageBuf, right: &mut PageBuf, key: u64, value: &Value) -> bool {
    if !is_leaf(left) {
        return false;
    }
    open_leaf(left);
    match place(left, key) {
        Spot::Gap(at) => {
            leaf_cut(left, right, at, key, value.bytes());
            true
        }
        _ => false,
    }
}

/// Whether the rows of one leaf are all below those of another.
fn is_before(left: &PageBuf, right: &PageBuf) -> bool
    requires left { IsLeaf left.now }
    requires right { IsLeaf right.now }
    ensures { result ≡ true → Ascends 0 last_key (keys (rows_of left.now ++ rows_of right.now)) }
{
    let count = open_leaf(left);
    let more = open_leaf(right);
    if count == 0 || more == 0 {
        return false;
    }
    leaf_key(left, count - 1) < leaf_key(right, 0)
}

fn is_short(left: usize, right: usize) -> bool
    ensures { result ≡ true → (left < 1344) ⊎ (right < 1344) }
{
    left < 1344 || right < 1344
}

/// Joins two leaves. `None` where one is no leaf, the rows are not in order, or both are full enough.
fn join(left: &mut PageBuf, right: &mut PageBuf) -> Option<bool> {
    if !is_leaf(left) {
        return None;
    }
    if !is_leaf(right) {
        return None;
    }
    open_leaf(left);
    open_leaf(right);
    if !is_before(left, right) {
        return None;
    }
    if !is_short(leaf_used(left), leaf_used(right)) {
        return None;
    }
    Some(leaf_join(left, right))
}

#[test]
fn nine_rows_are_cut_into_five_and_four(rt: HostRuntime) {
    let mut work = Work::new();
    work.left = empty_leaf();
    let Some(value) = letters(480) else {
        assert!(rt; false);
        return;
    };
    let value = value.copy();
    for key in 1..9 {
        assert!(rt; put(&mut work.left, key, &value));
    }
    assert_eq!(rt; rows_in(&work.left), 8);
    assert_eq!(rt; page_word(&work.left, 24), 4096 - 8 * 488);
    assert!(rt; !put(&mut work.left, 9, &value));
    assert!(rt; cut(&mut work.left, &mut work.right, 9, &value));
    assert_eq!(rt; rows_in(&work.left), 5);
    assert_eq!(rt; rows_in(&work.right), 4);
    assert!(rt; has_row(&work.left, 4, 5, value.bytes()));
    assert!(rt; has_row(&work.right, 0, 6, value.bytes()));
    assert_eq!(rt; page_half(&work.left, 64), 4096 - 488);
    assert_eq!(rt; page_half(&work.left, 80), 4096 - 5 * 488);
    assert!(rt; join(&mut work.left, &mut work.right).is_none());
}

#[test]
fn a_leaf_of_1023_bytes_is_joined(rt: HostRuntime) {
    let mut left = empty_leaf();
    let mut right = empty_leaf();
    let Some(value) = letters(480) else {
        assert!(rt; false);
        return;
    };
    let Some(short) = letters(1) else {
        assert!(rt; false);
        return;
    };
    for key in 1..4 {
        assert!(rt; put(&mut left, key, &short));
    }
    for key in 4..6 {
        assert!(rt; put(&mut left, key, &value));
    }
    for key in 6..10 {
        assert!(rt; put(&mut right, key, &value));
    }
    assert_eq!(rt; rows_in(&left), 5);
    assert_eq!(rt; join(&mut left, &mut right), Some(true));
    assert_eq!(rt; rows_in(&left), 9);
    assert!(rt; has_row(&left, 2, 3, b"v"));
    assert!(rt; has_row(&left, 8, 9, value.bytes()));
    assert_eq!(rt; page_word(&left, 24), 4096 - 3 * 9 - 6 * 488);
    assert!(rt; remove(&mut left, 1));
    assert!(rt; !remove(&mut left, 1));
}

#[test]
fn rows_of_two_leaves_are_divided(rt: HostRuntime) {
    let mut left = empty_leaf();
    let mut right = empty_leaf();
    let Some(value) = letters(480) else {
        assert!(rt; false);
        return;
    };
    assert!(rt; put(&mut left, 0, &value));
    for key in 1..9 {
        assert!(rt; put(&mut right, key, &value));
    }
    assert_eq!(rt; join(&mut left, &mut right), Some(false));
    assert_eq!(rt; rows_in(&left), 5);
    assert_eq!(rt; rows_in(&right), 4);
    assert!(rt; has_row(&right, 0, 5, value.bytes()));
}

#[test]
fn rows_stand_where_the_bytes_by_hand_say(rt: HostRuntime) {
    let mut page = empty_leaf();
    let Some(empty) = letters(0) else {
        assert!(rt; false);
        return;
    };
    let Some(pair) = Value::from_bytes(b"ab") else {
        assert!(rt; false);
        return;
    };
    assert!(rt; put(&mut page, 0, &empty));
    assert!(rt; put(&mut page, u64::MAX, &pair));
    assert!(rt; page.bytes() == leaf_by_hand().bytes());
    assert!(rt; has_row(&page, 0, 0, b""));
    assert!(rt; has_row(&page, 1, u64::MAX, b"ab"));
    assert!(rt; !set_first(&mut page, &pair));
    assert!(rt; remove(&mut page, 0));
    assert!(rt; set_first(&mut page, &pair));
    assert_eq!(rt; page_word(&page, 24), 4078);
}

#[test]
fn a_full_heap_is_packed(rt: HostRuntime) {
    let mut page = empty_leaf();
    let Some(value) = letters(480) else {
        assert!(rt; false);
        return;
    };
    for key in 1..9 {
        assert!(rt; put(&mut page, key, &value));
    }
    assert!(rt; remove(&mut page, 1));
    assert!(rt; remove(&mut page, 8));
    assert_eq!(rt; page_word(&page, 24), 4096 - 8 * 488);
    assert!(rt; put(&mut page, 1, &value));
    assert_eq!(rt; rows_in(&page), 7);
    assert_eq!(rt; page_word(&page, 24), 4096 - 7 * 488);
    assert_eq!(rt; page_half(&page, 64), 4096 - 7 * 488);
    assert_eq!(rt; page_half(&page, 68), 4096 - 488);
    assert_eq!(rt; page_half(&page, 88), 4096 - 6 * 488);
}

/// An inner page of so many children at level 1: page `i + 1` from key `first + 10 * i` on.
fn inner_of(count: usize, first: u64) -> PageBuf
    requires count { count ≤ 240 }
    requires first { first ≤ 1000000 }
{
    let mut page = PageBuf::zero();
    set_page_word(&mut page, 0, 2);
    set_page_word(&mut page, 8, count as u64);
    set_page_word(&mut page, 16, 1);
    for i in 0..count {
        set_page_word(&mut page, 64 + 16 * i, first + 10 * i as u64);
        set_page_word(&mut page, 72 + 16 * i, i as u64 + 1);
    }
    page
}

/// Whether a key is above those of all children.
fn is_above(page: &PageBuf, key: u64) -> bool
    requires { IsBranch page.now }
    ensures { (child : ℕ) → result ≡ true
        → Ascends 0 last_key
        (first_keys (insert (children_of page.now) (length (children_of page.now)) (key, child))) }
{
    let count = children(page);
    if count == 0 {
        return false;
    }
    child_key(page, count - 1) < key
}

/// Puts a child behind the others. False where the page is none of children, is full, or the key is not above the others.
fn add_child(page: &mut PageBuf, key: u64, child: u64) -> bool {
    if !is_branch(page) {
        return false;
    }
    let count = children(page);
    if count >= 240 {
        return false;
    }
    if !is_above(page, key) {
        return false;
    }
    inner_insert(page, count, key, child);
    true
}

/// Cuts an inner page with a child put behind the others.
fn cut_inner(left: &mut PageBuf, right: &mut PageBuf, key: u64, child: u64) -> bool {
    if !is_branch(left) {
        return false;
    }
    let count = children(left);
    if !is_above(left, key) {
        return false;
    }
    inner_cut(left, right, count, key, child);
    true
}

/// Whether the children of one page all begin below those of another.
fn begins_before(left: &PageBuf, right: &PageBuf) -> bool
    requires left { IsBranch left.now }
    requires right { IsBranch right.now }
    ensures { result ≡ true
        → Ascends 0 last_key (first_keys (children_of left.now ++ children_of right.now)) }
{
    let count = children(left);
    let more = children(right);
    if count == 0 || more == 0 {
        return false;
    }
    child_key(left, count - 1) < child_key(right, 0)
}

/// Joins two inner pages. `None` where one is none, or they are not in order.
fn join_inners(left: &mut PageBuf, right: &mut PageBuf) -> Option<bool> {
    if !is_branch(left) {
        return None;
    }
    if !is_branch(right) {
        return None;
    }
    if children(right) == 0 || !begins_before(left, right) {
        return None;
    }
    let key = child_key(right, 0);
    Some(inner_join(left, right, key))
}

/// Takes out the first child. False where the page is no inner page.
fn remove_first(page: &mut PageBuf) -> bool {
    if !is_branch(page) {
        return false;
    }
    if children(page) == 0 {
        return false;
    }
    inner_remove(page, 0);
    true
}

#[test]
fn children_of_241_are_cut_into_121_and_120(rt: HostRuntime) {
    let mut left = inner_of(239, 0);
    let mut right = PageBuf::zero();
    assert!(rt; add_child(&mut left, 5000, 7));
    assert!(rt; !add_child(&mut left, 6000, 8));
    assert_eq!(rt; last_child(&left), (240, 5000, 7));
    assert!(rt; cut_inner(&mut left, &mut right, 6000, 8));
    assert_eq!(rt; last_child(&left), (121, 1200, 121));
    assert_eq!(rt; last_child(&right), (120, 6000, 8));
    assert_eq!(rt; page_word(&right, 16), 1);
    assert_eq!(rt; page_word(&right, 64), 1210);
    assert_eq!(rt; join_inners(&mut left, &mut right), Some(false));
    assert_eq!(rt; last_child(&left), (121, 1200, 121));
    assert!(rt; remove_first(&mut right));
    assert_eq!(rt; join_inners(&mut left, &mut right), Some(true));
    assert_eq!(rt; last_child(&left), (240, 6000, 8));
    assert!(rt; join_inners(&mut left, &mut right).is_none());
}
