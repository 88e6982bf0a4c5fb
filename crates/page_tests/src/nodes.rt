//! Worked examples: leaves and inner pages that are changed, cut and joined in memory.
use crate::by_hand::empty_leaf;
use line_pages::page_word;
use node_edit::{
    Fit, Pair, inner_put, leaf_delete, leaf_put, left_expect, mend_joined, merge_leaves, pair_of,
    right_expect, root_of,
};
use page_format::{Expect, well_formed};
use rows::Value;
use ssd_model::PageBuf;

/// Puts a value of 480 bytes at a key of a leaf.
fn put(page: &mut PageBuf, right: &mut PageBuf, key: u64) -> Option<Fit> {
    let expect = Expect {
        level: 0,
        low: 0,
        high: u64::MAX,
        root: true,
        pages: 10,
    };
    let Some(value) = Value::from_bytes(&[b'v'; 480]) else {
        return None;
    };
    match well_formed(page, &expect) {
        Ok(()) => Some(leaf_put(page, right, &expect, key, value.bytes())),
        Err(_) => None,
    }
}

/// A leaf with such a value at each of so many keys.
fn leaf_of(keys: &[u64]) -> PageBuf {
    let mut page = empty_leaf();
    let mut right = PageBuf::zero();
    for key in keys {
        put(&mut page, &mut right, *key);
    }
    page
}

/// Takes a key out of a leaf that is no root.
fn delete(page: &mut PageBuf, key: u64) -> Option<Fit> {
    let expect = Expect {
        level: 0,
        low: 0,
        high: u64::MAX,
        root: false,
        pages: 10,
    };
    match well_formed(page, &expect) {
        Ok(()) => Some(leaf_delete(page, &expect, key)),
        Err(_) => None,
    }
}

/// Joins two leaves that part at key 10.
fn merge(left: &mut PageBuf, right: &mut PageBuf) -> Option<Option<u64>> {
    let pair = Pair {
        left: 1,
        low: 0,
        middle: 10,
        right: 2,
        high: u64::MAX,
    };
    let Ok(()) = well_formed(left, &left_expect(&pair, 0, 10)) else {
        return None;
    };
    let Ok(()) = well_formed(right, &right_expect(&pair, 0, 10)) else {
        return None;
    };
    Some(merge_leaves(left, right, &pair, 10))
}

#[test]
fn cuts_a_full_leaf(rt: HostRuntime) {
    let mut page = leaf_of(&[1, 2, 3, 4, 5, 6, 7, 8]);
    let mut right = PageBuf::zero();
    assert_eq!(rt; page_word(&page, 8), 8);
    assert_eq!(rt; put(&mut page, &mut right, 3), Some(Fit::Whole));
    assert_eq!(rt; put(&mut page, &mut right, 9), Some(Fit::Cut(6)));
    assert_eq!(rt; page_word(&page, 8), 5);
    assert_eq!(rt; page_word(&right, 8), 4);
}

/// Three such values take 1,476 bytes, and two 984.
#[test]
fn falls_below_the_floor(rt: HostRuntime) {
    let mut page = leaf_of(&[1, 2, 3]);
    assert_eq!(rt; delete(&mut page, 4), Some(Fit::Whole));
    assert_eq!(rt; delete(&mut page, 2), Some(Fit::Short));
    assert_eq!(rt; page_word(&page, 8), 2);
}

#[test]
fn joins_where_one_leaf_has_room(rt: HostRuntime) {
    let mut left = leaf_of(&[1, 2]);
    let mut right = leaf_of(&[10, 11, 12]);
    assert_eq!(rt; merge(&mut left, &mut right), Some(None));
    assert_eq!(rt; page_word(&left, 8), 5);
}

#[test]
fn divides_anew_where_it_has_not(rt: HostRuntime) {
    let mut left = leaf_of(&[1, 2]);
    let mut right = leaf_of(&[10, 11, 12, 13, 14, 15, 16]);
    assert_eq!(rt; merge(&mut left, &mut right), Some(Some(13)));
    assert_eq!(rt; page_word(&left, 8), 5);
    assert_eq!(rt; page_word(&right, 8), 4);
}

/// A child is put into a new root, found with its left sibling, and taken out as after a join of the two.
#[test]
fn goes_from_two_children_to_three_and_back(rt: HostRuntime) {
    let expect = Expect {
        level: 1,
        low: 0,
        high: u64::MAX,
        root: true,
        pages: 10,
    };
    let mut page = PageBuf::zero();
    let mut right = PageBuf::zero();
    root_of(&mut page, 1, 1, 50, 2, 10);
    let fit = inner_put(&mut page, &mut right, &expect, 70, 3);
    assert_eq!(rt; fit, Fit::Whole);
    assert_eq!(rt; page_word(&page, 8), 3);
    let Ok(()) = well_formed(&page, &expect) else {
        return;
    };
    let pair = pair_of(&page, &expect, 70);
    assert_eq!(rt; (pair.left, pair.middle, pair.right), (2, 70, 3));
    if page_word(&page, 8) < 3 {
        return;
    }
    assert_eq!(rt; mend_joined(&mut page, &expect, &pair), Fit::Whole);
    assert_eq!(rt; page_word(&page, 8), 2);
}
