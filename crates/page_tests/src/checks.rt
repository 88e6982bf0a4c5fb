//! Worked examples: pages written by hand, read, and each check violated once; values that may stand and that may not.
//!
//! The check on the bytes used comes first nowhere: where slots end before the heap and no two records share a byte,
//! these bytes are at most 4,032.
ghost use Rattle.std.specs.Prelude.{◌+◌, ◌≤◌};

use crate::by_hand::{
    has_row, inner_by_hand, is_leaf, last_child, leaf_by_hand, letters, place, rows_in,
};
use line_pages::{set_page_half, set_page_word};
use page_format::{Expect, Spot, child, leaf_used, locate, open_leaf, well_formed};
use rows::Value;
use ssd_model::PageBuf;

/// What a leaf is expected to be, however full it is.
fn any_leaf() -> Expect {
    Expect {
        level: 0,
        low: 0,
        high: u64::MAX,
        root: true,
        pages: 0,
    }
}

/// What the page of a tree of two levels is expected to be.
fn any_inner(root: bool) -> Expect {
    Expect {
        level: 1,
        low: 0,
        high: u64::MAX,
        root,
        pages: 300,
    }
}

/// The check that a leaf fails after one of its words was changed.
fn leaf_with_word(at: usize, value: u64) -> Result<(), u8>
    requires { at + 8 ≤ 4096 }
{
    let mut page = leaf_by_hand();
    set_page_word(&mut page, at, value);
    well_formed(&page, &any_leaf())
}

/// The check that a leaf fails after the place or the length of a record was changed.
fn leaf_with_half(at: usize, value: u16) -> Result<(), u8>
    requires { at + 2 ≤ 4096 }
{
    let mut page = leaf_by_hand();
    set_page_half(&mut page, at, value);
    well_formed(&page, &any_leaf())
}

/// The check that an inner page fails after one of its words was changed.
fn inner_with_word(at: usize, value: u64) -> Result<(), u8>
    requires { at + 8 ≤ 4096 }
{
    let mut page = inner_by_hand();
    set_page_word(&mut page, at, value);
    well_formed(&page, &any_inner(true))
}

#[test]
fn leaves_fail_each_check(rt: HostRuntime) {
    assert!(rt; leaf_with_word(0, 1) == Ok(()));
    assert!(rt; leaf_with_word(0, 2) == Err(11));
    assert!(rt; leaf_with_word(16, 1) == Err(12));
    assert!(rt; leaf_with_word(24, 71) == Err(13));
    assert!(rt; leaf_with_word(24, 4097) == Err(13));
    assert!(rt; leaf_with_word(8, 1009) == Err(13));
    assert!(rt; leaf_with_word(24, 4079) == Err(14));
    assert!(rt; leaf_with_half(64, 4089) == Err(14));
    assert!(rt; leaf_with_half(64, 4087) == Err(14));
    assert!(rt; leaf_with_half(66, 7) == Err(14));
    assert!(rt; leaf_with_word(4088, u64::MAX) == Err(16));
    assert!(rt; leaf_with_half(4086, 0x1F61) == Err(17));
    let mut page = leaf_by_hand();
    set_page_half(&mut page, 4086, 0x1F61);
    set_page_word(&mut page, 4088, u64::MAX);
    assert!(rt; well_formed(&page, &any_leaf()) == Err(16));
    set_page_word(&mut page, 24, 4097);
    assert!(rt; well_formed(&page, &any_leaf()) == Err(13));
    let below = Expect {
        level: 0,
        low: 0,
        high: 9,
        root: true,
        pages: 0,
    };
    assert!(rt; well_formed(&leaf_by_hand(), &below) == Err(16));
    let kept = Expect {
        level: 0,
        low: 0,
        high: u64::MAX,
        root: false,
        pages: 0,
    };
    assert!(rt; well_formed(&leaf_by_hand(), &kept) == Err(21));
}

#[test]
fn inner_pages_fail_each_check(rt: HostRuntime) {
    assert!(rt; inner_with_word(0, 2) == Ok(()));
    assert!(rt; inner_with_word(0, 1) == Err(11));
    assert!(rt; inner_with_word(16, 2) == Err(12));
    assert!(rt; inner_with_word(8, 1) == Err(18));
    assert!(rt; inner_with_word(8, 241) == Err(18));
    assert!(rt; inner_with_word(64, 1) == Err(19));
    assert!(rt; inner_with_word(80, 0) == Err(19));
    assert!(rt; inner_with_word(88, 0) == Err(20));
    assert!(rt; inner_with_word(72, 300) == Err(20));
    assert!(rt; well_formed(&inner_by_hand(), &any_inner(false)) == Err(22));
}

/// The bytes that the rows of a leaf take; the largest number for another page.
fn bytes_in(page: &PageBuf) -> usize {
    if !is_leaf(page) {
        return usize::MAX;
    }
    open_leaf(page);
    leaf_used(page)
}

/// Where a key is in a leaf. `None` for another page.
fn place_in(page: &PageBuf, key: u64) -> Option<Spot> {
    if !is_leaf(page) {
        return None;
    }
    Some(place(page, key))
}

/// Below which child of the root of a tree of two levels a key is. `None` for another page.
fn child_for(page: &PageBuf, key: u64) -> Option<Spot> {
    let expect = Expect {
        level: 1,
        low: 0,
        high: u64::MAX,
        root: true,
        pages: 300,
    };
    match well_formed(page, &expect) {
        Ok(()) => Some(locate(page, &expect, key)),
        Err(_) => None,
    }
}

#[test]
fn rows_by_hand_are_read(rt: HostRuntime) {
    let page = leaf_by_hand();
    assert_eq!(rt; rows_in(&page), 2);
    assert_eq!(rt; bytes_in(&page), 26);
    assert!(rt; has_row(&page, 0, 0, b""));
    assert!(rt; has_row(&page, 1, u64::MAX, b"ab"));
    assert_eq!(rt; place_in(&page, 0), Some(Spot::Row(0)));
    assert_eq!(rt; place_in(&page, 1), Some(Spot::Gap(1)));
    assert_eq!(rt; place_in(&page, u64::MAX), Some(Spot::Row(1)));
    assert!(rt; place_in(&inner_by_hand(), 0).is_none());
}

#[test]
fn children_by_hand_are_read(rt: HostRuntime) {
    let page = inner_by_hand();
    assert_eq!(rt; last_child(&page), (2, 50, 9));
    assert_eq!(rt; child_for(&page, 49), Some(Spot::Child(0, 7, 0, 49)));
    assert_eq!(rt; child_for(&page, 50), Some(Spot::Child(1, 9, 50, u64::MAX)));
    assert!(rt; child_for(&leaf_by_hand(), 0).is_none());
}

#[test]
fn values_are_short_and_printable(rt: HostRuntime) {
    assert!(rt; letters(481).is_none());
    assert!(rt; Value::from_bytes(&[0x1F]).is_none());
    assert!(rt; Value::from_bytes(&[0x7F]).is_none());
    let Some(value) = letters(480) else {
        assert!(rt; false);
        return;
    };
    assert_eq!(rt; value.copy().bytes().len(), 480);
    let Some(ends) = Value::from_bytes(b" ~") else {
        assert!(rt; false);
        return;
    };
    assert!(rt; ends.copy().bytes() == b" ~".as_slice());
}
