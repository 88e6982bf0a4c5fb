//! Pages written by hand, and what such a page is.
ghost use Rattle.std.specs.Prelude.{◌≡◌, true};
ghost use Rattle.page_format.specs.Node.{IsLeaf, any_leaf as any};
ghost use Rattle.page_format.specs.Search.{IsSpot};
ghost use Rattle.page_format.specs.Inner.{IsBranch};

use line_pages::{page_word, set_page_half, set_page_word};
use page_format::{
    Expect, Spot, child, child_key, children, leaf_key, leaf_rows, leaf_value, locate, open_leaf,
    well_formed,
};
use rows::Value;
use ssd_model::PageBuf;

/// An empty leaf.
pub fn empty_leaf() -> PageBuf {
    let mut page = PageBuf::zero();
    set_page_word(&mut page, 0, 1);
    set_page_word(&mut page, 24, 4096);
    page
}

/// A leaf of two rows, byte by byte: key 0 with no value, and the last key with the value `ab`.
pub fn leaf_by_hand() -> PageBuf {
    let mut page = PageBuf::zero();
    set_page_word(&mut page, 0, 1);
    set_page_word(&mut page, 8, 2);
    set_page_word(&mut page, 24, 4078);
    set_page_half(&mut page, 64, 4088);
    set_page_half(&mut page, 66, 8);
    set_page_half(&mut page, 68, 4078);
    set_page_half(&mut page, 70, 10);
    set_page_word(&mut page, 4078, u64::MAX);
    page.set_part(4086, b"ab");
    page
}

/// An inner page of two children: page 7 from key 0 on, page 9 from key 50 on.
pub fn inner_by_hand() -> PageBuf {
    let mut page = PageBuf::zero();
    set_page_word(&mut page, 0, 2);
    set_page_word(&mut page, 8, 2);
    set_page_word(&mut page, 16, 1);
    set_page_word(&mut page, 72, 7);
    set_page_word(&mut page, 80, 50);
    set_page_word(&mut page, 88, 9);
    page
}

/// Whether a page is a leaf that is well formed in itself.
pub fn is_leaf(page: &PageBuf) -> bool
    ensures { result ≡ true → IsLeaf page.now }
{
    let expect = Expect {
        level: 0,
        low: 0,
        high: u64::MAX,
        root: true,
        pages: 0,
    };
    match well_formed(page, &expect) {
        Ok(()) => true,
        Err(_) => false,
    }
}

/// Where a key is in a leaf.
pub fn place(page: &PageBuf, key: u64) -> Spot
    requires { IsLeaf page.now }
    ensures { IsSpot page.now any key result }
{
    let expect = Expect {
        level: 0,
        low: 0,
        high: u64::MAX,
        root: true,
        pages: 0,
    };
    locate(page, &expect, key)
}

/// How many rows a leaf has; the largest number for another page.
pub fn rows_in(page: &PageBuf) -> usize {
    if !is_leaf(page) {
        return usize::MAX;
    }
    open_leaf(page)
}

/// Whether a leaf has this row at a place.
pub fn has_row(page: &PageBuf, at: usize, key: u64, value: &[u8]) -> bool {
    if !is_leaf(page) {
        return false;
    }
    let count = open_leaf(page);
    at < leaf_rows(page) && at < count && leaf_key(page, at) == key && leaf_value(page, at) == value
}

/// The letter `v`, so many times.
pub fn letters(count: usize) -> Option<Value> {
    let letters = [b'v'; 481];
    if count > 481 {
        return None;
    }
    Value::from_bytes(&letters[..count])
}

/// Whether a page is an inner page that is well formed in itself.
pub fn is_branch(page: &PageBuf) -> bool
    ensures { result ≡ true → IsBranch page.now }
{
    let expect = Expect {
        level: 1,
        low: page_word(page, 64),
        high: u64::MAX,
        root: true,
        pages: u64::MAX,
    };
    match well_formed(page, &expect) {
        Ok(()) => true,
        Err(_) => false,
    }
}

/// The number of children, and the key and the page of the last one; zeros for a page that is no inner page.
pub fn last_child(page: &PageBuf) -> (usize, u64, u64) {
    if !is_branch(page) {
        return (0, 0, 0);
    }
    let count = children(page);
    if count == 0 {
        return (0, 0, 0);
    }
    (count, child_key(page, count - 1), child(page, count - 1))
}
