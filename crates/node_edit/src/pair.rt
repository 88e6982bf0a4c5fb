//! Two neighbouring children of an inner page, and a new root over two pages.
ghost use Rattle.std.specs.Prelude.{◌≡◌, ◌+◌, ◌*◌, ◌<◌, ◌≤◌, ◌∷◌, ◌++◌, [], ℕ, List, length, get_or};
ghost use Rattle.ssd_model.specs.Page.{Same};
ghost use Rattle.line_pages.specs.Bytes.{u64_at};
ghost use Rattle.page_format.specs.Spans.{reach};
ghost use Rattle.page_format.specs.Node.{Child, IsWellFormed, page_kind, page_level, entry_count, children as children_of};
ghost use Rattle.page_edit.specs.Join.{unused_word};
ghost use Rattle.node_edit.specs.Edit.{IsPair, PairsUp, IsNewRoot};

use crate::inner_edit::{child_at, enter};
use line_pages::set_page_word;
use page_format::{Expect, child, child_key};
use ssd_model::PageBuf;

/// Two neighbouring children: their pages and first keys, and the greatest key of the second.
#[derive(Clone, Copy, Debug, PartialEq, Eq)]
pub struct Pair {
    /// The page of the first child.
    pub left: u64,
    /// The first key of the first child.
    pub low: u64,
    /// The first key of the second child.
    pub middle: u64,
    /// The page of the second child.
    pub right: u64,
    /// The greatest key of the second child.
    pub high: u64,
}

/// The greatest key of the second of two neighbours.
fn high_after(page: &PageBuf, expect: &Expect, at: usize) -> u64
    requires level { 1 ≤ expect.now.level }
    requires well { IsWellFormed page.now expect.now }
    requires at { at + 1 < length (children_of page.now) }
    ensures next { (d : Child) → at + 2 < length (children_of page.now)
        → result + 1 ≡ (get_or (children_of page.now) (at + 2) d).0 }
    ensures last { length (children_of page.now) ≤ at + 2 → result ≡ expect.now.high }
{
    let count = enter(page, expect);
    if at + 2 < count {
        return child_key(page, at + 2) - 1;
    }
    expect.high
}

/// Two neighbours from a place on.
fn pair_at(page: &PageBuf, expect: &Expect, at: usize) -> Pair
    requires level { 1 ≤ expect.now.level }
    requires well { IsWellFormed page.now expect.now }
    requires at { at + 1 < length (children_of page.now) }
    ensures pair { (xs ys : List Child) (a b : Child) → children_of page.now ≡ xs ++ (a ∷ b ∷ ys)
        → length xs ≡ at
        → result
        ≡ record {
          left = a.1;
          low = a.0;
          middle = b.0;
          right = b.1;
          high = reach ys
              expect.now.high;
        } }
    ensures is { IsPair expect.now.pages result }
{
    enter(page, expect);
    Pair {
        left: child(page, at),
        low: child_key(page, at),
        middle: child_key(page, at + 1),
        right: child(page, at + 1),
        high: high_after(page, expect, at),
    }
}

/// The child at a key with its right sibling, or else with its left one.
pub fn pair_of(page: &PageBuf, expect: &Expect, key: u64) -> Pair
    requires level { 1 ≤ expect.now.level }
    requires well { IsWellFormed page.now expect.now }
    ensures pair { PairsUp (children_of page.now) expect.now.high key result }
    ensures is { IsPair expect.now.pages result }
{
    let count = enter(page, expect);
    let at = child_at(page, key);
    if at + 1 < count {
        return pair_at(page, expect, at);
    }
    pair_at(page, expect, count - 2)
}

/// Makes an inner page of no children yet, with room for this number.
fn set_header(page: &mut PageBuf, level: u64)
    ensures kind { page_kind page.new ≡ 2 }
    ensures count { entry_count page.new ≡ 2 }
    ensures level { page_level page.new ≡ level }
    ensures unused { unused_word page.new ≡ 0 }
    ensures size { length page.new ≡ 4096 }
{
    set_page_word(page, 0, 2);
    set_page_word(page, 8, 2);
    set_page_word(page, 16, level);
    set_page_word(page, 24, 0);
}

/// Writes an entry of an inner page.
fn set_entry(page: &mut PageBuf, at: usize, key: u64, child: u64)
    requires { at + 16 ≤ 4096 }
    ensures key { u64_at page.new at ≡ key }
    ensures child { u64_at page.new (at + 8) ≡ child }
    ensures before { Same 0 at page.old page.new }
    ensures after { Same (at + 16) 4096 page.old page.new }
    ensures size { length page.new ≡ 4096 }
{
    set_page_word(page, at, key);
    set_page_word(page, at + 8, child);
}

/// Makes an inner page of two children over all keys.
pub fn root_of(page: &mut PageBuf, level: u8, first: u64, key: u64, second: u64, count: u64)
    requires level { 1 ≤ level }
    requires above { 0 < key }
    requires first_some { 1 ≤ first }
    requires first { first < count }
    requires second_some { 1 ≤ second }
    requires second { second < count }
    ensures is { IsNewRoot page.new level first key second count }
    ensures unused { unused_word page.new ≡ 0 }
{
    set_header(page, level as u64);
    set_entry(page, 64, 0, first);
    set_entry(page, 80, key, second);
}
