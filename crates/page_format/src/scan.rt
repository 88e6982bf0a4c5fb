//! The search in a page whose bytes are at hand.
ghost use Rattle.std.specs.Prelude.{◌≡◌, ◌+◌, ◌-◌, ◌<◌, ◌≤◌, ℕ, length, get_or};
ghost use Rattle.page_format.specs.Node.{entry_count, IsWellFormed, Child as ChildOf, children as children_of};
ghost use Rattle.page_format.specs.Inner.{IsInner};
ghost use Rattle.page_format.specs.Sound.{IsSound};
ghost use Rattle.page_format.specs.Spans.{Reaches};
ghost use Rattle.page_format.specs.Search.{IsSpot, IsSafeSpot};

use crate::entries::{child, child_key};
use crate::leaf::leaf_key;
use crate::root::Expect;
use crate::spot::Spot;
use line_pages::page_word;
use ssd_model::PageBuf;

/// Looks a key up in a well-formed page, whose bounds have it between them.
pub fn locate(page: &PageBuf, expect: &Expect, key: u64) -> Spot
    requires well { IsWellFormed page.now expect.now }
    requires above { expect.now.low ≤ key }
    requires within { key ≤ expect.now.high }
    ensures spot { IsSpot page.now expect.now key result }
    ensures safe { IsSafeSpot expect.now key result }
{
    if expect.level == 0 {
        return scan_rows(page, expect, key);
    }
    scan_children(page, expect, key)
}

fn scan_rows(page: &PageBuf, expect: &Expect, key: u64) -> Spot
    requires well { IsWellFormed page.now expect.now }
    requires leaf { expect.now.level ≡ 0 }
    ensures spot { IsSpot page.now expect.now key result }
    ensures safe { IsSafeSpot expect.now key result }
{
    let count = open_rows(page, expect);
    for i in 0..count {
        let found = leaf_key(page, i);
        if found == key {
            return Spot::Row(i);
        }
        if found > key {
            return Spot::Gap(i);
        }
    }
    Spot::Gap(count)
}

/// The number of rows of a well-formed leaf.
fn open_rows(page: &PageBuf, expect: &Expect) -> usize
    requires well { IsWellFormed page.now expect.now }
    requires leaf { expect.now.level ≡ 0 }
    ensures sound { IsSound page.now }
    ensures count { result ≡ entry_count page.now }
{
    page_word(page, 8) as usize
}

fn scan_children(page: &PageBuf, expect: &Expect, key: u64) -> Spot
    requires well { IsWellFormed page.now expect.now }
    requires inner { 1 ≤ expect.now.level }
    requires above { expect.now.low ≤ key }
    requires within { key ≤ expect.now.high }
    ensures spot { IsSpot page.now expect.now key result }
    ensures safe { IsSafeSpot expect.now key result }
{
    let count = open_inner(page, expect);
    let next = first_above(page, count, key);
    let low = child_key(page, next - 1);
    let high = bound_before(page, next, count, expect.high);
    Spot::Child(next - 1, child(page, next - 1), low, high)
}

/// The number of children of a well-formed inner page.
fn open_inner(page: &PageBuf, expect: &Expect) -> usize
    requires well { IsWellFormed page.now expect.now }
    requires inner { 1 ≤ expect.now.level }
    ensures inner { IsInner page.now }
    ensures entries { result ≡ entry_count page.now }
    ensures count { result ≡ length (children_of page.now) }
    ensures some { 2 ≤ result }
    ensures few { result ≤ 240 }
{
    page_word(page, 8) as usize
}

/// The first child that begins above a key, or their number. The first child of all does not count.
fn first_above(page: &PageBuf, count: usize, key: u64) -> usize
    requires inner { IsInner page.now }
    requires count { count ≡ entry_count page.now }
    requires some { 1 ≤ count }
    ensures some { 1 ≤ result }
    ensures within { result ≤ count }
    ensures low { (d : ChildOf) → 1 < result
        → (get_or (children_of page.now) (result - 1) d).0 ≤ key }
    ensures high { (d : ChildOf) → result < count
        → key < (get_or (children_of page.now) result d).0 }
{
    for i in 1..count {
        if child_key(page, i) > key {
            return i;
        }
    }
    count
}

/// Up to which key the child before a place reaches, where the last one reaches up to `last`.
#[tactic(auto, using(crate::proofs::InnerLemmas::length_children))]
fn bound_before(page: &PageBuf, next: usize, count: usize, last: u64) -> u64
    requires inner { IsInner page.now }
    requires count { count ≡ entry_count page.now }
    ensures { Reaches (children_of page.now) next last result }
{
    if next < count {
        child_key(page, next).saturating_sub(1)
    } else {
        last
    }
}
