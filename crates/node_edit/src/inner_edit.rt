//! Changes of the children of an inner page, in memory.
ghost use Rattle.std.specs.Prelude.{◌≡◌, ◌≢◌, ◌+◌, ◌*◌, ◌<◌, ◌≤◌, ◌⊎◌, ◌||◌, ℕ, List, length, ◌∷◌, ◌++◌, get_or, Option, Some, None, true, false, nat_le};
ghost use Rattle.page_format.specs.Spans.{reach};
ghost use Rattle.page_alloc.specs.Written.{lines_changed};
ghost use Rattle.std.specs.List.{insert, remove, list_all};
ghost use Rattle.ssd_model.specs.Page.{Same};
ghost use Rattle.rows.specs.Rows.{Ascends, last_key};
ghost use Rattle.page_format.specs.Node.{Child, IsWellFormed, entry_count, page_level, first_keys, begins_at, is_page_below, children as children_of};
ghost use Rattle.page_format.specs.Inner.{IsInner, IsBranch};
ghost use Rattle.node_edit.specs.declared.fit.Fit.TheVariants as fits;
ghost use Rattle.node_edit.specs.Edit.{Fits, child_put, place_of, has_key, AreChildren, both, joined, IsCutIn, IsPair, PairsUp, Mended};
ghost use Rattle.node_edit.specs.Cuts.{CutsChildren};

use crate::fit::Fit;
use crate::leaf_edit::top_of;
use crate::pair::Pair;
use page_edit::{inner_cut, inner_insert, inner_remove};
use page_format::{Expect, child_key, children};
use ssd_model::PageBuf;

/// What an inner page of a tree is in itself.
pub fn enter(page: &PageBuf, expect: &Expect) -> usize
    requires level { 1 ≤ expect.now.level }
    requires well { IsWellFormed page.now expect.now }
    ensures count { result ≡ length (children_of page.now) }
    ensures entries { result ≡ entry_count page.now }
    ensures branch { IsBranch page.now }
    ensures level { page_level page.now ≡ expect.now.level }
    ensures top { expect.now.high ≤ last_key }
    ensures are { AreChildren expect.now (children_of page.now) }
    ensures size { length page.now ≡ 4096 }
{
    page.byte(0);
    top_of(expect);
    children(page)
}

/// The first child whose key is not below a key, or the number of children.
pub fn child_at(page: &PageBuf, key: u64) -> usize
    requires { IsBranch page.now }
    ensures place { result ≡ place_of key (children_of page.now) }
    ensures within { result ≤ length (children_of page.now) }
{
    let count = children(page);
    for i in 0..count {
        if child_key(page, i) >= key {
            return i;
        }
    }
    count
}

/// Whether the child at the place of a key begins with it.
fn is_there(page: &PageBuf, at: usize, key: u64) -> bool
    requires branch { IsBranch page.now }
    requires at { at ≡ place_of key (children_of page.now) }
    ensures there { result ≡ has_key key (children_of page.now) }
    ensures within { result ≡ true → at < length (children_of page.now) }
{
    at < children(page) && child_key(page, at) == key
}

/// Puts a child in at a place of an inner page, or cuts the page where it has 240.
fn insert_child(
    left: &mut PageBuf,
    right: &mut PageBuf,
    expect: &Expect,
    at: usize,
    key: u64,
    child: u64,
) -> Fit
    requires branch { IsBranch left.old }
    requires level { page_level left.old ≡ expect.now.level }
    requires at { at ≤ length (children_of left.old) }
    requires are { AreChildren expect.now (insert (children_of left.old) at (key, child)) }
    ensures fits { Fits children_of expect.now left.new right.new
        (insert (children_of left.old) at (key, child)) result }
    ensures long { result ≢ fits.Short }
    ensures room { length (children_of left.old) < 240 → result ≡ fits.Whole }
    ensures parts { (k : ℕ) → result ≡ fits.Cut k
        → CutsChildren (insert (children_of left.old) at (key, child)) (children_of left.new)
        (children_of right.new) k }
{
    top_of(expect);
    if children(left) < 240 {
        inner_insert(left, at, key, child);
        return Fit::Whole;
    }
    inner_cut(left, right, at, key, child);
    children(right);
    Fit::Cut(child_key(right, 0))
}

/// Puts a child at a key of an inner page, in place of one that begins with it, and cuts the page where it has 240.
pub fn inner_put(
    left: &mut PageBuf,
    right: &mut PageBuf,
    expect: &Expect,
    key: u64,
    child: u64,
) -> Fit
    requires level { 1 ≤ expect.now.level }
    requires well { IsWellFormed left.old expect.now }
    requires above { expect.now.low < key }
    requires within { key ≤ expect.now.high }
    requires some { 1 ≤ child }
    requires below { child < expect.now.pages }
    ensures fits { Fits children_of expect.now left.new right.new
        (child_put key child (children_of left.old)) result }
    ensures long { result ≢ fits.Short }
    ensures room { entry_count left.old < 240 → result ≡ fits.Whole }
    ensures parts { (k : ℕ) → result ≡ fits.Cut k
        → CutsChildren (child_put key child (children_of left.old)) (children_of left.new)
        (children_of right.new) k }
{
    enter(left, expect);
    let at = child_at(left, key);
    if !is_there(left, at, key) {
        return insert_child(left, right, expect, at, key, child);
    }
    inner_remove(left, at);
    children(left);
    insert_child(left, right, expect, at, key, child)
}

/// Whether an inner page has as many children as it has to.
fn is_broad(page: &PageBuf, expect: &Expect) -> bool
    requires { IsBranch page.now }
    ensures { result ≡ (expect.now.root || nat_le 80 (length (children_of page.now))) }
{
    expect.root || children(page) >= 80
}

/// What became of an inner page that lost a child.
fn inner_fit(page: &PageBuf, expect: &Expect) -> Fit
    requires branch { IsBranch page.now }
    ensures fits { page_level page.now ≡ expect.now.level → (right : List ℕ)
        → begins_at expect.now.low (children_of page.now) ≡ true
        → Ascends expect.now.low expect.now.high (first_keys (children_of page.now))
        → list_all (is_page_below expect.now.pages) (children_of page.now) ≡ true
        → 2 ≤ length (children_of page.now)
        → Fits children_of expect.now page.now right (children_of page.now) result }
    ensures uncut { (key : ℕ) → result ≢ fits.Cut key }
    ensures short { result ≡ fits.Short
        → (expect.now.root ≡ false) × (length (children_of page.now) < 80) }
{
    if is_broad(page, expect) {
        Fit::Whole
    } else {
        Fit::Short
    }
}

/// Takes the right one of two neighbours out of the page above, after a join in which it was emptied.
pub fn mend_joined(page: &mut PageBuf, expect: &Expect, pair: &Pair) -> Fit
    requires level { 1 ≤ expect.now.level }
    requires well { IsWellFormed page.old expect.now }
    requires some { 3 ≤ entry_count page.old }
    ensures mended { Mended expect.now page.old page.new pair.now None result }
    ensures uncut { (k : ℕ) → result ≢ fits.Cut k }
    ensures short { result ≡ fits.Short
        → (expect.now.root ≡ false) × (length (children_of page.new) < 80) }
    ensures few { lines_changed page.old page.new ≤ 61 }
{
    enter(page, expect);
    let at = child_at(page, pair.middle);
    if !is_there(page, at, pair.middle) {
        return Fit::Whole;
    }
    inner_remove(page, at);
    page.byte(0);
    inner_fit(page, expect)
}

/// Puts the right one of two neighbours at another key in the page above, after their entries were divided anew.
pub fn mend_divided(page: &mut PageBuf, expect: &Expect, pair: &Pair, key: u64) -> Fit
    requires level { 1 ≤ expect.now.level }
    requires well { IsWellFormed page.old expect.now }
    requires cut { IsCutIn pair.now (Some key) }
    ensures mended { Mended expect.now page.old page.new pair.now (Some key) result }
    ensures uncut { (k : ℕ) → result ≢ fits.Cut k }
    ensures long { result ≢ fits.Short }
    ensures few { lines_changed page.old page.new ≤ 61 }
{
    enter(page, expect);
    let at = child_at(page, pair.middle);
    if !is_there(page, at, pair.middle) {
        return Fit::Whole;
    }
    inner_remove(page, at);
    let place = child_at(page, key);
    if is_there(page, place, key) {
        page.byte(0);
        return Fit::Whole;
    }
    inner_insert(page, place, key, pair.right);
    page.byte(0);
    Fit::Whole
}
