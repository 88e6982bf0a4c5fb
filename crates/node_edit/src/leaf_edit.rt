//! Changes of the rows of a leaf, in memory.
ghost use Rattle.std.specs.Prelude.{◌≡◌, ◌≢◌, ◌+◌, ◌*◌, ◌<◌, ◌≤◌, ◌⊎◌, ℕ, List, ◌||◌, length, get_or, true, false, nat_le};
ghost use Rattle.std.specs.List.{insert, remove, list_all};
ghost use Rattle.ssd_model.specs.Page.{Same};
ghost use Rattle.rows.specs.Rows.{Row, row_put, row_delete, keys, Ascends, last_key};
ghost use Rattle.page_format.specs.Node.{IsLeaf, IsWellFormed, entry_count, heap_start, leaf_rows as rows_of};
ghost use Rattle.rows.specs.Value.{is_printable};
ghost use Rattle.page_format.specs.Room.{leaf_room};
ghost use Rattle.page_format.specs.Sound.{IsSound, IsRows, row_bytes};
ghost use Rattle.page_edit.specs.Packed.{IsPacked, AddsBelow};
ghost use Rattle.node_edit.specs.declared.fit.Fit.TheVariants as fits;
ghost use Rattle.node_edit.specs.Edit.{Fits, place_of, has_key};
ghost use Rattle.page_alloc.specs.Written.{Differs, Meets, lines_changed};
ghost use Rattle.node_edit.specs.Record.{record_at, FitsLeaf, HoldsLength};
ghost use Rattle.node_edit.specs.Cuts.{CutsRows};

use crate::fit::Fit;
use page_edit::{leaf_cut, leaf_insert, leaf_remove, leaf_set};
use page_format::{Expect, leaf_key, leaf_rows, leaf_used, leaf_value};
use ssd_model::PageBuf;

/// What a leaf is in itself.
pub fn open_leaf(page: &PageBuf) -> usize
    requires { IsLeaf page.now }
    ensures count { result ≡ length (rows_of page.now) }
    ensures entries { result ≡ entry_count page.now }
    ensures sound { IsSound page.now }
    ensures rows { IsRows (rows_of page.now) }
    ensures size { length page.now ≡ 4096 }
{
    page.byte(0);
    leaf_rows(page)
}

/// The greatest key that a page may have.
pub fn top_of(expect: &Expect) -> u64
    ensures is { result ≡ expect.now.high }
    ensures top { expect.now.high ≤ last_key }
{
    expect.high
}

/// What a leaf of a tree is in itself.
pub fn enter(page: &PageBuf, expect: &Expect)
    requires level { expect.now.level ≡ 0 }
    requires well { IsWellFormed page.now expect.now }
    ensures leaf { IsLeaf page.now }
    ensures order { Ascends expect.now.low expect.now.high (keys (rows_of page.now)) }
    ensures full { (expect.now.root || nat_le 1344 (row_bytes (rows_of page.now))) ≡ true }
    ensures size { length page.now ≡ 4096 }
{
    page.byte(0);
    top_of(expect);
}

/// The first row of a leaf whose key is not below a key, or the number of rows.
fn leaf_place(page: &PageBuf, key: u64) -> usize
    requires { IsLeaf page.now }
    ensures place { result ≡ place_of key (rows_of page.now) }
    ensures within { result ≤ length (rows_of page.now) }
{
    let count = open_leaf(page);
    for i in 0..count {
        if leaf_key(page, i) >= key {
            return i;
        }
    }
    count
}

/// Whether the row at the place of a key has it.
fn is_there(page: &PageBuf, at: usize, key: u64) -> bool
    requires leaf { IsLeaf page.now }
    requires at { at ≡ place_of key (rows_of page.now) }
    ensures there { result ≡ has_key key (rows_of page.now) }
    ensures within { result ≡ true → at < length (rows_of page.now) }
{
    at < open_leaf(page) && leaf_key(page, at) == key
}

/// Whether a leaf is as full as it has to be.
fn is_full(page: &PageBuf, expect: &Expect) -> bool
    requires { IsLeaf page.now }
    ensures full { result ≡ (expect.now.root || nat_le 1344 (row_bytes (rows_of page.now))) }
    ensures size { length page.now ≡ 4096 }
{
    open_leaf(page);
    expect.root || leaf_used(page) >= 1344
}

/// What became of a leaf that was changed.
fn leaf_fit(page: &PageBuf, expect: &Expect) -> Fit
    requires level { expect.now.level ≡ 0 }
    requires leaf { IsLeaf page.now }
    requires order { Ascends expect.now.low expect.now.high (keys (rows_of page.now)) }
    ensures fits { (right : List ℕ)
        → Fits rows_of expect.now page.now right (rows_of page.now) result }
    ensures uncut { (key : ℕ) → result ≢ fits.Cut key }
    ensures short { result ≡ fits.Short → row_bytes (rows_of page.now) < 1344 }
    ensures whole { FitsLeaf (expect.now.root ≡ true) (rows_of page.now) → result ≡ fits.Whole }
{
    if is_full(page, expect) {
        Fit::Whole
    } else {
        Fit::Short
    }
}

/// Puts a row in at a place of a leaf, or cuts the leaf where it has no room for it.
fn insert_row(
    left: &mut PageBuf,
    right: &mut PageBuf,
    expect: &Expect,
    at: usize,
    key: u64,
    value: &[u8],
) -> Fit
    requires level { expect.now.level ≡ 0 }
    requires leaf { IsLeaf left.old }
    requires at { at ≤ length (rows_of left.old) }
    requires order { Ascends expect.now.low expect.now.high
        (keys (insert (rows_of left.old) at (key, value.now))) }
    requires few { length value.now ≤ 480 }
    requires printable { list_all is_printable value.now ≡ true }
    ensures fits { Fits rows_of expect.now left.new right.new
        (insert (rows_of left.old) at (key, value.now)) result }
    ensures few { result ≡ fits.Short → (base : List ℕ) → length base ≡ 4096
        → Same (64 + 4 * (entry_count left.old + 1)) 4096 base left.old
        → lines_changed base left.new ≤ 33 }
    ensures whole { FitsLeaf (expect.now.root ≡ true)
        (insert (rows_of left.old) at (key, value.now)) → result ≡ fits.Whole }
    ensures parts { (k : ℕ) → result ≡ fits.Cut k
        → CutsRows (insert (rows_of left.old) at (key, value.now)) (rows_of left.new)
        (rows_of right.new) k }
{
    open_leaf(left);
    if leaf_used(left) + 12 + value.len() > 4032 {
        return cut_row(left, right, expect, at, key, value);
    }
    fit_row(left, expect, at, key, value)
}

/// Cuts a leaf in two with a new row.
fn cut_row(
    left: &mut PageBuf,
    right: &mut PageBuf,
    expect: &Expect,
    at: usize,
    key: u64,
    value: &[u8],
) -> Fit
    requires level { expect.now.level ≡ 0 }
    requires leaf { IsLeaf left.old }
    requires at { at ≤ length (rows_of left.old) }
    requires order { Ascends expect.now.low expect.now.high
        (keys (insert (rows_of left.old) at (key, value.now))) }
    requires few { length value.now ≤ 480 }
    requires printable { list_all is_printable value.now ≡ true }
    requires over { 4032 < row_bytes (rows_of left.old) + 12 + length value.now }
    ensures fits { Fits rows_of expect.now left.new right.new
        (insert (rows_of left.old) at (key, value.now)) result }
    ensures long { result ≢ fits.Short }
    ensures more { leaf_room < row_bytes (insert (rows_of left.old) at (key, value.now)) }
    ensures parts { (k : ℕ) → result ≡ fits.Cut k
        → CutsRows (insert (rows_of left.old) at (key, value.now)) (rows_of left.new)
        (rows_of right.new) k }
{
    top_of(expect);
    open_leaf(left);
    leaf_cut(left, right, at, key, value);
    open_leaf(left);
    open_leaf(right);
    Fit::Cut(leaf_key(right, 0))
}

/// Puts a row in at a place of a leaf that has room for it.
fn fit_row(page: &mut PageBuf, expect: &Expect, at: usize, key: u64, value: &[u8]) -> Fit
    requires level { expect.now.level ≡ 0 }
    requires leaf { IsLeaf page.old }
    requires at { at ≤ length (rows_of page.old) }
    requires order { Ascends expect.now.low expect.now.high
        (keys (insert (rows_of page.old) at (key, value.now))) }
    requires few { length value.now ≤ 480 }
    requires printable { list_all is_printable value.now ≡ true }
    requires room { row_bytes (rows_of page.old) + 12 + length value.now ≤ 4032 }
    ensures fits { (right : List ℕ)
        → Fits rows_of expect.now page.new right
        (insert (rows_of page.old) at (key, value.now)) result }
    ensures uncut { (k : ℕ) → result ≢ fits.Cut k }
    ensures few { result ≡ fits.Short → (base : List ℕ) → length base ≡ 4096
        → Same (64 + 4 * (entry_count page.old + 1)) 4096 base page.old
        → lines_changed base page.new ≤ 33 }
    ensures whole { FitsLeaf (expect.now.root ≡ true)
        (insert (rows_of page.old) at (key, value.now)) → result ≡ fits.Whole }
{
    top_of(expect);
    open_leaf(page);
    leaf_insert(page, at, key, value);
    open_leaf(page);
    leaf_fit(page, expect)
}

/// Puts a value at a key of a leaf. A value of the same length is put in place of the other; else the row is taken out and
/// put in again, and the leaf is cut where it has no room for it.
pub fn leaf_put(
    left: &mut PageBuf,
    right: &mut PageBuf,
    expect: &Expect,
    key: u64,
    value: &[u8],
) -> Fit
    requires level { expect.now.level ≡ 0 }
    requires well { IsWellFormed left.old expect.now }
    requires above { expect.now.low ≤ key }
    requires within { key ≤ expect.now.high }
    requires few { length value.now ≤ 480 }
    requires printable { list_all is_printable value.now ≡ true }
    ensures fits { Fits rows_of expect.now left.new right.new
        (row_put key value.now (rows_of left.old)) result }
    ensures few { result ≡ fits.Short → lines_changed left.old left.new ≤ 33 }
    ensures whole { FitsLeaf (expect.now.root ≡ true) (row_put key value.now (rows_of left.old))
        → result ≡ fits.Whole }
    ensures parts { (k : ℕ) → result ≡ fits.Cut k
        → CutsRows (row_put key value.now (rows_of left.old)) (rows_of left.new)
        (rows_of right.new) k }
    ensures again { HoldsLength key (length value.now) (rows_of left.old)
        → (result ≡ fits.Whole)
        × ((line : ℕ) → Differs left.old left.new line → Meets (record_at key left.old) line) }
{
    enter(left, expect);
    let at = leaf_place(left, key);
    if !is_there(left, at, key) {
        return insert_row(left, right, expect, at, key, value);
    }
    open_leaf(left);
    if leaf_value(left, at).len() == value.len() {
        leaf_set(left, at, value);
        open_leaf(left);
        return Fit::Whole;
    }
    leaf_remove(left, at);
    open_leaf(left);
    insert_row(left, right, expect, at, key, value)
}

/// Takes a key out of a leaf, if it is there.
pub fn leaf_delete(page: &mut PageBuf, expect: &Expect, key: u64) -> Fit
    requires level { expect.now.level ≡ 0 }
    requires well { IsWellFormed page.old expect.now }
    ensures fits { (right : List ℕ)
        → Fits rows_of expect.now page.new right (row_delete key (rows_of page.old)) result }
    ensures uncut { (k : ℕ) → result ≢ fits.Cut k }
    ensures few { lines_changed page.old page.new ≤ 33 }
{
    enter(page, expect);
    let at = leaf_place(page, key);
    if !is_there(page, at, key) {
        return Fit::Whole;
    }
    open_leaf(page);
    leaf_remove(page, at);
    open_leaf(page);
    leaf_fit(page, expect)
}
