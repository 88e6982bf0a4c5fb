//! The numbered checks of one page, in ascending order.
ghost use Rattle.std.specs.Prelude.{◌≡◌, ◌+◌, ◌-◌, ◌*◌, ◌<◌, ◌≤◌, ◌==◌, ◌&&◌, ◌||◌, ◌^◌, ℕ, List, Option, None, Some, true, length, get_or, nat_le, nat_lt, OnOk, IfErr};
ghost use Rattle.std.specs.List.{list_all};
ghost use Rattle.rows.specs.Rows.{Row, ascends, keys};
ghost use Rattle.page_format.specs.Node.{Child, page_kind, page_level, entry_count, heap_start, slots, bytes_used, is_in_heap, all_apart, has_printable_value, begins_at, first_keys, is_page_below, first_failing, leaf_rows as rows_of, children as children_of};
ghost use Rattle.rows.specs.Value.{is_printable};
ghost use Rattle.page_format.specs.Sound.{IsSound, slot_of, row_bytes};
ghost use Rattle.line_pages.specs.Bytes.{u64_at};
ghost use Rattle.page_format.specs.Inner.{IsInner};

use crate::entries::{child, child_key};
use crate::leaf::{leaf_key, leaf_value};
use crate::marks::Marks;
use crate::root::Expect;
use line_pages::{page_half, page_word};
use rows::all_printable;
use ssd_model::PageBuf;

/// Whether the slots end before the heap, and the heap in the page.
fn heap_fits(page: &PageBuf) -> bool
    ensures fits { result
        ≡ (nat_le (64 + 4 * entry_count page.now) (heap_start page.now) && nat_le
        (heap_start page.now) 4096) }
    ensures few { result ≡ true → entry_count page.now ≤ 1008 }
{
    let count = page_word(page, 8);
    let heap = page_word(page, 24);
    count <= 1008 && 64 + 4 * count <= heap && heap <= 4096
}

/// Whether a record is in the heap and as long as a record can be.
fn is_placed(page: &PageBuf, at: usize, heap: usize) -> bool
    requires { 68 + 4 * at ≤ 4096 }
    ensures { result ≡ is_in_heap heap (slot_of page.now at) }
{
    let place = page_half(page, 64 + 4 * at) as usize;
    let size = page_half(page, 64 + 4 * at + 2) as usize;
    heap <= place && place + size <= 4096 && 8 <= size && size <= 488
}

/// Whether each record is in the heap.
fn all_placed(page: &PageBuf, count: usize, heap: usize) -> bool
    requires count { count ≡ entry_count page.now }
    requires few { count ≤ 1008 }
    ensures { result ≡ list_all (is_in_heap heap) (slots page.now) }
{
    for i in 0..count {
        if !is_placed(page, i, heap) {
            return false;
        }
    }
    true
}

/// Whether no two records share a byte: each marks its bytes, and finds none of them marked.
fn all_separate(page: &PageBuf, count: usize) -> bool
    requires count { count ≡ entry_count page.now }
    requires few { count ≤ 1008 }
    requires placed { list_all (is_in_heap (heap_start page.now)) (slots page.now) ≡ true }
    ensures { result ≡ all_apart (slots page.now) }
{
    let mut marks = Marks::new();
    for i in 0..count {
        let place = page_half(page, 64 + 4 * i) as usize;
        let size = page_half(page, 64 + 4 * i + 2) as usize;
        if !marks.take(place, size) {
            return false;
        }
    }
    true
}

/// The bytes that so many slots and their records take. Slots are not judged here.
pub fn slots_used(page: &PageBuf, count: usize) -> usize
    requires count { count ≡ entry_count page.now }
    requires few { count ≤ 1008 }
    ensures { result ≡ bytes_used (slots page.now) }
{
    let mut total = 0;
    for i in 0..count {
        total += 4 + page_half(page, 64 + 4 * i + 2) as usize;
    }
    total
}

/// Whether a key is within two bounds.
fn is_between(least: u128, key: u64, high: u64) -> bool
    ensures { result ≡ (nat_le least key && nat_le key high) }
{
    least <= key as u128 && key <= high
}

/// Whether the keys ascend within the bounds.
fn keys_ascend(page: &PageBuf, count: usize, low: u64, high: u64) -> bool
    requires sound { IsSound page.now }
    requires count { count ≡ length (rows_of page.now) }
    ensures { result ≡ ascends low high (keys (rows_of page.now)) }
{
    let mut least = low as u128;
    for i in 0..count {
        let key = leaf_key(page, i);
        if !is_between(least, key, high) {
            return false;
        }
        least = key as u128 + 1;
    }
    true
}

/// Whether a row's value is printable.
fn is_text(page: &PageBuf, at: usize) -> bool
    requires sound { IsSound page.now }
    requires at { at < length (rows_of page.now) }
    ensures { (d : Row) → result ≡ has_printable_value (get_or (rows_of page.now) at d) }
{
    all_printable(leaf_value(page, at))
}

/// Whether each value is printable.
fn values_printable(page: &PageBuf, count: usize) -> bool
    requires sound { IsSound page.now }
    requires count { count ≡ length (rows_of page.now) }
    ensures { result ≡ list_all has_printable_value (rows_of page.now) }
{
    for i in 0..count {
        if !is_text(page, i) {
            return false;
        }
    }
    true
}

/// Whether all records are in the heap and share no byte.
fn records_fit(page: &PageBuf, count: usize) -> bool
    requires count { count ≡ entry_count page.now }
    requires few { count ≤ 1008 }
    ensures { result
        ≡ (list_all (is_in_heap (heap_start page.now)) (slots page.now) && all_apart
        (slots page.now)) }
{
    let heap = page_word(page, 24) as usize;
    all_placed(page, count, heap) && all_separate(page, count)
}

/// Whether a word of a page's first line is a number.
fn word_is(page: &PageBuf, at: usize, value: u64) -> bool
    requires { at + 8 ≤ 4096 }
    ensures is { result ≡ (u64_at page.now at == value) }
    ensures size { length page.now ≡ 4096 }
{
    page_word(page, at) == value
}

/// Whether the rows take at most what a leaf has room for.
fn is_within(page: &PageBuf, count: usize) -> bool
    requires count { count ≡ entry_count page.now }
    requires few { count ≤ 1008 }
    ensures { result ≡ nat_le (bytes_used (slots page.now)) 4032 }
{
    slots_used(page, count) <= 4032
}

/// Whether a leaf has as many bytes as it has to.
fn is_full(page: &PageBuf, count: usize, root: bool) -> bool
    requires count { count ≡ entry_count page.now }
    requires few { count ≤ 1008 }
    ensures { result ≡ (root || nat_le 1344 (bytes_used (slots page.now))) }
{
    root || 1344 <= slots_used(page, count)
}

/// The number of the first check that a leaf fails.
fn check_leaf(page: &PageBuf, expect: &Expect) -> Result<(), u8>
    requires { expect.now.level ≡ 0 }
    ensures ok { OnOk result (first_failing page.now expect.now ≡ None) }
    ensures err { IfErr result (λ number. first_failing page.now expect.now ≡ Some number) }
    ensures size { length page.now ≡ 4096 }
{
    if !word_is(page, 0, 1) {
        return Err(11);
    }
    if !word_is(page, 16, expect.level as u64) {
        return Err(12);
    }
    if !heap_fits(page) {
        return Err(13);
    }
    let count = page_word(page, 8) as usize;
    if !records_fit(page, count) {
        return Err(14);
    }
    if !is_within(page, count) {
        return Err(15);
    }
    if !keys_ascend(page, count, expect.low, expect.high) {
        return Err(16);
    }
    if !values_printable(page, count) {
        return Err(17);
    }
    if !is_full(page, count, expect.root) {
        return Err(21);
    }
    Ok(())
}

/// Whether an inner page has as many children as it may.
fn number_fits(page: &PageBuf) -> bool
    ensures { result ≡ (nat_le 2 (entry_count page.now) && nat_le (entry_count page.now) 240) }
{
    let count = page_word(page, 8);
    2 <= count && count <= 240
}

/// Whether the first child's key is the low bound.
fn begins_low(page: &PageBuf, count: usize, low: u64) -> bool
    requires inner { IsInner page.now }
    requires count { count ≡ entry_count page.now }
    ensures { result ≡ begins_at low (children_of page.now) }
{
    count == 0 || child_key(page, 0) == low
}

/// Whether the first keys ascend within the bounds.
fn first_keys_ascend(page: &PageBuf, count: usize, low: u64, high: u64) -> bool
    requires inner { IsInner page.now }
    requires count { count ≡ entry_count page.now }
    ensures { result ≡ ascends low high (first_keys (children_of page.now)) }
{
    let mut least = low as u128;
    for i in 0..count {
        let key = child_key(page, i);
        if !is_between(least, key, high) {
            return false;
        }
        least = key as u128 + 1;
    }
    true
}

/// Whether a child is a page of the store.
fn is_child(page: &PageBuf, at: usize, pages: u64) -> bool
    requires inner { IsInner page.now }
    requires at { at < entry_count page.now }
    ensures { (d : Child) → result ≡ is_page_below pages (get_or (children_of page.now) at d) }
{
    let number = child(page, at);
    0 < number && number < pages
}

/// Whether each child is a page of the store.
fn children_below(page: &PageBuf, count: usize, pages: u64) -> bool
    requires inner { IsInner page.now }
    requires count { count ≡ entry_count page.now }
    ensures { result ≡ list_all (is_page_below pages) (children_of page.now) }
{
    for i in 0..count {
        if !is_child(page, i, pages) {
            return false;
        }
    }
    true
}

/// Whether the children begin at the low bound and ascend.
fn order_fits(page: &PageBuf, count: usize, low: u64, high: u64) -> bool
    requires inner { IsInner page.now }
    requires count { count ≡ entry_count page.now }
    ensures { result
        ≡ (begins_at low (children_of page.now) && ascends low high
        (first_keys (children_of page.now))) }
{
    begins_low(page, count, low) && first_keys_ascend(page, count, low, high)
}

/// Whether an inner page has as many children as it has to.
fn is_broad(page: &PageBuf, root: bool) -> bool
    ensures { result ≡ (root || nat_le 80 (entry_count page.now)) }
{
    root || 80 <= page_word(page, 8)
}

/// The number of the first check that an inner page fails.
fn check_inner(page: &PageBuf, expect: &Expect) -> Result<(), u8>
    requires { 1 ≤ expect.now.level }
    ensures ok { OnOk result (first_failing page.now expect.now ≡ None) }
    ensures err { IfErr result (λ number. first_failing page.now expect.now ≡ Some number) }
    ensures size { length page.now ≡ 4096 }
{
    if !word_is(page, 0, 2) {
        return Err(11);
    }
    if !word_is(page, 16, expect.level as u64) {
        return Err(12);
    }
    if !number_fits(page) {
        return Err(18);
    }
    let count = page_word(page, 8) as usize;
    if !order_fits(page, count, expect.low, expect.high) {
        return Err(19);
    }
    if !children_below(page, count, expect.pages) {
        return Err(20);
    }
    if !is_broad(page, expect.root) {
        return Err(22);
    }
    Ok(())
}

/// Makes the checks of a page of a tree. The error is the number of the first that fails: 11 to 17 and 21 of a leaf, 11, 12,
/// 18 to 20 and 22 of an inner page.
pub fn well_formed(page: &PageBuf, expect: &Expect) -> Result<(), u8>
    ensures ok { OnOk result (first_failing page.now expect.now ≡ None) }
    ensures err { IfErr result (λ number. first_failing page.now expect.now ≡ Some number) }
    ensures size { length page.now ≡ 4096 }
{
    if expect.level == 0 {
        return check_leaf(page, expect);
    }
    check_inner(page, expect)
}

/// The bytes that the slots and records of a leaf take, 12 and the value's length for each row.
pub fn leaf_used(page: &PageBuf) -> usize
    requires { IsSound page.now }
    ensures slots { result ≡ bytes_used (slots page.now) }
    ensures rows { result ≡ row_bytes (rows_of page.now) }
{
    let count = page_word(page, 8) as usize;
    slots_used(page, count)
}
