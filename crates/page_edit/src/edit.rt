//! The bytes of a leaf: a row put in, taken out or given another value.
ghost use Rattle.std.specs.Prelude.{get_or, slice_set, ◌≡◌, ◌+◌, ◌-◌, ◌*◌, ◌<◌, ◌≤◌, ℕ, List, length};
ghost use Rattle.std.specs.List.{insert, remove};
ghost use Rattle.rows.specs.Rows.{Row};
ghost use Rattle.ssd_model.specs.Page.{Same, Moved};
ghost use Rattle.line_pages.specs.Bytes.{u16_at, u64_at};
ghost use Rattle.page_format.specs.Node.{entry_count, heap_start, row_in, Slot, slots, leaf_rows as rows_of};
ghost use Rattle.page_format.specs.Sound.{IsSound, slot_of};
ghost use Rattle.page_edit.specs.Laid.{Lays, Drops};

use line_pages::{page_word, set_page_half, set_page_word};
use page_format::place_of;
use ssd_model::PageBuf;

/// Writes a record: its key, and behind it its value.
fn put_record(page: &mut PageBuf, place: usize, key: u64, value: &[u8])
    requires { place + 8 + length value.now ≤ 4096 }
    ensures row { row_in page.new (record { place = place; size = 8 + length value.now })
        ≡ (key, value.now) }
    ensures before { Same 0 place page.old page.new }
    ensures after { Same (place + 8 + length value.now) 4096 page.old page.new }
    ensures size { length page.new ≡ 4096 }
    ensures size_old { length page.old ≡ 4096 }
{
    set_page_word(page, place, key);
    page.set_part(place + 8, value);
}

/// Puts a slot at an index and those from there on behind it.
fn put_slot(page: &mut PageBuf, at: usize, count: usize, place: u16, size: u16)
    requires at { at ≤ count }
    requires room { 68 + 4 * count ≤ 4096 }
    ensures slot { slot_of page.new at ≡ record { place = place; size = size } }
    ensures before { Same 0 (64 + 4 * at) page.old page.new }
    ensures moved { Moved (64 + 4 * at) (64 + 4 * count) (68 + 4 * at) page.old page.new }
    ensures after { Same (68 + 4 * count) 4096 page.old page.new }
    ensures size { length page.new ≡ 4096 }
    ensures size_old { length page.old ≡ 4096 }
{
    page.shift(64 + 4 * at, 64 + 4 * count, 68 + 4 * at);
    set_page_half(page, 64 + 4 * at, place);
    set_page_half(page, 64 + 4 * at + 2, size);
}

/// Writes how many entries a page has, and where its heap begins.
fn set_header(page: &mut PageBuf, count: u64, heap: u64)
    ensures count { u64_at page.new 8 ≡ count }
    ensures heap { u64_at page.new 24 ≡ heap }
    ensures kind { Same 0 8 page.old page.new }
    ensures level { Same 16 24 page.old page.new }
    ensures after { Same 32 4096 page.old page.new }
    ensures size { length page.new ≡ 4096 }
    ensures size_old { length page.old ≡ 4096 }
{
    set_page_word(page, 8, count);
    set_page_word(page, 24, heap);
}

/// Puts a slot at an index among so many, and those from there on behind it, with its record just below the heap's start, and
/// makes the number of rows this one.
pub fn lay_row(
    page: &mut PageBuf,
    at: usize,
    count: usize,
    total: u64,
    heap: usize,
    key: u64,
    value: &[u8],
)
    requires at { at ≤ count }
    requires few { length value.now ≤ 480 }
    requires heap { heap ≤ 4096 }
    requires room { 68 + 4 * count + (8 + length value.now) ≤ heap }
    ensures lays { Lays at count total (heap - (8 + length value.now)) (8 + length value.now)
        (key, value.now) page.old page.new }
    ensures size { length page.new ≡ 4096 }
    ensures size_old { length page.old ≡ 4096 }
{
    let size = 8 + value.len();
    let place = heap - size;
    put_record(page, place, key, value);
    put_slot(page, at, count, place as u16, size as u16);
    set_header(page, total, place as u64);
}

/// Puts a row at an index. Its record stands just below the heap's start.
pub fn insert_here(page: &mut PageBuf, at: usize, key: u64, value: &[u8])
    requires sound { IsSound page.old }
    requires at { at ≤ entry_count page.old }
    requires few { length value.now ≤ 480 }
    requires room { 64 + 4 * (entry_count page.old + 1) + (8 + length value.now)
        ≤ heap_start page.old }
    ensures rows { rows_of page.new ≡ insert (rows_of page.old) at (key, value.now) }
    ensures sound { IsSound page.new }
    ensures heap { heap_start page.new + (8 + length value.now) ≡ heap_start page.old }
    ensures count { entry_count page.new ≡ entry_count page.old + 1 }
    ensures rest { Same (64 + 4 * entry_count page.new) (heap_start page.new) page.old page.new }
    ensures above { Same (heap_start page.old) 4096 page.old page.new }
    ensures slots { slots page.new
        ≡ insert (slots page.old) at
        (record { place = heap_start page.new; size = 8 + length value.now }) }
{
    let count = page_word(page, 8) as usize;
    let heap = page_word(page, 24) as usize;
    lay_row(page, at, count, count as u64 + 1, heap, key, value);
}

/// Takes the slot at an index out of so many, moves those behind it down, and makes the number of rows one less.
pub fn drop_slot(page: &mut PageBuf, at: usize, count: usize)
    requires at { at < count }
    requires room { 64 + 4 * count ≤ 4096 }
    ensures drops { Drops at count page.old page.new }
    ensures size { length page.new ≡ 4096 }
    ensures size_old { length page.old ≡ 4096 }
{
    page.shift(68 + 4 * at, 64 + 4 * count, 64 + 4 * at);
    set_page_word(page, 8, count as u64 - 1);
}

/// Takes the row at an index out of a leaf. Its record stays where it is.
pub fn remove_here(page: &mut PageBuf, at: usize)
    requires sound { IsSound page.old }
    requires at { at < entry_count page.old }
    ensures rows { rows_of page.new ≡ remove (rows_of page.old) at }
    ensures sound { IsSound page.new }
    ensures rest { Same (64 + 4 * entry_count page.old) 4096 page.old page.new }
    ensures heap { heap_start page.new ≡ heap_start page.old }
    ensures slots { slots page.new ≡ remove (slots page.old) at }
{
    let count = page_word(page, 8) as usize;
    drop_slot(page, at, count);
}

/// Puts a value in place of another of its length.
pub fn set_value(page: &mut PageBuf, at: usize, value: &[u8])
    requires sound { IsSound page.old }
    requires at { at < entry_count page.old }
    requires length { 8 + length value.now ≡ (slot_of page.old at).size }
    ensures rows { (d : Row)
        → rows_of page.new
        ≡ slice_set (rows_of page.old) at ((get_or (rows_of page.old) at d).0, value.now) }
    ensures sound { IsSound page.new }
    ensures before { Same 0 ((slot_of page.old at).place + 8) page.old page.new }
    ensures after { Same
        ((slot_of page.old at).place + (slot_of page.old at).size) 4096 page.old page.new }
{
    let place = place_of(page, at);
    page.set_part(place + 8, value);
}
