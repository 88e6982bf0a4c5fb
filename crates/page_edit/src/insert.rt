//! Leaves as lists of rows.
ghost use Rattle.std.specs.Prelude.{◌⊎◌, get_or, slice_set, ◌≡◌, ◌+◌, ◌*◌, ◌<◌, ◌≤◌, ℕ, List, true, length};
ghost use Rattle.std.specs.List.{insert, remove, list_all};
ghost use Rattle.ssd_model.specs.Page.{Same};
ghost use Rattle.rows.specs.Rows.{Row, Ascends, keys, last_key};
ghost use Rattle.page_format.specs.Node.{IsLeaf, entry_count, heap_start, slots, leaf_rows as rows_of};
ghost use Rattle.rows.specs.Value.{is_printable};
ghost use Rattle.page_edit.specs.Packed.{IsPacked, IsPackedInOrder, AddsBelow, PutsBelow, PacksFirst, heap_for};
ghost use Rattle.page_format.specs.Sound.{slot_of, IsSound, row_bytes};

use crate::build::pack;
use crate::edit::{insert_here, remove_here, set_value};
use line_pages::page_word;
use page_format::open_leaf;
use ssd_model::PageBuf;

/// Packs a leaf where a further record would not fit between its slots and its heap.
#[tactic(auto, using(page_format::proofs::SlotLemmas::length_rows))]
fn make_room(page: &mut PageBuf, more: usize)
    requires sound { IsSound page.old }
    requires few { more ≤ 480 }
    requires room { row_bytes (rows_of page.old) + (12 + more) ≤ 4032 }
    ensures rows { rows_of page.new ≡ rows_of page.old }
    ensures sound { IsSound page.new }
    ensures room { 64 + 4 * (entry_count page.new + 1) + (8 + more) ≤ heap_start page.new }
    ensures count { length (rows_of page.new) ≡ entry_count page.new }
    ensures rest { Same (64 + 4 * entry_count page.new) (heap_start page.new) page.old page.new }
    ensures stays { heap_for (8 + more) page.old ≤ heap_start page.old → page.new ≡ page.old }
    ensures packed { heap_start page.old < heap_for (8 + more) page.old → IsPackedInOrder page.new }
{
    let count = page_word(page, 8) as usize;
    let heap = page_word(page, 24) as usize;
    if 64 + 4 * (count + 1) + (8 + more) > heap {
        pack(page);
    }
}

/// Puts a row at a place of a leaf, where the keys stay in order and it fits in 4,032 bytes of rows, of which a row takes 12
/// and its value. Its record stands just below the heap's start; where it does not fit between the slots and the heap, the
/// records are packed first.
pub fn leaf_insert(page: &mut PageBuf, at: usize, key: u64, value: &[u8])
    requires leaf { IsLeaf page.old }
    requires at { at ≤ length (rows_of page.old) }
    requires order { Ascends 0 last_key (keys (insert (rows_of page.old) at (key, value.now))) }
    requires room { row_bytes (rows_of page.old) + (12 + length value.now) ≤ 4032 }
    requires few { length value.now ≤ 480 }
    requires printable { list_all is_printable value.now ≡ true }
    ensures rows { rows_of page.new ≡ insert (rows_of page.old) at (key, value.now) }
    ensures leaf { IsLeaf page.new }
    ensures rest { Same (64 + 4 * entry_count page.new) (heap_start page.new) page.old page.new }
    ensures placed { AddsBelow (8 + length value.now) page.old page.new ⊎ IsPacked page.new }
    ensures below { heap_for (8 + length value.now) page.old ≤ heap_start page.old
        → PutsBelow at (8 + length value.now) page.old page.new }
    ensures packed { heap_start page.old < heap_for (8 + length value.now) page.old
        → PacksFirst at (8 + length value.now) page.old page.new }
{
    open_leaf(page);
    make_room(page, value.len());
    insert_here(page, at, key, value);
}

/// Takes the row at a place out of a leaf. Its slot goes; its record stays unused where it is, and the heap starts where it did.
pub fn leaf_remove(page: &mut PageBuf, at: usize)
    requires leaf { IsLeaf page.old }
    requires at { at < length (rows_of page.old) }
    ensures rows { rows_of page.new ≡ remove (rows_of page.old) at }
    ensures leaf { IsLeaf page.new }
    ensures rest { Same (64 + 4 * entry_count page.old) 4096 page.old page.new }
    ensures heap { heap_start page.new ≡ heap_start page.old }
    ensures slots { slots page.new ≡ remove (slots page.old) at }
{
    open_leaf(page);
    remove_here(page, at);
}

/// Puts a value in place of another of its length. It changes the bytes of that value alone.
pub fn leaf_set(page: &mut PageBuf, at: usize, value: &[u8])
    requires leaf { IsLeaf page.old }
    requires at { at < length (rows_of page.old) }
    requires same { (d : Row) → length value.now ≡ length (get_or (rows_of page.old) at d).1 }
    requires printable { list_all is_printable value.now ≡ true }
    ensures rows { (d : Row)
        → rows_of page.new
        ≡ slice_set (rows_of page.old) at ((get_or (rows_of page.old) at d).0, value.now) }
    ensures leaf { IsLeaf page.new }
    ensures before { Same 0 ((slot_of page.old at).place + 8) page.old page.new }
    ensures after { Same
        ((slot_of page.old at).place + (slot_of page.old at).size) 4096 page.old page.new }
{
    open_leaf(page);
    set_value(page, at, value);
}
