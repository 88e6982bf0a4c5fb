//! Packed leaves: no rows at first, then rows one behind another, each record just below the one before.
ghost use Rattle.std.specs.Prelude.{◌≡◌, ◌+◌, ◌*◌, ◌<◌, ◌≤◌, ℕ, List, [], ◌∷◌, ◌++◌, length, slice_range};
ghost use Rattle.ssd_model.specs.Page.{Same};
ghost use Rattle.page_format.specs.Node.{entry_count, heap_start, leaf_rows as rows_of};
ghost use Rattle.page_format.specs.Sound.{IsSound, row_bytes};
ghost use Rattle.page_edit.specs.Packed.{IsPackedInOrder};

use crate::edit::insert_here;
use line_pages::set_page_word;
use page_format::{leaf_key, leaf_rows, leaf_value};
use ssd_model::PageBuf;

/// Makes a leaf of no rows.
pub fn clear_leaf(page: &mut PageBuf)
    ensures rows { rows_of page.new ≡ [] }
    ensures packed { IsPackedInOrder page.new }
    ensures rest { Same 32 4096 page.old page.new }
{
    set_page_word(page, 0, 1);
    set_page_word(page, 8, 0);
    set_page_word(page, 16, 0);
    set_page_word(page, 24, 4096);
}

/// Adds a row behind the others of a packed leaf.
pub fn push_row(page: &mut PageBuf, key: u64, value: &[u8])
    requires packed { IsPackedInOrder page.old }
    requires few { length value.now ≤ 480 }
    requires room { row_bytes (rows_of page.old) + (12 + length value.now) ≤ 4032 }
    ensures rows { rows_of page.new ≡ rows_of page.old ++ (key, value.now) ∷ [] }
    ensures packed { IsPackedInOrder page.new }
    ensures rest { Same (64 + 4 * entry_count page.new) (heap_start page.new) page.old page.new }
    ensures count { entry_count page.old ≤ entry_count page.new }
    ensures heap { heap_start page.new ≤ heap_start page.old }
{
    let count = leaf_rows(page);
    insert_here(page, count, key, value);
}

/// Adds some rows of another leaf behind those of a packed leaf.
pub fn push_rows(page: &mut PageBuf, from: &PageBuf, start: usize, end: usize)
    requires packed { IsPackedInOrder page.old }
    requires sound { IsSound from.now }
    requires order { start ≤ end }
    requires within { end ≤ length (rows_of from.now) }
    requires room { row_bytes (rows_of page.old ++ slice_range (rows_of from.now) start end)
        ≤ 4032 }
    ensures rows { rows_of page.new ≡ rows_of page.old ++ slice_range (rows_of from.now) start end }
    ensures packed { IsPackedInOrder page.new }
    ensures rest { Same (64 + 4 * entry_count page.new) (heap_start page.new) page.old page.new }
{
    for i in start..end {
        push_row(page, leaf_key(from, i), leaf_value(from, i));
    }
}

/// Packs the records of a leaf to the page's end, in the order of the slots: slot 0's record is the last one in the page.
pub fn pack(page: &mut PageBuf)
    requires sound { IsSound page.old }
    requires room { row_bytes (rows_of page.old) ≤ 4032 }
    ensures rows { rows_of page.new ≡ rows_of page.old }
    ensures packed { IsPackedInOrder page.new }
    ensures rest { Same (64 + 4 * entry_count page.new) (heap_start page.new) page.old page.new }
{
    let copy = page.copy();
    clear_leaf(page);
    push_rows(page, &copy, 0, leaf_rows(&copy));
}
