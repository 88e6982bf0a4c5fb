//! The rows of a leaf, read by its slots.
ghost use Rattle.std.specs.Prelude.{◌≡◌, ◌+◌, ◌*◌, ◌<◌, ◌≤◌, ℕ, List, length, get_or};
ghost use Rattle.rows.specs.Rows.{Row};
ghost use Rattle.page_format.specs.Node.{IsLeaf, entry_count, heap_start, leaf_rows as rows_of};
ghost use Rattle.page_format.specs.Sound.{IsSound, IsRows, InHeap, slot_of};

use line_pages::{page_half, page_word};
use ssd_model::PageBuf;

/// The number of rows of a leaf. It asks for no more of the page than that its slots and records stand where they may.
#[tactic(auto, using(crate::proofs::SlotLemmas::length_rows))]
pub fn leaf_rows(page: &PageBuf) -> usize
    requires { IsSound page.now }
    ensures rows { result ≡ length (rows_of page.now) }
    ensures count { result ≡ entry_count page.now }
{
    page_word(page, 8) as usize
}

/// The number of rows of a leaf that is well formed in itself.
pub fn open_leaf(page: &PageBuf) -> usize
    requires { IsLeaf page.now }
    ensures count { result ≡ length (rows_of page.now) }
    ensures sound { IsSound page.now }
    ensures entries { length (rows_of page.now) ≡ entry_count page.now }
    ensures rows { IsRows (rows_of page.now) }
{
    page_word(page, 8) as usize
}

/// Where the record of a row stands: the byte in the page, from which its key and then its value come.
pub fn place_of(page: &PageBuf, at: usize) -> usize
    requires sound { IsSound page.now }
    requires at { at < entry_count page.now }
    ensures place { result ≡ (slot_of page.now at).place }
    ensures inside { InHeap (heap_start page.now) (slot_of page.now at) }
    ensures size { length page.now ≡ 4096 }
{
    page_half(page, 64 + 4 * at) as usize
}

/// How long the record of a row is.
fn size_of(page: &PageBuf, at: usize) -> usize
    requires sound { IsSound page.now }
    requires at { at < entry_count page.now }
    ensures { result ≡ (slot_of page.now at).size }
{
    page_half(page, 64 + 4 * at + 2) as usize
}

/// The key of the row at a place, counted from 0.
#[tactic(auto, using(crate::proofs::SlotLemmas::length_rows))]
pub fn leaf_key(page: &PageBuf, at: usize) -> u64
    requires sound { IsSound page.now }
    requires at { at < length (rows_of page.now) }
    ensures { (d : Row) → result ≡ (get_or (rows_of page.now) at d).0 }
{
    let place = place_of(page, at);
    page_word(page, place)
}

/// The value of the row at a place, at most 480 bytes.
#[tactic(auto, using(crate::proofs::SlotLemmas::length_rows))]
pub fn leaf_value(page: &PageBuf, at: usize) -> &[u8]
    requires sound { IsSound page.now }
    requires at { at < length (rows_of page.now) }
    ensures value { (d : Row) → result.now ≡ (get_or (rows_of page.now) at d).1 }
    ensures few { length result.now ≤ 480 }
{
    let place = place_of(page, at);
    let size = size_of(page, at);
    page.part(place + 8, place + size)
}
