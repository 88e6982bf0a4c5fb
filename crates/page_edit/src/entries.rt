//! The bytes of an inner page: children put in, taken out, added or left, 16 bytes to each.
ghost use Rattle.std.specs.Prelude.{◌≡◌, ◌+◌, ◌*◌, ◌<◌, ◌≤◌, [], ◌++◌, slice_range, take};
ghost use Rattle.std.specs.List.{insert, remove};
ghost use Rattle.ssd_model.specs.Page.{Same};
ghost use Rattle.page_format.specs.Node.{entry_count, page_level, children as children_of};
ghost use Rattle.page_format.specs.Inner.{IsInner};
ghost use Rattle.page_edit.specs.Join.{unused_word};

use line_pages::{page_word, set_page_word};
use ssd_model::PageBuf;

/// Makes an inner page of no children.
pub fn clear_inner(page: &mut PageBuf, level: u64)
    ensures children { children_of page.new ≡ [] }
    ensures count { entry_count page.new ≡ 0 }
    ensures inner { IsInner page.new }
    ensures level { page_level page.new ≡ level }
    ensures unused { unused_word page.new ≡ 0 }
    ensures rest { Same 32 4096 page.old page.new }
{
    set_page_word(page, 0, 2);
    set_page_word(page, 8, 0);
    set_page_word(page, 16, level);
    set_page_word(page, 24, 0);
}

/// Puts a child at an index.
pub fn insert_child(page: &mut PageBuf, at: usize, key: u64, child: u64)
    requires inner { IsInner page.old }
    requires at { at ≤ entry_count page.old }
    requires room { entry_count page.old < 252 }
    ensures children { children_of page.new ≡ insert (children_of page.old) at (key, child) }
    ensures count { entry_count page.new ≡ entry_count page.old + 1 }
    ensures inner { IsInner page.new }
    ensures level { page_level page.new ≡ page_level page.old }
    ensures unused { unused_word page.new ≡ unused_word page.old }
    ensures rest { Same (80 + 16 * entry_count page.old) 4096 page.old page.new }
{
    let count = page_word(page, 8) as usize;
    page.shift(64 + 16 * at, 64 + 16 * count, 80 + 16 * at);
    set_page_word(page, 64 + 16 * at, key);
    set_page_word(page, 72 + 16 * at, child);
    set_page_word(page, 8, count as u64 + 1);
}

/// Takes the child at an index out of a page.
pub fn remove_child(page: &mut PageBuf, at: usize)
    requires inner { IsInner page.old }
    requires at { at < entry_count page.old }
    ensures children { children_of page.new ≡ remove (children_of page.old) at }
    ensures count { entry_count page.new + 1 ≡ entry_count page.old }
    ensures inner { IsInner page.new }
    ensures level { page_level page.new ≡ page_level page.old }
    ensures unused { unused_word page.new ≡ unused_word page.old }
    ensures rest { Same (64 + 16 * entry_count page.old) 4096 page.old page.new }
{
    let count = page_word(page, 8) as usize;
    page.shift(80 + 16 * at, 64 + 16 * count, 64 + 16 * at);
    set_page_word(page, 8, count as u64 - 1);
}

/// Leaves the first children alone.
pub fn keep_children(page: &mut PageBuf, count: usize)
    requires inner { IsInner page.old }
    requires few { count ≤ entry_count page.old }
    ensures children { children_of page.new ≡ take count (children_of page.old) }
    ensures count { entry_count page.new ≡ count }
    ensures inner { IsInner page.new }
    ensures level { page_level page.new ≡ page_level page.old }
    ensures unused { unused_word page.new ≡ unused_word page.old }
    ensures rest { Same 16 4096 page.old page.new }
{
    set_page_word(page, 8, count as u64);
}

/// Adds some children of another page behind those of a page.
pub fn push_children(page: &mut PageBuf, from: &PageBuf, start: usize, end: usize)
    requires inner { IsInner page.old }
    requires from { IsInner from.now }
    requires order { start ≤ end }
    requires within { end ≤ entry_count from.now }
    requires room { entry_count page.old + end ≤ 252 + start }
    ensures children { children_of page.new
        ≡ children_of page.old ++ slice_range (children_of from.now) start end }
    ensures count { entry_count page.new + start ≡ entry_count page.old + end }
    ensures inner { IsInner page.new }
    ensures level { page_level page.new ≡ page_level page.old }
    ensures unused { unused_word page.new ≡ unused_word page.old }
    ensures rest { Same (64 + 16 * entry_count page.new) 4096 page.old page.new }
{
    let count = page_word(page, 8) as usize;
    page.set_part(64 + 16 * count, from.part(64 + 16 * start, 64 + 16 * end));
    set_page_word(page, 8, (count + (end - start)) as u64);
}
