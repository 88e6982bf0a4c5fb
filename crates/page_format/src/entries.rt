//! The bytes of an inner page: 16 bytes to each child, its first key and its page.
ghost use Rattle.std.specs.Prelude.{◌≡◌, ◌<◌, ◌≤◌, length, get_or};
ghost use Rattle.page_format.specs.Node.{Child, entry_count, children as children_of};
ghost use Rattle.page_format.specs.Inner.{IsInner};

use line_pages::page_word;
use ssd_model::PageBuf;

/// The number of children of an inner page, however many these are.
#[tactic(auto, using(crate::proofs::InnerLemmas::length_children))]
pub fn children(page: &PageBuf) -> usize
    requires { IsInner page.now }
    ensures children { result ≡ length (children_of page.now) }
    ensures count { result ≡ entry_count page.now }
    ensures few { result ≤ 252 }
{
    page_word(page, 8) as usize
}

/// The first key of the child at a place, counted from 0.
pub fn child_key(page: &PageBuf, at: usize) -> u64
    requires inner { IsInner page.now }
    requires at { at < entry_count page.now }
    ensures { (d : Child) → result ≡ (get_or (children_of page.now) at d).0 }
{
    page_word(page, 64 + 16 * at)
}

/// The page of the child at a place.
pub fn child(page: &PageBuf, at: usize) -> u64
    requires inner { IsInner page.now }
    requires at { at < entry_count page.now }
    ensures { (d : Child) → result ≡ (get_or (children_of page.now) at d).1 }
{
    page_word(page, 72 + 16 * at)
}
