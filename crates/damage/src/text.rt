//! The lines of damage, one by one.
ghost use Rattle.std.specs.Prelude.{◌≡◌, ◌+◌, ◌<◌, ◌≤◌, ◌++◌, ℕ, List, [], length, slice_index_or, take};
ghost use Rattle.std.specs.List.{concat};
ghost use Rattle.damage.specs.DamageText.{damage_text_lines};

use crate::content::put_content;
use crate::evidence::Evidence;
use crate::writing::put;
use arrayvec::ArrayVec;
use ssd_model::PageBuf;

/// How many lines the text of damage has: 65 for a page, 1 for a walk, and 2 for anything else.
pub fn damage_lines(evidence: &Evidence) -> usize
    ensures count { (page : List ℕ) → result ≡ length (damage_text_lines evidence.now page) }
    ensures most { result ≤ 65 }
{
    match evidence {
        Evidence::Page { .. } => 65,
        Evidence::Walk { .. } => 1,
        _ => 2,
    }
}

/// One line of the text of damage, counted from 0, with its line feed. The bytes are printed where the evidence is a
/// page, and play no part elsewhere.
pub fn damage_line(evidence: &Evidence, page: &PageBuf, at: usize) -> ArrayVec<u8, 160>
    requires { at < length (damage_text_lines evidence.now page.now) }
    ensures line { result.items ≡ slice_index_or (damage_text_lines evidence.now page.now) at [] }
    ensures joined { concat (take (at + 1) (damage_text_lines evidence.now page.now))
        ≡ concat (take at (damage_text_lines evidence.now page.now)) ++ result.items }
{
    let mut out = ArrayVec::new();
    put(&mut out, b"! ");
    put_content(&mut out, evidence, page, at);
    put(&mut out, b"\n");
    out
}
