//! What a line of damage tells, without its mark and its line feed.
ghost use Rattle.std.specs.Prelude.{◌≡◌, ◌+◌, ◌<◌, ◌≤◌, ◌++◌, [], length, slice_index_or};
ghost use Rattle.arrayvec.specs.ArrayVec.{array_vec_len};
ghost use Rattle.texts.specs.Lines.{sentence};
ghost use Rattle.damage.specs.DamageText.{line_digits, heading, dump, contents};

use crate::evidence::Evidence;
use crate::writing::{put_digits, put_line, put_named, put_word, put_words};
use arrayvec::ArrayVec;
use ssd_model::PageBuf;

/// Puts what one line tells behind the others: the check and where it failed, or a part of what it was made on.
pub(crate) fn put_content(
    out: &mut ArrayVec<u8, 160>,
    evidence: &Evidence,
    page: &PageBuf,
    at: usize,
)
    requires room { array_vec_len out.old + 135 ≤ 160 }
    requires line { at < length (contents evidence.now page.now) }
    ensures items { out.new.items
        ≡ out.old.items ++ slice_index_or (contents evidence.now page.now) at [] }
    ensures len { array_vec_len out.new ≤ array_vec_len out.old + 135 }
{
    if at == 0 {
        put_heading(out, evidence);
    } else {
        put_dump(out, evidence, page, at - 1);
    }
}

/// Puts the check and where it failed.
fn put_heading(out: &mut ArrayVec<u8, 160>, evidence: &Evidence)
    requires { array_vec_len out.old + 130 ≤ 160 }
    ensures items { out.new.items ≡ out.old.items ++ sentence (heading evidence.now) }
    ensures len { array_vec_len out.new ≤ array_vec_len out.old + 130 }
{
    match evidence {
        Evidence::Super { check, .. } => put_named(out, b"super check ", *check as u64),
        Evidence::Frames {
            first,
            second,
            check,
            ..
        } => {
            put_named(out, b"frames ", *first as u64);
            put_named(out, b" ", *second as u64);
            put_named(out, b" check ", *check as u64);
        }
        Evidence::Log { offset, check, .. } => {
            put_named(out, b"log ", *offset);
            put_named(out, b" check ", *check as u64);
        }
        Evidence::Page {
            page,
            level,
            low,
            high,
            check,
        } => {
            put_named(out, b"page ", *page);
            put_named(out, b" level ", *level as u64);
            put_named(out, b" low ", *low);
            put_named(out, b" high ", *high);
            put_named(out, b" check ", *check as u64);
        }
        Evidence::Walk {
            page,
            kept,
            found,
            check,
        } => {
            put_named(out, b"walk page ", *page);
            put_named(out, b" kept ", *kept);
            put_named(out, b" found ", *found);
            put_named(out, b" check ", *check as u64);
        }
    }
}

/// Puts a part of what the check was made on.
fn put_dump(out: &mut ArrayVec<u8, 160>, evidence: &Evidence, page: &PageBuf, at: usize)
    requires room { array_vec_len out.old + 135 ≤ 160 }
    requires line { at < length (dump evidence.now page.now) }
    ensures items { out.new.items
        ≡ out.old.items ++ slice_index_or (dump evidence.now page.now) at [] }
    ensures len { array_vec_len out.new ≤ array_vec_len out.old + 135 }
{
    match evidence {
        Evidence::Super { words, .. } => put_words(out, words),
        Evidence::Frames { word, .. } => put_word(out, *word),
        Evidence::Log { line, .. } => put_line(out, line),
        Evidence::Page { .. } => put_page_line(out, page, at),
        Evidence::Walk { .. } => {}
    }
}

/// Puts one line of a page.
fn put_page_line(out: &mut ArrayVec<u8, 160>, page: &PageBuf, at: usize)
    requires room { array_vec_len out.old + 128 ≤ 160 }
    requires line { at < 64 }
    ensures items { out.new.items ≡ out.old.items ++ line_digits page.now at }
    ensures len { array_vec_len out.new ≡ array_vec_len out.old + 128 }
{
    put_digits(out, page.part(64 * at, 64 * at + 64));
}
