//! The bytes of a page as lines of words, and numbers at its places.
ghost use Rattle.std.specs.Prelude.{◌≡◌, ◌+◌, ◌*◌, ◌<◌, ◌≤◌, length, slice_range};
ghost use Rattle.ssd_model.specs.Page.{Same};
ghost use Rattle.line_pages.specs.Lines.{IsLine};
ghost use Rattle.line_pages.specs.Bytes.{u16_at, u64_at, bytes_of_half, overwritten, line_at, with_line_bytes};
ghost use Rattle.nvm_model.specs.LineBytes.{bytes_of_word, line_bytes};

use crate::number::{get_half, get_word, put_half, put_word};
use nvm_model::Line;
use ssd_model::PageBuf;

/// The number of the two bytes at a place of a page.
pub fn page_half(page: &PageBuf, at: usize) -> u16
    requires { at + 2 ≤ 4096 }
    ensures value { result ≡ u16_at page.now at }
    ensures bytes { bytes_of_half result ≡ slice_range page.now at (at + 2) }
    ensures size { length page.now ≡ 4096 }
{
    get_half(page.bytes(), at)
}

/// The number of the eight bytes at a place of a page.
pub fn page_word(page: &PageBuf, at: usize) -> u64
    requires { at + 8 ≤ 4096 }
    ensures value { result ≡ u64_at page.now at }
    ensures bytes { bytes_of_word result ≡ slice_range page.now at (at + 8) }
    ensures size { length page.now ≡ 4096 }
{
    get_word(page.bytes(), at)
}

/// Puts a number of two bytes at a place of a page.
pub fn set_page_half(page: &mut PageBuf, at: usize, value: u16)
    requires { at + 2 ≤ 4096 }
    ensures value { u16_at page.new at ≡ value }
    ensures before { Same 0 at page.old page.new }
    ensures after { Same (at + 2) 4096 page.old page.new }
    ensures size { length page.new ≡ 4096 }
    ensures size_old { length page.old ≡ 4096 }
{
    let bytes = half_bytes(value);
    page.set_part(at, &bytes);
}

/// Puts a number of eight bytes at a place of a page.
pub fn set_page_word(page: &mut PageBuf, at: usize, value: u64)
    requires { at + 8 ≤ 4096 }
    ensures value { u64_at page.new at ≡ value }
    ensures before { Same 0 at page.old page.new }
    ensures after { Same (at + 8) 4096 page.old page.new }
    ensures size { length page.new ≡ 4096 }
    ensures size_old { length page.old ≡ 4096 }
{
    let bytes = word_bytes(value);
    page.set_part(at, &bytes);
}

/// The words of the line at a place of a page.
pub fn page_line(page: &PageBuf, line: usize) -> Line
    requires { line < 64 }
    ensures value { result ≡ line_at page.now line }
    ensures bytes { line_bytes result ≡ slice_range page.now (64 * line) (64 * line + 64) }
    ensures is_line { IsLine result }
    ensures size { length page.now ≡ 4096 }
{
    let at = 64 * line;
    Line {
        words: [
            page_word(page, at),
            page_word(page, at + 8),
            page_word(page, at + 16),
            page_word(page, at + 24),
            page_word(page, at + 32),
            page_word(page, at + 40),
            page_word(page, at + 48),
            page_word(page, at + 56),
        ],
    }
}

/// Puts the words of a line at its place of a page.
pub fn set_page_line(page: &mut PageBuf, line: usize, value: &Line)
    requires { line < 64 }
    ensures bytes { page.new ≡ with_line_bytes page.old line value.now }
    ensures size { length page.new ≡ 4096 }
    ensures size_old { length page.old ≡ 4096 }
{
    let bytes = bytes_of_line(value);
    page.set_part(64 * line, &bytes);
}

fn half_bytes(value: u16) -> [u8; 2]
    ensures { result ≡ bytes_of_half value }
{
    let mut bytes = [0; 2];
    put_half(&mut bytes, 0, value);
    bytes
}

fn word_bytes(value: u64) -> [u8; 8]
    ensures { result ≡ bytes_of_word value }
{
    let mut bytes = [0; 8];
    put_word(&mut bytes, 0, value);
    bytes
}

fn bytes_of_line(value: &Line) -> [u8; 64]
    ensures { result ≡ line_bytes value.now }
{
    let mut bytes = [0; 64];
    for w in 0..8 {
        put_word(&mut bytes, 8 * w, value.words[w]);
    }
    bytes
}
