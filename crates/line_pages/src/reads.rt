//! Reads of the bytes of one page through its lines, each as one access at most.
ghost use Rattle.std.specs.Prelude.{◌≡◌, ◌+◌, ◌%◌, ◌<◌, ◌≤◌, false, length, IsTrue, OnOk, IfOk};
ghost use Rattle.line_pages.specs.PagesCall.{PagesCall};
ghost use Rattle.line_pages.specs.Bytes.{u16_at, u64_at, bytes_of, word_pair};
ghost use Rattle.nvm_model.specs.LineBytes.{bytes_of_word};
ghost use Rattle.line_pages.specs.Touch.{begins};
ghost use Rattle.line_pages.specs.Cost.{lines_from, lines_of, AddsLines};
ghost use Rattle.line_pages.specs.Standing.{HasCause, Never, ReadsPage};

use crate::number::{get_half, get_word, put_word};
use crate::page::set_page_line;
use crate::pages::Pages;
use crate::stop::Stop;
use ssd_model::PageBuf;

/// Reads a whole page. After a `Stop` the buffer holds any bytes.
pub fn copy_page<P: Pages>(pages: &mut P, page: u64, into: &mut PageBuf) -> Result<(), Stop>
    requires ready { P.is_ready pages.old }
    requires page { page < (P.standing pages.old).count }
    ensures call { PagesCall P.Pages pages.old pages.new result }
    ensures bytes { IsTrue (P.standing pages.old).told
        → OnOk result (into.new ≡ bytes_of (P.standing pages.old).current page) }
    ensures reads { OnOk result (ReadsPage page (P.standing pages.old) (P.standing pages.new)) }
    ensures lines { OnOk result
        (AddsLines (λ lines. lines ≡ lines_from 0 64) (P.standing pages.old)
        (P.standing pages.new)) }
    ensures again { begins (P.standing pages.old).access page false ≡ false
        → (P.standing pages.new).visits ≤ (P.standing pages.old).visits }
    ensures few { (P.standing pages.new).visits ≤ (P.standing pages.old).visits + 1 }
    ensures cause { HasCause Never (P.standing pages.old) (P.standing pages.new) result }
{
    let header = pages.read_line(page, 0)?;
    set_page_line(into, 0, &header);
    for line in 1..64 {
        let value = pages.read_line(page, line)?;
        set_page_line(into, line, &value);
    }
    Ok(())
}

/// Reads the number of the eight bytes at a place of a page, the lowest first, from one or two of its lines. It stops only where a
/// read does.
pub fn read_word<P: Pages>(pages: &mut P, page: u64, place: usize) -> Result<u64, Stop>
    requires ready { P.is_ready pages.old }
    requires page { page < (P.standing pages.old).count }
    requires place { place + 8 ≤ 4096 }
    ensures call { PagesCall P.Pages pages.old pages.new result }
    ensures value { IsTrue (P.standing pages.old).told
        → IfOk result
        (λ number. number ≡ u64_at (bytes_of (P.standing pages.old).current page) place) }
    ensures reads { OnOk result (ReadsPage page (P.standing pages.old) (P.standing pages.new)) }
    ensures lines { OnOk result
        (AddsLines (λ lines. lines ≡ lines_of place 8) (P.standing pages.old)
        (P.standing pages.new)) }
    ensures again { begins (P.standing pages.old).access page false ≡ false
        → (P.standing pages.new).visits ≤ (P.standing pages.old).visits }
    ensures few { (P.standing pages.new).visits ≤ (P.standing pages.old).visits + 1 }
    ensures cause { HasCause Never (P.standing pages.old) (P.standing pages.new) result }
{
    let line = place / 64;
    let word = place % 64 / 8;
    let at = place % 8;
    let here = pages.read_line(page, line)?;
    if at == 0 {
        return Ok(across(here.words[word], 0, 0));
    }
    if word < 7 {
        return Ok(across(here.words[word], here.words[word + 1], at));
    }
    let next = pages.read_line(page, line + 1)?;
    Ok(across(here.words[word], next.words[0], at))
}

/// Reads the number of the two bytes at a place of a page, the lower first, both in one word. It stops only where the read does.
pub fn read_half<P: Pages>(pages: &mut P, page: u64, place: usize) -> Result<u16, Stop>
    requires ready { P.is_ready pages.old }
    requires page { page < (P.standing pages.old).count }
    requires place { place < 4096 }
    requires in_word { place % 8 ≤ 6 }
    ensures call { PagesCall P.Pages pages.old pages.new result }
    ensures value { IsTrue (P.standing pages.old).told
        → IfOk result
        (λ number. number ≡ u16_at (bytes_of (P.standing pages.old).current page) place) }
    ensures reads { OnOk result (ReadsPage page (P.standing pages.old) (P.standing pages.new)) }
    ensures lines { OnOk result
        (AddsLines (λ lines. lines ≡ lines_of place 2) (P.standing pages.old)
        (P.standing pages.new)) }
    ensures again { begins (P.standing pages.old).access page false ≡ false
        → (P.standing pages.new).visits ≤ (P.standing pages.old).visits }
    ensures few { (P.standing pages.new).visits ≤ (P.standing pages.old).visits + 1 }
    ensures cause { HasCause Never (P.standing pages.old) (P.standing pages.new) result }
{
    let here = pages.read_line(page, place / 64)?;
    Ok(half_of(here.words[place % 64 / 8], place % 8))
}

/// The number of the eight bytes from place `at` on of two words in a row.
fn across(first: u64, second: u64, at: usize) -> u64
    requires { at ≤ 8 }
    ensures { result ≡ u64_at (word_pair first second) at }
{
    let mut both = [0; 16];
    put_word(&mut both, 0, first);
    put_word(&mut both, 8, second);
    get_word(&both, at)
}

/// The number of the two bytes from place `at` on of a word.
fn half_of(word: u64, at: usize) -> u16
    requires { at + 2 ≤ 8 }
    ensures { result ≡ u16_at (bytes_of_word word) at }
{
    let mut bytes = [0; 8];
    put_word(&mut bytes, 0, word);
    get_half(&bytes, at)
}
