//! One row of a leaf, read by the lines of its slot and its record.
ghost use Rattle.std.specs.Prelude.{◌≡◌, ◌+◌, ◌-◌, ◌*◌, ◌<◌, ◌≤◌, length, slice_get, Some, None, true, false, IsTrue, OnOk, IfOk, IfErr};
ghost use Rattle.ssd_model.specs.Page.{Same};
ghost use Rattle.page_search.specs.Causes.{NodeCause, OnPage};
ghost use Rattle.line_pages.specs.PagesCall.{PagesCall};
ghost use Rattle.line_pages.specs.Bytes.{bytes_of};
ghost use Rattle.line_pages.specs.Cost.{lines_from, lines_of, AddsLines, Costs};
ghost use Rattle.line_pages.specs.Standing.{HasCause, Never, ReadsPage};
ghost use Rattle.line_pages.specs.Touch.{begins};
ghost use Rattle.rows.specs.Rows.{Row};
ghost use Rattle.page_format.specs.Node.{leaf_rows};
ghost use Rattle.page_format.specs.Sound.{slot_of};
ghost use Rattle.page_format.specs.Search.{is_root_span, FailsNode, Keeps, Unchanged};
ghost use Rattle.page_search.specs.Answers.{ShowsDamage};
ghost use Rattle.tree_search.specs.Record.{slot_in, row_found, held, held_value, row_lines};
ghost use Rattle.rows.specs.Value.{is_value as can_be_value};

use line_pages::{Pages, Stop, page_word, read_half, set_page_line};
use page_format::{Expect, Work};
use page_search::read_page;
use rows::{Value, all_printable};
use ssd_model::PageBuf;

/// Reads lines of a page whose access is open to their places in a buffer.
fn read_lines<P: Pages>(
    pages: &mut P,
    page: u64,
    first: usize,
    end: usize,
    into: &mut PageBuf,
) -> Result<(), Stop>
    requires ready { P.is_ready pages.old }
    requires page { page < (P.standing pages.old).count }
    requires open { (P.standing pages.old).access ≡ Some (page, false) }
    requires end { end ≤ 64 }
    ensures bytes { IsTrue (P.standing pages.old).told
        → OnOk result
        (Same (64 * first) (64 * end) (bytes_of (P.standing pages.old).current page) into.new) }
    ensures size { length into.new ≡ 4096 }
    ensures cause { HasCause Never (P.standing pages.old) (P.standing pages.new) result }
    ensures call { PagesCall P.Pages pages.old pages.new result }
    ensures reads { OnOk result (ReadsPage page (P.standing pages.old) (P.standing pages.new)) }
    ensures lines { first ≤ end
        → OnOk result (AddsLines (λ lines. lines ≡ lines_from first (end - first))
        (P.standing pages.old) (P.standing pages.new)) }
    ensures again { (P.standing pages.new).visits ≤ (P.standing pages.old).visits }
{
    into.byte(0);
    for line in first..end {
        let value = pages.read_line(page, line)?;
        set_page_line(into, line, &value);
    }
    Ok(())
}

/// Where a record stands in a page, and how long it is.
#[derive(Clone, Copy, Debug, PartialEq, Eq)]
pub struct Record {
    /// Its first byte.
    pub place: u16,
    /// How many bytes it has, the eight of its key and those of its value.
    pub size: u16,
}

/// The value of a record in a page; `None` where it is none that a leaf can have.
pub fn value_in(page: &PageBuf, record: &Record) -> Option<Value>
    ensures { result ≡ held_value page.now (Some record.now) }
{
    let from = record.place as usize;
    let end = from + record.size as usize;
    if record.size < 8 || end > 4096 {
        return None;
    }
    Value::from_bytes(page.part(from + 8, end))
}

/// The row of a record in a page; `None` where it is none that a leaf can have.
fn row_in(page: &PageBuf, record: &Record) -> Option<(u64, Value)>
    ensures { result ≡ held page.now (Some record.now) }
{
    let from = record.place as usize;
    let end = from + record.size as usize;
    if record.size < 8 || end > 4096 {
        return None;
    }
    let key = page_word(page, from);
    match Value::from_bytes(page.part(from + 8, end)) {
        Some(value) => Some((key, value)),
        None => None,
    }
}

/// Whether the bytes are a value.
fn is_value(bytes: &[u8]) -> bool
    ensures { result ≡ can_be_value bytes.now }
{
    bytes.len() <= 480 && all_printable(bytes)
}

/// The record in a page, if it is one that a leaf can have.
fn whole_record(page: &PageBuf, record: &Record) -> Option<Record>
    requires key { 8 ≤ record.now.size }
    requires end { record.now.place + record.now.size ≤ 4096 }
    ensures { held page.now result ≡ held page.now (Some record.now) }
{
    let from = record.place as usize;
    let end = from + record.size as usize;
    if is_value(page.part(from + 8, end)) {
        return Some(*record);
    }
    None
}

/// Reads the lines of a record, whose page's access is open, to their places in the buffer, and gives it, if it is one that a leaf
/// can have.
fn read_record<P: Pages>(
    pages: &mut P,
    page: u64,
    record: &Record,
    work: &mut Work,
) -> Result<Option<Record>, Stop>
    requires ready { P.is_ready pages.old }
    requires page { page < (P.standing pages.old).count }
    requires open { (P.standing pages.old).access ≡ Some (page, false) }
    ensures row { IsTrue (P.standing pages.old).told
        → IfOk result
        (λ found. held work.new.page found ≡ row_found
        (bytes_of (P.standing pages.old).current page) (slot_in record.now)) }
    ensures cause { HasCause Never (P.standing pages.old) (P.standing pages.new) result }
    ensures call { PagesCall P.Pages pages.old pages.new result }
    ensures reads { OnOk result (ReadsPage page (P.standing pages.old) (P.standing pages.new)) }
    ensures lines { 8 ≤ record.now.size → record.now.place + record.now.size ≤ 4096
        → OnOk result (AddsLines (λ lines. lines ≡ lines_of record.now.place record.now.size)
        (P.standing pages.old) (P.standing pages.new)) }
    ensures again { (P.standing pages.new).visits ≤ (P.standing pages.old).visits }
{
    let from = record.place as usize;
    let end = from + record.size as usize;
    if record.size < 8 || end > 4096 {
        return Ok(None);
    }
    read_lines(pages, page, from / 64, (end + 63) / 64, &mut work.page)?;
    Ok(whole_record(&work.page, record))
}

/// Reads the record at a place of a leaf, whose access is open, by the lines of its slot and its own. `None` is answered
/// where something looks odd, which is never in a well-formed leaf that has the row.
fn read_row<P: Pages>(
    pages: &mut P,
    page: u64,
    at: usize,
    work: &mut Work,
) -> Result<Option<Record>, Stop>
    requires ready { P.is_ready pages.old }
    requires page { page < (P.standing pages.old).count }
    requires open { (P.standing pages.old).access ≡ Some (page, false) }
    ensures row { IsTrue (P.standing pages.old).told → at < 1008
        → IfOk result
        (λ found. held work.new.page found ≡ row_found
        (bytes_of (P.standing pages.old).current page)
        (slot_of (bytes_of (P.standing pages.old).current page) at)) }
    ensures cause { HasCause Never (P.standing pages.old) (P.standing pages.new) result }
    ensures call { PagesCall P.Pages pages.old pages.new result }
    ensures reads { OnOk result (ReadsPage page (P.standing pages.old) (P.standing pages.new)) }
    ensures lines { IsTrue (P.standing pages.old).told → at < 1008
        → 8 ≤ (slot_of (bytes_of (P.standing pages.old).current page) at).size
        → (slot_of (bytes_of (P.standing pages.old).current page) at).place +
        (slot_of (bytes_of (P.standing pages.old).current page) at).size ≤ 4096
        → OnOk result
        (AddsLines (λ lines. lines ≡ row_lines (bytes_of (P.standing pages.old).current page) at)
        (P.standing pages.old) (P.standing pages.new)) }
    ensures again { (P.standing pages.new).visits ≤ (P.standing pages.old).visits }
{
    if at >= 1008 {
        return Ok(None);
    }
    let place = read_half(pages, page, 64 + 4 * at)?;
    let size = read_half(pages, page, 64 + 4 * at + 2)?;
    read_record(pages, page, &Record { place, size }, work)
}

/// The answer where something of a row looked odd: the whole page is read and checked, and it has no such row.
fn no_row<P: Pages>(
    pages: &mut P,
    page: u64,
    expect: &Expect,
    work: &mut Work,
) -> Result<Option<Record>, Stop>
    requires ready { P.is_ready pages.old }
    requires page { page < (P.standing pages.old).count }
    requires pages { expect.now.pages ≡ (P.standing pages.old).count }
    requires root { is_root_span expect.now.low expect.now.high ≡ true → expect.now.root ≡ true }
    ensures none { IfOk result (λ found. found ≡ None) }
    ensures damage { IsTrue (P.standing pages.old).told
        → IfErr result
        (ShowsDamage page expect.now (bytes_of (P.standing pages.old).current page)) }
    ensures cause { NodeCause P.Pages pages.old pages.new work.new.page result }
    ensures fails { IfErr result (Keeps (FailsNode (P.standing pages.old).count work.new.page)) }
    ensures unchanged { IfErr result (Unchanged (P.standing pages.old) (P.standing pages.new)) }
    ensures call { PagesCall P.Pages pages.old pages.new result }
    ensures reads { OnOk result (ReadsPage page (P.standing pages.old) (P.standing pages.new)) }
    ensures again { begins (P.standing pages.old).access page false ≡ false
        → (P.standing pages.new).visits ≤ (P.standing pages.old).visits }
{
    read_page(pages, page, expect, work)?;
    Ok(None)
}

/// The record of the row at a place of a leaf, whose access is open; its bytes stand at their places in the buffer then. `Damaged`
/// comes exactly where a check of the whole page fails.
pub fn record_at<P: Pages>(
    pages: &mut P,
    page: u64,
    expect: &Expect,
    at: usize,
    work: &mut Work,
) -> Result<Option<Record>, Stop>
    requires ready { P.is_ready pages.old }
    requires page { page < (P.standing pages.old).count }
    requires pages { expect.now.pages ≡ (P.standing pages.old).count }
    requires root { is_root_span expect.now.low expect.now.high ≡ true → expect.now.root ≡ true }
    requires level { expect.now.level ≡ 0 }
    requires open { (P.standing pages.old).access ≡ Some (page, false) }
    ensures row { OnPage P.Pages pages.old page expect.now ((r : Row)
        → slice_get (leaf_rows (bytes_of (P.standing pages.old).current page)) at ≡ Some r
        → IfOk result (λ found. held work.new.page found ≡ Some r)) }
    ensures damage { IsTrue (P.standing pages.old).told
        → IfErr result
        (ShowsDamage page expect.now (bytes_of (P.standing pages.old).current page)) }
    ensures cause { NodeCause P.Pages pages.old pages.new work.new.page result }
    ensures fails { IfErr result (Keeps (FailsNode (P.standing pages.old).count work.new.page)) }
    ensures unchanged { IfErr result (Unchanged (P.standing pages.old) (P.standing pages.new)) }
    ensures call { PagesCall P.Pages pages.old pages.new result }
    ensures reads { OnOk result (ReadsPage page (P.standing pages.old) (P.standing pages.new)) }
    ensures lines { OnPage P.Pages pages.old page expect.now ((r : Row)
        → slice_get (leaf_rows (bytes_of (P.standing pages.old).current page)) at ≡ Some r
        → OnOk result
        (AddsLines (λ lines. lines ≡ row_lines (bytes_of (P.standing pages.old).current page) at)
        (P.standing pages.old) (P.standing pages.new))) }
    ensures cost { OnPage P.Pages pages.old page expect.now ((r : Row)
        → slice_get (leaf_rows (bytes_of (P.standing pages.old).current page)) at ≡ Some r
        → OnOk result (Costs 11 (P.standing pages.old) (P.standing pages.new))) }
    ensures again { (P.standing pages.new).visits ≤ (P.standing pages.old).visits }
{
    match read_row(pages, page, at, work)? {
        Some(record) => Ok(Some(record)),
        None => no_row(pages, page, expect, work),
    }
}

/// The row at a place of a leaf, whose access is open. `Damaged` comes exactly where a check of the whole page fails.
pub fn row_at<P: Pages>(
    pages: &mut P,
    page: u64,
    expect: &Expect,
    at: usize,
    work: &mut Work,
) -> Result<Option<(u64, Value)>, Stop>
    requires ready { P.is_ready pages.old }
    requires page { page < (P.standing pages.old).count }
    requires pages { expect.now.pages ≡ (P.standing pages.old).count }
    requires root { is_root_span expect.now.low expect.now.high ≡ true → expect.now.root ≡ true }
    requires level { expect.now.level ≡ 0 }
    requires open { (P.standing pages.old).access ≡ Some (page, false) }
    ensures row { OnPage P.Pages pages.old page expect.now ((r : Row)
        → slice_get (leaf_rows (bytes_of (P.standing pages.old).current page)) at ≡ Some r
        → IfOk result (λ row. row ≡ Some r)) }
    ensures damage { IsTrue (P.standing pages.old).told
        → IfErr result
        (ShowsDamage page expect.now (bytes_of (P.standing pages.old).current page)) }
    ensures cause { NodeCause P.Pages pages.old pages.new work.new.page result }
    ensures fails { IfErr result (Keeps (FailsNode (P.standing pages.old).count work.new.page)) }
    ensures unchanged { IfErr result (Unchanged (P.standing pages.old) (P.standing pages.new)) }
    ensures call { PagesCall P.Pages pages.old pages.new result }
    ensures reads { OnOk result (ReadsPage page (P.standing pages.old) (P.standing pages.new)) }
    ensures lines { OnPage P.Pages pages.old page expect.now ((r : Row)
        → slice_get (leaf_rows (bytes_of (P.standing pages.old).current page)) at ≡ Some r
        → OnOk result
        (AddsLines (λ lines. lines ≡ row_lines (bytes_of (P.standing pages.old).current page) at)
        (P.standing pages.old) (P.standing pages.new))) }
    ensures cost { OnPage P.Pages pages.old page expect.now ((r : Row)
        → slice_get (leaf_rows (bytes_of (P.standing pages.old).current page)) at ≡ Some r
        → OnOk result (Costs 11 (P.standing pages.old) (P.standing pages.new))) }
    ensures again { (P.standing pages.new).visits ≤ (P.standing pages.old).visits }
{
    match record_at(pages, page, expect, at, work)? {
        Some(record) => Ok(row_in(&work.page, &record)),
        None => Ok(None),
    }
}
