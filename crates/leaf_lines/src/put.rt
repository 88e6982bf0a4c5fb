//! A value put into a leaf by the lines that it needs.
ghost use Rattle.std.specs.Prelude.{◌≡◌, ◌≢◌, ◌⊎◌, ◌+◌, ◌-◌, ◌*◌, ◌<◌, ◌≤◌, ℕ, length, true, false, Some, IsTrue, OnOk, IfOk};
ghost use Rattle.std.specs.List.{list_all};
ghost use Rattle.line_pages.specs.PagesCall.{PagesCall};
ghost use Rattle.line_pages.specs.Bytes.{bytes_of, u16_at};
ghost use Rattle.line_pages.specs.Cost.{Costs};
ghost use Rattle.line_pages.specs.Standing.{HasCause, Never, ReadsPage};
ghost use Rattle.page_format.specs.declared.spot.Spot.TheVariants as spots;
ghost use Rattle.rows.specs.Rows.{last_key};
ghost use Rattle.page_format.specs.Node.{IsWellFormed, entry_count};
ghost use Rattle.rows.specs.Value.{is_printable};
ghost use Rattle.page_format.specs.Search.{IsSpot};
ghost use Rattle.leaf_lines.specs.Put.{IsPutByLines, IsLeft, IsFound, fits_beside, slots_behind, put_cost};

use crate::lines::{read_header, read_spread, write_spread};
use crate::spread::spread_of;
use line_pages::{Pages, Stop, page_word, read_half};
use page_edit::lay_row;
use page_format::{Expect, Work};

/// Whether a row more has its place among so many, and room between the slots and the heap, by the numbers of a header.
fn has_room(at: usize, count: u64, heap: u64, more: usize) -> bool
    requires few { more ≤ 480 }
    ensures at { result ≡ true → at ≤ count }
    ensures heap { result ≡ true → heap ≤ 4096 }
    ensures room { result ≡ true → 68 + 4 * count + (8 + more) ≤ heap }
    ensures none { result ≡ false → at ≤ count → heap ≤ 4096 → heap < 68 + 4 * count + (8 + more) }
{
    if heap > 4096 || count > 1008 || at > count as usize {
        return false;
    }
    68 + 4 * count as usize + (8 + more) <= heap as usize
}

/// The greatest key that a page may have.
pub fn top_of(expect: &Expect) -> u64
    ensures is { result ≡ expect.now.high }
    ensures top { expect.now.high ≤ last_key }
{
    expect.high
}

/// Puts a row at its place in a leaf, where it fits between the slots and the heap, and else answers false.
fn insert_row<P: Pages>(
    pages: &mut P,
    page: u64,
    expect: &Expect,
    at: usize,
    key: u64,
    value: &[u8],
    work: &mut Work,
) -> Result<bool, Stop>
    requires ready { P.is_ready pages.old }
    requires page { page < (P.standing pages.old).count }
    requires level { expect.now.level ≡ 0 }
    requires above { expect.now.low ≤ key }
    requires within { key ≤ expect.now.high }
    requires few { length value.now ≤ 480 }
    requires printable { list_all is_printable value.now ≡ true }
    requires room { 64 ≤ (P.standing pages.old).room }
    requires spot { IsTrue (P.standing pages.old).told
        → IsWellFormed (bytes_of (P.standing pages.old).current page) expect.now
        → IsSpot (bytes_of (P.standing pages.old).current page) expect.now key (spots.Gap at) }
    ensures put { IsTrue (P.standing pages.old).told
        → IfOk result (IsPutByLines page expect.now key value.now (P.standing pages.old)
        (P.standing pages.new)) }
    ensures left { IfOk result (IsLeft page (P.standing pages.old) (P.standing pages.new)) }
    ensures when { IsTrue (P.standing pages.old).told
        → IsWellFormed (bytes_of (P.standing pages.old).current page) expect.now
        → IfOk result (λ done. done ≡ fits_beside expect.now.root key (length value.now)
        (bytes_of (P.standing pages.old).current page)) }
    ensures costs { IsTrue (P.standing pages.old).told
        → OnOk result
        (Costs (put_cost (entry_count (bytes_of (P.standing pages.old).current page) - at)
        (length value.now)) (P.standing pages.old) (P.standing pages.new)) }
    ensures room { OnOk result ((P.standing pages.old).room ≤ (P.standing pages.new).room + 64) }
    ensures cause { HasCause Never (P.standing pages.old) (P.standing pages.new) result }
    ensures call { PagesCall P.Pages pages.old pages.new result }
    ensures few { (P.standing pages.new).visits ≤ (P.standing pages.old).visits + 2 }
{
    top_of(expect);
    read_header(pages, page, &mut work.page)?;
    let count = page_word(&work.page, 8);
    let heap = page_word(&work.page, 24);
    if !has_room(at, count, heap, value.len()) {
        return Ok(false);
    }
    let size = 8 + value.len();
    let spread = spread_of(at, count as usize, heap as usize - size, size);
    read_spread(pages, page, &spread, &mut work.page)?;
    work.spare.copy_from(&work.page);
    lay_row(
        &mut work.page,
        at,
        count as usize,
        count + 1,
        heap as usize,
        key,
        value,
    );
    write_spread(pages, page, &spread, &work.spare, &work.page)?;
    Ok(true)
}

/// Where the record of a slot stands, and how long it is.
#[derive(Clone, Copy)]
pub struct RecordSpan {
    /// Its first byte.
    pub place: usize,
    /// How many bytes it has.
    pub size: usize,
}

/// Reads a slot of a page whose access is open.
fn read_slot<P: Pages>(pages: &mut P, page: u64, at: usize) -> Result<RecordSpan, Stop>
    requires ready { P.is_ready pages.old }
    requires page { page < (P.standing pages.old).count }
    requires open { (P.standing pages.old).access ≡ Some (page, false) }
    requires at { at < 1008 }
    ensures place { IsTrue (P.standing pages.old).told
        → IfOk result
        (λ slot. slot.place ≡ u16_at (bytes_of (P.standing pages.old).current page) (64 + 4 * at)) }
    ensures size { IsTrue (P.standing pages.old).told
        → IfOk result (λ slot. slot.size ≡ u16_at (bytes_of (P.standing pages.old).current page)
        (64 + 4 * at + 2)) }
    ensures small_place { IfOk result (λ slot. slot.place < 65536) }
    ensures small_size { IfOk result (λ slot. slot.size < 65536) }
    ensures call { PagesCall P.Pages pages.old pages.new result }
    ensures reads { OnOk result (ReadsPage page (P.standing pages.old) (P.standing pages.new)) }
    ensures costs { OnOk result (Costs 2 (P.standing pages.old) (P.standing pages.new)) }
    ensures again { (P.standing pages.new).visits ≤ (P.standing pages.old).visits }
    ensures cause { HasCause Never (P.standing pages.old) (P.standing pages.new) result }
{
    let place = read_half(pages, page, 64 + 4 * at)? as usize;
    let size = read_half(pages, page, 64 + 4 * at + 2)? as usize;
    Ok(RecordSpan { place, size })
}

/// Whether a record has a value of this length and stands behind its slot.
fn has_length(at: usize, slot: &RecordSpan, more: usize) -> bool
    requires at { at < 1008 }
    requires few { more ≤ 480 }
    requires small { slot.now.place < 65536 }
    requires small_size { slot.now.size < 65536 }
    ensures size { result ≡ true → slot.now.size ≡ 8 + more }
    ensures behind { result ≡ true → 68 + 4 * at ≤ slot.now.place }
    ensures within { result ≡ true → slot.now.place + slot.now.size ≤ 4096 }
    ensures none { result ≡ false → 68 + 4 * at ≤ slot.now.place
        → slot.now.place + slot.now.size ≤ 4096 → slot.now.size ≢ 8 + more }
{
    slot.size == 8 + more && 68 + 4 * at <= slot.place && slot.place + slot.size <= 4096
}

/// Whether a row can get another record below the heap's start: it is one of so many, there is room, and the leaf stays as full
/// as it has to be.
fn can_swap(at: usize, count: u64, heap: u64, slot: &RecordSpan, more: usize, root: bool) -> bool
    requires at { at < 1008 }
    requires few { more ≤ 480 }
    requires small_size { slot.now.size < 65536 }
    ensures other { result ≡ true → slot.now.size ≢ 8 + more }
    ensures at { result ≡ true → at < count }
    ensures heap { result ≡ true → heap ≤ 4096 }
    ensures room { result ≡ true → 64 + 4 * count + (8 + more) ≤ heap }
    ensures full { result ≡ true → (root ≡ true) ⊎ (slot.now.size ≤ 8 + more) }
    ensures none { result ≡ false → at < count → heap ≤ 4096 → slot.now.size ≢ 8 + more
        → (heap < 64 + 4 * count + (8 + more)) ⊎ ((root ≡ false) × (8 + more < slot.now.size)) }
{
    if heap > 4096 || count > 1008 || at >= count as usize || slot.size == 8 + more {
        return false;
    }
    if !(root || slot.size <= 8 + more) {
        return false;
    }
    64 + 4 * count as usize + (8 + more) <= heap as usize
}

/// Puts another value at a row: in place of one of its length, else below the heap's start with the slot of the row, where it fits
/// there. Else it answers false.
fn put_over<P: Pages>(
    pages: &mut P,
    page: u64,
    expect: &Expect,
    at: usize,
    key: u64,
    value: &[u8],
    work: &mut Work,
) -> Result<bool, Stop>
    requires ready { P.is_ready pages.old }
    requires page { page < (P.standing pages.old).count }
    requires level { expect.now.level ≡ 0 }
    requires above { expect.now.low ≤ key }
    requires within { key ≤ expect.now.high }
    requires few { length value.now ≤ 480 }
    requires printable { list_all is_printable value.now ≡ true }
    requires room { 64 ≤ (P.standing pages.old).room }
    requires spot { IsTrue (P.standing pages.old).told
        → IsWellFormed (bytes_of (P.standing pages.old).current page) expect.now
        → IsSpot (bytes_of (P.standing pages.old).current page) expect.now key (spots.Row at) }
    ensures put { IsTrue (P.standing pages.old).told
        → IfOk result (IsPutByLines page expect.now key value.now (P.standing pages.old)
        (P.standing pages.new)) }
    ensures left { IfOk result (IsLeft page (P.standing pages.old) (P.standing pages.new)) }
    ensures when { IsTrue (P.standing pages.old).told
        → IsWellFormed (bytes_of (P.standing pages.old).current page) expect.now
        → IfOk result (λ done. done ≡ fits_beside expect.now.root key (length value.now)
        (bytes_of (P.standing pages.old).current page)) }
    ensures costs { OnOk result (Costs (put_cost 0 (length value.now)) (P.standing pages.old)
        (P.standing pages.new)) }
    ensures room { OnOk result ((P.standing pages.old).room ≤ (P.standing pages.new).room + 64) }
    ensures cause { HasCause Never (P.standing pages.old) (P.standing pages.new) result }
    ensures call { PagesCall P.Pages pages.old pages.new result }
    ensures few { (P.standing pages.new).visits ≤ (P.standing pages.old).visits + 2 }
{
    top_of(expect);
    read_header(pages, page, &mut work.page)?;
    if at >= 1008 {
        return Ok(false);
    }
    let slot = read_slot(pages, page, at)?;
    if has_length(at, &slot, value.len()) {
        let spread = spread_of(at, at, slot.place + 8, value.len());
        read_spread(pages, page, &spread, &mut work.page)?;
        work.spare.copy_from(&work.page);
        work.page.set_part(slot.place + 8, value);
        write_spread(pages, page, &spread, &work.spare, &work.page)?;
        return Ok(true);
    }
    let count = page_word(&work.page, 8);
    let heap = page_word(&work.page, 24);
    if !can_swap(at, count, heap, &slot, value.len(), expect.root) {
        return Ok(false);
    }
    let size = 8 + value.len();
    let swap = spread_of(at, at, heap as usize - size, size);
    read_spread(pages, page, &swap, &mut work.page)?;
    work.spare.copy_from(&work.page);
    lay_row(&mut work.page, at, at, count, heap as usize, key, value);
    write_spread(pages, page, &swap, &work.spare, &work.page)?;
    Ok(true)
}

/// Puts a value at a key of a leaf by the lines that it needs: the header, the slots from its place on, and those of its record. The
/// place is that which a search found, as `binary_search` of a slice answers: the row of the key, or else where it would stand. It
/// answers true exactly where, in a leaf in order, the key has a value of this length, or the record has room between the slots and
/// the heap and does not shorten a leaf that has a floor. Else nothing is changed, and the leaf has to be read whole.
pub fn put_by_lines<P: Pages>(
    pages: &mut P,
    page: u64,
    expect: &Expect,
    place: Result<usize, usize>,
    key: u64,
    value: &[u8],
    work: &mut Work,
) -> Result<bool, Stop>
    requires ready { P.is_ready pages.old }
    requires page { page < (P.standing pages.old).count }
    requires level { expect.now.level ≡ 0 }
    requires above { expect.now.low ≤ key }
    requires within { key ≤ expect.now.high }
    requires few { length value.now ≤ 480 }
    requires printable { list_all is_printable value.now ≡ true }
    requires room { 64 ≤ (P.standing pages.old).room }
    requires spot { IsTrue (P.standing pages.old).told
        → IsWellFormed (bytes_of (P.standing pages.old).current page) expect.now
        → IsFound (bytes_of (P.standing pages.old).current page) expect.now key place }
    ensures put { IsTrue (P.standing pages.old).told
        → IfOk result (IsPutByLines page expect.now key value.now (P.standing pages.old)
        (P.standing pages.new)) }
    ensures left { IfOk result (IsLeft page (P.standing pages.old) (P.standing pages.new)) }
    ensures when { IsTrue (P.standing pages.old).told
        → IsWellFormed (bytes_of (P.standing pages.old).current page) expect.now
        → IfOk result (λ done. done ≡ fits_beside expect.now.root key (length value.now)
        (bytes_of (P.standing pages.old).current page)) }
    ensures costs { IsTrue (P.standing pages.old).told
        → OnOk result
        (Costs (put_cost (slots_behind place (bytes_of (P.standing pages.old).current page))
        (length value.now)) (P.standing pages.old) (P.standing pages.new)) }
    ensures room { OnOk result ((P.standing pages.old).room ≤ (P.standing pages.new).room + 64) }
    ensures cause { HasCause Never (P.standing pages.old) (P.standing pages.new) result }
    ensures call { PagesCall P.Pages pages.old pages.new result }
    ensures few { (P.standing pages.new).visits ≤ (P.standing pages.old).visits + 2 }
{
    match place {
        Ok(at) => put_over(pages, page, expect, at, key, value, work),
        Err(at) => insert_row(pages, page, expect, at, key, value, work),
    }
}
