//! The search in a page by the lines that a binary search probes.
ghost use Rattle.std.specs.Prelude.{◌≡◌, ◌+◌, ◌*◌, ◌<◌, ◌≤◌, ◌&&◌, ◌||◌, ◌==◌, ℕ, List, [], ◌∷◌, true, false, Some, nat_lt, nat_le, if◌then◌else◌, IsTrue, OnOk, IfOk};
ghost use Rattle.line_pages.specs.PagesCall.{PagesCall};
ghost use Rattle.line_pages.specs.Bytes.{u16_at, bytes_of};
ghost use Rattle.line_pages.specs.Touch.{begins};
ghost use Rattle.line_pages.specs.Cost.{lines_of, AddsLines, Costs};
ghost use Rattle.line_pages.specs.Standing.{HasCause, Never, ReadsPage};
ghost use Rattle.page_format.specs.Node.{entry_count, IsWellFormed};
ghost use Rattle.page_search.specs.Answers.{IsHeader, IsRightSpot, IsSafeAnswer, IsOfLevel};
ghost use Rattle.page_search.specs.Cost.{row_probe, Probes, ProbesChildren, Searches, most_lines};

use line_pages::{Pages, Stop, read_half, read_word};
use page_format::{Expect, Spot};

/// The first words of a page.
#[derive(Clone, Copy)]
pub(crate) struct Header {
    pub kind: u64,
    pub count: u64,
    pub level: u64,
}

/// Looks a key up by line 0 and the lines that a binary search probes. `None` is answered where something looks odd,
/// which is never in a well-formed page.
pub fn probe<P: Pages>(
    pages: &mut P,
    page: u64,
    expect: &Expect,
    key: u64,
) -> Result<Option<Spot>, Stop>
    requires ready { P.is_ready pages.old }
    requires page { page < (P.standing pages.old).count }
    requires above { expect.now.low ≤ key }
    requires within { key ≤ expect.now.high }
    ensures spot { IsTrue (P.standing pages.old).told
        → IsWellFormed (bytes_of (P.standing pages.old).current page) expect.now
        → IfOk result (IsRightSpot (bytes_of (P.standing pages.old).current page) expect.now key) }
    ensures level { IsTrue (P.standing pages.old).told
        → IfOk result (IsOfLevel (bytes_of (P.standing pages.old).current page) expect.now) }
    ensures safe { IfOk result (IsSafeAnswer expect.now key) }
    ensures cause { HasCause Never (P.standing pages.old) (P.standing pages.new) result }
    ensures call { PagesCall P.Pages pages.old pages.new result }
    ensures reads { OnOk result (ReadsPage page (P.standing pages.old) (P.standing pages.new)) }
    ensures lines { IsTrue (P.standing pages.old).told
        → IsWellFormed (bytes_of (P.standing pages.old).current page) expect.now
        → OnOk result
        (AddsLines (Searches expect.now.level (bytes_of (P.standing pages.old).current page))
        (P.standing pages.old) (P.standing pages.new)) }
    ensures bound { OnOk result (Costs (most_lines expect.now.level) (P.standing pages.old)
        (P.standing pages.new)) }
    ensures few { (P.standing pages.new).visits ≤ (P.standing pages.old).visits + 1 }
{
    let header = read_header(pages, page)?;
    if !header_fits(&header, expect) {
        return Ok(None);
    }
    let count = header.count as usize;
    if expect.level == 0 {
        return probe_rows(pages, page, expect, count, key);
    }
    probe_children(pages, page, expect, count, key)
}

/// Reads the first words of a page from its line 0.
fn read_header<P: Pages>(pages: &mut P, page: u64) -> Result<Header, Stop>
    requires ready { P.is_ready pages.old }
    requires page { page < (P.standing pages.old).count }
    ensures header { IsTrue (P.standing pages.old).told
        → IfOk result (IsHeader (bytes_of (P.standing pages.old).current page)) }
    ensures cause { HasCause Never (P.standing pages.old) (P.standing pages.new) result }
    ensures call { PagesCall P.Pages pages.old pages.new result }
    ensures reads { OnOk result (ReadsPage page (P.standing pages.old) (P.standing pages.new)) }
    ensures lines { OnOk result (AddsLines (λ lines. lines ≡ 0 ∷ []) (P.standing pages.old)
        (P.standing pages.new)) }
    ensures few { (P.standing pages.new).visits ≤ (P.standing pages.old).visits + 1 }
{
    let line = pages.read_line(page, 0)?;
    Ok(Header {
        kind: line.words[0],
        count: line.words[1],
        level: line.words[2],
    })
}

/// Whether the first words are those of a page of the level, with a number of rows or children that it has room for.
fn header_fits(header: &Header, expect: &Expect) -> bool
    ensures level { result ≡ true → header.now.level ≡ expect.now.level }
    ensures rows { result ≡ true → expect.now.level ≡ 0 → header.now.count ≤ 1008 }
    ensures some { result ≡ true → 1 ≤ expect.now.level → 2 ≤ header.now.count }
    ensures few { result ≡ true → 1 ≤ expect.now.level → header.now.count ≤ 240 }
    ensures fits { (bytes : List ℕ) → IsHeader bytes header.now → IsWellFormed bytes expect.now
        → result ≡ true }
{
    if header.level != expect.level as u64 {
        return false;
    }
    if expect.level == 0 {
        return is_leaf(header);
    }
    is_inner(header)
}

fn is_leaf(header: &Header) -> bool
    ensures { result ≡ (header.now.kind == 1 && nat_le header.now.count 1008) }
{
    header.kind == 1 && header.count <= 1008
}

fn is_inner(header: &Header) -> bool
    ensures { result
        ≡ (header.now.kind == 2 && nat_le 2 header.now.count && nat_le header.now.count 240) }
{
    header.kind == 2 && 2 <= header.count && header.count <= 240
}

/// Reads where the record of a slot begins.
fn read_place<P: Pages>(pages: &mut P, page: u64, slot: usize) -> Result<usize, Stop>
    requires ready { P.is_ready pages.old }
    requires page { page < (P.standing pages.old).count }
    requires slot { slot < 1008 }
    ensures value { IsTrue (P.standing pages.old).told
        → IfOk result (λ place. place ≡ u16_at (bytes_of (P.standing pages.old).current page)
        (64 + 4 * slot)) }
    ensures small { IfOk result (λ place. place < 65536) }
    ensures cause { HasCause Never (P.standing pages.old) (P.standing pages.new) result }
    ensures call { PagesCall P.Pages pages.old pages.new result }
    ensures reads { OnOk result (ReadsPage page (P.standing pages.old) (P.standing pages.new)) }
    ensures lines { OnOk result
        (AddsLines (λ lines. lines ≡ lines_of (64 + 4 * slot) 2) (P.standing pages.old)
        (P.standing pages.new)) }
    ensures again { begins (P.standing pages.old).access page false ≡ false
        → (P.standing pages.new).visits ≤ (P.standing pages.old).visits }
{
    let place = read_half(pages, page, 64 + 4 * slot)?;
    Ok(place as usize)
}

/// The binary search over the slots of a leaf.
fn probe_rows<P: Pages>(
    pages: &mut P,
    page: u64,
    expect: &Expect,
    count: usize,
    key: u64,
) -> Result<Option<Spot>, Stop>
    requires ready { P.is_ready pages.old }
    requires page { page < (P.standing pages.old).count }
    requires open { (P.standing pages.old).access ≡ Some (page, false) }
    requires leaf { expect.now.level ≡ 0 }
    requires few { count ≤ 1008 }
    requires known { IsTrue (P.standing pages.old).told
        → count ≡ entry_count (bytes_of (P.standing pages.old).current page) }
    ensures spot { IsTrue (P.standing pages.old).told
        → IsWellFormed (bytes_of (P.standing pages.old).current page) expect.now
        → IfOk result (IsRightSpot (bytes_of (P.standing pages.old).current page) expect.now key) }
    ensures safe { IfOk result (IsSafeAnswer expect.now key) }
    ensures cause { HasCause Never (P.standing pages.old) (P.standing pages.new) result }
    ensures call { PagesCall P.Pages pages.old pages.new result }
    ensures reads { OnOk result (ReadsPage page (P.standing pages.old) (P.standing pages.new)) }
    ensures lines { IsTrue (P.standing pages.old).told
        → IsWellFormed (bytes_of (P.standing pages.old).current page) expect.now
        → OnOk result
        (AddsLines (Probes (row_probe (bytes_of (P.standing pages.old).current page)) count count)
        (P.standing pages.old) (P.standing pages.new)) }
    ensures bound { OnOk result (Costs 30 (P.standing pages.old) (P.standing pages.new)) }
    ensures again { (P.standing pages.new).visits ≤ (P.standing pages.old).visits }
{
    let mut low = 0usize;
    let mut high = count;
    while low < high {
        let middle = low + (high - low) / 2;
        let place = read_place(pages, page, middle)?;
        if place + 8 > 4096 {
            return Ok(None);
        }
        let found = read_word(pages, page, place)?;
        if found == key {
            return Ok(Some(Spot::Row(middle)));
        }
        if found < key {
            low = middle + 1;
        } else {
            high = middle;
        }
    }
    Ok(Some(Spot::Gap(low)))
}

/// Whether a key that is not a page's first one can be a child's.
fn is_inside(found: u64, expect: &Expect) -> bool
    ensures { result ≡ (nat_lt expect.now.low found && nat_le found expect.now.high) }
{
    expect.low < found && found <= expect.high
}

/// Whether a number is that of a page below a root.
fn is_page(child: u64, pages: u64) -> bool
    ensures { result ≡ (nat_lt 0 child && nat_lt child pages) }
{
    0 < child && child < pages
}

/// The binary search over the children of an inner page. Of the first child no key is read, since it begins at the
/// page's low bound.
fn probe_children<P: Pages>(
    pages: &mut P,
    page: u64,
    expect: &Expect,
    count: usize,
    key: u64,
) -> Result<Option<Spot>, Stop>
    requires ready { P.is_ready pages.old }
    requires page { page < (P.standing pages.old).count }
    requires open { (P.standing pages.old).access ≡ Some (page, false) }
    requires above { expect.now.low ≤ key }
    requires within { key ≤ expect.now.high }
    requires inner { 1 ≤ expect.now.level }
    requires some { 2 ≤ count }
    requires few { count ≤ 240 }
    requires known { IsTrue (P.standing pages.old).told
        → count ≡ entry_count (bytes_of (P.standing pages.old).current page) }
    ensures spot { IsTrue (P.standing pages.old).told
        → IsWellFormed (bytes_of (P.standing pages.old).current page) expect.now
        → IfOk result (IsRightSpot (bytes_of (P.standing pages.old).current page) expect.now key) }
    ensures safe { IfOk result (IsSafeAnswer expect.now key) }
    ensures cause { HasCause Never (P.standing pages.old) (P.standing pages.new) result }
    ensures call { PagesCall P.Pages pages.old pages.new result }
    ensures reads { OnOk result (ReadsPage page (P.standing pages.old) (P.standing pages.new)) }
    ensures lines { IsTrue (P.standing pages.old).told
        → IsWellFormed (bytes_of (P.standing pages.old).current page) expect.now
        → OnOk result (AddsLines (ProbesChildren (bytes_of (P.standing pages.old).current page))
        (P.standing pages.old) (P.standing pages.new)) }
    ensures bound { OnOk result (Costs 9 (P.standing pages.old) (P.standing pages.new)) }
    ensures again { (P.standing pages.new).visits ≤ (P.standing pages.old).visits }
{
    let mut low = 0usize;
    let mut high = count;
    let mut least = expect.low;
    let mut most = expect.high;
    while low + 1 < high {
        let middle = low + (high - low) / 2;
        let found = read_word(pages, page, 64 + 16 * middle)?;
        if !is_inside(found, expect) {
            return Ok(None);
        }
        if found <= key {
            low = middle;
            least = found;
        } else {
            high = middle;
            most = found - 1;
        }
    }
    let child = read_word(pages, page, 72 + 16 * low)?;
    if !is_page(child, expect.pages) {
        return Ok(None);
    }
    Ok(Some(Spot::Child(low, child, least, most)))
}
