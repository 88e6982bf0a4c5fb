//! The search for a key in one page.
ghost use Rattle.std.specs.Prelude.{false, ◌≡◌, ◌+◌, ◌<◌, ◌≤◌, IsTrue, OnOk, IfOk, IfErr};
ghost use Rattle.page_search.specs.Causes.{NodeCause, ShownCause};
ghost use Rattle.line_pages.specs.PagesCall.{PagesCall};
ghost use Rattle.line_pages.specs.Bytes.{bytes_of};
ghost use Rattle.line_pages.specs.Touch.{begins};
ghost use Rattle.line_pages.specs.Cost.{lines_from, AddsLines, Costs};
ghost use Rattle.line_pages.specs.Standing.{ReadsPage, UnlessFault};
ghost use Rattle.page_format.specs.Node.{IsWellFormed, page_level};
ghost use Rattle.page_format.specs.Search.{IsSpot, IsSafeSpot, FailsNode, Keeps, Unchanged};
ghost use Rattle.page_search.specs.Answers.{FitsEvidence, ShowsDamage};
ghost use Rattle.page_search.specs.Cost.{Searches, search_lines, most_lines};
ghost use Rattle.page_format.specs.Work.{KeepsOthers};

use crate::probe::probe;
use crate::read::read_page;
use line_pages::{Pages, Stop};
use page_format::{Expect, Spot, Work, locate};

/// Looks a key up in a page by line 0 and the slots and keys that a binary search probes, as one access. Where something
/// that was read is odd, it reads all lines and answers `Damaged` exactly where a check of them fails, else by these lines.
/// So it touches at most 28 lines of a well-formed leaf and 10 of an inner page, and at most 95 of any page.
pub fn find<P: Pages>(
    pages: &mut P,
    page: u64,
    expect: &Expect,
    key: u64,
    work: &mut Work,
) -> Result<Spot, Stop>
    requires ready { P.is_ready pages.old }
    requires page { page < (P.standing pages.old).count }
    requires above { expect.now.low ≤ key }
    requires within { key ≤ expect.now.high }
    // what is found
    ensures spot { IsTrue (P.standing pages.old).told
        → IsWellFormed (bytes_of (P.standing pages.old).current page) expect.now
        → IfOk result (IsSpot (bytes_of (P.standing pages.old).current page) expect.now key) }
    ensures level { IsTrue (P.standing pages.old).told
        → OnOk result (page_level (bytes_of (P.standing pages.old).current page)
        ≡ expect.now.level) }
    ensures safe { IfOk result (IsSafeSpot expect.now key) }
    ensures damage { IsTrue (P.standing pages.old).told
        → IfErr result
        (ShowsDamage page expect.now (bytes_of (P.standing pages.old).current page)) }
    ensures shown { ShownCause P.Pages pages.old pages.new page expect.now work.new.page result }
    ensures cause { FitsEvidence (P.standing pages.old).count expect.now
        → NodeCause P.Pages pages.old pages.new work.new.page result }
    ensures fails { FitsEvidence (P.standing pages.old).count expect.now
        → IfErr result (Keeps (FailsNode (P.standing pages.old).count work.new.page)) }
    ensures unchanged { IfErr result (Unchanged (P.standing pages.old) (P.standing pages.new)) }
    // what is read of a page that is well formed
    ensures lines { IsTrue (P.standing pages.old).told
        → IsWellFormed (bytes_of (P.standing pages.old).current page) expect.now
        → OnOk result
        (AddsLines (Searches expect.now.level (bytes_of (P.standing pages.old).current page))
        (P.standing pages.old) (P.standing pages.new)) }
    ensures cost { IsTrue (P.standing pages.old).told
        → IsWellFormed (bytes_of (P.standing pages.old).current page) expect.now
        → OnOk result (Costs (search_lines expect.now.level) (P.standing pages.old)
        (P.standing pages.new)) }
    // what is read of any page
    ensures bound { OnOk result (Costs (most_lines expect.now.level + 64) (P.standing pages.old)
        (P.standing pages.new)) }
    // what stays
    ensures call { PagesCall P.Pages pages.old pages.new result }
    ensures reads { UnlessFault result
        (ReadsPage page (P.standing pages.old) (P.standing pages.new)) }
    ensures few { (P.standing pages.new).visits ≤ (P.standing pages.old).visits + 1 }
    ensures others { KeepsOthers work.old work.new }
{
    match probe(pages, page, expect, key)? {
        Some(spot) => Ok(spot),
        None => find_whole(pages, page, expect, key, work),
    }
}

/// Looks a key up by all lines of the page, whose access is open.
fn find_whole<P: Pages>(
    pages: &mut P,
    page: u64,
    expect: &Expect,
    key: u64,
    work: &mut Work,
) -> Result<Spot, Stop>
    requires ready { P.is_ready pages.old }
    requires page { page < (P.standing pages.old).count }
    requires above { expect.now.low ≤ key }
    requires within { key ≤ expect.now.high }
    ensures spot { IsTrue (P.standing pages.old).told
        → IfOk result (IsSpot (bytes_of (P.standing pages.old).current page) expect.now key) }
    ensures level { IsTrue (P.standing pages.old).told
        → OnOk result (page_level (bytes_of (P.standing pages.old).current page)
        ≡ expect.now.level) }
    ensures safe { IfOk result (IsSafeSpot expect.now key) }
    ensures damage { IsTrue (P.standing pages.old).told
        → IfErr result
        (ShowsDamage page expect.now (bytes_of (P.standing pages.old).current page)) }
    ensures shown { ShownCause P.Pages pages.old pages.new page expect.now work.new.page result }
    ensures cause { FitsEvidence (P.standing pages.old).count expect.now
        → NodeCause P.Pages pages.old pages.new work.new.page result }
    ensures fails { FitsEvidence (P.standing pages.old).count expect.now
        → IfErr result (Keeps (FailsNode (P.standing pages.old).count work.new.page)) }
    ensures unchanged { IfErr result (Unchanged (P.standing pages.old) (P.standing pages.new)) }
    ensures call { PagesCall P.Pages pages.old pages.new result }
    ensures reads { UnlessFault result
        (ReadsPage page (P.standing pages.old) (P.standing pages.new)) }
    ensures lines { OnOk result (AddsLines (λ lines. lines ≡ lines_from 0 64) (P.standing pages.old)
        (P.standing pages.new)) }
    ensures again { begins (P.standing pages.old).access page false ≡ false
        → (P.standing pages.new).visits ≤ (P.standing pages.old).visits }
    ensures others { KeepsOthers work.old work.new }
{
    read_page(pages, page, expect, work)?;
    Ok(locate(&work.page, expect, key))
}
