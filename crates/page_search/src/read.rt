//! A whole page read and checked.
ghost use Rattle.std.specs.Prelude.{false, ◌≡◌, ◌+◌, ◌<◌, ◌≤◌, length, IsTrue, OnOk, IfErr};
ghost use Rattle.page_search.specs.Causes.{NodeCause, ShownCause};
ghost use Rattle.line_pages.specs.PagesCall.{PagesCall};
ghost use Rattle.line_pages.specs.Bytes.{bytes_of};
ghost use Rattle.line_pages.specs.Touch.{begins};
ghost use Rattle.line_pages.specs.Cost.{lines_from, AddsLines};
ghost use Rattle.line_pages.specs.Standing.{ReadsPage, UnlessFault};
ghost use Rattle.page_format.specs.Node.{IsWellFormed};
ghost use Rattle.page_format.specs.Search.{FailsNode, Keeps, Unchanged};
ghost use Rattle.page_search.specs.Answers.{FitsEvidence, ShowsDamage};
ghost use Rattle.page_format.specs.Work.{KeepsOthers};

use damage::Evidence;
use line_pages::{Pages, Stop, copy_page};
use page_format::{Expect, Work, well_formed};

/// Reads a whole page, as one access, and makes its checks. `Damaged` comes exactly where one fails of the lines that
/// were read, which then stand in the buffer of the page last checked.
pub fn read_page<P: Pages>(
    pages: &mut P,
    page: u64,
    expect: &Expect,
    work: &mut Work,
) -> Result<(), Stop>
    requires ready { P.is_ready pages.old }
    requires page { page < (P.standing pages.old).count }
    // what the page is
    ensures well { OnOk result (IsWellFormed work.new.page expect.now) }
    ensures size { OnOk result (length work.new.page ≡ 4096) }
    ensures bytes { IsTrue (P.standing pages.old).told
        → OnOk result (work.new.page ≡ bytes_of (P.standing pages.old).current page) }
    ensures damage { IsTrue (P.standing pages.old).told
        → IfErr result
        (ShowsDamage page expect.now (bytes_of (P.standing pages.old).current page)) }
    ensures shown { ShownCause P.Pages pages.old pages.new page expect.now work.new.page result }
    ensures cause { FitsEvidence (P.standing pages.old).count expect.now
        → NodeCause P.Pages pages.old pages.new work.new.page result }
    ensures fails { FitsEvidence (P.standing pages.old).count expect.now
        → IfErr result (Keeps (FailsNode (P.standing pages.old).count work.new.page)) }
    ensures unchanged { IfErr result (Unchanged (P.standing pages.old) (P.standing pages.new)) }
    // what stays
    ensures call { PagesCall P.Pages pages.old pages.new result }
    ensures reads { UnlessFault result
        (ReadsPage page (P.standing pages.old) (P.standing pages.new)) }
    ensures lines { OnOk result (AddsLines (λ lines. lines ≡ lines_from 0 64) (P.standing pages.old)
        (P.standing pages.new)) }
    ensures again { begins (P.standing pages.old).access page false ≡ false
        → (P.standing pages.new).visits ≤ (P.standing pages.old).visits }
    ensures few { (P.standing pages.new).visits ≤ (P.standing pages.old).visits + 1 }
    ensures others { KeepsOthers work.old work.new }
{
    copy_page(pages, page, &mut work.page)?;
    match well_formed(&work.page, expect) {
        Ok(()) => Ok(()),
        Err(check) => Err(Stop::Damaged(page_evidence(page, expect, check))),
    }
}

/// The evidence that a page fails a check.
fn page_evidence(page: u64, expect: &Expect, check: u8) -> Evidence
    ensures { result ≡ Evidence.Page page expect.now.level expect.now.low expect.now.high check }
{
    Evidence::Page {
        page,
        level: expect.level,
        low: expect.low,
        high: expect.high,
        check,
    }
}
