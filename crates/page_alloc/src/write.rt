//! Pages written by the lines that changed.
ghost use Rattle.std.specs.Prelude.{◌≡◌, ◌+◌, ◌-◌, ◌*◌, ◌<◌, ◌≤◌, length, true, false, if◌then◌else◌, IsTrue, OnOk};
ghost use Rattle.std.specs.Str.{bytes_eq};
ghost use Rattle.ssd_model.specs.Page.{Same};
ghost use Rattle.line_pages.specs.PagesCall.{PagesCall};
ghost use Rattle.line_pages.specs.Bytes.{bytes_of};
ghost use Rattle.nvm_model.specs.LineBytes.{line_bytes};
ghost use Rattle.line_pages.specs.Touch.{begins};
ghost use Rattle.line_pages.specs.Cost.{Costs};
ghost use Rattle.line_pages.specs.Standing.{HasCause, Never};
ghost use Rattle.page_alloc.specs.Written.{Rewrites, OtherPages, SameElsewhere, Visited, Differs, WritesOnly, line_part, changed_in, lines_changed};

use line_pages::{Pages, Stop, copy_page, page_line};
use page_format::Work;
use ssd_model::PageBuf;

/// Whether a line is the same in two pages.
fn same_line(old: &PageBuf, new: &PageBuf, line: usize) -> bool
    requires { line < 64 }
    ensures { result ≡ bytes_eq (line_part old.now line) (line_part new.now line) }
{
    let at = 64 * line;
    old.part(at, at + 64) == new.part(at, at + 64)
}

/// Writes a line of a page where its new bytes differ from its old ones.
#[tactic(auto, using(crate::proofs::TouchedLaws::only_write, crate::proofs::TouchedLaws::only_refl, crate::proofs::CostLaws::costs_write, crate::proofs::CostLaws::costs_none))]
fn write_changed<P: Pages>(
    pages: &mut P,
    page: u64,
    line: usize,
    old: &PageBuf,
    new: &PageBuf,
) -> Result<(), Stop>
    requires ready { P.is_ready pages.old }
    requires page { page < (P.standing pages.old).count }
    requires line { line < 64 }
    requires room { 1
        ≤ (P.standing pages.old).room
        + (if bytes_eq (line_part old.now line) (line_part new.now line) then 1 else 0) }
    ensures done { IsTrue (P.standing pages.old).told
        → line_bytes ((P.standing pages.old).current page line) ≡ line_part old.now line
        → OnOk result
        (line_bytes ((P.standing pages.new).current page line) ≡ line_part new.now line) }
    ensures others { IsTrue (P.standing pages.old).told
        → OnOk result
        (SameElsewhere page line (P.standing pages.old).current (P.standing pages.new).current) }
    ensures room { OnOk result
        ((P.standing pages.new).room
        + (if bytes_eq (line_part old.now line) (line_part new.now line) then 0 else 1)
        ≡ (P.standing pages.old).room) }
    ensures touches { OnOk result
        (WritesOnly page (Differs old.now new.now) (P.standing pages.old) (P.standing pages.new)) }
    ensures costs { OnOk result (Costs 1 (P.standing pages.old) (P.standing pages.new)) }
    ensures cause { HasCause Never (P.standing pages.old) (P.standing pages.new) result }
    ensures call { PagesCall P.Pages pages.old pages.new result }
    ensures visited { OnOk result (Visited page (P.standing pages.old) (P.standing pages.new)) }
    ensures again { begins (P.standing pages.old).access page true ≡ false
        → (P.standing pages.new).visits ≤ (P.standing pages.old).visits }
    ensures few { (P.standing pages.new).visits ≤ (P.standing pages.old).visits + 1 }
{
    if same_line(old, new, line) {
        return Ok(());
    }
    let value = page_line(new, line);
    pages.write_line(page, line, &value)
}

/// Writes some lines of a page, from one up to another, where their new bytes differ from their old ones. The bytes of other lines in
/// the buffers do not matter. It stops only where a write does, and then the lines before that one are written.
pub fn write_lines<P: Pages>(
    pages: &mut P,
    page: u64,
    from: usize,
    end: usize,
    old: &PageBuf,
    new: &PageBuf,
) -> Result<(), Stop>
    requires ready { P.is_ready pages.old }
    requires page { page < (P.standing pages.old).count }
    requires order { from ≤ end }
    requires within { end ≤ 64 }
    requires room { changed_in old.now new.now from (end - from) ≤ (P.standing pages.old).room }
    ensures put { IsTrue (P.standing pages.old).told
        → Same (64 * from) (64 * end) (bytes_of (P.standing pages.old).current page) old.now
        → OnOk result
        (Same (64 * from) (64 * end) (bytes_of (P.standing pages.new).current page) new.now) }
    ensures before { IsTrue (P.standing pages.old).told
        → Same (64 * from) (64 * end) (bytes_of (P.standing pages.old).current page) old.now
        → OnOk result
        (Same 0 (64 * from) (bytes_of (P.standing pages.old).current page)
        (bytes_of (P.standing pages.new).current page)) }
    ensures after { IsTrue (P.standing pages.old).told
        → Same (64 * from) (64 * end) (bytes_of (P.standing pages.old).current page) old.now
        → OnOk result
        (Same (64 * end) 4096 (bytes_of (P.standing pages.old).current page)
        (bytes_of (P.standing pages.new).current page)) }
    ensures others { IsTrue (P.standing pages.old).told
        → Same (64 * from) (64 * end) (bytes_of (P.standing pages.old).current page) old.now
        → OnOk result
        (OtherPages page (P.standing pages.old).current (P.standing pages.new).current) }
    ensures room { OnOk result
        ((P.standing pages.new).room + changed_in old.now new.now from (end - from)
        ≡ (P.standing pages.old).room) }
    ensures touches { OnOk result
        (WritesOnly page (Differs old.now new.now) (P.standing pages.old) (P.standing pages.new)) }
    ensures costs { OnOk result (Costs (end - from) (P.standing pages.old) (P.standing pages.new)) }
    ensures cause { HasCause Never (P.standing pages.old) (P.standing pages.new) result }
    ensures call { PagesCall P.Pages pages.old pages.new result }
    ensures visited { OnOk result (Visited page (P.standing pages.old) (P.standing pages.new)) }
    ensures again { begins (P.standing pages.old).access page true ≡ false
        → (P.standing pages.new).visits ≤ (P.standing pages.old).visits }
    ensures few { (P.standing pages.new).visits ≤ (P.standing pages.old).visits + 1 }
    ensures size_old { length old.now ≡ 4096 }
    ensures size { length new.now ≡ 4096 }
{
    old.byte(0);
    new.byte(0);
    for line in from..end {
        write_changed(pages, page, line, old, new)?;
    }
    Ok(())
}

/// Writes the lines in which a page's new bytes differ from its old ones. It stops only where a write does, and then the lines
/// before that one are written.
pub fn write_changes<P: Pages>(
    pages: &mut P,
    page: u64,
    old: &PageBuf,
    new: &PageBuf,
) -> Result<(), Stop>
    requires ready { P.is_ready pages.old }
    requires page { page < (P.standing pages.old).count }
    requires room { lines_changed old.now new.now ≤ (P.standing pages.old).room }
    ensures writes { IsTrue (P.standing pages.old).told
        → old.now ≡ bytes_of (P.standing pages.old).current page
        → OnOk result
        (Rewrites page new.now (P.standing pages.old).current (P.standing pages.new).current) }
    ensures room { OnOk result
        ((P.standing pages.new).room + lines_changed old.now new.now
        ≡ (P.standing pages.old).room) }
    ensures touches { OnOk result
        (WritesOnly page (Differs old.now new.now) (P.standing pages.old) (P.standing pages.new)) }
    ensures cause { HasCause Never (P.standing pages.old) (P.standing pages.new) result }
    ensures call { PagesCall P.Pages pages.old pages.new result }
    ensures few { (P.standing pages.new).visits ≤ (P.standing pages.old).visits + 1 }
{
    write_lines(pages, page, 0, 64, old, new)
}
