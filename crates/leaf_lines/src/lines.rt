//! The lines of a change read into a buffer, and written where they differ.
ghost use Rattle.std.specs.Prelude.{◌≡◌, ◌+◌, ◌-◌, ◌*◌, ◌<◌, ◌≤◌, length, false, Some, IsTrue, OnOk};
ghost use Rattle.ssd_model.specs.Page.{Same};
ghost use Rattle.line_pages.specs.PagesCall.{PagesCall};
ghost use Rattle.line_pages.specs.Bytes.{bytes_of};
ghost use Rattle.line_pages.specs.Cost.{Costs};
ghost use Rattle.line_pages.specs.Standing.{HasCause, Never, ReadsPage};
ghost use Rattle.page_alloc.specs.Written.{OtherPages, Differs, WritesOnly, lines_changed};
ghost use Rattle.leaf_lines.specs.Spread.{InOrder, AlikeIn, AlikeBeyond, StandsFor};

use crate::spread::Spread;
use line_pages::{Pages, Stop, set_page_line};
use page_alloc::write_lines;
use ssd_model::PageBuf;

/// Reads some lines of a page, whose access is open, into their places in a buffer.
pub fn read_lines<P: Pages>(
    pages: &mut P,
    page: u64,
    from: usize,
    end: usize,
    into: &mut PageBuf,
) -> Result<(), Stop>
    requires ready { P.is_ready pages.old }
    requires page { page < (P.standing pages.old).count }
    requires open { (P.standing pages.old).access ≡ Some (page, false) }
    requires order { from ≤ end }
    requires within { end ≤ 64 }
    ensures known { IsTrue (P.standing pages.old).told
        → OnOk result
        (Same (64 * from) (64 * end) (bytes_of (P.standing pages.old).current page) into.new) }
    ensures before { OnOk result (Same 0 (64 * from) into.old into.new) }
    ensures after { OnOk result (Same (64 * end) 4096 into.old into.new) }
    ensures call { PagesCall P.Pages pages.old pages.new result }
    ensures reads { OnOk result (ReadsPage page (P.standing pages.old) (P.standing pages.new)) }
    ensures costs { OnOk result (Costs (end - from) (P.standing pages.old) (P.standing pages.new)) }
    ensures again { (P.standing pages.new).visits ≤ (P.standing pages.old).visits }
    ensures cause { HasCause Never (P.standing pages.old) (P.standing pages.new) result }
{
    into.byte(0);
    for line in from..end {
        let value = pages.read_line(page, line)?;
        set_page_line(into, line, &value);
    }
    Ok(())
}

/// Reads line 0 of a page into its place in a buffer.
pub fn read_header<P: Pages>(pages: &mut P, page: u64, into: &mut PageBuf) -> Result<(), Stop>
    requires ready { P.is_ready pages.old }
    requires page { page < (P.standing pages.old).count }
    ensures known { IsTrue (P.standing pages.old).told
        → OnOk result (Same 0 64 (bytes_of (P.standing pages.old).current page) into.new) }
    ensures call { PagesCall P.Pages pages.old pages.new result }
    ensures reads { OnOk result (ReadsPage page (P.standing pages.old) (P.standing pages.new)) }
    ensures costs { OnOk result (Costs 1 (P.standing pages.old) (P.standing pages.new)) }
    ensures few { (P.standing pages.new).visits ≤ (P.standing pages.old).visits + 1 }
    ensures cause { HasCause Never (P.standing pages.old) (P.standing pages.new) result }
{
    let header = pages.read_line(page, 0)?;
    set_page_line(into, 0, &header);
    Ok(())
}

/// Reads the lines of a change beside line 0 into their places in a buffer.
pub fn read_spread<P: Pages>(
    pages: &mut P,
    page: u64,
    spread: &Spread,
    into: &mut PageBuf,
) -> Result<(), Stop>
    requires ready { P.is_ready pages.old }
    requires page { page < (P.standing pages.old).count }
    requires open { (P.standing pages.old).access ≡ Some (page, false) }
    requires order { InOrder spread.now }
    ensures header { OnOk result (Same 0 64 into.old into.new) }
    ensures known { IsTrue (P.standing pages.old).told
        → Same 0 64 (bytes_of (P.standing pages.old).current page) into.old
        → OnOk result (AlikeIn spread.now (bytes_of (P.standing pages.old).current page) into.new) }
    ensures call { PagesCall P.Pages pages.old pages.new result }
    ensures reads { OnOk result (ReadsPage page (P.standing pages.old) (P.standing pages.new)) }
    ensures costs { OnOk result
        (Costs ((spread.now.slots_end - spread.now.slots) + (spread.now.heap_end - spread.now.heap))
        (P.standing pages.old) (P.standing pages.new)) }
    ensures again { (P.standing pages.new).visits ≤ (P.standing pages.old).visits }
    ensures cause { HasCause Never (P.standing pages.old) (P.standing pages.new) result }
{
    read_lines(pages, page, spread.slots, spread.slots_end, into)?;
    read_lines(pages, page, spread.heap, spread.heap_end, into)?;
    Ok(())
}

/// Writes the lines of a change where they differ in two buffers, which hold the same in all other lines.
pub fn write_spread<P: Pages>(
    pages: &mut P,
    page: u64,
    spread: &Spread,
    old: &PageBuf,
    new: &PageBuf,
) -> Result<(), Stop>
    requires ready { P.is_ready pages.old }
    requires page { page < (P.standing pages.old).count }
    requires order { InOrder spread.now }
    requires alike { AlikeBeyond spread.now old.now new.now }
    requires room { lines_changed old.now new.now ≤ (P.standing pages.old).room }
    ensures stands { IsTrue (P.standing pages.old).told
        → AlikeIn spread.now (bytes_of (P.standing pages.old).current page) old.now
        → OnOk result
        (StandsFor spread.now old.now new.now (bytes_of (P.standing pages.old).current page)
        (bytes_of (P.standing pages.new).current page)) }
    ensures others { IsTrue (P.standing pages.old).told
        → AlikeIn spread.now (bytes_of (P.standing pages.old).current page) old.now
        → OnOk result
        (OtherPages page (P.standing pages.old).current (P.standing pages.new).current) }
    ensures room { OnOk result ((P.standing pages.new).room + lines_changed old.now new.now
        ≡ (P.standing pages.old).room) }
    ensures touches { OnOk result (WritesOnly page (Differs old.now new.now) (P.standing pages.old)
        (P.standing pages.new)) }
    ensures costs { OnOk result
        (Costs (1 + (spread.now.slots_end - spread.now.slots) +
        (spread.now.heap_end - spread.now.heap)) (P.standing pages.old) (P.standing pages.new)) }
    ensures cause { HasCause Never (P.standing pages.old) (P.standing pages.new) result }
    ensures call { PagesCall P.Pages pages.old pages.new result }
    ensures few { (P.standing pages.new).visits ≤ (P.standing pages.old).visits + 1 }
    ensures size_old { length old.now ≡ 4096 }
    ensures size { length new.now ≡ 4096 }
{
    old.byte(0);
    new.byte(0);
    write_lines(pages, page, 0, 1, old, new)?;
    write_lines(pages, page, spread.slots, spread.slots_end, old, new)?;
    write_lines(pages, page, spread.heap, spread.heap_end, old, new)?;
    Ok(())
}
