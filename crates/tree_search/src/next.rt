//! The first row from a key on.
ghost use Rattle.std.specs.Prelude.{◌≡◌, ◌+◌, ◌-◌, ◌*◌, ◌<◌, ◌≤◌, length, slice_get, drop, Some, None, Option, true, false, IsTrue, OnOk, IfOk, IfErr};
ghost use Rattle.page_search.specs.Causes.{NodeCause, OnPage};
ghost use Rattle.tree_search.specs.Where.{OnRooted, OnTree};
ghost use Rattle.line_pages.specs.PagesCall.{PagesCall};
ghost use Rattle.line_pages.specs.Bytes.{bytes_of};
ghost use Rattle.line_pages.specs.Cost.{Costs};
ghost use Rattle.line_pages.specs.Standing.{ReadsPage, KeepsLines, AddsReads};
ghost use Rattle.rows.specs.Rows.{Row, row_next, last_key};
ghost use Rattle.page_format.specs.Node.{leaf_rows, children as children_of};
ghost use Rattle.page_format.specs.Search.{is_root_span, FailsNode, Keeps, Unchanged};
ghost use Rattle.page_search.specs.Answers.{ShowsDamage};
ghost use Rattle.tree_search.specs.Tree.{tree_rows, tree_pages};
ghost use Rattle.tree_search.specs.Way.{AreReadsIn};
ghost use Rattle.page_alloc.specs.Stops.{IsFault};
ghost use Rattle.tree_search.specs.Next.{Reaches, most_visits, lines_for, next_lines, first_lines};

use crate::root::{Root, child_expect, root_expect};
use crate::row::row_at;
use line_pages::{Pages, Stop, read_word};
use page_format::{Expect, Spot, Work};
use page_search::find;
use rows::Value;

/// The row at a place of a leaf, whose access is open, if it has so many.
fn row_from<P: Pages>(
    pages: &mut P,
    page: u64,
    expect: &Expect,
    at: usize,
    work: &mut Work,
) -> Result<Option<(u64, Value)>, Stop>
    requires ready { P.is_ready pages.old }
    requires page { page < (P.standing pages.old).count }
    requires pages { expect.now.pages ≡ (P.standing pages.old).count }
    requires root { is_root_span expect.now.low expect.now.high ≡ true → expect.now.root ≡ true }
    requires level { expect.now.level ≡ 0 }
    requires open { (P.standing pages.old).access ≡ Some (page, false) }
    ensures row { OnPage P.Pages pages.old page expect.now
        (IfOk result
        (λ row. row ≡ slice_get (leaf_rows (bytes_of (P.standing pages.old).current page)) at)) }
    ensures damage { IsTrue (P.standing pages.old).told
        → IfErr result
        (ShowsDamage page expect.now (bytes_of (P.standing pages.old).current page)) }
    ensures cause { NodeCause P.Pages pages.old pages.new work.new.page result }
    ensures fails { IfErr result (Keeps (FailsNode (P.standing pages.old).count work.new.page)) }
    ensures unchanged { IfErr result (Unchanged (P.standing pages.old) (P.standing pages.new)) }
    ensures call { PagesCall P.Pages pages.old pages.new result }
    ensures reads { OnOk result (ReadsPage page (P.standing pages.old) (P.standing pages.new)) }
    ensures cost { OnPage P.Pages pages.old page expect.now
        (IfOk result (λ row. Costs (lines_for 1 12 row) (P.standing pages.old)
        (P.standing pages.new))) }
    ensures again { (P.standing pages.new).visits ≤ (P.standing pages.old).visits }
{
    let count = read_word(pages, page, 8)?;
    if at as u64 >= count {
        return Ok(None);
    }
    row_at(pages, page, expect, at, work)
}

/// The first row from a key on in the tree under a page.
#[cycle(next_in)]
fn next_in<P: Pages>(
    pages: &mut P,
    page: u64,
    expect: &Expect,
    from: u64,
    work: &mut Work,
) -> Result<Option<(u64, Value)>, Stop>
    requires ready { P.is_ready pages.old }
    requires page { page < (P.standing pages.old).count }
    requires pages { expect.now.pages ≡ (P.standing pages.old).count }
    requires root { is_root_span expect.now.low expect.now.high ≡ true → expect.now.root ≡ true }
    requires above { expect.now.low ≤ from }
    requires within { from ≤ expect.now.high }
    requires few_levels { expect.now.level ≤ 3 }
    ensures row { OnTree P.Pages pages.old page expect.now
        (IfOk result
        (λ row. row ≡ row_next from
        (tree_rows (P.standing pages.old).current expect.now.level page))) }
    ensures sound { OnTree P.Pages pages.old page expect.now (IfErr result IsFault) }
    ensures touches { OnTree P.Pages pages.old page expect.now
        (OnOk result
        (AddsReads (AreReadsIn (tree_pages (P.standing pages.old).current expect.now.level page))
        (P.standing pages.old) (P.standing pages.new))) }
    ensures cost { OnTree P.Pages pages.old page expect.now
        (IfOk result (λ row. Costs (next_lines expect.now.level row) (P.standing pages.old)
        (P.standing pages.new))) }
    ensures first { OnTree P.Pages pages.old page expect.now (from ≡ expect.now.low
        → OnOk result (Costs (first_lines expect.now.level) (P.standing pages.old)
        (P.standing pages.new))) }
    ensures cause { NodeCause P.Pages pages.old pages.new work.new.page result }
    ensures fails { IfErr result (Keeps (FailsNode (P.standing pages.old).count work.new.page)) }
    ensures unchanged { IfErr result (Unchanged (P.standing pages.old) (P.standing pages.new)) }
    ensures call { PagesCall P.Pages pages.old pages.new result }
    ensures keeps { OnOk result (KeepsLines (P.standing pages.old) (P.standing pages.new)) }
    ensures few { (P.standing pages.new).visits + 2
        ≤ (P.standing pages.old).visits + most_visits expect.now.level }
{
    match find(pages, page, expect, from, work)? {
        Spot::Row(at) => row_from(pages, page, expect, at, work),
        Spot::Gap(at) => row_from(pages, page, expect, at, work),
        Spot::Child(_, child, low, high) => {
            let lower = child_expect(expect, low, high);
            match next_in(pages, child, &lower, from, work)? {
                Some(row) => Ok(Some(row)),
                None => next_after(pages, page, expect, high, work),
            }
        }
    }
}

/// The first row behind those of a child that reaches up to a key.
#[cycle(next_in)]
fn next_after<P: Pages>(
    pages: &mut P,
    page: u64,
    expect: &Expect,
    high: u64,
    work: &mut Work,
) -> Result<Option<(u64, Value)>, Stop>
    requires ready { P.is_ready pages.old }
    requires page { page < (P.standing pages.old).count }
    requires pages { expect.now.pages ≡ (P.standing pages.old).count }
    requires root { is_root_span expect.now.low expect.now.high ≡ true → expect.now.root ≡ true }
    requires level { 1 ≤ expect.now.level }
    requires few_levels { expect.now.level ≤ 3 }
    requires above { expect.now.low ≤ high }
    requires within { high ≤ expect.now.high }
    ensures row { OnTree P.Pages pages.old page expect.now
        (Reaches (children_of (bytes_of (P.standing pages.old).current page)) expect.now.high high
        → IfOk result
        (λ row. row ≡ row_next (high + 1)
        (tree_rows (P.standing pages.old).current expect.now.level page))) }
    ensures sound { OnTree P.Pages pages.old page expect.now (IfErr result IsFault) }
    ensures touches { OnTree P.Pages pages.old page expect.now
        (OnOk result
        (AddsReads (AreReadsIn (tree_pages (P.standing pages.old).current expect.now.level page))
        (P.standing pages.old) (P.standing pages.new))) }
    ensures cost { OnTree P.Pages pages.old page expect.now
        (Reaches (children_of (bytes_of (P.standing pages.old).current page)) expect.now.high high
        → IfOk result (λ row. Costs (lines_for 0 (first_lines expect.now.level) row)
        (P.standing pages.old) (P.standing pages.new))) }
    ensures cause { NodeCause P.Pages pages.old pages.new work.new.page result }
    ensures fails { IfErr result (Keeps (FailsNode (P.standing pages.old).count work.new.page)) }
    ensures unchanged { IfErr result (Unchanged (P.standing pages.old) (P.standing pages.new)) }
    ensures call { PagesCall P.Pages pages.old pages.new result }
    ensures keeps { OnOk result (KeepsLines (P.standing pages.old) (P.standing pages.new)) }
    ensures few { (P.standing pages.new).visits + 1 ≤ (P.standing pages.old).visits + most_visits
        (expect.now.level - 1) }
{
    if high >= expect.high {
        return Ok(None);
    }
    match find(pages, page, expect, high + 1, work)? {
        Spot::Child(_, child, low, top) => {
            let lower = child_expect(expect, low, top);
            next_in(pages, child, &lower, high + 1, work)
        }
        _ => Ok(None),
    }
}

/// The row with the least key not below a key; `None` exactly where there is none. Where it answers `Ok`, it has read lines
/// of pages of the tree alone, at most 20 for each level and 49. `Damaged` comes only where a page on the way fails a check of
/// a node, in a tree in order not at all; its bytes stand in `work`.
pub fn next_from<P: Pages>(
    pages: &mut P,
    root: &Root,
    from: u64,
    work: &mut Work,
) -> Result<Option<(u64, Value)>, Stop>
    requires ready { P.is_ready pages.old }
    requires some { 1 ≤ root.now.page }
    requires page { root.now.page < (P.standing pages.old).count }
    requires some_levels { 1 ≤ root.now.levels }
    requires few_levels { root.now.levels ≤ 4 }
    // the row
    ensures row { OnRooted P.Pages pages.old root.now
        (λ rows used. IfOk result (λ row. row ≡ row_next from rows)) }
    // what is read
    ensures touches { OnRooted P.Pages pages.old root.now
        (λ rows used.
        OnOk result (AddsReads (AreReadsIn used) (P.standing pages.old) (P.standing pages.new))) }
    ensures cost { OnRooted P.Pages pages.old root.now
        (λ rows used.
        OnOk result (Costs (20 * root.now.levels + 49) (P.standing pages.old)
        (P.standing pages.new))) }
    // why it stops
    ensures sound { OnRooted P.Pages pages.old root.now (λ rows used. IfErr result IsFault) }
    ensures cause { NodeCause P.Pages pages.old pages.new work.new.page result }
    ensures fails { IfErr result (Keeps (FailsNode (P.standing pages.old).count work.new.page)) }
    ensures unchanged { IfErr result (Unchanged (P.standing pages.old) (P.standing pages.new)) }
    // what stays
    ensures call { PagesCall P.Pages pages.old pages.new result }
    ensures keeps { OnOk result (KeepsLines (P.standing pages.old) (P.standing pages.new)) }
    ensures few { (P.standing pages.new).visits ≤ (P.standing pages.old).visits + 22 }
{
    let expect = root_expect(root, pages.page_count());
    next_in(pages, root.page, &expect, from, work)
}
