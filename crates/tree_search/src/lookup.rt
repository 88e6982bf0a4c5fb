//! The value of a key in a tree.
ghost use Rattle.std.specs.Prelude.{◌≡◌, ◌+◌, ◌-◌, ◌*◌, ◌<◌, ◌≤◌, slice_get, Some, None, true, false, IsTrue, OnOk, IfOk, IfErr};
ghost use Rattle.page_search.specs.Causes.{NodeCause, OnPage};
ghost use Rattle.tree_search.specs.Where.{OnRooted, OnTree};
ghost use Rattle.line_pages.specs.PagesCall.{PagesCall};
ghost use Rattle.line_pages.specs.Bytes.{bytes_of};
ghost use Rattle.line_pages.specs.Cost.{Costs};
ghost use Rattle.line_pages.specs.Touch.{begins};
ghost use Rattle.line_pages.specs.Standing.{ReadsPage, KeepsLines, AddsReads};
ghost use Rattle.rows.specs.Rows.{Row, row_get, last_key};
ghost use Rattle.page_format.specs.Node.{leaf_rows, page_level};
ghost use Rattle.page_format.specs.Search.{is_root_span, FailsNode, Keeps, Unchanged};
ghost use Rattle.page_search.specs.Answers.{ShowsDamage};
ghost use Rattle.tree_search.specs.Tree.{tree_rows};
ghost use Rattle.page_alloc.specs.Stops.{IsFault};
ghost use Rattle.page_alloc.specs.Written.{WritesNothing};
ghost use Rattle.tree_search.specs.Way.{IsWay, IsPath, ReadsPath};
ghost use Rattle.tree_search.specs.Record.{HasValue};

use crate::root::{Root, child_expect, root_expect};
use crate::row::{Record, record_at, value_in};
use line_pages::{Pages, Stop};
use page_format::{Expect, Spot, Work};
use page_search::find;
use rows::Value;

/// The record of a key in the tree under a page. The levels below are gone through by recursion.
#[tactic(auto, using(page_alloc::proofs::TouchedLaws::nothing_read, page_alloc::proofs::TouchedLaws::nothing_then))]
fn seek_in<P: Pages>(
    pages: &mut P,
    page: u64,
    expect: &Expect,
    key: u64,
    work: &mut Work,
) -> Result<Option<Record>, Stop>
    requires ready { P.is_ready pages.old }
    requires page { page < (P.standing pages.old).count }
    requires pages { expect.now.pages ≡ (P.standing pages.old).count }
    requires root { is_root_span expect.now.low expect.now.high ≡ true → expect.now.root ≡ true }
    requires above { expect.now.low ≤ key }
    requires within { key ≤ expect.now.high }
    ensures value { OnTree P.Pages pages.old page expect.now
        (IfOk result
        (λ found. HasValue work.new.page found
        (row_get key (tree_rows (P.standing pages.old).current expect.now.level page)))) }
    ensures sound { OnTree P.Pages pages.old page expect.now (IfErr result IsFault) }
    ensures level { IsTrue (P.standing pages.old).told
        → OnOk result (page_level (bytes_of (P.standing pages.old).current page)
        ≡ expect.now.level) }
    ensures cost { OnTree P.Pages pages.old page expect.now
        (OnOk result (Costs (10 * expect.now.level + 39) (P.standing pages.old)
        (P.standing pages.new))) }
    ensures way { IsTrue (P.standing pages.old).told
        → begins (P.standing pages.old).access page false ≡ true
        → OnOk result (AddsReads (IsWay (P.standing pages.old).current page expect.now key)
        (P.standing pages.old) (P.standing pages.new)) }
    ensures touches { OnTree P.Pages pages.old page expect.now
        (OnOk result (AddsReads (IsWay (P.standing pages.old).current page expect.now key)
        (P.standing pages.old) (P.standing pages.new))) }
    ensures nothing { OnOk result (WritesNothing (P.standing pages.old) (P.standing pages.new)) }
    ensures cause { NodeCause P.Pages pages.old pages.new work.new.page result }
    ensures fails { IfErr result (Keeps (FailsNode (P.standing pages.old).count work.new.page)) }
    ensures unchanged { IfErr result (Unchanged (P.standing pages.old) (P.standing pages.new)) }
    ensures call { PagesCall P.Pages pages.old pages.new result }
    ensures keeps { OnOk result (KeepsLines (P.standing pages.old) (P.standing pages.new)) }
    ensures few { (P.standing pages.new).visits
        ≤ (P.standing pages.old).visits + expect.now.level + 1 }
{
    match find(pages, page, expect, key, work)? {
        Spot::Row(at) => record_at(pages, page, expect, at, work),
        Spot::Gap(_) => Ok(None),
        Spot::Child(_, child, low, high) => {
            let lower = child_expect(expect, low, high);
            seek_in(pages, child, &lower, key, work)
        }
    }
}

/// Finds the record of a key; `None` exactly where no row has the key. The record's bytes stand at their places in the buffer of
/// the page last checked then. All else is as with `get`.
pub fn seek<P: Pages>(
    pages: &mut P,
    root: &Root,
    key: u64,
    work: &mut Work,
) -> Result<Option<Record>, Stop>
    requires ready { P.is_ready pages.old }
    requires some { 1 ≤ root.now.page }
    requires page { root.now.page < (P.standing pages.old).count }
    requires some_levels { 1 ≤ root.now.levels }
    requires few_levels { root.now.levels ≤ 4 }
    // the record
    ensures value { OnRooted P.Pages pages.old root.now
        (λ rows used. IfOk result (λ found. HasValue work.new.page found (row_get key rows))) }
    // why it stops
    ensures sound { OnRooted P.Pages pages.old root.now (λ rows used. IfErr result IsFault) }
    ensures nothing { OnOk result (WritesNothing (P.standing pages.old) (P.standing pages.new)) }
    ensures cause { NodeCause P.Pages pages.old pages.new work.new.page result }
    ensures fails { IfErr result (Keeps (FailsNode (P.standing pages.old).count work.new.page)) }
    ensures unchanged { IfErr result (Unchanged (P.standing pages.old) (P.standing pages.new)) }
    // what is read
    ensures touches { OnRooted P.Pages pages.old root.now
        (λ rows used.
        OnOk result (AddsReads (ReadsPath (P.standing pages.old).current root.now key)
        (P.standing pages.old) (P.standing pages.new))) }
    ensures way { IsTrue (P.standing pages.old).told
        → begins (P.standing pages.old).access root.now.page false ≡ true
        → OnOk result
        (AddsReads (IsPath (P.standing pages.old).count (P.standing pages.old).current root.now key)
        (P.standing pages.old) (P.standing pages.new)) }
    ensures visits { IsTrue (P.standing pages.old).told
        → begins (P.standing pages.old).access root.now.page false ≡ true
        → OnOk result
        ((P.standing pages.new).visits ≡ (P.standing pages.old).visits + root.now.levels) }
    ensures cost { OnRooted P.Pages pages.old root.now
        (λ rows used.
        OnOk result (Costs (10 * root.now.levels + 29) (P.standing pages.old)
        (P.standing pages.new))) }
    // what stays
    ensures call { PagesCall P.Pages pages.old pages.new result }
    ensures keeps { OnOk result (KeepsLines (P.standing pages.old) (P.standing pages.new)) }
    ensures few { (P.standing pages.new).visits ≤ (P.standing pages.old).visits + 4 }
{
    let expect = root_expect(root, pages.page_count());
    seek_in(pages, root.page, &expect, key, work)
}

/// The value of a key; `None` exactly where no row has the key. Where it answers `Ok`, it begins one access to each page on
/// the way to the key, if the open access is not one to the root already. `Damaged` comes only where a page on the way fails a
/// check of a node, in a tree in order not at all; its bytes stand in `work`.
pub fn get<P: Pages>(
    pages: &mut P,
    root: &Root,
    key: u64,
    work: &mut Work,
) -> Result<Option<Value>, Stop>
    requires ready { P.is_ready pages.old }
    requires some { 1 ≤ root.now.page }
    requires page { root.now.page < (P.standing pages.old).count }
    requires some_levels { 1 ≤ root.now.levels }
    requires few_levels { root.now.levels ≤ 4 }
    // the value
    ensures value { OnRooted P.Pages pages.old root.now
        (λ rows used. IfOk result (λ value. value ≡ row_get key rows)) }
    // why it stops
    ensures sound { OnRooted P.Pages pages.old root.now (λ rows used. IfErr result IsFault) }
    ensures nothing { OnOk result (WritesNothing (P.standing pages.old) (P.standing pages.new)) }
    ensures cause { NodeCause P.Pages pages.old pages.new work.new.page result }
    ensures fails { IfErr result (Keeps (FailsNode (P.standing pages.old).count work.new.page)) }
    ensures unchanged { IfErr result (Unchanged (P.standing pages.old) (P.standing pages.new)) }
    // what is read
    ensures touches { OnRooted P.Pages pages.old root.now
        (λ rows used.
        OnOk result (AddsReads (ReadsPath (P.standing pages.old).current root.now key)
        (P.standing pages.old) (P.standing pages.new))) }
    ensures way { IsTrue (P.standing pages.old).told
        → begins (P.standing pages.old).access root.now.page false ≡ true
        → OnOk result
        (AddsReads (IsPath (P.standing pages.old).count (P.standing pages.old).current root.now key)
        (P.standing pages.old) (P.standing pages.new)) }
    ensures visits { IsTrue (P.standing pages.old).told
        → begins (P.standing pages.old).access root.now.page false ≡ true
        → OnOk result
        ((P.standing pages.new).visits ≡ (P.standing pages.old).visits + root.now.levels) }
    ensures cost { OnRooted P.Pages pages.old root.now
        (λ rows used.
        OnOk result (Costs (10 * root.now.levels + 29) (P.standing pages.old)
        (P.standing pages.new))) }
    // what stays
    ensures call { PagesCall P.Pages pages.old pages.new result }
    ensures keeps { OnOk result (KeepsLines (P.standing pages.old) (P.standing pages.new)) }
    ensures few { (P.standing pages.new).visits ≤ (P.standing pages.old).visits + 4 }
{
    match seek(pages, root, key, work)? {
        Some(record) => Ok(value_in(&work.page, &record)),
        None => Ok(None),
    }
}
