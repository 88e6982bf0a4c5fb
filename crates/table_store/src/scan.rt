//! The next row of a table.
ghost use Rattle.std.specs.Prelude.{◌≡◌, ◌+◌, ◌∷◌, ◌++◌, ◌<◌, ◌≤◌, List, None, Some, false, not, IsTrue, OnOk, IfOk, IfErr};
ghost use Rattle.page_search.specs.Causes.{NodeCause};
ghost use Rattle.table_store.specs.Causes.{LookupCause};
ghost use Rattle.table_catalog.specs.Where.{OnStore};
ghost use Rattle.tree_search.specs.Where.{OnRooted};
ghost use Rattle.line_pages.specs.PagesCall.{PagesCall};
ghost use Rattle.line_pages.specs.Touch.{Touch, touch_of};
ghost use Rattle.line_pages.specs.Standing.{KeepsLines, AddsReads};
ghost use Rattle.rows.specs.Rows.{Row, row_next};
ghost use Rattle.page_format.specs.Search.{FailsNode, Keeps};
ghost use Rattle.tree_search.specs.Way.{AreReadsIn};
ghost use Rattle.page_alloc.specs.Stops.{IsFault};
ghost use Rattle.table_catalog.specs.Catalog.{tables};
ghost use Rattle.table_catalog.specs.Stored.{IsStore};
ghost use Rattle.rows.specs.Tables.{rows_of, is_known};
ghost use Rattle.table_catalog.specs.Lookup.{LooksUp};
ghost use Rattle.table_store.specs.Getting.{FailsLookup};
ghost use Rattle.table_store.specs.Scanning.{row_up_to, next_of, is_no_table, IsScan};

use crate::answer::Next;
use line_pages::{Pages, Stop};
use page_format::Work;
use rows::{Limits, Name};
use table_catalog::{find_entry, root_of};
use tree_search::{Root, next_from};

/// The first row from a key on in the tree of a table, unless its key is above `to`.
fn next_in<P: Pages>(
    pages: &mut P,
    root: &Root,
    from: u64,
    to: u64,
    work: &mut Work,
) -> Result<Next, Stop>
    requires ready { P.is_ready pages.old }
    requires some { 1 ≤ root.now.page }
    requires page { root.now.page < (P.standing pages.old).count }
    requires some_levels { 1 ≤ root.now.levels }
    requires few_levels { root.now.levels ≤ 4 }
    ensures row { OnRooted P.Pages pages.old root.now
        (λ rows used. IfOk result (λ next. next ≡ row_up_to to (row_next from rows))) }
    ensures touches { OnRooted P.Pages pages.old root.now
        (λ rows used.
        OnOk result (AddsReads (AreReadsIn used) (P.standing pages.old) (P.standing pages.new))) }
    ensures named { IfOk result (λ next. is_no_table next ≡ false) }
    ensures sound { OnRooted P.Pages pages.old root.now (λ rows used. IfErr result IsFault) }
    ensures cause { NodeCause P.Pages pages.old pages.new work.new.page result }
    ensures fails { IfErr result (Keeps (FailsNode (P.standing pages.old).count work.new.page)) }
    ensures call { PagesCall P.Pages pages.old pages.new result }
    ensures keeps { OnOk result (KeepsLines (P.standing pages.old) (P.standing pages.new)) }
    ensures few { (P.standing pages.new).visits ≤ (P.standing pages.old).visits + 22 }
{
    match next_from(pages, root, from, work)? {
        Some((key, value)) => {
            if key <= to {
                Ok(Next::Row(key, value))
            } else {
                Ok(Next::End)
            }
        }
        None => Ok(Next::End),
    }
}

/// The row of a table with the least key not below `from` and not above `to`. `Damaged` comes only where the catalog fails one
/// of the checks 31 to 35, or a page of the table's tree fails a check, and in a store in order not at all.
pub fn scan_next<P: Pages>(
    pages: &mut P,
    limits: &Limits,
    name: &Name,
    from: u64,
    to: u64,
    work: &mut Work,
) -> Result<Next, Stop>
    requires ready { P.is_ready pages.old }
    // the answer
    ensures row { OnStore P.Pages pages.old limits.now
        (IfOk result
        (λ next. next ≡ next_of from to
        (rows_of name.now (tables (P.standing pages.old).current)))) }
    ensures known { IsTrue (P.standing pages.old).told
        → IfOk result
        (λ next. is_no_table next
        ≡ not (is_known name.now (tables (P.standing pages.old).current))) }
    // why it stops
    ensures sound { OnStore P.Pages pages.old limits.now (IfErr result IsFault) }
    ensures cause { LookupCause P.Pages pages.old pages.new limits.now work.new.page result }
    ensures fails { IfErr result
        (Keeps (FailsLookup limits.now (P.standing pages.old).count work.new.page)) }
    // what is read, and what stays
    ensures touches { OnStore P.Pages pages.old limits.now
        (OnOk result (AddsReads (IsScan (P.standing pages.old).current name.now)
        (P.standing pages.old) (P.standing pages.new))) }
    ensures first { IsTrue (P.standing pages.old).told
        → OnOk result ((rest : List Touch)
        × ((P.standing pages.new).touches ≡ (P.standing pages.old).touches ++ touch_of
        (P.standing pages.old).access 0 0 false ∷ rest)) }
    ensures lines { IsTrue (P.standing pages.old).told
        → OnOk result (LooksUp name.now (P.standing pages.old) (P.standing pages.new)) }
    ensures keeps { OnOk result (KeepsLines (P.standing pages.old) (P.standing pages.new)) }
    ensures call { PagesCall P.Pages pages.old pages.new result }
    ensures few { (P.standing pages.new).visits ≤ (P.standing pages.old).visits + 23 }
{
    match find_entry(pages, limits, name, work)? {
        None => Ok(Next::NoTable),
        Some(place) => {
            let root = root_of(&place.entry);
            next_in(pages, &root, from, to, work)
        }
    }
}
