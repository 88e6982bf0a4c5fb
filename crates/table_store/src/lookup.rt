//! The value of a key in a table.
ghost use Rattle.std.specs.Prelude.{◌≡◌, ◌+◌, ◌∷◌, ◌++◌, ◌<◌, ◌≤◌, List, Some, None, true, false, not, IsTrue, OnOk, IfOk, IfErr};
ghost use Rattle.page_search.specs.Causes.{NodeCause};
ghost use Rattle.table_store.specs.Causes.{LookupCause};
ghost use Rattle.table_catalog.specs.Where.{OnStore};
ghost use Rattle.tree_search.specs.Where.{OnRooted};
ghost use Rattle.line_pages.specs.PagesCall.{PagesCall};
ghost use Rattle.line_pages.specs.Touch.{Touch, begins, touch_of};
ghost use Rattle.line_pages.specs.Standing.{KeepsLines, AddsReads};
ghost use Rattle.rows.specs.Rows.{row_get};
ghost use Rattle.page_format.specs.Search.{FailsNode, Keeps};
ghost use Rattle.page_alloc.specs.Stops.{IsFault};
ghost use Rattle.tree_search.specs.Way.{IsPath, ReadsPath};
ghost use Rattle.tree_search.specs.Record.{held_value};
ghost use Rattle.table_catalog.specs.Catalog.{entries, tables, place_of};
ghost use Rattle.rows.specs.Tables.{rows_of, is_known};
ghost use Rattle.table_catalog.specs.Lookup.{LooksUp};
ghost use Rattle.table_store.specs.Getting.{is_no_table, found_value, got_of, place_levels, IsLookup, FailsLookup, ReadsTable};

use crate::answer::Got;
use line_pages::{Pages, Stop};
use page_format::Work;
use rows::{Limits, Name};
use ssd_model::PageBuf;
use table_catalog::{find_entry, root_of};
use tree_search::{Record, Root, seek, value_in};

/// The answer with the value of a record in a page.
fn found_in(page: &PageBuf, record: &Record) -> Got
    ensures value { result ≡ found_value (held_value page.now (Some record.now)) }
    ensures named { is_no_table result ≡ false }
{
    match value_in(page, record) {
        Some(value) => Got::Found(value),
        None => Got::Absent,
    }
}

/// The value of a key in the tree of a table.
fn get_in<P: Pages>(pages: &mut P, root: &Root, key: u64, work: &mut Work) -> Result<Got, Stop>
    requires ready { P.is_ready pages.old }
    requires some { 1 ≤ root.now.page }
    requires page { root.now.page < (P.standing pages.old).count }
    requires some_levels { 1 ≤ root.now.levels }
    requires few_levels { root.now.levels ≤ 4 }
    ensures value { OnRooted P.Pages pages.old root.now
        (λ rows used. IfOk result (λ got. got ≡ found_value (row_get key rows))) }
    ensures named { IfOk result (λ got. is_no_table got ≡ false) }
    ensures sound { OnRooted P.Pages pages.old root.now (λ rows used. IfErr result IsFault) }
    ensures cause { NodeCause P.Pages pages.old pages.new work.new.page result }
    ensures fails { IfErr result (Keeps (FailsNode (P.standing pages.old).count work.new.page)) }
    ensures touches { OnRooted P.Pages pages.old root.now
        (λ rows used.
        OnOk result (AddsReads (ReadsPath (P.standing pages.old).current root.now key)
        (P.standing pages.old) (P.standing pages.new))) }
    ensures way { IsTrue (P.standing pages.old).told
        → begins (P.standing pages.old).access root.now.page false ≡ true
        → OnOk result
        (AddsReads (IsPath (P.standing pages.old).count (P.standing pages.old).current root.now key)
        (P.standing pages.old) (P.standing pages.new)) }
    ensures visits { IsTrue (P.standing pages.old).told
        → begins (P.standing pages.old).access root.now.page false ≡ true
        → OnOk result
        ((P.standing pages.new).visits ≡ (P.standing pages.old).visits + root.now.levels) }
    ensures call { PagesCall P.Pages pages.old pages.new result }
    ensures keeps { OnOk result (KeepsLines (P.standing pages.old) (P.standing pages.new)) }
    ensures few { (P.standing pages.new).visits ≤ (P.standing pages.old).visits + 4 }
{
    match seek(pages, root, key, work)? {
        Some(record) => Ok(found_in(&work.page, &record)),
        None => Ok(Got::Absent),
    }
}

/// The value of a key in a table. `Damaged` comes only where the catalog fails one of the checks 31 to 35, or a page of the
/// table's tree fails a check.
pub fn get<P: Pages>(
    pages: &mut P,
    limits: &Limits,
    name: &Name,
    key: u64,
    work: &mut Work,
) -> Result<Got, Stop>
    requires ready { P.is_ready pages.old }
    // the answer
    ensures value { OnStore P.Pages pages.old limits.now
        (IfOk result
        (λ got. got ≡ got_of key (rows_of name.now (tables (P.standing pages.old).current)))) }
    ensures known { IsTrue (P.standing pages.old).told
        → IfOk result
        (λ got. is_no_table got ≡ not (is_known name.now (tables (P.standing pages.old).current))) }
    // why it stops
    ensures sound { OnStore P.Pages pages.old limits.now (IfErr result IsFault) }
    ensures cause { LookupCause P.Pages pages.old pages.new limits.now work.new.page result }
    ensures fails { IfErr result
        (Keeps (FailsLookup limits.now (P.standing pages.old).count work.new.page)) }
    // what is read
    ensures touches { OnStore P.Pages pages.old limits.now
        (OnOk result (AddsReads (ReadsTable (P.standing pages.old).current name.now key)
        (P.standing pages.old) (P.standing pages.new))) }
    ensures way { IsTrue (P.standing pages.old).told → (P.standing pages.old).access ≡ None
        → OnOk result
        (AddsReads (IsLookup limits.now (P.standing pages.old).count
        (P.standing pages.old).current name.now key) (P.standing pages.old)
        (P.standing pages.new)) }
    ensures visits { IsTrue (P.standing pages.old).told → (P.standing pages.old).access ≡ None
        → OnOk result
        ((P.standing pages.new).visits ≡ (P.standing pages.old).visits + 1 + place_levels
        (place_of name.now 0 (entries (P.standing pages.old).current))) }
    ensures first { IsTrue (P.standing pages.old).told
        → OnOk result ((rest : List Touch)
        × ((P.standing pages.new).touches ≡ (P.standing pages.old).touches ++ touch_of
        (P.standing pages.old).access 0 0 false ∷ rest)) }
    ensures lines { IsTrue (P.standing pages.old).told
        → OnOk result (LooksUp name.now (P.standing pages.old) (P.standing pages.new)) }
    // what stays
    ensures keeps { OnOk result (KeepsLines (P.standing pages.old) (P.standing pages.new)) }
    ensures call { PagesCall P.Pages pages.old pages.new result }
    ensures few { (P.standing pages.new).visits ≤ (P.standing pages.old).visits + 5 }
{
    match find_entry(pages, limits, name, work)? {
        None => Ok(Got::NoTable),
        Some(place) => {
            let root = root_of(&place.entry);
            get_in(pages, &root, key, work)
        }
    }
}
