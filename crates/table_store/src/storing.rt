//! A row that is put into a table.
ghost use Rattle.std.specs.Prelude.{◌≡◌, ◌+◌, ◌*◌, ◌/◌, ◌<◌, ◌≤◌, ◌||◌, nat_lt, ℕ, List, length, Some, false, not, is_some, IsTrue, OnOk, IfOk, IfErr, if◌then◌else◌};
ghost use Rattle.table_store.specs.Causes.{ChangeCause};
ghost use Rattle.bplus_tree.specs.Causes.{TreeCause};
ghost use Rattle.table_catalog.specs.Where.{OnStore};
ghost use Rattle.tree_search.specs.Where.{OnRooted};
ghost use Rattle.line_pages.specs.PagesCall.{PagesCall};
ghost use Rattle.rows.specs.Rows.{row_get, row_put};
ghost use Rattle.page_format.specs.Search.{Keeps};
ghost use Rattle.page_alloc.specs.Stops.{IsFault};
ghost use Rattle.page_alloc.specs.Written.{WritesNothing};
ghost use Rattle.line_pages.specs.Standing.{KeepsLines};
ghost use Rattle.bplus_tree.specs.Damage.{FailsTree};
ghost use Rattle.bplus_tree.specs.Record.{PutsRecord};
ghost use Rattle.table_catalog.specs.Catalog.{entries, tables, place_of, entry_rows, FitsRoot};
ghost use Rattle.table_catalog.specs.Stored.{IsStore};
ghost use Rattle.rows.specs.Tables.{is_known, rows_of};
ghost use Rattle.table_catalog.specs.Lookup.{LooksUp};
ghost use Rattle.table_store.specs.Changed.{root_at, ChangesTable, FailsChange};
ghost use Rattle.table_store.specs.Putting.{stored_of, is_no_table, PutsIfDone, KeepsUnlessDone, RewritesRecord, IsBelowLimit};

use crate::answer::Stored;
use crate::placed::{has_row, update_place};
use line_pages::{Pages, Stop};
use page_format::Work;
use rows::{Limits, Name, Value};
use table_catalog::{TableEntry, find_entry, root_of};

/// Whether a table takes a row with the key: it has fewer rows than it may have, or one with the key, which is looked up only then.
fn has_room<P: Pages>(
    pages: &mut P,
    limits: &Limits,
    place: &TableEntry,
    key: u64,
    work: &mut Work,
) -> Result<bool, Stop>
    requires ready { P.is_ready pages.old }
    requires fits { FitsRoot limits.now (P.standing pages.old).count place.now }
    ensures room { OnRooted P.Pages pages.old (root_at place.now)
        (λ rows used.
        IfOk result (λ room.
        room ≡ (is_some (row_get key rows) || nat_lt place.now.entry.rows limits.now.rows))) }
    ensures once { place.now.entry.rows < limits.now.rows
        → (P.standing pages.new).visits ≤ (P.standing pages.old).visits }
    ensures sound { OnRooted P.Pages pages.old (root_at place.now)
        (λ rows used. IfErr result IsFault) }
    ensures cause { TreeCause P.Pages pages.old pages.new work.new.page result }
    ensures fails { IfErr result (Keeps (FailsTree (P.standing pages.old).count work.new.page)) }
    ensures call { PagesCall P.Pages pages.old pages.new result }
    ensures keeps { OnOk result (KeepsLines (P.standing pages.old) (P.standing pages.new)) }
    ensures nothing { OnOk result (WritesNothing (P.standing pages.old) (P.standing pages.new)) }
    ensures few { (P.standing pages.new).visits ≤ (P.standing pages.old).visits + 4 }
{
    if place.entry.rows < limits.rows {
        return Ok(true);
    }
    has_row(pages, limits, place, key, work)
}

/// How many rows there are after a put, the key being new or not.
fn rows_after(rows: u64, fresh: bool) -> u64
    requires { rows ≤ 1000000 }
    ensures { result ≡ (if fresh then rows + 1 else rows) }
{
    if fresh { rows + 1 } else { rows }
}

/// Puts a row into the tree of a table, which has one row more then where the key is new, and writes its entry unless it stays as
/// it is.
fn store_row<P: Pages>(
    pages: &mut P,
    limits: &Limits,
    place: &TableEntry,
    key: u64,
    value: &Value,
    work: &mut Work,
) -> Result<(), Stop>
    requires ready { P.is_ready pages.old }
    requires fits { FitsRoot limits.now (P.standing pages.old).count place.now }
    requires room { 640 ≤ (P.standing pages.old).room }
    ensures changed { IsTrue (P.standing pages.old).told → (name : List ℕ)
        → IsStore limits.now (P.standing pages.old).count (P.standing pages.old).current
        → place_of name 0 (entries (P.standing pages.old).current) ≡ Some place.now
        → (is_some (row_get key (entry_rows (P.standing pages.old).current place.now.entry)) ≡ false
        → place.now.entry.rows + 1 ≤ limits.now.rows)
        → OnOk result
        (ChangesTable limits.now (P.standing pages.old).count (P.standing pages.old).current
        (P.standing pages.new).current name (row_put key value.now)) }
    ensures again { IsTrue (P.standing pages.old).told
        → OnOk result (PutsRecord (root_at place.now) key (length value.now) (P.standing pages.old)
        (P.standing pages.new)) }
    ensures sound { IsTrue (P.standing pages.old).told → (name : List ℕ)
        → IsStore limits.now (P.standing pages.old).count (P.standing pages.old).current
        → place_of name 0 (entries (P.standing pages.old).current) ≡ Some place.now
        → (is_some (row_get key (entry_rows (P.standing pages.old).current place.now.entry)) ≡ false
        → place.now.entry.rows + 1 ≤ limits.now.rows)
        → 1 + limits.now.tables * (limits.now.rows / 2 + 8) ≤ (P.standing pages.old).count
        → IfErr result IsFault }
    ensures cause { TreeCause P.Pages pages.old pages.new work.new.page result }
    ensures fails { IfErr result (Keeps (FailsTree (P.standing pages.old).count work.new.page)) }
    ensures call { PagesCall P.Pages pages.old pages.new result }
    ensures room { OnOk result ((P.standing pages.old).room ≤ (P.standing pages.new).room + 601) }
    ensures few { (P.standing pages.new).visits ≤ (P.standing pages.old).visits + 59 }
{
    let mut root = root_of(&place.entry);
    let fresh = bplus_tree::put(pages, &mut root, key, value, work)?;
    let rows = rows_after(place.entry.rows, fresh);
    update_place(pages, place, &root, rows)
}

/// Puts a row into a table, if the key is there or the table may have one row more.
fn put_at<P: Pages>(
    pages: &mut P,
    limits: &Limits,
    place: &TableEntry,
    key: u64,
    value: &Value,
    work: &mut Work,
) -> Result<Stored, Stop>
    requires ready { P.is_ready pages.old }
    requires fits { FitsRoot limits.now (P.standing pages.old).count place.now }
    requires room { 640 ≤ (P.standing pages.old).room }
    ensures answer { IsTrue (P.standing pages.old).told → (name : List ℕ)
        → IsStore limits.now (P.standing pages.old).count (P.standing pages.old).current
        → place_of name 0 (entries (P.standing pages.old).current) ≡ Some place.now
        → IfOk result
        (λ answer. answer ≡ stored_of limits.now key
        (rows_of name (tables (P.standing pages.old).current))) }
    ensures changed { IsTrue (P.standing pages.old).told → (name : List ℕ)
        → IsStore limits.now (P.standing pages.old).count (P.standing pages.old).current
        → place_of name 0 (entries (P.standing pages.old).current) ≡ Some place.now
        → IfOk result
        (PutsIfDone limits.now (P.standing pages.old).count (P.standing pages.old).current
        (P.standing pages.new).current name key value.now) }
    ensures named { IfOk result (λ answer. is_no_table answer ≡ false) }
    ensures keeps { IfOk result (KeepsUnlessDone (P.standing pages.old) (P.standing pages.new)) }
    ensures again { IsTrue (P.standing pages.old).told
        → OnOk result (PutsRecord (root_at place.now) key (length value.now) (P.standing pages.old)
        (P.standing pages.new)) }
    ensures sound { IsTrue (P.standing pages.old).told → (name : List ℕ)
        → IsStore limits.now (P.standing pages.old).count (P.standing pages.old).current
        → place_of name 0 (entries (P.standing pages.old).current) ≡ Some place.now
        → 1 + limits.now.tables * (limits.now.rows / 2 + 8) ≤ (P.standing pages.old).count
        → IfErr result IsFault }
    ensures cause { TreeCause P.Pages pages.old pages.new work.new.page result }
    ensures fails { IfErr result (Keeps (FailsTree (P.standing pages.old).count work.new.page)) }
    ensures call { PagesCall P.Pages pages.old pages.new result }
    ensures room { OnOk result ((P.standing pages.old).room ≤ (P.standing pages.new).room + 601) }
    ensures once { place.now.entry.rows < limits.now.rows
        → (P.standing pages.new).visits ≤ (P.standing pages.old).visits + 59 }
    ensures few { (P.standing pages.new).visits ≤ (P.standing pages.old).visits + 63 }
{
    let room = has_room(pages, limits, place, key, work)?;
    if !room {
        return Ok(Stored::TableFull);
    }
    store_row(pages, limits, place, key, value, work)?;
    Ok(Stored::Done)
}

/// Puts a value at a key of a table. `Damaged` comes only where the catalog fails one of the checks 31 to 35, a page of the
/// table's tree fails a check, no page is left (37), or a root of 240 children at level 3 would have to be cut (39), and in a
/// store in order with pages for all its tables not at all.
pub fn put<P: Pages>(
    pages: &mut P,
    limits: &Limits,
    name: &Name,
    key: u64,
    value: &Value,
    work: &mut Work,
) -> Result<Stored, Stop>
    requires ready { P.is_ready pages.old }
    requires room { 640 ≤ (P.standing pages.old).room }
    // the answer, and what changes
    ensures answer { OnStore P.Pages pages.old limits.now
        (IfOk result
        (λ answer. answer ≡ stored_of limits.now key
        (rows_of name.now (tables (P.standing pages.old).current)))) }
    ensures known { IsTrue (P.standing pages.old).told
        → IfOk result
        (λ answer. is_no_table answer
        ≡ not (is_known name.now (tables (P.standing pages.old).current))) }
    ensures changed { OnStore P.Pages pages.old limits.now
        (IfOk result
        (PutsIfDone limits.now (P.standing pages.old).count (P.standing pages.old).current
        (P.standing pages.new).current name.now key value.now)) }
    ensures keeps { IfOk result (KeepsUnlessDone (P.standing pages.old) (P.standing pages.new)) }
    ensures lines { IsTrue (P.standing pages.old).told
        → OnOk result (LooksUp name.now (P.standing pages.old) (P.standing pages.new)) }
    // where the key has a value of this length, lines of its record are written alone, and none of page 0
    ensures again { OnStore P.Pages pages.old limits.now
        (OnOk result (RewritesRecord name.now key (length value.now) (P.standing pages.old)
        (P.standing pages.new))) }
    // why it stops
    ensures sound { OnStore P.Pages pages.old limits.now
        (1 + limits.now.tables * (limits.now.rows / 2 + 8) ≤ (P.standing pages.old).count
        → IfErr result IsFault) }
    ensures cause { ChangeCause P.Pages pages.old pages.new limits.now work.new.page result }
    ensures fails { IfErr result
        (Keeps (FailsChange limits.now (P.standing pages.old).count work.new.page)) }
    // what stays
    ensures call { PagesCall P.Pages pages.old pages.new result }
    ensures room { OnOk result ((P.standing pages.old).room ≤ (P.standing pages.new).room + 601) }
    // where the table has fewer rows than it may have, the key is not looked up before
    ensures once { IsTrue (P.standing pages.old).told
        → IsBelowLimit limits.now name.now (P.standing pages.old).current
        → (P.standing pages.new).visits ≤ (P.standing pages.old).visits + 60 }
    ensures few { (P.standing pages.new).visits ≤ (P.standing pages.old).visits + 64 }
{
    match find_entry(pages, limits, name, work)? {
        None => Ok(Stored::NoTable),
        Some(place) => put_at(pages, limits, &place, key, value, work),
    }
}
