//! A row that is taken out of a table.
ghost use Rattle.std.specs.Prelude.{◌≡◌, ◌+◌, ◌-◌, ◌≤◌, ℕ, List, Some, true, false, not, is_some, IsTrue, OnOk, IfOk, IfErr};
ghost use Rattle.table_store.specs.Causes.{ChangeCause};
ghost use Rattle.bplus_tree.specs.Causes.{TreeCause};
ghost use Rattle.table_catalog.specs.Where.{OnStore};
ghost use Rattle.line_pages.specs.PagesCall.{PagesCall};
ghost use Rattle.rows.specs.Rows.{row_get, row_delete};
ghost use Rattle.page_format.specs.Search.{Keeps};
ghost use Rattle.page_alloc.specs.Stops.{IsFault};
ghost use Rattle.bplus_tree.specs.Damage.{FailsTree};
ghost use Rattle.table_catalog.specs.declared.entry.TableEntry.{TableEntry};
ghost use Rattle.table_catalog.specs.Catalog.{entry_in as entry_of_line, entries, tables, place_of, entry_rows, FitsRoot};
ghost use Rattle.table_catalog.specs.Stored.{IsStore};
ghost use Rattle.rows.specs.Tables.{is_known, rows_of};
ghost use Rattle.table_catalog.specs.Lookup.{LooksUp};
ghost use Rattle.table_store.specs.Changed.{ChangesTable, FailsChange};
ghost use Rattle.table_store.specs.Deleting.{deleted_of, is_no_table, DeletesIfDone, CountsIfDone, KeepsUnlessDone};

use crate::answer::Deleted;
use crate::placed::{has_row, write_place};
use bplus_tree::delete_row;
use line_pages::{Pages, Stop};
use page_format::Work;
use rows::{Limits, Name};
use table_catalog::{TableEntry, find_entry, root_of};

/// Takes a row out of the tree of a table, and writes its entry with one row less. A number of rows that is 0 stays 0.
fn remove_row<P: Pages>(
    pages: &mut P,
    limits: &Limits,
    place: &TableEntry,
    key: u64,
    work: &mut Work,
) -> Result<(), Stop>
    requires ready { P.is_ready pages.old }
    requires fits { FitsRoot limits.now (P.standing pages.old).count place.now }
    requires room { 640 ≤ (P.standing pages.old).room }
    ensures changed { IsTrue (P.standing pages.old).told → (name : List ℕ)
        → IsStore limits.now (P.standing pages.old).count (P.standing pages.old).current
        → place_of name 0 (entries (P.standing pages.old).current) ≡ Some place.now
        → is_some (row_get key (entry_rows (P.standing pages.old).current place.now.entry)) ≡ true
        → OnOk result
        (ChangesTable limits.now (P.standing pages.old).count (P.standing pages.old).current
        (P.standing pages.new).current name (row_delete key)) }
    ensures counted { IsTrue (P.standing pages.old).told
        → OnOk result ((entry_of_line ((P.standing pages.new).current 0 (2 + place.now.at))).rows
        ≡ place.now.entry.rows - 1) }
    ensures sound { IsTrue (P.standing pages.old).told → (name : List ℕ)
        → IsStore limits.now (P.standing pages.old).count (P.standing pages.old).current
        → place_of name 0 (entries (P.standing pages.old).current) ≡ Some place.now
        → IfErr result IsFault }
    ensures cause { TreeCause P.Pages pages.old pages.new work.new.page result }
    ensures fails { IfErr result (Keeps (FailsTree (P.standing pages.old).count work.new.page)) }
    ensures call { PagesCall P.Pages pages.old pages.new result }
    ensures room { OnOk result ((P.standing pages.old).room ≤ (P.standing pages.new).room + 601) }
    ensures few { (P.standing pages.new).visits ≤ (P.standing pages.old).visits + 53 }
{
    let mut root = root_of(&place.entry);
    delete_row(pages, &mut root, key, work)?;
    let rows = place.entry.rows.saturating_sub(1);
    write_place(pages, place, &root, rows)
}

/// Takes a row out of a table, if the key is there.
fn delete_at<P: Pages>(
    pages: &mut P,
    limits: &Limits,
    place: &TableEntry,
    key: u64,
    work: &mut Work,
) -> Result<Deleted, Stop>
    requires ready { P.is_ready pages.old }
    requires fits { FitsRoot limits.now (P.standing pages.old).count place.now }
    requires room { 640 ≤ (P.standing pages.old).room }
    ensures answer { IsTrue (P.standing pages.old).told → (name : List ℕ)
        → IsStore limits.now (P.standing pages.old).count (P.standing pages.old).current
        → place_of name 0 (entries (P.standing pages.old).current) ≡ Some place.now
        → IfOk result
        (λ answer. answer ≡ deleted_of key (rows_of name (tables (P.standing pages.old).current))) }
    ensures changed { IsTrue (P.standing pages.old).told → (name : List ℕ)
        → IsStore limits.now (P.standing pages.old).count (P.standing pages.old).current
        → place_of name 0 (entries (P.standing pages.old).current) ≡ Some place.now
        → IfOk result
        (DeletesIfDone limits.now (P.standing pages.old).count (P.standing pages.old).current
        (P.standing pages.new).current name key) }
    ensures counted { IsTrue (P.standing pages.old).told
        → IfOk result (CountsIfDone (P.standing pages.new).current place.now) }
    ensures named { IfOk result (λ answer. is_no_table answer ≡ false) }
    ensures keeps { IfOk result (KeepsUnlessDone (P.standing pages.old) (P.standing pages.new)) }
    ensures sound { IsTrue (P.standing pages.old).told → (name : List ℕ)
        → IsStore limits.now (P.standing pages.old).count (P.standing pages.old).current
        → place_of name 0 (entries (P.standing pages.old).current) ≡ Some place.now
        → IfErr result IsFault }
    ensures cause { TreeCause P.Pages pages.old pages.new work.new.page result }
    ensures fails { IfErr result (Keeps (FailsTree (P.standing pages.old).count work.new.page)) }
    ensures call { PagesCall P.Pages pages.old pages.new result }
    ensures room { OnOk result ((P.standing pages.old).room ≤ (P.standing pages.new).room + 601) }
    ensures few { (P.standing pages.new).visits ≤ (P.standing pages.old).visits + 57 }
{
    let found = has_row(pages, limits, place, key, work)?;
    if !found {
        return Ok(Deleted::Absent);
    }
    remove_row(pages, limits, place, key, work)?;
    Ok(Deleted::Done)
}

/// Takes the row with a key out of a table. `Damaged` comes only where the catalog fails one of the checks 31 to 35, or a page
/// of the table's tree fails a check, and in a store in order not at all.
pub fn delete<P: Pages>(
    pages: &mut P,
    limits: &Limits,
    name: &Name,
    key: u64,
    work: &mut Work,
) -> Result<Deleted, Stop>
    requires ready { P.is_ready pages.old }
    requires room { 640 ≤ (P.standing pages.old).room }
    // the answer, and what changes
    ensures answer { OnStore P.Pages pages.old limits.now
        (IfOk result
        (λ answer. answer ≡ deleted_of key
        (rows_of name.now (tables (P.standing pages.old).current)))) }
    ensures known { IsTrue (P.standing pages.old).told
        → IfOk result
        (λ answer. is_no_table answer
        ≡ not (is_known name.now (tables (P.standing pages.old).current))) }
    ensures changed { OnStore P.Pages pages.old limits.now
        (IfOk result
        (DeletesIfDone limits.now (P.standing pages.old).count (P.standing pages.old).current
        (P.standing pages.new).current name.now key)) }
    ensures counted { IsTrue (P.standing pages.old).told
        → IfOk result (λ answer. (place : TableEntry)
        → place_of name.now 0 (entries (P.standing pages.old).current) ≡ Some place
        → CountsIfDone (P.standing pages.new).current place answer) }
    ensures keeps { IfOk result (KeepsUnlessDone (P.standing pages.old) (P.standing pages.new)) }
    ensures lines { IsTrue (P.standing pages.old).told
        → OnOk result (LooksUp name.now (P.standing pages.old) (P.standing pages.new)) }
    // why it stops
    ensures sound { OnStore P.Pages pages.old limits.now (IfErr result IsFault) }
    ensures cause { ChangeCause P.Pages pages.old pages.new limits.now work.new.page result }
    ensures fails { IfErr result
        (Keeps (FailsChange limits.now (P.standing pages.old).count work.new.page)) }
    // what stays
    ensures call { PagesCall P.Pages pages.old pages.new result }
    ensures room { OnOk result ((P.standing pages.old).room ≤ (P.standing pages.new).room + 601) }
    ensures few { (P.standing pages.new).visits ≤ (P.standing pages.old).visits + 58 }
{
    match find_entry(pages, limits, name, work)? {
        None => Ok(Deleted::NoTable),
        Some(place) => delete_at(pages, limits, &place, key, work),
    }
}
