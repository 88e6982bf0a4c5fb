//! A table at a known place of the catalog: the row of a key, and its entry written anew.
ghost use Rattle.std.specs.Prelude.{◌≡◌, ◌+◌, ◌<◌, ◌≤◌, true, is_some, IsTrue, OnOk, IfOk, IfErr};
ghost use Rattle.bplus_tree.specs.Causes.{TreeCause};
ghost use Rattle.tree_search.specs.Where.{OnRooted};
ghost use Rattle.tree_search.specs.Record.{HasValue};
ghost use Rattle.line_pages.specs.PagesCall.{PagesCall};
ghost use Rattle.line_pages.specs.Standing.{HasCause, KeepsLines, Never};
ghost use Rattle.rows.specs.Rows.{row_get};
ghost use Rattle.page_format.specs.Search.{Keeps};
ghost use Rattle.page_alloc.specs.Stops.{IsFault};
ghost use Rattle.page_alloc.specs.Written.{WritesNothing};
ghost use Rattle.bplus_tree.specs.Damage.{FailsTree};
ghost use Rattle.table_catalog.specs.Catalog.{entry_in as entry_of_line, FitsRoot};
ghost use Rattle.table_store.specs.Changed.{root_at, stays_as, Enters};

use line_pages::{Pages, Stop};
use page_format::Work;
use rows::Limits;
use table_catalog::{Entry, TableEntry, line_of, root_of};
use tree_search::{Record, Root, seek};

/// Finds the record of a key of a table, with damage in the words of the calls that change a tree.
fn seek_at<P: Pages>(
    pages: &mut P,
    _limits: &Limits,
    place: &TableEntry,
    key: u64,
    work: &mut Work,
) -> Result<Option<Record>, Stop>
    requires ready { P.is_ready pages.old }
    requires fits { FitsRoot _limits.now (P.standing pages.old).count place.now }
    ensures value { OnRooted P.Pages pages.old (root_at place.now)
        (λ rows used. IfOk result (λ found. HasValue work.new.page found (row_get key rows))) }
    ensures sound { OnRooted P.Pages pages.old (root_at place.now)
        (λ rows used. IfErr result IsFault) }
    ensures cause { TreeCause P.Pages pages.old pages.new work.new.page result }
    ensures fails { IfErr result (Keeps (FailsTree (P.standing pages.old).count work.new.page)) }
    ensures call { PagesCall P.Pages pages.old pages.new result }
    ensures keeps { OnOk result (KeepsLines (P.standing pages.old) (P.standing pages.new)) }
    ensures nothing { OnOk result (WritesNothing (P.standing pages.old) (P.standing pages.new)) }
    ensures few { (P.standing pages.new).visits ≤ (P.standing pages.old).visits + 4 }
{
    let root = root_of(&place.entry);
    seek(pages, &root, key, work)
}

/// Whether a table has a row with the key.
pub(crate) fn has_row<P: Pages>(
    pages: &mut P,
    _limits: &Limits,
    place: &TableEntry,
    key: u64,
    work: &mut Work,
) -> Result<bool, Stop>
    requires ready { P.is_ready pages.old }
    requires fits { FitsRoot _limits.now (P.standing pages.old).count place.now }
    ensures found { OnRooted P.Pages pages.old (root_at place.now)
        (λ rows used. IfOk result (λ found. found ≡ is_some (row_get key rows))) }
    ensures sound { OnRooted P.Pages pages.old (root_at place.now)
        (λ rows used. IfErr result IsFault) }
    ensures cause { TreeCause P.Pages pages.old pages.new work.new.page result }
    ensures fails { IfErr result (Keeps (FailsTree (P.standing pages.old).count work.new.page)) }
    ensures call { PagesCall P.Pages pages.old pages.new result }
    ensures keeps { OnOk result (KeepsLines (P.standing pages.old) (P.standing pages.new)) }
    ensures nothing { OnOk result (WritesNothing (P.standing pages.old) (P.standing pages.new)) }
    ensures few { (P.standing pages.new).visits ≤ (P.standing pages.old).visits + 4 }
{
    match seek_at(pages, _limits, place, key, work)? {
        Some(_) => Ok(true),
        None => Ok(false),
    }
}

/// Writes the entry of a table anew: its tree has this root now, and the table so many rows.
pub(crate) fn write_place<P: Pages>(
    pages: &mut P,
    place: &TableEntry,
    root: &Root,
    rows: u64,
) -> Result<(), Stop>
    requires ready { P.is_ready pages.old }
    requires at { place.now.at < 62 }
    requires some { 1 ≤ (P.standing pages.old).count }
    requires room { 1 ≤ (P.standing pages.old).room }
    ensures after { IsTrue (P.standing pages.old).told
        → OnOk result
        (Enters (P.standing pages.old).current
        (P.standing pages.new).current place.now root.now rows) }
    ensures cause { HasCause Never (P.standing pages.old) (P.standing pages.new) result }
    ensures call { PagesCall P.Pages pages.old pages.new result }
    ensures room { OnOk result ((P.standing pages.new).room + 1 ≡ (P.standing pages.old).room) }
    ensures few { (P.standing pages.new).visits ≤ (P.standing pages.old).visits + 1 }
{
    let entry = Entry {
        field: place.entry.field,
        root: root.page,
        levels: root.levels as u64,
        rows,
    };
    pages.write_line(0, 2 + place.at as usize, &line_of(entry))
}

/// Whether the entry of a table stays as it is with this root and so many rows.
fn stays(place: &TableEntry, root: &Root, rows: u64) -> bool
    ensures { result ≡ stays_as place.now root.now rows }
{
    place.entry.root == root.page
        && place.entry.levels == root.levels as u64
        && place.entry.rows == rows
}

/// Writes the entry of a table anew, unless it stays as it is: its tree has this root now, and the table so many rows.
pub(crate) fn update_place<P: Pages>(
    pages: &mut P,
    place: &TableEntry,
    root: &Root,
    rows: u64,
) -> Result<(), Stop>
    requires ready { P.is_ready pages.old }
    requires at { place.now.at < 62 }
    requires some { 1 ≤ (P.standing pages.old).count }
    requires room { 1 ≤ (P.standing pages.old).room }
    ensures after { IsTrue (P.standing pages.old).told
        → entry_of_line ((P.standing pages.old).current 0 (2 + place.now.at)) ≡ place.now.entry
        → OnOk result
        (Enters (P.standing pages.old).current
        (P.standing pages.new).current place.now root.now rows) }
    ensures unwritten { stays_as place.now root.now rows ≡ true
        → (P.standing pages.new).touches ≡ (P.standing pages.old).touches }
    ensures cause { HasCause Never (P.standing pages.old) (P.standing pages.new) result }
    ensures call { PagesCall P.Pages pages.old pages.new result }
    ensures room { OnOk result ((P.standing pages.old).room ≤ (P.standing pages.new).room + 1) }
    ensures few { (P.standing pages.new).visits ≤ (P.standing pages.old).visits + 1 }
{
    if stays(place, root, rows) {
        return Ok(());
    }
    write_place(pages, place, root, rows)
}
