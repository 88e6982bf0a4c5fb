//! A table that is made.
ghost use Rattle.std.specs.Prelude.{◌≡◌, ◌++◌, ◌+◌, ◌*◌, ◌/◌, ◌<◌, ◌≤◌, None, IsTrue, OnOk, IfOk, IfErr, IfSome};
ghost use Rattle.page_alloc.specs.Causes.{TakeCause};
ghost use Rattle.table_catalog.specs.Causes.{CatalogCause};
ghost use Rattle.table_store.specs.Causes.{CreateCause};
ghost use Rattle.table_catalog.specs.Where.{OnStore};
ghost use Rattle.line_pages.specs.PagesCall.{PagesCall};
ghost use Rattle.line_pages.specs.Lines.{with_line};
ghost use Rattle.line_pages.specs.Standing.{HasCause, Never, ReadsPage};
ghost use Rattle.page_format.specs.Search.{Keeps};
ghost use Rattle.page_alloc.specs.Space.{word, with_word, FailsSpace};
ghost use Rattle.page_alloc.specs.Moves.{Takes};
ghost use Rattle.page_alloc.specs.Stops.{IsFault};
ghost use Rattle.rows.specs.Names.{is_name};
ghost use Rattle.table_catalog.specs.Catalog.{entry_in as entry_of_line, entries, table_count, tables, lookup_touches, place_of, FailsCatalog};
ghost use Rattle.table_catalog.specs.Stored.{IsStore};
ghost use Rattle.table_catalog.specs.Lookup.{LooksUp};
ghost use Rattle.table_store.specs.Created.{field_of as field_of_name, new_entry, Written, Makes, created_of, IsCreated, KeepsUnlessMade, IsSlot, FailsCreate};

use crate::answer::Created;
use line_pages::{Pages, Stop};
use nvm_model::Line;
use page_alloc::take_page;
use page_format::Work;
use rows::{Limits, Name};
use table_catalog::{Entry, line_of, read_catalog, search};

/// The bytes that keep a name.
fn field_of(name: &Name) -> [u8; 32]
    ensures field { result ≡ field_of_name name.now }
    ensures named { IsTrue (is_name name.now) }
{
    let bytes = name.bytes();
    let end = 1 + bytes.len();
    let mut field = [0; 32];
    field[0] = bytes.len() as u8;
    field[1..end].copy_from_slice(bytes);
    field
}

/// The line of the entry of a table with no row, whose tree is one leaf.
fn entry_line(name: &Name, page: u64) -> Line
    ensures entry { entry_of_line result ≡ new_entry name.now page }
    ensures unused { word result 7 ≡ 0 }
    ensures named { IsTrue (is_name name.now) }
{
    let field = field_of(name);
    line_of(Entry {
        field,
        root: page,
        levels: 1,
        rows: 0,
    })
}

/// Writes the entry of a table, and then the number of tables into the header.
fn write_entry<P: Pages>(pages: &mut P, header: Line, line: &Line, at: u64) -> Result<(), Stop>
    requires ready { P.is_ready pages.old }
    requires at { at < 62 }
    requires some { 1 ≤ (P.standing pages.old).count }
    requires room { 2 ≤ (P.standing pages.old).room }
    ensures after { IsTrue (P.standing pages.old).told
        → OnOk result ((P.standing pages.new).current ≡ with_line 0 0 (with_word 1 (at + 1) header)
        (with_line 0 (2 + at) line.now (P.standing pages.old).current)) }
    ensures cause { HasCause Never (P.standing pages.old) (P.standing pages.new) result }
    ensures call { PagesCall P.Pages pages.old pages.new result }
    ensures room { OnOk result ((P.standing pages.old).room ≤ (P.standing pages.new).room + 2) }
    ensures few { (P.standing pages.new).visits ≤ (P.standing pages.old).visits + 2 }
{
    pages.write_line(0, 2 + at as usize, line)?;
    let mut after = header;
    after.words[1] = at + 1;
    pages.write_line(0, 0, &after)
}

/// Makes a page an empty leaf, and enters it as the tree of a table.
fn write_table<P: Pages>(pages: &mut P, name: &Name, page: u64, at: u64) -> Result<(), Stop>
    requires ready { P.is_ready pages.old }
    requires at { at < 62 }
    requires page { page < (P.standing pages.old).count }
    requires room { 3 ≤ (P.standing pages.old).room }
    ensures after { IsTrue (P.standing pages.old).told
        → OnOk result
        (Written (P.standing pages.old).current (P.standing pages.new).current name.now page at) }
    ensures cause { HasCause Never (P.standing pages.old) (P.standing pages.new) result }
    ensures call { PagesCall P.Pages pages.old pages.new result }
    ensures room { OnOk result ((P.standing pages.old).room ≤ (P.standing pages.new).room + 3) }
    ensures few { (P.standing pages.new).visits ≤ (P.standing pages.old).visits + 4 }
{
    let header = pages.read_line(0, 0)?;
    let leaf = Line {
        words: [1, 0, 0, 4096, 0, 0, 0, 0],
    };
    pages.write_line(page, 0, &leaf)?;
    let line = entry_line(name, page);
    write_entry(pages, header, &line, at)
}

/// Takes a page for one more table.
#[tactic(auto, using(crate::proofs::RoomLaws::sound_take))]
fn take_one<P: Pages>(pages: &mut P, _limits: &Limits, work: &mut Work) -> Result<u64, Stop>
    requires ready { P.is_ready pages.old }
    requires room { 1 ≤ (P.standing pages.old).room }
    ensures taken { IsTrue (P.standing pages.old).told
        → IfOk result (Takes (P.standing pages.old).count (P.standing pages.old).current
        (P.standing pages.new).current) }
    ensures in_range { IfOk result (λ page. (1 ≤ page) × (page < (P.standing pages.old).count)) }
    ensures room { OnOk result ((P.standing pages.new).room + 1 ≡ (P.standing pages.old).room) }
    ensures sound { OnStore P.Pages pages.old _limits.now
        (table_count (P.standing pages.old).current < _limits.now.tables
        → 1 + _limits.now.tables * (_limits.now.rows / 2 + 8) ≤ (P.standing pages.old).count
        → IfErr result IsFault) }
    ensures cause { TakeCause P.Pages pages.old pages.new work.new.page result }
    ensures fails { IfErr result (Keeps (FailsSpace (P.standing pages.old).count work.new.page)) }
    ensures call { PagesCall P.Pages pages.old pages.new result }
    ensures few { (P.standing pages.new).visits ≤ (P.standing pages.old).visits + 4 }
{
    take_page(pages, work)
}

/// Takes a page, and enters it as the tree of a table.
fn add_table<P: Pages>(
    pages: &mut P,
    limits: &Limits,
    name: &Name,
    at: u64,
    work: &mut Work,
) -> Result<(), Stop>
    requires ready { P.is_ready pages.old }
    requires at { at < limits.now.tables }
    requires room { 4 ≤ (P.standing pages.old).room }
    ensures makes { IsTrue (P.standing pages.old).told
        → at ≡ table_count (P.standing pages.old).current
        → place_of name.now 0 (entries (P.standing pages.old).current) ≡ None
        → IsStore limits.now (P.standing pages.old).count (P.standing pages.old).current
        → OnOk result (Makes limits.now (P.standing pages.old).count (P.standing pages.old).current
        (P.standing pages.new).current name.now) }
    ensures sound { IsTrue (P.standing pages.old).told
        → at ≡ table_count (P.standing pages.old).current
        → IsStore limits.now (P.standing pages.old).count (P.standing pages.old).current
        → 1 + limits.now.tables * (limits.now.rows / 2 + 8) ≤ (P.standing pages.old).count
        → IfErr result IsFault }
    ensures cause { TakeCause P.Pages pages.old pages.new work.new.page result }
    ensures fails { IfErr result (Keeps (FailsSpace (P.standing pages.old).count work.new.page)) }
    ensures call { PagesCall P.Pages pages.old pages.new result }
    ensures room { OnOk result ((P.standing pages.old).room ≤ (P.standing pages.new).room + 4) }
    ensures few { (P.standing pages.new).visits ≤ (P.standing pages.old).visits + 8 }
{
    let page = take_one(pages, limits, work)?;
    write_table(pages, name, page, at)
}

/// The number that a table of this name would have; `None` where there is one.
#[tactic(auto, using(crate::proofs::CreateLaws::present_is))]
fn find_slot<P: Pages>(
    pages: &mut P,
    limits: &Limits,
    name: &Name,
    work: &mut Work,
) -> Result<Option<u64>, Stop>
    requires ready { P.is_ready pages.old }
    ensures slot { IsTrue (P.standing pages.old).told
        → IfOk result (IsSlot (P.standing pages.old).current name.now) }
    ensures at { IfOk result (λ slot. IfSome slot (λ at. at ≤ limits.now.tables)) }
    ensures sound { OnStore P.Pages pages.old limits.now (IfErr result IsFault) }
    ensures cause { CatalogCause P.Pages pages.old pages.new limits.now work.new.page result }
    ensures fails { IfErr result
        (Keeps (FailsCatalog limits.now (P.standing pages.old).count work.new.page)) }
    ensures call { PagesCall P.Pages pages.old pages.new result }
    ensures reads { OnOk result (ReadsPage 0 (P.standing pages.old) (P.standing pages.new)) }
    ensures lines { IsTrue (P.standing pages.old).told
        → OnOk result
        ((P.standing pages.new).touches ≡ (P.standing pages.old).touches ++ lookup_touches
        (P.standing pages.old).access (P.standing pages.old).current name.now) }
    ensures few { (P.standing pages.new).visits ≤ (P.standing pages.old).visits + 1 }
{
    let header = read_catalog(pages, limits, work)?;
    match search(pages, limits, &header, name, work)? {
        Some(_) => Ok(None),
        None => Ok(Some(header.words[1])),
    }
}

/// Makes a table of this number, if there may be so many.
fn create_at<P: Pages>(
    pages: &mut P,
    limits: &Limits,
    name: &Name,
    at: u64,
    work: &mut Work,
) -> Result<Created, Stop>
    requires ready { P.is_ready pages.old }
    requires at { at ≤ limits.now.tables }
    requires room { 4 ≤ (P.standing pages.old).room }
    ensures created { IsTrue (P.standing pages.old).told
        → at ≡ table_count (P.standing pages.old).current
        → place_of name.now 0 (entries (P.standing pages.old).current) ≡ None
        → IsStore limits.now (P.standing pages.old).count (P.standing pages.old).current
        → IfOk result
        (IsCreated limits.now (P.standing pages.old).count (P.standing pages.old).current
        (P.standing pages.new).current name.now) }
    ensures known { IsTrue (P.standing pages.old).told
        → at ≡ table_count (P.standing pages.old).current
        → place_of name.now 0 (entries (P.standing pages.old).current) ≡ None
        → IfOk result
        (λ answer. answer ≡ created_of limits.now name.now
        (tables (P.standing pages.old).current)) }
    ensures sound { IsTrue (P.standing pages.old).told
        → at ≡ table_count (P.standing pages.old).current
        → IsStore limits.now (P.standing pages.old).count (P.standing pages.old).current
        → 1 + limits.now.tables * (limits.now.rows / 2 + 8) ≤ (P.standing pages.old).count
        → IfErr result IsFault }
    ensures cause { TakeCause P.Pages pages.old pages.new work.new.page result }
    ensures fails { IfErr result (Keeps (FailsSpace (P.standing pages.old).count work.new.page)) }
    ensures keeps { IfOk result (KeepsUnlessMade (P.standing pages.old) (P.standing pages.new)) }
    ensures call { PagesCall P.Pages pages.old pages.new result }
    ensures room { OnOk result ((P.standing pages.old).room ≤ (P.standing pages.new).room + 4) }
    ensures few { (P.standing pages.new).visits ≤ (P.standing pages.old).visits + 8 }
{
    if at >= limits.tables as u64 {
        return Ok(Created::NoSlot);
    }
    add_table(pages, limits, name, at, work)?;
    Ok(Created::Made)
}

/// Makes a table with no row. `Damaged` comes only where the catalog fails one of the checks 31 to 35, or with the check that
/// no page can be taken, and in a store in order with pages for all its tables not at all.
pub fn create<P: Pages>(
    pages: &mut P,
    limits: &Limits,
    name: &Name,
    work: &mut Work,
) -> Result<Created, Stop>
    requires ready { P.is_ready pages.old }
    requires room { 640 ≤ (P.standing pages.old).room }
    // the answer, and what changes
    ensures created { OnStore P.Pages pages.old limits.now
        (IfOk result
        (IsCreated limits.now (P.standing pages.old).count (P.standing pages.old).current
        (P.standing pages.new).current name.now)) }
    ensures known { IsTrue (P.standing pages.old).told
        → IfOk result
        (λ answer. answer ≡ created_of limits.now name.now
        (tables (P.standing pages.old).current)) }
    ensures keeps { IfOk result (KeepsUnlessMade (P.standing pages.old) (P.standing pages.new)) }
    ensures lines { IsTrue (P.standing pages.old).told
        → OnOk result (LooksUp name.now (P.standing pages.old) (P.standing pages.new)) }
    // why it stops
    ensures sound { OnStore P.Pages pages.old limits.now
        (1 + limits.now.tables * (limits.now.rows / 2 + 8) ≤ (P.standing pages.old).count
        → IfErr result IsFault) }
    ensures cause { CreateCause P.Pages pages.old pages.new limits.now work.new.page result }
    ensures fails { IfErr result
        (Keeps (FailsCreate limits.now (P.standing pages.old).count work.new.page)) }
    // what stays
    ensures call { PagesCall P.Pages pages.old pages.new result }
    ensures room { OnOk result ((P.standing pages.old).room ≤ (P.standing pages.new).room + 4) }
    ensures few { (P.standing pages.new).visits ≤ (P.standing pages.old).visits + 9 }
{
    match find_slot(pages, limits, name, work)? {
        None => Ok(Created::Present),
        Some(at) => create_at(pages, limits, name, at, work),
    }
}
