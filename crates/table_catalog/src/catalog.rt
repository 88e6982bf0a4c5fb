//! The catalog in page 0, read line by line.
ghost use Rattle.std.specs.Prelude.{◌≡◌, ◌≢◌, ◌+◌, [], ◌∷◌, ◌++◌, ◌<◌, ◌≤◌, ℕ, length, false, None, Some, IsTrue, OnOk, IfOk, IfErr, IfSome};
ghost use Rattle.table_catalog.specs.Causes.{CatalogCause};
ghost use Rattle.table_catalog.specs.Where.{OnStore};
ghost use Rattle.line_pages.specs.PagesCall.{PagesCall, PagesStop};
ghost use Rattle.line_pages.specs.Bytes.{bytes_of, line_at};
ghost use Rattle.line_pages.specs.Lines.{Lines};
ghost use Rattle.line_pages.specs.Touch.{begins, touch_of};
ghost use Rattle.line_pages.specs.Standing.{HasCause, IsCause, Never, ReadsPage, UnlessStop, UnlessFault};
ghost use Rattle.damage.specs.Checks.{first_failure};
ghost use Rattle.page_format.specs.Search.{Keeps};
ghost use Rattle.page_alloc.specs.Space.{word, IsPageEvidence};
ghost use Rattle.page_alloc.specs.Stops.{IsFault};
ghost use Rattle.table_catalog.specs.Catalog.{entry_in as entry_of_line, header_checks, entries, tables, place_of, entry_touches, entries_read, lookup_touches, is_listed as listed, FitsCatalog, FitsEntry, FitsPlace, FitsRoot, IsCatalogDamage, FailsCatalog};
ghost use Rattle.rows.specs.Tables.{is_known};

use crate::entry::{Entry, TableEntry, entry_in, has_name, is_listed};
use damage::Evidence;
use line_pages::{Pages, Stop, copy_page, set_page_line, whole_line};
use nvm_model::Line;
use page_format::Work;
use rows::{Limits, Name};
use ssd_model::PageBuf;

/// Puts a line of page 0 into a copy of the page. A line of the page's bytes is written over by itself.
fn keep_line(copy: &mut PageBuf, at: usize, line: &Line)
    requires at { at < 64 }
    ensures size { length copy.new ≡ 4096 }
    ensures line { line_at copy.new at ≡ line.now }
    ensures others { (other : ℕ) → other < 64 → other ≢ at → line_at copy.new other ≡ line_at copy.old other }
    ensures same { (lines : Lines) → copy.old ≡ bytes_of lines 0 → line.now ≡ lines 0 at → copy.new ≡ bytes_of lines 0 }
{
    set_page_line(copy, at, &whole_line(line));
}

/// Copies page 0, with the header of the catalog as it was read.
fn copy_catalog<P: Pages>(pages: &mut P, header: &Line, copy: &mut PageBuf) -> Result<(), Stop>
    requires ready { P.is_ready pages.old }
    requires open { begins (P.standing pages.old).access 0 false ≡ false }
    requires some { 1 ≤ (P.standing pages.old).count }
    ensures bytes { IsTrue (P.standing pages.old).told → header.now ≡ (P.standing pages.old).current 0 0 → OnOk result (copy.new ≡ bytes_of (P.standing pages.old).current 0) }
    ensures header { OnOk result (line_at copy.new 0 ≡ header.now) }
    ensures cause { HasCause Never (P.standing pages.old) (P.standing pages.new) result }
    ensures call { PagesCall P.Pages pages.old pages.new result }
    ensures reads { OnOk result (ReadsPage 0 (P.standing pages.old) (P.standing pages.new)) }
    ensures again { (P.standing pages.new).visits ≤ (P.standing pages.old).visits }
{
    copy_page(pages, 0, copy)?;
    keep_line(copy, 0, header);
    Ok(())
}

/// The evidence that the catalog fails a check.
fn evidence_of(check: u8) -> Evidence
    ensures { IsPageEvidence 0 check result }
{
    Evidence::Page {
        page: 0,
        level: 0,
        low: 0,
        high: u64::MAX,
        check,
    }
}

/// The stop for a check that this header of the catalog fails. The bytes shown are those of page 0, with the header as it
/// was read.
fn damaged_header<P: Pages>(
    pages: &mut P,
    limits: &Limits,
    header: &Line,
    work: &mut Work,
    check: u8,
) -> Stop
    requires ready { P.is_ready pages.old }
    requires open { begins (P.standing pages.old).access 0 false ≡ false }
    requires some { 1 ≤ (P.standing pages.old).count }
    requires header { IsTrue (P.standing pages.old).told → header.now ≡ (P.standing pages.old).current 0 0 }
    requires fails { first_failure (header_checks limits.now (P.standing pages.old).count header.now) ≡ Some check }
    ensures cause { IsCause (λ e. IsTrue (P.standing pages.old).told → IsCatalogDamage limits.now (P.standing pages.old).count (P.standing pages.old).current work.new.page e) (P.standing pages.old) (P.standing pages.new) result }
    ensures fails { Keeps (FailsCatalog limits.now (P.standing pages.old).count work.new.page) result }
    ensures call { PagesStop P.Pages pages.old pages.new result }
    ensures reads { UnlessStop result (ReadsPage 0 (P.standing pages.old) (P.standing pages.new)) }
    ensures again { (P.standing pages.new).visits ≤ (P.standing pages.old).visits }
{
    match copy_catalog(pages, header, &mut work.page) {
        Ok(()) => Stop::Damaged(evidence_of(check)),
        Err(stop) => stop,
    }
}

/// The stop for an entry that is not in range, under this header of the catalog. The bytes shown are those of page 0, with
/// the header and the entry as they were read.
fn damaged_entry<P: Pages>(
    pages: &mut P,
    limits: &Limits,
    header: &Line,
    at: u64,
    entry: &Line,
    work: &mut Work,
) -> Stop
    requires ready { P.is_ready pages.old }
    requires open { begins (P.standing pages.old).access 0 false ≡ false }
    requires some { 1 ≤ (P.standing pages.old).count }
    requires header { IsTrue (P.standing pages.old).told → header.now ≡ (P.standing pages.old).current 0 0 }
    requires entry { IsTrue (P.standing pages.old).told → entry.now ≡ (P.standing pages.old).current 0 (2 + at) }
    requires fits { FitsCatalog limits.now (P.standing pages.old).count header.now }
    requires at { at < word header.now 1 }
    requires fails { listed limits.now (word header.now 2) (entry_of_line entry.now) ≡ false }
    ensures cause { IsCause (λ e. IsTrue (P.standing pages.old).told → IsCatalogDamage limits.now (P.standing pages.old).count (P.standing pages.old).current work.new.page e) (P.standing pages.old) (P.standing pages.new) result }
    ensures fails { Keeps (FailsCatalog limits.now (P.standing pages.old).count work.new.page) result }
    ensures call { PagesStop P.Pages pages.old pages.new result }
    ensures reads { UnlessStop result (ReadsPage 0 (P.standing pages.old) (P.standing pages.new)) }
    ensures again { (P.standing pages.new).visits ≤ (P.standing pages.old).visits }
{
    match copy_catalog(pages, header, &mut work.page) {
        Ok(()) => {
            keep_line(&mut work.page, 2 + at as usize, entry);
            Stop::Damaged(evidence_of(35))
        }
        Err(stop) => stop,
    }
}

/// The first check that the header of the catalog fails.
fn failing(header: &Line, limits: &Limits, count: u64) -> Option<u8>
    ensures { result ≡ first_failure (header_checks limits.now count header.now) }
{
    let tables = header.words[1];
    let high = header.words[2];
    if header.words[0] != 4 {
        Some(31)
    } else if tables > limits.tables as u64 {
        Some(32)
    } else if high < 1 || high > count {
        Some(33)
    } else if header.words[3] >= high {
        Some(34)
    } else {
        None
    }
}

/// Reads the header of the catalog and makes its checks. `Damaged` comes only with the first of the checks 31 to 34 that the
/// header fails.
#[tactic(auto, using(crate::proofs::CatalogLaws::fits_catalog, crate::proofs::FailsLaws::never_keeps))]
pub fn read_catalog<P: Pages>(pages: &mut P, limits: &Limits, work: &mut Work) -> Result<Line, Stop>
    requires ready { P.is_ready pages.old }
    ensures header { IsTrue (P.standing pages.old).told → IfOk result (λ line. line ≡ (P.standing pages.old).current 0 0) }
    ensures fits { IfOk result (FitsCatalog limits.now (P.standing pages.old).count) }
    ensures cause { CatalogCause P.Pages pages.old pages.new limits.now work.new.page result }
    ensures fails { IfErr result (Keeps (FailsCatalog limits.now (P.standing pages.old).count work.new.page)) }
    ensures call { PagesCall P.Pages pages.old pages.new result }
    ensures reads { UnlessFault result (ReadsPage 0 (P.standing pages.old) (P.standing pages.new)) }
    ensures line { OnOk result ((P.standing pages.new).touches ≡ (P.standing pages.old).touches ++ touch_of (P.standing pages.old).access 0 0 false ∷ []) }
    ensures few { (P.standing pages.new).visits ≤ (P.standing pages.old).visits + 1 }
{
    let count = pages.page_count();
    let header = pages.read_line(0, 0)?;
    match failing(&header, limits, count) {
        None => Ok(header),
        Some(check) => Err(damaged_header(pages, limits, &header, work, check)),
    }
}

/// Reads one entry of the catalog, whose access is open, and makes its checks.
#[tactic(auto, using(crate::proofs::CatalogLaws::fits_entry, crate::proofs::FailsLaws::never_keeps))]
fn read_entry<P: Pages>(
    pages: &mut P,
    limits: &Limits,
    header: &Line,
    at: u64,
    work: &mut Work,
) -> Result<Entry, Stop>
    requires ready { P.is_ready pages.old }
    requires open { (P.standing pages.old).access ≡ Some (0, false) }
    requires header { IsTrue (P.standing pages.old).told → header.now ≡ (P.standing pages.old).current 0 0 }
    requires fits { FitsCatalog limits.now (P.standing pages.old).count header.now }
    requires at { at < word header.now 1 }
    ensures entry { IsTrue (P.standing pages.old).told → IfOk result (λ entry. entry ≡ entry_of_line ((P.standing pages.old).current 0 (2 + at))) }
    ensures fits { IfOk result (FitsEntry limits.now (word header.now 2)) }
    ensures cause { CatalogCause P.Pages pages.old pages.new limits.now work.new.page result }
    ensures fails { IfErr result (Keeps (FailsCatalog limits.now (P.standing pages.old).count work.new.page)) }
    ensures call { PagesCall P.Pages pages.old pages.new result }
    ensures reads { UnlessFault result (ReadsPage 0 (P.standing pages.old) (P.standing pages.new)) }
    ensures line { OnOk result ((P.standing pages.new).touches ≡ (P.standing pages.old).touches ++ touch_of (Some (0, false)) 0 (2 + at) false ∷ []) }
    ensures again { (P.standing pages.new).visits ≤ (P.standing pages.old).visits }
{
    let line = pages.read_line(0, 2 + at as usize)?;
    let entry = entry_in(&line);
    if !is_listed(&entry, limits, header.words[2]) {
        return Err(damaged_entry(pages, limits, header, at, &line, work));
    }
    Ok(entry)
}

/// Looks a name up among the entries of the catalog, whose access is open: the first entry with the name. `Damaged` comes only
/// with check 35, where an entry up to that one is out of range.
pub fn search<P: Pages>(
    pages: &mut P,
    limits: &Limits,
    header: &Line,
    name: &Name,
    work: &mut Work,
) -> Result<Option<TableEntry>, Stop>
    requires ready { P.is_ready pages.old }
    requires open { (P.standing pages.old).access ≡ Some (0, false) }
    requires header { IsTrue (P.standing pages.old).told → header.now ≡ (P.standing pages.old).current 0 0 }
    requires fits { FitsCatalog limits.now (P.standing pages.old).count header.now }
    ensures place { IsTrue (P.standing pages.old).told → IfOk result (λ place. place ≡ place_of name.now 0 (entries (P.standing pages.old).current)) }
    ensures fits { IfOk result (λ place. IfSome place (FitsPlace limits.now header.now)) }
    ensures cause { CatalogCause P.Pages pages.old pages.new limits.now work.new.page result }
    ensures fails { IfErr result (Keeps (FailsCatalog limits.now (P.standing pages.old).count work.new.page)) }
    ensures call { PagesCall P.Pages pages.old pages.new result }
    ensures reads { UnlessFault result (ReadsPage 0 (P.standing pages.old) (P.standing pages.new)) }
    ensures lines { IfOk result (λ place. (P.standing pages.new).touches ≡ (P.standing pages.old).touches ++ entry_touches 2 (entries_read (word header.now 1) place)) }
    ensures again { (P.standing pages.new).visits ≤ (P.standing pages.old).visits }
{
    for at in 0..header.words[1] {
        let entry = read_entry(pages, limits, header, at, work)?;
        if has_name(&entry, name) {
            return Ok(Some(TableEntry { at, entry }));
        }
    }
    Ok(None)
}

/// Looks a name up in the catalog: the first entry with the name. `Damaged` comes only with the first of the checks 31 to 35
/// that the catalog fails.
pub fn find_entry<P: Pages>(
    pages: &mut P,
    limits: &Limits,
    name: &Name,
    work: &mut Work,
) -> Result<Option<TableEntry>, Stop>
    requires ready { P.is_ready pages.old }
    ensures place { IsTrue (P.standing pages.old).told → IfOk result (λ place. place ≡ place_of name.now 0 (entries (P.standing pages.old).current)) }
    ensures fits { IfOk result (λ place. IfSome place (FitsRoot limits.now (P.standing pages.old).count)) }
    ensures sound { OnStore P.Pages pages.old limits.now (IfErr result IsFault) }
    ensures cause { CatalogCause P.Pages pages.old pages.new limits.now work.new.page result }
    ensures fails { IfErr result (Keeps (FailsCatalog limits.now (P.standing pages.old).count work.new.page)) }
    ensures call { PagesCall P.Pages pages.old pages.new result }
    ensures reads { UnlessFault result (ReadsPage 0 (P.standing pages.old) (P.standing pages.new)) }
    ensures lines { IsTrue (P.standing pages.old).told → OnOk result ((P.standing pages.new).touches ≡ (P.standing pages.old).touches ++ lookup_touches (P.standing pages.old).access (P.standing pages.old).current name.now) }
    ensures few { (P.standing pages.new).visits ≤ (P.standing pages.old).visits + 1 }
{
    let header = read_catalog(pages, limits, work)?;
    search(pages, limits, &header, name, work)
}

/// Whether a table has the name. `Damaged` comes only with the first of the checks 31 to 35 that the catalog fails.
#[tactic(auto, using(crate::proofs::CatalogLaws::known_by, crate::proofs::TableLaws::sound_catalog))]
pub fn has_table<P: Pages>(
    pages: &mut P,
    limits: &Limits,
    name: &Name,
    work: &mut Work,
) -> Result<bool, Stop>
    requires ready { P.is_ready pages.old }
    // the answer
    ensures known { IsTrue (P.standing pages.old).told → IfOk result (λ known. known ≡ is_known name.now (tables (P.standing pages.old).current)) }
    // why it stops
    ensures sound { OnStore P.Pages pages.old limits.now (IfErr result IsFault) }
    ensures cause { CatalogCause P.Pages pages.old pages.new limits.now work.new.page result }
    ensures fails { IfErr result (Keeps (FailsCatalog limits.now (P.standing pages.old).count work.new.page)) }
    // what is read, and what stays
    ensures reads { UnlessFault result (ReadsPage 0 (P.standing pages.old) (P.standing pages.new)) }
    ensures lines { IsTrue (P.standing pages.old).told → OnOk result ((P.standing pages.new).touches ≡ (P.standing pages.old).touches ++ lookup_touches (P.standing pages.old).access (P.standing pages.old).current name.now) }
    ensures few { (P.standing pages.new).visits ≤ (P.standing pages.old).visits + 1 }
    ensures call { PagesCall P.Pages pages.old pages.new result }
{
    let place = find_entry(pages, limits, name, work)?;
    Ok(place.is_some())
}
