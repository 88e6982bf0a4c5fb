//! The pages that trees take and give back: the free list and the high water in the header of page 0.
ghost use Rattle.std.specs.Prelude.{◌≡◌, ◌≢◌, true, ◌+◌, ◌<◌, ◌≤◌, ℕ, List, ◌⊎◌, IsTrue, OnOk, IfOk, IfErr};
ghost use Rattle.page_alloc.specs.Causes.{TakeCause, HeaderCause};
ghost use Rattle.line_pages.specs.PagesCall.{PagesCall, PagesStop};
ghost use Rattle.line_pages.specs.Bytes.{bytes_of};
ghost use Rattle.line_pages.specs.Lines.{IsLine};
ghost use Rattle.line_pages.specs.Standing.{HasCause, IsCause, Never, KeepsLines};
ghost use Rattle.page_alloc.specs.Stops.{IsFault, IsShort, spare_pages};
ghost use Rattle.page_alloc.specs.Moves.{Takes, Gives};
ghost use Rattle.page_alloc.specs.Space.{word, FitsHeader, IsFreeList, IsPageEvidence, FailsSpace, space_checks, page_taken, after_take, after_give};
ghost use Rattle.damage.specs.Checks.{fails};
ghost use Rattle.page_format.specs.Search.{Keeps, Unchanged};

use damage::Evidence;
use line_pages::{Pages, Stop, copy_page, set_page_line};
use nvm_model::Line;
use page_format::Work;

/// The stop for a check that a page outside the trees fails by its first line: the page's bytes are kept, with that line as
/// it was read.
fn damage<P: Pages>(pages: &mut P, work: &mut Work, page: u64, line: &Line, check: u8) -> Stop
    requires ready { P.is_ready pages.old }
    requires page { page < (P.standing pages.old).count }
    requires of_page { (page ≡ 0) ⊎ (check ≡ 36) }
    requires line { IsLine line.now }
    requires is { IsTrue (P.standing pages.old).told
        → line.now ≡ (P.standing pages.old).current page 0 }
    requires fails { fails (space_checks (P.standing pages.old).count line.now) check ≡ true }
    ensures cause { IsCause
        (λ e. IsPageEvidence page check e
        × (IsTrue (P.standing pages.old).told
        → work.new.page ≡ bytes_of (P.standing pages.old).current page)) (P.standing pages.old)
        (P.standing pages.new) result }
    ensures fails { Keeps (FailsSpace (P.standing pages.old).count work.new.page) result }
    ensures unchanged { Unchanged (P.standing pages.old) (P.standing pages.new) result }
    ensures call { PagesStop P.Pages pages.old pages.new result }
    ensures few { (P.standing pages.new).visits ≤ (P.standing pages.old).visits + 1 }
{
    if let Err(stop) = copy_page(pages, page, &mut work.page) {
        return stop;
    }
    set_page_line(&mut work.page, 0, line);
    Stop::Damaged(Evidence::Page {
        page,
        level: 0,
        low: 0,
        high: u64::MAX,
        check,
    })
}

/// Reads the header of page 0 and makes its checks.
fn read_header<P: Pages>(pages: &mut P, work: &mut Work) -> Result<Line, Stop>
    requires ready { P.is_ready pages.old }
    ensures header { IsTrue (P.standing pages.old).told
        → IfOk result (λ line. line ≡ (P.standing pages.old).current 0 0) }
    ensures fits { IfOk result (FitsHeader (P.standing pages.old).count) }
    ensures line { IfOk result IsLine }
    ensures keeps { OnOk result (KeepsLines (P.standing pages.old) (P.standing pages.new)) }
    ensures cause { HeaderCause P.Pages pages.old pages.new work.new.page result }
    ensures fails { IfErr result (Keeps (FailsSpace (P.standing pages.old).count work.new.page)) }
    ensures unchanged { IfErr result (Unchanged (P.standing pages.old) (P.standing pages.new)) }
    ensures call { PagesCall P.Pages pages.old pages.new result }
    ensures few { (P.standing pages.new).visits ≤ (P.standing pages.old).visits + 2 }
    ensures work { OnOk result (work.new ≡ work.old) }
{
    let count = pages.page_count();
    let header = pages.read_line(0, 0)?;
    let high = header.words[2];
    if header.words[0] != 4 {
        return Err(damage(pages, work, 0, &header, 31));
    }
    if high < 1 || high > count {
        return Err(damage(pages, work, 0, &header, 33));
    }
    if header.words[3] >= high {
        return Err(damage(pages, work, 0, &header, 34));
    }
    Ok(header)
}

/// Takes the page at the high water.
fn take_fresh<P: Pages>(pages: &mut P, header: Line, work: &mut Work) -> Result<u64, Stop>
    requires ready { P.is_ready pages.old }
    requires header { IsTrue (P.standing pages.old).told
        → header ≡ (P.standing pages.old).current 0 0 }
    requires fits { FitsHeader (P.standing pages.old).count header }
    requires line { IsLine header }
    requires none { word header 3 ≡ 0 }
    requires room { 1 ≤ (P.standing pages.old).room }
    ensures taken { IsTrue (P.standing pages.old).told
        → IfOk result (λ page. page ≡ page_taken (P.standing pages.old).current) }
    ensures current { IsTrue (P.standing pages.old).told
        → OnOk result ((P.standing pages.new).current ≡ after_take (P.standing pages.old).current) }
    ensures left { OnOk result (word header 2 ≢ (P.standing pages.old).count) }
    ensures in_range { IfOk result (λ page. (1 ≤ page) × (page < (P.standing pages.old).count)) }
    ensures room { OnOk result ((P.standing pages.new).room + 1 ≡ (P.standing pages.old).room) }
    ensures cause { TakeCause P.Pages pages.old pages.new work.new.page result }
    ensures fails { IfErr result (Keeps (FailsSpace (P.standing pages.old).count work.new.page)) }
    ensures unchanged { IfErr result (Unchanged (P.standing pages.old) (P.standing pages.new)) }
    ensures call { PagesCall P.Pages pages.old pages.new result }
    ensures few { (P.standing pages.new).visits ≤ (P.standing pages.old).visits + 1 }
    ensures work { OnOk result (work.new ≡ work.old) }
{
    let high = header.words[2];
    if high == pages.page_count() {
        return Err(damage(pages, work, 0, &header, 37));
    }
    let mut after = header;
    after.words[2] = high + 1;
    pages.write_line(0, 0, &after)?;
    Ok(high)
}

/// Takes the head of the free list.
fn take_free<P: Pages>(pages: &mut P, header: Line, work: &mut Work) -> Result<u64, Stop>
    requires ready { P.is_ready pages.old }
    requires header { IsTrue (P.standing pages.old).told
        → header ≡ (P.standing pages.old).current 0 0 }
    requires fits { FitsHeader (P.standing pages.old).count header }
    requires line { IsLine header }
    requires some { word header 3 ≢ 0 }
    requires room { 1 ≤ (P.standing pages.old).room }
    ensures taken { IsTrue (P.standing pages.old).told
        → IfOk result (λ page. page ≡ page_taken (P.standing pages.old).current) }
    ensures current { IsTrue (P.standing pages.old).told
        → OnOk result ((P.standing pages.new).current ≡ after_take (P.standing pages.old).current) }
    ensures in_range { IfOk result (λ page. (1 ≤ page) × (page < (P.standing pages.old).count)) }
    ensures room { OnOk result ((P.standing pages.new).room + 1 ≡ (P.standing pages.old).room) }
    ensures cause { TakeCause P.Pages pages.old pages.new work.new.page result }
    ensures fails { IfErr result (Keeps (FailsSpace (P.standing pages.old).count work.new.page)) }
    ensures unchanged { IfErr result (Unchanged (P.standing pages.old) (P.standing pages.new)) }
    ensures call { PagesCall P.Pages pages.old pages.new result }
    ensures few { (P.standing pages.new).visits ≤ (P.standing pages.old).visits + 2 }
    ensures work { OnOk result (work.new ≡ work.old) }
{
    let head = header.words[3];
    let free = pages.read_line(head, 0)?;
    if free.words[0] != 3 || free.words[1] >= header.words[2] {
        return Err(damage(pages, work, head, &free, 36));
    }
    let mut after = header;
    after.words[3] = free.words[1];
    pages.write_line(0, 0, &after)?;
    Ok(head)
}

/// Takes the head of the free list, or else the page at the high water. `Damaged` comes with the first of the checks 31,
/// 33, 34, 36 and 37 that fails.
#[tactic(auto, using(crate::proofs::SoundLaws::sound_take))]
pub fn take_page<P: Pages>(pages: &mut P, work: &mut Work) -> Result<u64, Stop>
    requires ready { P.is_ready pages.old }
    requires room { 1 ≤ (P.standing pages.old).room }
    // what is taken
    ensures taken { IsTrue (P.standing pages.old).told
        → IfOk result (λ page. page ≡ page_taken (P.standing pages.old).current) }
    ensures current { IsTrue (P.standing pages.old).told
        → OnOk result ((P.standing pages.new).current ≡ after_take (P.standing pages.old).current) }
    ensures moves { IsTrue (P.standing pages.old).told
        → IfOk result
        (Takes (P.standing pages.old).count (P.standing pages.old).current
        (P.standing pages.new).current) }
    ensures in_range { IfOk result (λ page. (1 ≤ page) × (page < (P.standing pages.old).count)) }
    ensures room { OnOk result ((P.standing pages.new).room + 1 ≡ (P.standing pages.old).room) }
    ensures sound { IsTrue (P.standing pages.old).told
        → FitsHeader (P.standing pages.old).count ((P.standing pages.old).current 0 0)
        → (free : List ℕ) → IsFreeList (P.standing pages.old).current free
        → IfErr result
        (IsShort (spare_pages (P.standing pages.old).count (P.standing pages.old).current free) 0) }
    ensures cause { TakeCause P.Pages pages.old pages.new work.new.page result }
    ensures fails { IfErr result (Keeps (FailsSpace (P.standing pages.old).count work.new.page)) }
    ensures unchanged { IfErr result (Unchanged (P.standing pages.old) (P.standing pages.new)) }
    // what stays
    ensures call { PagesCall P.Pages pages.old pages.new result }
    ensures few { (P.standing pages.new).visits ≤ (P.standing pages.old).visits + 4 }
    ensures work { OnOk result (work.new ≡ work.old) }
{
    let header = read_header(pages, work)?;
    if header.words[3] == 0 {
        return take_fresh(pages, header, work);
    }
    take_free(pages, header, work)
}

/// Makes a page the head of the free list. `Damaged` comes with the first of the checks 31, 33 and 34 that fails.
#[tactic(auto, using(crate::proofs::SoundLaws::sound_header))]
pub fn give_page<P: Pages>(pages: &mut P, work: &mut Work, page: u64) -> Result<(), Stop>
    requires ready { P.is_ready pages.old }
    requires some { 1 ≤ page }
    requires page { page < (P.standing pages.old).count }
    requires room { 2 ≤ (P.standing pages.old).room }
    // what is given
    ensures current { IsTrue (P.standing pages.old).told
        → OnOk result
        ((P.standing pages.new).current ≡ after_give page (P.standing pages.old).current) }
    ensures moves { IsTrue (P.standing pages.old).told
        → OnOk result
        (Gives (P.standing pages.old).count (P.standing pages.old).current
        (P.standing pages.new).current page) }
    ensures room { OnOk result ((P.standing pages.new).room + 2 ≡ (P.standing pages.old).room) }
    ensures sound { IsTrue (P.standing pages.old).told
        → FitsHeader (P.standing pages.old).count ((P.standing pages.old).current 0 0)
        → IfErr result IsFault }
    ensures cause { HeaderCause P.Pages pages.old pages.new work.new.page result }
    ensures fails { IfErr result (Keeps (FailsSpace (P.standing pages.old).count work.new.page)) }
    ensures unchanged { IfErr result (Unchanged (P.standing pages.old) (P.standing pages.new)) }
    // what stays
    ensures call { PagesCall P.Pages pages.old pages.new result }
    ensures few { (P.standing pages.new).visits ≤ (P.standing pages.old).visits + 4 }
    ensures work { OnOk result (work.new ≡ work.old) }
{
    let header = read_header(pages, work)?;
    write_free(pages, header, page)
}

/// Writes a page as the head of the free list.
fn write_free<P: Pages>(pages: &mut P, header: Line, page: u64) -> Result<(), Stop>
    requires ready { P.is_ready pages.old }
    requires page { page < (P.standing pages.old).count }
    requires header { IsTrue (P.standing pages.old).told
        → header ≡ (P.standing pages.old).current 0 0 }
    requires line { IsLine header }
    requires room { 2 ≤ (P.standing pages.old).room }
    ensures current { IsTrue (P.standing pages.old).told
        → OnOk result
        ((P.standing pages.new).current ≡ after_give page (P.standing pages.old).current) }
    ensures room { OnOk result ((P.standing pages.new).room + 2 ≡ (P.standing pages.old).room) }
    ensures cause { HasCause Never (P.standing pages.old) (P.standing pages.new) result }
    ensures call { PagesCall P.Pages pages.old pages.new result }
    ensures few { (P.standing pages.new).visits ≤ (P.standing pages.old).visits + 2 }
{
    let free = Line {
        words: [3, header.words[3], 0, 0, 0, 0, 0, 0],
    };
    pages.write_line(page, 0, &free)?;
    let mut after = header;
    after.words[3] = page;
    pages.write_line(0, 0, &after)
}
