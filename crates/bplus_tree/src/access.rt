//! The calls on pages that the changes of a tree are made of, with the damage that they show in the words of trees.
ghost use Rattle.std.specs.Prelude.{◌≡◌, ◌≢◌, ◌∷◌, ◌+◌, ◌*◌, ◌<◌, ◌≤◌, ℕ, List, length, true, false, IsTrue, OnOk, IfOk, IfErr};
ghost use Rattle.bplus_tree.specs.Causes.{TreeCause};
ghost use Rattle.page_search.specs.Causes.{OnPage};
ghost use Rattle.page_search.specs.Cost.{search_lines};
ghost use Rattle.line_pages.specs.PagesCall.{PagesCall};
ghost use Rattle.line_pages.specs.Bytes.{bytes_of};
ghost use Rattle.line_pages.specs.Cost.{Costs};
ghost use Rattle.line_pages.specs.Touch.{begins};
ghost use Rattle.line_pages.specs.Standing.{HasCause, Never, KeepsLines, ReadsPage};
ghost use Rattle.page_format.specs.Node.{IsWellFormed};
ghost use Rattle.page_format.specs.Search.{is_root_span, IsSpot, IsSafeSpot, Keeps};
ghost use Rattle.page_format.specs.Work.{KeepsOthers};
ghost use Rattle.bplus_tree.specs.Damage.{FailsTree};
ghost use Rattle.bplus_tree.specs.Full.{NotFull};
ghost use Rattle.page_alloc.specs.Stops.{IsFault, IsShort, spare_pages};
ghost use Rattle.page_alloc.specs.Moves.{ArePart, Takes, Gives};
ghost use Rattle.page_alloc.specs.Space.{FitsHeader, IsFreeList};
ghost use Rattle.page_alloc.specs.Written.{Rewrites, Differs, WritesOnly, lines_changed};
ghost use Rattle.node_edit.specs.declared.fit.Fit.TheVariants as fits;
ghost use Rattle.bplus_tree.specs.Edit.{IsOutcome, IsCutAt, Stores, spent};

use crate::outcome::Outcome;
use line_pages::{Pages, Stop, copy_page};
use node_edit::Fit;
use page_alloc::{give_page, take_page, write_changes};
use page_format::{Expect, Spot, Work};
use page_search::{find, read_page};
use ssd_model::PageBuf;

/// Looks a key up in a page.
#[tactic(auto, using(crate::proofs::SoundLaws::sound_page))]
pub fn look<P: Pages>(
    pages: &mut P,
    page: u64,
    expect: &Expect,
    key: u64,
    work: &mut Work,
) -> Result<Spot, Stop>
    requires ready { P.is_ready pages.old }
    requires page { page < (P.standing pages.old).count }
    requires pages { expect.now.pages ≡ (P.standing pages.old).count }
    requires root { is_root_span expect.now.low expect.now.high ≡ true → expect.now.root ≡ true }
    requires above { expect.now.low ≤ key }
    requires within { key ≤ expect.now.high }
    ensures spot { OnPage P.Pages pages.old page expect.now
        (IfOk result (IsSpot (bytes_of (P.standing pages.old).current page) expect.now key)) }
    ensures safe { IfOk result (IsSafeSpot expect.now key) }
    ensures reads { OnOk result (ReadsPage page (P.standing pages.old) (P.standing pages.new)) }
    ensures cost { OnPage P.Pages pages.old page expect.now
        (OnOk result (Costs (search_lines expect.now.level) (P.standing pages.old)
        (P.standing pages.new))) }
    ensures keeps { OnOk result (KeepsLines (P.standing pages.old) (P.standing pages.new)) }
    ensures sound { OnPage P.Pages pages.old page expect.now (IfErr result IsFault) }
    ensures cause { TreeCause P.Pages pages.old pages.new work.new.page result }
    ensures fails { IfErr result (Keeps (FailsTree (P.standing pages.old).count work.new.page)) }
    ensures not_full { IfErr result NotFull }
    ensures call { PagesCall P.Pages pages.old pages.new result }
    ensures few { (P.standing pages.new).visits ≤ (P.standing pages.old).visits + 1 }
{
    find(pages, page, expect, key, work)
}

/// Reads a whole page and checks it.
#[tactic(auto, using(crate::proofs::SoundLaws::sound_page))]
pub fn load<P: Pages>(
    pages: &mut P,
    page: u64,
    expect: &Expect,
    work: &mut Work,
) -> Result<(), Stop>
    requires ready { P.is_ready pages.old }
    requires page { page < (P.standing pages.old).count }
    requires pages { expect.now.pages ≡ (P.standing pages.old).count }
    requires root { is_root_span expect.now.low expect.now.high ≡ true → expect.now.root ≡ true }
    ensures well { OnOk result (IsWellFormed work.new.page expect.now) }
    ensures bytes { IsTrue (P.standing pages.old).told
        → OnOk result (work.new.page ≡ bytes_of (P.standing pages.old).current page) }
    ensures others { KeepsOthers work.old work.new }
    ensures reads { OnOk result (ReadsPage page (P.standing pages.old) (P.standing pages.new)) }
    ensures keeps { OnOk result (KeepsLines (P.standing pages.old) (P.standing pages.new)) }
    ensures sound { OnPage P.Pages pages.old page expect.now (IfErr result IsFault) }
    ensures cause { TreeCause P.Pages pages.old pages.new work.new.page result }
    ensures fails { IfErr result (Keeps (FailsTree (P.standing pages.old).count work.new.page)) }
    ensures not_full { IfErr result NotFull }
    ensures call { PagesCall P.Pages pages.old pages.new result }
    ensures again { begins (P.standing pages.old).access page false ≡ false
        → (P.standing pages.new).visits ≤ (P.standing pages.old).visits }
    ensures few { (P.standing pages.new).visits ≤ (P.standing pages.old).visits + 1 }
{
    read_page(pages, page, expect, work)
}

/// Takes a page for a tree.
pub fn take<P: Pages>(pages: &mut P, work: &mut Work) -> Result<u64, Stop>
    requires ready { P.is_ready pages.old }
    requires room { 1 ≤ (P.standing pages.old).room }
    ensures moves { IsTrue (P.standing pages.old).told
        → IfOk result (Takes (P.standing pages.old).count (P.standing pages.old).current
        (P.standing pages.new).current) }
    ensures in_range { IfOk result (λ page. (1 ≤ page) × (page < (P.standing pages.old).count)) }
    ensures room { OnOk result ((P.standing pages.new).room + 1 ≡ (P.standing pages.old).room) }
    ensures work { OnOk result (work.new ≡ work.old) }
    ensures sound { IsTrue (P.standing pages.old).told
        → FitsHeader (P.standing pages.old).count ((P.standing pages.old).current 0 0)
        → (free : List ℕ) → IsFreeList (P.standing pages.old).current free
        → IfErr result
        (IsShort (spare_pages (P.standing pages.old).count (P.standing pages.old).current free) 0) }
    ensures cause { TreeCause P.Pages pages.old pages.new work.new.page result }
    ensures fails { IfErr result (Keeps (FailsTree (P.standing pages.old).count work.new.page)) }
    ensures not_full { IfErr result NotFull }
    ensures call { PagesCall P.Pages pages.old pages.new result }
    ensures few { (P.standing pages.new).visits ≤ (P.standing pages.old).visits + 4 }
{
    take_page(pages, work)
}

/// Gives a page back.
pub fn give<P: Pages>(pages: &mut P, work: &mut Work, page: u64) -> Result<(), Stop>
    requires ready { P.is_ready pages.old }
    requires some { 1 ≤ page }
    requires page { page < (P.standing pages.old).count }
    requires room { 2 ≤ (P.standing pages.old).room }
    ensures moves { IsTrue (P.standing pages.old).told
        → OnOk result (Gives (P.standing pages.old).count (P.standing pages.old).current
        (P.standing pages.new).current page) }
    ensures room { OnOk result ((P.standing pages.new).room + 2 ≡ (P.standing pages.old).room) }
    ensures work { OnOk result (work.new ≡ work.old) }
    ensures sound { IsTrue (P.standing pages.old).told
        → FitsHeader (P.standing pages.old).count ((P.standing pages.old).current 0 0)
        → IfErr result IsFault }
    ensures cause { TreeCause P.Pages pages.old pages.new work.new.page result }
    ensures fails { IfErr result (Keeps (FailsTree (P.standing pages.old).count work.new.page)) }
    ensures not_full { IfErr result NotFull }
    ensures call { PagesCall P.Pages pages.old pages.new result }
    ensures few { (P.standing pages.new).visits ≤ (P.standing pages.old).visits + 4 }
{
    give_page(pages, work, page)
}

/// Writes all bytes of a page, by the lines in which they differ from those that stand there.
pub fn write_new<P: Pages>(
    pages: &mut P,
    page: u64,
    bytes: &PageBuf,
    spare: &mut PageBuf,
) -> Result<(), Stop>
    requires ready { P.is_ready pages.old }
    requires page { page < (P.standing pages.old).count }
    requires room { 64 ≤ (P.standing pages.old).room }
    ensures writes { IsTrue (P.standing pages.old).told
        → OnOk result
        (Rewrites page bytes.now (P.standing pages.old).current (P.standing pages.new).current) }
    ensures room { OnOk result ((P.standing pages.old).room ≤ (P.standing pages.new).room + 64) }
    ensures sound { IfErr result IsFault }
    ensures cause { HasCause Never (P.standing pages.old) (P.standing pages.new) result }
    ensures call { PagesCall P.Pages pages.old pages.new result }
    ensures few { (P.standing pages.new).visits ≤ (P.standing pages.old).visits + 2 }
{
    copy_page(pages, page, spare)?;
    write_changes(pages, page, spare, bytes)
}

/// Writes a page that was cut, and takes a further page for its right part.
#[tactic(auto, using(page_alloc::proofs::SoundLaws::sound_never, crate::proofs::FullLaws::never_not_full, crate::proofs::FullLaws::fault_not_full))]
fn store_cut<P: Pages>(pages: &mut P, page: u64, key: u64, work: &mut Work) -> Result<Outcome, Stop>
    requires ready { P.is_ready pages.old }
    requires page { page < (P.standing pages.old).count }
    requires room { 129 ≤ (P.standing pages.old).room }
    ensures stores { IsTrue (P.standing pages.old).told
        → work.old.spare ≡ bytes_of (P.standing pages.old).current page
        → IfOk result (λ outcome. Stores (P.standing pages.old).count (P.standing pages.old).current
        (P.standing pages.new).current page outcome work.old.page work.old.right) }
    ensures is { IfOk result (IsCutAt (P.standing pages.old).count key) }
    ensures room { OnOk result ((P.standing pages.old).room ≤ (P.standing pages.new).room + 129) }
    ensures sound { IsTrue (P.standing pages.old).told
        → work.old.spare ≡ bytes_of (P.standing pages.old).current page → (free : List ℕ)
        → IsFreeList (P.standing pages.old).current free
        → ArePart (P.standing pages.old).current (page ∷ free)
        → FitsHeader (P.standing pages.old).count ((P.standing pages.old).current 0 0)
        → IfErr result
        (IsShort (spare_pages (P.standing pages.old).count (P.standing pages.old).current free) 0) }
    ensures cause { TreeCause P.Pages pages.old pages.new work.new.page result }
    ensures fails { IfErr result (Keeps (FailsTree (P.standing pages.old).count work.new.page)) }
    ensures not_full { IfErr result NotFull }
    ensures call { PagesCall P.Pages pages.old pages.new result }
    ensures few { (P.standing pages.new).visits ≤ (P.standing pages.old).visits + 7 }
{
    write_changes(pages, page, &work.spare, &work.page)?;
    let right = take(pages, work)?;
    write_new(pages, right, &work.right, &mut work.spare)?;
    Ok(Outcome::Cut(key, right))
}

/// Writes a page whose old bytes stand in `spare` and its new ones in `page`, and takes a further page for those in `right`
/// where it was cut.
#[tactic(auto, using(page_alloc::proofs::SoundLaws::sound_never, crate::proofs::FullLaws::never_not_full))]
pub fn store<P: Pages>(pages: &mut P, page: u64, fit: Fit, work: &mut Work) -> Result<Outcome, Stop>
    requires ready { P.is_ready pages.old }
    requires page { page < (P.standing pages.old).count }
    requires room { spent (lines_changed work.old.spare work.old.page) fit
        ≤ (P.standing pages.old).room }
    ensures stores { IsTrue (P.standing pages.old).told
        → work.old.spare ≡ bytes_of (P.standing pages.old).current page
        → IfOk result (λ outcome. Stores (P.standing pages.old).count (P.standing pages.old).current
        (P.standing pages.new).current page outcome work.old.page work.old.right) }
    ensures is { IfOk result (IsOutcome (P.standing pages.old).count fit) }
    ensures room { OnOk result ((P.standing pages.old).room ≤ (P.standing pages.new).room + spent
        (lines_changed work.old.spare work.old.page) fit) }
    ensures sound { IsTrue (P.standing pages.old).told
        → work.old.spare ≡ bytes_of (P.standing pages.old).current page → (free : List ℕ)
        → IsFreeList (P.standing pages.old).current free
        → ArePart (P.standing pages.old).current (page ∷ free)
        → FitsHeader (P.standing pages.old).count ((P.standing pages.old).current 0 0)
        → IfErr result
        (IsShort (spare_pages (P.standing pages.old).count (P.standing pages.old).current free) 0) }
    ensures plain { ((key : ℕ) → fit ≢ fits.Cut key) → IfErr result IsFault }
    ensures shows { IsTrue (P.standing pages.old).told
        → work.old.spare ≡ bytes_of (P.standing pages.old).current page
        → ((key : ℕ) → fit ≢ fits.Cut key)
        → OnOk result (bytes_of (P.standing pages.new).current page ≡ work.old.page) }
    ensures touches { ((key : ℕ) → fit ≢ fits.Cut key)
        → OnOk result (WritesOnly page (Differs work.old.spare work.old.page) (P.standing pages.old)
        (P.standing pages.new)) }
    ensures cause { TreeCause P.Pages pages.old pages.new work.new.page result }
    ensures fails { IfErr result (Keeps (FailsTree (P.standing pages.old).count work.new.page)) }
    ensures not_full { IfErr result NotFull }
    ensures call { PagesCall P.Pages pages.old pages.new result }
    ensures few { (P.standing pages.new).visits ≤ (P.standing pages.old).visits + 7 }
{
    match fit {
        Fit::Whole => {
            write_changes(pages, page, &work.spare, &work.page)?;
            Ok(Outcome::Whole)
        }
        Fit::Short => {
            write_changes(pages, page, &work.spare, &work.page)?;
            Ok(Outcome::Short)
        }
        Fit::Cut(key) => store_cut(pages, page, key, work),
    }
}
