//! Changes of one page of a tree: of a leaf, and of the pages above one that was changed.
ghost use Rattle.std.specs.Prelude.{◌≡◌, ◌≢◌, ◌+◌, ◌-◌, ◌*◌, ◌<◌, ◌≤◌, ◌==◌, ◌∷◌, ℕ, List, length, true, false, not, is_some, None, IsTrue, OnOk, IfOk, IfErr, Err};
ghost use Rattle.std.specs.List.{list_all};
ghost use Rattle.bplus_tree.specs.Causes.{TreeCause};
ghost use Rattle.page_search.specs.Causes.{OnPage};
ghost use Rattle.line_pages.specs.PagesCall.{PagesCall};
ghost use Rattle.line_pages.specs.Bytes.{bytes_of};
ghost use Rattle.line_pages.specs.Standing.{IsCause};
ghost use Rattle.rows.specs.Rows.{row_get, row_put, row_delete};
ghost use Rattle.page_format.specs.Node.{IsWellFormed, entry_count, leaf_rows};
ghost use Rattle.rows.specs.Value.{is_printable};
ghost use Rattle.page_format.specs.Search.{is_root_span, Keeps, IsSpot, IsSafeSpot};
ghost use Rattle.leaf_lines.specs.Put.{IsFound, fits_beside};
ghost use Rattle.line_pages.specs.Touch.{begins};
ghost use Rattle.page_alloc.specs.Space.{IsFreeList, FitsHeader};
ghost use Rattle.page_alloc.specs.Moves.{ArePart};
ghost use Rattle.bplus_tree.specs.Damage.{FailsTree, IsFullRoot};
ghost use Rattle.bplus_tree.specs.Full.{NotFull, NamesFull, CutsFor, IsNeeded, IsOverfull};
ghost use Rattle.page_alloc.specs.Stops.{IsFault, IsShort, StopsFor, spare_pages};
ghost use Rattle.bplus_tree.specs.PageChanges.{CutsLeaf};
ghost use Rattle.page_alloc.specs.Space.{high_of};
ghost use Rattle.bplus_tree.specs.Edit.{Edits, Mends, MendsPages, IsMendable, AddsChild, IsSafe, IsSpent, StaysBelow, Rewritten, after_fit};
ghost use Rattle.node_edit.specs.Edit.{IsPair, IsCutIn};
ghost use Rattle.bplus_tree.specs.Path.{IsFullAt};
ghost use Rattle.node_edit.specs.Record.{FitsLeaf, HoldsLength};
ghost use Rattle.bplus_tree.specs.LineChanges.{WritesChange};
ghost use Rattle.bplus_tree.specs.LineCosts.{ByLines, put_lines, delete_lines, keeps_without};
ghost use Rattle.bplus_tree.specs.Record.{WritesRecord};
ghost use Rattle.page_alloc.specs.Written.{Rewrites, lines_changed};

use crate::access::{give, load, look, store};
use crate::joining::join;
use crate::outcome::{Change, Outcome};
use damage::Evidence;
use leaf_lines::{put_by_lines, remove_by_lines};
use line_pages::{Pages, Stop, page_word};
use node_edit::{Fit, Pair, inner_put, leaf_delete, leaf_put, mend_divided, mend_joined, pair_of};
use page_alloc::write_changes;
use page_format::{Expect, Spot, Work};
use ssd_model::PageBuf;

/// A put into a leaf that is read whole.
fn put_leaf<P: Pages>(
    pages: &mut P,
    page: u64,
    expect: &Expect,
    key: u64,
    value: &[u8],
    work: &mut Work,
) -> Result<Outcome, Stop>
    requires ready { P.is_ready pages.old }
    requires page { page < (P.standing pages.old).count }
    requires pages { expect.now.pages ≡ (P.standing pages.old).count }
    requires root { is_root_span expect.now.low expect.now.high ≡ true → expect.now.root ≡ true }
    requires level { expect.now.level ≡ 0 }
    requires above { expect.now.low ≤ key }
    requires within { key ≤ expect.now.high }
    requires size { length value.now ≤ 480 }
    requires printable { list_all is_printable value.now ≡ true }
    requires room { 129 ≤ (P.standing pages.old).room }
    ensures safe { IfOk result (IsSafe (P.standing pages.old).count expect.now) }
    ensures below { IfOk result (StaysBelow expect.now) }
    ensures edits { IsTrue (P.standing pages.old).told
        → IfOk result
        (λ outcome. Edits (P.standing pages.old).current
        (P.standing pages.new).current page expect.now outcome (row_put key value.now)) }
    ensures again { IsTrue (P.standing pages.old).told
        → HoldsLength key (length value.now)
        (leaf_rows (bytes_of (P.standing pages.old).current page))
        → OnOk result (WritesRecord page key (P.standing pages.old) (P.standing pages.new)) }
    ensures whole { IsTrue (P.standing pages.old).told
        → HoldsLength key (length value.now)
        (leaf_rows (bytes_of (P.standing pages.old).current page))
        → IfOk result (λ outcome. outcome ≡ Outcome.Whole) }
    ensures lines { IsTrue (P.standing pages.old).told
        → FitsLeaf (expect.now.root ≡ true)
        (row_put key value.now (leaf_rows (bytes_of (P.standing pages.old).current page)))
        → OnOk result (WritesChange page (P.standing pages.old) (P.standing pages.new)) }
    ensures fills { IsTrue (P.standing pages.old).told
        → FitsLeaf (expect.now.root ≡ true)
        (row_put key value.now (leaf_rows (bytes_of (P.standing pages.old).current page)))
        → IfOk result (λ outcome. outcome ≡ Outcome.Whole) }
    ensures parts { IsTrue (P.standing pages.old).told → (free : List ℕ)
        → IsFreeList (P.standing pages.old).current free
        → ArePart (P.standing pages.old).current (page ∷ free)
        → high_of (P.standing pages.old).current ≤ (P.standing pages.old).count
        → IfOk result
        (CutsLeaf (row_put key value.now (leaf_rows (bytes_of (P.standing pages.old).current page)))
        (P.standing pages.new).current page) }
    ensures room { IfOk result (IsSpent 0 (P.standing pages.old).room (P.standing pages.new).room) }
    ensures sound { IsTrue (P.standing pages.old).told → (free : List ℕ)
        → IsWellFormed (bytes_of (P.standing pages.old).current page) expect.now
        → IsFreeList (P.standing pages.old).current free
        → ArePart (P.standing pages.old).current (page ∷ free)
        → FitsHeader (P.standing pages.old).count ((P.standing pages.old).current 0 0)
        → IfErr result
        (IsShort (spare_pages (P.standing pages.old).count (P.standing pages.old).current free) 0) }
    ensures cause { TreeCause P.Pages pages.old pages.new work.new.page result }
    ensures fails { IfErr result (Keeps (FailsTree (P.standing pages.old).count work.new.page)) }
    ensures not_full { IfErr result NotFull }
    ensures cuts { IsTrue (P.standing pages.old).told
        → IfOk result
        (CutsFor (IsOverfull
        (row_put key value.now (leaf_rows (bytes_of (P.standing pages.old).current page))))) }
    ensures needed { OnPage P.Pages pages.old page expect.now
        (IfErr result
        (IsNeeded (IsOverfull
        (row_put key value.now (leaf_rows (bytes_of (P.standing pages.old).current page)))) ⊥)) }
    ensures call { PagesCall P.Pages pages.old pages.new result }
    ensures few_more { begins (P.standing pages.old).access page false ≡ false
        → (P.standing pages.new).visits ≤ (P.standing pages.old).visits + 7 }
    ensures few { (P.standing pages.new).visits ≤ (P.standing pages.old).visits + 8 }
{
    load(pages, page, expect, work)?;
    work.spare.copy_from(&work.page);
    let fit = leaf_put(&mut work.page, &mut work.right, expect, key, value);
    work.page.byte(0);
    store(pages, page, fit, work)
}

/// The row that a search in a leaf found, or else where it would stand, as `binary_search` of a slice answers.
fn found_place(spot: Spot, expect: &Expect) -> Result<usize, usize>
    requires { expect.now.level ≡ 0 }
    ensures { (bytes : List ℕ) (key : ℕ) → IsSafeSpot expect.now key spot
        → IsSpot bytes expect.now key spot → IsFound bytes expect.now key result }
{
    match spot {
        Spot::Row(at) => Ok(at),
        Spot::Gap(at) => Err(at),
        Spot::Child(at, _, _, _) => Err(at),
    }
}

/// A put into a leaf, by the lines that it needs where it fits between the slots and the heap, else with the leaf read whole. What a
/// well-formed leaf is to be afterwards is said of such a leaf alone: one that is not read whole is not checked.
#[tactic(auto, using(page_alloc::proofs::SoundLaws::sound_never, crate::proofs::FullLaws::never_not_full, crate::proofs::FullLaws::fault_not_full, crate::proofs::FullLaws::fault_needed))]
pub fn put_at<P: Pages>(
    pages: &mut P,
    page: u64,
    expect: &Expect,
    key: u64,
    value: &[u8],
    work: &mut Work,
) -> Result<Change, Stop>
    requires ready { P.is_ready pages.old }
    requires page { page < (P.standing pages.old).count }
    requires pages { expect.now.pages ≡ (P.standing pages.old).count }
    requires root { is_root_span expect.now.low expect.now.high ≡ true → expect.now.root ≡ true }
    requires level { expect.now.level ≡ 0 }
    requires above { expect.now.low ≤ key }
    requires within { key ≤ expect.now.high }
    requires size { length value.now ≤ 480 }
    requires printable { list_all is_printable value.now ≡ true }
    requires room { 129 ≤ (P.standing pages.old).room }
    ensures safe { IfOk result
        (λ change. IsSafe (P.standing pages.old).count expect.now change.outcome) }
    ensures below { IfOk result (λ change. StaysBelow expect.now change.outcome) }
    ensures edits { IsTrue (P.standing pages.old).told
        → IfOk result
        (λ change. Edits (P.standing pages.old).current
        (P.standing pages.new).current page expect.now change.outcome (row_put key value.now)) }
    ensures fresh { OnPage P.Pages pages.old page expect.now
        (IfOk result
        (λ change. change.fresh
        ≡ not (is_some (row_get key (leaf_rows (bytes_of (P.standing pages.old).current page)))))) }
    ensures again { OnPage P.Pages pages.old page expect.now
        (HoldsLength key (length value.now)
        (leaf_rows (bytes_of (P.standing pages.old).current page))
        → OnOk result (WritesRecord page key (P.standing pages.old) (P.standing pages.new))) }
    ensures whole { OnPage P.Pages pages.old page expect.now
        (HoldsLength key (length value.now)
        (leaf_rows (bytes_of (P.standing pages.old).current page))
        → IfOk result (λ change. change.outcome ≡ Outcome.Whole)) }
    ensures lines { OnPage P.Pages pages.old page expect.now
        (FitsLeaf (expect.now.root ≡ true)
        (row_put key value.now (leaf_rows (bytes_of (P.standing pages.old).current page)))
        → OnOk result (WritesChange page (P.standing pages.old) (P.standing pages.new))) }
    ensures by_lines { OnPage P.Pages pages.old page expect.now
        (fits_beside expect.now.root key (length value.now)
        (bytes_of (P.standing pages.old).current page) ≡ true
        → IfOk result (λ change. (change.outcome ≡ Outcome.Whole)
        × ByLines page
        (28 + put_lines key (length value.now) (bytes_of (P.standing pages.old).current page))
        (P.standing pages.old) (P.standing pages.new))) }
    ensures fills { OnPage P.Pages pages.old page expect.now
        (FitsLeaf (expect.now.root ≡ true)
        (row_put key value.now (leaf_rows (bytes_of (P.standing pages.old).current page)))
        → IfOk result (λ change. change.outcome ≡ Outcome.Whole)) }
    ensures parts { IsTrue (P.standing pages.old).told → (free : List ℕ)
        → IsFreeList (P.standing pages.old).current free
        → ArePart (P.standing pages.old).current (page ∷ free)
        → high_of (P.standing pages.old).current ≤ (P.standing pages.old).count
        → IfOk result
        (λ change. CutsLeaf
        (row_put key value.now (leaf_rows (bytes_of (P.standing pages.old).current page)))
        (P.standing pages.new).current page change.outcome) }
    ensures room { IfOk result
        (λ change. IsSpent 0 (P.standing pages.old).room
        (P.standing pages.new).room change.outcome) }
    ensures sound { IsTrue (P.standing pages.old).told → (free : List ℕ)
        → IsWellFormed (bytes_of (P.standing pages.old).current page) expect.now
        → IsFreeList (P.standing pages.old).current free
        → ArePart (P.standing pages.old).current (page ∷ free)
        → FitsHeader (P.standing pages.old).count ((P.standing pages.old).current 0 0)
        → IfErr result
        (IsShort (spare_pages (P.standing pages.old).count (P.standing pages.old).current free) 0) }
    ensures cause { TreeCause P.Pages pages.old pages.new work.new.page result }
    ensures fails { IfErr result (Keeps (FailsTree (P.standing pages.old).count work.new.page)) }
    ensures not_full { IfErr result NotFull }
    ensures cuts { IsTrue (P.standing pages.old).told
        → IfOk result
        (λ change. CutsFor
        (IsOverfull (row_put key value.now
        (leaf_rows (bytes_of (P.standing pages.old).current page)))) change.outcome) }
    ensures needed { OnPage P.Pages pages.old page expect.now
        (IfErr result
        (IsNeeded (IsOverfull
        (row_put key value.now (leaf_rows (bytes_of (P.standing pages.old).current page)))) ⊥)) }
    ensures call { PagesCall P.Pages pages.old pages.new result }
    ensures few { (P.standing pages.new).visits ≤ (P.standing pages.old).visits + 8 }
{
    let spot = look(pages, page, expect, key, work)?;
    let place = found_place(spot, expect);
    let fresh = place.is_err();
    let done = put_by_lines(pages, page, expect, place, key, value, work)?;
    if done {
        return Ok(Change {
            outcome: Outcome::Whole,
            fresh,
        });
    }
    let outcome = put_leaf(pages, page, expect, key, value, work)?;
    Ok(Change { outcome, fresh })
}

/// A delete in a leaf that is read whole.
fn delete_leaf<P: Pages>(
    pages: &mut P,
    page: u64,
    expect: &Expect,
    key: u64,
    work: &mut Work,
) -> Result<Outcome, Stop>
    requires ready { P.is_ready pages.old }
    requires page { page < (P.standing pages.old).count }
    requires pages { expect.now.pages ≡ (P.standing pages.old).count }
    requires root { is_root_span expect.now.low expect.now.high ≡ true → expect.now.root ≡ true }
    requires level { expect.now.level ≡ 0 }
    requires room { 33 ≤ (P.standing pages.old).room }
    ensures safe { IfOk result (IsSafe (P.standing pages.old).count expect.now) }
    ensures edits { IsTrue (P.standing pages.old).told
        → IfOk result
        (λ outcome. Edits (P.standing pages.old).current
        (P.standing pages.new).current page expect.now outcome (row_delete key)) }
    ensures uncut { IfOk result (λ outcome. (k r : ℕ) → outcome ≢ Outcome.Cut k r) }
    ensures room { IfOk result (IsSpent 0 (P.standing pages.old).room (P.standing pages.new).room) }
    ensures sound { OnPage P.Pages pages.old page expect.now (IfErr result IsFault) }
    ensures cause { TreeCause P.Pages pages.old pages.new work.new.page result }
    ensures fails { IfErr result (Keeps (FailsTree (P.standing pages.old).count work.new.page)) }
    ensures not_full { IfErr result NotFull }
    ensures call { PagesCall P.Pages pages.old pages.new result }
    ensures few_more { begins (P.standing pages.old).access page false ≡ false
        → (P.standing pages.new).visits ≤ (P.standing pages.old).visits + 7 }
    ensures few { (P.standing pages.new).visits ≤ (P.standing pages.old).visits + 8 }
{
    load(pages, page, expect, work)?;
    work.spare.copy_from(&work.page);
    let fit = leaf_delete(&mut work.page, expect, key);
    store(pages, page, fit, work)
}

/// A delete in a leaf, by the lines that it needs where the leaf keeps the bytes that it has to have, else with the leaf read whole.
#[tactic(auto, using(page_alloc::proofs::SoundLaws::sound_never, crate::proofs::FullLaws::never_not_full))]
pub fn delete_at<P: Pages>(
    pages: &mut P,
    page: u64,
    expect: &Expect,
    key: u64,
    work: &mut Work,
) -> Result<Outcome, Stop>
    requires ready { P.is_ready pages.old }
    requires page { page < (P.standing pages.old).count }
    requires pages { expect.now.pages ≡ (P.standing pages.old).count }
    requires root { is_root_span expect.now.low expect.now.high ≡ true → expect.now.root ≡ true }
    requires level { expect.now.level ≡ 0 }
    requires above { expect.now.low ≤ key }
    requires within { key ≤ expect.now.high }
    requires room { 33 ≤ (P.standing pages.old).room }
    ensures safe { IfOk result (IsSafe (P.standing pages.old).count expect.now) }
    ensures edits { IsTrue (P.standing pages.old).told
        → IfOk result
        (λ outcome. Edits (P.standing pages.old).current
        (P.standing pages.new).current page expect.now outcome (row_delete key)) }
    ensures by_lines { OnPage P.Pages pages.old page expect.now
        (keeps_without key expect.now.root (bytes_of (P.standing pages.old).current page) ≡ true
        → IfOk result (λ outcome. (outcome ≡ Outcome.Whole)
        × ByLines page (28 + delete_lines (bytes_of (P.standing pages.old).current page))
        (P.standing pages.old) (P.standing pages.new))) }
    ensures uncut { IfOk result (λ outcome. (k r : ℕ) → outcome ≢ Outcome.Cut k r) }
    ensures room { IfOk result (IsSpent 0 (P.standing pages.old).room (P.standing pages.new).room) }
    ensures sound { OnPage P.Pages pages.old page expect.now (IfErr result IsFault) }
    ensures cause { TreeCause P.Pages pages.old pages.new work.new.page result }
    ensures fails { IfErr result (Keeps (FailsTree (P.standing pages.old).count work.new.page)) }
    ensures not_full { IfErr result NotFull }
    ensures call { PagesCall P.Pages pages.old pages.new result }
    ensures few { (P.standing pages.new).visits ≤ (P.standing pages.old).visits + 8 }
{
    match look(pages, page, expect, key, work)? {
        Spot::Row(at) => {
            let done = remove_by_lines(pages, page, expect, at, work)?;
            if done {
                return Ok(Outcome::Whole);
            }
            delete_leaf(pages, page, expect, key, work)
        }
        Spot::Gap(_) => Ok(Outcome::Whole),
        Spot::Child(_, _, _, _) => Ok(Outcome::Whole),
    }
}

/// Whether a page is a root at level 3 with no room for a further child.
fn is_full_root(page: &PageBuf, expect: &Expect) -> bool
    ensures level { result ≡ true → expect.now.level ≡ 3 }
    ensures root { result ≡ true → expect.now.root ≡ true }
    ensures full { result ≡ true → entry_count page.now ≡ 240 }
    ensures room { result ≡ false → expect.now.root ≡ true → expect.now.level ≡ 3
        → entry_count page.now ≢ 240 }
{
    expect.root && expect.level == 3 && page_word(page, 8) == 240
}

/// One more child for an inner page. `Damaged` comes with check 39 where the page is a root at level 3 that has 240.
pub fn add_child<P: Pages>(
    pages: &mut P,
    page: u64,
    expect: &Expect,
    key: u64,
    child: u64,
    work: &mut Work,
) -> Result<Outcome, Stop>
    requires ready { P.is_ready pages.old }
    requires page { page < (P.standing pages.old).count }
    requires pages { expect.now.pages ≡ (P.standing pages.old).count }
    requires root { is_root_span expect.now.low expect.now.high ≡ true → expect.now.root ≡ true }
    requires span { expect.now.root ≡ true → is_root_span expect.now.low expect.now.high ≡ true }
    requires level { 1 ≤ expect.now.level }
    requires above { expect.now.low < key }
    requires within { key ≤ expect.now.high }
    requires some { 1 ≤ child }
    requires below { child < expect.now.pages }
    requires room { 129 ≤ (P.standing pages.old).room }
    ensures safe { IfOk result (IsSafe (P.standing pages.old).count expect.now) }
    ensures below { IfOk result (StaysBelow expect.now) }
    ensures adds { IsTrue (P.standing pages.old).told
        → IfOk result
        (λ outcome. AddsChild (P.standing pages.old).current
        (P.standing pages.new).current page expect.now key child outcome) }
    ensures long { IfOk result (λ outcome. outcome ≢ Outcome.Short) }
    ensures room { OnOk result ((P.standing pages.old).room ≤ (P.standing pages.new).room + 129) }
    ensures sound { IsTrue (P.standing pages.old).told → (free : List ℕ)
        → IsWellFormed (bytes_of (P.standing pages.old).current page) expect.now
        → IsFreeList (P.standing pages.old).current free
        → ArePart (P.standing pages.old).current (page ∷ free)
        → FitsHeader (P.standing pages.old).count ((P.standing pages.old).current 0 0)
        → IfErr result
        (StopsFor (spare_pages (P.standing pages.old).count (P.standing pages.old).current free ≤ 0)
        (IsFullAt (P.standing pages.old).current page expect.now)) }
    ensures cause { TreeCause P.Pages pages.old pages.new work.new.page result }
    ensures fails { IfErr result (Keeps (FailsTree (P.standing pages.old).count work.new.page)) }
    ensures at { IfErr result (NamesFull page (expect.now.level ≡ 3)) }
    ensures cuts { IsTrue (P.standing pages.old).told
        → IfOk result (CutsFor (entry_count (bytes_of (P.standing pages.old).current page) ≡ 240)) }
    ensures needed { OnPage P.Pages pages.old page expect.now
        (IfErr result (IsNeeded (entry_count (bytes_of (P.standing pages.old).current page) ≡ 240)
        (expect.now.level ≡ 3))) }
    ensures call { PagesCall P.Pages pages.old pages.new result }
    ensures few { (P.standing pages.new).visits ≤ (P.standing pages.old).visits + 8 }
{
    load(pages, page, expect, work)?;
    if is_full_root(&work.page, expect) {
        return Err(full_root(page, expect));
    }
    work.spare.copy_from(&work.page);
    let fit = inner_put(&mut work.page, &mut work.right, expect, key, child);
    store(pages, page, fit, work)
}

/// The stop for a root that would have to be cut and cannot.
fn full_root(page: u64, expect: &Expect) -> Stop
    ensures { result ≡ Stop.Damaged
        (Evidence.Page page expect.now.level expect.now.low expect.now.high 39) }
{
    Stop::Damaged(Evidence::Page {
        page,
        level: expect.level,
        low: expect.low,
        high: expect.high,
        check: 39,
    })
}

/// Joins the child at a key with its right sibling, or else with its left one.
pub fn mend<P: Pages>(
    pages: &mut P,
    page: u64,
    expect: &Expect,
    key: u64,
    work: &mut Work,
) -> Result<Outcome, Stop>
    requires ready { P.is_ready pages.old }
    requires page { page < (P.standing pages.old).count }
    requires pages { expect.now.pages ≡ (P.standing pages.old).count }
    requires root { is_root_span expect.now.low expect.now.high ≡ true → expect.now.root ≡ true }
    requires some { 1 ≤ page }
    requires level { 1 ≤ expect.now.level }
    requires room { 189 ≤ (P.standing pages.old).room }
    ensures safe { IfOk result (IsSafe (P.standing pages.old).count expect.now) }
    ensures mends { IsTrue (P.standing pages.old).told
        → IfOk result
        (Mends (P.standing pages.old).current (P.standing pages.new).current page expect.now key) }
    ensures pages { IsTrue (P.standing pages.old).told
        → IfOk result
        (MendsPages (P.standing pages.old).current
        (P.standing pages.new).current page expect.now key) }
    ensures uncut { IfOk result (λ outcome. (k r : ℕ) → outcome ≢ Outcome.Cut k r) }
    ensures room { OnOk result ((P.standing pages.old).room ≤ (P.standing pages.new).room + 189) }
    ensures sound { IsTrue (P.standing pages.old).told → (level : ℕ) (free : List ℕ)
        → IsMendable (P.standing pages.old).current page expect.now key level free
        → FitsHeader (P.standing pages.old).count ((P.standing pages.old).current 0 0)
        → IfErr result IsFault }
    ensures cause { TreeCause P.Pages pages.old pages.new work.new.page result }
    ensures fails { IfErr result (Keeps (FailsTree (P.standing pages.old).count work.new.page)) }
    ensures not_full { IfErr result NotFull }
    ensures call { PagesCall P.Pages pages.old pages.new result }
    ensures few { (P.standing pages.new).visits ≤ (P.standing pages.old).visits + 13 }
{
    load(pages, page, expect, work)?;
    let pair = pair_of(&work.page, expect, key);
    let cut = join(pages, &pair, expect.level - 1, expect.pages, work)?;
    rewrite(pages, page, expect, &pair, cut, work)
}

/// Writes the page above two neighbours after they were joined, or gives it back where it has one child left.
fn rewrite<P: Pages>(
    pages: &mut P,
    page: u64,
    expect: &Expect,
    pair: &Pair,
    cut: Option<u64>,
    work: &mut Work,
) -> Result<Outcome, Stop>
    requires ready { P.is_ready pages.old }
    requires page { page < (P.standing pages.old).count }
    requires pages { expect.now.pages ≡ (P.standing pages.old).count }
    requires root { is_root_span expect.now.low expect.now.high ≡ true → expect.now.root ≡ true }
    requires some { 1 ≤ page }
    requires level { 1 ≤ expect.now.level }
    requires pair { IsPair expect.now.pages pair.now }
    requires cut { IsCutIn pair.now cut }
    requires room { 61 ≤ (P.standing pages.old).room }
    ensures safe { IfOk result (IsSafe (P.standing pages.old).count expect.now) }
    ensures rewrites { IsTrue (P.standing pages.old).told
        → IfOk result (Rewritten (P.standing pages.old).count (P.standing pages.old).current
        (P.standing pages.new).current page expect.now pair.now cut) }
    ensures uncut { IfOk result (λ outcome. (k r : ℕ) → outcome ≢ Outcome.Cut k r) }
    ensures room { OnOk result ((P.standing pages.old).room ≤ (P.standing pages.new).room + 61) }
    ensures sound { OnPage P.Pages pages.old page expect.now
        (FitsHeader (P.standing pages.old).count ((P.standing pages.old).current 0 0)
        → IfErr result IsFault) }
    ensures cause { TreeCause P.Pages pages.old pages.new work.new.page result }
    ensures fails { IfErr result (Keeps (FailsTree (P.standing pages.old).count work.new.page)) }
    ensures not_full { IfErr result NotFull }
    ensures call { PagesCall P.Pages pages.old pages.new result }
    ensures few { (P.standing pages.new).visits ≤ (P.standing pages.old).visits + 5 }
{
    load(pages, page, expect, work)?;
    work.spare.copy_from(&work.page);
    match cut {
        Some(key) => {
            let fit = mend_divided(&mut work.page, expect, pair, key);
            keep(pages, page, fit, work)
        }
        None => {
            if page_word(&work.page, 8) < 3 {
                give(pages, work, page)?;
                return Ok(Outcome::Alone(pair.left));
            }
            let fit = mend_joined(&mut work.page, expect, pair);
            keep(pages, page, fit, work)
        }
    }
}

/// What stands for a page that was not cut.
fn outcome_of(fit: Fit) -> Outcome
    ensures is { result ≡ after_fit fit }
    ensures uncut { (k r : ℕ) → result ≢ Outcome.Cut k r }
    ensures safe { (count : ℕ) (expect : Expect) → IsSafe count expect result }
{
    match fit {
        Fit::Whole => Outcome::Whole,
        Fit::Short => Outcome::Short,
        Fit::Cut(_) => Outcome::Whole,
    }
}

/// Writes a page that was not cut.
#[tactic(auto, using(page_alloc::proofs::SoundLaws::sound_never, crate::proofs::FullLaws::never_not_full))]
fn keep<P: Pages>(pages: &mut P, page: u64, fit: Fit, work: &mut Work) -> Result<Outcome, Stop>
    requires ready { P.is_ready pages.old }
    requires page { page < (P.standing pages.old).count }
    requires room { lines_changed work.old.spare work.old.page ≤ (P.standing pages.old).room }
    ensures is { IfOk result (λ outcome. outcome ≡ after_fit fit) }
    ensures uncut { IfOk result (λ outcome. (k r : ℕ) → outcome ≢ Outcome.Cut k r) }
    ensures safe { (count : ℕ) (expect : Expect) → IfOk result (IsSafe count expect) }
    ensures writes { IsTrue (P.standing pages.old).told
        → work.old.spare ≡ bytes_of (P.standing pages.old).current page
        → OnOk result (Rewrites page work.old.page (P.standing pages.old).current
        (P.standing pages.new).current) }
    ensures room { OnOk result
        ((P.standing pages.new).room + lines_changed work.old.spare work.old.page
        ≡ (P.standing pages.old).room) }
    ensures sound { IfErr result IsFault }
    ensures cause { TreeCause P.Pages pages.old pages.new work.new.page result }
    ensures fails { IfErr result (Keeps (FailsTree (P.standing pages.old).count work.new.page)) }
    ensures not_full { IfErr result NotFull }
    ensures call { PagesCall P.Pages pages.old pages.new result }
    ensures few { (P.standing pages.new).visits ≤ (P.standing pages.old).visits + 1 }
{
    write_changes(pages, page, &work.spare, &work.page)?;
    Ok(outcome_of(fit))
}
