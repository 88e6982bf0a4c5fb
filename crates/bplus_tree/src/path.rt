//! Changes of a tree: down to the leaf of a key, and up again along the path.
ghost use Rattle.std.specs.Prelude.{◌≡◌, ◌≢◌, ◌+◌, ◌*◌, ◌<◌, ◌≤◌, ℕ, List, [], length, true, not, is_some, IsTrue, OnOk, IfOk, IfErr};
ghost use Rattle.std.specs.List.{list_all};
ghost use Rattle.bplus_tree.specs.Causes.{TreeCause};
ghost use Rattle.line_pages.specs.PagesCall.{PagesCall};
ghost use Rattle.line_pages.specs.Bytes.{bytes_of};
ghost use Rattle.line_pages.specs.Standing.{KeepsLines};
ghost use Rattle.rows.specs.Rows.{row_get, row_put, row_delete};
ghost use Rattle.page_format.specs.Node.{IsWellFormed, entry_count};
ghost use Rattle.rows.specs.Value.{is_printable};
ghost use Rattle.page_format.specs.Search.{Keeps};
ghost use Rattle.page_alloc.specs.Space.{FitsHeader};
ghost use Rattle.tree_search.specs.Tree.{IsTree, tree_rows};
ghost use Rattle.bplus_tree.specs.Damage.{FailsTree};
ghost use Rattle.bplus_tree.specs.Full.{NotFull, NamesFull, NamesAbove, CutsFor, NeededAbove, IsWayFull, MustCut};
ghost use Rattle.page_alloc.specs.Stops.{IsFault, StopsFor, spare_pages};
ghost use Rattle.bplus_tree.specs.Edit.{Edits, IsSafe, IsSpent, StaysBelow};
ghost use Rattle.page_alloc.specs.Written.{WritesNothing};
ghost use Rattle.bplus_tree.specs.PageChanges.{ChangesUnder};
ghost use Rattle.bplus_tree.specs.Record.{PutsAgain};
ghost use Rattle.bplus_tree.specs.LineChanges.{PutsChange};
ghost use Rattle.bplus_tree.specs.LineCosts.{GoesByLines, put_lines, delete_lines, keeps_without};
ghost use Rattle.leaf_lines.specs.Put.{fits_beside};
ghost use Rattle.line_pages.specs.Cost.{Costs};
ghost use Rattle.tree_search.specs.Where.{OnTree};
ghost use Rattle.bplus_tree.specs.Path.{IsPlace, Leads, MayFollow, Settles, StandsAbove, StandsAt, StopsAbove, TakesFor, room_above, root_place};

use crate::access::look;
use crate::change::{add_child, delete_at, mend, put_at};
use crate::outcome::{Change, Outcome};
use arrayvec::ArrayVec;
use line_pages::{Pages, Stop};
use page_format::{Expect, Spot, Work};
use tree_search::{Root, child_expect, root_expect};

/// A page of a tree, and what is expected of it.
#[derive(Clone, Copy)]
pub(crate) struct Node {
    pub page: u64,
    pub expect: Expect,
}

/// An inner page on the way down to a key, and the first key of the child that the way went on to.
#[derive(Clone, Copy)]
pub(crate) struct Passed {
    pub place: Node,
    pub low: u64,
}

impl Default for Passed {
    ghost is_default = { λ passed. passed.low ≡ 0 };

    fn default() -> Passed {
        Passed {
            place: Node {
                page: 0,
                expect: Expect {
                    level: 0,
                    low: 0,
                    high: 0,
                    root: false,
                    pages: 0,
                },
            },
            low: 0,
        }
    }
}

/// The inner pages on the way down to a key, the root first. A tree has at most three levels of them.
type Path = ArrayVec<Passed, 3>;

/// The place of a root.
pub fn top_of(root: &Root, count: u64) -> Node
    requires { 1 ≤ root.now.levels }
    ensures { result ≡ root_place root.now count }
{
    Node {
        page: root.page,
        expect: root_expect(root, count),
    }
}

/// Goes down to the leaf of a key, and keeps the path.
fn descend<P: Pages>(
    pages: &mut P,
    top: Node,
    key: u64,
    path: &mut Path,
    work: &mut Work,
) -> Result<Node, Stop>
    requires ready { P.is_ready pages.old }
    requires top { IsPlace (P.standing pages.old).count top }
    requires few_levels { top.expect.level ≤ 3 }
    requires above { top.expect.low ≤ key }
    requires within { key ≤ top.expect.high }
    requires empty { path.old.items ≡ [] }
    ensures place { IfOk result (IsPlace (P.standing pages.old).count) }
    ensures level { IfOk result (λ leaf. leaf.expect.level ≡ 0) }
    ensures above { IfOk result (λ leaf. leaf.expect.low ≤ key) }
    ensures within { IfOk result (λ leaf. key ≤ leaf.expect.high) }
    ensures leads { IfOk result (Leads (P.standing pages.old).told (P.standing pages.old).current
        (P.standing pages.old).count key top path.new.items) }
    ensures keeps { OnOk result (KeepsLines (P.standing pages.old) (P.standing pages.new)) }
    ensures sound { IsTrue (P.standing pages.old).told → (free : List ℕ)
        → StandsAt (P.standing pages.old).current top.page top.expect free → IfErr result IsFault }
    ensures cost { OnTree P.Pages pages.old top.page top.expect
        (OnOk result
        (Costs (10 * top.expect.level) (P.standing pages.old) (P.standing pages.new))) }
    ensures nothing { OnOk result (WritesNothing (P.standing pages.old) (P.standing pages.new)) }
    ensures cause { TreeCause P.Pages pages.old pages.new work.new.page result }
    ensures fails { IfErr result (Keeps (FailsTree (P.standing pages.old).count work.new.page)) }
    ensures not_full { IfErr result NotFull }
    ensures call { PagesCall P.Pages pages.old pages.new result }
    ensures few { (P.standing pages.new).visits
        ≤ (P.standing pages.old).visits + top.expect.level + 1 }
{
    let mut place = top;
    loop {
        if place.expect.level == 0 {
            return Ok(place);
        }
        match look(pages, place.page, &place.expect, key, work)? {
            Spot::Child(_, child, low, high) => {
                path.push(Passed { place, low });
                let expect = child_expect(&place.expect, low, high);
                place = Node {
                    page: child,
                    expect,
                };
            }
            _ => return Ok(place),
        }
    }
}

/// What stands for an inner page after its child was changed: it has one more child, is mended, or is as it was.
fn settle<P: Pages>(
    pages: &mut P,
    passed: &Passed,
    child: Outcome,
    work: &mut Work,
) -> Result<Outcome, Stop>
    requires ready { P.is_ready pages.old }
    requires place { IsPlace (P.standing pages.old).count passed.now.place }
    requires level { 1 ≤ passed.now.place.expect.level }
    requires safe { IsSafe (P.standing pages.old).count passed.now.place.expect child }
    requires room { room_above child ≤ (P.standing pages.old).room }
    ensures safe { IfOk result (IsSafe (P.standing pages.old).count passed.now.place.expect) }
    ensures below { IfOk result (StaysBelow passed.now.place.expect) }
    ensures settles { IsTrue (P.standing pages.old).told
        → IfOk result
        (Settles (P.standing pages.old).current (P.standing pages.new).current passed.now child) }
    ensures follows { IfOk result (MayFollow child) }
    ensures kept { child ≡ Outcome.Whole → P.standing pages.new ≡ P.standing pages.old }
    ensures room { OnOk result
        ((P.standing pages.old).room ≤ (P.standing pages.new).room + room_above child) }
    ensures sound { IsTrue (P.standing pages.old).told → (free : List ℕ)
        → StandsAbove (P.standing pages.old).current passed.now child free
        → FitsHeader (P.standing pages.old).count ((P.standing pages.old).current 0 0)
        → IfErr result
        (StopsAbove (P.standing pages.old).count
        (P.standing pages.old).current passed.now child free) }
    ensures cause { TreeCause P.Pages pages.old pages.new work.new.page result }
    ensures fails { IfErr result (Keeps (FailsTree (P.standing pages.old).count work.new.page)) }
    ensures at { IfErr result (NamesAbove passed.now child) }
    ensures cuts { IsTrue (P.standing pages.old).told
        → IfOk result
        (CutsFor (entry_count
        (bytes_of (P.standing pages.old).current passed.now.place.page) ≡ 240)) }
    ensures needed { IsTrue (P.standing pages.old).told
        → IsWellFormed (bytes_of (P.standing pages.old).current passed.now.place.page)
        passed.now.place.expect
        → IfErr result (NeededAbove (P.standing pages.old).current passed.now child) }
    ensures call { PagesCall P.Pages pages.old pages.new result }
    ensures few { (P.standing pages.new).visits ≤ (P.standing pages.old).visits + 13 }
{
    let place = &passed.place;
    match child {
        Outcome::Short => mend(pages, place.page, &place.expect, passed.low, work),
        Outcome::Cut(separator, right) => {
            add_child(pages, place.page, &place.expect, separator, right, work)
        }
        Outcome::Whole => Ok(Outcome::Whole),
        Outcome::Alone(_) => Ok(Outcome::Whole),
    }
}

/// A put into the tree under a page.
pub fn put_in<P: Pages>(
    pages: &mut P,
    top: Node,
    key: u64,
    value: &[u8],
    work: &mut Work,
) -> Result<Change, Stop>
    requires ready { P.is_ready pages.old }
    requires top { IsPlace (P.standing pages.old).count top }
    requires few_levels { top.expect.level ≤ 3 }
    requires above { top.expect.low ≤ key }
    requires within { key ≤ top.expect.high }
    requires size { length value.now ≤ 480 }
    requires printable { list_all is_printable value.now ≡ true }
    requires cut_room { 129 * top.expect.level + 129 ≤ (P.standing pages.old).room }
    requires join_room { 189 * top.expect.level + 33 ≤ (P.standing pages.old).room }
    ensures safe { IfOk result
        (λ change. IsSafe (P.standing pages.old).count top.expect change.outcome) }
    ensures below { IfOk result (λ change. StaysBelow top.expect change.outcome) }
    ensures edits { IsTrue (P.standing pages.old).told
        → IfOk result
        (λ change. Edits (P.standing pages.old).current
        (P.standing pages.new).current top.page top.expect change.outcome (row_put key value.now)) }
    ensures under { IsTrue (P.standing pages.old).told → (free : List ℕ)
        → StandsAt (P.standing pages.old).current top.page top.expect free
        → IfOk result
        (λ change. ChangesUnder (row_put key value.now) key (P.standing pages.old).current
        (P.standing pages.new).current top.expect.level top.page top.expect.root change.outcome) }
    ensures fresh { IsTrue (P.standing pages.old).told
        → IsTree top.expect.pages (P.standing pages.old).current top.expect.level top.page
        top.expect.low top.expect.high top.expect.root
        → IfOk result
        (λ change. change.fresh
        ≡ not (is_some
        (row_get key (tree_rows (P.standing pages.old).current top.expect.level top.page)))) }
    ensures again { IfOk result
        (λ change. PutsAgain top key (length value.now) (P.standing pages.old)
        (P.standing pages.new) change.outcome) }
    ensures lines { IfOk result (λ change. PutsChange top key value.now (P.standing pages.old)
        (P.standing pages.new) change.outcome) }
    ensures by_lines { IfOk result
        (λ change. GoesByLines top key (λ root. fits_beside root key (length value.now))
        (put_lines key (length value.now)) (P.standing pages.old)
        (P.standing pages.new) change.outcome) }
    ensures room { IfOk result (λ change. IsSpent top.expect.level (P.standing pages.old).room
        (P.standing pages.new).room change.outcome) }
    ensures takes { IsTrue (P.standing pages.old).told
        → IfOk result
        (λ change. TakesFor (P.standing pages.old).count (P.standing pages.old).current
        (P.standing pages.new).current top.page top.expect change.outcome) }
    ensures sound { IsTrue (P.standing pages.old).told → (free : List ℕ)
        → StandsAt (P.standing pages.old).current top.page top.expect free
        → FitsHeader (P.standing pages.old).count ((P.standing pages.old).current 0 0)
        → IfErr result
        (StopsFor (spare_pages (P.standing pages.old).count (P.standing pages.old).current free
        ≤ top.expect.level)
        (1000000 < length (tree_rows (P.standing pages.old).current top.expect.level top.page))) }
    ensures cause { TreeCause P.Pages pages.old pages.new work.new.page result }
    ensures fails { IfErr result (Keeps (FailsTree (P.standing pages.old).count work.new.page)) }
    ensures at_top { IfErr result (NamesFull top.page (top.expect.level ≡ 3)) }
    ensures cuts { IsTrue (P.standing pages.old).told → (free : List ℕ)
        → StandsAt (P.standing pages.old).current top.page top.expect free
        → IfOk result
        (λ change. CutsFor
        (IsWayFull (P.standing pages.old).current top.expect.level top.page key value.now)
        change.outcome) }
    ensures needed { IsTrue (P.standing pages.old).told → (free : List ℕ)
        → StandsAt (P.standing pages.old).current top.page top.expect free
        → FitsHeader (P.standing pages.old).count ((P.standing pages.old).current 0 0)
        → IfErr result
        (MustCut (P.standing pages.old).current top.expect.level top.page key value.now) }
    ensures call { PagesCall P.Pages pages.old pages.new result }
    ensures few { (P.standing pages.new).visits
        ≤ (P.standing pages.old).visits + 14 * top.expect.level + 10 }
{
    let mut path = ArrayVec::new();
    let leaf = descend(pages, top, key, &mut path, work)?;
    let change = put_at(pages, leaf.page, &leaf.expect, key, value, work)?;
    let mut outcome = change.outcome;
    while let Some(passed) = path.pop() {
        outcome = settle(pages, &passed, outcome, work)?;
    }
    Ok(Change {
        outcome,
        fresh: change.fresh,
    })
}

/// A delete in the tree under a page.
pub fn delete_in<P: Pages>(
    pages: &mut P,
    top: Node,
    key: u64,
    work: &mut Work,
) -> Result<Outcome, Stop>
    requires ready { P.is_ready pages.old }
    requires top { IsPlace (P.standing pages.old).count top }
    requires few_levels { top.expect.level ≤ 3 }
    requires above { top.expect.low ≤ key }
    requires within { key ≤ top.expect.high }
    requires room { 189 * top.expect.level + 33 ≤ (P.standing pages.old).room }
    ensures safe { IfOk result (IsSafe (P.standing pages.old).count top.expect) }
    ensures edits { IsTrue (P.standing pages.old).told
        → IfOk result
        (λ outcome. Edits (P.standing pages.old).current
        (P.standing pages.new).current top.page top.expect outcome (row_delete key)) }
    ensures under { IsTrue (P.standing pages.old).told → (free : List ℕ)
        → StandsAt (P.standing pages.old).current top.page top.expect free
        → IfOk result (ChangesUnder (row_delete key) key (P.standing pages.old).current
        (P.standing pages.new).current top.expect.level top.page top.expect.root) }
    ensures by_lines { IfOk result
        (GoesByLines top key (keeps_without key) delete_lines (P.standing pages.old)
        (P.standing pages.new)) }
    ensures uncut { IfOk result (λ outcome. (k r : ℕ) → outcome ≢ Outcome.Cut k r) }
    ensures room { IfOk result
        (IsSpent top.expect.level (P.standing pages.old).room (P.standing pages.new).room) }
    ensures sound { IsTrue (P.standing pages.old).told → (free : List ℕ)
        → StandsAt (P.standing pages.old).current top.page top.expect free
        → FitsHeader (P.standing pages.old).count ((P.standing pages.old).current 0 0)
        → IfErr result IsFault }
    ensures cause { TreeCause P.Pages pages.old pages.new work.new.page result }
    ensures fails { IfErr result (Keeps (FailsTree (P.standing pages.old).count work.new.page)) }
    ensures not_full { IfErr result NotFull }
    ensures call { PagesCall P.Pages pages.old pages.new result }
    ensures few { (P.standing pages.new).visits
        ≤ (P.standing pages.old).visits + 14 * top.expect.level + 10 }
{
    let mut path = ArrayVec::new();
    let leaf = descend(pages, top, key, &mut path, work)?;
    let mut outcome = delete_at(pages, leaf.page, &leaf.expect, key, work)?;
    while let Some(passed) = path.pop() {
        outcome = settle(pages, &passed, outcome, work)?;
    }
    Ok(outcome)
}
