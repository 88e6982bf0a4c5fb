//! A key put into the tree of a root, and taken out of it.
ghost use Rattle.std.specs.Prelude.{◌≡◌, ◌≢◌, ◌+◌, ◌-◌, ◌*◌, ◌<◌, ◌≤◌, ℕ, List, length, not, is_some, true, IsTrue, OnOk, IfOk, IfErr};
ghost use Rattle.std.specs.List.{list_all};
ghost use Rattle.rows.specs.Value.{is_printable};
ghost use Rattle.page_format.specs.Search.{Keeps};
ghost use Rattle.bplus_tree.specs.Causes.{TreeCause};
ghost use Rattle.tree_search.specs.Where.{OnRooted};
ghost use Rattle.line_pages.specs.PagesCall.{PagesCall};
ghost use Rattle.line_pages.specs.Standing.{KeepsLines};
ghost use Rattle.rows.specs.Rows.{Row, row_get, row_put, row_delete};
ghost use Rattle.tree_search.specs.Tree.{IsRooted};
ghost use Rattle.bplus_tree.specs.Changes.{ChangesRows};
ghost use Rattle.bplus_tree.specs.PageChanges.{ChangesPages};
ghost use Rattle.bplus_tree.specs.Damage.{FailsTree, IsLack, StandsIn};
ghost use Rattle.bplus_tree.specs.Full.{NotFull, NamesRoot, MustCut};
ghost use Rattle.page_alloc.specs.Stops.{IsFault, pages_at_hand};
ghost use Rattle.page_alloc.specs.Written.{WritesNothing};
ghost use Rattle.node_edit.specs.Record.{HoldsLength};
ghost use Rattle.bplus_tree.specs.Record.{PutsRecord};
ghost use Rattle.bplus_tree.specs.LineChanges.{PutsLines};
ghost use Rattle.bplus_tree.specs.LineCosts.{PutsBeside, DeletesAlone};
ghost use Rattle.line_pages.specs.Cost.{Costs};

use crate::access::{take, write_new};
use crate::outcome::Outcome;
use crate::path::{delete_in, put_in, top_of};
use line_pages::{Pages, Stop};
use node_edit::root_of;
use page_format::Work;
use rows::Value;
use tree_search::{Root, get};

/// Puts the bytes of a value at a key: true where the key is new.
/// `Damaged` comes with the first check that a page of the tree fails; where a page is to be taken or given back, with the first
/// of the checks 31, 33, 34 and 36 that the header or the free list fails, and with 37 where no page is left; and with 39, of the
/// root, where it is at level 3, has 240 children and would have to be cut. On a tree beside a free list damage comes only where
/// the leaf of the key has no room for the row, and with 39 only where each page above that leaf has 240 children.
fn put_row<P: Pages>(
    pages: &mut P,
    root: &mut Root,
    key: u64,
    value: &[u8],
    work: &mut Work,
) -> Result<bool, Stop>
    requires ready { P.is_ready pages.old }
    requires some { 1 ≤ root.old.page }
    requires page { root.old.page < (P.standing pages.old).count }
    requires some_levels { 1 ≤ root.old.levels }
    requires few_levels { root.old.levels ≤ 4 }
    requires size { length value.now ≤ 480 }
    requires printable { list_all is_printable value.now ≡ true }
    requires room { 600 ≤ (P.standing pages.old).room }
    ensures rows { IsTrue (P.standing pages.old).told
        → OnOk result (ChangesRows (P.standing pages.old).count (P.standing pages.old).current
        (P.standing pages.new).current root.old root.new (row_put key value.now)) }
    ensures pages { IsTrue (P.standing pages.old).told
        → OnOk result (ChangesPages (P.standing pages.old).count key (P.standing pages.old).current
        (P.standing pages.new).current root.old root.new (row_put key value.now)) }
    ensures fresh { IsTrue (P.standing pages.old).told → (rows : List Row) (used : List ℕ)
        → IsRooted (P.standing pages.old).count (P.standing pages.old).current root.old rows used
        → IfOk result (λ fresh. fresh ≡ not (is_some (row_get key rows))) }
    ensures again { IsTrue (P.standing pages.old).told
        → OnOk result (PutsRecord root.old key (length value.now) (P.standing pages.old)
        (P.standing pages.new)) }
    ensures lines { IsTrue (P.standing pages.old).told
        → OnOk result
        (PutsLines root.old key value.now (P.standing pages.old) (P.standing pages.new)) }
    ensures by_lines { IsTrue (P.standing pages.old).told
        → OnOk result (PutsBeside root.old key (length value.now) (10 * root.old.levels + 18)
        (P.standing pages.old) (P.standing pages.new)) }
    ensures same_root { IsTrue (P.standing pages.old).told
        → OnOk result ((rows : List Row) (used : List ℕ)
        → IsRooted (P.standing pages.old).count (P.standing pages.old).current root.old rows used
        → HoldsLength key (length value.now) rows → root.new ≡ root.old) }
    ensures room { OnOk result ((P.standing pages.old).room ≤ (P.standing pages.new).room + 600) }
    ensures some { OnOk result (1 ≤ root.new.page) }
    ensures page { OnOk result (root.new.page < (P.standing pages.old).count) }
    ensures some_levels { 1 ≤ root.new.levels }
    ensures few_levels { root.new.levels ≤ 4 }
    ensures sound { IsTrue (P.standing pages.old).told → (rows : List Row) (used free : List ℕ)
        → StandsIn (P.standing pages.old).count (P.standing pages.old).current root.old rows used
        free → IfErr result
        (IsLack (pages_at_hand (P.standing pages.old).count
        (P.standing pages.old).current used free)
        (length (row_put key value.now rows)) (length rows)) }
    ensures cause { TreeCause P.Pages pages.old pages.new work.new.page result }
    ensures fails { IfErr result (Keeps (FailsTree (P.standing pages.old).count work.new.page)) }
    ensures at_root { IfErr result (NamesRoot root.old) }
    ensures needed { IsTrue (P.standing pages.old).told → (rows : List Row) (used free : List ℕ)
        → StandsIn (P.standing pages.old).count (P.standing pages.old).current root.old rows used
        free → IfErr result
        (MustCut (P.standing pages.old).current (root.old.levels - 1) root.old.page key value.now) }
    // what stays
    ensures call { PagesCall P.Pages pages.old pages.new result }
    ensures few { (P.standing pages.new).visits ≤ (P.standing pages.old).visits + 58 }
{
    let count = pages.page_count();
    let top = top_of(root, count);
    let change = put_in(pages, top, key, value, work)?;
    match change.outcome {
        Outcome::Whole => Ok(change.fresh),
        Outcome::Short => Ok(change.fresh),
        Outcome::Cut(separator, right) => {
            let page = take(pages, work)?;
            root_of(
                &mut work.page,
                root.levels,
                root.page,
                separator,
                right,
                count,
            );
            write_new(pages, page, &work.page, &mut work.spare)?;
            root.page = page;
            root.levels += 1;
            Ok(change.fresh)
        }
        Outcome::Alone(child) => {
            root.page = child;
            root.levels -= 1;
            Ok(change.fresh)
        }
    }
}

/// Takes a key out, if it is there. Its callers know that already: it is `delete` without the look-up.
/// `Damaged` comes with the first check that a page of the tree fails, and where a page is to be given back, with the first of
/// the checks 31, 33 and 34 that the header fails; on a tree beside a free list it does not come.
pub fn delete_row<P: Pages>(
    pages: &mut P,
    root: &mut Root,
    key: u64,
    work: &mut Work,
) -> Result<(), Stop>
    requires ready { P.is_ready pages.old }
    requires some { 1 ≤ root.old.page }
    requires page { root.old.page < (P.standing pages.old).count }
    requires some_levels { 1 ≤ root.old.levels }
    requires few_levels { root.old.levels ≤ 4 }
    requires room { 600 ≤ (P.standing pages.old).room }
    ensures rows { IsTrue (P.standing pages.old).told
        → OnOk result (ChangesRows (P.standing pages.old).count (P.standing pages.old).current
        (P.standing pages.new).current root.old root.new (row_delete key)) }
    ensures pages { IsTrue (P.standing pages.old).told
        → OnOk result (ChangesPages (P.standing pages.old).count key (P.standing pages.old).current
        (P.standing pages.new).current root.old root.new (row_delete key)) }
    ensures by_lines { IsTrue (P.standing pages.old).told
        → OnOk result (DeletesAlone root.old key (10 * root.old.levels + 18) (P.standing pages.old)
        (P.standing pages.new)) }
    ensures room { OnOk result ((P.standing pages.old).room ≤ (P.standing pages.new).room + 600) }
    ensures some { OnOk result (1 ≤ root.new.page) }
    ensures page { OnOk result (root.new.page < (P.standing pages.old).count) }
    ensures some_levels { 1 ≤ root.new.levels }
    ensures few_levels { root.new.levels ≤ 4 }
    ensures sound { IsTrue (P.standing pages.old).told → (rows : List Row) (used free : List ℕ)
        → StandsIn (P.standing pages.old).count (P.standing pages.old).current root.old rows used
        free → IfErr result IsFault }
    ensures cause { TreeCause P.Pages pages.old pages.new work.new.page result }
    ensures fails { IfErr result (Keeps (FailsTree (P.standing pages.old).count work.new.page)) }
    ensures not_full { IfErr result NotFull }
    // what stays
    ensures call { PagesCall P.Pages pages.old pages.new result }
    ensures few { (P.standing pages.new).visits ≤ (P.standing pages.old).visits + 52 }
{
    let top = top_of(root, pages.page_count());
    match delete_in(pages, top, key, work)? {
        Outcome::Alone(child) => {
            root.page = child;
            root.levels -= 1;
            Ok(())
        }
        Outcome::Whole => Ok(()),
        Outcome::Short => Ok(()),
        Outcome::Cut(_, _) => Ok(()),
    }
}

/// Whether a tree has the key.
fn has_key<P: Pages>(pages: &mut P, root: &Root, key: u64, work: &mut Work) -> Result<bool, Stop>
    requires ready { P.is_ready pages.old }
    requires some { 1 ≤ root.now.page }
    requires page { root.now.page < (P.standing pages.old).count }
    requires some_levels { 1 ≤ root.now.levels }
    requires few_levels { root.now.levels ≤ 4 }
    ensures found { OnRooted P.Pages pages.old root.now
        (λ rows used. IfOk result (λ found. found ≡ is_some (row_get key rows))) }
    ensures sound { OnRooted P.Pages pages.old root.now (λ rows used. IfErr result IsFault) }
    ensures nothing { OnOk result (WritesNothing (P.standing pages.old) (P.standing pages.new)) }
    ensures cost { OnRooted P.Pages pages.old root.now
        (λ rows used.
        OnOk result (Costs (10 * root.now.levels + 29) (P.standing pages.old)
        (P.standing pages.new))) }
    ensures cause { TreeCause P.Pages pages.old pages.new work.new.page result }
    ensures fails { IfErr result (Keeps (FailsTree (P.standing pages.old).count work.new.page)) }
    ensures not_full { IfErr result NotFull }
    ensures call { PagesCall P.Pages pages.old pages.new result }
    ensures keeps { OnOk result (KeepsLines (P.standing pages.old) (P.standing pages.new)) }
    ensures few { (P.standing pages.new).visits ≤ (P.standing pages.old).visits + 4 }
{
    match seek(pages, root, key, work)? {
        Some(_) => Ok(true),
        None => Ok(false),
    }
}

/// The value of a key, with damage in the words of trees.
fn seek<P: Pages>(
    pages: &mut P,
    root: &Root,
    key: u64,
    work: &mut Work,
) -> Result<Option<Value>, Stop>
    requires ready { P.is_ready pages.old }
    requires some { 1 ≤ root.now.page }
    requires page { root.now.page < (P.standing pages.old).count }
    requires some_levels { 1 ≤ root.now.levels }
    requires few_levels { root.now.levels ≤ 4 }
    ensures value { OnRooted P.Pages pages.old root.now
        (λ rows used. IfOk result (λ value. value ≡ row_get key rows)) }
    ensures sound { OnRooted P.Pages pages.old root.now (λ rows used. IfErr result IsFault) }
    ensures nothing { OnOk result (WritesNothing (P.standing pages.old) (P.standing pages.new)) }
    ensures cost { OnRooted P.Pages pages.old root.now
        (λ rows used.
        OnOk result (Costs (10 * root.now.levels + 29) (P.standing pages.old)
        (P.standing pages.new))) }
    ensures cause { TreeCause P.Pages pages.old pages.new work.new.page result }
    ensures fails { IfErr result (Keeps (FailsTree (P.standing pages.old).count work.new.page)) }
    ensures not_full { IfErr result NotFull }
    ensures call { PagesCall P.Pages pages.old pages.new result }
    ensures keeps { OnOk result (KeepsLines (P.standing pages.old) (P.standing pages.new)) }
    ensures few { (P.standing pages.new).visits ≤ (P.standing pages.old).visits + 4 }
{
    get(pages, root, key, work)
}

/// Puts a value at a key: true where the key is new. On a tree beside a free list the only damage is check 37, where no page
/// is left and fewer are at hand than a tree of the rows afterwards may have, and check 39, where a root at level 3 has 240
/// children and would have to be cut, over more than a million rows; and either comes only where the leaf of the key has no room
/// for the row, 39 only where each page above that leaf has 240 children.
pub fn put<P: Pages>(
    pages: &mut P,
    root: &mut Root,
    key: u64,
    value: &Value,
    work: &mut Work,
) -> Result<bool, Stop>
    requires ready { P.is_ready pages.old }
    requires some { 1 ≤ root.old.page }
    requires page { root.old.page < (P.standing pages.old).count }
    requires some_levels { 1 ≤ root.old.levels }
    requires few_levels { root.old.levels ≤ 4 }
    requires room { 600 ≤ (P.standing pages.old).room }
    // the rows, and whether the key is new
    ensures rows { IsTrue (P.standing pages.old).told
        → OnOk result (ChangesRows (P.standing pages.old).count (P.standing pages.old).current
        (P.standing pages.new).current root.old root.new (row_put key value.now)) }
    ensures pages { IsTrue (P.standing pages.old).told
        → OnOk result (ChangesPages (P.standing pages.old).count key (P.standing pages.old).current
        (P.standing pages.new).current root.old root.new (row_put key value.now)) }
    ensures room { OnOk result ((P.standing pages.old).room ≤ (P.standing pages.new).room + 600) }
    ensures fresh { IsTrue (P.standing pages.old).told → (rows : List Row) (used : List ℕ)
        → IsRooted (P.standing pages.old).count (P.standing pages.old).current root.old rows used
        → IfOk result (λ fresh. fresh ≡ not (is_some (row_get key rows))) }
    // where the key has a value of this length, lines of its record are written alone, and the root is the same
    ensures again { IsTrue (P.standing pages.old).told
        → OnOk result (PutsRecord root.old key (length value.now) (P.standing pages.old)
        (P.standing pages.new)) }
    ensures same_root { IsTrue (P.standing pages.old).told
        → OnOk result ((rows : List Row) (used : List ℕ)
        → IsRooted (P.standing pages.old).count (P.standing pages.old).current root.old rows used
        → HoldsLength key (length value.now) rows → root.new ≡ root.old) }
    // where the rows of its leaf fit it with the value put, the lines of the leaf that change are written alone
    ensures lines { IsTrue (P.standing pages.old).told
        → OnOk result
        (PutsLines root.old key value.now (P.standing pages.old) (P.standing pages.new)) }
    // where it has its place beside the other records of its leaf, so many lines are touched
    ensures by_lines { IsTrue (P.standing pages.old).told
        → OnOk result (PutsBeside root.old key (length value.now) (10 * root.old.levels + 18)
        (P.standing pages.old) (P.standing pages.new)) }
    // why it stops
    ensures sound { IsTrue (P.standing pages.old).told → (rows : List Row) (used free : List ℕ)
        → StandsIn (P.standing pages.old).count (P.standing pages.old).current root.old rows used
        free → IfErr result
        (IsLack (pages_at_hand (P.standing pages.old).count
        (P.standing pages.old).current used free)
        (length (row_put key value.now rows)) (length rows)) }
    ensures cause { TreeCause P.Pages pages.old pages.new work.new.page result }
    ensures fails { IfErr result (Keeps (FailsTree (P.standing pages.old).count work.new.page)) }
    ensures at_root { IfErr result (NamesRoot root.old) }
    ensures needed { IsTrue (P.standing pages.old).told → (rows : List Row) (used free : List ℕ)
        → StandsIn (P.standing pages.old).count (P.standing pages.old).current root.old rows used
        free → IfErr result
        (MustCut (P.standing pages.old).current (root.old.levels - 1) root.old.page key value.now) }
    // the root, and what stays
    ensures some { OnOk result (1 ≤ root.new.page) }
    ensures page { OnOk result (root.new.page < (P.standing pages.old).count) }
    ensures some_levels { 1 ≤ root.new.levels }
    ensures few_levels { root.new.levels ≤ 4 }
    ensures call { PagesCall P.Pages pages.old pages.new result }
    ensures few { (P.standing pages.new).visits ≤ (P.standing pages.old).visits + 58 }
{
    put_row(pages, root, key, value.bytes(), work)
}

/// Takes a key out: true where there was a row of it. On a tree beside a free list it answers no damage.
pub fn delete<P: Pages>(
    pages: &mut P,
    root: &mut Root,
    key: u64,
    work: &mut Work,
) -> Result<bool, Stop>
    requires ready { P.is_ready pages.old }
    requires some { 1 ≤ root.old.page }
    requires page { root.old.page < (P.standing pages.old).count }
    requires some_levels { 1 ≤ root.old.levels }
    requires few_levels { root.old.levels ≤ 4 }
    requires room { 600 ≤ (P.standing pages.old).room }
    // the rows, and whether one was removed
    ensures rows { IsTrue (P.standing pages.old).told
        → OnOk result (ChangesRows (P.standing pages.old).count (P.standing pages.old).current
        (P.standing pages.new).current root.old root.new (row_delete key)) }
    ensures pages { IsTrue (P.standing pages.old).told
        → OnOk result (ChangesPages (P.standing pages.old).count key (P.standing pages.old).current
        (P.standing pages.new).current root.old root.new (row_delete key)) }
    ensures room { OnOk result ((P.standing pages.old).room ≤ (P.standing pages.new).room + 600) }
    ensures found { IsTrue (P.standing pages.old).told → (rows : List Row) (used : List ℕ)
        → IsRooted (P.standing pages.old).count (P.standing pages.old).current root.old rows used
        → IfOk result (λ found. found ≡ is_some (row_get key rows)) }
    // where the leaf of the key has as many bytes as it has to afterwards, so many lines are touched, and those alone are written
    // that differ in that leaf
    ensures by_lines { IsTrue (P.standing pages.old).told
        → OnOk result (DeletesAlone root.old key (20 * root.old.levels + 47) (P.standing pages.old)
        (P.standing pages.new)) }
    // why it stops
    ensures sound { IsTrue (P.standing pages.old).told → (rows : List Row) (used free : List ℕ)
        → StandsIn (P.standing pages.old).count (P.standing pages.old).current root.old rows used
        free → IfErr result IsFault }
    ensures cause { TreeCause P.Pages pages.old pages.new work.new.page result }
    ensures fails { IfErr result (Keeps (FailsTree (P.standing pages.old).count work.new.page)) }
    ensures not_full { IfErr result NotFull }
    // the root, and what stays
    ensures some { OnOk result (1 ≤ root.new.page) }
    ensures page { OnOk result (root.new.page < (P.standing pages.old).count) }
    ensures some_levels { 1 ≤ root.new.levels }
    ensures few_levels { root.new.levels ≤ 4 }
    ensures call { PagesCall P.Pages pages.old pages.new result }
    ensures few { (P.standing pages.new).visits ≤ (P.standing pages.old).visits + 56 }
{
    let found = has_key(pages, root, key, work)?;
    delete_row(pages, root, key, work)?;
    Ok(found)
}
