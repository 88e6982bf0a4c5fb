//! Two neighbours of a tree joined.
ghost use Rattle.std.specs.Prelude.{◌≡◌, ◌≢◌, ◌+◌, ◌<◌, ◌≤◌, ◌⊎◌, ◌++◌, ℕ, List, length, Option, None, Some, IsTrue, OnOk, IfOk, IfErr};
ghost use Rattle.bplus_tree.specs.Causes.{TreeCause};
ghost use Rattle.line_pages.specs.PagesCall.{PagesCall};
ghost use Rattle.line_pages.specs.Bytes.{bytes_of};
ghost use Rattle.line_pages.specs.Standing.{KeepsLines};
ghost use Rattle.page_format.specs.Node.{IsWellFormed, leaf_rows as rows_of, children as children_of};
ghost use Rattle.page_format.specs.Search.{Keeps};
ghost use Rattle.bplus_tree.specs.Damage.{FailsTree};
ghost use Rattle.bplus_tree.specs.Full.{NotFull};
ghost use Rattle.page_alloc.specs.Stops.{IsFault};
ghost use Rattle.page_alloc.specs.Space.{FitsHeader};
ghost use Rattle.page_alloc.specs.Moves.{Gives};
ghost use Rattle.page_alloc.specs.Written.{Rewrites};
ghost use Rattle.node_edit.specs.Edit.{left_of, right_of, whole_of, Merges, IsEnoughLeaf, IsEnoughInner, IsCutIn, IsPair};
ghost use Rattle.page_format.specs.Sound.{row_bytes};
ghost use Rattle.node_edit.specs.Cuts.{JoinsRows, JoinsChildren};
ghost use Rattle.bplus_tree.specs.Edit.{Joins, JoinsPair, WritesJoined, WritesDivided};

use crate::access::{give, load};
use line_pages::{Pages, Stop};
use node_edit::{Pair, left_expect, merge_inner, merge_leaves, right_expect};
use page_alloc::write_changes;
use page_format::Work;

/// Reads two neighbours: the left one into `left` and `spare`, the right one into `right` and `page`.
fn fetch<P: Pages>(
    pages: &mut P,
    pair: &Pair,
    level: u8,
    count: u64,
    work: &mut Work,
) -> Result<(), Stop>
    requires ready { P.is_ready pages.old }
    requires count { count ≡ (P.standing pages.old).count }
    requires is { IsPair count pair.now }
    ensures left { OnOk result (IsWellFormed work.new.left (left_of count level pair.now)) }
    ensures right { OnOk result (IsWellFormed work.new.right (right_of count level pair.now)) }
    ensures spare { OnOk result (work.new.spare ≡ work.new.left) }
    ensures page { OnOk result (work.new.page ≡ work.new.right) }
    ensures left_is { IsTrue (P.standing pages.old).told
        → OnOk result (work.new.left ≡ bytes_of (P.standing pages.old).current pair.now.left) }
    ensures right_is { IsTrue (P.standing pages.old).told
        → OnOk result (work.new.right ≡ bytes_of (P.standing pages.old).current pair.now.right) }
    ensures keeps { OnOk result (KeepsLines (P.standing pages.old) (P.standing pages.new)) }
    ensures sound { IsTrue (P.standing pages.old).told
        → IsWellFormed (bytes_of (P.standing pages.old).current pair.now.left)
        (left_of count level pair.now)
        → IsWellFormed (bytes_of (P.standing pages.old).current pair.now.right)
        (right_of count level pair.now) → IfErr result IsFault }
    ensures cause { TreeCause P.Pages pages.old pages.new work.new.page result }
    ensures fails { IfErr result (Keeps (FailsTree (P.standing pages.old).count work.new.page)) }
    ensures not_full { IfErr result NotFull }
    ensures call { PagesCall P.Pages pages.old pages.new result }
    ensures few { (P.standing pages.new).visits ≤ (P.standing pages.old).visits + 2 }
{
    let one = left_expect(pair, level, count);
    load(pages, pair.left, &one, work)?;
    work.left.copy_from(&work.page);
    work.spare.copy_from(&work.page);
    let two = right_expect(pair, level, count);
    load(pages, pair.right, &two, work)?;
    work.right.copy_from(&work.page);
    Ok(())
}

/// Joins the two in memory.
fn merge(work: &mut Work, pair: &Pair, level: u8, count: u64) -> Option<u64>
    requires is { IsPair count pair.now }
    requires left { IsWellFormed work.old.left (left_of count level pair.now) }
    requires right { IsWellFormed work.old.right (right_of count level pair.now) }
    ensures cut { IsCutIn pair.now result }
    ensures leaves { level ≡ 0 → (IsEnoughLeaf work.old.left ⊎ IsEnoughLeaf work.old.right)
        → Merges rows_of (whole_of count 0 pair.now) work.new.left work.new.right
        (rows_of work.old.left ++ rows_of work.old.right) result }
    ensures inner { 1 ≤ level → (IsEnoughInner work.old.left ⊎ IsEnoughInner work.old.right)
        → Merges children_of (whole_of count level pair.now) work.new.left work.new.right
        (children_of work.old.left ++ children_of work.old.right) result }
    ensures rows { level ≡ 0
        → ((row_bytes (rows_of work.old.left) < 1344) ⊎ (row_bytes (rows_of work.old.right) < 1344))
        → JoinsRows (rows_of work.old.left ++ rows_of work.old.right) (rows_of work.new.left)
        (rows_of work.new.right) result }
    ensures children { 1 ≤ level
        → JoinsChildren (children_of work.old.left ++ children_of work.old.right)
        (children_of work.new.left) (children_of work.new.right) result }
    ensures page { work.new.page ≡ work.old.page }
    ensures spare { work.new.spare ≡ work.old.spare }
{
    if level == 0 {
        return merge_leaves(&mut work.left, &mut work.right, pair, count);
    }
    merge_inner(&mut work.left, &mut work.right, pair, level, count)
}

/// Writes the left one, with the entries of both, and gives the right one back.
#[tactic(auto, using(page_alloc::proofs::SoundLaws::sound_never, crate::proofs::FullLaws::never_not_full))]
fn write_joined<P: Pages>(
    pages: &mut P,
    pair: &Pair,
    count: u64,
    work: &mut Work,
) -> Result<(), Stop>
    requires ready { P.is_ready pages.old }
    requires count { count ≡ (P.standing pages.old).count }
    requires is { IsPair count pair.now }
    requires room { 128 ≤ (P.standing pages.old).room }
    ensures writes { IsTrue (P.standing pages.old).told
        → work.old.spare ≡ bytes_of (P.standing pages.old).current pair.now.left
        → OnOk result
        (WritesJoined count (P.standing pages.old).current
        (P.standing pages.new).current pair.now work.old.left) }
    ensures room { OnOk result ((P.standing pages.old).room ≤ (P.standing pages.new).room + 128) }
    ensures sound { IsTrue (P.standing pages.old).told
        → work.old.spare ≡ bytes_of (P.standing pages.old).current pair.now.left
        → FitsHeader count ((P.standing pages.old).current 0 0) → IfErr result IsFault }
    ensures cause { TreeCause P.Pages pages.old pages.new work.new.page result }
    ensures fails { IfErr result (Keeps (FailsTree (P.standing pages.old).count work.new.page)) }
    ensures not_full { IfErr result NotFull }
    ensures call { PagesCall P.Pages pages.old pages.new result }
    ensures few { (P.standing pages.new).visits ≤ (P.standing pages.old).visits + 5 }
{
    write_changes(pages, pair.left, &work.spare, &work.left)?;
    give(pages, work, pair.right)
}

/// Writes both.
#[tactic(auto, using(page_alloc::proofs::SoundLaws::sound_never, crate::proofs::FullLaws::never_not_full))]
fn write_divided<P: Pages>(
    pages: &mut P,
    pair: &Pair,
    count: u64,
    work: &mut Work,
) -> Result<(), Stop>
    requires ready { P.is_ready pages.old }
    requires count { count ≡ (P.standing pages.old).count }
    requires is { IsPair count pair.now }
    requires room { 128 ≤ (P.standing pages.old).room }
    ensures writes { IsTrue (P.standing pages.old).told
        → work.old.spare ≡ bytes_of (P.standing pages.old).current pair.now.left
        → work.old.page ≡ bytes_of (P.standing pages.old).current pair.now.right
        → pair.now.left ≢ pair.now.right
        → OnOk result
        (WritesDivided (P.standing pages.old).current
        (P.standing pages.new).current pair.now work.old.left work.old.right) }
    ensures room { OnOk result ((P.standing pages.old).room ≤ (P.standing pages.new).room + 128) }
    ensures sound { IfErr result IsFault }
    ensures cause { TreeCause P.Pages pages.old pages.new work.new.page result }
    ensures fails { IfErr result (Keeps (FailsTree (P.standing pages.old).count work.new.page)) }
    ensures not_full { IfErr result NotFull }
    ensures call { PagesCall P.Pages pages.old pages.new result }
    ensures few { (P.standing pages.new).visits ≤ (P.standing pages.old).visits + 2 }
{
    write_changes(pages, pair.left, &work.spare, &work.left)?;
    write_changes(pages, pair.right, &work.page, &work.right)
}

/// Joins two neighbours, or divides their entries anew. The right one is given back where it was emptied.
pub fn join<P: Pages>(
    pages: &mut P,
    pair: &Pair,
    level: u8,
    count: u64,
    work: &mut Work,
) -> Result<Option<u64>, Stop>
    requires ready { P.is_ready pages.old }
    requires count { count ≡ (P.standing pages.old).count }
    requires is { IsPair count pair.now }
    requires room { 128 ≤ (P.standing pages.old).room }
    ensures cut { IfOk result (IsCutIn pair.now) }
    ensures joins { IsTrue (P.standing pages.old).told
        → IfOk result
        (Joins count (P.standing pages.old).current (P.standing pages.new).current level pair.now) }
    ensures pages { IsTrue (P.standing pages.old).told
        → IfOk result
        (JoinsPair count (P.standing pages.old).current
        (P.standing pages.new).current level pair.now) }
    ensures room { OnOk result ((P.standing pages.old).room ≤ (P.standing pages.new).room + 128) }
    ensures sound { IsTrue (P.standing pages.old).told
        → IsWellFormed (bytes_of (P.standing pages.old).current pair.now.left)
        (left_of count level pair.now)
        → IsWellFormed (bytes_of (P.standing pages.old).current pair.now.right)
        (right_of count level pair.now) → FitsHeader count ((P.standing pages.old).current 0 0)
        → IfErr result IsFault }
    ensures cause { TreeCause P.Pages pages.old pages.new work.new.page result }
    ensures fails { IfErr result (Keeps (FailsTree (P.standing pages.old).count work.new.page)) }
    ensures not_full { IfErr result NotFull }
    ensures call { PagesCall P.Pages pages.old pages.new result }
    ensures few { (P.standing pages.new).visits ≤ (P.standing pages.old).visits + 7 }
{
    fetch(pages, pair, level, count, work)?;
    match merge(work, pair, level, count) {
        None => {
            write_joined(pages, pair, count, work)?;
            Ok(None)
        }
        Some(key) => {
            write_divided(pages, pair, count, work)?;
            Ok(Some(key))
        }
    }
}
