//! The groups of a log, replayed in place.
//!
//! A group that ended by a commit stores the line after each of its records, in order; any other the line before each, from
//! last to first.
ghost use Rattle.std.specs.Prelude.{◌≡◌, ◌+◌, ◌*◌, ◌^◌, ◌<◌, ◌≤◌, ℕ};
ghost use Rattle.devices.specs.World.{Goes, NvmCause};
ghost use Rattle.flat_nvm_layout.specs.Sizes.{sizes_of};
ghost use Rattle.flat_store_meaning.specs.Layout.{pages, nvm_lines};
ghost use Rattle.flat_recovery.specs.Causes.{OpenCause};
ghost use Rattle.flat_recovery.specs.Heads.{KeepsFault};
ghost use Rattle.flat_recovery.specs.Replaying.{side_line, group_end, CopiesLine, StoresRecord, RedoesGroup, UndoesGroup, EndsGroup, TakesEntry, IsBehind, ReplaysLog};

use crate::checking::head_at;
use crate::errors::OpenError;
use devices::Devices;
use flat_nvm_log::{EndKind, Head, Log};

/// The records of a group that were read so far: so many, of three lines each, from an offset on.
#[derive(Clone, Copy)]
pub(crate) struct Group {
    pub(crate) first: u64,
    pub(crate) count: u64,
}

/// The line before a record, or the one after it.
#[derive(Clone, Copy)]
pub(crate) enum Side {
    Before,
    After,
}

/// Replays a log over the homes.
pub(crate) fn replay<D: Devices>(dev: &mut D, log: &Log) -> Result<(), OpenError>
    requires fits { nvm_lines (sizes_of log.now.geometry) ≤ (D.standing dev.old).lines }
    requires framed { pages (sizes_of log.now.geometry) ≤ log.now.geometry.frames }
    requires low { log.now.tail ≤ 2 ^ 61 }
    ensures replays { ReplaysLog log.now (D.standing dev.old) (D.standing dev.new) result }
    ensures keeps { KeepsFault (sizes_of log.now.geometry) log.now.tail result }
    ensures cause { OpenCause (D.standing dev.old) (D.standing dev.new) result }
    ensures goes { Goes (D.standing dev.old) (D.standing dev.new) }
{
    let mut group = Group {
        first: log.start,
        count: 0,
    };
    while end_of(&group) < log.tail {
        group = take_entry(dev, log, &group)?;
    }
    undo(dev, log, &group)
}

/// The offset behind its records.
fn end_of(group: &Group) -> u64
    requires { group_end group.now < 2 ^ 64 }
    ensures { result ≡ group_end group.now }
{
    group.first + 3 * group.count
}

/// Reads the entry behind a group's records: a record is one of them; an end writes them, and the next group begins behind it.
fn take_entry<D: Devices>(dev: &mut D, log: &Log, group: &Group) -> Result<Group, OpenError>
    requires above { log.now.start ≤ group.now.first }
    requires below { group_end group.now < log.now.tail }
    requires fits { nvm_lines (sizes_of log.now.geometry) ≤ (D.standing dev.old).lines }
    requires framed { pages (sizes_of log.now.geometry) ≤ log.now.geometry.frames }
    requires low { log.now.tail ≤ 2 ^ 61 }
    ensures takes { TakesEntry log.now group.now (D.standing dev.old) (D.standing dev.new) result }
    ensures behind { IsBehind log.now group.now result }
    ensures keeps { KeepsFault (sizes_of log.now.geometry) log.now.tail result }
    ensures cause { OpenCause (D.standing dev.old) (D.standing dev.new) result }
    ensures goes { Goes (D.standing dev.old) (D.standing dev.new) }
{
    let at = end_of(group);
    match head_at(dev, log, at)? {
        Head::Line { .. } => Ok(Group {
            first: group.first,
            count: group.count + 1,
        }),
        Head::End(kind) => {
            write_group(dev, log, group, kind)?;
            Ok(Group {
                first: at + 1,
                count: 0,
            })
        }
    }
}

/// Writes the records of a group that has ended.
fn write_group<D: Devices>(
    dev: &mut D,
    log: &Log,
    group: &Group,
    kind: EndKind,
) -> Result<(), OpenError>
    requires above { log.now.start ≤ group.now.first }
    requires below { group_end group.now ≤ log.now.tail }
    requires fits { nvm_lines (sizes_of log.now.geometry) ≤ (D.standing dev.old).lines }
    requires framed { pages (sizes_of log.now.geometry) ≤ log.now.geometry.frames }
    requires low { log.now.tail ≤ 2 ^ 61 }
    ensures ends { EndsGroup log.now group.now kind (D.standing dev.old)
        (D.standing dev.new) result }
    ensures keeps { KeepsFault (sizes_of log.now.geometry) log.now.tail result }
    ensures cause { OpenCause (D.standing dev.old) (D.standing dev.new) result }
    ensures goes { Goes (D.standing dev.old) (D.standing dev.new) }
{
    match kind {
        EndKind::Commit => redo(dev, log, group),
        EndKind::Abort => undo(dev, log, group),
    }
}

/// Stores the line after each record, in order.
fn redo<D: Devices>(dev: &mut D, log: &Log, group: &Group) -> Result<(), OpenError>
    requires above { log.now.start ≤ group.now.first }
    requires below { group_end group.now ≤ log.now.tail }
    requires fits { nvm_lines (sizes_of log.now.geometry) ≤ (D.standing dev.old).lines }
    requires framed { pages (sizes_of log.now.geometry) ≤ log.now.geometry.frames }
    requires low { log.now.tail ≤ 2 ^ 61 }
    ensures redoes { RedoesGroup log.now group.now (D.standing dev.old)
        (D.standing dev.new) result }
    ensures keeps { KeepsFault (sizes_of log.now.geometry) log.now.tail result }
    ensures cause { OpenCause (D.standing dev.old) (D.standing dev.new) result }
    ensures goes { Goes (D.standing dev.old) (D.standing dev.new) }
{
    for i in 0..group.count {
        store_record(dev, log, group.first + 3 * i, Side::After)?;
    }
    Ok(())
}

/// Stores the line before each record, from last to first.
fn undo<D: Devices>(dev: &mut D, log: &Log, group: &Group) -> Result<(), OpenError>
    requires above { log.now.start ≤ group.now.first }
    requires below { group_end group.now ≤ log.now.tail }
    requires fits { nvm_lines (sizes_of log.now.geometry) ≤ (D.standing dev.old).lines }
    requires framed { pages (sizes_of log.now.geometry) ≤ log.now.geometry.frames }
    requires low { log.now.tail ≤ 2 ^ 61 }
    ensures undoes { UndoesGroup log.now group.now (D.standing dev.old)
        (D.standing dev.new) result }
    ensures keeps { KeepsFault (sizes_of log.now.geometry) log.now.tail result }
    ensures cause { OpenCause (D.standing dev.old) (D.standing dev.new) result }
    ensures goes { Goes (D.standing dev.old) (D.standing dev.new) }
{
    let mut left = group.count;
    while left > 0 {
        left -= 1;
        store_record(dev, log, group.first + 3 * left, Side::Before)?;
    }
    Ok(())
}

/// Stores a line of a record in its place. Where an end is read in place of the record nothing is stored.
fn store_record<D: Devices>(dev: &mut D, log: &Log, at: u64, side: Side) -> Result<(), OpenError>
    requires above { log.now.start ≤ at }
    requires below { at + 3 ≤ log.now.tail }
    requires fits { nvm_lines (sizes_of log.now.geometry) ≤ (D.standing dev.old).lines }
    requires framed { pages (sizes_of log.now.geometry) ≤ log.now.geometry.frames }
    requires low { log.now.tail ≤ 2 ^ 61 }
    ensures stores { StoresRecord log.now at side (D.standing dev.old) (D.standing dev.new) result }
    ensures keeps { KeepsFault (sizes_of log.now.geometry) log.now.tail result }
    ensures cause { OpenCause (D.standing dev.old) (D.standing dev.new) result }
    ensures goes { Goes (D.standing dev.old) (D.standing dev.new) }
{
    match head_at(dev, log, at)? {
        Head::Line { page, line } => {
            let place = log.geometry.frame_line(page as u32, line as usize);
            copy_line(dev, log, at + side_place(side), place)
        }
        Head::End(_) => Ok(()),
    }
}

/// How far behind its head the line of a record stands.
fn side_place(side: Side) -> u64
    ensures place { result ≡ side_line side }
    ensures few { result ≤ 2 }
{
    match side {
        Side::Before => 1,
        Side::After => 2,
    }
}

/// Stores the line of the log at an offset.
fn copy_line<D: Devices>(dev: &mut D, log: &Log, from: u64, place: u64) -> Result<(), OpenError>
    requires above { log.now.start ≤ from }
    requires below { from < log.now.tail }
    requires fits { nvm_lines (sizes_of log.now.geometry) ≤ (D.standing dev.old).lines }
    requires place { place < (D.standing dev.old).lines }
    ensures copies { CopiesLine log.now from place (D.standing dev.old)
        (D.standing dev.new) result }
    ensures keeps { KeepsFault (sizes_of log.now.geometry) log.now.tail result }
    ensures cause { OpenCause (D.standing dev.old) (D.standing dev.new) result }
    ensures goes { Goes (D.standing dev.old) (D.standing dev.new) }
{
    let value = log.load_line(dev, from)?;
    Ok(dev.store_line(place, &value)?)
}
