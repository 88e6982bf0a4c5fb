//! The log: its place between the two gates, and its calls.
ghost use Rattle.std.specs.Prelude.{◌≡◌, ◌≤◌, ◌<◌, ◌^◌, ℕ, ◌+◌, ◌-◌, ◌*◌, IsTrue, IfOk};
ghost use Rattle.devices.specs.State.{current};
ghost use Rattle.devices.specs.World.{Goes, Stays, MakesAll, NvmCause, now};
ghost use Rattle.flat_store_meaning.specs.Layout.{nvm_lines, ring_lines};
ghost use Rattle.flat_store_meaning.specs.Recovered.{log_line};
ghost use Rattle.flat_store_meaning.specs.Put.{append_calls, start_calls};

use crate::ending::end_at;
use crate::putting::{append_at, put_gate};
use crate::record::{EndKind, LineRecord, eight, end_line, record_head};
use devices::{Devices, Failed};
use flat_nvm_layout::{Geometry, Super};
use nvm_model::Line;

/// A log that stands in its ring: the offsets from the start up to the tail.
#[derive(Drop)]
pub struct Log {
    /// The sizes of its store.
    pub geometry: Geometry,
    /// The offset of its first line.
    pub start: u64,
    /// The offset behind its last line.
    pub tail: u64,
    ghost started: { start ≤ tail },
    ghost in_ring: { tail ≤ start + 64 * geometry.log_blocks },
}

impl Log {
    ghost use Rattle.flat_nvm_layout.specs.Sizes.{sizes_of};
    ghost use Rattle.flat_nvm_log.specs.Entries.{record_lines, record_entry, end_lines, end_entry};
    ghost use Rattle.flat_nvm_log.specs.Moved.{IsMoved, IsEmptied};
    ghost use Rattle.flat_nvm_log.specs.Standing.{PutsEntry, EmptiesLog, RecordKeeps, EndKeeps, StartKeeps};

    /// The log of a superblock that passes its checks.
    pub fn open(geometry: &Geometry, gates: &Super) -> Log
        requires geometry { gates.now.geometry ≡ geometry.now }
        requires started { gates.now.start ≤ gates.now.tail }
        requires in_ring { gates.now.tail - gates.now.start ≤ 64 * geometry.now.log_blocks }
        ensures geometry { result.geometry ≡ geometry.now }
        ensures start { result.start ≡ gates.now.start }
        ensures tail { result.tail ≡ gates.now.tail }
    {
        Log {
            geometry: *geometry,
            start: gates.start,
            tail: gates.tail,
        }
    }

    /// The offset of its first line.
    pub fn start(&self) -> u64
        ensures { result ≡ self.now.start }
    {
        self.start
    }

    /// The lines below this offset stand on the disk: none does.
    pub fn drained(&self) -> u64
        ensures { result ≡ 0 }
    {
        0
    }

    /// The offset behind its last line.
    pub fn tail(&self) -> u64
        ensures { result ≡ self.now.tail }
    {
        self.tail
    }

    /// How many lines can be put before the start moves.
    pub fn free_lines(&self) -> u64
        ensures { result ≡ 64 * self.now.geometry.log_blocks - (self.now.tail - self.now.start) }
    {
        64 * self.geometry.log_blocks as u64 - (self.tail - self.start)
    }

    /// Puts a record at the end: its three lines, durable, and then the tail behind them, durable. The ring has three free lines.
    /// `Failed` where the count of NVM faults rose; a store recovers
    /// then before it goes on.
    pub fn append<D: Devices>(&mut self, dev: &mut D, change: &LineRecord) -> Result<(), Failed>
        requires room { self.old.tail + 3 ≤ self.old.start + 64 * self.old.geometry.log_blocks }
        requires below { self.old.tail < 2 ^ 62 }
        requires fits { nvm_lines (sizes_of self.old.geometry) ≤ (D.standing dev.old).lines }

        // What it does to the log, in memory, on the device, and in every image.
        ensures moved { IsMoved self.old self.new 3 result }
        ensures makes { MakesAll
            (append_calls (sizes_of self.old.geometry) self.old.tail (record_lines change.now))
            (D.standing dev.old) (D.standing dev.new) result }
        ensures puts { PutsEntry self.old self.new 3 (record_entry change.now) (D.standing dev.old)
            (D.standing dev.new) result }

        // Why it fails.
        ensures cause { NvmCause (D.standing dev.old) (D.standing dev.new) result }

        // What stays, however far it gets.
        ensures goes { Goes (D.standing dev.old) (D.standing dev.new) }
        ensures keeps { RecordKeeps self.old change.now (D.standing dev.old)
            (D.standing dev.new) result }
    {
        let tail = self.tail;
        let places = (
            self.geometry.ring_line(tail),
            self.geometry.ring_line(tail + 1),
            self.geometry.ring_line(tail + 2),
        );
        let head = record_head(change);
        eight(&change.before);
        eight(&change.after);
        append_at(dev, places, &head, &change.before, &change.after, tail + 3)?;
        self.tail = tail + 3;
        Ok(())
    }

    /// Puts the end of the open group last, durable, and then the tail behind it, durable. The ring has a free line. `Failed` where
    /// the count of NVM faults rose; no further entry may be put then.
    pub fn end<D: Devices>(&mut self, dev: &mut D, kind: EndKind) -> Result<(), Failed>
        requires room { self.old.tail + 1 ≤ self.old.start + 64 * self.old.geometry.log_blocks }
        requires below { self.old.tail < 2 ^ 62 }
        requires fits { nvm_lines (sizes_of self.old.geometry) ≤ (D.standing dev.old).lines }

        // What it does to the log, in memory, on the device, and in every image.
        ensures moved { IsMoved self.old self.new 1 result }
        ensures makes { MakesAll
            (append_calls (sizes_of self.old.geometry) self.old.tail (end_lines kind))
            (D.standing dev.old) (D.standing dev.new) result }
        ensures puts { PutsEntry self.old self.new 1 (end_entry kind) (D.standing dev.old)
            (D.standing dev.new) result }

        // Why it fails.
        ensures cause { NvmCause (D.standing dev.old) (D.standing dev.new) result }

        // What stays, however far it gets.
        ensures goes { Goes (D.standing dev.old) (D.standing dev.new) }
        ensures keeps { EndKeeps kind self.old (D.standing dev.old) (D.standing dev.new) result }
    {
        let tail = self.tail;
        let place = self.geometry.ring_line(tail);
        let head = end_line(kind);
        end_at(dev, place, &head, tail + 1)?;
        self.tail = tail + 1;
        Ok(())
    }

    /// Empties the log: the start becomes the tail, durable. `Failed` where the count of NVM faults rose; no further entry may be put
    /// then.
    pub fn move_start<D: Devices>(&mut self, dev: &mut D) -> Result<(), Failed>
        requires fits { nvm_lines (sizes_of self.old.geometry) ≤ (D.standing dev.old).lines }

        // What it does to the log, in memory, on the device, and in every image.
        ensures emptied { IsEmptied self.old self.new result }
        ensures makes { MakesAll (start_calls self.old.tail) (D.standing dev.old)
            (D.standing dev.new) result }
        ensures empties { EmptiesLog self.old self.new (D.standing dev.old)
            (D.standing dev.new) result }

        // Why it fails.
        ensures cause { NvmCause (D.standing dev.old) (D.standing dev.new) result }

        // What stays, however far it gets.
        ensures goes { Goes (D.standing dev.old) (D.standing dev.new) }
        ensures keeps { StartKeeps self.old (D.standing dev.old) (D.standing dev.new) result }
    {
        put_gate(dev, 1, self.tail)?;
        self.start = self.tail;
        Ok(())
    }

    /// The line at an offset, from the start up to the tail. `Failed` where the count of NVM faults rose.
    pub fn load_line<D: Devices>(&self, dev: &mut D, offset: u64) -> Result<Line, Failed>
        requires above { self.now.start ≤ offset }
        requires below { offset < self.now.tail }
        requires fits { nvm_lines (sizes_of self.now.geometry) ≤ (D.standing dev.old).lines }
        ensures value { IsTrue (D.standing dev.old).told
            → IfOk result
            (λ found. found ≡ log_line (sizes_of self.now.geometry) self.now.start
            (current (now (D.standing dev.old))) offset) }
        ensures cause { NvmCause (D.standing dev.old) (D.standing dev.new) result }
        ensures goes { Goes (D.standing dev.old) (D.standing dev.new) }
        ensures stays { Stays (D.standing dev.old) (D.standing dev.new) }
    {
        dev.load(self.geometry.ring_line(offset))
    }
}
