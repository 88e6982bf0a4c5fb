//! The log: its place between the gates, and its calls.
ghost use Rattle.std.specs.Prelude.{◌≡◌, ◌≤◌, ◌<◌, ◌^◌, ℕ, ◌+◌, ◌-◌, ◌*◌, ◌%◌};
ghost use Rattle.devices.specs.World.{Goes, MakesAll, NvmCause};
ghost use Rattle.store_model.specs.Layout.{nvm_lines, ring_lines, ring_blocks, floor64};
ghost use Rattle.nvm_layout.specs.Sizes.{sizes_of};

use crate::putting::{START_LINE, end_at, harden_to, put_gate, put_record};
use crate::record::{EndKind, LineRecord, eight};
use devices::{Devices, Failed};
use nvm_layout::{Geometry, Super};

/// A log that stands in its rings: the offsets from the start up to the tail, and behind it what is stored and not yet part of
/// it, up to `written`.
#[derive(Drop)]
pub struct Log {
    /// The sizes of its store.
    pub geometry: Geometry,
    /// The offset of its first line.
    pub start: u64,
    /// The lines below this offset stand in the ring on the SSD; a multiple of 64.
    pub drained: u64,
    /// The offset behind its last line.
    pub tail: u64,
    /// The offset behind the last line that is stored: records from the tail up to here are pending.
    pub written: u64,
    ghost started: { start ≤ tail },
    ghost below: { drained ≤ tail },
    ghost aligned: { drained % 64 ≡ 0 },
    ghost pending: { tail ≤ written },
    ghost in_ring: { written ≤ drained + ring_lines (sizes_of geometry) },
    ghost in_blocks: { drained ≤ floor64 start + 64 * ring_blocks (sizes_of geometry) },
}

impl Log {
    ghost use Rattle.nvm_log.specs.Calls.{append_makes, harden_makes, end_makes, start_makes};
    ghost use Rattle.nvm_log.specs.Offsets.{offsets_of, appended, hardened, emptied, IsMoved};
    ghost use Rattle.nvm_log.specs.Groups.{AppendGroups, HardenGroups, EndGroups, StartGroups};
    ghost use Rattle.nvm_log.specs.Facts.{RecordKeeps, HardenKeeps, EndKeeps, StartKeeps};

    /// The log of a superblock that passes its checks; nothing is pending.
    pub fn open(geometry: &Geometry, gates: &Super) -> Log
        requires geometry { gates.now.geometry ≡ geometry.now }
        requires started { gates.now.start ≤ gates.now.tail }
        requires below { gates.now.drained ≤ gates.now.tail }
        requires aligned { gates.now.drained % 64 ≡ 0 }
        requires in_ring { gates.now.tail - gates.now.drained ≤ ring_lines (sizes_of geometry.now) }
        requires in_blocks { gates.now.drained
            ≤ floor64 gates.now.start + 64 * ring_blocks (sizes_of geometry.now) }
        ensures geometry { result.geometry ≡ geometry.now }
        ensures start { result.start ≡ gates.now.start }
        ensures drained { result.drained ≡ gates.now.drained }
        ensures tail { result.tail ≡ gates.now.tail }
        ensures written { result.written ≡ gates.now.tail }
    {
        Log {
            geometry: *geometry,
            start: gates.start,
            drained: gates.drained,
            tail: gates.tail,
            written: gates.tail,
        }
    }

    /// The offset of its first line.
    pub fn start(&self) -> u64
        ensures { result ≡ self.now.start }
    {
        self.start
    }

    /// The lines below this offset stand in the ring on the SSD.
    pub fn drained(&self) -> u64
        ensures { result ≡ self.now.drained }
    {
        self.drained
    }

    /// The offset behind its last line.
    pub fn tail(&self) -> u64
        ensures { result ≡ self.now.tail }
    {
        self.tail
    }

    /// The offset behind the last line that is stored.
    pub fn written(&self) -> u64
        ensures { result ≡ self.now.written }
    {
        self.written
    }

    /// How many lines can be stored before a block is drained.
    pub fn free_lines(&self) -> u64
        ensures { result
            ≡ ring_lines (sizes_of self.now.geometry) - (self.now.written - self.now.drained) }
    {
        64 * self.geometry.log_blocks as u64 - (self.written - self.drained)
    }

    /// Stores a record behind all that is stored, and flushes it, without a fence: it is pending. The ring in NVM has three free
    /// lines. `Failed` where the count of NVM faults rose; a store recovers then before it goes on.
    pub fn append<D: Devices>(&mut self, dev: &mut D, change: &LineRecord) -> Result<(), Failed>
        requires room { self.old.written + 3
            ≤ self.old.drained + ring_lines (sizes_of self.old.geometry) }
        requires below { self.old.written < 2 ^ 62 }
        requires fits { nvm_lines (sizes_of self.old.geometry) ≤ (D.standing dev.old).lines }

        // What it does to the log in memory, to the device, and to the groups of every image.
        ensures moved { IsMoved self.old self.new (appended 3 (offsets_of self.old)) result }
        ensures makes { MakesAll (append_makes self.old change.now)
            (D.standing dev.old) (D.standing dev.new) result }
        ensures groups { AppendGroups self.old self.new change.now
            (D.standing dev.old) (D.standing dev.new) result }

        // Why it fails.
        ensures cause { NvmCause (D.standing dev.old) (D.standing dev.new) result }

        // What stays, however far it gets.
        ensures goes { Goes (D.standing dev.old) (D.standing dev.new) }
        ensures keeps { RecordKeeps self.old self.new change.now
            (D.standing dev.old) (D.standing dev.new) result }
    {
        let offset = self.written;
        eight(&change.before);
        eight(&change.after);
        put_record(dev, &self.geometry, offset, change)?;
        self.written = offset + 3;
        Ok(())
    }

    /// Makes all that is stored part of the log: a fence, and then the tail becomes `written`, durable. No device call is made
    /// where nothing is pending. `Failed` where the count of NVM faults rose; no further call is made then.
    pub fn harden<D: Devices>(&mut self, dev: &mut D) -> Result<(), Failed>
        requires fits { nvm_lines (sizes_of self.old.geometry) ≤ (D.standing dev.old).lines }

        // What it does to the log in memory, to the device, and to the groups of every image.
        ensures moved { IsMoved self.old self.new (hardened (offsets_of self.old)) result }
        ensures makes { MakesAll (harden_makes self.old)
            (D.standing dev.old) (D.standing dev.new) result }
        ensures nothing { self.old.tail ≡ self.old.written
            → D.standing dev.new ≡ D.standing dev.old }
        ensures groups { HardenGroups self.old self.new
            (D.standing dev.old) (D.standing dev.new) result }

        // Why it fails.
        ensures cause { NvmCause (D.standing dev.old) (D.standing dev.new) result }

        // What stays, however far it gets.
        ensures goes { Goes (D.standing dev.old) (D.standing dev.new) }
        ensures keeps { HardenKeeps self.old self.new
            (D.standing dev.old) (D.standing dev.new) result }
    {
        if self.tail == self.written {
            return Ok(());
        }
        harden_to(dev, self.written)?;
        self.tail = self.written;
        Ok(())
    }

    /// Stores the end of the open group behind all that is stored, and makes all of it part of the log, as `harden` does. The ring
    /// in NVM has a free line. `Failed` where the count of NVM faults rose; no further call is made then.
    pub fn end<D: Devices>(&mut self, dev: &mut D, kind: EndKind) -> Result<(), Failed>
        requires room { self.old.written + 1
            ≤ self.old.drained + ring_lines (sizes_of self.old.geometry) }
        requires below { self.old.written < 2 ^ 62 }
        requires fits { nvm_lines (sizes_of self.old.geometry) ≤ (D.standing dev.old).lines }

        // What it does to the log in memory, to the device, and to the groups of every image.
        ensures moved { IsMoved self.old self.new
            (hardened (appended 1 (offsets_of self.old))) result }
        ensures makes { MakesAll (end_makes kind self.old)
            (D.standing dev.old) (D.standing dev.new) result }
        ensures groups { EndGroups kind self.old self.new
            (D.standing dev.old) (D.standing dev.new) result }

        // Why it fails.
        ensures cause { NvmCause (D.standing dev.old) (D.standing dev.new) result }

        // What stays, however far it gets.
        ensures goes { Goes (D.standing dev.old) (D.standing dev.new) }
        ensures keeps { EndKeeps kind self.old self.new
            (D.standing dev.old) (D.standing dev.new) result }
    {
        let offset = self.written;
        end_at(dev, &self.geometry, offset, kind)?;
        self.written = offset + 1;
        self.tail = offset + 1;
        Ok(())
    }

    /// Empties the log: the start becomes the tail, durable. Nothing is pending. `Failed` where the count of NVM faults rose; no
    /// further call is made then.
    pub fn move_start<D: Devices>(&mut self, dev: &mut D) -> Result<(), Failed>
        requires nothing { self.old.written ≡ self.old.tail }
        requires fits { nvm_lines (sizes_of self.old.geometry) ≤ (D.standing dev.old).lines }

        // What it does to the log in memory, to the device, and to the groups of every image.
        ensures moved { IsMoved self.old self.new (emptied (offsets_of self.old)) result }
        ensures makes { MakesAll (start_makes self.old)
            (D.standing dev.old) (D.standing dev.new) result }
        ensures groups { StartGroups self.old self.new
            (D.standing dev.old) (D.standing dev.new) result }

        // Why it fails.
        ensures cause { NvmCause (D.standing dev.old) (D.standing dev.new) result }

        // What stays, however far it gets.
        ensures goes { Goes (D.standing dev.old) (D.standing dev.new) }
        ensures keeps { StartKeeps self.old self.new
            (D.standing dev.old) (D.standing dev.new) result }
    {
        put_gate(dev, START_LINE, self.tail)?;
        self.start = self.tail;
        Ok(())
    }
}
