//! The traits of the outside. A world is told where its reads give the state that its contracts speak of, and honest
//! where besides a crash at any moment leaves an image of the state at that moment.
ghost use Rattle.std.specs.Prelude.{◌≡◌, ◌<◌, ◌≤◌, ℕ, true, false, length, IsTrue, IfOk, OnErr, OnOk};
ghost use Rattle.devices.specs.State.{line_at};
ghost use Rattle.devices.specs.State.Call.{store_word, store_line, flush, fence, write_block, sync};
ghost use Rattle.devices.specs.World.{Standing, now, Goes, Stays, Makes, NvmCause, SsdCause, Counts, ReadsNext, OnlyChanges, Sends, WorldCall, OwnCause, IsTimed};

use nvm_model::Line;
use ssd_model::PageBuf;

/// The only refusal of the outside.
#[derive(Clone, Copy, Debug, PartialEq, Eq)]
pub struct Failed;

/// Both devices: an NVM of lines of eight words, and a disk of blocks of 4,096 bytes.
///
/// A call leaves the states of earlier moments and what stands beside the devices as they were, no count falls, and a
/// call that answers `Ok` leaves the counts of faults. `Failed` comes only where the count of the call's device rose,
/// or stands at its last value.
pub trait Devices {
    ghost standing: { Self → Standing };

    /// How many lines the NVM has.
    fn nvm_lines(&self) -> u64
        ensures { result ≡ (standing self.now).lines };

    /// How many blocks the disk has.
    fn ssd_blocks(&self) -> u64
        ensures { result ≡ (standing self.now).blocks };

    /// The last version of each word of a line.
    fn load(&mut self, line: u64) -> Result<Line, Failed>
        requires { line < (standing self.old).lines }
        ensures goes { Goes (standing self.old) (standing self.new) }
        ensures stays { Stays (standing self.old) (standing self.new) }
        ensures value { IsTrue (standing self.old).told
            → IfOk result (λ found. found ≡ line_at (now (standing self.old)) line) }
        ensures cause { NvmCause (standing self.old) (standing self.new) result };

    /// Appends a version to one word. A call that fails may have done so.
    fn store_word(&mut self, line: u64, word: usize, value: u64) -> Result<(), Failed>
        requires line { line < (standing self.old).lines }
        requires word { word < 8 }
        ensures goes { Goes (standing self.old) (standing self.new) }
        ensures makes { Makes (store_word line word value) (standing self.old)
            (standing self.new) result }
        ensures cause { NvmCause (standing self.old) (standing self.new) result };

    /// Appends a version to each of the eight words of a line, in any order. A call that fails may have done so to any.
    fn store_line(&mut self, line: u64, value: &Line) -> Result<(), Failed>
        requires { line < (standing self.old).lines }
        ensures goes { Goes (standing self.old) (standing self.new) }
        ensures makes { Makes (store_line line value.now) (standing self.old)
            (standing self.new) result }
        ensures cause { NvmCause (standing self.old) (standing self.new) result };

    /// Marks the last version of each word of a line. A call that fails may have marked any.
    fn flush(&mut self, line: u64) -> Result<(), Failed>
        requires { line < (standing self.old).lines }
        ensures goes { Goes (standing self.old) (standing self.new) }
        ensures makes { Makes (flush line) (standing self.old) (standing self.new) result }
        ensures cause { NvmCause (standing self.old) (standing self.new) result };

    /// Drops for each word the versions before its mark. A call that fails drops nothing.
    fn fence(&mut self) -> Result<(), Failed>
        ensures goes { Goes (standing self.old) (standing self.new) }
        ensures makes { Makes fence (standing self.old) (standing self.new) result }
        ensures or_not { OnErr result (Stays (standing self.old) (standing self.new)) }
        ensures cause { NvmCause (standing self.old) (standing self.new) result };

    /// Reads the current bytes of a block. After `Failed` the buffer holds any bytes.
    fn read_block(&mut self, block: u64, into: &mut PageBuf) -> Result<(), Failed>
        requires { block < (standing self.old).blocks }
        ensures goes { Goes (standing self.old) (standing self.new) }
        ensures stays { Stays (standing self.old) (standing self.new) }
        ensures value { IsTrue (standing self.old).told
            → OnOk result (into.new ≡ ((now (standing self.old)).ssd block).bytes) }
        ensures cause { SsdCause (standing self.old) (standing self.new) result }
        ensures counts { Counts (standing self.old) (standing self.new) };

    /// Changes the current bytes of a block and unsettles it. A call that fails may have left any bytes there.
    fn write_block(&mut self, block: u64, from: &PageBuf) -> Result<(), Failed>
        requires { block < (standing self.old).blocks }
        ensures goes { Goes (standing self.old) (standing self.new) }
        ensures makes { Makes (write_block block from.now) (standing self.old)
            (standing self.new) result }
        ensures cause { SsdCause (standing self.old) (standing self.new) result }
        ensures reads { (standing self.new).block_reads ≡ (standing self.old).block_reads };

    /// Settles all blocks. A call that fails settles none.
    fn sync(&mut self) -> Result<(), Failed>
        ensures goes { Goes (standing self.old) (standing self.new) }
        ensures makes { Makes sync (standing self.old) (standing self.new) result }
        ensures or_not { OnErr result (Stays (standing self.old) (standing self.new)) }
        ensures cause { SsdCause (standing self.old) (standing self.new) result }
        ensures reads { (standing self.new).block_reads ≡ (standing self.old).block_reads };
}

/// The devices with the streams beside them. Its own calls leave both devices as they were, and answer `Failed` only where the
/// count of faults of that stream rose.
pub trait World: Devices {
    /// The next bytes of the settings, at most as many as `into` takes; 0 is the end.
    fn read_settings(&mut self, into: &mut [u8]) -> Result<usize, Failed>
        requires { 0 < length into.old }
        ensures call { WorldCall (Self.standing self.old) (Self.standing self.new) }
        ensures bound { IfOk result (λ count. count ≤ length into.new) }
        ensures cause { OwnCause (Self.standing self.old).outside.settings_faults
            (Self.standing self.new).outside.settings_faults result }
        ensures reads { ReadsNext (Self.standing self.old).told
            (Self.standing self.old).outside.settings
            (Self.standing self.new).outside.settings result into.new }
        ensures rest { OnlyChanges true false false (Self.standing self.old)
            (Self.standing self.new) };

    /// The next bytes of the script, at most as many as `into` takes; 0 is the end.
    fn read(&mut self, into: &mut [u8]) -> Result<usize, Failed>
        requires { 0 < length into.old }
        ensures call { WorldCall (Self.standing self.old) (Self.standing self.new) }
        ensures bound { IfOk result (λ count. count ≤ length into.new) }
        ensures cause { OwnCause (Self.standing self.old).outside.source_faults
            (Self.standing self.new).outside.source_faults result }
        ensures reads { ReadsNext (Self.standing self.old).told
            (Self.standing self.old).outside.input
            (Self.standing self.new).outside.input result into.new }
        ensures rest { OnlyChanges false true false (Self.standing self.old)
            (Self.standing self.new) };

    /// Sends at least one of the bytes and at most all, and answers how many. `Failed` sends nothing.
    fn write(&mut self, bytes: &[u8]) -> Result<usize, Failed>
        requires { 0 < length bytes.now }
        ensures call { WorldCall (Self.standing self.old) (Self.standing self.new) }
        ensures bound { IfOk result (λ count. (1 ≤ count) × (count ≤ length bytes.now)) }
        ensures cause { OwnCause (Self.standing self.old).outside.sink_faults
            (Self.standing self.new).outside.sink_faults result }
        ensures sends { Sends (Self.standing self.old) (Self.standing self.new) bytes.now result }
        ensures rest { OnlyChanges false false true (Self.standing self.old)
            (Self.standing self.new) };

    // nothing was sent after the clock
    ghost timed: { (world : Self) → IsTimed (Self.standing world) };
}
