//! A world in memory, told and honest: it keeps each call that changed a device or the output, and so knows the state
//! of both devices at each moment.
ghost use Rattle.std.specs.Prelude.{◌≡◌, true};
ghost use Rattle.devices.specs.Past.{IsSound, are_by};

use crate::faults::{Fault, FaultKind, Tally, begin, run_short};
use crate::past::Past;
use crate::stream::Stream;
use crate::traits::{Devices, Failed, World};
use nvm_model::Line;
use ssd_model::PageBuf;

/// A world in memory, whose calls fail only where a fault names them or memory is short.
#[derive(Drop)]
pub struct MemWorld {
    pub(crate) past: Past,
    pub(crate) settings: Stream,
    pub(crate) script: Stream,
    pub(crate) plan: Vec<Fault>,
    pub(crate) nvm: Tally,
    pub(crate) ssd: Tally,
    pub(crate) settings_reads: Tally,
    pub(crate) script_reads: Tally,
    pub(crate) writes: Tally,
    pub(crate) events: u64,
    pub(crate) block_reads: u64,
    pub(crate) short: u64,
    ghost sound: { IsSound past },
    ghost counted: { are_by events past.entries.items ≡ true },
}

impl Devices for MemWorld {
    ghost use Rattle.std.specs.Prelude.{◌≡◌, ◌<◌, ℕ, true, false, length, IsTrue, IfOk, OnErr, OnOk};
    ghost use Rattle.devices.specs.State.{line_at};
    ghost use Rattle.devices.specs.State.Call.{store_word, store_line, flush, fence, write_block, sync};
    ghost use Rattle.devices.specs.World.{now, Goes, Stays, Makes, NvmCause, SsdCause, Counts};
    ghost use Rattle.devices.specs.Past.{Same};
    ghost use Rattle.devices.specs.MemWorld.{world, FailsExactly, FailsOnlyAt, Calls, Marks};
    ghost use Rattle.devices.specs.declared.faults.FaultKind.TheVariants.{Nvm, Ssd};

    ghost standing = { world };

    fn nvm_lines(&self) -> u64 {
        self.past.lines
    }

    fn ssd_blocks(&self) -> u64 {
        self.past.current.ssd_blocks
    }

    fn load(&mut self, line: u64) -> Result<Line, Failed>
        requires { line < (world self.old).lines }
        ensures goes { Goes (world self.old) (world self.new) }
        ensures stays { Stays (world self.old) (world self.new) }
        ensures value { IsTrue (world self.old).told
            → IfOk result (λ found. found ≡ line_at (now (world self.old)) line) }
        ensures cause { NvmCause (world self.old) (world self.new) result }
        ensures exactly { FailsOnlyAt Nvm self.old self.new result }
        ensures calls { Calls true false false false false self.old self.new }
        ensures marks { Marks self.old self.new }
    {
        begin(&self.plan, FaultKind::Nvm, &mut self.nvm, &mut self.events)?;
        Ok(self.past.load(line))
    }

    fn store_word(&mut self, line: u64, word: usize, value: u64) -> Result<(), Failed>
        requires line { line < (world self.old).lines }
        requires word { word < 8 }
        ensures goes { Goes (world self.old) (world self.new) }
        ensures makes { Makes (store_word line word value) (world self.old)
            (world self.new) result }
        ensures cause { NvmCause (world self.old) (world self.new) result }
        ensures exactly { FailsExactly Nvm self.old self.new result }
        ensures undone { OnErr result (Same self.old.past self.new.past) }
        ensures calls { Calls true false false false false self.old self.new }
        ensures marks { Marks self.old self.new }
    {
        begin(&self.plan, FaultKind::Nvm, &mut self.nvm, &mut self.events)?;
        match self.past.store_word(self.events, line, word, value) {
            Ok(()) => Ok(()),
            Err(_) => Err(run_short(&mut self.nvm, &mut self.short)),
        }
    }

    fn store_line(&mut self, line: u64, value: &Line) -> Result<(), Failed>
        requires { line < (world self.old).lines }
        ensures goes { Goes (world self.old) (world self.new) }
        ensures makes { Makes (store_line line value.now) (world self.old) (world self.new) result }
        ensures cause { NvmCause (world self.old) (world self.new) result }
        ensures exactly { FailsExactly Nvm self.old self.new result }
        ensures undone { OnErr result (Same self.old.past self.new.past) }
        ensures calls { Calls true false false false false self.old self.new }
        ensures marks { Marks self.old self.new }
    {
        begin(&self.plan, FaultKind::Nvm, &mut self.nvm, &mut self.events)?;
        match self.past.store_line(self.events, line, value) {
            Ok(()) => Ok(()),
            Err(_) => Err(run_short(&mut self.nvm, &mut self.short)),
        }
    }

    fn flush(&mut self, line: u64) -> Result<(), Failed>
        requires { line < (world self.old).lines }
        ensures goes { Goes (world self.old) (world self.new) }
        ensures makes { Makes (flush line) (world self.old) (world self.new) result }
        ensures cause { NvmCause (world self.old) (world self.new) result }
        ensures exactly { FailsExactly Nvm self.old self.new result }
        ensures undone { OnErr result (Same self.old.past self.new.past) }
        ensures calls { Calls true false false false false self.old self.new }
        ensures marks { Marks self.old self.new }
    {
        begin(&self.plan, FaultKind::Nvm, &mut self.nvm, &mut self.events)?;
        match self.past.flush(self.events, line) {
            Ok(()) => Ok(()),
            Err(_) => Err(run_short(&mut self.nvm, &mut self.short)),
        }
    }

    fn fence(&mut self) -> Result<(), Failed>
        ensures goes { Goes (world self.old) (world self.new) }
        ensures makes { Makes fence (world self.old) (world self.new) result }
        ensures or_not { OnErr result (Stays (world self.old) (world self.new)) }
        ensures cause { NvmCause (world self.old) (world self.new) result }
        ensures exactly { FailsExactly Nvm self.old self.new result }
        ensures undone { OnErr result (Same self.old.past self.new.past) }
        ensures calls { Calls true false false false false self.old self.new }
        ensures marks { Marks self.old self.new }
    {
        begin(&self.plan, FaultKind::Nvm, &mut self.nvm, &mut self.events)?;
        match self.past.fence(self.events) {
            Ok(()) => Ok(()),
            Err(_) => Err(run_short(&mut self.nvm, &mut self.short)),
        }
    }

    fn read_block(&mut self, block: u64, into: &mut PageBuf) -> Result<(), Failed>
        requires { block < (world self.old).blocks }
        ensures goes { Goes (world self.old) (world self.new) }
        ensures stays { Stays (world self.old) (world self.new) }
        ensures value { IsTrue (world self.old).told
            → OnOk result (into.new ≡ ((now (world self.old)).ssd block).bytes) }
        ensures cause { SsdCause (world self.old) (world self.new) result }
        ensures counts { Counts (world self.old) (world self.new) }
        ensures exactly { FailsOnlyAt Ssd self.old self.new result }
        ensures undone { OnErr result (into.new ≡ into.old) }
        ensures calls { Calls false true false false false self.old self.new }
        ensures marks { Marks self.old self.new }
    {
        self.block_reads = self.block_reads.saturating_add(1);
        begin(&self.plan, FaultKind::Ssd, &mut self.ssd, &mut self.events)?;
        self.past.read_block(block, into);
        Ok(())
    }

    fn write_block(&mut self, block: u64, from: &PageBuf) -> Result<(), Failed>
        requires { block < (world self.old).blocks }
        ensures goes { Goes (world self.old) (world self.new) }
        ensures makes { Makes (write_block block from.now) (world self.old)
            (world self.new) result }
        ensures cause { SsdCause (world self.old) (world self.new) result }
        ensures reads { (world self.new).block_reads ≡ (world self.old).block_reads }
        ensures exactly { FailsExactly Ssd self.old self.new result }
        ensures undone { OnErr result (Same self.old.past self.new.past) }
        ensures calls { Calls false true false false false self.old self.new }
        ensures marks { Marks self.old self.new }
    {
        begin(&self.plan, FaultKind::Ssd, &mut self.ssd, &mut self.events)?;
        match self.past.write_block(self.events, block, from) {
            Ok(()) => Ok(()),
            Err(_) => Err(run_short(&mut self.ssd, &mut self.short)),
        }
    }

    fn sync(&mut self) -> Result<(), Failed>
        ensures goes { Goes (world self.old) (world self.new) }
        ensures makes { Makes sync (world self.old) (world self.new) result }
        ensures or_not { OnErr result (Stays (world self.old) (world self.new)) }
        ensures cause { SsdCause (world self.old) (world self.new) result }
        ensures reads { (world self.new).block_reads ≡ (world self.old).block_reads }
        ensures exactly { FailsExactly Ssd self.old self.new result }
        ensures undone { OnErr result (Same self.old.past self.new.past) }
        ensures calls { Calls false true false false false self.old self.new }
        ensures marks { Marks self.old self.new }
    {
        begin(&self.plan, FaultKind::Ssd, &mut self.ssd, &mut self.events)?;
        match self.past.sync(self.events) {
            Ok(()) => Ok(()),
            Err(_) => Err(run_short(&mut self.ssd, &mut self.short)),
        }
    }
}

impl World for MemWorld {
    ghost use Rattle.std.specs.Prelude.{◌≡◌, ◌<◌, ◌≤◌, ℕ, true, false, length, IfOk, OnErr};
    ghost use Rattle.devices.specs.World.{ReadsNext, OnlyChanges, Sends, WorldCall, OwnCause};
    ghost use Rattle.devices.specs.Laws.{sent_later};
    ghost use Rattle.devices.specs.Past.{Same};
    ghost use Rattle.devices.specs.MemWorld.{world, FailsExactly, FailsOnlyAt, ReadsNothing, Calls, Marks};
    ghost use Rattle.devices.specs.declared.faults.FaultKind.TheVariants.{Settings, Source, Sink};

    ghost timed = { λ w m le. sent_later w.past m w.sound le };

    fn read_settings(&mut self, into: &mut [u8]) -> Result<usize, Failed>
        requires { 0 < length into.old }
        ensures call { WorldCall (world self.old) (world self.new) }
        ensures bound { IfOk result (λ count. count ≤ length into.new) }
        ensures cause { OwnCause (world self.old).outside.settings_faults
            (world self.new).outside.settings_faults result }
        ensures reads { ReadsNext (world self.old).told (world self.old).outside.settings
            (world self.new).outside.settings result into.new }
        ensures rest { OnlyChanges true false false (world self.old) (world self.new) }
        ensures exactly { FailsOnlyAt Settings self.old self.new result }
        ensures undone { OnErr result (ReadsNothing self.old self.new into.old into.new) }
        ensures calls { Calls false false true false false self.old self.new }
        ensures marks { Marks self.old self.new }
    {
        begin(
            &self.plan,
            FaultKind::Settings,
            &mut self.settings_reads,
            &mut self.events,
        )?;
        Ok(self.settings.take_next(into))
    }

    fn read(&mut self, into: &mut [u8]) -> Result<usize, Failed>
        requires { 0 < length into.old }
        ensures call { WorldCall (world self.old) (world self.new) }
        ensures bound { IfOk result (λ count. count ≤ length into.new) }
        ensures cause { OwnCause (world self.old).outside.source_faults
            (world self.new).outside.source_faults result }
        ensures reads { ReadsNext (world self.old).told (world self.old).outside.input
            (world self.new).outside.input result into.new }
        ensures rest { OnlyChanges false true false (world self.old) (world self.new) }
        ensures exactly { FailsOnlyAt Source self.old self.new result }
        ensures undone { OnErr result (ReadsNothing self.old self.new into.old into.new) }
        ensures calls { Calls false false false true false self.old self.new }
        ensures marks { Marks self.old self.new }
    {
        begin(
            &self.plan,
            FaultKind::Source,
            &mut self.script_reads,
            &mut self.events,
        )?;
        Ok(self.script.take_next(into))
    }

    fn write(&mut self, bytes: &[u8]) -> Result<usize, Failed>
        requires { 0 < length bytes.now }
        ensures call { WorldCall (world self.old) (world self.new) }
        ensures bound { IfOk result (λ count. (1 ≤ count) × (count ≤ length bytes.now)) }
        ensures cause { OwnCause (world self.old).outside.sink_faults
            (world self.new).outside.sink_faults result }
        ensures sends { Sends (world self.old) (world self.new) bytes.now result }
        ensures rest { OnlyChanges false false true (world self.old) (world self.new) }
        ensures exactly { FailsExactly Sink self.old self.new result }
        ensures undone { OnErr result (Same self.old.past self.new.past) }
        ensures calls { Calls false false false false true self.old self.new }
        ensures marks { Marks self.old self.new }
        ensures whole { IfOk result (λ count. count ≡ length bytes.now) }
    {
        begin(
            &self.plan,
            FaultKind::Sink,
            &mut self.writes,
            &mut self.events,
        )?;
        match self.past.send(self.events, bytes) {
            Ok(()) => Ok(bytes.len()),
            Err(_) => Err(run_short(&mut self.writes, &mut self.short)),
        }
    }
}
