//! Worlds in memory are made here, and looked at from outside.
ghost use Rattle.std.specs.Prelude.{◌≡◌, ◌<◌, ◌≤◌, ℕ, [], length, take, IfOk, IsSome};
ghost use Rattle.std.specs.Ordering.{nat_cmp};
ghost use Rattle.std.specs.BTreeMap.{get};
ghost use Rattle.devices.specs.World.{sent, sent_at};
ghost use Rattle.devices.specs.Leaving.{IsLeftBy};
ghost use Rattle.devices.specs.Replay.{synced_at};
ghost use Rattle.devices.specs.Past.{IsSound, Starts, image_of, zero_image};
ghost use Rattle.devices.specs.MemWorld.{world, IsFresh, IsUncalled, faults_of, moment_after};

use crate::faults::{Fault, FaultKind, Tally};
use crate::images::Images;
use crate::mem_world::MemWorld;
use crate::past::Past;
use crate::step::{Entry, Sending};
use crate::stream::Stream;
use nvm_model::{Choice, NoMemory};
use ssd_model::BlockChoice;
use std::alloc::Global;

/// A stream of these bytes.
fn stream_of(alloc: Global, bytes: &[u8]) -> Result<Stream, NoMemory>
    ensures { IfOk result (λ made. (made.bytes.items ≡ bytes.now) × (made.taken ≡ 0)) }
{
    let Ok(bytes) = bytes.to_vec(alloc) else {
        return Err(NoMemory);
    };
    Ok(Stream { bytes, taken: 0 })
}

/// No calls so far.
fn uncalled() -> Tally
    ensures calls { result.calls ≡ 0 }
    ensures faults { result.faults ≡ 0 }
{
    Tally {
        calls: 0,
        faults: 0,
    }
}

/// The moment after so many events: how many of the calls that were kept have a number at most that.
fn moment_of(entries: &[Entry], events: u64) -> usize
    ensures value { result ≡ moment_after entries.now events }
    ensures bound { result ≤ length entries.now }
{
    entries
        .iter()
        .take_while(|entry| entry.event <= events)
        .count()
}

impl MemWorld {
    /// A world over these devices, with these streams and faults.
    fn over(
        alloc: Global,
        past: Past,
        settings: &[u8],
        script: &[u8],
        fail: &[Fault],
    ) -> Result<MemWorld, NoMemory>
        requires sound { IsSound past }
        requires starts { Starts past.lines past.current.ssd_blocks (image_of past.base) past }
        ensures fresh { IfOk result
            (λ made. IsFresh past.lines past.current.ssd_blocks
            (image_of past.base) settings.now script.now (world made)) }
        ensures uncalled { IfOk result (λ made. IsUncalled fail.now made) }
    {
        let settings = stream_of(alloc, settings)?;
        let script = stream_of(alloc, script)?;
        let Ok(plan) = fail.to_vec(alloc) else {
            return Err(NoMemory);
        };
        Ok(MemWorld {
            past,
            settings,
            script,
            plan,
            nvm: uncalled(),
            ssd: uncalled(),
            settings_reads: uncalled(),
            script_reads: uncalled(),
            writes: uncalled(),
            events: 0,
            block_reads: 0,
            short: 0,
        })
    }

    /// A world with zeros on both devices, these settings, this script, and these faults. `NoMemory` where it is not to be had.
    pub fn new(
        alloc: Global,
        nvm_lines: u64,
        ssd_blocks: u64,
        settings: &[u8],
        script: &[u8],
        fail: &[Fault],
    ) -> Result<MemWorld, NoMemory>
        ensures fresh { IfOk result
            (λ made. IsFresh nvm_lines ssd_blocks zero_image settings.now script.now (world made)) }
        ensures uncalled { IfOk result (λ made. IsUncalled fail.now made) }
    {
        let past = Past::zeros(alloc, nvm_lines, ssd_blocks)?;
        MemWorld::over(alloc, past, settings, script, fail)
    }

    /// A world over a fresh pair of devices with these contents: one version of each word, and every block settled. `NoMemory` where
    /// it is not to be had.
    pub fn from_images(
        alloc: Global,
        images: &Images,
        settings: &[u8],
        script: &[u8],
        fail: &[Fault],
    ) -> Result<MemWorld, NoMemory>
        requires { (b : ℕ) → IsSome (get nat_cmp images.now.ssd b) → b < images.now.ssd_blocks }
        ensures fresh { IfOk result
            (λ made. IsFresh (length images.now.nvm.items) images.now.ssd_blocks
            (image_of images.now) settings.now script.now (world made)) }
        ensures uncalled { IfOk result (λ made. IsUncalled fail.now made) }
    {
        let past = Past::of_images(alloc, images)?;
        MemWorld::over(alloc, past, settings, script, fail)
    }

    /// How many calls so far can fail.
    pub fn events(&self) -> u64
        ensures count { result ≡ self.now.events }
        ensures all { moment_after self.now.past.entries.items result ≡ (world self.now).clock }
    {
        self.events
    }

    /// What was sent.
    pub fn output(&self) -> &[u8]
        ensures { result.now ≡ sent (world self.now) }
    {
        &self.past.sent
    }

    /// The image that these choices leave after the first `events` events, at most as many as there are. `NoMemory` where it is not
    /// to be had.
    pub fn images_at(
        &self,
        alloc: Global,
        events: u64,
        nvm: Choice,
        ssd: BlockChoice,
    ) -> Result<Images, NoMemory>
        requires { events ≤ self.now.events }
        ensures { IfOk result
            (λ images. IsLeftBy ((world self.now).at
            (moment_after self.now.past.entries.items events))
            (synced_at (image_of self.now.past.base)
            (take (moment_after self.now.past.entries.items events) self.now.past.entries.items))
            (world self.now).lines (world self.now).blocks nvm ssd images) }
    {
        let moment = moment_of(&self.past.entries, events);
        self.past.images_at(alloc, moment, nvm, ssd)
    }

    /// How many bytes were sent after the first `events` events, at most as many as there are.
    pub fn sent_at(&self, events: u64) -> usize
        requires { events ≤ self.now.events }
        ensures { result
            ≡ length (sent_at (world self.now) (moment_after self.now.past.entries.items events)) }
    {
        let moment = moment_of(&self.past.entries, events);
        self.past.sent_by(moment)
    }

    /// How many calls of a device or a stream failed.
    pub fn faults(&self, kind: FaultKind) -> u64
        ensures { result ≡ faults_of kind (world self.now) }
    {
        match kind {
            FaultKind::Nvm => self.nvm.faults,
            FaultKind::Ssd => self.ssd.faults,
            FaultKind::Settings => self.settings_reads.faults,
            FaultKind::Source => self.script_reads.faults,
            FaultKind::Sink => self.writes.faults,
        }
    }

    /// How many times a block was read.
    pub fn block_reads(&self) -> u64
        ensures { result ≡ (world self.now).block_reads }
    {
        self.block_reads
    }

    /// How many calls found no memory.
    pub fn short(&self) -> u64
        ensures { result ≡ self.now.short }
    {
        self.short
    }
}
