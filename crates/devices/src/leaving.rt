//! What a crash leaves of both devices after some of the calls.
ghost use Rattle.std.specs.Prelude.{◌≡◌, ◌⊎◌, ◌<◌, ◌≤◌, ℕ, true, length, take, OnOk, IfOk, IsSome, Some};
ghost use Rattle.std.specs.Ordering.{nat_cmp};
ghost use Rattle.std.specs.BTreeMap.{get, Updates};
ghost use Rattle.nvm_model.specs.Contents.{lines_of};
ghost use Rattle.ssd_model.specs.Contents.{synced_of, blocks_of};
ghost use Rattle.devices.specs.State.{fresh};
ghost use Rattle.devices.specs.Past.{IsSound, image_of, page_in, replay};
ghost use Rattle.devices.specs.Replay.{state_of, synced_at, left_of, spares, all_spare, fits, all_fit, PutsLeft, AreLeftOf};
ghost use Rattle.devices.specs.Leaving.{IsLeftBy};

use crate::images::Images;
use crate::past::Past;
use crate::replay::{make_all, place_blocks, place_lines};
use crate::step::{Entry, Step};
use nvm_model::{Choice, NoMemory, NvmState};
use ssd_model::{BlockChoice, PageBuf, SsdState};
use std::alloc::Global;
use std::collections::BTreeMap;

/// The states of both devices.
#[derive(Drop)]
struct States {
    nvm: NvmState,
    ssd: SsdState,
}

/// Puts what is left of a block into a map.
fn put_block(
    ssd: &SsdState,
    choice: BlockChoice,
    block: u64,
    into: &mut BTreeMap<u64, PageBuf>,
) -> Result<(), NoMemory>
    requires { block < blocks_of ssd.now }
    ensures { OnOk result
        (Updates nat_cmp into.old into.new block (Some (left_of ssd.now choice block))) }
{
    let mut page = PageBuf::zero();
    ssd.image_block(block, choice, &mut page);
    let Ok(_) = into.insert(block, page) else {
        return Err(NoMemory);
    };
    Ok(())
}

/// Puts what is left of the blocks that were there at first into a map.
fn put_first(
    base: &BTreeMap<u64, PageBuf>,
    ssd: &SsdState,
    choice: BlockChoice,
    into: &mut BTreeMap<u64, PageBuf>,
) -> Result<(), NoMemory>
    requires { (b : ℕ) → IsSome (get nat_cmp base.now b) → b < blocks_of ssd.now }
    ensures puts { OnOk result (PutsLeft ssd.now choice into.old into.new) }
    ensures all { OnOk result
        ((b : ℕ) → IsSome (get nat_cmp base.now b) → IsSome (get nat_cmp into.new b)) }
{
    for (block, _) in base {
        put_block(ssd, choice, *block, into)?;
    }
    Ok(())
}

/// Puts what is left of the block that a call wrote into a map.
fn put_step(
    step: &Step,
    ssd: &SsdState,
    choice: BlockChoice,
    into: &mut BTreeMap<u64, PageBuf>,
) -> Result<(), NoMemory>
    requires { fits (blocks_of ssd.now) step.now ≡ true }
    ensures puts { OnOk result (PutsLeft ssd.now choice into.old into.new) }
    ensures all { OnOk result
        ((b : ℕ) → (spares b step.now ≡ true) ⊎ IsSome (get nat_cmp into.new b)) }
{
    match step {
        Step::WriteBlock { block, page: _ } => put_block(ssd, choice, *block, into),
        _ => Ok(()),
    }
}

/// Puts what is left of the blocks that calls wrote into a map.
fn put_written(
    entries: &[Entry],
    ssd: &SsdState,
    choice: BlockChoice,
    into: &mut BTreeMap<u64, PageBuf>,
) -> Result<(), NoMemory>
    requires { all_fit (blocks_of ssd.now) entries.now ≡ true }
    ensures puts { OnOk result (PutsLeft ssd.now choice into.old into.new) }
    ensures all { OnOk result
        ((b : ℕ) → (all_spare b entries.now ≡ true) ⊎ IsSome (get nat_cmp into.new b)) }
{
    for entry in entries {
        put_step(&entry.step, ssd, choice, into)?;
    }
    Ok(())
}

/// What is left of the blocks that were there at first or that calls wrote.
fn left_blocks(
    alloc: Global,
    base: &BTreeMap<u64, PageBuf>,
    entries: &[Entry],
    ssd: &SsdState,
    choice: BlockChoice,
) -> Result<BTreeMap<u64, PageBuf>, NoMemory>
    requires room { (b : ℕ) → IsSome (get nat_cmp base.now b) → b < blocks_of ssd.now }
    requires fit { all_fit (blocks_of ssd.now) entries.now ≡ true }
    ensures { IfOk result (λ map. AreLeftOf base.now entries.now ssd.now choice map) }
{
    let mut map = BTreeMap::new(alloc);
    put_first(base, ssd, choice, &mut map)?;
    put_written(entries, ssd, choice, &mut map)?;
    Ok(map)
}

/// A fresh pair of devices of these sizes, with these contents.
fn states_of(alloc: Global, base: &Images, lines: u64, blocks: u64) -> Result<States, NoMemory>
    requires lines { length base.now.nvm.items ≤ lines }
    requires blocks { (b : ℕ) → IsSome (get nat_cmp base.now.ssd b) → b < blocks }
    ensures state { IfOk result (λ made. state_of made.nvm made.ssd ≡ fresh (image_of base.now)) }
    ensures synced { IfOk result (λ made. synced_of made.ssd ≡ page_in base.now.ssd) }
    ensures lines { IfOk result (λ made. lines_of made.nvm ≡ lines) }
    ensures disk_size { IfOk result (λ made. blocks_of made.ssd ≡ blocks) }
{
    let mut nvm = NvmState::new(alloc, lines)?;
    let mut ssd = SsdState::new(alloc, blocks);
    place_lines(&base.nvm, &mut nvm)?;
    place_blocks(&base.ssd, &mut ssd)?;
    Ok(States { nvm, ssd })
}

impl Past {
    /// The states of both devices after the first calls.
    fn states_at(&self, alloc: Global, moment: usize) -> Result<States, NoMemory>
        requires sound { IsSound self.now }
        requires moment { moment ≤ length self.now.entries.items }
        ensures state { IfOk result
            (λ made. state_of made.nvm made.ssd
            ≡ replay (image_of self.now.base) (take moment self.now.entries.items)) }
        ensures synced { IfOk result
            (λ made. synced_of made.ssd
            ≡ synced_at (image_of self.now.base) (take moment self.now.entries.items)) }
        ensures lines { IfOk result (λ made. lines_of made.nvm ≡ self.now.lines) }
        ensures disk_size { IfOk result (λ made. blocks_of made.ssd ≡ self.now.current.ssd_blocks) }
    {
        let mut made = states_of(alloc, &self.base, self.lines, self.current.ssd_blocks)?;
        make_all(&self.entries[..moment], &mut made.nvm, &mut made.ssd)?;
        Ok(made)
    }

    /// What choices leave of both devices after the first calls.
    pub(crate) fn images_at(
        &self,
        alloc: Global,
        moment: usize,
        nvm: Choice,
        ssd: BlockChoice,
    ) -> Result<Images, NoMemory>
        requires sound { IsSound self.now }
        requires moment { moment ≤ length self.now.entries.items }
        ensures { IfOk result
            (λ images. IsLeftBy (replay (image_of self.now.base)
            (take moment self.now.entries.items))
            (synced_at (image_of self.now.base) (take moment self.now.entries.items)) self.now.lines
            self.now.current.ssd_blocks nvm ssd images) }
    {
        let made = self.states_at(alloc, moment)?;
        let entries = &self.entries[..moment];
        Ok(Images {
            nvm: made.nvm.image_by(alloc, nvm)?,
            ssd_blocks: self.current.ssd_blocks,
            ssd: left_blocks(alloc, &self.base.ssd, entries, &made.ssd, ssd)?,
        })
    }
}
