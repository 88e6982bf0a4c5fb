//! The calls that were kept, made again on the states of both devices.
ghost use Rattle.std.specs.Prelude.{◌≡◌, ◌<◌, ◌≤◌, ℕ, true, List, length, OnOk, IsSome};
ghost use Rattle.std.specs.Ordering.{nat_cmp};
ghost use Rattle.std.specs.BTreeMap.{get};
ghost use Rattle.nvm_model.specs.Word.{single};
ghost use Rattle.nvm_model.specs.Memory.{zeros, with_line, with_marks};
ghost use Rattle.nvm_model.specs.Contents.{memory_of, lines_of};
ghost use Rattle.ssd_model.specs.Block.{zero_disk, settled_block};
ghost use Rattle.ssd_model.specs.Contents.{disk_of, synced_of, blocks_of};
ghost use Rattle.devices.specs.Past.{is_within, made, replay_from, page_in};
ghost use Rattle.devices.specs.Replay.{state_of, synced_by, synced_from, word_at, are_within};

use crate::step::{Entry, Step};
use nvm_model::{Line, NoMemory, NvmState};
use ssd_model::{PageBuf, SsdState};
use std::collections::BTreeMap;

/// Makes one call again.
fn make_again(step: &Step, nvm: &mut NvmState, ssd: &mut SsdState) -> Result<(), NoMemory>
    requires { is_within (lines_of nvm.old) (blocks_of ssd.old) step.now ≡ true }
    ensures made { OnOk result
        (state_of nvm.new ssd.new ≡ made step.now (state_of nvm.old ssd.old)) }
    ensures synced { OnOk result
        (synced_of ssd.new ≡ synced_by step.now (state_of nvm.old ssd.old) (synced_of ssd.old)) }
    ensures lines { lines_of nvm.new ≡ lines_of nvm.old }
    ensures blocks { blocks_of ssd.new ≡ blocks_of ssd.old }
{
    match step {
        Step::StoreWord { line, word, value } => nvm.store_word(*line, *word, *value)?,
        Step::StoreLine { line, value } => nvm.store_line(*line, value)?,
        Step::Flush { line } => nvm.flush(*line),
        Step::Fence => nvm.fence(),
        Step::WriteBlock { block, page } => ssd.write(*block, &**page)?,
        Step::Sync => ssd.sync(),
        Step::Send => {}
    }
    Ok(())
}

/// Makes calls again, one after the other.
pub(crate) fn make_all(
    entries: &[Entry],
    nvm: &mut NvmState,
    ssd: &mut SsdState,
) -> Result<(), NoMemory>
    requires { are_within (lines_of nvm.old) (blocks_of ssd.old) entries.now ≡ true }
    ensures made { OnOk result
        (state_of nvm.new ssd.new ≡ replay_from (state_of nvm.old ssd.old) entries.now) }
    ensures synced { OnOk result
        (synced_of ssd.new ≡ synced_from (state_of nvm.old ssd.old)
        (synced_of ssd.old) entries.now) }
    ensures lines { lines_of nvm.new ≡ lines_of nvm.old }
    ensures blocks { blocks_of ssd.new ≡ blocks_of ssd.old }
{
    for entry in entries {
        make_again(&entry.step, nvm, ssd)?;
    }
    Ok(())
}

/// Puts a line into an NVM of zeros, to be fenced.
fn place_line(nvm: &mut NvmState, line: u64, value: &Line) -> Result<(), NoMemory>
    requires { line < lines_of nvm.old }
    ensures placed { OnOk result
        (memory_of nvm.new ≡ with_marks line (with_line line value.now (memory_of nvm.old))) }
    ensures size { lines_of nvm.new ≡ lines_of nvm.old }
{
    nvm.store_line(line, value)?;
    nvm.flush(line);
    Ok(())
}

/// Puts lines into an NVM of zeros.
pub(crate) fn place_lines(lines: &[Line], nvm: &mut NvmState) -> Result<(), NoMemory>
    requires zeros { memory_of nvm.old ≡ zeros }
    requires room { length lines.now ≤ lines_of nvm.old }
    ensures placed { OnOk result (memory_of nvm.new ≡ λ l w. single (word_at lines.now l w)) }
    ensures size { lines_of nvm.new ≡ lines_of nvm.old }
{
    for (line, value) in lines.iter().enumerate() {
        place_line(nvm, line as u64, value)?;
    }
    nvm.fence();
    Ok(())
}

/// Puts blocks onto a disk of zeros.
pub(crate) fn place_blocks(
    blocks: &BTreeMap<u64, PageBuf>,
    ssd: &mut SsdState,
) -> Result<(), NoMemory>
    requires zeros { disk_of ssd.old ≡ zero_disk }
    requires room { (b : ℕ) → IsSome (get nat_cmp blocks.now b) → b < blocks_of ssd.old }
    ensures placed { OnOk result (disk_of ssd.new ≡ λ b. settled_block (page_in blocks.now b)) }
    ensures synced { OnOk result (synced_of ssd.new ≡ page_in blocks.now) }
    ensures size { blocks_of ssd.new ≡ blocks_of ssd.old }
{
    for (block, page) in blocks {
        ssd.write(*block, page)?;
    }
    ssd.sync();
    Ok(())
}
