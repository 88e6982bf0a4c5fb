//! The calls that changed a device or the output, and what the devices hold after them.
ghost use Rattle.std.specs.Prelude.{◌≡◌, ◌≢◌, ◌<◌, ℕ, [], length, slice_index, IfOk, IsSome, replicate, OnOk, OnErr, ◌∷◌, ◌++◌};
ghost use Rattle.std.specs.Ordering.{nat_cmp};
ghost use Rattle.std.specs.BTreeMap.{get};
ghost use Rattle.devices.specs.State.{line_at};
ghost use Rattle.devices.specs.World.{sent_by};
ghost use Rattle.devices.specs.Past.{changes_of, IsSound, Same, Kept, KeptPage, Sent, standing_state, Begins, Starts, image_of, zero_image, zero_line};
ghost use Rattle.devices.specs.declared.step.Step.TheVariants.{StoreWord, StoreLine, Flush, Fence, Sync};

use crate::copies::copy_images;
use crate::images::Images;
use crate::step::{Entry, Sending, Step};
use nvm_model::{Line, NoMemory};
use ssd_model::PageBuf;
use std::alloc::Global;
use std::collections::BTreeMap;

/// The calls so far, the devices before and after them, and the output.
#[derive(Drop)]
pub(crate) struct Past {
    pub(crate) alloc: Global,
    pub(crate) lines: u64,
    /// What the devices held before the first call.
    pub(crate) base: Images,
    /// The last versions and the current bytes.
    pub(crate) current: Images,
    pub(crate) entries: Vec<Entry>,
    pub(crate) sent: Vec<u8>,
    pub(crate) sendings: Vec<Sending>,
}

/// Keeps one call more.
fn note(entries: &mut Vec<Entry>, event: u64, step: Step) -> Result<(), NoMemory>
    ensures ok { OnOk result
        (entries.new.items ≡ entries.old.items ++ record { event = event; step = step } ∷ []) }
    ensures err { OnErr result (entries.new.items ≡ entries.old.items) }
{
    if entries.push(Entry { event, step }).is_err() {
        return Err(NoMemory);
    }
    Ok(())
}

/// Sets one word of a line.
fn set_word(line: &mut Line, word: usize, value: u64)
    requires { word < 8 }
    ensures this { slice_index line.new.words word ≡ value }
    ensures others { (w : ℕ) → w ≢ word
        → slice_index line.new.words w ≡ slice_index line.old.words w }
{
    line.words[word] = value;
}

/// A copy, whose eight words are known.
pub(crate) fn copy_of(line: &Line) -> Line
    ensures same { result ≡ line.now }
    ensures size { length result.words ≡ 8 }
{
    let words = line.words;
    Line { words }
}

/// Lines of zeros.
#[tactic(auto, unfolding(crate::specs::Past::zero_line))]
fn zero_lines(alloc: Global, lines: u64) -> Result<Vec<Line>, NoMemory>
    ensures { IfOk result (λ made. made.items ≡ replicate lines zero_line) }
{
    let Ok(made) = vec![in alloc; Line { words: [0; 8] }; lines as usize] else {
        return Err(NoMemory);
    };
    Ok(made)
}

impl Past {
    /// No calls, over devices that hold this.
    fn over(alloc: Global, lines: u64, base: Images, current: Images) -> Past
        requires { Begins lines base current }
        ensures sound { IsSound result }
        ensures starts { Starts lines current.ssd_blocks (image_of base) result }
    {
        Past {
            alloc,
            lines,
            base,
            current,
            entries: Vec::new(alloc),
            sent: Vec::new(alloc),
            sendings: Vec::new(alloc),
        }
    }

    /// No calls, over devices of zeros.
    pub(crate) fn zeros(alloc: Global, lines: u64, blocks: u64) -> Result<Past, NoMemory>
        ensures sound { IfOk result (λ made. IsSound made) }
        ensures starts { IfOk result (λ made. Starts lines blocks zero_image made) }
    {
        let base = Images {
            nvm: Vec::new(alloc),
            ssd_blocks: blocks,
            ssd: BTreeMap::new(alloc),
        };
        let current = Images {
            nvm: zero_lines(alloc, lines)?,
            ssd_blocks: blocks,
            ssd: BTreeMap::new(alloc),
        };
        Ok(Past::over(alloc, lines, base, current))
    }

    /// No calls, over devices with these contents.
    pub(crate) fn of_images(alloc: Global, images: &Images) -> Result<Past, NoMemory>
        requires { (b : ℕ) → IsSome (get nat_cmp images.now.ssd b) → b < images.now.ssd_blocks }
        ensures sound { IfOk result (λ made. IsSound made) }
        ensures starts { IfOk result
            (λ made. Starts (length images.now.nvm.items) images.now.ssd_blocks
            (image_of images.now) made) }
    {
        let base = copy_images(alloc, images)?;
        let current = copy_images(alloc, images)?;
        let lines = images.nvm.len() as u64;
        Ok(Past::over(alloc, lines, base, current))
    }

    /// The last version of each word of a line.
    pub(crate) fn load(&self, line: u64) -> Line
        requires sound { IsSound self.now }
        requires line { line < self.now.lines }
        ensures { result ≡ line_at (standing_state self.now) line }
    {
        copy_of(&self.current.nvm[line as usize])
    }

    /// Stores a word, or finds no memory and changes nothing.
    pub(crate) fn store_word(
        &mut self,
        event: u64,
        line: u64,
        word: usize,
        value: u64,
    ) -> Result<(), NoMemory>
        requires sound { IsSound self.old }
        requires line { line < self.old.lines }
        requires word { word < 8 }
        ensures sound { IsSound self.new }
        ensures ok { OnOk result (Kept event (StoreWord line word value) self.old self.new) }
        ensures err { OnErr result (Same self.old self.new) }
    {
        note(
            &mut self.entries,
            event,
            Step::StoreWord { line, word, value },
        )?;
        set_word(&mut self.current.nvm[line as usize], word, value);
        Ok(())
    }

    /// Stores a line, or finds no memory and changes nothing.
    pub(crate) fn store_line(&mut self, event: u64, line: u64, value: &Line) -> Result<(), NoMemory>
        requires sound { IsSound self.old }
        requires line { line < self.old.lines }
        ensures sound { IsSound self.new }
        ensures ok { OnOk result (Kept event (StoreLine line value.now) self.old self.new) }
        ensures err { OnErr result (Same self.old self.new) }
    {
        let value = *value;
        note(&mut self.entries, event, Step::StoreLine { line, value })?;
        self.current.nvm[line as usize] = value;
        Ok(())
    }

    /// Flushes a line, or finds no memory and changes nothing.
    pub(crate) fn flush(&mut self, event: u64, line: u64) -> Result<(), NoMemory>
        requires sound { IsSound self.old }
        requires line { line < self.old.lines }
        ensures sound { IsSound self.new }
        ensures ok { OnOk result (Kept event (Flush line) self.old self.new) }
        ensures err { OnErr result (Same self.old self.new) }
    {
        note(&mut self.entries, event, Step::Flush { line })?;
        Ok(())
    }

    /// Fences, or finds no memory and changes nothing.
    pub(crate) fn fence(&mut self, event: u64) -> Result<(), NoMemory>
        requires { IsSound self.old }
        ensures sound { IsSound self.new }
        ensures ok { OnOk result (Kept event Fence self.old self.new) }
        ensures err { OnErr result (Same self.old self.new) }
    {
        note(&mut self.entries, event, Step::Fence)?;
        Ok(())
    }

    /// The current bytes of a block.
    pub(crate) fn read_block(&self, block: u64, into: &mut PageBuf)
        requires { IsSound self.now }
        ensures { into.new ≡ ((standing_state self.now).ssd block).bytes }
    {
        match self.current.ssd.get(&block) {
            Some(page) => into.copy_from(page),
            None => *into = PageBuf::zero(),
        }
    }

    /// Writes a block, or finds no memory and changes nothing.
    pub(crate) fn write_block(
        &mut self,
        event: u64,
        block: u64,
        from: &PageBuf,
    ) -> Result<(), NoMemory>
        requires sound { IsSound self.old }
        requires block { block < self.old.current.ssd_blocks }
        ensures sound { IsSound self.new }
        ensures ok { OnOk result (KeptPage event block from.now self.old self.new) }
        ensures err { OnErr result (Same self.old self.new) }
    {
        if self.entries.reserve(1).is_err() {
            return Err(NoMemory);
        }
        let Ok(page) = Box::new(self.alloc, from.copy()) else {
            return Err(NoMemory);
        };
        let Ok(_) = self.current.ssd.insert(block, from.copy()) else {
            return Err(NoMemory);
        };
        self.entries.push_reserved(Entry {
            event,
            step: Step::WriteBlock { block, page },
        });
        Ok(())
    }

    /// Settles all blocks, or finds no memory and changes nothing.
    pub(crate) fn sync(&mut self, event: u64) -> Result<(), NoMemory>
        requires { IsSound self.old }
        ensures sound { IsSound self.new }
        ensures ok { OnOk result (Kept event Sync self.old self.new) }
        ensures err { OnErr result (Same self.old self.new) }
    {
        note(&mut self.entries, event, Step::Sync)?;
        Ok(())
    }

    /// Sends bytes, or finds no memory and changes nothing.
    pub(crate) fn send(&mut self, event: u64, bytes: &[u8]) -> Result<(), NoMemory>
        requires { IsSound self.old }
        ensures sound { IsSound self.new }
        ensures ok { OnOk result (Sent event bytes.now self.old self.new) }
        ensures err { OnErr result (Same self.old self.new) }
    {
        if self.entries.reserve(1).is_err() || self.sendings.reserve(1).is_err() {
            return Err(NoMemory);
        }
        let Ok(()) = self.sent.extend_from_slice(bytes) else {
            return Err(NoMemory);
        };
        self.entries.push_reserved(Entry {
            event,
            step: Step::Send,
        });
        self.sendings.push_reserved(Sending {
            moment: self.entries.len(),
            sent_end: self.sent.len(),
        });
        Ok(())
    }

    /// How many bytes were sent by a moment.
    pub(crate) fn sent_by(&self, moment: usize) -> usize
        requires { IsSound self.now }
        ensures { result
            ≡ length (sent_by (changes_of self.now.sendings.items self.now.sent.items) moment) }
    {
        let mut sent_end = 0;
        for sending in &self.sendings {
            if sending.moment <= moment {
                sent_end = sending.sent_end;
            }
        }
        sent_end
    }
}
