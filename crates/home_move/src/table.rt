//! The frame table, read and checked.
ghost use Rattle.std.specs.Prelude.{◌≡◌, ◌≢◌, ◌<◌, ◌≤◌, ◌+◌, ◌-◌, ℕ, true, false, length, slice_index, IsTrue, IfOk, OnOk};
ghost use Rattle.devices.specs.State.{current};
ghost use Rattle.devices.specs.World.{Goes, Stays, now};
ghost use Rattle.device_calls.specs.Leads.{Looked};
ghost use Rattle.device_calls.specs.Stops.{StopsWith};
ghost use Rattle.line_pages.specs.declared.stop.Stop.TheVariants.{Nvm};
ghost use Rattle.line_pages.specs.Pairs.{with_pair};
ghost use Rattle.line_pages.specs.LineSets.{pairs_of, pages_of};
ghost use Rattle.damage.specs.declared.evidence.Evidence.TheVariants as evidence;
ghost use Rattle.store_model.specs.Layout.{pages, nvm_lines};
ghost use Rattle.store_model.specs.Recovered.{entry_at};
ghost use Rattle.nvm_layout.specs.Sizes.{sizes_of};
ghost use Rattle.home_move.specs.Table.{AreEntries, OnLoaded, NamesTwice, IsJudged, IsTableAnswer, TableCause, AreBelow, HasWord, IsFirstAbove, IsFirstTwice};

use damage::Evidence;
use device_calls::load;
use devices::Devices;
use line_pages::{LineSet, Stop};
use nvm_layout::Geometry;
use nvm_model::Line;

/// Loads the entries of the frame table, one for each frame and the last for the frame through which pages pass, and checks
/// them: check 5 fails where an entry is above the number of pages, check 6 where two are equal and not 0. `seen` is a set
/// over all pages, for the time of this call.
pub fn read_table<D: Devices>(
    dev: &mut D,
    geometry: &Geometry,
    entries: &mut [u64],
    seen: &mut LineSet,
) -> Result<(), Stop>
    requires fits { nvm_lines (sizes_of geometry.now) ≤ (D.standing dev.old).lines }
    requires size { length entries.old ≡ geometry.now.frames + 1 }
    requires pages { pages_of seen.old ≡ pages (sizes_of geometry.now) }

    // What is read, and what is found of it.
    ensures held { IsTrue (D.standing dev.old).told → OnLoaded result
        (AreEntries (geometry.now.frames + 1) entries.new (now (D.standing dev.old))) }
    ensures answer { IsTableAnswer (pages (sizes_of geometry.now)) (geometry.now.frames + 1)
        (slice_index entries.new) result }

    // Why it fails, and what stays.
    ensures cause { TableCause (D.standing dev.old) (D.standing dev.new) result }
    ensures goes { Goes (D.standing dev.old) (D.standing dev.new) }
    ensures stays { Stays (D.standing dev.old) (D.standing dev.new) }
    ensures reads { (D.standing dev.new).block_reads ≡ (D.standing dev.old).block_reads }
    ensures size { length entries.new ≡ length entries.old }
    ensures pages { pages_of seen.new ≡ pages_of seen.old }
{
    load_entries(dev, geometry, entries)?;
    match judge_entries(geometry.pages(), entries, seen) {
        Ok(()) => Ok(()),
        Err(kept) => Err(Stop::Damaged(kept)),
    }
}

/// Loads all entries.
fn load_entries<D: Devices>(
    dev: &mut D,
    geometry: &Geometry,
    entries: &mut [u64],
) -> Result<(), Stop>
    requires fits { nvm_lines (sizes_of geometry.now) ≤ (D.standing dev.old).lines }
    requires size { length entries.old ≡ geometry.now.frames + 1 }
    ensures looked { Looked (D.standing dev.old) (D.standing dev.new) result }
    ensures stops { StopsWith Nvm result }
    ensures reads { (D.standing dev.new).block_reads ≡ (D.standing dev.old).block_reads }
    ensures size { length entries.new ≡ length entries.old }
    ensures held { IsTrue (D.standing dev.old).told → OnOk result
        (AreEntries (geometry.now.frames + 1) entries.new (now (D.standing dev.old))) }
{
    for frame in 0..geometry.frames + 1 {
        let entry = load_entry(dev, geometry, frame)?;
        entries[frame as usize] = entry;
    }
    Ok(())
}

/// The entry of a frame.
fn load_entry<D: Devices>(dev: &mut D, geometry: &Geometry, frame: u32) -> Result<u64, Stop>
    requires fits { nvm_lines (sizes_of geometry.now) ≤ (D.standing dev.old).lines }
    requires frame { frame ≤ geometry.now.frames }
    ensures looked { Looked (D.standing dev.old) (D.standing dev.new) result }
    ensures stops { StopsWith Nvm result }
    ensures reads { (D.standing dev.new).block_reads ≡ (D.standing dev.old).block_reads }
    ensures value { IsTrue (D.standing dev.old).told
        → IfOk result (λ found. found ≡ entry_at (current (now (D.standing dev.old))) frame) }
{
    let (line, word) = geometry.table_word(frame);
    let found = load(dev, line)?;
    Ok(word_of(&found, word))
}

/// A word of a line.
fn word_of(line: &Line, word: usize) -> u64
    requires { word < 8 }
    ensures { result ≡ slice_index line.now.words word }
{
    line.words[word]
}

/// Checks 5 and 6 on all entries.
fn judge_entries(pages: u64, entries: &[u64], seen: &mut LineSet) -> Result<(), Evidence>
    requires size { length entries.now ≤ 65536 }
    requires pages { pages_of seen.old ≡ pages }
    ensures judged { IsJudged pages (length entries.now) (slice_index entries.now) result }
    ensures pages { pages_of seen.new ≡ pages_of seen.old }
{
    match first_above(pages, entries) {
        Some(frame) => Err(above(entries, frame)),
        None => judge_twice(pages, entries, seen),
    }
}

/// Check 6, where check 5 passes.
fn judge_twice(pages: u64, entries: &[u64], seen: &mut LineSet) -> Result<(), Evidence>
    requires size { length entries.now ≤ 65536 }
    requires pages { pages_of seen.old ≡ pages }
    requires below { AreBelow pages (length entries.now) (slice_index entries.now) }
    ensures judged { IsJudged pages (length entries.now) (slice_index entries.now) result }
    ensures pages { pages_of seen.new ≡ pages_of seen.old }
{
    match first_twice(pages, entries, seen) {
        Some(frame) => Err(twice(entries, frame)),
        None => Ok(()),
    }
}

/// The first entry above the number of pages.
fn first_above(pages: u64, entries: &[u64]) -> Option<usize>
    ensures { IsFirstAbove pages (length entries.now) (slice_index entries.now) result }
{
    for frame in 0..entries.len() {
        if entries[frame] > pages {
            return Some(frame);
        }
    }
    None
}

/// The first entry that names a page which an earlier one names.
fn first_twice(pages: u64, entries: &[u64], seen: &mut LineSet) -> Option<usize>
    requires pages { pages_of seen.old ≡ pages }
    requires below { AreBelow pages (length entries.now) (slice_index entries.now) }
    ensures first { IsFirstTwice (length entries.now) (slice_index entries.now) result }
    ensures pages { pages_of seen.new ≡ pages_of seen.old }
{
    seen.clear();
    for frame in 0..entries.len() {
        if was_seen(entries[frame], seen) {
            return Some(frame);
        }
    }
    None
}

/// Whether the page of an entry was seen; it is noted. An entry of 0 has none.
fn was_seen(entry: u64, seen: &mut LineSet) -> bool
    requires { entry ≤ pages_of seen.old }
    ensures again { result ≡ true → (entry ≢ 0) × (pairs_of seen.old (entry - 1) 0 ≡ true) }
    ensures empty { result ≡ false → entry ≡ 0 → pairs_of seen.new ≡ pairs_of seen.old }
    ensures noted { result ≡ false → entry ≢ 0
        → (pairs_of seen.old (entry - 1) 0 ≡ false)
        × (pairs_of seen.new ≡ with_pair (entry - 1) 0 (pairs_of seen.old)) }
    ensures pages { pages_of seen.new ≡ pages_of seen.old }
{
    if entry == 0 {
        return false;
    }
    if seen.has(entry - 1, 0) {
        return true;
    }
    seen.insert(entry - 1, 0);
    false
}

/// The first place of a word, which stands before `end`.
fn first_with(entries: &[u64], word: u64, end: usize) -> usize
    requires end { end ≤ length entries.now }
    requires some { HasWord end (slice_index entries.now) word }
    ensures less { result < end }
    ensures is { slice_index entries.now result ≡ word }
{
    for frame in 0..end {
        if entries[frame] == word {
            return frame;
        }
    }
    end
}

/// The evidence of an entry above the number of pages.
fn above(entries: &[u64], frame: usize) -> Evidence
    requires size { length entries.now ≤ 65536 }
    requires frame { frame < length entries.now }
    ensures { result ≡ evidence.Frames frame frame (slice_index entries.now frame) 5 }
{
    Evidence::Frames {
        first: frame as u32,
        second: frame as u32,
        word: entries[frame],
        check: 5,
    }
}

/// The evidence of an entry that names a page which an earlier one names.
fn twice(entries: &[u64], frame: usize) -> Evidence
    requires size { length entries.now ≤ 65536 }
    requires frame { frame < length entries.now }
    requires some { HasWord frame (slice_index entries.now) (slice_index entries.now frame) }
    requires page { slice_index entries.now frame ≢ 0 }
    ensures { NamesTwice (length entries.now) (slice_index entries.now) result }
{
    let word = entries[frame];
    Evidence::Frames {
        first: first_with(entries, word, frame) as u32,
        second: frame as u32,
        word,
        check: 6,
    }
}
