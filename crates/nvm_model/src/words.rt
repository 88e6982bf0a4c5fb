//! The words of a state, one behind the other, eight a line.
ghost use Rattle.std.specs.Prelude.{◌≡◌, [], ◌∷◌, ◌++◌, ◌+◌, ◌≤◌, ◌<◌, IfOk, OnOk, OnErr, length, replicate, get_or, set, slice_index};
ghost use Rattle.nvm_model.specs.Word.{stored, marked, trimmed};
ghost use Rattle.nvm_model.specs.Held.{helds_of, word_in, touched, blank};
ghost use Rattle.nvm_model.specs.Progress.{Progress, HaveRoom};

use crate::line::{Line, NoMemory};
use crate::versions::Versions;
use std::alloc::{AllocError, Global};

/// So many words that are 0, with one version each.
pub fn fresh_words(alloc: Global, count: usize) -> Result<Vec<Versions>, NoMemory>
    ensures { IfOk result (λ made. helds_of made.items ≡ replicate count blank) }
{
    let mut words = Vec::with_capacity(alloc, count)?;
    for _i in 0..count {
        words.push(Versions::new(alloc)).map_err(AllocError::from)?;
    }
    Ok(words)
}

/// Appends a version to one word, or changes nothing.
pub fn store_at(
    words: &mut Vec<Versions>,
    interval: u64,
    at: usize,
    value: u64,
) -> Result<(), NoMemory>
    requires { at < length words.old.items }
    ensures stored { OnOk result
        (helds_of words.new.items ≡ set (helds_of words.old.items) at
        (touched interval (stored value
        (word_in interval (get_or (helds_of words.old.items) at blank))))) }
    ensures unchanged { OnErr result (helds_of words.new.items ≡ helds_of words.old.items) }
{
    words[at].reserve()?;
    words[at].store(interval, value);
    Ok(())
}

/// Makes sure that one more version can be added to each of the eight words from one place on.
pub fn reserve_line(words: &mut Vec<Versions>, first: usize) -> Result<(), NoMemory>
    requires { first + 8 ≤ length words.old.items }
    ensures held { helds_of words.new.items ≡ helds_of words.old.items }
    ensures room { OnOk result (HaveRoom first 0 8 words.new.items) }
{
    for place in 0..8 {
        words[first + place].reserve()?;
    }
    Ok(())
}

/// Appends a version to each of the eight words from one place on.
pub fn store_all(words: &mut Vec<Versions>, interval: u64, first: usize, value: &Line)
    requires within { first + 8 ≤ length words.old.items }
    requires room { HaveRoom first 0 8 words.old.items }
    ensures { Progress interval (λ k word. stored (slice_index value.now.words k) word) first 8
        (helds_of words.old.items) (helds_of words.new.items) }
{
    for place in 0..8 {
        words[first + place].store(interval, value.words[place]);
    }
}

/// Marks the last version of each of the eight words from one place on.
pub fn mark_all(words: &mut Vec<Versions>, interval: u64, first: usize)
    requires { first + 8 ≤ length words.old.items }
    ensures { Progress interval (λ _k word. marked word) first 8 (helds_of words.old.items)
        (helds_of words.new.items) }
{
    for place in 0..8 {
        words[first + place].mark(interval);
    }
}

/// Drops for each word what stands before its mark, and begins at the first fence interval again.
pub fn restart_all(words: &mut Vec<Versions>)
    ensures { Progress 0 (λ _k word. trimmed word) 0 (length words.old.items)
        (helds_of words.old.items) (helds_of words.new.items) }
{
    for at in 0..words.len() {
        words[at].restart();
    }
}

/// Puts a line behind others, or changes nothing.
pub fn push_line(lines: &mut Vec<Line>, line: Line) -> Result<(), NoMemory>
    ensures pushed { OnOk result (lines.new.items ≡ lines.old.items ++ line ∷ []) }
    ensures unchanged { OnErr result (lines.new.items ≡ lines.old.items) }
{
    match lines.push(line) {
        Ok(()) => Ok(()),
        Err(_) => Err(NoMemory),
    }
}
