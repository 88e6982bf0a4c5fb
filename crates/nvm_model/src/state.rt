//! The words of an NVM.
ghost use Rattle.std.specs.Prelude.{◌≡◌, ◌<◌, ◌+◌, ◌*◌, ℕ, IfOk, OnOk, OnErr, length};
ghost use Rattle.nvm_model.specs.Memory.{zeros, newest_line, with_word, with_line, with_marks, fenced_memory};
ghost use Rattle.nvm_model.specs.Held.{helds_of, AreUpTo};
ghost use Rattle.nvm_model.specs.Choose.{chosen, chosen_line, image_of};

use crate::line::{Choice, Line, NoMemory};
use crate::versions::Versions;
use crate::words::{
    fresh_words, mark_all, push_line, reserve_line, restart_all, store_all, store_at,
};
use std::alloc::Global;

/// An NVM of lines of eight words, each with its versions.
#[derive(Drop)]
pub struct NvmState {
    lines: u64,
    /// The words of the first line, then those of the next, and so on.
    words: Vec<Versions>,
    /// How many fences there were since all words were trimmed.
    interval: u64,
    ghost size: { length words.items ≡ 8 * lines },
    ghost up_to: { AreUpTo interval (helds_of words.items) },
}

impl NvmState {
    ghost use Rattle.nvm_model.specs.Contents.{memory_of, lines_of};

    /// An NVM of so many lines, with all words 0 and one version of each. `NoMemory` where they are not to be had, or where there are
    /// more words than can be numbered.
    pub fn new(alloc: Global, lines: u64) -> Result<NvmState, NoMemory>
        ensures words { IfOk result (λ made. memory_of made ≡ zeros) }
        ensures size { IfOk result (λ made. lines_of made ≡ lines) }
    {
        let count = lines.checked_mul(8).ok_or(NoMemory)?;
        let words = fresh_words(alloc, count as usize)?;
        Ok(NvmState {
            lines,
            words,
            interval: 0,
        })
    }

    /// How many lines it has.
    pub fn lines(&self) -> u64
        ensures { result ≡ lines_of self.now }
    {
        self.lines
    }

    /// Where a word stands among the words.
    fn index_of(&self, line: u64, place: usize) -> usize
        requires line { line < lines_of self.now }
        requires place { place < 8 }
        ensures value { result ≡ 8 * line + place }
        ensures within { result < length self.now.words.items }
    {
        8 * line as usize + place
    }

    /// The last version of a word.
    fn newest(&self, line: u64, place: usize) -> u64
        requires line { line < lines_of self.now }
        requires place { place < 8 }
        ensures { result ≡ (memory_of self.now line place).newest }
    {
        self.words[self.index_of(line, place)].newest()
    }

    /// The last version of each word of a line.
    pub fn load(&self, line: u64) -> Line
        requires { line < lines_of self.now }
        ensures { result ≡ newest_line (memory_of self.now) line }
    {
        Line {
            words: [
                self.newest(line, 0),
                self.newest(line, 1),
                self.newest(line, 2),
                self.newest(line, 3),
                self.newest(line, 4),
                self.newest(line, 5),
                self.newest(line, 6),
                self.newest(line, 7),
            ],
        }
    }

    /// Appends a version to one word. After `NoMemory` all words are as they were.
    pub fn store_word(&mut self, line: u64, word: usize, value: u64) -> Result<(), NoMemory>
        requires line { line < lines_of self.old }
        requires word { word < 8 }
        ensures stored { OnOk result
            (memory_of self.new ≡ with_word line word value (memory_of self.old)) }
        ensures unchanged { OnErr result (memory_of self.new ≡ memory_of self.old) }
        ensures size { lines_of self.new ≡ lines_of self.old }
    {
        let at = self.index_of(line, word);
        store_at(&mut self.words, self.interval, at, value)
    }

    /// Appends a version to each of the eight words of a line. After `NoMemory` all words are as they were.
    pub fn store_line(&mut self, line: u64, value: &Line) -> Result<(), NoMemory>
        requires { line < lines_of self.old }
        ensures stored { OnOk result
            (memory_of self.new ≡ with_line line value.now (memory_of self.old)) }
        ensures unchanged { OnErr result (memory_of self.new ≡ memory_of self.old) }
        ensures size { lines_of self.new ≡ lines_of self.old }
    {
        let first = self.index_of(line, 0);
        reserve_line(&mut self.words, first)?;
        store_all(&mut self.words, self.interval, first, value);
        Ok(())
    }

    /// Marks the last version of each word of a line. It takes no memory.
    pub fn flush(&mut self, line: u64)
        requires { line < lines_of self.old }
        ensures words { memory_of self.new ≡ with_marks line (memory_of self.old) }
        ensures size { lines_of self.new ≡ lines_of self.old }
    {
        let first = self.index_of(line, 0);
        mark_all(&mut self.words, self.interval, first);
    }

    /// Drops for each word the versions before its mark. It takes no memory, and goes over no word but once in
    /// `u64::MAX` fences.
    pub fn fence(&mut self)
        ensures words { memory_of self.new ≡ fenced_memory (memory_of self.old) }
        ensures size { lines_of self.new ≡ lines_of self.old }
    {
        if self.interval == u64::MAX {
            restart_all(&mut self.words);
            self.interval = 0;
        } else {
            self.interval += 1;
        }
    }

    /// The image that a choice leaves, line by line. `NoMemory` where its lines are not to be had.
    pub fn image_by(&self, alloc: Global, choice: Choice) -> Result<Vec<Line>, NoMemory>
        ensures { IfOk result
            (λ image. image.items ≡ image_of choice (memory_of self.now) (lines_of self.now)) }
    {
        let mut image = Vec::new(alloc);
        for line in 0..self.lines {
            let left = self.chosen_line(choice, line);
            push_line(&mut image, left)?;
        }
        Ok(image)
    }

    /// A line of that image.
    fn chosen_line(&self, choice: Choice, line: u64) -> Line
        requires { line < lines_of self.now }
        ensures { result ≡ chosen_line choice (memory_of self.now) line }
    {
        Line {
            words: [
                self.chosen(choice, line, 0),
                self.chosen(choice, line, 1),
                self.chosen(choice, line, 2),
                self.chosen(choice, line, 3),
                self.chosen(choice, line, 4),
                self.chosen(choice, line, 5),
                self.chosen(choice, line, 6),
                self.chosen(choice, line, 7),
            ],
        }
    }

    /// A word of that image.
    fn chosen(&self, choice: Choice, line: u64, place: usize) -> u64
        requires line { line < lines_of self.now }
        requires place { place < 8 }
        ensures { result ≡ chosen choice line place (memory_of self.now line place) }
    {
        let at = self.index_of(line, place);
        if choice.takes_oldest(at) {
            self.words[at].oldest(self.interval)
        } else {
            self.words[at].newest()
        }
    }
}
