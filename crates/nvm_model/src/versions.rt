//! One word of NVM with its versions.
//!
//! A fence goes over no word: each word has the number of the fence interval in which it was last touched, and where
//! that is an earlier one, what stands before its mark counts as dropped. It is dropped at the next touch.
ghost use Rattle.std.specs.Prelude.{◌≡◌, ◌≤◌, IsTrue, OnOk, length, take};
ghost use Rattle.nvm_model.specs.Word.{stored, marked, trimmed, single, last_of, oldest};

use crate::line::NoMemory;
use std::alloc::Global;
use std::collections::VecDeque;

/// One word.
#[derive(Drop)]
pub struct Versions {
    /// The last version.
    newest: u64,
    /// The versions before it, the latest of them first.
    older: VecDeque<u64>,
    /// How many of these stand from the mark on.
    kept: usize,
    /// The fence interval of the last touch.
    interval: u64,
    ghost in_older: { kept ≤ length older.items },
}

impl Versions {
    ghost use Rattle.nvm_model.specs.Held.{held_of, word_in, touched, blank, has_room};

    /// The word 0, with one version.
    pub fn new(alloc: Global) -> Versions
        ensures { held_of result ≡ blank }
    {
        Versions {
            newest: 0,
            older: VecDeque::new(alloc),
            kept: 0,
            interval: 0,
        }
    }

    /// Makes sure that one more version can be added.
    pub fn reserve(&mut self) -> Result<(), NoMemory>
        ensures held { held_of self.new ≡ held_of self.old }
        ensures room { OnOk result (IsTrue (has_room self.new)) }
    {
        self.older.reserve(1)?;
        Ok(())
    }

    /// Drops what the fences since the last touch have dropped.
    fn touch(&mut self, interval: u64)
        ensures held { held_of self.new ≡ touched interval (word_in interval (held_of self.old)) }
        ensures room { IsTrue (has_room self.old) → IsTrue (has_room self.new) }
    {
        if self.interval < interval {
            self.older.truncate(self.kept);
        }
        self.interval = interval;
    }

    /// Appends a version.
    pub fn store(&mut self, interval: u64, value: u64)
        requires { IsTrue (has_room self.old) }
        ensures { held_of self.new
            ≡ touched interval (stored value (word_in interval (held_of self.old))) }
    {
        self.touch(interval);
        self.older.push_front_reserved(self.newest);
        self.newest = value;
        self.kept += 1;
    }

    /// Sets the mark to the last version.
    pub fn mark(&mut self, interval: u64)
        ensures { held_of self.new
            ≡ touched interval (marked (word_in interval (held_of self.old))) }
    {
        self.touch(interval);
        self.kept = 0;
    }

    /// Drops what stands before the mark, and begins at the first fence interval again.
    pub fn restart(&mut self)
        ensures { held_of self.new ≡ touched 0 (trimmed (word_in 0 (held_of self.old))) }
    {
        self.older.truncate(self.kept);
        self.interval = 0;
    }

    /// The last version.
    pub fn newest(&self) -> u64
        ensures { result ≡ (held_of self.now).word.newest }
    {
        self.newest
    }

    /// The oldest version in a fence interval.
    pub fn oldest(&self, interval: u64) -> u64
        ensures { result ≡ oldest (word_in interval (held_of self.now)) }
    {
        if self.interval < interval {
            self.last_of_first(self.kept)
        } else {
            self.last_of_first(self.older.len())
        }
    }

    /// The oldest of the last version and so many before it.
    fn last_of_first(&self, count: usize) -> u64
        requires { count ≤ length self.now.older.items }
        ensures { result ≡ last_of self.now.newest (take count self.now.older.items) }
    {
        if count == 0 {
            self.newest
        } else {
            self.older[count - 1]
        }
    }
}
