//! The words of the command line.
ghost use Rattle.std.specs.Prelude.{◌≡◌, [], ◌++◌, take, bytes_eq, length, ◌≤◌};
ghost use Rattle.spitfire_app.specs.CommandLine.{pushed, named};

use arrayvec::ArrayVec;
use std::marker::Model;

/// What the words of the command line ask for.
#[derive(Clone, Copy, Debug, PartialEq, Eq)]
pub enum Task {
    /// `format`: an empty store is made.
    Format,
    /// `run`: the script is answered.
    Run,
}

/// At most three words of the command line, of at most 32 bytes each. Contracts see the list of them, each a list of
/// bytes. No form has more words, or a longer one, so what is kept decides each form.
#[derive(Drop)]
pub struct Words {
    words: ArrayVec<ArrayVec<u8, 32>, 3>,
}

impl Model for Words {
    ghost use Rattle.std.specs.Prelude.{List, ℕ, map};

    ghost Value = { List (List ℕ) };

    ghost view = { λ w. map (λ word. word.items) w.words.items };
}

impl Words {
    /// No words.
    pub fn new() -> Words
        ensures { result ≡ [] }
    {
        Words {
            words: ArrayVec::new(),
        }
    }

    /// Adds the first 32 bytes of a word as the last word; where three words stand nothing changes.
    pub fn push(&mut self, word: &str)
        ensures { self.new ≡ pushed self.old word.now }
    {
        if !self.words.is_full() {
            self.words.push(first_bytes(word.as_bytes()));
        }
    }
}

impl Words {
    ghost use Rattle.spitfire_app.specs.CommandLine.{task_of};

    /// The task that the words name; `None` exactly where they are none of the forms.
    pub fn task(&self) -> Option<Task>
        ensures { result ≡ task_of self.now }
    {
        if self.words.len() != 1 {
            return None;
        }
        task_named(self.words[0].as_slice())
    }
}

/// The first 32 bytes, kept.
fn first_bytes(bytes: &[u8]) -> ArrayVec<u8, 32>
    ensures { result.items ≡ take 32 bytes.now }
{
    let mut kept = ArrayVec::new();
    let _fits = kept.try_extend_from_slice(first_of(bytes, 32));
    kept
}

/// So many bytes from the front, or all where there are fewer.
fn first_of(bytes: &[u8], count: usize) -> &[u8]
    ensures first { result.now ≡ take count bytes.now }
    ensures short { length result.now ≤ count }
{
    if bytes.len() > count {
        &bytes[..count]
    } else {
        bytes
    }
}

/// The task of one word.
fn task_named(word: &[u8]) -> Option<Task>
    ensures { result ≡ named word.now }
{
    if is(word, b"format") {
        Some(Task::Format)
    } else if is(word, b"run") {
        Some(Task::Run)
    } else {
        None
    }
}

fn is(word: &[u8], text: &[u8]) -> bool
    ensures { result ≡ bytes_eq word.now text.now }
{
    word == text
}
