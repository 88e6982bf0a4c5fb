//! A tree that grows over pages in memory.
ghost use Rattle.std.specs.Prelude.{◌≤◌, ◌<◌, ◌*◌};

use bplus_tree::{delete, put};
use line_pages::{Pages, Stop, VecPages};
use nvm_model::{Line, NoMemory};
use page_format::Work;
use rows::Value;
use std::alloc::Global;
use std::io;
use tree_search::{Root, get};

/// Why the program ended early.
#[derive(Debug, Drop)]
pub enum Ended {
    Memory,
    Stopped(Stop),
    Print(io::Error),
    /// An argument is no number, or too great.
    NoNumber,
    /// No value, or no change is left.
    Spent,
}

impl From<NoMemory> for Ended {
    fn from(_error: NoMemory) -> Ended {
        Ended::Memory
    }
}

impl From<Stop> for Ended {
    fn from(error: Stop) -> Ended {
        Ended::Stopped(error)
    }
}

impl From<io::Error> for Ended {
    fn from(error: io::Error) -> Ended {
        Ended::Print(error)
    }
}

/// A key of a row of keys that jump about.
fn scattered(i: u64) -> u64 {
    i.wrapping_mul(0x9E37_79B9_7F4A_7C15)
}

/// A tree, and how many changes may still be made.
#[derive(Drop)]
pub struct Grown {
    pages: VecPages,
    root: Root,
    work: Work,
    value: Value,
    left: u64,
    ghost some: { 1 ≤ root.page },
    ghost page: { root.page < (⟦<VecPages as Pages>⟧.standing pages).count },
    ghost some_levels: { 1 ≤ root.levels },
    ghost few_levels: { root.levels ≤ 4 },
    ghost room: { 600 * left ≤ (⟦<VecPages as Pages>⟧.standing pages).room },
}

impl Grown {
    /// An empty tree with pages for this many rows, and leave for as many puts and so many deletes.
    pub fn new(alloc: Global, rows: u64, deletes: u64) -> Result<Grown, Ended> {
        if rows > 1_000_000 || deletes > 1_000_000 {
            return Err(Ended::NoNumber);
        }
        let Some(value) = Value::from_bytes(b"a value of thirty-two characters") else {
            return Err(Ended::Spent);
        };
        let mut pages = VecPages::new(alloc, rows / 16 + 100, 600 * (rows + deletes) + 2)?;
        let header = Line {
            words: [4, 0, 2, 0, 0, 0, 0, 0],
        };
        let leaf = Line {
            words: [1, 0, 0, 4096, 0, 0, 0, 0],
        };
        pages.write_line(0, 0, &header)?;
        pages.write_line(1, 0, &leaf)?;
        Ok(Grown {
            pages,
            root: Root { page: 1, levels: 1 },
            work: Work::new(),
            value,
            left: rows + deletes,
        })
    }

    /// Puts the value at a key: true where the key is new.
    fn put(&mut self, key: u64) -> Result<bool, Ended> {
        let left = self.left;
        if left == 0 {
            return Err(Ended::Spent);
        }
        self.left = 0;
        let mut root = self.root;
        let fresh = put(&mut self.pages, &mut root, key, &self.value, &mut self.work)?;
        self.root = root;
        self.left = left - 1;
        Ok(fresh)
    }

    /// Puts the value at so many keys that jump about, and gives how many of them are new.
    pub fn put_all(&mut self, rows: u64) -> Result<u64, Ended> {
        let mut fresh: u64 = 0;
        for i in 0..rows {
            if self.put(scattered(i))? {
                fresh = fresh.saturating_add(1);
            }
        }
        Ok(fresh)
    }

    /// Takes a key out: true where it was there.
    fn delete(&mut self, key: u64) -> Result<bool, Ended> {
        let left = self.left;
        if left == 0 {
            return Err(Ended::Spent);
        }
        self.left = 0;
        let mut root = self.root;
        let found = delete(&mut self.pages, &mut root, key, &mut self.work)?;
        self.root = root;
        self.left = left - 1;
        Ok(found)
    }

    /// Takes the first so many keys out, and gives how many of them were there.
    pub fn delete_all(&mut self, deletes: u64) -> Result<u64, Ended> {
        let mut found: u64 = 0;
        for i in 0..deletes {
            if self.delete(scattered(i))? {
                found = found.saturating_add(1);
            }
        }
        Ok(found)
    }

    /// Gets as many keys, and gives how many of them are there.
    pub fn get_all(&mut self, rows: u64) -> Result<u64, Ended> {
        let mut found: u64 = 0;
        for i in 0..rows {
            if self.get(scattered(i))? {
                found = found.saturating_add(1);
            }
        }
        Ok(found)
    }

    /// Whether the key is there.
    fn get(&mut self, key: u64) -> Result<bool, Ended> {
        let left = self.left;
        self.left = 0;
        let found = get(&mut self.pages, &self.root, key, &mut self.work)?;
        self.left = left;
        Ok(found.is_some())
    }

    /// How many levels the tree has.
    pub fn levels(&self) -> u8 {
        self.root.levels
    }
}
