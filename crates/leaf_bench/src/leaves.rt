//! Leaves over pages in memory.
ghost use Rattle.std.specs.Prelude.{◌≤◌, ◌<◌, ◌*◌, ◌≡◌, ℕ, List};
ghost use Rattle.page_format.specs.Search.{IsSpot, IsSafeSpot};
ghost use Rattle.leaf_lines.specs.Put.{IsFound};

use leaf_lines::{put_by_lines, remove_by_lines};
use line_pages::{Pages, Stop, VecPages, copy_page};
use node_edit::{leaf_delete, leaf_put};
use nvm_model::{Line, NoMemory};
use page_alloc::write_changes;
use page_format::{Expect, Spot, Work};
use page_search::{find, read_page};
use rows::Value;
use std::alloc::Global;
use std::io;

/// Why the program ended early.
#[derive(Debug, Drop)]
pub enum Ended {
    Memory,
    Stopped(Stop),
    Print(io::Error),
    /// An argument is no number, or too great.
    NoNumber,
    /// No value, or no change is left.
    Spent,
}

impl From<NoMemory> for Ended {
    fn from(_error: NoMemory) -> Ended {
        Ended::Memory
    }
}

impl From<Stop> for Ended {
    fn from(error: Stop) -> Ended {
        Ended::Stopped(error)
    }
}

impl From<io::Error> for Ended {
    fn from(error: io::Error) -> Ended {
        Ended::Print(error)
    }
}

/// A key of a row of keys that jump about.
fn scattered(i: u64) -> u64 {
    i.wrapping_mul(0x9E37_79B9_7F4A_7C15)
}

/// The row that a search in a leaf found, or else where it would stand.
fn found_place(spot: Spot, expect: &Expect) -> Result<usize, usize>
    requires { expect.now.level ≡ 0 }
    ensures { (bytes : List ℕ) (key : ℕ) → IsSafeSpot expect.now key spot
        → IsSpot bytes expect.now key spot → IsFound bytes expect.now key result }
{
    match spot {
        Spot::Row(at) => Ok(at),
        Spot::Gap(at) => Err(at),
        Spot::Child(at, _, _, _) => Err(at),
    }
}

/// One of three values.
fn chosen<'a>(which: u64, one: &'a Value, two: &'a Value, three: &'a Value) -> &'a Value {
    if which == 0 {
        return one;
    }
    if which == 1 { two } else { three }
}

/// What is expected of each leaf.
fn expect_of(pages: u64) -> Expect
    ensures level { result.level ≡ 0 }
    ensures low { result.low ≡ 0 }
    ensures high { result.high ≡ 18446744073709551615 }
{
    Expect {
        level: 0,
        low: 0,
        high: u64::MAX,
        root: true,
        pages,
    }
}

/// Leaves, and how many changes may still be made.
#[derive(Drop)]
pub struct Leaves {
    pages: VecPages,
    work: Work,
    value: Value,
    other: Value,
    short: Value,
    left: u64,
    ghost room: { 64 * left ≤ (⟦<VecPages as Pages>⟧.standing pages).room },
}

impl Leaves {
    /// So many pages, and changes for 40 rows of each and their deletes.
    pub fn new(alloc: Global, count: u64) -> Result<Leaves, Ended> {
        if count == 0 || count > 100_000 {
            return Err(Ended::NoNumber);
        }
        let Some(value) = Value::from_bytes(&[b'v'; 88]) else {
            return Err(Ended::Spent);
        };
        let Some(other) = Value::from_bytes(&[b'w'; 88]) else {
            return Err(Ended::Spent);
        };
        let Some(short) = Value::from_bytes(&[b's'; 41]) else {
            return Err(Ended::Spent);
        };
        let pages = VecPages::new(alloc, count, 64 * 100 * count)?;
        Ok(Leaves {
            pages,
            work: Work::new(),
            value,
            other,
            short,
            left: 100 * count,
        })
    }

    /// Makes a page an empty leaf.
    fn clear(&mut self, page: u64) -> Result<(), Ended> {
        let left = self.left;
        if left == 0 || page >= self.pages.page_count() {
            return Err(Ended::Spent);
        }
        self.left = 0;
        let leaf = Line {
            words: [1, 0, 0, 4096, 0, 0, 0, 0],
        };
        self.pages.write_line(page, 0, &leaf)?;
        self.left = left - 1;
        Ok(())
    }

    /// Puts the value at a key of a leaf that is read whole.
    #[tactic(auto, using(page_alloc::proofs::WrittenLaws::changed_most))]
    fn put_whole(&mut self, page: u64, key: u64, which: u64) -> Result<bool, Ended> {
        let left = self.left;
        let count = self.pages.page_count();
        if left == 0 || page >= count {
            return Err(Ended::Spent);
        }
        self.left = 0;
        let expect = expect_of(count);
        let value = chosen(which, &self.value, &self.other, &self.short);
        find(&mut self.pages, page, &expect, key, &mut self.work)?;
        read_page(&mut self.pages, page, &expect, &mut self.work)?;
        self.work.spare.copy_from(&self.work.page);
        leaf_put(
            &mut self.work.page,
            &mut self.work.right,
            &expect,
            key,
            value.bytes(),
        );
        write_changes(&mut self.pages, page, &self.work.spare, &self.work.page)?;
        self.left = left - 1;
        Ok(true)
    }

    /// Puts the value at a key of a leaf by the lines that it needs.
    fn put_lines(&mut self, page: u64, key: u64, which: u64) -> Result<bool, Ended> {
        let left = self.left;
        let count = self.pages.page_count();
        if left == 0 || page >= count {
            return Err(Ended::Spent);
        }
        self.left = 0;
        let expect = expect_of(count);
        let value = chosen(which, &self.value, &self.other, &self.short);
        let spot = find(&mut self.pages, page, &expect, key, &mut self.work)?;
        let place = found_place(spot, &expect);
        let done = put_by_lines(
            &mut self.pages,
            page,
            &expect,
            place,
            key,
            value.bytes(),
            &mut self.work,
        )?;
        self.left = left - 1;
        Ok(done)
    }

    /// Takes a key out of a leaf that is read whole.
    #[tactic(auto, using(page_alloc::proofs::WrittenLaws::changed_most))]
    fn delete_whole(&mut self, page: u64, key: u64) -> Result<bool, Ended> {
        let left = self.left;
        let count = self.pages.page_count();
        if left == 0 || page >= count {
            return Err(Ended::Spent);
        }
        self.left = 0;
        let expect = expect_of(count);
        find(&mut self.pages, page, &expect, key, &mut self.work)?;
        read_page(&mut self.pages, page, &expect, &mut self.work)?;
        self.work.spare.copy_from(&self.work.page);
        leaf_delete(&mut self.work.page, &expect, key);
        write_changes(&mut self.pages, page, &self.work.spare, &self.work.page)?;
        self.left = left - 1;
        Ok(true)
    }

    /// Takes a key out of a leaf by the lines that it needs.
    fn delete_lines(&mut self, page: u64, key: u64) -> Result<bool, Ended> {
        let left = self.left;
        let count = self.pages.page_count();
        if left == 0 || page >= count {
            return Err(Ended::Spent);
        }
        self.left = 0;
        let expect = expect_of(count);
        let done = match find(&mut self.pages, page, &expect, key, &mut self.work)? {
            Spot::Row(at) => remove_by_lines(&mut self.pages, page, &expect, at, &mut self.work)?,
            _ => true,
        };
        self.left = left - 1;
        Ok(done)
    }

    /// Takes the first so many rows out of each leaf, and gives how many deletes were made.
    pub fn delete_all(&mut self, by_lines: bool, count: u64, rows: u64) -> Result<u64, Ended> {
        let mut done: u64 = 0;
        for i in 0..rows {
            for page in 0..count {
                let key = scattered(i.wrapping_mul(count).wrapping_add(page));
                let deleted = if by_lines {
                    self.delete_lines(page, key)?
                } else {
                    self.delete_whole(page, key)?
                };
                if deleted {
                    done = done.saturating_add(1);
                }
            }
        }
        Ok(done)
    }

    /// Takes keys that came again out of each leaf, and gives how many deletes went by lines.
    pub fn delete_mixed(&mut self, by_lines: bool, count: u64, rows: u64) -> Result<u64, Ended> {
        let mut done: u64 = 0;
        for i in 0..rows {
            for page in 0..count {
                let key = scattered(i.wrapping_mul(2) % 9);
                if by_lines && self.delete_lines(page, key)? {
                    done = done.saturating_add(1);
                } else {
                    self.delete_whole(page, key)?;
                }
            }
        }
        Ok(done)
    }

    /// Puts so many rows into each leaf, and gives how many puts were made.
    pub fn put_all(&mut self, by_lines: u64, count: u64, rows: u64) -> Result<u64, Ended> {
        let mut done: u64 = 0;
        for page in 0..count {
            self.clear(page)?;
        }
        for i in 0..rows {
            for page in 0..count {
                let key = scattered(i.wrapping_mul(count).wrapping_add(page));
                let put = if by_lines == 1 {
                    self.put_lines(page, key, 0)?
                } else {
                    self.put_whole(page, key, 0)?
                };
                if put {
                    done = done.saturating_add(1);
                }
            }
        }
        Ok(done)
    }

    /// Puts values of three kinds at keys that come again, by lines where they fit so, and gives how many were.
    pub fn put_mixed(&mut self, by_lines: bool, count: u64, rows: u64) -> Result<u64, Ended> {
        let mut done: u64 = 0;
        for page in 0..count {
            self.clear(page)?;
        }
        for i in 0..rows {
            for page in 0..count {
                let key = scattered(i % 9);
                let which = (i / 9) % 3;
                let put = by_lines && self.put_lines(page, key, which)?;
                if put {
                    done = done.saturating_add(1);
                } else {
                    self.put_whole(page, key, which)?;
                }
            }
        }
        Ok(done)
    }

    /// How many pages have the same bytes in both.
    pub fn same_pages(&mut self, other: &mut Leaves, count: u64) -> Result<u64, Ended> {
        let mut same: u64 = 0;
        for page in 0..count {
            self.show(page)?;
            other.show(page)?;
            if self.work.page.bytes() == other.work.page.bytes() {
                same = same.saturating_add(1);
            }
        }
        Ok(same)
    }

    /// Copies a page into the buffer.
    fn show(&mut self, page: u64) -> Result<(), Ended> {
        let left = self.left;
        if page >= self.pages.page_count() {
            return Err(Ended::Spent);
        }
        self.left = 0;
        copy_page(&mut self.pages, page, &mut self.work.page)?;
        self.left = left;
        Ok(())
    }
}
