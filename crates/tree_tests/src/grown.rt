//! Worked examples over pages in memory, and trees beside the rows that they are to have.
ghost use Rattle.std.specs.Prelude.{◌≤◌, ◌<◌, ◌*◌};

use crate::early::Early;
use bplus_tree::{delete, put};
use line_pages::{Pages, Stop, VecPages};
use nvm_model::Line;
use page_format::Work;
use rows::Value;
use std::alloc::Global;
use std::collections::BTreeMap;
use tree_search::{Root, get, next_from};

/// A value of this many bytes.
fn value_of(size: usize) -> Result<Value, Early> {
    let bytes = [b'v'; 480];
    match Value::from_bytes(&bytes[..size.min(480)]) {
        Some(value) => Ok(value),
        None => Err(Early::NoValue),
    }
}

/// A tree over pages in memory, beside the length of the value that each of its keys is to have, and how many changes may
/// still be made.
#[derive(Drop)]
struct Grown {
    pages: VecPages,
    root: Root,
    work: Work,
    left: u64,
    rows: BTreeMap<u64, usize>,
    ghost some: { 1 ≤ root.page },
    ghost page: { root.page < (⟦<VecPages as Pages>⟧.standing pages).count },
    ghost some_levels: { 1 ≤ root.levels },
    ghost few_levels: { root.levels ≤ 4 },
    ghost room: { 600 * left ≤ (⟦<VecPages as Pages>⟧.standing pages).room },
}

impl Grown {
    /// An empty tree, a leaf at page 1, over this many pages.
    fn new(alloc: Global, count: u64) -> Result<Grown, Early>
        requires { 3 ≤ count }
    {
        let mut pages = VecPages::new(alloc, count, 60_000_002)?;
        let header = [4, 0, 2, 0, 0, 0, 0, 0];
        let leaf = [1, 0, 0, 4096, 0, 0, 0, 0];
        pages.write_line(0, 0, &Line { words: header })?;
        pages.write_line(1, 0, &Line { words: leaf })?;
        Ok(Grown {
            pages,
            root: Root { page: 1, levels: 1 },
            work: Work::new(),
            left: 100_000,
            rows: BTreeMap::new(alloc),
        })
    }

    /// Puts a value of so many bytes at a key. It is to be true exactly where the key is new.
    fn put(&mut self, key: u64, size: usize) -> Result<(), Early> {
        let value = value_of(size)?;
        let left = self.left;
        if left == 0 {
            return Err(Early::Spent);
        }
        self.left = 0;
        let mut root = self.root;
        let fresh = put(&mut self.pages, &mut root, key, &value, &mut self.work)?;
        self.root = root;
        self.left = left - 1;
        match self.rows.insert(key, size) {
            Ok(was) if fresh == was.is_none() => Ok(()),
            Ok(_) => Err(Early::Differs(key)),
            Err(_) => Err(Early::Memory),
        }
    }

    /// Takes a key out. It is to be true exactly where the key was there.
    fn delete(&mut self, key: u64) -> Result<(), Early> {
        let left = self.left;
        if left == 0 {
            return Err(Early::Spent);
        }
        self.left = 0;
        let mut root = self.root;
        let found = delete(&mut self.pages, &mut root, key, &mut self.work)?;
        self.root = root;
        self.left = left - 1;
        if found == self.rows.remove(&key).is_some() {
            Ok(())
        } else {
            Err(Early::Differs(key))
        }
    }

    /// The value of a key.
    fn value(&mut self, key: u64) -> Result<Option<Value>, Early> {
        let left = self.left;
        self.left = 0;
        let found = get(&mut self.pages, &self.root, key, &mut self.work)?;
        self.left = left;
        Ok(found)
    }

    /// The value of a key is to have its length.
    fn look(&mut self, key: u64) -> Result<(), Early> {
        let size = match self.value(key)? {
            Some(value) => Some(value.bytes().len()),
            None => None,
        };
        if size == self.rows.get(&key).copied() {
            Ok(())
        } else {
            Err(Early::Differs(key))
        }
    }

    /// The next row from a key on: its key, which is to have that length.
    fn next(&mut self, from: u64) -> Result<Option<u64>, Early> {
        let left = self.left;
        self.left = 0;
        let found = next_from(&mut self.pages, &self.root, from, &mut self.work)?;
        self.left = left;
        match found {
            Some((key, value)) => {
                if self.rows.get(&key).copied() == Some(value.bytes().len()) {
                    Ok(Some(key))
                } else {
                    Err(Early::Differs(key))
                }
            }
            None => Ok(None),
        }
    }

    /// Goes over all rows in order. They are to be those of the list.
    fn compare(&mut self) -> Result<(), Early> {
        let mut from = 0;
        let mut seen: usize = 0;
        for _ in 0..100_000 {
            match self.next(from)? {
                Some(key) => {
                    seen = seen.saturating_add(1);
                    if key == u64::MAX {
                        break;
                    }
                    from = key + 1;
                }
                None => break,
            }
        }
        if seen == self.rows.len() {
            Ok(())
        } else {
            Err(Early::Differs(from))
        }
    }

    /// A word of a page's header.
    fn word(&mut self, page: u64, at: usize) -> Result<u64, Early>
        requires { at < 8 }
    {
        if page >= self.pages.page_count() {
            return Err(Early::Differs(page));
        }
        let left = self.left;
        self.left = 0;
        let line = self.pages.read_line(page, 0)?;
        self.left = left;
        Ok(line.words[at])
    }

    /// How many pages are free.
    fn free_pages(&mut self) -> Result<u64, Early> {
        let mut page = self.word(0, 3)?;
        for count in 0..100_000 {
            if page == 0 {
                return Ok(count);
            }
            page = self.word(page, 1)?;
        }
        Err(Early::Spent)
    }
}

/// Nine values of 480 bytes: leaves of 5 and 4 rows under a root of two children.
fn nine_rows(alloc: Global) -> Result<Grown, Early> {
    let mut grown = Grown::new(alloc, 100)?;
    for key in 1..10 {
        grown.put(key, 480)?;
    }
    Ok(grown)
}

/// A number of a row of numbers that jump about.
fn scattered(i: u64) -> u64 {
    i.wrapping_mul(0x9E37_79B9_7F4A_7C15)
}

#[test]
fn gives_back_what_was_put(rt: HostRuntime) -> Result<(), Early> {
    let mut grown = Grown::new(rt.alloc(), 100)?;
    grown.put(5, 3)?;
    match grown.value(5)? {
        Some(value) => assert!(rt; value.bytes() == b"vvv".as_slice()),
        None => return Err(Early::NoValue),
    }
    Ok(())
}

#[test]
fn cuts_a_full_leaf(rt: HostRuntime) -> Result<(), Early> {
    let mut grown = nine_rows(rt.alloc())?;
    assert_eq!(rt; grown.root.levels, 2);
    let top = grown.root.page;
    assert_eq!(rt; grown.word(top, 1)?, 2);
    assert_eq!(rt; grown.word(1, 1)?, 5);
    assert_eq!(rt; grown.word(2, 1)?, 4);
    assert_eq!(rt; grown.next(6)?, Some(6));
    grown.compare()
}

/// The third value of one byte leaves 1,023 bytes in the left leaf.
#[test]
fn joins_after_shorter_values(rt: HostRuntime) -> Result<(), Early> {
    let mut grown = nine_rows(rt.alloc())?;
    grown.put(1, 1)?;
    grown.put(2, 1)?;
    assert_eq!(rt; grown.root.levels, 2);
    grown.put(3, 1)?;
    assert_eq!(rt; grown.root.levels, 1);
    assert_eq!(rt; grown.word(1, 1)?, 9);
    assert_eq!(rt; grown.free_pages()?, 2);
    grown.compare()
}

#[test]
fn joins_after_deletes(rt: HostRuntime) -> Result<(), Early> {
    let mut grown = nine_rows(rt.alloc())?;
    grown.delete(1)?;
    grown.delete(2)?;
    assert_eq!(rt; grown.root.levels, 2);
    grown.delete(3)?;
    grown.delete(3)?;
    assert_eq!(rt; grown.root.levels, 1);
    assert_eq!(rt; grown.word(1, 1)?, 6);
    assert_eq!(rt; grown.free_pages()?, 2);
    grown.compare()
}

/// The least key and the greatest one, with the shortest and the longest values.
#[test]
fn keeps_the_outermost_rows(rt: HostRuntime) -> Result<(), Early> {
    let mut grown = Grown::new(rt.alloc(), 100)?;
    grown.put(u64::MAX, 480)?;
    grown.put(0, 0)?;
    grown.look(0)?;
    grown.look(u64::MAX)?;
    assert_eq!(rt; grown.next(0)?, Some(0));
    assert_eq!(rt; grown.next(1)?, Some(u64::MAX));
    assert_eq!(rt; grown.next(u64::MAX)?, Some(u64::MAX));
    grown.compare()?;
    grown.delete(u64::MAX)?;
    assert_eq!(rt; grown.next(1)?, None);
    grown.compare()
}

/// Keys that go up, down and about, to three levels.
#[test]
fn grows_in_any_order(rt: HostRuntime) -> Result<(), Early> {
    for way in 0..3 {
        let mut grown = Grown::new(rt.alloc(), 2_000)?;
        for i in 0..2_000 {
            let keys = [i, 2_000 - i, scattered(i)];
            grown.put(keys[way], 480)?;
        }
        assert_eq!(rt; grown.root.levels, 3);
        grown.compare()?;
    }
    Ok(())
}

/// Puts and deletes by a fixed rule, and then deletes of all that is left.
#[test]
fn comes_and_goes(rt: HostRuntime) -> Result<(), Early> {
    let mut grown = Grown::new(rt.alloc(), 2_000)?;
    for i in 0..3_000 {
        let drawn = scattered(i);
        let key = drawn >> 54;
        grown.put(key, (drawn & 511) as usize % 481)?;
        grown.delete(scattered(i + 7) >> 54)?;
        grown.look(key)?;
    }
    grown.compare()?;
    for key in 0..1_024 {
        grown.delete(key)?;
    }
    grown.compare()?;
    assert_eq!(rt; grown.root.levels, 1);
    assert_eq!(rt; grown.next(0)?, None);
    let high = grown.word(0, 2)?;
    assert_eq!(rt; grown.free_pages()?.saturating_add(2), high);
    Ok(())
}
