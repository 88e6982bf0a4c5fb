//! Each public call once with ample memory, worked examples, and two tables of interleaved keys against lists.
ghost use Rattle.std.specs.Prelude.{◌+◌, ◌≤◌, OnOk};

use crate::early::Early;
use line_pages::{Pages, Stop, VecPages};
use nvm_model::Line;
use page_format::Work;
use rows::{Limits, Name, Value};
use table_catalog::has_table;
use table_store::{Created, Deleted, Got, Next, Stored, create, delete, get, put, scan_next};

fn named(bytes: &[u8]) -> Result<Name, Early> {
    match Name::from_bytes(bytes) {
        Some(name) => Ok(name),
        None => Err(Early::NoName),
    }
}

fn line(words: [u64; 8]) -> Line {
    Line { words }
}

const TWO_TABLES: Limits = Limits { tables: 2, rows: 9 };

#[test]
fn makes_tables_by_name(rt: HostRuntime) -> Result<(), Early> {
    let mut pages = VecPages::new(rt.alloc(), 8, 2000)?;
    let mut work = Work::new();
    pages.write_line(0, 0, &line([4, 0, 1, 0, 0, 0, 0, 0]))?;
    let first = named(b"cat")?;
    let second = named(b"cow")?;
    let third = named(b"dog")?;
    assert!(rt; !has_table(&mut pages, &TWO_TABLES, &first, &mut work)?);
    assert_eq!(rt;
        create(&mut pages, &TWO_TABLES, &first, &mut work)?,
        Created::Made
    );
    assert_eq!(rt;
        create(&mut pages, &TWO_TABLES, &second, &mut work)?,
        Created::Made
    );
    assert_eq!(rt;
        create(&mut pages, &TWO_TABLES, &first, &mut work)?,
        Created::Present
    );
    assert_eq!(rt;
        create(&mut pages, &TWO_TABLES, &third, &mut work)?,
        Created::NoSlot
    );
    assert!(rt; has_table(&mut pages, &TWO_TABLES, &second, &mut work)?);
    assert!(rt; !has_table(&mut pages, &TWO_TABLES, &third, &mut work)?);
    assert_eq!(rt; pages.read_line(0, 0)?, line([4, 2, 3, 0, 0, 0, 0, 0]));
    assert_eq!(rt;
        pages.read_line(0, 3)?,
        line([0x776f_6303, 0, 0, 0, 2, 1, 0, 0])
    );
    assert_eq!(rt; pages.read_line(2, 0)?, line([1, 0, 0, 4096, 0, 0, 0, 0]));
    Ok(())
}

#[test]
fn takes_a_free_page_first(rt: HostRuntime) -> Result<(), Early> {
    let mut pages = VecPages::new(rt.alloc(), 8, 2000)?;
    let mut work = Work::new();
    pages.write_line(0, 0, &line([4, 0, 3, 1, 0, 0, 0, 0]))?;
    pages.write_line(1, 0, &line([3, 2, 0, 0, 0, 0, 0, 0]))?;
    pages.write_line(2, 0, &line([3, 0, 0, 0, 0, 0, 0, 0]))?;
    assert_eq!(rt;
        create(&mut pages, &TWO_TABLES, &named(b"a")?, &mut work)?,
        Created::Made
    );
    assert_eq!(rt; pages.read_line(0, 0)?, line([4, 1, 3, 2, 0, 0, 0, 0]));
    Ok(())
}

#[test]
fn looks_keys_up(rt: HostRuntime) -> Result<(), Early> {
    let mut pages = VecPages::new(rt.alloc(), 8, 2000)?;
    let mut work = Work::new();
    pages.write_line(0, 0, &line([4, 1, 2, 0, 0, 0, 0, 0]))?;
    pages.write_line(0, 2, &line([0x6101, 0, 0, 0, 1, 1, 1, 0]))?;
    pages.write_line(1, 0, &line([1, 1, 0, 4087, 0, 0, 0, 0]))?;
    pages.write_line(1, 1, &line([0x0009_0FF7, 0, 0, 0, 0, 0, 0, 0]))?;
    pages.write_line(1, 63, &line([0, 0, 0, 0, 0, 0, 5 << 56, 0x76 << 56]))?;
    let name = named(b"a")?;
    match get(&mut pages, &TWO_TABLES, &name, 5, &mut work)? {
        Got::Found(value) => assert!(rt; value.bytes() == b"v".as_slice()),
        _ => assert!(rt; false),
    }
    assert!(rt;
        matches!(
            get(&mut pages, &TWO_TABLES, &name, 6, &mut work)?,
            Got::Absent
        )
    );
    assert!(rt;
        matches!(
            get(&mut pages, &TWO_TABLES, &named(b"b")?, 5, &mut work)?,
            Got::NoTable
        )
    );
    Ok(())
}

/// A value of 0 to 480 bytes, which the number decides.
fn text(number: u64) -> Result<Value, Early> {
    let bytes = [0x21 + (number % 90) as u8; 480];
    match Value::from_bytes(&bytes[..(number % 481) as usize]) {
        Some(value) => Ok(value),
        None => Err(Early::NoValue),
    }
}

/// Makes the tables `cat` and `cow` in a fresh store.
fn make_two<P: Pages>(pages: &mut P, limits: &Limits, work: &mut Work) -> Result<(), Early>
    requires ready { P.is_ready pages.old }
    requires some { 1 ≤ (P.standing pages.old).count }
    requires room { 1000 ≤ (P.standing pages.old).room }
    ensures ready { OnOk result (P.is_ready pages.new) }
    ensures room { OnOk result ((P.standing pages.old).room ≤ (P.standing pages.new).room + 9) }
{
    pages.write_line(0, 0, &line([4, 0, 1, 0, 0, 0, 0, 0]))?;
    create(pages, limits, &named(b"cat")?, work)?;
    create(pages, limits, &named(b"cow")?, work)?;
    Ok(())
}

const THREE_ROWS: Limits = Limits { tables: 2, rows: 3 };

#[test]
fn fills_a_table(rt: HostRuntime) -> Result<(), Early> {
    let mut pages = VecPages::new(rt.alloc(), 30, 20_000)?;
    let mut work = Work::new();
    make_two(&mut pages, &THREE_ROWS, &mut work)?;
    let name = named(b"cat")?;
    let other = named(b"dog")?;
    let x = text(2)?;
    let y = text(400)?;
    assert_eq!(rt;
        put(&mut pages, &THREE_ROWS, &other, 1, &x, &mut work)?,
        Stored::NoTable
    );
    assert_eq!(rt;
        put(&mut pages, &THREE_ROWS, &name, 1, &x, &mut work)?,
        Stored::Done
    );
    assert_eq!(rt;
        put(&mut pages, &THREE_ROWS, &name, 2, &x, &mut work)?,
        Stored::Done
    );
    assert_eq!(rt;
        put(&mut pages, &THREE_ROWS, &name, 3, &x, &mut work)?,
        Stored::Done
    );
    assert_eq!(rt;
        put(&mut pages, &THREE_ROWS, &name, 4, &x, &mut work)?,
        Stored::TableFull
    );
    assert_eq!(rt;
        put(&mut pages, &THREE_ROWS, &name, 2, &y, &mut work)?,
        Stored::Done
    );
    match get(&mut pages, &THREE_ROWS, &name, 2, &mut work)? {
        Got::Found(value) => assert!(rt; value.bytes() == y.bytes()),
        _ => assert!(rt; false),
    }
    assert_eq!(rt;
        delete(&mut pages, &THREE_ROWS, &other, 1, &mut work)?,
        Deleted::NoTable
    );
    assert_eq!(rt;
        delete(&mut pages, &THREE_ROWS, &name, 1, &mut work)?,
        Deleted::Done
    );
    assert_eq!(rt;
        delete(&mut pages, &THREE_ROWS, &name, 1, &mut work)?,
        Deleted::Absent
    );
    assert_eq!(rt;
        put(&mut pages, &THREE_ROWS, &name, 4, &x, &mut work)?,
        Stored::Done
    );
    assert_eq!(rt; pages.read_line(0, 2)?.words[6], 3);
    Ok(())
}

/// The key of the next row, or 0 for none, and 1 where no table has the name.
fn key_of(next: Next) -> u64 {
    match next {
        Next::Row(key, _) => key,
        Next::End => 0,
        Next::NoTable => 1,
    }
}

#[test]
fn scans_within_bounds(rt: HostRuntime) -> Result<(), Early> {
    let mut pages = VecPages::new(rt.alloc(), 30, 20_000)?;
    let mut work = Work::new();
    make_two(&mut pages, &TWO_TABLES, &mut work)?;
    let cat = named(b"cat")?;
    let cow = named(b"cow")?;
    let value = text(7)?;
    put(&mut pages, &TWO_TABLES, &cat, 10, &value, &mut work)?;
    put(&mut pages, &TWO_TABLES, &cow, 20, &value, &mut work)?;
    put(&mut pages, &TWO_TABLES, &cat, 30, &value, &mut work)?;
    put(&mut pages, &TWO_TABLES, &cow, u64::MAX, &value, &mut work)?;
    let first = scan_next(&mut pages, &TWO_TABLES, &cat, 0, u64::MAX, &mut work)?;
    assert_eq!(rt; key_of(first), 10);
    let next = scan_next(&mut pages, &TWO_TABLES, &cat, 11, 30, &mut work)?;
    assert_eq!(rt; key_of(next), 30);
    let below = scan_next(&mut pages, &TWO_TABLES, &cat, 11, 29, &mut work)?;
    assert_eq!(rt; key_of(below), 0);
    let crossed = scan_next(&mut pages, &TWO_TABLES, &cat, 11, 9, &mut work)?;
    assert_eq!(rt; key_of(crossed), 0);
    let last = scan_next(&mut pages, &TWO_TABLES, &cow, 21, u64::MAX, &mut work)?;
    assert_eq!(rt; key_of(last), u64::MAX);
    let unknown = scan_next(&mut pages, &TWO_TABLES, &named(b"dog")?, 0, 9, &mut work)?;
    assert_eq!(rt; key_of(unknown), 1);
    Ok(())
}

const MANY_TABLES: Limits = Limits {
    tables: 62,
    rows: 1,
};

/// The name of a table by a number below 100.
fn numbered(number: u64) -> Result<Name, Early> {
    let tens = 0x30 + (number / 10 % 10) as u8;
    let ones = 0x30 + (number % 10) as u8;
    named(&[b'n', tens, ones])
}

/// How many of 70 tables can be made.
fn make_many<P: Pages>(pages: &mut P, work: &mut Work) -> Result<u64, Early>
    requires ready { P.is_ready pages.old }
    requires some { 1 ≤ (P.standing pages.old).count }
    requires room { 2000 ≤ (P.standing pages.old).room }
    ensures ready { OnOk result (P.is_ready pages.new) }
{
    pages.write_line(0, 0, &line([4, 0, 1, 0, 0, 0, 0, 0]))?;
    for number in 0..70u64 {
        let name = numbered(number)?;
        if create(pages, &MANY_TABLES, &name, work)? != Created::Made {
            return Ok(number);
        }
    }
    Ok(70)
}

#[test]
fn makes_as_many_tables_as_there_may_be(rt: HostRuntime) -> Result<(), Early> {
    let mut pages = VecPages::new(rt.alloc(), 497, 2000)?;
    let mut work = Work::new();
    assert_eq!(rt; make_many(&mut pages, &mut work)?, 62);
    assert!(rt; has_table(&mut pages, &MANY_TABLES, &numbered(0)?, &mut work)?);
    assert!(rt; has_table(&mut pages, &MANY_TABLES, &numbered(61)?, &mut work)?);
    assert!(rt; !has_table(&mut pages, &MANY_TABLES, &numbered(62)?, &mut work)?);
    Ok(())
}

/// A table as a list: at each place the number of its value, or 0 where there is no row. The key at place `i` is `3 * i` and
/// the shift.
#[derive(Drop)]
struct Plain {
    numbers: [u64; 128],
    rows: u64,
    shift: u64,
}

const MIXED: Limits = Limits {
    tables: 2,
    rows: 100,
};

impl Plain {
    fn empty(shift: u64) -> Plain {
        Plain {
            numbers: [0; 128],
            rows: 0,
            shift,
        }
    }

    fn key(&self, at: u64) -> u64
        ensures small { result ≤ 383 }
    {
        (at % 128) * 3 + self.shift % 3
    }

    fn put(&mut self, key: u64, number: u64) -> Stored {
        let at = (key % 128) as usize;
        if self.numbers[at] == 0 {
            if self.rows >= MIXED.rows {
                return Stored::TableFull;
            }
            self.rows += 1;
        }
        self.numbers[at] = number;
        Stored::Done
    }

    fn delete(&mut self, key: u64) -> Deleted {
        let at = (key % 128) as usize;
        if self.numbers[at] == 0 {
            return Deleted::Absent;
        }
        self.numbers[at] = 0;
        self.rows = self.rows.saturating_sub(1);
        Deleted::Done
    }
}

/// A put or a deletion, which the draw decides, in a table and in its list: whether both answer the same.
fn agrees<P: Pages>(
    pages: &mut P,
    name: &Name,
    plain: &mut Plain,
    draw: u64,
    work: &mut Work,
) -> Result<bool, Early>
    requires ready { P.is_ready pages.old }
    requires room { 640 ≤ (P.standing pages.old).room }
    ensures ready { OnOk result (P.is_ready pages.new) }
    ensures room { OnOk result ((P.standing pages.old).room ≤ (P.standing pages.new).room + 640) }
{
    let key = (draw >> 8) % 128;
    let number = 1 + (draw >> 16) % 1000;
    if draw % 3 == 0 {
        return Ok(delete(pages, &MIXED, name, plain.key(key), work)? == plain.delete(key));
    }
    let value = text(number)?;
    Ok(put(pages, &MIXED, name, plain.key(key), &value, work)? == plain.put(key, number))
}

/// Whether the answer is the row with this key and this value, or none for the number 0.
fn is_row(next: &Next, key: u64, number: u64) -> Result<bool, Early> {
    match next {
        Next::Row(at, value) => {
            let wanted = text(number)?;
            Ok(*at == key && number != 0 && value.bytes() == wanted.bytes())
        }
        Next::End => Ok(number == 0),
        Next::NoTable => Ok(false),
    }
}

/// Whether the answer is this value, or none for the number 0.
fn is_value(got: &Got, number: u64) -> Result<bool, Early> {
    match got {
        Got::Found(value) => {
            let wanted = text(number)?;
            Ok(number != 0 && value.bytes() == wanted.bytes())
        }
        Got::Absent => Ok(number == 0),
        Got::NoTable => Ok(false),
    }
}

/// Whether the table has the row of the list at this place, and no row at the keys beside it.
fn same_row<P: Pages>(
    pages: &mut P,
    name: &Name,
    plain: &Plain,
    at: u64,
    work: &mut Work,
) -> Result<bool, Early>
    requires ready { P.is_ready pages.old }
    ensures ready { OnOk result (P.is_ready pages.new) }
{
    let key = plain.key(at);
    let number = plain.numbers[(at % 128) as usize];
    let next = scan_next(pages, &MIXED, name, key, key + 2, work)?;
    let here = get(pages, &MIXED, name, key, work)?;
    let beside = get(pages, &MIXED, name, key + 1, work)?;
    let behind = get(pages, &MIXED, name, key + 2, work)?;
    let scanned = is_row(&next, key, number)?;
    let found = is_value(&here, number)?;
    let alone = matches!(beside, Got::Absent) && matches!(behind, Got::Absent);
    Ok(scanned && found && alone)
}

/// Whether the rows of a table are those of a list, and those of the other table's keys are not in it.
fn same_rows<P: Pages>(
    pages: &mut P,
    name: &Name,
    plain: &Plain,
    work: &mut Work,
) -> Result<bool, Early>
    requires ready { P.is_ready pages.old }
    ensures ready { OnOk result (P.is_ready pages.new) }
{
    for at in 0..128u64 {
        if !same_row(pages, name, plain, at, work)? {
            return Ok(false);
        }
    }
    Ok(true)
}

/// Two tables and their lists.
#[derive(Drop)]
struct Two {
    cat: Name,
    cow: Name,
    first: Plain,
    second: Plain,
}

/// A step in one of the two tables, which the draw decides.
fn step<P: Pages>(pages: &mut P, two: &mut Two, draw: u64, work: &mut Work) -> Result<bool, Early>
    requires ready { P.is_ready pages.old }
    requires room { 640 ≤ (P.standing pages.old).room }
    ensures ready { OnOk result (P.is_ready pages.new) }
    ensures room { OnOk result ((P.standing pages.old).room ≤ (P.standing pages.new).room + 640) }
{
    if draw % 2 == 0 {
        agrees(pages, &two.cat, &mut two.first, draw >> 1, work)
    } else {
        agrees(pages, &two.cow, &mut two.second, draw >> 1, work)
    }
}

/// Whether 2,000 steps in both tables answer as in the lists.
fn run_mixed<P: Pages>(pages: &mut P, two: &mut Two, work: &mut Work) -> Result<bool, Early>
    requires ready { P.is_ready pages.old }
    requires room { 1280000 ≤ (P.standing pages.old).room }
    ensures ready { OnOk result (P.is_ready pages.new) }
{
    let mut draw = 7u64;
    for _step in 0..2000u64 {
        draw = draw
            .wrapping_mul(6_364_136_223_846_793_005)
            .wrapping_add(1_442_695_040_888_963_407);
        if !step(pages, two, draw >> 33, work)? {
            return Ok(false);
        }
    }
    Ok(true)
}

#[test]
fn keeps_two_tables_apart(rt: HostRuntime) -> Result<(), Early> {
    let mut pages = VecPages::new(rt.alloc(), 117, 2_000_000)?;
    let mut work = Work::new();
    make_two(&mut pages, &MIXED, &mut work)?;
    let mut two = Two {
        cat: named(b"cat")?,
        cow: named(b"cow")?,
        first: Plain::empty(0),
        second: Plain::empty(1),
    };
    assert!(rt; run_mixed(&mut pages, &mut two, &mut work)?);
    assert!(rt; same_rows(&mut pages, &two.cat, &two.first, &mut work)?);
    assert!(rt; same_rows(&mut pages, &two.cow, &two.second, &mut work)?);
    Ok(())
}

#[test]
fn keeps_long_and_short_names_apart(rt: HostRuntime) -> Result<(), Early> {
    let mut pages = VecPages::new(rt.alloc(), 30, 20_000)?;
    let mut work = Work::new();
    pages.write_line(0, 0, &line([4, 0, 1, 0, 0, 0, 0, 0]))?;
    let long = named(b"abcdefghijklmnopqrstuvwxyz01234")?;
    let short = named(b"a")?;
    let x = text(2)?;
    let y = text(400)?;
    assert_eq!(rt;
        create(&mut pages, &TWO_TABLES, &long, &mut work)?,
        Created::Made
    );
    assert_eq!(rt;
        create(&mut pages, &TWO_TABLES, &short, &mut work)?,
        Created::Made
    );
    assert_eq!(rt;
        put(&mut pages, &TWO_TABLES, &long, 1, &x, &mut work)?,
        Stored::Done
    );
    assert_eq!(rt;
        put(&mut pages, &TWO_TABLES, &short, 1, &y, &mut work)?,
        Stored::Done
    );
    let first = get(&mut pages, &TWO_TABLES, &long, 1, &mut work)?;
    assert!(rt; is_value(&first, 2)?);
    let second = get(&mut pages, &TWO_TABLES, &short, 1, &mut work)?;
    assert!(rt; is_value(&second, 400)?);
    assert_eq!(rt;
        pages.read_line(0, 2)?,
        line([
            0x6766_6564_6362_611f,
            0x6f6e_6d6c_6b6a_6968,
            0x7776_7574_7372_7170,
            0x3433_3231_307a_7978,
            1,
            1,
            1,
            0
        ])
    );
    assert_eq!(rt; pages.read_line(0, 3)?, line([0x6101, 0, 0, 0, 2, 1, 1, 0]));
    Ok(())
}
