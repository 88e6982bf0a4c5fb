//! One table as the catalog has it.
ghost use Rattle.std.specs.Prelude.{◌≡◌, ◌+◌, ◌≤◌, bytes_eq, slice_index};
ghost use Rattle.std.specs.List.{list_all};
ghost use Rattle.page_alloc.specs.Space.{word};
ghost use Rattle.table_catalog.specs.Catalog.{entry_in as entry_of_line, field_in as field_of_line, name_of, is_name_field as field_has_name, is_listed as listed, is_zero};

use line_pages::{get_word, put_word};
use nvm_model::Line;
use rows::{Limits, Name, all_name_bytes};
use tree_search::Root;

/// The entry of a table: the bytes that keep its name, its root page, the levels of its tree, and the number of its rows.
#[derive(Clone, Copy, Debug, PartialEq, Eq)]
pub struct Entry {
    /// The name's length, its bytes, then zeros.
    pub field: [u8; 32],
    /// The page of the root.
    pub root: u64,
    /// How many levels the tree has.
    pub levels: u64,
    /// How many rows the table has.
    pub rows: u64,
}

/// An entry and which table it is of, counted from 0 in the order of creation.
#[derive(Clone, Copy, Debug, PartialEq, Eq)]
pub struct TableEntry {
    /// The number of the table.
    pub at: u64,
    /// Its entry.
    pub entry: Entry,
}

/// The bytes of the first four words.
#[tactic(auto, using(crate::proofs::EntryLaws::four_words))]
fn field_in(line: &Line) -> [u8; 32]
    ensures { result ≡ field_of_line line.now }
{
    let mut field = [0; 32];
    put_word(&mut field, 0, line.words[0]);
    put_word(&mut field, 8, line.words[1]);
    put_word(&mut field, 16, line.words[2]);
    put_word(&mut field, 24, line.words[3]);
    field
}

/// The entry in a line.
pub(crate) fn entry_in(line: &Line) -> Entry
    ensures { result ≡ entry_of_line line.now }
{
    Entry {
        field: field_in(line),
        root: line.words[4],
        levels: line.words[5],
        rows: line.words[6],
    }
}

/// Whether all bytes are zeros. Each is tested, in one pass without a branch.
fn all_zeros(bytes: &[u8]) -> bool
    ensures { result ≡ list_all is_zero bytes.now }
{
    let mut all = true;
    for byte in bytes {
        all &= *byte == 0;
    }
    all
}

/// Whether the bytes keep a name.
#[tactic(auto, unfolding(crate::specs::Catalog::is_name_field))]
fn is_name_field(field: &[u8; 32]) -> bool
    ensures { result ≡ field_has_name field.now }
{
    let end = field[0] as usize;
    if end < 1 || end > 31 {
        return false;
    }
    all_name_bytes(&field[1..1 + end]) && all_zeros(&field[1 + end..32])
}

/// Whether the entry is in range, the pages in use being those below `high`.
pub(crate) fn is_listed(entry: &Entry, limits: &Limits, high: u64) -> bool
    ensures { result ≡ listed limits.now high entry.now }
{
    is_name_field(&entry.field)
        && entry.root >= 1
        && entry.root < high
        && entry.levels >= 1
        && entry.levels <= 4
        && entry.rows <= limits.rows
}

/// Whether the entry is that of the name.
pub(crate) fn has_name(entry: &Entry, name: &Name) -> bool
    requires { slice_index entry.now.field 0 ≤ 31 }
    ensures { result ≡ bytes_eq (name_of entry.now) name.now }
{
    let end = entry.field[0] as usize;
    &entry.field[1..1 + end] == name.bytes()
}

/// The root of the entry's tree.
pub fn root_of(entry: &Entry) -> Root
    requires { entry.now.levels ≤ 4 }
    ensures { result ≡ record { page = entry.now.root; levels = entry.now.levels } }
{
    Root {
        page: entry.root,
        levels: entry.levels as u8,
    }
}

/// The line that keeps an entry, with 0 in the unused word 7.
#[tactic(auto, using(crate::proofs::EntryLaws::four_parts))]
pub fn line_of(entry: Entry) -> Line
    ensures entry { entry_of_line result ≡ entry }
    ensures unused { word result 7 ≡ 0 }
{
    let first = get_word(&entry.field, 0);
    let second = get_word(&entry.field, 8);
    let third = get_word(&entry.field, 16);
    let fourth = get_word(&entry.field, 24);
    Line {
        words: [
            first,
            second,
            third,
            fourth,
            entry.root,
            entry.levels,
            entry.rows,
            0,
        ],
    }
}
