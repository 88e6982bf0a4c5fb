//! Tables as a list in the order of their creation.
ghost use Rattle.std.specs.Prelude.{◌≡◌, ◌++◌, ◌∷◌, [], List, ℕ, position, IfOk, OnOk, OnErr, bytes_eq};
ghost use Rattle.rows.specs.Rows.{Row, row_get, row_put, row_delete};
ghost use Rattle.rows.specs.Tables.{is_known, with_rows, rows_of as rows_of_name};
ghost use Rattle.script.specs.Machine.{is_full as full};
ghost use Rattle.script.specs.Tables.{has_row, row_range, rows_or_none, with_table};
ghost use Rattle.plain_machine.specs.Plain.{is_table, row_replies};

use crate::row_list::{self, PlainRow};
use nvm_model::NoMemory;
use rows::{Name, Value};
use script::Reply;
use std::alloc::Global;
use std::marker::Model;
use texts::is_word;

/// A name with rows. Contracts see the pair.
#[derive(Drop)]
pub struct PlainTable {
    name: Name,
    rows: Vec<PlainRow>,
}

impl Model for PlainTable {
    ghost use Rattle.std.specs.Prelude.{List, ℕ};
    ghost use Rattle.rows.specs.Rows.{Row};

    ghost Value = { List ℕ × List Row };

    ghost view = { λ table. (table.name, table.rows.items) };
}

impl PlainTable {
    /// Whether the table has this name.
    fn has_name(&self, name: &Name) -> bool
        ensures { result ≡ bytes_eq self.now.0 name.now }
    {
        is_word(self.name.bytes(), name.bytes())
    }

    /// Its rows.
    fn rows(&self) -> &[PlainRow]
        ensures { result.now ≡ self.now.1 }
    {
        self.rows.as_slice()
    }

    /// Puts the value at the key.
    fn put(&mut self, key: u64, value: Value) -> Result<(), NoMemory>
        ensures put { OnOk result (self.new ≡ (self.old.0, row_put key value self.old.1)) }
        ensures stays { OnErr result (self.new ≡ self.old) }
    {
        row_list::put(&mut self.rows, key, value)
    }

    /// Takes the row with the key away.
    fn delete(&mut self, key: u64)
        ensures { self.new ≡ (self.old.0, row_delete key self.old.1) }
    {
        row_list::delete(&mut self.rows, key)
    }

    /// The same table once more.
    fn copy(&self, alloc: Global) -> Result<PlainTable, NoMemory>
        ensures { IfOk result (λ copied. copied ≡ self.now) }
    {
        let rows = row_list::copy(alloc, &self.rows)?;
        Ok(PlainTable {
            name: self.name.copy(),
            rows,
        })
    }
}

/// The number of the first table with the name.
fn table_at(tables: &[PlainTable], name: &Name) -> Option<usize>
    ensures { result ≡ position (is_table name.now) tables.now }
{
    tables.iter().position(|table| table.has_name(name))
}

/// Whether a table has the name.
pub fn has_table(tables: &[PlainTable], name: &Name) -> bool
    ensures { result ≡ is_known name.now tables.now }
{
    table_at(tables, name).is_some()
}

/// Whether the table of the name has this many rows, none with the key.
pub fn is_full(tables: &[PlainTable], name: &Name, most: u64, key: u64) -> bool
    ensures { result ≡ full most key (rows_of_name name.now tables.now) }
{
    match table_at(tables, name) {
        Some(at) => row_list::is_full(tables[at].rows(), most, key),
        None => false,
    }
}

/// The rows of the table of the name, none where there is none.
fn rows_of<'a>(tables: &'a [PlainTable], name: &Name) -> &'a [PlainRow]
    ensures { result.now ≡ rows_or_none name.now tables.now }
{
    match table_at(tables, name) {
        Some(at) => tables[at].rows(),
        None => &[],
    }
}

/// The value of the key in the table of the name.
pub fn get(tables: &[PlainTable], name: &Name, key: u64) -> Option<Value>
    ensures { result ≡ row_get key (rows_or_none name.now tables.now) }
{
    row_list::get(rows_of(tables, name), key)
}

/// Whether the table of the name has a row with the key.
pub fn has_key(tables: &[PlainTable], name: &Name, key: u64) -> bool
    ensures { result ≡ has_row key (rows_or_none name.now tables.now) }
{
    row_list::has(rows_of(tables, name), key)
}

/// Puts a reply for each row of the table from one key to another behind the others.
pub fn scan(
    tables: &[PlainTable],
    name: &Name,
    low: u64,
    high: u64,
    replies: &mut Vec<Reply>,
) -> Result<(), NoMemory>
    ensures { OnOk result
        (replies.new.items ≡ replies.old.items ++ row_replies
        (row_range low high (rows_or_none name.now tables.now))) }
{
    row_list::scan(rows_of(tables, name), low, high, replies)
}

/// Puts the value at the key of the table of the name.
pub fn put(
    tables: &mut Vec<PlainTable>,
    name: &Name,
    key: u64,
    value: Value,
) -> Result<(), NoMemory>
    ensures put { OnOk result
        (tables.new.items ≡ with_rows name.now
        (row_put key value (rows_or_none name.now tables.old.items)) tables.old.items) }
    ensures stays { OnErr result (tables.new.items ≡ tables.old.items) }
{
    let Some(at) = table_at(tables, name) else {
        return Ok(());
    };
    tables[at].put(key, value)
}

/// Takes the row with the key away from the table of the name.
pub fn delete(tables: &mut Vec<PlainTable>, name: &Name, key: u64)
    ensures { tables.new.items
        ≡ with_rows name.now
        (row_delete key (rows_or_none name.now tables.old.items)) tables.old.items }
{
    if let Some(at) = table_at(tables, name) {
        tables[at].delete(key);
    }
}

/// Puts a table without rows behind the others.
pub fn create(alloc: Global, tables: &mut Vec<PlainTable>, name: Name) -> Result<(), NoMemory>
    ensures created { OnOk result (tables.new.items ≡ with_table name tables.old.items) }
    ensures stays { OnErr result (tables.new.items ≡ tables.old.items) }
{
    push(
        tables,
        PlainTable {
            name,
            rows: Vec::new(alloc),
        },
    )
}

/// Puts a table behind the others.
fn push(tables: &mut Vec<PlainTable>, table: PlainTable) -> Result<(), NoMemory>
    ensures pushed { OnOk result (tables.new.items ≡ tables.old.items ++ table ∷ []) }
    ensures stays { OnErr result (tables.new.items ≡ tables.old.items) }
{
    let Ok(_) = tables.push(table) else {
        return Err(NoMemory);
    };
    Ok(())
}

/// A copy of tables.
pub fn copy(alloc: Global, tables: &[PlainTable]) -> Result<Vec<PlainTable>, NoMemory>
    ensures { IfOk result (λ copied. copied.items ≡ tables.now) }
{
    let mut copied = Vec::new(alloc);
    for table in tables {
        push(&mut copied, table.copy(alloc)?)?;
    }
    Ok(copied)
}
