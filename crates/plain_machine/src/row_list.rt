//! The rows of a table, as a list in the order of the keys.
ghost use Rattle.std.specs.Prelude.{◌≡◌, ◌==◌, List, ℕ, ◌&&◌, not, nat_lt, nat_le, length, position, [], ◌∷◌, ◌++◌, IfOk, OnOk, OnErr};
ghost use Rattle.rows.specs.Rows.{Row, row_get, row_put, row_delete};
ghost use Rattle.script.specs.Tables.{has_row, row_range};
ghost use Rattle.plain_machine.specs.Plain.{is_key, not_below, row_replies};

use nvm_model::NoMemory;
use rows::Value;
use script::Reply;
use std::alloc::Global;
use std::marker::Model;

/// A key with its value. Contracts see the pair.
#[derive(Drop)]
pub struct PlainRow {
    key: u64,
    value: Value,
}

impl Model for PlainRow {
    ghost use Rattle.std.specs.Prelude.{List, ℕ};

    ghost Value = { ℕ × List ℕ };

    ghost view = { λ row. (row.key, row.value) };
}

/// The number of the first row with the key.
fn row_at(rows: &[PlainRow], key: u64) -> Option<usize>
    ensures { result ≡ position (is_key key) rows.now }
{
    rows.iter().position(|row| row.key == key)
}

/// The number of the first row whose key is not below the key.
fn first_from(rows: &[PlainRow], key: u64) -> Option<usize>
    ensures { result ≡ position (not_below key) rows.now }
{
    rows.iter().position(|row| !(row.key < key))
}

/// The value of the key.
pub fn get(rows: &[PlainRow], key: u64) -> Option<Value>
    ensures { result ≡ row_get key rows.now }
{
    let at = row_at(rows, key)?;
    let row = &rows[at];
    Some(row.value.copy())
}

/// Whether a row has the key.
pub fn has(rows: &[PlainRow], key: u64) -> bool
    ensures { result ≡ has_row key rows.now }
{
    row_at(rows, key).is_some()
}

/// Whether there are as many rows, none with the key.
pub fn is_full(rows: &[PlainRow], most: u64, key: u64) -> bool
    ensures { result ≡ (nat_le most (length rows.now) && not (has_row key rows.now)) }
{
    rows.len() as u64 >= most && !has(rows, key)
}

/// Puts the value at the key.
pub fn put(rows: &mut Vec<PlainRow>, key: u64, value: Value) -> Result<(), NoMemory>
    ensures put { OnOk result (rows.new.items ≡ row_put key value rows.old.items) }
    ensures stays { OnErr result (rows.new.items ≡ rows.old.items) }
{
    let row = PlainRow { key, value };
    let Some(at) = first_from(rows, key) else {
        return push(rows, row);
    };
    let found = &rows[at];
    if found.key == key {
        rows[at] = row;
        return Ok(());
    }
    let Ok(_) = rows.insert(at, row) else {
        return Err(NoMemory);
    };
    Ok(())
}

/// Puts a row behind the others.
fn push(rows: &mut Vec<PlainRow>, row: PlainRow) -> Result<(), NoMemory>
    ensures pushed { OnOk result (rows.new.items ≡ rows.old.items ++ row ∷ []) }
    ensures stays { OnErr result (rows.new.items ≡ rows.old.items) }
{
    let Ok(_) = rows.push(row) else {
        return Err(NoMemory);
    };
    Ok(())
}

/// Takes the row with the key away, where there is one.
pub fn delete(rows: &mut Vec<PlainRow>, key: u64)
    ensures { rows.new.items ≡ row_delete key rows.old.items }
{
    if let Some(at) = row_at(rows, key) {
        let _row = rows.remove(at);
    }
}

/// A copy of rows.
pub fn copy(alloc: Global, rows: &[PlainRow]) -> Result<Vec<PlainRow>, NoMemory>
    ensures { IfOk result (λ copied. copied.items ≡ rows.now) }
{
    let mut copied = Vec::new(alloc);
    for row in rows {
        push(
            &mut copied,
            PlainRow {
                key: row.key,
                value: row.value.copy(),
            },
        )?;
    }
    Ok(copied)
}

/// Puts a reply for each row from one key to another behind the others.
pub fn scan(
    rows: &[PlainRow],
    low: u64,
    high: u64,
    replies: &mut Vec<Reply>,
) -> Result<(), NoMemory>
    ensures { OnOk result
        (replies.new.items ≡ replies.old.items ++ row_replies (row_range low high rows.now)) }
{
    for row in rows {
        if low <= row.key && row.key <= high {
            let Ok(_) = replies.push(Reply::Row(row.key, row.value.copy())) else {
                return Err(NoMemory);
            };
        }
    }
    Ok(())
}
