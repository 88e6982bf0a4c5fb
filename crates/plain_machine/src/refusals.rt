//! The tests by which a command is refused.
ghost use Rattle.std.specs.Prelude.{◌≡◌};
ghost use Rattle.script.specs.Machine.{transaction_wrong as wrong_transaction, table_wrong as wrong_table, writes_spent as no_writes, tables_spent as no_tables, rows_spent as no_rows};

use crate::tables::{self, PlainTable};
use script::Command;

/// Whether a transaction is open where none may be, or none where one must be.
pub fn transaction_wrong(command: &Command, is_open: bool) -> bool
    ensures { result ≡ wrong_transaction command.now is_open }
{
    match command {
        Command::Begin | Command::Checkpoint => is_open,
        Command::Create(_) | Command::Put(_, _, _) | Command::Del(_, _) => !is_open,
        Command::Commit | Command::Abort => !is_open,
        Command::Get(_, _) | Command::Scan(_, _, _) | Command::Drain | Command::Clean(_) => false,
    }
}

/// Whether no table has the name, or for `create` one has it.
pub fn table_wrong(command: &Command, tables: &[PlainTable]) -> bool
    ensures { result ≡ wrong_table command.now tables.now }
{
    match command {
        Command::Create(name) => tables::has_table(tables, name),
        Command::Put(name, _, _) => !tables::has_table(tables, name),
        Command::Del(name, _) => !tables::has_table(tables, name),
        Command::Get(name, _) => !tables::has_table(tables, name),
        Command::Scan(name, _, _) => !tables::has_table(tables, name),
        Command::Begin | Command::Commit | Command::Abort => false,
        Command::Checkpoint | Command::Drain | Command::Clean(_) => false,
    }
}

/// Whether a command that writes comes where there were as many writes as there may be.
pub fn writes_spent(command: &Command, most: u32, writes: u32) -> bool
    ensures { result ≡ no_writes most command.now writes }
{
    match command {
        Command::Create(_) | Command::Put(_, _, _) | Command::Del(_, _) => writes >= most,
        Command::Get(_, _) | Command::Scan(_, _, _) => false,
        Command::Begin | Command::Commit | Command::Abort => false,
        Command::Checkpoint | Command::Drain | Command::Clean(_) => false,
    }
}

/// Whether a table is to be made where there are as many as there may be.
pub fn tables_spent(command: &Command, most: u32, tables: &[PlainTable]) -> bool
    ensures { result ≡ no_tables most command.now tables.now }
{
    match command {
        Command::Create(_) => tables.len() >= most as usize,
        _ => false,
    }
}

/// Whether a row is to be put with a new key where the table has as many as it may have.
pub fn rows_spent(command: &Command, most: u64, tables: &[PlainTable]) -> bool
    ensures { result ≡ no_rows most command.now tables.now }
{
    match command {
        Command::Put(name, key, _) => tables::is_full(tables, name, most, *key),
        _ => false,
    }
}
