//! What the calls on tables answer.
use rows::Value;

/// The answer to the making of a table.
#[derive(Clone, Copy, Debug, PartialEq, Eq)]
pub enum Created {
    /// The table is there now, with no row.
    Made,
    /// A table of this name was there.
    Present,
    /// There were as many tables as there may be, and none of this name.
    NoSlot,
}

/// The answer to a look-up of a key.
#[derive(Drop)]
pub enum Got {
    /// The value of the row with the key.
    Found(Value),
    /// No row of the table has the key.
    Absent,
    /// No table has the name.
    NoTable,
}

/// The answer to a row that is put.
#[derive(Clone, Copy, Debug, PartialEq, Eq)]
pub enum Stored {
    /// The table has the row now.
    Done,
    /// The key is new, and the table had as many rows as it may have.
    TableFull,
    /// No table has the name.
    NoTable,
}

/// The answer to a key that is taken out.
#[derive(Clone, Copy, Debug, PartialEq, Eq)]
pub enum Deleted {
    /// The row with the key is gone.
    Done,
    /// No row of the table had the key.
    Absent,
    /// No table has the name.
    NoTable,
}

/// The answer to a search for the next row.
#[derive(Drop)]
pub enum Next {
    /// The key and the value of the row with the least key in the bounds.
    Row(u64, Value),
    /// No key of the table lies in the bounds.
    End,
    /// No table has the name.
    NoTable,
}
