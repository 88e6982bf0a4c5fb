//! How many tables and rows there may be.
ghost use Rattle.std.specs.Prelude.{◌≤◌};

/// The largest number of tables, and of rows in one table.
#[derive(Clone, Copy, Debug, PartialEq, Eq)]
pub struct Limits {
    /// How many tables there may be, 1 to 62.
    pub tables: u32,
    /// How many rows a table may have, 1 to 1,000,000.
    pub rows: u64,
    ghost tables_some: { 1 ≤ tables },
    ghost tables_few: { tables ≤ 62 },
    ghost rows_some: { 1 ≤ rows },
    ghost rows_few: { rows ≤ 1000000 },
}
