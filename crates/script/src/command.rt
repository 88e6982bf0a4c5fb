//! Commands and replies, as contracts see them: plain data.
use rows::{Name, Value};

/// What a line of a script asks.
#[derive(Drop)]
pub enum Command {
    /// `create T`: a table without rows.
    Create(Name),
    /// `begin`: a transaction opens.
    Begin,
    /// `put T K V`: the table has this value at the key.
    Put(Name, u64, Value),
    /// `del T K`: the table has no row with the key.
    Del(Name, u64),
    /// `get T K`: the value at the key.
    Get(Name, u64),
    /// `scan T LO HI`: the rows with keys from one to the other, both included.
    Scan(Name, u64, u64),
    /// `commit`: what the open transaction wrote stands.
    Commit,
    /// `abort`: what it wrote is dropped.
    Abort,
    /// `checkpoint`: what was committed is written home, and the log becomes empty.
    Checkpoint,
    /// `drain`: whole blocks of the log go to the SSD.
    Drain,
    /// `clean N`: the first N changed pages in memory are written back, N from 1 to 65,536.
    Clean(u32),
}

/// Why a line is refused, in the order in which the reasons are tested.
#[derive(Clone, Copy, Debug, PartialEq, Eq)]
pub enum Reason {
    /// The line is of no form, or has more than 1,024 bytes.
    Form,
    /// A transaction is open where none may be, or none is where one must be.
    Transaction,
    /// No table has the name, or for `create` one has it.
    Table,
    /// The transaction has had as many writes as there may be.
    Writes,
    /// There are as many tables as there may be.
    Tables,
    /// The table has as many rows as there may be, none with the key.
    Full,
}

/// One line of the answer.
#[derive(Drop)]
pub enum Reply {
    /// `ok`
    Fine,
    /// `value V`
    Found(Value),
    /// `none`
    Absent,
    /// `row K V`
    Row(u64, Value),
    /// `end N`, N being the number of rows before it.
    Finish(u64),
    /// `committed N`, N counting the commits of the run from 1.
    Committed(u64),
    /// `aborted`
    Aborted,
    /// `refused REASON`
    Refused(Reason),
}
