//! What a step answers: nothing, a reply, or a scan whose rows are asked for one by one.
use script::Reply;
use table_store::Name;

/// A scan of a table, from one key to another, both included.
#[derive(Drop)]
pub struct Scan {
    /// The table's name.
    pub name: Name,
    /// The least key that is still to come.
    pub from: u64,
    /// The greatest key.
    pub to: u64,
    /// How many rows were given.
    pub count: u64,
    /// Whether its end was given.
    pub over: bool,
}

/// What a line of a script leads to.
#[derive(Drop)]
pub enum Step {
    /// A silent line: nothing is replied.
    Silent,
    /// One reply.
    Said(Reply),
    /// The rows of a scan and its end, which `Engine::next_row` gives.
    Scanning(Scan),
}
