//! Transactions over a store of pages on a device: pages are read and written in place, a commit or an abort ends the
//! open group of the log, and a checkpoint empties the log.
#![tactic(auto)]

mod abort;
mod begin;
mod book;
mod checkpoint;
mod commit;
mod emptying;
mod snapshot;
mod store;
#[cfg(test)]
mod tests;
mod undo;
mod writing;

pub use book::Book;
pub use store::Store;
