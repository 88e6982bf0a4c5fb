//! Changes of the bytes of leaf and inner pages in memory: a row or a child put in or taken out, a page cut in two, two pages
//! joined. Which of them a node of a tree takes, and within which bounds, is in `node_edit`.
//!
//! A page is its rows, or its children, as `page_format` reads them. Every call here says which list the page has
//! afterwards, and what is left as it was. It is asked for a page that is well formed in itself, and leaves one.
#![tactic(auto)]

mod build;
mod cut;
mod edit;
mod entries;
mod inner;
mod insert;
mod join;

pub use cut::leaf_cut;
pub use edit::{drop_slot, lay_row};
pub use inner::{inner_cut, inner_insert, inner_join, inner_remove};
pub use insert::{leaf_insert, leaf_remove, leaf_set};
pub use join::leaf_join;
