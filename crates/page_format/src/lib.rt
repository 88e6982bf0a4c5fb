//! Leaf and inner pages of a tree, as they are read and judged: a page is its rows, or its children.
//!
//! A leaf has a header of 64 bytes, then slots of 4 bytes in the order of the keys, and records that grow down from the
//! page's end. An inner page has the same header and 16 bytes to each child. Every call reads a page in memory and says
//! what of its list it answers. Pages are changed in `page_edit`.
#![tactic(auto)]

mod check;
mod entries;
mod leaf;
mod marks;
mod root;
mod scan;
mod spot;
mod work;

pub use check::{leaf_used, slots_used, well_formed};
pub use entries::{child, child_key, children};
pub use leaf::{leaf_key, leaf_rows, leaf_value, open_leaf, place_of};
pub use root::Expect;
pub use scan::locate;
pub use spot::Spot;
pub use work::Work;
