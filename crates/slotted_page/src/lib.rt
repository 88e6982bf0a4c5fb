//! The door to slotted pages: how a page is read and judged (`page_format`), how its bytes are changed (`page_edit`), and how a page
//! of a store is searched or read whole (`page_search`).
#![tactic(auto)]

pub use page_edit::{
    inner_cut, inner_insert, inner_join, inner_remove, leaf_cut, leaf_insert, leaf_join,
    leaf_remove,
};
pub use page_format::{
    Expect, Spot, Work, child, child_key, children, leaf_key, leaf_rows, leaf_used, leaf_value,
    well_formed,
};
pub use page_search::{find, read_page};
pub use rows::Value;
