//! Changes of the nodes of a tree in memory, by the changes of bytes of `page_edit`: rows and children put in and taken out, and
//! nodes cut, joined and divided anew as their fill asks. Each says what one node or two are afterwards, within the bounds that
//! the node has; no device is called.
#![tactic(auto)]

mod fit;
mod inner_edit;
mod leaf_edit;
mod merge;
mod pair;

pub use fit::Fit;
pub use inner_edit::{inner_put, mend_divided, mend_joined};
pub use leaf_edit::{leaf_delete, leaf_put};
pub use merge::{left_expect, merge_inner, merge_leaves, right_expect};
pub use pair::{Pair, pair_of, root_of};
