//! Pages of 64 lines: the trait through which every layer above reads and writes them, a store of pages in memory, sets
//! of lines, and the bytes of a page.
#![tactic(auto)]

mod line;
mod line_set;
mod number;
mod page;
mod pages;
mod reads;
mod stop;
mod touches;
mod vec_pages;

pub use line::whole_line;
pub use line_set::LineSet;
pub use number::{get_half, get_word, put_half, put_word};
pub use page::{page_half, page_line, page_word, set_page_half, set_page_line, set_page_word};
pub use pages::Pages;
pub use reads::{copy_page, read_half, read_word};
pub use stop::Stop;
pub use touches::{Accesses, Touches};
pub use vec_pages::VecPages;
