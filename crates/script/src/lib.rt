//! The script language: its lines, commands and replies, and the plain machine that says what the replies are.
#![tactic(auto)]

mod command;
mod laws;
mod read;
mod reply;

pub use command::{Command, Reason, Reply};
pub use laws::{one_grammar, output_grows, scripts_append, whole_transactions};
pub use read::read_line;
pub use reply::reply_text;
pub use texts::is_silent;
