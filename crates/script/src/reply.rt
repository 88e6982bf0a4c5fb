//! The texts of replies.
ghost use Rattle.std.specs.Prelude.{◌≡◌, ◌≤◌, length};
ghost use Rattle.script.specs.Replies.{reply_text as text_of, reason_word as word_of};

use crate::command::{Reason, Reply};
use arrayvec::ArrayVec;
use texts::{put, put_number};

/// The text of a reply: one line, with its line feed.
pub fn reply_text(reply: &Reply) -> ArrayVec<u8, 512>
    ensures { result.items ≡ text_of reply.now }
{
    let mut out = ArrayVec::new();
    match reply {
        Reply::Fine => put(&mut out, b"ok"),
        Reply::Found(value) => {
            put(&mut out, b"value ");
            put(&mut out, value.bytes());
        }
        Reply::Absent => put(&mut out, b"none"),
        Reply::Row(key, value) => {
            put(&mut out, b"row ");
            put_number(&mut out, *key);
            put(&mut out, b" ");
            put(&mut out, value.bytes());
        }
        Reply::Finish(count) => {
            put(&mut out, b"end ");
            put_number(&mut out, *count);
        }
        Reply::Committed(count) => {
            put(&mut out, b"committed ");
            put_number(&mut out, *count);
        }
        Reply::Aborted => put(&mut out, b"aborted"),
        Reply::Refused(reason) => {
            put(&mut out, b"refused ");
            put(&mut out, reason_word(*reason));
        }
    }
    put(&mut out, b"\n");
    out
}

fn reason_word(reason: Reason) -> &'static [u8]
    ensures word { result.now ≡ word_of reason }
    ensures short { length result.now ≤ 11 }
{
    match reason {
        Reason::Form => b"line",
        Reason::Transaction => b"transaction",
        Reason::Table => b"table",
        Reason::Writes => b"writes",
        Reason::Tables => b"tables",
        Reason::Full => b"full",
    }
}
