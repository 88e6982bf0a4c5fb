//! Worked lines and replies.
ghost use Rattle.std.specs.Prelude.{◌≤◌};

use rows::{Name, Value};
use script::{
    Command, Reason, Reply, is_silent, one_grammar, output_grows, read_line, reply_text,
    scripts_append, whole_transactions,
};
use std::test::*;

/// Whether a name has these bytes.
fn is_name(name: &Name, bytes: &[u8]) -> bool {
    name.bytes() == bytes
}

/// Whether the line puts this value at this key of table `a`.
fn puts(line: &[u8], key: u64, value: &[u8]) -> bool {
    match read_line(line) {
        Some(Command::Put(name, k, v)) => is_name(&name, b"a") && k == key && v.bytes() == value,
        _ => false,
    }
}

/// Whether the line gets this key of a table.
fn gets(line: &[u8], table: &[u8], key: u64) -> bool {
    match read_line(line) {
        Some(Command::Get(name, k)) => is_name(&name, table) && k == key,
        _ => false,
    }
}

/// Whether the line deletes this key of table `a`.
fn deletes(line: &[u8], key: u64) -> bool {
    match read_line(line) {
        Some(Command::Del(name, k)) => is_name(&name, b"a") && k == key,
        _ => false,
    }
}

/// Whether the line scans table `a` between these keys.
fn scans(line: &[u8], low: u64, high: u64) -> bool {
    match read_line(line) {
        Some(Command::Scan(name, from, to)) => is_name(&name, b"a") && from == low && to == high,
        _ => false,
    }
}

/// Whether the line creates this table.
fn creates(line: &[u8], table: &[u8]) -> bool {
    match read_line(line) {
        Some(Command::Create(name)) => is_name(&name, table),
        _ => false,
    }
}

/// Whether the line cleans this many frames.
fn cleans(line: &[u8], frames: u32) -> bool {
    match read_line(line) {
        Some(Command::Clean(n)) => n == frames,
        _ => false,
    }
}

/// A form of one word, by its number.
fn bare(line: &[u8]) -> u32 {
    match read_line(line) {
        Some(Command::Begin) => 1,
        Some(Command::Commit) => 2,
        Some(Command::Abort) => 3,
        Some(Command::Checkpoint) => 4,
        Some(Command::Drain) => 5,
        _ => 0,
    }
}

#[test]
fn reads_lines(rt: HostRuntime) {
    assert!(rt; creates(b"create a", b"a"));
    assert!(rt; creates(b"create orders_2026", b"orders_2026"));
    assert!(rt;
        creates(
            b"create aaaaaaaaaaaaaaaaaaaaaaaaaaaaaaa",
            b"aaaaaaaaaaaaaaaaaaaaaaaaaaaaaaa"
        )
    );
    assert!(rt; puts(b"put a 7 x", 7, b"x"));
    assert!(rt; puts(b"put a 7 ", 7, b""));
    assert!(rt; puts(b"put a 0 a b  c ", 0, b"a b  c "));
    assert!(rt; deletes(b"del a 7", 7));
    assert!(rt; gets(b"get a 18446744073709551615", b"a", 18446744073709551615));
    assert!(rt; scans(b"scan a 3 9", 3, 9));
    assert!(rt; scans(b"scan a 9 3", 9, 3));
    assert!(rt; cleans(b"clean 1", 1));
    assert!(rt; cleans(b"clean 65536", 65536));
    for (line, form) in [
        (&b"begin"[..], 1),
        (b"commit", 2),
        (b"abort", 3),
        (b"checkpoint", 4),
        (b"drain", 5),
    ] {
        assert!(rt; bare(line) == form);
    }
}

#[test]
fn refuses_lines(rt: HostRuntime) {
    for line in [
        &b"get"[..],
        b"get a",
        b"get a ",
        b"get  a 7",
        b"get a  7",
        b"get a 7 ",
        b" get a 7",
        b"get a 7\r",
        b"get A 7",
        b"get a- 7",
        b"get a 007",
        b"get a -1",
        b"get a 18446744073709551616",
        b"put a 7",
        b"put a x y",
        b"put a 7 x\r",
        b"PUT a 7 x",
        b"create",
        b"create ",
        b"create a b",
        b"create aaaaaaaaaaaaaaaaaaaaaaaaaaaaaaaa",
        b"begin ",
        b"commit 1",
        b"abort now",
        b"drain\r",
        b"checkpoint ",
        b"clean",
        b"clean 0",
        b"clean 01",
        b"clean 65537",
        b"scan a 1",
        b"scan a 1 2 3",
        b"del a",
        b"del a 7 x",
    ] {
        assert!(rt; read_line(line).is_none());
    }
}

/// Whether the first bytes of a line that puts many letters are a form.
fn is_put(bytes: usize) -> bool
    requires { bytes ≤ 600 }
{
    let mut line = [b'v'; 600];
    line[..8].copy_from_slice(b"put a 1 ");
    read_line(&line[..bytes]).is_some()
}

#[test]
fn bounds_lines(rt: HostRuntime) {
    assert!(rt; is_put(8 + 480));
    assert!(rt; !is_put(8 + 481));
    assert!(rt; read_line(&[b'v'; 1024]).is_none());
    assert!(rt; read_line(&[b'v'; 1025]).is_none());
    assert!(rt; is_silent(&[b'#'; 2000]) && !is_silent(&[b'v'; 2000]) && is_silent(b""));
}

/// Whether the text of a reply is this.
fn is_text(reply: &Reply, text: &[u8]) -> bool {
    reply_text(reply).as_slice() == text
}

#[test]
fn writes_replies(rt: HostRuntime) {
    assert!(rt; is_text(&Reply::Fine, b"ok\n"));
    assert!(rt; is_text(&Reply::Absent, b"none\n"));
    assert!(rt; is_text(&Reply::Finish(0), b"end 0\n"));
    assert!(rt; is_text(&Reply::Committed(1), b"committed 1\n"));
    assert!(rt;
        is_text(
            &Reply::Committed(18446744073709551615),
            b"committed 18446744073709551615\n"
        )
    );
    assert!(rt; is_text(&Reply::Aborted, b"aborted\n"));
    for (reason, text) in [
        (Reason::Form, &b"refused line\n"[..]),
        (Reason::Transaction, b"refused transaction\n"),
        (Reason::Table, b"refused table\n"),
        (Reason::Writes, b"refused writes\n"),
        (Reason::Tables, b"refused tables\n"),
        (Reason::Full, b"refused full\n"),
    ] {
        assert!(rt; is_text(&Reply::Refused(reason), text));
    }
}

#[test]
fn writes_values(rt: HostRuntime) {
    match (Value::from_bytes(b"x "), Value::from_bytes(b"")) {
        (Some(value), Some(empty)) => {
            assert!(rt;
                is_text(
                    &Reply::Row(18446744073709551615, value.copy()),
                    b"row 18446744073709551615 x \n"
                )
            );
            assert!(rt; is_text(&Reply::Found(value), b"value x \n"));
            assert!(rt; is_text(&Reply::Found(empty), b"value \n"));
        }
        _ => assert!(rt; false),
    }
    match Value::from_bytes(&[b'v'; 480]) {
        Some(value) => assert!(rt;
            reply_text(&Reply::Row(18446744073709551615, value)).len() == 506
        ),
        None => assert!(rt; false),
    }
}
