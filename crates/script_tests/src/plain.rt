//! Worked scripts.
ghost use Rattle.std.specs.Prelude.{◌≤◌};

use plain_machine::PlainMachine;
use rows::Limits;
use script::reply_text;
use std::alloc::Global;
use std::test::*;

/// A machine for four tables.
fn machine(alloc: Global, tables: u32, rows: u64, writes: u32) -> PlainMachine
    requires tables_some { 1 ≤ tables }
    requires tables_few { tables ≤ 62 }
    requires rows_some { 1 ≤ rows }
    requires rows_few { rows ≤ 1000000 }
{
    PlainMachine::new(alloc, &Limits { tables, rows }, writes)
}

/// The text of the replies to these lines.
fn text(alloc: Global, machine: &mut PlainMachine, lines: &[&[u8]]) -> Result<Vec<u8>, Fail> {
    let mut text = Vec::new(alloc);
    for line in lines {
        for reply in &machine.answer(line)? {
            text.extend_from_slice(reply_text(reply).as_slice())?;
        }
    }
    Ok(text)
}

#[test]
fn puts_and_gets(rt: HostRuntime) -> Result<(), Fail> {
    let mut plain = machine(rt.alloc(), 4, 20000, 32);
    let lines = [
        &b"begin"[..],
        b"create a",
        b"put a 7 x",
        b"get a 7",
        b"commit",
        b"# aside",
        b"",
        b"get a 7",
        b"get a 8",
        b"put a 7",
    ];
    let replies = text(rt.alloc(), &mut plain, &lines)?;
    assert_eq!(rt;
        replies.as_slice(),
        b"ok\nok\nok\nvalue x\ncommitted 1\nvalue x\nnone\nrefused line\n".as_slice()
    );
    Ok(())
}

#[test]
fn refuses_in_order(rt: HostRuntime) -> Result<(), Fail> {
    let mut plain = machine(rt.alloc(), 1, 2, 4);
    let lines = [
        &b"put a 1 x"[..],
        b"commit",
        b"begin",
        b"begin",
        b"checkpoint",
        b"put a 1 x",
        b"create a",
        b"create a",
        b"create b",
        b"put a 1 x",
        b"put a 2 x",
        b"put a 3 x",
        b"put a 2 y",
        b"put a 9 x",
        b"put b 9 x",
        b"create b",
        b"commit",
        b"abort",
    ];
    let replies = text(rt.alloc(), &mut plain, &lines)?;
    let expected =
        b"refused transaction\nrefused transaction\nok\nrefused transaction\nrefused transaction\nrefused table\nok\nrefused table\nrefused tables\nok\nok\nrefused full\nok\nrefused writes\nrefused table\nrefused writes\ncommitted 1\nrefused transaction\n";
    assert_eq!(rt; replies.as_slice(), expected.as_slice());
    Ok(())
}

#[test]
fn scans_and_deletes(rt: HostRuntime) -> Result<(), Fail> {
    let mut plain = machine(rt.alloc(), 4, 20000, 32);
    let lines = [
        &b"begin"[..],
        b"create a",
        b"put a 18446744073709551615 q",
        b"put a 0 p",
        b"put a 5 m",
        b"scan a 0 18446744073709551615",
        b"scan a 5 4",
        b"del a 5",
        b"del a 5",
        b"scan a 0 9",
        b"scan b 0 9",
    ];
    let replies = text(rt.alloc(), &mut plain, &lines)?;
    let expected =
        b"ok\nok\nok\nok\nok\nrow 0 p\nrow 5 m\nrow 18446744073709551615 q\nend 3\nend 0\nok\nnone\nrow 0 p\nend 1\nrefused table\n";
    assert_eq!(rt; replies.as_slice(), expected.as_slice());
    Ok(())
}

#[test]
fn drops_what_is_not_committed(rt: HostRuntime) -> Result<(), Fail> {
    let mut plain = machine(rt.alloc(), 4, 20000, 32);
    let lines = [
        &b"begin"[..],
        b"create a",
        b"put a 1 x",
        b"commit",
        b"begin",
        b"put a 1 y",
        b"create b",
        b"drain",
        b"clean 7",
        b"abort",
        b"get a 1",
        b"get b 1",
        b"begin",
        b"put a 1 z",
    ];
    let replies = text(rt.alloc(), &mut plain, &lines)?;
    let expected =
        b"ok\nok\nok\ncommitted 1\nok\nok\nok\nok\nok\naborted\nvalue x\nrefused table\nok\nok\n";
    assert_eq!(rt; replies.as_slice(), expected.as_slice());
    plain.restart();
    let lines = [&b"get a 1"[..], b"abort", b"begin", b"commit"];
    let replies = text(rt.alloc(), &mut plain, &lines)?;
    assert_eq!(rt;
        replies.as_slice(),
        b"value x\nrefused transaction\nok\ncommitted 1\n".as_slice()
    );
    Ok(())
}
