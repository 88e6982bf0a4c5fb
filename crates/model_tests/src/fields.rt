//! Worked numbers, fields and texts.
use arrayvec::ArrayVec;
use std::test::*;
use texts::{cut, is_silent, is_word, key, key_field, put, put_number};

#[test]
fn reads_numbers(rt: HostRuntime) {
    assert!(rt; key(b"0") == Some(0));
    assert!(rt; key(b"7") == Some(7));
    assert!(rt; key(b"18446744073709551615") == Some(18446744073709551615));
    for bytes in [
        &b""[..],
        b"00",
        b"007",
        b"-1",
        b"+1",
        b"1 ",
        b"1a",
        b"18446744073709551616",
        b"99999999999999999999",
    ] {
        assert!(rt; key(bytes).is_none());
    }
}

#[test]
fn cuts_fields(rt: HostRuntime) {
    let (word, left) = cut(b"get  7");
    assert!(rt; is_word(word, b"get") && !is_word(word, b"ge") && left == Some(&b" 7"[..]));
    let (word, left) = cut(b"begin");
    assert!(rt; is_word(word, b"begin") && left.is_none());
    let (word, left) = cut(b"begin ");
    assert!(rt; is_word(word, b"begin") && left == Some(&b""[..]));
}

#[test]
fn reads_fields(rt: HostRuntime) {
    match key_field(Some(b"7 8")) {
        Some((number, left)) => assert!(rt; number == 7 && left == Some(&b"8"[..])),
        None => assert!(rt; false),
    }
    assert!(rt; key_field(None).is_none());
    assert!(rt; key_field(Some(b"")).is_none());
    assert!(rt; key_field(Some(b" 7")).is_none());
}

#[test]
fn passes_over_silent_lines(rt: HostRuntime) {
    assert!(rt; is_silent(b""));
    assert!(rt; is_silent(b"# put 7 x"));
    assert!(rt; is_silent(&[b'#'; 2000]));
    assert!(rt; !is_silent(b" # put 7 x"));
    assert!(rt; !is_silent(&[b'v'; 2000]));
}

#[test]
fn writes_texts(rt: HostRuntime) {
    let mut out = ArrayVec::new();
    put(&mut out, b"end ");
    put_number(&mut out, 18446744073709551615);
    assert!(rt; is_word(out.as_slice(), b"end 18446744073709551615"));
}
