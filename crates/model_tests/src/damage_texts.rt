//! Worked texts of damage.
use damage::{Evidence, damage_line, damage_lines};
use nvm_model::Line;
use ssd_model::PageBuf;
use std::test::*;

/// Whether a line of the text is this, and its line feed.
fn is_line(evidence: &Evidence, page: &PageBuf, at: usize, text: &[u8]) -> bool {
    if at >= damage_lines(evidence) {
        return false;
    }
    damage_line(evidence, page, at).as_slice() == text
}

#[test]
fn tells_of_a_superblock(rt: HostRuntime) {
    let evidence = Evidence::Super {
        words: [1, 256, 0xfedcba9876543210, 0, 10, u64::MAX, 0xa, 0x10],
        check: 3,
    };
    let page = PageBuf::zero();
    assert!(rt; damage_lines(&evidence) == 2);
    assert!(rt; is_line(&evidence, &page, 0, b"! super check 3\n"));
    assert!(rt;
        is_line(
            &evidence,
            &page,
            1,
            b"! 0000000000000001 0000000000000100 fedcba9876543210 0000000000000000 000000000000000a ffffffffffffffff 000000000000000a 0000000000000010\n"
        )
    );
}

#[test]
fn tells_of_frames(rt: HostRuntime) {
    let evidence = Evidence::Frames {
        first: 4294967295,
        second: 7,
        word: 0x0123456789abcdef,
        check: 6,
    };
    let page = PageBuf::zero();
    assert!(rt; damage_lines(&evidence) == 2);
    assert!(rt; is_line(&evidence, &page, 0, b"! frames 4294967295 7 check 6\n"));
    assert!(rt; is_line(&evidence, &page, 1, b"! 0123456789abcdef\n"));
}

#[test]
fn tells_of_a_log_line(rt: HostRuntime) {
    let evidence = Evidence::Log {
        offset: 192,
        line: Line {
            words: [0x0123456789abcdef, 1, 0, 0, 0, 0, 0, 0xff00000000000000],
        },
        tail: 200,
        check: 7,
    };
    let page = PageBuf::zero();
    assert!(rt; damage_lines(&evidence) == 2);
    assert!(rt; is_line(&evidence, &page, 0, b"! log 192 check 7\n"));
    assert!(rt;
        is_line(
            &evidence,
            &page,
            1,
            b"! efcdab896745230101000000000000000000000000000000000000000000000000000000000000000000000000000000000000000000000000000000000000ff\n"
        )
    );
}

#[test]
fn tells_of_a_page(rt: HostRuntime) {
    let evidence = Evidence::Page {
        page: 1,
        level: 0,
        low: 0,
        high: 18446744073709551615,
        check: 12,
    };
    let mut page = PageBuf::zero();
    page.set_byte(0, 1);
    page.set_byte(63, 0xab);
    page.set_byte(64, 0x77);
    page.set_byte(4032, 0x0c);
    page.set_byte(4095, 0xf0);
    assert!(rt; damage_lines(&evidence) == 65);
    assert!(rt;
        is_line(
            &evidence,
            &page,
            0,
            b"! page 1 level 0 low 0 high 18446744073709551615 check 12\n"
        )
    );
    assert!(rt;
        is_line(
            &evidence,
            &page,
            1,
            b"! 010000000000000000000000000000000000000000000000000000000000000000000000000000000000000000000000000000000000000000000000000000ab\n"
        )
    );
    assert!(rt;
        is_line(
            &evidence,
            &page,
            64,
            b"! 0c0000000000000000000000000000000000000000000000000000000000000000000000000000000000000000000000000000000000000000000000000000f0\n"
        )
    );
    assert!(rt; !is_line(&evidence, &page, 65, b"\n"));
}

#[test]
fn tells_of_a_walk(rt: HostRuntime) {
    let evidence = Evidence::Walk {
        page: 0,
        kept: 18446744073709551615,
        found: 9,
        check: 41,
    };
    let page = PageBuf::zero();
    assert!(rt; damage_lines(&evidence) == 1);
    assert!(rt;
        is_line(
            &evidence,
            &page,
            0,
            b"! walk page 0 kept 18446744073709551615 found 9 check 41\n"
        )
    );
}
