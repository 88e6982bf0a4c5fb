//! Each public call once with ample memory, and worked examples of bytes.
use crate::early::Early;
use line_pages::{
    LineSet, Pages, VecPages, copy_page, get_half, get_word, page_half, page_line, page_word,
    put_half, put_word, read_half, read_word, set_page_half, set_page_line, set_page_word,
};
use nvm_model::Line;
use ssd_model::PageBuf;

/// A line with these words at its two ends.
fn line_of(first: u64, last: u64) -> Line {
    Line {
        words: [first, 0, 0, 0, 0, 0, 0, last],
    }
}

#[test]
fn reads_back_what_was_written(rt: HostRuntime) -> Result<(), Early> {
    let mut pages = VecPages::new(rt.alloc(), 3, 2)?;
    assert_eq!(rt; pages.page_count(), 3);
    assert_eq!(rt; pages.read_line(2, 63)?, line_of(0, 0));
    pages.write_line(2, 63, &line_of(7, u64::MAX))?;
    pages.write_line(1, 0, &line_of(8, 9))?;
    pages.rest();
    assert_eq!(rt; pages.read_line(2, 63)?, line_of(7, u64::MAX));
    assert_eq!(rt; pages.read_line(1, 0)?, line_of(8, 9));
    assert_eq!(rt; pages.read_line(2, 62)?, line_of(0, 0));
    Ok(())
}

#[test]
fn reads_bytes_through_lines(rt: HostRuntime) -> Result<(), Early> {
    let mut pages = VecPages::new(rt.alloc(), 1, 2)?;
    pages.write_line(0, 3, &line_of(1, 0x0102_0304_0506_0708))?;
    pages.write_line(0, 4, &line_of(0x1112_1314_1516_1718, 2))?;
    assert_eq!(rt; read_word(&mut pages, 0, 248)?, 0x0102_0304_0506_0708);
    assert_eq!(rt; read_word(&mut pages, 0, 252)?, 0x1516_1718_0102_0304);
    assert_eq!(rt; read_half(&mut pages, 0, 254)?, 0x0102);
    let mut page = PageBuf::zero();
    copy_page(&mut pages, 0, &mut page)?;
    assert_eq!(rt; page.byte(248), 8);
    assert_eq!(rt; page.byte(255), 1);
    assert_eq!(rt; page.byte(256), 0x18);
    assert_eq!(rt; page_line(&page, 4), line_of(0x1112_1314_1516_1718, 2));
    Ok(())
}

#[test]
fn puts_lines_and_numbers_into_a_page(rt: HostRuntime) {
    let mut page = PageBuf::zero();
    set_page_line(&mut page, 63, &line_of(5, 0xAB00_0000_0000_00CD));
    assert_eq!(rt; page.byte(4032), 5);
    assert_eq!(rt; page.byte(4088), 0xCD);
    assert_eq!(rt; page.byte(4095), 0xAB);
    assert_eq!(rt; page_line(&page, 63), line_of(5, 0xAB00_0000_0000_00CD));
    assert_eq!(rt; page_line(&page, 62), line_of(0, 0));
    set_page_word(&mut page, 13, 0x0102_0304_0506_0708);
    assert_eq!(rt; page.byte(13), 8);
    assert_eq!(rt; page_word(&page, 13), 0x0102_0304_0506_0708);
    set_page_half(&mut page, 14, 0x1234);
    assert_eq!(rt; page.byte(14), 0x34);
    assert_eq!(rt; page_half(&page, 14), 0x1234);
    let mut bytes = [0; 12];
    put_word(&mut bytes, 2, 0x0102_0304_0506_0708);
    put_half(&mut bytes, 10, 0x1234);
    assert_eq!(rt; get_word(&bytes, 2), 0x0102_0304_0506_0708);
    assert_eq!(rt; get_half(&bytes, 9), 0x3401);
}

#[test]
fn keeps_the_lines_that_were_put_in(rt: HostRuntime) -> Result<(), Early> {
    let mut set = LineSet::new(rt.alloc(), 2)?;
    assert!(rt; !set.has(1, 63));
    set.insert(1, 63);
    set.insert(1, 0);
    assert!(rt; set.has(1, 63));
    assert!(rt; set.has(1, 0));
    assert!(rt; !set.has(0, 63));
    assert!(rt; !set.has(1, 62));
    set.clear();
    assert!(rt; !set.has(1, 63));
    Ok(())
}

#[test]
fn refuses_sizes_that_cannot_be_numbered(rt: HostRuntime) {
    assert!(rt; VecPages::new(rt.alloc(), u64::MAX, 0).is_err());
    assert!(rt; LineSet::new(rt.alloc(), u64::MAX).is_err());
}
