//! Worked examples of what each choice leaves, and each public call once with ample memory.
use ssd_model::{BlockChoice, PageBuf, SsdState};
use std::alloc::AllocError;

/// The first and the last byte of a page.
fn ends(page: &PageBuf) -> (u8, u8) {
    (page.byte(0), page.byte(4095))
}

/// A page whose first byte is this one, and else zeros.
fn marked(first: u8) -> PageBuf {
    let mut page = PageBuf::zero();
    page.set_byte(0, first);
    page
}

#[test]
fn settles_what_was_written(rt: HostRuntime) -> Result<(), AllocError> {
    let mut disk = SsdState::new(rt.alloc(), 8);
    assert_eq!(rt; disk.blocks(), 8);
    let mut page = marked(9);
    disk.image_block(3, BlockChoice::Fill(7), &mut page);
    assert_eq!(rt; ends(&page), (0, 0));
    disk.write(3, &marked(1))?;
    disk.sync();
    disk.write(3, &marked(2))?;
    disk.image_block(3, BlockChoice::Settled, &mut page);
    assert_eq!(rt; ends(&page), (1, 0));
    disk.image_block(3, BlockChoice::Current, &mut page);
    assert_eq!(rt; ends(&page), (2, 0));
    disk.image_block(3, BlockChoice::Fill(7), &mut page);
    assert_eq!(rt; ends(&page), (7, 7));
    disk.read(3, &mut page);
    assert_eq!(rt; ends(&page), (2, 0));
    disk.sync();
    disk.image_block(3, BlockChoice::Fill(7), &mut page);
    assert_eq!(rt; ends(&page), (2, 0));
    Ok(())
}

#[test]
fn alternates_by_the_number_of_the_block(rt: HostRuntime) -> Result<(), AllocError> {
    let mut disk = SsdState::new(rt.alloc(), 8);
    let mut page = PageBuf::zero();
    disk.write(4, &marked(4))?;
    disk.write(5, &marked(5))?;
    disk.write(4, &marked(6))?;
    disk.image_block(4, BlockChoice::Alternating, &mut page);
    assert_eq!(rt; ends(&page), (0, 0));
    disk.image_block(5, BlockChoice::Alternating, &mut page);
    assert_eq!(rt; ends(&page), (5, 0));
    disk.read(4, &mut page);
    assert_eq!(rt; ends(&page), (6, 0));
    Ok(())
}

#[test]
fn moves_parts_of_a_page(rt: HostRuntime) {
    let mut page = PageBuf::zero();
    page.set_part(10, b"abcd");
    page.shift(10, 14, 12);
    assert!(rt; page.part(10, 16) == b"ababcd".as_slice());
    let twin = page.copy();
    page.fill(3);
    assert_eq!(rt; ends(&page), (3, 3));
    page.copy_from(&twin);
    assert!(rt; page.part(12, 16) == b"abcd".as_slice());
    assert_eq!(rt; page.bytes().len(), 4096);
}
