//! A search over pages in memory, and damage of a page that a search meets.
ghost use Rattle.std.specs.Prelude.{◌≡◌, ◌+◌, ◌<◌, ◌≤◌, OnOk};

use crate::by_hand::{inner_by_hand, leaf_by_hand};
use crate::early::Early;
use damage::Evidence;
use line_pages::{Pages, Stop, VecPages, page_line, set_page_half};
use page_format::{Expect, Spot, Work};
use page_search::{find, read_page};
use ssd_model::PageBuf;

/// Writes a page into a store.
fn store<P: Pages>(pages: &mut P, page: u64, from: &PageBuf) -> Result<(), Stop>
    requires ready { P.is_ready pages.old }
    requires page { page < (P.standing pages.old).count }
    requires room { 64 ≤ (P.standing pages.old).room }
    ensures count { (P.standing pages.new).count ≡ (P.standing pages.old).count }
    ensures room { OnOk result ((P.standing pages.new).room + 64 ≡ (P.standing pages.old).room) }
    ensures ready { OnOk result (P.is_ready pages.new) }
{
    for line in 0..64 {
        let value = page_line(from, line);
        pages.write_line(page, line, &value)?;
    }
    Ok(())
}

#[test]
fn keys_are_found_through_lines(rt: HostRuntime) -> Result<(), Early> {
    let mut pages = VecPages::new(rt.alloc(), 10, 192)?;
    let mut work = Work::new();
    let leaf = Expect {
        level: 0,
        low: 0,
        high: u64::MAX,
        root: true,
        pages: 10,
    };
    let inner = Expect {
        level: 1,
        low: 0,
        high: u64::MAX,
        root: true,
        pages: 10,
    };
    store(&mut pages, 1, &leaf_by_hand())?;
    store(&mut pages, 2, &inner_by_hand())?;
    assert_eq!(rt; find(&mut pages, 1, &leaf, 0, &mut work)?, Spot::Row(0));
    assert_eq!(rt; find(&mut pages, 1, &leaf, 5, &mut work)?, Spot::Gap(1));
    assert_eq!(rt;
        find(&mut pages, 1, &leaf, u64::MAX, &mut work)?,
        Spot::Row(1)
    );
    assert_eq!(rt;
        find(&mut pages, 2, &inner, 49, &mut work)?,
        Spot::Child(0, 7, 0, 49)
    );
    assert_eq!(rt;
        find(&mut pages, 2, &inner, 50, &mut work)?,
        Spot::Child(1, 9, 50, u64::MAX)
    );
    read_page(&mut pages, 2, &inner, &mut work)?;
    assert!(rt; work.page().bytes() == inner_by_hand().bytes());
    Ok(())
}

/// The check that a search finds to fail, in a store whose page 1 is this one.
fn damage<P: Pages>(pages: &mut P, work: &mut Work) -> Option<Evidence>
    requires ready { P.is_ready pages.old }
    requires count { (P.standing pages.old).count ≡ 10 }
{
    let leaf = Expect {
        level: 0,
        low: 0,
        high: u64::MAX,
        root: true,
        pages: 10,
    };
    match find(pages, 1, &leaf, 7, work) {
        Err(Stop::Damaged(evidence)) => Some(evidence),
        _ => None,
    }
}

#[test]
fn damage_is_shown_by_the_first_check_that_fails(rt: HostRuntime) -> Result<(), Early> {
    let mut pages = VecPages::new(rt.alloc(), 10, 192)?;
    let mut work = Work::new();
    let mut page = leaf_by_hand();
    set_page_half(&mut page, 68, 4095);
    store(&mut pages, 1, &page)?;
    let shown = Evidence::Page {
        page: 1,
        level: 0,
        low: 0,
        high: u64::MAX,
        check: 14,
    };
    assert_eq!(rt; damage(&mut pages, &mut work), Some(shown));
    assert!(rt; work.page().bytes() == page.bytes());
    Ok(())
}
