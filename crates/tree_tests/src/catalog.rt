//! Names, and each check of the catalog in turn.
use crate::early::Early;
use damage::Evidence;
use line_pages::{Pages, Stop, VecPages};
use nvm_model::Line;
use page_format::Work;
use rows::{Limits, Name};
use std::alloc::Global;
use table_catalog::has_table;

fn named(bytes: &[u8]) -> Result<Name, Early> {
    match Name::from_bytes(bytes) {
        Some(name) => Ok(name),
        None => Err(Early::NoName),
    }
}

fn line(words: [u64; 8]) -> Line {
    Line { words }
}

const TWO_TABLES: Limits = Limits { tables: 2, rows: 9 };

#[test]
fn tells_names_from_other_bytes(rt: HostRuntime) -> Result<(), Early> {
    assert_eq!(rt; named(b"table_7")?.bytes().len(), 7);
    assert_eq!(rt;
        named(b"abcdefghijklmnopqrstuvwxyz01234")?.bytes().len(),
        31
    );
    assert!(rt; Name::from_bytes(b"").is_none());
    assert!(rt; Name::from_bytes(b"abcdefghijklmnopqrstuvwxyz012345").is_none());
    assert!(rt; Name::from_bytes(b"A").is_none());
    assert!(rt; Name::from_bytes(b"a b").is_none());
    Ok(())
}

/// The check that a look-up of `a` names, the first line of page 0 and that of its first entry being these.
fn check_of(alloc: Global, header: [u64; 8], entry: [u64; 8]) -> Result<u8, Early> {
    let mut pages = VecPages::new(alloc, 8, 2)?;
    let mut work = Work::new();
    pages.write_line(0, 0, &line(header))?;
    pages.write_line(0, 2, &line(entry))?;
    let name = named(b"a")?;
    match has_table(&mut pages, &TWO_TABLES, &name, &mut work) {
        Ok(_) => Ok(0),
        Err(Stop::Damaged(Evidence::Page { page: 0, check, .. })) => Ok(check),
        Err(stop) => Err(Early::Stopped(stop)),
    }
}

#[test]
fn names_the_check_that_fails(rt: HostRuntime) -> Result<(), Early> {
    let good = [0x6101, 0, 0, 0, 1, 1, 1, 0];
    assert_eq!(rt; check_of(rt.alloc(), [4, 1, 2, 0, 0, 0, 0, 0], good)?, 0);
    assert_eq!(rt; check_of(rt.alloc(), [5, 1, 2, 0, 0, 0, 0, 0], good)?, 31);
    assert_eq!(rt; check_of(rt.alloc(), [4, 3, 2, 0, 0, 0, 0, 0], good)?, 32);
    assert_eq!(rt; check_of(rt.alloc(), [4, 1, 9, 0, 0, 0, 0, 0], good)?, 33);
    assert_eq!(rt; check_of(rt.alloc(), [4, 1, 2, 2, 0, 0, 0, 0], good)?, 34);
    let header = [4, 1, 2, 0, 0, 0, 0, 0];
    assert_eq!(rt;
        check_of(rt.alloc(), header, [0x4101, 0, 0, 0, 1, 1, 1, 0])?,
        35
    );
    assert_eq!(rt;
        check_of(rt.alloc(), header, [0x6101, 1, 0, 0, 1, 1, 1, 0])?,
        35
    );
    assert_eq!(rt;
        check_of(rt.alloc(), header, [0x6101, 0, 0, 0, 2, 1, 1, 0])?,
        35
    );
    assert_eq!(rt;
        check_of(rt.alloc(), header, [0x6101, 0, 0, 0, 1, 5, 1, 0])?,
        35
    );
    assert_eq!(rt;
        check_of(rt.alloc(), header, [0x6101, 0, 0, 0, 1, 1, 10, 0])?,
        35
    );
    Ok(())
}
