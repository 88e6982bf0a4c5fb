//! The blocks that were written, by number.
ghost use Rattle.std.specs.Prelude.{◌≡◌, OnOk, OnErr, length};
ghost use Rattle.ssd_model.specs.Sectors.{WritesBlock, SameSectors, AreRestarted};

use crate::page::PageBuf;
use crate::sector::Sector;
use std::alloc::{AllocError, Global};
use std::collections::BTreeMap;

/// Makes these bytes the current ones of a block, or changes nothing.
pub fn write_at(
    written: &mut BTreeMap<u64, Sector>,
    alloc: Global,
    interval: u64,
    block: u64,
    from: &PageBuf,
) -> Result<(), AllocError>
    ensures writes { OnOk result (WritesBlock interval block from.now written.old written.new) }
    ensures unchanged { OnErr result (SameSectors written.old written.new) }
    ensures page { length from.now ≡ 4096 }
{
    if let Some(sector) = written.get_mut(&block) {
        sector.write(interval, from);
        return Ok(());
    }
    let sector = Sector::new(alloc, interval, from)?;
    written.insert(block, sector)?;
    Ok(())
}

/// Makes all blocks as if they were last written in the first interval.
pub fn restart_all(written: &mut BTreeMap<u64, Sector>)
    ensures { AreRestarted written.old written.new }
{
    written.retain(|_, sector| {
        sector.interval = 0;
        true
    });
}
