//! Copies of what the devices hold.
ghost use Rattle.std.specs.Prelude.{◌≡◌, ℕ, IfOk};
ghost use Rattle.std.specs.Ordering.{nat_cmp};
ghost use Rattle.std.specs.BTreeMap.{get};
ghost use Rattle.devices.specs.Past.{Copies};

use crate::images::Images;
use nvm_model::NoMemory;
use ssd_model::PageBuf;
use std::alloc::Global;
use std::collections::BTreeMap;

/// A copy of blocks.
fn copy_blocks(
    alloc: Global,
    from: &BTreeMap<u64, PageBuf>,
) -> Result<BTreeMap<u64, PageBuf>, NoMemory>
    ensures { IfOk result (λ copy. (b : ℕ) → get nat_cmp copy b ≡ get nat_cmp from.now b) }
{
    let mut copy = BTreeMap::new(alloc);
    for (block, page) in from {
        let Ok(_) = copy.insert(*block, page.copy()) else {
            return Err(NoMemory);
        };
    }
    Ok(copy)
}

/// A copy of images.
pub(crate) fn copy_images(alloc: Global, from: &Images) -> Result<Images, NoMemory>
    ensures { IfOk result (λ copy. Copies from.now copy) }
{
    let nvm = from.nvm.to_vec(alloc)?;
    let ssd = copy_blocks(alloc, &from.ssd)?;
    Ok(Images {
        nvm,
        ssd_blocks: from.ssd_blocks,
        ssd,
    })
}
