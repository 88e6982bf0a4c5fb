//! Telling of damage.
ghost use Rattle.std.specs.Prelude.{false, true, IsTrue};
ghost use Rattle.devices.specs.World.{Standing, WorldCall, OwnCause, OnlyChanges};
ghost use Rattle.damage.specs.DamageText.{damage_text};
ghost use Rattle.runner.specs.Sent.{SendsBytes};

use crate::sending::write_all;
use damage::{Evidence, damage_line, damage_lines};
use devices::{Failed, World};
use ssd_model::PageBuf;

/// Sends the text of damage, line by line; `page` gives the bytes of a `Page` evidence. `Failed` where the count of faults of the
/// output rose, and then a beginning of the text was sent.
pub fn tell_damage<W: World>(
    world: &mut W,
    evidence: &Evidence,
    page: &PageBuf,
) -> Result<(), Failed>
    ensures call { WorldCall (W.Devices.standing world.old) (W.Devices.standing world.new) }
    ensures rest { OnlyChanges false false true (W.Devices.standing world.old) (W.Devices.standing world.new) }
    ensures cause { OwnCause (W.Devices.standing world.old).outside.sink_faults (W.Devices.standing world.new).outside.sink_faults result }
    ensures writes { IsTrue (W.Devices.standing world.old).told → SendsBytes (damage_text evidence.now page.now) (W.Devices.standing world.old) (W.Devices.standing world.new) result }
{
    for at in 0..damage_lines(evidence) {
        let line = damage_line(evidence, page, at);
        write_all(world, line.as_slice())?;
    }
    Ok(())
}
