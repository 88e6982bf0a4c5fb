//! The end of a group, put at the end of the log.
ghost use Rattle.std.specs.Prelude.{◌≡◌, ◌<◌, ℕ, [], ◌∷◌};
ghost use Rattle.devices.specs.State.Call.{store_word, store_line, flush, fence};
ghost use Rattle.devices.specs.World.{Goes, MakesAll, NvmCause};

use crate::putting::{put_gate, put_line};
use devices::{Devices, Failed};
use nvm_model::Line;

/// A line at the end of the log, durable, and then the tail, durable.
pub(crate) fn end_at<D: Devices>(
    dev: &mut D,
    place: u64,
    head: &Line,
    tail: u64,
) -> Result<(), Failed>
    requires gates { 3 < (D.standing dev.old).lines }
    requires place { place < (D.standing dev.old).lines }
    ensures goes { Goes (D.standing dev.old) (D.standing dev.new) }
    ensures cause { NvmCause (D.standing dev.old) (D.standing dev.new) result }
    ensures makes { MakesAll
        (store_line place head.now ∷ flush place ∷ fence ∷ store_word 3 0 tail ∷ flush 3 ∷ fence
        ∷ []) (D.standing dev.old) (D.standing dev.new) result }
{
    put_line(dev, place, head)?;
    dev.fence()?;
    put_gate(dev, 3, tail)
}
