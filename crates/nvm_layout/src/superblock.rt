//! The superblock: read, and checked against the devices.
ghost use Rattle.std.specs.Prelude.{◌≡◌, ◌≢◌, ◌<◌, ◌≤◌, Err, IsTrue, IfOk};
ghost use Rattle.devices.specs.State.{current};
ghost use Rattle.devices.specs.World.{Goes, Stays, NvmCause, now};

use crate::errors::SuperError;
use crate::geometry::Geometry;
use crate::judging::{Found, judged};
use devices::{Devices, Failed};

/// What a superblock says: the sizes, and where the log stands.
#[derive(Clone, Copy, Debug, PartialEq, Eq)]
pub struct Super {
    /// The sizes of the store.
    pub geometry: Geometry,
    /// The offset of the first line of the log.
    pub start: u64,
    /// Log lines below this offset stand in the ring on the SSD, any other in the ring in NVM; a multiple of 64.
    pub drained: u64,
    /// The offset behind the last line of the log.
    pub tail: u64,
}

ghost use Rattle.store_model.specs.Recovered.{super_of};
ghost use Rattle.nvm_layout.specs.Gates.{gates_of};
ghost use Rattle.nvm_layout.specs.Opening.{Answers, IsOpen, SuperCause, words_of};

/// Reads the superblock and makes its checks, in this order: four lines, the loads, the magic word, the ranges, the
/// sizes of the devices, the end of the offsets, the gates. The first that fails is answered (`SuperError`).
pub fn read_super<D: Devices>(dev: &mut D) -> Result<Super, SuperError>
    // What is found.
    ensures answers { 4 ≤ (D.standing dev.old).lines → result ≢ Err SuperError.Nvm
        → Answers (D.standing dev.old) result }

    // What a superblock is that is opened.
    ensures opened { IsTrue (D.standing dev.old).told
        → IfOk result (λ gates. super_of (current (now (D.standing dev.old))) ≡ gates_of gates) }
    ensures sound { IfOk result
        (λ gates. IsOpen (D.standing dev.old).lines (D.standing dev.old).blocks gates) }

    // Why it fails.
    ensures small { (D.standing dev.old).lines < 4 → result ≡ Err SuperError.TooSmall }
    ensures cause { SuperCause (D.standing dev.old) (D.standing dev.new) result }

    // What stays, whatever is answered.
    ensures goes { Goes (D.standing dev.old) (D.standing dev.new) }
    ensures stays { Stays (D.standing dev.old) (D.standing dev.new) }
{
    let lines = dev.nvm_lines();
    let blocks = dev.ssd_blocks();
    if lines < 4 {
        return Err(SuperError::TooSmall);
    }
    match load_found(dev) {
        Ok(found) => judged(&found, lines, blocks),
        Err(_) => Err(SuperError::Nvm),
    }
}

/// The words of the superblock.
fn load_found<D: Devices>(dev: &mut D) -> Result<Found, Failed>
    requires { 4 ≤ (D.standing dev.old).lines }
    ensures goes { Goes (D.standing dev.old) (D.standing dev.new) }
    ensures stays { Stays (D.standing dev.old) (D.standing dev.new) }
    ensures cause { NvmCause (D.standing dev.old) (D.standing dev.new) result }
    ensures name { IsTrue (D.standing dev.old).told
        → IfOk result (λ found. found.name ≡ (current (now (D.standing dev.old))).nvm 0 0) }
    ensures words { IsTrue (D.standing dev.old).told
        → IfOk result (λ found. found.words ≡ words_of (current (now (D.standing dev.old)))) }
{
    let head = dev.load(0)?;
    let gates = load_gates(dev)?;
    let sizes = &head.words;
    let words = [
        sizes[1], sizes[2], sizes[3], sizes[4], sizes[5], gates.0, gates.1, gates.2,
    ];
    Ok(Found {
        name: sizes[0],
        words,
    })
}

/// The start, `drained` and the tail.
fn load_gates<D: Devices>(dev: &mut D) -> Result<(u64, u64, u64), Failed>
    requires { 4 ≤ (D.standing dev.old).lines }
    ensures goes { Goes (D.standing dev.old) (D.standing dev.new) }
    ensures stays { Stays (D.standing dev.old) (D.standing dev.new) }
    ensures cause { NvmCause (D.standing dev.old) (D.standing dev.new) result }
    ensures start { IsTrue (D.standing dev.old).told
        → IfOk result (λ gates. gates.0 ≡ (current (now (D.standing dev.old))).nvm 1 0) }
    ensures drained { IsTrue (D.standing dev.old).told
        → IfOk result (λ gates. gates.1 ≡ (current (now (D.standing dev.old))).nvm 2 0) }
    ensures tail { IsTrue (D.standing dev.old).told
        → IfOk result (λ gates. gates.2 ≡ (current (now (D.standing dev.old))).nvm 3 0) }
{
    let start = dev.load(1)?;
    let drained = dev.load(2)?;
    let tail = dev.load(3)?;
    Ok((start.words[0], drained.words[0], tail.words[0]))
}
