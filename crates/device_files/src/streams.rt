//! Reads and writes, each tried again where a signal interrupts it.
ghost use Rattle.std.specs.Prelude.{◌<◌, ◌≤◌, ◌≡◌, length, take, IfOk, OnErr};
ghost use Rattle.std.specs.Io.KnownBytes.{Appends, Consumes, IsAtEnd, Keeps};

use std::io;
use std::io::{ErrorKind, Read, Write};

/// The next bytes of a reader, at most as many as `into` takes; 0 is the end. A read that fails takes nothing.
pub fn read_some<F: Read>(from: &mut F, into: &mut [u8]) -> io::Result<usize>
    ensures bound { IfOk result (λ count. count ≤ length into.new) }
    ensures taken { IfOk result (λ count. Consumes (F.remaining from.old) (F.remaining from.new) (take count into.new)) }
    ensures end { IfOk result (λ count. count ≡ 0 → 0 < length into.old → IsAtEnd (F.remaining from.new)) }
    ensures none { OnErr result (Keeps (F.remaining from.old) (F.remaining from.new)) }
{
    'tries: for _ in 0..u64::MAX {
        match from.read(into) {
            Ok(count) => return Ok(count),
            Err(e) => {
                if e.kind() != ErrorKind::Interrupted {
                    return Err(e);
                }
            }
        }
    }
    Err(io::Error::from(ErrorKind::TimedOut))
}

/// Writes at least one of the bytes and at most all, and answers how many. A writer that takes none is at fault, and
/// a write that fails sends nothing.
pub fn write_some<F: Write>(to: &mut F, bytes: &[u8]) -> io::Result<usize>
    ensures bound { IfOk result (λ count. (1 ≤ count) × (count ≤ length bytes.now)) }
    ensures sent { IfOk result (λ count. Appends (F.contents to.old) (F.contents to.new) (take count bytes.now)) }
    ensures none { OnErr result (Keeps (F.contents to.old) (F.contents to.new)) }
{
    'tries: for _ in 0..u64::MAX {
        match to.write(bytes) {
            Ok(0) => return Err(io::Error::from(ErrorKind::WriteZero)),
            Ok(count) => return Ok(count),
            Err(e) => {
                if e.kind() != ErrorKind::Interrupted {
                    return Err(e);
                }
            }
        }
    }
    Err(io::Error::from(ErrorKind::TimedOut))
}
