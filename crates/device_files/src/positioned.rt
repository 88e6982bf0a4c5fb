//! Files that are read and written at a position: no call seeks.
ghost use Rattle.std.specs.Prelude.{◌≡◌, ◌<◌, ◌≤◌, ◌+◌, ◌-◌, ◌^◌, ◌++◌, ℕ, List, Option, None, length, take, replicate, IfOk, OnErr, OnOk, IfSome};
ghost use Rattle.std.specs.Io.{ReadsAtMost, WritesAtMost};
ghost use Rattle.std.specs.Io.KnownBytes.{Consumes, IsAtEnd, Keeps};
ghost use Rattle.device_files.specs.Positioned.{padded, bytes_from, WritesBytes};

use std::fs::File;
use std::io;
use std::io::ErrorKind;
use std::os::unix::fs::FileExt;

/// A file that is read and written at a position.
pub trait PositionedFile {
    /// Its bytes, from the first on, where they are known.
    ghost known_bytes: { Self → Option (List ℕ) } = { λ _. None };

    /// Reads the next bytes from `start` on, at most as many as `into` takes; 0 is the file's end.
    fn read_some_at(&self, start: u64, into: &mut [u8]) -> io::Result<usize>
        ensures bound { ReadsAtMost result into.new }
        ensures taken { IfOk result (λ count. Consumes (bytes_from (known_bytes self.now) start) (bytes_from (known_bytes self.now) (start + count)) (take count into.new)) }
        ensures end { IfOk result (λ count. count ≡ 0 → 0 < length into.old → IsAtEnd (bytes_from (known_bytes self.now) (start + count))) };

    /// Writes some of the bytes from `start` on, and answers how many. Where `start` lies past the end, zeros come between. A
    /// write that fails changes nothing.
    fn write_some_at(&mut self, start: u64, bytes: &[u8]) -> io::Result<usize>
        ensures bound { WritesAtMost result bytes.now }
        ensures sent { IfOk result (λ count. WritesBytes start (take count bytes.now) (known_bytes self.old) (known_bytes self.new)) }
        ensures none { OnErr result (Keeps (known_bytes self.old) (known_bytes self.new)) };
}

/// A file of the system. Nothing is known of what it holds.
impl PositionedFile for File {
    fn read_some_at(&self, start: u64, into: &mut [u8]) -> io::Result<usize> {
        self.read_at(into, start)
    }

    fn write_some_at(&mut self, start: u64, bytes: &[u8]) -> io::Result<usize> {
        self.write_at(bytes, start)
    }
}

/// Fills `into` with the bytes from `start` on, and with zeros past the file's end.
pub fn fill_at<F: PositionedFile>(file: &F, start: u64, into: &mut [u8]) -> io::Result<()>
    requires { start + length into.old < 2 ^ 64 }
    ensures { OnOk result (IfSome (bytes_from (F.known_bytes file.now) start) (λ left. into.new ≡ padded (length into.old) left)) }
{
    let mut at = 0;
    'pieces: for _ in 0..u64::MAX {
        if at >= into.len() {
            return Ok(());
        }
        let count = read_piece(file, start + at as u64, &mut into[at..])?;
        if count == 0 {
            clear_from(into, at);
            return Ok(());
        }
        at += count;
    }
    Err(io::Error::from(ErrorKind::TimedOut))
}

/// Writes all of the bytes from `start` on. After an error any first part of them may have been written.
pub fn drain_at<F: PositionedFile>(file: &mut F, start: u64, bytes: &[u8]) -> io::Result<()>
    requires { start + length bytes.now < 2 ^ 64 }
    ensures { OnOk result (WritesBytes start bytes.now (F.known_bytes file.old) (F.known_bytes file.new)) }
{
    let mut at = 0;
    'pieces: for _ in 0..u64::MAX {
        if at >= bytes.len() {
            return Ok(());
        }
        let count = write_piece(file, start + at as u64, &bytes[at..])?;
        at += count;
    }
    Err(io::Error::from(ErrorKind::TimedOut))
}

/// One read, tried again where a signal interrupts it.
fn read_piece<F: PositionedFile>(file: &F, start: u64, into: &mut [u8]) -> io::Result<usize>
    ensures bound { IfOk result (λ count. count ≤ length into.new) }
    ensures taken { IfOk result (λ count. Consumes (bytes_from (F.known_bytes file.now) start) (bytes_from (F.known_bytes file.now) (start + count)) (take count into.new)) }
    ensures end { IfOk result (λ count. count ≡ 0 → 0 < length into.old → IsAtEnd (bytes_from (F.known_bytes file.now) (start + count))) }
{
    'tries: for _ in 0..u64::MAX {
        match file.read_some_at(start, into) {
            Ok(count) => return Ok(count),
            Err(e) => {
                if e.kind() != ErrorKind::Interrupted {
                    return Err(e);
                }
            }
        }
    }
    Err(io::Error::from(ErrorKind::TimedOut))
}

/// One write, of at least a byte, tried again where a signal interrupts it. A file that takes none is at fault.
fn write_piece<F: PositionedFile>(file: &mut F, start: u64, bytes: &[u8]) -> io::Result<usize>
    ensures bound { IfOk result (λ count. (1 ≤ count) × (count ≤ length bytes.now)) }
    ensures sent { IfOk result (λ count. WritesBytes start (take count bytes.now) (F.known_bytes file.old) (F.known_bytes file.new)) }
{
    'tries: for _ in 0..u64::MAX {
        match file.write_some_at(start, bytes) {
            Ok(0) => return Err(io::Error::from(ErrorKind::WriteZero)),
            Ok(count) => return Ok(count),
            Err(e) => {
                if e.kind() != ErrorKind::Interrupted {
                    return Err(e);
                }
            }
        }
    }
    Err(io::Error::from(ErrorKind::TimedOut))
}

/// Makes the bytes from a place on zeros.
fn clear_from(into: &mut [u8], at: usize)
    requires { at ≤ length into.old }
    ensures { into.new ≡ take at into.old ++ replicate (length into.old - at) 0 }
{
    into[at..].fill(0);
}
