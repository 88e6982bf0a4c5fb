//! A line as 64 bytes, and where lines and blocks stand in their files.
//!
//! Line `line` stands at the bytes `64 * line` to `64 * line + 63`, each of its words as eight bytes, little-endian, and
//! block `block` at the bytes `4096 * block` to `4096 * block + 4095`.
ghost use Rattle.std.specs.Prelude.{◌≡◌, ◌<◌, ◌+◌, ◌*◌, slice_range};
ghost use Rattle.device_files.specs.LineBytes.{line_start, block_start, line_bytes};
ghost use Rattle.device_files.specs.FileWorld.{told_lines, told_blocks};
ghost use Rattle.byteorder.specs.Endian.{little_number, IsRead};

use byteorder::{ByteOrder, LittleEndian};
use nvm_model::Line;

/// How many lines of the NVM are told.
pub const NVM_LINES: u64 = 4_268_048;

/// How many bytes a line has.
pub const LINE_SIZE: usize = 64;

/// How many lines are read together.
pub const CHUNK_LINES: usize = 64;

/// The bytes of so many lines.
pub const CHUNK_BYTES: usize = LINE_SIZE * CHUNK_LINES;

const BLOCK_SIZE: u64 = 4096;

/// The first byte of a line.
pub fn start_of_line(line: u64) -> u64
    requires { line < told_lines }
    ensures { result ≡ line_start line }
{
    LINE_SIZE as u64 * line
}

/// The first byte of a block of the disk.
pub fn start_of_block(block: u64) -> u64
    requires { block < told_blocks }
    ensures { result ≡ block_start block }
{
    BLOCK_SIZE * block
}

/// Line `i` of a chunk.
pub fn line_of_chunk(chunk: &[u8; CHUNK_BYTES], i: usize) -> Line
    requires { i < 64 }
    ensures { IsRead little_number 8 (slice_range chunk.now (64 * i) (64 * i + 64)) result.words }
{
    let start = LINE_SIZE * i;
    let mut words = [0u64; 8];
    LittleEndian::read_u64_into(&chunk[start..start + LINE_SIZE], &mut words);
    Line { words }
}

/// The 64 bytes of a line.
pub fn bytes_of_line(line: &Line) -> [u8; LINE_SIZE]
    ensures { result ≡ line_bytes line.now }
{
    let mut bytes = [0u8; LINE_SIZE];
    LittleEndian::write_u64_into(&line.words, &mut bytes);
    bytes
}
