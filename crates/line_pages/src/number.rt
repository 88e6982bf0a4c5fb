//! Numbers of two and of eight bytes at a place of bytes, the lowest byte first.
ghost use Rattle.std.specs.Prelude.{◌≡◌, ◌+◌, ◌≤◌, length, slice_range};
ghost use Rattle.ssd_model.specs.Page.{Same};
ghost use Rattle.line_pages.specs.Bytes.{u16_at, u64_at, bytes_of_half, overwritten};
ghost use Rattle.nvm_model.specs.LineBytes.{bytes_of_word};

use byteorder::{ByteOrder, LittleEndian};

/// Reads the number of two bytes at a place.
#[tactic(auto, using(crate::proofs::NumberLaws::reads_half), unfolding(crate::specs::Bytes::u16_at))]
pub fn get_half(bytes: &[u8], at: usize) -> u16
    requires { at + 2 ≤ length bytes.now }
    ensures value { result ≡ u16_at bytes.now at }
    ensures bytes { bytes_of_half result ≡ slice_range bytes.now at (at + 2) }
{
    LittleEndian::read_u16(&bytes[at..])
}

/// Reads the number of eight bytes at a place.
#[tactic(auto, using(crate::proofs::NumberLaws::reads_word), unfolding(crate::specs::Bytes::u64_at))]
pub fn get_word(bytes: &[u8], at: usize) -> u64
    requires { at + 8 ≤ length bytes.now }
    ensures value { result ≡ u64_at bytes.now at }
    ensures bytes { bytes_of_word result ≡ slice_range bytes.now at (at + 8) }
{
    LittleEndian::read_u64(&bytes[at..])
}

/// Writes a number of two bytes at a place.
pub fn put_half(bytes: &mut [u8], at: usize, value: u16)
    requires { at + 2 ≤ length bytes.old }
    ensures bytes { bytes.new ≡ overwritten bytes.old at (bytes_of_half value) }
    ensures value { u16_at bytes.new at ≡ value }
    ensures before { Same 0 at bytes.old bytes.new }
    ensures after { Same (at + 2) (length bytes.old) bytes.old bytes.new }
    ensures size { length bytes.new ≡ length bytes.old }
{
    LittleEndian::write_u16(&mut bytes[at..], value);
}

/// Writes a number of eight bytes at a place.
pub fn put_word(bytes: &mut [u8], at: usize, value: u64)
    requires { at + 8 ≤ length bytes.old }
    ensures bytes { bytes.new ≡ overwritten bytes.old at (bytes_of_word value) }
    ensures value { u64_at bytes.new at ≡ value }
    ensures before { Same 0 at bytes.old bytes.new }
    ensures after { Same (at + 8) (length bytes.old) bytes.old bytes.new }
    ensures size { length bytes.new ≡ length bytes.old }
{
    LittleEndian::write_u64(&mut bytes[at..], value);
}
