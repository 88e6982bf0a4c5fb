//! Texts in a buffer of 512 bytes.
ghost use Rattle.std.specs.Prelude.{◌≡◌, ◌+◌, ◌≤◌, ◌++◌, length, decimal};
ghost use Rattle.arrayvec.specs.ArrayVec.{array_vec_len};

use arrayvec::ArrayVec;
use itoa::Buffer;

/// Puts these bytes behind the others. They have room.
pub fn put(out: &mut ArrayVec<u8, 512>, bytes: &[u8])
    requires { array_vec_len out.old + length bytes.now ≤ 512 }
    ensures items { out.new.items ≡ out.old.items ++ bytes.now }
    ensures len { array_vec_len out.new ≡ array_vec_len out.old + length bytes.now }
{
    let _fits = out.try_extend_from_slice(bytes);
}

/// Puts a number in plain decimal behind the others. There is room for 20 digits.
pub fn put_number(out: &mut ArrayVec<u8, 512>, number: u64)
    requires { array_vec_len out.old + 20 ≤ 512 }
    ensures items { out.new.items ≡ out.old.items ++ decimal number }
    ensures len { array_vec_len out.new ≤ array_vec_len out.old + 20 }
{
    let mut buffer = Buffer::new();
    put(out, buffer.format(number).as_bytes());
}
