//! Numbers in plain decimal.
ghost use Rattle.std.specs.Prelude.{◌≡◌};
ghost use Rattle.texts.specs.Numbers.{key_of, digits_number};

/// The number that the bytes are in plain decimal; `None` exactly where there are none, one is no digit, the first of
/// several is `0`, or the number has more than 64 bits.
pub fn key(bytes: &[u8]) -> Option<u64>
    ensures { result ≡ key_of bytes.now }
{
    if bytes.is_empty() || (bytes.len() > 1 && bytes[0] == b'0') {
        return None;
    }
    digits(bytes)
}

/// The number that digits write.
fn digits(bytes: &[u8]) -> Option<u64>
    ensures { result ≡ digits_number bytes.now }
{
    let mut value = 0u64;
    for byte in bytes {
        if !byte.is_ascii_digit() {
            return None;
        }
        value = value.checked_mul(10)?.checked_add((*byte - b'0') as u64)?;
    }
    Some(value)
}
