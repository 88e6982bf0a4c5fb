//! Fields of a line, parted by exactly one space.
ghost use Rattle.std.specs.Prelude.{◌≡◌, ◌==◌, bytes_eq, position, option_copied, option_map};
ghost use Rattle.texts.specs.Numbers.{key_of};
ghost use Rattle.texts.specs.Fields.{space, field, cut as cut_of};

use crate::numbers::key;

/// The bytes up to the first space, and those behind it; `None` in place of these where there is no space.
pub fn cut(bytes: &[u8]) -> (&[u8], Option<&[u8]>)
    ensures { cut_of bytes.now ≡ (result.0.now, option_copied result.1) }
{
    match space_at(bytes) {
        Some(at) => (&bytes[..at], Some(&bytes[at + 1..])),
        None => (bytes, None),
    }
}

fn space_at(bytes: &[u8]) -> Option<usize>
    ensures { result ≡ position (λ b. b == space) bytes.now }
{
    bytes.iter().position(|b| *b == b' ')
}

/// Whether a field is this word.
pub fn is_word(field: &[u8], word: &[u8]) -> bool
    ensures { result ≡ bytes_eq field.now word.now }
{
    field == word
}

/// The number that the next field is, and what is left behind it; `None` exactly where nothing is left, or the field is
/// no number of 64 bits in plain decimal.
pub fn key_field(left: Option<&[u8]>) -> Option<(u64, Option<&[u8]>)>
    ensures { option_map (λ p. (p.0, option_copied p.1)) result
        ≡ field key_of (option_copied left.entry) }
{
    let (word, left) = cut(left?);
    let key = key(word)?;
    Some((key, left))
}
