//! Texts in a buffer of 160 bytes: bytes as they are, numbers in plain decimal, and digits in lower-case hexadecimal.
ghost use Rattle.std.specs.Prelude.{◌≡◌, ◌+◌, ◌*◌, ◌≤◌, ◌++◌, length, decimal, map};
ghost use Rattle.arrayvec.specs.ArrayVec.{array_vec_len};
ghost use Rattle.hex.specs.Hex.{encode_lower};
ghost use Rattle.texts.specs.Lines.{sentence};
ghost use Rattle.nvm_model.specs.LineBytes.{line_bytes};
ghost use Rattle.damage.specs.DamageText.{word_digits};

use arrayvec::ArrayVec;
use hex::encode_to_slice;
use itoa::Buffer;
use nvm_model::Line;

/// Puts these bytes behind the others. They have room.
pub(crate) fn put(out: &mut ArrayVec<u8, 160>, bytes: &[u8])
    requires { array_vec_len out.old + length bytes.now ≤ 160 }
    ensures items { out.new.items ≡ out.old.items ++ bytes.now }
    ensures len { array_vec_len out.new ≡ array_vec_len out.old + length bytes.now }
{
    let _fits = out.try_extend_from_slice(bytes);
}

/// Puts a number in plain decimal behind its name. There is room for 20 digits.
pub(crate) fn put_named(out: &mut ArrayVec<u8, 160>, name: &[u8], number: u64)
    requires { array_vec_len out.old + length name.now + 20 ≤ 160 }
    ensures items { out.new.items ≡ out.old.items ++ (name.now ++ decimal number) }
    ensures len { array_vec_len out.new ≤ array_vec_len out.old + length name.now + 20 }
{
    let mut buffer = Buffer::new();
    put(out, name);
    put(out, buffer.format(number).as_bytes());
}

/// Puts two digits for each of at most 64 bytes.
pub(crate) fn put_digits(out: &mut ArrayVec<u8, 160>, bytes: &[u8])
    requires few { length bytes.now ≤ 64 }
    requires room { array_vec_len out.old + 2 * length bytes.now ≤ 160 }
    ensures items { out.new.items ≡ out.old.items ++ encode_lower bytes.now }
    ensures len { array_vec_len out.new ≡ array_vec_len out.old + 2 * length bytes.now }
{
    let mut buffer = [0; 128];
    let digits = &mut buffer[..2 * bytes.len()];
    let _fits = encode_to_slice(bytes, digits);
    put(out, digits);
}

/// Puts a word as a number, in 16 digits, the highest first.
#[tactic(auto, unfolding(crate::specs::DamageText::word_digits))]
pub(crate) fn put_word(out: &mut ArrayVec<u8, 160>, word: u64)
    requires { array_vec_len out.old + 16 ≤ 160 }
    ensures items { out.new.items ≡ out.old.items ++ word_digits word }
    ensures len { array_vec_len out.new ≡ array_vec_len out.old + 16 }
{
    put_digits(out, &word.to_be_bytes());
}

/// Puts eight words as numbers, with a space between each two.
pub(crate) fn put_words(out: &mut ArrayVec<u8, 160>, words: &[u64; 8])
    requires { array_vec_len out.old + 135 ≤ 160 }
    ensures items { out.new.items ≡ out.old.items ++ sentence (map word_digits words.now) }
    ensures len { array_vec_len out.new ≡ array_vec_len out.old + 135 }
{
    put_word(out, words[0]);
    for w in 1..8 {
        put(out, b" ");
        put_word(out, words[w]);
    }
}

/// Puts the bytes of a line in order, two digits each.
pub(crate) fn put_line(out: &mut ArrayVec<u8, 160>, line: &Line)
    requires { array_vec_len out.old + 128 ≤ 160 }
    ensures items { out.new.items ≡ out.old.items ++ encode_lower (line_bytes line.now) }
    ensures len { array_vec_len out.new ≡ array_vec_len out.old + 128 }
{
    for w in 0..8 {
        put_digits(out, &line.words[w].to_le_bytes());
    }
}
