//! The name of a table.
ghost use Rattle.std.specs.Prelude.{◌≡◌, ◌≤◌, ℕ, length, IsTrue};
ghost use Rattle.std.specs.List.{list_all};
ghost use Rattle.rows.specs.Names.{name_of, is_name, is_name_byte as byte_of_name};

use arrayvec::ArrayVec;
use std::marker::Model;

/// A table's name: 1 to 31 bytes, each of `a` to `z`, `0` to `9` or `_`. Contracts see the list of them.
#[derive(Drop)]
pub struct Name {
    bytes: ArrayVec<u8, 31>,
}

impl Model for Name {
    ghost use Rattle.std.specs.Prelude.{List, ℕ, IsTrue};
    ghost use Rattle.rows.specs.Names.{is_name};

    ghost Value = { List ℕ };

    ghost view = { λ n. n.bytes.items };

    ghost invariant = { λ n. IsTrue (is_name n.bytes.items) };
}

impl Name {
    /// The name that the bytes are; `None` exactly where they are no name.
    pub fn from_bytes(bytes: &[u8]) -> Option<Name>
        ensures { result ≡ name_of bytes.now }
    {
        if bytes.is_empty() || !all_name_bytes(bytes) {
            return None;
        }
        let mut kept = ArrayVec::new();
        match kept.try_extend_from_slice(bytes) {
            Ok(()) => Some(Name { bytes: kept }),
            Err(_) => None,
        }
    }

    /// The same name once more.
    pub fn copy(&self) -> Name
        ensures { result ≡ self.now }
    {
        let mut kept = ArrayVec::new();
        let _fits = kept.try_extend_from_slice(self.bytes.as_slice());
        Name { bytes: kept }
    }

    /// Its bytes.
    pub fn bytes(&self) -> &[u8]
        ensures value { result.now ≡ self.now }
        ensures is_name { IsTrue (is_name self.now) }
        ensures some { 1 ≤ length self.now }
        ensures short { length self.now ≤ 31 }
    {
        self.bytes.as_slice()
    }
}

/// `a` to `z`, `0` to `9` and `_`.
fn is_name_byte(byte: u8) -> bool
    ensures { result ≡ byte_of_name byte }
{
    byte.is_ascii_lowercase() || byte.is_ascii_digit() || byte == b'_'
}

/// Whether each byte may stand in a name.
pub fn all_name_bytes(bytes: &[u8]) -> bool
    ensures { result ≡ list_all byte_of_name bytes.now }
{
    bytes.iter().all(|byte| is_name_byte(*byte))
}
