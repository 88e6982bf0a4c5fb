//! A row's value.
ghost use Rattle.std.specs.Prelude.{◌≡◌, ◌≤◌, length, true, IsTrue};
ghost use Rattle.std.specs.List.{list_all};
ghost use Rattle.rows.specs.Value.{is_printable};
ghost use Rattle.rows.specs.Value.{value_of, is_value};

use arrayvec::ArrayVec;
use std::marker::Model;

/// A row's value: at most 480 bytes, each from 0x20 to 0x7E. Contracts see the list of them.
#[derive(Drop)]
pub struct Value {
    bytes: ArrayVec<u8, 480>,
}

impl Model for Value {
    ghost use Rattle.std.specs.Prelude.{List, ℕ, IsTrue};
    ghost use Rattle.rows.specs.Value.{is_value};

    ghost Value = { List ℕ };

    ghost view = { λ v. v.bytes.items };

    ghost invariant = { λ v. IsTrue (is_value v.bytes.items) };
}

impl Value {
    /// The value that the bytes are; `None` exactly where there are more than 480 or one is out of range.
    pub fn from_bytes(bytes: &[u8]) -> Option<Value>
        ensures { result ≡ value_of bytes.now }
    {
        if !all_printable(bytes) {
            return None;
        }
        let mut kept = ArrayVec::new();
        match kept.try_extend_from_slice(bytes) {
            Ok(()) => Some(Value { bytes: kept }),
            Err(_) => None,
        }
    }

    /// The same value once more.
    pub fn copy(&self) -> Value
        ensures { result ≡ self.now }
    {
        let mut kept = ArrayVec::new();
        let _fits = kept.try_extend_from_slice(self.bytes.as_slice());
        Value { bytes: kept }
    }

    /// Its bytes.
    pub fn bytes(&self) -> &[u8]
        ensures value { result.now ≡ self.now }
        ensures short { length result.now ≤ 480 }
        ensures printable { list_all is_printable self.now ≡ true }
        ensures is_value { IsTrue (is_value self.now) }
    {
        self.bytes.as_slice()
    }
}

/// Whether each byte may stand in a value.
pub fn all_printable(bytes: &[u8]) -> bool
    ensures { result ≡ list_all is_printable bytes.now }
{
    let mut all = true;
    for byte in bytes {
        all &= 0x20 <= *byte && *byte <= 0x7E;
    }
    all
}
