//! Bytes that are read from the front.
ghost use Rattle.std.specs.Prelude.{◌≡◌, ◌<◌, ◌≤◌, length, drop};
ghost use Rattle.devices.specs.World.{TakesNext};

use std::cmp::min;

/// Bytes, of which the first ones were read.
#[derive(Drop)]
pub(crate) struct Stream {
    pub(crate) bytes: Vec<u8>,
    pub(crate) taken: usize,
    ghost within: { taken ≤ length bytes.items },
}

impl Stream {
    /// Takes the next bytes, as many as there are or as `into` takes.
    pub(crate) fn take_next(&mut self, into: &mut [u8]) -> usize
        requires { 0 < length into.old }
        ensures bound { result ≤ length into.new }
        ensures takes { TakesNext (drop self.old.taken self.old.bytes.items)
            (drop self.new.taken self.new.bytes.items) result into.new }
    {
        let count = min(into.len(), self.bytes.len() - self.taken);
        into[..count].copy_from_slice(&self.bytes[self.taken..self.taken + count]);
        self.taken += count;
        count
    }
}
