//! The bytes of a page, which are also those of a block.
ghost use Rattle.std.specs.Prelude.{◌≡◌, ◌<◌, ◌≤◌, ◌+◌, ℕ, List, length, slice_index, slice_set, slice_range};
ghost use Rattle.ssd_model.specs.Page.{zero_page, filled_page, Same, Moved};

use std::marker::Model;

/// The 4,096 bytes of a page, or of a block of the disk. Contracts see the list of them.
#[derive(Drop)]
pub struct PageBuf {
    bytes: [u8; 4096],
}

impl Model for PageBuf {
    ghost Value = { List ℕ };

    ghost view = { λ page. page.bytes };
}

impl PageBuf {
    /// A page of zeros.
    #[tactic(auto, unfolding(crate::specs::Page::zero_page))]
    pub fn zero() -> PageBuf
        ensures value { result ≡ zero_page }
        ensures size { length result ≡ 4096 }
    {
        PageBuf { bytes: [0; 4096] }
    }

    /// The same bytes once more.
    pub fn copy(&self) -> PageBuf
        ensures value { result ≡ self.now }
        ensures size { length self.now ≡ 4096 }
    {
        PageBuf { bytes: self.bytes }
    }

    /// The byte at a place below 4,096.
    pub fn byte(&self, at: usize) -> u8
        requires { at < 4096 }
        ensures value { result ≡ slice_index self.now at }
        ensures size { length self.now ≡ 4096 }
    {
        self.bytes[at]
    }

    /// Makes the byte at a place below 4,096 this one.
    pub fn set_byte(&mut self, at: usize, value: u8)
        requires { at < 4096 }
        ensures value { self.new ≡ slice_set self.old at value }
        ensures size { length self.new ≡ 4096 }
        ensures size_old { length self.old ≡ 4096 }
    {
        self.bytes[at] = value;
    }

    /// All bytes, in order.
    pub fn bytes(&self) -> &[u8]
        ensures bytes { result.now ≡ self.now }
        ensures size { length self.now ≡ 4096 }
    {
        &self.bytes
    }

    /// The bytes from one place up to another.
    pub fn part(&self, from: usize, end: usize) -> &[u8]
        requires order { from ≤ end }
        requires within { end ≤ 4096 }
        ensures value { result.now ≡ slice_range self.now from end }
        ensures size { length self.now ≡ 4096 }
    {
        &self.bytes[from..end]
    }

    /// Puts bytes at a place.
    pub fn set_part(&mut self, at: usize, value: &[u8])
        requires { at + length value.now ≤ 4096 }
        ensures value { slice_range self.new at (at + length value.now) ≡ value.now }
        ensures before { Same 0 at self.old self.new }
        ensures after { Same (at + length value.now) 4096 self.old self.new }
        ensures size { length self.new ≡ 4096 }
        ensures size_old { length self.old ≡ 4096 }
    {
        put_bytes(&mut self.bytes, at, value);
    }

    /// Moves the bytes from `from` up to `end` to the place `to`.
    pub fn shift(&mut self, from: usize, end: usize, to: usize)
        requires order { from ≤ end }
        requires within { end ≤ 4096 }
        requires room { to + end ≤ 4096 + from }
        ensures moved { Moved from end to self.old self.new }
        ensures before { Same 0 to self.old self.new }
        ensures after { (past : ℕ) → past + from ≡ to + end → Same past 4096 self.old self.new }
        ensures size { length self.new ≡ 4096 }
        ensures size_old { length self.old ≡ 4096 }
    {
        move_bytes(&mut self.bytes, from, end, to);
    }

    /// Makes all bytes this one.
    #[tactic(auto, unfolding(crate::specs::Page::filled_page))]
    pub fn fill(&mut self, value: u8)
        ensures value { self.new ≡ filled_page value }
        ensures size { length self.new ≡ 4096 }
    {
        self.bytes = [value; 4096];
    }

    /// Makes the bytes those of another page.
    pub fn copy_from(&mut self, from: &PageBuf)
        ensures value { self.new ≡ from.now }
        ensures size { length self.new ≡ 4096 }
        ensures size_from { length from.now ≡ 4096 }
    {
        let bytes = from.bytes;
        self.bytes = bytes;
    }
}

fn put_bytes(bytes: &mut [u8], at: usize, value: &[u8])
    requires { at + length value.now ≤ length bytes.old }
    ensures value { slice_range bytes.new at (at + length value.now) ≡ value.now }
    ensures before { Same 0 at bytes.old bytes.new }
    ensures after { Same (at + length value.now) (length bytes.old) bytes.old bytes.new }
    ensures size { length bytes.new ≡ length bytes.old }
{
    let end = at + value.len();
    bytes[at..end].copy_from_slice(value);
}

fn move_bytes(bytes: &mut [u8], from: usize, end: usize, to: usize)
    requires order { from ≤ end }
    requires within { end ≤ length bytes.old }
    requires room { to + end ≤ length bytes.old + from }
    ensures moved { Moved from end to bytes.old bytes.new }
    ensures before { Same 0 to bytes.old bytes.new }
    ensures after { (past : ℕ) → past + from ≡ to + end
        → Same past (length bytes.old) bytes.old bytes.new }
    ensures size { length bytes.new ≡ length bytes.old }
{
    bytes.copy_within(from..end, to);
}
