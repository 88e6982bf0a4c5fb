//! What the words of a superblock are found to be.
ghost use Rattle.std.specs.Prelude.{◌≡◌, ◌||◌, ◌*◌, ◌+◌, ◌-◌, true, false, IfSome, None, nat_lt};
ghost use Rattle.store_model.specs.Layout.{is_between, is_allowed, floor64, ring_blocks};

use crate::errors::SuperError;
use crate::geometry::Geometry;
use crate::superblock::Super;
use damage::Evidence;

/// The magic word of a store: word 0 of line 0 of its NVM, whose bytes from the lowest to the highest are `SPITFIR1`. With any
/// other word there, `read_super` answers `NotAStore`.
pub const MAGIC: u64 = 0x3152_4946_5449_5053;

/// The largest tail with which a store is opened: 2^61.
const LAST_TAIL: u64 = 0x2000_0000_0000_0000;

/// The words of a superblock: the magic word; the five sizes, the start, `drained` and the tail.
#[derive(Clone, Copy)]
pub(crate) struct Found {
    pub(crate) name: u64,
    pub(crate) words: [u64; 8],
}

ghost use Rattle.nvm_layout.specs.Sizes.{sizes_of};
ghost use Rattle.nvm_layout.specs.Gates.{gates_of};
ghost use Rattle.nvm_layout.specs.Opening.{IsAnswer, finding, gates_finding, out_of_order, super_from, sizes_from};

/// What these words are, on devices of these sizes.
pub(crate) fn judged(found: &Found, lines: u64, blocks: u64) -> Result<Super, SuperError>
    ensures { IsAnswer found.now.name found.now.words
        (finding lines blocks (super_from found.now.name found.now.words)) result }
{
    if found.name != MAGIC {
        return Err(SuperError::NotAStore);
    }
    match geometry_of(&found.words) {
        Some(geometry) => fitted(geometry, found, lines, blocks),
        None => Err(SuperError::Damaged(evidence(&found.words, 1))),
    }
}

/// What they are where the ranges are right.
fn fitted(geometry: Geometry, found: &Found, lines: u64, blocks: u64) -> Result<Super, SuperError>
    requires name { found.now.name ≡ MAGIC }
    requires sizes { sizes_of geometry ≡ (super_from found.now.name found.now.words).sizes }
    requires allowed { is_allowed (sizes_of geometry) ≡ true }
    ensures { IsAnswer found.now.name found.now.words
        (finding lines blocks (super_from found.now.name found.now.words)) result }
{
    if lines < geometry.nvm_lines() || blocks < geometry.ssd_blocks() {
        return Err(SuperError::TooSmall);
    }
    gated(geometry, found)
}

/// What the gates are, where the sizes are right and fit the devices.
fn gated(geometry: Geometry, found: &Found) -> Result<Super, SuperError>
    requires name { found.now.name ≡ MAGIC }
    requires sizes { sizes_of geometry ≡ (super_from found.now.name found.now.words).sizes }
    ensures { IsAnswer found.now.name found.now.words
        (gates_finding (super_from found.now.name found.now.words)) result }
{
    let gates = Super {
        geometry,
        start: found.words[5],
        drained: found.words[6],
        tail: found.words[7],
    };
    if gates.tail > LAST_TAIL {
        return Err(SuperError::LogEnded);
    }
    if is_out_of_order(&gates) {
        return Err(SuperError::Damaged(evidence(&found.words, 2)));
    }
    if gates.tail - gates.drained > 64 * geometry.log_blocks as u64 {
        return Err(SuperError::Damaged(evidence(&found.words, 3)));
    }
    if gates.drained > gates.start / 64 * 64 + 64 * geometry.ring_blocks() {
        return Err(SuperError::Damaged(evidence(&found.words, 4)));
    }
    Ok(gates)
}

/// Whether the start or `drained` is above the tail, or `drained` is no multiple of 64.
fn is_out_of_order(gates: &Super) -> bool
    ensures { result ≡ out_of_order (gates_of gates.now) }
{
    gates.start > gates.tail || (gates.drained > gates.tail || gates.drained % 64 != 0)
}

/// The geometry of the first five words, where each is in its range.
fn geometry_of(words: &[u64; 8]) -> Option<Geometry>
    ensures some { IfSome result
        (λ g. (sizes_of g ≡ sizes_from words.now) × (is_allowed (sizes_of g) ≡ true)) }
    ensures none { result ≡ None → is_allowed (sizes_from words.now) ≡ false }
{
    if !is_allowed(words) {
        return None;
    }
    Some(Geometry {
        tables: words[0] as u32,
        rows: words[1],
        writes: words[2] as u32,
        frames: words[3] as u32,
        log_blocks: words[4] as u32,
    })
}

/// Whether each of the first five words is in its range.
fn is_allowed(words: &[u64; 8]) -> bool
    ensures { result ≡ is_allowed (sizes_from words.now) }
{
    is_between(1, 62, words[0])
        && (is_between(1, 1_000_000, words[1])
            && (is_between(1, 1024, words[2])
                && (is_between(0, 65_535, words[3]) && is_between(2, 1024, words[4]))))
}

fn is_between(low: u64, high: u64, number: u64) -> bool
    ensures { result ≡ is_between low high number }
{
    low <= number && number <= high
}

fn evidence(words: &[u64; 8], check: u8) -> Evidence
    ensures { result ≡ Evidence.Super words.now check }
{
    Evidence::Super {
        words: *words,
        check,
    }
}
