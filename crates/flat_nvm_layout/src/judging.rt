//! What the words of a superblock are found to be.
ghost use Rattle.std.specs.Prelude.{◌≡◌, ◌+◌, ◌*◌, ◌&&◌, nat_le, true, false, IfSome, None};
ghost use Rattle.flat_store_meaning.specs.Layout.{is_between, in_ranges, is_allowed, pages};

use crate::errors::SuperError;
use crate::geometry::Geometry;
use crate::superblock::Super;
use damage::Evidence;

/// The magic word of a store: word 0 of line 0 of its NVM, whose bytes from the lowest to the highest are `SPITFIR1`. With any
/// other word there, `read_super` answers `NotAStore`.
pub const MAGIC: u64 = 0x3152_4946_5449_5053;

/// The largest tail with which a store is opened: 2^61.
const LAST_TAIL: u64 = 0x2000_0000_0000_0000;

/// The words of a superblock: the magic word; the five sizes, the start, `drained` and the tail.
#[derive(Clone, Copy)]
pub(crate) struct Found {
    pub(crate) name: u64,
    pub(crate) words: [u64; 8],
}

ghost use Rattle.flat_nvm_layout.specs.Sizes.{sizes_of};
ghost use Rattle.flat_nvm_layout.specs.Opening.{IsAnswer, finding, gates_finding, super_from, sizes_from};

/// What these words are, on devices of these sizes.
pub(crate) fn judged(found: &Found, lines: u64, blocks: u64) -> Result<Super, SuperError>
    ensures { IsAnswer found.now.name found.now.words
        (finding lines blocks (super_from found.now.name found.now.words)) result }
{
    if found.name != MAGIC {
        return Err(SuperError::NotAStore);
    }
    match geometry_of(&found.words) {
        Some(geometry) => fitted(geometry, found, lines, blocks),
        None => Err(SuperError::Damaged(evidence(&found.words, 1))),
    }
}

/// What they are where the ranges are right.
fn fitted(geometry: Geometry, found: &Found, lines: u64, blocks: u64) -> Result<Super, SuperError>
    requires name { found.now.name ≡ MAGIC }
    requires sizes { sizes_of geometry ≡ (super_from found.now.name found.now.words).sizes }
    requires allowed { is_allowed (sizes_of geometry) ≡ true }
    ensures { IsAnswer found.now.name found.now.words
        (finding lines blocks (super_from found.now.name found.now.words)) result }
{
    if lines < geometry.nvm_lines() || blocks < geometry.ssd_blocks() {
        return Err(SuperError::TooSmall);
    }
    gated(geometry, found)
}

/// What the start and the tail are, where the sizes are right and fit the devices.
fn gated(geometry: Geometry, found: &Found) -> Result<Super, SuperError>
    requires name { found.now.name ≡ MAGIC }
    requires sizes { sizes_of geometry ≡ (super_from found.now.name found.now.words).sizes }
    ensures { IsAnswer found.now.name found.now.words
        (gates_finding (super_from found.now.name found.now.words)) result }
{
    let start = found.words[5];
    let tail = found.words[7];
    if tail > LAST_TAIL {
        return Err(SuperError::LogEnded);
    }
    if start > tail {
        return Err(SuperError::Damaged(evidence(&found.words, 2)));
    }
    if tail - start > 64 * geometry.log_blocks as u64 {
        return Err(SuperError::Damaged(evidence(&found.words, 3)));
    }
    Ok(Super {
        geometry,
        start,
        drained: 0,
        tail,
    })
}

/// The geometry of the first five words, where it is allowed.
fn geometry_of(words: &[u64; 8]) -> Option<Geometry>
    ensures some { IfSome result
        (λ g. (sizes_of g ≡ sizes_from words.now) × (is_allowed (sizes_of g) ≡ true)) }
    ensures none { result ≡ None → is_allowed (sizes_from words.now) ≡ false }
{
    if !in_ranges(words) {
        return None;
    }
    let geometry = Geometry {
        tables: words[0] as u32,
        rows: words[1],
        writes: words[2] as u32,
        frames: words[3] as u32,
        log_blocks: words[4] as u32,
    };
    if fits(&geometry) {
        Some(geometry)
    } else {
        None
    }
}

/// Whether each of the first five words is in its range.
fn in_ranges(words: &[u64; 8]) -> bool
    ensures { result ≡ in_ranges (sizes_from words.now) }
{
    is_between(1, 62, words[0])
        && (is_between(1, 1_000_000, words[1])
            && (is_between(1, 1024, words[2])
                && (is_between(0, 65_535, words[3]) && is_between(2, 1024, words[4]))))
}

fn is_between(low: u64, high: u64, number: u64) -> bool
    ensures { result ≡ is_between low high number }
{
    low <= number && number <= high
}

/// Whether each page has its frame, and the ring takes the longest transaction.
fn fits(geometry: &Geometry) -> bool
    ensures { result
        ≡ (nat_le (pages (sizes_of geometry.now)) geometry.now.frames && nat_le
        (1920 * geometry.now.writes + 1) (64 * geometry.now.log_blocks)) }
{
    geometry.pages() <= geometry.frames as u64
        && 1920 * geometry.writes as u64 + 1 <= 64 * geometry.log_blocks as u64
}

fn evidence(words: &[u64; 8], check: u8) -> Evidence
    ensures { result ≡ Evidence.Super words.now check }
{
    Evidence::Super {
        words: *words,
        check,
    }
}
