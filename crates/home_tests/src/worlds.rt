//! A small store over a world in memory, and calls on it whose arguments are tested before.
ghost use Rattle.std.specs.Prelude.{◌≡◌, ◌≤◌, true};
ghost use Rattle.store_model.specs.Layout.{nvm_lines, ssd_blocks};
ghost use Rattle.nvm_layout.specs.Sizes.{sizes_of};

use devices::{Devices, Fault, MemWorld};
use home_move::{install, read_frame, read_home_block, release, store_line};
use line_pages::{page_line, set_page_line};
use nvm_layout::{Geometry, MAGIC};
use nvm_model::{Choice, Line};
use ssd_model::{BlockChoice, PageBuf};
use std::alloc::Global;
use std::test::Fail;

/// One table of two rows: ten pages, and two frames beside the one through which pages pass.
pub(crate) fn small() -> Geometry
    ensures { result.frames ≡ 2 }
{
    Geometry {
        tables: 1,
        rows: 2,
        writes: 1,
        frames: 2,
        log_blocks: 2,
    }
}

/// Whether the store fits the devices.
pub(crate) fn fits<D: Devices>(dev: &D, geometry: &Geometry) -> bool
    ensures lines { result ≡ true → nvm_lines (sizes_of geometry.now) ≤ (D.standing dev.now).lines }
    ensures blocks { result ≡ true → ssd_blocks (sizes_of geometry.now) ≤ (D.standing dev.now).blocks }
{
    geometry.nvm_lines() <= dev.nvm_lines() && geometry.ssd_blocks() <= dev.ssd_blocks()
}

/// A page of this byte.
pub(crate) fn filled(byte: u8) -> PageBuf {
    let mut page = PageBuf::zero();
    for at in 0..4096 {
        page.set_byte(at, byte);
    }
    page
}

/// A world with an empty log and an empty frame table, and page p of bytes p.
pub(crate) fn start(alloc: Global) -> Result<MemWorld, Fail> {
    let geometry = small();
    let lines = geometry.nvm_lines();
    let blocks = geometry.ssd_blocks();
    let mut first = MemWorld::new(alloc, lines, blocks, b"", b"", &[])?;
    fill(&mut first, &geometry)?;
    again(alloc, &first, &[])
}

fn fill<D: Devices>(dev: &mut D, geometry: &Geometry) -> Result<(), Fail> {
    if dev.nvm_lines() == 0 {
        return Err("no line")?;
    }
    let head = Line {
        words: [MAGIC, 1, 2, 1, 2, 2, 0, 0],
    };
    dev.store_line(0, &head)?;
    for page in 0..geometry.pages() {
        write_page(dev, geometry, page)?;
    }
    Ok(())
}

fn write_page<D: Devices>(dev: &mut D, geometry: &Geometry, page: u64) -> Result<(), Fail> {
    if page >= geometry.pages() || !fits(dev, geometry) {
        return Err("no such page")?;
    }
    dev.write_block(geometry.page_block(page), &filled((page % 256) as u8))?;
    Ok(())
}

/// Each choice of words and each of blocks, in pairs.
pub(crate) const CHOICES: [(Choice, BlockChoice); 4] = [
    (Choice::Oldest, BlockChoice::Settled),
    (Choice::Newest, BlockChoice::Current),
    (Choice::Alternating, BlockChoice::Alternating),
    (Choice::Oldest, BlockChoice::Fill(0xA5)),
];

/// How the record of a log ended.
#[derive(Clone, Copy, Debug, PartialEq, Eq, Drop)]
pub(crate) enum Ended {
    /// By a commit: replay writes the line after.
    Committed,
    /// Not at all: replay writes the line before.
    Open,
}

/// The line that the record names, before and after.
pub(crate) const BEFORE: Line = Line { words: [70; 8] };

pub(crate) const AFTER: Line = Line { words: [71; 8] };

/// The first world, with one record in its log, of this line.
pub(crate) fn logged(alloc: Global, page: u64, line: u64, ended: Ended) -> Result<MemWorld, Fail> {
    let mut first = start(alloc)?;
    let head = Line {
        words: [1, page, line, 0, 0, 0, 0, 0],
    };
    put_log(&mut first, 0, &head)?;
    put_log(&mut first, 1, &BEFORE)?;
    put_log(&mut first, 2, &AFTER)?;
    let tail = match ended {
        Ended::Committed => 4,
        Ended::Open => 3,
    };
    let commit = Line {
        words: [2, 0, 0, 0, 0, 0, 0, 0],
    };
    put_log(&mut first, 3, &commit)?;
    put_tail(&mut first, tail)?;
    again(alloc, &first, &[])
}

fn put_log<D: Devices>(dev: &mut D, offset: u64, value: &Line) -> Result<(), Fail> {
    let geometry = small();
    if !fits(dev, &geometry) {
        return Err("no such line")?;
    }
    dev.store_line(geometry.ring_line(offset), value)?;
    Ok(())
}

fn put_tail<D: Devices>(dev: &mut D, tail: u64) -> Result<(), Fail> {
    if dev.nvm_lines() <= 3 {
        return Err("no line 3")?;
    }
    let value = Line {
        words: [tail, 0, 0, 0, 0, 0, 0, 0],
    };
    dev.store_line(3, &value)?;
    Ok(())
}

fn log_line<D: Devices>(dev: &mut D, offset: u64) -> Result<Line, Fail> {
    let geometry = small();
    if !fits(dev, &geometry) {
        return Err("no such line")?;
    }
    Ok(dev.load(geometry.ring_line(offset))?)
}

/// The page and line of the record in the log, and what replay writes there; or none, where the log is empty.
fn replayed<D: Devices>(dev: &mut D) -> Result<Option<(u64, u64, Line)>, Fail> {
    if dev.nvm_lines() <= 3 {
        return Err("no line 3")?;
    }
    let tail = dev.load(3)?.words[0];
    let head = log_line(dev, 0)?;
    let value = match tail {
        0 => return Ok(None),
        4 => log_line(dev, 2)?,
        _ => log_line(dev, 1)?,
    };
    Ok(Some((head.words[1], head.words[2], value)))
}

/// The bytes of a page as recovery gives them: its home, with the line that replay writes.
pub(crate) fn page_of<D: Devices>(dev: &mut D, page: u64) -> Result<PageBuf, Fail> {
    let mut bytes = home_of(dev, page)?;
    if let Some((there, line, value)) = replayed(dev)? {
        if there == page && line < 64 {
            set_page_line(&mut bytes, line as usize, &value);
        }
    }
    Ok(bytes)
}

/// A world with the contents of another one as it is now, and with these faults.
pub(crate) fn again(alloc: Global, world: &MemWorld, fail: &[Fault]) -> Result<MemWorld, Fail> {
    let images = world.images_at(alloc, world.events(), Choice::Newest, BlockChoice::Current)?;
    Ok(MemWorld::from_images(alloc, &images, b"", b"", fail)?)
}

/// What a crash leaves after so many events.
pub(crate) fn left(
    alloc: Global,
    world: &MemWorld,
    events: u64,
    words: Choice,
    blocks: BlockChoice,
) -> Result<MemWorld, Fail> {
    if events > world.events() {
        return Err("no such event")?;
    }
    let images = world.images_at(alloc, events, words, blocks)?;
    Ok(MemWorld::from_images(alloc, &images, b"", b"", &[])?)
}

/// Puts a page into a frame.
pub(crate) fn put<D: Devices>(
    dev: &mut D,
    frame: u32,
    page: u64,
    bytes: &PageBuf,
) -> Result<(), Fail> {
    let geometry = small();
    if frame > geometry.frames || page >= geometry.pages() || !fits(dev, &geometry) {
        return Err("no such place")?;
    }
    install(dev, &geometry, frame, page, bytes)?;
    Ok(())
}

/// Gives up the page of a frame.
pub(crate) fn give_up<D: Devices>(
    dev: &mut D,
    frame: u32,
    page: u64,
    write: bool,
) -> Result<(), Fail> {
    let geometry = small();
    if frame > geometry.frames || page >= geometry.pages() || !fits(dev, &geometry) {
        return Err("no such place")?;
    }
    release(dev, &geometry, frame, page, write)?;
    Ok(())
}

/// Stores a line of a frame.
pub(crate) fn store<D: Devices>(
    dev: &mut D,
    frame: u32,
    line: usize,
    value: &Line,
) -> Result<(), Fail> {
    let geometry = small();
    if frame > geometry.frames || line >= 64 || !fits(dev, &geometry) {
        return Err("no such place")?;
    }
    store_line(dev, &geometry, frame, line, value)?;
    Ok(())
}

/// The entry of a frame.
pub(crate) fn entry<D: Devices>(dev: &mut D, geometry: &Geometry, frame: u32) -> Result<u64, Fail> {
    if frame > geometry.frames || !fits(dev, geometry) {
        return Err("no such frame")?;
    }
    let (line, word) = geometry.table_word(frame);
    let found = dev.load(line)?;
    Ok(found.words[word])
}

/// The bytes of a page at its home.
fn home_of<D: Devices>(dev: &mut D, page: u64) -> Result<PageBuf, Fail> {
    let geometry = small();
    if page >= geometry.pages() {
        return Err("no such page")?;
    }
    let wanted = page + 1;
    for frame in 0..geometry.frames + 1 {
        let named = entry(dev, &geometry, frame)?;
        if named == wanted {
            return frame_bytes(dev, &geometry, frame);
        }
    }
    block_bytes(dev, &geometry, page)
}

fn block_bytes<D: Devices>(dev: &mut D, geometry: &Geometry, page: u64) -> Result<PageBuf, Fail> {
    let mut bytes = PageBuf::zero();
    if page >= geometry.pages() || !fits(dev, geometry) {
        return Err("no such page")?;
    }
    read_home_block(dev, geometry, page, &mut bytes)?;
    Ok(bytes)
}

fn frame_bytes<D: Devices>(dev: &mut D, geometry: &Geometry, frame: u32) -> Result<PageBuf, Fail> {
    let mut bytes = PageBuf::zero();
    if frame > geometry.frames || !fits(dev, geometry) {
        return Err("no such frame")?;
    }
    read_frame(dev, geometry, frame, &mut bytes)?;
    Ok(bytes)
}

/// Whether two pages have the same lines.
pub(crate) fn same_lines(first: &PageBuf, second: &PageBuf) -> bool {
    for line in 0..64 {
        if page_line(first, line) != page_line(second, line) {
            return false;
        }
    }
    true
}
