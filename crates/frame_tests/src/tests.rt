//! What is put is read again, masks tell which lines are there, and sixteen lines are promoted.
ghost use Rattle.std.specs.Prelude.{◌≡◌, ◌<◌, length};
ghost use Rattle.page_frame.specs.Arena.{frames_of};
ghost use Rattle.mini_page.specs.Minis.{minis_of};

use line_pages::{page_line, set_page_line};
use mini_page::{LineMask, MiniArena, MiniFull};
use nvm_model::{Line, NoMemory};
use page_frame::FrameArena;
use ssd_model::PageBuf;

/// How many frames there may be, and how many mini pages.
const MOST: u32 = 65_536;

/// The resident and the dirty lines of a mask.
fn sets(mask: LineMask) -> (u64, u64) {
    (mask.resident, mask.dirty)
}

fn numbered(number: u64) -> Line {
    Line { words: [number; 8] }
}

/// A line of a frame, if it is resident.
fn read(frames: &FrameArena, frame: u32, line: usize) -> Option<Line>
    requires frame { frame < length (frames_of frames.now) }
    requires line { line < 64 }
{
    if (frames.resident(frame) >> line) & 1 == 0 {
        return None;
    }
    Some(frames.line(frame, line))
}

/// Adds a line to a mini page, where it is not resident.
fn add_line(minis: &mut MiniArena, mini: u32, line: usize) -> Result<(), MiniFull>
    requires mini { mini < length (minis_of minis.old) }
    requires line { line < 64 }
    ensures { length (minis_of minis.new) ≡ length (minis_of minis.old) }
{
    if (minis.mask(mini).resident >> line) & 1 == 1 {
        return Ok(());
    }
    minis.add(mini, line, &numbered(line as u64))
}

/// Adds the first sixteen lines.
fn add_sixteen(minis: &mut MiniArena, mini: u32) -> Result<(), MiniFull>
    requires { mini < length (minis_of minis.old) }
    ensures { length (minis_of minis.new) ≡ length (minis_of minis.old) }
{
    for line in 0..16 {
        add_line(minis, mini, line)?;
    }
    Ok(())
}

/// Adds the first sixteen lines to each of as many mini pages as there may be.
fn add_to_each(minis: &mut MiniArena) -> Result<(), MiniFull>
    requires { length (minis_of minis.old) ≡ MOST }
    ensures { length (minis_of minis.new) ≡ MOST }
{
    for mini in 0..MOST {
        add_sixteen(minis, mini)?;
    }
    Ok(())
}

/// Whether each of them has these lines, of which the last is found.
fn each_is_full(minis: &MiniArena) -> bool
    requires { length (minis_of minis.now) ≡ MOST }
{
    for mini in 0..MOST {
        if minis.mask(mini).resident != 65535 || minis.find(mini, 15) != Some(numbered(15)) {
            return false;
        }
    }
    true
}

/// Puts one line with a number of its own into each of as many frames as there may be.
fn put_in_each(frames: &mut FrameArena)
    requires { length (frames_of frames.old) ≡ MOST }
    ensures { length (frames_of frames.new) ≡ MOST }
{
    for frame in 0..MOST {
        frames.set_line(frame, (frame % 64) as usize, &numbered(u64::from(frame)));
    }
}

/// Whether each of them has this line and no other.
fn each_has_its_line(frames: &FrameArena) -> bool
    requires { length (frames_of frames.now) ≡ MOST }
{
    for frame in 0..MOST {
        let line = (frame % 64) as usize;
        if frames.resident(frame) != 1 << line
            || read(frames, frame, line) != Some(numbered(u64::from(frame)))
        {
            return false;
        }
    }
    true
}

/// Changes a line of the first mini page, if it is resident.
fn set_line(minis: &mut MiniArena, line: usize, number: u64)
    requires some { 0 < length (minis_of minis.old) }
    requires line { line < 64 }
    ensures { length (minis_of minis.new) ≡ length (minis_of minis.old) }
{
    if (minis.mask(0).resident >> line) & 1 == 1 {
        minis.set(0, line, &numbered(number));
    }
}

/// Promotes the first mini page into the first frame, if that is empty, and answers its sets before.
fn promote(minis: &mut MiniArena, frames: &mut FrameArena) -> Option<(u64, u64)>
    requires some { 0 < length (minis_of minis.old) }
    requires frame { 0 < length (frames_of frames.old) }
    ensures minis { length (minis_of minis.new) ≡ length (minis_of minis.old) }
    ensures frames { length (frames_of frames.new) ≡ length (frames_of frames.old) }
{
    if frames.resident(0) != 0 {
        return None;
    }
    Some(sets(minis.promote_into(0, frames, 0)))
}

#[test]
fn frames_keep_what_is_put(rt: HostRuntime) -> Result<(), NoMemory> {
    let mut frames = FrameArena::new(rt.alloc(), 2)?;
    assert_eq!(rt; frames.resident(0), 0);
    frames.set_line(1, 0, &numbered(5));
    frames.set_line(1, 63, &numbered(6));
    frames.set_line(1, 0, &numbered(7));
    assert_eq!(rt; frames.resident(0), 0);
    assert_eq!(rt; frames.resident(1), 0x8000_0000_0000_0001);
    assert_eq!(rt; frames.line(1, 0), numbered(7));
    assert_eq!(rt; frames.lend(1, 63).words[7], 6);
    frames.clear(1);
    assert_eq!(rt; frames.resident(1), 0);
    Ok(())
}

#[test]
fn a_filled_frame_holds_each_line_of_its_page(rt: HostRuntime) -> Result<(), NoMemory> {
    let mut page = PageBuf::zero();
    set_page_line(&mut page, 9, &numbered(90));
    let mut frames = FrameArena::new(rt.alloc(), 3)?;
    frames.set_line(2, 9, &numbered(1));
    frames.fill(2, &page);
    assert_eq!(rt; frames.resident(2), u64::MAX);
    assert_eq!(rt; frames.line(2, 9), page_line(&page, 9));
    assert_eq!(rt; frames.line(2, 8), numbered(0));
    assert_eq!(rt; frames.resident(1), 0);
    Ok(())
}

#[test]
fn a_promotion_moves_exactly_sixteen_lines(rt: HostRuntime) -> Result<(), NoMemory> {
    let mut minis = MiniArena::new(rt.alloc(), 1)?;
    let mut frames = FrameArena::new(rt.alloc(), 1)?;
    assert_eq!(rt; add_sixteen(&mut minis, 0), Ok(()));
    assert_eq!(rt; add_line(&mut minis, 0, 16), Err(MiniFull));
    assert_eq!(rt; add_line(&mut minis, 0, 40), Err(MiniFull));
    set_line(&mut minis, 3, 33);
    assert_eq!(rt; minis.find(0, 3), Some(numbered(33)));
    assert_eq!(rt; minis.find(0, 16), None);
    let mask = promote(&mut minis, &mut frames);
    assert_eq!(rt; mask, Some((65535, 8)));
    assert_eq!(rt; frames.resident(0), 65535);
    assert_eq!(rt; read(&frames, 0, 3), Some(numbered(33)));
    assert_eq!(rt; read(&frames, 0, 15), Some(numbered(15)));
    assert_eq!(rt; read(&frames, 0, 16), None);
    assert_eq!(rt; sets(minis.mask(0)), (0, 0));
    Ok(())
}

#[test]
fn a_mini_page_is_cleaned_and_cleared(rt: HostRuntime) -> Result<(), NoMemory> {
    let mut minis = MiniArena::new(rt.alloc(), 1)?;
    assert_eq!(rt; add_line(&mut minis, 0, 63), Ok(()));
    set_line(&mut minis, 63, 2);
    assert_eq!(rt; minis.mask(0).dirty, 0x8000_0000_0000_0000);
    minis.clean(0);
    assert_eq!(rt; minis.mask(0).dirty, 0);
    assert_eq!(rt; minis.find(0, 63), Some(numbered(2)));
    minis.clear(0);
    assert_eq!(rt; minis.find(0, 63), None);
    Ok(())
}

/// 256 MB, of which each frame's line is in a page of the system of its own.
#[test]
fn the_most_frames_keep_a_line_each(rt: HostRuntime) -> Result<(), NoMemory> {
    let mut frames = FrameArena::new(rt.alloc(), MOST)?;
    put_in_each(&mut frames);
    assert!(rt; each_has_its_line(&frames));
    frames.fill(MOST - 1, &PageBuf::zero());
    assert_eq!(rt; frames.resident(MOST - 1), u64::MAX);
    assert_eq!(rt; read(&frames, MOST - 1, 0), Some(numbered(0)));
    frames.clear(MOST - 2);
    assert_eq!(rt; frames.resident(MOST - 2), 0);
    assert_eq!(rt; frames.resident(MOST - 3), 1 << 61);
    Ok(())
}

/// 64 MB, and a table of 4 MB.
#[test]
fn the_most_mini_pages_keep_sixteen_lines_each(rt: HostRuntime) -> Result<(), NoMemory> {
    let mut minis = MiniArena::new(rt.alloc(), MOST)?;
    assert_eq!(rt; sets(minis.mask(MOST - 1)), (0, 0));
    assert_eq!(rt; add_to_each(&mut minis), Ok(()));
    assert!(rt; each_is_full(&minis));
    assert_eq!(rt; add_line(&mut minis, MOST - 1, 16), Err(MiniFull));
    Ok(())
}
