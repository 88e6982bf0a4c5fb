//! What is measured: calls over 4,096 frames, which are 16 MB, and over as many mini pages, in an order that jumps about.
ghost use Rattle.std.specs.Prelude.{◌≡◌, ◌≤◌, ◌<◌, length};
ghost use Rattle.page_frame.specs.Arena.{frames_of};
ghost use Rattle.mini_page.specs.Minis.{minis_of};

use mini_page::MiniArena;
use nvm_model::{Line, NoMemory};
use page_frame::FrameArena;
use ssd_model::PageBuf;
use std::alloc::Global;
use std::io;

/// How many frames are made, and how many mini pages.
const COUNT: u32 = 65_536;

/// Over how many of them the calls go.
const SPREAD: u64 = 4096;

/// An odd number, whose multiples jump about.
const STRIDE: u64 = 0x9e37_79b1;

/// The frame, or mini page, and the line of the `i`-th call, where so many lines of each are there.
fn place(i: u64, lines: u64) -> (u32, usize)
    requires some { 0 < lines }
    requires few { lines ≤ 64 }
    ensures frame { result.0 < 4096 }
    ensures line { result.1 < lines }
{
    let place = i.wrapping_mul(STRIDE) % (SPREAD * lines);
    ((place / lines) as u32, (place % lines) as usize)
}

/// Why the program ended early.
#[derive(Debug, Drop)]
pub enum Ended {
    Memory,
    Print(io::Error),
    /// The first argument names nothing that is measured.
    NoTask,
    /// The second argument is no number.
    NoNumber,
}

impl From<NoMemory> for Ended {
    fn from(_error: NoMemory) -> Ended {
        Ended::Memory
    }
}

impl From<io::Error> for Ended {
    fn from(error: io::Error) -> Ended {
        Ended::Print(error)
    }
}

/// What is done as often as the second argument says.
#[derive(Clone, Copy, Debug)]
pub enum Task {
    /// `FrameArena::new` of 65,536 frames, which are put away again.
    Frames,
    /// `MiniArena::new` of 65,536 mini pages, which are put away again.
    Minis,
    /// `set_line`.
    Put,
    /// `resident` and `line`, of which each word is read.
    Line,
    /// `fill`.
    Fill,
    /// `find`, where the line is there.
    Find,
}

impl Task {
    /// The task of this name.
    pub fn named(word: &str) -> Option<Task> {
        if word == "frames" {
            Some(Task::Frames)
        } else if word == "minis" {
            Some(Task::Minis)
        } else if word == "put" {
            Some(Task::Put)
        } else if word == "line" {
            Some(Task::Line)
        } else if word == "fill" {
            Some(Task::Fill)
        } else if word == "find" {
            Some(Task::Find)
        } else {
            None
        }
    }

    /// Does it so often. The answer is a sum of what was read.
    pub fn perform(self, alloc: Global, count: u64) -> Result<u64, NoMemory> {
        match self {
            Task::Frames => make_frames(alloc, count),
            Task::Minis => make_minis(alloc, count),
            Task::Put => put_alone(alloc, count),
            Task::Line => put_and_sum(alloc, count),
            Task::Fill => fill_alone(alloc, count),
            Task::Find => add_and_find(alloc, count),
        }
    }
}

/// Makes as many frames as there may be, so often.
fn make_frames(alloc: Global, count: u64) -> Result<u64, NoMemory> {
    let mut resident = 0;
    for _ in 0..count {
        let frames = FrameArena::new(alloc, COUNT)?;
        resident |= frames.resident(COUNT - 1);
    }
    Ok(resident)
}

/// Makes as many mini pages as there may be, so often.
fn make_minis(alloc: Global, count: u64) -> Result<u64, NoMemory> {
    let mut resident = 0;
    for _ in 0..count {
        let minis = MiniArena::new(alloc, COUNT)?;
        resident |= minis.mask(COUNT - 1).resident;
    }
    Ok(resident)
}

/// Puts lines.
fn put_alone(alloc: Global, count: u64) -> Result<u64, NoMemory> {
    let mut frames = FrameArena::new(alloc, COUNT)?;
    put_lines(&mut frames, count);
    Ok(0)
}

/// Puts each line, and reads so many.
fn put_and_sum(alloc: Global, count: u64) -> Result<u64, NoMemory> {
    let mut frames = FrameArena::new(alloc, COUNT)?;
    put_lines(&mut frames, SPREAD * 64);
    Ok(sum_lines(&frames, count))
}

/// Fills frames.
fn fill_alone(alloc: Global, count: u64) -> Result<u64, NoMemory> {
    let mut frames = FrameArena::new(alloc, COUNT)?;
    fill_frames(&mut frames, count);
    Ok(0)
}

/// Adds sixteen lines to each mini page, and looks for so many.
fn add_and_find(alloc: Global, count: u64) -> Result<u64, NoMemory> {
    let mut minis = MiniArena::new(alloc, COUNT)?;
    add_lines(&mut minis);
    Ok(find_lines(&minis, count))
}

/// The sum of the words of a line, without carries.
fn sum(line: &Line) -> u64 {
    let [first, second, third, fourth, fifth, sixth, seventh, eighth] = line.words;
    first ^ second ^ third ^ fourth ^ fifth ^ sixth ^ seventh ^ eighth
}

/// Puts lines into the frames.
fn put_lines(frames: &mut FrameArena, count: u64)
    requires { 4096 ≤ length (frames_of frames.old) }
    ensures { 4096 ≤ length (frames_of frames.new) }
{
    for i in 0..count {
        let (frame, line) = place(i, 64);
        frames.set_line(frame, line, &Line { words: [i; 8] });
    }
}

/// Reads lines of the frames.
fn sum_lines(frames: &FrameArena, count: u64) -> u64
    requires { 4096 ≤ length (frames_of frames.now) }
{
    let mut read = 0;
    for i in 0..count {
        let (frame, line) = place(i, 64);
        if (frames.resident(frame) >> line) & 1 == 1 {
            read ^= sum(&frames.line(frame, line));
        }
    }
    read
}

/// Fills the frames with a page.
fn fill_frames(frames: &mut FrameArena, count: u64)
    requires { 4096 ≤ length (frames_of frames.old) }
{
    let page = PageBuf::zero();
    for i in 0..count {
        frames.fill((i % SPREAD) as u32, &page);
    }
}

/// Adds the first sixteen lines of the mini pages.
fn add_lines(minis: &mut MiniArena)
    requires { 4096 ≤ length (minis_of minis.old) }
    ensures { 4096 ≤ length (minis_of minis.new) }
{
    for i in 0..SPREAD * 16 {
        let (mini, line) = place(i, 16);
        if (minis.mask(mini).resident >> line) & 1 == 0 {
            let _ = minis.add(mini, line, &Line { words: [i; 8] });
        }
    }
}

/// Looks for lines of the mini pages, where each is there.
fn find_lines(minis: &MiniArena, count: u64) -> u64
    requires { 4096 ≤ length (minis_of minis.now) }
{
    let mut read = 0;
    for i in 0..count {
        let (mini, line) = place(i, 16);
        if let Some(line) = minis.find(mini, line) {
            read ^= sum(&line);
        }
    }
    read
}
