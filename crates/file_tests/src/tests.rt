//! A world of files, whose files are compared with what was stored, and a script and an output that follow steps.
ghost use Rattle.std.specs.Prelude.{◌≤◌, IfOk};

use device_files::FileWorld;
use devices::{Devices, Failed, World};
use nvm_model::Line;
use ssd_model::PageBuf;
use std::alloc::Allocator;
use std::fmt::Display;
use std::fs::{File, Metadata, OpenOptions};
use std::io::{BufRead, ErrorKind, Lines, Read};
use std::rt::Files;
use std::test::Fail;
use std::{fs, io};

/// What a call of a stream does.
#[derive(Clone, Copy)]
enum Step {
    /// It gives or takes at most so many bytes.
    Moves(usize),
    /// A signal interrupts it.
    Interrupts,
    /// It fails.
    Breaks,
}

/// A reader of 1, 2, 3 .. which follows a list of steps, and then ends.
#[derive(Drop)]
struct Stream<'a> {
    steps: &'a [Step],
    next: u8,
}

impl<'a> Stream<'a> {
    fn new(steps: &'a [Step]) -> Stream<'a> {
        Stream { steps, next: 0 }
    }

    /// How many bytes the next call moves, at most as many as there is room.
    fn step(&mut self, room: usize) -> io::Result<usize>
        ensures { IfOk result (λ count. count ≤ room) }
    {
        let Some((first, others)) = self.steps.split_first() else {
            return Ok(0);
        };
        self.steps = others;
        match first {
            Step::Moves(count) => Ok(room.min(*count)),
            Step::Interrupts => Err(io::Error::from(ErrorKind::Interrupted)),
            Step::Breaks => Err(io::Error::from(ErrorKind::Other)),
        }
    }
}

impl Read for Stream<'_> {
    fn read(&mut self, buf: &mut [u8]) -> io::Result<usize> {
        let count = self.step(buf.len())?;
        for byte in &mut buf[..count] {
            self.next = self.next.wrapping_add(1);
            *byte = self.next;
        }
        Ok(count)
    }
}

/// A runtime with the host's files, a script that follows steps, and an output whose every call does the same step.
#[derive(Drop)]
struct Edge<'a> {
    host: &'a HostRuntime,
    script: &'a [Step],
    sink: Step,
}

impl Files for Edge<'_> {
    type File = File;

    type Dir = <HostRuntime as Files>::Dir;

    fn open_file(&self, how: &OpenOptions, path: &str) -> io::Result<File> {
        self.host.open_file(how, path)
    }

    fn open_dir(&self, path: &str) -> io::Result<<HostRuntime as Files>::Dir> {
        self.host.open_dir(path)
    }

    fn metadata(&self, path: &str) -> io::Result<Metadata> {
        self.host.metadata(path)
    }

    fn symlink_metadata(&self, path: &str) -> io::Result<Metadata> {
        self.host.symlink_metadata(path)
    }

    fn copy(&self, from: &str, to: &str) -> io::Result<u64> {
        self.host.copy(from, to)
    }

    fn rename(&self, from: &str, to: &str) -> io::Result<()> {
        self.host.rename(from, to)
    }

    fn remove_file(&self, path: &str) -> io::Result<()> {
        self.host.remove_file(path)
    }

    fn create_dir(&self, path: &str) -> io::Result<()> {
        self.host.create_dir(path)
    }

    fn remove_dir(&self, path: &str) -> io::Result<()> {
        self.host.remove_dir(path)
    }

    fn remove_dir_all<B: Allocator>(&self, alloc: B, path: &str) -> io::Result<()> {
        self.host.remove_dir_all(alloc, path)
    }
}

impl BufRead for Stream<'_> {
    fn fill_buf(&mut self) -> io::Result<&[u8]> {
        Err(io::Error::from(ErrorKind::Unsupported))
    }

    fn consume(&mut self, _amount: usize) {}
}

impl<'a> Input for Edge<'a> {
    type Reader = Stream<'a>;

    fn read_line<A: Allocator + Clone>(&self, _buf: &mut String<A>) -> io::Result<usize> {
        Err(io::Error::from(ErrorKind::Unsupported))
    }

    fn lines<A: Allocator>(&self, alloc: A) -> Lines<Stream<'a>, A> {
        self.reader().lines(alloc)
    }

    fn reader(&self) -> Stream<'a> {
        Stream::new(self.script)
    }
}

impl Print for Edge<'_> {
    fn print<D: Display + Drop>(&self, _value: D) -> io::Result<()> {
        Err(io::Error::from(ErrorKind::Unsupported))
    }

    fn println<D: Display + Drop>(&self, _value: D) -> io::Result<()> {
        Err(io::Error::from(ErrorKind::Unsupported))
    }

    fn write_all(&self, _bytes: &[u8]) -> io::Result<()> {
        Err(io::Error::from(ErrorKind::Unsupported))
    }

    fn write_some(&self, bytes: &[u8]) -> io::Result<usize> {
        match self.sink {
            Step::Moves(count) => Ok(bytes.len().min(count)),
            Step::Interrupts => Err(io::Error::from(ErrorKind::Interrupted)),
            Step::Breaks => Err(io::Error::from(ErrorKind::Other)),
        }
    }
}

#[test]
fn scripts_come_in_pieces_and_fail(rt: HostRuntime) {
    let script = [
        Step::Moves(1),
        Step::Interrupts,
        Step::Moves(1),
        Step::Breaks,
        Step::Moves(2),
    ];
    let edge = Edge {
        host: &rt,
        script: &script,
        sink: Step::Moves(1),
    };
    let mut world = FileWorld::new(&edge);
    let mut into = [0u8; 4];
    assert_eq!(rt; world.read(&mut into), Ok(1));
    assert_eq!(rt; world.read(&mut into), Ok(1));
    assert_eq!(rt; into[0], 2);
    assert_eq!(rt; world.read(&mut into), Err(Failed));
    assert_eq!(rt; world.read(&mut into), Ok(2));
    assert_eq!(rt; world.read(&mut into), Ok(0));
    assert_eq!(rt; world.write(&[7; 4]), Ok(1));
}

#[test]
fn outputs_that_fail_are_told(rt: HostRuntime) {
    for sink in [Step::Breaks, Step::Moves(0)] {
        let edge = Edge {
            host: &rt,
            script: &[],
            sink,
        };
        let mut world = FileWorld::new(&edge);
        assert_eq!(rt; world.write(&[7; 4]), Err(Failed));
        assert_eq!(rt; world.write(&[7; 4]), Err(Failed));
    }
}

/// Lines 0 and 1 were never written, and line 2 has the words 1 to 7, little-endian, and then one of eight bytes.
fn expected_file() -> [u8; 192] {
    let mut bytes = [0u8; 192];
    for i in 1u8..8 {
        bytes[120 + 8 * i as usize] = i;
        bytes[192 - i as usize] = i;
    }
    bytes[184] = 8;
    bytes
}

/// The tests of files begin without them, since all work in one folder.
fn remove_files(rt: &HostRuntime) {
    let _ = fs::remove_file(rt, "nvm.img");
    let _ = fs::remove_file(rt, "ssd.img");
    let _ = fs::remove_file(rt, "spitfire.toml");
}

/// Whether there is a file of this name.
fn stands(rt: &HostRuntime, name: &str) -> bool {
    fs::open(rt, name).is_ok()
}

fn counted_line(i: u64) -> Line {
    Line {
        words: [i, 1, 2, 3, 4, 5, 6, 7],
    }
}

/// What is stored is read back before and behind the fence, and stands in the file behind it.
#[test]
fn lines_stand_in_the_file(rt: HostRuntime) -> Result<(), Fail> {
    remove_files(&rt);
    let mut world = FileWorld::new(&rt);
    let line = Line {
        words: [1, 2, 3, 4, 5, 6, 7, 8],
    };
    let last = Line {
        words: [1, 2, 3, 4, 5, 6, 7, 0x0102_0304_0506_0708],
    };
    assert!(rt; !stands(&rt, "nvm.img"));
    assert_eq!(rt; world.load(2), Ok(Line { words: [0; 8] }));
    assert_eq!(rt; world.store_line(2, &line), Ok(()));
    assert_eq!(rt; world.store_word(2, 7, 0x0102_0304_0506_0708), Ok(()));
    assert_eq!(rt; world.load(2), Ok(last));
    assert_eq!(rt; world.flush(2), Ok(()));
    assert_eq!(rt; world.fence(), Ok(()));
    let bytes = fs::read(&rt, "nvm.img")?;
    assert!(rt; bytes.as_slice() == expected_file().as_slice());
    assert_eq!(rt; world.load(2), Ok(last));
    assert_eq!(rt; world.load(4_268_047), Ok(Line { words: [0; 8] }));
    Ok(())
}

/// Runs that were stored in any order, and single lines between them, are each written where they stand.
#[test]
fn runs_stand_in_the_file(rt: HostRuntime) -> Result<(), Fail> {
    remove_files(&rt);
    let mut world = FileWorld::new(&rt);
    for i in [40, 41, 42, 3, 50, 10, 11, 43, 9, 41] {
        assert_eq!(rt; world.store_line(i, &counted_line(i)), Ok(()));
    }
    assert_eq!(rt; world.fence(), Ok(()));
    let bytes = fs::read(&rt, "nvm.img")?;
    let stored = [3, 9, 10, 11, 40, 41, 42, 43, 50];
    assert_eq!(rt; bytes.len(), 51 * 64);
    for (i, line) in bytes.as_slice().chunks(64).enumerate() {
        let first = if stored.contains(&i) { i as u8 } else { 0 };
        let last = if stored.contains(&i) { 7 } else { 0 };
        assert_eq!(rt; line.first(), Some(&first));
        assert_eq!(rt; line.get(56), Some(&last));
    }
    Ok(())
}

/// More lines than are gathered at once, lines that share a slot, and lines that are no neighbours, across two worlds.
#[test]
fn lines_outlive_their_world(rt: HostRuntime) -> Result<(), Fail> {
    remove_files(&rt);
    let mut world = FileWorld::new(&rt);
    for i in 10..610 {
        assert_eq!(rt; world.store_line(i, &counted_line(i)), Ok(()));
    }
    assert_eq!(rt; world.store_line(4096 + 600, &counted_line(9)), Ok(()));
    assert_eq!(rt; world.load(600), Ok(counted_line(600)));
    assert_eq!(rt; world.store_word(20, 0, 77), Ok(()));
    assert_eq!(rt; world.store_line(4_268_047, &counted_line(5)), Ok(()));
    assert_eq!(rt; world.fence(), Ok(()));
    let mut next = FileWorld::new(&rt);
    for i in 21..610 {
        assert_eq!(rt; next.load(i), Ok(counted_line(i)));
    }
    assert_eq!(rt; next.load(20), Ok(counted_line(77)));
    assert_eq!(rt; next.load(4096 + 600), Ok(counted_line(9)));
    assert_eq!(rt; next.load(600), Ok(counted_line(600)));
    assert_eq!(rt; next.load(4_268_047), Ok(counted_line(5)));
    assert_eq!(rt; next.load(9), Ok(Line { words: [0; 8] }));
    Ok(())
}

/// A line that is gathered gives its value, also where its slot was taken.
#[test]
fn gathered_lines_are_loaded(rt: HostRuntime) -> Result<(), Fail> {
    remove_files(&rt);
    let mut world = FileWorld::new(&rt);
    assert_eq!(rt; world.store_line(3, &counted_line(3)), Ok(()));
    assert_eq!(rt; world.load(4099), Ok(Line { words: [0; 8] }));
    assert_eq!(rt; world.load(3), Ok(counted_line(3)));
    Ok(())
}

#[test]
fn blocks_outlive_their_world(rt: HostRuntime) -> Result<(), Fail> {
    remove_files(&rt);
    let mut world = FileWorld::new(&rt);
    assert_eq!(rt; world.sync(), Ok(()));
    assert!(rt; !stands(&rt, "ssd.img"));
    let mut page = PageBuf::zero();
    page.fill(7);
    page.set_byte(4095, 9);
    assert_eq!(rt; world.write_block(2, &page), Ok(()));
    assert_eq!(rt; world.sync(), Ok(()));
    let bytes = fs::read(&rt, "ssd.img")?;
    assert_eq!(rt; bytes.len(), 12_288);
    let mut next = FileWorld::new(&rt);
    let mut found = PageBuf::zero();
    assert_eq!(rt; next.read_block(2, &mut found), Ok(()));
    assert_eq!(rt;
        (found.byte(0), found.byte(4094), found.byte(4095)),
        (7, 7, 9)
    );
    assert_eq!(rt; next.read_block(0, &mut found), Ok(()));
    assert_eq!(rt; found.byte(4095), 0);
    found.fill(1);
    assert_eq!(rt; next.read_block(31_033_268, &mut found), Ok(()));
    assert_eq!(rt; (found.byte(0), found.byte(4095)), (0, 0));
    Ok(())
}

#[test]
fn settings_are_read_once(rt: HostRuntime) -> Result<(), Fail> {
    remove_files(&rt);
    let mut into = [0u8; 4];
    let mut world = FileWorld::new(&rt);
    assert_eq!(rt; world.read_settings(&mut into), Ok(0));
    assert!(rt; !stands(&rt, "spitfire.toml"));
    fs::write(&rt, "spitfire.toml", "dr = 1")?;
    assert_eq!(rt; world.read_settings(&mut into), Ok(0));
    let mut next = FileWorld::new(&rt);
    assert_eq!(rt; next.read_settings(&mut into), Ok(4));
    assert!(rt; into == *b"dr =");
    assert_eq!(rt; next.read_settings(&mut into), Ok(2));
    assert!(rt; into == *b" 1 =");
    assert_eq!(rt; next.read_settings(&mut into), Ok(0));
    Ok(())
}

/// Folders in the place of the files: each call fails and counts, and a store that no fence wrote stays gathered.
#[test]
fn folders_for_files_fail(rt: HostRuntime) -> Result<(), Fail> {
    remove_files(&rt);
    for name in ["nvm.img", "ssd.img", "spitfire.toml"] {
        fs::create_dir(&rt, name)?;
    }
    let mut world = FileWorld::new(&rt);
    let mut page = PageBuf::zero();
    assert_eq!(rt; world.load(0), Err(Failed));
    assert_eq!(rt; world.store_word(0, 1, 2), Err(Failed));
    assert_eq!(rt; world.store_line(5, &counted_line(5)), Ok(()));
    assert_eq!(rt; world.fence(), Err(Failed));
    for i in 6..69 {
        assert_eq!(rt; world.store_line(i, &counted_line(i)), Ok(()));
    }
    assert_eq!(rt; world.store_line(99, &counted_line(99)), Err(Failed));
    assert_eq!(rt; world.load(5), Ok(counted_line(5)));
    assert_eq!(rt; world.read_block(0, &mut page), Err(Failed));
    assert_eq!(rt; world.write_block(0, &page), Err(Failed));
    assert_eq!(rt; world.read_settings(&mut [0u8; 4]), Err(Failed));
    assert_eq!(rt; world.read_settings(&mut [0u8; 4]), Err(Failed));
    for name in ["nvm.img", "ssd.img", "spitfire.toml"] {
        fs::remove_dir(&rt, name)?;
    }
    assert_eq!(rt; world.fence(), Ok(()));
    let mut next = FileWorld::new(&rt);
    assert_eq!(rt; next.load(5), Ok(counted_line(5)));
    assert_eq!(rt; next.load(68), Ok(counted_line(68)));
    assert_eq!(rt; next.load(99), Ok(Line { words: [0; 8] }));
    Ok(())
}

#[test]
fn sizes_are_the_most_that_a_store_needs(rt: HostRuntime) {
    let world = FileWorld::new(&rt);
    assert_eq!(rt; world.nvm_lines(), 4_268_048);
    assert_eq!(rt; world.ssd_blocks(), 31_033_269);
}
