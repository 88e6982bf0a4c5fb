//! Reads and writes at a position that move few bytes at a time, are interrupted, or fail.
ghost use Rattle.std.specs.Prelude.{◌≤◌, IfOk};

use crate::positioned::{PositionedFile, drain_at, fill_at};
use std::cell::Cell;
use std::io;
use std::io::ErrorKind;
use std::test::Fail;

/// What a call does.
#[derive(Clone, Copy)]
enum Step {
    /// It moves at most so many bytes.
    Moves(usize),
    /// A signal interrupts it.
    Interrupts,
    /// It fails.
    Breaks,
}

/// A file whose byte at a position is one more than that, and whose calls follow a list of steps. Behind them it ends, and
/// takes nothing.
#[derive(Drop)]
struct Pieces<'a> {
    steps: &'a [Step],
    calls: Cell<usize>,
}

impl<'a> Pieces<'a> {
    fn new(steps: &'a [Step]) -> Pieces<'a> {
        Pieces {
            steps,
            calls: Cell::new(0),
        }
    }

    /// How many bytes the next call moves, at most as many as there is room.
    fn step(&self, room: usize) -> io::Result<usize>
        ensures { IfOk result (λ count. count ≤ room) }
    {
        let call = self.calls.get();
        self.calls.set(call.wrapping_add(1));
        match self.steps.get(call) {
            Some(Step::Moves(count)) => Ok(room.min(*count)),
            Some(Step::Interrupts) => Err(io::Error::from(ErrorKind::Interrupted)),
            Some(Step::Breaks) => Err(io::Error::from(ErrorKind::Other)),
            None => Ok(0),
        }
    }
}

impl PositionedFile for Pieces<'_> {
    fn read_some_at(&self, start: u64, into: &mut [u8]) -> io::Result<usize> {
        let count = self.step(into.len())?;
        for i in 0..count {
            into[i] = start.wrapping_add(i as u64).wrapping_add(1).to_le_bytes()[0];
        }
        Ok(count)
    }

    fn write_some_at(&mut self, _start: u64, bytes: &[u8]) -> io::Result<usize> {
        self.step(bytes.len())
    }
}

#[test]
fn short_reads_are_made_whole(rt: HostRuntime) -> Result<(), Fail> {
    let steps = [
        Step::Moves(3),
        Step::Interrupts,
        Step::Interrupts,
        Step::Moves(1),
    ];
    let mut bytes = [9u8; 6];
    fill_at(&Pieces::new(&steps), 4, &mut bytes)?;
    assert_eq!(rt; bytes, [5, 6, 7, 8, 0, 0]);
    let mut few = [9u8; 2];
    fill_at(&Pieces::new(&steps), 0, &mut few)?;
    assert_eq!(rt; few, [1, 2]);
    Ok(())
}

#[test]
fn short_writes_are_made_whole(rt: HostRuntime) -> Result<(), Fail> {
    let steps = [
        Step::Moves(3),
        Step::Interrupts,
        Step::Moves(1),
        Step::Moves(9),
    ];
    let mut pieces = Pieces::new(&steps);
    drain_at(&mut pieces, 0, &[7; 6])?;
    assert_eq!(rt; pieces.calls.get(), 4);
    Ok(())
}

#[test]
fn broken_files_answer_an_error(rt: HostRuntime) {
    let broken = [Step::Moves(2), Step::Breaks, Step::Moves(9)];
    assert!(rt; fill_at(&Pieces::new(&broken), 0, &mut [0u8; 6]).is_err());
    assert!(rt; drain_at(&mut Pieces::new(&broken), 0, &[7; 6]).is_err());
    let ends = [Step::Moves(2)];
    assert!(rt; drain_at(&mut Pieces::new(&ends), 0, &[7; 6]).is_err());
}
