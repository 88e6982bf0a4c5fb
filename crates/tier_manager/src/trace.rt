//! What a run tells of its accesses: a buffer of lines, all of whose memory is taken when it is made.
ghost use Rattle.std.specs.Prelude.{◌≡◌, ◌≤◌, IfOk, nat_lt};
ghost use Rattle.std.specs.Vec.{vec_capacity};
ghost use Rattle.tier_manager.specs.Sizes.{trace_room};

use nvm_layout::Geometry;
use nvm_model::NoMemory;
use std::alloc::Global;
use tier_rules::TraceLine;

/// How many lines of the trace a transaction may need for each of its writes, and how many besides.
const LINES_OF_A_WRITE: usize = 640;

const LINES_BESIDES: usize = 32_768;

/// The lines that were told since the trace was cleared, as far as there is room.
#[derive(Drop)]
pub struct Trace {
    lines: Vec<TraceLine>,
    room: usize,
    ghost taken: { room ≤ vec_capacity lines },
}

/// How many lines a trace has room for.
fn room_of(geometry: &Geometry, trace: bool) -> usize
    ensures { result ≡ trace_room geometry.now trace }
{
    if trace {
        LINES_OF_A_WRITE * geometry.writes as usize + LINES_BESIDES
    } else {
        0
    }
}

impl Trace {
    ghost use Rattle.tier_manager.specs.Telling.{told_in, nothing_told, told_with};

    /// A trace with room for what a transaction tells, or, where none is wanted, with no room.
    pub(crate) fn new(alloc: Global, geometry: &Geometry, trace: bool) -> Result<Trace, NoMemory>
        ensures { IfOk result (λ made. told_in made ≡ nothing_told (trace_room geometry.now trace)) }
    {
        let room = room_of(geometry, trace);
        Ok(Trace {
            lines: Vec::with_capacity(alloc, room)?,
            room,
        })
    }

    /// The lines that were told.
    pub(crate) fn lines(&self) -> &[TraceLine]
        ensures { result.now ≡ (told_in self.now).lines }
    {
        &self.lines
    }

    /// Whether lines are told at all.
    pub(crate) fn is_kept(&self) -> bool
        ensures { result ≡ nat_lt 0 (told_in self.now).room }
    {
        self.room > 0
    }

    /// One line more, where there is room.
    pub(crate) fn tell(&mut self, line: TraceLine)
        ensures { told_in self.new ≡ told_with line (told_in self.old) }
    {
        if self.lines.len() < self.room {
            self.lines.push_reserved(line);
        }
    }

    /// No line is told.
    pub(crate) fn clear(&mut self)
        ensures { told_in self.new ≡ nothing_told (told_in self.old).room }
    {
        self.lines.clear();
    }
}
