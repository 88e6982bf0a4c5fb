//! The file of the NVM: loads of lines that are remembered ask nothing of the system, and stores are gathered until a
//! fence comes, or a store that finds no room.
ghost use Rattle.std.specs.Prelude.{◌≡◌, ◌<◌, ◌+◌, None, Ok, IfOk, IsOk, OnOk, OnErr};
ghost use Rattle.nvm_model.specs.declared.line.Line.{Line};
ghost use Rattle.device_files.specs.FileWorld.{told_lines};
ghost use Rattle.device_files.specs.DeviceFile.{LoadsLine};
ghost use Rattle.device_files.specs.Gathered.{IsEmpty};
ghost use Rattle.device_files.specs.LineMemory.{Recalls, IsUnknown, Learns};
ghost use Rattle.device_files.specs.NvmFile.{Loads, Stores, StoresWord, Hands, InChunk};

use crate::device_file::DeviceFile;
use crate::line_bytes::{CHUNK_BYTES, CHUNK_LINES, NVM_LINES, line_of_chunk, start_of_line};
use crate::line_memory::LineMemory;
use crate::positioned::PositionedFile;
use crate::run::Run;
use crate::writing::write_lines;
use nvm_model::Line;
use std::io;
use std::rt::Files;

/// The file of the NVM, and what is remembered of its lines. Two buffers are there for the work alone: the chunk that was read
/// last, and the run that was written last.
#[derive(Drop)]
pub struct NvmFile<'a, R: Files> {
    pub device: DeviceFile<'a, R>,
    pub memory: LineMemory,
    chunk: [u8; CHUNK_BYTES],
    run: Run,
}

impl<'a, R: Files> NvmFile<'a, R>
where
    R::File: PositionedFile,
{
    /// The file of this name, which is not opened yet.
    pub fn new(rt: &'a R, name: &'a str) -> NvmFile<'a, R>
        ensures closed { result.device.file ≡ None }
        ensures empty { IsEmpty result.memory.gathered }
    {
        NvmFile {
            device: DeviceFile::new(rt, name),
            memory: LineMemory::new(),
            chunk: [0; CHUNK_BYTES],
            run: Run::new(),
        }
    }

    /// The line as it was stored last.
    pub fn load(&mut self, line: u64) -> io::Result<Line>
        requires { line < told_lines }
        ensures known { (value : Line) → Recalls self.old.memory.gathered self.old.memory.cache line value → result ≡ Ok value }
        ensures found { IfOk result (λ found. Loads R.File.known_bytes line self.old.device.file self.new.device.file self.old.memory self.new.memory found) }
        ensures unchanged { OnErr result (self.new.memory ≡ self.old.memory) }
    {
        match self.memory.get(line) {
            Some(known) => Ok(known),
            None => self.load_unknown(line),
        }
    }

    /// Reads a line of which nothing is remembered with those beside it, and keeps them.
    fn load_unknown(&mut self, line: u64) -> io::Result<Line>
        requires line { line < told_lines }
        requires unknown { IsUnknown self.old.memory.gathered self.old.memory.cache line }
        ensures found { IfOk result (λ found. Loads R.File.known_bytes line self.old.device.file self.new.device.file self.old.memory self.new.memory found) }
        ensures unchanged { OnErr result (self.new.memory ≡ self.old.memory) }
    {
        let place = (line % CHUNK_LINES as u64) as usize;
        let first = line - place as u64;
        self.device.read_at(start_of_line(first), &mut self.chunk)?;
        Ok(learn_chunk(&mut self.memory, first, &self.chunk, place))
    }

    /// Gathers the line with this value. Where there is no room, what is gathered is written first.
    pub fn store_line(&mut self, line: u64, value: &Line) -> io::Result<()>
        requires { line < told_lines }
        ensures stored { OnOk result (Stores R.File.known_bytes line value.now self.old.device.file self.new.device.file self.old.memory self.new.memory) }
        ensures unchanged { OnErr result (self.new.memory ≡ self.old.memory) }
    {
        if self.memory.put(line, value) {
            return Ok(());
        }
        self.write_gathered()?;
        let _taken = self.memory.put(line, value);
        Ok(())
    }

    /// Gathers the line with one word changed.
    pub fn store_word(&mut self, line: u64, word: usize, value: u64) -> io::Result<()>
        requires line { line < told_lines }
        requires word { word < 8 }
        ensures stored { OnOk result (StoresWord R.File.known_bytes line word value self.old.device.file self.new.device.file self.old.memory self.new.memory) }
        ensures unchanged { OnErr result (self.new.memory.gathered ≡ self.old.memory.gathered) }
    {
        let mut changed = self.load(line)?;
        changed.words[word] = value;
        self.store_line(line, &changed)
    }

    /// Writes what is gathered. After an error all of it is still gathered.
    pub fn write_gathered(&mut self) -> io::Result<()>
        ensures written { OnOk result (Hands R.File.known_bytes self.old.device.file self.new.device.file self.old.memory self.new.memory) }
        ensures unchanged { OnErr result (self.new.memory ≡ self.old.memory) }
        ensures idle { IsEmpty self.old.memory.gathered → IsOk result }
    {
        if self.memory.gathered.is_empty() {
            return Ok(());
        }
        let mut file = self.device.opened()?;
        let memory = &self.memory;
        let result = write_lines(&mut file, memory.gathered.lines(), &mut self.run);
        self.device.file = Some(file);
        result?;
        self.memory.written();
        Ok(())
    }
}

/// Keeps those lines of a chunk, from `first` on, of which nothing is known, and answers the line that stands at `place`.
fn learn_chunk(memory: &mut LineMemory, first: u64, chunk: &[u8; CHUNK_BYTES], place: usize) -> Line
    requires place { place < 64 }
    requires line { first + place < told_lines }
    ensures found { InChunk first chunk.now (first + place) result }
    ensures now { IsUnknown memory.old.gathered memory.old.cache (first + place) → Recalls memory.new.gathered memory.new.cache (first + place) result }
    ensures learns { Learns (InChunk first chunk.now) memory.old.gathered memory.old.cache memory.new.gathered memory.new.cache }
{
    let found = line_of_chunk(chunk, place);
    memory.learn(first + place as u64, &found);
    'lines: for i in 0..CHUNK_LINES {
        let line = first + i as u64;
        if i != place && line < NVM_LINES {
            memory.learn(line, &line_of_chunk(chunk, i));
        }
    }
    found
}
