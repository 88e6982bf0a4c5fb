//! A world of files: the NVM is the file `nvm.img` of the working folder, the disk `ssd.img`, and the settings are
//! `spitfire.toml`; script and output are the standard streams.
ghost use Rattle.std.specs.Prelude.{◌<◌, ◌+◌, ◌^◌, OnOk};
ghost use Rattle.device_files.specs.DeviceFile.{ReadsAt};

use crate::counts::{CallCounts, fault, raise};
use crate::device_file::DeviceFile;
use crate::line_bytes::{NVM_LINES, start_of_block};
use crate::nvm_file::NvmFile;
use crate::positioned::PositionedFile;
use crate::settings_file::SettingsFile;
use crate::streams::{read_some, write_some};
use devices::{Devices, Failed, World};
use nvm_model::Line;
use ssd_model::PageBuf;
use std::io;
use std::rt::Files;

const SSD_BLOCKS: u64 = 31_033_269;

/// A world of files. Nothing is told of what they hold.
#[derive(Drop)]
pub struct FileWorld<'a, R: Files + Input + Print> {
    rt: &'a R,
    nvm: NvmFile<'a, R>,
    ssd: DeviceFile<'a, R>,
    settings: SettingsFile<'a, R>,
    script: R::Reader,
    pub(crate) counts: CallCounts,
}

impl<R: Files + Input + Print> FileWorld<'_, R>
where
    R::File: PositionedFile,
{
    ghost use Rattle.std.specs.Prelude.{◌≡◌, None};
    ghost use Rattle.device_files.specs.FileWorld.{no_counts};
    ghost use Rattle.device_files.specs.Gathered.{IsEmpty};

    /// The world of the working folder and the standard streams. No file is opened before its first use.
    pub fn new(rt: &R) -> FileWorld<'_, R>
        ensures counts { result.counts ≡ no_counts }
        ensures nvm { result.nvm.device.file ≡ None }
        ensures ssd { result.ssd.file ≡ None }
        ensures settings { result.settings.file ≡ None }
        ensures empty { IsEmpty result.nvm.memory.gathered }
    {
        FileWorld {
            rt,
            nvm: NvmFile::new(rt, "nvm.img"),
            ssd: DeviceFile::new(rt, "ssd.img"),
            settings: SettingsFile::new(rt, "spitfire.toml"),
            script: rt.reader(),
            counts: CallCounts::new(),
        }
    }
}

impl<R: Files + Input + Print> Devices for FileWorld<'_, R>
where
    R::File: PositionedFile,
{
    ghost use Rattle.std.specs.Prelude.{◌≡◌, ℕ, None, IsTrue, IsOk, IfOk, OnErr, Ok};
    ghost use Rattle.devices.specs.State.{line_at};
    ghost use Rattle.devices.specs.State.Call.{store_word, store_line, flush, fence, write_block, sync};
    ghost use Rattle.devices.specs.World.{now, Goes, Stays, Makes, NvmCause, SsdCause, Counts};
    ghost use Rattle.device_files.specs.LineBytes.{block_start};
    ghost use Rattle.device_files.specs.DeviceFile.{WritesAt};
    ghost use Rattle.device_files.specs.Gathered.{IsEmpty};
    ghost use Rattle.device_files.specs.LineMemory.{Recalls};
    ghost use Rattle.device_files.specs.NvmFile.{Loads, Stores, StoresWord, Hands};
    ghost use Rattle.nvm_model.specs.declared.line.Line.{Line};
    ghost use Rattle.device_files.specs.FileWorld.{standing_of};

    ghost standing = { λ world. standing_of world.counts };

    fn nvm_lines(&self) -> u64 {
        NVM_LINES
    }

    fn ssd_blocks(&self) -> u64 {
        SSD_BLOCKS
    }

    fn load(&mut self, line: u64) -> Result<Line, Failed>
        requires { line < (standing_of self.old.counts).lines }
        ensures goes { Goes (standing_of self.old.counts) (standing_of self.new.counts) }
        ensures stays { Stays (standing_of self.old.counts) (standing_of self.new.counts) }
        ensures value { IsTrue (standing_of self.old.counts).told → IfOk result (λ found. found ≡ line_at (now (standing_of self.old.counts)) line) }
        ensures cause { NvmCause (standing_of self.old.counts) (standing_of self.new.counts) result }

        // where the file's type says what it holds
        ensures known { (found : Line) → Recalls self.old.nvm.memory.gathered self.old.nvm.memory.cache line found → result ≡ Ok found }
        ensures found { IfOk result (λ found. Loads R.File.known_bytes line self.old.nvm.device.file self.new.nvm.device.file self.old.nvm.memory self.new.nvm.memory found) }
        ensures unchanged { OnErr result (self.new.nvm.memory ≡ self.old.nvm.memory) }
    {
        match self.nvm.load(line) {
            Ok(found) => Ok(found),
            Err(_) => Err(fault(&mut self.counts.nvm_faults)),
        }
    }

    fn store_word(&mut self, line: u64, word: usize, value: u64) -> Result<(), Failed>
        requires line { line < (standing_of self.old.counts).lines }
        requires word { word < 8 }
        ensures goes { Goes (standing_of self.old.counts) (standing_of self.new.counts) }
        ensures makes { Makes (store_word line word value) (standing_of self.old.counts) (standing_of self.new.counts) result }
        ensures cause { NvmCause (standing_of self.old.counts) (standing_of self.new.counts) result }

        // where the file's type says what it holds
        ensures stored { OnOk result (StoresWord R.File.known_bytes line word value self.old.nvm.device.file self.new.nvm.device.file self.old.nvm.memory self.new.nvm.memory) }
        ensures unchanged { OnErr result (self.new.nvm.memory.gathered ≡ self.old.nvm.memory.gathered) }
    {
        match self.nvm.store_word(line, word, value) {
            Ok(()) => Ok(()),
            Err(_) => Err(fault(&mut self.counts.nvm_faults)),
        }
    }

    fn store_line(&mut self, line: u64, value: &Line) -> Result<(), Failed>
        requires { line < (standing_of self.old.counts).lines }
        ensures goes { Goes (standing_of self.old.counts) (standing_of self.new.counts) }
        ensures makes { Makes (store_line line value.now) (standing_of self.old.counts) (standing_of self.new.counts) result }
        ensures cause { NvmCause (standing_of self.old.counts) (standing_of self.new.counts) result }

        // where the file's type says what it holds
        ensures stored { OnOk result (Stores R.File.known_bytes line value.now self.old.nvm.device.file self.new.nvm.device.file self.old.nvm.memory self.new.nvm.memory) }
        ensures unchanged { OnErr result (self.new.nvm.memory ≡ self.old.nvm.memory) }
    {
        match self.nvm.store_line(line, value) {
            Ok(()) => Ok(()),
            Err(_) => Err(fault(&mut self.counts.nvm_faults)),
        }
    }

    /// The next fence writes all that is gathered, so there is nothing to do.
    fn flush(&mut self, _line: u64) -> Result<(), Failed>
        requires { _line < (standing_of self.old.counts).lines }
        ensures goes { Goes (standing_of self.old.counts) (standing_of self.new.counts) }
        ensures makes { Makes (flush _line) (standing_of self.old.counts) (standing_of self.new.counts) result }
        ensures cause { NvmCause (standing_of self.old.counts) (standing_of self.new.counts) result }
        ensures done { IsOk result }
        ensures memory { self.new.nvm ≡ self.old.nvm }
    {
        Ok(())
    }

    /// Writes what is gathered. What was written stays where the process stops.
    fn fence(&mut self) -> Result<(), Failed>
        ensures goes { Goes (standing_of self.old.counts) (standing_of self.new.counts) }
        ensures makes { Makes fence (standing_of self.old.counts) (standing_of self.new.counts) result }
        ensures or_not { OnErr result (Stays (standing_of self.old.counts) (standing_of self.new.counts)) }
        ensures cause { NvmCause (standing_of self.old.counts) (standing_of self.new.counts) result }

        // where the file's type says what it holds
        ensures written { OnOk result (Hands R.File.known_bytes self.old.nvm.device.file self.new.nvm.device.file self.old.nvm.memory self.new.nvm.memory) }
        ensures unchanged { OnErr result (self.new.nvm.memory ≡ self.old.nvm.memory) }
        ensures idle { IsEmpty self.old.nvm.memory.gathered → IsOk result }
    {
        match self.nvm.write_gathered() {
            Ok(()) => Ok(()),
            Err(_) => Err(fault(&mut self.counts.nvm_faults)),
        }
    }

    fn read_block(&mut self, block: u64, into: &mut PageBuf) -> Result<(), Failed>
        requires { block < (standing_of self.old.counts).blocks }
        ensures goes { Goes (standing_of self.old.counts) (standing_of self.new.counts) }
        ensures stays { Stays (standing_of self.old.counts) (standing_of self.new.counts) }
        ensures value { IsTrue (standing_of self.old.counts).told → OnOk result (into.new ≡ ((now (standing_of self.old.counts)).ssd block).bytes) }
        ensures cause { SsdCause (standing_of self.old.counts) (standing_of self.new.counts) result }
        ensures counts { Counts (standing_of self.old.counts) (standing_of self.new.counts) }

        // where the file's type says what it holds
        ensures found { OnOk result (ReadsAt R.File.known_bytes (block_start block) 4096 self.old.ssd.file self.new.ssd.file into.new) }
    {
        raise(&mut self.counts.block_reads);
        match read_page(&mut self.ssd, start_of_block(block), into) {
            Ok(()) => Ok(()),
            Err(_) => Err(fault(&mut self.counts.ssd_faults)),
        }
    }

    fn write_block(&mut self, block: u64, from: &PageBuf) -> Result<(), Failed>
        requires { block < (standing_of self.old.counts).blocks }
        ensures goes { Goes (standing_of self.old.counts) (standing_of self.new.counts) }
        ensures makes { Makes (write_block block from.now) (standing_of self.old.counts) (standing_of self.new.counts) result }
        ensures cause { SsdCause (standing_of self.old.counts) (standing_of self.new.counts) result }
        ensures reads { (standing_of self.new.counts).block_reads ≡ (standing_of self.old.counts).block_reads }

        // where the file's type says what it holds
        ensures written { OnOk result (WritesAt R.File.known_bytes (block_start block) self.old.ssd.file self.new.ssd.file from.now) }
    {
        match self.ssd.write_at(start_of_block(block), from.bytes()) {
            Ok(()) => Ok(()),
            Err(_) => Err(fault(&mut self.counts.ssd_faults)),
        }
    }

    /// Asks the system to sync the file, where a block was read or written.
    fn sync(&mut self) -> Result<(), Failed>
        ensures goes { Goes (standing_of self.old.counts) (standing_of self.new.counts) }
        ensures makes { Makes sync (standing_of self.old.counts) (standing_of self.new.counts) result }
        ensures or_not { OnErr result (Stays (standing_of self.old.counts) (standing_of self.new.counts)) }
        ensures cause { SsdCause (standing_of self.old.counts) (standing_of self.new.counts) result }
        ensures reads { (standing_of self.new.counts).block_reads ≡ (standing_of self.old.counts).block_reads }
        ensures file { self.new.ssd.file ≡ self.old.ssd.file }
        ensures unused { self.old.ssd.file ≡ None → IsOk result }
    {
        match self.ssd.sync() {
            Ok(()) => Ok(()),
            Err(_) => Err(fault(&mut self.counts.ssd_faults)),
        }
    }
}

impl<R: Files + Input + Print> World for FileWorld<'_, R>
where
    R::File: PositionedFile,
{
    ghost use Rattle.std.specs.Prelude.{◌≡◌, ◌<◌, ◌≤◌, ℕ, true, false, length, take, None, Ok, IsTrue, IfOk, IfSome, IsSome};
    ghost use Rattle.std.specs.Io.KnownBytes.{Consumes, IsAtEnd};
    ghost use Rattle.devices.specs.World.{WorldCall, OwnCause, ReadsNext, OnlyChanges};
    ghost use Rattle.device_files.specs.FileWorld.{standing_of};
    ghost use Rattle.device_files.specs.Laws.{timed_of};
    ghost use Rattle.device_files.specs.SettingsFile.{TakesOn};

    ghost timed = { λ world. timed_of world.counts };

    fn read_settings(&mut self, into: &mut [u8]) -> Result<usize, Failed>
        requires { 0 < length into.old }
        ensures call { WorldCall (standing_of self.old.counts) (standing_of self.new.counts) }
        ensures bound { IfOk result (λ count. count ≤ length into.new) }
        ensures cause { OwnCause self.old.counts.settings_faults self.new.counts.settings_faults result }
        ensures reads { ReadsNext (standing_of self.old.counts).told (standing_of self.old.counts).outside.settings (standing_of self.new.counts).outside.settings result into.new }
        ensures rest { OnlyChanges true false false (standing_of self.old.counts) (standing_of self.new.counts) }

        // where the file's type says what it has left
        ensures goes_on { IfSome self.old.settings.file (λ file. IfOk result (λ count. TakesOn R.File.remaining file self.new.settings.file count into.new)) }
        ensures absent { self.old.settings.file ≡ None → IsTrue self.old.settings.absent → result ≡ Ok 0 }
        ensures stays_absent { self.old.settings.absent ≡ true → self.new.settings.absent ≡ true }
        ensures opened { IfOk result (λ count. 0 < count → IsSome self.new.settings.file) }
    {
        match self.settings.read(into) {
            Ok(count) => Ok(count),
            Err(_) => Err(fault(&mut self.counts.settings_faults)),
        }
    }

    fn read(&mut self, into: &mut [u8]) -> Result<usize, Failed>
        requires { 0 < length into.old }
        ensures call { WorldCall (standing_of self.old.counts) (standing_of self.new.counts) }
        ensures bound { IfOk result (λ count. count ≤ length into.new) }
        ensures cause { OwnCause self.old.counts.source_faults self.new.counts.source_faults result }
        ensures reads { ReadsNext (standing_of self.old.counts).told (standing_of self.old.counts).outside.input (standing_of self.new.counts).outside.input result into.new }
        ensures rest { OnlyChanges false true false (standing_of self.old.counts) (standing_of self.new.counts) }

        // where the reader's type says what it has left
        ensures taken { IfOk result (λ count. Consumes (R.Reader.remaining self.old.script) (R.Reader.remaining self.new.script) (take count into.new)) }
        ensures end { IfOk result (λ count. count ≡ 0 → IsAtEnd (R.Reader.remaining self.new.script)) }
    {
        match read_some(&mut self.script, into) {
            Ok(count) => Ok(count),
            Err(_) => Err(fault(&mut self.counts.source_faults)),
        }
    }

    fn write(&mut self, bytes: &[u8]) -> Result<usize, Failed> {
        let mut output = io::writer(self.rt);
        match write_some(&mut output, bytes) {
            Ok(count) => Ok(count),
            Err(_) => Err(fault(&mut self.counts.sink_faults)),
        }
    }
}

/// Reads the 4,096 bytes from a place on.
fn read_page<R: Files>(
    file: &mut DeviceFile<'_, R>,
    start: u64,
    into: &mut PageBuf,
) -> io::Result<()>
where
    R::File: PositionedFile,
    requires { start + 4096 < 2 ^ 64 }
    ensures { OnOk result (ReadsAt R.File.known_bytes start 4096 file.old.file file.new.file into.new) }
{
    let mut bytes = [0u8; 4096];
    file.read_at(start, &mut bytes)?;
    into.set_part(0, &bytes);
    Ok(())
}
