//! The file of a device: it is opened at its first use, for reading and writing, and made where it is absent.
ghost use Rattle.std.specs.Prelude.{◌≡◌, ◌<◌, ◌+◌, ◌^◌, length, None, IfOk, IfSome, IsOk, OnOk};
ghost use Rattle.device_files.specs.DeviceFile.{ReadsAt, WritesAt};

use crate::positioned::{PositionedFile, drain_at, fill_at};
use std::fs::{OpenFile, OpenOptions};
use std::io;
use std::rt::Files;

/// A file of the working folder that grows as it is written.
#[derive(Drop)]
pub struct DeviceFile<'a, R: Files> {
    rt: &'a R,
    name: &'a str,
    pub file: Option<R::File>,
}

impl<'a, R: Files> DeviceFile<'a, R>
where
    R::File: PositionedFile,
{
    /// The file of this name, which is not opened yet.
    pub fn new(rt: &'a R, name: &'a str) -> DeviceFile<'a, R>
        ensures { result.file ≡ None }
    {
        DeviceFile {
            rt,
            name,
            file: None,
        }
    }

    /// Fills `into` with the bytes from `start` on. Past the file's end they are zeros.
    pub fn read_at(&mut self, start: u64, into: &mut [u8]) -> io::Result<()>
        requires { start + length into.old < 2 ^ 64 }
        ensures { OnOk result (ReadsAt R.File.known_bytes start (length into.old) self.old.file self.new.file into.new) }
    {
        let file = self.opened()?;
        let result = fill_at(&file, start, into);
        self.file = Some(file);
        result
    }

    /// Writes the bytes from `start` on. After an error any first part of them may have been written.
    pub fn write_at(&mut self, start: u64, bytes: &[u8]) -> io::Result<()>
        requires { start + length bytes.now < 2 ^ 64 }
        ensures { OnOk result (WritesAt R.File.known_bytes start self.old.file self.new.file bytes.now) }
    {
        let mut file = self.opened()?;
        let result = drain_at(&mut file, start, bytes);
        self.file = Some(file);
        result
    }

    /// Asks the system to sync the file. One that was never used holds nothing to be synced.
    pub fn sync(&mut self) -> io::Result<()>
        ensures file { self.new.file ≡ self.old.file }
        ensures unused { self.old.file ≡ None → IsOk result }
    {
        match &self.file {
            Some(file) => file.sync_all(),
            None => Ok(()),
        }
    }

    /// The open file, which is to be put back.
    pub fn opened(&mut self) -> io::Result<R::File>
        ensures { IfOk result (λ file. IfSome self.old.file (λ before. file ≡ before)) }
    {
        match self.file.take() {
            Some(file) => Ok(file),
            None => open_above_streams(self.rt, &device_options(), self.name),
        }
    }
}

/// For reading and writing, and made where it is absent.
fn device_options() -> OpenOptions {
    let mut options = OpenOptions::new();
    options.read(true).write(true).create(true);
    options
}

/// Opens the file. Where the process was started with a standard stream closed, the system would give the stream's
/// number to the next file that is opened, and what is meant for the stream would go to that file. So the three
/// numbers are taken while the file is opened, and a closed stream stays closed.
pub fn open_above_streams<R: Files>(
    rt: &R,
    options: &OpenOptions,
    name: &str,
) -> io::Result<R::File> {
    let _input = options.open(rt, name)?;
    let _output = options.open(rt, name)?;
    let _errors = options.open(rt, name)?;
    options.open(rt, name)
}
