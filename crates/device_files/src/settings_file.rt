//! The file of the settings: it is opened at its first use, for reading alone, and an absent one is an empty document.
ghost use Rattle.std.specs.Prelude.{◌≡◌, ◌<◌, ◌≤◌, false, true, length, None, Ok, IsTrue, IfOk, IfSome, IsSome};
ghost use Rattle.device_files.specs.SettingsFile.{TakesOn};

use crate::device_file::open_above_streams;
use crate::streams::read_some;
use std::fs::OpenOptions;
use std::io;
use std::io::ErrorKind;
use std::rt::Files;

/// A document that is read once, from its beginning to its end.
#[derive(Drop)]
pub struct SettingsFile<'a, R: Files> {
    rt: &'a R,
    name: &'a str,
    pub file: Option<R::File>,
    pub absent: bool,
}

impl<'a, R: Files> SettingsFile<'a, R> {
    /// The file of this name, which is not opened yet.
    pub fn new(rt: &'a R, name: &'a str) -> SettingsFile<'a, R>
        ensures closed { result.file ≡ None }
        ensures unknown { result.absent ≡ false }
    {
        SettingsFile {
            rt,
            name,
            file: None,
            absent: false,
        }
    }

    /// The next bytes, at most as many as `into` takes; 0 is the end. A file that was absent at the first read is empty.
    pub fn read(&mut self, into: &mut [u8]) -> io::Result<usize>
        requires { 0 < length into.old }
        ensures bound { IfOk result (λ count. count ≤ length into.new) }
        ensures goes_on { IfSome self.old.file (λ file. IfOk result (λ count. TakesOn R.File.remaining file self.new.file count into.new)) }
        ensures absent { self.old.file ≡ None → IsTrue self.old.absent → result ≡ Ok 0 }
        ensures stays_absent { self.old.absent ≡ true → self.new.absent ≡ true }
        ensures opened { IfOk result (λ count. 0 < count → IsSome self.new.file) }
    {
        let Some(mut file) = self.opened()? else {
            return Ok(0);
        };
        let result = read_some(&mut file, into);
        self.file = Some(file);
        result
    }

    /// The open file, which is to be put back, or none where it is absent.
    fn opened(&mut self) -> io::Result<Option<R::File>>
        ensures same { IfSome self.old.file (λ before. result ≡ Ok (Some before)) }
        ensures absent { self.old.file ≡ None → IsTrue self.old.absent → result ≡ Ok None }
        ensures stays_absent { self.old.absent ≡ true → self.new.absent ≡ true }
    {
        if let Some(file) = self.file.take() {
            return Ok(Some(file));
        }
        if self.absent {
            return Ok(None);
        }
        match open_above_streams(self.rt, &settings_options(), self.name) {
            Ok(file) => Ok(Some(file)),
            Err(e) => {
                if e.kind() != ErrorKind::NotFound {
                    return Err(e);
                }
                self.absent = true;
                Ok(None)
            }
        }
    }
}

/// For reading alone.
fn settings_options() -> OpenOptions {
    let mut options = OpenOptions::new();
    options.read(true);
    options
}
