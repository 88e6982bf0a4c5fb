//! The arguments of the program as words of the command line.
ghost use Rattle.std.specs.Prelude.{◌≡◌, ◌≢◌, ◌⊎◌, IfErr};
ghost use Rattle.std.specs.IoError.{error_kind};

use spitfire_app::Words;
use std::io::ErrorKind;
use std::rt::Env;
use std::{env, io};

/// The status where the list of the arguments finds no memory.
const NO_MEMORY: u8 = 11;

/// The status where the system does not give the arguments as text.
const NO_TEXT: u8 = 1;

/// The arguments behind the program's name, or the status that the program ends with.
pub fn words<R: Env + AllocGlobal>(rt: &R) -> Result<Words, u8>
    ensures { IfErr result (λ status. (status ≡ 11) ⊎ (status ≡ 1)) }
{
    let arguments = env::args(rt).map_err(|e| status_of(&e))?;
    let mut words = Words::new();
    for argument in arguments.skip(1) {
        words.push(argument.as_str());
    }
    Ok(words)
}

/// The status for what hindered the list of the arguments.
fn status_of(error: &io::Error) -> u8
    ensures no_memory { error_kind error.now ≡ ErrorKind.OutOfMemory → result ≡ 11 }
    ensures no_text { error_kind error.now ≢ ErrorKind.OutOfMemory → result ≡ 1 }
{
    if error.kind() == ErrorKind::OutOfMemory {
        NO_MEMORY
    } else {
        NO_TEXT
    }
}
