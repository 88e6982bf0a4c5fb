//! The program: its arguments are handed to the application with a world of files, and it ends with the status that
//! comes back.
#![tactic(auto)]

mod arguments;

use device_files::FileWorld;
use spitfire_app::spitfire;
use std::process::ExitCode;

fn main(rt: HostRuntime) -> ExitCode {
    let words = match arguments::words(&rt) {
        Ok(words) => words,
        Err(status) => return ExitCode::from(status),
    };
    let mut world = FileWorld::new(&rt);
    ExitCode::from(spitfire(rt.alloc(), &words, &mut world))
}
