//! Lines that are written where they stand, neighbours by one write.
ghost use Rattle.std.specs.Prelude.{◌<◌, length, OnOk};
ghost use Rattle.device_files.specs.FileWorld.{told_lines};
ghost use Rattle.device_files.specs.LineBytes.{WritesLines};
ghost use Rattle.device_files.specs.PlacedLines.{ArePlaced};
ghost use Rattle.device_files.specs.Run.{Adds};

use crate::placed_line::PlacedLine;
use crate::positioned::PositionedFile;
use crate::run::Run;
use std::io;

/// Writes each of the lines where it stands, neighbours that follow each other by one write. After an error any of them may
/// have been written. The run is for the work alone.
pub fn write_lines<F: PositionedFile>(
    file: &mut F,
    lines: &[PlacedLine],
    run: &mut Run,
) -> io::Result<()>
    requires { ArePlaced (length lines.now) lines.now }
    ensures { OnOk result (WritesLines lines.now (F.known_bytes file.old) (F.known_bytes file.new)) }
{
    run.clear();
    for placed in lines {
        add_line(file, placed, run)?;
    }
    run.write(file)
}

/// Puts the line into the run, which is written first where it does not take it.
fn add_line<F: PositionedFile>(file: &mut F, placed: &PlacedLine, run: &mut Run) -> io::Result<()>
    requires { placed.now.line < told_lines }
    ensures { OnOk result (Adds placed.now run.old run.new (F.known_bytes file.old) (F.known_bytes file.new)) }
{
    if run.push(placed) {
        return Ok(());
    }
    run.write(file)?;
    let _taken = run.push(placed);
    Ok(())
}
