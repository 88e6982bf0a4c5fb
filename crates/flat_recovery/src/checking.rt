//! The heads of a log, read and checked.
ghost use Rattle.std.specs.Prelude.{◌≡◌, ◌<◌, ◌≤◌, IsTrue};
ghost use Rattle.devices.specs.World.{Goes, Stays};
ghost use Rattle.flat_nvm_layout.specs.Sizes.{sizes_of};
ghost use Rattle.flat_store_meaning.specs.Layout.{nvm_lines};
ghost use Rattle.flat_recovery.specs.Causes.{OpenCause};
ghost use Rattle.flat_recovery.specs.Heads.{IsJudged, ReadsHead, ChecksLog, head_lines};

use crate::errors::OpenError;
use damage::Evidence;
use devices::Devices;
use flat_nvm_log::{Head, Log, read_head};
use nvm_model::Line;

/// Reads each head of the log, with its checks.
pub(crate) fn check_log<D: Devices>(dev: &mut D, log: &Log) -> Result<(), OpenError>
    requires fits { nvm_lines (sizes_of log.now.geometry) ≤ (D.standing dev.old).lines }
    ensures checks { ChecksLog log.now (D.standing dev.old) result }
    ensures cause { OpenCause (D.standing dev.old) (D.standing dev.new) result }
    ensures goes { Goes (D.standing dev.old) (D.standing dev.new) }
    ensures stays { Stays (D.standing dev.old) (D.standing dev.new) }
{
    let mut at = log.start;
    while at < log.tail {
        let head = head_at(dev, log, at)?;
        at += lines_of(&head);
    }
    Ok(())
}

/// Reads the head at an offset.
pub(crate) fn head_at<D: Devices>(dev: &mut D, log: &Log, at: u64) -> Result<Head, OpenError>
    requires above { log.now.start ≤ at }
    requires below { at < log.now.tail }
    requires fits { nvm_lines (sizes_of log.now.geometry) ≤ (D.standing dev.old).lines }
    ensures reads { ReadsHead log.now at (D.standing dev.old) result }
    ensures cause { OpenCause (D.standing dev.old) (D.standing dev.new) result }
    ensures goes { Goes (D.standing dev.old) (D.standing dev.new) }
    ensures stays { Stays (D.standing dev.old) (D.standing dev.new) }
{
    match log.load_line(dev, at) {
        Ok(line) => judged(log, at, &line),
        Err(_) => Err(OpenError::Nvm),
    }
}

/// What a line is as the head at an offset. A record needs its three lines.
fn judged(log: &Log, at: u64, line: &Line) -> Result<Head, OpenError>
    requires { at < log.now.tail }
    ensures { IsJudged log.now at line.now result }
{
    match read_head(&log.geometry, line) {
        Ok(head) => {
            if log.tail - at < lines_of(&head) {
                Err(damage(log, at, line, 9))
            } else {
                Ok(head)
            }
        }
        Err(check) => Err(damage(log, at, line, check)),
    }
}

/// How many lines an entry with this head has.
pub(crate) fn lines_of(head: &Head) -> u64
    ensures { result ≡ head_lines head.now }
{
    match head {
        Head::Line { .. } => 3,
        Head::End(_) => 1,
    }
}

/// A line that fails a check, kept as evidence.
fn damage(log: &Log, at: u64, line: &Line, check: u8) -> OpenError
    ensures { result ≡ OpenError.Damaged (Evidence.Log at line.now log.now.tail check) }
{
    OpenError::Damaged(Evidence::Log {
        offset: at,
        line: *line,
        tail: log.tail,
        check,
    })
}
