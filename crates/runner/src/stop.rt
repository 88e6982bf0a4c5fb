//! Why a run ends early.
ghost use Rattle.std.specs.Prelude.{◌≡◌};
ghost use Rattle.runner.specs.declared.stop.Halt.TheVariants.{Store};

use line_pages::Stop;

/// Why a run of a script ended before its end.
#[derive(Clone, Copy, Debug, PartialEq, Eq)]
pub enum Halt {
    /// The engine stopped.
    Store(Stop),
    /// The script could not be read.
    Source,
    /// A reply could not be sent.
    Sink,
}

impl From<Stop> for Halt {
    ghost from_gives = { λ stop why. why ≡ Store stop };

    fn from(stop: Stop) -> Halt {
        Halt::Store(stop)
    }
}

/// How far a script was read.
#[derive(Clone, Copy, Debug, PartialEq, Eq)]
pub enum Ending {
    /// To its end.
    End,
    /// As far as it may be taken, and there are more bytes.
    Limit,
}
