//! Lines of a script.
ghost use Rattle.std.specs.Prelude.{◌≡◌};
ghost use Rattle.texts.specs.Lines.{is_silent as silent};

/// Whether a line gives no reply: it is empty, or begins with `#`. It may have any length.
pub fn is_silent(line: &[u8]) -> bool
    ensures { result ≡ silent line.now }
{
    line.is_empty() || line[0] == b'#'
}
