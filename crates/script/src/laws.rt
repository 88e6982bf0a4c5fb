//! Laws of the definitions, as contracts of functions that do nothing.
ghost use Rattle.script.specs.Laws.{LinesAreSpelled, SpellingsAreRead, CommandsAppend, RepliesStay, CommitsAreAcknowledged, OutputGrows, AsideIsSilent, CommitsByScript, CommitsAreTransactions};

/// The grammar, read both ways: a line is a command exactly where it is that command's spelling, has at most 1,024
/// bytes, and the command can be written.
pub fn one_grammar()
    ensures read { LinesAreSpelled }
    ensures written { SpellingsAreRead }
{}

/// The commands of scripts in a row are their commands in a row.
pub fn scripts_append()
    ensures { CommandsAppend }
{}

/// What the output acknowledges: of all replies each commit, of a beginning no more.
pub fn output_grows()
    ensures stay { RepliesStay }
    ensures all { CommitsAreAcknowledged }
    ensures grows { OutputGrows }
    ensures aside { AsideIsSilent }
{}

/// The commits of a script: how many there are is told by the script alone, and each is one whole transaction.
pub fn whole_transactions()
    ensures number { CommitsByScript }
    ensures whole { CommitsAreTransactions }
{}
