//! Laws of the definitions. The functions do nothing; their contracts are the laws.
ghost use Rattle.tier_laws.specs.Laws.{HasVictim, RunsAreSound, TouchesSettle, WritesInTwo, PrintedTally, SettlingCleans, RunsFit, FixedAnswers};

/// Where a place stands there is a victim, after at most two turns.
pub fn has_victim()
    ensures { HasVictim }
{}

/// Every state of a run is sound.
pub fn runs_are_sound()
    ensures { RunsAreSound }
{}

/// A touch that comes again at once changes nothing.
pub fn touches_settle()
    ensures { TouchesSettle }
{}

/// To make a line ready and then to write it is one touch.
pub fn writes_in_two()
    ensures { WritesInTwo }
{}

/// The tally of a run is that of its printed touches.
pub fn printed_tally()
    ensures { PrintedTally }
{}

/// After settling no copy is dirty.
pub fn settling_cleans()
    ensures { SettlingCleans }
{}

/// A dirty line is resident, and a page without a copy has no dirty line.
pub fn runs_fit()
    ensures { RunsFit }
{}

/// With 1000 every word says yes, and with 0 none.
pub fn fixed_answers()
    ensures { FixedAnswers }
{}
