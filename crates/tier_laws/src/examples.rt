//! The rules on examples. The functions do nothing; that they come out is their contracts.
ghost use Rattle.tier_laws.specs.Rows.{WorkedRows};
ghost use Rattle.tier_laws.specs.Walks.{AllCome};
ghost use Rattle.tier_laws.specs.WrittenWalks.{written_walks};
ghost use Rattle.tier_laws.specs.GeneratedWalks.{generated_walks};

/// Small examples come out as they were worked by hand.
pub fn worked_rows()
    ensures { WorkedRows }
{}

/// Runs that are written out end where another program ended.
pub fn written_walks()
    ensures { AllCome written_walks }
{}

/// Runs that a generator makes end where another program ended.
pub fn generated_walks()
    ensures { AllCome generated_walks }
{}
