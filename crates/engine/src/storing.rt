//! The calls on a store that begin and end transactions, over a book and the device that it stands for.
ghost use Rattle.std.specs.Prelude.{◌≡◌, ◌+◌, ◌^◌, ◌≤◌, true, false, OnOk, IfErr, IsTrue};
ghost use Rattle.flat_transactions.specs.StoreStanding.{IsReady, IsSteady};
ghost use Rattle.flat_transactions.specs.StoreCalls.{StoreCall, IsCommitted, IsOldOrNew, KeepsLines, CommitsLines, AbortsLines, Begins, Ends, Checkpoints};
ghost use Rattle.line_pages.specs.Standing.{IsFault};
ghost use Rattle.flat_transactions.specs.OpenStore.{account, HasFault, HasAbortCause};

use devices::Devices;
use flat_transactions::{Book, Store};
use line_pages::Stop;

/// Opens a transaction.
#[tactic(auto, using(flat_transactions::proofs::OpenStoreLaws::has_fault))]
pub(crate) fn begin<D: Devices>(book: &mut Book, dev: &mut D) -> Result<(), Stop>
    requires ready { IsReady book.old (D.standing dev.old) }
    requires closed { (account book.old).is_open ≡ false }
    requires tail { (account book.old).tail ≤ 2 ^ 61 + 2 ^ 46 }
    ensures lines { IsTrue (D.standing dev.old).told → OnOk result (KeepsLines book.old (D.standing dev.old) book.new (D.standing dev.new)) }
    ensures begins { OnOk result (Begins book.old book.new) }
    ensures ready { OnOk result (IsReady book.new (D.standing dev.new)) }
    ensures steady { IsSteady book.old (D.standing dev.old) → OnOk result (IsSteady book.new (D.standing dev.new)) }
    ensures cause { HasFault (D.standing dev.old) (D.standing dev.new) result }
    ensures call { StoreCall (IsCommitted (D.standing dev.old)) book.old (D.standing dev.old) book.new (D.standing dev.new) }
{
    Store::over(book, dev).begin()
}

/// Ends the open transaction, whose lines become the committed ones.
#[tactic(auto, using(flat_transactions::proofs::OpenStoreLaws::has_fault))]
pub(crate) fn commit<D: Devices>(book: &mut Book, dev: &mut D) -> Result<(), Stop>
    requires ready { IsReady book.old (D.standing dev.old) }
    requires is_open { (account book.old).is_open ≡ true }
    ensures lines { IsTrue (D.standing dev.old).told → OnOk result (CommitsLines book.old (D.standing dev.old) book.new (D.standing dev.new)) }
    ensures ends { OnOk result (Ends book.old book.new) }
    ensures ready { OnOk result (IsReady book.new (D.standing dev.new)) }
    ensures steady { IsSteady book.old (D.standing dev.old) → OnOk result (IsSteady book.new (D.standing dev.new)) }
    ensures cause { HasFault (D.standing dev.old) (D.standing dev.new) result }
    ensures call { StoreCall (IsOldOrNew book.old (D.standing dev.old)) book.old (D.standing dev.old) book.new (D.standing dev.new) }
{
    Store::over(book, dev).commit()
}

/// Ends the open transaction and takes its changes back.
#[tactic(auto, using(flat_transactions::proofs::OpenStoreLaws::has_abort_cause, flat_transactions::proofs::OpenStoreLaws::fault_alone))]
pub(crate) fn abort<D: Devices>(book: &mut Book, dev: &mut D) -> Result<(), Stop>
    requires ready { IsReady book.old (D.standing dev.old) }
    requires is_open { (account book.old).is_open ≡ true }
    ensures lines { IsTrue (D.standing dev.old).told → OnOk result (AbortsLines book.old (D.standing dev.old) book.new (D.standing dev.new)) }
    ensures ends { OnOk result (Ends book.old book.new) }
    ensures ready { OnOk result (IsReady book.new (D.standing dev.new)) }
    ensures steady { IsSteady book.old (D.standing dev.old) → OnOk result (IsSteady book.new (D.standing dev.new)) }
    ensures cause { HasAbortCause book.old (D.standing dev.old) (D.standing dev.new) result }
    ensures sound { IsTrue (D.standing dev.old).told → IfErr result IsFault }
    ensures call { StoreCall (IsCommitted (D.standing dev.old)) book.old (D.standing dev.old) book.new (D.standing dev.new) }
{
    Store::over(book, dev).abort()
}

/// Empties the log.
#[tactic(auto, using(flat_transactions::proofs::OpenStoreLaws::has_fault))]
pub(crate) fn checkpoint<D: Devices>(book: &mut Book, dev: &mut D) -> Result<(), Stop>
    requires ready { IsReady book.old (D.standing dev.old) }
    requires closed { (account book.old).is_open ≡ false }
    ensures lines { IsTrue (D.standing dev.old).told → OnOk result (KeepsLines book.old (D.standing dev.old) book.new (D.standing dev.new)) }
    ensures checkpoints { OnOk result (Checkpoints book.old book.new) }
    ensures ready { OnOk result (IsReady book.new (D.standing dev.new)) }
    ensures steady { IsSteady book.old (D.standing dev.old) → OnOk result (IsSteady book.new (D.standing dev.new)) }
    ensures cause { HasFault (D.standing dev.old) (D.standing dev.new) result }
    ensures call { StoreCall (IsCommitted (D.standing dev.old)) book.old (D.standing dev.old) book.new (D.standing dev.new) }
{
    Store::over(book, dev).checkpoint()
}

/// Drains a block of the log, which changes no line.
#[tactic(auto, using(flat_transactions::proofs::OpenStoreLaws::has_fault))]
pub(crate) fn drain<D: Devices>(book: &mut Book, dev: &mut D) -> Result<(), Stop>
    requires ready { IsReady book.old (D.standing dev.old) }
    ensures lines { IsTrue (D.standing dev.old).told → OnOk result (KeepsLines book.old (D.standing dev.old) book.new (D.standing dev.new)) }
    ensures keeps { OnOk result (account book.new ≡ account book.old) }
    ensures ready { OnOk result (IsReady book.new (D.standing dev.new)) }
    ensures steady { IsSteady book.old (D.standing dev.old) → OnOk result (IsSteady book.new (D.standing dev.new)) }
    ensures cause { HasFault (D.standing dev.old) (D.standing dev.new) result }
    ensures call { StoreCall (IsCommitted (D.standing dev.old)) book.old (D.standing dev.old) book.new (D.standing dev.new) }
{
    Store::over(book, dev).drain()
}

/// Cleans frames, which changes no line.
#[tactic(auto, using(flat_transactions::proofs::OpenStoreLaws::has_fault))]
pub(crate) fn clean<D: Devices>(book: &mut Book, dev: &mut D, frames: u32) -> Result<(), Stop>
    requires ready { IsReady book.old (D.standing dev.old) }
    ensures lines { IsTrue (D.standing dev.old).told → OnOk result (KeepsLines book.old (D.standing dev.old) book.new (D.standing dev.new)) }
    ensures keeps { OnOk result (account book.new ≡ account book.old) }
    ensures ready { OnOk result (IsReady book.new (D.standing dev.new)) }
    ensures steady { IsSteady book.old (D.standing dev.old) → OnOk result (IsSteady book.new (D.standing dev.new)) }
    ensures cause { HasFault (D.standing dev.old) (D.standing dev.new) result }
    ensures call { StoreCall (IsCommitted (D.standing dev.old)) book.old (D.standing dev.old) book.new (D.standing dev.new) }
{
    Store::over(book, dev).clean(frames)
}
