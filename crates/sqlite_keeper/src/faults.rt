// Faults of a keeper, and how they are counted.
ghost use Rattle.std.specs.Prelude.{◌≡◌, ◌≤◌};
ghost use Rattle.sql_keeper.specs.Faults.{Counts, keep_failed, staged_failed};
ghost use Rattle.sqlite_keeper.specs.Makes.{as_staged};

use sql_keeper::{AfterFault, KeepFault};

// The same fault of a transaction.
pub(crate) fn staged(fault: KeepFault) -> AfterFault
    ensures { result ≡ as_staged fault }
{
    match fault {
        KeepFault::Failed => AfterFault::Failed,
        KeepFault::Memory => AfterFault::Memory,
    }
}

// Counts a call that failed. The count stands still at the end of its type.
pub(crate) fn count(failed: bool, faults: &mut u64)
    ensures counts { Counts failed faults.old faults.new }
    ensures never_falls { faults.old ≤ faults.new }
{
    if failed {
        *faults = faults.saturating_add(1);
    }
}

// Whether the keeper failed, by what it answers.
pub(crate) fn keep_failed<T>(outcome: &Result<T, KeepFault>) -> bool
    ensures { result ≡ keep_failed outcome.now }
{
    matches!(outcome, Err(KeepFault::Failed))
}

// Whether the keeper failed, by what it answers of a transaction.
pub(crate) fn staged_failed<T>(outcome: &Result<T, AfterFault>) -> bool
    ensures { result ≡ staged_failed outcome.now }
{
    matches!(outcome, Err(AfterFault::Failed))
}
