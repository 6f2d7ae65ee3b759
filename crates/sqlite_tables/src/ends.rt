ghost use Rattle.std.specs.Prelude.{◌≡◌, ◌≤◌, false, OnOk, OnErr};
ghost use Rattle.sqlite_trees.specs.View.{doubt};
ghost use Rattle.sqlite.specs.State.{HasCleanDisk, KeepsCommit};
ghost use Rattle.sqlite.specs.Held.{state};
ghost use Rattle.sqlite_tables.specs.Calls.{AreKept, AreDropped};

use crate::faults::fault_of;
use sql_keeper::KeepFault;
use sqlite::{Alter, Transaction};

/// Ends a transaction, whose lists are those of the store from now on. After a refusal they are
/// those of the last commit.
pub fn keep_changes<S: Alter>(tx: Transaction<'_, S>) -> Result<(), KeepFault>
    ensures ended { tx.exit.0.now.in_transaction ≡ false }
    ensures kept { HasCleanDisk (state S.Store tx.exit.0.now)
        → OnOk result (AreKept S.Store tx.entry.conn.now tx.exit.0.now) }
    ensures refused { HasCleanDisk (state S.Store tx.exit.0.now)
        → OnErr result
        (KeepsCommit (state S.Store tx.entry.conn.now) (state S.Store tx.exit.0.now)) }
    ensures clean { doubt (state S.Store tx.entry.conn.now).is_clean
        ≤ doubt (state S.Store tx.exit.0.now).is_clean }
{
    match tx.commit() {
        Ok(()) => Ok(()),
        Err(error) => Err(fault_of(error)),
    }
}

/// Ends a transaction without its changes: the lists of the store are those of the last commit.
pub fn drop_changes<S: Alter>(tx: Transaction<'_, S>)
    ensures ended { tx.exit.0.now.in_transaction ≡ false }
    ensures dropped { HasCleanDisk (state S.Store tx.exit.0.now)
        → AreDropped S.Store tx.entry.conn.now tx.exit.0.now }
    ensures clean { doubt (state S.Store tx.entry.conn.now).is_clean
        ≤ doubt (state S.Store tx.exit.0.now).is_clean }
{
    tx.rollback();
}
