// Requests at a store that is lent, each one call of it.
ghost use Rattle.std.specs.Prelude.{◌≡◌, ◌≤◌};
ghost use Rattle.session_client.specs.Belongs.{Belongs};
ghost use Rattle.session_client.specs.declared.replies.Wanted.TheVariants as wanted;
ghost use Rattle.executor.specs.OnStore.{IsAtStore, MakesAtStore, TellsAnswer, TellsStaged, TellsCommit};

use rows_model::{QKey, Sid, Txn};
use session_client::{Fault, Grants, Reply, Wanted};
use sql_keeper::{CommitFault, KeepFault, Keeper, Start, Store};

/// Makes a session's request at the store: one call of it, and the reply tells its answer. A keeper
/// that failed in an ask is told as a `Fault` with `Keep`; what isn't staged and what isn't committed
/// carry faults of their own. The transaction and the grants come back. The keeper's count of faults
/// never falls.
pub fn on_store<K: Keeper, N: Start>(store: &mut Store<K, N>, who: Sid, request: Wanted) -> Reply
    requires { IsAtStore request }
    ensures makes { MakesAtStore store.old who request store.new result }
    ensures never_falls { store.old.faults ≤ store.new.faults }
    ensures belongs { Belongs who request result }
{
    match request {
        Wanted::Ask { key } => ask(store, key),
        Wanted::Staged { key, txn } => ask_staged(store, key, txn),
        Wanted::Commit { txn, grants } => commit(store, who, txn, grants),
        Wanted::End => Reply::End {
            was: store.end(who).was(),
        },
        Wanted::Get { .. }
        | Wanted::Set { .. }
        | Wanted::QaReg { .. }
        | Wanted::QaRead { .. }
        | Wanted::Delta { .. }
        | Wanted::Dar { .. }
        | Wanted::Sar { .. }
        | Wanted::Apply { .. }
        | Wanted::Abort { .. }
        | Wanted::Raise { .. }
        | Wanted::Renew { .. }
        | Wanted::Nothing => unreachable!(),
    }
}

fn ask<K: Keeper, N: Start>(store: &mut Store<K, N>, key: QKey) -> Reply
    ensures makes { TellsAnswer key store.old store.new result }
    ensures never_falls { store.old.faults ≤ store.new.faults }
    ensures belongs { (who : Sid) → Belongs who (wanted.Ask key) result }
{
    match store.ask(&key) {
        Ok(answer) => Reply::Answer { answer },
        Err(KeepFault::Failed) => Reply::Fault { fault: Fault::Keep },
        Err(KeepFault::Memory) => Reply::Fault {
            fault: Fault::Memory,
        },
    }
}

fn ask_staged<K: Keeper, N: Start>(store: &mut Store<K, N>, key: QKey, txn: Txn) -> Reply
    ensures makes { TellsStaged key txn store.old store.new result }
    ensures never_falls { store.old.faults ≤ store.new.faults }
    ensures belongs { (who : Sid) → Belongs who (wanted.Staged key txn) result }
{
    match store.ask_staged(&txn, &key) {
        Ok(value) => Reply::Staged { value, txn },
        Err(fault) => Reply::NotStaged { fault, txn },
    }
}

/// Commits a copy of the transaction. Where there is no memory for one, a session that isn't open is
/// told that first.
fn commit<K: Keeper, N: Start>(store: &mut Store<K, N>, who: Sid, txn: Txn, grants: Grants) -> Reply
    ensures makes { TellsCommit who txn grants store.old store.new result }
    ensures never_falls { store.old.faults ≤ store.new.faults }
    ensures belongs { Belongs who (wanted.Commit txn grants) result }
{
    let Ok(copy) = txn.copy() else {
        let fault = if store.is_open(who) {
            CommitFault::Memory
        } else {
            CommitFault::Ended
        };
        return Reply::NotCommitted { fault, txn, grants };
    };
    match store.commit(who, copy, grants.items()) {
        Ok(number) => Reply::Committed {
            number,
            txn,
            grants,
        },
        Err((fault, _)) => Reply::NotCommitted { fault, txn, grants },
    }
}
