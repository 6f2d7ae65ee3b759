// What a writer may rely on at the store.
ghost use Rattle.std.specs.Prelude.{◌≡◌, ◌≤◌, length, IsErr, IfErr, OnOk};
ghost use Rattle.callers.specs.Stores.{NeverOpensAgain, AreCovered};

use key_shard::Grant;
use rows_model::{Sid, Txn, footprints_are_exact};
use sql_keeper::laws::closed_stays_closed;
use sql_keeper::{CommitFault, Keeper, Start, Store};

/// A session that was ended before it committed never commits, also where other sessions began since:
/// the commit is refused as that of a session that has ended, and the transaction comes back.
pub fn commit_after_end<K: Keeper, N: Start>(
    store: &mut Store<K, N>,
    sid: Sid,
    txn: Txn,
    grants: &[Grant],
) -> Result<u64, (CommitFault, Txn)>
    requires { sid.number ≤ length store.old.ledger.sessions }
    ensures refused { IsErr result }
    ensures cause { IfErr result (λ back. back.0 ≡ CommitFault.Ended) }
    ensures back { IfErr result (λ back. back.1 ≡ txn) }
    ensures log { store.new.ledger.log ≡ store.old.ledger.log }
{
    closed_stays_closed();
    store.end(sid);
    let _ = store.begin(true);
    store.commit(sid, txn, grants)
}

/// A session that has begun and isn't open never commits, whatever is called.
pub fn closed_sessions_never_commit()
    ensures { NeverOpensAgain }
{
    closed_stays_closed()
}

/// A commit that is answered Ok is covered: on each key that its transaction touches one of the grants
/// is the session's.
pub fn commit_covered<K: Keeper, N: Start>(
    store: &mut Store<K, N>,
    sid: Sid,
    txn: Txn,
    grants: &[Grant],
) -> Result<u64, (CommitFault, Txn)>
    ensures { OnOk result (AreCovered sid grants.now txn) }
{
    footprints_are_exact();
    store.commit(sid, txn, grants)
}
