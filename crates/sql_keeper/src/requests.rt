ghost use Rattle.std.specs.Prelude.{◌≡◌, false, length, find, IfOk, IfErr, OnOk, Some, None};
ghost use Rattle.rows_model.specs.Changes.{footprint};
ghost use Rattle.sql_keeper.specs.Sessions.{is_open};
ghost use Rattle.sql_keeper.specs.Commits.{is_covered, uncovered, commit_fault};
ghost use Rattle.sql_keeper.specs.Log.{HasPlace};
ghost use Rattle.sql_keeper.specs.Stores.{IsRefusal, IsTrueFault};
ghost use Rattle.sql_keeper.specs.Faults.{is_failure};
ghost use Rattle.rows_model.specs.Rows.{Tables};

use crate::faults::CommitFault;
use crate::logs::CommitLog;
use crate::sessions::Sessions;
use key_shard::Grant;
use rows_model::{Memory, QKey, Sid, Txn, footprint};
use std::alloc::Global;

/// Whether one of the grants covers the key for the session.
fn is_covered(sid: Sid, grants: &[Grant], key: &QKey) -> bool
    ensures { result ≡ is_covered sid grants.now key.now }
{
    grants.iter().any(|grant| *key == grant.key() && grant.sid().number == sid.number)
}

/// The first key that the transaction touches and that no grant of the session covers.
fn uncovered(alloc: Global, sid: Sid, txn: &Txn, grants: &[Grant]) -> Result<Option<QKey>, Memory>
    ensures { IfOk result (λ key. key ≡ uncovered sid grants.now txn.now) }
{
    let keys = footprint(alloc, txn)?;
    let first = keys
        .iter()
        .copied()
        .find(|key| !is_covered(sid, grants, key));
    Ok(first)
}

/// Finds why a commit is refused before the keeper is asked, if it is, and else keeps a place of the
/// log for it, where that is kept.
pub fn admit(
    sessions: &Sessions,
    log: &mut CommitLog,
    cap: u64,
    sid: Sid,
    txn: &Txn,
    grants: &[Grant],
) -> Result<(), CommitFault>
    ensures items { log.new.items ≡ log.old.items }
    ensures keeps { log.new.keeps ≡ log.old.keeps }
    ensures ok { OnOk result (
        commit_fault (is_open sid sessions.now) sid grants.now txn.now (length log.old.items) cap
        ≡ None) }
    ensures refusal { IfErr result (IsRefusal
        (commit_fault (is_open sid sessions.now) sid grants.now txn.now (length log.old.items) cap)) }
    ensures unasked { IfErr result (λ fault. is_failure fault ≡ false) }
    ensures any_rows { IfErr result (λ fault. (rows : Tables) → IsTrueFault txn.now rows fault) }
    ensures place { OnOk result (HasPlace log.new) }
{
    if !sessions.is_open(sid) {
        return Err(CommitFault::Ended);
    }
    if let Some(key) = uncovered(log.allocator(), sid, txn, grants)? {
        return Err(CommitFault::Uncovered { key });
    }
    let count = log.len();
    if count == cap {
        return Err(CommitFault::LogFull { count });
    }
    log.make_room()?;
    Ok(())
}
