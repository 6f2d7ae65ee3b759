ghost use Rattle.std.specs.Prelude.{◌≡◌, not, find, IfOk, MatchOption};
ghost use Rattle.run_audit.specs.Grants.{holds, AreCovered, IsFirstGap};

use crate::grants::Grants;
use crate::holds::Hold;
use rows_model::{Memory, QKey, Sid, footprint};
use sql_keeper::Commit;
use std::alloc::Global;

/// A commit, counted from 1, and a key that it touches and that wasn't granted to its session.
#[derive(Clone, Copy)]
pub struct Gap {
    pub commit: u64,
    pub key: QKey,
}

/// The first commit that touches a key which wasn't granted to its session, and the least such key.
pub fn first_gap(alloc: Global, log: &[Commit], grants: &Grants) -> Result<Option<Gap>, Memory>
    ensures { IfOk result (λ found. MatchOption found (AreCovered (holds grants.now) log.now)
        (λ gap. IsFirstGap (holds grants.now) log.now gap.commit gap.key)) }
{
    for (place, commit) in log.iter().enumerate() {
        let keys = footprint(alloc, &commit.txn)?;
        if let Some(key) = first_without(grants, commit.sid, keys.as_slice()) {
            return Ok(Some(Gap {
                commit: place as u64 + 1,
                key,
            }));
        }
    }
    Ok(None)
}

/// The first of the keys that wasn't granted to the session.
fn first_without(grants: &Grants, sid: Sid, keys: &[QKey]) -> Option<QKey>
    ensures { result ≡ find (λ key. not (holds grants.now sid key)) keys.now }
{
    keys.iter()
        .copied()
        .find(|key| !grants.contains(&Hold { sid, key: *key }))
}
