ghost use Rattle.std.specs.Prelude.{◌≡◌, Err, IfOk, IsTrue, OnErr, OnOk};
ghost use Rattle.std.specs.Bool.{IsFalse};
ghost use Rattle.rows_model.specs.Delta.{is_count};
ghost use Rattle.key_shard.specs.Replies.{ShowsQuarantine, ShowsRelease};
ghost use Rattle.key_shard.specs.Shards.{past_of, is_out, stepped, returned, refusal};
ghost use Rattle.write_ops.specs.Releases.{LeavesShifted, RefusesDelta, apply_step, delta_step};

use key_shard::{Grant, How, QAnswer, Rel, Shard, ShardFault};
use lease_table::Mode;
use rows_model::{QKey, Sid};

/// Why a key isn't quarantined to be shifted.
#[derive(Clone, Copy, Debug)]
pub enum DeltaFault {
    /// The answer to the key is no count.
    NotCount,
    /// The shard refuses.
    Shard { fault: ShardFault },
}

impl From<ShardFault> for DeltaFault {
    ghost use Rattle.std.specs.Prelude.{◌≡◌};
    ghost use Rattle.write_ops.specs.declared.delta.DeltaFault.TheVariants as deltas;

    ghost from_gives = { λ fault given. given ≡ deltas.Shard fault };

    fn from(fault: ShardFault) -> DeltaFault {
        DeltaFault::Shard { fault }
    }
}

/// Quarantines a key for a session, to add a number to its count. `NotCount` comes exactly where the
/// answer to the key is no count, whichever shard has the key. A session that has this quarantine
/// already is answered Held, and the number of the first remains; one in whose way another stands, of
/// its own too, is Refused. `Shard` tells that the key is of another shard, that the shard has no other
/// token, or that memory ran out. After a refusal and after a fault everything is as before.
pub fn iq_delta(
    shard: &mut Shard,
    key: QKey,
    sid: Sid,
    by: i32,
    now: u64,
) -> Result<QAnswer, DeltaFault>
    ensures not_count { IsFalse (is_count key) → result ≡ Err DeltaFault.NotCount }
    ensures refusal { IsTrue (is_count key) → let step = delta_step shard.old key sid by now in
        RefusesDelta (refusal shard.old key step) result }
    ensures step { let step = delta_step shard.old key sid by now in
        OnOk result (shard.new ≡ stepped shard.old step) }
    ensures shows { let step = delta_step shard.old key sid by now in
        IfOk result (ShowsQuarantine shard.old.terms (past_of shard.old) step) }
    ensures err { OnErr result (shard.new ≡ shard.old) }
{
    if !key.is_count() {
        return Err(DeltaFault::NotCount);
    }
    Ok(shard.quarantine(key, sid, Mode::Delta, by, now)?)
}

/// Adds the quarantine's number to the count of its key, with this stamp, and ends the quarantine: the
/// entry keeps its place. It wraps at 2^64 upwards and stops at 0 downwards; an entry that is no number
/// is dropped, and where there is no entry none comes. The key's other quarantines and each other key
/// are as before. Where the quarantine stands no longer the answer is Gone, and each key is as before,
/// its value too; and so for a grant that isn't out at this shard. It takes no memory.
pub fn commit_delta(shard: &mut Shard, grant: Grant, stamp: u64) -> Rel
    requires { grant.mode ≡ Mode.Delta }
    ensures out { IsTrue (is_out shard.old grant)
        → shard.new ≡ returned shard.old grant (apply_step shard.old grant stamp) }
    ensures shows { IsTrue (is_out shard.old grant)
        → ShowsRelease (apply_step shard.old grant stamp) result }
    ensures leaves { IsTrue (is_out shard.old grant)
        → LeavesShifted stamp grant (past_of shard.old) (past_of shard.new) result }
    ensures unknown { IsFalse (is_out shard.old grant)
        → (shard.new ≡ shard.old) × (result ≡ Rel.Gone) }
{
    shard.release(grant, How::Shift { stamp })
}
