ghost use Rattle.std.specs.Prelude.{◌≡◌, IfOk, IsTrue, OnErr, OnOk};
ghost use Rattle.std.specs.Bool.{IsFalse};
ghost use Rattle.key_shard.specs.Replies.{ShowsQuarantine, ShowsRelease};
ghost use Rattle.key_shard.specs.Shards.{past_of, is_out, stepped, returned, refusal, Refuses};
ghost use Rattle.write_ops.specs.Releases.{LeavesNone, LeavesValue, abort_step, dar_step, qa_step};

use key_shard::{Grant, How, QAnswer, Rel, Shard, ShardFault};
use lease_table::Mode;
use rows_model::{QKey, Sid};

/// Quarantines a key for a session, to invalidate its value. A session that has this quarantine
/// already is answered Held, and one in whose way another stands Refused. A key of another shard is a
/// `Stranger`, and a shard without another token is `Spent`. After a refusal and after a fault
/// everything is as before.
pub fn qa_reg(shard: &mut Shard, key: QKey, sid: Sid, now: u64) -> Result<QAnswer, ShardFault>
    ensures refusal { let step = qa_step shard.old key sid now in
        Refuses (refusal shard.old key step) result }
    ensures step { let step = qa_step shard.old key sid now in
        OnOk result (shard.new ≡ stepped shard.old step) }
    ensures shows { let step = qa_step shard.old key sid now in
        IfOk result (ShowsQuarantine shard.old.terms (past_of shard.old) step) }
    ensures err { OnErr result (shard.new ≡ shard.old) }
{
    shard.quarantine(key, sid, Mode::Invalidate, 0, now)
}

/// Drops the key's value and ends the quarantine: the key has no entry, its other quarantines and each
/// other key are as before. Where the quarantine stands no longer the answer is Gone, and each key is as
/// before, its value too; and so for a grant that isn't out at this shard. It takes no memory.
pub fn dar(shard: &mut Shard, grant: Grant) -> Rel
    ensures out { IsTrue (is_out shard.old grant)
        → shard.new ≡ returned shard.old grant (dar_step shard.old grant) }
    ensures shows { IsTrue (is_out shard.old grant)
        → ShowsRelease (dar_step shard.old grant) result }
    ensures leaves { IsTrue (is_out shard.old grant)
        → LeavesNone grant (past_of shard.old) (past_of shard.new) result }
    ensures unknown { IsFalse (is_out shard.old grant)
        → (shard.new ≡ shard.old) × (result ≡ Rel.Gone) }
{
    shard.release(grant, How::Drop)
}

/// Ends the quarantine and leaves the key's value: its entry, its other quarantines and each other key
/// are as before. Gone as for `dar`. It takes no memory.
pub fn abort(shard: &mut Shard, grant: Grant) -> Rel
    ensures out { IsTrue (is_out shard.old grant)
        → shard.new ≡ returned shard.old grant (abort_step shard.old grant) }
    ensures shows { IsTrue (is_out shard.old grant)
        → ShowsRelease (abort_step shard.old grant) result }
    ensures leaves { IsTrue (is_out shard.old grant)
        → LeavesValue grant (past_of shard.old) (past_of shard.new) result }
    ensures unknown { IsFalse (is_out shard.old grant)
        → (shard.new ≡ shard.old) × (result ≡ Rel.Gone) }
{
    shard.release(grant, How::Keep)
}
