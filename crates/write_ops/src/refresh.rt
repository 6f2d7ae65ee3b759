ghost use Rattle.std.specs.Prelude.{◌≡◌, Some, None, Ok, IfErr, IfOk, IsOk, IsTrue, OnErr, OnOk};
ghost use Rattle.std.specs.Bool.{IsFalse};
ghost use Rattle.key_shard.specs.Replies.{ShowsQuarantine, ShowsRelease};
ghost use Rattle.key_shard.specs.Shards.{past_of, is_out, stepped, returned, refusal, Refuses};
ghost use Rattle.write_ops.specs.Releases.{LeavesNew, read_step, sar_step};

use key_shard::{Back, Grant, How, QAnswer, Rel, Shard, ShardFault};
use lease_table::Mode;
use rows_model::{QKey, Sid, Value};

/// Quarantines a key for a session, to refresh its value: where the key has an entry, its value and
/// stamp come along with the grant. A session that has this quarantine already is answered Held, and
/// one in whose way another stands, of its own too, Refused. A key of another shard is a `Stranger`,
/// and a shard without another token is `Spent`. After a refusal and after a fault everything is as
/// before.
pub fn qa_read(shard: &mut Shard, key: QKey, sid: Sid, now: u64) -> Result<QAnswer, ShardFault>
    ensures refusal { let step = read_step shard.old key sid now in
        Refuses (refusal shard.old key step) result }
    ensures step { let step = read_step shard.old key sid now in
        OnOk result (shard.new ≡ stepped shard.old step) }
    ensures shows { let step = read_step shard.old key sid now in
        IfOk result (ShowsQuarantine shard.old.terms (past_of shard.old) step) }
    ensures err { OnErr result (shard.new ≡ shard.old) }
{
    shard.quarantine(key, sid, Mode::Refresh, 0, now)
}

/// Puts a new value on a key that was quarantined to refresh, with this stamp, and ends the
/// quarantine: the value stands in front, and in a full shard the last entry makes room, and is named.
/// Without a new value the key's entry is dropped, which takes no memory. The key's other quarantines
/// and each other key but the named one are as before. Where the quarantine stands no longer the answer
/// is Gone, and each key is as before, its value too; and so for a grant that isn't out at this shard.
/// For want of memory grant and value come back, and everything is as before: `dar` can follow.
pub fn sar(shard: &mut Shard, grant: Grant, value: Option<Value>, stamp: u64) -> Result<Rel, Back>
    requires { grant.mode ≡ Mode.Refresh }
    ensures out { IsTrue (is_out shard.old grant) → OnOk result (
        shard.new ≡ returned shard.old grant (sar_step shard.old grant value stamp)) }
    ensures shows { IsTrue (is_out shard.old grant)
        → IfOk result (ShowsRelease (sar_step shard.old grant value stamp)) }
    ensures leaves { IsTrue (is_out shard.old grant) → IfOk result (
        LeavesNew value stamp grant (past_of shard.old) (past_of shard.new)) }
    ensures unknown { IsFalse (is_out shard.old grant)
        → (shard.new ≡ shard.old) × (result ≡ Ok Rel.Gone) }
    ensures no_memory { value ≡ None → IsOk result }
    ensures back { IfErr result (λ back. (back.grant ≡ grant) × (Some back.value ≡ value)) }
    ensures err { OnErr result (shard.new ≡ shard.old) }
{
    match value {
        Some(value) => shard.replace(grant, value, stamp),
        None => Ok(shard.release(grant, How::Drop)),
    }
}
