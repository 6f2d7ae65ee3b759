// Requests on a shard that is lent, each one step of its history or none.
ghost use Rattle.std.specs.Prelude.{ℕ, ◌≡◌, ◌≢◌, Some, None, IsTrue, IfOk, OnOk, OnErr};
ghost use Rattle.rows_model.specs.Delta.{is_count};
ghost use Rattle.key_shard.specs.Answers.{IsAtHome, get_step, set_step, raise_step, renew_step};
ghost use Rattle.key_shard.specs.Replies.{ShowsQuarantine};
ghost use Rattle.key_shard.specs.Shards.{past_of, stepped, refusal, Refuses};
ghost use Rattle.session_client.specs.Belongs.{Belongs};
ghost use Rattle.session_client.specs.Desks.{IsProper};
ghost use Rattle.session_client.specs.declared.replies.Reply.TheVariants as Reply;
ghost use Rattle.session_client.specs.declared.replies.Wanted.TheVariants as wanted;
ghost use Rattle.write_ops.specs.Releases.{qa_step, read_step, delta_step, sar_step};
ghost use Rattle.executor.specs.OnShard.{IsFor, fault_of, MakesOnShard, TellsGot, TellsSet, TellsQuarantine, TellsPut, TellsRaise, TellsRenewal};

use key_shard::{Back, Grant, QAnswer, Shard, ShardFault};
use lease_table::Mode;
use rows_model::{QKey, Sid, Value};
use session_client::{Fault, Reply, Wanted};
use write_ops::{DeltaFault, abort, commit_delta, dar, iq_delta, qa_read, qa_reg, sar};

/// Makes a session's request on the shard of its key, at this time: one step of its history, and the
/// reply shows it. Of a shard that rolls a get, a set or a quarantine gives up the steps in memory first,
/// where that is due. Where no token is left it is a `Fault` with `Spent`. For want of memory it is a
/// `Fault` with `Memory`, or the reply that hands the grant back. After either the shard is as before;
/// so it is where a grant isn't out, which is Gone.
pub fn on_shard(shard: &mut Shard, who: Sid, request: Wanted, now: u64) -> Reply
    requires home { IsFor shard.old.terms request }
    requires proper { IsProper request }
    ensures makes { MakesOnShard shard.old who request now shard.new result }
    ensures belongs { Belongs who request result }
{
    match request {
        Wanted::Get { key, floor } => get(shard, who, key, floor, now),
        Wanted::Set {
            key,
            token,
            value,
            stamp,
        } => set(shard, key, token, value, stamp, now),
        Wanted::QaReg { key } => quarantine(shard, who, key, now),
        Wanted::QaRead { key } => quarantine_to_refresh(shard, who, key, now),
        Wanted::Delta { key, by } => quarantine_to_shift(shard, who, key, by, now),
        Wanted::Dar { grant } => Reply::Rel {
            answer: dar(shard, grant),
        },
        Wanted::Sar {
            grant,
            value,
            stamp,
        } => put_or_drop(shard, grant, value, stamp),
        Wanted::Apply { grant, stamp } => Reply::Rel {
            answer: commit_delta(shard, grant, stamp),
        },
        Wanted::Abort { grant } => Reply::Rel {
            answer: abort(shard, grant),
        },
        Wanted::Raise { grant } => raise(shard, grant),
        Wanted::Renew { grant } => renew(shard, grant, now),
        Wanted::Ask { .. }
        | Wanted::Staged { .. }
        | Wanted::Commit { .. }
        | Wanted::End
        | Wanted::Nothing => unreachable!(),
    }
}

fn get(shard: &mut Shard, who: Sid, key: QKey, floor: u64, now: u64) -> Reply
    requires { IsAtHome shard.old.terms key }
    ensures makes { TellsGot shard.old (get_step shard.old.terms (past_of shard.old) key who floor now)
        shard.new result }
    ensures belongs { Belongs who (wanted.Get key floor) result }
{
    match shard.get(key, who, floor, now) {
        Ok(got) => Reply::Got { got },
        Err(fault) => refused(fault),
    }
}

fn set(shard: &mut Shard, key: QKey, token: u64, value: Value, stamp: u64, now: u64) -> Reply
    requires { IsAtHome shard.old.terms key }
    ensures makes { TellsSet shard.old (set_step shard.old.terms (past_of shard.old) key token value
        stamp now) shard.new result }
    ensures belongs { (who : Sid) → Belongs who (wanted.Set key token value stamp) result }
{
    match shard.set(key, token, value, stamp, now) {
        Ok(answer) => Reply::Set { answer },
        Err(_) => Reply::Fault {
            fault: Fault::Memory,
        },
    }
}

fn quarantine(shard: &mut Shard, who: Sid, key: QKey, now: u64) -> Reply
    requires { IsAtHome shard.old.terms key }
    ensures makes { TellsQuarantine shard.old (qa_step shard.old key who now) shard.new result }
    ensures belongs { Belongs who (wanted.QaReg key) result }
{
    match qa_reg(shard, key, who, now) {
        Ok(answer) => Reply::Quar { answer },
        Err(fault) => refused(fault),
    }
}

fn quarantine_to_refresh(shard: &mut Shard, who: Sid, key: QKey, now: u64) -> Reply
    requires { IsAtHome shard.old.terms key }
    ensures makes { TellsQuarantine shard.old (read_step shard.old key who now) shard.new result }
    ensures belongs { Belongs who (wanted.QaRead key) result }
{
    match qa_read(shard, key, who, now) {
        Ok(answer) => Reply::Quar { answer },
        Err(fault) => refused(fault),
    }
}

fn quarantine_to_shift(shard: &mut Shard, who: Sid, key: QKey, by: i32, now: u64) -> Reply
    requires home { IsAtHome shard.old.terms key }
    requires count { IsTrue (is_count key) }
    ensures makes { TellsQuarantine shard.old (delta_step shard.old key who by now) shard.new result }
    ensures belongs { Belongs who (wanted.Delta key by) result }
{
    match delta_on(shard, who, key, by, now) {
        Ok(answer) => Reply::Quar { answer },
        Err(fault) => refused(fault),
    }
}

/// Quarantines a count, to be shifted by this much.
fn delta_on(
    shard: &mut Shard,
    who: Sid,
    key: QKey,
    by: i32,
    now: u64,
) -> Result<QAnswer, ShardFault>
    requires { IsTrue (is_count key) }
    ensures refusal { Refuses (refusal shard.old key (delta_step shard.old key who by now)) result }
    ensures step { OnOk result (shard.new
        ≡ stepped shard.old (delta_step shard.old key who by now)) }
    ensures shows { IfOk result (ShowsQuarantine shard.old.terms (past_of shard.old)
        (delta_step shard.old key who by now)) }
    ensures err { OnErr result (shard.new ≡ shard.old) }
{
    match iq_delta(shard, key, who, by, now) {
        Ok(answer) => Ok(answer),
        Err(DeltaFault::Shard { fault }) => Err(fault),
        Err(DeltaFault::NotCount) => unreachable!(),
    }
}

fn put_or_drop(shard: &mut Shard, grant: Grant, value: Option<Value>, stamp: u64) -> Reply
    requires { IsProper (wanted.Sar grant value stamp) }
    ensures makes { (who : Sid) (now : ℕ) →
        MakesOnShard shard.old who (wanted.Sar grant value stamp) now shard.new result }
    ensures belongs { (who : Sid) → Belongs who (wanted.Sar grant value stamp) result }
{
    match value {
        Some(value) => put(shard, grant, value, stamp),
        None => Reply::Rel {
            answer: dar(shard, grant),
        },
    }
}

fn put(shard: &mut Shard, grant: Grant, value: Value, stamp: u64) -> Reply
    requires { grant.mode ≡ Mode.Refresh }
    ensures makes { TellsPut shard.old grant (sar_step shard.old grant (Some value) stamp)
        shard.new result }
    ensures belongs { (who : Sid) → Belongs who (wanted.Sar grant (Some value) stamp) result }
{
    match sar(shard, grant, Some(value), stamp) {
        Ok(answer) => Reply::Rel { answer },
        Err(Back { grant, value: _ }) => Reply::SarBack { grant },
    }
}

fn raise(shard: &mut Shard, grant: Grant) -> Reply
    requires { grant.mode ≡ Mode.Invalidate }
    ensures makes { TellsRaise shard.old grant (raise_step (past_of shard.old) grant)
        shard.new result }
    ensures belongs { (who : Sid) → Belongs who (wanted.Raise grant) result }
{
    match shard.raise(grant) {
        Ok(answer) => Reply::Raise { answer },
        Err(grant) => Reply::RaiseBack { grant },
    }
}

fn renew(shard: &mut Shard, grant: Grant, now: u64) -> Reply
    ensures makes { TellsRenewal shard.old grant
        (renew_step shard.old.terms (past_of shard.old) grant now) shard.new result }
    ensures belongs { (who : Sid) → Belongs who (wanted.Renew grant) result }
{
    match shard.renew(&grant, now) {
        Ok(answer) => Reply::Renew {
            grant,
            answer: Some(answer),
        },
        Err(_) => Reply::Renew {
            grant,
            answer: None,
        },
    }
}

/// What a session is told where its request on a key of this shard was not made.
fn refused(fault: ShardFault) -> Reply
    requires { (other : ℕ) → fault ≢ ShardFault.Stranger other }
    ensures { result ≡ Reply.Fault (fault_of fault) }
{
    let fault = match fault {
        ShardFault::Spent { next: _ } => Fault::Spent,
        ShardFault::Memory => Fault::Memory,
        ShardFault::Stranger { shard: _ } => unreachable!(),
    };
    Reply::Fault { fault }
}
