// What a session that quits leaves of a shard.
ghost use Rattle.std.specs.Prelude.{◌≡◌, None, IfOk, IfErr, IfSome};
ghost use Rattle.lease_table.specs.declared.records.Mode.{Mode};
ghost use Rattle.rows_model.specs.declared.keys.QKey.{QKey};
ghost use Rattle.key_shard.specs.Shards.{past_of};
ghost use Rattle.session_client.specs.Belongs.{Belongs, IsQuarantineOf};
ghost use Rattle.session_client.specs.Follows.{plan_of};
ghost use Rattle.callers.specs.Quits.{IsQuit, IsGivingUp, IsUnderWay, IsQuarantineReply, HasSameEntries};

use key_shard::{QAnswer, Shard, ShardFault};
use rows_model::Sid;
use session_client::{Fault, Reply, Session, Wanted};
use write_ops::{DeltaFault, abort, iq_delta, qa_read, qa_reg};

/// A session that quits quarantines keys, is ended at the store, and ends its quarantines with each
/// value kept. It never wants to get, store, drop, put or shift a value, nor to commit.
pub fn wants_to_quit(session: &mut Session) -> Wanted
    requires quits { IsQuit (plan_of session.old) }
    requires under_way { IsUnderWay session.old }
    ensures { IsGivingUp result }
{
    session.wants()
}

/// A session that quits leaves every entry of a shard as it is. Its next request is made there, and it is
/// told what came of it. A request that isn't the shard's comes back and is out: to be ended at the
/// store, nothing, or a quarantine of a key that is another shard's or can't be shifted.
pub fn quit_on(session: &mut Session, shard: &mut Shard, now: u64) -> Option<Wanted>
    requires quits { IsQuit (plan_of session.old) }
    requires under_way { IsUnderWay session.old }
    ensures entries { HasSameEntries (past_of shard.old) (past_of shard.new) }
    ensures plan { plan_of session.new ≡ plan_of session.old }
    ensures goes_on { result ≡ None → IsUnderWay session.new }
    ensures back { IfSome result IsGivingUp }
{
    let sid = session.sid();
    let request = session.wants();
    match give_up_on(shard, sid, request, now) {
        Ok(reply) => {
            let Ok(()) = session.hear(reply) else {
                unreachable!()
            };
            None
        }
        Err(request) => Some(request),
    }
}

/// Makes the request of one that gives up, where it is one on this shard, or gives it back.
fn give_up_on(shard: &mut Shard, sid: Sid, request: Wanted, now: u64) -> Result<Reply, Wanted>
    requires { IsGivingUp request }
    ensures entries { HasSameEntries (past_of shard.old) (past_of shard.new) }
    ensures belongs { IfOk result (Belongs sid request) }
    ensures back { IfErr result (λ back. back ≡ request) }
{
    match request {
        Wanted::QaReg { key } => match told_of(qa_reg(shard, key, sid, now)) {
            Some(reply) => Ok(reply),
            None => Err(Wanted::QaReg { key }),
        },
        Wanted::QaRead { key } => match told_of(qa_read(shard, key, sid, now)) {
            Some(reply) => Ok(reply),
            None => Err(Wanted::QaRead { key }),
        },
        Wanted::Delta { key, by } => match told_of_delta(iq_delta(shard, key, sid, by, now)) {
            Some(reply) => Ok(reply),
            None => Err(Wanted::Delta { key, by }),
        },
        Wanted::Abort { grant } => Ok(Reply::Rel {
            answer: abort(shard, grant),
        }),
        other => Err(other),
    }
}

/// What a session is told of a quarantine, where the key is this shard's.
fn told_of(answer: Result<QAnswer, ShardFault>) -> Option<Reply>
    ensures { (who : Sid) (key : QKey) (mode : Mode) → IfOk answer (IsQuarantineOf who key mode) →
        IfSome result (IsQuarantineReply who key mode) }
{
    match answer {
        Ok(its_answer) => Some(Reply::Quar { answer: its_answer }),
        Err(ShardFault::Spent { next: _ }) => Some(Reply::Fault {
            fault: Fault::Spent,
        }),
        Err(ShardFault::Memory) => Some(Reply::Fault {
            fault: Fault::Memory,
        }),
        Err(ShardFault::Stranger { shard: _ }) => None,
    }
}

/// So it is of one to shift, where the key is a count.
fn told_of_delta(answer: Result<QAnswer, DeltaFault>) -> Option<Reply>
    ensures { (who : Sid) (key : QKey) (mode : Mode) → IfOk answer (IsQuarantineOf who key mode) →
        IfSome result (IsQuarantineReply who key mode) }
{
    match answer {
        Ok(its_answer) => Some(Reply::Quar { answer: its_answer }),
        Err(DeltaFault::Shard { fault }) => told_of(Err(fault)),
        Err(DeltaFault::NotCount) => None,
    }
}
