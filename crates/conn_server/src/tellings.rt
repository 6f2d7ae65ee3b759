// What a client is told of the replies of a desk.
ghost use Rattle.std.specs.Prelude.{◌≡◌, ◌<◌, ◌++◌, [], ◌∷◌, ℕ, List, Some, length};
ghost use Rattle.rows_model.specs.declared.changes.Change.{Change};
ghost use Rattle.rows_model.specs.declared.keys.QKey.{QKey};
ghost use Rattle.rows_model.specs.declared.keys.Sid.{Sid};
ghost use Rattle.session_client.specs.Belongs.{Belongs, get_reply};
ghost use Rattle.session_client.specs.declared.replies.Wanted.TheVariants as wanted;
ghost use Rattle.mc_text.specs.declared.commands.Command.TheVariants as commands;
ghost use Rattle.mc_text.specs.declared.replies.LineReply.TheVariants as LineReply;
ghost use Rattle.conn_server.specs.Requests.{fault_reply, got_reply, after_reply, commit_reply, told_of, grants_heard};
ghost use Rattle.conn_server.specs.Tellings.{granted_as, quarantine_as, release_as};

use key_shard::{Blocker, Got, Grant, QAnswer, Rel, SetAnswer};
use mc_text::LineReply;
use rows_model::{QKey, Value};
use session_client::{Fault, Grants, Reply};
use sql_keeper::{AfterFault, CommitFault};

/// Of a reply to a lookup of the key.
#[inline(always)]
pub(crate) fn tell_lookup(key: QKey, heard: Result<Got, Fault>) -> LineReply
    ensures { (who sid : Sid) (floor : ℕ) → Belongs who (wanted.Get key floor) (get_reply heard) →
        result ≡ told_of (commands.IqGet (Some key) sid floor) (get_reply heard) }
{
    match heard {
        Ok(got) => tell_got(key, got),
        Err(fault) => tell_fault(fault),
    }
}

/// Of a reply to a question for the key.
pub(crate) fn tell_answer(heard: Reply) -> LineReply
    ensures { (who sid : Sid) (key : QKey) → Belongs who (wanted.Ask key) heard →
        result ≡ told_of (commands.Ask (Some key) sid) heard }
{
    match heard {
        Reply::Answer { answer } => LineReply::Stamped {
            key: answer.key,
            stamp: answer.stamp,
            value: answer.value,
        },
        Reply::Fault { fault } => tell_fault(fault),
        other => tell_none(other),
    }
}

/// Of a reply to a question for the key after a transaction.
pub(crate) fn tell_staged(key: QKey, heard: Reply) -> LineReply
    ensures { (who sid : Sid) (txn : List Change) → Belongs who (wanted.Staged key txn) heard →
        result ≡ told_of (commands.Stage (Some key) sid txn) heard }
{
    match heard {
        Reply::Staged { value, txn: _ } => LineReply::Unstamped { key, value },
        Reply::NotStaged { fault, txn: _ } => tell_after(fault),
        other => tell_none(other),
    }
}

/// Of a reply to a set.
pub(crate) fn tell_set(heard: Reply) -> LineReply
    ensures { (who : Sid) (key : QKey) (flags exptime bytes token stamp : ℕ) (block : List ℕ) →
        Belongs who (wanted.Set key token block stamp) heard →
        result ≡ told_of (commands.IqSet (Some key) flags exptime bytes token stamp block) heard }
{
    match heard {
        Reply::Set {
            answer: SetAnswer::Stored { .. },
        } => LineReply::Stored,
        Reply::Set {
            answer: SetAnswer::Void,
        } => LineReply::NotStored,
        Reply::Fault { fault } => tell_fault(fault),
        other => tell_none(other),
    }
}

/// Of a reply to a quarantine, whether to refresh or not. One that is given is put last.
pub(crate) fn tell_quarantine(grants: &mut Grants, reads: bool, heard: Reply) -> LineReply
    requires { length grants.old.items < grants.old.room }
    ensures told { result ≡ quarantine_as reads heard }
    ensures items { grants.new.items ≡ grants_heard grants.old.items heard }
    ensures room { grants.new.room ≡ grants.old.room }
{
    match heard {
        Reply::Quar { answer } => match answer {
            QAnswer::Granted { grant, old } => {
                let reply = tell_grant(reads, &grant, old);
                grants.add(grant);
                reply
            }
            QAnswer::Held => LineReply::Held,
            QAnswer::Refused { holder, mode } => LineReply::Refused { holder, mode },
        },
        Reply::Fault { fault } => tell_fault(fault),
        other => tell_none(other),
    }
}

/// Of a reply to a release, where this is told of one that ended its quarantine.
pub(crate) fn tell_release(ended: LineReply, heard: Reply) -> LineReply
    ensures { result ≡ release_as ended heard }
{
    match heard {
        Reply::Rel {
            answer: Rel::Released { .. },
        } => ended,
        Reply::Rel { answer: Rel::Gone } => LineReply::NotFound,
        other => tell_none(other),
    }
}

/// Of a commit that isn't made.
pub(crate) fn tell_not_committed(fault: CommitFault) -> LineReply
    ensures { result ≡ commit_reply fault }
{
    match fault {
        CommitFault::Ended => LineReply::Ended,
        CommitFault::Uncovered { key } => LineReply::Uncovered { key },
        CommitFault::LogFull { count: _ } => LineReply::Full,
        CommitFault::Memory => LineReply::Memory,
        CommitFault::Rejected { index } => LineReply::Rejected { index },
        CommitFault::KeepFault => LineReply::Store,
    }
}

/// Of the answer to a get.
#[inline(always)]
fn tell_got(key: QKey, got: Got) -> LineReply
    ensures { result ≡ got_reply key got }
{
    match got {
        Got::Hit { value, stamp } => LineReply::Stamped { key, stamp, value },
        Got::Lease { token } => LineReply::Lease { token },
        Got::Again {
            standing: Blocker::I,
        } => LineReply::AgainI,
        Got::Again {
            standing: Blocker::Q,
        } => LineReply::AgainQ,
        Got::Own => LineReply::Own,
    }
}

/// Of a store's answer after a transaction that it doesn't give.
fn tell_after(fault: AfterFault) -> LineReply
    ensures { result ≡ after_reply fault }
{
    match fault {
        AfterFault::Rejected { index } => LineReply::Rejected { index },
        AfterFault::Failed => LineReply::Store,
        AfterFault::Memory => LineReply::Memory,
    }
}

/// Of a grant, whether to refresh or not: its token; and to refresh, the value that the key has.
fn tell_grant(reads: bool, grant: &Grant, old: Option<(Value, u64)>) -> LineReply
    ensures { result ≡ granted_as reads grant.now old }
{
    let token = grant.token();
    if !reads {
        return LineReply::Granted { token };
    }
    match old {
        Some((value, stamp)) => LineReply::GrantedStamped {
            token,
            key: grant.key(),
            stamp,
            value,
        },
        None => LineReply::GrantedNone { token },
    }
}

/// Of a request that wasn't made.
fn tell_fault(fault: Fault) -> LineReply
    ensures { result ≡ fault_reply fault }
{
    match fault {
        Fault::Spent => LineReply::Spent,
        Fault::Keep => LineReply::Store,
        Fault::Memory => LineReply::Memory,
    }
}

/// Of a reply that doesn't belong to the request. A desk gives none.
fn tell_none(heard: Reply) -> LineReply
    ensures { result ≡ LineReply.Error }
{
    heard.let_go();
    LineReply::Error
}
