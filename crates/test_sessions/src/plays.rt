// A session that plays a table: it wants what each row says, and is told what stands beside it.
ghost use Rattle.std.specs.Prelude.{IfSome, pos};
ghost use Rattle.key_shard.specs.Answers.{FitsShift};
ghost use Rattle.session_client.specs.Follows.{IsReady};
ghost use Rattle.session_client.specs.Plans.{IsPlan};

use crate::texts::wanted_text;
use key_shard::{Got, Grant, Raising, Rel, SetAnswer, Shard};
use lease_table::Mode;
use rows_model::{Kind, QKey, Sid, Txn, Value, touches};
use run_inputs::{Act, Script};
use session_client::{Fault, Grants, Outcome, Plan, Reply, Session, Wanted};
use sql_keeper::{AfterFault, Answer, CommitFault};
use std::alloc::Global;
use std::process::Abort;

pub const WHO: Sid = Sid { number: 5 };

pub const OTHER: Sid = Sid { number: 9 };

pub const PROFILE: QKey = QKey {
    kind: Kind::Profile,
    id: 2,
};

pub const PENDING: QKey = QKey {
    kind: Kind::Pending,
    id: 2,
};

pub const COMMITTED: Outcome = Outcome::Committed { number: 1 };

pub const REJECTED: Outcome = Outcome::NotCommitted {
    fault: CommitFault::Rejected { index: 0 },
};

pub fn new_shard(rt: &impl Abort, alloc: Global) -> Shard {
    Shard::new(alloc, 0, 1, 8, 100, 1).expect(rt, "memory")
}

/// Another session stores this text on the key, with the stamp 0.
pub fn store(rt: &impl Abort, alloc: Global, shard: &mut Shard, key: QKey, text: &str) {
    match shard.get(key, OTHER, 0, 0) {
        Ok(Got::Lease { token }) => {
            let value = value_of(rt, alloc, text);
            let answer = shard.set(key, token, value, 0, 0);
            assert!(rt; matches!(answer, Ok(SetAnswer::Stored { evicted: None })));
        }
        _ => panic!(rt; "no lease"),
    }
}

/// A session quarantines the key of a shard in this mode.
pub fn hold(rt: &impl Abort, shard: &mut Shard, key: QKey, who: Sid, mode: Mode)
    requires { FitsShift mode (pos 0) }
{
    match shard.quarantine(key, who, mode, 0, 0) {
        Ok(answer) => Reply::Quar { answer }.let_go(),
        Err(_) => panic!(rt; "no quarantine"),
    }
}

/// The plan, if a session takes it.
fn fit(plan: Plan) -> Option<Plan>
    ensures { IfSome result IsPlan }
{
    match plan {
        Plan::Read { key, floor } => Some(Plan::Read { key, floor }),
        Plan::Write { mode, txn } => Some(Plan::Write { mode, txn }),
        Plan::Quit { mode, txn } => Some(Plan::Quit { mode, txn }),
        Plan::Raise { txn } => Some(Plan::Raise { txn }),
        Plan::Renew { mode, txn } => Some(Plan::Renew { mode, txn }),
        Plan::Look { mode, key, txn } => {
            if touches(&txn, &key) {
                Some(Plan::Look { mode, key, txn })
            } else {
                None
            }
        }
        Plan::Skip { key, txn } => {
            if touches(&txn, &key) {
                Some(Plan::Skip { key, txn })
            } else {
                None
            }
        }
    }
}

/// The plan that a line of a script says.
pub fn plan_of(rt: &impl Abort, alloc: Global, line: &str) -> Plan {
    let text = format!(in alloc; "members 9\n{line}\nend").expect(rt, "memory");
    match Script::parse(alloc, text.as_bytes()) {
        Ok(script) => match script.into_acts().pop() {
            Some(Act::Add { plan }) => plan,
            _ => panic!(rt; "no plan: {line}"),
        },
        Err(_) => panic!(rt; "no script: {line}"),
    }
}

/// A session of the plan that a line of a script says.
pub fn begun(rt: &impl Abort, alloc: Global, line: &str) -> Session
    ensures { IsReady result }
{
    match fit(plan_of(rt, alloc, line)) {
        Some(plan) => match Session::new(alloc, WHO, plan) {
            Ok(session) => session,
            Err(_) => panic!(rt; "memory"),
        },
        None => panic!(rt; "no plan of a session: {line}"),
    }
}

/// Tells the session a reply that belongs to its request.
pub fn tell(rt: &impl Abort, session: &mut Session, reply: Reply)
    ensures { IsReady session.new }
{
    if session.takes(&reply) {
        assert!(rt; session.hear(reply) == Ok(()));
    } else {
        reply.let_go();
        panic!(rt; "no reply to that");
    }
}

/// Whether a session takes a reply, which is let go.
pub fn takes(session: &Session, reply: Reply) -> bool {
    let taken = session.takes(&reply);
    reply.let_go();
    taken
}

/// The text as a value.
pub fn value_of(rt: &impl Abort, alloc: Global, text: &str) -> Value {
    Value::of(alloc, text.as_bytes()).expect(rt, "memory")
}

/// A lookup: what the shard answers, or another answer.
fn look_up(
    rt: &impl Abort,
    alloc: Global,
    shard: &mut Shard,
    asked: (QKey, u64),
    text: &str,
) -> Reply {
    let got = match text {
        "own" => Got::Own,
        "hit" => Got::Hit {
            value: value_of(rt, alloc, "1"),
            stamp: 0,
        },
        "lease" => Got::Lease { token: 7 },
        "spent" => {
            return Reply::Fault {
                fault: Fault::Spent,
            };
        }
        _ => match shard.get(asked.0, WHO, asked.1, 0) {
            Ok(got) => got,
            Err(fault) => panic!(rt; "{fault:?}"),
        },
    };
    Reply::Got { got }
}

/// What the shard answers to a quarantine.
fn quarantine(rt: &impl Abort, shard: &mut Shard, key: QKey, mode: Mode, by: i32) -> Reply
    requires { FitsShift mode by }
{
    match shard.quarantine(key, WHO, mode, by, 0) {
        Ok(answer) => Reply::Quar { answer },
        Err(fault) => panic!(rt; "{fault:?}"),
    }
}

/// What the shard answers to a set, for which nothing makes room.
fn set(rt: &impl Abort, shard: &mut Shard, key: QKey, token: u64, put: (Value, u64)) -> Reply {
    let (value, stamp) = put;
    match shard.set(key, token, value, stamp, 0) {
        Ok(answer) => {
            assert!(rt; matches!(answer, SetAnswer::Stored { evicted: None }));
            Reply::Set { answer }
        }
        Err(fault) => panic!(rt; "{fault:?}"),
    }
}

/// The store's answer after a transaction, or why there is none.
fn stage(rt: &impl Abort, alloc: Global, txn: Txn, text: &str) -> Reply {
    if text == "rejected" {
        let fault = AfterFault::Rejected { index: 0 };
        return Reply::NotStaged { fault, txn };
    }
    let value = value_of(rt, alloc, text);
    Reply::Staged { value, txn }
}

/// The first commit, or why it isn't made.
fn commit(txn: Txn, grants: Grants, text: &str) -> Reply {
    let fault = match text {
        "rejected" => CommitFault::Rejected { index: 0 },
        "uncovered" => CommitFault::Uncovered { key: PROFILE },
        _ => {
            return Reply::Committed {
                number: 1,
                txn,
                grants,
            };
        }
    };
    Reply::NotCommitted { fault, txn, grants }
}

/// A release of a quarantine that no longer stands.
fn release(grant: Grant) -> Reply {
    grant.let_go();
    Reply::Rel { answer: Rel::Gone }
}

/// A release with a new value, for which there may be no memory.
fn replace(grant: Grant, text: &str) -> Reply {
    if text == "back" {
        return Reply::SarBack { grant };
    }
    release(grant)
}

/// What the shard answers to a raise, or that the quarantine is gone, or that memory ran out.
fn raise(rt: &impl Abort, shard: &mut Shard, grant: Grant, text: &str) -> Reply {
    if text == "back" {
        return Reply::RaiseBack { grant };
    }
    if text == "gone" {
        grant.let_go();
        return Reply::Raise {
            answer: Raising::Gone,
        };
    }
    if grant.mode() != Mode::Invalidate {
        grant.let_go();
        panic!(rt; "not to invalidate");
    }
    match shard.raise(grant) {
        Ok(answer) => Reply::Raise { answer },
        Err(grant) => {
            grant.let_go();
            panic!(rt; "memory")
        }
    }
}

/// What the shard answers to a renewal, or that memory ran out.
fn renew(shard: &mut Shard, grant: Grant, text: &str) -> Reply {
    let answer = if text == "memory" {
        None
    } else {
        shard.renew(&grant, 0).ok()
    };
    Reply::Renew { grant, answer }
}

/// What a request is told: by a shard, or as a word says.
fn reply_to(
    rt: &impl Abort,
    alloc: Global,
    shard: &mut Shard,
    wanted: Wanted,
    text: &str,
) -> Reply {
    match wanted {
        Wanted::Get { key, floor } => look_up(rt, alloc, shard, (key, floor), text),
        Wanted::Ask { key } => answer(rt, alloc, key, text),
        Wanted::Staged { key: _, txn } => stage(rt, alloc, txn, text),
        Wanted::Set {
            key,
            token,
            value,
            stamp,
        } => set(rt, shard, key, token, (value, stamp)),
        Wanted::QaReg { key } => quarantine(rt, shard, key, Mode::Invalidate, 0),
        Wanted::QaRead { key } => quarantine(rt, shard, key, Mode::Refresh, 0),
        Wanted::Delta { key, by } => quarantine(rt, shard, key, Mode::Delta, by),
        Wanted::Commit { txn, grants } => commit(txn, grants, text),
        Wanted::End => Reply::End { was: true },
        Wanted::Dar { grant } | Wanted::Apply { grant, stamp: _ } | Wanted::Abort { grant } => {
            release(grant)
        }
        Wanted::Sar {
            grant,
            value: _,
            stamp: _,
        } => replace(grant, text),
        Wanted::Raise { grant } => raise(rt, shard, grant, text),
        Wanted::Renew { grant } => renew(shard, grant, text),
        Wanted::Nothing => Reply::Nothing,
    }
}

/// The store's answer for a key, with the stamp 4.
pub fn answer(rt: &impl Abort, alloc: Global, key: QKey, text: &str) -> Reply {
    Reply::Answer {
        answer: Answer {
            key,
            value: value_of(rt, alloc, text),
            stamp: 4,
        },
    }
}

/// The session wants this, and is told that.
fn step(rt: &impl Abort, alloc: Global, session: &mut Session, shard: &mut Shard, row: (&str, &str))
    requires { IsReady session.old }
    ensures { IsReady session.new }
{
    let (want, its_text) = row;
    assert!(rt; session.done() == None);
    let wanted = session.wants();
    let text = wanted_text(alloc, &wanted).expect(rt, "memory");
    assert!(rt; text.as_str() == want, "{text} is wanted, and not {want}");
    let reply = reply_to(rt, alloc, shard, wanted, its_text);
    tell(rt, session, reply);
}

/// The session plays each row.
pub fn steps(
    rt: &impl Abort,
    alloc: Global,
    session: &mut Session,
    shard: &mut Shard,
    rows: &[(&str, &str)],
)
    requires { IsReady session.old }
    ensures { IsReady session.new }
{
    for row in rows.iter() {
        step(rt, alloc, session, shard, *row);
    }
}

/// The session wants nothing more, and ended so.
pub fn ends(rt: &impl Abort, mut session: Session, outcome: Outcome)
    requires { IsReady session }
{
    assert!(rt; session.done() == Some(outcome));
    let wanted = session.wants();
    assert!(rt; matches!(&wanted, Wanted::Nothing));
    wanted.let_go();
    tell(rt, &mut session, Reply::Nothing);
    assert!(rt; session.done() == Some(outcome));
    session.let_go();
}

/// A session of this plan plays each row at a shard, and ends so.
pub fn plays(
    rt: &impl Abort,
    alloc: Global,
    shard: &mut Shard,
    line: &str,
    rows: &[(&str, &str)],
    outcome: Outcome,
) {
    let mut session = begun(rt, alloc, line);
    steps(rt, alloc, &mut session, shard, rows);
    ends(rt, session, outcome);
}

/// The same at a new shard.
pub fn plays_anew(
    rt: &impl Abort,
    alloc: Global,
    line: &str,
    rows: &[(&str, &str)],
    outcome: Outcome,
) {
    let mut shard = new_shard(rt, alloc);
    plays(rt, alloc, &mut shard, line, rows, outcome);
}
