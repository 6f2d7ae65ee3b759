// A desk that tells its record and the steps of its sweep: it keeps every request whole, and a reply
// follows from its request.
ghost use Rattle.std.specs.Prelude.{◌≡◌, [], Some, None, reverse};
ghost use Rattle.session_client.specs.Belongs.{Belongs};
ghost use Rattle.session_client.specs.Desks.{Began, Asked};
ghost use Rattle.session_client.specs.declared.replies.Wanted.TheVariants as wanted;
ghost use Rattle.test_hubs.specs.Telling.{reply_to};

use gate_workers::{Mark, Request, Response};
use key_shard::{Got, QAnswer, SetAnswer};
use rows_model::{Memory, Sid, Txn, Value};
use session_client::{Desk, Grants, Reply, Wanted};
use sql_keeper::Answer;
use std::alloc::Global;
use std::marker::Model;
use std::process::Abort;

/// A session, and what is left of a request of its and the reply, or none where it began.
#[derive(Clone, Copy)]
pub struct CallMark {
    pub who: Sid,
    pub mark: Option<Mark>,
}

/// A call that a desk answered. Contracts see the call.
struct Kept {
    who: Sid,
    /// Where the session began: whether it writes.
    writes: bool,
    /// The request, where one was made.
    made: Option<Wanted>,
}

impl Model for Kept {
    ghost use Rattle.std.specs.Option.{option_map, unwrap_or};
    ghost use Rattle.session_client.specs.Desks.{Exchange, Began, Asked};
    ghost use Rattle.test_hubs.specs.Telling.{reply_to};

    ghost Value = { Exchange };

    ghost view = { λ k. unwrap_or (option_map (λ wanted. Asked k.who wanted (reply_to wanted)) k.made) (Began k.writes k.who) };
}

impl Kept {
    /// A session of this number began.
    fn began(writes: bool, who: Sid) -> Kept
        ensures { result ≡ Began writes who }
    {
        Kept {
            who,
            writes,
            made: None,
        }
    }

    /// The session made this request.
    fn asked(who: Sid, wanted: Wanted) -> Kept
        ensures { result ≡ Asked who wanted (reply_to wanted) }
    {
        Kept {
            who,
            writes: false,
            made: Some(wanted),
        }
    }

    fn let_go(self) {
        let Kept {
            who: _,
            writes: _,
            made,
        } = self;
        if let Some(wanted) = made {
            wanted.let_go();
        }
    }
}

/// A desk of sessions that have quarantined all keys themselves: each lease is given, each answer is
/// empty and is stored, and each transaction is the first commit.
pub struct TellingDesk<'a, R: Abort> {
    rt: &'a R,
    alloc: Global,
    /// How many sessions began.
    begun: u64,
    calls: Vec<Kept>,
    /// What is left of the calls.
    marks: Vec<CallMark>,
    /// How many steps of its sweep it took.
    tended: u64,
}

impl<'a, R: Abort> TellingDesk<'a, R> {
    /// A desk at which no session began. It ends the process where memory runs out for its record, and
    /// at a request that sessions without grants don't make.
    pub fn new(rt: &'a R, alloc: Global) -> TellingDesk<'a, R> {
        TellingDesk {
            rt,
            alloc,
            begun: 0,
            calls: Vec::new(alloc),
            marks: Vec::new(alloc),
            tended: 0,
        }
    }

    /// How many steps of its sweep it took.
    pub fn tended(&self) -> u64 {
        self.tended
    }

    /// What is left of its calls, in their order. They are let go.
    pub fn into_marks(self) -> Vec<CallMark> {
        let TellingDesk {
            rt: _,
            alloc: _,
            begun: _,
            mut calls,
            marks,
            tended: _,
        } = self;
        while let Some(call) = calls.pop() {
            call.let_go();
        }
        calls.destroy_empty();
        marks
    }
}

impl<'a, R: Abort> Desk for TellingDesk<'a, R> {
    ghost begun = { λ desk. None };

    ghost record_of = { λ desk. Some (reverse desk.calls.items) };

    ghost tends = { λ desk. Some desk.tended };

    fn begin(&mut self, writes: bool) -> Result<Sid, Memory> {
        self.begun = self.begun.saturating_add(1);
        let who = Sid { number: self.begun };
        self.calls.reserve(1)?;
        self.marks.push(CallMark { who, mark: None })?;
        self.calls.push_reserved(Kept::began(writes, who));
        Ok(who)
    }

    fn call(&mut self, who: Sid, wanted: Wanted) -> Reply {
        let asked = Request::of(&wanted);
        let (wanted, reply) = answer(self.rt, self.alloc, wanted);
        let mark = Some(Mark {
            asked,
            response: Response::of(&reply),
        });
        if self.calls.reserve(1).is_err() || self.marks.push(CallMark { who, mark }).is_err() {
            panic!(self.rt; "memory");
        }
        self.calls.push_reserved(Kept::asked(who, wanted));
        reply
    }

    fn tend(&mut self) {
        let Some(tended) = self.tended.checked_add(1) else {
            panic!(self.rt; "too many steps");
        };
        self.tended = tended;
    }
}

/// The request, to be kept, and its reply.
fn answer<R: Abort>(rt: &R, alloc: Global, wanted: Wanted) -> (Wanted, Reply)
    ensures request { result.0 ≡ wanted }
    ensures reply { result.1 ≡ reply_to wanted }
    ensures belongs { (who : Sid) → Belongs who wanted result.1 }
{
    match wanted {
        Wanted::Commit { txn, grants } => answer_commit(rt, alloc, txn, grants),
        other => {
            let reply = reply_of(rt, alloc, &other);
            (other, reply)
        }
    }
}

/// The transaction is the first commit. No grants were given, so none are handed in.
fn answer_commit<R: Abort>(rt: &R, alloc: Global, txn: Txn, grants: Grants) -> (Wanted, Reply)
    ensures request { result.0 ≡ wanted.Commit txn grants }
    ensures reply { result.1 ≡ reply_to (wanted.Commit txn grants) }
    ensures belongs { (who : Sid) → Belongs who (wanted.Commit txn grants) result.1 }
{
    let kept = Wanted::Commit {
        txn: copy(rt, &txn),
        grants: no_grants(rt, alloc, &grants),
    };
    let reply = Reply::Committed {
        number: 1,
        txn,
        grants,
    };
    (kept, reply)
}

fn copy<R: Abort>(rt: &R, txn: &Txn) -> Txn
    ensures { result ≡ txn.now }
{
    match txn.copy() {
        Ok(copy) => copy,
        Err(_) => panic!(rt; "memory"),
    }
}

/// A list with as much room, where it has no grants, since none was given.
fn no_grants<R: Abort>(rt: &R, alloc: Global, grants: &Grants) -> Grants
    ensures { result ≡ grants.now }
{
    if !grants.is_empty() {
        panic!(rt; "a grant");
    }
    match Grants::new(alloc, grants.room()) {
        Ok(grants) => grants,
        Err(_) => panic!(rt; "memory"),
    }
}

/// The reply to any other request.
fn reply_of<R: Abort>(rt: &R, alloc: Global, wanted: &Wanted) -> Reply
    ensures reply { result ≡ reply_to wanted.now }
    ensures belongs { (who : Sid) → Belongs who wanted.now result }
{
    match wanted {
        Wanted::Get { key: _, floor: _ } => Reply::Got {
            got: Got::Lease { token: 1 },
        },
        Wanted::Ask { key } => {
            let Ok(value) = Value::of(alloc, b"") else {
                panic!(rt; "memory");
            };
            Reply::Answer {
                answer: Answer {
                    key: *key,
                    value,
                    stamp: 0,
                },
            }
        }
        Wanted::Set { .. } => Reply::Set {
            answer: SetAnswer::Stored { evicted: None },
        },
        Wanted::QaReg { .. } | Wanted::QaRead { .. } | Wanted::Delta { .. } => Reply::Quar {
            answer: QAnswer::Held,
        },
        _ => panic!(rt; "a request of a session with grants"),
    }
}
