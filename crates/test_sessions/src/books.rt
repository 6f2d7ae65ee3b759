// What a book bears out, and the form of each request that it doesn't: each row of the table once.
use crate::plays::{OTHER, PROFILE, WHO, new_shard, plan_of, value_of};
use desk_book::{Book, Form, Ticket};
use key_shard::{Grant, QAnswer};
use lease_table::Mode;
use rows_model::{Kind, QKey, Txn};
use session_client::{Grants, Plan, Reply, Wanted};
use sql_keeper::Answer;
use std::alloc::Global;
use std::process::Abort;

/// How many invitations to the member are pending.
const COUNT: QKey = QKey {
    kind: Kind::NPending,
    id: 2,
};

/// How far the session has come that a book is of.
#[derive(Clone, Copy)]
enum Stage {
    /// It reads, and was given the lease of token 7 on the profile, and then the answer `m2 0 0` of stamp 4.
    Reads,
    /// It writes, and holds the grant of its case.
    Writes,
    /// Its end was answered.
    Ended,
    /// Its transaction is the commit of number 1.
    Committed,
    /// Another session has begun since.
    Gone,
}

/// A request with the grant of its case, or without.
#[derive(Clone, Copy)]
enum Asked {
    /// To set this token, text and stamp on the profile.
    Set(u64, &'static str, u64),
    /// To put this text with this stamp.
    Put(&'static str, u64),
    PutNothing,
    /// To shift, with this stamp.
    Shift(u64),
    Drop,
    Keep,
    Raise,
    Renew,
    Commit,
    QaReg,
    QaRead,
    Delta,
}

const END_DROP: Form = Form::EndDrop { session: WHO };

const TABLE: &[(Stage, Asked, Form)] = &[
    (Stage::Reads, Asked::Set(7, "m2 0 0", 4), Form::AsAsked),
    (Stage::Reads, Asked::Set(6, "m2 0 0", 4), Form::VoidSet),
    (Stage::Reads, Asked::Set(7, "m2 0 1", 4), Form::VoidSet),
    (Stage::Reads, Asked::Set(7, "m2 0 0", 5), Form::VoidSet),
    (Stage::Gone, Asked::Set(7, "m2 0 0", 4), Form::VoidSet),
    (Stage::Committed, Asked::Put("bob 0 1", 1), Form::AsAsked),
    (Stage::Committed, Asked::Put("bob 0 0", 1), Form::NoValue),
    (Stage::Committed, Asked::Put("bob 0 1", 2), Form::NoValue),
    (Stage::Writes, Asked::Put("bob 0 1", 1), END_DROP),
    (Stage::Gone, Asked::Put("bob 0 1", 1), END_DROP),
    (Stage::Committed, Asked::PutNothing, Form::AsAsked),
    (Stage::Ended, Asked::PutNothing, END_DROP),
    (Stage::Committed, Asked::Shift(1), Form::AsAsked),
    (Stage::Committed, Asked::Shift(2), Form::DropOnly),
    (Stage::Writes, Asked::Shift(1), END_DROP),
    (Stage::Committed, Asked::Drop, Form::AsAsked),
    (Stage::Writes, Asked::Drop, END_DROP),
    (Stage::Writes, Asked::Raise, Form::AsAsked),
    (Stage::Committed, Asked::Raise, Form::Shared),
    (Stage::Gone, Asked::Raise, END_DROP),
    (Stage::Gone, Asked::Renew, Form::AsAsked),
    (Stage::Writes, Asked::Commit, Form::AsAsked),
    (Stage::Reads, Asked::Commit, Form::HeldAlone),
    (Stage::Gone, Asked::Commit, Form::NotCommitted),
    (Stage::Ended, Asked::Keep, Form::AsAsked),
    (Stage::Writes, Asked::Keep, END_DROP),
    (Stage::Committed, Asked::Keep, END_DROP),
    (Stage::Writes, Asked::QaReg, Form::AsAsked),
    (
        Stage::Reads,
        Asked::QaReg,
        Form::Refused {
            mode: Mode::Invalidate,
        },
    ),
    (
        Stage::Committed,
        Asked::QaRead,
        Form::Refused {
            mode: Mode::Refresh,
        },
    ),
    (
        Stage::Gone,
        Asked::Delta,
        Form::Refused { mode: Mode::Delta },
    ),
];

/// The grant of a case: to refresh for a new value, of a delta for a shift, and else to invalidate.
fn grant_of(rt: &impl Abort, alloc: Global, asked: Asked) -> Grant {
    let mut shard = new_shard(rt, alloc);
    let answer = match asked {
        Asked::Put(..) | Asked::PutNothing => shard.quarantine(PROFILE, WHO, Mode::Refresh, 0, 0),
        Asked::Shift(_) => shard.quarantine(COUNT, WHO, Mode::Delta, 1, 0),
        _ => shard.quarantine(PROFILE, WHO, Mode::Invalidate, 0, 0),
    };
    match answer {
        Ok(QAnswer::Granted { grant, old: _ }) => grant,
        Ok(answer) => {
            Reply::Quar { answer }.let_go();
            panic!(rt; "no grant")
        }
        Err(_) => panic!(rt; "no answer"),
    }
}

/// 1 invites 2, who takes another name.
fn txn_of(rt: &impl Abort, alloc: Global) -> Txn {
    match plan_of(rt, alloc, "write 1 invalidate invite 1 2 + rename 2 bob") {
        Plan::Write { mode: _, txn } => txn,
        _ => panic!(rt; "no transaction"),
    }
}

/// The book of a session that has come so far, and holds the grant unless it reads.
fn book_at(rt: &impl Abort, alloc: Global, stage: Stage, grant: &Grant) -> Book {
    let mut book = Book::new(alloc);
    if let Stage::Reads = stage {
        book.begin(WHO, false);
        book.note_lease(WHO, PROFILE, 7);
        book.room_for_answer().expect(rt, "memory");
        let value = value_of(rt, alloc, "m2 0 0");
        book.note_answer(
            WHO,
            Answer {
                key: PROFILE,
                value,
                stamp: 4,
            },
        );
        return book;
    }
    book.begin(WHO, true);
    book.room_for_grant().expect(rt, "memory");
    let by = if grant.mode() == Mode::Delta { 1 } else { 0 };
    let old = value_of(rt, alloc, "m2 0 0");
    book.note_grant(WHO, Ticket::of(grant), Some((old, 0)), by);
    match stage {
        Stage::Ended => book.note_end(WHO),
        Stage::Committed => book.note_commit(WHO, 1, txn_of(rt, alloc)),
        Stage::Gone => book.begin(OTHER, true),
        Stage::Reads | Stage::Writes => {}
    }
    book
}

/// The request of a case.
fn request_of(rt: &impl Abort, alloc: Global, asked: Asked, grant: Grant) -> Wanted {
    match asked {
        Asked::Put(text, stamp) => Wanted::Sar {
            grant,
            value: Some(value_of(rt, alloc, text)),
            stamp,
        },
        Asked::PutNothing => Wanted::Sar {
            grant,
            value: None,
            stamp: 1,
        },
        Asked::Shift(stamp) => Wanted::Apply { grant, stamp },
        Asked::Drop => Wanted::Dar { grant },
        Asked::Keep => Wanted::Abort { grant },
        Asked::Raise => Wanted::Raise { grant },
        Asked::Renew => Wanted::Renew { grant },
        Asked::Commit => {
            let mut grants = Grants::new(alloc, 1).expect(rt, "memory");
            grants.add(grant);
            Wanted::Commit {
                txn: txn_of(rt, alloc),
                grants,
            }
        }
        Asked::Set(..) | Asked::QaReg | Asked::QaRead | Asked::Delta => {
            grant.let_go();
            bare_request_of(rt, alloc, asked)
        }
    }
}

/// The request of a case that has no grant.
fn bare_request_of(rt: &impl Abort, alloc: Global, asked: Asked) -> Wanted {
    match asked {
        Asked::Set(token, text, stamp) => Wanted::Set {
            key: PROFILE,
            token,
            value: value_of(rt, alloc, text),
            stamp,
        },
        Asked::QaReg => Wanted::QaReg { key: PROFILE },
        Asked::QaRead => Wanted::QaRead { key: PROFILE },
        _ => Wanted::Delta { key: COUNT, by: 1 },
    }
}

#[test]
fn bears_out_what_it_was_told(rt: HostRuntime) {
    let alloc = rt.alloc();
    for (stage, asked, form) in TABLE.iter() {
        let grant = grant_of(&rt, alloc, *asked);
        let book = book_at(&rt, alloc, *stage, &grant);
        let request = request_of(&rt, alloc, *asked, grant);
        let found = book.form(WHO, &request);
        request.let_go();
        assert!(rt; found == Ok(*form));
    }
}
