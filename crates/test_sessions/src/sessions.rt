ghost use Rattle.session_client.specs.Follows.{IsReady};

use crate::plays::{
    COMMITTED, OTHER, PENDING, PROFILE, REJECTED, WHO, answer, begun, ends, hold, new_shard, plays,
    plays_anew, steps, takes, tell,
};
use key_shard::{Got, Shard};
use lease_table::Mode;
use rows_model::Txn;
use session_client::{Fault, Grants, Outcome, Reply, Session, Wanted};
use sql_keeper::CommitFault;
use std::alloc::Global;
use std::process::Abort;

/// A session that reads the profile.
const READ: &str = "read 1 profile:2 floor 3";

/// A session that commits an invitation, which touches the profile, the list of pending invitations and
/// their number.
const WRITE: &str = "write 1 invalidate invite 1 2";

/// Another session reads the key, and hits.
fn hits(rt: &impl Abort, alloc: Global, shard: &mut Shard) {
    plays(
        rt,
        alloc,
        shard,
        READ,
        &[("get profile:2 3", "shard")],
        Outcome::Hit,
    );
    match shard.get(PROFILE, WHO, 4, 0) {
        Ok(Got::Hit { value, stamp: 4 }) => assert!(rt; value.bytes() == b"a".as_slice()),
        _ => panic!(rt; "not stored"),
    }
}

/// What a reader wants that is given a lease.
const STORES: &[(&str, &str)] = &[
    ("get profile:2 3", "shard"),
    ("ask profile:2", "a"),
    ("set profile:2 1 4 [a]", "shard"),
];

#[test]
fn reads_to_a_stored_answer(rt: HostRuntime) {
    let alloc = rt.alloc();
    let mut shard = new_shard(&rt, alloc);
    let mut session = begun(&rt, alloc, READ);
    assert!(rt; session.sid() == WHO);
    assert!(rt; !takes(&session, Reply::Got { got: Got::Own }));
    steps(&rt, alloc, &mut session, &mut shard, STORES);
    ends(&rt, session, Outcome::Stored);
    hits(&rt, alloc, &mut shard);
}

#[test]
fn takes_no_answer_of_another_key(rt: HostRuntime) {
    let alloc = rt.alloc();
    let mut shard = new_shard(&rt, alloc);
    let mut session = begun(&rt, alloc, READ);
    steps(
        &rt,
        alloc,
        &mut session,
        &mut shard,
        &[("get profile:2 3", "shard")],
    );
    session.wants().let_go();
    assert!(rt; !takes(&session, answer(&rt, alloc, PENDING, "a")));
    let fault = Fault::Spent;
    assert!(rt; !takes(&session, Reply::Fault { fault }));
    assert!(rt; !takes(&session, Reply::Nothing));
    let fault = Fault::Keep;
    tell(&rt, &mut session, Reply::Fault { fault });
    ends(&rt, session, Outcome::Failed { fault });
}

const AGAINS: &[(&str, &str)] = &[
    ("get profile:2 3", "shard"),
    ("get profile:2 3", "shard"),
    ("get profile:2 3", "shard"),
    ("get profile:2 3", "shard"),
    ("get profile:2 3", "shard"),
    ("get profile:2 3", "shard"),
    ("get profile:2 3", "shard"),
    ("get profile:2 3", "shard"),
    ("get profile:2 3", "shard"),
    ("get profile:2 3", "shard"),
    ("get profile:2 3", "shard"),
    ("get profile:2 3", "shard"),
    ("get profile:2 3", "shard"),
    ("get profile:2 3", "shard"),
    ("get profile:2 3", "shard"),
    ("get profile:2 3", "shard"),
    ("ask profile:2", "a"),
];

#[test]
fn asks_the_store_after_sixteen_agains(rt: HostRuntime) {
    let mut shard = new_shard(&rt, rt.alloc());
    let leased = shard.get(PROFILE, OTHER, 0, 0);
    assert!(rt; matches!(leased, Ok(Got::Lease { token: 1 })));
    plays(&rt, rt.alloc(), &mut shard, READ, AGAINS, Outcome::Bypass);
}

const QUARANTINES: &[(&str, &str)] = &[
    ("qareg profile:2", "shard"),
    ("qareg pending:2", "shard"),
    ("qareg npending:2", "shard"),
];

const DROPS: &[(&str, &str)] = &[
    ("dar profile:2", "gone"),
    ("dar pending:2", "gone"),
    ("dar npending:2", "gone"),
];

/// Puts the first grant last.
fn turn(grants: &mut Grants) {
    if grants.is_empty() {
        return;
    }
    let grant = grants.take(0);
    if grants.len() < grants.room() as usize {
        grants.add(grant);
    } else {
        grant.let_go();
    }
}

/// The session takes no reply whose grants were turned. It is handed back.
fn refuses_turned(rt: &impl Abort, session: &Session, txn: Txn, grants: Grants) -> (Txn, Grants) {
    let mut grants = grants;
    turn(&mut grants);
    let number = 1;
    let reply = Reply::Committed {
        number,
        txn,
        grants,
    };
    assert!(rt; !session.takes(&reply));
    match reply {
        Reply::Committed {
            number: _,
            txn,
            grants,
        } => (txn, grants),
        other => {
            other.let_go();
            panic!(rt; "another reply")
        }
    }
}

/// The session commits with three grants, and takes them back in their order alone.
fn commits_in_order(rt: &impl Abort, session: &mut Session)
    requires { IsReady session.old }
    ensures { IsReady session.new }
{
    match session.wants() {
        Wanted::Commit { txn, grants } => {
            assert!(rt; grants.len() == 3);
            let (txn, mut grants) = refuses_turned(rt, session, txn, grants);
            turn(&mut grants);
            turn(&mut grants);
            let number = 1;
            tell(
                rt,
                session,
                Reply::Committed {
                    number,
                    txn,
                    grants,
                },
            );
        }
        other => {
            other.let_go();
            panic!(rt; "no commit")
        }
    }
}

#[test]
fn writes_and_releases_in_order(rt: HostRuntime) {
    let mut shard = new_shard(&rt, rt.alloc());
    let mut session = begun(&rt, rt.alloc(), WRITE);
    steps(&rt, rt.alloc(), &mut session, &mut shard, QUARANTINES);
    commits_in_order(&rt, &mut session);
    steps(&rt, rt.alloc(), &mut session, &mut shard, DROPS);
    ends(&rt, session, COMMITTED);
}

const GIVES_ONE_BACK: &[(&str, &str)] = &[
    ("qareg profile:2", "shard"),
    ("qareg pending:2", "shard"),
    ("end", "ended"),
    ("abort profile:2", "gone"),
];

#[test]
fn gives_back_what_it_has_when_it_is_refused(rt: HostRuntime) {
    let mut shard = new_shard(&rt, rt.alloc());
    hold(&rt, &mut shard, PENDING, OTHER, Mode::Refresh);
    let refused = Outcome::Refused {
        holder: OTHER,
        mode: Mode::Refresh,
    };
    plays(&rt, rt.alloc(), &mut shard, WRITE, GIVES_ONE_BACK, refused);
}

const GIVES_ALL_BACK: &[(&str, &str)] = &[
    ("qareg profile:2", "shard"),
    ("qareg pending:2", "shard"),
    ("qareg npending:2", "shard"),
    ("commit 1 2 3", "rejected"),
    ("end", "ended"),
    ("abort profile:2", "gone"),
    ("abort pending:2", "gone"),
    ("abort npending:2", "gone"),
];

#[test]
fn gives_back_all_when_it_is_not_committed(rt: HostRuntime) {
    plays_anew(&rt, rt.alloc(), WRITE, GIVES_ALL_BACK, REJECTED);
}

#[test]
fn skips_its_only_key(rt: HostRuntime) {
    let uncovered = Outcome::NotCommitted {
        fault: CommitFault::Uncovered { key: PROFILE },
    };
    let rows = &[("commit", "uncovered"), ("end", "ended")];
    plays_anew(
        &rt,
        rt.alloc(),
        "skip 1 profile:2 rename 2 ann",
        rows,
        uncovered,
    );
}

#[test]
fn leaves_its_quarantines_when_it_is_let_go(rt: HostRuntime) {
    let mut shard = new_shard(&rt, rt.alloc());
    let mut session = begun(&rt, rt.alloc(), WRITE);
    let rows = &[("qareg profile:2", "shard")];
    steps(&rt, rt.alloc(), &mut session, &mut shard, rows);
    session.let_go();
    let got = shard.get(PROFILE, WHO, 0, 0);
    assert!(rt; matches!(got, Ok(Got::Own)));
}
