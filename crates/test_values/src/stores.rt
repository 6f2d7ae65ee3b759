//! The store: commits, sessions, and what its keeper did not do.
ghost use Rattle.std.specs.Prelude.{◌≡◌, ◌≤◌, Some};
ghost use Rattle.sql_keeper.specs.Faults.{FailedSince};

use crate::txns::txn_of;
use key_shard::{Grant, How, QAnswer, Shard};
use lease_table::Mode;
use rows_model::{Kind, QKey, Rows, Sid};
use sql_keeper::{AfterFault, CommitFault, KeepFault, MapKeeper, Place, Start, Store};
use std::alloc::Global;
use std::marker::Brand;
use std::process::Abort;
use std::slice;
use std::sync::{Mutex, Wait};
use std::thread::{Threads, join};

fn profile(id: u32) -> QKey {
    QKey {
        kind: Kind::Profile,
        id,
    }
}

/// A keeper in memory that fails at these calls.
fn keeper_of(rt: &impl Abort, alloc: Global, fails: &[u64]) -> MapKeeper {
    match Vec::from_slice(alloc, fails) {
        Ok(fails) => MapKeeper::new(fails),
        Err(_) => panic!(rt; "no memory"),
    }
}

/// A store of three members over a keeper in memory that fails at these calls.
fn opened(rt: &impl Abort, alloc: Global, fails: &[u64], cap: u64) -> Store<MapKeeper>
    requires { cap ≤ 8000000 }
{
    let keeper = keeper_of(rt, alloc, fails);
    match Store::new(alloc, keeper, &Place::Fresh, 3, cap) {
        Ok(store) => store,
        Err(none) => panic!(rt; "{:?}", none.cause),
    }
}

fn begun(rt: &impl Abort, store: &mut Store<MapKeeper>, writes: bool) -> Sid {
    match store.begin(writes) {
        Ok(sid) => sid,
        Err(_) => panic!(rt; "no memory"),
    }
}

fn new_shard(rt: &impl Abort, alloc: Global) -> Shard {
    match Shard::new(alloc, 0, 1, 4, 100, 1) {
        Ok(shard) => shard,
        Err(_) => panic!(rt; "no memory"),
    }
}

fn granted(rt: &impl Abort, shard: &mut Shard, id: u32, who: Sid) -> Grant {
    match shard.quarantine(profile(id), who, Mode::Invalidate, 0, 0) {
        Ok(QAnswer::Granted { grant, old: _ }) => grant,
        _ => panic!(rt; "not granted"),
    }
}

/// The session commits the changes under these grants, and is told this.
fn commits(
    rt: &impl Abort,
    alloc: Global,
    store: &mut Store<MapKeeper>,
    who: Sid,
    changes: &str,
    grants: &[Grant],
    want: Result<u64, CommitFault>,
) {
    let outcome = match store.commit(who, txn_of(rt, alloc, changes), grants) {
        Ok(number) => Ok(number),
        Err((fault, _)) => Err(fault),
    };
    assert!(rt; outcome == want, "{changes}");
}

/// What the profile of a member is, with its stamp.
fn asked(rt: &impl Abort, store: &mut Store<MapKeeper>, id: u32, want: &str, stamp: u64) {
    match store.ask(&profile(id)) {
        Ok(answer) => {
            assert!(rt; answer.value.bytes() == want.as_bytes());
            assert!(rt; answer.key == profile(id) && answer.stamp == stamp);
        }
        Err(fault) => panic!(rt; "{fault:?}"),
    }
}

const PROFILE_2: QKey = QKey {
    kind: Kind::Profile,
    id: 2,
};

const PROFILE_3: QKey = QKey {
    kind: Kind::Profile,
    id: 3,
};

/// Whether the first session commits, and not the second; whether under its own grant, and not that of
/// the other; the changes, and what it is told.
const COMMITS: [(bool, bool, &str, Result<u64, CommitFault>); 6] = [
    (
        true,
        false,
        "rename 2 bob,rename 2 bob",
        Err(CommitFault::Uncovered { key: PROFILE_2 }),
    ),
    (
        true,
        true,
        "rename 3 bob,rename 2 bob",
        Err(CommitFault::Uncovered { key: PROFILE_3 }),
    ),
    (true, true, "rename 2 bob,rename 2 bob", Ok(1)),
    (
        true,
        true,
        "rename 3 bob,rename 3 bob",
        Err(CommitFault::Ended),
    ),
    (
        false,
        true,
        "rename 3 bob,rename 3 bob",
        Err(CommitFault::Uncovered { key: PROFILE_3 }),
    ),
    (
        false,
        true,
        "rename 2 bob,rename 2 bob",
        Err(CommitFault::LogFull { count: 1 }),
    ),
];

/// Makes the commits in turn: the first session is 1, the second 2, and each has its grant.
fn commits_all(
    rt: &impl Abort,
    alloc: Global,
    store: &mut Store<MapKeeper>,
    one: &Grant,
    two: &Grant,
) {
    for (is_first, is_own, changes, want) in COMMITS.iter() {
        let who = if *is_first { one.sid() } else { two.sid() };
        let grant = if *is_first == *is_own { one } else { two };
        commits(
            rt,
            alloc,
            store,
            who,
            changes,
            slice::from_ref(grant),
            *want,
        );
    }
}

/// Makes the commits in turn, each session under its quarantine of profile 2 or that of the other.
fn commits_under_two(
    rt: &impl Abort,
    alloc: Global,
    store: &mut Store<MapKeeper>,
    one: Sid,
    two: Sid,
) {
    let mut shard = new_shard(rt, alloc);
    let own = granted(rt, &mut shard, 2, one);
    let other = granted(rt, &mut shard, 2, two);
    commits_all(rt, alloc, store, &own, &other);
    let _ = shard.release(own, How::Drop);
    let _ = shard.release(other, How::Keep);
}

#[test]
fn commits_until_the_log_is_full(rt: HostRuntime) {
    let mut store = opened(&rt, rt.alloc(), &[], 1);
    let (one, two) = (begun(&rt, &mut store, true), begun(&rt, &mut store, true));
    commits_under_two(&rt, rt.alloc(), &mut store, one, two);
    asked(&rt, &mut store, 2, "bob 0 0", 1);
    asked(&rt, &mut store, 1, "m1 0 0", 1);
    assert!(rt; store.log().len() == 1);
    assert!(rt; store.opening().members().len() == 3);
}

/// Compares the name of member 2.
fn is_named(rt: &impl Abort, rows: &Rows, want: &str) {
    match rows.members().get(1) {
        Some(member) => assert!(rt; member.name.bytes() == want.as_bytes()),
        None => panic!(rt; "no member"),
    }
}

/// The store made anew, in which member 2 has another name by the one commit so far.
fn made_anew(rt: &impl Abort, store: Store<MapKeeper>) -> Store<MapKeeper> {
    match store.rebase() {
        Ok((store, opening, log)) => {
            is_named(rt, &opening, "m2");
            is_named(rt, store.opening(), "bob");
            assert!(rt; log.len() == 1 && store.log().is_empty());
            store
        }
        Err(_) => panic!(rt; "no memory"),
    }
}

#[test]
fn begins_anew_over_the_rows_after_its_log(rt: HostRuntime) {
    let mut store = opened(&rt, rt.alloc(), &[], 1);
    let (one, two) = (begun(&rt, &mut store, true), begun(&rt, &mut store, true));
    commits_under_two(&rt, rt.alloc(), &mut store, one, two);
    assert!(rt;
        store.may_have_committed(one) && !store.may_have_committed(two) && store.is_open(two)
    );
    let mut store = made_anew(&rt, store);
    assert!(rt; store.may_have_committed(one) && !store.is_open(two));
    asked(&rt, &mut store, 2, "bob 0 0", 0);
    assert!(rt; begun(&rt, &mut store, true).number == 3);
}

/// The number of a session, and whether it was open.
const ENDS: [(u64, bool); 5] = [(0, false), (1, true), (1, false), (2, false), (3, false)];

/// Ends sessions in turn, and compares whether each was open.
fn ends_all(rt: &impl Abort, store: &mut Store<MapKeeper>) {
    for (number, was) in ENDS.iter() {
        assert!(rt;
            store.end(Sid { number: *number }).was() == *was,
            "at {number}"
        );
    }
}

/// The session is told that it has ended.
fn has_ended(rt: &impl Abort, alloc: Global, store: &mut Store<MapKeeper>, who: Sid) {
    let want = Err(CommitFault::Ended);
    commits(
        rt,
        alloc,
        store,
        who,
        "rename 1 bob,rename 1 bob",
        &[],
        want,
    );
}

#[test]
fn ends_a_session_once(rt: HostRuntime) {
    let mut store = opened(&rt, rt.alloc(), &[], 1);
    let (one, reader) = (begun(&rt, &mut store, true), begun(&rt, &mut store, false));
    assert!(rt; store.is_open(one));
    ends_all(&rt, &mut store);
    has_ended(&rt, rt.alloc(), &mut store, one);
    has_ended(&rt, rt.alloc(), &mut store, reader);
}

/// The session commits names for nobody twice: the keeper fails, and then the change doesn't apply.
fn commits_badly(rt: &impl Abort, alloc: Global, store: &mut Store<MapKeeper>, grant: &Grant) {
    let (who, grants) = (grant.sid(), slice::from_ref(grant));
    let changes = "rename 9 bob,rename 9 bob";
    let failed = Err(CommitFault::KeepFault);
    commits(rt, alloc, store, who, changes, grants, failed);
    let rejected = Err(CommitFault::Rejected { index: 0 });
    commits(rt, alloc, store, who, changes, grants, rejected);
}

/// The session commits under a quarantine of nobody's profile.
fn commits_for_nobody(rt: &impl Abort, alloc: Global, store: &mut Store<MapKeeper>, who: Sid) {
    let mut shard = new_shard(rt, alloc);
    let grant = granted(rt, &mut shard, 9, who);
    commits_badly(rt, alloc, store, &grant);
    let _ = shard.release(grant, How::Keep);
}

/// Compares how many calls failed, and that nothing was committed.
fn did_nothing(rt: &impl Abort, store: Store<MapKeeper>, failed: u64) {
    assert!(rt; store.failed() == failed);
    let (_, opening, log) = store.into_parts();
    assert!(rt; opening.link_count() == 0);
    assert!(rt; log.is_empty());
}

#[test]
fn tells_what_the_keeper_did_not_do(rt: HostRuntime) {
    let mut store = opened(&rt, rt.alloc(), &[2, 4], 8);
    let one = begun(&rt, &mut store, true);
    assert!(rt; matches!(store.ask(&profile(1)), Err(KeepFault::Failed)));
    asked(&rt, &mut store, 1, "m1 0 0", 0);
    commits_for_nobody(&rt, rt.alloc(), &mut store, one);
    assert!(rt; store.is_open(one));
    did_nothing(&rt, store, 2);
}

/// Compares the fault with which member 2's profile is not told after the changes.
fn is_not_told(
    rt: &impl Abort,
    alloc: Global,
    store: &mut Store<MapKeeper>,
    changes: &str,
    want: AfterFault,
) {
    match store.ask_staged(&txn_of(rt, alloc, changes), &profile(2)) {
        Ok(_) => panic!(rt; "told"),
        Err(fault) => assert!(rt; fault == want),
    }
}

#[test]
fn answers_on_the_rows_after_a_transaction(rt: HostRuntime) {
    let alloc = rt.alloc();
    let mut store = opened(&rt, alloc, &[3], 8);
    let changes = "rename 2 bob,rename 2 bob";
    match store.ask_staged(&txn_of(&rt, alloc, changes), &profile(2)) {
        Ok(value) => assert!(rt; value.bytes() == b"bob 0 0".as_slice()),
        Err(fault) => panic!(rt; "{fault:?}"),
    }
    is_not_told(&rt, alloc, &mut store, changes, AfterFault::Failed);
    let rejected = AfterFault::Rejected { index: 1 };
    is_not_told(
        &rt,
        alloc,
        &mut store,
        "rename 2 bob,rename 9 bob",
        rejected,
    );
    asked(&rt, &mut store, 2, "m2 0 0", 0);
}

/// The keeper that did not start.
fn handed_back(rt: &impl Abort, alloc: Global, keeper: MapKeeper) -> MapKeeper {
    match Store::new(alloc, keeper, &Place::Fresh, 3, 8) {
        Ok(_) => panic!(rt; "a store"),
        Err(none) => {
            assert!(rt; none.cause == KeepFault::Failed);
            none.keeper
        }
    }
}

#[test]
fn hands_back_a_keeper_that_did_not_start(rt: HostRuntime) {
    let keeper = handed_back(&rt, rt.alloc(), keeper_of(&rt, rt.alloc(), &[1]));
    assert!(rt; Store::new(rt.alloc(), keeper, &Place::Fresh, 3, 8).is_ok());
}

/// Two threads ask a store under a lock. How many calls failed is no more than the keeper counted, and
/// it is 0 only where the keeper counted none, as the name of the count tells once the threads have ended.
fn asked_by_two<N: Start + Send + Sync, R: Threads + Wait + Abort + Sync>(
    rt: &R,
    alloc: Global,
    keeper: MapKeeper,
) -> (u64, MapKeeper)
    requires { N.count ≡ Some keeper.faults }
    ensures { FailedSince (Some keeper.faults) result.0 result.1.faults }
{
    let store = match Store::new(alloc, keeper, &Place::Fresh, 3, 8) {
        Ok(store) => Mutex::new(store.named::<N>()),
        Err(none) => panic!(rt; "{:?}", none.cause),
    };
    join(
        rt,
        || {
            let _ = store.lock(rt).ask(&profile(1));
        },
        || {
            let _ = store.lock(rt).ask(&profile(2));
        },
    );
    let store = store.into_inner();
    let failed = store.failed();
    let (keeper, _, _) = store.into_parts();
    (failed, keeper)
}

#[test]
fn knows_after_the_threads_that_what_failed_was_counted(rt: HostRuntime) {
    let alloc = rt.alloc();
    let keeper = keeper_of(&rt, alloc, &[2, 3]);
    let (failed, _) = asked_by_two::<Brand, _>(&rt, alloc, keeper);
    assert!(rt; failed == 2);
}
