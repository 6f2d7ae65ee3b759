//! What the audit finds of logs and of shards.
ghost use Rattle.std.specs.Prelude.{◌≡◌, ◌∷◌, ◌++◌, ◌<◌, [], false, None};
ghost use Rattle.key_shard.specs.Shards.{ShardView};
ghost use Rattle.run_audit.specs.Findings.{IsNumbered};

use crate::txns::{txn_of, value_of};
use key_shard::{How, QAnswer, Shard};
use lease_table::Mode;
use rows_model::{Kind, QKey, Rows, Sid};
use run_audit::{Finding, audit};
use sql_keeper::Commit;
use std::alloc::Global;
use std::process::Abort;
use std::slice;

/// What happens to the profile of the member with the id that comes first.
#[derive(Clone, Copy)]
enum Event {
    /// A reader gets it.
    Get(u32),
    /// A reader misses it and sets it under this token, with a value and a stamp; another hits it.
    Fill(u32, u64, &'static str, u64),
    /// A session quarantines it, and then drops the entry.
    Drop(u32, u64),
    /// A session quarantines it, and then keeps the entry.
    Keep(u32, u64),
}

fn profile(id: u32) -> QKey {
    QKey {
        kind: Kind::Profile,
        id,
    }
}

fn gets(shard: &mut Shard, id: u32)
    ensures { shard.new.terms ≡ shard.old.terms }
{
    let _ = shard.get(profile(id), Sid { number: 1 }, 0, 0);
}

fn sets(
    rt: &impl Abort,
    alloc: Global,
    shard: &mut Shard,
    id: u32,
    token: u64,
    text: &str,
    stamp: u64,
)
    ensures { shard.new.terms ≡ shard.old.terms }
{
    let value = value_of(rt, alloc, text);
    let _ = shard.set(profile(id), token, value, stamp, 0);
}

fn writes(rt: &impl Abort, shard: &mut Shard, id: u32, who: u64, is_kept: bool)
    ensures { shard.new.terms ≡ shard.old.terms }
{
    match shard.quarantine(profile(id), Sid { number: who }, Mode::Invalidate, 0, 0) {
        Ok(QAnswer::Granted { grant, old: _ }) => {
            let how = if is_kept { How::Keep } else { How::Drop };
            let _ = shard.release(grant, how);
        }
        _ => panic!(rt; "not granted"),
    }
}

fn happens(rt: &impl Abort, alloc: Global, shard: &mut Shard, event: Event)
    ensures { shard.new.terms ≡ shard.old.terms }
{
    match event {
        Event::Get(id) => gets(shard, id),
        Event::Fill(id, token, text, stamp) => {
            gets(shard, id);
            sets(rt, alloc, shard, id, token, text, stamp);
            gets(shard, id);
        }
        Event::Drop(id, who) => writes(rt, shard, id, who, false),
        Event::Keep(id, who) => writes(rt, shard, id, who, true),
    }
}

/// A shard of this number, of so many, after these events.
fn shard_after(rt: &impl Abort, alloc: Global, no: u32, count: u32, events: &[Event]) -> Shard
    requires { no < count }
    ensures numbered { IsNumbered no count result }
    ensures whole { result.terms.rolls ≡ false }
{
    let Ok(mut shard) = Shard::new(alloc, no, count, 4, 100, 1) else {
        panic!(rt; "no memory");
    };
    for event in events.iter() {
        happens(rt, alloc, &mut shard, *event);
    }
    shard
}

/// The log of these commits: each the number of its session, and its changes.
fn log_of(rt: &impl Abort, alloc: Global, commits: &[(u64, &str)]) -> Vec<Commit> {
    let mut log = Vec::new(alloc);
    for (who, changes) in commits.iter() {
        let commit = Commit {
            sid: Sid { number: *who },
            txn: txn_of(rt, alloc, changes),
        };
        if log.push(commit).is_err() {
            panic!(rt; "no memory");
        }
    }
    log
}

fn opening(rt: &impl Abort, alloc: Global) -> Rows {
    match Rows::start(alloc, 3) {
        Ok(rows) => rows,
        Err(_) => panic!(rt; "no memory"),
    }
}

/// Compares what is found of one shard after these events, over three members.
fn finds(rt: &impl Abort, alloc: Global, log: &[(u64, &str)], events: &[Event], want: Finding) {
    let log = log_of(rt, alloc, log);
    let shard = shard_after(rt, alloc, 0, 1, events);
    match audit(
        alloc,
        &opening(rt, alloc),
        log.as_slice(),
        slice::from_ref(&shard),
    ) {
        Ok(finding) => assert!(rt; finding == want),
        Err(_) => panic!(rt; "no memory"),
    }
}

const FIRST_HIT: Finding = Finding::Stale { shard: 0, place: 2 };

#[test]
fn names_a_hit_that_no_rows_gave(rt: HostRuntime) {
    finds(
        &rt,
        rt.alloc(),
        &[],
        &[Event::Fill(2, 1, "zz", 0)],
        FIRST_HIT,
    );
}

#[test]
fn names_a_hit_whose_stamp_is_past_the_log(rt: HostRuntime) {
    finds(
        &rt,
        rt.alloc(),
        &[],
        &[Event::Fill(2, 1, "m2 0 0", 1)],
        FIRST_HIT,
    );
}

/// This commit touches the profile of this member, and is not covered.
const FIRST_OF_2: Finding = Finding::Uncovered {
    commit: 1,
    key: QKey {
        kind: Kind::Profile,
        id: 2,
    },
};

const SECOND_OF_2: Finding = Finding::Uncovered {
    commit: 2,
    key: QKey {
        kind: Kind::Profile,
        id: 2,
    },
};

const SECOND_OF_1: Finding = Finding::Uncovered {
    commit: 2,
    key: QKey {
        kind: Kind::Profile,
        id: 1,
    },
};

#[test]
fn names_a_commit_without_a_quarantine(rt: HostRuntime) {
    finds(&rt, rt.alloc(), &[(5, "rename 2 bob")], &[], FIRST_OF_2);
}

const UNAPPLIED: [(u64, &str); 2] = [(5, "rename 1 ann"), (5, "thaw 2 1")];

const KEPT: [Event; 2] = [Event::Keep(1, 5), Event::Keep(2, 6)];

#[test]
fn names_the_least_key_though_the_commit_does_not_apply(rt: HostRuntime) {
    finds(&rt, rt.alloc(), &UNAPPLIED, &KEPT, SECOND_OF_2);
}

// The tokens are 1 for the lease, 2 for the quarantine, 3 for the lease, and so on.
const TIMELY: [Event; 7] = [
    Event::Fill(2, 1, "m2 0 0", 0),
    Event::Drop(2, 5),
    Event::Fill(2, 3, "bob 0 0", 1),
    Event::Drop(2, 6),
    Event::Drop(9, 7),
    Event::Fill(2, 6, "bill 0 0", 3),
    Event::Fill(3, 7, "m3 0 0", 0),
];

const NAMES: [(u64, &str); 3] = [
    (5, "rename 2 bob"),
    (7, "rename 9 nobody"),
    (6, "rename 2 bill"),
];

#[test]
fn finds_nothing_where_each_hit_is_of_its_time(rt: HostRuntime) {
    finds(&rt, rt.alloc(), &NAMES, &TIMELY, Finding::Clean);
}

// Lease, Stored, Hit, Granted, Released, Hit.
const ENDED: [Event; 3] = [
    Event::Fill(2, 1, "m2 0 0", 0),
    Event::Keep(2, 5),
    Event::Get(2),
];

const LAST_HIT: Finding = Finding::Stale { shard: 0, place: 5 };

#[test]
fn names_a_hit_below_a_commit_whose_quarantine_ended(rt: HostRuntime) {
    finds(&rt, rt.alloc(), &[(5, "rename 2 bob")], &ENDED, LAST_HIT);
}

const ENDED_TWICE: [Event; 5] = [
    Event::Fill(2, 1, "m2 0 0", 0),
    Event::Keep(2, 5),
    Event::Get(2),
    Event::Fill(3, 3, "m3 0 0", 0),
    Event::Keep(3, 5),
];

const TWICE: [(u64, &str); 2] = [(5, "rename 3 m3"), (5, "rename 2 m2")];

#[test]
fn goes_by_the_last_commit_of_a_session(rt: HostRuntime) {
    finds(&rt, rt.alloc(), &TWICE, &ENDED_TWICE, LAST_HIT);
}

/// Compares what is found of two shards.
fn found_of_two(rt: &impl Abort, alloc: Global, log: &[Commit], shards: &[Shard], want: Finding)
    requires { (first : ShardView) × (second : ShardView) × (shards.now ≡ first ∷ second ∷ [])
        × IsNumbered 0 2 first × IsNumbered 1 2 second
        × (first.terms.rolls ≡ false) × (second.terms.rolls ≡ false) }
{
    match audit(alloc, &opening(rt, alloc), log, shards) {
        Ok(finding) => assert!(rt; finding == want),
        Err(_) => panic!(rt; "no memory"),
    }
}

/// Puts a shard behind others.
fn adds(rt: &impl Abort, shards: &mut Vec<Shard>, shard: Shard)
    ensures { shards.new.items ≡ shards.old.items ++ shard ∷ [] }
{
    if shards.push(shard).is_err() {
        panic!(rt; "no memory");
    }
}

const AT_SHARD_0: [Event; 2] = [Event::Drop(2, 5), Event::Fill(2, 2, "bob 0 0", 1)];

const AT_SHARD_1: [Event; 1] = [Event::Fill(1, 1, "zz", 0)];

/// Compares what is found of two shards after their events.
fn finds_of_two(rt: &impl Abort, alloc: Global, log: &[(u64, &str)], want: Finding) {
    let log = log_of(rt, alloc, log);
    let mut shards = Vec::new(alloc);
    adds(rt, &mut shards, shard_after(rt, alloc, 0, 2, &AT_SHARD_0));
    adds(rt, &mut shards, shard_after(rt, alloc, 1, 2, &AT_SHARD_1));
    found_of_two(rt, alloc, log.as_slice(), shards.as_slice(), want);
}

const HIT_AT_SHARD_1: Finding = Finding::Stale { shard: 1, place: 2 };

const BOTH: [(u64, &str); 2] = [(5, "rename 2 bob"), (5, "rename 1 ann")];

#[test]
fn goes_by_shards_and_then_by_places(rt: HostRuntime) {
    finds_of_two(&rt, rt.alloc(), &[(5, "rename 2 bob")], HIT_AT_SHARD_1);
    finds_of_two(&rt, rt.alloc(), &BOTH, SECOND_OF_1);
}
