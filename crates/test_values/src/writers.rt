//! The verbs of writers on one key that has a value.
use crate::desks::{Desk, fault_text, got_text, rel_text, set_text};
use crate::txns::value_of;
use key_shard::{QAnswer, Rel, ShardFault};
use lease_table::Mode;
use rows_model::{Kind, QKey, Sid};
use std::alloc::{AllocError, Global};
use std::process::Abort;
use write_ops::{DeltaFault, abort, commit_delta, dar, iq_delta, qa_read, qa_reg, sar};

/// A call on the key, at time 0: of a reader in `Get`, and of a writer in all others.
#[derive(Clone, Copy)]
pub enum Call {
    /// With a floor.
    Get(u64),
    QaReg,
    QaRead,
    /// By a number.
    IqDelta(i32),
    Dar,
    Abort,
    /// With a value and a stamp.
    Sar(&'static str, u64),
    /// With a stamp.
    CommitDelta(u64),
}

const READER: Sid = Sid { number: 1 };

const WRITER: Sid = Sid { number: 2 };

/// A desk over a shard in which the key has this value, with the stamp 5.
fn warm_desk(rt: &impl Abort, alloc: Global, key: QKey, text: &str) -> Desk {
    let mut desk = Desk::new(rt, alloc, 0, 1, 4, 1);
    match got_text(alloc, desk.shard.get(key, READER, 0, 0)) {
        Ok(answer) => assert!(rt; answer.as_str() == "lease 1"),
        Err(_) => panic!(rt; "no memory"),
    }
    stores(rt, alloc, &mut desk, key, text);
    desk
}

/// Sets the key under the token 1, with the stamp 5.
fn stores(rt: &impl Abort, alloc: Global, desk: &mut Desk, key: QKey, text: &str) {
    let value = value_of(rt, alloc, text);
    match set_text(alloc, desk.shard.set(key, 1, value, 5, 0)) {
        Ok(answer) => assert!(rt; answer.as_str() == "stored"),
        Err(_) => panic!(rt; "no memory"),
    }
}

/// Tells the answer to a quarantine.
fn asked(
    rt: &impl Abort,
    alloc: Global,
    desk: &mut Desk,
    key: QKey,
    answer: Result<QAnswer, ShardFault>,
) -> Result<String, AllocError> {
    match answer {
        Ok(answer) => desk.asked(rt, alloc, key, WRITER, answer),
        Err(fault) => fault_text(alloc, fault),
    }
}

/// Tells the answer to a quarantine that is to shift a count.
fn delta_asked(
    rt: &impl Abort,
    alloc: Global,
    desk: &mut Desk,
    key: QKey,
    by: i32,
) -> Result<String, AllocError> {
    match iq_delta(&mut desk.shard, key, WRITER, by, 0) {
        Ok(answer) => desk.asked(rt, alloc, key, WRITER, answer),
        Err(DeltaFault::NotCount) => format!(in alloc; "no count"),
        Err(DeltaFault::Shard { fault }) => fault_text(alloc, fault),
    }
}

fn drops(rt: &impl Abort, desk: &mut Desk) -> Rel {
    let grant = desk.take(rt);
    dar(&mut desk.shard, grant)
}

fn aborts(rt: &impl Abort, desk: &mut Desk) -> Rel {
    let grant = desk.take(rt);
    abort(&mut desk.shard, grant)
}

/// Releases a grant to refresh with a value.
fn refreshes(rt: &impl Abort, alloc: Global, desk: &mut Desk, text: &str, stamp: u64) -> Rel {
    let value = value_of(rt, alloc, text);
    let grant = desk.take(rt);
    match grant.mode() {
        Mode::Refresh => match sar(&mut desk.shard, grant, Some(value), stamp) {
            Ok(rel) => rel,
            Err(back) => {
                back.grant.let_go();
                panic!(rt; "no memory")
            }
        },
        Mode::Invalidate | Mode::Delta => {
            grant.let_go();
            panic!(rt; "no grant to refresh")
        }
    }
}

/// Releases a grant to shift.
fn shifts(rt: &impl Abort, desk: &mut Desk, stamp: u64) -> Rel {
    let grant = desk.take(rt);
    match grant.mode() {
        Mode::Delta => commit_delta(&mut desk.shard, grant, stamp),
        Mode::Invalidate | Mode::Refresh => {
            grant.let_go();
            panic!(rt; "no grant to shift")
        }
    }
}

/// Makes the call, and tells its answer.
fn call_text(
    rt: &impl Abort,
    alloc: Global,
    desk: &mut Desk,
    key: QKey,
    call: Call,
) -> Result<String, AllocError> {
    match call {
        Call::Get(floor) => got_text(alloc, desk.shard.get(key, READER, floor, 0)),
        Call::QaReg => {
            let answer = qa_reg(&mut desk.shard, key, WRITER, 0);
            asked(rt, alloc, desk, key, answer)
        }
        Call::QaRead => {
            let answer = qa_read(&mut desk.shard, key, WRITER, 0);
            asked(rt, alloc, desk, key, answer)
        }
        Call::IqDelta(by) => delta_asked(rt, alloc, desk, key, by),
        Call::Dar => rel_text(alloc, drops(rt, desk)),
        Call::Abort => rel_text(alloc, aborts(rt, desk)),
        Call::Sar(text, stamp) => rel_text(alloc, refreshes(rt, alloc, desk, text, stamp)),
        Call::CommitDelta(stamp) => rel_text(alloc, shifts(rt, desk, stamp)),
    }
}

/// Makes the calls in turn on a key that has this value with the stamp 5, and compares the answers.
pub fn check(rt: &impl Abort, alloc: Global, key: QKey, text: &str, calls: &[(Call, &str)]) {
    let mut desk = warm_desk(rt, alloc, key, text);
    for (call, want) in calls.iter() {
        match call_text(rt, alloc, &mut desk, key, *call) {
            Ok(answer) => assert!(rt;
                answer.as_str() == *want,
                "{answer} and not {want} at {text:?}"
            ),
            Err(_) => panic!(rt; "no memory"),
        }
    }
    desk.close();
}

const KEY: QKey = QKey {
    kind: Kind::Friends,
    id: 7,
};

const DROPPED: [(Call, &str); 4] = [
    (Call::QaReg, "granted 2"),
    (Call::QaReg, "held"),
    (Call::Dar, "released"),
    (Call::Get(0), "lease 3"),
];

#[test]
fn holds_and_drops(rt: HostRuntime) {
    check(&rt, rt.alloc(), KEY, "a", &DROPPED);
}

const ABORTED: [(Call, &str); 3] = [
    (Call::QaReg, "granted 2"),
    (Call::Abort, "released"),
    (Call::Get(0), "hit a 5"),
];

#[test]
fn leaves_the_value_of_an_aborted_write(rt: HostRuntime) {
    check(&rt, rt.alloc(), KEY, "a", &ABORTED);
}

const REFRESHED: [(Call, &str); 3] = [
    (Call::QaRead, "granted 2 over a 5"),
    (Call::Sar("b", 6), "released"),
    (Call::Get(6), "hit b 6"),
];

#[test]
fn a_new_value_is_hit(rt: HostRuntime) {
    check(&rt, rt.alloc(), KEY, "a", &REFRESHED);
}
