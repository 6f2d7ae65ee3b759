//! The rows: what keys are answered from them, and what transactions do to them.
ghost use Rattle.std.specs.Prelude.{◌≤◌};

use crate::txns::{txn_of, value_of};
use rows_model::{
    ApplyFault, Change, Kind, Memory, QKey, Rows, Txn, TxnFault, ask, footprint, touches,
};
use std::alloc::Global;
use std::process::Abort;

/// The rows of the start, with so many members.
fn started(rt: &impl Abort, alloc: Global, members: u32) -> Rows
    requires some { 1 ≤ members }
    requires few { members ≤ 100000 }
{
    match Rows::start(alloc, members) {
        Ok(rows) => rows,
        Err(_) => panic!(rt; "no memory"),
    }
}

fn copied(rt: &impl Abort, rows: &Rows) -> Rows {
    match rows.copy() {
        Ok(copy) => copy,
        Err(_) => panic!(rt; "no memory"),
    }
}

/// Compares the answer to a key.
fn answers(rt: &impl Abort, alloc: Global, rows: &Rows, key: &QKey, want: &str) {
    match ask(alloc, rows, key) {
        Ok(value) => assert!(rt; value.bytes() == want.as_bytes(), "at {key:?}"),
        Err(_) => panic!(rt; "no memory"),
    }
}

const PROFILES: [(u32, &str); 6] = [
    (0, "-"),
    (1, "m1 0 0"),
    (2, "m2 0 0"),
    (3, "m3 0 0"),
    (4, "-"),
    (9, "-"),
];

#[test]
fn answers_profiles_of_the_start(rt: HostRuntime) {
    let rows = started(&rt, rt.alloc(), 3);
    let copy = copied(&rt, &rows);
    for (id, want) in PROFILES.iter() {
        let key = QKey {
            kind: Kind::Profile,
            id: *id,
        };
        answers(&rt, rt.alloc(), &rows, &key, want);
        answers(&rt, rt.alloc(), &copy, &key, want);
    }
}

/// The kinds of keys that are answered from members and links.
const KINDS: [Kind; 5] = [
    Kind::Profile,
    Kind::Friends,
    Kind::Pending,
    Kind::NFriends,
    Kind::NPending,
];

const OF_KINDS: [(Kind, &str); 6] = [
    (Kind::Profile, "m2 0 0"),
    (Kind::Friends, ""),
    (Kind::Pending, ""),
    (Kind::NFriends, "0"),
    (Kind::NPending, "0"),
    (Kind::Blocked, ""),
];

#[test]
fn answers_each_kind_at_the_start(rt: HostRuntime) {
    let rows = started(&rt, rt.alloc(), 3);
    for (kind, want) in OF_KINDS.iter() {
        let key = QKey { kind: *kind, id: 2 };
        answers(&rt, rt.alloc(), &rows, &key, want);
    }
}

#[test]
fn copies_values(rt: HostRuntime) {
    let value = value_of(&rt, rt.alloc(), "m2 0 0");
    match value.copy() {
        Ok(copy) => assert!(rt; copy == value),
        Err(_) => panic!(rt; "no memory"),
    }
    assert!(rt; value_of(&rt, rt.alloc(), "m2 0 1") != value);
}

/// The answers about a member from members and links, each with `/` behind it.
fn tell(alloc: Global, rows: &Rows, id: u32, all: &mut Vec<u8>) -> Result<(), Memory> {
    for kind in KINDS.iter() {
        let value = ask(alloc, rows, &QKey { kind: *kind, id })?;
        all.extend_from_slice(value.bytes())?;
        all.push(b'/')?;
    }
    Ok(())
}

/// The answers about the members from one to before another.
fn rows_text(alloc: Global, rows: &Rows, from: u32, to: u32) -> Result<Vec<u8>, Memory> {
    let mut all = Vec::new(alloc);
    for id in from..to {
        tell(alloc, rows, id, &mut all)?;
    }
    Ok(all)
}

/// Compares all answers about these members.
fn tells(rt: &impl Abort, alloc: Global, rows: &Rows, from: u32, to: u32, want: &str) {
    match rows_text(alloc, rows, from, to) {
        Ok(all) => assert!(rt; all.as_slice() == want.as_bytes(), "{want}"),
        Err(_) => panic!(rt; "no memory"),
    }
}

/// Applies a transaction that is to be rejected at this place, or at none.
fn applies(rt: &impl Abort, alloc: Global, rows: &mut Rows, changes: &str, at: Option<u32>) {
    let place = match rows.apply(&txn_of(rt, alloc, changes)) {
        Ok(()) => None,
        Err(ApplyFault::Rejected { index }) => Some(index),
        Err(ApplyFault::Memory) => panic!(rt; "no memory"),
    };
    assert!(rt; place == at, "{changes}");
}

/// What is applied in turn, and all answers about member 1 after it.
const TURNS: [(&str, &str); 5] = [
    ("invite 3 1", "m1 0 1//3/0/1/"),
    ("invite 2 1", "m1 0 2//2,3/0/2/"),
    ("accept 3 1", "m1 1 1/3/2/1/1/"),
    ("accept 2 1,rename 1 ann", "ann 2 0/2,3//2/0/"),
    ("thaw 1 2,invite 4 1,reject 4 1", "ann 1 0/3//1/0/"),
];

#[test]
fn makes_changes_and_answers(rt: HostRuntime) {
    let mut rows = started(&rt, rt.alloc(), 4);
    for (changes, want) in TURNS.iter() {
        applies(&rt, rt.alloc(), &mut rows, changes, None);
        tells(&rt, rt.alloc(), &rows, 1, 2, want);
    }
}

/// What is applied in turn, and all answers and the number of links after it.
const LINKS: [(&str, &str, usize); 4] = [
    (
        "invite 3 1,invite 2 1,invite 1 4",
        "m1 0 2//2,3/0/2/m2 0 0///0/0/m3 0 0///0/0/m4 0 1//1/0/1/",
        3,
    ),
    (
        "accept 3 1,invite 4 2",
        "m1 1 1/3/2/1/1/m2 0 1//4/0/1/m3 1 0/1//1/0/m4 0 1//1/0/1/",
        4,
    ),
    (
        "accept 2 1,accept 1 4,reject 4 2",
        "m1 3 0/2,3,4//3/0/m2 1 0/1//1/0/m3 1 0/1//1/0/m4 1 0/1//1/0/",
        3,
    ),
    (
        "thaw 1 3,invite 1 3,accept 1 3,thaw 3 1,invite 3 1,rename 4 ann,invite 2 4",
        "m1 2 1/2,4/3/2/1/m2 1 0/1//1/0/m3 0 0///0/0/ann 1 1/1/2/1/1/",
        4,
    ),
];

#[test]
fn each_member_answers_by_its_own_links(rt: HostRuntime) {
    let mut rows = started(&rt, rt.alloc(), 4);
    for (changes, want, links) in LINKS.iter() {
        applies(&rt, rt.alloc(), &mut rows, changes, None);
        assert!(rt; rows.link_count() == *links);
        assert!(rt; rows.members().len() == 4);
        tells(&rt, rt.alloc(), &rows, 1, 5, want);
        tells(&rt, rt.alloc(), &copied(&rt, &rows), 1, 5, want);
    }
}

fn blocked(id: u32) -> QKey {
    QKey {
        kind: Kind::Blocked,
        id,
    }
}

/// What is applied in turn, and whom members 1 and 2 have blocked and the number of blocks after it.
const BLOCKS: [(&str, &str, &str, usize); 4] = [
    ("block 1 3", "3", "", 1),
    ("block 1 2,block 2 1", "2,3", "1", 3),
    ("rename 1 ann,block 1 4", "2,3,4", "1", 4),
    (
        "invite 2 4,accept 2 4,thaw 2 4,block 2 4",
        "2,3,4",
        "1,4",
        5,
    ),
];

#[test]
fn a_member_answers_whom_it_has_blocked(rt: HostRuntime) {
    let mut rows = started(&rt, rt.alloc(), 4);
    for (changes, first, second, blocks) in BLOCKS.iter() {
        applies(&rt, rt.alloc(), &mut rows, changes, None);
        assert!(rt; rows.block_count() == *blocks && rows.link_count() == 0);
        answers(&rt, rt.alloc(), &rows, &blocked(1), first);
        answers(&rt, rt.alloc(), &copied(&rt, &rows), &blocked(2), second);
    }
}

/// Transactions where 1 and 3 are friends and 1 has blocked 2, and the place of the change that is rejected.
const BARRED: [(&str, u32); 11] = [
    ("invite 1 2", 0),
    ("invite 2 1", 0),
    ("block 1 2", 0),
    ("block 1 3", 0),
    ("block 3 1", 0),
    ("block 2 2", 0),
    ("block 2 4", 0),
    ("block 2 1,block 2 1", 1),
    ("thaw 1 3,block 1 3,invite 3 1", 2),
    ("invite 2 3,block 3 2", 1),
    ("block 2 3,invite 3 2", 1),
];

#[test]
fn a_block_bars_invitations_both_ways(rt: HostRuntime) {
    let mut rows = started(&rt, rt.alloc(), 3);
    let before = "invite 1 3,accept 1 3,block 1 2";
    applies(&rt, rt.alloc(), &mut rows, before, None);
    for (changes, index) in BARRED.iter() {
        applies(&rt, rt.alloc(), &mut rows, changes, Some(*index));
        answers(&rt, rt.alloc(), &rows, &blocked(1), "2");
        answers(&rt, rt.alloc(), &rows, &blocked(2), "");
    }
}

/// Transactions, and the place of the change that is rejected.
const JUDGED: [(&str, u32); 7] = [
    ("invite 2 1", 0),
    ("accept 1 2", 0),
    ("thaw 1 2,thaw 2 1", 1),
    ("thaw 1 2,invite 2 1,accept 1 2", 2),
    ("thaw 1 2,invite 2 1,reject 2 1,invite 1 3,invite 3 1", 4),
    ("invite 1 3,thaw 1 3", 1),
    ("rename 1 ann,rename 4 ann", 1),
];

#[test]
fn judges_each_change_after_the_earlier_ones(rt: HostRuntime) {
    let mut rows = started(&rt, rt.alloc(), 3);
    applies(&rt, rt.alloc(), &mut rows, "invite 1 2,accept 1 2", None);
    for (changes, index) in JUDGED.iter() {
        applies(&rt, rt.alloc(), &mut rows, changes, Some(*index));
        let want = "m1 1 0/2//1/0/m2 1 0/1//1/0/m3 0 0///0/0/";
        tells(&rt, rt.alloc(), &rows, 1, 4, want);
    }
}

const REJECTED: [(&str, u32); 6] = [
    ("accept 1 2", 0),
    ("invite 1 2,invite 2 1", 1),
    ("invite 1 2,accept 2 1", 1),
    ("invite 1 2,reject 1 2,thaw 1 2", 2),
    ("invite 3 3", 0),
    ("invite 3 4", 0),
];

const PENDING_2: QKey = QKey {
    kind: Kind::NPending,
    id: 2,
};

#[test]
fn rejects_a_transaction_whole(rt: HostRuntime) {
    let mut rows = started(&rt, rt.alloc(), 3);
    for (changes, index) in REJECTED.iter() {
        applies(&rt, rt.alloc(), &mut rows, changes, Some(*index));
        answers(&rt, rt.alloc(), &rows, &PENDING_2, "0");
    }
}

/// Compares whether so many changes are too few or too many.
fn is_length(rt: &impl Abort, alloc: Global, many: usize, fits: bool)
    requires { many ≤ 9 }
{
    match Txn::of(alloc, &[Change::Thaw { a: 1, b: 2 }; 9][..many]) {
        Ok(txn) => assert!(rt; fits && txn.changes().len() == many),
        Err(fault) => assert!(rt; !fits && fault == TxnFault::Length { count: many }),
    }
}

#[test]
fn takes_one_to_eight_changes(rt: HostRuntime) {
    is_length(&rt, rt.alloc(), 8, true);
    is_length(&rt, rt.alloc(), 0, false);
    is_length(&rt, rt.alloc(), 9, false);
}

/// The keys that are touched, in this order.
const FOOTPRINT: [(Kind, u32); 8] = [
    (Kind::Profile, 2),
    (Kind::Profile, 3),
    (Kind::Friends, 2),
    (Kind::Friends, 3),
    (Kind::Pending, 2),
    (Kind::NFriends, 2),
    (Kind::NFriends, 3),
    (Kind::NPending, 2),
];

fn footprint_of(rt: &impl Abort, alloc: Global, txn: &Txn) -> Vec<QKey> {
    match footprint(alloc, txn) {
        Ok(keys) => keys,
        Err(_) => panic!(rt; "no memory"),
    }
}

/// Compares a key of the footprint, which the transaction touches.
fn is_touched(rt: &impl Abort, txn: &Txn, key: QKey, kind: Kind, id: u32) {
    assert!(rt; key.kind == kind && key.id == id);
    assert!(rt; touches(txn, &key));
}

#[test]
fn touches_each_key_once(rt: HostRuntime) {
    let txn = txn_of(&rt, rt.alloc(), "accept 3 2,invite 1 2");
    let keys = footprint_of(&rt, rt.alloc(), &txn);
    assert!(rt; keys.len() == FOOTPRINT.len());
    for (key, (kind, id)) in keys.iter().zip(FOOTPRINT.iter()) {
        is_touched(&rt, &txn, *key, *kind, *id);
    }
    let other = QKey {
        kind: Kind::Pending,
        id: 3,
    };
    assert!(rt; !touches(&txn, &other));
}
