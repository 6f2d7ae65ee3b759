//! What transactions add to counts.
use crate::txns::txn_of;
use rows_model::{Kind, QKey, Txn, delta_of};
use std::alloc::Global;
use std::process::Abort;

/// Compares what is added to the counts of friends and of pending invitations of a member.
fn adds(rt: &impl Abort, txn: &Txn, id: u32, friends: i32, pending: i32) {
    let (by_friends, by_pending) = (
        delta_of(
            &QKey {
                kind: Kind::NFriends,
                id,
            },
            txn,
        ),
        delta_of(
            &QKey {
                kind: Kind::NPending,
                id,
            },
            txn,
        ),
    );
    assert!(rt;
        by_friends == friends && by_pending == pending,
        "member {id}"
    );
}

/// What is added to the counts of the members 3, 7 and 9.
type Added = [(i32, i32); 3];

fn check(rt: &impl Abort, alloc: Global, cases: &[(&str, Added)]) {
    for (changes, want) in cases.iter() {
        let txn = txn_of(rt, alloc, changes);
        adds(rt, &txn, 3, want[0].0, want[0].1);
        adds(rt, &txn, 7, want[1].0, want[1].1);
        adds(rt, &txn, 9, want[2].0, want[2].1);
    }
}

const ALONE: [(&str, Added); 6] = [
    ("invite 3 7", [(0, 0), (0, 1), (0, 0)]),
    ("accept 3 7", [(1, 0), (1, -1), (0, 0)]),
    ("reject 3 7", [(0, 0), (0, -1), (0, 0)]),
    ("thaw 3 7", [(-1, 0), (-1, 0), (0, 0)]),
    ("rename 7 ann", [(0, 0), (0, 0), (0, 0)]),
    ("block 3 7", [(0, 0), (0, 0), (0, 0)]),
];

#[test]
fn a_change_adds_to_its_members_counts(rt: HostRuntime) {
    check(&rt, rt.alloc(), &ALONE);
}

const ALIKE: [(&str, Added); 3] = [
    ("invite 7 7", [(0, 0), (0, 1), (0, 0)]),
    ("accept 7 7", [(0, 0), (1, -1), (0, 0)]),
    ("thaw 7 7", [(0, 0), (-1, 0), (0, 0)]),
];

#[test]
fn members_named_alike_are_counted_once(rt: HostRuntime) {
    check(&rt, rt.alloc(), &ALIKE);
}

const TOGETHER: [(&str, Added); 4] = [
    ("invite 3 7,accept 3 7", [(1, 0), (1, 0), (0, 0)]),
    ("accept 3 7,thaw 3 7", [(0, 0), (0, -1), (0, 0)]),
    ("accept 3 7,accept 7 9", [(1, 0), (2, -1), (1, -1)]),
    (
        "thaw 3 7,thaw 3 7,thaw 3 7,thaw 3 7,thaw 3 7,thaw 3 7,thaw 3 7,thaw 3 7",
        [(-8, 0), (-8, 0), (0, 0)],
    ),
];

#[test]
fn changes_add_up(rt: HostRuntime) {
    check(&rt, rt.alloc(), &TOGETHER);
}

/// Whether the answers of a kind are counts, and what is added to that of member 7.
const KINDS: [(Kind, bool, i32); 6] = [
    (Kind::Profile, false, 0),
    (Kind::Friends, false, 0),
    (Kind::Pending, false, 0),
    (Kind::NFriends, true, 2),
    (Kind::NPending, true, -1),
    (Kind::Blocked, false, 0),
];

#[test]
fn nothing_is_added_to_other_keys(rt: HostRuntime) {
    let txn = txn_of(&rt, rt.alloc(), "invite 3 7,accept 3 7,accept 3 7");
    for (kind, counts, by) in KINDS.iter() {
        let key = QKey { kind: *kind, id: 7 };
        assert!(rt; key.is_count() == *counts);
        assert!(rt; delta_of(&key, &txn) == *by);
    }
}
