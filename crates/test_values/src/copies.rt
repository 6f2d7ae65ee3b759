//! Copies of entries and of leases, which stay as they were.
use crate::leases::{ask_i, ask_q};
use crate::txns::value_of;
use entry_table::Entries;
use key_shard::Shard;
use lease_table::{Leases, Mode, Quar};
use rows_model::{Kind, QKey, Sid, Value};
use std::alloc::Global;
use std::process::Abort;

fn profile(id: u32) -> QKey {
    QKey {
        kind: Kind::Profile,
        id,
    }
}

/// Compares a list of entries, each as id, text and stamp.
fn lists(rt: &impl Abort, list: &[(QKey, Value, u64)], want: &[(u32, &str, u64)]) {
    assert!(rt; list.len() == want.len());
    for ((key, value, stamp), (id, text, number)) in list.iter().zip(want.iter()) {
        assert!(rt; key.id == *id && value.bytes() == text.as_bytes() && *stamp == *number);
    }
}

const ENTRIES: [(u32, &str, u64); 3] = [(1, "a", 1), (3, "c", 3), (2, "b", 2)];

#[test]
fn lists_the_entries_the_most_recent_first(rt: HostRuntime) {
    let alloc = rt.alloc();
    let Ok(mut entries) = Entries::new(alloc, 3) else {
        panic!(rt; "no memory");
    };
    for (id, text, stamp) in [(1, "a", 1), (2, "b", 2), (3, "c", 3)] {
        let put = entries.put(profile(id), value_of(&rt, alloc, text), stamp);
        assert!(rt; matches!(put, Ok(None)));
    }
    entries.promote(&profile(1));
    match entries.list() {
        Ok(list) => {
            assert!(rt; entries.drop_key(&profile(1)));
            lists(&rt, &list, &ENTRIES);
        }
        Err(_) => panic!(rt; "no memory"),
    }
}

#[test]
fn copies_the_entries_of_a_shard(rt: HostRuntime) {
    let alloc = rt.alloc();
    let Ok(mut shard) = Shard::new(alloc, 0, 1, 2, 100, 1) else {
        panic!(rt; "no memory");
    };
    let _ = shard.get(profile(1), Sid { number: 1 }, 0, 0);
    let _ = shard.set(profile(1), 1, value_of(&rt, alloc, "a"), 4, 0);
    match shard.entries() {
        Ok(list) => lists(&rt, &list, &[(1, "a", 4)]),
        Err(_) => panic!(rt; "no memory"),
    }
    assert!(rt; shard.count() == 1 && shard.no() == 0);
}

#[test]
fn copies_the_leases(rt: HostRuntime) {
    let mut leases = Leases::new(rt.alloc());
    let quar = Quar {
        sid: Sid { number: 1 },
        mode: Mode::Refresh,
        token: 1,
        deadline: 9,
        shift: 0,
    };
    let _ = ask_q(&rt, &mut leases, profile(1), quar, 0);
    let _ = ask_i(&rt, &mut leases, profile(2), Sid { number: 2 }, 2, 9, 0);
    match leases.copy() {
        Ok(mut copy) => {
            assert!(rt; leases.end_q(&profile(1), 1) == Some(quar));
            assert!(rt; leases.take_i(&profile(2), 2, 0));
            assert!(rt; copy.quar(&profile(1), 1) == Some(quar));
            assert!(rt; copy.can_take_i(&profile(2), 2, 0));
            assert!(rt; copy.expired(9).is_some_and(|due| due.token == 1));
        }
        Err(_) => panic!(rt; "no memory"),
    }
}
