//! Quarantines that are raised, by hand, and what they are answered.
use crate::desks::Desk;
use crate::shards::{Call, play};
use std::alloc::Global;
use std::process::Abort;

/// Makes the calls of a new shard alone, with room for two entries.
fn check(rt: &impl Abort, alloc: Global, calls: &[(Call, &str)]) {
    let mut desk = Desk::new(rt, alloc, 0, 1, 2, 1);
    play(rt, alloc, &mut desk, calls);
    desk.close();
}

const OVER_NOTHING: [(Call, &str); 8] = [
    (Call::Invalidate(1, 1, 0), "granted 1"),
    (Call::Raise, "raised 1"),
    // It is one to refresh, until the same time.
    (Call::Invalidate(1, 2, 0), "refused by 1 Refresh"),
    (Call::Due(99), "none"),
    (Call::Due(100), "1 1 1"),
    (Call::Replace("a", 3), "released"),
    (Call::Get(1, 2, 3, 0), "hit a 3"),
    (Call::Steps, "5"),
];

/// The entry comes along, and its place in the order of use stays.
const OVER_AN_ENTRY: [(Call, &str); 10] = [
    (Call::Get(1, 1, 0, 0), "lease 1"),
    (Call::Set(1, 1, "a", 0, 0), "stored"),
    (Call::Get(2, 1, 0, 0), "lease 2"),
    (Call::Set(2, 2, "b", 0, 0), "stored"),
    (Call::Invalidate(1, 2, 0), "granted 3"),
    (Call::Raise, "raised 3 over a 0"),
    (Call::Get(3, 1, 0, 0), "lease 4"),
    (Call::Set(3, 4, "c", 0, 0), "stored for 1"),
    (Call::Replace("d", 1), "released for 2"),
    (Call::Get(1, 3, 1, 0), "hit d 1"),
];

/// A raise has no floor: an entry below one that was asked with comes along all the same.
const BELOW_A_FLOOR: [(Call, &str); 7] = [
    (Call::Get(1, 1, 0, 0), "lease 1"),
    (Call::Set(1, 1, "a", 4, 0), "stored"),
    (Call::Invalidate(1, 2, 0), "granted 2"),
    (Call::Get(1, 2, 9, 0), "own"),
    (Call::Raise, "raised 2 over a 4"),
    (Call::Replace("b", 9), "released"),
    (Call::Get(1, 3, 9, 0), "hit b 9"),
];

/// Another session's miss has dropped the entry before the raise.
const MISSED_BEFORE: [(Call, &str); 7] = [
    (Call::Get(1, 1, 0, 0), "lease 1"),
    (Call::Set(1, 1, "a", 4, 0), "stored"),
    (Call::Invalidate(1, 2, 0), "granted 2"),
    (Call::Get(1, 3, 9, 0), "again Q"),
    (Call::Raise, "raised 2"),
    (Call::Replace("b", 9), "released"),
    (Call::Get(1, 3, 9, 0), "hit b 9"),
];

#[test]
fn raises_a_quarantine_and_puts_a_new_value(rt: HostRuntime) {
    check(&rt, rt.alloc(), &OVER_NOTHING);
    check(&rt, rt.alloc(), &OVER_AN_ENTRY);
    check(&rt, rt.alloc(), &BELOW_A_FLOOR);
    check(&rt, rt.alloc(), &MISSED_BEFORE);
}

/// Sessions 7, 3 and 5 have tokens in that order.
const SHARED: [(Call, &str); 11] = [
    (Call::Invalidate(1, 7, 0), "granted 1"),
    (Call::Invalidate(1, 3, 0), "granted 2"),
    (Call::Invalidate(1, 5, 0), "granted 3"),
    (Call::Raise, "shared with 7"),
    (Call::Sweep(1, 1), "released"),
    (Call::Raise, "shared with 3"),
    (Call::Steps, "6"),
    (Call::Sweep(1, 2), "released"),
    (Call::Raise, "raised 3"),
    (Call::Keep, "released"),
    (Call::Steps, "9"),
];

/// A grant that isn't raised ends its quarantine as before.
const SHARED_AND_DROPPED: [(Call, &str); 8] = [
    (Call::Get(1, 1, 0, 0), "lease 1"),
    (Call::Set(1, 1, "a", 4, 0), "stored"),
    (Call::Invalidate(1, 7, 0), "granted 2"),
    (Call::Invalidate(1, 3, 0), "granted 3"),
    (Call::Raise, "shared with 7"),
    (Call::Drop, "released"),
    (Call::Get(1, 3, 0, 0), "again Q"),
    (Call::Due(100), "1 7 2"),
];

#[test]
fn raises_none_beside_others(rt: HostRuntime) {
    check(&rt, rt.alloc(), &SHARED);
    check(&rt, rt.alloc(), &SHARED_AND_DROPPED);
}

const SWEPT: [(Call, &str); 6] = [
    (Call::Invalidate(1, 1, 0), "granted 1"),
    (Call::Due(100), "1 1 1"),
    (Call::Sweep(1, 1), "released"),
    (Call::Raise, "gone"),
    (Call::Steps, "3"),
    // No grant is held.
    (Call::Change, "none"),
];

#[test]
fn spends_the_grant_of_a_quarantine_that_was_swept(rt: HostRuntime) {
    let mut desk = Desk::new(&rt, rt.alloc(), 0, 1, 2, 1);
    play(&rt, rt.alloc(), &mut desk, &SWEPT);
    assert!(rt; desk.held.is_none() && desk.aside.is_none());
    desk.close();
}
