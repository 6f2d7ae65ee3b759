//! Quarantines that are renewed, by hand, and what they are answered. A lease lives 100 units of time.
use crate::desks::Desk;
use crate::shards::{Call, play};
use std::alloc::Global;
use std::process::Abort;

/// Makes the calls of a new shard alone, with room for two entries.
fn check(rt: &impl Abort, alloc: Global, calls: &[(Call, &str)]) {
    let mut desk = Desk::new(rt, alloc, 0, 1, 2, 1);
    play(rt, alloc, &mut desk, calls);
    desk.close();
}

const LATE: u64 = 18_446_744_073_709_551_614;

const LATEST: u64 = 18_446_744_073_709_551_615;

const INVALIDATE: [(Call, &str); 8] = [
    (Call::Invalidate(1, 1, 0), "granted 1"),
    (Call::Renew(50), "renewed until 150"),
    // The clock went back.
    (Call::Renew(9), "renewed until 109"),
    (Call::Due(108), "none"),
    (Call::Due(109), "1 1 1"),
    (Call::Invalidate(1, 2, 0), "granted 2"),
    (Call::Drop, "released"),
    (Call::Steps, "5"),
];

const REFRESH: [(Call, &str); 6] = [
    (Call::Refresh(1, 1), "granted 1"),
    (Call::Renew(9), "renewed until 109"),
    (Call::Due(108), "none"),
    (Call::Due(109), "1 1 1"),
    (Call::Replace("a", 3), "released"),
    (Call::Get(1, 2, 3, 0), "hit a 3"),
];

const DELTA: [(Call, &str); 8] = [
    (Call::Get(1, 1, 0, 0), "lease 1"),
    (Call::Set(1, 1, "7", 0, 0), "stored"),
    (Call::Delta(1, 2, 5, 0), "granted 2"),
    (Call::Renew(LATE), "renewed until 18446744073709551615"),
    (Call::Due(LATE), "none"),
    (Call::Due(LATEST), "1 2 2"),
    (Call::Shift(9), "released"),
    (Call::Get(1, 3, 9, 0), "hit 12 9"),
];

const RAISED: [(Call, &str); 5] = [
    (Call::Invalidate(1, 1, 0), "granted 1"),
    (Call::Raise, "raised 1"),
    (Call::Renew(1), "renewed until 101"),
    (Call::Due(100), "none"),
    (Call::Replace("a", 3), "released"),
];

const SWEPT: [(Call, &str); 6] = [
    (Call::Invalidate(1, 1, 0), "granted 1"),
    (Call::Sweep(1, 1), "released"),
    (Call::Renew(5), "gone"),
    (Call::Renew(5), "gone"),
    // The grant is spent by its release alone.
    (Call::Keep, "gone"),
    (Call::Steps, "5"),
];

#[test]
fn renews_a_quarantine_of_each_mode(rt: HostRuntime) {
    check(&rt, rt.alloc(), &INVALIDATE);
    check(&rt, rt.alloc(), &REFRESH);
    check(&rt, rt.alloc(), &DELTA);
    check(&rt, rt.alloc(), &RAISED);
    check(&rt, rt.alloc(), &SWEPT);
}

/// Two sessions with a key each renew in turn.
const IN_TURN: [(Call, &str); 18] = [
    (Call::Invalidate(1, 1, 0), "granted 1"),
    (Call::Change, "none"),
    (Call::Invalidate(2, 2, 0), "granted 2"),
    (Call::Due(100), "1 1 1"),
    (Call::Renew(100), "renewed until 200"),
    (Call::Due(100), "1 1 1"),
    (Call::Change, "1"),
    (Call::Renew(150), "renewed until 250"),
    (Call::Due(199), "none"),
    (Call::Due(200), "2 2 2"),
    (Call::Change, "2"),
    (Call::Renew(200), "renewed until 300"),
    (Call::Due(250), "1 1 1"),
    // It was found, and is dropped all the same.
    (Call::Change, "1"),
    (Call::Renew(250), "renewed until 350"),
    (Call::Sweep(1, 1), "released"),
    (Call::Due(299), "none"),
    (Call::Due(350), "2 2 2"),
];

/// Two sessions with the same key, of which the second is found after the first is renewed.
const ON_ONE_KEY: [(Call, &str); 11] = [
    (Call::Invalidate(1, 1, 0), "granted 1"),
    (Call::Change, "none"),
    (Call::Invalidate(1, 2, 0), "granted 2"),
    (Call::Change, "1"),
    (Call::Due(100), "1 1 1"),
    (Call::Renew(100), "renewed until 200"),
    (Call::Due(100), "1 2 2"),
    // The clock went back.
    (Call::Due(99), "none"),
    (Call::Sweep(1, 2), "released"),
    (Call::Due(199), "none"),
    (Call::Due(200), "1 1 1"),
];

#[test]
fn tells_what_is_due_and_not_what_was_renewed(rt: HostRuntime) {
    check(&rt, rt.alloc(), &IN_TURN);
    check(&rt, rt.alloc(), &ON_ONE_KEY);
}
