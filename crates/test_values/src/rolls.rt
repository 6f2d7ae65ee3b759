//! Shards that roll: they answer by all their steps, and have none of them in memory.
ghost use Rattle.std.specs.Prelude.{◌≤◌};

use crate::desks::Desk;
use crate::shards::{Call, play};
use std::alloc::Global;
use std::process::Abort;

/// Makes the calls of a new shard with this first token.
fn check(rt: &impl Abort, alloc: Global, first: u64, calls: &[(Call, &str)])
    requires { 1 ≤ first }
{
    let mut desk = Desk::rolling(rt, alloc, 4, first);
    play(rt, alloc, &mut desk, calls);
    desk.close();
}

const ROLLED: [(Call, &str); 14] = [
    (Call::Get(2, 1, 0, 0), "lease 1"),
    (Call::Set(2, 1, "m2 0 0", 0, 0), "stored"),
    (Call::Get(2, 1, 0, 0), "hit m2 0 0 0"),
    (Call::Get(2, 2, 0, 0), "hit m2 0 0 0"),
    (Call::Steps, "0"),
    (Call::Invalidate(1, 1, 0), "granted 2"),
    (Call::Renew(5), "renewed until 105"),
    (Call::Raise, "raised 2"),
    (Call::Replace("a", 1), "released"),
    (Call::Get(1, 2, 1, 0), "hit a 1"),
    (Call::Delta(1, 3, 1, 0), "granted 3"),
    (Call::Sweep(1, 3), "released"),
    (Call::Drop, "gone"),
    (Call::Steps, "0"),
];

#[test]
fn has_no_step_in_memory(rt: HostRuntime) {
    check(&rt, rt.alloc(), 1, &ROLLED);
}

const REFUSED: [(Call, &str); 3] = [
    (Call::Set(1, 1, "a", 0, 0), "void"),
    (Call::Get(1, 1, 0, 0), "spent 18446744073709551615"),
    (Call::Invalidate(1, 2, 0), "spent 18446744073709551615"),
];

#[test]
fn is_spent_where_no_token_is_left(rt: HostRuntime) {
    check(&rt, rt.alloc(), u64::MAX, &REFUSED);
}
