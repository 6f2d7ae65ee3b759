//! Calls of one shard by hand, and what they are answered.
ghost use Rattle.std.specs.Prelude.{◌≤◌};
ghost use Rattle.key_shard.specs.Answers.{FitsShift};

use crate::desks::{Desk, fault_text, got_text, rel_text, renewal_text, set_text};
use crate::txns::value_of;
use key_shard::{Back, How, Rel};
use lease_table::{Due, Lapse, Mode};
use rows_model::{Kind, Memory, QKey, Sid};
use std::alloc::{AllocError, Global};
use std::mem;
use std::process::Abort;

/// A call of the shard, on the profile of the member with the id that comes first.
#[derive(Clone, Copy)]
pub enum Call {
    /// For a session, with a floor, at a time.
    Get(u32, u64, u64, u64),
    /// Under a token, with a value and a stamp, at a time.
    Set(u32, u64, &'static str, u64, u64),
    /// For a session, at a time. The grant is held from then on, and no longer any that was.
    Invalidate(u32, u64, u64),
    /// For a session, at time 0.
    Refresh(u32, u64),
    /// For a session, by a number, at a time.
    Delta(u32, u64, i32, u64),
    /// Releases the grant that is held, and keeps the entry.
    Keep,
    /// Releases the grant, and drops the entry.
    Drop,
    /// Releases the grant, and moves the entry's number, with a stamp.
    Shift(u64),
    /// Releases the grant with a new value and a stamp.
    Replace(&'static str, u64),
    /// Raises the grant that is held, and holds what comes back.
    Raise,
    /// Renews the grant that is held, at a time.
    Renew(u64),
    /// Lays aside what is held, and holds what lay there, which is told by its token.
    Change,
    /// The first quarantine that is due at a time, by the ids of its member and its session, and its
    /// token.
    Due(u64),
    /// Ends the quarantine of a token.
    Sweep(u32, u64),
    /// Drops the lease to read that lapsed first, at a time, and tells the id of its member and its token.
    Lapse(u64),
    /// How many steps are in memory.
    Steps,
}

fn profile(id: u32) -> QKey {
    QKey {
        kind: Kind::Profile,
        id,
    }
}

fn set(
    rt: &impl Abort,
    alloc: Global,
    desk: &mut Desk,
    id: u32,
    token: u64,
    text: &str,
    stamp: u64,
    now: u64,
) -> Result<String, AllocError> {
    let value = value_of(rt, alloc, text);
    set_text(alloc, desk.shard.set(profile(id), token, value, stamp, now))
}

/// Asks for a quarantine, and holds the grant.
fn quarantine(
    rt: &impl Abort,
    alloc: Global,
    desk: &mut Desk,
    id: u32,
    who: u64,
    mode: Mode,
    shift: i32,
    now: u64,
) -> Result<String, AllocError>
    requires { FitsShift mode shift }
{
    let (key, who) = (profile(id), Sid { number: who });
    match desk.shard.quarantine(key, who, mode, shift, now) {
        Ok(answer) => desk.asked(rt, alloc, key, who, answer),
        Err(fault) => fault_text(alloc, fault),
    }
}

fn keep(rt: &impl Abort, desk: &mut Desk) -> Rel {
    let grant = desk.take(rt);
    desk.shard.release(grant, How::Keep)
}

fn drop_entry(rt: &impl Abort, desk: &mut Desk) -> Rel {
    let grant = desk.take(rt);
    desk.shard.release(grant, How::Drop)
}

fn shift(rt: &impl Abort, desk: &mut Desk, stamp: u64) -> Rel {
    let grant = desk.take(rt);
    match grant.mode() {
        Mode::Delta => desk.shard.release(grant, How::Shift { stamp }),
        _ => {
            grant.let_go();
            panic!(rt; "no delta")
        }
    }
}

fn replace(rt: &impl Abort, alloc: Global, desk: &mut Desk, text: &str, stamp: u64) -> Rel {
    let value = value_of(rt, alloc, text);
    let grant = desk.take(rt);
    match grant.mode() {
        Mode::Refresh => match desk.shard.replace(grant, value, stamp) {
            Ok(rel) => rel,
            Err(Back { grant, value: _ }) => {
                grant.let_go();
                panic!(rt; "no memory")
            }
        },
        _ => {
            grant.let_go();
            panic!(rt; "no refresh")
        }
    }
}

/// Raises the grant, which is to be one to invalidate.
fn raise(rt: &impl Abort, alloc: Global, desk: &mut Desk) -> Result<String, AllocError> {
    let grant = desk.take(rt);
    match grant.mode() {
        Mode::Invalidate => match desk.shard.raise(grant) {
            Ok(answer) => desk.raised(rt, alloc, answer),
            Err(grant) => {
                grant.let_go();
                panic!(rt; "no memory")
            }
        },
        _ => {
            grant.let_go();
            panic!(rt; "no invalidate")
        }
    }
}

/// Renews the grant, and holds it further.
fn renew(rt: &impl Abort, alloc: Global, desk: &mut Desk, now: u64) -> Result<String, AllocError> {
    let grant = desk.take(rt);
    let answer = desk.shard.renew(&grant, now);
    desk.hold(grant);
    renewal_text(alloc, answer)
}

/// Sweeps a key that is to be the shard's.
fn sweep(rt: &impl Abort, desk: &mut Desk, id: u32, token: u64) -> Rel {
    let key = profile(id);
    assert!(rt; desk.shard.is_home(&key));
    desk.shard.sweep_drop(key, token)
}

fn due_text(alloc: Global, due: Option<Due>) -> Result<String, AllocError> {
    match due {
        Some(Due { key, sid, token }) if key.kind == Kind::Profile => {
            format!(in alloc; "{} {} {token}", key.id, sid.number)
        }
        Some(_) => format!(in alloc; "no profile"),
        None => format!(in alloc; "none"),
    }
}

fn lapse_text(
    rt: &impl Abort,
    alloc: Global,
    found: Result<Option<Lapse>, Memory>,
) -> Result<String, AllocError> {
    match found {
        Ok(Some(lapse)) => format!(in alloc; "{} {}", lapse.key.id, lapse.token),
        Ok(None) => format!(in alloc; "none"),
        Err(_) => panic!(rt; "no memory"),
    }
}

/// Makes the call, and tells its answer.
pub fn call_text(
    rt: &impl Abort,
    alloc: Global,
    desk: &mut Desk,
    call: Call,
) -> Result<String, AllocError> {
    match call {
        Call::Get(id, who, floor, now) => {
            let who = Sid { number: who };
            got_text(alloc, desk.shard.get(profile(id), who, floor, now))
        }
        Call::Set(id, token, text, stamp, now) => set(rt, alloc, desk, id, token, text, stamp, now),
        Call::Invalidate(id, who, now) => {
            quarantine(rt, alloc, desk, id, who, Mode::Invalidate, 0, now)
        }
        Call::Refresh(id, who) => quarantine(rt, alloc, desk, id, who, Mode::Refresh, 0, 0),
        Call::Delta(id, who, by, now) => quarantine(rt, alloc, desk, id, who, Mode::Delta, by, now),
        Call::Keep => rel_text(alloc, keep(rt, desk)),
        Call::Drop => rel_text(alloc, drop_entry(rt, desk)),
        Call::Shift(stamp) => rel_text(alloc, shift(rt, desk, stamp)),
        Call::Replace(text, stamp) => rel_text(alloc, replace(rt, alloc, desk, text, stamp)),
        Call::Raise => raise(rt, alloc, desk),
        Call::Renew(now) => renew(rt, alloc, desk, now),
        Call::Change => desk.change_hands(alloc),
        Call::Due(now) => due_text(alloc, desk.shard.expired(now)),
        Call::Sweep(id, token) => rel_text(alloc, sweep(rt, desk, id, token)),
        Call::Lapse(now) => lapse_text(rt, alloc, desk.shard.lapse(now)),
        Call::Steps => format!(in alloc; "{}", desk.shard.history().len()),
    }
}

/// Makes the calls in turn, and compares the answers.
pub fn play(rt: &impl Abort, alloc: Global, desk: &mut Desk, calls: &[(Call, &str)]) {
    for (call, want) in calls.iter() {
        match call_text(rt, alloc, desk, *call) {
            Ok(answer) => assert!(rt; answer.as_str() == *want, "{answer} and not {want}"),
            Err(_) => panic!(rt; "no memory"),
        }
    }
}

/// Makes the calls of a new shard with so much room.
fn check(rt: &impl Abort, alloc: Global, room: u32, calls: &[(Call, &str)])
    requires { 1 ≤ room }
{
    let mut desk = Desk::new(rt, alloc, 0, 1, room, 1);
    play(rt, alloc, &mut desk, calls);
    desk.close();
}

const EVICTED_AND_REPLACED: [(Call, &str); 8] = [
    (Call::Get(1, 1, 0, 0), "lease 1"),
    (Call::Set(1, 1, "a", 0, 0), "stored"),
    (Call::Get(2, 1, 0, 0), "lease 2"),
    (Call::Set(2, 2, "b", 0, 0), "stored for 1"),
    (Call::Refresh(2, 2), "granted 3 over b 0"),
    (Call::Invalidate(2, 3, 0), "refused by 2 Refresh"),
    (Call::Replace("c", 1), "released"),
    (Call::Get(2, 3, 1, 0), "hit c 1"),
];

#[test]
fn evicts_refuses_and_replaces(rt: HostRuntime) {
    check(&rt, rt.alloc(), 1, &EVICTED_AND_REPLACED);
}

const STRANGE: [(Call, &str); 5] = [
    (Call::Get(2, 1, 0, 0), "spent 18446744073709551615"),
    (Call::Get(1, 1, 0, 0), "stranger 1"),
    (Call::Set(1, 1, "a", 0, 0), "stranger 1"),
    (Call::Set(2, 1, "a", 0, 0), "void"),
    (Call::Steps, "1"),
];

#[test]
fn refuses_strangers_and_a_spent_counter(rt: HostRuntime) {
    let mut desk = Desk::new(&rt, rt.alloc(), 0, 2, 4, u64::MAX);
    play(&rt, rt.alloc(), &mut desk, &STRANGE);
    assert!(rt; desk.into_shard().take_history().len() == 1);
}

/// A number, by how much it is moved, and the answer to a get after it.
const SHIFTS: [(&str, i32, &str); 5] = [
    ("18446744073709551615", 3, "hit 2 9"),
    ("5", -7, "hit 0 9"),
    ("5", 4, "hit 9 9"),
    ("05", 1, "lease 3"),
    ("b", 1, "lease 3"),
];

#[test]
fn shifts_the_numbers_of_entries_alone(rt: HostRuntime) {
    for (text, by, want) in SHIFTS.iter() {
        let calls = [
            (Call::Get(1, 1, 0, 0), "lease 1"),
            (Call::Set(1, 1, *text, 0, 0), "stored"),
            (Call::Delta(1, 2, *by, 0), "granted 2"),
            (Call::Shift(9), "released"),
            (Call::Get(1, 3, 0, 0), *want),
        ];
        check(&rt, rt.alloc(), 2, &calls);
    }
}

const LEASE_GONE: [(Call, &str); 10] = [
    (Call::Get(1, 1, 0, 0), "lease 1"),
    (Call::Get(1, 2, 0, 99), "again I"),
    (Call::Set(1, 1, "a", 0, 100), "void"),
    (Call::Get(1, 2, 0, 100), "lease 2"),
    (Call::Invalidate(1, 3, 0), "granted 3"),
    (Call::Set(1, 2, "a", 0, 100), "void"),
    (Call::Get(1, 4, 0, 100), "again Q"),
    (Call::Get(1, 3, 0, 100), "own"),
    (Call::Drop, "released"),
    (Call::Get(1, 4, 0, 100), "lease 4"),
];

#[test]
fn stores_nothing_under_a_lease_that_is_gone(rt: HostRuntime) {
    check(&rt, rt.alloc(), 2, &LEASE_GONE);
}

const KEPT_OR_DROPPED: [(Call, &str); 11] = [
    (Call::Get(1, 1, 0, 0), "lease 1"),
    (Call::Set(1, 1, "a", 7, 0), "stored"),
    (Call::Invalidate(1, 2, 0), "granted 2"),
    (Call::Keep, "released"),
    (Call::Get(1, 3, 7, 0), "hit a 7"),
    (Call::Invalidate(1, 2, 0), "granted 3"),
    (Call::Drop, "released"),
    (Call::Get(1, 3, 0, 0), "lease 4"),
    (Call::Set(1, 4, "b", 8, 0), "stored"),
    // An entry below the floor goes, whoever asks after it.
    (Call::Get(1, 3, 9, 0), "lease 5"),
    (Call::Get(1, 4, 0, 0), "again I"),
];

#[test]
fn keeps_or_drops_as_it_is_told(rt: HostRuntime) {
    check(&rt, rt.alloc(), 2, &KEPT_OR_DROPPED);
}

const USED: [(Call, &str); 14] = [
    (Call::Get(1, 1, 0, 0), "lease 1"),
    (Call::Set(1, 1, "7", 0, 0), "stored"),
    (Call::Get(2, 1, 0, 0), "lease 2"),
    (Call::Set(2, 2, "b", 0, 0), "stored"),
    (Call::Refresh(1, 2), "granted 3 over 7 0"),
    (Call::Get(1, 2, 0, 0), "own"),
    (Call::Keep, "released"),
    (Call::Delta(1, 2, 1, 0), "granted 4"),
    (Call::Shift(1), "released"),
    (Call::Get(3, 1, 0, 0), "lease 5"),
    (Call::Set(3, 5, "c", 0, 0), "stored for 1"),
    (Call::Get(2, 1, 0, 0), "hit b 0"),
    (Call::Get(4, 1, 0, 0), "lease 6"),
    (Call::Set(4, 6, "d", 0, 0), "stored for 3"),
];

#[test]
fn keeps_the_order_of_use(rt: HostRuntime) {
    check(&rt, rt.alloc(), 2, &USED);
}

const EVICTED: [(Call, &str); 7] = [
    (Call::Get(1, 1, 0, 0), "lease 1"),
    (Call::Set(1, 1, "a", 0, 0), "stored"),
    (Call::Invalidate(1, 2, 0), "granted 2"),
    (Call::Get(2, 1, 0, 0), "lease 3"),
    (Call::Set(2, 3, "b", 0, 0), "stored for 1"),
    (Call::Keep, "released"),
    (Call::Get(1, 1, 0, 0), "lease 4"),
];

#[test]
fn brings_no_evicted_entry_back(rt: HostRuntime) {
    check(&rt, rt.alloc(), 1, &EVICTED);
}

const STRANGE_GRANT: [(Call, &str); 3] = [
    (Call::Renew(0), "gone"),
    (Call::Drop, "gone"),
    (Call::Steps, "1"),
];

const OWN_GRANT: [(Call, &str); 3] = [
    (Call::Renew(0), "renewed until 100"),
    (Call::Drop, "released"),
    (Call::Steps, "3"),
];

const STRANGE_RAISE: [(Call, &str); 2] = [(Call::Raise, "gone"), (Call::Steps, "1")];

const OWN_RAISE: [(Call, &str); 3] = [
    (Call::Raise, "raised 1"),
    (Call::Replace("a", 1), "released"),
    (Call::Steps, "3"),
];

/// Two shards each grant a quarantine of a key of theirs. Compares what the first answers to the grant of
/// the other, and then to its own.
fn compare_grants(rt: &impl Abort, alloc: Global, strange: &[(Call, &str)], own: &[(Call, &str)]) {
    let mut home = Desk::new(rt, alloc, 0, 2, 4, 1);
    let mut away = Desk::new(rt, alloc, 1, 2, 4, 1);
    play(
        rt,
        alloc,
        &mut home,
        &[(Call::Invalidate(2, 1, 0), "granted 1")],
    );
    play(
        rt,
        alloc,
        &mut away,
        &[(Call::Invalidate(1, 1, 0), "granted 1")],
    );
    mem::swap(&mut home.held, &mut away.held);
    play(rt, alloc, &mut home, strange);
    mem::swap(&mut home.held, &mut away.held);
    play(rt, alloc, &mut home, own);
    home.close();
    away.close();
}

#[test]
fn knows_its_own_grants_alone(rt: HostRuntime) {
    compare_grants(&rt, rt.alloc(), &STRANGE_GRANT, &OWN_GRANT);
    compare_grants(&rt, rt.alloc(), &STRANGE_RAISE, &OWN_RAISE);
}

const LATE: u64 = 18_446_744_073_709_551_614;

const LATEST: u64 = 18_446_744_073_709_551_615;

const LATE_LEASES: [(Call, &str); 3] = [
    (Call::Get(1, 1, 0, LATE), "lease 1"),
    (Call::Get(1, 2, 0, LATE), "again I"),
    (Call::Get(1, 2, 0, LATEST), "lease 2"),
];

#[test]
fn stops_deadlines_at_the_end_of_time(rt: HostRuntime) {
    check(&rt, rt.alloc(), 1, &LATE_LEASES);
}

const PAST_DEADLINE: [(Call, &str); 14] = [
    (Call::Get(1, 1, 0, 0), "lease 1"),
    (Call::Set(1, 1, "a", 0, 0), "stored"),
    (Call::Refresh(1, 2), "granted 2 over a 0"),
    (Call::Due(99), "none"),
    (Call::Due(100), "1 2 2"),
    // Another token, and another key.
    (Call::Sweep(1, 3), "gone"),
    (Call::Sweep(2, 2), "gone"),
    (Call::Steps, "3"),
    (Call::Sweep(1, 2), "released"),
    (Call::Sweep(1, 2), "gone"),
    (Call::Due(LATEST), "none"),
    (Call::Get(1, 3, 0, 100), "lease 3"),
    // The session comes too late with its release.
    (Call::Keep, "gone"),
    (Call::Steps, "6"),
];

#[test]
fn drops_what_is_past_its_deadline(rt: HostRuntime) {
    check(&rt, rt.alloc(), 2, &PAST_DEADLINE);
}

const LAPSED: [(Call, &str); 14] = [
    (Call::Get(1, 1, 0, 0), "lease 1"),
    (Call::Get(2, 1, 0, 10), "lease 2"),
    (Call::Lapse(99), "none"),
    (Call::Lapse(100), "1 1"),
    (Call::Lapse(109), "none"),
    // A void set under it dropped it before.
    (Call::Set(2, 2, "a", 0, 110), "void"),
    (Call::Lapse(110), "none"),
    (Call::Get(1, 3, 0, 110), "lease 3"),
    (Call::Set(1, 3, "b", 0, 120), "stored"),
    (Call::Get(2, 3, 0, 120), "lease 4"),
    (Call::Invalidate(2, 4, 130), "granted 5"),
    (Call::Keep, "released"),
    // One was used up, and a quarantine ended the other.
    (Call::Lapse(LATEST), "none"),
    (Call::Steps, "9"),
];

#[test]
fn drops_leases_that_lapsed(rt: HostRuntime) {
    check(&rt, rt.alloc(), 2, &LAPSED);
}

const FIRST_DUE: [(Call, &str); 10] = [
    (Call::Invalidate(2, 1, 50), "granted 1"),
    (Call::Invalidate(2, 2, 0), "granted 2"),
    (Call::Delta(1, 1, 0, 50), "granted 3"),
    (Call::Due(149), "2 2 2"),
    (Call::Sweep(2, 2), "released"),
    (Call::Due(149), "none"),
    (Call::Get(2, 3, 0, 149), "again Q"),
    (Call::Due(150), "1 1 3"),
    (Call::Sweep(1, 3), "released"),
    (Call::Due(150), "2 1 1"),
];

#[test]
fn finds_the_first_that_is_due(rt: HostRuntime) {
    check(&rt, rt.alloc(), 2, &FIRST_DUE);
}

const LATE_QUARANTINE: [(Call, &str); 3] = [
    (Call::Invalidate(1, 1, LATE), "granted 1"),
    (Call::Due(LATE), "none"),
    (Call::Due(LATEST), "1 1 1"),
];

#[test]
fn ends_no_quarantine_before_the_end_of_time(rt: HostRuntime) {
    check(&rt, rt.alloc(), 1, &LATE_QUARANTINE);
}
