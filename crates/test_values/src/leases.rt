//! The table of leases: requests by hand, and what is answered.
use case_tables::Verdict;
use lease_table::{Due, Leases, Mode, Quar};
use rows_model::{Kind, QKey, Sid};
use std::alloc::{AllocError, Global};
use std::process::Abort;

/// The word for a verdict.
pub fn word(verdict: Verdict) -> &'static str {
    match verdict {
        Verdict::Give => "give",
        Verdict::Wait => "wait",
        Verdict::Void => "void",
        Verdict::Join => "join",
        Verdict::Same => "same",
        Verdict::Own => "own",
        Verdict::Refuse => "refuse",
        Verdict::Raise => "raise",
        Verdict::Gone => "gone",
    }
}

/// The verdict of `ask_q`, whose condition is tested.
pub fn ask_q(rt: &impl Abort, leases: &mut Leases, key: QKey, q: Quar, now: u64) -> Verdict {
    assert!(rt; leases.is_above(&key, q.token));
    match leases.ask_q(key, q, now) {
        Ok(verdict) => verdict,
        Err(_) => panic!(rt; "no memory"),
    }
}

/// The verdict of `ask_i`.
pub fn ask_i(
    rt: &impl Abort,
    leases: &mut Leases,
    key: QKey,
    sid: Sid,
    token: u64,
    deadline: u64,
    now: u64,
) -> Verdict {
    match leases.ask_i(key, sid, token, deadline, now) {
        Ok(verdict) => verdict,
        Err(_) => panic!(rt; "no memory"),
    }
}

/// A call of the table, on a key.
#[derive(Clone, Copy)]
enum Call {
    /// A lease to read for a session, with a token, until 100, at a time.
    Read(QKey, u64, u64, u64),
    /// A quarantine for a session in a mode, with a token and a deadline, at time 0.
    Quarantine(QKey, u64, Mode, u64, u64),
    /// Whether the lease to read of this token is used up, at a time.
    Take(QKey, u64, u64),
    /// The quarantine of this token, which is ended.
    End(QKey, u64),
    /// The quarantine that this session sees.
    Holder(QKey, u64),
    /// The row of the grid, as this session sees it at time 0.
    Standing(QKey, u64),
    /// Raises the quarantine of a session and a token.
    Raise(QKey, u64, u64),
    /// Gives the quarantine of a token another deadline.
    Renew(QKey, u64, u64),
    /// The first quarantine that is due at a time, on any key.
    Due(u64),
}

fn quar_text(alloc: Global, quar: Option<Quar>) -> Result<String, AllocError> {
    match quar {
        Some(
            Quar {
                sid,
                mode,
                token,
                deadline,
                shift,
            },
        ) => {
            format!(in alloc;
                "{mode:?} of {} by {token} until {deadline} shift {shift}",
                sid.number
            )
        }
        None => format!(in alloc; "none"),
    }
}

fn due_text(alloc: Global, due: Option<Due>) -> Result<String, AllocError> {
    match due {
        Some(Due { key, sid, token }) => {
            format!(in alloc; "{:?} {} of {} by {token}", key.kind, key.id, sid.number)
        }
        None => format!(in alloc; "none"),
    }
}

/// Asks for a lease to read until 100.
fn read(
    rt: &impl Abort,
    leases: &mut Leases,
    key: QKey,
    sid: u64,
    token: u64,
    now: u64,
) -> Verdict {
    ask_i(rt, leases, key, Sid { number: sid }, token, 100, now)
}

/// Asks for a quarantine at time 0.
fn quarantine(
    rt: &impl Abort,
    leases: &mut Leases,
    key: QKey,
    sid: u64,
    mode: Mode,
    token: u64,
    deadline: u64,
) -> Verdict {
    let quar = Quar {
        sid: Sid { number: sid },
        mode,
        token,
        deadline,
        shift: 0,
    };
    ask_q(rt, leases, key, quar, 0)
}

/// Makes the call, and tells its answer.
fn call_text(
    rt: &impl Abort,
    alloc: Global,
    leases: &mut Leases,
    call: Call,
) -> Result<String, AllocError> {
    match call {
        Call::Read(key, sid, token, now) => {
            String::from_str(alloc, word(read(rt, leases, key, sid, token, now)))
        }
        Call::Quarantine(key, sid, mode, token, deadline) => {
            let verdict = quarantine(rt, leases, key, sid, mode, token, deadline);
            String::from_str(alloc, word(verdict))
        }
        Call::Take(key, token, now) => format!(in alloc; "{}", leases.take_i(&key, token, now)),
        Call::End(key, token) => quar_text(alloc, leases.end_q(&key, token)),
        Call::Holder(key, sid) => quar_text(alloc, leases.holder(&key, Sid { number: sid })),
        Call::Standing(key, sid) => {
            format!(in alloc; "{}", leases.standing(&key, Sid { number: sid }, 0))
        }
        Call::Raise(key, sid, token) => {
            let verdict = leases.raise(&key, Sid { number: sid }, token);
            String::from_str(alloc, word(verdict))
        }
        Call::Renew(key, token, deadline) => {
            format!(in alloc; "{}", leases.renew(&key, token, deadline))
        }
        Call::Due(now) => due_text(alloc, leases.expired(now)),
    }
}

/// Makes the calls in turn on a new table, and compares the answers.
fn check(rt: &impl Abort, alloc: Global, calls: &[(Call, &str)]) {
    let mut leases = Leases::new(alloc);
    for (call, want) in calls.iter() {
        match call_text(rt, alloc, &mut leases, *call) {
            Ok(answer) => assert!(rt; answer.as_str() == *want, "{answer}"),
            Err(_) => panic!(rt; "no memory"),
        }
    }
}

const PROFILE_2: QKey = QKey {
    kind: Kind::Profile,
    id: 2,
};

const PROFILE_3: QKey = QKey {
    kind: Kind::Profile,
    id: 3,
};

const FRIENDS_2: QKey = QKey {
    kind: Kind::Friends,
    id: 2,
};

const IN_TURN: [(Call, &str); 11] = [
    (Call::Read(PROFILE_2, 1, 1, 0), "give"),
    (Call::Read(PROFILE_2, 2, 2, 0), "wait"),
    (
        Call::Quarantine(PROFILE_2, 3, Mode::Invalidate, 2, 100),
        "void",
    ),
    (Call::Take(PROFILE_2, 1, 0), "false"),
    (
        Call::Quarantine(PROFILE_2, 4, Mode::Invalidate, 3, 100),
        "join",
    ),
    (
        Call::Quarantine(PROFILE_2, 4, Mode::Refresh, 4, 100),
        "refuse",
    ),
    (
        Call::Holder(PROFILE_2, 4),
        "Invalidate of 4 by 3 until 100 shift 0",
    ),
    (
        Call::Holder(PROFILE_2, 9),
        "Invalidate of 3 by 2 until 100 shift 0",
    ),
    (Call::Due(100), "Profile 2 of 3 by 2"),
    (
        Call::End(PROFILE_2, 2),
        "Invalidate of 3 by 2 until 100 shift 0",
    ),
    (Call::End(PROFILE_2, 2), "none"),
];

#[test]
fn answers_requests_on_one_key_in_turn(rt: HostRuntime) {
    check(&rt, rt.alloc(), &IN_TURN);
}

const REPLACED: [(Call, &str); 6] = [
    (Call::Read(PROFILE_2, 1, 1, 0), "give"),
    (Call::Read(PROFILE_2, 1, 2, 99), "wait"),
    (Call::Read(PROFILE_2, 2, 2, 100), "give"),
    // It is replaced.
    (Call::Take(PROFILE_2, 1, 50), "false"),
    (Call::Take(PROFILE_2, 2, 50), "true"),
    // It is used up.
    (Call::Take(PROFILE_2, 2, 50), "false"),
];

#[test]
fn replaces_a_lease_past_its_deadline(rt: HostRuntime) {
    check(&rt, rt.alloc(), &REPLACED);
}

const APART: [(Call, &str); 21] = [
    (Call::Quarantine(FRIENDS_2, 1, Mode::Refresh, 4, 10), "give"),
    (Call::Quarantine(PROFILE_3, 1, Mode::Delta, 5, 10), "give"),
    (
        Call::Quarantine(PROFILE_2, 2, Mode::Invalidate, 8, 10),
        "give",
    ),
    (
        Call::Quarantine(PROFILE_2, 3, Mode::Invalidate, 9, 10),
        "join",
    ),
    (Call::Standing(FRIENDS_2, 1), "6"),
    (Call::Standing(FRIENDS_2, 4), "3"),
    (Call::Standing(PROFILE_3, 1), "7"),
    (Call::Standing(PROFILE_3, 4), "4"),
    (Call::Standing(PROFILE_2, 1), "2"),
    // Its own stands beside another's.
    (Call::Standing(PROFILE_2, 3), "8"),
    (Call::Due(9), "none"),
    (Call::Due(10), "Profile 2 of 2 by 8"),
    (
        Call::End(PROFILE_2, 8),
        "Invalidate of 2 by 8 until 10 shift 0",
    ),
    (Call::Standing(PROFILE_2, 3), "5"),
    (Call::Due(10), "Profile 2 of 3 by 9"),
    (
        Call::End(PROFILE_2, 9),
        "Invalidate of 3 by 9 until 10 shift 0",
    ),
    (Call::Due(10), "Profile 3 of 1 by 5"),
    (Call::End(PROFILE_3, 5), "Delta of 1 by 5 until 10 shift 0"),
    (Call::Due(10), "Friends 2 of 1 by 4"),
    (
        Call::End(FRIENDS_2, 4),
        "Refresh of 1 by 4 until 10 shift 0",
    ),
    (Call::Due(10), "none"),
];

#[test]
fn keeps_keys_apart_and_tells_the_least_that_is_due(rt: HostRuntime) {
    check(&rt, rt.alloc(), &APART);
}

const RAISED: [(Call, &str); 14] = [
    (
        Call::Quarantine(PROFILE_2, 1, Mode::Invalidate, 1, 100),
        "give",
    ),
    (
        Call::Quarantine(PROFILE_2, 2, Mode::Invalidate, 2, 100),
        "join",
    ),
    (Call::Raise(PROFILE_2, 2, 2), "refuse"),
    // Another's token, and another session.
    (Call::Raise(PROFILE_2, 2, 1), "gone"),
    (Call::Raise(PROFILE_2, 3, 2), "gone"),
    (
        Call::End(PROFILE_2, 1),
        "Invalidate of 1 by 1 until 100 shift 0",
    ),
    // Another key.
    (Call::Raise(PROFILE_3, 2, 2), "gone"),
    (Call::Raise(PROFILE_2, 2, 2), "raise"),
    (Call::Standing(PROFILE_2, 2), "6"),
    // It is to refresh already.
    (Call::Raise(PROFILE_2, 2, 2), "gone"),
    (
        Call::Quarantine(PROFILE_2, 3, Mode::Invalidate, 3, 100),
        "refuse",
    ),
    (Call::Due(99), "none"),
    (Call::Due(100), "Profile 2 of 2 by 2"),
    (
        Call::End(PROFILE_2, 2),
        "Refresh of 2 by 2 until 100 shift 0",
    ),
];

#[test]
fn raises_a_quarantine_that_stands_alone(rt: HostRuntime) {
    check(&rt, rt.alloc(), &RAISED);
}

const RENEWED: [(Call, &str); 18] = [
    (
        Call::Quarantine(PROFILE_2, 1, Mode::Invalidate, 1, 10),
        "give",
    ),
    (
        Call::Quarantine(PROFILE_2, 2, Mode::Invalidate, 2, 10),
        "join",
    ),
    (Call::Quarantine(PROFILE_3, 3, Mode::Delta, 3, 20), "give"),
    (Call::Due(10), "Profile 2 of 1 by 1"),
    (Call::Renew(PROFILE_2, 1, 30), "true"),
    (Call::Due(10), "Profile 2 of 2 by 2"),
    (Call::Due(20), "Profile 2 of 2 by 2"),
    // Another key, and another token.
    (Call::Renew(PROFILE_3, 2, 40), "false"),
    (Call::Renew(PROFILE_2, 3, 40), "false"),
    (Call::Renew(PROFILE_2, 2, 40), "true"),
    (Call::Due(20), "Profile 3 of 3 by 3"),
    // The clock went back.
    (Call::Due(19), "none"),
    (Call::Due(30), "Profile 2 of 1 by 1"),
    // A deadline may go back too.
    (Call::Renew(PROFILE_2, 2, 5), "true"),
    (Call::Due(5), "Profile 2 of 2 by 2"),
    (
        Call::End(PROFILE_2, 1),
        "Invalidate of 1 by 1 until 30 shift 0",
    ),
    (
        Call::End(PROFILE_2, 2),
        "Invalidate of 2 by 2 until 5 shift 0",
    ),
    (Call::Renew(PROFILE_2, 2, 50), "false"),
];

#[test]
fn gives_a_quarantine_another_deadline(rt: HostRuntime) {
    check(&rt, rt.alloc(), &RENEWED);
}

/// A deadline, a time, and whether the deadline lies ahead.
const DEADLINES: [(u64, u64, bool); 6] = [
    (100, 99, true),
    (100, 100, false),
    (100, 101, false),
    (18_446_744_073_709_551_615, 18_446_744_073_709_551_614, true),
    (
        18_446_744_073_709_551_615,
        18_446_744_073_709_551_615,
        false,
    ),
    (0, 0, false),
];

const READER: Sid = Sid { number: 1 };

/// Compares whether a lease to read with this deadline stands at this time.
fn lease_stands(rt: &impl Abort, leases: &mut Leases, deadline: u64, now: u64, ahead: bool) {
    let given = ask_i(rt, leases, PROFILE_2, READER, 7, deadline, 0);
    assert!(rt; matches!(given, Verdict::Give));
    let row = if ahead { 1 } else { 0 };
    assert!(rt; leases.standing(&PROFILE_2, READER, now) == row);
    assert!(rt; !leases.take_i(&PROFILE_2, 8, now), "another token");
    assert!(rt; leases.take_i(&PROFILE_2, 7, now) == ahead);
}

/// Compares whether a quarantine with this deadline is due at this time.
fn quarantine_is_due(rt: &impl Abort, leases: &mut Leases, deadline: u64, now: u64, due: bool) {
    let quar = Quar {
        sid: Sid { number: 2 },
        mode: Mode::Delta,
        token: 9,
        deadline,
        shift: 0,
    };
    let _ = ask_q(rt, leases, PROFILE_2, quar, now);
    assert!(rt; leases.expired(now).is_some() == due);
}

#[test]
fn counts_a_deadline_from_its_own_time(rt: HostRuntime) {
    for (deadline, now, ahead) in DEADLINES.iter() {
        let mut leases = Leases::new(rt.alloc());
        lease_stands(&rt, &mut leases, *deadline, *now, *ahead);
        quarantine_is_due(&rt, &mut leases, *deadline, *now, !*ahead);
    }
}
