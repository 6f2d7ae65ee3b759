//! The same calls, drawn from a seed, made of the table and of a list of records.
ghost use Rattle.std.specs.Prelude.{◌<◌, ◌^◌};

use crate::draws::Draws;
use crate::leases::{ask_i, ask_q, word};
use crate::list_table::ListTable;
use case_tables::Verdict;
use lease_table::{Leases, Mode, Quar, ReadLease};
use rows_model::{Kind, QKey, Sid};
use std::process::Abort;

const TURNS: u64 = 100_000;

/// One of fifteen keys.
fn drawn_key(draws: &mut Draws) -> QKey {
    let kind = match draws.below(5) {
        0 => Kind::Profile,
        1 => Kind::Friends,
        2 => Kind::Pending,
        3 => Kind::NFriends,
        _ => Kind::NPending,
    };
    QKey {
        kind,
        id: draws.below(3) as u32,
    }
}

fn drawn_mode(draws: &mut Draws) -> Mode {
    match draws.below(6) {
        0 => Mode::Refresh,
        1 => Mode::Delta,
        _ => Mode::Invalidate,
    }
}

/// What is asked in a turn, by whom and when.
#[derive(Clone, Copy)]
struct Turn {
    key: QKey,
    sid: Sid,
    mode: Mode,
    /// A token that is new.
    fresh: u64,
    /// A token that was given, or might have been.
    token: u64,
    now: u64,
    deadline: u64,
}

/// The token of what stands on the key, or now and then any that was given.
fn token_on(draws: &mut Draws, list: &ListTable, key: &QKey, who: Sid, fresh: u64) -> u64
    requires { fresh < 2 ^ 32 }
{
    let any = draws.below(fresh + 1);
    if draws.below(8) == 0 {
        return any;
    }
    if let Some(read) = list.recorded(key) {
        return read.token;
    }
    match list.holder(key, who) {
        Some(quar) => quar.token,
        None => any,
    }
}

/// Turn `fresh`: time goes on every eighth turn, and leases live up to 39 units of it. Now and then the
/// clock goes back by up to 59 units.
fn drawn(draws: &mut Draws, list: &ListTable, fresh: u64) -> Turn
    requires { fresh < 2 ^ 32 }
{
    let key = drawn_key(draws);
    let sid = Sid {
        number: draws.below(5),
    };
    let mode = drawn_mode(draws);
    let back = if draws.below(4) == 0 {
        draws.below(60)
    } else {
        0
    };
    let now = (fresh / 8).saturating_sub(back);
    let deadline = now + draws.below(40);
    let token = token_on(draws, list, &key, sid, fresh);
    Turn {
        key,
        sid,
        mode,
        fresh,
        token,
        now,
        deadline,
    }
}

/// Compares two verdicts.
fn is_same(rt: &impl Abort, verdict: Verdict, want: Verdict) {
    assert!(rt; word(verdict) == word(want));
}

/// What changes nothing answers the same.
fn agree(rt: &impl Abort, table: &Leases, list: &ListTable, turn: &Turn) {
    let Turn {
        key,
        sid,
        mode,
        now,
        ..
    } = *turn;
    assert!(rt; table.standing(&key, sid, now) == list.standing(&key, sid, now));
    is_same(
        rt,
        table.judge_q(&key, sid, mode, now),
        list.judge_q(&key, sid, mode, now),
    );
    is_same(
        rt,
        table.judge_raise(&key, sid, turn.token),
        list.judge_raise(&key, sid, turn.token),
    );
    assert!(rt; table.can_take_i(&key, turn.token, now) == list.can_take_i(&key, turn.token, now));
}

/// What is looked up is the same.
fn look_alike(rt: &impl Abort, table: &mut Leases, list: &ListTable, turn: &Turn) {
    let Turn { key, sid, now, .. } = *turn;
    assert!(rt; table.holder(&key, sid) == list.holder(&key, sid));
    assert!(rt; table.other(&key, sid) == list.other(&key, sid));
    assert!(rt; table.quar(&key, turn.token) == list.quar(&key, turn.token));
    assert!(rt; table.expired(now) == list.expired(now));
}

/// Asks both for the lease to read of the turn, and says whether it is given.
fn asks_i(rt: &impl Abort, table: &mut Leases, list: &mut ListTable, turn: &Turn) -> bool {
    let read = ReadLease {
        sid: turn.sid,
        token: turn.fresh,
        deadline: turn.deadline,
    };
    let verdict = ask_i(
        rt,
        table,
        turn.key,
        read.sid,
        read.token,
        read.deadline,
        turn.now,
    );
    match list.ask_i(turn.key, read, turn.now) {
        Ok(want) => is_same(rt, verdict, want),
        Err(_) => panic!(rt; "no memory"),
    }
    verdict.is_given()
}

/// Asks both for the quarantine of the turn, and says whether it is given.
fn asks_q(rt: &impl Abort, table: &mut Leases, list: &mut ListTable, turn: &Turn) -> bool {
    let quar = Quar {
        sid: turn.sid,
        mode: turn.mode,
        token: turn.fresh,
        deadline: turn.deadline,
        shift: 5,
    };
    let verdict = ask_q(rt, table, turn.key, quar, turn.now);
    match list.ask_q(turn.key, quar, turn.now) {
        Ok(want) => is_same(rt, verdict, want),
        Err(_) => panic!(rt; "no memory"),
    }
    verdict.is_given()
}

/// Uses the turn's token up in both, and says whether it stood.
fn takes(rt: &impl Abort, table: &mut Leases, list: &mut ListTable, turn: &Turn) -> bool {
    let taken = table.take_i(&turn.key, turn.token, turn.now);
    assert!(rt; taken == list.take_i(&turn.key, turn.token, turn.now));
    taken
}

/// Ends the quarantine of this token in both, and says whether it stood.
fn ends(rt: &impl Abort, table: &mut Leases, list: &mut ListTable, key: &QKey, token: u64) -> bool {
    let ended = table.end_q(key, token);
    assert!(rt; ended == list.end_q(key, token));
    ended.is_some()
}

/// Raises the quarantine of the turn's session and token in both, and says whether it was raised.
fn raises(rt: &impl Abort, table: &mut Leases, list: &mut ListTable, turn: &Turn) -> bool {
    let verdict = table.raise(&turn.key, turn.sid, turn.token);
    is_same(rt, verdict, list.raise(&turn.key, turn.sid, turn.token));
    matches!(verdict, Verdict::Raise)
}

/// Gives the quarantine of the turn's token its deadline in both, and says whether it stood.
fn renews(rt: &impl Abort, table: &mut Leases, list: &mut ListTable, turn: &Turn) -> bool {
    let renewed = table.renew(&turn.key, turn.token, turn.deadline);
    assert!(rt; renewed == list.renew(&turn.key, turn.token, turn.deadline));
    renewed
}

/// Makes one of the calls that change something, and says whether it did.
fn call(rt: &impl Abort, table: &mut Leases, list: &mut ListTable, turn: &Turn, call: u64) -> bool {
    match call {
        0 => asks_i(rt, table, list, turn),
        1 => asks_q(rt, table, list, turn),
        2 => takes(rt, table, list, turn),
        3 => ends(rt, table, list, &turn.key, turn.token),
        4 => raises(rt, table, list, turn),
        5 => renews(rt, table, list, turn),
        _ => match list.expired(turn.now) {
            Some(due) => ends(rt, table, list, &due.key, due.token),
            None => false,
        },
    }
}

#[test]
fn answers_drawn_calls_as_a_list_of_records_does(rt: HostRuntime) {
    let mut draws = Draws::new(1);
    let mut table = Leases::new(rt.alloc());
    let mut list = ListTable::new(rt.alloc());
    let mut changed = [false; 7];
    for fresh in 0..TURNS {
        let turn = drawn(&mut draws, &list, fresh);
        let kind = draws.below(7);
        if call(&rt, &mut table, &mut list, &turn, kind) {
            changed[kind as usize] = true;
        }
        agree(&rt, &table, &list, &turn);
        look_alike(&rt, &mut table, &list, &turn);
    }
    assert!(rt; changed == [true; 7]);
}
