//! The same calls, drawn from a seed, made of a shard that rolls and of a whole one.
ghost use Rattle.std.specs.Prelude.{◌<◌, ◌^◌};

use crate::desks::Desk;
use crate::draws::Draws;
use crate::shards::{Call, call_text};
use crate::step_kinds::{KINDS, kind_of};
use key_shard::Step;
use lease_table::Mode;
use rows_model::{Kind, QKey};
use std::alloc::Global;
use std::process::Abort;

const TURNS: u64 = 20_000;

const TEXTS: [&str; 3] = ["7", "b", "41"];

fn drawn_text(draws: &mut Draws) -> &'static str {
    TEXTS[draws.below(3) as usize]
}

/// A set, where a lease was given by the last step under its token.
fn setting(draws: &mut Draws, desk: &Desk, id: u32, now: u64) -> Call {
    let text = drawn_text(draws);
    let stamp = draws.below(4);
    match desk.shard.history().last() {
        Some(Step::Lease { key, token, .. }) => Call::Set(key.id, *token, text, stamp, now),
        _ => Call::Set(id, draws.below(9), text, stamp, now),
    }
}

/// A quarantine in some mode.
fn asking(draws: &mut Draws, id: u32, who: u64, now: u64) -> Call {
    match draws.below(3) {
        0 => Call::Invalidate(id, who, now),
        1 => Call::Refresh(id, who),
        _ => Call::Delta(id, who, 1, now),
    }
}

/// A release of a grant of this mode.
fn ending(draws: &mut Draws, mode: Mode) -> Call {
    match (draws.below(4), mode) {
        (0, _) => Call::Keep,
        (1, _) | (_, Mode::Invalidate) => Call::Drop,
        (_, Mode::Refresh) => Call::Replace(drawn_text(draws), 5),
        (_, Mode::Delta) => Call::Shift(6),
    }
}

/// A sweep of what is due.
fn sweeping(desk: &mut Desk, now: u64) -> Call {
    match desk.shard.expired(now) {
        Some(due) => Call::Sweep(due.key.id, due.token),
        None => Call::Due(now),
    }
}

/// The mode of the grant that is held.
fn mode_held(desk: &Desk) -> Option<Mode> {
    match &desk.held {
        Some(grant) => Some(grant.mode()),
        None => None,
    }
}

/// The call of a turn, by one of four sessions on one of three keys. Time goes on every eighth turn.
fn drawn(draws: &mut Draws, desk: &mut Desk, turn: u64) -> Call {
    let (id, who, now) = (draws.below(3) as u32, draws.below(4), turn / 8);
    match (draws.below(10), mode_held(desk)) {
        (0, _) => Call::Due(now),
        (1, _) => sweeping(desk, now),
        (2, _) | (3, None) => asking(draws, id, who, now),
        (3, Some(mode)) => ending(draws, mode),
        (4 | 5, _) => setting(draws, desk, id, now),
        (6, Some(Mode::Invalidate)) => Call::Raise,
        (7, Some(_)) => Call::Renew(now),
        _ => Call::Get(id, who, draws.below(4), now),
    }
}

/// Makes the call of both, and compares the answers.
fn answers_alike(rt: &impl Abort, alloc: Global, whole: &mut Desk, rolling: &mut Desk, call: Call) {
    match (
        call_text(rt, alloc, whole, call),
        call_text(rt, alloc, rolling, call),
    ) {
        (Ok(want), Ok(text)) => assert!(rt; text == want, "{text} and not {want}"),
        _ => panic!(rt; "no memory"),
    }
}

/// Each key has the same entry, and no step of the one that rolls is in memory.
fn are_alike(rt: &impl Abort, whole: &Desk, rolling: &Desk) {
    for id in 0..3 {
        let key = QKey {
            kind: Kind::Profile,
            id,
        };
        assert!(rt; rolling.shard.peek(&key) == whole.shard.peek(&key));
    }
    assert!(rt; rolling.shard.history().is_empty());
}

/// Notes the kind of the last step.
fn note(desk: &Desk, seen: &mut [bool; KINDS]) {
    if let Some(step) = desk.shard.history().last() {
        seen[kind_of(step)] = true;
    }
}

/// Compares a whole shard with one that rolls. Each kind of step comes.
fn compare(rt: &impl Abort, alloc: Global, seed: u64) {
    let mut draws = Draws::new(seed);
    let mut whole = Desk::new(rt, alloc, 0, 1, 2, 1);
    let mut rolling = Desk::rolling(rt, alloc, 2, 1);
    let mut seen = [false; KINDS];
    for turn in 0..TURNS {
        let call = drawn(&mut draws, &mut whole, turn);
        answers_alike(rt, alloc, &mut whole, &mut rolling, call);
        are_alike(rt, &whole, &rolling);
        note(&whole, &mut seen);
    }
    assert!(rt; seen == [true; KINDS]);
    whole.close();
    rolling.close();
}

const SEEDS: [u64; 3] = [1, 2, 7];

#[test]
fn answers_drawn_calls_as_a_whole_shard_does(rt: HostRuntime) {
    for seed in SEEDS.iter() {
        compare(&rt, rt.alloc(), *seed);
    }
}
