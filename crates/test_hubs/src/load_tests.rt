// Loads that workers run over a hub, and what they were told beside what the hub kept.
ghost use Rattle.std.specs.Prelude.{◌≤◌};

use crate::agreeing::{agrees, key_asked, sid_of};
use crate::kept_desks::Call;
use crate::runs::{Ran, run_plans};
use gate_workers::{Response, Tally, Transcript};
use iq_outside::OpenGate;
use key_shard::{Shard, Step};
use rows_model::{Sid, shard_number};
use run_inputs::{WorkSpec, make_plans};
use session_client::Shape;
use sql_keeper::Commit;
use std::alloc::{AllocError, Global};
use std::process::Abort;
use std::test::Fail;

/// The sessions that hold the tokens of a history, from 1. Each lease and each quarantine draws the
/// next one.
fn holders(alloc: Global, history: &[Step]) -> Result<Vec<Sid>, AllocError> {
    let mut holders = Vec::new(alloc);
    for step in history {
        if let Some(sid) = holder_of(step) {
            holders.push(sid)?;
        }
    }
    Ok(holders)
}

/// The session to which a step gives a token.
fn holder_of(step: &Step) -> Option<Sid> {
    match step {
        Step::Lease { sid, .. } => Some(*sid),
        Step::Granted { sid, .. } => Some(*sid),
        _ => None,
    }
}

/// What is sorted, by its numbers. What has one number stays in its order.
fn sorted<'a, T>(numbered: Vec<(u64, &'a T)>) -> Result<Vec<(u64, &'a T)>, AllocError> {
    let mut numbered = numbered;
    numbered.sort_by_key(|(number, _)| *number)?;
    Ok(numbered)
}

/// The steps of a history, session by session, each session's in their order.
fn made_in<'a>(
    rt: &impl Abort,
    alloc: Global,
    history: &'a [Step],
) -> Result<Vec<(u64, &'a Step)>, AllocError> {
    let holders = holders(alloc, history)?;
    let mut made = Vec::new(alloc);
    for step in history {
        let Some(sid) = sid_of(step, holders.as_slice()) else {
            panic!(rt; "a lease of the token");
        };
        made.push((sid.number, step))?;
    }
    sorted(made)
}

/// The calls on the keys of a shard of so many, session by session, each session's in their order.
fn told_on(
    alloc: Global,
    calls: &[Call],
    shard: u32,
    count: u32,
) -> Result<Vec<(u64, &Call)>, AllocError>
    requires { 1 ≤ count }
{
    let mut calls_on = Vec::new(alloc);
    for call in calls {
        if let Some(key) = key_asked(call.asked) {
            if shard_number(&key, count) == shard {
                calls_on.push((call.sid.number, call))?;
            }
        }
    }
    sorted(calls_on)
}

/// Each session was told, on the shard, what its steps there say, in their order.
fn check_replies(
    rt: &impl Abort,
    alloc: Global,
    calls: &[Call],
    shard: &Shard,
    count: u32,
) -> Result<(), AllocError>
    requires { 1 ≤ count }
{
    let made = made_in(rt, alloc, shard.history())?;
    let asked = told_on(alloc, calls, shard.no(), count)?;
    assert!(rt; asked.len() == made.len(), "on shard {}", shard.no());
    for ((who, call), (sid, step)) in asked.iter().zip(&made) {
        assert!(rt; who == sid, "on shard {}", shard.no());
        assert!(rt;
            agrees(call, step),
            "to session {sid} on shard {}",
            shard.no()
        );
    }
    Ok(())
}

/// The calls that were told of a commit, in the order of their numbers.
fn committed(alloc: Global, calls: &[Call]) -> Result<Vec<(u64, &Call)>, AllocError> {
    let mut committed = Vec::new(alloc);
    for call in calls {
        if let Response::Committed { number } = call.response {
            committed.push((number, call))?;
        }
    }
    sorted(committed)
}

/// The replies that tell of a commit are those of the log: each has its session, its transaction and
/// its number.
fn check_commits(
    rt: &impl Abort,
    alloc: Global,
    calls: &[Call],
    log: &[Commit],
) -> Result<(), AllocError> {
    let committed_calls = committed(alloc, calls)?;
    assert!(rt; committed_calls.len() == log.len());
    let mut place = 0u64;
    for ((number, call), commit) in committed_calls.iter().zip(log) {
        place = place.saturating_add(1);
        assert!(rt; *number == place);
        check_commit(rt, call, commit);
    }
    Ok(())
}

/// The call has the session and the transaction of the commit.
fn check_commit(rt: &impl Abort, call: &Call, commit: &Commit) {
    assert!(rt; call.sid == commit.sid);
    let Some(txn) = &call.txn else {
        panic!(rt; "the transaction of a commit");
    };
    assert!(rt; txn.changes() == commit.txn.changes());
}

/// No counts.
const NONE: Tally = Tally {
    hits: 0,
    stores: 0,
    voids: 0,
    agains: 0,
    bypasses: 0,
    commits: 0,
    rejected: 0,
    refused: 0,
};

/// The sums of two tallies.
fn added(one: Tally, other: Tally) -> Tally {
    Tally {
        hits: one.hits.saturating_add(other.hits),
        stores: one.stores.saturating_add(other.stores),
        voids: one.voids.saturating_add(other.voids),
        agains: one.agains.saturating_add(other.agains),
        bypasses: one.bypasses.saturating_add(other.bypasses),
        commits: one.commits.saturating_add(other.commits),
        rejected: one.rejected.saturating_add(other.rejected),
        refused: one.refused.saturating_add(other.refused),
    }
}

/// The counts of all transcripts.
fn total(transcripts: &[Transcript]) -> Tally {
    let mut total = NONE;
    for transcript in transcripts {
        total = added(total, transcript.tally());
    }
    total
}

/// What a step counts as.
fn counts_as(step: &Step) -> Tally {
    match step {
        Step::Hit { .. } => Tally { hits: 1, ..NONE },
        Step::Stored { .. } => Tally { stores: 1, ..NONE },
        Step::Void { .. } => Tally { voids: 1, ..NONE },
        Step::Again { .. } => Tally { agains: 1, ..NONE },
        Step::Refused { .. } => Tally { refused: 1, ..NONE },
        _ => NONE,
    }
}

/// The counts of all histories, which tell no commits, no bypasses and nothing rejected.
fn kept(shards: &[Shard]) -> Tally {
    let mut kept = NONE;
    for shard in shards {
        for step in shard.history() {
            kept = added(kept, counts_as(step));
        }
    }
    kept
}

/// How many sessions a tally counts, each by its outcome.
fn sessions(tally: Tally) -> u64 {
    let readers = tally
        .hits
        .saturating_add(tally.stores)
        .saturating_add(tally.voids)
        .saturating_add(tally.bypasses);
    readers
        .saturating_add(tally.commits)
        .saturating_add(tally.rejected)
        .saturating_add(tally.refused)
}

/// The tally of the workers is that of the histories and of the log, and counts so many sessions.
fn check_tally(rt: &impl Abort, ran: &Ran, count: u64) {
    let total_of_all = total(ran.worked.transcripts.as_slice());
    let kept = Tally {
        commits: ran.log.len(),
        bypasses: total_of_all.bypasses,
        rejected: total_of_all.rejected,
        ..kept(ran.shards.as_slice())
    };
    assert!(rt; total_of_all == kept);
    assert!(rt; sessions(total_of_all) == count);
}

/// A load that four workers run.
const CROWDED: WorkSpec = WorkSpec {
    members: 1000,
    sessions: 20_000,
    workers: 4,
    shards: 8,
    seed: 1,
};

/// Shards that have too little room for all keys.
const NARROW: Shape = Shape {
    members: 1000,
    shards: 8,
    room: 16,
    life: 100,
};

#[test]
fn workers_are_told_what_the_hub_keeps(rt: HostRuntime) -> Result<(), Fail> {
    let alloc = rt.alloc();
    let plans = make_plans(alloc, &CROWDED)?;
    let ran = run_plans(&rt, alloc, &NARROW, &[0], plans.as_slice(), &OpenGate)?;
    for shard in &ran.shards {
        check_replies(
            &rt,
            alloc,
            ran.worked.calls.as_slice(),
            shard,
            NARROW.shards,
        )?;
    }
    check_commits(&rt, alloc, ran.worked.calls.as_slice(), ran.log.as_slice())?;
    check_tally(&rt, &ran, 20_000);
    Ok(())
}

/// The same load for one worker.
const ALONE: WorkSpec = WorkSpec {
    members: 1000,
    sessions: 20_000,
    workers: 1,
    shards: 8,
    seed: 1,
};

/// Shards that have room for all keys.
const ROOMY: Shape = Shape {
    members: 1000,
    shards: 8,
    room: 1024,
    life: 10_000,
};

/// What one worker counts, by another program.
const COUNTED: Tally = Tally {
    hits: 9955,
    stores: 6043,
    voids: 0,
    agains: 0,
    bypasses: 0,
    commits: 1783,
    rejected: 2219,
    refused: 0,
};

#[test]
fn one_worker_counts_what_another_program_does(rt: HostRuntime) -> Result<(), Fail> {
    let alloc = rt.alloc();
    let plans = make_plans(alloc, &ALONE)?;
    let ran = run_plans(&rt, alloc, &ROOMY, &[0], plans.as_slice(), &OpenGate)?;
    assert!(rt; total(ran.worked.transcripts.as_slice()) == COUNTED);
    Ok(())
}
