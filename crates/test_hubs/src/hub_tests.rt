// Plans that workers run over a hub: how their sessions end, what their desks tell, and what the hub
// keeps.
use crate::checks::{check_calls, check_ends, check_numbers, check_values};
use crate::gates::{Counting, Meeting};
use crate::runs::{PROFILES, Ran, run_texts};
use gate_workers::{Mark, Request, Response, Tally, Transcript};
use iq_outside::{OpenGate, Point};
use key_shard::Rel;
use rows_model::{Kind, QKey, shard_number};
use session_client::{Outcome, Shape};
use sql_keeper::CommitFault;
use std::process::Abort;
use std::sync::atomic::{AtomicU64, Ordering};
use std::test::Fail;

// One worker: a list that reads, writes what is rejected the second time, and quits.

const ONE_LIST: &str = "members 3
read 1 profile:1
read 2 profile:1
write 3 invalidate invite 1 2
write 4 invalidate invite 1 2
quit 5 refresh invite 1 2
end";

/// One shard over three members.
const ONE_SHARD: Shape = Shape {
    members: 3,
    shards: 1,
    room: 16,
    life: 100,
};

/// A change that doesn't apply.
const REJECTED: Outcome = Outcome::NotCommitted {
    fault: CommitFault::Rejected { index: 0 },
};

const ONE_ENDS: &[Outcome] = &[
    Outcome::Stored,
    Outcome::Hit,
    Outcome::Committed { number: 1 },
    REJECTED,
    Outcome::Quit,
];

/// What is counted of the list.
const TALLY: Tally = Tally {
    hits: 1,
    stores: 1,
    voids: 0,
    agains: 0,
    bypasses: 0,
    commits: 1,
    rejected: 1,
    refused: 0,
};

const PROFILE: QKey = QKey {
    kind: Kind::Profile,
    id: 1,
};

/// A get that is given the first lease of its shard.
const LEASED: Mark = Mark {
    asked: Request::Get {
        key: PROFILE,
        floor: 0,
    },
    response: Response::Lease { token: 1 },
};

const ANSWERED: Mark = Mark {
    asked: Request::Ask { key: PROFILE },
    response: Response::Answer { stamp: 0 },
};

const STORED: Mark = Mark {
    asked: Request::Set {
        key: PROFILE,
        token: 1,
        stamp: 0,
    },
    response: Response::Stored { evicted: None },
};

/// A get of what is stored so.
const HIT: Mark = Mark {
    asked: Request::Get {
        key: PROFILE,
        floor: 0,
    },
    response: Response::Hit { stamp: 0 },
};

/// What is left of a session that stores its answer.
const MARKS: [Mark; 3] = [LEASED, ANSWERED, STORED];

#[test]
fn a_worker_runs_its_plans_in_order(rt: HostRuntime) -> Result<(), Fail> {
    let gate = Counting {
        quarantined: AtomicU64::new(0),
        answered: AtomicU64::new(0),
    };
    let ran = run_texts(&rt, rt.alloc(), &ONE_SHARD, &[0], &[ONE_LIST], &gate)?;
    check_ends(&rt, ran.worked.transcripts.as_slice(), &[ONE_ENDS]);
    check_numbers(&rt, ran.worked.transcripts.as_slice());
    for transcript in &ran.worked.transcripts {
        check_first(&rt, transcript);
    }
    assert!(rt; ran.worked.tended == 5);
    assert!(rt; gate.quarantined.load(Ordering::SeqCst) == 2);
    assert!(rt; gate.answered.load(Ordering::SeqCst) == 5);
    Ok(())
}

/// What is counted of the list, and what its first session leaves.
fn check_first(rt: &impl Abort, transcript: &Transcript) {
    assert!(rt; transcript.tally() == TALLY);
    let Some(row) = transcript.rows().first() else {
        panic!(rt; "a row");
    };
    assert!(rt; row.marks() == MARKS.as_slice());
}

// Sessions read a count, and write, quit and look on the way to it in each mode: after each one it is
// there and right.

const IN_EVERY_MODE: &str = "members 3
read 1 npending:2
read 2 npending:2
write 3 invalidate invite 1 2
read 4 npending:2
read 5 npending:2
write 6 refresh invite 3 2
read 7 npending:2
write 8 delta reject 3 2
read 9 npending:2
quit 10 delta reject 1 2
read 11 npending:2
look 12 delta npending:2 reject 1 2
read 13 npending:2
look 14 refresh npending:2 reject 1 2
read 15 npending:2
end";

const MODE_ENDS: &[Outcome] = &[
    Outcome::Stored,
    Outcome::Hit,
    Outcome::Committed { number: 1 },
    Outcome::Stored,
    Outcome::Hit,
    Outcome::Committed { number: 2 },
    Outcome::Hit,
    Outcome::Committed { number: 3 },
    Outcome::Hit,
    Outcome::Quit,
    Outcome::Hit,
    Outcome::Committed { number: 4 },
    Outcome::Hit,
    REJECTED,
    Outcome::Hit,
];

/// The values of the count: those that are stored and put, and those that are read.
const COUNTS: [(&str, u64); 10] = [
    ("0", 0),
    ("0", 0),
    ("1", 1),
    ("1", 1),
    ("2", 2),
    ("2", 2),
    ("1", 3),
    ("1", 3),
    ("0", 4),
    ("0", 4),
];

/// Two shards over three members.
const TWO_SHARDS: Shape = Shape {
    members: 3,
    shards: 2,
    room: 8,
    life: 100,
};

#[test]
fn keeps_a_count_in_every_mode(rt: HostRuntime) -> Result<(), Fail> {
    let ran = run_texts(
        &rt,
        rt.alloc(),
        &TWO_SHARDS,
        &[0],
        &[IN_EVERY_MODE],
        &OpenGate,
    )?;
    check_ends(&rt, ran.worked.transcripts.as_slice(), &[MODE_ENDS]);
    check_numbers(&rt, ran.worked.transcripts.as_slice());
    check_values(&rt, ran.worked.calls.as_slice(), &COUNTS);
    Ok(())
}

// One thread writes a member's name while another reads another's profile twice; then the store has
// the commit, and each shard has the steps of its keys.

const TWO_LISTS: [&str; 2] = [
    "members 3\nwrite 1 invalidate rename 2 bob\nend",
    "members 3\nread 1 profile:1\nread 2 profile:1\nend",
];

/// Two shards with little room.
const TWO_NARROW: Shape = Shape {
    members: 3,
    shards: 2,
    room: 4,
    life: 100,
};

const RENAMED: QKey = QKey {
    kind: Kind::Profile,
    id: 2,
};

/// A quarantine that is the first of its shard.
const GRANTED: Mark = Mark {
    asked: Request::QaReg { key: RENAMED },
    response: Response::Granted { token: 1 },
};

/// What is asked last at each desk.
const NOTHING: Mark = Mark {
    asked: Request::Nothing,
    response: Response::Nothing,
};

/// What the two desks tell, the first one in front.
const TWO_TELL: [Mark; 9] = [
    GRANTED,
    Mark {
        asked: Request::Commit,
        response: Response::Committed { number: 1 },
    },
    Mark {
        asked: Request::Dar {
            key: RENAMED,
            token: 1,
        },
        response: Response::Rel {
            answer: Rel::Released { evicted: None },
        },
    },
    NOTHING,
    LEASED,
    ANSWERED,
    STORED,
    HIT,
    NOTHING,
];

/// How the sessions of the two workers end.
const TWO_ENDS: [&[Outcome]; 2] = [
    &[Outcome::Committed { number: 1 }],
    &[Outcome::Stored, Outcome::Hit],
];

/// The value that is stored and then read.
const READ: [(&str, u64); 2] = [("m1 0 0", 0), ("m1 0 0", 0)];

/// How many steps each shard has.
const STEPS: [(u32, usize); 2] = [(0, 2), (1, 3)];

/// What the hub and the desks of the two workers have.
fn check_two(rt: &impl Abort, ran: &Ran) {
    check_ends(rt, ran.worked.transcripts.as_slice(), &TWO_ENDS);
    check_calls(rt, ran.worked.calls.as_slice(), &TWO_TELL);
    check_values(rt, ran.worked.calls.as_slice(), &READ);
    assert!(rt; ran.log.len() == 1);
    assert!(rt; ran.shards.len() == 2);
    for (shard, (no, steps)) in ran.shards.iter().zip(STEPS.iter()) {
        assert!(rt; shard.no() == *no);
        assert!(rt; shard.history().len() == *steps);
    }
}

#[test]
fn two_threads_share_a_hub(rt: HostRuntime) -> Result<(), Fail> {
    let ran = run_texts(&rt, rt.alloc(), &TWO_NARROW, &[0], &TWO_LISTS, &OpenGate)?;
    check_two(&rt, &ran);
    Ok(())
}

/// Where worker 0 is held.
const POINTS: [Point; 2] = [Point::Quarantined, Point::Inside { shard: 0 }];

#[test]
fn workers_on_two_shards_run_at_the_same_time(rt: HostRuntime) -> Result<(), Fail> {
    for (no, key) in PROFILES.iter().enumerate() {
        assert!(rt; shard_number(key, TWO_NARROW.shards) as usize == no);
    }
    for at in POINTS.iter() {
        let gate = Meeting::new(*at, 1);
        let ran = run_texts(&rt, rt.alloc(), &TWO_NARROW, &[0], &TWO_LISTS, &gate)?;
        assert!(rt; gate.missed() == 0, "at {at:?}");
        check_two(&rt, &ran);
    }
    Ok(())
}

// A quarantine whose deadline came is ended at the store by a desk's own sweeper and dropped, so that
// the next reader has the lease, and the release of its grant finds it gone. The worker that reads
// takes three steps of its sweeper first.

const DUE_LISTS: [&str; 2] = [
    "members 3\nwrite 1 invalidate rename 2 bob\nend",
    "members 3\nread 1 profile:1\nread 2 profile:1\nread 3 profile:1\nread 4 profile:2\nend",
];

/// Two shards whose leases live for 10 ticks.
const SHORT: Shape = Shape {
    members: 3,
    shards: 2,
    room: 4,
    life: 10,
};

/// The writer was ended before its commit.
const DUE_ENDS: [&[Outcome]; 2] = [
    &[Outcome::NotCommitted {
        fault: CommitFault::Ended,
    }],
    &[Outcome::Stored, Outcome::Hit, Outcome::Hit, Outcome::Stored],
];

/// What the two desks tell, the first one in front.
const DUE_TELL: [Mark; 14] = [
    GRANTED,
    Mark {
        asked: Request::Commit,
        response: Response::NotCommitted {
            fault: CommitFault::Ended,
        },
    },
    Mark {
        asked: Request::End,
        response: Response::End { was: false },
    },
    Mark {
        asked: Request::Abort {
            key: RENAMED,
            token: 1,
        },
        response: Response::Rel { answer: Rel::Gone },
    },
    NOTHING,
    LEASED,
    ANSWERED,
    STORED,
    HIT,
    HIT,
    Mark {
        asked: Request::Get {
            key: RENAMED,
            floor: 0,
        },
        response: Response::Lease { token: 2 },
    },
    Mark {
        asked: Request::Ask { key: RENAMED },
        response: Response::Answer { stamp: 0 },
    },
    Mark {
        asked: Request::Set {
            key: RENAMED,
            token: 2,
            stamp: 0,
        },
        response: Response::Stored { evicted: None },
    },
    NOTHING,
];

#[test]
fn a_desk_tends_what_is_due(rt: HostRuntime) -> Result<(), Fail> {
    let gate = Meeting::new(Point::Quarantined, 4);
    let ran = run_texts(&rt, rt.alloc(), &SHORT, &[0, 10], &DUE_LISTS, &gate)?;
    assert!(rt; gate.missed() == 0);
    check_ends(&rt, ran.worked.transcripts.as_slice(), &DUE_ENDS);
    check_calls(&rt, ran.worked.calls.as_slice(), &DUE_TELL);
    Ok(())
}

// A worker quarantines two keys, which lie on two of three shards, and stops. The sweeper of another
// goes over all shards, ends that session, and drops both keys: so both are leased and stored again,
// and the commit that comes after that is refused, as is each release.

const DEAD_LISTS: [&str; 2] = [
    "members 3\nwrite 1 invalidate rename 2 bob + rename 3 al\nend",
    "members 3
read 1 profile:1
read 2 profile:1
read 3 profile:1
read 4 profile:1
read 5 profile:1
read 6 profile:1
read 7 profile:1
read 8 profile:1
read 9 profile:3
read 10 profile:2
end",
];

/// Three shards whose leases live for 10 ticks.
const THREE_SHORT: Shape = Shape {
    members: 3,
    shards: 3,
    room: 4,
    life: 10,
};

/// Both quarantines are made at 0, and all else is at 10.
const DEAD_TIMES: [u64; 3] = [0, 0, 10];

const THIRD: QKey = QKey {
    kind: Kind::Profile,
    id: 3,
};

/// The shards of the three keys.
const HOMES: [(QKey, u32); 3] = [(PROFILE, 1), (RENAMED, 2), (THIRD, 0)];

const DEAD_ENDS: [&[Outcome]; 2] = [
    &[Outcome::NotCommitted {
        fault: CommitFault::Ended,
    }],
    &[
        Outcome::Stored,
        Outcome::Hit,
        Outcome::Hit,
        Outcome::Hit,
        Outcome::Hit,
        Outcome::Hit,
        Outcome::Hit,
        Outcome::Hit,
        Outcome::Stored,
        Outcome::Stored,
    ],
];

/// The sweeper that ended the session found each quarantine in eight steps, so sessions 1 to 8 of the
/// other worker end before the two keys are read again.
#[test]
fn a_sweep_goes_over_all_shards(rt: HostRuntime) -> Result<(), Fail> {
    for (key, shard) in HOMES.iter() {
        assert!(rt; shard_number(key, THREE_SHORT.shards) == *shard);
    }
    let gate = Meeting::new(Point::Quarantined, 10);
    let ran = run_texts(
        &rt,
        rt.alloc(),
        &THREE_SHORT,
        &DEAD_TIMES,
        &DEAD_LISTS,
        &gate,
    )?;
    assert!(rt; gate.missed() == 0);
    check_ends(&rt, ran.worked.transcripts.as_slice(), &DEAD_ENDS);
    assert!(rt; ran.log.is_empty());
    assert!(rt; ran.worked.tended == 11);
    Ok(())
}

// A reader's floor is above the stamp of the entry, so the entry is dropped and leased, though a reader
// without a floor hits it. Behind a commit that puts the new value in its place the stamp is the floor.

const FLOOR_LIST: &str = "members 3
read 1 profile:1
read 2 profile:1 floor 1
read 3 profile:1
write 4 refresh rename 1 al
read 5 profile:1 floor 1
end";

const FLOOR_ENDS: &[Outcome] = &[
    Outcome::Stored,
    Outcome::Stored,
    Outcome::Hit,
    Outcome::Committed { number: 1 },
    Outcome::Hit,
];

const FLOOR_TELLS: [Mark; 12] = [
    LEASED,
    ANSWERED,
    STORED,
    Mark {
        asked: Request::Get {
            key: PROFILE,
            floor: 1,
        },
        response: Response::Lease { token: 2 },
    },
    ANSWERED,
    Mark {
        asked: Request::Set {
            key: PROFILE,
            token: 2,
            stamp: 0,
        },
        response: Response::Stored { evicted: None },
    },
    HIT,
    Mark {
        asked: Request::QaRead { key: PROFILE },
        response: Response::Granted { token: 3 },
    },
    Mark {
        asked: Request::Commit,
        response: Response::Committed { number: 1 },
    },
    Mark {
        asked: Request::Sar {
            key: PROFILE,
            token: 3,
            stamp: 1,
        },
        response: Response::Rel {
            answer: Rel::Released { evicted: None },
        },
    },
    Mark {
        asked: Request::Get {
            key: PROFILE,
            floor: 1,
        },
        response: Response::Hit { stamp: 1 },
    },
    NOTHING,
];

/// The values that are stored, hit and put.
const FLOOR_VALUES: [(&str, u64); 5] = [
    ("m1 0 0", 0),
    ("m1 0 0", 0),
    ("m1 0 0", 0),
    ("al 0 0", 1),
    ("al 0 0", 1),
];

#[test]
fn an_entry_below_the_floor_is_dropped_and_leased(rt: HostRuntime) -> Result<(), Fail> {
    let ran = run_texts(&rt, rt.alloc(), &ONE_SHARD, &[0], &[FLOOR_LIST], &OpenGate)?;
    check_ends(&rt, ran.worked.transcripts.as_slice(), &[FLOOR_ENDS]);
    check_calls(&rt, ran.worked.calls.as_slice(), &FLOOR_TELLS);
    check_values(&rt, ran.worked.calls.as_slice(), &FLOOR_VALUES);
    Ok(())
}
