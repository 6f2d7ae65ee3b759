//! What the sweeper wants after each reply.
use expiry_sweeper::{SweepReply, SweepWanted, Sweeper};
use key_shard::Rel;
use lease_table::Due;
use rows_model::{Kind, QKey, Sid};
use sql_keeper::{Closed, MapKeeper, Place, Store};
use std::alloc::Global;
use std::process::Abort;

const PROFILE_2: QKey = QKey {
    kind: Kind::Profile,
    id: 2,
};

const SEVEN: Sid = Sid { number: 7 };

const DUE: Due = Due {
    key: PROFILE_2,
    sid: SEVEN,
    token: 5,
};

const FOUND: SweepReply = SweepReply::Found { shard: 1, due: DUE };

const END: SweepWanted = SweepWanted::End { sid: SEVEN };

const DROP: SweepWanted = SweepWanted::Drop {
    key: PROFILE_2,
    token: 5,
};

const RELEASED: SweepReply = SweepReply::Dropped {
    answer: Rel::Released { evicted: None },
};

/// What is wanted in turn, and the reply, or none where the store tells that it ended session 7.
const ROUND: [(SweepWanted, Option<SweepReply>); 10] = [
    (
        SweepWanted::Scan { shard: 0 },
        Some(SweepReply::NoneFound { shard: 0 }),
    ),
    (SweepWanted::Scan { shard: 1 }, Some(FOUND)),
    (END, None),
    (DROP, Some(RELEASED)),
    (SweepWanted::Scan { shard: 1 }, Some(FOUND)),
    (END, None),
    (DROP, Some(SweepReply::Dropped { answer: Rel::Gone })),
    (
        SweepWanted::Scan { shard: 1 },
        Some(SweepReply::NoneFound { shard: 1 }),
    ),
    (
        SweepWanted::Scan { shard: 2 },
        Some(SweepReply::NoneFound { shard: 2 }),
    ),
    (
        SweepWanted::Scan { shard: 0 },
        Some(SweepReply::NoneFound { shard: 0 }),
    ),
];

/// What a store tells that ends this session.
fn closed(rt: &impl Abort, alloc: Global, sid: Sid) -> Closed {
    let keeper = MapKeeper::new(Vec::new(alloc));
    match Store::new(alloc, keeper, &Place::Fresh, 1, 8) {
        Ok(mut store) => store.end(sid),
        Err(_) => panic!(rt; "no memory"),
    }
}

/// Tells the sweeper a reply that belongs to what it wants.
fn tell(rt: &impl Abort, sweeper: &mut Sweeper, reply: SweepReply) {
    assert!(rt; sweeper.takes(&reply));
    sweeper.hear(reply);
}

#[test]
fn goes_round_three_shards(rt: HostRuntime) {
    let closed = closed(&rt, rt.alloc(), SEVEN);
    let mut sweeper = Sweeper::new(3);
    assert!(rt; sweeper.shards() == 3);
    for (want, reply) in ROUND.iter() {
        assert!(rt; sweeper.wants() == *want);
        let reply = match reply {
            Some(reply) => *reply,
            None => SweepReply::Ended { closed },
        };
        tell(&rt, &mut sweeper, reply);
    }
}

#[test]
fn takes_only_what_belongs(rt: HostRuntime) {
    let of_seven = SweepReply::Ended {
        closed: closed(&rt, rt.alloc(), SEVEN),
    };
    let of_eight = SweepReply::Ended {
        closed: closed(&rt, rt.alloc(), Sid { number: 8 }),
    };
    let mut sweeper = Sweeper::new(2);
    assert!(rt; !sweeper.takes(&of_seven) && !sweeper.takes(&FOUND));
    tell(&rt, &mut sweeper, SweepReply::NoneFound { shard: 0 });
    tell(&rt, &mut sweeper, FOUND);
    assert!(rt; !sweeper.takes(&SweepReply::NoneFound { shard: 1 }));
    assert!(rt; !sweeper.takes(&of_eight));
    tell(&rt, &mut sweeper, of_seven);
    assert!(rt; !sweeper.takes(&FOUND));
}
