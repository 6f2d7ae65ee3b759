// Runs of plans on the desks of a hub.
ghost use Rattle.std.specs.Prelude.{◌≡◌, ◌≤◌, All};
ghost use Rattle.session_client.specs.Plans.{IsPlan, IsShape};
ghost use Rattle.test_hubs.specs.Hubs.{IsMadeFor, IsNewHub};

use crate::hubs::{MadeOf, desk_of, hub_of, store_of};
use crate::kept_desks::{Call, KeptDesk};
use crate::plan_texts::lists_of;
use bound_hub::{BoundHub, BoundName};
use gate_workers::{Transcript, work_all};
use iq_outside::{Gate, ListClock};
use key_shard::Shard;
use log_word::Pass;
use rows_model::{Kind, Memory, QKey, Sid, shard_number};
use session_client::{Desk, Plan, Shape, Wanted};
use sql_keeper::{CommitLog, MapKeeper, Store};
use std::alloc::Global;
use std::marker::Brand;
use std::process::Abort;
use std::sync::Wait;
use std::test::Fail;
use std::thread::Threads;

/// What workers leave.
#[derive(Drop)]
pub struct Worked {
    /// The transcript of each worker.
    pub transcripts: Vec<Transcript>,
    /// The calls that the workers' desks answered: a worker's are in their order, and a session's are
    /// those of one worker.
    pub calls: Vec<Call>,
    /// How often the desks tended.
    pub tended: u64,
}

/// What a run leaves.
#[derive(Drop)]
pub struct Ran {
    pub worked: Worked,
    pub log: CommitLog,
    pub shards: Vec<Shard>,
}

/// Runs the plans that each text says on a desk of its own over a new hub of this shape, with a clock
/// that tells these times.
pub fn run_texts<G: Gate, R: Threads + Wait + Abort + Sync>(
    rt: &R,
    alloc: Global,
    shape: &Shape,
    times: &[u64],
    texts: &[&str],
    gate: &G,
) -> Result<Ran, Fail>
    requires { IsShape shape.now }
{
    let lists = lists_of(rt, alloc, texts)?;
    run_plans(rt, alloc, shape, times, lists.as_slice(), gate)
}

/// Runs the plans of each list on a desk of its own over a new hub of this shape, with a clock that
/// tells these times.
pub fn run_plans<G: Gate, R: Threads + Wait + Abort + Sync>(
    rt: &R,
    alloc: Global,
    shape: &Shape,
    times: &[u64],
    plans: &[Vec<Plan>],
    gate: &G,
) -> Result<Ran, Fail>
    requires shape { IsShape shape.now }
    requires plans { All (λ list. All IsPlan list.items) plans.now }
{
    assert!(rt; !times.is_empty());
    let clock = ListClock::new(Vec::from_slice(alloc, times)?);
    let store = store_of(rt, alloc, shape.members);
    let made = MadeOf::new(alloc, shape.shards)?;
    run_on::<Brand, _, _>(rt, alloc, shape, store, made, &clock, plans, gate)
}

/// Two keys, which lie on two of two shards.
pub const PROFILES: [QKey; 2] = [
    QKey {
        kind: Kind::Profile,
        id: 2,
    },
    QKey {
        kind: Kind::Profile,
        id: 1,
    },
];

/// Runs the plans on the desks of a hub of this shape over this store.
fn run_on<'x, H: BoundName + Send + Sync, G: Gate, R: Threads + Wait + Abort + Sync>(
    rt: &'x R,
    alloc: Global,
    shape: &Shape,
    store: Store<MapKeeper>,
    made: MadeOf,
    clock: &'x ListClock,
    plans: &[Vec<Plan>],
    gate: &'x G,
) -> Result<Ran, Fail>
    requires shape { IsShape shape.now }
    requires made { IsMadeFor shape.now.shards made.ledger.parts
        made.word.0 made.word.1 made.word.2.items made.word.3 }
    requires ledger { (made.ledger.name ≡ H.name) × (made.ledger.parts ≡ H.parts) }
    requires named { IsNewHub H.word H.before H.begun H.failed H.terms H.opening H.cap
        H.known_rows H.start shape.now store made.word.0 }
    requires plans { All (λ list. All IsPlan list.items) plans.now }
{
    let (hub, mut pass) = hub_of::<H>(rt, alloc, shape, store, made)?;
    check_shards(rt, &hub, shape.shards);
    let worked = work_on(rt, alloc, &hub, &mut pass, clock, plans, gate)?;
    let (store, shards) = hub.into_parts(Vec::new(alloc));
    let (_, _, log) = store.into_parts();
    Ok(Ran {
        worked,
        log,
        shards,
    })
}

/// The hub has so many shards, and finds the shard of a key by its number.
fn check_shards<H: BoundName>(rt: &impl Abort, hub: &BoundHub<MapKeeper, H>, count: u32)
    requires { 1 ≤ count }
{
    assert!(rt; hub.shards() == count);
    for key in PROFILES.iter() {
        assert!(rt; hub.shard_of(key) == shard_number(key, count));
    }
}

/// Runs the plans of each list on a desk of its own over the hub.
fn work_on<'x, H: BoundName + Send + Sync, G: Gate, R: Threads + Wait + Abort + Sync>(
    rt: &'x R,
    alloc: Global,
    hub: &'x BoundHub<MapKeeper, H>,
    pass: &mut Pass,
    clock: &'x ListClock,
    plans: &[Vec<Plan>],
    gate: &'x G,
) -> Result<Worked, Memory>
    requires word { pass.old.word ≡ H.word }
    requires plans { All (λ list. All IsPlan list.items) plans.now }
{
    let mut desks = Vec::new(alloc);
    for worker in 0..plans.len() {
        let worker = u32::try_from(worker).unwrap_or(u32::MAX);
        let desk = desk_of(rt, alloc, hub, pass, worker, clock, gate);
        desks.push(KeptDesk::new(alloc, desk))?;
    }
    assert!(rt; desks.len() == plans.len());
    let transcripts = work_all(rt, alloc, &mut desks, plans, gate)?;
    let (calls, tended) = left_at(alloc, desks)?;
    Ok(Worked {
        transcripts,
        calls,
        tended,
    })
}

/// The calls that the desks kept, those of the first desk in front, and how often they tended. At last
/// a session that is done asks for nothing at each desk.
fn left_at<D: Desk + Drop>(
    alloc: Global,
    desks: Vec<KeptDesk<D>>,
) -> Result<(Vec<Call>, u64), Memory> {
    let mut calls = Vec::new(alloc);
    let mut tended = 0u64;
    for desk in desks {
        let mut desk = desk;
        desk.call(Sid { number: 1 }, Wanted::Nothing).let_go();
        tended = tended.saturating_add(desk.tended());
        calls.append(&mut desk.into_calls()?)?;
    }
    Ok((calls, tended))
}
