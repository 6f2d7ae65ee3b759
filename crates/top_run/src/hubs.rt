// What runs over a hub have in common: the parts of which it is made, the desks, and the end.
ghost use Rattle.std.specs.Prelude.{◌≡◌, ◌≤◌, [], All, List, Option, Some, IfOk, IfSome, length, vec_capacity};
ghost use Rattle.std.specs.Option.{ForSome};
ghost use Rattle.sql_keeper.specs.Faults.{FailedSince};
ghost use Rattle.sql_keeper.specs.Stores.{rows_of};
ghost use Rattle.bound_desk.specs.Records.{IsRecordSeen};
ghost use Rattle.run_audit.specs.Findings.{histories_in, AreWhole};
ghost use Rattle.top_run.specs.Ready.{AreParts, AreNewDesks};
ghost use Rattle.top_run.specs.Runs.{histories_at, kept_in};
ghost use Rattle.top_run.specs.Works.{hub_terms};

use crate::endings::histories_of;
use crate::runs::{Phase, RunEnd, Status};
use bound_desk::BoundDesk;
use bound_hub::{BoundHub, BoundName};
use conn_server::LineEnd;
use iq_outside::{Clock, Gate};
use key_shard::{Shard, Step};
use log_word::{LogWord, Pass, ShardPass, StorePass};
use rows_model::Memory;
use session_client::Shape;
use shard_lock::new_shards;
use sql_keeper::{Keeper, Start, Store};
use std::alloc::Global;
use std::sync::Wait;
use std::sync::ledger::Blank;

/// How long a lease of a running hub lives, in milliseconds.
pub(crate) const LIFE: u64 = 10_000;

/// How many commits the store of a load takes.
pub(crate) const CAP: u64 = 8_000_000;

/// What a hub is made of beside its store: the shards, a ledger with a part for each, and a word with its
/// passes.
#[derive(Drop)]
pub(crate) struct HubParts {
    pub(crate) shards: Vec<Shard>,
    pub(crate) ledger: Blank,
    pub(crate) word: (LogWord, StorePass, Vec<ShardPass>, Pass),
}

/// The parts of a hub, and room for the steps that its shards leave.
#[derive(Drop)]
pub(crate) struct Parts {
    pub(crate) hub: HubParts,
    pub(crate) histories: Vec<Vec<Step>>,
}

/// The parts of a new hub of this shape, whose shards are whole or roll.
pub(crate) fn parts_for(alloc: Global, shape: &Shape, rolls: bool) -> Result<Parts, Memory>
    requires some { 1 ≤ shape.now.shards }
    requires few { shape.now.shards ≤ 64 }
    requires roomy { 1 ≤ shape.now.room }
    requires lively { 1 ≤ shape.now.life }
    ensures { IfOk result (AreParts shape.now (hub_terms shape.now rolls)) }
{
    let hub = HubParts {
        shards: new_shards(alloc, shape.shards, shape.room, shape.life, rolls)?,
        ledger: Blank::new(shape.shards as u64),
        word: LogWord::new(alloc, shape.shards)?,
    };
    Ok(Parts {
        hub,
        histories: Vec::with_capacity(alloc, shape.shards as usize)?,
    })
}

/// A desk over the hub for each worker, each with its place for its number, which has answered no call. Each
/// has a pass of its own, which has seen what the caller's has.
pub(crate) fn desks_over<'a, H: BoundName, K: Keeper, C: Clock, G: Gate, R: Wait>(
    rt: &'a R,
    alloc: Global,
    hub: &'a BoundHub<K, H>,
    caller: &mut Pass,
    workers: u32,
    clock: &'a C,
    gate: &'a G,
) -> Result<Vec<BoundDesk<'a, K, H, C, G, R>>, Memory>
    requires word { caller.old.word ≡ H.word }
    ensures word { caller.new.word ≡ H.word }
    ensures count { IfOk result (λ desks. length desks.items ≡ workers) }
    ensures new { IfOk result (λ desks. AreNewDesks 0 desks.items) }
{
    let mut desks = Vec::with_capacity(alloc, workers as usize)?;
    for worker in 0..workers {
        let pass = hub.pass(caller);
        desks.push_reserved(BoundDesk::new(rt, alloc, hub, pass, worker, clock, gate));
    }
    Ok(desks)
}

/// The caller's pass, once it has seen what each of these desks has.
pub(crate) fn heard<H: BoundName, K: Keeper, C: Clock, G: Gate, R: Wait>(
    hub: &BoundHub<K, H>,
    pass: Pass,
    desks: Vec<BoundDesk<'_, K, H, C, G, R>>,
) -> Pass
    requires word { pass.word ≡ H.word }
    ensures word { result.word ≡ H.word }
    ensures recorded { All (λ desk. IsRecordSeen H.terms H.before H.word.shards desk.worker
        desk.calls result.seen) desks.entry.items }
{
    let word = hub.word();
    let mut pass = pass;
    let mut desks = desks;
    while let Some(desk) = desks.pop() {
        let mut theirs = desk.into_pass();
        pass.join(word, theirs.note(word));
    }
    pass
}

/// The end of a run over a hub that began. It hands out the steps that the shards have in memory: of whole
/// shards their histories.
pub(crate) fn ended_hub<K: Keeper, N: Start>(
    status: Status,
    store: Store<K, N>,
    shards: Vec<Shard>,
    histories: Vec<Vec<Step>>,
    ends: Vec<LineEnd>,
    earlier: Vec<Phase>,
    written: u64,
) -> RunEnd<K>
    requires none { histories.items ≡ [] }
    requires room { length shards.items ≤ vec_capacity histories }
    ensures status { result.status ≡ status }
    ensures started { K.is_started result.keeper }
    ensures rows { K.rows result.keeper ≡ store.known_rows }
    ensures faults { K.faults result.keeper ≡ store.faults }
    ensures opening { result.opening ≡ Some store.ledger.opening }
    ensures log { result.log.items ≡ store.ledger.log }
    ensures short { length store.ledger.log ≤ store.ledger.cap }
    ensures histories { histories_at result ≡ kept_in shards.items }
    ensures whole { AreWhole shards.items → histories_at result ≡ histories_in shards.items }
    ensures ends { result.ends ≡ ends }
    ensures earlier { result.earlier ≡ earlier }
    ensures written { result.written ≡ written }
    ensures told { ForSome store.known_rows (λ known. known ≡ rows_of store.ledger) }
    ensures since { FailedSince N.count store.ledger.failed store.faults }
{
    // A store tells of its log that it is no longer than it may be.
    let _ = store.log();
    let (keeper, opening, log) = store.into_parts();
    RunEnd {
        status,
        keeper,
        opening: Some(opening),
        log,
        histories: histories_of(shards, histories),
        ends,
        earlier,
        written,
    }
}
