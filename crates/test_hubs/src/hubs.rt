// New hubs for tests, and the desks over them.
ghost use Rattle.std.specs.Prelude.{◌≡◌, ◌≤◌, IfOk};
ghost use Rattle.sql_keeper.specs.Stores.{opened};
ghost use Rattle.session_client.specs.Plans.{IsShape};
ghost use Rattle.test_hubs.specs.Hubs.{IsMadeFor, IsNewHub};

use bound_desk::BoundDesk;
use bound_hub::{BoundHub, BoundName};
use iq_outside::{Gate, ListClock};
use log_word::{LogWord, Pass, ShardPass, StorePass};
use session_client::Shape;
use shard_lock::{StartOf, new_shards};
use sql_keeper::{MapKeeper, Place, Store};
use std::alloc::Global;
use std::process::Abort;
use std::sync::Wait;
use std::sync::ledger::Blank;
use std::test::Fail;

/// What a hub is made of beside its store and its shards.
#[derive(Drop)]
pub struct MadeOf {
    pub ledger: Blank,
    pub word: (LogWord, StorePass, Vec<ShardPass>, Pass),
}

impl MadeOf {
    /// A ledger with a part for each of so many shards, and a word for them.
    pub fn new(alloc: Global, shards: u32) -> Result<MadeOf, Fail>
        requires some { 1 ≤ shards }
        requires few { shards ≤ 64 }
        ensures { IfOk result (λ made. IsMadeFor shards made.ledger.parts
            made.word.0 made.word.1 made.word.2.items made.word.3) }
    {
        Ok(MadeOf {
            ledger: Blank::new(shards as u64),
            word: LogWord::new(alloc, shards)?,
        })
    }
}

/// A store of so many members in memory.
pub fn store_of(rt: &impl Abort, alloc: Global, members: u32) -> Store<MapKeeper>
    requires some { 1 ≤ members }
    requires few { members ≤ 100000 }
    ensures { result.ledger ≡ opened result.ledger.opening 8000000 }
{
    failing_store(rt, alloc, members, Vec::new(alloc))
}

/// One whose keeper fails at the calls with these numbers, counted from 1. The first call starts it.
pub fn failing_store(
    rt: &impl Abort,
    alloc: Global,
    members: u32,
    fails: Vec<u64>,
) -> Store<MapKeeper>
    requires some { 1 ≤ members }
    requires few { members ≤ 100000 }
    ensures { result.ledger ≡ opened result.ledger.opening 8000000 }
{
    let keeper = MapKeeper::new(fails);
    match Store::new(alloc, keeper, &Place::Fresh, members, 8_000_000) {
        Ok(store) => store,
        Err(_) => panic!(rt; "no store"),
    }
}

/// A new hub of this shape over this store, and a caller's pass. Its shards are whole.
pub fn hub_of<H: BoundName>(
    rt: &impl Abort,
    alloc: Global,
    shape: &Shape,
    store: Store<MapKeeper>,
    made: MadeOf,
) -> Result<(BoundHub<MapKeeper, H>, Pass), Fail>
    requires shape { IsShape shape.now }
    requires made { IsMadeFor shape.now.shards made.ledger.parts
        made.word.0 made.word.1 made.word.2.items made.word.3 }
    requires ledger { (made.ledger.name ≡ H.name) × (made.ledger.parts ≡ H.parts) }
    requires named { IsNewHub H.word H.before H.begun H.failed H.terms H.opening H.cap
        H.known_rows H.start shape.now store made.word.0 }
    ensures pass { IfOk result (λ answer. answer.1.word ≡ H.word) }
{
    let shards = new_shards(alloc, shape.shards, shape.room, shape.life, false)?;
    let store = store.named::<StartOf<H>>();
    let MadeOf { ledger, word } = made;
    match BoundHub::new(alloc, store, shards, ledger, word) {
        Ok(answer) => Ok(answer),
        Err(_) => panic!(rt; "memory"),
    }
}

/// A desk of this worker over the hub, with a pass of its own.
pub fn desk_of<'a, H: BoundName, G: Gate, R: Wait>(
    rt: &'a R,
    alloc: Global,
    hub: &'a BoundHub<MapKeeper, H>,
    pass: &mut Pass,
    worker: u32,
    clock: &'a ListClock,
    gate: &'a G,
) -> BoundDesk<'a, MapKeeper, H, ListClock, G, R>
    requires { pass.old.word ≡ H.word }
    ensures { pass.new.word ≡ H.word }
{
    let mine = hub.pass(pass);
    BoundDesk::new(rt, alloc, hub, mine, worker, clock, gate)
}
