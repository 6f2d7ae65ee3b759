// New shards, into which the dumps of old ones are loaded.
ghost use Rattle.std.specs.Prelude.{false, ◌≡◌, ◌<◌, ◌-◌, ◌^◌, [], None, IfOk, map};
ghost use Rattle.run_inputs.specs.declared.loads.WorkSpec.{WorkSpec};
ghost use Rattle.run_inputs.specs.Loads.{IsWork};
ghost use Rattle.top_run.specs.declared.dumps.Dumped.{Dumped};
ghost use Rattle.top_run.specs.Works.{work_shape, hub_terms};
ghost use Rattle.top_run.specs.Ready.{IsReady};
ghost use Rattle.top_run.specs.Warming.{AreLoaded, CanLoad, CanLoadAll, IsLoadedWith, IsReadyAnew, KeepsOn};

use crate::dumps::Dumped;
use crate::hubs::{HubParts, Parts};
use crate::works::Ready;
use key_shard::Shard;
use rows_model::Memory;
use run_inputs::WorkSpec;
use shard_dump::{DumpRow, LoadFault, load};
use sql_keeper::{Keeper, Start, Store};
use std::alloc::Global;

/// What a load is run with, once the dumps are loaded into its shards.
pub(crate) fn loaded<K: Keeper, N: Start>(
    alloc: Global,
    spec: &WorkSpec,
    store: &mut Store<K, N>,
    ready: Ready,
    dumps: Vec<Dumped>,
    now: u64,
) -> Result<Ready, Memory>
    requires now { now < 2 ^ 64 - 1 }
    requires log { store.old.ledger.log ≡ [] }
    requires work { IsWork spec.now }
    requires ready { IsReady spec.now (hub_terms (work_shape spec.now) false) ready }
    requires can { CanLoadAll store.old.known_rows store.old.ledger.opening dumps.items
        ready.parts.hub.shards.items }
    ensures ready { IfOk result (IsReadyAnew spec.now store.new.known_rows store.new.ledger.opening
        (map (λ dumped. dumped.dump.rows) dumps.items)) }
    ensures keeps_on { KeepsOn store.old store.new }
{
    let Ready { plans, parts } = ready;
    let Parts { hub, histories } = parts;
    let HubParts {
        shards,
        ledger,
        word,
    } = hub;
    let shards = load_all(alloc, store, shards, dumps, now)?;
    let hub = HubParts {
        shards,
        ledger,
        word,
    };
    Ok(Ready {
        plans,
        parts: Parts { hub, histories },
    })
}

/// The shards, once each has loaded the dump of its place.
fn load_all<K: Keeper, N: Start>(
    alloc: Global,
    store: &mut Store<K, N>,
    shards: Vec<Shard>,
    dumps: Vec<Dumped>,
    now: u64,
) -> Result<Vec<Shard>, Memory>
    requires now { now < 2 ^ 64 - 1 }
    requires log { store.old.ledger.log ≡ [] }
    requires can { CanLoadAll store.old.known_rows store.old.ledger.opening
        dumps.items shards.items }
    ensures loaded { IfOk result (λ loaded. AreLoaded store.new.known_rows store.new.ledger.opening
        dumps.items shards.items loaded.items) }
    ensures keeps_on { KeepsOn store.old store.new }
{
    let mut loaded = Vec::with_capacity(alloc, shards.len())?;
    let mut shards = shards;
    let mut dumps = dumps;
    while !shards.is_empty() {
        let shard = shards.remove(0);
        let dumped = dumps.remove(0);
        let rows = dumped.dump.rows.into_rows();
        loaded.push_reserved(load_one(store, shard, rows, now)?);
    }
    Ok(loaded)
}

/// The shard, once it has loaded these rows.
pub(crate) fn load_one<K: Keeper, N: Start>(
    store: &mut Store<K, N>,
    shard: Shard,
    rows: Vec<DumpRow>,
    now: u64,
) -> Result<Shard, Memory>
    requires now { now < 2 ^ 64 - 1 }
    requires log { store.old.ledger.log ≡ [] }
    requires can { CanLoad store.old.known_rows store.old.ledger.opening rows.items shard }
    ensures loaded { IfOk result (λ loaded. IsLoadedWith store.new.known_rows
        store.new.ledger.opening rows.items shard loaded) }
    ensures keeps_on { KeepsOn store.old store.new }
{
    let mut shard = shard;
    match load(store, &mut shard, rows, now) {
        Ok(_) => {
            // That the history is legal is a clause of its reader.
            let _ = shard.history();
            Ok(shard)
        }
        Err(LoadFault::Stranger { .. }) => unreachable!(),
        Err(LoadFault::Spent { .. }) => unreachable!(),
        Err(LoadFault::Memory) => Err(Memory),
    }
}
