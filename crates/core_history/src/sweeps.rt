// A step of the sweeper: what it wants is made on a shard or at the store, and its line written.
ghost use Rattle.std.specs.Prelude.{◌≡◌, ◌≤◌, ◌<◌, None, length};
ghost use Rattle.session_client.specs.declared.plans.Shape.{Shape};
ghost use Rattle.expiry_sweeper.specs.declared.replies.SweepWanted.TheVariants as sweep;
ghost use Rattle.expiry_sweeper.specs.Follows.{shards_of, wanted_of};
ghost use Rattle.expiry_sweeper.specs.Sweeps.{BelongsTo, IsWithin};
ghost use Rattle.core_history.specs.Cores.{Origin, HasShards, HasHome, HasHomes, HasSweeper};
ghost use Rattle.core_history.specs.Events.{now_of};
ghost use Rattle.core_history.specs.Machine.{World};
ghost use Rattle.core_history.specs.Requests.{AreAfter, IsStoreAfter};
ghost use Rattle.core_history.specs.Sweeping.{IsNumbered, IsSweepReply, SweepsShards, SweepsStore, Sweeps, TakesSweep};

use crate::homes::home_of;
use crate::sweep_lines::sweep_line;
use crate::turn_lines::TurnLine;
use expiry_sweeper::{SweepReply, SweepWanted, Sweeper};
use key_shard::Shard;
use rows_model::{Memory, QKey, Sid};
use sql_keeper::{Keeper, Store};
use std::alloc::Global;

/// Takes the sweeper's next step, at the time that the clock says now. The keeper isn't asked.
/// Where memory runs out the step was made, and its line is lost.
pub(crate) fn sweep_turn<K: Keeper>(
    alloc: Global,
    store: &mut Store<K>,
    shards: &mut Vec<Shard>,
    sweeper: &mut Sweeper,
    now: u64,
) -> Result<TurnLine, Memory>
    requires homes { HasHomes shards.old.items }
    requires all { shards_of sweeper.old ≡ length shards.old.items }
    requires numbered { IsNumbered (wanted_of sweeper.old) }
    ensures takes { (origin : Origin) (world : World) →
        AreAfter shards.old.items store.old origin world → now ≡ now_of world.past →
        HasSweeper sweeper.old origin.shape world.past →
        TakesSweep origin world shards.new.items store.new sweeper.new result }
    ensures unasked { (store.new.known_rows ≡ store.old.known_rows) × (store.new.faults ≡ store.old.faults) }
{
    let request = sweeper.wants();
    let reply = make_sweep(store, shards, request, now);
    sweeper.hear(reply);
    sweep_line(alloc, request, reply)
}

/// Makes what the sweeper wants, at the time that the clock says now. It takes no memory.
fn make_sweep<K: Keeper>(
    store: &mut Store<K>,
    shards: &mut Vec<Shard>,
    request: SweepWanted,
    now: u64,
) -> SweepReply
    requires homes { HasHomes shards.old.items }
    requires within { IsWithin (length shards.old.items) request }
    requires numbered { IsNumbered request }
    ensures sweeps { (origin : Origin) (world : World) →
        AreAfter shards.old.items store.old origin world → now ≡ now_of world.past →
        Sweeps origin world request shards.new.items store.new result }
    ensures belongs { BelongsTo request result }
    ensures unasked { (store.new.known_rows ≡ store.old.known_rows) × (store.new.faults ≡ store.old.faults) }
{
    match request {
        SweepWanted::Scan { shard } => scan(shards, shard, now),
        SweepWanted::End { sid } => end(store, sid),
        SweepWanted::Drop { key, token } => drop_swept(shards, key, token),
    }
}

/// Looks for the first quarantine of a shard that is past its deadline. It leaves the shards.
fn scan(shards: &mut Vec<Shard>, shard: u32, now: u64) -> SweepReply
    requires { shard < length shards.old.items }
    ensures left { shards.new.items ≡ shards.old.items }
    ensures told { (shape : Shape) (world : World) →
        HasShards shards.old.items shape world.past → now ≡ now_of world.past →
        IsSweepReply shape world (sweep.Scan shard) result }
    ensures belongs { BelongsTo (sweep.Scan shard) result }
{
    match shards[shard as usize].expired(now) {
        Some(due) => SweepReply::Found { shard, due },
        None => SweepReply::NoneFound { shard },
    }
}

/// Ends a session at the store.
fn end<K: Keeper>(store: &mut Store<K>, sid: Sid) -> SweepReply
    requires { 1 ≤ sid.number }
    ensures sweeps { (origin : Origin) (world : World) → IsStoreAfter store.old origin world →
        SweepsStore origin world (sweep.End sid) store.new result }
    ensures belongs { BelongsTo (sweep.End sid) result }
    ensures unasked { (store.new.known_rows ≡ store.old.known_rows) × (store.new.faults ≡ store.old.faults) }
{
    SweepReply::Ended {
        closed: store.end(sid),
    }
}

/// Drops a key whose session was ended, on its shard.
fn drop_swept(shards: &mut Vec<Shard>, key: QKey, token: u64) -> SweepReply
    requires { HasHome shards.old.items key }
    ensures sweeps { (shape : Shape) (world : World) →
        HasShards shards.old.items shape world.past →
        SweepsShards shape world (sweep.Drop key token) shards.new.items result }
    ensures belongs { BelongsTo (sweep.Drop key token) result }
{
    let place = home_of(shards, &key);
    SweepReply::Dropped {
        answer: shards[place].sweep_drop(key, token),
    }
}
