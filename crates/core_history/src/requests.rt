// A session's requests, each made by the executor on the shard of its key or at the store.
ghost use Rattle.std.specs.Prelude.{◌≡◌, ◌≤◌, Some, IfOk};
ghost use Rattle.executor.specs.OnStore.{IsAtStore};
ghost use Rattle.executor.specs.Requests.{key_of};
ghost use Rattle.session_client.specs.Belongs.{Belongs};
ghost use Rattle.session_client.specs.Desks.{IsProper};
ghost use Rattle.session_client.specs.declared.plans.Shape.{Shape};
ghost use Rattle.core_history.specs.Cores.{Origin, HasShards, HasHome, HasHomes};
ghost use Rattle.core_history.specs.Events.{now_of};
ghost use Rattle.core_history.specs.Machine.{World};
ghost use Rattle.core_history.specs.Requests.{IsOutWhereReleased, AreAfter, IsStoreAfter, MakesStep, MakesCall, Makes, GoesOn, tells_memory};

use crate::homes::home_of;
use executor::{key_of, on_shard, on_store};
use key_shard::Shard;
use rows_model::{Memory, QKey, Sid};
use session_client::{Fault, Reply, Wanted};
use sql_keeper::{AfterFault, CommitFault, Keeper, Store};

/// Makes a session's request, at the time that the clock says now. A keeper's fault is told, and want
/// of memory ends it: shards, log and sessions at the store are then as before, and the grants that the
/// request handed over are let go.
pub(crate) fn make<K: Keeper>(
    store: &mut Store<K>,
    shards: &mut Vec<Shard>,
    who: Sid,
    request: Wanted,
    now: u64,
) -> Result<Reply, Memory>
    requires homes { HasHomes shards.old.items }
    requires some { 1 ≤ who.number }
    requires proper { IsProper request }
    requires out { IsOutWhereReleased shards.old.items request }
    ensures makes { (origin : Origin) (world : World) →
        AreAfter shards.old.items store.old origin world → now ≡ now_of world.past →
        Makes origin world who request shards.new.items store.new result }
    ensures belongs { IfOk result (Belongs who request) }
{
    if matches!(&request, Wanted::Nothing) {
        request.let_go();
        return Ok(Reply::Nothing);
    }
    match key_of(&request) {
        Some(key) => make_on(shards, key, who, request, now),
        None => make_at(store, who, request),
    }
}

/// Makes a request on the shard of its key.
fn make_on(
    shards: &mut Vec<Shard>,
    key: QKey,
    who: Sid,
    request: Wanted,
    now: u64,
) -> Result<Reply, Memory>
    requires key { key_of request ≡ Some key }
    requires home { HasHome shards.old.items key }
    requires proper { IsProper request }
    requires out { IsOutWhereReleased shards.old.items request }
    ensures makes { (shape : Shape) (world : World) →
        HasShards shards.old.items shape world.past → now ≡ now_of world.past →
        MakesStep shape world who request shards.new.items result }
    ensures belongs { IfOk result (Belongs who request) }
{
    let place = home_of(shards, &key);
    unless_memory(on_shard(&mut shards[place], who, request, now))
}

/// Makes a request at the store.
fn make_at<K: Keeper>(store: &mut Store<K>, who: Sid, request: Wanted) -> Result<Reply, Memory>
    requires at_store { IsAtStore request }
    requires some { 1 ≤ who.number }
    ensures makes { (origin : Origin) (world : World) → IsStoreAfter store.old origin world →
        MakesCall origin world who request store.new result }
    ensures belongs { IfOk result (Belongs who request) }
{
    unless_memory(on_store(store, who, request))
}

/// The reply, unless it tells that memory ran out: then the grants that it brings are let go.
fn unless_memory(reply: Reply) -> Result<Reply, Memory>
    ensures { GoesOn reply result }
{
    if tells_memory(&reply) {
        reply.let_go();
        return Err(Memory);
    }
    Ok(reply)
}

/// Whether a reply tells that memory ran out.
fn tells_memory(reply: &Reply) -> bool
    ensures { result ≡ tells_memory reply.now }
{
    matches!(
        reply,
        Reply::Fault {
            fault: Fault::Memory
        } | Reply::NotStaged {
            fault: AfterFault::Memory,
            ..
        } | Reply::NotCommitted {
            fault: CommitFault::Memory,
            ..
        } | Reply::SarBack { .. }
            | Reply::RaiseBack { .. }
            | Reply::Renew { answer: None, .. }
    )
}
