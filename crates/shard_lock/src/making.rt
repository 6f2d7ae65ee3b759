// The shards of a new hub.
ghost use Rattle.std.specs.Prelude.{◌≡◌, ◌<◌, ◌≤◌, All, IfOk, [], length};
ghost use Rattle.shard_lock.specs.Names.{AreAll, terms_at};

use key_shard::Shard;
use rows_model::Memory;
use std::alloc::Global;

/// So many new shards, each with its place for its number, room for so many entries and leases that live
/// so long. Their first token is 1. They are whole, or they roll.
pub fn new_shards(
    alloc: Global,
    count: u32,
    room: u32,
    life: u64,
    rolls: bool,
) -> Result<Vec<Shard>, Memory>
    requires some { 1 ≤ count }
    requires roomy { 1 ≤ room }
    requires lively { 1 ≤ life }
    ensures all { IfOk result (λ shards. AreAll (terms_at count room life rolls) shards.items) }
    ensures as_many { IfOk result (λ shards. length shards.items ≡ count) }
    ensures new { IfOk result (λ shards. All (λ shard. shard.history ≡ []) shards.items) }
    ensures none_out { IfOk result (λ shards. All (λ shard. shard.out ≡ []) shards.items) }
{
    let mut shards = Vec::with_capacity(alloc, count as usize)?;
    for no in 0..count {
        shards.push_reserved(new_shard(alloc, no, count, room, life, rolls)?);
    }
    Ok(shards)
}

/// The shard of this number.
fn new_shard(
    alloc: Global,
    no: u32,
    count: u32,
    room: u32,
    life: u64,
    rolls: bool,
) -> Result<Shard, Memory>
    requires one_of { no < count }
    requires roomy { 1 ≤ room }
    requires lively { 1 ≤ life }
    ensures terms { IfOk result (λ shard. shard.terms ≡ terms_at count room life rolls no) }
    ensures new { IfOk result (λ shard. shard.history ≡ []) }
    ensures none_out { IfOk result (λ shard. shard.out ≡ []) }
{
    if rolls {
        Shard::rolling(alloc, no, count, room, life, 1)
    } else {
        Shard::new(alloc, no, count, room, life, 1)
    }
}
