// The shard of a key.
ghost use Rattle.std.specs.Prelude.{◌≡◌, ◌<◌, length};
ghost use Rattle.rows_model.specs.Placement.{shard_of};
ghost use Rattle.core_history.specs.Cores.{HasHome};

use key_shard::Shard;
use rows_model::{QKey, shard_number};

/// The place of a key's shard.
pub(crate) fn home_of(shards: &Vec<Shard>, key: &QKey) -> usize
    requires { HasHome shards.now.items key.now }
    ensures is { result ≡ shard_of key.now (length shards.now.items) }
    ensures within { result < length shards.now.items }
{
    shard_number(key, shards.len() as u32) as usize
}
