//! Copies that are taken before an event, for want of memory then.
ghost use Rattle.std.specs.Prelude.{◌≡◌, IfOk};
ghost use Rattle.key_shard.specs.Past.{entry};
ghost use Rattle.key_shard.specs.Replies.{old_value};
ghost use Rattle.key_shard.specs.Shards.{past_of};

use bound_hub::{BoundName, BoundShard};
use lease_table::Mode;
use rows_model::{Memory, QKey, Value};

/// A copy of the old value, with its stamp, that comes along with a quarantine in this mode: of the
/// key's entry, where it is to be refreshed.
pub(crate) fn old_copy<H: BoundName>(
    shard: &BoundShard<H>,
    key: &QKey,
    mode: Mode,
) -> Result<Option<(Value, u64)>, Memory>
    ensures { IfOk result (λ old.
        old ≡ old_value mode (entry key.now (past_of shard.now.shard))) }
{
    match mode {
        Mode::Refresh => entry_copy(shard, key),
        Mode::Invalidate | Mode::Delta => Ok(None),
    }
}

/// A copy of the key's entry, if it has one.
fn entry_copy<H: BoundName>(
    shard: &BoundShard<H>,
    key: &QKey,
) -> Result<Option<(Value, u64)>, Memory>
    ensures { IfOk result (λ old. old ≡ entry key.now (past_of shard.now.shard)) }
{
    match shard.peek(key) {
        Some((value, stamp)) => Ok(Some((value.copy()?, stamp))),
        None => Ok(None),
    }
}
