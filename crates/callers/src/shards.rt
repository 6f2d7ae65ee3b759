// What a reader and a late writer of one shard may rely on.
ghost use Rattle.std.specs.Prelude.{◌≡◌, false, IfOk};
ghost use Rattle.lease_table.specs.Leases.{is_current};
ghost use Rattle.key_shard.specs.Past.{recorded};
ghost use Rattle.key_shard.specs.Shards.{past_of};
ghost use Rattle.callers.specs.Shards.{IsAtLeast, HitsMeetTheirFloors, ShowsTheSame, IsVoid};

use core_history::laws::voids_are_inert;
use key_shard::{Got, SetAnswer, Shard, ShardFault};
use rows_model::{QKey, Sid, Value};

/// A reader who asks with a floor is never served a value older than that many commits.
pub fn get_at_least(
    shard: &mut Shard,
    key: QKey,
    who: Sid,
    floor: u64,
    now: u64,
) -> Result<Got, ShardFault>
    ensures { IfOk result (IsAtLeast floor) }
{
    shard.get(key, who, floor, now)
}

/// No history of a shard tells of a hit below its floor.
pub fn hits_meet_their_floors()
    ensures { HitsMeetTheirFloors }
{}

/// A value that comes too late changes nothing that a shard shows: each entry, their order, and the
/// leases of each key, as they are seen from then on, are as before.
pub fn set_too_late(
    shard: &mut Shard,
    key: QKey,
    token: u64,
    value: Value,
    stamp: u64,
    now: u64,
) -> Result<SetAnswer, ShardFault>
    requires { is_current token now (recorded key (past_of shard.old)) ≡ false }
    ensures same { ShowsTheSame now (past_of shard.old) (past_of shard.new) }
    ensures void { IfOk result IsVoid }
{
    voids_are_inert();
    shard.set(key, token, value, stamp, now)
}
