//! When a desk looks at its clock, and where its sweeper turns to.
ghost use Rattle.std.specs.Prelude.{◌≡◌};
ghost use Rattle.expiry_sweeper.specs.Follows.{shards_of};

use expiry_sweeper::{SweepReply, SweepWanted, Sweeper};
use key_shard::{Blocker, Got};
use session_client::{Fault, Wanted};

/// Whether the time is of any account to a request on a shard.
pub(crate) fn is_timed(request: &Wanted) -> bool {
    !matches!(
        request,
        Wanted::Dar { .. }
            | Wanted::Sar { .. }
            | Wanted::Apply { .. }
            | Wanted::Abort { .. }
            | Wanted::Raise { .. }
    )
}

/// The sweeper goes on to this shard, where a reader was told now that a quarantine stands there, and one may
/// be due.
pub(crate) fn turn_to_due(
    sweeper: &mut Sweeper,
    shard: u32,
    answer: &Result<Got, Fault>,
    due: u64,
    now: u64,
)
    ensures { shards_of sweeper.new ≡ shards_of sweeper.old }
{
    if is_held_up(answer) && due <= now {
        *sweeper = turned(*sweeper, shard);
    }
}

/// Whether a reader was told that a quarantine stands on its key.
fn is_held_up(answer: &Result<Got, Fault>) -> bool {
    matches!(
        answer,
        Ok(Got::Again {
            standing: Blocker::Q
        })
    )
}

/// The sweeper, gone on to this shard where it is looking for a quarantine. The shards between are passed
/// over in this round.
fn turned(sweeper: Sweeper, shard: u32) -> Sweeper
    ensures { shards_of result ≡ shards_of sweeper }
{
    let mut turned = sweeper;
    for _ in 0..sweeper.shards() {
        match turned.wants() {
            SweepWanted::Scan { shard: place } if place != shard => {
                turned.hear(SweepReply::NoneFound { shard: place });
            }
            _ => return turned,
        }
    }
    turned
}
