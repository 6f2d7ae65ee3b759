//! What a caller of a server's desks concludes of the calls that these answered: each hit is fresh against
//! what the desk knew then, holds the caller's own writes, and is no older than an earlier one.
ghost use Rattle.std.specs.Prelude.{◌≡◌, All, List};
ghost use Rattle.session_client.specs.Desks.{Exchange};
ghost use Rattle.callers.specs.Desks.{Always, AreServed, IsRunning};

use bound_desk::BoundDesk;
use bound_hub::{BoundHub, BoundName};
use iq_outside::{Clock, Gate};
use key_shard::Shard;
use log_word::Pass;
use rows_model::Rows;
use sql_keeper::{CommitLog, Keeper, Telling};
use std::sync::Wait;

/// Of the calls that a desk answered, whoever else uses the hub and whatever they send: each hit's stamp is
/// at least its floor. It is its key's answer after as many commits as its stamp says, of those that the desk
/// knew then. It holds each commit on the key whose release the desk had seen before the call, and each that
/// the desk was told itself, with its release. A later hit on a key holds each commit on it that an earlier
/// one holds. All but the floor is said unless the desk had seen then that the store has stopped telling its
/// rows.
pub fn desk_served<K: Keeper, H: BoundName, C: Clock, G: Gate, R: Wait>(
    desk: BoundDesk<'_, K, H, C, G, R>,
) -> Pass
    ensures word { result.word ≡ H.word }
    ensures served { AreServed IsRunning H.opening H.word.shards desk.entry.calls result.seen }
{
    desk.into_pass()
}

/// Over a keeper that tells its rows for good all of that is said with no premise: no caller of such a hub has
/// seen the store stop. The passes are those that the desks left.
pub fn desks_served<K: Telling, H: BoundName>(
    hub: BoundHub<K, H>,
    passes: Vec<Pass>,
) -> (K, Rows, CommitLog, Vec<Shard>)
    requires { All (λ pass. pass.word ≡ H.word) passes.items }
    ensures { All (λ pass. (calls : List Exchange) →
        AreServed IsRunning H.opening H.word.shards calls pass.seen →
        AreServed Always H.opening H.word.shards calls pass.seen) passes.items }
{
    let (store, shards) = hub.into_parts(passes);
    let (keeper, rows, log) = store.into_parts();
    (keeper, rows, log, shards)
}
