// What the first of two loads leaves, and how a run ends between the two.
ghost use Rattle.std.specs.Prelude.{◌≡◌, ◌≤◌, ◌∷◌, [], Option, Some, None, IfOk, IfErr, length, map, vec_capacity};
ghost use Rattle.std.specs.Option.{ForSome};
ghost use Rattle.key_shard.specs.declared.steps.Step.{Step};
ghost use Rattle.sql_keeper.specs.declared.stores.Commit.{Commit};
ghost use Rattle.sql_keeper.specs.Faults.{FailedSince};
ghost use Rattle.sql_keeper.specs.Stores.{rows_of};
ghost use Rattle.core_history.specs.Machine.{log_cap};
ghost use Rattle.run_audit.specs.Findings.{histories_in, AreWhole};
ghost use Rattle.top_run.specs.declared.runs.Status.{Status};
ghost use Rattle.top_run.specs.Serves.{phase_left};
ghost use Rattle.top_run.specs.Works.{first_spent};
ghost use Rattle.top_run.specs.Warming.{HasRooms, IsHalf, left_by, left_in, stop_status};

use crate::endings::{histories_of, not_started};
use crate::plays::Stop;
use crate::runs::{Phase, RunEnd, Status};
use crate::works::first_spent;
use key_shard::{Shard, Step};
use rows_model::{Memory, Rows};
use sql_keeper::{CommitLog, Keeper, Start, Store};
use std::alloc::Global;

/// What the first load left: the store and its shards, and room for the histories and for all of it.
#[derive(Drop)]
pub(crate) struct First<K: Keeper, N: Start> {
    pub(crate) store: Store<K, N>,
    pub(crate) shards: Vec<Shard>,
    pub(crate) histories: Vec<Vec<Step>>,
    pub(crate) earlier: Vec<Phase>,
}

/// The store made anew behind the first load, what that load left, and its least shard without a token left.
#[derive(Drop)]
pub(crate) struct Half<K: Keeper, N: Start> {
    pub(crate) store: Store<K, N>,
    pub(crate) earlier: Vec<Phase>,
    pub(crate) spent: Option<u32>,
}

/// The store made anew over the rows after the first load, and what that load left. For want of memory
/// everything is as it was.
pub(crate) fn made_anew<K: Keeper, N: Start>(first: First<K, N>) -> Result<Half<K, N>, First<K, N>>
    requires few { length first.shards.items ≤ 64 }
    requires whole { AreWhole first.shards.items }
    requires rooms { HasRooms first.shards.items first.histories first.earlier }
    requires cap { first.store.ledger.cap ≡ log_cap }
    ensures half { IfOk result (λ half. IsHalf first.store.ledger.opening
        half.store half.earlier.items half.spent) }
    ensures left { IfOk result (λ half.
        left_in half.earlier.items ≡ left_by first.store first.shards.items) }
    ensures keeper { IfOk result (λ half.
        (half.store.known_rows ≡ first.store.known_rows) × (half.store.faults ≡ first.store.faults)) }
    ensures err { IfErr result (λ back. back ≡ first) }
{
    let First {
        store,
        shards,
        histories,
        earlier,
    } = first;
    // A store tells of its log that the keeper's rows are those after it.
    let _ = store.log();
    match store.rebase() {
        Ok((store, opening, log)) => {
            let spent = first_spent(shards.as_slice());
            Ok(Half {
                store,
                earlier: with_phase(earlier, opening, log, shards, histories),
                spent,
            })
        }
        Err(store) => Err(First {
            store,
            shards,
            histories,
            earlier,
        }),
    }
}

/// What a load left, put where there is room for it.
fn with_phase(
    room: Vec<Phase>,
    opening: Rows,
    log: CommitLog,
    shards: Vec<Shard>,
    histories: Vec<Vec<Step>>,
) -> Vec<Phase>
    requires none { histories.items ≡ [] }
    requires for_histories { length shards.items ≤ vec_capacity histories }
    requires whole { AreWhole shards.items }
    requires none_earlier { room.items ≡ [] }
    requires for_one { 1 ≤ vec_capacity room }
    ensures { map phase_left result.items ≡ record {
      opening = Some opening;
      log = log.items;
      histories = histories_in shards.items;
    } ∷ [] }
{
    let mut earlier = room;
    earlier.push_reserved(Phase {
        opening,
        log,
        histories: histories_of(shards, histories),
    });
    earlier
}

/// The end of a run that stopped behind the first load, before its store was made anew.
pub(crate) fn ended_first<K: Keeper, N: Start>(
    alloc: Global,
    status: Status,
    first: First<K, N>,
    written: u64,
) -> RunEnd<K>
    requires whole { AreWhole first.shards.items }
    requires rooms { HasRooms first.shards.items first.histories first.earlier }
    ensures status { result.status ≡ status }
    ensures opening { result.opening ≡ None }
    ensures log { result.log.items ≡ [] }
    ensures histories { result.histories.items ≡ [] }
    ensures no_ends { result.ends.items ≡ [] }
    ensures written { result.written ≡ written }
    ensures earlier { map phase_left result.earlier.items
        ≡ left_by first.store first.shards.items ∷ [] }
    ensures started { K.is_started result.keeper }
    ensures rows { K.rows result.keeper ≡ first.store.known_rows }
    ensures faults { K.faults result.keeper ≡ first.store.faults }
    ensures short { length first.store.ledger.log ≤ first.store.ledger.cap }
    ensures told { ForSome first.store.known_rows (λ known. known ≡ rows_of first.store.ledger) }
    ensures since { FailedSince N.count first.store.ledger.failed first.store.faults }
{
    let First {
        store,
        shards,
        histories,
        earlier,
    } = first;
    // A store tells of its log that it is no longer than it may be.
    let _ = store.log();
    let (keeper, opening, log) = store.into_parts();
    let earlier = with_phase(earlier, opening, log, shards, histories);
    ended_between(alloc, status, keeper, earlier, written)
}

/// The end of a run that stopped before the second load, once its store was made anew.
pub(crate) fn ended_half<K: Keeper, N: Start>(
    alloc: Global,
    status: Status,
    half: Half<K, N>,
    written: u64,
) -> RunEnd<K>
    ensures status { result.status ≡ status }
    ensures opening { result.opening ≡ None }
    ensures log { result.log.items ≡ [] }
    ensures histories { result.histories.items ≡ [] }
    ensures no_ends { result.ends.items ≡ [] }
    ensures written { result.written ≡ written }
    ensures earlier { result.earlier ≡ half.earlier }
    ensures started { K.is_started result.keeper }
    ensures rows { K.rows result.keeper ≡ half.store.known_rows }
    ensures faults { K.faults result.keeper ≡ half.store.faults }
    ensures since { FailedSince N.count half.store.ledger.failed half.store.faults }
{
    let Half {
        store,
        earlier,
        spent: _,
    } = half;
    let (keeper, _, _) = store.into_parts();
    ended_between(alloc, status, keeper, earlier, written)
}

/// The end of a run that stopped between the loads: what the first left is all that it leaves.
fn ended_between<K: Keeper>(
    alloc: Global,
    status: Status,
    keeper: K,
    earlier: Vec<Phase>,
    written: u64,
) -> RunEnd<K>
    ensures status { result.status ≡ status }
    ensures opening { result.opening ≡ None }
    ensures log { result.log.items ≡ [] }
    ensures histories { result.histories.items ≡ [] }
    ensures no_ends { result.ends.items ≡ [] }
    ensures written { result.written ≡ written }
    ensures earlier { result.earlier ≡ earlier }
    ensures keeper { result.keeper ≡ keeper }
{
    let mut end = not_started(alloc, status, keeper);
    end.earlier = earlier;
    end.written = written;
    end
}

/// The status of a run that stopped for this.
pub(crate) fn stop_status(stop: Stop) -> Status
    ensures { result ≡ stop_status stop }
{
    match stop {
        Stop::WriteFault => Status::WriteFault,
        Stop::Memory => Status::Memory,
    }
}
