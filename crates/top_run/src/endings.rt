// How a run ends, and what it leaves.
ghost use Rattle.std.specs.Prelude.{◌≡◌, ◌≤◌, ◌++◌, [], ℕ, List, Option, Some, None, Result, map, length, vec_len, vec_capacity};
ghost use Rattle.run_audit.specs.Findings.{AreWhole};
ghost use Rattle.core_history.specs.Cores.{Origin, HasKept, IsSound, shards_in, histories_in};
ghost use Rattle.core_history.specs.Machine.{Move};
ghost use Rattle.top_run.specs.Plays.{status_of, start_status};
ghost use Rattle.top_run.specs.Runs.{histories_at, kept_in};

use crate::plays::{Stop, Tally};
use crate::runs::{RunEnd, Status};
use core_history::Core;
use key_shard::{Shard, Step};
use sql_keeper::{CommitLog, KeepFault, Keeper};
use std::alloc::Global;

/// The end of a run before it began.
pub(crate) fn not_started<K: Keeper>(alloc: Global, status: Status, keeper: K) -> RunEnd<K>
    ensures status { result.status ≡ status }
    ensures keeper { result.keeper ≡ keeper }
    ensures opening { result.opening ≡ None }
    ensures log { result.log.items ≡ [] }
    ensures histories { result.histories.items ≡ [] }
    ensures ends { result.ends.items ≡ [] }
    ensures earlier { result.earlier.items ≡ [] }
    ensures written { result.written ≡ 0 }
{
    RunEnd {
        status,
        keeper,
        opening: None,
        log: CommitLog::new(alloc, true),
        histories: Vec::new(alloc),
        ends: Vec::new(alloc),
        earlier: Vec::new(alloc),
        written: 0,
    }
}

/// The end of a run that began, with room for its histories.
pub(crate) fn ended_run<K: Keeper>(
    alloc: Global,
    core: Core<K>,
    ended: Result<(), Stop>,
    tally: Tally,
    histories: Vec<Vec<Step>>,
) -> RunEnd<K>
    requires none { histories.items ≡ [] }
    requires room { shards_in core ≤ vec_capacity histories }
    requires whole { AreWhole core.shards }
    ensures status { result.status ≡ status_of ended tally.faulted }
    ensures started { K.is_started result.keeper }
    ensures rows { K.rows result.keeper ≡ core.store.known_rows }
    ensures faults { K.faults result.keeper ≡ core.store.faults }
    ensures opening { result.opening ≡ Some core.store.ledger.opening }
    ensures log { result.log.items ≡ core.store.ledger.log }
    ensures histories { histories_at result ≡ histories_in core }
    ensures ends { result.ends.items ≡ [] }
    ensures earlier { result.earlier.items ≡ [] }
    ensures written { result.written ≡ tally.written }
    ensures sound { (origin : Origin) (moves : List Move) →
        HasKept core origin moves → IsSound core origin moves }
{
    let status = end_status(ended, tally.faulted);
    let (keeper, opening, log, shards) = core.into_parts();
    RunEnd {
        status,
        keeper,
        opening: Some(opening),
        log,
        histories: histories_of(shards, histories),
        ends: Vec::new(alloc),
        earlier: Vec::new(alloc),
        written: tally.written,
    }
}

/// The steps that the shards have in memory, in their order, put where there is room for them: of whole
/// shards their histories.
pub(crate) fn histories_of(shards: Vec<Shard>, room: Vec<Vec<Step>>) -> Vec<Vec<Step>>
    requires none { room.items ≡ [] }
    requires room { vec_len shards ≤ vec_capacity room }
    ensures steps { map (λ history. history.items) result.items ≡ kept_in shards.items }
    ensures whole { AreWhole shards.items → map (λ history. history.items) result.items ≡
        map (λ shard. shard.history) shards.items }
{
    let mut shards = shards;
    let mut histories = room;
    while !shards.is_empty() {
        let shard = shards.remove(0);
        histories.push_reserved(shard.take_history());
    }
    histories
}

/// The status of a run that ended so.
fn end_status(ended: Result<(), Stop>, faulted: bool) -> Status
    ensures { result ≡ status_of ended faulted }
{
    match ended {
        Ok(()) if faulted => Status::KeepFault,
        Ok(()) => Status::Done,
        Err(Stop::WriteFault) => Status::WriteFault,
        Err(Stop::Memory) => Status::Memory,
    }
}

/// The status of a run whose keeper didn't start.
pub(crate) fn start_status(cause: KeepFault) -> Status
    ensures { result ≡ start_status cause }
{
    match cause {
        KeepFault::Failed => Status::KeepFault,
        KeepFault::Memory => Status::Memory,
    }
}
