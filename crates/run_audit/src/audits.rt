ghost use Rattle.std.specs.Prelude.{◌≡◌, ◌≤◌, ◌↔◌, List, IfOk, All, length};
ghost use Rattle.rows_model.specs.Rows.{Tables};
ghost use Rattle.sql_keeper.specs.declared.stores.Commit.{Commit};
ghost use Rattle.sql_keeper.specs.Fresh.{Fresh, Covered};
ghost use Rattle.run_audit.specs.Answers.{Knows};
ghost use Rattle.run_audit.specs.Notes.{AreNotes};
ghost use Rattle.run_audit.specs.Findings.{histories_in, AreNumbered, AreWhole, IsFinding, IsFoundIn};

use crate::covers::first_gap;
use crate::findings::Finding;
use crate::grants::grants_in;
use crate::notes::{Notes, notes_of};
use crate::stales::first_stale;
use key_shard::Shard;
use rows_model::{Memory, Rows};
use sql_keeper::Commit;
use std::alloc::Global;

/// Audits a run by the rows that it began with, its log and its shards. `Clean` comes exactly where
/// each commit is covered and each hit is fresh; else the finding is the first commit that isn't
/// covered, or where all are, the first hit that isn't fresh. Each shard is whole, so that its history is
/// there to be read.
pub fn audit(
    alloc: Global,
    opening: &Rows,
    log: &[Commit],
    shards: &[Shard],
) -> Result<Finding, Memory>
    requires some { 1 ≤ length shards.now }
    requires numbered { AreNumbered shards.now }
    requires whole { AreWhole shards.now }
    ensures clean { IfOk result (λ finding. finding ≡ Finding.Clean ↔
        Covered log.now (histories_in shards.now)
        × Fresh opening.now log.now (histories_in shards.now)) }
    ensures first { IfOk result (IsFinding opening.now log.now (histories_in shards.now)) }
{
    let grants = grants_in(alloc, shards)?;
    if let Some(gap) = first_gap(alloc, log, &grants)? {
        return Ok(Finding::Uncovered {
            commit: gap.commit,
            key: gap.key,
        });
    }
    let notes = notes_of(alloc, opening, log, shards)?;
    stale_or_clean(alloc, &notes, shards)
}

/// The first hit of these shards that isn't fresh, or that each is.
fn stale_or_clean(alloc: Global, notes: &Notes, shards: &[Shard]) -> Result<Finding, Memory>
    requires numbered { AreNumbered shards.now }
    requires whole { AreWhole shards.now }
    requires knows { All (λ history. All (λ step. Knows notes.now.answers step) history)
        (histories_in shards.now) }
    ensures { (opening : Tables) (log : List Commit) → AreNotes opening log notes.now
        → IfOk result (IsFoundIn opening log (histories_in shards.now)) }
{
    for (no, shard) in shards.iter().enumerate() {
        if let Some(place) = first_stale(alloc, notes, shard.history())? {
            return Ok(Finding::Stale {
                shard: no as u32,
                place,
            });
        }
    }
    Ok(Finding::Clean)
}
