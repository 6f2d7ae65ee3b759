ghost use Rattle.std.specs.Prelude.{◌≡◌, ◌↔◌, ◌&&◌, nat_le, List, IfOk, IfSome, Some, IsTrue, MatchOption, All, reverse};
ghost use Rattle.rows_model.specs.Rows.{Tables};
ghost use Rattle.key_shard.specs.declared.steps.Step.{Step};
ghost use Rattle.sql_keeper.specs.declared.stores.Commit.{Commit};
ghost use Rattle.sql_keeper.specs.Fresh.{IsFreshStep, IsFreshPast};
ghost use Rattle.run_audit.specs.Answers.{Knows, InTurn, noted, value_at};
ghost use Rattle.run_audit.specs.Notes.{AreNotes};
ghost use Rattle.run_audit.specs.Numbers.{AreFloors, floor_of};
ghost use Rattle.run_audit.specs.Findings.{IsFirstStaleIn};

use crate::answers::value_after;
use crate::floors::{Floors, floor_at, raise_floor};
use crate::notes::Notes;
use key_shard::Step;
use rows_model::{Memory, QKey, Value};
use std::alloc::Global;
use std::collections::BTreeMap;

/// The place of the first hit in a history that isn't fresh.
pub fn first_stale(alloc: Global, notes: &Notes, history: &[Step]) -> Result<Option<u64>, Memory>
    requires { All (λ step. Knows notes.now.answers step) history.now }
    ensures { (opening : Tables) (log : List Commit) → AreNotes opening log notes.now
        → IfOk result (λ found. MatchOption found (IsFreshPast opening log (reverse history.now))
        (λ place. IsFirstStaleIn opening log history.now place)) }
{
    let mut floors = BTreeMap::new(alloc);
    for (place, step) in history.iter().enumerate() {
        if !is_fresh(notes, &floors, step) {
            return Ok(Some(place as u64));
        }
        raise_floor(&mut floors, &notes.numbers, step)?;
    }
    Ok(None)
}

/// Whether a step is fresh, with these floors after the steps before it.
fn is_fresh(notes: &Notes, floors: &Floors, step: &Step) -> bool
    requires { Knows notes.now.answers step.now }
    ensures { (opening : Tables) (log : List Commit) (past : List Step)
        → AreNotes opening log notes.now → AreFloors log past floors.now
        → IsTrue result ↔ IsFreshStep opening log past step.now }
{
    match step {
        Step::Hit {
            key,
            value,
            stamp,
            ..
        } => is_current(notes, floors, key, *stamp) && answers_so(notes, key, *stamp, value),
        _ => true,
    }
}

/// Whether there are so many commits, and no fewer than the key's floor.
fn is_current(notes: &Notes, floors: &Floors, key: &QKey, stamp: u64) -> bool
    ensures { result ≡ (nat_le stamp notes.now.count
        && nat_le (floor_of key.now floors.now) stamp) }
{
    stamp <= notes.count && floor_at(floors, key) <= stamp
}

/// Whether this is what the key is answered after so many commits.
fn answers_so(notes: &Notes, key: &QKey, count: u64, value: &Value) -> bool
    ensures { IfSome (noted key.now notes.now.answers) (λ versions. InTurn versions →
        IsTrue result ↔ value_at count versions ≡ Some value.now) }
{
    notes
        .answers
        .get(key)
        .and_then(|versions| value_after(versions.as_slice(), count))
        .is_some_and(|answer| answer == value)
}
