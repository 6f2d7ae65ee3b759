ghost use Rattle.std.specs.Prelude.{◌≡◌, ◌^◌, ◌<◌, ◌+◌, ◌++◌, ◌∷◌, [], List, OnOk, IfOk, All};
ghost use Rattle.rows_model.specs.Rows.{Tables};
ghost use Rattle.sql_keeper.specs.declared.stores.Commit.{Commit};
ghost use Rattle.sql_keeper.specs.Log.{rows_after};
ghost use Rattle.run_audit.specs.Findings.{histories_in, AreWhole};
ghost use Rattle.run_audit.specs.Answers.{Knows, KnowsTheSame};
ghost use Rattle.run_audit.specs.Notes.{AreNotes, IsLed};

use crate::answers::{Answers, note_keys, opening_answers};
use crate::numbers::{Numbers, note_number};
use key_shard::Shard;
use rows_model::{ApplyFault, Memory, Rows, footprint};
use sql_keeper::Commit;
use std::alloc::Global;
use std::collections::BTreeMap;

/// What an audit knows of a log: the answers of keys after each of its commits, the number of each
/// session's last commit on each key, and how many commits there are.
#[derive(Drop)]
pub struct Notes {
    pub answers: Answers,
    pub numbers: Numbers,
    pub count: u64,
}

/// What is to be known of the log, for the keys that are hit in these shards.
pub fn notes_of(
    alloc: Global,
    opening: &Rows,
    log: &[Commit],
    shards: &[Shard],
) -> Result<Notes, Memory>
    requires { AreWhole shards.now }
    ensures notes { IfOk result (λ notes. AreNotes opening.now log.now notes) }
    ensures knows { IfOk result (λ notes.
        All (λ history. All (λ step. Knows notes.answers step) history) (histories_in shards.now)) }
{
    let mut notes = Notes {
        answers: opening_answers(alloc, opening, shards)?,
        numbers: BTreeMap::new(alloc),
        count: 0,
    };
    let mut rows = opening.copy()?;
    for commit in log {
        let is_made = make(&mut rows, commit)?;
        notes.add(alloc, &rows, commit, is_made)?;
    }
    Ok(notes)
}

/// Makes the commit, and says whether it applies.
fn make(rows: &mut Rows, commit: &Commit) -> Result<bool, Memory>
    ensures { IfOk result (λ is_made. IsLed is_made commit.now rows.old rows.new) }
{
    // That the rows are fit, and the ids of the changes, are clauses of their readers.
    let _members = rows.members();
    let _changes = commit.txn.changes();
    match rows.apply(&commit.txn) {
        Ok(()) => Ok(true),
        Err(ApplyFault::Rejected { .. }) => Ok(false),
        Err(ApplyFault::Memory) => Err(Memory),
    }
}

impl Notes {
    /// Notes one commit more, which led to these rows, and whether it was made.
    fn add(
        &mut self,
        alloc: Global,
        rows: &Rows,
        commit: &Commit,
        is_made: bool,
    ) -> Result<(), Memory>
        requires { self.old.count + 1 < 2 ^ 64 }
        ensures notes { (opening : Tables) (log : List Commit) → AreNotes opening log self.old
            → IsLed is_made commit.now (rows_after opening log) rows.now
            → OnOk result (AreNotes opening (log ++ commit.now ∷ []) self.new) }
        ensures count { OnOk result (self.new.count ≡ self.old.count + 1) }
        ensures knows { OnOk result (KnowsTheSame self.old.answers self.new.answers) }
    {
        let keys = footprint(alloc, &commit.txn)?;
        self.count += 1;
        note_number(&mut self.numbers, commit.sid, keys.as_slice(), self.count)?;
        if !is_made {
            return Ok(());
        }
        note_keys(
            alloc,
            rows,
            &commit.txn,
            keys.as_slice(),
            self.count,
            &mut self.answers,
        )
    }
}
