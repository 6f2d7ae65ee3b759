ghost use Rattle.std.specs.Prelude.{◌≡◌, OnOk, IfOk, All, if◌then◌else◌, Some};
ghost use Rattle.std.specs.Option.{option_copied};
ghost use Rattle.rows_model.specs.declared.keys.QKey.{QKey};
ghost use Rattle.rows_model.specs.Key.{same_key};
ghost use Rattle.rows_model.specs.Changes.{has_key};
ghost use Rattle.run_audit.specs.Findings.{histories_in, AreWhole};
ghost use Rattle.run_audit.specs.Answers.{noted, pushed, renewed, value_at, AreOpening, Keeps, Knows, InOrder, InTurn};

use key_shard::{Shard, Step};
use rows_model::{Memory, QKey, Rows, Txn, Value, ask, refresh};
use std::alloc::Global;
use std::collections::BTreeMap;

/// What a key was answered from so many commits on, until its next version.
#[derive(Drop)]
pub struct Version {
    pub from: u64,
    pub value: Value,
}

/// The versions of keys' answers, the earliest first.
pub type Answers = BTreeMap<QKey, Vec<Version>>;

/// The opening answers of the keys that are hit in these shards.
pub fn opening_answers(alloc: Global, opening: &Rows, shards: &[Shard]) -> Result<Answers, Memory>
    requires { AreWhole shards.now }
    ensures opening { IfOk result (λ answers. AreOpening opening.now answers) }
    ensures knows { IfOk result (λ answers.
        All (λ history. All (λ step. Knows answers step) history) (histories_in shards.now)) }
{
    let mut answers = BTreeMap::new(alloc);
    for shard in shards {
        note_hits(alloc, opening, shard.history(), &mut answers)?;
    }
    Ok(answers)
}

/// Notes the opening answers of the keys that are hit in a history.
fn note_hits(
    alloc: Global,
    opening: &Rows,
    history: &[Step],
    answers: &mut Answers,
) -> Result<(), Memory>
    requires { AreOpening opening.now answers.old }
    ensures opening { OnOk result (AreOpening opening.now answers.new) }
    ensures keeps { OnOk result (Keeps answers.old answers.new) }
    ensures knows { OnOk result (All (λ step. Knows answers.new step) history.now) }
{
    for step in history {
        note_hit(alloc, opening, step, answers)?;
    }
    Ok(())
}

/// Notes the opening answer of the key that is hit, unless it is noted.
fn note_hit(alloc: Global, opening: &Rows, step: &Step, answers: &mut Answers) -> Result<(), Memory>
    requires { AreOpening opening.now answers.old }
    ensures opening { OnOk result (AreOpening opening.now answers.new) }
    ensures keeps { OnOk result (Keeps answers.old answers.new) }
    ensures knows { OnOk result (Knows answers.new step.now) }
{
    if let Step::Hit { key, .. } = step
        && !answers.contains_key(key)
    {
        let value = ask(alloc, opening, key)?;
        answers.insert(*key, vec![in alloc; Version { from: 0, value }]?)?;
    }
    Ok(())
}

/// Notes what the keys are answered from so many commits on, where this transaction led to these
/// rows. Keys that aren't noted stay so.
pub fn note_keys(
    alloc: Global,
    rows: &Rows,
    txn: &Txn,
    keys: &[QKey],
    from: u64,
    answers: &mut Answers,
) -> Result<(), Memory>
    requires { InOrder keys.now }
    ensures { OnOk result ((key : QKey) → noted key answers.new ≡ (if has_key key keys.now
        then pushed from (renewed key txn.now rows.now) (noted key answers.old)
        else noted key answers.old)) }
{
    for key in keys {
        note_key(alloc, rows, txn, key, from, answers)?;
    }
    Ok(())
}

/// Notes what the key is answered from so many commits on, if it is noted.
fn note_key(
    alloc: Global,
    rows: &Rows,
    txn: &Txn,
    key: &QKey,
    from: u64,
    answers: &mut Answers,
) -> Result<(), Memory>
    ensures { OnOk result ((other : QKey) → noted other answers.new ≡ (if same_key other key.now
        then pushed from (renewed other txn.now rows.now) (noted other answers.old)
        else noted other answers.old)) }
{
    if let Some(versions) = answers.get_mut(key) {
        let value = renewed(alloc, rows, txn, key, versions.as_slice())?;
        versions.push(Version { from, value })?;
    }
    Ok(())
}

/// The last value of the key, refreshed by the transaction, which takes no look at the rows. They
/// are asked only where that gives none.
fn renewed(
    alloc: Global,
    rows: &Rows,
    txn: &Txn,
    key: &QKey,
    versions: &[Version],
) -> Result<Value, Memory>
    ensures { IfOk result (λ value. value ≡ renewed key.now txn.now rows.now versions.now) }
{
    let Some(last) = versions.last() else {
        return ask(alloc, rows, key);
    };
    match refresh(alloc, key, &last.value, txn)? {
        Some(value) => Ok(value),
        None => ask(alloc, rows, key),
    }
}

/// The value of the last version from at most so many commits on, of versions in order.
pub fn value_after(versions: &[Version], count: u64) -> Option<&Value>
    ensures { InTurn versions.now → option_copied result ≡ value_at count versions.now }
{
    let place = versions.partition_point(|version| version.from <= count);
    if place == 0 {
        return None;
    }
    Some(&versions[place - 1].value)
}
