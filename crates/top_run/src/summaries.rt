// The summary of a load: what its histories, its log and its transcripts count, and what its audit found.
ghost use Rattle.std.specs.Prelude.{◌≡◌, ◌≤◌, ◌++◌, IfOk, OnOk, count_by, length, decimal};
ghost use Rattle.core_history.specs.Lines.{count_in};
ghost use Rattle.run_audit.specs.Findings.{histories_in, AreWhole};
ghost use Rattle.top_run.specs.Works.{test_of, bypasses_in, rejected_in, load_line, totals_line, audit_line, summary};

use gate_workers::Transcript;
use itoa::Buffer;
use key_shard::{Shard, Step};
use rows_model::{Memory, QKey};
use run_audit::Finding;
use run_inputs::WorkSpec;
use sql_keeper::Commit;
use std::alloc::Global;

/// The three lines of the summary.
pub(crate) fn summary(
    alloc: Global,
    spec: &WorkSpec,
    log: &[Commit],
    shards: &[Shard],
    others: Others,
    finding: Finding,
) -> Result<Vec<u8>, Memory>
    requires few { length shards.now ≤ 64 }
    requires whole { AreWhole shards.now }
    ensures { IfOk result (λ text. text.items ≡ summary spec.now log.now (histories_in shards.now)
        others.bypasses others.rejected finding) }
{
    let mut text = Vec::new(alloc);
    push_load(&mut text, spec)?;
    push_totals(&mut text, log, shards, others)?;
    push_audit(alloc, &mut text, finding)?;
    Ok(text)
}

/// The line of the load.
fn push_load(text: &mut Vec<u8>, spec: &WorkSpec) -> Result<(), Memory>
    ensures { OnOk result (text.new.items ≡ text.old.items ++ load_line spec.now) }
{
    push_field(text, b"work members ", spec.members as u128)?;
    push_field(text, b" sessions ", spec.sessions as u128)?;
    push_field(text, b" workers ", spec.workers as u128)?;
    push_field(text, b" shards ", spec.shards as u128)?;
    push_field(text, b" seed ", spec.seed as u128)?;
    text.push(b'\n')?;
    Ok(())
}

/// The line of the totals.
fn push_totals(
    text: &mut Vec<u8>,
    log: &[Commit],
    shards: &[Shard],
    others: Others,
) -> Result<(), Memory>
    requires few { length shards.now ≤ 64 }
    requires whole { AreWhole shards.now }
    ensures { OnOk result (text.new.items ≡ text.old.items
        ++ totals_line log.now (histories_in shards.now) others.bypasses others.rejected) }
{
    push_field(text, b"hits ", counted_in(Counted::Hit, shards))?;
    push_field(text, b" stores ", counted_in(Counted::Stored, shards))?;
    push_field(text, b" voids ", counted_in(Counted::Void, shards))?;
    push_field(text, b" agains ", counted_in(Counted::Again, shards))?;
    push_field(text, b" bypasses ", others.bypasses as u128)?;
    push_field(text, b" commits ", log.len() as u128)?;
    push_field(text, b" rejected ", others.rejected as u128)?;
    push_field(text, b" refused ", counted_in(Counted::Refused, shards))?;
    text.push(b'\n')?;
    Ok(())
}

/// The line of the audit.
fn push_audit(alloc: Global, text: &mut Vec<u8>, finding: Finding) -> Result<(), Memory>
    ensures { OnOk result (text.new.items ≡ text.old.items ++ audit_line finding) }
{
    match finding {
        Finding::Clean => push_clean(text),
        Finding::Stale { shard, place } => push_stale(text, shard, place),
        Finding::Uncovered { commit, key } => push_uncovered(alloc, text, commit, key),
    }
}

fn push_clean(text: &mut Vec<u8>) -> Result<(), Memory>
    ensures { OnOk result (text.new.items ≡ text.old.items ++ audit_line Finding.Clean) }
{
    text.extend_from_slice(b"audit clean")?;
    text.push(b'\n')?;
    Ok(())
}

fn push_stale(text: &mut Vec<u8>, shard: u32, place: u64) -> Result<(), Memory>
    ensures { OnOk result (text.new.items ≡ text.old.items
        ++ audit_line (Finding.Stale shard place)) }
{
    push_field(text, b"audit stale ", shard as u128)?;
    push_field(text, b" ", place as u128)?;
    text.push(b'\n')?;
    Ok(())
}

fn push_uncovered(alloc: Global, text: &mut Vec<u8>, commit: u64, key: QKey) -> Result<(), Memory>
    ensures { OnOk result (text.new.items ≡ text.old.items
        ++ audit_line (Finding.Uncovered commit key)) }
{
    let name = key.text(alloc)?;
    push_field(text, b"audit uncovered ", commit as u128)?;
    text.push(b' ')?;
    text.extend_from_slice(name.bytes())?;
    text.push(b'\n')?;
    Ok(())
}

/// Some words, and a number in decimal behind them.
pub(crate) fn push_field(text: &mut Vec<u8>, words: &[u8], number: u128) -> Result<(), Memory>
    ensures { OnOk result (text.new.items ≡ text.old.items ++ (words.now ++ decimal number)) }
{
    let mut buffer = Buffer::new();
    text.extend_from_slice(words)?;
    text.extend_from_slice(buffer.format(number).as_bytes())?;
    Ok(())
}

/// What only the transcripts tell: how many readers had no lease, and how many writers had a change
/// that doesn't apply.
#[derive(Clone, Copy)]
pub(crate) struct Others {
    pub(crate) bypasses: u64,
    pub(crate) rejected: u64,
}

/// The sums over all transcripts. They stop at their type's end.
pub(crate) fn others_in(transcripts: &[Transcript]) -> Others
    ensures bypasses { result.bypasses ≡ bypasses_in transcripts.now }
    ensures rejected { result.rejected ≡ rejected_in transcripts.now }
{
    let mut others = Others {
        bypasses: 0,
        rejected: 0,
    };
    for transcript in transcripts {
        let tally = transcript.tally();
        others.bypasses = others.bypasses.saturating_add(tally.bypasses);
        others.rejected = others.rejected.saturating_add(tally.rejected);
    }
    others
}

/// A kind of step that is counted.
#[derive(Clone, Copy)]
pub(crate) enum Counted {
    Hit,
    Stored,
    Void,
    Again,
    Refused,
}

/// How many steps of this kind the histories of all shards have.
fn counted_in(counted: Counted, shards: &[Shard]) -> u128
    requires few { length shards.now ≤ 64 }
    requires whole { AreWhole shards.now }
    ensures { result ≡ count_in (test_of counted) (histories_in shards.now) }
{
    let mut count = 0u128;
    for shard in shards {
        count += counted_of(counted, shard.history()) as u128;
    }
    count
}

/// How many steps of this kind a history has.
fn counted_of(counted: Counted, history: &[Step]) -> usize
    ensures { result ≡ count_by (test_of counted) history.now }
{
    history.iter().filter(|step| is_one(counted, step)).count()
}

/// Whether the step is of this kind.
fn is_one(counted: Counted, step: &Step) -> bool
    ensures { result ≡ test_of counted step.now }
{
    matches!(
        (counted, step),
        (Counted::Hit, Step::Hit { .. })
            | (Counted::Stored, Step::Stored { .. })
            | (Counted::Void, Step::Void { .. })
            | (Counted::Again, Step::Again { .. })
            | (Counted::Refused, Step::Refused { .. })
    )
}
