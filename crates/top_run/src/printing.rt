// What is printed, and how much of it.
ghost use Rattle.std.specs.Prelude.{◌≡◌, ◌≤◌, ◌++◌, ◌∷◌, [], ℕ, List, Option, Result, OnOk, OnErr, IfOk, Err, count_by, decimal};
ghost use Rattle.iq_outside.specs.Outside.{Rose};
ghost use Rattle.core_history.specs.Cores.{Origin, HasKept, shards_in, histories_in};
ghost use Rattle.core_history.specs.Lines.{end_line, count_in, is_hit, is_stored, is_again};
ghost use Rattle.core_history.specs.Machine.{Move};
ghost use Rattle.top_run.specs.Runs.{Prints};

use core_history::Core;
use iq_outside::{Short, Sink, write_all};
use itoa::Buffer;
use key_shard::Step;
use rows_model::Memory;
use sql_keeper::Keeper;
use std::alloc::Global;

/// Writes all bytes and counts those that were taken. The count stands still at its type's end.
pub(crate) fn print<W: Sink>(sink: &mut W, written: &mut u64, bytes: &[u8]) -> Result<(), Short>
    ensures all { (taken : Option (List ℕ)) (printed : List ℕ) →
        Prints taken (W.taken sink.old) printed written.old →
        OnOk result (Prints taken (W.taken sink.new) (printed ++ bytes.now) written.new) }
    ensures some { (taken : Option (List ℕ)) (printed : List ℕ) →
        Prints taken (W.taken sink.old) printed written.old →
        OnErr result ((front : List ℕ) × (rest : List ℕ) × (front ++ rest ≡ bytes.now) ×
        Prints taken (W.taken sink.new) (printed ++ front) written.new) }
    ensures failed_rose { OnErr result (Rose (W.faults sink.old) (W.faults sink.new)) }
    ensures no_fault { OnOk result (W.faults sink.new ≡ W.faults sink.old) }
    ensures never_falls { W.faults sink.old ≤ W.faults sink.new }
{
    match write_all(sink, bytes) {
        Ok(()) => {
            *written = written.saturating_add(bytes.len() as u64);
            Ok(())
        }
        Err(short) => {
            *written = written.saturating_add(short.written as u64);
            Err(short)
        }
    }
}

/// The last line: how many transactions were committed, and how many hits, stored values and refused
/// gets the histories have. It is so of a core that has kept all of it, as each does.
pub(crate) fn last_line<K: Keeper>(alloc: Global, core: &Core<K>) -> Result<Vec<u8>, Memory>
    requires { shards_in core.now ≤ 64 }
    ensures { (origin : Origin) (moves : List Move) → HasKept core.now origin moves →
        IfOk result (λ text.
        text.items ≡ end_line core.now.store.ledger.log (histories_in core.now)) }
{
    let counts = counts_in(core);
    let mut text = Vec::from_slice(alloc, b"end commits ")?;
    push_number(&mut text, core.log().len() as u128)?;
    text.extend_from_slice(b" hits ")?;
    push_number(&mut text, counts.hits)?;
    text.extend_from_slice(b" stores ")?;
    push_number(&mut text, counts.stores)?;
    text.extend_from_slice(b" agains ")?;
    push_number(&mut text, counts.agains)?;
    text.push(b'\n')?;
    Ok(text)
}

fn push_number(text: &mut Vec<u8>, number: u128) -> Result<(), Memory>
    ensures { OnOk result (text.new.items ≡ text.old.items ++ decimal number) }
{
    let mut buffer = Buffer::new();
    text.extend_from_slice(buffer.format(number).as_bytes())?;
    Ok(())
}

/// How many hits, stored values and refused gets there are.
#[derive(Clone, Copy)]
struct Counts {
    hits: u128,
    stores: u128,
    agains: u128,
}

/// What is counted in the histories of all shards.
fn counts_in<K: Keeper>(core: &Core<K>) -> Counts
    requires { shards_in core.now ≤ 64 }
    ensures hits { result.hits ≡ count_in is_hit (histories_in core.now) }
    ensures stores { result.stores ≡ count_in is_stored (histories_in core.now) }
    ensures agains { result.agains ≡ count_in is_again (histories_in core.now) }
{
    let mut counts = Counts {
        hits: 0,
        stores: 0,
        agains: 0,
    };
    for shard in 0..core.shards() as u32 {
        let history = core.history(shard);
        counts.hits += hits_in(history) as u128;
        counts.stores += stores_in(history) as u128;
        counts.agains += agains_in(history) as u128;
    }
    counts
}

fn hits_in(history: &[Step]) -> usize
    ensures { result ≡ count_by is_hit history.now }
{
    history.iter().filter(|step| is_hit(step)).count()
}

fn stores_in(history: &[Step]) -> usize
    ensures { result ≡ count_by is_stored history.now }
{
    history.iter().filter(|step| is_stored(step)).count()
}

fn agains_in(history: &[Step]) -> usize
    ensures { result ≡ count_by is_again history.now }
{
    history.iter().filter(|step| is_again(step)).count()
}

fn is_hit(step: &Step) -> bool
    ensures { result ≡ is_hit step.now }
{
    matches!(step, Step::Hit { .. })
}

fn is_stored(step: &Step) -> bool
    ensures { result ≡ is_stored step.now }
{
    matches!(step, Step::Stored { .. })
}

fn is_again(step: &Step) -> bool
    ensures { result ≡ is_again step.now }
{
    matches!(step, Step::Again { .. })
}
