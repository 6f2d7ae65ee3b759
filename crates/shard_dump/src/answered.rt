// The dump of a shard beside a store that is asked for each entry.
ghost use Rattle.std.specs.Prelude.{◌≡◌, ◌<◌, ◌≤◌, ◌^◌, ◌++◌, ◌∷◌, [], true, Ok, length, IfOk, OnOk, IsSome, All};
ghost use Rattle.key_shard.specs.Past.{order};
ghost use Rattle.key_shard.specs.Answers.{Legal};
ghost use Rattle.key_shard.specs.Shards.{past_of};
ghost use Rattle.sql_keeper.specs.Faults.{keep_failed, Counts};
ghost use Rattle.sql_keeper.specs.Stores.{rows_of, with_call};
ghost use Rattle.shard_dump.specs.Answered.{AreAmong, IsAnsweredText, answered_rows, entry_rows, is_answered, may_stand};

use crate::heads::{Head, MOST_BYTES};
use crate::rows::DumpRow;
use crate::texts::text_of;
use key_shard::Shard;
use rows_model::Memory;
use sql_keeper::{KeepFault, Keeper, Start, Store};
use std::alloc::Global;

/// The text of the shard's entries, the least recent first. The store is asked for the key of each entry
/// that may stand there: its key has an id from 1, its value has at most 1,048,576 bytes. The entry is in
/// the text exactly where its value is what the store answers. So no log is needed. The shard stays as it
/// is.
///
/// The first call of the store that fails is handed on, and is counted by the store.
pub fn dump_answered<K: Keeper, N: Start>(
    alloc: Global,
    shard: &Shard,
    store: &mut Store<K, N>,
) -> Result<Vec<u8>, KeepFault>
    requires one_of { shard.now.terms.no < shard.now.terms.count }
    requires few { shard.now.terms.count ≤ 64 }
    requires roomy { shard.now.terms.room ≤ 65536 }
    ensures text { IfOk result (λ text.
        IsAnsweredText store.new.known_rows (rows_of store.old.ledger) shard.now text.items) }
    ensures ledger { store.new.ledger ≡ with_call (keep_failed result) store.old.ledger }
    ensures tells { IsSome store.new.known_rows → IsSome store.old.known_rows }
    ensures counts { Counts (keep_failed result) store.old.faults store.new.faults }
    ensures never_falls { store.old.faults ≤ store.new.faults }
{
    let rows = rows_answered(alloc, shard, store)?;
    let head = Head {
        shard: shard.no(),
        count: shard.count(),
        rows: rows.len() as u32,
    };
    Ok(text_of(alloc, head, rows.as_slice())?)
}

// The rows of the entries that the store answers so.
fn rows_answered<K: Keeper, N: Start>(
    alloc: Global,
    shard: &Shard,
    store: &mut Store<K, N>,
) -> Result<Vec<DumpRow>, KeepFault>
    ensures among { IfOk result (λ rows. AreAmong rows.items (entry_rows (past_of shard.now))) }
    ensures right { IsSome store.new.known_rows → IfOk result (λ rows.
        rows.items ≡ answered_rows (rows_of store.old.ledger) (past_of shard.now)) }
    ensures few { IfOk result (λ rows. length rows.items ≤ length (order (past_of shard.now))) }
    ensures stand { IfOk result (λ rows. All (λ row. may_stand row ≡ true) rows.items) }
    ensures ids { IfOk result (λ rows. All (λ row. row.key.id < 2 ^ 32) rows.items) }
    ensures legal { OnOk result (Legal shard.now.terms shard.now.history) }
    ensures ledger { store.new.ledger ≡ with_call (keep_failed result) store.old.ledger }
    ensures tells { IsSome store.new.known_rows → IsSome store.old.known_rows }
    ensures counts { Counts (keep_failed result) store.old.faults store.new.faults }
    ensures never_falls { store.old.faults ≤ store.new.faults }
{
    // That the history is legal is a clause of its reader.
    let _history = shard.history();
    let mut entries = shard.entries()?;
    let mut rows = Vec::new(alloc);
    while let Some((key, value, _stamp)) = entries.pop() {
        let row = DumpRow { key, value };
        if is_answered(&row, store)? {
            push_row(&mut rows, row)?;
        }
    }
    Ok(rows)
}

// Puts a row behind the others.
fn push_row(rows: &mut Vec<DumpRow>, row: DumpRow) -> Result<(), Memory>
    ensures { OnOk result (rows.new.items ≡ rows.old.items ++ row ∷ []) }
{
    rows.push(row)?;
    Ok(())
}

// Whether the row may stand in a dump, and its value is what the store answers to its key. One that may
// not isn't asked for.
fn is_answered<K: Keeper, N: Start>(
    row: &DumpRow,
    store: &mut Store<K, N>,
) -> Result<bool, KeepFault>
    ensures stands { result ≡ Ok true → may_stand row.now ≡ true }
    ensures right { IsSome store.new.known_rows → IfOk result (λ dumped.
        dumped ≡ is_answered (rows_of store.old.ledger) row.now) }
    ensures ledger { store.new.ledger ≡ with_call (keep_failed result) store.old.ledger }
    ensures tells { IsSome store.new.known_rows → IsSome store.old.known_rows }
    ensures counts { Counts (keep_failed result) store.old.faults store.new.faults }
    ensures never_falls { store.old.faults ≤ store.new.faults }
{
    if row.key.id < 1 || row.value.bytes().len() as u64 > MOST_BYTES {
        return Ok(false);
    }
    let answer = store.ask(&row.key)?;
    Ok(row.value.bytes() == answer.value.bytes())
}
