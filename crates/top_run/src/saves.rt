// How a server's cache is written to its file at the end.
ghost use Rattle.std.specs.Prelude.{◌≡◌, ◌≢◌, ◌≤◌, ◌++◌, ◌∷◌, [], All, IfOk, OnOk, IsSome, length};
ghost use Rattle.std.specs.Bool.{IsFalse};
ghost use Rattle.iq_outside.specs.Outside.{Rose};
ghost use Rattle.run_audit.specs.Findings.{AreNumbered};
ghost use Rattle.sql_keeper.specs.Faults.{Counts, keep_failed};
ghost use Rattle.sql_keeper.specs.Stores.{rows_of, with_call};
ghost use Rattle.top_run.specs.declared.runs.Status.{Status};
ghost use Rattle.top_run.specs.Runs.{is_file_fault, is_keep_fault};
ghost use Rattle.top_run.specs.Saves.{EndsSaved, IsCacheOf};

use crate::endings::start_status;
use crate::runs::Status;
use cache_file::{CacheFile, cache_text};
use key_shard::Shard;
use rows_model::Memory;
use shard_dump::dump_answered;
use sql_keeper::{KeepFault, Keeper, Start, Store};
use std::alloc::Global;

/// Writes the cache to its file, where one is named and all was done, and answers how the server ends then.
/// For that the store is asked for each entry. Where a call of it fails, or the cache can't be written, the
/// file has what it had.
pub(crate) fn saved<F: CacheFile, K: Keeper, N: Start>(
    alloc: Global,
    file: &mut F,
    path: &Option<Vec<u8>>,
    status: Status,
    store: &mut Store<K, N>,
    shards: &[Shard],
) -> Status
    requires few { length shards.now ≤ 64 }
    requires numbered { AreNumbered shards.now }
    requires roomy { All (λ shard. shard.terms.room ≤ 65536) shards.now }
    requires unsaved { IsFalse (is_file_fault status) }
    requires unfailed { IsFalse (is_keep_fault status) }
    ensures saves { EndsSaved path.now status result store.new.known_rows
        (rows_of store.old.ledger) shards.now (F.text_at file.old) (F.text_at file.new) }
    ensures ledger { store.new.ledger ≡ with_call (is_keep_fault result) store.old.ledger }
    ensures tells { IsSome store.new.known_rows → IsSome store.old.known_rows }
    ensures counts { Counts (is_keep_fault result) store.old.faults store.new.faults }
    ensures keeper_never_falls { store.old.faults ≤ store.new.faults }
    ensures file_fault { result ≡ Status.FileFault → Rose (F.faults file.old) (F.faults file.new) }
    ensures no_file_fault { (result ≢ Status.FileFault) → F.faults file.new ≡ F.faults file.old }
    ensures file_never_falls { F.faults file.old ≤ F.faults file.new }
{
    let (Some(path), Status::Done) = (path, status) else {
        return status;
    };
    let text = match saved_text(alloc, store, shards) {
        Ok(text) => text,
        Err(cause) => return start_status(cause),
    };
    match file.write(alloc, path.as_slice(), text.as_slice()) {
        Ok(()) => Status::Done,
        Err(_) => Status::FileFault,
    }
}

/// The text of the cache's file. The store is asked for the entries of the shards, in their order, until a
/// call of it fails.
fn saved_text<K: Keeper, N: Start>(
    alloc: Global,
    store: &mut Store<K, N>,
    shards: &[Shard],
) -> Result<Vec<u8>, KeepFault>
    requires few { length shards.now ≤ 64 }
    requires numbered { AreNumbered shards.now }
    requires roomy { All (λ shard. shard.terms.room ≤ 65536) shards.now }
    ensures text { IfOk result (λ text.
        IsCacheOf store.new.known_rows (rows_of store.old.ledger) shards.now text.items) }
    ensures ledger { store.new.ledger ≡ with_call (keep_failed result) store.old.ledger }
    ensures tells { IsSome store.new.known_rows → IsSome store.old.known_rows }
    ensures counts { Counts (keep_failed result) store.old.faults store.new.faults }
    ensures never_falls { store.old.faults ≤ store.new.faults }
{
    let mut texts = Vec::new(alloc);
    for shard in shards {
        let text = dump_answered(alloc, shard, store)?;
        push_text(&mut texts, text)?;
    }
    Ok(cache_text(alloc, texts.as_slice())?)
}

/// Puts a text behind the others.
fn push_text(texts: &mut Vec<Vec<u8>>, text: Vec<u8>) -> Result<(), Memory>
    ensures { OnOk result (texts.new.items ≡ texts.old.items ++ text ∷ []) }
{
    texts.push(text)?;
    Ok(())
}
