// How a server's cache begins: with what its file has that is right for the rows of the store, or with nothing.
ghost use Rattle.std.specs.Prelude.{◌≡◌, ◌≢◌, ◌<◌, ◌≤◌, ◌-◌, ◌^◌, ◌∷◌, [], Err, IfOk, IfErr, OnOk, length};
ghost use Rattle.cache_file.specs.Files.{SameTexts};
ghost use Rattle.cache_file.specs.Texts.{AreDumps};
ghost use Rattle.run_words.specs.Words.{IsServe};
ghost use Rattle.top_run.specs.declared.serves.ColdCause.TheVariants as why;
ghost use Rattle.top_run.specs.Begins.{AreFilledWith, HasBegun, HoldCache, HoldsAs, IsCold, IsTakenOver, StopsFilling, beginning_of, files_seen};
ghost use Rattle.top_run.specs.Serves.{BeginsBy, serve_rolls, serve_shape};
ghost use Rattle.top_run.specs.Warming.{AreToServe, AsksOn, IsEmptyFor, IsLoadedWith};
ghost use Rattle.top_run.specs.Works.{hub_terms};

use crate::hubs::LIFE;
use crate::loads::load_one;
use crate::serves::{Begun, ColdCause, ROOM};
use cache_file::{CacheFault, CacheFile, read_cache};
use iq_outside::ReadStop;
use key_shard::Shard;
use run_words::ServeSpec;
use shard_dump::{Dump, are_answers};
use shard_lock::new_shards;
use sql_keeper::{KeepFault, Keeper, Start, Store};
use std::alloc::Global;

/// The shards that a server begins with, and how: where a file is named and each row in it is right for the
/// rows of the store, these are its entries. Else the shards are these new ones.
pub(crate) fn shards_begun<F: CacheFile, K: Keeper, N: Start>(
    alloc: Global,
    spec: &ServeSpec,
    file: &mut F,
    store: &mut Store<K, N>,
    new: Vec<Shard>,
    now: u64,
) -> (Vec<Shard>, Begun)
    requires serve { IsServe spec.now }
    requires now { now < 2 ^ 64 - 1 }
    requires log { store.old.ledger.log ≡ [] }
    requires new { AreToServe (hub_terms (serve_shape spec.now) serve_rolls)
        store.old.known_rows store.old.ledger.opening new.items }
    requires as_many { length new.items ≡ spec.now.shards }
    ensures shards { AreToServe (hub_terms (serve_shape spec.now) serve_rolls)
        store.new.known_rows store.new.ledger.opening result.0.items }
    ensures as_many { length result.0.items ≡ spec.now.shards }
    ensures begins { BeginsBy spec.now.warm result.1 }
    ensures begun { HasBegun spec.now
        (beginning_of (files_seen F.CacheFile file.old) (files_seen F.CacheFile file.new)
        store.new) result.1 }
    ensures holds { HoldsAs spec.now.warm spec.now.shards (F.text_at file.old)
        result.0.items result.1 }
    ensures asks_on { AsksOn store.old store.new }
    ensures untouched { SameTexts (F.text_at file.old) (F.text_at file.new) }
{
    let Some(path) = &spec.warm else {
        return (new, Begun::New);
    };
    match shards_from(alloc, spec, file, path.as_slice(), store, now) {
        Ok((shards, rows)) => (shards, Begun::Warm { rows }),
        Err(cause) => (new, Begun::Cold { cause }),
    }
}

/// Shards with what the file at this path has, and how many entries these are; or why there are none.
fn shards_from<F: CacheFile, K: Keeper, N: Start>(
    alloc: Global,
    spec: &ServeSpec,
    file: &mut F,
    path: &[u8],
    store: &mut Store<K, N>,
    now: u64,
) -> Result<(Vec<Shard>, u64), ColdCause>
    requires serve { IsServe spec.now }
    requires now { now < 2 ^ 64 - 1 }
    requires log { store.old.ledger.log ≡ [] }
    ensures shards { IfOk result (λ made. AreToServe (hub_terms (serve_shape spec.now) serve_rolls)
        store.new.known_rows store.new.ledger.opening made.0.items) }
    ensures as_many { IfOk result (λ made. length made.0.items ≡ spec.now.shards) }
    ensures taken_over { IfOk result (λ made. IsTakenOver spec.now.shards
        (F.text_at file.old path.now) store.new.known_rows store.new.ledger.opening made.1) }
    ensures hold { IfOk result (λ made. HoldCache spec.now.shards
        (F.text_at file.old path.now) made.0.items) }
    ensures cold { IfErr result (IsCold spec.now.shards (F.text_at file.old path.now)
        (beginning_of (files_seen F.CacheFile file.old) (files_seen F.CacheFile file.new)
        store.new)) }
    ensures asks_on { AsksOn store.old store.new }
    ensures untouched { SameTexts (F.text_at file.old) (F.text_at file.new) }
    ensures no_file_fault { (result ≢ Err why.FileFault) →
        F.faults file.new ≡ F.faults file.old }
    ensures file_never_falls { F.faults file.old ≤ F.faults file.new }
{
    let text = match file.read(alloc, path) {
        Ok(Some(text)) => text,
        Ok(None) => return Err(ColdCause::NoFile),
        Err(ReadStop::Failed) => return Err(ColdCause::FileFault),
        Err(ReadStop::Memory) => return Err(ColdCause::Memory),
    };
    let dumps = match read_cache(alloc, text.as_slice(), spec.shards) {
        Ok(dumps) => dumps,
        Err(CacheFault::Bad) => return Err(ColdCause::NoCache),
        Err(CacheFault::Memory) => return Err(ColdCause::Memory),
    };
    filled_shards(alloc, spec, store, dumps, now)
}

/// New shards, each filled with the rows of the dump of its place, and how many rows these are; or why there
/// are none.
fn filled_shards<K: Keeper, N: Start>(
    alloc: Global,
    spec: &ServeSpec,
    store: &mut Store<K, N>,
    dumps: Vec<Dump>,
    now: u64,
) -> Result<(Vec<Shard>, u64), ColdCause>
    requires serve { IsServe spec.now }
    requires now { now < 2 ^ 64 - 1 }
    requires log { store.old.ledger.log ≡ [] }
    requires dumps { AreDumps spec.now.shards dumps.items }
    ensures shards { IfOk result (λ made. AreToServe (hub_terms (serve_shape spec.now) serve_rolls)
        store.new.known_rows store.new.ledger.opening made.0.items) }
    ensures as_many { IfOk result (λ made. length made.0.items ≡ spec.now.shards) }
    ensures filled { IfOk result (λ made. AreFilledWith dumps.items
        store.new.known_rows store.new.ledger.opening made.0.items made.1) }
    ensures stopped { IfErr result (StopsFilling store.new dumps.items) }
    ensures asks_on { AsksOn store.old store.new }
{
    let Ok(mut empty) = new_shards(alloc, spec.shards, ROOM, LIFE, true) else {
        return Err(ColdCause::Memory);
    };
    let Ok(mut filled) = Vec::with_capacity(alloc, empty.len()) else {
        return Err(ColdCause::Memory);
    };
    let mut dumps = dumps;
    let mut rows: u64 = 0;
    while !empty.is_empty() {
        let shard = empty.remove(0);
        let dump = dumps.remove(0);
        rows = rows.saturating_add(dump.rows.as_slice().len() as u64);
        match filled_shard(store, shard, dump, now) {
            Ok(shard) => filled.push_reserved(shard),
            Err(cause) => return Err(cause),
        }
    }
    Ok((filled, rows))
}

/// The shard, once it has the rows of this dump for its entries; or why it hasn't.
fn filled_shard<K: Keeper, N: Start>(
    store: &mut Store<K, N>,
    shard: Shard,
    dump: Dump,
    now: u64,
) -> Result<Shard, ColdCause>
    requires now { now < 2 ^ 64 - 1 }
    requires log { store.old.ledger.log ≡ [] }
    requires empty { IsEmptyFor dump shard }
    ensures filled { IfOk result (IsLoadedWith store.new.known_rows store.new.ledger.opening
        dump.rows shard) }
    ensures room { OnOk result (length dump.rows ≤ 4096) }
    ensures stopped { IfErr result (StopsFilling store.new (dump ∷ [])) }
    ensures asks_on { AsksOn store.old store.new }
{
    let rows = dump.rows;
    if rows.as_slice().len() > ROOM as usize {
        return Err(ColdCause::NoCache);
    }
    match are_answers(store, rows.as_slice()) {
        Ok(true) => {}
        Ok(false) => return Err(ColdCause::OtherRows),
        Err(KeepFault::Failed) => return Err(ColdCause::StoreFault),
        Err(KeepFault::Memory) => return Err(ColdCause::Memory),
    }
    match load_one(store, shard, rows.into_rows(), now) {
        Ok(shard) => Ok(shard),
        Err(_) => Err(ColdCause::Memory),
    }
}
