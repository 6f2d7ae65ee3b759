ghost use Rattle.std.specs.Prelude.{◌≡◌, ◌≢◌, ◌≤◌, ◌<◌, ◌-◌, ◌^◌, ◌∷◌, [], AllPairs, length, IfOk, IfErr, IfSome, IfNone, OnOk, OnErr, IsSome, IsTrue, None, false};
ghost use Rattle.key_shard.specs.Answers.{IsAtHome};
ghost use Rattle.key_shard.specs.Past.{evicts, next_token, order, recorded};
ghost use Rattle.lease_table.specs.Leases.{is_current};
ghost use Rattle.key_shard.specs.Shards.{past_of};
ghost use Rattle.sql_keeper.specs.Stores.{with_session};
ghost use Rattle.shard_dump.specs.Loads.{AreAnswers, AreAtHome, AreRight, HasGained, HasLoaded, HasTokens, IsBlank, IsEmpty, IsFirstStranger, StopsLease, StopsRow, StopsShard, StopsStore, first_lease, last_session, steps_for, store_of};

use crate::faults::LoadFault;
use crate::rows::DumpRow;
use key_shard::{Got, SetAnswer, Shard, ShardFault};
use rows_model::{Memory, QKey, Sid, Value};
use sql_keeper::{Keeper, Start, Store};

/// Loads rows into a shard that has no entry and no lease, beside a store whose log is empty, and answers
/// how many there are. One session begins to read. For each row in order it gets the key, and sets the
/// value under the lease that it is given, with stamp 0. So the entries are the rows, the last one in front.
///
/// That a key is another shard's is told before all, and nothing has changed then. After `Spent` and
/// `Memory` the rows before stay loaded, and the session has begun, unless memory ran out for itself.
pub fn load<K: Keeper, N: Start>(
    store: &mut Store<K, N>,
    shard: &mut Shard,
    rows: Vec<DumpRow>,
    now: u64,
) -> Result<u64, LoadFault>
    requires lively { 1 ≤ shard.old.terms.life }
    requires now { now < 2 ^ 64 - 1 }
    requires log { store.old.ledger.log ≡ [] }
    requires empty { IsEmpty shard.old }
    requires differ { AllPairs (λ row later. row.key ≢ later.key) rows.items }
    requires few { length rows.items ≤ shard.old.terms.room }
    requires answers { AreAnswers store.old.known_rows store.old.ledger.opening rows.items }
    ensures count { IfOk result (λ count. count ≡ length rows.items) }
    ensures loaded { OnOk result
        (HasLoaded (last_session store.new) now rows.items shard.old shard.new) }
    ensures home { OnOk result (AreAtHome shard.old rows.items) }
    ensures tokens { OnOk result (HasTokens shard.old rows.items) }
    ensures reader { OnOk result (store.new.ledger ≡ with_session false store.old.ledger) }
    ensures right { IsSome store.new.known_rows → OnOk result
        (AreRight store.new.ledger.opening (past_of shard.new)) }
    ensures keeper { (store.new.known_rows ≡ store.old.known_rows) × (store.new.faults ≡ store.old.faults) }
    ensures shard { IfErr result
        (StopsShard (last_session store.new) now rows.items shard.old shard.new) }
    ensures store { IfErr result (StopsStore store.old store.new) }
{
    if let Some(row) = stranger_in(shard, rows.as_slice()) {
        return Err(LoadFault::Stranger { row: row as u64 });
    }
    let count = rows.len() as u64;
    let who = store.begin(false)?;
    load_rows(shard, who, rows, now)?;
    Ok(count)
}

// The place of the first row whose key is another shard's.
fn stranger_in(shard: &Shard, rows: &[DumpRow]) -> Option<usize>
    ensures found { IfSome result (IsFirstStranger shard.now rows.now) }
    ensures none { IfNone result (AreAtHome shard.now rows.now) }
{
    rows.iter().position(|row| !shard.is_home(&row.key))
}

// Loads rows whose keys are the shard's.
fn load_rows(shard: &mut Shard, who: Sid, rows: Vec<DumpRow>, now: u64) -> Result<(), LoadFault>
    requires lively { 1 ≤ shard.old.terms.life }
    requires now { now < 2 ^ 64 - 1 }
    requires empty { IsEmpty shard.old }
    requires home { AreAtHome shard.old rows.items }
    requires differ { AllPairs (λ row later. row.key ≢ later.key) rows.items }
    requires few { length rows.items ≤ shard.old.terms.room }
    ensures loaded { OnOk result (HasLoaded who now rows.items shard.old shard.new) }
    ensures tokens { OnOk result (HasTokens shard.old rows.items) }
    ensures shard { IfErr result (StopsShard who now rows.items shard.old shard.new) }
{
    let mut rows = rows;
    rows.reverse();
    while let Some(row) = rows.pop() {
        load_row(shard, who, row, now)?;
    }
    Ok(())
}

// Loads a row: has its key missed, and sets the value under the lease that is given.
fn load_row(shard: &mut Shard, who: Sid, row: DumpRow, now: u64) -> Result<(), LoadFault>
    requires lively { 1 ≤ shard.old.terms.life }
    requires now { now < 2 ^ 64 - 1 }
    requires home { IsAtHome shard.old.terms row.key }
    requires blank { IsBlank (past_of shard.old) row.key }
    requires roomy { length (order (past_of shard.old)) < shard.old.terms.room }
    ensures ok { OnOk result (HasGained (steps_for who now shard.old (row ∷ [])) shard.old shard.new) }
    ensures token { OnOk result (next_token shard.old.terms (past_of shard.old) < 2 ^ 64 - 1) }
    ensures err { IfErr result (StopsRow who now row.key shard.old shard.new) }
{
    let DumpRow { key, value } = row;
    let token = lease_on(shard, who, key, now)?;
    store_on(shard, key, token, value, now)?;
    Ok(())
}

// Has the key missed, and the lease given.
fn lease_on(shard: &mut Shard, who: Sid, key: QKey, now: u64) -> Result<u64, LoadFault>
    requires home { IsAtHome shard.old.terms key }
    requires blank { IsBlank (past_of shard.old) key }
    ensures token { IfOk result (λ token. token ≡ next_token shard.old.terms (past_of shard.old)) }
    ensures below { IfOk result (λ token. token < 2 ^ 64 - 1) }
    ensures gained { OnOk result
        (HasGained (first_lease who now shard.old key ∷ []) shard.old shard.new) }
    ensures err { IfErr result (StopsLease shard.old shard.new) }
{
    match shard.get(key, who, 0, now) {
        Ok(Got::Lease { token }) => Ok(token),
        Ok(_) => unreachable!(),
        Err(ShardFault::Stranger { .. }) => unreachable!(),
        Err(ShardFault::Spent { next }) => Err(LoadFault::Spent { next }),
        Err(ShardFault::Memory) => Err(LoadFault::Memory),
    }
}

// Stores a value under the lease of this token, where no key has to make room.
fn store_on(shard: &mut Shard, key: QKey, token: u64, value: Value, now: u64) -> Result<(), Memory>
    requires home { IsAtHome shard.old.terms key }
    requires current { IsTrue (is_current token now (recorded key (past_of shard.old))) }
    requires room { evicts shard.old.terms key (past_of shard.old) ≡ None }
    ensures gained { OnOk result (HasGained
        (store_of now token (record { key = key; value = value }) ∷ []) shard.old shard.new) }
    ensures err { OnErr result (shard.new ≡ shard.old) }
{
    match shard.set(key, token, value, 0, now) {
        Ok(SetAnswer::Stored { .. }) => Ok(()),
        Ok(SetAnswer::Void) => unreachable!(),
        Err(ShardFault::Stranger { .. } | ShardFault::Spent { .. }) => unreachable!(),
        Err(ShardFault::Memory) => Err(Memory),
    }
}
