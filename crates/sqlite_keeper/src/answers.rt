// The answer to a key on the rows as a transaction sees them.
ghost use Rattle.std.specs.Prelude.{◌≡◌, IfOk};
ghost use Rattle.rows_model.specs.declared.keys.Kind.TheVariants.{Profile, Friends, Pending, NFriends, NPending, Blocked};
ghost use Rattle.rows_model.specs.Rows.{Fit};
ghost use Rattle.rows_model.specs.Query.{answer, answer_of};
ghost use Rattle.sqlite_tables.specs.Lists.{tables_of, pairs_from, pairs_to};
ghost use Rattle.sqlite_tables.specs.Calls.{OnLists, Leaves};

use crate::texts::{
    Around, blocked_text, friend_count_text, friends_text, pending_count_text, pending_text,
    profile_text,
};
use rows_model::{Kind, QKey, Value};
use sql_keeper::KeepFault;
use sqlite::{Alter, Transaction};
use sqlite_tables::{links_from, links_to, name_of};
use std::alloc::Global;

// The answer to the key.
#[tactic(auto, unfolding(rows_model::specs::Query::answer))]
pub(crate) fn answer<S: Alter>(
    alloc: Global,
    tx: &mut Transaction<'_, S>,
    key: &QKey,
) -> Result<Value, KeepFault>
    ensures same_reference { tx.new.conn.ghost_name ≡ tx.old.conn.ghost_name }
    ensures told { OnLists S.Store tx.old.conn.now tx.new.conn.now (λ lists. Fit (tables_of lists)
        → IfOk result (λ value. value ≡ answer key.now (tables_of lists))) }
    ensures leaves { Leaves S.Store tx.old.conn.now tx.new.conn.now }
{
    match key.kind {
        Kind::Profile => profile(alloc, tx, key.id),
        Kind::Friends => friends(alloc, tx, key.id),
        Kind::Pending => pending(alloc, tx, key.id),
        Kind::NFriends => friend_count(alloc, tx, key.id),
        Kind::NPending => pending_count(alloc, tx, key.id),
        Kind::Blocked => blocked(alloc, tx, key.id),
    }
}

// The member's name, and the counts of its friends and of those who wait for its answer.
fn profile<S: Alter>(
    alloc: Global,
    tx: &mut Transaction<'_, S>,
    id: u32,
) -> Result<Value, KeepFault>
    ensures same_reference { tx.new.conn.ghost_name ≡ tx.old.conn.ghost_name }
    ensures told { OnLists S.Store tx.old.conn.now tx.new.conn.now (λ lists. Fit (tables_of lists)
        → IfOk result (λ value. value ≡ answer_of Profile id (tables_of lists))) }
    ensures leaves { Leaves S.Store tx.old.conn.now tx.new.conn.now }
{
    let Some(name) = name_of(tx, id)? else {
        return Ok(Value::of(alloc, b"-")?);
    };
    let around = pairs_around(alloc, tx, id)?;
    Ok(profile_text(alloc, &name, &around)?)
}

// The ids of the member's friends.
fn friends<S: Alter>(
    alloc: Global,
    tx: &mut Transaction<'_, S>,
    id: u32,
) -> Result<Value, KeepFault>
    ensures same_reference { tx.new.conn.ghost_name ≡ tx.old.conn.ghost_name }
    ensures told { OnLists S.Store tx.old.conn.now tx.new.conn.now (λ lists. Fit (tables_of lists)
        → IfOk result (λ value. value ≡ answer_of Friends id (tables_of lists))) }
    ensures leaves { Leaves S.Store tx.old.conn.now tx.new.conn.now }
{
    let around = pairs_around(alloc, tx, id)?;
    Ok(friends_text(alloc, &around)?)
}

// How many friends the member has.
fn friend_count<S: Alter>(
    alloc: Global,
    tx: &mut Transaction<'_, S>,
    id: u32,
) -> Result<Value, KeepFault>
    ensures same_reference { tx.new.conn.ghost_name ≡ tx.old.conn.ghost_name }
    ensures told { OnLists S.Store tx.old.conn.now tx.new.conn.now (λ lists. Fit (tables_of lists)
        → IfOk result (λ value. value ≡ answer_of NFriends id (tables_of lists))) }
    ensures leaves { Leaves S.Store tx.old.conn.now tx.new.conn.now }
{
    let around = pairs_around(alloc, tx, id)?;
    Ok(friend_count_text(alloc, &around)?)
}

// The ids of those who invited the member.
fn pending<S: Alter>(
    alloc: Global,
    tx: &mut Transaction<'_, S>,
    id: u32,
) -> Result<Value, KeepFault>
    ensures same_reference { tx.new.conn.ghost_name ≡ tx.old.conn.ghost_name }
    ensures told { OnLists S.Store tx.old.conn.now tx.new.conn.now (λ lists. Fit (tables_of lists)
        → IfOk result (λ value. value ≡ answer_of Pending id (tables_of lists))) }
    ensures leaves { Leaves S.Store tx.old.conn.now tx.new.conn.now }
{
    let to = links_to(alloc, tx, id)?;
    Ok(pending_text(alloc, to.as_slice())?)
}

// How many those are who invited the member.
fn pending_count<S: Alter>(
    alloc: Global,
    tx: &mut Transaction<'_, S>,
    id: u32,
) -> Result<Value, KeepFault>
    ensures same_reference { tx.new.conn.ghost_name ≡ tx.old.conn.ghost_name }
    ensures told { OnLists S.Store tx.old.conn.now tx.new.conn.now (λ lists. Fit (tables_of lists)
        → IfOk result (λ value. value ≡ answer_of NPending id (tables_of lists))) }
    ensures leaves { Leaves S.Store tx.old.conn.now tx.new.conn.now }
{
    let to = links_to(alloc, tx, id)?;
    Ok(pending_count_text(alloc, to.as_slice())?)
}

// The ids of those whom the member has blocked.
fn blocked<S: Alter>(
    alloc: Global,
    tx: &mut Transaction<'_, S>,
    id: u32,
) -> Result<Value, KeepFault>
    ensures same_reference { tx.new.conn.ghost_name ≡ tx.old.conn.ghost_name }
    ensures told { OnLists S.Store tx.old.conn.now tx.new.conn.now (λ lists. Fit (tables_of lists)
        → IfOk result (λ value. value ≡ answer_of Blocked id (tables_of lists))) }
    ensures leaves { Leaves S.Store tx.old.conn.now tx.new.conn.now }
{
    let from = links_from(alloc, tx, id)?;
    Ok(blocked_text(alloc, from.as_slice())?)
}

// The pairs around a member.
fn pairs_around<S: Alter>(
    alloc: Global,
    tx: &mut Transaction<'_, S>,
    id: u32,
) -> Result<Around, KeepFault>
    ensures same_reference { tx.new.conn.ghost_name ≡ tx.old.conn.ghost_name }
    ensures from { OnLists S.Store tx.old.conn.now tx.new.conn.now (λ lists.
        IfOk result (λ around. around.from.items ≡ pairs_from id lists)) }
    ensures to { OnLists S.Store tx.old.conn.now tx.new.conn.now (λ lists.
        IfOk result (λ around. around.to.items ≡ pairs_to id lists)) }
    ensures leaves { Leaves S.Store tx.old.conn.now tx.new.conn.now }
{
    let from = links_from(alloc, tx, id)?;
    let to = links_to(alloc, tx, id)?;
    Ok(Around { from, to })
}
