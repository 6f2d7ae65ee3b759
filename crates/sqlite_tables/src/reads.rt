ghost use Rattle.std.specs.Prelude.{◌≡◌, ◌≤◌, ◌⊎◌, [], ◌∷◌, pos, Some, None, IfOk, IfErr, OnOk};
ghost use Rattle.sqlite_trees.specs.View.{doubt};
ghost use Rattle.sqlite.specs.declared.types.Value.TheVariants.{Int, Text};
ghost use Rattle.sqlite.specs.State.{HasCleanDisk, Shown, FailsToQuery, IsTooLate};
ghost use Rattle.sqlite.specs.Held.{state};
ghost use Rattle.sqlite_tables.specs.Lists.{name_in, name_rows, pairs_from, pairs_to, pairs_between};
ghost use Rattle.sqlite_tables.specs.Calls.{OnLists, Leaves};

use crate::faults::fault_of;
use crate::pairs::{Pair, pairs_in};
use rows_model::Name;
use sql_keeper::KeepFault;
use sqlite::types::ValueRef;
use sqlite::{Alter, Error, Row, Transaction, params};
use std::alloc::Global;

// The rows that a text shows of a number.
fn ask<S: Alter>(tx: &mut Transaction<'_, S>, sql: &str, id: u32) -> Result<Vec<Row>, Error>
    ensures same_reference { tx.new.conn.ghost_name ≡ tx.old.conn.ghost_name }
    ensures shown { HasCleanDisk (state S.Store tx.new.conn.now) → IfOk result (λ rows.
        Shown sql.now (Int (pos id) ∷ []) (state S.Store tx.old.conn.now)
        (state S.Store tx.new.conn.now) rows.items) }
    ensures refused { HasCleanDisk (state S.Store tx.new.conn.now) → IfErr result (λ e.
        FailsToQuery sql.now (Int (pos id) ∷ []) (state S.Store tx.old.conn.now)
        (state S.Store tx.new.conn.now) e
        ⊎ IsTooLate sql.now (Int (pos id) ∷ []) (state S.Store tx.old.conn.now)
        (state S.Store tx.new.conn.now) e) }
    ensures clean { doubt (state S.Store tx.old.conn.now).is_clean
        ≤ doubt (state S.Store tx.new.conn.now).is_clean }
{
    tx.query_all(sql, params![id])
}

// The rows that a text shows of two numbers.
fn ask_two<S: Alter>(
    tx: &mut Transaction<'_, S>,
    sql: &str,
    a: u32,
    b: u32,
) -> Result<Vec<Row>, Error>
    ensures same_reference { tx.new.conn.ghost_name ≡ tx.old.conn.ghost_name }
    ensures shown { HasCleanDisk (state S.Store tx.new.conn.now) → IfOk result (λ rows.
        Shown sql.now (Int (pos a) ∷ Int (pos b) ∷ []) (state S.Store tx.old.conn.now)
        (state S.Store tx.new.conn.now) rows.items) }
    ensures refused { HasCleanDisk (state S.Store tx.new.conn.now) → IfErr result (λ e.
        FailsToQuery sql.now (Int (pos a) ∷ Int (pos b) ∷ []) (state S.Store tx.old.conn.now)
        (state S.Store tx.new.conn.now) e
        ⊎ IsTooLate sql.now (Int (pos a) ∷ Int (pos b) ∷ []) (state S.Store tx.old.conn.now)
        (state S.Store tx.new.conn.now) e) }
    ensures clean { doubt (state S.Store tx.old.conn.now).is_clean
        ≤ doubt (state S.Store tx.new.conn.now).is_clean }
{
    tx.query_all(sql, params![a, b])
}

// The name that the rows show, if there is one.
fn first_name(rows: &[Row]) -> Result<Option<Name>, KeepFault>
    ensures { (name : _) → rows.now ≡ name_rows name → IfOk result (λ found. found ≡ name) }
{
    let Some(row) = rows.first() else {
        return Ok(None);
    };
    match row.get_ref(0) {
        Ok(ValueRef::Text(text)) => match Name::of(text) {
            Some(name) => Ok(Some(name)),
            None => Err(KeepFault::Failed),
        },
        _ => Err(KeepFault::Failed),
    }
}

/// The name of a member, or `None` where no member has the id.
pub fn name_of<S: Alter>(tx: &mut Transaction<'_, S>, id: u32) -> Result<Option<Name>, KeepFault>
    ensures same_reference { tx.new.conn.ghost_name ≡ tx.old.conn.ghost_name }
    ensures found { OnLists S.Store tx.old.conn.now tx.new.conn.now
        (λ lists. IfOk result (λ name. name ≡ name_in id lists)) }
    ensures same { OnLists S.Store tx.old.conn.now tx.new.conn.now
        (λ _. OnOk result
        ((state S.Store tx.new.conn.now).now ≡ (state S.Store tx.old.conn.now).now)) }
    ensures leaves { Leaves S.Store tx.old.conn.now tx.new.conn.now }
{
    match ask(tx, "SELECT name FROM member WHERE id = ?1", id) {
        Ok(rows) => first_name(rows.as_slice()),
        Err(error) => Err(fault_of(error)),
    }
}

/// The links and blocks that name an id first, by their two ids.
pub fn links_from<S: Alter>(
    alloc: Global,
    tx: &mut Transaction<'_, S>,
    id: u32,
) -> Result<Vec<Pair>, KeepFault>
    ensures same_reference { tx.new.conn.ghost_name ≡ tx.old.conn.ghost_name }
    ensures found { OnLists S.Store tx.old.conn.now tx.new.conn.now
        (λ lists. IfOk result (λ pairs. pairs.items ≡ pairs_from id lists)) }
    ensures same { OnLists S.Store tx.old.conn.now tx.new.conn.now
        (λ _. OnOk result
        ((state S.Store tx.new.conn.now).now ≡ (state S.Store tx.old.conn.now).now)) }
    ensures leaves { Leaves S.Store tx.old.conn.now tx.new.conn.now }
{
    match ask(
        tx,
        "SELECT a, b, st FROM link WHERE a = ?1 ORDER BY a, b",
        id,
    ) {
        Ok(rows) => pairs_in(alloc, rows.as_slice()),
        Err(error) => Err(fault_of(error)),
    }
}

/// The links and blocks that name an id second, by their two ids.
pub fn links_to<S: Alter>(
    alloc: Global,
    tx: &mut Transaction<'_, S>,
    id: u32,
) -> Result<Vec<Pair>, KeepFault>
    ensures same_reference { tx.new.conn.ghost_name ≡ tx.old.conn.ghost_name }
    ensures found { OnLists S.Store tx.old.conn.now tx.new.conn.now
        (λ lists. IfOk result (λ pairs. pairs.items ≡ pairs_to id lists)) }
    ensures same { OnLists S.Store tx.old.conn.now tx.new.conn.now
        (λ _. OnOk result
        ((state S.Store tx.new.conn.now).now ≡ (state S.Store tx.old.conn.now).now)) }
    ensures leaves { Leaves S.Store tx.old.conn.now tx.new.conn.now }
{
    match ask(
        tx,
        "SELECT a, b, st FROM link WHERE b = ?1 ORDER BY a, b",
        id,
    ) {
        Ok(rows) => pairs_in(alloc, rows.as_slice()),
        Err(error) => Err(fault_of(error)),
    }
}

/// The link or the block of two ids, in this order, or none.
pub fn links_between<S: Alter>(
    alloc: Global,
    tx: &mut Transaction<'_, S>,
    a: u32,
    b: u32,
) -> Result<Vec<Pair>, KeepFault>
    ensures same_reference { tx.new.conn.ghost_name ≡ tx.old.conn.ghost_name }
    ensures found { OnLists S.Store tx.old.conn.now tx.new.conn.now
        (λ lists. IfOk result (λ pairs. pairs.items ≡ pairs_between a b lists)) }
    ensures same { OnLists S.Store tx.old.conn.now tx.new.conn.now
        (λ _. OnOk result
        ((state S.Store tx.new.conn.now).now ≡ (state S.Store tx.old.conn.now).now)) }
    ensures leaves { Leaves S.Store tx.old.conn.now tx.new.conn.now }
{
    match ask_two(
        tx,
        "SELECT a, b, st FROM link WHERE a = ?1 AND b = ?2 ORDER BY a, b",
        a,
        b,
    ) {
        Ok(rows) => pairs_in(alloc, rows.as_slice()),
        Err(error) => Err(fault_of(error)),
    }
}
