ghost use Rattle.std.specs.Prelude.{◌≡◌, ◌≤◌, [], ◌∷◌, pos, false, IsTrue, Err, OnOk};
ghost use Rattle.sqlite_trees.specs.View.{doubt};
ghost use Rattle.sqlite.specs.declared.types.Value.TheVariants.{Int, Text};
ghost use Rattle.sqlite.specs.declared.error.Error.TheVariants.{SqliteFailure};
ghost use Rattle.sqlite.specs.declared.error.ErrorCode.TheVariants.{TransactionState};
ghost use Rattle.sqlite.specs.State.{HasCleanDisk, ExecutesInside};
ghost use Rattle.sqlite.specs.Held.{state};
ghost use Rattle.sqlite_tables.specs.Lists.{AreLists, has_pair, with_pair, without_pair, with_name};
ghost use Rattle.sqlite_tables.specs.Calls.{OnLists, Leaves};

use crate::faults::fault_of;
use crate::pairs::Pair;
use rows_model::Name;
use sql_keeper::KeepFault;
use sqlite::types::ValueRef;
use sqlite::{Alter, Error, Transaction, params};

// Runs a text with three numbers.
fn run_three<S: Alter>(
    tx: &mut Transaction<'_, S>,
    sql: &str,
    a: u32,
    b: u32,
    c: u32,
) -> Result<usize, Error>
    ensures same_reference { tx.new.conn.ghost_name ≡ tx.old.conn.ghost_name }
    ensures ended { (state S.Store tx.old.conn.now).in_transaction ≡ false
        → (result ≡ Err (SqliteFailure TransactionState)) × (tx.new.conn.now ≡ tx.old.conn.now) }
    ensures runs { HasCleanDisk (state S.Store tx.new.conn.now)
        → IsTrue (state S.Store tx.old.conn.now).in_transaction
        → ExecutesInside 0 sql.now (Int (pos a) ∷ Int (pos b) ∷ Int (pos c) ∷ [])
        (state S.Store tx.old.conn.now) (state S.Store tx.new.conn.now) result }
    ensures clean { doubt (state S.Store tx.old.conn.now).is_clean
        ≤ doubt (state S.Store tx.new.conn.now).is_clean }
{
    tx.execute(sql, params![a, b, c])
}

// Runs a text with two numbers.
fn run_two<S: Alter>(tx: &mut Transaction<'_, S>, sql: &str, a: u32, b: u32) -> Result<usize, Error>
    ensures same_reference { tx.new.conn.ghost_name ≡ tx.old.conn.ghost_name }
    ensures ended { (state S.Store tx.old.conn.now).in_transaction ≡ false
        → (result ≡ Err (SqliteFailure TransactionState)) × (tx.new.conn.now ≡ tx.old.conn.now) }
    ensures runs { HasCleanDisk (state S.Store tx.new.conn.now)
        → IsTrue (state S.Store tx.old.conn.now).in_transaction
        → ExecutesInside 0 sql.now (Int (pos a) ∷ Int (pos b) ∷ [])
        (state S.Store tx.old.conn.now) (state S.Store tx.new.conn.now) result }
    ensures clean { doubt (state S.Store tx.old.conn.now).is_clean
        ≤ doubt (state S.Store tx.new.conn.now).is_clean }
{
    tx.execute(sql, params![a, b])
}

// Runs a text with a number and a name.
pub(crate) fn run_named<S: Alter>(
    tx: &mut Transaction<'_, S>,
    sql: &str,
    id: u32,
    name: &[u8],
) -> Result<usize, Error>
    ensures same_reference { tx.new.conn.ghost_name ≡ tx.old.conn.ghost_name }
    ensures ended { (state S.Store tx.old.conn.now).in_transaction ≡ false
        → (result ≡ Err (SqliteFailure TransactionState)) × (tx.new.conn.now ≡ tx.old.conn.now) }
    ensures runs { HasCleanDisk (state S.Store tx.new.conn.now)
        → IsTrue (state S.Store tx.old.conn.now).in_transaction
        → ExecutesInside 0 sql.now (Int (pos id) ∷ Text name.now ∷ [])
        (state S.Store tx.old.conn.now) (state S.Store tx.new.conn.now) result }
    ensures clean { doubt (state S.Store tx.old.conn.now).is_clean
        ≤ doubt (state S.Store tx.new.conn.now).is_clean }
{
    tx.execute(sql, &[ValueRef::Int(i64::from(id)), ValueRef::Text(name)])
}

/// Puts a link or a block in its place. Where two ids are paired already it is refused.
pub fn put_link<S: Alter>(tx: &mut Transaction<'_, S>, pair: Pair) -> Result<(), KeepFault>
    ensures same_reference { tx.new.conn.ghost_name ≡ tx.old.conn.ghost_name }
    ensures put { OnLists S.Store tx.old.conn.now tx.new.conn.now (λ lists.
        has_pair pair.a pair.b lists ≡ false
        → OnOk result (AreLists (state S.Store tx.new.conn.now).now (with_pair pair lists))) }
    ensures leaves { Leaves S.Store tx.old.conn.now tx.new.conn.now }
{
    let sql = "INSERT INTO link(a, b, st) VALUES(?1, ?2, ?3)";
    match run_three(tx, sql, pair.a, pair.b, pair.state.number()) {
        Ok(_) => Ok(()),
        Err(error) => Err(fault_of(error)),
    }
}

/// Takes out the link or the block of two ids, if there is one.
pub fn take_link<S: Alter>(tx: &mut Transaction<'_, S>, a: u32, b: u32) -> Result<(), KeepFault>
    ensures same_reference { tx.new.conn.ghost_name ≡ tx.old.conn.ghost_name }
    ensures taken { OnLists S.Store tx.old.conn.now tx.new.conn.now (λ lists.
        OnOk result (AreLists (state S.Store tx.new.conn.now).now (without_pair a b lists))) }
    ensures leaves { Leaves S.Store tx.old.conn.now tx.new.conn.now }
{
    match run_two(tx, "DELETE FROM link WHERE a = ?1 AND b = ?2", a, b) {
        Ok(_) => Ok(()),
        Err(error) => Err(fault_of(error)),
    }
}

/// Gives a member a name, if there is a member with the id.
pub fn set_name<S: Alter>(
    tx: &mut Transaction<'_, S>,
    id: u32,
    name: &Name,
) -> Result<(), KeepFault>
    ensures same_reference { tx.new.conn.ghost_name ≡ tx.old.conn.ghost_name }
    ensures named { OnLists S.Store tx.old.conn.now tx.new.conn.now (λ lists.
        OnOk result (AreLists (state S.Store tx.new.conn.now).now (with_name id name.now lists))) }
    ensures leaves { Leaves S.Store tx.old.conn.now tx.new.conn.now }
{
    match run_named(
        tx,
        "UPDATE member SET name = ?2 WHERE id = ?1",
        id,
        name.bytes(),
    ) {
        Ok(_) => Ok(()),
        Err(error) => Err(fault_of(error)),
    }
}
