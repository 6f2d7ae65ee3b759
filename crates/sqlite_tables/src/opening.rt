ghost use Rattle.std.specs.Prelude.{◌≡◌, ◌≤◌, ◌<◌, [], ◌∷◌, false, All, IsTrue, Err, OnOk};
ghost use Rattle.sqlite_trees.specs.View.{doubt};
ghost use Rattle.sqlite.specs.declared.error.Error.TheVariants.{SqliteFailure};
ghost use Rattle.sqlite.specs.declared.error.ErrorCode.TheVariants.{TransactionState};
ghost use Rattle.sqlite.specs.State.{HasCleanDisk, ExecutesInside, KeepsCommit};
ghost use Rattle.sqlite.specs.Held.{state};
ghost use Rattle.sqlite_tables.specs.Schema.{empty_schema, member_schema, unindexed_schema, store_schema};
ghost use Rattle.sqlite_tables.specs.Lists.{Lists, AreLists, HoldLists, HasTables, IsBare, no_lists, with_member};
ghost use Rattle.sqlite_tables.specs.Calls.{OnLists, Leaves};

use crate::faults::fault_of;
use crate::writes::run_named;
use rows_model::Member;
use sql_keeper::KeepFault;
use sqlite::{Alter, Error, Transaction};

// Runs a text with no parameters.
fn run_plain<S: Alter>(tx: &mut Transaction<'_, S>, sql: &str) -> Result<usize, Error>
    ensures same_reference { tx.new.conn.ghost_name ≡ tx.old.conn.ghost_name }
    ensures ended { (state S.Store tx.old.conn.now).in_transaction ≡ false
        → (result ≡ Err (SqliteFailure TransactionState)) × (tx.new.conn.now ≡ tx.old.conn.now) }
    ensures runs { HasCleanDisk (state S.Store tx.new.conn.now)
        → IsTrue (state S.Store tx.old.conn.now).in_transaction
        → ExecutesInside 0 sql.now [] (state S.Store tx.old.conn.now)
        (state S.Store tx.new.conn.now) result }
    ensures clean { doubt (state S.Store tx.old.conn.now).is_clean
        ≤ doubt (state S.Store tx.new.conn.now).is_clean }
{
    tx.execute(sql, &[])
}

// Makes the table of the members.
fn make_members<S: Alter>(tx: &mut Transaction<'_, S>) -> Result<(), KeepFault>
    ensures same_reference { tx.new.conn.ghost_name ≡ tx.old.conn.ghost_name }
    ensures made { HasCleanDisk (state S.Store tx.new.conn.now)
        → (state S.Store tx.old.conn.now).now.schema ≡ empty_schema
        → OnOk result (IsBare member_schema (state S.Store tx.new.conn.now).now) }
    ensures kept { HasCleanDisk (state S.Store tx.new.conn.now)
        → KeepsCommit (state S.Store tx.old.conn.now) (state S.Store tx.new.conn.now) }
    ensures clean { doubt (state S.Store tx.old.conn.now).is_clean
        ≤ doubt (state S.Store tx.new.conn.now).is_clean }
{
    let sql = "CREATE TABLE member(id INTEGER PRIMARY KEY, name TEXT NOT NULL) STRICT";
    match run_plain(tx, sql) {
        Ok(_) => Ok(()),
        Err(error) => Err(fault_of(error)),
    }
}

// Makes the table of the links beside it.
fn make_links<S: Alter>(tx: &mut Transaction<'_, S>) -> Result<(), KeepFault>
    ensures same_reference { tx.new.conn.ghost_name ≡ tx.old.conn.ghost_name }
    ensures made { HasCleanDisk (state S.Store tx.new.conn.now)
        → IsBare member_schema (state S.Store tx.old.conn.now).now
        → OnOk result (IsBare unindexed_schema (state S.Store tx.new.conn.now).now) }
    ensures kept { HasCleanDisk (state S.Store tx.new.conn.now)
        → KeepsCommit (state S.Store tx.old.conn.now) (state S.Store tx.new.conn.now) }
    ensures clean { doubt (state S.Store tx.old.conn.now).is_clean
        ≤ doubt (state S.Store tx.new.conn.now).is_clean }
{
    let sql =
        "CREATE TABLE link(a INTEGER NOT NULL, b INTEGER NOT NULL, st INTEGER NOT NULL CHECK(st IN (0, 1, 2)), PRIMARY KEY(a, b)) STRICT";
    match run_plain(tx, sql) {
        Ok(_) => Ok(()),
        Err(error) => Err(fault_of(error)),
    }
}

// Makes the index of the links by their second ids.
fn make_index<S: Alter>(tx: &mut Transaction<'_, S>) -> Result<(), KeepFault>
    ensures same_reference { tx.new.conn.ghost_name ≡ tx.old.conn.ghost_name }
    ensures made { HasCleanDisk (state S.Store tx.new.conn.now)
        → IsBare unindexed_schema (state S.Store tx.old.conn.now).now
        → OnOk result (IsBare store_schema (state S.Store tx.new.conn.now).now) }
    ensures kept { HasCleanDisk (state S.Store tx.new.conn.now)
        → KeepsCommit (state S.Store tx.old.conn.now) (state S.Store tx.new.conn.now) }
    ensures clean { doubt (state S.Store tx.old.conn.now).is_clean
        ≤ doubt (state S.Store tx.new.conn.now).is_clean }
{
    match run_plain(tx, "CREATE INDEX link_by_b ON link(b, a)") {
        Ok(_) => Ok(()),
        Err(error) => Err(fault_of(error)),
    }
}

/// Makes the two tables and the index in a database that has nothing yet.
pub fn make_tables<S: Alter>(tx: &mut Transaction<'_, S>) -> Result<(), KeepFault>
    ensures same_reference { tx.new.conn.ghost_name ≡ tx.old.conn.ghost_name }
    ensures made { HasCleanDisk (state S.Store tx.new.conn.now)
        → (state S.Store tx.old.conn.now).now.schema ≡ empty_schema
        → OnOk result (AreLists (state S.Store tx.new.conn.now).now no_lists) }
    ensures kept { HasCleanDisk (state S.Store tx.new.conn.now)
        → KeepsCommit (state S.Store tx.old.conn.now) (state S.Store tx.new.conn.now) }
    ensures clean { doubt (state S.Store tx.old.conn.now).is_clean
        ≤ doubt (state S.Store tx.new.conn.now).is_clean }
{
    make_members(tx)?;
    make_links(tx)?;
    make_index(tx)
}

/// Puts a member behind those with smaller ids.
pub fn put_member<S: Alter>(tx: &mut Transaction<'_, S>, member: &Member) -> Result<(), KeepFault>
    ensures same_reference { tx.new.conn.ghost_name ≡ tx.old.conn.ghost_name }
    ensures put { OnLists S.Store tx.old.conn.now tx.new.conn.now (λ lists.
        All (λ other. other.id < member.now.id) lists.members
        → OnOk result
        (AreLists (state S.Store tx.new.conn.now).now (with_member member.now lists))) }
    ensures leaves { Leaves S.Store tx.old.conn.now tx.new.conn.now }
{
    let sql = "INSERT INTO member(id, name) VALUES(?1, ?2)";
    match run_named(tx, sql, member.id, member.name.bytes()) {
        Ok(_) => Ok(()),
        Err(error) => Err(fault_of(error)),
    }
}

/// Makes the index of the links by their second ids, where it is missing.
pub fn add_index<S: Alter>(tx: &mut Transaction<'_, S>) -> Result<(), KeepFault>
    ensures same_reference { tx.new.conn.ghost_name ≡ tx.old.conn.ghost_name }
    ensures added { HasCleanDisk (state S.Store tx.new.conn.now)
        → HasTables (state S.Store tx.old.conn.now).now.schema
        → (lists : Lists) → HoldLists (state S.Store tx.old.conn.now).now.trees lists
        → OnOk result (AreLists (state S.Store tx.new.conn.now).now lists) }
    ensures kept { HasCleanDisk (state S.Store tx.new.conn.now)
        → KeepsCommit (state S.Store tx.old.conn.now) (state S.Store tx.new.conn.now) }
    ensures clean { doubt (state S.Store tx.old.conn.now).is_clean
        ≤ doubt (state S.Store tx.new.conn.now).is_clean }
{
    match run_plain(tx, "CREATE INDEX IF NOT EXISTS link_by_b ON link(b, a)") {
        Ok(_) => Ok(()),
        Err(error) => Err(fault_of(error)),
    }
}
