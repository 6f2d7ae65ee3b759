// The start: the database is opened, its tables are made where there are none, and its rows are read.
ghost use Rattle.std.specs.Prelude.{◌≡◌, ◌≤◌, ◌<◌, AllPairs, IfOk, OnOk, IsTrue};
ghost use Rattle.rows_model.specs.Rows.{start_tables};
ghost use Rattle.sqlite_trees.specs.View.{doubt};
ghost use Rattle.sqlite.specs.State.{HasCleanDisk};
ghost use Rattle.sqlite.specs.Held.{state};
ghost use Rattle.sqlite_tables.specs.Schema.{empty_schema};
ghost use Rattle.sqlite_tables.specs.Lists.{Lists, AreLists, HoldLists, HasTables, no_lists};
ghost use Rattle.sqlite_keeper.specs.Bases.{NeverLies};
ghost use Rattle.sqlite_keeper.specs.Openings.{members_alone, HoldsRows, begun, BeginsOn};

use crate::base::{Base, tally_of};
use crate::files::{in_short_pages, short_paged};
use crate::loading::rows_of;
use crate::schemas::{has_tables, is_blank};
use memory_disk::StoreDisk;
use rows_model::{Member, Rows};
use sql_keeper::KeepFault;
use sqlite::{Alter, Connection, FileStore, Files, Options, Transaction};
use sqlite_tables::{
    Found, add_index, drop_changes, fault_of, found_lists, keep_changes, make_tables, put_member,
};
use std::alloc::Global;

// A database in memory with so many members.
pub(crate) fn open_fresh(
    alloc: Global,
    members: u32,
) -> Result<(Base<FileStore<StoreDisk>>, Rows), KeepFault>
    requires some { 1 ≤ members }
    requires few { members ≤ 100000 }
    ensures told { IfOk result (λ made. made.0 ≡ made.1) }
    ensures opening { IfOk result (λ made. made.1 ≡ start_tables members) }
{
    let conn = in_memory(alloc)?;
    let rows = Rows::start(alloc, members)?;
    let base = fresh_base(conn, &rows, members)?;
    Ok((base, rows))
}

// The base of a connection whose database has nothing yet, and is given these rows of the start.
fn fresh_base<S: Alter + Drop>(
    conn: Connection<S>,
    rows: &Rows,
    members: u32,
) -> Result<Base<S>, KeepFault>
    requires { rows.now ≡ start_tables members }
    ensures told { NeverLies S.Store → IfOk result (λ base. base ≡ rows.now) }
{
    let mut conn = conn;
    if !is_blank(conn.schema()) {
        return Err(KeepFault::Failed);
    }
    make_rows(&mut conn, rows.members())?;
    let tally = tally_of(rows);
    Ok(Base::new(conn, tally))
}

// The base of a connection, and the rows that its database has or is given.
pub(crate) fn found_base<S: Alter + Drop>(
    alloc: Global,
    conn: Connection<S>,
    members: u32,
) -> Result<(Base<S>, Rows), KeepFault>
    requires some { 1 ≤ members }
    requires few { members ≤ 100000 }
    ensures told { NeverLies S.Store → IfOk result (λ made. made.0 ≡ made.1) }
    ensures begun { NeverLies S.Store
        → IfOk result (λ made. BeginsOn members (state S.Store conn).now made.1) }
{
    let mut conn = conn;
    let rows = settle(alloc, &mut conn, members)?;
    let tally = tally_of(&rows);
    Ok((Base::new(conn, tally), rows))
}

fn in_memory(alloc: Global) -> Result<Connection<FileStore<StoreDisk>>, KeepFault> {
    let files = Files {
        log: StoreDisk::new(alloc),
        db: short_paged(alloc)?,
    };
    match Connection::open_files(alloc, files, in_short_pages(Options::new(1))) {
        Ok(conn) => Ok(conn),
        Err((error, _)) => Err(fault_of(error)),
    }
}

// The rows of the database. Where it has none they are made. Nothing is written before what is there
// was found fit.
fn settle<S: Alter>(
    alloc: Global,
    conn: &mut Connection<S>,
    members: u32,
) -> Result<Rows, KeepFault>
    requires some { 1 ≤ members }
    requires few { members ≤ 100000 }
    ensures held { HasCleanDisk (state S.Store conn.new)
        → IfOk result (λ rows. HoldsRows rows (state S.Store conn.new).now) }
    ensures begun { HasCleanDisk (state S.Store conn.new)
        → IfOk result (BeginsOn members (state S.Store conn.old).now) }
    ensures open { HasCleanDisk (state S.Store conn.new)
        → OnOk result (IsTrue (state S.Store conn.new).is_open) }
{
    if is_blank(conn.schema()) {
        return begin(alloc, conn, members);
    }
    if !has_tables(conn.schema()) {
        return Err(KeepFault::Failed);
    }
    load(alloc, conn, members)
}

// The rows of the start, made in a database that has nothing.
fn begin<S: Alter>(alloc: Global, conn: &mut Connection<S>, members: u32) -> Result<Rows, KeepFault>
    requires some { 1 ≤ members }
    requires few { members ≤ 100000 }
    ensures held { HasCleanDisk (state S.Store conn.new)
        → (state S.Store conn.old).now.schema ≡ empty_schema
        → IfOk result (λ rows. HoldsRows rows (state S.Store conn.new).now) }
    ensures begun { IfOk result (λ rows. rows ≡ start_tables members) }
    ensures open { HasCleanDisk (state S.Store conn.new)
        → OnOk result (IsTrue (state S.Store conn.new).is_open) }
{
    let rows = Rows::start(alloc, members)?;
    make_rows(conn, rows.members())?;
    Ok(rows)
}

// The rows of a database that has the tables, read in one transaction. Where it has none those of the
// start are made.
fn load<S: Alter>(alloc: Global, conn: &mut Connection<S>, members: u32) -> Result<Rows, KeepFault>
    requires some { 1 ≤ members }
    requires few { members ≤ 100000 }
    ensures held { HasCleanDisk (state S.Store conn.new)
        → HasTables (state S.Store conn.old).now.schema
        → IfOk result (λ rows. HoldsRows rows (state S.Store conn.new).now) }
    ensures begun { HasCleanDisk (state S.Store conn.new)
        → HasTables (state S.Store conn.old).now.schema
        → (lists : Lists) → HoldLists (state S.Store conn.old).now.trees lists
        → IfOk result (λ rows. rows ≡ begun members lists) }
    ensures open { HasCleanDisk (state S.Store conn.new)
        → OnOk result (IsTrue (state S.Store conn.new).is_open) }
{
    if !conn.is_autocommit() {
        return Err(KeepFault::Failed);
    }
    let mut tx = conn.transaction();
    match loaded(alloc, &mut tx, members) {
        Ok(rows) => {
            keep_changes(tx)?;
            Ok(rows)
        }
        Err(fault) => {
            drop_changes(tx);
            Err(fault)
        }
    }
}

// The rows that the lists of the database tell, or those of the start, put where it has none.
fn loaded<S: Alter>(
    alloc: Global,
    tx: &mut Transaction<'_, S>,
    members: u32,
) -> Result<Rows, KeepFault>
    requires some { 1 ≤ members }
    requires few { members ≤ 100000 }
    ensures same_reference { tx.new.conn.ghost_name ≡ tx.old.conn.ghost_name }
    ensures held { HasCleanDisk (state S.Store tx.new.conn.now)
        → HasTables (state S.Store tx.old.conn.now).now.schema
        → IfOk result (λ rows. HoldsRows rows (state S.Store tx.new.conn.now).now) }
    ensures begun { HasCleanDisk (state S.Store tx.new.conn.now)
        → HasTables (state S.Store tx.old.conn.now).now.schema
        → (lists : Lists) → HoldLists (state S.Store tx.old.conn.now).now.trees lists
        → IfOk result (λ rows. rows ≡ begun members lists) }
    ensures clean { doubt (state S.Store tx.old.conn.now).is_clean
        ≤ doubt (state S.Store tx.new.conn.now).is_clean }
{
    let found = found_lists(alloc, tx)?;
    if found.members.is_empty() && found.pairs.is_empty() {
        return fill(alloc, tx, members);
    }
    let Found { members, pairs } = found;
    let rows = rows_of(alloc, members, pairs.as_slice())?;
    add_index(tx)?;
    Ok(rows)
}

// The rows of the start, put where the tables have none.
fn fill<S: Alter>(
    alloc: Global,
    tx: &mut Transaction<'_, S>,
    members: u32,
) -> Result<Rows, KeepFault>
    requires some { 1 ≤ members }
    requires few { members ≤ 100000 }
    ensures same_reference { tx.new.conn.ghost_name ≡ tx.old.conn.ghost_name }
    ensures held { HasCleanDisk (state S.Store tx.new.conn.now)
        → HasTables (state S.Store tx.old.conn.now).now.schema
        → HoldLists (state S.Store tx.old.conn.now).now.trees no_lists
        → IfOk result (λ rows. HoldsRows rows (state S.Store tx.new.conn.now).now) }
    ensures begun { IfOk result (λ rows. rows ≡ start_tables members) }
    ensures clean { doubt (state S.Store tx.old.conn.now).is_clean
        ≤ doubt (state S.Store tx.new.conn.now).is_clean }
{
    let rows = Rows::start(alloc, members)?;
    add_index(tx)?;
    put_members(tx, rows.members())?;
    Ok(rows)
}

// Makes the tables and the index, and these members, all in one transaction.
fn make_rows<S: Alter>(conn: &mut Connection<S>, members: &[Member]) -> Result<(), KeepFault>
    requires { AllPairs (λ member later. member.id < later.id) members.now }
    ensures made { HasCleanDisk (state S.Store conn.new)
        → (state S.Store conn.old).now.schema ≡ empty_schema
        → OnOk result (AreLists (state S.Store conn.new).now (members_alone members.now)) }
    ensures open { HasCleanDisk (state S.Store conn.new)
        → OnOk result (IsTrue (state S.Store conn.new).is_open) }
{
    if !conn.is_autocommit() {
        return Err(KeepFault::Failed);
    }
    let mut tx = conn.transaction();
    match tables_and_members(&mut tx, members) {
        Ok(()) => keep_changes(tx),
        Err(fault) => {
            drop_changes(tx);
            Err(fault)
        }
    }
}

// Makes the tables, the index and these members.
fn tables_and_members<S: Alter>(
    tx: &mut Transaction<'_, S>,
    members: &[Member],
) -> Result<(), KeepFault>
    requires { AllPairs (λ member later. member.id < later.id) members.now }
    ensures same_reference { tx.new.conn.ghost_name ≡ tx.old.conn.ghost_name }
    ensures made { HasCleanDisk (state S.Store tx.new.conn.now)
        → (state S.Store tx.old.conn.now).now.schema ≡ empty_schema
        → OnOk result (AreLists (state S.Store tx.new.conn.now).now (members_alone members.now)) }
    ensures clean { doubt (state S.Store tx.old.conn.now).is_clean
        ≤ doubt (state S.Store tx.new.conn.now).is_clean }
{
    make_tables(tx)?;
    put_members(tx, members)
}

// Puts these members, where there are none.
fn put_members<S: Alter>(tx: &mut Transaction<'_, S>, members: &[Member]) -> Result<(), KeepFault>
    requires { AllPairs (λ member later. member.id < later.id) members.now }
    ensures same_reference { tx.new.conn.ghost_name ≡ tx.old.conn.ghost_name }
    ensures put { HasCleanDisk (state S.Store tx.new.conn.now)
        → AreLists (state S.Store tx.old.conn.now).now no_lists
        → OnOk result (AreLists (state S.Store tx.new.conn.now).now (members_alone members.now)) }
    ensures clean { doubt (state S.Store tx.old.conn.now).is_clean
        ≤ doubt (state S.Store tx.new.conn.now).is_clean }
{
    for member in members {
        put_member(tx, member)?;
    }
    Ok(())
}
