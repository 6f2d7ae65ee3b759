// A database that was started, whatever it lies on.
ghost use Rattle.std.specs.Prelude.{◌≡◌, false, IsTrue, IfOk, OnOk};
ghost use Rattle.rows_model.specs.Rows.{Tables, Fit};
ghost use Rattle.rows_model.specs.Query.{answer};
ghost use Rattle.sql_keeper.specs.Keepers.{Commits, AnswersAfter};
ghost use Rattle.sqlite.specs.State.{HasCleanDisk};
ghost use Rattle.sqlite.specs.Held.{state};
ghost use Rattle.sqlite_tables.specs.Lists.{tables_of};
ghost use Rattle.sqlite_tables.specs.Calls.{OnLists, Leaves};
ghost use Rattle.sqlite_keeper.specs.Bonds.{IsTallied};
ghost use Rattle.sqlite_keeper.specs.Makes.{StagedAnswer};
ghost use Rattle.sqlite_wal.specs.Reads.{AreClean};
ghost use Rattle.sqlite_keeper.specs.Bases.{rows_in, NeverLies, IsCounted, IsSame, Stays};
ghost use Rattle.sqlite_keeper.specs.Closings.{AreWhole};

use crate::answers::answer;
use crate::bonds::Tally;
use crate::changes::make_from;
use crate::faults::staged;
use http_server::Log;
use rows_model::{QKey, Rows, Txn, Value};
use sql_keeper::{AfterFault, KeepFault};
use sqlite::{Alter, Connection, FileStore, Files, Transaction};
use sqlite_disk::Disk;
use sqlite_tables::{drop_changes, fault_of, keep_changes};
use sqlite_trees::store::Store;
use std::alloc::Global;
use std::marker::Model;

// A connection to a database with the rows of a store, and how many links and blocks these are.
// Contracts see the rows that it had when it was last known to be open. Once it has shut each call is
// refused, so these rows stay.
#[derive(Drop)]
pub(crate) struct Base<S: Alter> {
    conn: Connection<S>,
    tally: Tally,
    // The one item is the connection as it was then. A log has no bytes.
    last: Log<Connection<S>, ()>,
}

impl<S: Alter> Model for Base<S> {
    ghost use Rattle.rows_model.specs.Rows.{Tables};
    ghost use Rattle.sqlite.specs.Held.{state};
    ghost use Rattle.sqlite_keeper.specs.Bases.{rows_in, seen_in, NeverLies, IsSince};

    ghost Value = { Tables };

    ghost view = { λ b. rows_in (seen_in S.Store b.last.items) };

    ghost invariant = { λ b. NeverLies S.Store
        → IsSince b.tally (seen_in S.Store b.last.items) (state S.Store b.conn) };
}

// How many links and blocks these rows have.
pub(crate) fn tally_of(rows: &Rows) -> Tally
    ensures tallied { IsTallied result rows.now }
    ensures fit { Fit rows.now }
{
    Tally {
        links: rows.link_count(),
        blocks: rows.block_count(),
    }
}

impl<S: Alter> Base<S> {
    // The base of a connection whose database has rows that are counted so.
    pub(crate) fn new(conn: Connection<S>, tally: Tally) -> Base<S>
        requires { NeverLies S.Store → IsCounted tally (state S.Store conn).now }
        ensures { result ≡ rows_in (state S.Store conn).now }
    {
        let last = Log::new().and(&conn, &());
        Base { conn, tally, last }
    }

    // The answer to the key.
    pub(crate) fn ask(&mut self, alloc: Global, key: &QKey) -> Result<Value, KeepFault>
        ensures same { self.new ≡ self.old }
        ensures tells { NeverLies S.Store → IfOk result (λ value. value ≡ answer key.now self.old) }
    {
        find_open(&mut self.conn)?;
        let mut tx = self.conn.transaction();
        let value = answer(alloc, &mut tx, key);
        drop_changes(tx);
        value
    }

    // The answer to the key after the transaction, which isn't made.
    pub(crate) fn ask_after(
        &mut self,
        alloc: Global,
        txn: &Txn,
        key: &QKey,
    ) -> Result<Value, AfterFault>
        ensures same { self.new ≡ self.old }
        ensures tells { NeverLies S.Store → AnswersAfter txn.now key.now self.old result }
    {
        if let Err(fault) = find_open(&mut self.conn) {
            return Err(staged(fault));
        }
        let tally = self.tally;
        let mut tx = self.conn.transaction();
        let value = answer_after(alloc, &mut tx, tally, txn, key);
        drop_changes(tx);
        value
    }

    // Makes the changes of the transaction, all or none.
    pub(crate) fn commit(&mut self, alloc: Global, txn: &Txn) -> Result<(), AfterFault>
        ensures tells { NeverLies S.Store → Commits txn.now self.old self.new result }
    {
        if let Err(fault) = find_open(&mut self.conn) {
            return Err(staged(fault));
        }
        let tally = self.tally;
        let mut tx = self.conn.transaction();
        let after = match make_from(alloc, &mut tx, tally, 0, txn.changes()) {
            Ok(after) => after,
            Err(fault) => {
                drop_changes(tx);
                return Err(fault);
            }
        };
        match keep_changes(tx) {
            Ok(()) => {
                self.tally = after;
                self.last = Log::new().and(&self.conn, &());
                Ok(())
            }
            Err(fault) => {
                let _ended = self.conn.is_autocommit();
                Err(staged(fault))
            }
        }
    }
}

// Finds the database open, and what it holds committed. A text with no statement in it is compiled: of
// all calls that tell this, it costs least.
fn find_open<S: Alter>(conn: &mut Connection<S>) -> Result<(), KeepFault>
    ensures open { HasCleanDisk (state S.Store conn.new)
        → OnOk result (IsTrue (state S.Store conn.new).is_open) }
    ensures settled { HasCleanDisk (state S.Store conn.new)
        → OnOk result ((state S.Store conn.new).committed ≡ (state S.Store conn.new).now) }
    ensures idle { OnOk result (conn.new.in_transaction ≡ false) }
    ensures same { HasCleanDisk (state S.Store conn.new) → IsSame S.Store conn.old conn.new }
{
    if !conn.is_autocommit() {
        return Err(KeepFault::Failed);
    }
    match conn.prepare("") {
        Ok(_) => Ok(()),
        Err(error) => Err(fault_of(error)),
    }
}

impl<D: Disk + Drop> Base<FileStore<D>> {
    // Ends it, copies the log into the file, and gives the two back. After an error they are closed, and a
    // crash would have left the same of them before.
    pub(crate) fn close(self) -> Result<Files<D>, KeepFault>
        ensures log { IfOk result (λ files. IsTrue (D.Disk.is_usable files.log)) }
        ensures db { IfOk result (λ files. IsTrue (D.Disk.is_usable files.db)) }
        ensures whole { NeverLies ⟦<FileStore<D> as Store>⟧ → IfOk result (λ files.
            AreClean D.Disk files.log files.db → AreWhole D.Disk self files) }
    {
        if !self.conn.is_autocommit() {
            return Err(KeepFault::Failed);
        }
        match self.conn.close_files() {
            Ok(files) => Ok(files),
            Err((error, store)) => {
                drop(store.close());
                Err(fault_of(error))
            }
        }
    }
}

// The answer to the key on the rows after the changes, which are made in the transaction.
fn answer_after<S: Alter>(
    alloc: Global,
    tx: &mut Transaction<'_, S>,
    tally: Tally,
    txn: &Txn,
    key: &QKey,
) -> Result<Value, AfterFault>
    ensures same_reference { tx.new.conn.ghost_name ≡ tx.old.conn.ghost_name }
    ensures told { HasCleanDisk (state S.Store tx.new.conn.now)
        → IsCounted tally (state S.Store tx.old.conn.now).now
        → AnswersAfter txn.now key.now (rows_in (state S.Store tx.old.conn.now).now) result }
    ensures stays { Stays S.Store tally tx.old.conn.now tx.new.conn.now }
{
    match make_from(alloc, tx, tally, 0, txn.changes()) {
        Ok(_) => staged_answer(alloc, tx, key),
        Err(fault) => Err(fault),
    }
}

// The answer to the key on the rows as the transaction sees them.
fn staged_answer<S: Alter>(
    alloc: Global,
    tx: &mut Transaction<'_, S>,
    key: &QKey,
) -> Result<Value, AfterFault>
    ensures same_reference { tx.new.conn.ghost_name ≡ tx.old.conn.ghost_name }
    ensures told { OnLists S.Store tx.old.conn.now tx.new.conn.now (λ lists. Fit (tables_of lists)
        → StagedAnswer (answer key.now (tables_of lists)) result) }
    ensures leaves { Leaves S.Store tx.old.conn.now tx.new.conn.now }
{
    match answer(alloc, tx, key) {
        Ok(value) => Ok(value),
        Err(fault) => Err(staged(fault)),
    }
}
