ghost use Rattle.std.specs.Prelude.{◌≡◌, ◌≤◌, Some, None, IfOk, IfSome, OnOk, OnErr, IsSome};
ghost use Rattle.std.specs.Option.{ForSome};
ghost use Rattle.rows_model.specs.Rows.{Tables};
ghost use Rattle.rows_model.specs.Query.{answer};
ghost use Rattle.sql_keeper.specs.Keepers.{AreHeld, HoldsFresh, Commits, AnswersAfter};
ghost use Rattle.sql_keeper.specs.Faults.{Counts, keep_failed, staged_failed};
ghost use Rattle.memory_disk.specs.Copies.{IsSettled};
ghost use Rattle.sqlite_keeper.specs.Keepers.{held_at};
ghost use Rattle.sqlite_keeper.specs.Closings.{IsLeft};

use crate::base::Base;
use crate::faults::{count, keep_failed, staged_failed};
use crate::files::{close_base, open_file};
use crate::opening::{found_base, open_fresh};
use memory_disk::StoreDisk;
use rows_model::{QKey, Rows, Txn, Value};
use sql_keeper::{AfterFault, KeepFault, Keeper, Place, Telling};
use sqlite::{File, FileStore, Files};
use sqlite_disk::Disk;
use std::alloc::Global;
use std::rt::HostRuntime;

/// A keeper of the rows of a store in an SQL database: a fresh one in memory, or that of a file.
///
/// A file is opened for this keeper alone, and is read into memory. Where it is missing or empty the
/// tables are made, with the opening members. Where its tables have members they are kept, with their
/// links and blocks, and the number of members is not used. A file that isn't such a database, or whose
/// rows aren't fit for a store, is refused as `Failed`, and is left as it is.
///
/// The keeper tells its rows from its start on, for good. The rows that a start answers are those that are
/// told, until a commit that is Ok changes them: each read is answered from memory, whatever the file gives
/// by then. A want of memory or a write that fails under the database may shut it. Then each later call is
/// refused, and the rows that are told stay those of the last moment at which it was known to be open.
///
/// Want of memory that the database tells of is `Memory`. Every other refusal of it is counted, and is
/// `Failed`.
#[derive(Drop)]
pub struct SqliteKeeper {
    rt: HostRuntime,
    // The database, once there was a start.
    base: Option<Base<FileStore<StoreDisk>>>,
    faults: u64,
}

impl SqliteKeeper {
    /// A keeper that wasn't started. No call has failed. It may go to another thread.
    pub fn new(rt: &HostRuntime) -> SqliteKeeper
        ensures unstarted { result.base ≡ None }
        ensures faultless { result.faults ≡ 0 }
    {
        sendable(SqliteKeeper {
            rt: *rt,
            base: None,
            faults: 0,
        })
    }

    /// Ends the keeper, and gives its two files, or none where there was no start. It copies the log into the
    /// database file, and reads both back. Ok says that the database file has the rows that were told, by
    /// itself, as it reads now and after a crash. `Failed` says that the database had shut, that the file
    /// failed, or that it holds anything else. After an error the rows are in the two together, and nothing
    /// is said of them. The keeper isn't started then, whatever the answer.
    pub fn close(&mut self) -> Result<Option<Files<StoreDisk>>, KeepFault>
        ensures ended { self.new.base ≡ None }
        ensures whole { IfOk result (IsLeft ⟦<StoreDisk as Disk>⟧ self.old.base) }
        ensures log { IfOk result (λ left. IfSome left (λ files.
            IsSettled ⟦<File as Disk>⟧ files.log.copy.bytes.items files.log.file)) }
        ensures db { IfOk result (λ left. IfSome left (λ files.
            IsSettled ⟦<File as Disk>⟧ files.db.copy.bytes.items files.db.file)) }
        ensures counts { Counts (keep_failed result) self.old.faults self.new.faults }
        ensures never_falls { self.old.faults ≤ self.new.faults }
    {
        let closed = match self.base.take() {
            Some(base) => match close_base(self.rt.alloc(), base) {
                Ok(files) => Ok(Some(files)),
                Err(fault) => Err(fault),
            },
            None => Ok(None),
        };
        count(keep_failed(&closed), &mut self.faults);
        closed
    }

    // Opens the database of the place.
    fn open(
        &self,
        alloc: Global,
        place: &Place,
        members: u32,
    ) -> Result<(Base<FileStore<StoreDisk>>, Rows), KeepFault>
        requires some { 1 ≤ members }
        requires few { members ≤ 100000 }
        ensures told { IfOk result (λ made. made.0 ≡ made.1) }
        ensures held { IfOk result (λ made.
            ForSome (held_at place.now members) (λ rows. made.1 ≡ rows)) }
    {
        match place {
            Place::Fresh => open_fresh(alloc, members),
            Place::File { path } => {
                let conn = open_file(&self.rt, path.bytes())?;
                let (base, rows) = found_base(alloc, conn, members)?;
                Ok((base, rows))
            }
        }
    }
}

// The same keeper, which may go to another thread.
fn sendable<K: Keeper + Send>(keeper: K) -> K
    ensures { result ≡ keeper }
{
    keeper
}

impl Keeper for SqliteKeeper {
    ghost rows = { λ keeper. keeper.base };

    ghost holds = { λ _ place members. held_at place members };

    ghost faults = { λ keeper. keeper.faults };

    ghost is_started = { λ keeper. IsSome keeper.base };

    /// The rows are told after a start that is Ok, and are those that it answers.
    fn start(&mut self, alloc: Global, place: &Place, members: u32) -> Result<Rows, KeepFault>
        requires some { 1 ≤ members }
        requires few { members ≤ 100000 }
        ensures started { OnOk result (IsSome self.new.base) }
        ensures tells { IfOk result (λ opening.
            ForSome self.new.base (λ known. known ≡ opening)) }
        ensures held { IfOk result (AreHeld self.new.base (held_at place.now members)) }
        ensures fresh { HoldsFresh place.now members (held_at place.now members) }
        ensures kept { OnErr result (self.new.base ≡ self.old.base) }
        ensures unstarted { OnErr result (IsSome self.new.base → IsSome self.old.base) }
        ensures counts { Counts (keep_failed result) self.old.faults self.new.faults }
        ensures never_falls { self.old.faults ≤ self.new.faults }
    {
        let opened = self.open(alloc, place, members);
        count(keep_failed(&opened), &mut self.faults);
        match opened {
            Ok((base, rows)) => {
                self.base = Some(base);
                Ok(rows)
            }
            Err(fault) => Err(fault),
        }
    }

    fn ask(&mut self, alloc: Global, key: &QKey) -> Result<Value, KeepFault>
        requires { IsSome self.old.base }
        ensures started { IsSome self.new.base }
        ensures tells { (known_rows : Tables) → self.new.base ≡ Some known_rows
            → (self.old.base ≡ Some known_rows)
            × IfOk result (λ value. value ≡ answer key.now known_rows) }
        ensures counts { Counts (keep_failed result) self.old.faults self.new.faults }
        ensures never_falls { self.old.faults ≤ self.new.faults }
    {
        let outcome = self.base.as_mut().unwrap().ask(alloc, key);
        count(keep_failed(&outcome), &mut self.faults);
        outcome
    }

    fn ask_after(&mut self, alloc: Global, txn: &Txn, key: &QKey) -> Result<Value, AfterFault>
        requires { IsSome self.old.base }
        ensures started { IsSome self.new.base }
        ensures tells { (known_rows : Tables) → self.new.base ≡ Some known_rows
            → (self.old.base ≡ Some known_rows) × AnswersAfter txn.now key.now known_rows result }
        ensures counts { Counts (staged_failed result) self.old.faults self.new.faults }
        ensures never_falls { self.old.faults ≤ self.new.faults }
    {
        let outcome = self.base.as_mut().unwrap().ask_after(alloc, txn, key);
        count(staged_failed(&outcome), &mut self.faults);
        outcome
    }

    fn commit(&mut self, alloc: Global, txn: &Txn) -> Result<(), AfterFault>
        requires { IsSome self.old.base }
        ensures started { IsSome self.new.base }
        ensures tells { (known_rows : Tables) → self.new.base ≡ Some known_rows
            → (before : Tables) × (self.old.base ≡ Some before)
            × Commits txn.now before known_rows result }
        ensures counts { Counts (staged_failed result) self.old.faults self.new.faults }
        ensures never_falls { self.old.faults ≤ self.new.faults }
    {
        let outcome = self.base.as_mut().unwrap().commit(alloc, txn);
        count(staged_failed(&outcome), &mut self.faults);
        outcome
    }
}

impl Telling for SqliteKeeper {
    ghost always_tells = { λ _ started. started };
}
