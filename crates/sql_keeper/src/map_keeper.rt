ghost use Rattle.std.specs.Prelude.{◌≡◌, false, ◌+◌, ◌≤◌, ◌↔◌, Option, Some, None, Ok, Err, IsTrue, IfOk, OnOk, OnErr, IsSome, Contains};
ghost use Rattle.std.specs.Bool.{IsFalse};
ghost use Rattle.std.specs.Option.{ForSome};
ghost use Rattle.iq_outside.specs.Outside.{count_up};
ghost use Rattle.rows_model.specs.Rows.{Tables, start_tables};
ghost use Rattle.rows_model.specs.Query.{answer};
ghost use Rattle.sql_keeper.specs.Keepers.{Commits, AnswersAfter};
ghost use Rattle.sql_keeper.specs.Faults.{Counts, keep_failed, staged_failed};
ghost use Rattle.sql_keeper.specs.MapKeepers.{MapView, counted, with_rows};

use crate::faults::{AfterFault, KeepFault};
use crate::keepers::{Keeper, Place, Telling};
use rows_model::{QKey, Rows, Txn, Value, ask, refresh};
use std::alloc::Global;
use std::marker::Model;

/// A keeper in memory. It tells its rows once it was started, takes a file as a fresh place, and fails
/// at the calls that it was told to fail at.
#[derive(Drop)]
pub struct MapKeeper {
    rows: Option<Rows>,
    fails: Vec<u64>,
    calls: u64,
    faults: u64,
}

impl Model for MapKeeper {
    ghost use Rattle.sql_keeper.specs.MapKeepers.{MapView};

    ghost Value = { MapView };

    ghost view = { λ k. record { rows = k.rows; fails = k.fails.items; calls = k.calls; faults = k.faults } };
}

// The answer to a key on the rows after a transaction: the one before it, with the changes made in it.
fn staged(alloc: Global, rows: &Rows, txn: &Txn, key: &QKey) -> Result<Value, AfterFault>
    ensures answers { AnswersAfter txn.now key.now rows.now result }
    ensures never_fails { IsFalse (staged_failed result) }
{
    if let Some(index) = rows.judge(txn) {
        return Err(AfterFault::Rejected { index });
    }
    let before = ask(alloc, rows, key)?;
    Ok(refresh(alloc, key, &before, txn)?.unwrap())
}

impl MapKeeper {
    /// A keeper that fails at the calls with these numbers, counted from 1, `start` among them.
    pub fn new(fails: Vec<u64>) -> MapKeeper
        ensures { result ≡ record { rows = None; fails = fails.items; calls = 0; faults = 0 } }
    {
        MapKeeper {
            rows: None,
            fails,
            calls: 0,
            faults: 0,
        }
    }

    // Counts a call, and tells whether it fails.
    fn fails_now(&mut self) -> bool
        ensures fails { IsTrue result ↔ Contains self.old.fails (count_up self.old.calls) }
        ensures counted { self.new ≡ counted result self.old }
        ensures counts { Counts result self.old.faults self.new.faults }
        ensures never_falls { self.old.faults ≤ self.new.faults }
    {
        self.calls = self.calls.saturating_add(1);
        let fails = self.fails.contains(&self.calls);
        if fails {
            self.faults = self.faults.saturating_add(1);
        }
        fails
    }
}

impl Keeper for MapKeeper {
    ghost rows = { λ keeper. keeper.rows };

    ghost holds = { λ keeper place members. Some (start_tables members) };

    ghost faults = { λ keeper. keeper.faults };

    ghost is_started = { λ keeper. IsSome keeper.rows };

    /// Fails exactly at the calls whose numbers it was given, and else makes the rows afresh, whatever
    /// the place.
    fn start(&mut self, alloc: Global, _place: &Place, members: u32) -> Result<Rows, KeepFault>
        requires some { 1 ≤ members }
        requires few { members ≤ 100000 }
        ensures started { OnOk result (IsSome self.new.rows) }
        ensures tells { IfOk result (λ opening. ForSome self.new.rows (λ known. known ≡ opening)) }
        ensures kept { OnErr result (self.new.rows ≡ self.old.rows) }
        ensures unstarted { OnErr result (IsSome self.new.rows → IsSome self.old.rows) }
        ensures counts { Counts (keep_failed result) self.old.faults self.new.faults }
        ensures never_falls { self.old.faults ≤ self.new.faults }

        ensures fails { IsTrue (keep_failed result) ↔ Contains self.old.fails
            (count_up self.old.calls) }
        ensures opening { IfOk result (λ opening. opening ≡ start_tables members) }
        ensures ok { IfOk result (λ opening.
            self.new ≡ counted false (with_rows (Some opening) self.old)) }
        ensures err { OnErr result (self.new ≡ counted (keep_failed result) self.old) }
    {
        if self.fails_now() {
            return Err(KeepFault::Failed);
        }
        let rows = Rows::start(alloc, members)?;
        let opening = rows.copy()?;
        self.rows = Some(rows);
        Ok(opening)
    }

    /// Fails exactly at the calls whose numbers it was given.
    fn ask(&mut self, alloc: Global, key: &QKey) -> Result<Value, KeepFault>
        requires { IsSome self.old.rows }
        ensures started { IsSome self.new.rows }
        ensures tells { (known_rows : Tables) → self.new.rows ≡ Some known_rows
            → (self.old.rows ≡ Some known_rows) × IfOk result (λ value. value ≡ answer key.now known_rows) }
        ensures counts { Counts (keep_failed result) self.old.faults self.new.faults }
        ensures never_falls { self.old.faults ≤ self.new.faults }

        ensures fails { IsTrue (keep_failed result) ↔ Contains self.old.fails
            (count_up self.old.calls) }
        ensures same { self.new ≡ counted (keep_failed result) self.old }
    {
        if self.fails_now() {
            return Err(KeepFault::Failed);
        }
        Ok(ask(alloc, self.rows.as_ref().unwrap(), key)?)
    }

    /// Fails exactly at the calls whose numbers it was given.
    fn ask_after(&mut self, alloc: Global, txn: &Txn, key: &QKey) -> Result<Value, AfterFault>
        requires { IsSome self.old.rows }
        ensures started { IsSome self.new.rows }
        ensures tells { (known_rows : Tables) → self.new.rows ≡ Some known_rows
            → (self.old.rows ≡ Some known_rows) × AnswersAfter txn.now key.now known_rows result }
        ensures counts { Counts (staged_failed result) self.old.faults self.new.faults }
        ensures never_falls { self.old.faults ≤ self.new.faults }

        ensures fails { IsTrue (staged_failed result) ↔ Contains self.old.fails
            (count_up self.old.calls) }
        ensures same { self.new ≡ counted (staged_failed result) self.old }
    {
        if self.fails_now() {
            return Err(AfterFault::Failed);
        }
        staged(alloc, self.rows.as_ref().unwrap(), txn, key)
    }

    /// Fails exactly at the calls whose numbers it was given.
    fn commit(&mut self, _alloc: Global, txn: &Txn) -> Result<(), AfterFault>
        requires { IsSome self.old.rows }
        ensures started { IsSome self.new.rows }
        ensures tells { (known_rows : Tables) → self.new.rows ≡ Some known_rows
            → (before : Tables) × (self.old.rows ≡ Some before) × Commits txn.now before known_rows result }
        ensures counts { Counts (staged_failed result) self.old.faults self.new.faults }
        ensures never_falls { self.old.faults ≤ self.new.faults }

        ensures fails { IsTrue (staged_failed result) ↔ Contains self.old.fails
            (count_up self.old.calls) }
        ensures same { self.new ≡ counted (staged_failed result)
            (with_rows self.new.rows self.old) }
    {
        if self.fails_now() {
            return Err(AfterFault::Failed);
        }
        let mut rows = self.rows.take().unwrap();
        let made = rows.apply(txn);
        self.rows = Some(rows);
        Ok(made?)
    }
}

impl Telling for MapKeeper {
    ghost always_tells = { λ _ started. started };
}
