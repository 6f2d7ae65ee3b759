ghost use Rattle.std.specs.Prelude.{◌≡◌, ℕ, ◌≤◌, Option, Some, IfOk, OnOk, OnErr};
ghost use Rattle.std.specs.Option.{ForSome};
ghost use Rattle.rows_model.specs.Rows.{Tables};
ghost use Rattle.rows_model.specs.Query.{answer};
ghost use Rattle.sql_keeper.specs.Keepers.{AreHeld, HoldsFresh, Commits, AnswersAfter};
ghost use Rattle.sql_keeper.specs.Faults.{Counts, keep_failed, staged_failed};

use crate::faults::{AfterFault, KeepFault};
use rows_model::{QKey, Rows, Txn, Value};
use std::alloc::Global;

/// Where the rows of a store lie.
#[derive(Drop)]
pub enum Place {
    /// In memory, made afresh at each start.
    Fresh,
    /// In the file of this path, with the rows that it has.
    File { path: Value },
}

/// Who keeps the rows of a store.
///
/// Contracts see four things of a keeper: `rows`, its rows, or `None` where it doesn't tell them;
/// `holds`, the rows that a start with so many members finds at a place, where that is told;
/// `faults`, how often it failed; and `is_started`, that it was started. Only `start` begins the
/// telling: where rows are told after another call they were told before it. No refusal changes
/// rows that are told. The count of faults never falls, and rises in the calls that answer `Failed`
/// and in no other: so no keeper fails, tries again and hides it.
pub trait Keeper {
    ghost use Rattle.sql_keeper.specs.declared.keepers.Place.{Place};

    ghost rows: { Self → Option Tables };

    ghost holds: { Self → Place → ℕ → Option Tables };

    ghost faults: { Self → ℕ };

    ghost is_started: { Self → Type 0 };

    /// Starts the keeper, and answers the rows that it has: those of the place. A fresh place has so
    /// many members, and no links. After a refusal the keeper is started only where it was before.
    fn start(&mut self, alloc: Global, place: &Place, members: u32) -> Result<Rows, KeepFault>
        requires some { 1 ≤ members }
        requires few { members ≤ 100000 }
        ensures started { OnOk result (is_started self.new) }
        ensures tells { IfOk result (λ opening. ForSome (rows self.new) (λ known. known ≡ opening)) }
        ensures held { IfOk result (AreHeld (rows self.new) (holds self.old place.now members)) }
        ensures fresh { HoldsFresh place.now members (holds self.old place.now members) }
        ensures kept { OnErr result (rows self.new ≡ rows self.old) }
        ensures unstarted { OnErr result (is_started self.new → is_started self.old) }
        ensures counts { Counts (keep_failed result) (faults self.old) (faults self.new) }
        ensures never_falls { faults self.old ≤ faults self.new };

    /// The answer to a key on the rows.
    fn ask(&mut self, alloc: Global, key: &QKey) -> Result<Value, KeepFault>
        requires { is_started self.old }
        ensures started { is_started self.new }
        ensures tells { (known_rows : Tables) → rows self.new ≡ Some known_rows
            → (rows self.old ≡ Some known_rows) × IfOk result (λ value. value ≡ answer key.now known_rows) }
        ensures counts { Counts (keep_failed result) (faults self.old) (faults self.new) }
        ensures never_falls { faults self.old ≤ faults self.new };

    /// The answer to a key on the rows as they were after a transaction, which isn't made.
    fn ask_after(&mut self, alloc: Global, txn: &Txn, key: &QKey) -> Result<Value, AfterFault>
        requires { is_started self.old }
        ensures started { is_started self.new }
        ensures tells { (known_rows : Tables) → rows self.new ≡ Some known_rows
            → (rows self.old ≡ Some known_rows) × AnswersAfter txn.now key.now known_rows result }
        ensures counts { Counts (staged_failed result) (faults self.old) (faults self.new) }
        ensures never_falls { faults self.old ≤ faults self.new };

    /// Makes the changes of a transaction, all or none.
    fn commit(&mut self, alloc: Global, txn: &Txn) -> Result<(), AfterFault>
        requires { is_started self.old }
        ensures started { is_started self.new }
        ensures tells { (known_rows : Tables) → rows self.new ≡ Some known_rows
            → (before : Tables) × (rows self.old ≡ Some before) × Commits txn.now before known_rows result }
        ensures counts { Counts (staged_failed result) (faults self.old) (faults self.new) }
        ensures never_falls { faults self.old ≤ faults self.new };
}

/// A keeper that tells its rows for good: from its start on, whatever its calls answer.
///
/// What is said of a run where the keeper tells its rows is said of each run over such a keeper, with no
/// premise.
pub trait Telling: Keeper {
    ghost use Rattle.std.specs.Prelude.{IsSome};

    ghost always_tells: { (keeper : Self) → Self.is_started keeper → IsSome (Self.rows keeper) };
}
