ghost use Rattle.std.specs.Prelude.{◌≡◌, ◌≤◌, [], Ok, Err, true, false, IsSome, All};
ghost use Rattle.iq_outside.specs.Outside.{Rose};
ghost use Rattle.rows_model.specs.Query.{answer};
ghost use Rattle.sql_keeper.specs.declared.faults.KeepFault.TheVariants as keep;
ghost use Rattle.shard_dump.specs.Loads.{AreAnswers, HasAsked};

use crate::rows::DumpRow;
use sql_keeper::{KeepFault, Keeper, Start, Store};

/// Asks a store whose log is empty for the key of each row, and answers whether each value is what it
/// says. It stops at the first that isn't. So rows that came from outside can be loaded beside it.
///
/// A call that fails is handed on, and is counted by the store.
pub fn are_answers<K: Keeper, N: Start>(
    store: &mut Store<K, N>,
    rows: &[DumpRow],
) -> Result<bool, KeepFault>
    requires log { store.old.ledger.log ≡ [] }
    ensures answers { result ≡ Ok true →
        AreAnswers store.new.known_rows store.new.ledger.opening rows.now }
    ensures differ { result ≡ Ok false → IsSome store.new.known_rows
        → All (λ row. row.value ≡ answer row.key store.new.ledger.opening) rows.now → ⊥ }
    ensures asked { HasAsked store.old store.new }
    ensures failed_rose { result ≡ Err keep.Failed → Rose store.old.faults store.new.faults }
    ensures counted { result ≡ Err keep.Failed → 1 ≤ store.new.ledger.failed }
{
    for row in rows {
        let answer = store.ask(&row.key)?;
        if answer.value.bytes() != row.value.bytes() {
            return Ok(false);
        }
    }
    Ok(true)
}
