ghost use Rattle.std.specs.Prelude.{◌≡◌, max, OnOk};
ghost use Rattle.rows_model.specs.declared.keys.QKey.{QKey};
ghost use Rattle.run_audit.specs.Numbers.{floor_of, released_number};

use crate::numbers::{Numbers, number_at};
use key_shard::Step;
use rows_model::{Memory, QKey};
use std::collections::BTreeMap;

/// The greatest number of a commit on a key whose quarantine there has ended, where there is one.
pub type Floors = BTreeMap<QKey, u64>;

/// The floor of the key, or 0.
pub fn floor_at(floors: &Floors, key: &QKey) -> u64
    ensures { result ≡ floor_of key.now floors.now }
{
    floors.get(key).copied().unwrap_or(0)
}

/// Raises the floor of the key whose quarantine the step ended, if it did, to the number of that
/// session's last commit there.
pub fn raise_floor(floors: &mut Floors, numbers: &Numbers, step: &Step) -> Result<(), Memory>
    ensures { OnOk result ((key : QKey) → floor_of key floors.new
        ≡ max (floor_of key floors.old) (released_number numbers.now key step.now)) }
{
    if let Step::Released { key, sid, .. } = step {
        let number = number_at(numbers, *sid, *key);
        if floor_at(floors, key) < number {
            floors.insert(*key, number)?;
        }
    }
    Ok(())
}
