ghost use Rattle.std.specs.Prelude.{◌≡◌, ◌==◌, ◌&&◌, OnOk, if◌then◌else◌};
ghost use Rattle.rows_model.specs.Key.{same_key};
ghost use Rattle.rows_model.specs.Changes.{has_key};
ghost use Rattle.run_audit.specs.declared.holds.Hold.{Hold};
ghost use Rattle.run_audit.specs.Numbers.{number_of};

use crate::holds::Hold;
use rows_model::{Memory, QKey, Sid};
use std::collections::BTreeMap;

/// The number of a session's last commit on a key, where it has one.
pub type Numbers = BTreeMap<Hold, u64>;

/// The number of the session's last commit on the key, or 0.
pub fn number_at(numbers: &Numbers, sid: Sid, key: QKey) -> u64
    ensures { result ≡ number_of (record { sid = sid; key = key }) numbers.now }
{
    numbers.get(&Hold { sid, key }).copied().unwrap_or(0)
}

/// Notes that the session's commit on these keys has this number.
pub fn note_number(
    numbers: &mut Numbers,
    sid: Sid,
    keys: &[QKey],
    number: u64,
) -> Result<(), Memory>
    ensures { OnOk result ((hold : Hold) → number_of hold numbers.new ≡
        (if (sid.number == hold.sid.number) && has_key hold.key keys.now then number
        else number_of hold numbers.old)) }
{
    for key in keys {
        put_number(numbers, sid, key, number)?;
    }
    Ok(())
}

/// Notes that the session's commit on this key has this number.
fn put_number(numbers: &mut Numbers, sid: Sid, key: &QKey, number: u64) -> Result<(), Memory>
    ensures { OnOk result ((hold : Hold) → number_of hold numbers.new ≡
        (if (sid.number == hold.sid.number) && same_key hold.key key.now then number
        else number_of hold numbers.old)) }
{
    numbers.insert(Hold { sid, key: *key }, number)?;
    Ok(())
}
