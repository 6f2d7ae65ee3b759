ghost use Rattle.std.specs.Prelude.{◌≡◌, option_map};
ghost use Rattle.entry_table.specs.Entries.{lookup};
ghost use Rattle.key_shard.specs.Kept.{IsKept, IsLook, is_fresh, steps_of, terms_of};

use crate::bodies::Body;
use crate::steps::Blocker;
use rows_model::{QKey, Sid, Value};

/// The first row of the grid where the asker holds a quarantine.
const OWN_ROWS: usize = 5;

/// What a get finds.
#[derive(Clone, Copy)]
pub enum Look {
    /// The asker's own quarantine.
    Own,
    /// An entry with a stamp of at least the floor.
    Found,
    /// No such entry, and a lease that stands in the way.
    Waits(Blocker),
    /// No such entry, and no lease.
    Free,
}

/// Whether an entry was found, with a stamp of at least the floor.
pub fn is_fresh(found: Option<(&Value, u64)>, floor: u64) -> bool
    ensures { result ≡ is_fresh floor (option_map (λ found. (found.0.now, found.1)) found.entry) }
{
    match found {
        Some((_, stamp)) => floor <= stamp,
        None => false,
    }
}

impl Body {
    /// What a get of the key finds, whose entry was found before, if it has one.
    pub fn look(
        &self,
        key: &QKey,
        who: Sid,
        floor: u64,
        now: u64,
        found: Option<(&Value, u64)>,
    ) -> Look
        requires kept { IsKept self.now }
        requires found { option_map (λ found. (found.0.now, found.1)) found
            ≡ lookup key.now self.now.entries.list }
        ensures { IsLook (terms_of self.now) (steps_of self.now) key.now who floor now result }
    {
        let row = self.leases.standing(key, who, now);
        if row >= OWN_ROWS {
            return Look::Own;
        }
        if is_fresh(found, floor) {
            return Look::Found;
        }
        match row {
            0 => Look::Free,
            1 => Look::Waits(Blocker::I),
            2..=4 => Look::Waits(Blocker::Q),
            _ => unreachable!(),
        }
    }
}
