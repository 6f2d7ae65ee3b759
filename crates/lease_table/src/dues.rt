ghost use Rattle.std.specs.Prelude.{◌≡◌, ◌<◌, Some, AllPairs, IfSome, IfNone};
ghost use Rattle.std.specs.BinaryHeap.{heap_items, heap_len};
ghost use Rattle.rows_model.specs.declared.keys.QKey.{QKey};
ghost use Rattle.lease_table.specs.Leases.{first, StandBeside};
ghost use Rattle.lease_table.specs.Standing.{stands_in};
ghost use Rattle.lease_table.specs.Index.{ListsEach, IsSound, AllAhead};
ghost use Rattle.lease_table.specs.Expiry.{StandsDue, NoneDue, NoneDueBefore};

use crate::index::{Found, Index, Term};
use crate::lookups::quar_at;
use crate::records::{Due, LeaseMap};

/// The quarantine whose deadline has come that is first by key, and then by token. The index must have
/// been settled for this time. What is found and isn't due is put back among the terms on the way, or left
/// out where it stands no longer.
pub fn first_due(leases: &LeaseMap, index: &mut Index, now: u64) -> Option<Due>
    requires sound { IsSound index.old }
    requires lists { ListsEach (stands_in leases.now) index.old }
    requires ahead { AllAhead now index.old }
    requires beside { (key : QKey) → AllPairs StandBeside (stands_in leases.now key) }
    ensures sound { IsSound index.new }
    ensures lists { ListsEach (stands_in leases.now) index.new }
    ensures due { IfSome result (StandsDue now (stands_in leases.now)) }
    ensures least { IfSome result (NoneDueBefore now (stands_in leases.now)) }
    ensures none { IfNone result (NoneDue now (stands_in leases.now)) }
{
    while let Some(found) = index.found_first() {
        if let Some(due) = due_or_later(leases, index, now, found) {
            return Some(due);
        }
    }
    None
}

/// The quarantine that is found first, where it is due. Else it is found no longer: where it stands, its
/// term is listed by the deadline that it has now.
fn due_or_later(leases: &LeaseMap, index: &mut Index, now: u64, found: Found) -> Option<Due>
    requires sound { IsSound index.old }
    requires lists { ListsEach (stands_in leases.now) index.old }
    requires ahead { AllAhead now index.old }
    requires first { first (heap_items index.old.found) ≡ Some (record { 0 = found }) }
    ensures sound { IsSound index.new }
    ensures lists { ListsEach (stands_in leases.now) index.new }
    ensures ahead { AllAhead now index.new }
    ensures due { IfSome result (StandsDue now (stands_in leases.now)) }
    ensures which { IfSome result
        (λ due. (due.key ≡ found.key) × (due.token ≡ found.token)) }
    ensures fewer { IfNone result (heap_len index.new.found < heap_len index.old.found) }
{
    match quar_at(leases, &found.key, found.token) {
        Some(quar) => {
            if quar.deadline <= now {
                return Some(Due {
                    key: found.key,
                    sid: quar.sid,
                    token: found.token,
                });
            }
            index.forget_first();
            index.put(Term::new(found.key, &quar));
            None
        }
        None => {
            index.forget_first();
            None
        }
    }
}
