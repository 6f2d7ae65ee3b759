//! Changes of what is recorded to read, with the entry of each lease by its deadline.
ghost use Rattle.std.specs.Prelude.{◌≡◌, [], ◌∷◌, ◌++◌, OnOk, OnErr};
ghost use Rattle.std.specs.BTreeMap.{IsOrdered};
ghost use Rattle.lease_table.specs.Leases.{first};
ghost use Rattle.lease_table.specs.Standing.{key_cmp, quars_of, reads_of, leases_on, PutsOn, Stays};
ghost use Rattle.lease_table.specs.Lapses.{AreListed};

use crate::edits::{drop_read, put_quar, put_read};
use crate::lapses::Lapses;
use crate::records::{Lapse, LeaseMap, Quar, ReadLease};
use rows_model::{Memory, QKey};
use std::alloc::Global;

/// Records a lease to read the key, in the place of the one that is recorded there.
pub fn record_read(
    leases: &mut LeaseMap,
    lapses: &mut Lapses,
    key: QKey,
    was: Option<ReadLease>,
    read: ReadLease,
) -> Result<(), Memory>
    requires ordered { IsOrdered key_cmp leases.old }
    requires listed { AreListed leases.old lapses.old }
    requires was { was ≡ first (reads_of (leases_on key leases.old)) }
    ensures ok { OnOk result (PutsOn key [] (read ∷ []) leases.old leases.new) }
    ensures err { OnErr result (Stays leases.old leases.new) }
    ensures listed { AreListed leases.new lapses.new }
{
    let lapse = Lapse::of(key, &read);
    let added = lapses.list(lapse)?;
    if put_read(leases, key, read).is_err() {
        if added {
            lapses.forget(&lapse);
        }
        return Err(Memory);
    }
    if added {
        lapses.forget_reader(key, was);
    }
    Ok(())
}

/// Records a quarantine behind those of the key, and ends the lease to read that is recorded.
pub fn record_quar(
    leases: &mut LeaseMap,
    lapses: &mut Lapses,
    alloc: Global,
    key: QKey,
    was: Option<ReadLease>,
    quar: Quar,
) -> Result<(), Memory>
    requires ordered { IsOrdered key_cmp leases.old }
    requires listed { AreListed leases.old lapses.old }
    requires was { was ≡ first (reads_of (leases_on key leases.old)) }
    ensures ok { OnOk result
        (PutsOn key (quars_of (leases_on key leases.old) ++ quar ∷ []) [] leases.old leases.new) }
    ensures err { OnErr result (Stays leases.old leases.new) }
    ensures listed { AreListed leases.new lapses.new }
{
    put_quar(leases, alloc, key, quar)?;
    lapses.forget_reader(key, was);
    Ok(())
}

/// Ends the lease to read that is recorded on the key.
pub fn end_read(leases: &mut LeaseMap, lapses: &mut Lapses, key: &QKey, was: Option<ReadLease>)
    requires listed { AreListed leases.old lapses.old }
    requires was { was ≡ first (reads_of (leases_on key.now leases.old)) }
    ensures puts { PutsOn key.now [] [] leases.old leases.new }
    ensures listed { AreListed leases.new lapses.new }
{
    drop_read(leases, key);
    lapses.forget_reader(*key, was);
}
