ghost use Rattle.std.specs.Prelude.{◌≡◌, [], ◌∷◌, ◌++◌, Some, OnOk, OnErr, IfOk, IfSome, IsTrue, filter, map, not};
ghost use Rattle.lease_table.specs.Leases.{has_token};
ghost use Rattle.std.specs.BTreeMap.{IsOrdered};
ghost use Rattle.rows_model.specs.declared.keys.QKey.{QKey};
ghost use Rattle.lease_table.specs.Standing.{key_cmp, quars_of, reads_of, leases_on, has_any, changed, PutsOn, Stays, SameLeases};

use crate::records::{KeyLeases, LeaseMap, Mode, Quar, ReadLease};
use rows_model::{Memory, QKey};
use std::alloc::Global;

/// What changes of a quarantine that stands.
#[derive(Clone, Copy)]
pub enum Change {
    /// It is to refresh now.
    ToRefresh,
    /// It has another deadline.
    ToDeadline(u64),
}

impl Change {
    /// The quarantine once the one of the token is changed.
    fn made(self, token: u64, quar: Quar) -> Quar
        ensures { result ≡ changed self token quar }
    {
        if quar.token != token {
            return quar;
        }
        match self {
            Change::ToRefresh => Quar {
                mode: Mode::Refresh,
                ..quar
            },
            Change::ToDeadline(deadline) => Quar { deadline, ..quar },
        }
    }
}

/// Records a lease to read the key, in the place of what was recorded there.
pub fn put_read(leases: &mut LeaseMap, key: QKey, read: ReadLease) -> Result<(), Memory>
    ensures ok { OnOk result (PutsOn key [] (read ∷ []) leases.old leases.new) }
    ensures err { OnErr result (Stays leases.old leases.new) }
{
    leases.insert(key, KeyLeases::Read(read))?;
    Ok(())
}

/// Records a quarantine behind those of the key, and ends any lease to read that is recorded.
pub fn put_quar(leases: &mut LeaseMap, alloc: Global, key: QKey, quar: Quar) -> Result<(), Memory>
    ensures ok { OnOk result
        (PutsOn key (quars_of (leases_on key leases.old) ++ quar ∷ []) [] leases.old leases.new) }
    ensures err { OnErr result (Stays leases.old leases.new) }
{
    match leases.get_mut(&key) {
        Some(there) => add_quar(there, alloc, quar),
        None => {
            leases.insert(key, only_quar(alloc, quar)?)?;
            Ok(())
        }
    }
}

/// Ends the lease to read that is recorded on the key.
pub fn drop_read(leases: &mut LeaseMap, key: &QKey)
    ensures { PutsOn key.now [] [] leases.old leases.new }
{
    take_out(leases, key);
    free_emptied(leases);
}

/// Ends the quarantine on the key that has the token.
pub fn drop_quar(leases: &mut LeaseMap, key: &QKey, token: u64)
    ensures { PutsOn key.now
        (filter (λ q. not (has_token token q)) (quars_of (leases_on key.now leases.old)))
        (reads_of (leases_on key.now leases.old)) leases.old leases.new }
{
    end_quar(leases, key, token);
    free_emptied(leases);
}

/// Takes the key out, with all that is recorded on it.
fn take_out(leases: &mut LeaseMap, key: &QKey)
    ensures { PutsOn key.now [] [] leases.old leases.new }
{
    leases.remove(key);
}

/// Ends the quarantine on the key that has the token, and takes the key out where that was the last.
fn end_quar(leases: &mut LeaseMap, key: &QKey, token: u64)
    ensures { PutsOn key.now
        (filter (λ q. not (has_token token q)) (quars_of (leases_on key.now leases.old)))
        (reads_of (leases_on key.now leases.old)) leases.old leases.new }
{
    let Some(there) = leases.get_mut(key) else {
        return;
    };
    if !keeps_any_without(there, token) {
        leases.remove(key);
    }
}

/// Gives back the node that a map keeps when it was emptied. The heap would keep what lies before that.
fn free_emptied(leases: &mut LeaseMap)
    requires { IsOrdered key_cmp leases.old }
    ensures same { (key : QKey) → leases_on key leases.new ≡ leases_on key leases.old }
    ensures ordered { IsOrdered key_cmp leases.new }
{
    if leases.is_empty() {
        leases.clear();
    }
}

/// Changes the quarantine on the key that has the token. It takes no memory.
pub fn change_quar(leases: &mut LeaseMap, key: &QKey, token: u64, change: Change)
    requires { IfSome (leases_on key.now leases.old) (λ there. IsTrue (has_any there)) }
    ensures { PutsOn key.now
        (map (changed change token) (quars_of (leases_on key.now leases.old)))
        (reads_of (leases_on key.now leases.old)) leases.old leases.new }
{
    let Some(there) = leases.get_mut(key) else {
        return;
    };
    change_in(there, token, change);
}

/// The leases of a key that has only this quarantine.
fn only_quar(alloc: Global, quar: Quar) -> Result<KeyLeases, Memory>
    ensures quars { IfOk result (λ leases. quars_of (Some leases) ≡ quar ∷ []) }
    ensures reads { IfOk result (λ leases. reads_of (Some leases) ≡ []) }
    ensures any { IfOk result (λ leases. IsTrue (has_any leases)) }
{
    let mut quars = Vec::new(alloc);
    quars.push(quar)?;
    Ok(KeyLeases::Quarantines(quars))
}

/// Adds a quarantine behind those that are there, and ends a lease to read.
fn add_quar(there: &mut KeyLeases, alloc: Global, quar: Quar) -> Result<(), Memory>
    ensures quars { OnOk result
        (quars_of (Some there.new) ≡ quars_of (Some there.old) ++ quar ∷ []) }
    ensures reads { OnOk result (reads_of (Some there.new) ≡ []) }
    ensures any { OnOk result (IsTrue (has_any there.new)) }
    ensures err { OnErr result (SameLeases there.old there.new) }
{
    match there {
        KeyLeases::Quarantines(quars) => quars.push(quar)?,
        KeyLeases::Read(_) => *there = only_quar(alloc, quar)?,
    }
    Ok(())
}

/// Ends the quarantine that has the token, and says whether any lease is left.
fn keeps_any_without(there: &mut KeyLeases, token: u64) -> bool
    ensures quars { quars_of (Some there.new)
        ≡ filter (λ q. not (has_token token q)) (quars_of (Some there.old)) }
    ensures reads { reads_of (Some there.new) ≡ reads_of (Some there.old) }
    ensures any { result ≡ has_any there.new }
{
    match there {
        KeyLeases::Quarantines(quars) => {
            quars.retain(|quar| quar.token != token);
            !quars.is_empty()
        }
        KeyLeases::Read(_) => true,
    }
}

/// Changes the quarantine that has the token.
fn change_in(there: &mut KeyLeases, token: u64, change: Change)
    ensures quars { quars_of (Some there.new)
        ≡ map (changed change token) (quars_of (Some there.old)) }
    ensures reads { reads_of (Some there.new) ≡ reads_of (Some there.old) }
    ensures any { has_any there.new ≡ has_any there.old }
{
    match there {
        KeyLeases::Quarantines(quars) => change_each(quars, token, change),
        KeyLeases::Read(_) => {}
    }
}

/// Changes the quarantine among these that has the token.
fn change_each(quars: &mut Vec<Quar>, token: u64, change: Change)
    ensures { quars.new.items ≡ map (changed change token) quars.old.items }
{
    for quar in quars.iter_mut() {
        *quar = change.made(token, *quar);
    }
}
