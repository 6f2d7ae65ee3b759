ghost use Rattle.std.specs.Prelude.{◌≡◌, ◌≤◌, IfOk, IfSome, IfNone, OnOk, OnErr, IsTrue, IsFalse, not, true, false, if◌then◌else◌};
ghost use Rattle.rows_model.specs.declared.keys.QKey.{QKey};
ghost use Rattle.lease_table.specs.Lapses.{lapse_of, is_lapse, is_reader, has_lapse};
ghost use Rattle.lease_table.specs.declared.records.Lapse.{Lapse};

use crate::records::{Lapse, ReadLease};
use rows_model::{Memory, QKey};
use std::alloc::Global;
use std::collections::BTreeSet;

/// The leases to read by their deadlines: one entry for each that is recorded. One that ends is taken out
/// at once, so this takes memory for those alone that are recorded.
#[derive(Drop)]
pub struct Lapses {
    entries: BTreeSet<Lapse>,
}

impl Lapse {
    /// When a lease to read a key lapses.
    pub fn of(key: QKey, read: &ReadLease) -> Lapse
        ensures { result ≡ lapse_of key read.now }
    {
        Lapse {
            deadline: read.deadline,
            key,
            token: read.token,
        }
    }
}

impl Lapses {
    /// No entry.
    pub fn new(alloc: Global) -> Lapses
        ensures { (lapse : Lapse) → IsFalse (has_lapse lapse result) }
    {
        Lapses {
            entries: BTreeSet::new(alloc),
        }
    }

    /// The same entries, in memory of their own. Where that is refused, `Memory` comes.
    pub fn copy(&self) -> Result<Lapses, Memory>
        ensures { IfOk result (λ copy. (lapse : Lapse)
            → has_lapse lapse copy ≡ has_lapse lapse self.now) }
    {
        let entries = self.entries.clone()?;
        Ok(Lapses { entries })
    }

    /// Puts in an entry, and says whether it wasn't there before. Where there is no memory, all is as before.
    pub fn list(&mut self, lapse: Lapse) -> Result<bool, Memory>
        ensures added { IfOk result (λ added. added ≡ not (has_lapse lapse self.old)) }
        ensures ok { OnOk result ((other : Lapse) → has_lapse other self.new
            ≡ (if is_lapse lapse other then true else has_lapse other self.old)) }
        ensures err { OnErr result ((other : Lapse)
            → has_lapse other self.new ≡ has_lapse other self.old) }
    {
        Ok(self.entries.insert(lapse)?)
    }

    /// Takes out an entry, if it is there.
    pub fn forget(&mut self, lapse: &Lapse)
        ensures { (other : Lapse) → has_lapse other self.new
            ≡ (if is_lapse lapse.now other then false else has_lapse other self.old) }
    {
        let _ = self.entries.remove(lapse);
        if self.entries.is_empty() {
            // An emptied set keeps a node, and the heap what lies before that.
            self.entries.clear();
        }
    }

    /// Takes out the entry of a lease to read the key, if it is one.
    pub fn forget_reader(&mut self, key: QKey, reader: Option<ReadLease>)
        ensures { (other : Lapse) → has_lapse other self.new
            ≡ (if is_reader key reader other then false else has_lapse other self.old) }
    {
        if let Some(read) = reader {
            self.forget(&Lapse::of(key, &read));
        }
    }

    /// The entry with the earliest deadline.
    pub fn first(&self) -> Option<Lapse>
        ensures listed { IfSome result (λ lapse. IsTrue (has_lapse lapse self.now)) }
        ensures least { IfSome result (λ first. (other : Lapse)
            → IsTrue (has_lapse other self.now) → first.deadline ≤ other.deadline) }
        ensures none { IfNone result ((other : Lapse) → IsFalse (has_lapse other self.now)) }
    {
        self.entries.first().copied()
    }
}
