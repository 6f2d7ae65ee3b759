ghost use Rattle.std.specs.Prelude.{◌≡◌};
ghost use Rattle.case_tables.specs.Compatibility.{way_number};

use rows_model::{QKey, Sid};
use std::collections::BTreeMap;

/// What a session means to do with a key that it quarantines.
#[derive(Clone, Copy, Debug, PartialEq, Eq)]
pub enum Mode {
    /// To drop the value.
    Invalidate,
    /// To put a new value in place of the old one.
    Refresh,
    /// To add a number to a count.
    Delta,
}

impl Mode {
    ghost use Rattle.lease_table.specs.Leases.{way_of};

    /// The place of the mode among the modes.
    pub fn place(self) -> usize
        ensures { result ≡ way_number (way_of self) }
    {
        match self {
            Mode::Invalidate => 0,
            Mode::Refresh => 1,
            Mode::Delta => 2,
        }
    }
}

/// A quarantine lease on a key: nobody else stores a value there while it stands.
#[derive(Clone, Copy, PartialEq, Eq)]
pub struct Quar {
    pub sid: Sid,
    pub mode: Mode,
    pub token: u64,
    /// From this time on the quarantine is due to be ended by others.
    pub deadline: u64,
    /// What is added to the count, in mode Delta.
    pub shift: i32,
}

/// A lease to read a key: its session asks the store and may then store the answer by the token.
#[derive(Clone, Copy)]
pub struct ReadLease {
    pub sid: Sid,
    pub token: u64,
    /// From this time on the lease counts as gone.
    pub deadline: u64,
}

/// What a lease is, as contracts see it.
#[derive(Clone, Copy)]
pub enum Held {
    Read(ReadLease),
    Quarantine(Quar),
}

/// A lease that is recorded on a key, as contracts see it.
#[derive(Clone, Copy)]
pub struct Lease {
    pub key: QKey,
    pub held: Held,
}

/// The leases of one key.
#[derive(Clone, Drop)]
pub enum KeyLeases {
    /// One to read.
    Read(ReadLease),
    /// Quarantines, in order of token.
    Quarantines(Vec<Quar>),
}

/// The leases of each key that has any, in order of the keys.
pub type LeaseMap = BTreeMap<QKey, KeyLeases>;

/// A quarantine that is past its deadline.
#[derive(Clone, Copy, PartialEq, Eq)]
pub struct Due {
    pub key: QKey,
    pub sid: Sid,
    pub token: u64,
}

/// When a lease to read a key lapses, and which lease it is. They are in order of their deadlines.
#[derive(Clone, Copy, PartialEq, Eq, PartialOrd, Ord)]
pub struct Lapse {
    pub deadline: u64,
    pub key: QKey,
    pub token: u64,
}
