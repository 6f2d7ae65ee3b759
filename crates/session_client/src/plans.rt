ghost use Rattle.std.specs.Prelude.{◌≡◌, IfOk};
ghost use Rattle.session_client.specs.Plans.{changes_of, writes};

use lease_table::Mode;
use rows_model::{Change, Memory, QKey, Sid, Txn};

/// What a session is to do.
#[derive(Drop)]
pub enum Plan {
    /// Read a key. An entry whose stamp is below the floor is not good enough.
    Read { key: QKey, floor: u64 },
    /// Quarantine each key that the transaction touches, in this mode, commit it, and then release
    /// the keys as the mode says.
    Write { mode: Mode, txn: Txn },
    /// Write, and before the commit get this key, which the transaction touches, as a session does
    /// that reads what it writes: it is told that the key is its own, and asks the store what its
    /// transaction would leave.
    Look { mode: Mode, key: QKey, txn: Txn },
    /// Quarantine the keys as Write does, and then give up: be ended at the store, and release the
    /// keys with every value in place.
    Quit { mode: Mode, txn: Txn },
    /// Write in mode invalidate, and leave out the quarantine of this key, which the transaction
    /// touches. So the store refuses the commit.
    Skip { key: QKey, txn: Txn },
    /// Write in mode invalidate, and before the commit raise each quarantine to refresh its key. A
    /// quarantine beside which another session's stands stays as it is.
    Raise { txn: Txn },
    /// Write in this mode, and before the commit give each quarantine a new deadline.
    Renew { mode: Mode, txn: Txn },
}

impl Plan {
    /// Whether a session of this plan may commit.
    pub fn writes(&self) -> bool
        ensures { result ≡ writes self.now }
    {
        match self {
            Plan::Read { .. } => false,
            Plan::Write { .. }
            | Plan::Look { .. }
            | Plan::Quit { .. }
            | Plan::Skip { .. }
            | Plan::Raise { .. }
            | Plan::Renew { .. } => true,
        }
    }

    /// A plan that says the same.
    pub fn copy(&self) -> Result<Plan, Memory>
        ensures { IfOk result (λ copy. copy ≡ self.now) }
    {
        Ok(match self {
            Plan::Read { key, floor } => Plan::Read {
                key: *key,
                floor: *floor,
            },
            Plan::Write { mode, txn } => Plan::Write {
                mode: *mode,
                txn: txn.copy()?,
            },
            Plan::Look { mode, key, txn } => Plan::Look {
                mode: *mode,
                key: *key,
                txn: txn.copy()?,
            },
            Plan::Quit { mode, txn } => Plan::Quit {
                mode: *mode,
                txn: txn.copy()?,
            },
            Plan::Skip { key, txn } => Plan::Skip {
                key: *key,
                txn: txn.copy()?,
            },
            Plan::Raise { txn } => Plan::Raise { txn: txn.copy()? },
            Plan::Renew { mode, txn } => Plan::Renew {
                mode: *mode,
                txn: txn.copy()?,
            },
        })
    }

    /// The changes that the session is to commit: none where it reads.
    pub fn changes(&self) -> &[Change]
        ensures { result.now ≡ changes_of self.now }
    {
        match self {
            Plan::Read { .. } => &[],
            Plan::Write { mode: _, txn }
            | Plan::Look {
                mode: _,
                key: _,
                txn,
            }
            | Plan::Quit { mode: _, txn }
            | Plan::Skip { key: _, txn }
            | Plan::Raise { txn }
            | Plan::Renew { mode: _, txn } => txn.changes(),
        }
    }
}

/// One turn of the core.
#[derive(Clone, Copy)]
pub enum Turn {
    /// The session makes the next request that its plan wants.
    Session { sid: Sid },
    /// So many ticks pass on the clock.
    Tick { by: u64 },
    /// The sweeper takes its next step.
    Sweep,
}

/// What a run is made with.
#[derive(Clone, Copy, PartialEq, Eq)]
pub struct Shape {
    /// How many members there are at the start, from 1 to 100,000.
    pub members: u32,
    /// How many shards, from 1 to 64.
    pub shards: u32,
    /// How many entries a shard has room for, from 1 to 65,536.
    pub room: u32,
    /// How long a lease lives, in ticks, at least 1.
    pub life: u64,
}
