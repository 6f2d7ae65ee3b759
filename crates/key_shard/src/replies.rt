use crate::grants::Grant;
use crate::steps::Blocker;
use lease_table::Mode;
use rows_model::{Memory, QKey, Sid, Value};

/// The answer to a get.
#[derive(Drop)]
pub enum Got {
    /// The entry's value and stamp.
    Hit { value: Value, stamp: u64 },
    /// The token of an I lease: the asker may ask the store and set the key under it.
    Lease { token: u64 },
    /// A lease stands in the way: try again.
    Again { standing: Blocker },
    /// The asker has quarantined the key itself.
    Own,
}

/// The answer to a set.
#[derive(Clone, Copy, PartialEq, Eq)]
pub enum SetAnswer {
    /// The value stands. The key that had to make room is named.
    Stored { evicted: Option<QKey> },
    /// The token did not stand, and no value changed.
    Void,
}

/// The answer to a quarantine.
pub enum QAnswer {
    /// The quarantine is granted. In mode Refresh the key's entry, value and stamp, comes along.
    Granted {
        grant: Grant,
        old: Option<(Value, u64)>,
    },
    /// The session has this quarantine already.
    Held,
    /// A quarantine stands in the way: the session's own, or the one of least token.
    Refused {
        holder: Sid,
        mode: Mode,
    },
}

/// How a grant is to be released.
#[derive(Clone, Copy, PartialEq, Eq)]
pub enum How {
    /// The entry stays as it is.
    Keep,
    /// The entry is dropped.
    Drop,
    /// The entry's number is moved by the quarantine's shift, and has this stamp.
    Shift { stamp: u64 },
}

/// The answer to a release.
#[derive(Clone, Copy, PartialEq, Eq)]
pub enum Rel {
    /// The quarantine ended. The key that had to make room for a new value is named.
    Released { evicted: Option<QKey> },
    /// The quarantine stood no longer, and nothing changed.
    Gone,
}

/// The answer to a raise.
pub enum Raising {
    /// The quarantine is to refresh now, as its grant says. The key's entry, value and stamp, comes along.
    Raised {
        grant: Grant,
        old: Option<(Value, u64)>,
    },
    /// The quarantine of another session stands beside it: of more than one, the one of least token. The
    /// grant comes back as it was.
    Shared {
        grant: Grant,
        holder: Sid,
    },
    /// The quarantine stood no longer. Its grant is spent.
    Gone,
}

/// The answer to a renewal.
#[derive(Clone, Copy, Debug, PartialEq, Eq)]
pub enum Renewal {
    /// The quarantine's deadline is this one now.
    Renewed { deadline: u64 },
    /// The quarantine stood no longer, and nothing changed.
    Gone,
}

/// What a replace hands back for want of memory.
pub struct Back {
    pub grant: Grant,
    pub value: Value,
}

/// Why a shard refuses a request.
#[derive(Clone, Copy, Debug, PartialEq, Eq)]
pub enum ShardFault {
    /// The key belongs to the shard of this number.
    Stranger { shard: u32 },
    /// The next token would be the last number there is.
    Spent { next: u64 },
    /// Memory ran out.
    Memory,
}

impl From<Memory> for ShardFault {
    ghost use Rattle.std.specs.Prelude.{◌≡◌};
    ghost use Rattle.key_shard.specs.declared.replies.ShardFault.TheVariants as faults;

    ghost from_gives = { λ _ fault. fault ≡ faults.Memory };

    fn from(_memory: Memory) -> ShardFault {
        ShardFault::Memory
    }
}
