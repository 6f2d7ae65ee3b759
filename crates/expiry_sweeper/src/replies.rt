use key_shard::Rel;
use lease_table::Due;
use rows_model::{QKey, Sid};
use sql_keeper::Closed;

/// What a sweeper wants next.
#[derive(Clone, Copy, PartialEq, Eq)]
pub enum SweepWanted {
    /// To look for a quarantine of this shard that is past its deadline.
    Scan { shard: u32 },
    /// To end the session at the store, so that it won't commit.
    End { sid: Sid },
    /// To drop the key's value and end the quarantine of this token on it.
    Drop { key: QKey, token: u64 },
}

/// What a sweeper is told.
#[derive(Clone, Copy)]
pub enum SweepReply {
    /// This quarantine of the shard of this number is past its deadline.
    Found { shard: u32, due: Due },
    /// No quarantine of the shard of this number is.
    NoneFound { shard: u32 },
    /// The session was ended at the store, which alone can tell that.
    Ended { closed: Closed },
    /// The answer to the drop.
    Dropped { answer: Rel },
}
