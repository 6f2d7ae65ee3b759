//! What is told of the store, and of a step of a shard.
use rows_model::{QKey, Sid, Txn};

/// An event of the store.
#[derive(Drop)]
pub enum StoreEvent {
    /// A session began, by the desk of this worker. One that writes may commit.
    Begin { sid: Sid, worker: u32, writes: bool },
    /// A session committed this transaction.
    Commit { sid: Sid, txn: Txn },
    /// A session that could have committed was ended.
    End { sid: Sid },
}

/// What kind of step a shard made. There is one for each step of its history, and a release is told
/// by how it ended the quarantine: kept, dropped, put or shifted.
#[derive(Clone, Copy)]
pub enum ShortKind {
    Hit,
    Lease,
    Again,
    Own,
    Stored,
    Void,
    Granted,
    Held,
    Refused,
    Kept,
    Dropped,
    Put,
    Shifted,
    Gone,
    Raised,
    Shared,
    Renewed,
}

/// A step of a shard in short. Session, token and stamp are 0 where the step has none.
#[derive(Clone, Copy)]
pub struct Short {
    pub kind: ShortKind,
    pub key: QKey,
    pub sid: Sid,
    pub token: u64,
    /// The number of commits that the value holds, of a step that has a value.
    pub stamp: u64,
    /// Whether the step leaves its session's quarantine alone on the key: it granted one to refresh or to
    /// shift, or raised one.
    pub alone: bool,
    /// The number by which a quarantine that is granted shifts the key's, 0 where the step has none.
    pub by: i32,
    /// Whether the key has an entry after the step.
    pub entry: bool,
}
