use lease_table::Mode;
use rows_model::{QKey, Sid, Value};

/// What kind of lease stands in the way of a request.
#[derive(Clone, Copy, Debug, PartialEq, Eq)]
pub enum Blocker {
    /// An I lease that is not past its deadline: a reader that missed is asking the store.
    I,
    /// A Q lease: a writer has quarantined the key.
    Q,
}

/// How a quarantine ended.
#[derive(Drop)]
pub enum Ended {
    /// The entry stays as it is.
    Keep,
    /// The entry is dropped.
    Drop,
    /// A new value stands in front. The key that had to make room is named.
    Put {
        value: Value,
        stamp: u64,
        evicted: Option<QKey>,
    },
    /// The entry's number is moved by so much, in its place, and has a new stamp.
    Shift {
        by: i32,
        stamp: u64,
    },
}

/// One step of a shard: a request on one key, and what came of it. A history is a list of these.
#[derive(Drop)]
pub enum Step {
    /// A get found an entry with a stamp of at least the floor.
    Hit {
        key: QKey,
        sid: Sid,
        floor: u64,
        value: Value,
        stamp: u64,
    },
    /// A get missed, and was given the I lease of this token, which stands until the deadline.
    Lease {
        key: QKey,
        sid: Sid,
        floor: u64,
        now: u64,
        token: u64,
        deadline: u64,
    },
    /// A get missed where a lease stood that kept it from one of its own.
    Again {
        key: QKey,
        sid: Sid,
        floor: u64,
        now: u64,
        standing: Blocker,
    },
    /// A get of a key that its session has quarantined.
    Own {
        key: QKey,
        sid: Sid,
    },
    /// A set under a token that stood. The key that had to make room is named.
    Stored {
        key: QKey,
        token: u64,
        now: u64,
        value: Value,
        stamp: u64,
        evicted: Option<QKey>,
    },
    /// A set under a token that did not stand, or no longer. It stores nothing. Where the lease of its token
    /// is recorded and past its deadline, that is dropped.
    Void {
        key: QKey,
        token: u64,
        now: u64,
    },
    /// A quarantine was given, with this token and until this deadline. It ends the key's I lease.
    Granted {
        key: QKey,
        sid: Sid,
        mode: Mode,
        shift: i32,
        now: u64,
        token: u64,
        deadline: u64,
    },
    /// A session asked for a quarantine that it has already.
    Held {
        key: QKey,
        sid: Sid,
        mode: Mode,
    },
    /// A quarantine was refused. One that stands in the way is named by its session and mode.
    Refused {
        key: QKey,
        sid: Sid,
        mode: Mode,
        holder: Sid,
        held: Mode,
    },
    /// The quarantine of this token ended.
    Released {
        key: QKey,
        sid: Sid,
        token: u64,
        how: Ended,
    },
    /// A quarantine was to be ended, raised or renewed that stood no longer.
    Gone {
        key: QKey,
        sid: Sid,
        token: u64,
    },
    /// The quarantine of this token, to invalidate, became one to refresh.
    Raised {
        key: QKey,
        sid: Sid,
        token: u64,
    },
    /// The quarantine of this token wasn't raised, since another session's stands beside it. Of more than
    /// one, the one of least token is named by its session.
    Shared {
        key: QKey,
        sid: Sid,
        token: u64,
        holder: Sid,
    },
    /// The quarantine of this token has a new deadline.
    Renewed {
        key: QKey,
        sid: Sid,
        token: u64,
        now: u64,
        deadline: u64,
    },
}
