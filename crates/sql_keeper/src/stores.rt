ghost use Rattle.std.specs.Prelude.{◌≡◌};

use rows_model::{QKey, Sid, Txn, Value};

/// What the store answered for a key, after as many commits as the stamp says.
#[derive(Drop)]
pub struct Answer {
    pub key: QKey,
    pub value: Value,
    pub stamp: u64,
}

/// A transaction that was committed, and the session that committed it.
#[derive(Drop)]
pub struct Commit {
    pub sid: Sid,
    pub txn: Txn,
}

/// That a session was ended at a store: it isn't open there, and never is again. Only the store makes one.
#[derive(Clone, Copy)]
pub struct Closed {
    sid: Sid,
    was: bool,
}

impl Closed {
    pub(crate) fn new(sid: Sid, was: bool) -> Closed
        ensures sid { result.sid ≡ sid }
        ensures was { result.was ≡ was }
    {
        Closed { sid, was }
    }

    /// The session.
    pub fn sid(self) -> Sid
        ensures { result ≡ self.sid }
    {
        self.sid
    }

    /// Whether the session was open until then.
    pub fn was(self) -> bool
        ensures { result ≡ self.was }
    {
        self.was
    }
}

/// Where a session stands with the store.
#[derive(Clone, Copy)]
pub enum Phase {
    /// It began to read, and never commits.
    Reads,
    /// It began to write, and may still commit.
    Open,
    /// It has committed.
    Committed,
    /// It was ended before it committed, and never will.
    Ended,
}
