use crate::grant_lists::Grants;
use key_shard::{Got, Grant, QAnswer, Raising, Rel, Renewal, SetAnswer};
use lease_table::Mode;
use rows_model::{QKey, Sid, Txn, Value};
use sql_keeper::{AfterFault, Answer, CommitFault};

/// What a session wants next. A request hands its grants over, and the reply brings back those that
/// it doesn't spend.
pub enum Wanted {
    /// The key's entry, with a stamp of at least the floor.
    Get {
        key: QKey,
        floor: u64,
    },
    /// The store's answer for the key.
    Ask {
        key: QKey,
    },
    /// What the store would answer for the key after the transaction.
    Staged {
        key: QKey,
        txn: Txn,
    },
    /// To store the value under the I lease of this token.
    Set {
        key: QKey,
        token: u64,
        value: Value,
        stamp: u64,
    },
    /// A quarantine of the key, to invalidate it.
    QaReg {
        key: QKey,
    },
    /// A quarantine of the key, to refresh its value, which comes along with the grant.
    QaRead {
        key: QKey,
    },
    /// A quarantine of the key, which is a count, to shift it by this much.
    Delta {
        key: QKey,
        by: i32,
    },
    /// To raise a quarantine, which is to invalidate, to one that refreshes.
    Raise {
        grant: Grant,
    },
    /// To give a quarantine a new deadline.
    Renew {
        grant: Grant,
    },
    /// To commit the transaction, with these grants on the keys that it touches.
    Commit {
        txn: Txn,
        grants: Grants,
    },
    /// To be ended at the store: it won't commit.
    End,
    /// To drop the key's value and end the quarantine.
    Dar {
        grant: Grant,
    },
    /// To put the new value in the place of the key's with this stamp, or drop it where there is no
    /// new one, and end the quarantine.
    Sar {
        grant: Grant,
        value: Option<Value>,
        stamp: u64,
    },
    /// To shift the key's value as the quarantine says, give it this stamp and end the quarantine.
    Apply {
        grant: Grant,
        stamp: u64,
    },
    /// To end the quarantine and leave the key's value.
    Abort {
        grant: Grant,
    },
    /// Nothing: the session is done.
    Nothing,
}

impl Wanted {
    /// Lets go of the request and of the grants that it hands over. Their quarantines are not ended by
    /// that, and stand until others end them. It takes no memory.
    pub fn let_go(self) {
        match self {
            Wanted::Commit { txn: _, grants } => grants.let_go(),
            Wanted::Dar { grant } => grant.let_go(),
            Wanted::Sar {
                grant,
                value: _,
                stamp: _,
            } => grant.let_go(),
            Wanted::Apply { grant, stamp: _ } => grant.let_go(),
            Wanted::Abort { grant } => grant.let_go(),
            Wanted::Raise { grant } => grant.let_go(),
            Wanted::Renew { grant } => grant.let_go(),
            Wanted::Get { key: _, floor: _ } => {}
            Wanted::Ask { key: _ } => {}
            Wanted::Staged { key: _, txn: _ } => {}
            Wanted::Set {
                key: _,
                token: _,
                value: _,
                stamp: _,
            } => {}
            Wanted::QaReg { key: _ } => {}
            Wanted::QaRead { key: _ } => {}
            Wanted::Delta { key: _, by: _ } => {}
            Wanted::End => {}
            Wanted::Nothing => {}
        }
    }
}

/// Why a request was not made.
#[derive(Clone, Copy, Debug, PartialEq, Eq)]
pub enum Fault {
    /// The shard has no more tokens.
    Spent,
    /// The store's keeper failed.
    Keep,
    /// Memory ran out.
    Memory,
}

impl Fault {
    ghost use Rattle.std.specs.Prelude.{◌↔◌, IsTrue};
    ghost use Rattle.session_client.specs.Belongs.{IsShardFault, IsStoreFault};

    /// Whether a shard answers this to a request that draws a token.
    pub fn is_of_shard(self) -> bool
        ensures { IsTrue result ↔ IsShardFault self }
    {
        match self {
            Fault::Spent | Fault::Memory => true,
            Fault::Keep => false,
        }
    }

    /// Whether the store answers this to a question.
    pub fn is_of_store(self) -> bool
        ensures { IsTrue result ↔ IsStoreFault self }
    {
        match self {
            Fault::Keep | Fault::Memory => true,
            Fault::Spent => false,
        }
    }
}

/// What a session is told.
pub enum Reply {
    /// The answer to a get.
    Got {
        got: Got,
    },
    /// The store's answer.
    Answer {
        answer: Answer,
    },
    /// The answer to a set.
    Set {
        answer: SetAnswer,
    },
    /// The answer to a quarantine.
    Quar {
        answer: QAnswer,
    },
    /// The answer to a raise. The grant comes back in its new mode with the key's entry, or as it was, or
    /// it is spent.
    Raise {
        answer: Raising,
    },
    /// There was no memory to raise the quarantine: it stands as it did, and the grant comes back.
    RaiseBack {
        grant: Grant,
    },
    /// The answer to a renewal, or `None` where there was no memory for it. The grant comes back.
    Renew {
        grant: Grant,
        answer: Option<Renewal>,
    },
    /// What the store would answer after the transaction, which comes back.
    Staged {
        value: Value,
        txn: Txn,
    },
    /// Why the store has no such answer.
    NotStaged {
        fault: AfterFault,
        txn: Txn,
    },
    /// The transaction is the commit of this number, from 1.
    Committed {
        number: u64,
        txn: Txn,
        grants: Grants,
    },
    /// The transaction was not committed.
    NotCommitted {
        fault: CommitFault,
        txn: Txn,
        grants: Grants,
    },
    /// Whether the session was open at the store. It isn't now.
    End {
        was: bool,
    },
    /// The answer to a release.
    Rel {
        answer: Rel,
    },
    /// There was no memory to put the new value: the quarantine stands, and the grant comes back.
    SarBack {
        grant: Grant,
    },
    /// The request was not made.
    Fault {
        fault: Fault,
    },
    /// The session is done.
    Nothing,
}

impl Reply {
    /// Lets go of the reply and of the grants that it brings. Their quarantines are not ended by that,
    /// and stand until others end them. It takes no memory.
    pub fn let_go(self) {
        match self {
            Reply::Quar { answer } => match answer {
                QAnswer::Granted { grant, old: _ } => grant.let_go(),
                QAnswer::Held => {}
                QAnswer::Refused { holder: _, mode: _ } => {}
            },
            Reply::Raise { answer } => match answer {
                Raising::Raised { grant, old: _ } => grant.let_go(),
                Raising::Shared { grant, holder: _ } => grant.let_go(),
                Raising::Gone => {}
            },
            Reply::RaiseBack { grant } => grant.let_go(),
            Reply::Renew { grant, answer: _ } => grant.let_go(),
            Reply::Committed {
                number: _,
                txn: _,
                grants,
            } => grants.let_go(),
            Reply::NotCommitted {
                fault: _,
                txn: _,
                grants,
            } => grants.let_go(),
            Reply::SarBack { grant } => grant.let_go(),
            Reply::Got { got: _ } => {}
            Reply::Answer { answer: _ } => {}
            Reply::Set { answer: _ } => {}
            Reply::Staged { value: _, txn: _ } => {}
            Reply::NotStaged { fault: _, txn: _ } => {}
            Reply::End { was: _ } => {}
            Reply::Rel { answer: _ } => {}
            Reply::Fault { fault: _ } => {}
            Reply::Nothing => {}
        }
    }
}

/// How a session ended.
#[derive(Clone, Copy, PartialEq, Eq)]
pub enum Outcome {
    /// A reader got an entry.
    Hit,
    /// A reader stored the store's answer.
    Stored,
    /// A reader's answer was not stored, since its lease stood no longer.
    Void,
    /// A reader has the store's answer, and had no lease to store it under.
    Bypass,
    /// A writer's transaction is the commit of this number.
    Committed { number: u64 },
    /// A writer was refused a quarantine, by this session's in this mode.
    Refused { holder: Sid, mode: Mode },
    /// A session gave up once its keys were quarantined, as it was to do.
    Quit,
    /// A writer's transaction was not committed.
    NotCommitted { fault: CommitFault },
    /// A request was not made.
    Failed { fault: Fault },
}
