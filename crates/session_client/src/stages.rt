use crate::notes::Note;
use crate::replies::Outcome;
use rows_model::{QKey, Txn};

/// What a writer does once its keys are quarantined.
#[derive(Clone, Copy)]
pub enum Next {
    /// It commits.
    Commit,
    /// It gets this key, which is its own by then, and commits after that.
    Look { key: QKey },
    /// It gives up.
    Quit,
    /// It raises its quarantines in turn, and commits after that.
    Raise,
    /// It renews its quarantines in turn, and commits after that.
    Renew,
}

/// How a writer releases its grants.
#[derive(Clone, Copy)]
pub enum Release {
    /// Each value stays.
    Keep,
    /// Each value is dropped.
    Drop,
    /// As the mode of each grant says, after the commit of this number.
    Finish { number: u64 },
}

/// Where a writer stands.
#[derive(Drop)]
pub enum WriteStage {
    /// So many keys are quarantined, and it wants the next one.
    Quarantining {
        count: usize,
        txn: Txn,
    },
    /// It wants this key, which it has quarantined.
    Getting {
        key: QKey,
        txn: Txn,
    },
    /// It wants the answer for this key that the store would give after its transaction.
    Staging {
        key: QKey,
        txn: Txn,
    },
    /// It has handed out its transaction for such an answer.
    Asking,
    /// It wants the quarantine raised of the grant at this place, or to commit where there is none.
    Raising {
        place: usize,
        txn: Txn,
    },
    /// It has handed out the grant at this place to be raised.
    Raised {
        place: usize,
        txn: Txn,
    },
    /// It wants the quarantine renewed of the grant at this place, or to commit where there is none.
    Renewing {
        place: usize,
        txn: Txn,
    },
    /// It has handed out the grant at this place to be renewed.
    Renewed {
        place: usize,
        txn: Txn,
    },
    /// It wants to commit.
    Ready {
        txn: Txn,
    },
    /// It has handed out its transaction and its grants to be committed.
    Committing,
    /// It won't commit, and wants to be ended at the store.
    Ending {
        outcome: Outcome,
    },
    /// It wants to release its first grant.
    Releasing {
        outcome: Outcome,
        how: Release,
    },
    /// It has handed out a grant to be released, of which there is a note where it may come back.
    Returning {
        outcome: Outcome,
        how: Release,
        back: Option<Note>,
    },
    /// Its first grant came back, and it wants to drop the value of that key.
    Dropping {
        outcome: Outcome,
        how: Release,
    },
    /// It has ended so.
    Done {
        outcome: Outcome,
    },
}
