use executor::Request;
use key_shard::{Blocker, Got, QAnswer, Raising, Rel, Renewal, SetAnswer};
use lease_table::Mode;
use rows_model::{QKey, Sid};
use session_client::{Fault, Reply};
use sql_keeper::{AfterFault, CommitFault};

/// A reply in its bare form: without values, the transaction and grants. Of a grant that is given the
/// token is left.
#[derive(Clone, Copy, PartialEq, Eq)]
pub enum Response {
    /// The key's entry has this stamp.
    Hit { stamp: u64 },
    /// The token of an I lease.
    Lease { token: u64 },
    /// A lease stands in the way: try again.
    Again { standing: Blocker },
    /// The asker has quarantined the key itself.
    Own,
    /// The store's answer, with this stamp.
    Answer { stamp: u64 },
    /// The value stands. The key that had to make room is named.
    Stored { evicted: Option<QKey> },
    /// The lease stood no longer, and nothing was stored.
    Void,
    /// The quarantine is granted, with this token.
    Granted { token: u64 },
    /// The session has this quarantine already.
    Held,
    /// A quarantine of this session, in this mode, stands in the way.
    Refused { holder: Sid, mode: Mode },
    /// The quarantine of this token is raised.
    Raised { token: u64 },
    /// The quarantine is not raised: one of this session stands beside it.
    Shared { holder: Sid },
    /// The quarantine that was to be raised stood no longer.
    RaiseGone,
    /// There was no memory to raise the quarantine.
    RaiseBack,
    /// The answer to a renewal, or that there was no memory for it.
    Renew { answer: Option<Renewal> },
    /// The store told what it would answer.
    Staged,
    /// The store has no such answer.
    NotStaged { fault: AfterFault },
    /// The transaction is the commit of this number.
    Committed { number: u64 },
    /// The transaction was not committed.
    NotCommitted { fault: CommitFault },
    /// Whether the session was open at the store.
    End { was: bool },
    /// The answer to a release.
    Rel { answer: Rel },
    /// There was no memory to put the new value: the quarantine stands.
    SarBack,
    /// The request was not made.
    Fault { fault: Fault },
    /// Nothing.
    Nothing,
}

impl Response {
    ghost use Rattle.std.specs.Prelude.{◌≡◌};
    ghost use Rattle.gate_workers.specs.Marks.{response_of};

    /// The bare form of a reply. It takes no memory.
    pub fn of(reply: &Reply) -> Response
        ensures { result ≡ response_of reply.now }
    {
        match reply {
            Reply::Got { got } => of_got(got),
            Reply::Answer { answer } => Response::Answer {
                stamp: answer.stamp,
            },
            Reply::Set { answer } => of_set(*answer),
            Reply::Quar { answer } => of_quarantine(answer),
            Reply::Raise { answer } => of_raise(answer),
            Reply::RaiseBack { grant: _ } => Response::RaiseBack,
            Reply::Renew { grant: _, answer } => Response::Renew { answer: *answer },
            Reply::Staged { value: _, txn: _ } => Response::Staged,
            Reply::NotStaged { fault, txn: _ } => Response::NotStaged { fault: *fault },
            Reply::Committed {
                number,
                txn: _,
                grants: _,
            } => Response::Committed { number: *number },
            Reply::NotCommitted {
                fault,
                txn: _,
                grants: _,
            } => Response::NotCommitted { fault: *fault },
            Reply::End { was } => Response::End { was: *was },
            Reply::Rel { answer } => Response::Rel { answer: *answer },
            Reply::SarBack { grant: _ } => Response::SarBack,
            Reply::Fault { fault } => Response::Fault { fault: *fault },
            Reply::Nothing => Response::Nothing,
        }
    }
}

ghost use Rattle.std.specs.Prelude.{◌≡◌};
ghost use Rattle.gate_workers.specs.Marks.{response_of};
ghost use Rattle.session_client.specs.declared.replies.Reply.TheVariants as replies;

/// The bare form of the answer to a get.
fn of_got(got: &Got) -> Response
    ensures { result ≡ response_of (replies.Got got.now) }
{
    match got {
        Got::Hit { value: _, stamp } => Response::Hit { stamp: *stamp },
        Got::Lease { token } => Response::Lease { token: *token },
        Got::Again { standing } => Response::Again {
            standing: *standing,
        },
        Got::Own => Response::Own,
    }
}

/// The bare form of the answer to a set.
fn of_set(answer: SetAnswer) -> Response
    ensures { result ≡ response_of (replies.Set answer) }
{
    match answer {
        SetAnswer::Stored { evicted } => Response::Stored { evicted },
        SetAnswer::Void => Response::Void,
    }
}

/// The bare form of the answer to a quarantine.
fn of_quarantine(answer: &QAnswer) -> Response
    ensures { result ≡ response_of (replies.Quar answer.now) }
{
    match answer {
        QAnswer::Granted { grant, old: _ } => Response::Granted {
            token: grant.token(),
        },
        QAnswer::Held => Response::Held,
        QAnswer::Refused { holder, mode } => Response::Refused {
            holder: *holder,
            mode: *mode,
        },
    }
}

/// The bare form of the answer to a raise.
fn of_raise(answer: &Raising) -> Response
    ensures { result ≡ response_of (replies.Raise answer.now) }
{
    match answer {
        Raising::Raised { grant, old: _ } => Response::Raised {
            token: grant.token(),
        },
        Raising::Shared { grant: _, holder } => Response::Shared { holder: *holder },
        Raising::Gone => Response::RaiseGone,
    }
}

/// A request of a session and its reply, in their bare forms.
#[derive(Clone, Copy, PartialEq, Eq)]
pub struct Mark {
    pub asked: Request,
    pub response: Response,
}
