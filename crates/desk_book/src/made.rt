// What is made in place of a request, by its form.
ghost use Rattle.std.specs.Prelude.{◌≡◌};
ghost use Rattle.desk_book.specs.Made.{made_in, end_drop};

use crate::forms::Form;
use key_shard::{Grant, QAnswer, Raising};
use lease_table::Mode;
use rows_model::Sid;
use session_client::{Reply, Wanted};
use sql_keeper::CommitFault;

/// What a desk makes of a request.
pub enum Made {
    /// One event: this request of the asking session.
    One { request: Wanted },
    /// Two events: the end of this session at the store, and then a drop with this grant. The reply is
    /// that of the drop, or Gone where the request was a raise.
    EndDrop { session: Sid, grant: Grant },
    /// None: this is the reply.
    Answered { reply: Reply },
}

impl Form {
    /// What is made of a session's request in this form. A form that is none of such a request leaves it
    /// as it was asked. So does that of the held grants alone, before which the others are set apart. It
    /// takes no memory.
    pub fn make(self, who: Sid, request: Wanted) -> Made
        ensures { result ≡ made_in self who request }
    {
        match self {
            Form::AsAsked | Form::HeldAlone => Made::One { request },
            Form::VoidSet => void_set(request),
            Form::NoValue => put_nothing(request),
            Form::DropOnly => drop_only(request),
            Form::EndDrop { session } => end_drop(session, request),
            Form::Shared => share(request),
            Form::Refused { mode } => refuse(who, mode, request),
            Form::NotCommitted => commit_nothing(request),
        }
    }
}

fn void_set(request: Wanted) -> Made
    ensures { (who : Sid) → result ≡ made_in Form.VoidSet who request }
{
    let request = match request {
        Wanted::Set {
            key,
            token: _,
            value,
            stamp,
        } => Wanted::Set {
            key,
            token: 0,
            value,
            stamp,
        },
        request => request,
    };
    Made::One { request }
}

fn put_nothing(request: Wanted) -> Made
    ensures { (who : Sid) → result ≡ made_in Form.NoValue who request }
{
    let request = match request {
        Wanted::Sar {
            grant,
            value: _,
            stamp,
        } => Wanted::Sar {
            grant,
            value: None,
            stamp,
        },
        request => request,
    };
    Made::One { request }
}

fn drop_only(request: Wanted) -> Made
    ensures { (who : Sid) → result ≡ made_in Form.DropOnly who request }
{
    let request = match request {
        Wanted::Apply { grant, stamp: _ } => Wanted::Dar { grant },
        request => request,
    };
    Made::One { request }
}

/// A request that hands in a grant ends this session, and then drops with that grant.
fn end_drop(session: Sid, request: Wanted) -> Made
    ensures { result ≡ end_drop session request }
{
    match request {
        Wanted::Dar { grant } => Made::EndDrop { session, grant },
        Wanted::Sar {
            grant,
            value: _,
            stamp: _,
        } => Made::EndDrop { session, grant },
        Wanted::Apply { grant, stamp: _ } => Made::EndDrop { session, grant },
        Wanted::Abort { grant } => Made::EndDrop { session, grant },
        Wanted::Raise { grant } => Made::EndDrop { session, grant },
        request => Made::One { request },
    }
}

fn share(request: Wanted) -> Made
    ensures { (who : Sid) → result ≡ made_in Form.Shared who request }
{
    match request {
        Wanted::Raise { grant } => {
            let holder = grant.sid();
            Made::Answered {
                reply: Reply::Raise {
                    answer: Raising::Shared { grant, holder },
                },
            }
        }
        request => Made::One { request },
    }
}

fn refuse(who: Sid, mode: Mode, request: Wanted) -> Made
    ensures { result ≡ made_in (Form.Refused mode) who request }
{
    match request {
        Wanted::QaReg { key: _ } | Wanted::QaRead { key: _ } | Wanted::Delta { key: _, by: _ } => {
            Made::Answered {
                reply: Reply::Quar {
                    answer: QAnswer::Refused { holder: who, mode },
                },
            }
        }
        request => Made::One { request },
    }
}

fn commit_nothing(request: Wanted) -> Made
    ensures { (who : Sid) → result ≡ made_in Form.NotCommitted who request }
{
    match request {
        Wanted::Commit { txn, grants } => Made::Answered {
            reply: Reply::NotCommitted {
                fault: CommitFault::Ended,
                txn,
                grants,
            },
        },
        request => Made::One { request },
    }
}
