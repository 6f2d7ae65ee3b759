// Looks at a book: which requests it bears out, and the form in which a request is made.
ghost use Rattle.std.specs.Prelude.{◌≡◌, ◌↔◌, ℕ, List, None, Some, IsTrue, is_some, All, IfOk, OnErr};
ghost use Rattle.std.specs.List.{Any, list_all, list_any};
ghost use Rattle.rows_model.specs.declared.changes.Change.{Change};
ghost use Rattle.key_shard.specs.Permit.{Permit, same_permit};
ghost use Rattle.session_client.specs.declared.replies.Wanted.TheVariants as wanted;
ghost use Rattle.sql_keeper.specs.declared.stores.Answer.{Answer};
ghost use Rattle.desk_book.specs.Borne.{IsForm, IsBorne, IsOwn, IsPresent, Holds, MayQuarantine, Refreshes, IsPut, release_form};
ghost use Rattle.desk_book.specs.Books.{Held, may_write};

use crate::books::Book;
use crate::forms::Form;
use crate::held::{HeldGrant, Ticket, has, holds_old, holds_shift};
use key_shard::Grant;
use lease_table::Mode;
use rows_model::{Memory, QKey, Sid, Txn, Value};
use session_client::{Grants, Wanted};
use sql_keeper::Answer;

/// Whether an answer is this one.
fn is_answer(answer: &Answer, key: &QKey, value: &Value, stamp: u64) -> bool
    ensures { IsTrue result
        ↔ (answer.now ≡ record { key = key.now; value = value.now; stamp = stamp }) }
{
    answer.key == *key && answer.value.bytes() == value.bytes() && answer.stamp == stamp
}

/// Whether one of the answers is this one.
fn has_answer(answers: &[Answer], key: &QKey, value: &Value, stamp: u64) -> bool
    ensures { IsTrue result ↔ Any (λ (answer : Answer).
        answer ≡ record { key = key.now; value = value.now; stamp = stamp }) answers.now }
{
    match answers {
        [] => false,
        [one, rest @ ..] => {
            is_answer(one, key, value, stamp) || has_answer(rest, key, value, stamp)
        }
    }
}

/// Whether each of the grants is one of those that are held, as a test.
fn holds_all(held: &[HeldGrant], grants: &[Grant]) -> bool
    ensures { result ≡ list_all (λ (grant : Permit).
        list_any (λ (one : Held). same_permit one.permit grant) held.now) grants.now }
{
    grants.iter().all(|grant| has(held, &Ticket::of(grant)))
}

impl Book {
    /// The form in which a session's request is made: as it is asked for, exactly where the book bears it
    /// out. It looks at the grants and answers of the present session alone. Memory is asked for a release
    /// with a new value alone, since that value is made again; for want of it nothing is known.
    pub fn form(&self, who: Sid, request: &Wanted) -> Result<Form, Memory>
        ensures form { IfOk result (IsForm self.now.book who request.now) }
        ensures memory { OnErr result (IsPut request.now) }
    {
        Ok(match request {
            Wanted::Set {
                key,
                token,
                value,
                stamp,
            } => self.set_form(who, key, *token, value, *stamp),
            Wanted::Sar {
                grant,
                value: Some(value),
                stamp,
            } => self.put_form(who, grant, value, *stamp)?,
            Wanted::Sar {
                grant,
                value: None,
                stamp: _,
            } => self.drop_form(who, grant),
            Wanted::Apply { grant, stamp } => self.shift_form(who, grant, *stamp),
            Wanted::Dar { grant } => self.drop_form(who, grant),
            Wanted::Raise { grant } => self.raise_form(who, grant),
            Wanted::QaReg { key: _ } => self.quarantine_form(who, Mode::Invalidate),
            Wanted::QaRead { key: _ } => self.quarantine_form(who, Mode::Refresh),
            Wanted::Delta { key: _, by: _ } => self.quarantine_form(who, Mode::Delta),
            Wanted::Commit { txn: _, grants } => self.commit_form(who, grants),
            Wanted::Abort { grant } => self.abort_form(who, grant),
            Wanted::Get { key: _, floor: _ }
            | Wanted::Ask { key: _ }
            | Wanted::Staged { key: _, txn: _ }
            | Wanted::Renew { grant: _ }
            | Wanted::End
            | Wanted::Nothing => Form::AsAsked,
        })
    }

    fn set_form(&self, who: Sid, key: &QKey, token: u64, value: &Value, stamp: u64) -> Form
        ensures { IsForm self.now.book who (wanted.Set key.now token value.now stamp) result }
    {
        if self.is_present(who)
            && self.has_lease(key, token)
            && has_answer(self.answers.as_slice(), key, value, stamp)
        {
            Form::AsAsked
        } else {
            Form::VoidSet
        }
    }

    fn put_form(&self, who: Sid, grant: &Grant, value: &Value, stamp: u64) -> Result<Form, Memory>
        ensures { IfOk result (IsForm self.now.book who (wanted.Sar grant.now (Some value.now) stamp)) }
    {
        if self.puts(who, grant, value, stamp)? {
            Ok(Form::AsAsked)
        } else {
            Ok(self.release_form(grant, Form::NoValue))
        }
    }

    fn shift_form(&self, who: Sid, grant: &Grant, stamp: u64) -> Form
        ensures { IsForm self.now.book who (wanted.Apply grant.now stamp) result }
    {
        if self.shifts(who, grant, stamp) {
            Form::AsAsked
        } else {
            self.release_form(grant, Form::DropOnly)
        }
    }

    fn drop_form(&self, who: Sid, grant: &Grant) -> Form
        ensures drop { IsForm self.now.book who (wanted.Dar grant.now) result }
        ensures put { (stamp : ℕ) → IsForm self.now.book who (wanted.Sar grant.now None stamp) result }
    {
        if self.is_own(who, grant) && self.has_committed() {
            Form::AsAsked
        } else {
            Form::EndDrop {
                session: grant.sid(),
            }
        }
    }

    fn raise_form(&self, who: Sid, grant: &Grant) -> Form
        ensures { IsForm self.now.book who (wanted.Raise grant.now) result }
    {
        if self.is_own(who, grant) && !self.has_committed() {
            Form::AsAsked
        } else if self.is_present(grant.sid()) {
            Form::Shared
        } else {
            Form::EndDrop {
                session: grant.sid(),
            }
        }
    }

    /// The form of a quarantine in this mode.
    fn quarantine_form(&self, who: Sid, mode: Mode) -> Form
        ensures borne { (result ≡ Form.AsAsked) ↔ MayQuarantine self.now.book who }
        ensures odd { (MayQuarantine self.now.book who → ⊥) → result ≡ Form.Refused mode }
    {
        if self.is_present(who) && self.is_writer() && !self.has_committed() {
            Form::AsAsked
        } else {
            Form::Refused { mode }
        }
    }

    fn commit_form(&self, who: Sid, grants: &Grants) -> Form
        ensures { (txn : List Change) → IsForm self.now.book who (wanted.Commit txn grants.now) result }
    {
        if self.is_present(who) {
            if self.holds_each(grants.items()) {
                Form::AsAsked
            } else {
                Form::HeldAlone
            }
        } else {
            Form::NotCommitted
        }
    }

    /// Whether the session holds each of these grants.
    fn holds_each(&self, grants: &[Grant]) -> bool
        ensures { IsTrue result ↔ All (Holds self.now.book) grants.now }
    {
        holds_all(self.held.as_slice(), grants)
    }

    fn abort_form(&self, who: Sid, grant: &Grant) -> Form
        ensures { IsForm self.now.book who (wanted.Abort grant.now) result }
    {
        if self.is_own(who, grant) && !self.has_committed() && self.ended {
            Form::AsAsked
        } else {
            Form::EndDrop {
                session: grant.sid(),
            }
        }
    }

    /// The form of a release that isn't borne out: this one after the commit of the grant's session, where
    /// that is the present one.
    fn release_form(&self, grant: &Grant, after: Form) -> Form
        ensures { result ≡ release_form self.now.book grant.now after }
    {
        if self.is_present(grant.sid()) && self.has_committed() {
            after
        } else {
            Form::EndDrop {
                session: grant.sid(),
            }
        }
    }

    /// Whether the session was given this lease last.
    fn has_lease(&self, key: &QKey, token: u64) -> bool
        ensures { IsTrue result
            ↔ (self.now.book.lease ≡ Some (record { key = key.now; token = token })) }
    {
        match self.lease {
            Some(lease) => lease.key == *key && lease.token == token,
            None => false,
        }
    }

    /// Whether the session is the present one and the grant its own.
    fn is_own(&self, who: Sid, grant: &Grant) -> bool
        ensures { IsTrue result ↔ IsOwn self.now.book who grant.now }
    {
        self.is_present(who) && grant.sid() == who
    }

    /// Whether the session is the present one, and was begun for writing. It takes no memory.
    pub fn is_writing(&self, who: Sid) -> bool
        ensures { IsTrue result
            ↔ (IsPresent self.now.book who × IsTrue (may_write self.now.book.present)) }
    {
        self.is_present(who) && self.is_writer()
    }

    /// Whether the present session was begun for writing.
    fn is_writer(&self) -> bool
        ensures { result ≡ may_write self.now.book.present }
    {
        match self.present {
            Some(present) => present.writes,
            None => false,
        }
    }

    /// Whether the present session has committed.
    fn has_committed(&self) -> bool
        ensures { result ≡ is_some self.now.book.commit }
    {
        self.commit.is_some()
    }

    /// Whether the book bears out a release with this new value.
    fn puts(&self, who: Sid, grant: &Grant, value: &Value, stamp: u64) -> Result<bool, Memory>
        ensures { IfOk result (λ is. IsTrue is
            ↔ IsBorne self.now.book who (wanted.Sar grant.now (Some value.now) stamp)) }
    {
        let Some(done) = &self.commit else {
            return Ok(false);
        };
        if !self.is_own(who, grant) || done.number != stamp {
            return Ok(false);
        }
        self.refreshes(grant, &done.txn, value)
    }

    /// Whether the session holds the grant with an old value that the transaction refreshes to this one.
    fn refreshes(&self, grant: &Grant, txn: &Txn, value: &Value) -> Result<bool, Memory>
        ensures { IfOk result (λ is. IsTrue is
            ↔ Refreshes self.now.book grant.now value.now txn.now) }
    {
        let alloc = *self.held.allocator();
        holds_old(alloc, self.held.as_slice(), &Ticket::of(grant), txn, value)
    }

    /// Whether the book bears out a release that shifts the value.
    fn shifts(&self, who: Sid, grant: &Grant, stamp: u64) -> bool
        ensures { IsTrue result ↔ IsBorne self.now.book who (wanted.Apply grant.now stamp) }
    {
        let Some(done) = &self.commit else {
            return false;
        };
        self.is_own(who, grant)
            && done.number == stamp
            && holds_shift(self.held.as_slice(), &Ticket::of(grant), &done.txn)
    }
}
