//! A raise for a desk: the book notes the grant as it is then.
ghost use Rattle.std.specs.Prelude.{◌≡◌, ◌≢◌, Bool, IfErr, IfOk, IsTrue, None, OnErr, OnOk, pos};
ghost use Rattle.std.specs.Bool.{IsFalse};
ghost use Rattle.rows_model.specs.Placement.{shard_of};
ghost use Rattle.key_shard.specs.Answers.{raise_step};
ghost use Rattle.key_shard.specs.Past.{entry};
ghost use Rattle.key_shard.specs.Replies.{ShowsRaise};
ghost use Rattle.key_shard.specs.Shards.{after_raise, is_out, past_of};
ghost use Rattle.session_client.specs.Belongs.{Belongs, IsRaiseOf};
ghost use Rattle.session_client.specs.declared.replies.Reply.TheVariants as Reply;
ghost use Rattle.session_client.specs.declared.replies.Wanted.TheVariants as wanted;
ghost use Rattle.key_shard.specs.declared.replies.Raising.TheVariants as raising;
ghost use Rattle.log_word.specs.Steps.{IsBeginning};
ghost use Rattle.desk_book.specs.Books.{noted_for, with_raised, without_grant};
ghost use Rattle.desk_book.specs.Borne.{IsBorne};
ghost use Rattle.bound_hub.specs.Gets.{IsLastStep};
ghost use Rattle.bound_hub.specs.Olds.{IsRaiseHeld};
ghost use Rattle.bound_hub.specs.StepShorts.{raise_short};
ghost use Rattle.bound_desk.specs.Grants.{IsRaiseFor, IsRaiseTold, with_raising};
ghost use Rattle.bound_desk.specs.Made.{IsMade};
ghost use Rattle.bound_desk.specs.Shown.{ShowsReply};
ghost use Rattle.bound_desk.specs.Told.{book_after};
ghost use Rattle.bound_desk.specs.Writing.{IsRaiseAlone, StoodAlone};

use crate::bound_books::BoundBook;
use crate::copies::old_copy;
use bound_hub::{BoundName, BoundShard};
use desk_book::Ticket;
use key_shard::{Grant, Raising};
use lease_table::Mode;
use log_word::LogWord;
use rows_model::{Sid, Value};
use session_client::Reply;

impl<H: BoundName> BoundBook<H> {
    /// Raises the quarantine of a grant of a session, on the shard of its key, which is lent. The book bears
    /// it out: the session is the present one and hasn't committed. The raise is the shard's; a grant that
    /// isn't out there is Gone, and the shard stays. The raise's own step is the last of that shard that the
    /// desk has seen then, unless it is Gone. An old value that comes along is held by
    /// what the desk has seen then, and right, unless that tells that the store has stopped telling its
    /// rows. A grant that is raised is noted so, with its old value, of which a copy is taken first. One that
    /// is Gone is noted as spent. For want of memory the grant comes back, the book says what it said, and
    /// the shard stays.
    pub fn raise(
        &mut self,
        word: &LogWord,
        shard: &mut BoundShard<H>,
        who: Sid,
        grant: Grant,
    ) -> Result<Raising, Grant>
        requires word { word.now ≡ H.word }
        requires place { shard.old.shard.terms.no ≡ shard_of grant.key H.word.shards }
        requires mode { grant.mode ≡ Mode.Invalidate }
        requires borne { IsBorne self.old.book.book who (wanted.Raise grant) }
        ensures seen { IsBeginning self.old.seen self.new.seen }
        ensures last { IfOk result (λ answer. answer ≢ raising.Gone → (has : Bool)
            × IsLastStep (shard_of grant.key H.word.shards)
            (raise_short grant.key grant.sid grant.token answer has) self.new.seen) }
        ensures old { IfOk result (λ answer. let no = shard_of grant.key H.word.shards in
            IsRaiseHeld H.opening (H.before no) no self.new.seen grant.key answer) }
        ensures told { IfOk result (IsRaiseTold H.word.shards grant self.new.seen) }
        ensures book { IfOk result (λ answer.
            self.new.book.book ≡ noted_for who (with_raising grant answer) self.old.book.book) }
        ensures out { let at = shard.old.shard in IsTrue (is_out at grant) → OnOk result
            (shard.new.shard ≡ after_raise at grant (raise_step (past_of at) grant)) }
        ensures shows { let at = shard.old.shard in IsTrue (is_out at grant) → IfOk result
            (ShowsRaise (past_of at) grant (raise_step (past_of at) grant)) }
        ensures unknown { IsFalse (is_out shard.old.shard grant) → IfOk result (λ answer.
            (shard.new.shard ≡ shard.old.shard) × (answer ≡ raising.Gone)) }
        ensures stays { OnErr result (shard.new.shard ≡ shard.old.shard) }
        ensures belongs { IfOk result (IsRaiseOf grant) }
        ensures back { IfErr result (λ back. back ≡ grant) }
        ensures err { OnErr result (self.new.book.book ≡ self.old.book.book) }
    {
        let Ok(old) = old_copy(shard, &grant.key(), Mode::Refresh) else {
            return Err(grant);
        };
        let ticket = Ticket::of(&grant);
        let answer = self.make_raise(word, shard, grant)?;
        match &answer {
            Raising::Raised { grant, old: _ } => self.note_raised(who, Ticket::of(grant), old),
            Raising::Gone => self.note_spent(who, &ticket),
            Raising::Shared {
                grant: _,
                holder: _,
            } => {}
        }
        Ok(answer)
    }

    // The raise alone: the book stays.
    fn make_raise(
        &mut self,
        word: &LogWord,
        shard: &mut BoundShard<H>,
        grant: Grant,
    ) -> Result<Raising, Grant>
        requires word { word.now ≡ H.word }
        requires place { shard.old.shard.terms.no ≡ shard_of grant.key H.word.shards }
        requires mode { grant.mode ≡ Mode.Invalidate }
        ensures seen { IsBeginning self.old.seen self.new.seen }
        ensures last { IfOk result (λ answer. answer ≢ raising.Gone → (has : Bool)
            × IsLastStep (shard_of grant.key H.word.shards)
            (raise_short grant.key grant.sid grant.token answer has) self.new.seen) }
        ensures old { IfOk result (λ answer. let no = shard_of grant.key H.word.shards in
            IsRaiseHeld H.opening (H.before no) no self.new.seen grant.key answer) }
        ensures told { IfOk result (IsRaiseTold H.word.shards grant self.new.seen) }
        ensures brings { IfOk result
            (IsRaiseFor grant (entry grant.key (past_of shard.old.shard))) }
        ensures alone { IfOk result
            (IsRaiseAlone H.opening H.before H.word.shards self.new.seen) }
        ensures out { let at = shard.old.shard in IsTrue (is_out at grant) → OnOk result
            (shard.new.shard ≡ after_raise at grant (raise_step (past_of at) grant)) }
        ensures shows { let at = shard.old.shard in IsTrue (is_out at grant) → IfOk result
            (ShowsRaise (past_of at) grant (raise_step (past_of at) grant)) }
        ensures unknown { IsFalse (is_out shard.old.shard grant) → IfOk result (λ answer.
            (shard.new.shard ≡ shard.old.shard) × (answer ≡ raising.Gone)) }
        ensures stays { OnErr result (shard.new.shard ≡ shard.old.shard) }
        ensures belongs { IfOk result (IsRaiseOf grant) }
        ensures back { IfErr result (λ back. back ≡ grant) }
        ensures book { self.new.book ≡ self.old.book }
    {
        shard.raise(word, &mut self.pass, grant)
    }

    // Notes a grant that was raised by the last step of its shard that was seen. The session hasn't committed.
    fn note_raised(&mut self, who: Sid, ticket: Ticket, old: Option<(Value, u64)>)
        requires alone { StoodAlone H.opening H.before H.word.shards self.old.seen
            (record { permit = ticket; old = old; by = pos 0 }) }
        requires none { self.old.book.book.commit ≡ None }
        ensures seen { self.new.seen ≡ self.old.seen }
        ensures book { self.new.book.book
            ≡ noted_for who (with_raised ticket old) self.old.book.book }
    {
        self.pass.sound();
        self.book.note_raised(who, ticket, old);
    }

    /// Notes a grant that is spent.
    pub(crate) fn note_spent(&mut self, who: Sid, ticket: &Ticket)
        ensures seen { self.new.seen ≡ self.old.seen }
        ensures book { self.new.book.book
            ≡ noted_for who (without_grant ticket.now) self.old.book.book }
    {
        self.book.note_spent(who, ticket);
    }

    /// A raise, as `BoundBook::raise`, with its reply. For want of memory the grant comes back. One that isn't
    /// to invalidate can't be raised: it is answered as if another quarantine stood beside.
    pub(crate) fn reply_to_raise(
        &mut self,
        word: &LogWord,
        shard: &mut BoundShard<H>,
        who: Sid,
        grant: Grant,
    ) -> Reply
        requires word { word.now ≡ H.word }
        requires place { shard.old.shard.terms.no ≡ shard_of grant.key H.word.shards }
        requires borne { IsBorne self.old.book.book who (wanted.Raise grant) }
        ensures belongs { Belongs who (wanted.Raise grant) result }
        ensures seen { IsBeginning self.old.seen self.new.seen }
        ensures shows { ShowsReply H.opening H.before H.word.shards who (wanted.Raise grant)
            result self.new.seen }
        ensures book { self.new.book.book
            ≡ book_after who (wanted.Raise grant) result self.old.book.book }
        ensures made { IsMade self.old.quit shard.old.shard (wanted.Raise grant) result }
    {
        match grant.mode() {
            Mode::Invalidate => match self.raise(word, shard, who, grant) {
                Ok(answer) => Reply::Raise { answer },
                Err(grant) => Reply::RaiseBack { grant },
            },
            Mode::Refresh | Mode::Delta => share(grant),
        }
    }
}

/// The reply to a raise that isn't made: as if another quarantine stood beside. The grant comes back.
fn share(grant: Grant) -> Reply
    ensures { result ≡ Reply.Raise (raising.Shared grant grant.sid) }
{
    let holder = grant.sid();
    Reply::Raise {
        answer: Raising::Shared { grant, holder },
    }
}
