//! Ends for a desk, and the release that keeps the key's value: of a session that was ended without a
//! commit.
ghost use Rattle.std.specs.Prelude.{◌≡◌, ◌≢◌, ◌↔◌, Bool, IsTrue, Some};
ghost use Rattle.std.specs.Bool.{IsFalse};
ghost use Rattle.rows_model.specs.Placement.{shard_of};
ghost use Rattle.key_shard.specs.Answers.{release_step};
ghost use Rattle.key_shard.specs.Replies.{ShowsRelease};
ghost use Rattle.key_shard.specs.Shards.{is_out, past_of, returned};
ghost use Rattle.session_client.specs.Belongs.{Belongs};
ghost use Rattle.session_client.specs.declared.replies.Wanted.TheVariants as wanted;
ghost use Rattle.log_word.specs.Steps.{IsBeginning};
ghost use Rattle.key_freshness.specs.Known.{IsAmong, IsLogged};
ghost use Rattle.desk_book.specs.Books.{noted_for, with_end, without_grant};
ghost use Rattle.bound_hub.specs.Gets.{IsLastStep};
ghost use Rattle.bound_hub.specs.Knowns.{commits_of, ended_of};
ghost use Rattle.bound_hub.specs.Stores.{ShowsEnd};
ghost use Rattle.bound_hub.specs.StepShorts.{release_short};
ghost use Rattle.bound_desk.specs.Bound.{quit_after};
ghost use Rattle.bound_desk.specs.Made.{IsMade};
ghost use Rattle.bound_desk.specs.Shown.{ShowsReply};
ghost use Rattle.bound_desk.specs.Told.{book_after};

use crate::bound_books::BoundBook;
use bound_hub::{BoundName, BoundShard, BoundStore};
use desk_book::Ticket;
use key_shard::{Grant, How, Rel};
use log_word::{LogWord, Pass};
use rows_model::Sid;
use session_client::Reply;
use sql_keeper::{Closed, Keeper};

impl<H: BoundName> BoundBook<H> {
    /// Ends a session at the store that is lent, and tells whether it was open. Where it was, its End is
    /// the last event that the desk has seen then. Else there is none. The end is noted. The store tells
    /// in the same moment whether the session may have committed: where the desk has seen then that it was
    /// ended without a commit, its grants may be released with their values kept. From then on the store
    /// takes no memory for a session that is the desk's own. It takes no memory.
    pub fn end<K: Keeper>(
        &mut self,
        word: &LogWord,
        store: &mut BoundStore<K, H>,
        who: Sid,
    ) -> Closed
        requires { word.now ≡ H.word }
        ensures sid { result.sid ≡ who }
        ensures seen { IsBeginning self.old.seen self.new.seen }
        ensures shows { ShowsEnd who self.new.seen result.was }
        ensures quit { IsTrue result.was → self.new.quit ≡ Some who }
        ensures book { self.new.book.book ≡ noted_for who with_end self.old.book.book }
    {
        let closed = store.end(word, &mut self.pass, who);
        self.pass.sound();
        let writes = self.book.is_writing(who);
        let may_have = may_have_committed(word, store, &mut self.pass, who);
        self.quit = quit_after(self.quit, who, closed.was(), writes, may_have);
        forget_own(store, who, writes);
        self.book.note_end(who);
        closed
    }

    /// Releases a grant for a session on the shard of its key, which is lent, and keeps the key's value.
    /// The desk has seen that the grant's session was ended without a commit. The release is the shard's; a
    /// grant that isn't out there is Gone, and the shard stays. Of that shard the desk has seen the release's
    /// own step as the last, unless it is Gone. The grant is noted as spent. It takes no memory.
    pub fn keep_value(
        &mut self,
        word: &LogWord,
        shard: &mut BoundShard<H>,
        who: Sid,
        grant: Grant,
    ) -> Rel
        requires word { word.now ≡ H.word }
        requires place { shard.old.shard.terms.no ≡ shard_of grant.key H.word.shards }
        requires ended { IsAmong grant.sid.number (ended_of self.old.seen.events) }
        ensures seen { IsBeginning self.old.seen self.new.seen }
        ensures last { result ≢ Rel.Gone → (has : Bool)
            × IsLastStep (shard_of grant.key H.word.shards)
            (release_short grant.key grant.sid grant.token How.Keep result has) self.new.seen }
        ensures out { let at = shard.old.shard in IsTrue (is_out at grant) →
            shard.new.shard ≡ returned at grant (release_step (past_of at) grant How.Keep) }
        ensures shows { let at = shard.old.shard in IsTrue (is_out at grant) →
            ShowsRelease (release_step (past_of at) grant How.Keep) result }
        ensures unknown { IsFalse (is_out shard.old.shard grant) →
            (shard.new.shard ≡ shard.old.shard) × (result ≡ Rel.Gone) }
        ensures book { self.new.book.book
            ≡ noted_for who (without_grant grant) self.old.book.book }
    {
        let ticket = Ticket::of(&grant);
        let answer = shard.release(word, &mut self.pass, grant, How::Keep);
        self.book.note_spent(who, &ticket);
        answer
    }

    /// A release that keeps the value, as `BoundBook::keep_value`, with its reply. It is Gone where the
    /// desk hasn't seen that the grant's session was ended without a commit, and then its quarantine stands
    /// until it is swept. The grant is noted as spent.
    pub(crate) fn reply_to_abort(
        &mut self,
        word: &LogWord,
        shard: &mut BoundShard<H>,
        who: Sid,
        grant: Grant,
    ) -> Reply
        requires word { word.now ≡ H.word }
        requires place { shard.old.shard.terms.no ≡ shard_of grant.key H.word.shards }
        ensures belongs { Belongs who (wanted.Abort grant) result }
        ensures seen { IsBeginning self.old.seen self.new.seen }
        ensures shows { ShowsReply H.opening H.before H.word.shards who (wanted.Abort grant)
            result self.new.seen }
        ensures book { self.new.book.book
            ≡ book_after who (wanted.Abort grant) result self.old.book.book }
        ensures made { IsMade self.old.quit shard.old.shard (wanted.Abort grant) result }
    {
        if !self.has_quit(grant.sid()) {
            self.note_spent(who, &Ticket::of(&grant));
            grant.let_go();
            return Reply::Rel { answer: Rel::Gone };
        }
        Reply::Rel {
            answer: self.keep_value(word, shard, who, grant),
        }
    }

    // Whether it is the session that was seen last to be ended without a commit.
    fn has_quit(&self, who: Sid) -> bool
        ensures quit { IsTrue result ↔ (self.now.quit ≡ Some who) }
        ensures ended { IsTrue result → IsAmong who.number (ended_of self.now.seen.events) }
    {
        match self.quit {
            Some(quit) => quit == who,
            None => false,
        }
    }
}

/// Whether a session may have committed, by the store that is lent. Where it hasn't, no commit of its is
/// among those that the pass has seen, which stays.
fn may_have_committed<K: Keeper, H: BoundName>(
    word: &LogWord,
    store: &mut BoundStore<K, H>,
    pass: &mut Pass,
    who: Sid,
) -> bool
    requires word { word.now ≡ H.word }
    requires pass { pass.old.word ≡ H.word }
    ensures same { pass.new ≡ pass.old }
    ensures shows { IsFalse result → IsLogged (commits_of pass.old.seen.events) who.number → ⊥ }
{
    let mut other = pass.note(word).into_pass();
    store.may_have_committed(word, &mut other, who)
}

/// The store that is lent takes no memory any more for the end of a session, if it is the desk's own.
fn forget_own<K: Keeper, H: BoundName>(store: &mut BoundStore<K, H>, who: Sid, own: bool)
    ensures { store.new ≡ store.old }
{
    if own {
        store.forget(who);
    }
}

/// Which session has quit after the end of one: that one, where it was open, or was begun for writing and
/// can't have committed, and else the same as before.
fn quit_after(before: Option<Sid>, who: Sid, was: bool, writes: bool, may_have: bool) -> Option<Sid>
    ensures { result ≡ quit_after before who was writes may_have }
{
    if was || (writes && !may_have) {
        Some(who)
    } else {
        before
    }
}
