//! A release that drops the key's value, for a desk: the book notes that the grant is spent.
ghost use Rattle.std.specs.Prelude.{◌≡◌, ◌≢◌, ◌⊎◌, Bool, IsTrue, true};
ghost use Rattle.std.specs.Bool.{IsFalse};
ghost use Rattle.rows_model.specs.Placement.{shard_of};
ghost use Rattle.key_shard.specs.Answers.{release_step};
ghost use Rattle.key_shard.specs.Replies.{ShowsRelease};
ghost use Rattle.key_shard.specs.Shards.{is_out, past_of, returned};
ghost use Rattle.log_word.specs.Events.{is_over};
ghost use Rattle.log_word.specs.Steps.{IsBeginning};
ghost use Rattle.desk_book.specs.Books.{noted_for, without_grant};
ghost use Rattle.bound_hub.specs.Gets.{IsLastStep};
ghost use Rattle.bound_hub.specs.StepShorts.{release_short};
ghost use Rattle.bound_desk.specs.Bound.{HasCommitted};

use crate::bound_books::BoundBook;
use bound_hub::{BoundName, BoundShard};
use desk_book::Ticket;
use key_shard::{Grant, How, Rel};
use log_word::LogWord;
use rows_model::Sid;

impl<H: BoundName> BoundBook<H> {
    /// Releases a grant for a session on the shard of its key, which is lent, and drops the key's value.
    /// The grant is of the present session, which has committed, or the desk has seen that the grant's
    /// session is over. The release is the shard's; a grant that isn't out there is Gone, and the shard
    /// stays. Of that shard the desk has seen the release's own step as the last, unless it is Gone. The
    /// grant is noted as spent. It takes no memory.
    pub fn drop_value(
        &mut self,
        word: &LogWord,
        shard: &mut BoundShard<H>,
        who: Sid,
        grant: Grant,
    ) -> Rel
        requires word { word.now ≡ H.word }
        requires place { shard.old.shard.terms.no ≡ shard_of grant.key H.word.shards }
        requires over { HasCommitted self.old.book.book grant.sid
            ⊎ (is_over grant.sid.number self.old.seen.events ≡ true) }
        ensures seen { IsBeginning self.old.seen self.new.seen }
        ensures last { result ≢ Rel.Gone → (has : Bool)
            × IsLastStep (shard_of grant.key H.word.shards)
            (release_short grant.key grant.sid grant.token How.Drop result has) self.new.seen }
        ensures out { let at = shard.old.shard in IsTrue (is_out at grant) →
            shard.new.shard ≡ returned at grant (release_step (past_of at) grant How.Drop) }
        ensures shows { let at = shard.old.shard in IsTrue (is_out at grant) →
            ShowsRelease (release_step (past_of at) grant How.Drop) result }
        ensures unknown { IsFalse (is_out shard.old.shard grant) →
            (shard.new.shard ≡ shard.old.shard) × (result ≡ Rel.Gone) }
        ensures book { self.new.book.book
            ≡ noted_for who (without_grant grant) self.old.book.book }
    {
        let ticket = Ticket::of(&grant);
        let answer = shard.release(word, &mut self.pass, grant, How::Drop);
        self.book.note_spent(who, &ticket);
        answer
    }
}
