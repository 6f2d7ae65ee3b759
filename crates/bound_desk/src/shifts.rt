//! A release that shifts the key's value, for a desk: of what its book bears out.
ghost use Rattle.std.specs.Prelude.{◌≡◌, ◌≢◌, Bool, IsTrue, true};
ghost use Rattle.std.specs.Bool.{IsFalse};
ghost use Rattle.rows_model.specs.Delta.{is_count};
ghost use Rattle.rows_model.specs.Placement.{shard_of};
ghost use Rattle.key_shard.specs.Answers.{release_step};
ghost use Rattle.key_shard.specs.Replies.{ShowsRelease};
ghost use Rattle.key_shard.specs.Shards.{is_out, past_of, returned};
ghost use Rattle.session_client.specs.declared.replies.Wanted.TheVariants as wanted;
ghost use Rattle.key_shard.specs.declared.replies.How.TheVariants as hows;
ghost use Rattle.log_word.specs.Steps.{IsBeginning};
ghost use Rattle.desk_book.specs.Books.{noted_for, without_grant};
ghost use Rattle.desk_book.specs.Borne.{IsBorne};
ghost use Rattle.bound_hub.specs.Gets.{IsLastStep};
ghost use Rattle.bound_hub.specs.StepShorts.{release_short};

use crate::bound_books::BoundBook;
use bound_hub::{BoundName, BoundShard};
use desk_book::Ticket;
use key_shard::{Grant, How, Rel};
use lease_table::Mode;
use log_word::LogWord;
use rows_model::Sid;

impl<H: BoundName> BoundBook<H> {
    /// Releases a grant of a session on the shard of its key, which is lent, and shifts the key's value by
    /// what the grant is to shift it. The key is a count. The book bears it out: the session is the present
    /// one, committed with this number, and its transaction adds as much to the count. The release is the
    /// shard's; a grant that isn't out there is Gone, and the shard stays. Of that shard the desk has seen
    /// the release's own step as the last, unless it is Gone. The grant is noted as spent. It takes no memory.
    pub fn shift_value(
        &mut self,
        word: &LogWord,
        shard: &mut BoundShard<H>,
        who: Sid,
        grant: Grant,
        stamp: u64,
    ) -> Rel
        requires word { word.now ≡ H.word }
        requires place { shard.old.shard.terms.no ≡ shard_of grant.key H.word.shards }
        requires mode { grant.mode ≡ Mode.Delta }
        requires count { is_count grant.key ≡ true }
        requires borne { IsBorne self.old.book.book who (wanted.Apply grant stamp) }
        ensures seen { IsBeginning self.old.seen self.new.seen }
        ensures last { result ≢ Rel.Gone → (has : Bool)
            × IsLastStep (shard_of grant.key H.word.shards)
            (release_short grant.key grant.sid grant.token (hows.Shift stamp) result has)
            self.new.seen }
        ensures out { let at = shard.old.shard in IsTrue (is_out at grant) →
            shard.new.shard ≡ returned at grant (release_step (past_of at) grant (hows.Shift stamp)) }
        ensures shows { let at = shard.old.shard in IsTrue (is_out at grant) →
            ShowsRelease (release_step (past_of at) grant (hows.Shift stamp)) result }
        ensures unknown { IsFalse (is_out shard.old.shard grant) →
            (shard.new.shard ≡ shard.old.shard) × (result ≡ Rel.Gone) }
        ensures book { self.new.book.book
            ≡ noted_for who (without_grant grant) self.old.book.book }
    {
        let ticket = Ticket::of(&grant);
        let answer = shard.release(word, &mut self.pass, grant, How::Shift { stamp });
        self.book.note_spent(who, &ticket);
        answer
    }
}
