//! A release with a new value, for a desk: of what its book bears out.
ghost use Rattle.std.specs.Prelude.{◌≡◌, ◌≢◌, Bool, IfErr, IfOk, IsTrue, Ok, OnErr, OnOk, Some};
ghost use Rattle.std.specs.Bool.{IsFalse};
ghost use Rattle.rows_model.specs.Placement.{shard_of};
ghost use Rattle.key_shard.specs.Answers.{replace_step};
ghost use Rattle.key_shard.specs.Replies.{ShowsRelease};
ghost use Rattle.key_shard.specs.Shards.{is_out, past_of, returned};
ghost use Rattle.session_client.specs.declared.replies.Wanted.TheVariants as wanted;
ghost use Rattle.log_word.specs.Steps.{IsBeginning};
ghost use Rattle.desk_book.specs.Books.{noted_for, without_grant};
ghost use Rattle.desk_book.specs.Borne.{IsBorne};
ghost use Rattle.bound_hub.specs.Gets.{IsLastStep};
ghost use Rattle.bound_hub.specs.StepShorts.{replace_short};

use crate::bound_books::BoundBook;
use bound_hub::{BoundName, BoundShard};
use desk_book::Ticket;
use key_shard::{Back, Grant, Rel};
use lease_table::Mode;
use log_word::LogWord;
use rows_model::{Sid, Value};

impl<H: BoundName> BoundBook<H> {
    /// Releases a grant of a session on the shard of its key, which is lent, with a new value in the place
    /// of the key's. The book bears it out: the session is the present one, committed with this number,
    /// and its transaction makes the value of the one that came along with the grant. The release is the
    /// shard's; a grant that isn't out there is Gone, and the shard stays. Of that shard the desk has seen
    /// the release's own step as the last, unless it is Gone. The grant is noted as spent. For want of memory
    /// grant and value come back, and book and shard stay.
    pub fn put_value(
        &mut self,
        word: &LogWord,
        shard: &mut BoundShard<H>,
        who: Sid,
        grant: Grant,
        value: Value,
        stamp: u64,
    ) -> Result<Rel, Back>
        requires word { word.now ≡ H.word }
        requires place { shard.old.shard.terms.no ≡ shard_of grant.key H.word.shards }
        requires mode { grant.mode ≡ Mode.Refresh }
        requires borne { IsBorne self.old.book.book who (wanted.Sar grant (Some value) stamp) }
        ensures seen { IsBeginning self.old.seen self.new.seen }
        ensures last { IfOk result (λ answer. answer ≢ Rel.Gone → (has : Bool)
            × IsLastStep (shard_of grant.key H.word.shards)
            (replace_short grant.key grant.sid grant.token stamp answer has) self.new.seen) }
        ensures out { let at = shard.old.shard in IsTrue (is_out at grant) → OnOk result
            (shard.new.shard ≡ returned at grant
            (replace_step at.terms (past_of at) grant value stamp)) }
        ensures shows { let at = shard.old.shard in IsTrue (is_out at grant) → IfOk result
            (ShowsRelease (replace_step at.terms (past_of at) grant value stamp)) }
        ensures unknown { IsFalse (is_out shard.old.shard grant) →
            (shard.new.shard ≡ shard.old.shard) × (result ≡ Ok Rel.Gone) }
        ensures book { OnOk result (self.new.book.book
            ≡ noted_for who (without_grant grant) self.old.book.book) }
        ensures back { IfErr result (λ back. (back.grant ≡ grant) × (back.value ≡ value)) }
        ensures err { OnErr result (self.new.book ≡ self.old.book) }
        ensures stays { OnErr result (shard.new.shard ≡ shard.old.shard) }
    {
        let ticket = Ticket::of(&grant);
        let answer = shard.replace(word, &mut self.pass, grant, value, stamp)?;
        self.book.note_spent(who, &ticket);
        Ok(answer)
    }
}
