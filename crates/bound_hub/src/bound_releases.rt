//! The releases of a shard under its lock.
ghost use Rattle.std.specs.Prelude.{◌≡◌, Ok, IsTrue, IfOk, IfErr, OnOk, OnErr, is_some};
ghost use Rattle.std.specs.Bool.{IsFalse};
ghost use Rattle.key_shard.specs.Answers.{FitsMode, release_step, replace_step};
ghost use Rattle.key_shard.specs.Past.{entry};
ghost use Rattle.key_shard.specs.Replies.{ShowsRelease};
ghost use Rattle.key_shard.specs.Shards.{past_of, is_out, returned};
ghost use Rattle.log_word.specs.Steps.{IsBeginning};
ghost use Rattle.bound_hub.specs.Gets.{IsLastStep};
ghost use Rattle.bound_hub.specs.Releases.{MayRelease};
ghost use Rattle.bound_hub.specs.StepShorts.{release_short, replace_short};
ghost use Rattle.bound_hub.specs.Writes.{MayPut};

use crate::bound_shards::{BoundShard, legal};
use crate::names::BoundName;
use crate::step_shorts::{release_short, replace_short};
use key_shard::{Back, Grant, How, Rel};
use lease_table::Mode;
use log_word::{LogWord, Note, Pass};
use rows_model::Value;

impl<H: BoundName> BoundShard<H> {
    /// Releases a grant, as the shard does, for a caller with this pass, which has seen that the grant's
    /// session is over. Where the value is kept it has seen that the session was ended without a commit, and
    /// where it is shifted, that it committed so. The caller has then seen all that was seen here. Of this shard it has seen the release's own step as the
    /// last, but for a grant that isn't out here, which is Gone and makes none. It takes no memory. It is
    /// four loads of the word.
    pub fn release(&mut self, word: &LogWord, pass: &mut Pass, grant: Grant, how: How) -> Rel
        requires word { word.now ≡ H.word }
        requires pass { pass.old.word ≡ H.word }
        requires fits { FitsMode grant.mode how }
        requires honest { let no = self.old.shard.terms.no in
            MayRelease H.opening H.word.shards no grant how pass.old.seen }
        ensures out { let shard = self.old.shard in IsTrue (is_out shard grant) →
            self.new.shard ≡ returned shard grant (release_step (past_of shard) grant how) }
        ensures shows { let shard = self.old.shard in IsTrue (is_out shard grant) →
            ShowsRelease (release_step (past_of shard) grant how) result }
        ensures unknown { let shard = self.old.shard in IsFalse (is_out shard grant) →
            (self.new.shard ≡ shard) × (result ≡ Rel.Gone) }
        ensures word { pass.new.word ≡ H.word }
        ensures seen { IsBeginning pass.old.seen pass.new.seen }
        ensures here { IsBeginning self.old.seen pass.new.seen }
        ensures last { let shard = self.old.shard in IsTrue (is_out shard grant) →
            IsLastStep shard.terms.no (release_short grant.key grant.sid grant.token how result
            (is_some (entry grant.key (past_of self.new.shard)))) pass.new.seen }
    {
        self.join(word, pass.note(word));
        let (answer, note) = self.make_release(word, grant, how);
        *pass = note.into_pass();
        answer
    }

    // The release alone, with a note of all that is seen then. It is one load of the word.
    fn make_release(&mut self, word: &LogWord, grant: Grant, how: How) -> (Rel, Note)
        requires word { word.now ≡ H.word }
        requires fits { FitsMode grant.mode how }
        requires honest { let no = self.old.shard.terms.no in
            MayRelease H.opening H.word.shards no grant how self.old.seen }
        ensures out { let shard = self.old.shard in IsTrue (is_out shard grant) →
            self.new.shard ≡ returned shard grant (release_step (past_of shard) grant how) }
        ensures shows { let shard = self.old.shard in IsTrue (is_out shard grant) →
            ShowsRelease (release_step (past_of shard) grant how) result.0 }
        ensures unknown { let shard = self.old.shard in IsFalse (is_out shard grant) →
            (self.new.shard ≡ shard) × (result.0 ≡ Rel.Gone) }
        ensures goes_on { IsBeginning self.old.seen self.new.seen }
        ensures last { let shard = self.old.shard in IsTrue (is_out shard grant) →
            IsLastStep shard.terms.no (release_short grant.key grant.sid grant.token how result.0
            (is_some (entry grant.key (past_of self.new.shard)))) self.new.seen }
        ensures note { (result.1.word ≡ H.word) × (result.1.seen ≡ self.new.seen) }
    {
        let (key, sid, token) = (grant.key(), grant.sid(), grant.token());
        let out = self.shard.is_out(&grant);
        legal(&self.shard);
        self.pass.sound();
        let answer = self.shard.release(grant, how);
        legal(&self.shard);
        if !out {
            return (answer, self.pass.note(word));
        }
        let has = self.shard.peek(&key).is_some();
        let short = release_short(&key, sid, token, &how, &answer, has);
        (answer, self.pass.tell(word, &short))
    }

    /// Releases a grant with a new value, as the shard does, for a caller with this pass, which has seen that
    /// the grant's session committed, and that its changes make the value of the one that came along. The
    /// caller has then seen all that was seen here. Of this shard it has seen the release's own step as the
    /// last, but for a grant that isn't out here, which is Gone and makes none. For want of memory grant and
    /// value come back, and the shard is as before. It is four loads of the word.
    pub fn replace(
        &mut self,
        word: &LogWord,
        pass: &mut Pass,
        grant: Grant,
        value: Value,
        stamp: u64,
    ) -> Result<Rel, Back>
        requires word { word.now ≡ H.word }
        requires pass { pass.old.word ≡ H.word }
        requires mode { grant.mode ≡ Mode.Refresh }
        requires honest { let no = self.old.shard.terms.no in MayPut H.opening (H.before no)
            H.word.shards no grant.key grant.sid.number grant.token value stamp pass.old.seen }
        ensures out { let shard = self.old.shard in IsTrue (is_out shard grant) → OnOk result
            (self.new.shard ≡ returned shard grant
            (replace_step shard.terms (past_of shard) grant value stamp)) }
        ensures shows { let shard = self.old.shard in IsTrue (is_out shard grant) → IfOk result
            (ShowsRelease (replace_step shard.terms (past_of shard) grant value stamp)) }
        ensures unknown { let shard = self.old.shard in IsFalse (is_out shard grant) →
            (self.new.shard ≡ shard) × (result ≡ Ok Rel.Gone) }
        ensures returned { IfErr result (λ back. (back.grant ≡ grant) × (back.value ≡ value)) }
        ensures err { OnErr result (self.new.shard ≡ self.old.shard) }
        ensures word { pass.new.word ≡ H.word }
        ensures seen { IsBeginning pass.old.seen pass.new.seen }
        ensures here { IsBeginning self.old.seen pass.new.seen }
        ensures last { let shard = self.old.shard in IsTrue (is_out shard grant) → IfOk result
            (λ answer. IsLastStep shard.terms.no (replace_short grant.key grant.sid grant.token stamp
            answer (is_some (entry grant.key (past_of self.new.shard)))) pass.new.seen) }
    {
        self.join(word, pass.note(word));
        let (result, note) = self.make_replace(word, grant, value, stamp);
        *pass = note.into_pass();
        result
    }

    // The release alone, with a note of all that is seen then. It is one load of the word.
    fn make_replace(
        &mut self,
        word: &LogWord,
        grant: Grant,
        value: Value,
        stamp: u64,
    ) -> (Result<Rel, Back>, Note)
        requires word { word.now ≡ H.word }
        requires mode { grant.mode ≡ Mode.Refresh }
        requires honest { let no = self.old.shard.terms.no in MayPut H.opening (H.before no)
            H.word.shards no grant.key grant.sid.number grant.token value stamp self.old.seen }
        ensures out { let shard = self.old.shard in IsTrue (is_out shard grant) → OnOk result.0
            (self.new.shard ≡ returned shard grant
            (replace_step shard.terms (past_of shard) grant value stamp)) }
        ensures shows { let shard = self.old.shard in IsTrue (is_out shard grant) → IfOk result.0
            (ShowsRelease (replace_step shard.terms (past_of shard) grant value stamp)) }
        ensures unknown { let shard = self.old.shard in IsFalse (is_out shard grant) →
            (self.new.shard ≡ shard) × (result.0 ≡ Ok Rel.Gone) }
        ensures returned { IfErr result.0 (λ back. (back.grant ≡ grant) × (back.value ≡ value)) }
        ensures err { OnErr result.0 (self.new.shard ≡ self.old.shard) }
        ensures goes_on { IsBeginning self.old.seen self.new.seen }
        ensures last { let shard = self.old.shard in IsTrue (is_out shard grant) → IfOk result.0
            (λ answer. IsLastStep shard.terms.no (replace_short grant.key grant.sid grant.token stamp
            answer (is_some (entry grant.key (past_of self.new.shard)))) self.new.seen) }
        ensures note { (result.1.word ≡ H.word) × (result.1.seen ≡ self.new.seen) }
    {
        let (key, sid, token) = (grant.key(), grant.sid(), grant.token());
        let out = self.shard.is_out(&grant);
        legal(&self.shard);
        self.pass.sound();
        let answer = match self.shard.replace(grant, value, stamp) {
            Ok(answer) => answer,
            Err(back) => return (Err(back), self.pass.note(word)),
        };
        legal(&self.shard);
        if !out {
            return (Ok(answer), self.pass.note(word));
        }
        let has = self.shard.peek(&key).is_some();
        let short = replace_short(&key, sid, token, stamp, &answer, has);
        (Ok(answer), self.pass.tell(word, &short))
    }
}
