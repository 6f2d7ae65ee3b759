//! A raise and a renewal of a shard under its lock.
ghost use Rattle.std.specs.Prelude.{◌≡◌, Ok, IsTrue, IfOk, IfErr, OnOk, OnErr, is_some};
ghost use Rattle.std.specs.Bool.{IsFalse};
ghost use Rattle.key_shard.specs.Answers.{raise_step, renew_step};
ghost use Rattle.key_shard.specs.Past.{entry};
ghost use Rattle.key_shard.specs.Replies.{ShowsRaise, ShowsRenewal};
ghost use Rattle.key_shard.specs.Shards.{past_of, is_out, after_raise, stepped};
ghost use Rattle.log_word.specs.Steps.{IsBeginning};
ghost use Rattle.bound_hub.specs.Gets.{IsLastStep};
ghost use Rattle.bound_hub.specs.Olds.{IsRaiseHeld};
ghost use Rattle.bound_hub.specs.StepShorts.{raise_short, renew_short};

use crate::bound_shards::{BoundShard, legal};
use crate::names::BoundName;
use crate::step_shorts::{raise_short, renew_short};
use key_shard::{Grant, Raising, Renewal};
use lease_table::Mode;
use log_word::{LogWord, Note, Pass};
use rows_model::Memory;

impl<H: BoundName> BoundShard<H> {
    /// Raises the quarantine of a grant, as the shard does, for a caller with this pass. The caller has then
    /// seen all that was seen here. Of this shard it has seen the raise's own step as the last, but for a
    /// grant that isn't out here, which is Gone and makes none. An old value that comes along is held by what
    /// the caller has seen then, and right, unless that tells that the store has stopped telling its rows.
    /// For want of memory the grant comes back, and the shard is as before. It is four loads of the word.
    pub fn raise(&mut self, word: &LogWord, pass: &mut Pass, grant: Grant) -> Result<Raising, Grant>
        requires word { word.now ≡ H.word }
        requires pass { pass.old.word ≡ H.word }
        requires mode { grant.mode ≡ Mode.Invalidate }
        ensures out { let shard = self.old.shard in IsTrue (is_out shard grant) → OnOk result
            (self.new.shard ≡ after_raise shard grant (raise_step (past_of shard) grant)) }
        ensures shows { let shard = self.old.shard in IsTrue (is_out shard grant) → IfOk result
            (ShowsRaise (past_of shard) grant (raise_step (past_of shard) grant)) }
        ensures unknown { let shard = self.old.shard in IsFalse (is_out shard grant) →
            (self.new.shard ≡ shard) × (result ≡ Ok Raising.Gone) }
        ensures returned { IfErr result (λ back. back ≡ grant) }
        ensures err { OnErr result (self.new.shard ≡ self.old.shard) }
        ensures word { pass.new.word ≡ H.word }
        ensures seen { IsBeginning pass.old.seen pass.new.seen }
        ensures here { IsBeginning self.old.seen pass.new.seen }
        ensures last { let shard = self.old.shard in IsTrue (is_out shard grant) → IfOk result
            (λ answer. IsLastStep shard.terms.no (raise_short grant.key grant.sid grant.token answer
            (is_some (entry grant.key (past_of self.new.shard)))) pass.new.seen) }
        ensures old { let shard = self.old.shard in IsTrue (is_out shard grant) → IfOk result
            (IsRaiseHeld H.opening (H.before shard.terms.no) shard.terms.no pass.new.seen grant.key) }
    {
        self.join(word, pass.note(word));
        let (result, note) = self.make_raise(word, grant);
        *pass = note.into_pass();
        result
    }

    // The raise alone, with a note of all that is seen then. It is one load of the word.
    fn make_raise(&mut self, word: &LogWord, grant: Grant) -> (Result<Raising, Grant>, Note)
        requires word { word.now ≡ H.word }
        requires mode { grant.mode ≡ Mode.Invalidate }
        ensures out { let shard = self.old.shard in IsTrue (is_out shard grant) → OnOk result.0
            (self.new.shard ≡ after_raise shard grant (raise_step (past_of shard) grant)) }
        ensures shows { let shard = self.old.shard in IsTrue (is_out shard grant) → IfOk result.0
            (ShowsRaise (past_of shard) grant (raise_step (past_of shard) grant)) }
        ensures unknown { let shard = self.old.shard in IsFalse (is_out shard grant) →
            (self.new.shard ≡ shard) × (result.0 ≡ Ok Raising.Gone) }
        ensures returned { IfErr result.0 (λ back. back ≡ grant) }
        ensures err { OnErr result.0 (self.new.shard ≡ self.old.shard) }
        ensures goes_on { IsBeginning self.old.seen self.new.seen }
        ensures last { let shard = self.old.shard in IsTrue (is_out shard grant) → IfOk result.0
            (λ answer. IsLastStep shard.terms.no (raise_short grant.key grant.sid grant.token answer
            (is_some (entry grant.key (past_of self.new.shard)))) self.new.seen) }
        ensures old { let shard = self.old.shard in IsTrue (is_out shard grant) → IfOk result.0
            (IsRaiseHeld H.opening (H.before shard.terms.no) shard.terms.no self.new.seen grant.key) }
        ensures note { (result.1.word ≡ H.word) × (result.1.seen ≡ self.new.seen) }
    {
        let (key, sid, token) = (grant.key(), grant.sid(), grant.token());
        let out = self.shard.is_out(&grant);
        legal(&self.shard);
        self.pass.sound();
        let answer = match self.shard.raise(grant) {
            Ok(answer) => answer,
            Err(grant) => return (Err(grant), self.pass.note(word)),
        };
        legal(&self.shard);
        if !out {
            return (Ok(answer), self.pass.note(word));
        }
        let has = self.shard.peek(&key).is_some();
        let short = raise_short(&key, sid, token, &answer, has);
        (Ok(answer), self.pass.tell(word, &short))
    }

    /// Gives the quarantine of a grant a new deadline, as the shard does, for a caller with this pass. The
    /// caller has then seen all that was seen here. Of this shard it has seen the renewal's own step as the
    /// last, but for a grant that isn't out here, which is Gone and makes none. For want of memory the shard
    /// is as before. It is four loads of the word.
    pub fn renew(
        &mut self,
        word: &LogWord,
        pass: &mut Pass,
        grant: &Grant,
        now: u64,
    ) -> Result<Renewal, Memory>
        requires word { word.now ≡ H.word }
        requires pass { pass.old.word ≡ H.word }
        ensures out { let shard = self.old.shard in IsTrue (is_out shard grant.now) → OnOk result
            (self.new.shard ≡ stepped shard (renew_step shard.terms (past_of shard) grant.now now)) }
        ensures shows { let shard = self.old.shard in IsTrue (is_out shard grant.now) → IfOk result
            (ShowsRenewal (renew_step shard.terms (past_of shard) grant.now now)) }
        ensures unknown { let shard = self.old.shard in IsFalse (is_out shard grant.now) →
            (self.new.shard ≡ shard) × (result ≡ Ok Renewal.Gone) }
        ensures err { OnErr result (self.new.shard ≡ self.old.shard) }
        ensures word { pass.new.word ≡ H.word }
        ensures seen { IsBeginning pass.old.seen pass.new.seen }
        ensures here { IsBeginning self.old.seen pass.new.seen }
        ensures last { let shard = self.old.shard in IsTrue (is_out shard grant.now) → IfOk result
            (λ answer. IsLastStep shard.terms.no (renew_short grant.now.key grant.now.sid
            grant.now.token answer (is_some (entry grant.now.key (past_of self.new.shard))))
            pass.new.seen) }
    {
        self.join(word, pass.note(word));
        let (result, note) = self.make_renewal(word, grant, now);
        *pass = note.into_pass();
        result
    }

    // The renewal alone, with a note of all that is seen then. It is one load of the word.
    fn make_renewal(
        &mut self,
        word: &LogWord,
        grant: &Grant,
        now: u64,
    ) -> (Result<Renewal, Memory>, Note)
        requires word { word.now ≡ H.word }
        ensures out { let shard = self.old.shard in IsTrue (is_out shard grant.now) → OnOk result.0
            (self.new.shard ≡ stepped shard (renew_step shard.terms (past_of shard) grant.now now)) }
        ensures shows { let shard = self.old.shard in IsTrue (is_out shard grant.now) → IfOk result.0
            (ShowsRenewal (renew_step shard.terms (past_of shard) grant.now now)) }
        ensures unknown { let shard = self.old.shard in IsFalse (is_out shard grant.now) →
            (self.new.shard ≡ shard) × (result.0 ≡ Ok Renewal.Gone) }
        ensures err { OnErr result.0 (self.new.shard ≡ self.old.shard) }
        ensures goes_on { IsBeginning self.old.seen self.new.seen }
        ensures last { let shard = self.old.shard in IsTrue (is_out shard grant.now) → IfOk result.0
            (λ answer. IsLastStep shard.terms.no (renew_short grant.now.key grant.now.sid
            grant.now.token answer (is_some (entry grant.now.key (past_of self.new.shard))))
            self.new.seen) }
        ensures note { (result.1.word ≡ H.word) × (result.1.seen ≡ self.new.seen) }
    {
        let out = self.shard.is_out(grant);
        legal(&self.shard);
        self.pass.sound();
        let answer = match self.shard.renew(grant, now) {
            Ok(answer) => answer,
            Err(fault) => return (Err(fault), self.pass.note(word)),
        };
        legal(&self.shard);
        if !out {
            return (Ok(answer), self.pass.note(word));
        }
        let key = grant.key();
        let has = self.shard.peek(&key).is_some();
        let short = renew_short(&key, grant.sid(), grant.token(), &answer, has);
        (Ok(answer), self.pass.tell(word, &short))
    }
}
