//! A set on a shard under its lock.
ghost use Rattle.std.specs.Prelude.{◌≡◌, IfOk, OnOk, OnErr, is_some};
ghost use Rattle.key_shard.specs.Answers.{set_step};
ghost use Rattle.key_shard.specs.Past.{entry};
ghost use Rattle.key_shard.specs.Replies.{ShowsSet};
ghost use Rattle.key_shard.specs.Shards.{past_of, stepped, refusal, Refuses};
ghost use Rattle.log_word.specs.Steps.{IsBeginning};
ghost use Rattle.bound_hub.specs.Asked.{MaySet};
ghost use Rattle.bound_hub.specs.Gets.{IsLastStep};
ghost use Rattle.bound_hub.specs.StepShorts.{set_short};

use crate::bound_shards::{BoundShard, legal};
use crate::names::BoundName;
use crate::step_shorts::set_short;
use key_shard::{SetAnswer, ShardFault};
use log_word::{LogWord, Note, Pass};
use rows_model::{QKey, Value};

impl<H: BoundName> BoundShard<H> {
    /// Sets a value on a key, as the shard does, for a caller with this pass. The value was asked for under
    /// the lease of this token, or the token is 0. The caller has then seen all that was seen here, and of
    /// this shard the set's own step as the last. Refused, the shard is as before. It is four loads of the
    /// word.
    pub fn set(
        &mut self,
        word: &LogWord,
        pass: &mut Pass,
        key: QKey,
        token: u64,
        value: Value,
        stamp: u64,
        now: u64,
    ) -> Result<SetAnswer, ShardFault>
        requires word { word.now ≡ H.word }
        requires pass { pass.old.word ≡ H.word }
        requires asked { let no = self.old.shard.terms.no in
            MaySet H.opening H.word.shards no key token value stamp pass.old.seen }
        ensures refusal { let shard = self.old.shard in
            let step = set_step shard.terms (past_of shard) key token value stamp now in
            Refuses (refusal shard key step) result }
        ensures step { let shard = self.old.shard in
            let step = set_step shard.terms (past_of shard) key token value stamp now in
            OnOk result (self.new.shard ≡ stepped shard step) }
        ensures shows { let shard = self.old.shard in
            let step = set_step shard.terms (past_of shard) key token value stamp now in
            IfOk result (ShowsSet step) }
        ensures err { OnErr result (self.new.shard ≡ self.old.shard) }
        ensures word { pass.new.word ≡ H.word }
        ensures seen { IsBeginning pass.old.seen pass.new.seen }
        ensures here { IsBeginning self.old.seen pass.new.seen }
        ensures last { IfOk result (λ answer. IsLastStep self.old.shard.terms.no
            (set_short key token stamp answer (is_some (entry key (past_of self.new.shard))))
            pass.new.seen) }
    {
        self.join(word, pass.note(word));
        let (result, note) = self.make_set(word, key, token, value, stamp, now);
        *pass = note.into_pass();
        result
    }

    // The set alone, with a note of all that is seen then. It is one load of the word.
    fn make_set(
        &mut self,
        word: &LogWord,
        key: QKey,
        token: u64,
        value: Value,
        stamp: u64,
        now: u64,
    ) -> (Result<SetAnswer, ShardFault>, Note)
        requires word { word.now ≡ H.word }
        requires asked { let no = self.old.shard.terms.no in
            MaySet H.opening H.word.shards no key token value stamp self.old.seen }
        ensures refusal { let shard = self.old.shard in
            let step = set_step shard.terms (past_of shard) key token value stamp now in
            Refuses (refusal shard key step) result.0 }
        ensures step { let shard = self.old.shard in
            let step = set_step shard.terms (past_of shard) key token value stamp now in
            OnOk result.0 (self.new.shard ≡ stepped shard step) }
        ensures shows { let shard = self.old.shard in
            let step = set_step shard.terms (past_of shard) key token value stamp now in
            IfOk result.0 (ShowsSet step) }
        ensures err { OnErr result.0 (self.new.shard ≡ self.old.shard) }
        ensures goes_on { IsBeginning self.old.seen self.new.seen }
        ensures last { IfOk result.0 (λ answer. IsLastStep self.old.shard.terms.no
            (set_short key token stamp answer (is_some (entry key (past_of self.new.shard))))
            self.new.seen) }
        ensures note { (result.1.word ≡ H.word) × (result.1.seen ≡ self.new.seen) }
    {
        legal(&self.shard);
        self.pass.sound();
        match self.shard.set(key, token, value, stamp, now) {
            Ok(answer) => {
                let has = self.shard.peek(&key).is_some();
                let short = set_short(&key, token, stamp, &answer, has);
                (Ok(answer), self.pass.tell(word, &short))
            }
            Err(fault) => (Err(fault), self.pass.note(word)),
        }
    }
}
