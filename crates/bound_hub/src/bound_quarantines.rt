//! A quarantine on a shard under its lock.
ghost use Rattle.std.specs.Prelude.{◌≡◌, true, IfOk, OnOk, OnErr, is_some};
ghost use Rattle.key_shard.specs.Answers.{FitsShift, quarantine_step};
ghost use Rattle.key_shard.specs.Past.{entry};
ghost use Rattle.key_shard.specs.Replies.{ShowsQuarantine};
ghost use Rattle.key_shard.specs.Shards.{past_of, stepped, refusal, Refuses};
ghost use Rattle.log_word.specs.Events.{may_write};
ghost use Rattle.log_word.specs.Steps.{IsBeginning};
ghost use Rattle.bound_hub.specs.Gets.{IsLastStep};
ghost use Rattle.bound_hub.specs.Olds.{IsGrantHeld};
ghost use Rattle.bound_hub.specs.StepShorts.{quarantine_short};

use crate::bound_shards::BoundShard;
use crate::names::BoundName;
use crate::step_shorts::quarantine_short;
use key_shard::{QAnswer, ShardFault};
use lease_table::Mode;
use log_word::{LogWord, Note, Pass};
use rows_model::{QKey, Sid};

impl<H: BoundName> BoundShard<H> {
    /// Asks for a quarantine of a key for a session, as the shard does, for a caller with this pass, which has
    /// seen that the session began for writing. The caller has then seen all that was seen here, and of this
    /// shard the quarantine's own step as the last. An old value that comes along is held by what the caller
    /// has seen then, and right, unless that tells that the store has stopped telling its rows. Refused by
    /// the shard, everything is as before, but for what the caller has seen. It is four loads of the word.
    pub fn quarantine(
        &mut self,
        word: &LogWord,
        pass: &mut Pass,
        key: QKey,
        who: Sid,
        mode: Mode,
        shift: i32,
        now: u64,
    ) -> Result<QAnswer, ShardFault>
        requires word { word.now ≡ H.word }
        requires pass { pass.old.word ≡ H.word }
        requires fits { FitsShift mode shift }
        requires begun { may_write who.number pass.old.seen.events ≡ true }
        ensures refusal { let shard = self.old.shard in
            let step = quarantine_step shard.terms (past_of shard) key who mode shift now in
            Refuses (refusal shard key step) result }
        ensures step { let shard = self.old.shard in
            let step = quarantine_step shard.terms (past_of shard) key who mode shift now in
            OnOk result (self.new.shard ≡ stepped shard step) }
        ensures shows { let shard = self.old.shard in
            let step = quarantine_step shard.terms (past_of shard) key who mode shift now in
            IfOk result (ShowsQuarantine shard.terms (past_of shard) step) }
        ensures err { OnErr result (self.new.shard ≡ self.old.shard) }
        ensures word { pass.new.word ≡ H.word }
        ensures seen { IsBeginning pass.old.seen pass.new.seen }
        ensures here { IsBeginning self.old.seen pass.new.seen }
        ensures last { IfOk result (λ answer. IsLastStep self.old.shard.terms.no
            (quarantine_short key who mode shift answer
            (is_some (entry key (past_of self.new.shard))))
            pass.new.seen) }
        ensures old { IfOk result (λ answer. let no = self.old.shard.terms.no in
            IsGrantHeld H.opening (H.before no) no pass.new.seen key answer) }
    {
        self.join(word, pass.note(word));
        let (result, note) = self.make_quarantine(word, key, who, mode, shift, now);
        *pass = note.into_pass();
        result
    }

    // The quarantine alone, with a note of all that is seen then. It is one load of the word.
    fn make_quarantine(
        &mut self,
        word: &LogWord,
        key: QKey,
        who: Sid,
        mode: Mode,
        shift: i32,
        now: u64,
    ) -> (Result<QAnswer, ShardFault>, Note)
        requires word { word.now ≡ H.word }
        requires fits { FitsShift mode shift }
        requires begun { may_write who.number self.old.seen.events ≡ true }
        ensures refusal { let shard = self.old.shard in
            let step = quarantine_step shard.terms (past_of shard) key who mode shift now in
            Refuses (refusal shard key step) result.0 }
        ensures step { let shard = self.old.shard in
            let step = quarantine_step shard.terms (past_of shard) key who mode shift now in
            OnOk result.0 (self.new.shard ≡ stepped shard step) }
        ensures shows { let shard = self.old.shard in
            let step = quarantine_step shard.terms (past_of shard) key who mode shift now in
            IfOk result.0 (ShowsQuarantine shard.terms (past_of shard) step) }
        ensures err { OnErr result.0 (self.new.shard ≡ self.old.shard) }
        ensures goes_on { IsBeginning self.old.seen self.new.seen }
        ensures last { IfOk result.0 (λ answer. IsLastStep self.old.shard.terms.no
            (quarantine_short key who mode shift answer
            (is_some (entry key (past_of self.new.shard))))
            self.new.seen) }
        ensures old { IfOk result.0 (λ answer. let no = self.old.shard.terms.no in
            IsGrantHeld H.opening (H.before no) no self.new.seen key answer) }
        ensures note { (result.1.word ≡ H.word) × (result.1.seen ≡ self.new.seen) }
    {
        self.pass.sound();
        match self.shard.quarantine(key, who, mode, shift, now) {
            Ok(answer) => {
                let has = self.shard.peek(&key).is_some();
                let short = quarantine_short(&key, who, mode, shift, &answer, has);
                (Ok(answer), self.pass.tell(word, &short))
            }
            Err(fault) => (Err(fault), self.pass.note(word)),
        }
    }
}
