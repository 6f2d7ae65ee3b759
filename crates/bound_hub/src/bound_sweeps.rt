//! What a sweeper does to a shard under its lock.
ghost use Rattle.std.specs.Prelude.{◌≡◌, ◌≢◌, true, false, None, IfSome, IfNone};
ghost use Rattle.lease_table.specs.Expiry.{NoneDue, NoneDueBefore, StandsDue};
ghost use Rattle.key_shard.specs.Answers.{sweep_step};
ghost use Rattle.key_shard.specs.Dues.{first_due};
ghost use Rattle.key_shard.specs.Past.{entry, quar_of, standing};
ghost use Rattle.key_shard.specs.Replies.{sweep_answer};
ghost use Rattle.key_shard.specs.Shards.{past_of, swept};
ghost use Rattle.key_shard.specs.Answers.{IsAtHome};
ghost use Rattle.log_word.specs.Events.{is_over};
ghost use Rattle.log_word.specs.Steps.{IsBeginning};
ghost use Rattle.bound_hub.specs.Gets.{IsLastStep};
ghost use Rattle.bound_hub.specs.Sweeps.{HasSeenGrant};
ghost use Rattle.bound_hub.specs.StepShorts.{release_short};

use crate::bound_shards::{BoundShard, legal};
use crate::names::BoundName;
use crate::step_shorts::release_short;
use key_shard::{How, Rel};
use lease_table::Due;
use log_word::{LogWord, Note, Pass};
use rows_model::{QKey, Sid};

impl<H: BoundName> BoundShard<H> {
    /// The first quarantine whose deadline has come, as the shard finds it, for a caller with this pass. The
    /// caller has then seen all that was seen here, and the grant of what was found. The shard is as before.
    /// It is four loads of the word.
    pub fn expired(&mut self, word: &LogWord, pass: &mut Pass, now: u64) -> Option<Due>
        requires word { word.now ≡ H.word }
        requires pass { pass.old.word ≡ H.word }
        ensures left { self.new.shard ≡ self.old.shard }
        ensures due { IfSome result (StandsDue now (λ key. standing key (past_of self.old.shard))) }
        ensures least { IfSome result
            (NoneDueBefore now (λ key. standing key (past_of self.old.shard))) }
        ensures none { IfNone result (NoneDue now (λ key. standing key (past_of self.old.shard))) }
        ensures first { result ≡ first_due now (past_of self.old.shard) }
        ensures word { pass.new.word ≡ H.word }
        ensures seen { IsBeginning pass.old.seen pass.new.seen }
        ensures here { IsBeginning self.old.seen pass.new.seen }
        ensures granted { IfSome result (λ due. HasSeenGrant self.old.shard.terms.no
            due.key due.sid.number due.token pass.new.seen) }
    {
        self.join(word, pass.note(word));
        *pass = self.note(word).into_pass();
        self.scan(now)
    }

    // The scan alone: what is found was seen to be granted.
    fn scan(&mut self, now: u64) -> Option<Due>
        ensures same { self.new ≡ self.old }
        ensures due { IfSome result (StandsDue now (λ key. standing key (past_of self.old.shard))) }
        ensures least { IfSome result
            (NoneDueBefore now (λ key. standing key (past_of self.old.shard))) }
        ensures none { IfNone result (NoneDue now (λ key. standing key (past_of self.old.shard))) }
        ensures first { result ≡ first_due now (past_of self.old.shard) }
        ensures granted { IfSome result (λ due. HasSeenGrant self.old.shard.terms.no
            due.key due.sid.number due.token self.old.seen) }
    {
        self.shard.expired(now)
    }

    /// Ends the quarantine of this token on this key and drops the key's entry, as the shard does, for a
    /// caller with this pass. The caller has seen that the quarantine was granted to this session, and that
    /// the session is over. It has then seen all that was seen here, and of this shard the drop as the last
    /// step, unless it is Gone, which makes none. It takes no memory. It is four loads of the word.
    pub fn sweep(&mut self, word: &LogWord, pass: &mut Pass, key: QKey, sid: Sid, token: u64) -> Rel
        requires word { word.now ≡ H.word }
        requires pass { pass.old.word ≡ H.word }
        requires home { IsAtHome self.old.shard.terms key }
        requires granted { let no = self.old.shard.terms.no in
            HasSeenGrant no key sid.number token pass.old.seen }
        requires over { is_over sid.number pass.old.seen.events ≡ true }
        ensures step { let shard = self.old.shard in
            self.new.shard ≡ swept shard (sweep_step (past_of shard) key token) }
        ensures told { result ≡ sweep_answer (sweep_step (past_of self.old.shard) key token) }
        ensures ended { quar_of key token (past_of self.new.shard) ≡ None }
        ensures dropped { result ≢ Rel.Gone → entry key (past_of self.new.shard) ≡ None }
        ensures word { pass.new.word ≡ H.word }
        ensures seen { IsBeginning pass.old.seen pass.new.seen }
        ensures here { IsBeginning self.old.seen pass.new.seen }
        ensures last { result ≢ Rel.Gone → IsLastStep self.old.shard.terms.no
            (release_short key sid token How.Drop result false) pass.new.seen }
    {
        self.join(word, pass.note(word));
        let (answer, note) = self.make_sweep(word, key, sid, token);
        *pass = note.into_pass();
        answer
    }

    // The drop alone, with a note of all that is seen then. It is one load of the word.
    fn make_sweep(&mut self, word: &LogWord, key: QKey, sid: Sid, token: u64) -> (Rel, Note)
        requires word { word.now ≡ H.word }
        requires home { IsAtHome self.old.shard.terms key }
        requires granted { let no = self.old.shard.terms.no in
            HasSeenGrant no key sid.number token self.old.seen }
        requires over { is_over sid.number self.old.seen.events ≡ true }
        ensures step { let shard = self.old.shard in
            self.new.shard ≡ swept shard (sweep_step (past_of shard) key token) }
        ensures told { result.0 ≡ sweep_answer (sweep_step (past_of self.old.shard) key token) }
        ensures ended { quar_of key token (past_of self.new.shard) ≡ None }
        ensures dropped { result.0 ≢ Rel.Gone → entry key (past_of self.new.shard) ≡ None }
        ensures goes_on { IsBeginning self.old.seen self.new.seen }
        ensures last { result.0 ≢ Rel.Gone → IsLastStep self.old.shard.terms.no
            (release_short key sid token How.Drop result.0 false) self.new.seen }
        ensures note { (result.1.word ≡ H.word) × (result.1.seen ≡ self.new.seen) }
    {
        legal(&self.shard);
        self.pass.sound();
        let answer = self.shard.sweep_drop(key, token);
        match answer {
            Rel::Gone => (answer, self.pass.note(word)),
            Rel::Released { .. } => {
                let short = release_short(&key, sid, token, &How::Drop, &answer, false);
                (answer, self.pass.tell(word, &short))
            }
        }
    }
}
