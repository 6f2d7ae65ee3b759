//! What lies under the lock of a shard: the shard, its token, and its pass.
ghost use Rattle.std.specs.Prelude.{◌≡◌, ◌+◌, ◌<◌, ℕ, List, [], Some, IfOk, OnOk, OnErr, IfSome, IfNone, is_some, option_map, length};
ghost use Rattle.lease_table.specs.Expiry.{NoneDue};
ghost use Rattle.key_shard.specs.Answers.{IsAtHome, Legal, get_step};
ghost use Rattle.key_shard.specs.Past.{entry, standing};
ghost use Rattle.key_shard.specs.Replies.{ShowsGot};
ghost use Rattle.key_shard.specs.Shards.{past_of, stepped, refusal, Refuses};
ghost use Rattle.log_word.specs.Views.{with_step};
ghost use Rattle.bound_hub.specs.Gets.{got_short, IsGotFresh, IsGotHeld, IsLastStep};
ghost use Rattle.log_word.specs.Lists.{steps_of};
ghost use Rattle.log_word.specs.Steps.{IsBeginning};
ghost use Rattle.log_word.specs.Passes.{IsTogether};
ghost use Rattle.shard_lock.specs.Names.{IsNamed, IsTokenOf};
ghost use Rattle.bound_hub.specs.Ties.{IsNewShard};
ghost use Rattle.bound_hub.specs.Spent.{HasSeenAll};

use crate::names::BoundName;
use crate::shorts::got_short;
use key_shard::{Got, Shard, ShardFault};
use log_word::{LogWord, Note, Pass, ShardPass};
use rows_model::{QKey, Sid, Value};
use std::marker::Model;
use std::sync::ledger::Share;

/// A shard of a hub, with what is named for its number, and the pass that has seen each of its steps
/// since the hub was made. Contracts see the shard and what the pass has seen.
///
/// Each entry is held by what the pass has seen of the store: each commit on its key that it lacks has
/// its quarantine standing. And it is its key's answer after as many commits as its stamp says, unless
/// the pass has seen that the store stopped telling its rows.
#[derive(Drop)]
pub struct BoundShard<H: BoundName> {
    pub(crate) shard: Shard,
    pub(crate) token: Share<H>,
    pub(crate) pass: ShardPass,
}

impl<H: BoundName> Model for BoundShard<H> {
    ghost use Rattle.shard_lock.specs.Names.{IsNamed, IsTokenOf};
    ghost use Rattle.bound_hub.specs.Ties.{BoundShardView, IsBoundShard};

    ghost Value = { BoundShardView };

    ghost view = { λ bound. record { shard = bound.shard; seen = bound.pass.seen } };

    ghost invariant = { λ bound. IsNamed H.terms bound.shard
        × IsTokenOf bound.shard.terms.no bound.token.parts bound.token.amount
        × IsBoundShard H.word H.opening H.before bound.shard bound.pass };
}

impl<H: BoundName> BoundShard<H> {
    /// A shard as it was named, and the pass of its number, which has seen no event and no step yet.
    pub fn new(shard: Shard, token: Share<H>, pass: ShardPass) -> BoundShard<H>
        requires named { IsNamed H.terms shard }
        requires token { IsTokenOf shard.terms.no token.parts token.amount }
        requires word { pass.word ≡ H.word }
        requires number { pass.shard ≡ shard.terms.no }
        requires count { shard.terms.count ≡ H.word.shards }
        requires events { pass.seen.events ≡ [] }
        requires steps { steps_of shard.terms.no pass.seen.steps ≡ [] }
        requires new { IsNewShard H.opening H.before pass.seen.stopped shard }
        ensures shard { result.shard ≡ shard }
        ensures seen { result.seen ≡ pass.seen }
    {
        BoundShard { shard, token, pass }
    }

    /// The shard's number.
    pub fn no(&self) -> u32
        ensures number { result ≡ self.now.shard.terms.no }
        ensures named { IsNamed H.terms self.now.shard }
    {
        self.shard.no()
    }

    /// A time before which no quarantine's deadline comes on the shard. It takes no memory.
    pub fn next_due(&self) -> u64
        ensures { (now : ℕ) → now < result
            → NoneDue now (λ key. standing key (past_of self.now.shard)) }
    {
        self.shard.next_due()
    }

    /// The value and the stamp of the key's entry, if it has one, as the shard tells them. It takes no
    /// memory.
    pub fn peek(&self, key: &QKey) -> Option<(&Value, u64)>
        ensures { option_map (λ found. (found.0.now, found.1)) result
            ≡ entry key.now (past_of self.now.shard) }
    {
        self.shard.peek(key)
    }

    /// Gets a key of the shard for a session, as the shard does, for a caller with this pass. The caller has
    /// then seen all that was seen here, and of this shard the get's own step as the last. A hit is held by what
    /// the caller has seen then, and fresh against it, unless that tells that the store has stopped telling its
    /// rows.
    /// Refused, the shard is as before. It is four loads of the word.
    pub fn get(
        &mut self,
        word: &LogWord,
        pass: &mut Pass,
        key: QKey,
        who: Sid,
        floor: u64,
        now: u64,
    ) -> Result<Got, ShardFault>
        requires word { word.now ≡ H.word }
        requires pass { pass.old.word ≡ H.word }
        requires home { IsAtHome self.old.shard.terms key }
        ensures refusal { let shard = self.old.shard in
            let step = get_step shard.terms (past_of shard) key who floor now in
            Refuses (refusal shard key step) result }
        ensures step { let shard = self.old.shard in
            let step = get_step shard.terms (past_of shard) key who floor now in
            OnOk result (self.new.shard ≡ stepped shard step) }
        ensures shows { let shard = self.old.shard in
            let step = get_step shard.terms (past_of shard) key who floor now in
            IfOk result (ShowsGot step) }
        ensures err { OnErr result (self.new.shard ≡ self.old.shard) }
        ensures word { pass.new.word ≡ H.word }
        ensures seen { IsBeginning pass.old.seen pass.new.seen }
        ensures last { IfOk result (λ got. IsLastStep self.old.shard.terms.no
            (got_short key who got (is_some (entry key (past_of self.new.shard)))) pass.new.seen) }
        ensures held { IfOk result (λ got. let no = self.old.shard.terms.no in
            IsGotHeld H.opening (H.before no) no pass.new.seen key got) }
        ensures fresh { IfOk result (λ got. let no = self.old.shard.terms.no in
            IsGotFresh H.opening (H.before no) no pass.new.seen key got) }
    {
        self.join(word, pass.note(word));
        let (got, note) = self.make_get(word, key, who, floor, now)?;
        *pass = note.into_pass();
        Ok(got)
    }

    /// Gets a key of the shard for a session, as `get`, where that is a hit: the time is of no account to one.
    /// After `None` the shard is as before.
    pub fn get_hit(
        &mut self,
        word: &LogWord,
        pass: &mut Pass,
        key: QKey,
        who: Sid,
        floor: u64,
    ) -> Option<Got>
        requires word { word.now ≡ H.word }
        requires pass { pass.old.word ≡ H.word }
        requires home { IsAtHome self.old.shard.terms key }
        ensures step { (now : ℕ) → let shard = self.old.shard in
            let step = get_step shard.terms (past_of shard) key who floor now in
            IfSome result (λ got. self.new.shard ≡ stepped shard step) }
        ensures shows { (now : ℕ) → let shard = self.old.shard in
            let step = get_step shard.terms (past_of shard) key who floor now in
            IfSome result (ShowsGot step) }
        ensures none { IfNone result (self.new.shard ≡ self.old.shard) }
        ensures word { pass.new.word ≡ H.word }
        ensures seen { IsBeginning pass.old.seen pass.new.seen }
        ensures last { IfSome result (λ got. IsLastStep self.old.shard.terms.no
            (got_short key who got (is_some (entry key (past_of self.new.shard)))) pass.new.seen) }
        ensures held { IfSome result (λ got. let no = self.old.shard.terms.no in
            IsGotHeld H.opening (H.before no) no pass.new.seen key got) }
        ensures fresh { IfSome result (λ got. let no = self.old.shard.terms.no in
            IsGotFresh H.opening (H.before no) no pass.new.seen key got) }
    {
        self.join(word, pass.note(word));
        let (got, note) = self.make_hit(word, key, who, floor)?;
        *pass = note.into_pass();
        Some(got)
    }

    // The hit alone, as `make_get`.
    fn make_hit(&mut self, word: &LogWord, key: QKey, who: Sid, floor: u64) -> Option<(Got, Note)>
        requires word { word.now ≡ H.word }
        requires home { IsAtHome self.old.shard.terms key }
        ensures step { (now : ℕ) → let shard = self.old.shard in
            let step = get_step shard.terms (past_of shard) key who floor now in
            IfSome result (λ its_got. self.new.shard ≡ stepped shard step) }
        ensures shows { (now : ℕ) → let shard = self.old.shard in
            let step = get_step shard.terms (past_of shard) key who floor now in
            IfSome result (λ its_got. ShowsGot step its_got.0) }
        ensures seen { IfSome result (λ its_got. self.new.seen ≡ with_step self.old.shard.terms.no
            (got_short key who its_got.0 (is_some (entry key (past_of self.new.shard)))) self.old.seen) }
        ensures note { IfSome result (λ its_got.
            (its_got.1.word ≡ H.word) × (its_got.1.seen ≡ self.new.seen)) }
        ensures held { IfSome result (λ its_got. let no = self.old.shard.terms.no in
            IsGotHeld H.opening (H.before no) no self.new.seen key its_got.0) }
        ensures none { IfNone result (self.new ≡ self.old) }
    {
        self.pass.sound();
        let Ok(Some(got)) = self.shard.get_hit(key, who, floor) else {
            return None;
        };
        let has = has_entry(&self.shard, &key, &got);
        let short = got_short(&key, who, &got, has);
        let note = self.pass.tell(word, &short);
        Some((got, note))
    }

    // The get alone, with a note of all that is seen then. A hit is held by it: each commit on the key that
    // it lacks has its quarantine standing, and it is the key's answer after as many commits as its stamp
    // says, unless the note tells that the store has stopped telling its rows. It is one load of the word.
    fn make_get(
        &mut self,
        word: &LogWord,
        key: QKey,
        who: Sid,
        floor: u64,
        now: u64,
    ) -> Result<(Got, Note), ShardFault>
        requires word { word.now ≡ H.word }
        requires home { IsAtHome self.old.shard.terms key }
        ensures refusal { let shard = self.old.shard in
            let step = get_step shard.terms (past_of shard) key who floor now in
            Refuses (refusal shard key step) result }
        ensures step { let shard = self.old.shard in
            let step = get_step shard.terms (past_of shard) key who floor now in
            OnOk result (self.new.shard ≡ stepped shard step) }
        ensures shows { let shard = self.old.shard in
            let step = get_step shard.terms (past_of shard) key who floor now in
            IfOk result (λ its_got. ShowsGot step its_got.0) }
        ensures seen { IfOk result (λ its_got. self.new.seen ≡ with_step self.old.shard.terms.no
            (got_short key who its_got.0 (is_some (entry key (past_of self.new.shard)))) self.old.seen) }
        ensures note { IfOk result (λ its_got.
            (its_got.1.word ≡ H.word) × (its_got.1.seen ≡ self.new.seen)) }
        ensures held { IfOk result (λ its_got. let no = self.old.shard.terms.no in
            IsGotHeld H.opening (H.before no) no self.new.seen key its_got.0) }
        ensures err { OnErr result (self.new ≡ self.old) }
    {
        self.pass.sound();
        let got = self.shard.get_at_home(key, who, floor, now)?;
        let has = has_entry(&self.shard, &key, &got);
        let short = got_short(&key, who, &got, has);
        let note = self.pass.tell(word, &short);
        Ok((got, note))
    }

    /// A note of what its pass has seen.
    pub fn note(&mut self, word: &LogWord) -> Note
        requires word { word.now ≡ H.word }
        ensures same { self.new ≡ self.old }
        ensures word { result.word ≡ H.word }
        ensures seen { result.seen ≡ self.old.seen }
    {
        self.pass.note(word)
    }

    /// The caller with this pass has then seen all that was seen here, and of this shard each step that it
    /// made since the hub was. The shard stays. It is three loads of the word.
    pub fn tell(&mut self, word: &LogWord, pass: &mut Pass)
        requires word { word.now ≡ H.word }
        requires pass { pass.old.word ≡ H.word }
        ensures shard { self.new.shard ≡ self.old.shard }
        ensures named { IsNamed H.terms self.old.shard }
        ensures word { pass.new.word ≡ H.word }
        ensures seen { IsBeginning pass.old.seen pass.new.seen }
        ensures whole { let no = self.old.shard.terms.no in
            HasSeenAll (H.before no) self.old.shard pass.new.seen }
    {
        self.join(word, pass.note(word));
        *pass = self.whole_note(word).into_pass();
    }

    // A note of what its pass has seen, with each step that the shard made since the hub was.
    fn whole_note(&mut self, word: &LogWord) -> Note
        requires word { word.now ≡ H.word }
        ensures same { self.new ≡ self.old }
        ensures word { result.word ≡ H.word }
        ensures seen { result.seen ≡ self.old.seen }
        ensures named { IsNamed H.terms self.old.shard }
        ensures whole { let no = self.old.shard.terms.no in
            HasSeenAll (H.before no) self.old.shard result.seen }
    {
        self.pass.note(word)
    }

    /// Its pass has seen what the note tells, too. The shard stays, and so does what holds of it.
    pub fn join(&mut self, word: &LogWord, note: Note)
        requires word { word.now ≡ H.word }
        requires note { note.word ≡ H.word }
        ensures shard { self.new.shard ≡ self.old.shard }
        ensures mine { IsBeginning self.old.seen self.new.seen }
        ensures theirs { IsBeginning note.seen self.new.seen }
        ensures together { IsTogether self.old.seen note.seen self.new.seen }
    {
        self.pass.sound();
        self.pass.join(word, note);
        self.pass.sound();
    }
}

/// Whether the key has an entry after a get that was answered so: where it was hit there is one.
fn has_entry(shard: &Shard, key: &QKey, got: &Got) -> bool
    requires hit { (value : List ℕ) (stamp : ℕ) → got.now ≡ Got.Hit value stamp
        → entry key.now (past_of shard.now) ≡ Some (value, stamp) }
    ensures { result ≡ is_some (entry key.now (past_of shard.now)) }
{
    match got {
        Got::Hit { .. } => true,
        Got::Lease { .. } | Got::Again { .. } | Got::Own => shard.peek(key).is_some(),
    }
}

/// The shard's history is legal.
pub(crate) fn legal(shard: &Shard)
    ensures { Legal shard.now.terms shard.now.history }
{
    let _ = shard.history();
}
