//! What the book has no part in: a question on staged rows, and a renewal.
ghost use Rattle.std.specs.Prelude.{◌≡◌, ◌≢◌, Bool, IfOk, IsTrue, Ok, OnErr, OnOk};
ghost use Rattle.std.specs.Bool.{IsFalse};
ghost use Rattle.rows_model.specs.Placement.{shard_of};
ghost use Rattle.key_shard.specs.Answers.{renew_step};
ghost use Rattle.key_shard.specs.Replies.{ShowsRenewal};
ghost use Rattle.key_shard.specs.Shards.{is_out, past_of, stepped};
ghost use Rattle.sql_keeper.specs.Faults.{staged_failed};
ghost use Rattle.log_word.specs.Steps.{IsBeginning};
ghost use Rattle.bound_hub.specs.Gets.{IsLastStep};
ghost use Rattle.bound_hub.specs.StepShorts.{renew_short};
ghost use Rattle.bound_hub.specs.Stores.{SeesFailure, ShowsStaged};

use crate::bound_books::BoundBook;
use bound_hub::{BoundName, BoundShard, BoundStore};
use key_shard::{Grant, Renewal};
use log_word::LogWord;
use rows_model::{Memory, QKey, Txn, Value};
use sql_keeper::{AfterFault, Keeper};

impl<H: BoundName> BoundBook<H> {
    /// Asks the store that is lent for a key as it is after a transaction, which isn't made. The answer is
    /// right by the commits that the desk has seen then, unless that tells that the store has stopped
    /// telling its rows. The book stays.
    pub fn ask_staged<K: Keeper>(
        &mut self,
        word: &LogWord,
        store: &mut BoundStore<K, H>,
        txn: &Txn,
        key: &QKey,
    ) -> Result<Value, AfterFault>
        requires { word.now ≡ H.word }
        ensures seen { IsBeginning self.old.seen self.new.seen }
        ensures shows { ShowsStaged H.opening key.now txn.now self.new.seen result }
        ensures fault { SeesFailure (staged_failed result) self.old.seen self.new.seen }
        ensures book { self.new.book ≡ self.old.book }
    {
        store.ask_staged(word, &mut self.pass, txn, key)
    }

    /// Gives the quarantine of a grant a new deadline, on the shard of its key, which is lent. The renewal is
    /// the shard's; a grant that isn't out there is Gone, and the shard stays. Of that shard the desk has seen
    /// the renewal's own step as the last, unless it is Gone. The book stays. For want of memory there is no
    /// step.
    pub fn renew(
        &mut self,
        word: &LogWord,
        shard: &mut BoundShard<H>,
        grant: &Grant,
        now: u64,
    ) -> Result<Renewal, Memory>
        requires word { word.now ≡ H.word }
        requires place { shard.old.shard.terms.no ≡ shard_of grant.now.key H.word.shards }
        ensures seen { IsBeginning self.old.seen self.new.seen }
        ensures last { IfOk result (λ answer. answer ≢ Renewal.Gone → (has : Bool)
            × IsLastStep (shard_of grant.now.key H.word.shards)
            (renew_short grant.now.key grant.now.sid grant.now.token answer has) self.new.seen) }
        ensures out { let at = shard.old.shard in IsTrue (is_out at grant.now) → OnOk result
            (shard.new.shard ≡ stepped at (renew_step at.terms (past_of at) grant.now now)) }
        ensures shows { let at = shard.old.shard in IsTrue (is_out at grant.now) → IfOk result
            (ShowsRenewal (renew_step at.terms (past_of at) grant.now now)) }
        ensures unknown { IsFalse (is_out shard.old.shard grant.now) →
            (shard.new.shard ≡ shard.old.shard) × (result ≡ Ok Renewal.Gone) }
        ensures stays { OnErr result (shard.new.shard ≡ shard.old.shard) }
        ensures book { self.new.book ≡ self.old.book }
    {
        shard.renew(word, &mut self.pass, grant, now)
    }
}
