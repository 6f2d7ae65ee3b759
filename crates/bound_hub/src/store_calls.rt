//! The calls of the store under its lock, for a caller with a pass.
ghost use Rattle.std.specs.Prelude.{◌≡◌, ◌<◌, false, length, All, MatchResult, IfErr, IfOk, OnOk, OnErr};
ghost use Rattle.std.specs.Bool.{IsFalse};
ghost use Rattle.sql_keeper.specs.Faults.{is_failure, keep_failed, staged_failed};
ghost use Rattle.sql_keeper.specs.Sessions.{has_committed, is_open};
ghost use Rattle.sql_keeper.specs.Stores.{with_call, with_end, with_session};
ghost use Rattle.executor.specs.OnStore.{Goes, IsAnswer, IsCommitted, IsRefused, IsStaged};
ghost use Rattle.log_word.specs.Events.{has_begun};
ghost use Rattle.log_word.specs.Steps.{IsBeginning};
ghost use Rattle.key_freshness.specs.Known.{IsLogged};
ghost use Rattle.bound_hub.specs.Knowns.{commits_of};
ghost use Rattle.bound_hub.specs.Stores.{IsGrantSeen, SeesFailure, ShowsAnswer, ShowsBegin, ShowsCommit, ShowsEnd, ShowsRefusal, ShowsStaged};
ghost use Rattle.bound_hub.specs.TrueLogs.{IsTrueSoFar};

use crate::bound_stores::BoundStore;
use crate::names::BoundName;
use key_shard::Grant;
use log_word::{LogWord, Pass};
use rows_model::{Memory, QKey, Sid, Txn, Value};
use sql_keeper::{AfterFault, Answer, Closed, CommitFault, KeepFault, Keeper};

/// In each of these calls the caller takes over all that the store's pass has seen, and the store's pass
/// what the caller had.
impl<K: Keeper, H: BoundName> BoundStore<K, H> {
    /// Begins a session, as the store does, by this worker's desk. Its Begin is the last event that the
    /// caller has seen then, and the first of that number. For want of memory there is none, and the store
    /// is as before.
    pub fn begin(
        &mut self,
        word: &LogWord,
        pass: &mut Pass,
        worker: u32,
        writes: bool,
    ) -> Result<Sid, Memory>
        requires word { word.now ≡ H.word }
        requires pass { pass.old.word ≡ H.word }
        ensures ledger { OnOk result
            (self.new.store.ledger ≡ with_session writes self.old.store.ledger) }
        ensures err { OnErr result (self.new.store ≡ self.old.store) }
        ensures word { pass.new.word ≡ H.word }
        ensures seen { IsBeginning pass.old.seen pass.new.seen }
        ensures all { pass.new.seen ≡ self.new.seen }
        ensures shows { IfOk result (ShowsBegin H.begun worker writes pass.new.seen) }
        ensures first { IfOk result (λ sid. has_begun sid.number pass.old.seen.events ≡ false) }
    {
        self.join(word, pass.note(word));
        let begun = self.make_begin(word, worker, writes);
        *pass = self.note(word).into_pass();
        begun
    }

    /// Ends a session, as the store does, and tells whether it was open. Where it was, its End is the
    /// last event that the caller has seen then. Else there is none. It takes no memory.
    pub fn end(&mut self, word: &LogWord, pass: &mut Pass, sid: Sid) -> Closed
        requires word { word.now ≡ H.word }
        requires pass { pass.old.word ≡ H.word }
        ensures sid { result.sid ≡ sid }
        ensures was { result.was ≡ is_open sid self.old.store.ledger.sessions }
        ensures goes { Goes false (with_end sid self.old.store.ledger)
            self.old.store self.new.store }
        ensures word { pass.new.word ≡ H.word }
        ensures seen { IsBeginning pass.old.seen pass.new.seen }
        ensures all { pass.new.seen ≡ self.new.seen }
        ensures shows { ShowsEnd sid pass.new.seen result.was }
    {
        self.join(word, pass.note(word));
        let closed = self.make_end(word, sid);
        *pass = self.note(word).into_pass();
        closed
    }

    /// Whether a session may have committed, as the store says it: it hasn't where it is open, or was ended
    /// and isn't forgotten. Where it hasn't, no commit of its is among those that the caller has seen then.
    /// The store stays. It takes no memory.
    pub fn may_have_committed(&mut self, word: &LogWord, pass: &mut Pass, sid: Sid) -> bool
        requires word { word.now ≡ H.word }
        requires pass { pass.old.word ≡ H.word }
        ensures has_not { IsFalse result
            → IsFalse (has_committed sid self.old.store.ledger.sessions) }
        ensures store { self.new.store ≡ self.old.store }
        ensures word { pass.new.word ≡ H.word }
        ensures seen { IsBeginning pass.old.seen pass.new.seen }
        ensures all { pass.new.seen ≡ self.new.seen }
        ensures shows { IsFalse result
            → IsLogged (commits_of pass.new.seen.events) sid.number → ⊥ }
    {
        self.join(word, pass.note(word));
        *pass = self.note(word).into_pass();
        self.may_have_commit(sid)
    }

    /// Asks for a key, as the store does. The answer is right by the commits that the caller has
    /// seen then. A keeper that failed is told only where the caller sees one more failed call.
    pub fn ask(&mut self, word: &LogWord, pass: &mut Pass, key: &QKey) -> Result<Answer, KeepFault>
        requires word { word.now ≡ H.word }
        requires pass { pass.old.word ≡ H.word }
        ensures goes { Goes (keep_failed result)
            (with_call (keep_failed result) self.old.store.ledger) self.old.store self.new.store }
        ensures answer { IfOk result (IsAnswer key.now self.old.store self.new.store) }
        ensures word { pass.new.word ≡ H.word }
        ensures seen { IsBeginning pass.old.seen pass.new.seen }
        ensures all { pass.new.seen ≡ self.new.seen }
        ensures shows { IfOk result (ShowsAnswer H.opening key.now pass.new.seen) }
        ensures fault { SeesFailure (keep_failed result) pass.old.seen pass.new.seen }
    {
        self.join(word, pass.note(word));
        let asked = self.make_ask(word, key);
        *pass = self.note(word).into_pass();
        asked
    }

    /// Asks for a key as it is after a transaction, which isn't made, as the store does. The answer is
    /// right by the commits that the caller has seen then. A keeper that failed is told only where the
    /// caller sees one more failed call.
    pub fn ask_staged(
        &mut self,
        word: &LogWord,
        pass: &mut Pass,
        txn: &Txn,
        key: &QKey,
    ) -> Result<Value, AfterFault>
        requires word { word.now ≡ H.word }
        requires pass { pass.old.word ≡ H.word }
        ensures staged { IsStaged key.now txn.now self.old.store self.new.store result }
        ensures word { pass.new.word ≡ H.word }
        ensures seen { IsBeginning pass.old.seen pass.new.seen }
        ensures all { pass.new.seen ≡ self.new.seen }
        ensures shows { ShowsStaged H.opening key.now txn.now pass.new.seen result }
        ensures fault { SeesFailure (staged_failed result) pass.old.seen pass.new.seen }
    {
        self.join(word, pass.note(word));
        let asked = self.make_ask_staged(word, txn, key);
        *pass = self.note(word).into_pass();
        asked
    }

    /// Commits the transaction, as the store does, under grants of which the caller has seen the steps.
    /// Its Commit is the last event that the caller has seen then, and is new to it. Refused, there is
    /// none. The transaction comes back. A keeper that failed is told only where the caller sees one more
    /// failed call. Each transaction that was committed applied, unless the caller has seen that the store has stopped
    /// telling its rows.
    pub fn commit(
        &mut self,
        word: &LogWord,
        pass: &mut Pass,
        sid: Sid,
        txn: Txn,
        grants: &[Grant],
    ) -> (Result<u64, CommitFault>, Txn)
        requires word { word.now ≡ H.word }
        requires pass { pass.old.word ≡ H.word }
        requires granted { All (IsGrantSeen H.word.shards pass.old.seen) grants.now }
        ensures back { result.1 ≡ txn }
        ensures made { MatchResult result.0
            (λ number. IsCommitted sid txn grants.now self.old.store self.new.store number)
            (λ fault. IsRefused sid txn grants.now self.old.store self.new.store fault) }
        ensures word { pass.new.word ≡ H.word }
        ensures seen { IsBeginning pass.old.seen pass.new.seen }
        ensures all { pass.new.seen ≡ self.new.seen }
        ensures true_so_far { IsTrueSoFar H.opening pass.new.seen }
        ensures late { IfOk result.0 (λ number. length (commits_of pass.old.seen.events) < number) }
        ensures ok { IfOk result.0 (ShowsCommit H.opening H.cap sid txn grants.now pass.new.seen) }
        ensures err { IfErr result.0 (ShowsRefusal H.opening H.cap sid txn grants.now pass.new.seen) }
        ensures fault { IfErr result.0 (λ fault.
            SeesFailure (is_failure fault) pass.old.seen pass.new.seen) }
    {
        self.join(word, pass.note(word));
        let made = self.make_commit(word, sid, txn, grants);
        self.tied();
        *pass = self.note(word).into_pass();
        made
    }
}
