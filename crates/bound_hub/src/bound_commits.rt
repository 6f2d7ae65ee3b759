//! Commits at the store under its lock.
ghost use Rattle.std.specs.Prelude.{◌≡◌, false, All, List, MatchResult, is_none, IfErr, IfOk};
ghost use Rattle.key_shard.specs.Permit.{Permit};
ghost use Rattle.rows_model.specs.Changes.{HasIds};
ghost use Rattle.rows_model.specs.Rows.{Tables};
ghost use Rattle.sql_keeper.specs.Faults.{is_failure};
ghost use Rattle.sql_keeper.specs.Stores.{first_fault, IsRefusal, IsTrueFault};
ghost use Rattle.executor.specs.OnStore.{IsCommitted, IsRefused};
ghost use Rattle.log_word.specs.declared.events.StoreEvent.TheVariants.{Commit};
ghost use Rattle.log_word.specs.Events.{IsOpen};
ghost use Rattle.log_word.specs.Steps.{IsBeginning, IsGranted};
ghost use Rattle.log_word.specs.Views.{with_event};
ghost use Rattle.bound_hub.specs.Stores.{with_keeper_call, IsGrantSeen, ShowsCommit, ShowsRefusal};

use crate::bound_stores::{BoundStore, hear};
use crate::names::BoundName;
use key_shard::Grant;
use log_word::{LogWord, StoreEvent, StorePass};
use rows_model::{Sid, Txn};
use shard_lock::StartOf;
use sql_keeper::{CommitFault, Keeper, Store};

impl<K: Keeper, H: BoundName> BoundStore<K, H> {
    /// Commits a copy of the transaction, as the store does, under grants whose steps are seen. Its
    /// Commit is seen then, and a call that the keeper failed is seen too. The transaction comes back.
    /// Where there is no memory for a copy, a session that isn't open is told that first.
    pub(crate) fn make_commit(
        &mut self,
        word: &LogWord,
        sid: Sid,
        txn: Txn,
        grants: &[Grant],
    ) -> (Result<u64, CommitFault>, Txn)
        requires word { word.now ≡ H.word }
        requires granted { All (IsGrantSeen H.word.shards self.old.seen) grants.now }
        ensures back { result.1 ≡ txn }
        ensures made { MatchResult result.0
            (λ number. IsCommitted sid txn grants.now self.old.store self.new.store number)
            (λ fault. IsRefused sid txn grants.now self.old.store self.new.store fault) }
        ensures seen { MatchResult result.0
            (λ _. self.new.seen ≡ with_event (Commit sid txn)
            (with_keeper_call false (is_none self.new.store.known_rows) self.old.seen))
            (λ fault. self.new.seen ≡ with_keeper_call (is_failure fault)
            (is_none self.new.store.known_rows) self.old.seen) }
        ensures goes_on { IsBeginning self.old.seen self.new.seen }
        ensures ok { IfOk result.0 (ShowsCommit H.opening H.cap sid txn grants.now self.new.seen) }
        ensures err { IfErr result.0 (ShowsRefusal H.opening H.cap sid txn grants.now self.new.seen) }
    {
        let copy = match copied(&self.store, sid, &txn) {
            Ok(copy) => copy,
            Err(fault) => return (Err(fault), txn),
        };
        match self.store.commit(sid, copy, grants) {
            Ok(number) => {
                hear(word, &self.store, &mut self.pass, false);
                self.pass.sound();
                (Ok(number), add_commit(word, &mut self.pass, sid, txn))
            }
            Err((fault, _)) => {
                hear(word, &self.store, &mut self.pass, has_failed(&fault));
                (Err(fault), txn)
            }
        }
    }
}

/// Whether a transaction isn't committed since the keeper failed.
fn has_failed(fault: &CommitFault) -> bool
    ensures { result ≡ is_failure fault.now }
{
    matches!(fault, CommitFault::KeepFault)
}

/// A copy of the transaction for the store's log.
fn copied<K: Keeper, H: BoundName>(
    store: &Store<K, StartOf<H>>,
    sid: Sid,
    txn: &Txn,
) -> Result<Txn, CommitFault>
    ensures copy { IfOk result (λ copy. copy ≡ txn.now) }
    ensures ids { IfOk result (λ copy. All HasIds copy) }
    ensures unasked { IfErr result (λ fault. is_failure fault ≡ false) }
    ensures refusal { IfErr result (λ fault. (grants : List Permit)
        → IsRefusal (first_fault store.now.ledger sid grants txn.now) fault) }
    ensures any_rows { IfErr result (λ fault. (rows : Tables) → IsTrueFault txn.now rows fault) }
{
    match txn.copy() {
        Ok(copy) => {
            let _ids = copy.changes();
            Ok(copy)
        }
        Err(_) if store.is_open(sid) => Err(CommitFault::Memory),
        Err(_) => Err(CommitFault::Ended),
    }
}

/// The session's Commit of the transaction, which comes back, is seen.
fn add_commit(word: &LogWord, pass: &mut StorePass, sid: Sid, txn: Txn) -> Txn
    requires word { pass.old.word ≡ word.now }
    requires open { IsOpen sid.number pass.old.seen.events }
    requires granted { IsGranted pass.old.word.shards pass.old.seen.steps (Commit sid txn) }
    ensures word { pass.new.word ≡ pass.old.word }
    ensures seen { pass.new.seen ≡ with_event (Commit sid txn) pass.old.seen }
    ensures back { result ≡ txn }
{
    let event = StoreEvent::Commit { sid, txn };
    pass.add(word, &event);
    let StoreEvent::Commit { txn, .. } = event else {
        unreachable!()
    };
    txn
}
