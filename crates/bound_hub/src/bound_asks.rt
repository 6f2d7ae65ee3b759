//! Questions to the store under its lock.
ghost use Rattle.std.specs.Prelude.{◌≡◌, is_none, IfOk};
ghost use Rattle.sql_keeper.specs.Faults.{keep_failed, staged_failed};
ghost use Rattle.sql_keeper.specs.Stores.{with_call};
ghost use Rattle.executor.specs.OnStore.{Goes, IsAnswer, IsStaged};
ghost use Rattle.log_word.specs.Steps.{IsBeginning};
ghost use Rattle.bound_hub.specs.Stores.{with_keeper_call, ShowsAnswer, ShowsStaged};

use crate::bound_stores::{BoundStore, hear};
use crate::names::BoundName;
use log_word::LogWord;
use rows_model::{QKey, Txn, Value};
use sql_keeper::{AfterFault, Answer, KeepFault, Keeper};

impl<K: Keeper, H: BoundName> BoundStore<K, H> {
    /// Asks the store for a key. A call that the keeper failed is seen.
    pub(crate) fn make_ask(&mut self, word: &LogWord, key: &QKey) -> Result<Answer, KeepFault>
        requires word { word.now ≡ H.word }
        ensures goes { Goes (keep_failed result)
            (with_call (keep_failed result) self.old.store.ledger) self.old.store self.new.store }
        ensures answer { IfOk result (IsAnswer key.now self.old.store self.new.store) }
        ensures seen { self.new.seen ≡ with_keeper_call (keep_failed result)
            (is_none self.new.store.known_rows) self.old.seen }
        ensures goes_on { IsBeginning self.old.seen self.new.seen }
        ensures shows { IfOk result (ShowsAnswer H.opening key.now self.new.seen) }
    {
        let asked = self.store.ask(key);
        hear(word, &self.store, &mut self.pass, has_failed(&asked));
        asked
    }

    /// Asks the store for a key as it is after a transaction, which isn't made. A call that the keeper
    /// failed is seen.
    pub(crate) fn make_ask_staged(
        &mut self,
        word: &LogWord,
        txn: &Txn,
        key: &QKey,
    ) -> Result<Value, AfterFault>
        requires word { word.now ≡ H.word }
        ensures staged { IsStaged key.now txn.now self.old.store self.new.store result }
        ensures seen { self.new.seen ≡ with_keeper_call (staged_failed result)
            (is_none self.new.store.known_rows) self.old.seen }
        ensures goes_on { IsBeginning self.old.seen self.new.seen }
        ensures shows { ShowsStaged H.opening key.now txn.now self.new.seen result }
    {
        let asked = self.store.ask_staged(txn, key);
        hear(word, &self.store, &mut self.pass, has_failed_staged(&asked));
        asked
    }
}

/// Whether there is no answer since the keeper failed.
fn has_failed(asked: &Result<Answer, KeepFault>) -> bool
    ensures { result ≡ keep_failed asked.now }
{
    matches!(asked, Err(KeepFault::Failed))
}

/// Whether there is no answer on staged rows since the keeper failed.
fn has_failed_staged(asked: &Result<Value, AfterFault>) -> bool
    ensures { result ≡ staged_failed asked.now }
{
    matches!(asked, Err(AfterFault::Failed))
}
