//! Commits for a desk: the book notes them.
ghost use Rattle.std.specs.Prelude.{◌≡◌, ◌⊎◌, All, IfErr, IfOk, OnErr, filter};
ghost use Rattle.sql_keeper.specs.Faults.{is_failure};
ghost use Rattle.log_word.specs.Steps.{IsBeginning};
ghost use Rattle.desk_book.specs.Apart.{is_held, put_back, AreLeft};
ghost use Rattle.desk_book.specs.Books.{noted_for, with_commit};
ghost use Rattle.desk_book.specs.Borne.{Holds, IsPresent};
ghost use Rattle.bound_hub.specs.Stores.{SeesFailure, ShowsCommit, ShowsRefusal};

use crate::bound_books::BoundBook;
use bound_hub::{BoundName, BoundStore};
use desk_book::Apart;
use key_shard::Grant;
use log_word::LogWord;
use rows_model::{Sid, Txn};
use session_client::Grants;
use sql_keeper::{CommitFault, Keeper};
use std::alloc::Global;

impl<H: BoundName> BoundBook<H> {
    /// Sets apart those of a commit's grants that the book doesn't hold. For want of memory all come back
    /// as they were.
    pub fn set_apart(&self, alloc: Global, grants: Grants) -> Result<(Grants, Apart), Grants>
        ensures held { IfOk result (λ parts. All (Holds self.now.book.book) parts.0.items) }
        ensures those { IfOk result (λ parts.
            parts.0.items ≡ filter (is_held self.now.book.book) grants.items) }
        ensures room { IfOk result (λ parts. parts.0.room ≡ grants.room) }
        ensures back { IfOk result (λ parts. put_back parts.1 parts.0.items ≡ grants.items) }
        ensures left { IfOk result (λ parts. AreLeft parts.1 parts.0) }
        ensures err { IfErr result (λ back. back ≡ grants) }
    {
        self.book.set_apart(alloc, grants)
    }

    /// Commits the present session's transaction at the store that is lent, under grants that the book
    /// holds. Its Commit is the last event that the desk has seen then, and is noted, with a copy of the
    /// transaction, which is taken first. Refused, or for want of memory for that, the book stays. The
    /// transaction comes back. A keeper that failed is told only where the desk sees one more failed call.
    pub fn commit<K: Keeper>(
        &mut self,
        word: &LogWord,
        store: &mut BoundStore<K, H>,
        who: Sid,
        txn: Txn,
        grants: &[Grant],
    ) -> (Result<u64, CommitFault>, Txn)
        requires word { word.now ≡ H.word }
        requires present { IsPresent self.old.book.book who }
        requires held { All (Holds self.old.book.book) grants.now }
        ensures back { result.1 ≡ txn }
        ensures seen { IsBeginning self.old.seen self.new.seen }
        ensures ok { IfOk result.0 (ShowsCommit H.opening H.cap who txn grants.now self.new.seen) }
        ensures err { IfErr result.0 (λ fault. (fault ≡ CommitFault.Memory)
            ⊎ ShowsRefusal H.opening H.cap who txn grants.now self.new.seen fault) }
        ensures fault { IfErr result.0 (λ fault.
            SeesFailure (is_failure fault) self.old.seen self.new.seen) }
        ensures book { IfOk result.0 (λ number. self.new.book.book
            ≡ noted_for who (with_commit number txn) self.old.book.book) }
        ensures refused { OnErr result.0 (self.new.book ≡ self.old.book) }
    {
        let Ok(copy) = txn.copy() else {
            return (Err(CommitFault::Memory), txn);
        };
        let (answer, txn) = store.commit(word, &mut self.pass, who, txn, grants);
        if let Ok(number) = answer {
            self.book.note_commit(who, number, copy);
        }
        (answer, txn)
    }
}
