//! The requests at the store that is lent, each by one method of the book.
ghost use Rattle.std.specs.Prelude.{◌≡◌};
ghost use Rattle.session_client.specs.Belongs.{Belongs};
ghost use Rattle.session_client.specs.declared.replies.Wanted.TheVariants as wanted;
ghost use Rattle.executor.specs.OnStore.{IsAtStore};
ghost use Rattle.log_word.specs.Steps.{IsBeginning};
ghost use Rattle.desk_book.specs.Books.{Book};
ghost use Rattle.desk_book.specs.Borne.{IsPresent};
ghost use Rattle.bound_desk.specs.AtStore.{fault_of_keeper, ShowsAtStore};
ghost use Rattle.bound_desk.specs.Safe.{IsSafe};
ghost use Rattle.bound_desk.specs.Told.{book_after};

use crate::bound_books::BoundBook;
use bound_hub::{BoundName, BoundStore};
use log_word::LogWord;
use rows_model::{QKey, Sid, Txn};
use session_client::{Fault, Grants, Reply, Wanted};
use sql_keeper::{CommitFault, KeepFault, Keeper};
use std::alloc::Global;

impl<H: BoundName> BoundBook<H> {
    /// A question, as `BoundBook::ask`, with its reply.
    fn reply_to_ask<K: Keeper>(
        &mut self,
        word: &LogWord,
        store: &mut BoundStore<K, H>,
        who: Sid,
        key: QKey,
    ) -> Reply
        requires { word.now ≡ H.word }
        ensures belongs { Belongs who (wanted.Ask key) result }
        ensures seen { IsBeginning self.old.seen self.new.seen }
        ensures shows { ShowsAtStore H.opening H.cap self.old.book.book who
            (wanted.Ask key) result self.old.seen self.new.seen }
        ensures book { self.new.book.book
            ≡ book_after who (wanted.Ask key) result self.old.book.book }
    {
        match self.ask(word, store, who, &key) {
            Ok(answer) => Reply::Answer { answer },
            Err(fault) => Reply::Fault {
                fault: of_keeper(fault),
            },
        }
    }

    /// A question on staged rows, as `BoundBook::ask_staged`, with its reply.
    fn reply_to_stage<K: Keeper>(
        &mut self,
        word: &LogWord,
        store: &mut BoundStore<K, H>,
        key: QKey,
        txn: Txn,
    ) -> Reply
        requires { word.now ≡ H.word }
        ensures belongs { (who : Sid) → Belongs who (wanted.Staged key txn) result }
        ensures seen { IsBeginning self.old.seen self.new.seen }
        ensures shows { (book : Book) (who : Sid) → ShowsAtStore H.opening H.cap book who
            (wanted.Staged key txn) result self.old.seen self.new.seen }
        ensures book { self.new.book ≡ self.old.book }
    {
        match self.ask_staged(word, store, &txn, &key) {
            Ok(value) => Reply::Staged { value, txn },
            Err(fault) => Reply::NotStaged { fault, txn },
        }
    }

    /// A commit of the present session, as `BoundBook::commit`, under those of the grants alone that the
    /// book holds, with its reply. All of them come back.
    fn reply_to_commit<K: Keeper>(
        &mut self,
        word: &LogWord,
        alloc: Global,
        store: &mut BoundStore<K, H>,
        who: Sid,
        txn: Txn,
        grants: Grants,
    ) -> Reply
        requires word { word.now ≡ H.word }
        requires present { IsPresent self.old.book.book who }
        ensures belongs { Belongs who (wanted.Commit txn grants) result }
        ensures seen { IsBeginning self.old.seen self.new.seen }
        ensures shows { ShowsAtStore H.opening H.cap self.old.book.book who
            (wanted.Commit txn grants) result self.old.seen self.new.seen }
        ensures book { self.new.book.book
            ≡ book_after who (wanted.Commit txn grants) result self.old.book.book }
    {
        let (held, apart) = match self.set_apart(alloc, grants) {
            Ok(parts) => parts,
            Err(grants) => {
                return Reply::NotCommitted {
                    fault: CommitFault::Memory,
                    txn,
                    grants,
                };
            }
        };
        let (answer, txn) = self.commit(word, store, who, txn, held.items());
        let grants = apart.join(held);
        match answer {
            Ok(number) => Reply::Committed {
                number,
                txn,
                grants,
            },
            Err(fault) => Reply::NotCommitted { fault, txn, grants },
        }
    }

    /// Makes a session's request, which is safe by the book, at the store that is lent. A commit stands on
    /// those of its grants alone that the book holds, and all of them come back. What the reply tells is shown
    /// by what the desk has seen then, and a failed keeper is told only where one more failed call is seen.
    pub fn at_store<K: Keeper>(
        &mut self,
        word: &LogWord,
        alloc: Global,
        store: &mut BoundStore<K, H>,
        who: Sid,
        request: Wanted,
    ) -> Reply
        requires word { word.now ≡ H.word }
        requires store { IsAtStore request }
        requires safe { IsSafe self.old.book.book who request }
        ensures belongs { Belongs who request result }
        ensures seen { IsBeginning self.old.seen self.new.seen }
        ensures shows { ShowsAtStore H.opening H.cap self.old.book.book who request result
            self.old.seen self.new.seen }
        ensures book { self.new.book.book ≡ book_after who request result self.old.book.book }
    {
        match request {
            Wanted::Ask { key } => self.reply_to_ask(word, store, who, key),
            Wanted::Staged { key, txn } => self.reply_to_stage(word, store, key, txn),
            Wanted::Commit { txn, grants } => {
                self.reply_to_commit(word, alloc, store, who, txn, grants)
            }
            Wanted::End => Reply::End {
                was: self.end(word, store, who).was(),
            },
            Wanted::Get { .. }
            | Wanted::Set { .. }
            | Wanted::QaReg { .. }
            | Wanted::QaRead { .. }
            | Wanted::Delta { .. }
            | Wanted::Dar { .. }
            | Wanted::Sar { .. }
            | Wanted::Apply { .. }
            | Wanted::Abort { .. }
            | Wanted::Raise { .. }
            | Wanted::Renew { .. }
            | Wanted::Nothing => unreachable!(),
        }
    }
}

/// What a session is told of a question that the keeper didn't answer.
fn of_keeper(fault: KeepFault) -> Fault
    ensures { result ≡ fault_of_keeper fault }
{
    match fault {
        KeepFault::Failed => Fault::Keep,
        KeepFault::Memory => Fault::Memory,
    }
}
