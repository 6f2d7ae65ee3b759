//! A question to the store for a desk: the book notes the answer.
ghost use Rattle.std.specs.Prelude.{◌≡◌, ◌≤◌, IfOk, OnErr};
ghost use Rattle.sql_keeper.specs.Faults.{keep_failed};
ghost use Rattle.log_word.specs.Steps.{IsBeginning};
ghost use Rattle.desk_book.specs.Books.{most_answers, noted_for, with_answer};
ghost use Rattle.bound_hub.specs.Stores.{SeesFailure, ShowsAnswer};

use crate::bound_books::BoundBook;
use bound_hub::{BoundName, BoundStore};
use log_word::LogWord;
use rows_model::{Memory, QKey, Sid};
use sql_keeper::{Answer, KeepFault, Keeper};

impl<H: BoundName> BoundBook<H> {
    /// Asks the store that is lent for a key, for a session. The answer is right by the commits that the
    /// desk has seen then, unless that tells that the store has stopped telling its rows. It is noted. A
    /// keeper that failed is told only where the desk sees one more failed call. For want of room for
    /// the answer or of a copy of its value there is none, and the book says what it said.
    pub fn ask<K: Keeper>(
        &mut self,
        word: &LogWord,
        store: &mut BoundStore<K, H>,
        who: Sid,
        key: &QKey,
    ) -> Result<Answer, KeepFault>
        requires { word.now ≡ H.word }
        ensures seen { IsBeginning self.old.seen self.new.seen }
        ensures shows { IfOk result (ShowsAnswer H.opening key.now self.new.seen) }
        ensures fault { SeesFailure (keep_failed result) self.old.seen self.new.seen }
        ensures book { IfOk result (λ given.
            self.new.book.book ≡ noted_for who (with_answer given) self.old.book.book) }
        ensures err { OnErr result (self.new.book.book ≡ self.old.book.book) }
    {
        if self.book.room_for_answer().is_err() {
            return Err(KeepFault::Memory);
        }
        let answer = self.make_ask(word, store, key)?;
        let Ok(copy) = copied(&answer) else {
            return Err(KeepFault::Memory);
        };
        self.note_answer(who, copy);
        Ok(answer)
    }

    // The question alone: the book stays.
    fn make_ask<K: Keeper>(
        &mut self,
        word: &LogWord,
        store: &mut BoundStore<K, H>,
        key: &QKey,
    ) -> Result<Answer, KeepFault>
        requires { word.now ≡ H.word }
        ensures seen { IsBeginning self.old.seen self.new.seen }
        ensures shows { IfOk result (ShowsAnswer H.opening key.now self.new.seen) }
        ensures fault { SeesFailure (keep_failed result) self.old.seen self.new.seen }
        ensures book { self.new.book ≡ self.old.book }
    {
        store.ask(word, &mut self.pass, key)
    }

    // Notes an answer that is right by what the pass has seen.
    fn note_answer(&mut self, who: Sid, answer: Answer)
        requires room { most_answers ≤ self.old.book.answer_room }
        requires shown { ShowsAnswer H.opening answer.key self.old.seen answer }
        ensures seen { self.new.seen ≡ self.old.seen }
        ensures book { self.new.book.book
            ≡ noted_for who (with_answer answer) self.old.book.book }
    {
        self.book.note_answer(who, answer);
    }
}

/// The same answer once more.
fn copied(answer: &Answer) -> Result<Answer, Memory>
    ensures { IfOk result (λ copy. copy ≡ answer.now) }
{
    Ok(Answer {
        key: answer.key,
        value: answer.value.copy()?,
        stamp: answer.stamp,
    })
}
