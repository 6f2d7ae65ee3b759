//! The book of a desk, and the pass that has seen what it says.
ghost use Rattle.std.specs.Prelude.{◌≡◌, false, IfOk, OnErr};
ghost use Rattle.log_word.specs.Events.{has_begun};
ghost use Rattle.log_word.specs.Steps.{IsBeginning};
ghost use Rattle.desk_book.specs.Books.{empty_book, first_book};
ghost use Rattle.bound_hub.specs.Stores.{ShowsBegin};

use bound_hub::{BoundName, BoundStore};
use desk_book::Book;
use log_word::{LogWord, Pass};
use rows_model::{Memory, Sid};
use sql_keeper::Keeper;
use std::alloc::Global;
use std::marker::{Model, PhantomData};

/// The book of a desk, and the desk's pass. Contracts see the book, what the pass has seen, and the session
/// that it has seen last to be ended without a commit.
///
/// The pass has seen all that the book says: the lease when it was given, that each answer was given
/// since, the Begin of a session that writes, the step of each grant, and that a session which has
/// committed is over. It had seen each quarantine alone on its key that is held to refresh or to shift,
/// and it has seen the commit at its place. Of a session that quit it has seen that it was ended without a
/// commit.
#[derive(Drop)]
pub struct BoundBook<H: BoundName> {
    pub(crate) book: Book,
    pub(crate) pass: Pass,
    pub(crate) quit: Option<Sid>,
    of: PhantomData<H>,
}

impl<H: BoundName> Model for BoundBook<H> {
    ghost use Rattle.std.specs.Prelude.{◌≡◌};
    ghost use Rattle.bound_desk.specs.Bound.{BoundBookView, IsBoundBook, IsQuitSeen};
    ghost use Rattle.bound_desk.specs.Writing.{IsReadyToWrite};

    ghost Value = { BoundBookView };

    ghost view = { λ bound. record {
      book = bound.book;
      seen = bound.pass.seen;
      quit = bound.quit;
    } };

    ghost invariant = { λ bound. (bound.pass.word ≡ H.word)
        × IsBoundBook H.opening H.word.shards bound.book.book bound.pass.seen
        × IsReadyToWrite H.opening H.before H.word.shards bound.book.book bound.pass.seen
        × IsQuitSeen bound.quit bound.pass.seen };
}

impl<H: BoundName> BoundBook<H> {
    /// The book of a desk that has begun no session yet, beside the desk's pass. It takes no memory.
    pub fn new(alloc: Global, pass: Pass) -> BoundBook<H>
        requires { pass.word ≡ H.word }
        ensures book { result.book.book ≡ empty_book }
        ensures seen { result.seen ≡ pass.seen }
    {
        BoundBook {
            book: Book::new(alloc),
            pass,
            quit: None,
            of: PhantomData,
        }
    }

    /// Begins a session at the store that is lent, by this worker's desk. It is the present one from
    /// now on, and its Begin is the last event that the pass has seen then, and the first of that number.
    /// For want of memory there is none, and the book stays.
    pub fn begin<K: Keeper>(
        &mut self,
        word: &LogWord,
        store: &mut BoundStore<K, H>,
        worker: u32,
        writes: bool,
    ) -> Result<Sid, Memory>
        requires { word.now ≡ H.word }
        ensures seen { IsBeginning self.old.seen self.new.seen }
        ensures shows { IfOk result (ShowsBegin H.begun worker writes self.new.seen) }
        ensures first { IfOk result (λ sid. has_begun sid.number self.old.seen.events ≡ false) }
        ensures book { IfOk result (λ sid. self.new.book.book ≡ first_book sid writes) }
        ensures err { OnErr result (self.new.book ≡ self.old.book) }
    {
        let sid = store.begin(word, &mut self.pass, worker, writes)?;
        self.book.begin(sid, writes);
        Ok(sid)
    }

    /// The pass alone. The book is given up.
    pub fn into_pass(self) -> Pass
        ensures word { result.word ≡ H.word }
        ensures seen { result.seen ≡ self.seen }
    {
        let BoundBook {
            book: _,
            pass,
            quit: _,
            of: _,
        } = self;
        pass
    }
}
