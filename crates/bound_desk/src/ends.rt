//! A session is ended before a grant of its is dropped that the book doesn't bear out.
ghost use Rattle.std.specs.Prelude.{◌≡◌, Bool, true, IsTrue};
ghost use Rattle.log_word.specs.Events.{is_over};
ghost use Rattle.log_word.specs.Steps.{IsBeginning};
ghost use Rattle.bound_hub.specs.Stores.{ShowsEnd};

use crate::bound_books::BoundBook;
use bound_hub::{BoundName, BoundStore};
use log_word::LogWord;
use rows_model::Sid;
use sql_keeper::Keeper;

impl<H: BoundName> BoundBook<H> {
    /// Ends a session at the store that is lent, and tells whether the desk has seen then that it is over.
    /// It has where the session was open, or is the present one, begun for writing. Of another session it
    /// doesn't know whether that was ever begun for writing. The book stays. It takes no memory.
    pub fn close<K: Keeper>(
        &mut self,
        word: &LogWord,
        store: &mut BoundStore<K, H>,
        who: Sid,
    ) -> bool
        requires { word.now ≡ H.word }
        ensures seen { IsBeginning self.old.seen self.new.seen }
        ensures shows { (was : Bool) × ShowsEnd who self.new.seen was
            × (IsTrue was → IsTrue result) }
        ensures over { IsTrue result → is_over who.number self.new.seen.events ≡ true }
        ensures book { self.new.book ≡ self.old.book }
    {
        let closed = store.end(word, &mut self.pass, who);
        self.pass.sound();
        closed.was() || self.book.is_writing(who)
    }
}
