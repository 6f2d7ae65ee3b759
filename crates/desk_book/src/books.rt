ghost use Rattle.std.specs.Prelude.{◌≡◌, ◌≤◌, ◌<◌, length, OnOk};
ghost use Rattle.desk_book.specs.Books.{empty_book, first_book, is_present, is_on, noted_for, with_lease, with_answer, with_grant, with_raised, without_grant, with_commit, with_end, most_answers};

use crate::facts::{Committed, Leased, Present};
use crate::held::{HeldGrant, Ticket, raise_first, spend_first};
use rows_model::{Memory, QKey, Sid, Txn, Value};
use sql_keeper::Answer;
use std::alloc::Global;
use std::marker::Model;

/// What a desk was told for its present session, for as long as that session is the present one.
///
/// It holds one lease, the last that was given, and the store's answers for its key since, four at the
/// most: of more the oldest goes. A fact of another session is never noted. Room for a fact is taken
/// before the event that brings it, and to note it takes none.
#[derive(Drop)]
pub struct Book {
    pub(crate) present: Option<Present>,
    pub(crate) lease: Option<Leased>,
    pub(crate) answers: Vec<Answer>,
    pub(crate) held: Vec<HeldGrant>,
    pub(crate) commit: Option<Committed>,
    pub(crate) ended: bool,
}

impl Model for Book {
    ghost use Rattle.std.specs.Prelude.{◌≤◌, length, vec_capacity};
    ghost use Rattle.desk_book.specs.Books.{BookView, most_answers};

    ghost Value = { BookView };

    ghost view = { λ b. record {
      book = record {
        present = b.present;
        lease = b.lease;
        answers = b.answers.items;
        held = b.held.items;
        commit = b.commit;
        ended = b.ended;
      };
      answer_room = vec_capacity b.answers;
      grant_room = vec_capacity b.held;
    } };

    ghost invariant = { λ b. length b.answers.items ≤ most_answers };
}

/// How many answers a book keeps.
const MOST_ANSWERS: usize = 4;

impl Book {
    /// The book of a desk that has begun no session yet. It takes no memory.
    pub fn new(alloc: Global) -> Book
        ensures { result.book ≡ empty_book }
    {
        Book {
            present: None,
            lease: None,
            answers: Vec::new(alloc),
            held: Vec::new(alloc),
            commit: None,
            ended: false,
        }
    }

    /// A session has begun, and is the present one from now on. All that was noted before goes. It takes
    /// no memory.
    pub fn begin(&mut self, sid: Sid, writes: bool)
        ensures { self.new.book ≡ first_book sid writes }
    {
        self.present = Some(Present { sid, writes });
        self.lease = None;
        self.answers.clear();
        self.held.clear();
        self.commit = None;
        self.ended = false;
    }

    /// Whether the session is the present one.
    pub fn is_present(&self, who: Sid) -> bool
        ensures { result ≡ is_present self.now.book who }
    {
        match self.present {
            Some(present) => present.sid.number == who.number,
            None => false,
        }
    }

    /// Whether the lease is on this key.
    fn is_leased(&self, key: &QKey) -> bool
        ensures { result ≡ is_on self.now.book.lease key.now }
    {
        match self.lease {
            Some(lease) => lease.key == *key,
            None => false,
        }
    }

    /// Takes the room to note an answer.
    pub fn room_for_answer(&mut self) -> Result<(), Memory>
        ensures book { self.new.book ≡ self.old.book }
        ensures ok { OnOk result (most_answers ≤ self.new.answer_room) }
    {
        self.answers.reserve(MOST_ANSWERS - self.answers.len())?;
        Ok(())
    }

    /// Takes the room to note a grant.
    pub fn room_for_grant(&mut self) -> Result<(), Memory>
        ensures book { self.new.book ≡ self.old.book }
        ensures ok { OnOk result (length self.new.book.held < self.new.grant_room) }
    {
        self.held.reserve(1)?;
        Ok(())
    }

    /// Notes that the session was given this lease. Answers from before it don't count for it, and go.
    pub fn note_lease(&mut self, who: Sid, key: QKey, token: u64)
        ensures { self.new.book ≡ noted_for who (with_lease key token) self.old.book }
    {
        if self.is_present(who) {
            self.lease = Some(Leased { key, token });
            self.answers.clear();
        }
    }

    /// Notes what the store has answered to the session. An answer for another key than the lease's isn't
    /// kept. Of more than four the oldest goes.
    pub fn note_answer(&mut self, who: Sid, answer: Answer)
        requires { most_answers ≤ self.old.answer_room }
        ensures { self.new.book ≡ noted_for who (with_answer answer) self.old.book }
    {
        if self.is_present(who) && self.is_leased(&answer.key) {
            if self.answers.len() >= MOST_ANSWERS {
                self.answers.remove(0);
            }
            self.answers.push_reserved(answer);
        }
    }

    /// Notes that the session was granted a quarantine, with the old value that came along and its stamp,
    /// and by how much it is to shift the key's value: 0 unless it is of mode Delta.
    pub fn note_grant(&mut self, who: Sid, ticket: Ticket, old: Option<(Value, u64)>, by: i32)
        requires { length self.old.book.held < self.old.grant_room }
        ensures { self.new.book ≡ noted_for who (with_grant ticket old by) self.old.book }
    {
        if self.is_present(who) {
            self.held.push_reserved(HeldGrant::new(ticket, old, by));
        }
    }

    /// Notes that a quarantine of the session was raised: its grant says this now, and this old value
    /// came along, with its stamp.
    pub fn note_raised(&mut self, who: Sid, ticket: Ticket, old: Option<(Value, u64)>)
        ensures { self.new.book ≡ noted_for who (with_raised ticket old) self.old.book }
    {
        if self.is_present(who) {
            raise_first(self.held.as_mut_slice(), ticket, old);
        }
    }

    /// Notes that a grant of the session is spent.
    pub fn note_spent(&mut self, who: Sid, ticket: &Ticket)
        ensures { self.new.book ≡ noted_for who (without_grant ticket.now) self.old.book }
    {
        if self.is_present(who) {
            spend_first(&mut self.held, ticket);
        }
    }

    /// Notes that the session's transaction is the commit of this number.
    pub fn note_commit(&mut self, who: Sid, number: u64, txn: Txn)
        ensures { self.new.book ≡ noted_for who (with_commit number txn) self.old.book }
    {
        if self.is_present(who) {
            self.commit = Some(Committed { number, txn });
        }
    }

    /// Notes that the session's end was answered.
    pub fn note_end(&mut self, who: Sid)
        ensures { self.new.book ≡ noted_for who with_end self.old.book }
    {
        if self.is_present(who) {
            self.ended = true;
        }
    }
}
