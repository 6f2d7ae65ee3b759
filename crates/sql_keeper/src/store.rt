ghost use Rattle.std.specs.Prelude.{◌≡◌, ◌≢◌, [], ◌+◌, ◌≤◌, ℕ, Option, Some, None, Ok, All, AllPairs, length, MatchResult, IfOk, IfErr, OnOk, OnErr, IsSome, IsTrue};
ghost use Rattle.std.specs.Bool.{IsFalse};
ghost use Rattle.std.specs.Option.{ForSome};
ghost use Rattle.rows_model.specs.Rows.{Tables};
ghost use Rattle.rows_model.specs.Query.{answer};
ghost use Rattle.rows_model.specs.Changes.{apply_all};
ghost use Rattle.sql_keeper.specs.Keepers.{AreHeld, HoldsFresh, AnswersAfter};
ghost use Rattle.sql_keeper.specs.Log.{keeps_log};
ghost use Rattle.sql_keeper.specs.Sessions.{is_open, has_committed};
ghost use Rattle.sql_keeper.specs.Faults.{has_failed, keep_failed, staged_failed, is_failure, Counts, FailedSince};
ghost use Rattle.sql_keeper.specs.Stores.{rows_of, first_fault, opened, with_session, with_end, with_commit, with_call, rebased, IsRefusal, IsTrueFault};

use crate::faults::{AfterFault, CommitFault, KeepFault};
use crate::keepers::{Keeper, Place};
use crate::logs::{CommitLog, rows_after};
use crate::requests::admit;
use crate::sessions::Sessions;
use crate::stores::{Answer, Closed, Commit};
use key_shard::Grant;
use rows_model::{Memory, QKey, Rows, Sid, Txn, Value};
use std::alloc::Global;
use std::marker::{Brand, Model, PhantomData};

/// The cap of a store that takes as many commits as a number can count. It doesn't keep its log in memory:
/// contracts alone see it.
pub const NO_CAP: u64 = u64::MAX;

/// Names the count of faults at which a store's keeper stood when it was started.
///
/// The name is picked where a caller that is generic in it is called, at the type `Brand`.
pub trait Start {
    ghost use Rattle.std.specs.Prelude.{ℕ, Option};

    ghost count: { Option ℕ };
}

impl Start for Brand {
    ghost use Rattle.std.specs.Prelude.{None};

    ghost count = { None };
}

/// No count is named.
#[derive(Drop)]
pub struct Unnamed;

impl Start for Unnamed {
    ghost use Rattle.std.specs.Prelude.{None};

    ghost count = { None };
}

/// The rows of a keeper, what was committed on them, and the sessions. Contracts see the ledger, and
/// of the keeper its rows, where it tells them, and its count of faults.
///
/// Where the keeper tells its rows, they are those after the log. Where they are told after a call,
/// they were told before it. Where `N` names the count of faults at the start, no more calls have
/// failed than that count has risen by since, unless it is at 2^64 - 1. Where no call has failed it
/// is as it was.
#[derive(Drop)]
pub struct Store<K: Keeper, N: Start = Unnamed> {
    keeper: K,
    opening: Rows,
    log: CommitLog,
    sessions: Sessions,
    cap: u64,
    failed: u64,
    start: PhantomData<N>,
}

impl<K: Keeper, N: Start> Model for Store<K, N> {
    ghost use Rattle.std.specs.Prelude.{◌≡◌};
    ghost use Rattle.std.specs.Option.{ForSome};
    ghost use Rattle.sql_keeper.specs.Log.{rows_after, keeps_log};
    ghost use Rattle.sql_keeper.specs.Faults.{FailedSince};
    ghost use Rattle.sql_keeper.specs.Stores.{StoreView, IsLedger};

    ghost Value = { StoreView };

    ghost view = { λ s. record {
      ledger = record {
        opening = s.opening;
        log = s.log.items;
        sessions = s.sessions;
        cap = s.cap;
        failed = s.failed;
      };
      known_rows = K.rows s.keeper;
      faults = K.faults s.keeper;
    } };

    ghost invariant = { λ s. K.is_started s.keeper
        × IsLedger (record {
          opening = s.opening;
          log = s.log.items;
          sessions = s.sessions;
          cap = s.cap;
          failed = s.failed;
        })
        × ForSome (K.rows s.keeper) (λ known. known ≡ rows_after s.opening s.log.items)
        × FailedSince N.count s.failed (K.faults s.keeper)
        × (s.log.keeps ≡ keeps_log s.cap) };
}

/// A keeper that didn't start, and why. Its rows are as before, and its count of faults too, unless it
/// failed. It is started only where it was before.
#[derive(Drop)]
pub struct NoStore<K: Keeper> {
    pub keeper: K,
    pub cause: KeepFault,
}

impl<K: Keeper> Store<K> {
    /// Starts the keeper, with so many members at a fresh place. The rows that it has are the opening
    /// rows: those of the place, where these are told. The log is empty, and takes at most `cap` commits.
    /// It is kept in memory, unless the cap is `NO_CAP`.
    pub fn new(
        alloc: Global,
        keeper: K,
        place: &Place,
        members: u32,
        cap: u64,
    ) -> Result<Store<K>, NoStore<K>>
        requires some { 1 ≤ members }
        requires few { members ≤ 100000 }
        ensures opened { IfOk result (λ store. store.ledger ≡ opened store.ledger.opening cap) }
        ensures told { IfOk result (λ store.
            ForSome store.known_rows (λ known. known ≡ store.ledger.opening)) }
        ensures held { IfOk result (λ store.
            AreHeld store.known_rows (K.holds keeper place.now members) store.ledger.opening) }
        ensures fresh { HoldsFresh place.now members (K.holds keeper place.now members) }
        ensures counts { MatchResult result
            (λ store. store.faults ≡ K.faults keeper)
            (λ none. Counts (has_failed none.cause) (K.faults keeper) (K.faults none.keeper)) }
        ensures never_falls { IfErr result (λ none. K.faults keeper ≤ K.faults none.keeper) }
        ensures kept { IfErr result (λ none. K.rows none.keeper ≡ K.rows keeper) }
        ensures unstarted { IfErr result (λ none. K.is_started none.keeper → K.is_started keeper) }
    {
        let mut keeper = keeper;
        match keeper.start(alloc, place, members) {
            Ok(opening) => Ok(Store {
                keeper,
                opening,
                log: CommitLog::new(alloc, cap != NO_CAP),
                sessions: Sessions::new(alloc),
                cap,
                failed: 0,
                start: PhantomData,
            }),
            Err(cause) => Err(NoStore { keeper, cause }),
        }
    }

    /// The store, with its keeper's count of faults at the start named. No call has failed since.
    pub fn named<N: Start>(self) -> Store<K, N>
        requires start { N.count ≡ Some self.faults }
        requires new { self.ledger.failed ≡ 0 }
        ensures { result ≡ self }
    {
        let Store {
            keeper,
            opening,
            log,
            sessions,
            cap,
            failed,
            start: _,
        } = self;
        Store {
            keeper,
            opening,
            log,
            sessions,
            cap,
            failed,
            start: PhantomData,
        }
    }
}

impl<K: Keeper, N: Start> Store<K, N> {
    /// A session begins, to write or to read. Its number is the next one, from 1. One that writes is
    /// open. For want of memory everything is as before.
    pub fn begin(&mut self, writes: bool) -> Result<Sid, Memory>
        ensures ledger { OnOk result (self.new.ledger ≡ with_session writes self.old.ledger) }
        ensures number { IfOk result (λ sid. sid.number ≡ length self.new.ledger.sessions) }
        ensures err { OnErr result (self.new.ledger ≡ self.old.ledger) }
        ensures keeper { (self.new.known_rows ≡ self.old.known_rows) × (self.new.faults ≡ self.old.faults) }
    {
        self.sessions.begin(writes)
    }

    /// The answer to a key on the rows, stamped with the number of commits so far. `Failed` comes
    /// only where the keeper's count of faults rose, and is counted.
    pub fn ask(&mut self, key: &QKey) -> Result<Answer, KeepFault>
        ensures ledger { self.new.ledger ≡ with_call (keep_failed result) self.old.ledger }
        ensures answer { IfOk result (λ given.
            (given.key ≡ key.now) × (given.stamp ≡ length self.old.ledger.log)) }
        ensures tells { IsSome self.new.known_rows
            → (IsSome self.old.known_rows)
            × IfOk result (λ given. given.value ≡ answer key.now (rows_of self.old.ledger)) }
        ensures counts { Counts (keep_failed result) self.old.faults self.new.faults }
        ensures never_falls { self.old.faults ≤ self.new.faults }
    {
        let stamp = self.log.len();
        match self.keeper.ask(self.log.allocator(), key) {
            Ok(value) => Ok(Answer {
                key: *key,
                value,
                stamp,
            }),
            Err(KeepFault::Failed) => {
                self.failed = self.failed.saturating_add(1);
                Err(KeepFault::Failed)
            }
            Err(KeepFault::Memory) => Err(KeepFault::Memory),
        }
    }

    /// The answer to a key on the rows as they were after a transaction, which isn't made. `Failed`
    /// comes only where the keeper's count of faults rose, and is counted.
    pub fn ask_staged(&mut self, txn: &Txn, key: &QKey) -> Result<Value, AfterFault>
        ensures ledger { self.new.ledger ≡ with_call (staged_failed result) self.old.ledger }
        ensures tells { IsSome self.new.known_rows
            → (IsSome self.old.known_rows) × AnswersAfter txn.now key.now (rows_of self.old.ledger) result }
        ensures counts { Counts (staged_failed result) self.old.faults self.new.faults }
        ensures never_falls { self.old.faults ≤ self.new.faults }
    {
        match self.keeper.ask_after(self.log.allocator(), txn, key) {
            Ok(value) => Ok(value),
            Err(AfterFault::Failed) => {
                self.failed = self.failed.saturating_add(1);
                Err(AfterFault::Failed)
            }
            Err(fault) => Err(fault),
        }
    }

    /// Commits the transaction of an open session, under the grants that cover each key it touches:
    /// the rows take it, the log gains it, the session is open no more, and the answer is the new
    /// number of commits. Else the first cause in the order of `CommitFault` is told, the
    /// transaction comes back, and rows, log and sessions are as before. A session that isn't open is
    /// told before memory is asked for. A keeper that fails is told before it is known whether the
    /// transaction applies.
    pub fn commit(
        &mut self,
        sid: Sid,
        txn: Txn,
        grants: &[Grant],
    ) -> Result<u64, (CommitFault, Txn)>
        ensures admitted { OnOk result (first_fault self.old.ledger sid grants.now txn ≡ None) }
        ensures refusal { IfErr result (λ back.
            IsRefusal (first_fault self.old.ledger sid grants.now txn) back.0) }
        ensures ledger { OnOk result (self.new.ledger ≡ with_commit sid txn self.old.ledger) }
        ensures number { IfOk result (λ number. number ≡ length self.old.ledger.log + 1) }
        ensures err { IfErr result (λ back.
            self.new.ledger ≡ with_call (is_failure back.0) self.old.ledger) }
        ensures back { IfErr result (λ back. back.1 ≡ txn) }
        ensures tells { IsSome self.new.known_rows → IsSome self.old.known_rows }
        ensures applied { IsSome self.new.known_rows
            → OnOk result ((after : Tables) × (apply_all txn (rows_of self.old.ledger) ≡ Ok after)) }
        ensures rejected { IsSome self.new.known_rows
            → IfErr result (λ back. IsTrueFault txn (rows_of self.old.ledger) back.0) }
        ensures counts { MatchResult result
            (λ _. self.new.faults ≡ self.old.faults)
            (λ back. Counts (is_failure back.0) self.old.faults self.new.faults) }
        ensures never_falls { self.old.faults ≤ self.new.faults }
    {
        if let Err(fault) = admit(&self.sessions, &mut self.log, self.cap, sid, &txn, grants) {
            return Err((fault, txn));
        }
        if let Err(fault) = self.keeper.commit(self.log.allocator(), &txn) {
            if fault == AfterFault::Failed {
                self.failed = self.failed.saturating_add(1);
            }
            return Err((CommitFault::from(fault), txn));
        }
        self.log.push(sid, txn);
        self.sessions.close(sid);
        Ok(self.log.len())
    }

    /// Ends the session, if it is open, and tells whether it was. It isn't open afterwards. It takes no
    /// memory, and where it was open some for it stays taken until it is forgotten.
    pub fn end(&mut self, sid: Sid) -> Closed
        ensures sid { result.sid ≡ sid }
        ensures was { result.was ≡ is_open sid self.old.ledger.sessions }
        ensures ledger { self.new.ledger ≡ with_end sid self.old.ledger }
        ensures ended { IsFalse (is_open sid self.new.ledger.sessions) }
        ensures keeper { (self.new.known_rows ≡ self.old.known_rows) × (self.new.faults ≡ self.old.faults) }
    {
        Closed::new(sid, self.sessions.end(sid))
    }

    /// Whether the session may still commit.
    pub fn is_open(&self, sid: Sid) -> bool
        ensures { result ≡ is_open sid self.now.ledger.sessions }
    {
        self.sessions.is_open(sid)
    }

    /// Whether the session may have committed. It hasn't where it is open, or was ended and isn't
    /// forgotten. Else nobody knows by now. Each session of the log has committed. It takes no memory.
    pub fn may_have_committed(&self, sid: Sid) -> bool
        ensures has_not { IsFalse result → IsFalse (has_committed sid self.now.ledger.sessions) }
        ensures logged { All (λ commit. IsTrue (has_committed commit.sid self.now.ledger.sessions))
            self.now.ledger.log }
    {
        self.sessions.may_have_committed(sid)
    }

    /// Forgets that a session was ended before it committed, where it was: from then on it takes no
    /// memory. Contracts see it all the same. One that is open stays so.
    pub fn forget(&mut self, sid: Sid)
        ensures { self.new ≡ self.old }
    {
        self.sessions.forget(sid);
    }

    /// The rows that the keeper started with.
    pub fn opening(&self) -> &Rows
        ensures { result.now ≡ self.now.ledger.opening }
    {
        &self.opening
    }

    /// The commits, the earliest first: all, where the log is kept in memory, and else none. Each session
    /// of the log committed at most once, and isn't open. Where the keeper tells its rows, they are the
    /// opening rows after the log.
    pub fn log(&self) -> &[Commit]
        ensures items { IsTrue (keeps_log self.now.ledger.cap) → result.now ≡ self.now.ledger.log }
        ensures none { IsFalse (keeps_log self.now.ledger.cap) → result.now ≡ [] }
        ensures few { length self.now.ledger.log ≤ self.now.ledger.cap }
        ensures once { AllPairs (λ commit later. commit.sid.number ≢ later.sid.number)
            self.now.ledger.log }
        ensures closed { All (λ commit. IsFalse (is_open commit.sid self.now.ledger.sessions))
            self.now.ledger.log }
        ensures told { ForSome self.now.known_rows (λ known. known ≡ rows_of self.now.ledger) }
    {
        self.log.as_slice()
    }

    /// How many calls of the keeper have failed since it was started. The count stops at 2^64 - 1. It
    /// takes no memory.
    pub fn failed(&self) -> u64
        ensures count { result ≡ self.now.ledger.failed }
        ensures since { FailedSince N.count result self.now.faults }
    {
        self.failed
    }

    /// The store made anew over the rows after its log: these are its opening rows, its log is empty, and
    /// each session that was open is ended. Keeper, cap, sessions and the count of failed calls go on. The
    /// old opening rows and the old log come along. For want of memory, and where the log isn't kept, the
    /// store comes back as it was.
    pub fn rebase(self) -> Result<(Store<K, N>, Rows, CommitLog), Store<K, N>>
        ensures ledger { IfOk result (λ made. made.0.ledger ≡ rebased self.ledger) }
        ensures keeper { IfOk result (λ made.
            (made.0.known_rows ≡ self.known_rows) × (made.0.faults ≡ self.faults)) }
        ensures opening { IfOk result (λ made. made.1 ≡ self.ledger.opening) }
        ensures log { IfOk result (λ made. made.2.items ≡ self.ledger.log) }
        ensures keeps { IfOk result (λ made. IsTrue made.2.keeps) }
        ensures err { IfErr result (λ back. back ≡ self) }
    {
        if self.cap == NO_CAP {
            return Err(self);
        }
        let Ok(rows) = rows_after(&self.opening, self.log.as_slice()) else {
            return Err(self);
        };
        let Store {
            keeper,
            opening,
            log,
            mut sessions,
            cap,
            failed,
            start: _,
        } = self;
        sessions.end_all();
        let made = Store {
            keeper,
            opening: rows,
            log: CommitLog::new(log.allocator(), cap != NO_CAP),
            sessions,
            cap,
            failed,
            start: PhantomData,
        };
        Ok((made, opening, log))
    }

    /// The store, with its keeper's count of faults at the start named anew, as it was.
    pub fn renamed<M: Start>(self) -> Store<K, M>
        requires { M.count ≡ N.count }
        ensures { result ≡ self }
    {
        let Store {
            keeper,
            opening,
            log,
            sessions,
            cap,
            failed,
            start: _,
        } = self;
        Store {
            keeper,
            opening,
            log,
            sessions,
            cap,
            failed,
            start: PhantomData,
        }
    }

    /// The keeper, the opening rows and the log.
    pub fn into_parts(self) -> (K, Rows, CommitLog)
        ensures rows { K.rows result.0 ≡ self.known_rows }
        ensures faults { K.faults result.0 ≡ self.faults }
        ensures started { K.is_started result.0 }
        ensures opening { result.1 ≡ self.ledger.opening }
        ensures log { result.2.items ≡ self.ledger.log }
        ensures keeps { result.2.keeps ≡ keeps_log self.ledger.cap }
        ensures told { ForSome self.known_rows (λ known. known ≡ rows_of self.ledger) }
        ensures since { FailedSince N.count self.ledger.failed self.faults }
    {
        let Store {
            keeper,
            opening,
            log,
            sessions: _,
            cap: _,
            failed: _,
            start: _,
        } = self;
        (keeper, opening, log)
    }
}
