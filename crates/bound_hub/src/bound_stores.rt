//! What lies under the lock of the store: the store, and its pass.
ghost use Rattle.std.specs.Prelude.{◌≡◌, false, is_none, length, IfOk, OnOk, OnErr};
ghost use Rattle.std.specs.Bool.{IsFalse};
ghost use Rattle.sql_keeper.specs.Sessions.{has_committed, is_open};
ghost use Rattle.sql_keeper.specs.Stores.{with_end, with_session};
ghost use Rattle.executor.specs.OnStore.{Goes};
ghost use Rattle.log_word.specs.declared.events.StoreEvent.TheVariants.{Begin};
ghost use Rattle.log_word.specs.Events.{has_begun};
ghost use Rattle.log_word.specs.Steps.{IsBeginning};
ghost use Rattle.log_word.specs.Views.{with_event};
ghost use Rattle.log_word.specs.Passes.{IsTogether, blind_pass};
ghost use Rattle.shard_lock.specs.Names.{IsNamedStore};
ghost use Rattle.key_freshness.specs.Known.{IsLogged};
ghost use Rattle.bound_hub.specs.Knowns.{commits_of};
ghost use Rattle.bound_hub.specs.Ties.{HasSeenOnly, IsNewStore};
ghost use Rattle.bound_hub.specs.Stores.{with_end_of, with_keeper_call, ShowsBegin, ShowsEnd};

use crate::names::BoundName;
use log_word::{LogWord, Note, StoreEvent, StorePass};
use rows_model::{Memory, Sid};
use shard_lock::StartOf;
use sql_keeper::{Closed, Keeper, Store};
use std::marker::{Brand, Model};

/// The store of a hub, with what is named of it, and the pass that has seen each event of the store
/// since the hub was made. Contracts see the store and what the pass has seen.
///
/// The log and the sessions are those of the events, and the pass has seen each call that the keeper
/// failed, and whether the store tells its rows. Where it does, each transaction of the log applied.
#[derive(Drop)]
pub struct BoundStore<K: Keeper, H: BoundName> {
    pub(crate) store: Store<K, StartOf<H>>,
    pub(crate) pass: StorePass,
}

impl<K: Keeper, H: BoundName> Model for BoundStore<K, H> {
    ghost use Rattle.shard_lock.specs.Names.{IsNamedStore};
    ghost use Rattle.bound_hub.specs.Ties.{BoundStoreView, IsBoundStore};
    ghost use Rattle.bound_hub.specs.TrueLogs.{IsTrueSoFar};

    ghost Value = { BoundStoreView };

    ghost view = { λ bound. record { store = bound.store; seen = bound.pass.seen } };

    ghost invariant = { λ bound. IsNamedStore H.opening H.cap H.known_rows H.start bound.store
        × IsBoundStore H.word H.begun H.failed bound.store bound.pass
        × IsTrueSoFar H.opening bound.pass.seen };
}

impl<K: Keeper, H: BoundName> BoundStore<K, H> {
    /// A store as it was named, and a pass that has seen nothing yet. It sees whether the store tells
    /// its rows.
    pub fn new(word: &LogWord, store: Store<K, StartOf<H>>, pass: StorePass) -> BoundStore<K, H>
        requires word { word.now ≡ H.word }
        requires named { IsNamedStore H.opening H.cap H.known_rows H.start store }
        requires new { IsNewStore H.begun H.failed store }
        requires pass { pass ≡ blind_pass H.word }
        ensures store { result.store ≡ store }
        ensures only { HasSeenOnly (is_none store.known_rows) result.seen }
    {
        let mut pass = pass;
        let _fit = store.opening().members();
        hear(word, &store, &mut pass, false);
        BoundStore { store, pass }
    }

    /// Begins a session, as the store does, and its Begin, by this worker's desk, is seen. For want of
    /// memory everything is as before.
    pub(crate) fn make_begin(
        &mut self,
        word: &LogWord,
        worker: u32,
        writes: bool,
    ) -> Result<Sid, Memory>
        requires word { word.now ≡ H.word }
        ensures ledger { OnOk result
            (self.new.store.ledger ≡ with_session writes self.old.store.ledger) }
        ensures number { IfOk result (λ sid.
            sid.number ≡ length self.new.store.ledger.sessions) }
        ensures seen { IfOk result (λ sid.
            self.new.seen ≡ with_event (Begin sid worker writes) self.old.seen) }
        ensures first { IfOk result (λ sid. has_begun sid.number self.old.seen.events ≡ false) }
        ensures goes_on { IsBeginning self.old.seen self.new.seen }
        ensures shows { IfOk result (ShowsBegin H.begun worker writes self.new.seen) }
        ensures err { OnErr result (self.new ≡ self.old) }
    {
        let sid = self.store.begin(writes)?;
        let event = StoreEvent::Begin {
            sid,
            worker,
            writes,
        };
        self.pass.add(word, &event);
        Ok(sid)
    }

    /// Ends a session, as the store does. Where it was open, its End is seen.
    pub(crate) fn make_end(&mut self, word: &LogWord, sid: Sid) -> Closed
        requires word { word.now ≡ H.word }
        ensures sid { result.sid ≡ sid }
        ensures was { result.was ≡ is_open sid self.old.store.ledger.sessions }
        ensures goes { Goes false (with_end sid self.old.store.ledger)
            self.old.store self.new.store }
        ensures seen { self.new.seen ≡ with_end_of sid result.was self.old.seen }
        ensures goes_on { IsBeginning self.old.seen self.new.seen }
        ensures shows { ShowsEnd sid self.new.seen result.was }
    {
        let closed = self.store.end(sid);
        if !closed.was() {
            return closed;
        }
        self.pass.sound();
        self.pass.add(word, &StoreEvent::End { sid });
        closed
    }

    /// Whether the session may have committed, as the store says it. Where it hasn't, no commit of its is
    /// among those that are seen.
    pub(crate) fn may_have_commit(&self, sid: Sid) -> bool
        ensures has_not { IsFalse result
            → IsFalse (has_committed sid self.now.store.ledger.sessions) }
        ensures shows { IsFalse result
            → IsLogged (commits_of self.now.seen.events) sid.number → ⊥ }
    {
        self.store.may_have_committed(sid)
    }

    /// Forgets that a session was ended before it committed, as the store does. Contracts see it all the
    /// same.
    pub fn forget(&mut self, sid: Sid)
        ensures { self.new ≡ self.old }
    {
        self.store.forget(sid);
    }

    /// A note of what its pass has seen.
    pub fn note(&mut self, word: &LogWord) -> Note
        requires word { word.now ≡ H.word }
        ensures same { self.new ≡ self.old }
        ensures word { result.word ≡ H.word }
        ensures seen { result.seen ≡ self.old.seen }
    {
        self.pass.note(word)
    }

    /// Its pass has seen what the note tells, too. The store stays, and its pass has seen no other event
    /// of it.
    pub fn join(&mut self, word: &LogWord, note: Note)
        requires word { word.now ≡ H.word }
        requires note { note.word ≡ H.word }
        ensures store { self.new.store ≡ self.old.store }
        ensures mine { IsBeginning self.old.seen self.new.seen }
        ensures theirs { IsBeginning note.seen self.new.seen }
        ensures together { IsTogether self.old.seen note.seen self.new.seen }
        ensures events { self.new.seen.events ≡ self.old.seen.events }
        ensures failures { self.new.seen.failures ≡ self.old.seen.failures }
        ensures stopped { self.new.seen.stopped ≡ self.old.seen.stopped }
    {
        self.pass.join(word, note);
    }
}

/// The pass sees what a call of the store's keeper made of it: that it failed, where it did, and whether
/// the store tells its rows.
pub(crate) fn hear<K: Keeper, H: BoundName>(
    word: &LogWord,
    store: &Store<K, StartOf<H>>,
    pass: &mut StorePass,
    failed: bool,
)
    requires word { word.now ≡ H.word }
    requires pass { pass.old.word ≡ H.word }
    ensures word { pass.new.word ≡ pass.old.word }
    ensures seen { pass.new.seen ≡ with_keeper_call failed (is_none store.now.known_rows) pass.old.seen }
{
    if failed {
        pass.fail(word);
    }
    pass.watch::<Brand, _>(word, store);
}
