ghost use Rattle.std.specs.Prelude.{◌≡◌, [], length, map, IsTrue, IfOk, OnOk, OnErr};
ghost use Rattle.std.specs.Bool.{IsFalse};
ghost use Rattle.sql_keeper.specs.Sessions.{is_open, has_committed, with_begun, ended, closed, with_phase};
ghost use Rattle.sql_keeper.specs.declared.stores.Phase.TheVariants.{Committed};

use crate::stores::Phase;
use http_server::Log;
use rows_model::{Memory, Sid};
use std::alloc::Global;
use std::collections::BTreeMap;
use std::marker::Model;

/// What becomes of sessions: one begins, to write or to read; one is in another phase now; or each
/// that was open is ended.
#[derive(Drop)]
pub enum Turn {
    Begun { writes: bool },
    Becomes { sid: Sid, phase: Phase },
    AllEnd,
}

/// Where each session that began stands, by number. Contracts see the list. In memory are only those
/// that are open, and those that were ended before they committed and aren't forgotten.
#[derive(Drop)]
pub struct Sessions {
    /// How many have begun.
    begun: u64,
    /// Each that is in memory, by its number, and whether it is open.
    live: BTreeMap<u64, bool>,
    /// What became of them so far. A `Log` has no bytes: contracts alone see what is in it.
    turns: Log<Turn, ()>,
}

impl Model for Sessions {
    ghost use Rattle.std.specs.Prelude.{List};
    ghost use Rattle.sql_keeper.specs.declared.stores.Phase.{Phase};
    ghost use Rattle.sql_keeper.specs.Turns.{after_turns, AreLive};

    ghost Value = { List Phase };

    ghost view = { λ s. after_turns s.turns.items };

    ghost invariant = { λ s. AreLive s.begun s.live (after_turns s.turns.items) };
}

impl Sessions {
    /// No session has begun.
    pub fn new(alloc: Global) -> Sessions
        ensures { result ≡ [] }
    {
        Sessions {
            begun: 0,
            live: BTreeMap::new(alloc),
            turns: Log::new(),
        }
    }

    /// A session begins, to write or to read. Its number is the next one. Where there is no next
    /// number, memory is said to have run out.
    pub fn begin(&mut self, writes: bool) -> Result<Sid, Memory>
        ensures begun { OnOk result (self.new ≡ with_begun writes self.old) }
        ensures number { IfOk result (λ sid. sid.number ≡ length self.new) }
        ensures err { OnErr result (self.new ≡ self.old) }
    {
        let Some(number) = self.begun.checked_add(1) else {
            return Err(Memory);
        };
        if writes {
            self.live.insert(number, true)?;
        }
        self.turns = self.turns.and(&Turn::Begun { writes }, &());
        self.begun = number;
        Ok(Sid { number })
    }

    /// Whether the session is open.
    pub fn is_open(&self, sid: Sid) -> bool
        ensures { result ≡ is_open sid self.now }
    {
        self.live.get(&sid.number).copied().unwrap_or(false)
    }

    /// Whether the session may have committed. It hasn't where it is in memory.
    pub fn may_have_committed(&self, sid: Sid) -> bool
        ensures { IsFalse result → IsFalse (has_committed sid self.now) }
    {
        !self.live.contains_key(&sid.number)
    }

    /// Ends each session that is open. None is in memory then.
    pub fn end_all(&mut self)
        ensures { self.new ≡ map closed self.old }
    {
        self.live.clear();
        self.turns = self.turns.and(&Turn::AllEnd, &());
    }

    /// Ends the session, if it is open, and tells whether it was. It stays in memory.
    pub fn end(&mut self, sid: Sid) -> bool
        ensures was { result ≡ is_open sid self.old }
        ensures ended { self.new ≡ ended sid self.old }
    {
        let was = self.is_open(sid);
        if was {
            self.cut_off(sid);
        }
        was
    }

    /// The session, which is open, was ended. It stays in memory.
    fn cut_off(&mut self, sid: Sid)
        requires { IsTrue (is_open sid self.old) }
        ensures { self.new ≡ ended sid self.old }
    {
        // A key that is there takes no memory.
        if self.live.insert(sid.number, false).is_err() {
            unreachable!();
        }
        let phase = Phase::Ended;
        self.turns = self.turns.and(&Turn::Becomes { sid, phase }, &());
    }

    /// The session, which is open, has committed. It is in memory no more.
    pub fn close(&mut self, sid: Sid)
        requires { IsTrue (is_open sid self.old) }
        ensures { self.new ≡ with_phase sid Committed self.old }
    {
        self.live.remove(&sid.number);
        let phase = Phase::Committed;
        self.turns = self.turns.and(&Turn::Becomes { sid, phase }, &());
    }

    /// A session that isn't open is in memory no more.
    pub fn forget(&mut self, sid: Sid)
        ensures { self.new ≡ self.old }
    {
        if !self.is_open(sid) {
            self.live.remove(&sid.number);
        }
    }
}
