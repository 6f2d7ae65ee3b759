ghost use Rattle.std.specs.Prelude.{◌≡◌, ◌≤◌, ◌↔◌, ◌⊎◌, ◌∷◌, ◌++◌, [], true, false, Some, None, length, reverse, IsErr, IfOk, OnOk, OnErr, IfSome, IfNone, Contains, All, if◌then◌else◌, nat_lt};
ghost use Rattle.iq_outside.specs.Outside.{Rose, HandedBack, count_up};
ghost use Rattle.iq_outside.specs.MemoryForms.{IsUnused, kept_lines, line_record};

use crate::addresses::Address;
use crate::doors::Door;
use crate::failures::Failed;
use crate::memory_lines::MemLine;
use rows_model::Memory;
use std::alloc::Global;
use std::marker::Model;

/// A door in memory, which gives its lines in turn and keeps those that are closed. It fails at the
/// calls that it was told to fail at; a call that fails gives no line.
#[derive(Drop)]
pub struct ListDoor {
    at: Option<Address>,
    // The lines that it has yet to give, the next one last.
    waiting: Vec<MemLine>,
    closed: Vec<MemLine>,
    all_kept: bool,
    room: usize,
    fails: Vec<u64>,
    calls: u64,
    faults: u64,
    given: u64,
    ended: bool,
}

impl Model for ListDoor {
    ghost use Rattle.std.specs.Prelude.{◌≤◌, length, reverse, vec_capacity};
    ghost use Rattle.iq_outside.specs.MemoryForms.{ListDoorView};

    ghost Value = { ListDoorView };

    ghost view = { λ d. record {
      bound = d.at;
      waiting = reverse d.waiting.items;
      closed = d.closed.items;
      all_kept = d.all_kept;
      room = d.room;
      fails = d.fails.items;
      calls = d.calls;
      faults = d.faults;
      given = d.given;
      ended = d.ended;
    } };

    ghost invariant = { λ d. (length d.closed.items ≤ d.room) × (d.room ≤ vec_capacity d.closed) };
}

impl ListDoor {
    /// A door that gives these lines, in order, and fails at the calls with these numbers. The calls
    /// of `bind` and of `accept` are counted together, from 1. It takes the memory here in which it
    /// keeps as many closed lines as it is given lines.
    pub fn new(alloc: Global, mut lines: Vec<MemLine>, fails: Vec<u64>) -> Result<ListDoor, Memory>
        ensures { IfOk result (λ door. door ≡ record {
          bound = None;
          waiting = lines.items;
          closed = [];
          all_kept = true;
          room = length lines.items;
          fails = fails.items;
          calls = 0;
          faults = 0;
          given = 0;
          ended = false;
        }) }
    {
        let room = lines.len();
        let closed = Vec::with_capacity(alloc, room)?;
        lines.reverse();
        Ok(ListDoor {
            at: None,
            waiting: lines,
            closed,
            all_kept: true,
            room,
            fails,
            calls: 0,
            faults: 0,
            given: 0,
            ended: false,
        })
    }

    /// The lines that were closed and kept, in the order of their closing. It takes no memory.
    pub fn closed(&self) -> &[MemLine]
        ensures { result.now ≡ self.now.closed }
    {
        self.closed.as_slice()
    }

    // Counts a call, and fails where it is to fail.
    fn count_call(&mut self) -> Result<(), Failed>
        ensures fails { IsErr result ↔ Contains self.old.fails (count_up self.old.calls) }
        ensures rest { self.new ≡ record self.old {
          calls = count_up self.old.calls;
          faults = self.new.faults;
        } }
        ensures no_fault { OnOk result (self.new.faults ≡ self.old.faults) }
        ensures err { OnErr result (self.new.faults ≡ count_up self.old.faults) }
        ensures never_falls { self.old.faults ≤ self.new.faults }
    {
        self.calls = self.calls.saturating_add(1);
        if self.fails.contains(&self.calls) {
            self.faults = self.faults.saturating_add(1);
            return Err(Failed);
        }
        Ok(())
    }
}

impl Door for ListDoor {
    type Line = MemLine;

    ghost bound = { λ door. door.bound };

    ghost faults = { λ door. door.faults };

    ghost lines = { λ door. door.given };

    ghost ended = { λ door. door.ended };

    ghost fresh = { λ door. All IsUnused door.waiting };

    ghost closed = { kept_lines };

    /// Fails exactly at the calls whose numbers it was given. Any address will do.
    fn bind(&mut self, addr: &[u8]) -> Result<(), Failed>
        ensures bound { OnOk result (self.new.bound ≡ Some addr.now) }
        ensures not_bound { OnErr result (self.new.bound ≡ self.old.bound) }
        ensures failed_rose { OnErr result (Rose self.old.faults self.new.faults) }
        ensures no_fault { OnOk result (self.new.faults ≡ self.old.faults) }
        ensures never_falls { self.old.faults ≤ self.new.faults }
        ensures stays_fresh { All IsUnused self.old.waiting → All IsUnused self.new.waiting }

        ensures fails { IsErr result ↔ Contains self.old.fails (count_up self.old.calls) }
        ensures rest { self.new ≡ record self.old {
          bound = self.new.bound;
          calls = count_up self.old.calls;
          faults = self.new.faults;
        } }
        ensures err { OnErr result (self.new.faults ≡ count_up self.old.faults) }
    {
        self.count_call()?;
        self.at = Some(Address::of(addr));
        Ok(())
    }

    /// Fails exactly at the calls whose numbers it was given, and else gives the next of its lines,
    /// and None exactly where it has given all.
    fn accept(&mut self) -> Result<Option<MemLine>, Failed>
        ensures stays_bound { self.new.bound ≡ self.old.bound }
        ensures failed_rose { OnErr result (Rose self.old.faults self.new.faults) }
        ensures no_fault { OnOk result (self.new.faults ≡ self.old.faults) }
        ensures never_falls { self.old.faults ≤ self.new.faults }
        ensures unused { All IsUnused self.old.waiting → IfOk result (λ answer. IfSome answer
            IsUnused) }
        ensures stays_fresh { All IsUnused self.old.waiting → All IsUnused self.new.waiting }

        ensures fails { IsErr result ↔ Contains self.old.fails (count_up self.old.calls) }
        ensures gives { IfOk result (λ answer. IfSome answer (λ line.
            (self.old.waiting ≡ line ∷ self.new.waiting) × (self.new ≡ record self.old {
              waiting = self.new.waiting;
              calls = count_up self.old.calls;
              given = count_up self.old.given;
            }))) }
        ensures ends { IfOk result (λ answer. IfNone answer (
            (self.old.waiting ≡ []) × (self.new ≡ record self.old {
              calls = count_up self.old.calls;
              ended = true;
            }))) }
        ensures err { OnErr result (self.new ≡ record self.old {
          calls = count_up self.old.calls;
          faults = count_up self.old.faults;
        }) }
    {
        self.count_call()?;
        match self.waiting.pop() {
            Some(line) => {
                self.given = self.given.saturating_add(1);
                Ok(Some(line))
            }
            None => {
                self.ended = true;
                Ok(None)
            }
        }
    }

    /// Keeps the line as the last closed one, or drops it where it has kept as many as it was given,
    /// and no longer tells the lines handed back then.
    fn close(&mut self, line: MemLine)
        requires { line.finished ≡ true }
        ensures stays_bound { self.new.bound ≡ self.old.bound }
        ensures stays_fresh { All IsUnused self.old.waiting → All IsUnused self.new.waiting }
        ensures handed_back { HandedBack (kept_lines self.old) (kept_lines self.new)
            (line_record line) }

        ensures value { self.new ≡ (if nat_lt (length self.old.closed) self.old.room
            then record self.old { closed = self.old.closed ++ line ∷ [] }
            else record self.old { all_kept = false }) }
    {
        if self.closed.len() < self.room {
            self.closed.push(line).unwrap();
        } else {
            self.all_kept = false;
        }
    }
}
