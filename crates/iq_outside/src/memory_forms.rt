ghost use Rattle.std.specs.Prelude.{◌≡◌, ◌+◌, ◌-◌, ◌<◌, ◌≤◌, ◌↔◌, ◌⊎◌, ◌++◌, [], Some, length, take, drop, min, IsErr, IfOk, OnOk, OnErr, Contains};
ghost use Rattle.iq_outside.specs.Outside.{Rose, Takes, ZeroAtEnd, Gains, count_up};

use crate::failures::Failed;
use crate::sinks::Sink;
use crate::sources::Source;
use rows_model::Memory;
use std::alloc::Global;
use std::marker::Model;

/// A source over bytes in memory. It gives few bytes at a time, and fails at the calls that it was
/// told to fail at.
#[derive(Drop)]
pub struct MemSource {
    text: Vec<u8>,
    // How many bytes of the text were given.
    given: usize,
    piece: usize,
    fails: Vec<u64>,
    calls: u64,
    faults: u64,
}

impl Model for MemSource {
    ghost use Rattle.std.specs.Prelude.{◌≤◌, length, take, drop};
    ghost use Rattle.iq_outside.specs.MemoryForms.{SourceView};

    ghost Value = { SourceView };

    ghost view = { λ s. record {
      left = drop s.given s.text.items;
      given = take s.given s.text.items;
      piece = s.piece;
      fails = s.fails.items;
      calls = s.calls;
      faults = s.faults;
    } };

    ghost invariant = { λ s. (s.given ≤ length s.text.items) × (1 ≤ s.piece) };
}

impl MemSource {
    /// A source that gives these bytes, at most `piece` at a call, and fails at the calls with these
    /// numbers, counted from 1.
    pub fn new(text: Vec<u8>, piece: usize, fails: Vec<u64>) -> MemSource
        requires { 1 ≤ piece }
        ensures { result ≡ record {
          left = text.items;
          given = [];
          piece = piece;
          fails = fails.items;
          calls =
              0;
          faults = 0;
        } }
    {
        MemSource {
            text,
            given: 0,
            piece,
            fails,
            calls: 0,
            faults: 0,
        }
    }
}

impl Source for MemSource {
    ghost left = { λ source. Some source.left };

    ghost given = { λ source. Some source.given };

    ghost faults = { λ source. source.faults };

    /// Fails exactly at the calls whose numbers it was given, and else gives as many bytes as the
    /// piece, the room and the rest allow.
    fn read(&mut self, room: &mut [u8]) -> Result<usize, Failed>
        requires { 0 < length room.old }
        ensures within { IfOk result (λ n. n ≤ length room.new) }
        ensures gives { IfOk result (λ n. Takes (Some self.old.left) (Some self.new.left)
            (take n room.new)) }
        ensures adds { IfOk result (λ n. Gains (Some self.old.given) (Some self.new.given)
            (take n room.new)) }
        ensures ends { IfOk result (ZeroAtEnd (Some self.old.left)) }
        ensures keeps { OnErr result (Some self.new.left ≡ Some self.old.left) }
        ensures keeps_given { OnErr result (Some self.new.given ≡ Some self.old.given) }
        ensures failed_rose { OnErr result (Rose self.old.faults self.new.faults) }
        ensures no_fault { OnOk result (self.new.faults ≡ self.old.faults) }
        ensures never_falls { self.old.faults ≤ self.new.faults }

        ensures calls { self.new.calls ≡ count_up self.old.calls }
        ensures fails { IsErr result ↔ Contains self.old.fails (count_up self.old.calls) }
        ensures count { IfOk result (λ n. n ≡ min (min self.old.piece (length room.old))
            (length self.old.left)) }
        ensures err { OnErr result (self.new.faults ≡ count_up self.old.faults) }
        ensures same { (self.new.piece ≡ self.old.piece) × (self.new.fails ≡ self.old.fails) }
    {
        self.calls = self.calls.saturating_add(1);
        if self.fails.contains(&self.calls) {
            self.faults = self.faults.saturating_add(1);
            return Err(Failed);
        }
        let rest = &self.text[self.given..];
        let count = self.piece.min(room.len()).min(rest.len());
        room[..count].copy_from_slice(&rest[..count]);
        self.given += count;
        Ok(count)
    }
}

/// A sink in memory. It takes few bytes at a time and so many in all, and fails at the calls that it
/// was told to fail at.
#[derive(Drop)]
pub struct MemSink {
    taken: Vec<u8>,
    room: usize,
    piece: usize,
    fails: Vec<u64>,
    calls: u64,
    faults: u64,
}

impl Model for MemSink {
    ghost use Rattle.std.specs.Prelude.{◌≤◌, length, vec_capacity};
    ghost use Rattle.iq_outside.specs.MemoryForms.{SinkView};

    ghost Value = { SinkView };

    ghost view = { λ s. record { taken = s.taken.items; room = s.room; piece = s.piece; fails = s.fails.items; calls = s.calls; faults = s.faults } };

    ghost invariant = { λ s. (length s.taken.items ≤ s.room) × (s.room ≤ vec_capacity s.taken) × (1 ≤ s.piece) };
}

impl MemSink {
    /// A sink that takes at most `piece` bytes at a call and `room` bytes in all, and fails at the
    /// calls with these numbers, counted from 1. It takes the memory for all its bytes here.
    pub fn new(alloc: Global, room: usize, piece: usize, fails: Vec<u64>) -> Result<MemSink, Memory>
        requires { 1 ≤ piece }
        ensures { IfOk result (λ sink. sink ≡ record {
          taken = [];
          room = room;
          piece = piece;
          fails
              = fails.items;
          calls = 0;
          faults = 0;
        }) }
    {
        Ok(MemSink {
            taken: Vec::with_capacity(alloc, room)?,
            room,
            piece,
            fails,
            calls: 0,
            faults: 0,
        })
    }

    /// The bytes that it has taken so far.
    pub fn taken(&self) -> &[u8]
        ensures { result.now ≡ self.now.taken }
    {
        self.taken.as_slice()
    }
}

impl Sink for MemSink {
    ghost taken = { λ sink. Some sink.taken };

    ghost faults = { λ sink. sink.faults };

    /// Fails exactly at the calls whose numbers it was given and where no room is left, and else takes
    /// as many bytes as the piece given, its own piece and its room allow. It takes no memory.
    fn write(&mut self, piece: &[u8]) -> Result<usize, Failed>
        requires { 0 < length piece.now }
        ensures progress { IfOk result (λ n. 1 ≤ n) }
        ensures within { IfOk result (λ n. n ≤ length piece.now) }
        ensures takes { IfOk result (λ n. Gains (Some self.old.taken) (Some self.new.taken)
            (take n piece.now)) }
        ensures keeps { OnErr result (Some self.new.taken ≡ Some self.old.taken) }
        ensures failed_rose { OnErr result (Rose self.old.faults self.new.faults) }
        ensures no_fault { OnOk result (self.new.faults ≡ self.old.faults) }
        ensures never_falls { self.old.faults ≤ self.new.faults }

        ensures calls { self.new.calls ≡ count_up self.old.calls }
        ensures fails { IsErr result ↔ (Contains self.old.fails (count_up self.old.calls) ⊎
            (length self.old.taken ≡ self.old.room)) }
        ensures count { IfOk result (λ n. n ≡ min (min self.old.piece (length piece.now))
            (self.old.room - length self.old.taken)) }
        ensures err { OnErr result (self.new.faults ≡ count_up self.old.faults) }
        ensures same { (self.new.room ≡ self.old.room) × (self.new.piece ≡ self.old.piece) ×
            (self.new.fails ≡ self.old.fails) }
    {
        self.calls = self.calls.saturating_add(1);
        let free = self.room - self.taken.len();
        if free == 0 || self.fails.contains(&self.calls) {
            self.faults = self.faults.saturating_add(1);
            return Err(Failed);
        }
        let count = self.piece.min(piece.len()).min(free);
        self.taken.extend_from_slice(&piece[..count]).unwrap();
        Ok(count)
    }
}
