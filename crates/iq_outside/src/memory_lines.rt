ghost use Rattle.std.specs.Prelude.{◌≡◌, ◌-◌, ◌<◌, ◌≤◌, ◌↔◌, ◌⊎◌, Some, true, false, length, take, min, IsErr, IfOk, OnOk, OnErr, Contains, refl};
ghost use Rattle.iq_outside.specs.Outside.{Rose, Takes, ZeroAtEnd, Gains, count_up};

use crate::failures::Failed;
use crate::lines::Line;
use crate::memory_forms::{MemSink, MemSource};
use crate::sinks::Sink;
use crate::sources::Source;
use std::marker::Model;

/// A line in memory: what its peer sends is that of a source in memory, and what is sent to the peer
/// goes to a sink in memory.
#[derive(Drop)]
pub struct MemLine {
    source: MemSource,
    sink: MemSink,
    finished: bool,
}

impl Model for MemLine {
    ghost use Rattle.iq_outside.specs.MemoryForms.{LineView};

    ghost Value = { LineView };

    ghost view = { λ line. record { source = line.source; sink = line.sink; finished = line.finished } };
}

impl MemLine {
    /// A line that reads from this source and writes to this sink, and isn't finished.
    pub fn new(source: MemSource, sink: MemSink) -> MemLine
        ensures { result ≡ record { source = source; sink = sink; finished = false } }
    {
        MemLine {
            source,
            sink,
            finished: false,
        }
    }

    /// The bytes that its sink has taken so far.
    pub fn taken(&self) -> &[u8]
        ensures { result.now ≡ self.now.sink.taken }
    {
        self.sink.taken()
    }
}

impl Source for MemLine {
    ghost left = { λ line. Some line.source.left };

    ghost given = { λ line. Some line.source.given };

    ghost faults = { λ line. line.source.faults };

    ghost write_side = { λ line. record { taken = Some line.sink.taken; faults = line.sink.faults } };

    /// Gives what its source gives, and fails where that fails.
    fn read(&mut self, room: &mut [u8]) -> Result<usize, Failed>
        requires { 0 < length room.old }
        ensures within { IfOk result (λ n. n ≤ length room.new) }
        ensures gives { IfOk result (λ n. Takes (Some self.old.source.left)
            (Some self.new.source.left) (take n room.new)) }
        ensures adds { IfOk result (λ n. Gains (Some self.old.source.given)
            (Some self.new.source.given) (take n room.new)) }
        ensures ends { IfOk result (ZeroAtEnd (Some self.old.source.left)) }
        ensures keeps { OnErr result (Some self.new.source.left ≡ Some self.old.source.left) }
        ensures keeps_given { OnErr result
            (Some self.new.source.given ≡ Some self.old.source.given) }
        ensures keeps_sink { self.new.sink ≡ self.old.sink }
        ensures keeps_finished { self.new.finished ≡ self.old.finished }
        ensures failed_rose { OnErr result (Rose self.old.source.faults self.new.source.faults) }
        ensures no_fault { OnOk result (self.new.source.faults ≡ self.old.source.faults) }
        ensures never_falls { self.old.source.faults ≤ self.new.source.faults }

        ensures calls { self.new.source.calls ≡ count_up self.old.source.calls }
        ensures fails { IsErr result ↔
            Contains self.old.source.fails (count_up self.old.source.calls) }
        ensures count { IfOk result (λ n. n ≡ min (min self.old.source.piece (length room.old))
            (length self.old.source.left)) }
        ensures err { OnErr result (self.new.source.faults ≡ count_up self.old.source.faults) }
        ensures same { (self.new.source.piece ≡ self.old.source.piece) ×
            (self.new.source.fails ≡ self.old.source.fails) }
    {
        self.source.read(room)
    }
}

impl Sink for MemLine {
    ghost taken = { λ line. Some line.sink.taken };

    ghost faults = { λ line. line.sink.faults };

    ghost read_side = { λ line. record {
      left = Some line.source.left;
      given = Some line.source.given;
      faults = line.source.faults;
    } };

    /// Its sink takes what it takes, and this fails where that fails. It takes no memory.
    fn write(&mut self, piece: &[u8]) -> Result<usize, Failed>
        requires { 0 < length piece.now }
        ensures progress { IfOk result (λ n. 1 ≤ n) }
        ensures within { IfOk result (λ n. n ≤ length piece.now) }
        ensures takes { IfOk result (λ n. Gains (Some self.old.sink.taken)
            (Some self.new.sink.taken) (take n piece.now)) }
        ensures keeps { OnErr result (Some self.new.sink.taken ≡ Some self.old.sink.taken) }
        ensures keeps_source { self.new.source ≡ self.old.source }
        ensures keeps_finished { self.new.finished ≡ self.old.finished }
        ensures failed_rose { OnErr result (Rose self.old.sink.faults self.new.sink.faults) }
        ensures no_fault { OnOk result (self.new.sink.faults ≡ self.old.sink.faults) }
        ensures never_falls { self.old.sink.faults ≤ self.new.sink.faults }

        ensures calls { self.new.sink.calls ≡ count_up self.old.sink.calls }
        ensures fails { IsErr result ↔
            (Contains self.old.sink.fails (count_up self.old.sink.calls) ⊎
            (length self.old.sink.taken ≡ self.old.sink.room)) }
        ensures count { IfOk result (λ n. n ≡ min (min self.old.sink.piece (length piece.now))
            (self.old.sink.room - length self.old.sink.taken)) }
        ensures err { OnErr result (self.new.sink.faults ≡ count_up self.old.sink.faults) }
        ensures same { (self.new.sink.room ≡ self.old.sink.room) ×
            (self.new.sink.piece ≡ self.old.sink.piece) ×
            (self.new.sink.fails ≡ self.old.sink.fails) }
    {
        self.sink.write(piece)
    }
}

impl Line for MemLine {
    ghost reading = { λ _. refl };

    ghost writing = { λ _. refl };

    ghost tells_given = { λ _ _. refl };

    ghost finished = { λ line. line.finished };

    /// Notes that the line is finished.
    fn finish(&mut self)
        ensures { self.new ≡ record self.old { finished = true } }
    {
        self.finished = true;
    }
}
