ghost use Rattle.std.specs.Prelude.{◌≡◌, Bool, true, IsSome};

use crate::sinks::Sink;
use crate::sources::Source;

/// A connection: a source of what its peer sends, and a sink of what is sent to it.
///
/// It has one count of faults as a source and one as a sink. A read changes nothing that a contract
/// sees of the writing, and a write nothing that it sees of the reading. Where the bytes left are
/// told, those given so far are told too. `finished` tells whether the line was ended for the peer: a
/// door takes back no other.
///
/// A caller that knows no more of a line than this trait has from a read that `write_side` is as
/// before, and from a write that `read_side` is. The laws `writing` and `reading` say what these are.
pub trait Line: Source + Sink {
    ghost finished: { Self → Bool };

    /// Ends the connection for the peer. It can't fail, isn't counted, and takes no memory. The bytes
    /// left, given and taken are as before.
    fn finish(&mut self)
        ensures finished { finished self.new ≡ true }
        ensures keeps_left { Self.left self.new ≡ Self.left self.old }
        ensures keeps_given { Self.given self.new ≡ Self.given self.old }
        ensures keeps_taken { Self.taken self.new ≡ Self.taken self.old }
        ensures no_read_fault { Self.Source.faults self.new ≡ Self.Source.faults self.old }
        ensures no_write_fault { Self.Sink.faults self.new ≡ Self.Sink.faults self.old };

    ghost reading: { (line : Self) → Self.read_side line ≡ record {
      left = Self.left line;
      given = Self.given line;
      faults = Self.Source.faults line;
    } };

    ghost writing: { (line : Self) → Self.write_side line ≡ record {
      taken = Self.taken line;
      faults = Self.Sink.faults line;
    } };

    ghost tells_given: { (line : Self) → IsSome (Self.left line) → IsSome (Self.given line) };
}
