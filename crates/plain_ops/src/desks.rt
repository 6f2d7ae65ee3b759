ghost use Rattle.std.specs.Prelude.{◌≡◌, List, Option, None};
ghost use Rattle.plain_ops.specs.Desks.{Belongs, PlainCall, with_plain_call};

use crate::maps::Plain;
use mc_text::{PlainCommand, PlainReply};

/// Where plain commands are carried out.
///
/// Contracts see `record_of`, the calls that the desk answered, the latest first, or `None` where it
/// doesn't tell them. Whether it tells them never changes, and nothing leaves the list.
pub trait PlainDesk {
    ghost record_of: { Self → Option (List PlainCall) } = { λ desk. None };

    /// Carries out a command. The reply is one that belongs to it.
    fn plain(&mut self, command: &PlainCommand) -> PlainReply
        ensures belongs { Belongs command.now result }
        ensures recorded { record_of self.new
            ≡ with_plain_call (record { command = command.now; reply = result }) (record_of self.old) };
}

/// A plain map that one worker has for itself. It doesn't tell a record.
impl PlainDesk for Plain {
    ghost use Rattle.std.specs.Prelude.{None};

    ghost record_of = { λ plain. None };

    fn plain(&mut self, command: &PlainCommand) -> PlainReply {
        self.run(command)
    }
}
