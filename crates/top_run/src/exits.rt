// What the program tells of how a run ended: the number that it exits with, and a text.
ghost use Rattle.std.specs.Prelude.{◌≡◌, Some};
ghost use Rattle.top_run.specs.Exits.{exit_code, status_text};

use crate::runs::Status;
use std::fmt;

impl Status {
    /// The number that the program exits with, one for each way to end.
    pub fn exit_code(self) -> u8
        ensures { result ≡ exit_code self }
    {
        match self {
            Status::Done => 0,
            Status::Usage => 1,
            Status::Script { .. } => 2,
            Status::ReadFault => 3,
            Status::WriteFault => 4,
            Status::DoorFault => 5,
            Status::KeepFault => 6,
            Status::FileFault => 7,
            Status::Memory => 10,
            Status::Spent { .. } => 11,
        }
    }
}

/// The text of the line on standard error, which Done doesn't have.
impl fmt::Display for Status {
    ghost output = { λ status. Some (status_text status) };

    fn fmt<W: fmt::Write>(&self, f: &mut fmt::Formatter<W>) -> fmt::Result {
        match *self {
            Status::Done => f.write_str("done"),
            Status::Usage => f.write_str("usage"),
            Status::Script { line, kind } => write!(f, "script line {} {}", line, kind.word()),
            Status::ReadFault => f.write_str("read fault"),
            Status::WriteFault => f.write_str("write fault"),
            Status::DoorFault => f.write_str("door fault"),
            Status::KeepFault => f.write_str("store fault"),
            Status::FileFault => f.write_str("file fault"),
            Status::Spent { shard } => write!(f, "spent {}", shard),
            Status::Memory => f.write_str("memory"),
        }
    }
}
