ghost use Rattle.std.specs.Prelude.{◌≡◌};
ghost use Rattle.run_words.specs.Words.{most_served};

use run_inputs::WorkSpec;
use sql_keeper::Place;
use std::alloc::{AllocError, AllocFailed};

/// How many connections a server serves.
#[derive(Clone, Copy)]
pub enum Conns {
    /// So many, from 1 to 1,000,000.
    Number(u32),
    /// As many as come. No number of them ends the server.
    Forever,
}

impl Conns {
    /// The most connections that are served, or `None` where no number of them ends the server.
    pub fn most(self) -> Option<u32>
        ensures { result ≡ most_served self }
    {
        match self {
            Conns::Number(count) => Some(count),
            Conns::Forever => None,
        }
    }
}

/// Where and how connections are served.
#[derive(Drop)]
pub struct ServeSpec {
    /// Where they come in: UTF-8 text that isn't empty and doesn't begin with `-`.
    pub addr: Vec<u8>,
    /// How many are served.
    pub conns: Conns,
    /// How many workers serve them, from 1 to 1,024.
    pub workers: u32,
    /// How many shards, from 1 to 64.
    pub shards: u32,
    /// How many members the opening rows have, from 1 to 100,000.
    pub members: u32,
    /// The path of the file from which the server takes its cache over when it starts, and to which
    /// it writes it when it ends: UTF-8 text that isn't empty and doesn't begin with `-`. `None`
    /// where it does neither, as it has to be where no number of connections ends the server.
    pub warm: Option<Vec<u8>>,
}

/// What the words ask for, and where the rows lie for it: in the file that `--db` names, or at a fresh
/// place without it. The path is UTF-8 text that isn't empty and doesn't begin with `-`.
#[derive(Drop)]
pub enum Words {
    /// To run the script on standard input.
    Replay { place: Place },
    /// To draw a load and run it.
    Work { place: Place, spec: WorkSpec },
    /// To run such a load, and then the next one over a cache that takes over what is still right.
    Warm { place: Place, spec: WorkSpec },
    /// To serve connections.
    Serve { place: Place, spec: ServeSpec },
    /// To show this text, the help or the version.
    Page { text: Vec<u8> },
}

/// Why words were not read.
#[derive(Clone, Copy)]
pub enum WordsFault {
    /// They are no command's, or say something out of its range.
    Usage,
    /// Memory ran out.
    Memory,
}

impl From<AllocError> for WordsFault {
    ghost use Rattle.run_words.specs.declared.words.WordsFault.TheVariants.{Memory};

    ghost from_gives = { λ _ fault. fault ≡ Memory };

    fn from(_error: AllocError) -> WordsFault {
        WordsFault::Memory
    }
}

impl<T: Drop> From<AllocFailed<T>> for WordsFault {
    ghost use Rattle.run_words.specs.declared.words.WordsFault.TheVariants.{Memory};

    ghost from_gives = { λ _ fault. fault ≡ Memory };

    fn from(_error: AllocFailed<T>) -> WordsFault {
        WordsFault::Memory
    }
}
