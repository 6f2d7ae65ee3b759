ghost use Rattle.std.specs.Prelude.{◌≡◌, [], Some};
ghost use Rattle.mc_text.specs.Parsing.{with_block};
ghost use Rattle.mc_text.specs.Commands.{announced};

use rows_model::{QKey, Sid, Txn, Value};

/// What a session is begun for.
#[derive(Clone, Copy, Debug)]
pub enum Role {
    Read,
    Write,
}

/// A command, with the words behind its verb and its block in their order. A key is `None` where the
/// word may be a key, 1 to 250 bytes, and is no key of the cache.
#[derive(Drop)]
pub enum Command {
    /// Begins a session of the connection.
    Begin {
        role: Role,
    },
    /// Reads a key, with a stamp of at least the floor.
    IqGet {
        key: Option<QKey>,
        sid: Sid,
        floor: u64,
    },
    /// Asks the store for the answer to a key.
    Ask {
        key: Option<QKey>,
        sid: Sid,
    },
    /// Asks the store for the answer to a key after a transaction that isn't committed.
    Stage {
        key: Option<QKey>,
        sid: Sid,
        txn: Txn,
    },
    /// Stores an answer under a lease.
    IqSet {
        key: Option<QKey>,
        flags: u32,
        exptime: u64,
        bytes: u64,
        token: u64,
        stamp: u64,
        block: Value,
    },
    /// Quarantines a key, to drop its value.
    QaReg {
        key: Option<QKey>,
        sid: Sid,
    },
    /// Quarantines a key, to put a new value in place of the old one.
    QaRead {
        key: Option<QKey>,
        sid: Sid,
    },
    /// Quarantines a key, to add a number to a count.
    IqDelta {
        key: Option<QKey>,
        sid: Sid,
        by: i32,
    },
    /// Commits a transaction at the store.
    Sql {
        sid: Sid,
        txn: Txn,
    },
    /// Releases a quarantine, and drops the value.
    Dar {
        key: Option<QKey>,
        sid: Sid,
    },
    /// Releases a quarantine, with a new value.
    Sar {
        key: Option<QKey>,
        flags: u32,
        exptime: u64,
        bytes: u64,
        sid: Sid,
        block: Value,
    },
    /// Releases a quarantine, and adds the number of the quarantine to the count.
    IqCommit {
        key: Option<QKey>,
        sid: Sid,
    },
    /// Ends a session and releases its quarantines.
    IqAbort {
        sid: Sid,
    },
    /// Ends the connection.
    Quit,
    /// The line has no word, or its first word is no verb.
    Unknown,
}

// What the line of a command says that has a block behind it.
#[derive(Clone, Copy)]
pub enum Head {
    Set {
        key: Option<QKey>,
        flags: u32,
        exptime: u64,
        bytes: u64,
        token: u64,
        stamp: u64,
    },
    Sar {
        key: Option<QKey>,
        flags: u32,
        exptime: u64,
        bytes: u64,
        sid: Sid,
    },
}

impl Head {
    /// How many bytes the block has.
    pub(crate) fn bytes(self) -> u64
        ensures { announced (with_block self []) ≡ Some result }
    {
        match self {
            Head::Set { bytes, .. } | Head::Sar { bytes, .. } => bytes,
        }
    }

    /// The command with its block.
    pub(crate) fn with_block(self, block: Value) -> Command
        ensures { result ≡ with_block self block }
    {
        match self {
            Head::Set {
                key,
                flags,
                exptime,
                bytes,
                token,
                stamp,
            } => Command::IqSet {
                key,
                flags,
                exptime,
                bytes,
                token,
                stamp,
                block,
            },
            Head::Sar {
                key,
                flags,
                exptime,
                bytes,
                sid,
            } => Command::Sar {
                key,
                flags,
                exptime,
                bytes,
                sid,
                block,
            },
        }
    }
}
