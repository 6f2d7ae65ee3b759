ghost use Rattle.std.specs.Prelude.{◌≡◌, IfOk, position};
ghost use Rattle.rows_model.specs.Key.{same_key};
ghost use Rattle.key_shard.specs.Permit.{Permit};

use rows_model::{Memory, QKey, Sid};
use session_client::Grants;
use std::alloc::Global;
use std::marker::Model;

/// What a session may do next.
#[derive(Clone, Copy, PartialEq, Eq)]
pub enum Stage {
    /// It reads, and never writes.
    Reading,
    /// It writes, and may commit.
    Open,
    /// It was aborted, and won't commit.
    Aborted,
    /// Its transaction is the commit of this number.
    Committed { number: u64 },
}

/// The session that a connection has at present.
#[derive(Clone, Copy)]
pub struct Present {
    pub sid: Sid,
    pub stage: Stage,
}

/// How many grants a session may hold.
pub(crate) const MOST_GRANTS: usize = 64;

/// What the server knows of the client of a connection: its present session, if it has one, and the
/// grants that this session holds.
pub struct Client {
    pub(crate) present: Option<Present>,
    /// There is always room for as many as a session may hold.
    pub(crate) grants: Grants,
}

impl Model for Client {
    ghost use Rattle.std.specs.Prelude.{◌≤◌};
    ghost use Rattle.conn_server.specs.Views.{ClientView};

    ghost Value = { ClientView };

    ghost view = { λ c. record { present = c.present; grants = c.grants } };

    ghost invariant = { λ c. 64 ≤ c.grants.room };
}

impl Client {
    ghost use Rattle.conn_server.specs.Clients.{newcomer, asker, is_open, is_reading, has_committed, is_busy, is_full, is_present};
    ghost use Rattle.conn_server.specs.Requests.{stamp_of};

    /// A client that has just come: it has no session.
    pub(crate) fn new(alloc: Global) -> Result<Client, Memory>
        ensures { IfOk result (λ client. client ≡ newcomer) }
    {
        Ok(Client {
            present: None,
            grants: Grants::new(alloc, MOST_GRANTS as u32)?,
        })
    }

    /// The session that a request is made for: the present one, or number 0, which no session has.
    pub(crate) fn asker(&self) -> Sid
        ensures { result ≡ asker self.now.present }
    {
        match self.present {
            Some(present) => present.sid,
            None => Sid { number: 0 },
        }
    }

    /// Whether this is the present session.
    pub(crate) fn is_present(&self, sid: Sid) -> bool
        ensures { result ≡ is_present self.now.present sid }
    {
        match self.present {
            Some(present) => present.sid == sid,
            None => false,
        }
    }

    /// Whether the present session only reads.
    pub(crate) fn is_reading(&self) -> bool
        ensures { result ≡ is_reading self.now.present }
    {
        match self.present {
            Some(present) => present.stage == Stage::Reading,
            None => false,
        }
    }

    /// Whether the present session has committed.
    pub(crate) fn has_committed(&self) -> bool
        ensures { result ≡ has_committed self.now.present }
    {
        match self.present {
            Some(present) => matches!(present.stage, Stage::Committed { .. }),
            None => false,
        }
    }

    /// The number of the present session's commit, which is the stamp of what it puts. Before the
    /// commit it is 0.
    pub(crate) fn stamp(&self) -> u64
        ensures { result ≡ stamp_of self.now.present }
    {
        match self.present {
            Some(
                Present {
                    sid: _,
                    stage: Stage::Committed { number },
                },
            ) => number,
            Some(
                Present {
                    sid: _,
                    stage: Stage::Reading | Stage::Open | Stage::Aborted,
                },
            )
            | None => 0,
        }
    }

    /// Whether the present session may still commit.
    fn is_open(&self) -> bool
        ensures { result ≡ is_open self.now.present }
    {
        match self.present {
            Some(present) => present.stage == Stage::Open,
            None => false,
        }
    }

    /// Whether the present session is in the midst of a write: it may still commit, or holds grants.
    pub(crate) fn is_busy(&self) -> bool
        ensures { result ≡ is_busy self.now }
    {
        self.is_open() || !self.grants.is_empty()
    }

    /// The place of the grant that was given first on the key, from 0.
    pub(crate) fn place_on(&self, key: &QKey) -> Option<usize>
        ensures { result
            ≡ position (λ (grant : Permit). same_key grant.key key.now) self.now.grants.items }
    {
        self.grants
            .items()
            .iter()
            .position(|grant| grant.key() == *key)
    }

    /// Whether the present session holds as many grants as it may.
    pub(crate) fn is_full(&self) -> bool
        ensures { result ≡ is_full self.now }
    {
        self.grants.len() >= MOST_GRANTS
    }

    /// Lets go of the client and of its grants. Their quarantines are not ended by that, and stand until
    /// others end them. It takes no memory.
    pub(crate) fn let_go(self) {
        let Client { present: _, grants } = self;
        grants.let_go();
    }
}
