ghost use Rattle.std.specs.Prelude.{◌≡◌, ◌≤◌, [], IfOk, vec_capacity};
ghost use Rattle.key_shard.specs.Shards.{raised_permit};

use lease_table::Mode;
use rows_model::{Memory, QKey, Sid};
use std::alloc::Global;
use std::marker::Model;

/// The proof that a shard has granted a quarantine. Only a shard makes one, none can be copied, and
/// it is spent by its release.
pub struct Grant {
    shard: u32,
    key: QKey,
    sid: Sid,
    mode: Mode,
    token: u64,
    /// In mode Delta it has room for the digits of a number, so that a release takes no memory.
    digits: Vec<u8>,
}

impl Model for Grant {
    ghost use Rattle.std.specs.Prelude.{◌≡◌, ◌≤◌, [], vec_capacity};
    ghost use Rattle.lease_table.specs.declared.records.Mode.TheVariants.{Delta};
    ghost use Rattle.key_shard.specs.Permit.{Permit};

    ghost Value = { Permit };

    ghost view = { λ g. record { shard = g.shard; key = g.key; sid = g.sid; mode = g.mode; token = g.token } };

    ghost invariant = { λ g. g.mode ≡ Delta → (g.digits.items ≡ []) × (20 ≤ vec_capacity g.digits) };
}

impl Grant {
    /// The number of the shard that granted it.
    pub fn shard(&self) -> u32
        ensures { result ≡ self.now.shard }
    {
        self.shard
    }

    pub fn key(&self) -> QKey
        ensures { result ≡ self.now.key }
    {
        self.key
    }

    /// The session that holds the quarantine.
    pub fn sid(&self) -> Sid
        ensures { result ≡ self.now.sid }
    {
        self.sid
    }

    pub fn mode(&self) -> Mode
        ensures { result ≡ self.now.mode }
    {
        self.mode
    }

    pub fn token(&self) -> u64
        ensures { result ≡ self.now.token }
    {
        self.token
    }

    /// Lets go of the grant. Its quarantine is not ended by that, and stands until others end it. It
    /// takes no memory.
    pub fn let_go(self) {
        let _ = self.spend();
    }

    /// The grant that says this.
    pub(crate) fn of(
        alloc: Global,
        shard: u32,
        key: QKey,
        sid: Sid,
        mode: Mode,
        token: u64,
    ) -> Result<Grant, Memory>
        ensures { IfOk result (λ grant. grant ≡ record
            { shard = shard; key = key; sid = sid; mode = mode; token = token }) }
    {
        let digits = match mode {
            Mode::Delta => Vec::with_capacity(alloc, DIGITS)?,
            _ => Vec::new(alloc),
        };
        Ok(Grant {
            shard,
            key,
            sid,
            mode,
            token,
            digits,
        })
    }

    /// The grant of the same quarantine, in mode Refresh.
    pub(crate) fn raised(self) -> Grant
        ensures { result ≡ raised_permit self.key self.token self }
    {
        let Grant {
            shard,
            key,
            sid,
            mode: _,
            token,
            digits,
        } = self;
        Grant {
            shard,
            key,
            sid,
            mode: Mode::Refresh,
            token,
            digits,
        }
    }

    /// Spends a grant. What is left of one of mode Delta has room for a number's digits.
    pub(crate) fn spend(self) -> Vec<u8>
        ensures { self.mode ≡ Mode.Delta → (result.items ≡ []) × (20 ≤ vec_capacity result) }
    {
        let Grant {
            shard: _,
            key: _,
            sid: _,
            mode: _,
            token: _,
            digits,
        } = self;
        digits
    }
}

/// How many digits a number below 2^64 has at most.
const DIGITS: usize = 20;
