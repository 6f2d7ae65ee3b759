ghost use Rattle.std.specs.Prelude.{◌≡◌, ◌↔◌, IsTrue};

use key_shard::Grant;
use lease_table::Mode;
use rows_model::{QKey, Sid};
use std::marker::Model;

/// What a grant says, kept while the grant is lent.
#[derive(Clone, Copy)]
pub struct Note {
    shard: u32,
    key: QKey,
    sid: Sid,
    mode: Mode,
    token: u64,
}

impl Model for Note {
    ghost use Rattle.key_shard.specs.Permit.{Permit};

    ghost Value = { Permit };

    ghost view = { λ n. record { shard = n.shard; key = n.key; sid = n.sid; mode = n.mode; token = n.token } };

    ghost inverse = { λ p. record { shard = p.shard; key = p.key; sid = p.sid; mode = p.mode; token = p.token } };
}

impl Note {
    ghost use Rattle.session_client.specs.Belongs.{IsRaised};

    /// What the grant says.
    pub fn of(grant: &Grant) -> Note
        ensures { result ≡ grant.now }
    {
        Note {
            shard: grant.shard(),
            key: grant.key(),
            sid: grant.sid(),
            mode: grant.mode(),
            token: grant.token(),
        }
    }

    /// The key of the grant.
    pub fn key(&self) -> QKey
        ensures { result ≡ self.now.key }
    {
        self.key
    }

    /// The mode of the grant.
    pub fn mode(&self) -> Mode
        ensures { result ≡ self.now.mode }
    {
        self.mode
    }

    /// Whether the grant says this.
    pub fn is_of(&self, grant: &Grant) -> bool
        ensures { IsTrue result ↔ (grant.now ≡ self.now) }
    {
        self.shard == grant.shard()
            && self.key == grant.key()
            && self.sid == grant.sid()
            && self.mode == grant.mode()
            && self.token == grant.token()
    }

    /// Whether the grant is the one that said this, once its quarantine is raised.
    pub fn is_raised_to(&self, grant: &Grant) -> bool
        ensures { IsTrue result ↔ IsRaised self.now grant.now }
    {
        self.shard == grant.shard()
            && self.key == grant.key()
            && self.sid == grant.sid()
            && self.token == grant.token()
            && grant.mode() == Mode::Refresh
    }
}

/// Whether the grants say this, in this order.
pub fn are_of(notes: &[Note], grants: &[Grant]) -> bool
    ensures { IsTrue result ↔ (grants.now ≡ notes.now) }
{
    match (notes, grants) {
        ([], []) => true,
        ([note, notes @ ..], [grant, grants @ ..]) => note.is_of(grant) && are_of(notes, grants),
        _ => false,
    }
}
