ghost use Rattle.std.specs.Prelude.{◌≡◌, ◌<◌, [], ◌∷◌, ◌++◌, List, not, map, filter, IsTrue, OnOk, OnErr};
ghost use Rattle.std.specs.List.{All, list_any};
ghost use Rattle.key_shard.specs.Kept.{permit_of, raised_out};
ghost use Rattle.key_shard.specs.Permit.{same_permit};

use crate::grants::Grant;
use lease_table::Mode;
use rows_model::{Memory, QKey, Sid};
use std::alloc::Global;
use std::collections::BTreeMap;
use std::marker::Model;

/// A grant that is out.
#[derive(Clone, Copy)]
pub struct Out {
    pub key: QKey,
    pub sid: Sid,
    pub mode: Mode,
    pub token: u64,
}

/// The grants that are out, each at its token. Contracts see their list, in order of token.
#[derive(Drop)]
pub struct Outs {
    by_token: BTreeMap<u64, Out>,
}

impl Model for Outs {
    ghost use Rattle.std.specs.Prelude.{List};
    ghost use Rattle.std.specs.BTreeMap.{values};
    ghost use Rattle.key_shard.specs.declared.outs.Out.{Out};
    ghost use Rattle.key_shard.specs.Outs.{AreByToken};

    ghost Value = { List Out };

    ghost view = { λ outs. values outs.by_token };

    ghost invariant = { λ outs. AreByToken outs.by_token };
}

/// Whether this grant of a shard is out at it.
fn is_grant(out: &Out, no: u32, grant: &Grant) -> bool
    ensures { result ≡ same_permit grant.now (permit_of no out.now) }
{
    grant.shard() == no
        && grant.key() == out.key
        && grant.sid().number == out.sid.number
        && grant.mode().place() == out.mode.place()
        && grant.token() == out.token
}

impl Outs {
    /// No grants.
    pub fn new(alloc: Global) -> Outs
        ensures { result ≡ [] }
    {
        Outs {
            by_token: BTreeMap::new(alloc),
        }
    }

    /// Whether this grant of a shard is among them.
    pub fn has(&self, no: u32, grant: &Grant) -> bool
        ensures { result ≡ list_any (λ out. same_permit grant.now (permit_of no out)) self.now }
    {
        match self.by_token.get(&grant.token()) {
            Some(out) => is_grant(out, no, grant),
            None => false,
        }
    }

    /// Adds a grant whose token is above those of all others.
    pub fn add(&mut self, out: Out) -> Result<(), Memory>
        requires { All (λ other. other.token < out.token) self.old }
        ensures ok { OnOk result (self.new ≡ self.old ++ out ∷ []) }
        ensures err { OnErr result (self.new ≡ self.old) }
    {
        self.by_token.insert(out.token, out)?;
        Ok(())
    }

    /// Takes out the grant that was added last. It takes no memory.
    pub fn drop_last(&mut self)
        ensures { (others : List Out) (last : Out) →
            self.old ≡ others ++ last ∷ [] → self.new ≡ others }
    {
        let _ = self.by_token.pop_last();
    }

    /// Makes a grant of a shard that is among them one of mode Refresh. It takes no memory.
    pub fn raise(&mut self, no: u32, grant: &Grant)
        requires { IsTrue (list_any (λ out. same_permit grant.now (permit_of no out)) self.old) }
        ensures { self.new ≡ map (raised_out grant.now.key grant.now.token) self.old }
    {
        let out = self.by_token.get_mut(&grant.token()).unwrap();
        out.mode = Mode::Refresh;
    }

    /// Takes out a grant of a shard that is among them. It takes no memory.
    pub fn take(&mut self, no: u32, grant: &Grant)
        requires { IsTrue (list_any (λ out. same_permit grant.now (permit_of no out)) self.old) }
        ensures { self.new
            ≡ filter (λ out. not (same_permit grant.now (permit_of no out))) self.old }
    {
        self.by_token.remove(&grant.token());
    }
}
