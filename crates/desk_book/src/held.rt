// The grants that a book holds, each with what came along with it.
ghost use Rattle.std.specs.Prelude.{◌≡◌, ◌↔◌, Some, IsTrue, IfOk, position};
ghost use Rattle.std.specs.List.{Any, list_any};
ghost use Rattle.rows_model.specs.Delta.{delta_of};
ghost use Rattle.key_shard.specs.Permit.{same_permit};
ghost use Rattle.session_client.specs.Wants.{new_value};
ghost use Rattle.desk_book.specs.Books.{Held, raised, all_raised, all_but};

use key_shard::Grant;
use lease_table::Mode;
use rows_model::{Memory, QKey, Sid, Txn, Value, delta_of, refresh};
use std::alloc::Global;
use std::marker::Model;

/// What a grant says, written down before the grant is handed over.
#[derive(Clone, Copy)]
pub struct Ticket {
    shard: u32,
    key: QKey,
    sid: Sid,
    mode: Mode,
    token: u64,
}

impl Model for Ticket {
    ghost use Rattle.key_shard.specs.Permit.{Permit};

    ghost Value = { Permit };

    ghost view = { λ t. record { shard = t.shard; key = t.key; sid = t.sid; mode = t.mode; token = t.token } };

    ghost inverse = { λ p. record { shard = p.shard; key = p.key; sid = p.sid; mode = p.mode; token = p.token } };
}

impl Ticket {
    /// What the grant says. It takes no memory.
    pub fn of(grant: &Grant) -> Ticket
        ensures { result ≡ grant.now }
    {
        Ticket {
            shard: grant.shard(),
            key: grant.key(),
            sid: grant.sid(),
            mode: grant.mode(),
            token: grant.token(),
        }
    }

    /// Whether the two say the same.
    pub(crate) fn is_same(&self, other: &Ticket) -> bool
        ensures { result ≡ same_permit self.now other.now }
    {
        self.shard == other.shard
            && self.key == other.key
            && self.sid.number == other.sid.number
            && self.mode.place() == other.mode.place()
            && self.token == other.token
    }

    /// Whether the two say the same, as equal values.
    pub(crate) fn is_equal(&self, other: &Ticket) -> bool
        ensures { IsTrue result ↔ (self.now ≡ other.now) }
    {
        self.shard == other.shard
            && self.key == other.key
            && self.sid == other.sid
            && self.mode == other.mode
            && self.token == other.token
    }

    /// What the grant says once its quarantine is raised.
    pub(crate) fn raised(&self) -> Ticket
        ensures { result ≡ raised self.now }
    {
        Ticket {
            shard: self.shard,
            key: self.key,
            sid: self.sid,
            mode: Mode::Refresh,
            token: self.token,
        }
    }
}

/// A grant that the session holds, the old value that came along with it, with its stamp, and by how
/// much it is to shift the key's value.
#[derive(Drop)]
pub struct HeldGrant {
    ticket: Ticket,
    old: Option<(Value, u64)>,
    by: i32,
}

impl Model for HeldGrant {
    ghost use Rattle.desk_book.specs.Books.{Held};

    ghost Value = { Held };

    ghost view = { λ h. record { permit = h.ticket; old = h.old; by = h.by } };
}

impl HeldGrant {
    pub(crate) fn new(ticket: Ticket, old: Option<(Value, u64)>, by: i32) -> HeldGrant
        ensures { result ≡ record { permit = ticket; old = old; by = by } }
    {
        HeldGrant { ticket, old, by }
    }

    /// What the grant says.
    pub(crate) fn ticket(&self) -> &Ticket
        ensures { result.now ≡ self.now.permit }
    {
        &self.ticket
    }

    /// Whether the grant says this and is to shift the value by what the transaction adds to it.
    fn is_to_shift(&self, ticket: &Ticket, txn: &Txn) -> bool
        ensures { IsTrue result ↔ ((self.now.permit ≡ ticket.now)
            × (self.now.by ≡ delta_of ticket.now.key txn.now)) }
    {
        self.ticket.is_equal(ticket) && self.by == delta_of(&ticket.key, txn)
    }

    /// Whether the grant says this and has an old value that the transaction refreshes to this one.
    fn is_to_put(
        &self,
        alloc: Global,
        ticket: &Ticket,
        txn: &Txn,
        value: &Value,
    ) -> Result<bool, Memory>
        ensures { IfOk result (λ is. IsTrue is ↔ ((self.now.permit ≡ ticket.now)
            × (new_value ticket.now.key txn.now self.now.old ≡ Some value.now))) }
    {
        if !self.ticket.is_equal(ticket) {
            return Ok(false);
        }
        self.refreshes_to(alloc, txn, value)
    }

    /// Whether the transaction refreshes the old value to this one.
    fn refreshes_to(&self, alloc: Global, txn: &Txn, value: &Value) -> Result<bool, Memory>
        ensures { IfOk result (λ is. IsTrue is
            ↔ (new_value self.now.permit.key txn.now self.now.old ≡ Some value.now)) }
    {
        let Some((old, _)) = &self.old else {
            return Ok(false);
        };
        let made = refresh(alloc, &self.ticket.key, old, txn)?;
        Ok(match &made {
            Some(new) => new.bytes() == value.bytes(),
            None => false,
        })
    }
}

/// The place of the first grant that says this, from 0.
fn place_of(held: &[HeldGrant], ticket: &Ticket) -> Option<usize>
    ensures { result ≡ position (λ (one : Held). same_permit one.permit ticket.now) held.now }
{
    held.iter().position(|one| one.ticket.is_same(ticket))
}

/// The place of the first grant that says this once its quarantine is raised, from 0.
fn place_raised(held: &[HeldGrant], ticket: &Ticket) -> Option<usize>
    ensures { result ≡ position (λ (one : Held). same_permit (raised one.permit) ticket.now) held.now }
{
    held.iter()
        .position(|one| one.ticket.raised().is_same(ticket))
}

/// Takes out the first grant that says this.
#[tactic(auto, using(crate::proofs::HeldLemmas::spent_first, crate::proofs::HeldLemmas::spent_none))]
pub(crate) fn spend_first(held: &mut Vec<HeldGrant>, ticket: &Ticket)
    ensures { held.new.items ≡ all_but ticket.now held.old.items }
{
    if let Some(place) = place_of(held.as_slice(), ticket) {
        held.remove(place);
    }
}

/// Whether one of the grants says this, as a test.
pub(crate) fn has(held: &[HeldGrant], ticket: &Ticket) -> bool
    ensures { result ≡ list_any (λ (one : Held). same_permit one.permit ticket.now) held.now }
{
    held.iter().any(|one| one.ticket.is_same(ticket))
}

/// The first grant that was raised to this one says this now, and this old value came along.
#[tactic(auto, using(crate::proofs::HeldLemmas::raised_first, crate::proofs::HeldLemmas::raised_none))]
pub(crate) fn raise_first(held: &mut [HeldGrant], ticket: Ticket, old: Option<(Value, u64)>)
    ensures { held.new ≡ all_raised ticket old held.old }
{
    if let Some(place) = place_raised(held, &ticket) {
        held[place] = HeldGrant::new(ticket, old, 0);
    }
}

/// Whether one of the grants says this and is to shift the value by what the transaction adds to it.
pub(crate) fn holds_shift(held: &[HeldGrant], ticket: &Ticket, txn: &Txn) -> bool
    ensures { IsTrue result ↔ Any (λ (one : Held). (one.permit ≡ ticket.now)
        × (one.by ≡ delta_of ticket.now.key txn.now)) held.now }
{
    match held {
        [] => false,
        [one, rest @ ..] => one.is_to_shift(ticket, txn) || holds_shift(rest, ticket, txn),
    }
}

/// Whether one of the grants says this and has an old value that the transaction refreshes to this one.
pub(crate) fn holds_old(
    alloc: Global,
    held: &[HeldGrant],
    ticket: &Ticket,
    txn: &Txn,
    value: &Value,
) -> Result<bool, Memory>
    ensures { IfOk result (λ is. IsTrue is ↔ Any (λ (one : Held). (one.permit ≡ ticket.now)
        × (new_value ticket.now.key txn.now one.old ≡ Some value.now)) held.now) }
{
    match held {
        [] => Ok(false),
        [one, rest @ ..] => {
            if one.is_to_put(alloc, ticket, txn, value)? {
                return Ok(true);
            }
            holds_old(alloc, rest, ticket, txn, value)
        }
    }
}
