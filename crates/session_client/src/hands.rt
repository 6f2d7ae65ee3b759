ghost use Rattle.std.specs.Prelude.{◌≡◌, ◌↔◌, ◌<◌, ◌≤◌, ◌+◌, List, [], ◌∷◌, ◌++◌, Option, Some, ℕ, length, drop, set, slice_get, IsTrue, IfOk, OnErr, OnOk};
ghost use Rattle.std.specs.List.{Any, insert, remove};
ghost use Rattle.std.specs.Option.{option_map};
ghost use Rattle.key_shard.specs.Permit.{Permit};
ghost use Rattle.session_client.specs.Belongs.{AreBack};
ghost use Rattle.session_client.specs.Writers.{HandView, all_renewed, renewed};

use crate::grant_lists::Grants;
use crate::notes::{Note, are_of};
use key_shard::Grant;
use lease_table::Mode;
use rows_model::{Memory, Txn, Value, refresh};
use std::alloc::Global;
use std::marker::Model;
use std::mem;

/// What a writer was given: notes of all its grants, the grants in its hands, and beside each of these
/// the value that belongs to it: the old one that came along, and after the commit the new one. There
/// is room for so many grants, taken when it is made.
pub struct Hand {
    room: u32,
    notes: Vec<Note>,
    grants: Grants,
    values: Vec<Option<Value>>,
}

impl Model for Hand {
    ghost use Rattle.std.specs.Prelude.{◌≤◌, length, vec_capacity};
    ghost use Rattle.session_client.specs.Writers.{HandView};

    ghost Value = { HandView };

    ghost view = { λ h. record { room = h.room; given = h.notes.items; grants = h.grants; values = h.values.items } };

    ghost invariant = { λ h. (h.room ≤ vec_capacity h.notes) × (h.room ≤ vec_capacity h.values) };
}

impl Hand {
    /// No grants yet, and room for so many.
    pub fn new(alloc: Global, room: u32) -> Result<Hand, Memory>
        ensures { IfOk result (λ hand. hand ≡ record {
          room = room;
          given = [];
          grants = record { items = []; room = room };
          values = [];
        }) }
    {
        Ok(Hand {
            room,
            notes: Vec::with_capacity(alloc, room as usize)?,
            values: Vec::with_capacity(alloc, room as usize)?,
            grants: Grants::new(alloc, room)?,
        })
    }

    /// The grants in hand.
    pub fn grants(&self) -> &Grants
        ensures { result.now ≡ self.now.grants }
    {
        &self.grants
    }

    /// How many grants are in hand.
    pub fn len(&self) -> usize
        ensures { result ≡ length self.now.grants.items }
    {
        self.grants.len()
    }

    /// What the grant at this place, from 0, says.
    pub fn note(&self, place: usize) -> &Note
        requires { place < length self.now.given }
        ensures { slice_get self.now.given place ≡ Some result.now }
    {
        &self.notes[place]
    }

    /// The place behind this one.
    pub fn behind(&self, place: usize) -> usize
        requires { place < length self.now.given }
        ensures { result ≡ place + 1 }
    {
        let count = self.notes.len();
        if place < count { place + 1 } else { count }
    }

    /// Puts a grant last, and beside it the old value that came along.
    pub fn add(&mut self, grant: Grant, old: Option<(Value, u64)>)
        requires given { length self.old.given < self.old.room }
        requires grants { length self.old.grants.items < self.old.grants.room }
        requires values { length self.old.values < self.old.room }
        ensures { self.new ≡ record {
          room = self.old.room;
          given = self.old.given ++ grant ∷ [];
          grants = record { items = self.old.grants.items ++ grant ∷ []; room = self.old.grants.room };
          values = self.old.values ++ option_map (λ (o : List ℕ × ℕ). o.0) old ∷ [];
        } }
    {
        self.notes.push_reserved(Note::of(&grant));
        self.grants.add(grant);
        self.values.push_reserved(old.map(|(value, _)| value));
    }

    /// Hands all the grants out.
    pub fn lend(&mut self, alloc: Global) -> Grants
        ensures grants { result ≡ self.old.grants }
        ensures hand { self.new ≡ record {
          room = self.old.room;
          given = self.old.given;
          grants = record { items = []; room = 0 };
          values = self.old.values;
        } }
    {
        mem::replace(&mut self.grants, Grants::none(alloc))
    }

    /// Whether these are the grants that were given, in their order, with no less room.
    pub fn are_back(&self, grants: &Grants) -> bool
        ensures { IsTrue result ↔
            AreBack (record { items = self.now.given; room = self.now.room }) grants.now }
    {
        self.room <= grants.room() && are_of(self.notes.as_slice(), grants.items())
    }

    /// Takes in the grants that were handed out.
    pub fn take_back(&mut self, grants: Grants)
        ensures { self.new ≡ record {
          room = self.old.room;
          given = self.old.given;
          grants = grants;
          values = self.old.values;
        } }
    {
        mem::replace(&mut self.grants, grants).let_go();
    }

    /// Makes each old value beside a grant to refresh the new one, by the transaction. For want of memory
    /// some are as before.
    pub fn refresh(&mut self, alloc: Global, txn: &Txn) -> Result<(), Memory>
        requires { length self.old.values ≡ length self.old.given }
        ensures ok { OnOk result (self.new ≡ record {
          room = self.old.room;
          given = self.old.given;
          grants = self.old.grants;
          values = all_renewed txn.now self.old.given self.old.values;
        }) }
        ensures room { self.new.room ≡ self.old.room }
        ensures given { self.new.given ≡ self.old.given }
        ensures grants { self.new.grants ≡ self.old.grants }
        ensures as_many { length self.new.values ≡ length self.old.values }
        ensures memory { OnErr result (
            Any (λ (grant : Permit). grant.mode ≡ Mode.Refresh) self.old.given) }
    {
        refresh_all(
            alloc,
            txn,
            self.notes.as_slice(),
            self.values.as_mut_slice(),
        )
    }

    /// Takes out the first grant and the value beside it.
    pub fn take(&mut self) -> (Grant, Option<Value>)
        requires grant { 1 ≤ length self.old.grants.items }
        requires value { 1 ≤ length self.old.values }
        ensures grant { slice_get self.old.grants.items 0 ≡ Some result.0 }
        ensures value { slice_get self.old.values 0 ≡ Some result.1 }
        ensures hand { self.new ≡ record {
          room = self.old.room;
          given = self.old.given;
          grants = record { items = drop 1 self.old.grants.items; room = self.old.grants.room };
          values = drop 1 self.old.values;
        } }
    {
        (self.grants.take(0), self.values.remove(0))
    }

    /// Takes out the first grant, which came back and has no value beside it.
    pub fn take_alone(&mut self) -> Grant
        requires grant { 1 ≤ length self.old.grants.items }
        ensures grant { slice_get self.old.grants.items 0 ≡ Some result }
        ensures hand { self.new ≡ record {
          room = self.old.room;
          given = self.old.given;
          grants = record { items = drop 1 self.old.grants.items; room = self.old.grants.room };
          values = self.old.values;
        } }
    {
        self.grants.take(0)
    }

    /// Puts a grant that came back in front.
    pub fn put_back(&mut self, grant: Grant)
        requires { length self.old.grants.items < self.old.grants.room }
        ensures { self.new ≡ record {
          room = self.old.room;
          given = self.old.given;
          grants = record { items = grant ∷ self.old.grants.items; room = self.old.grants.room };
          values = self.old.values;
        } }
    {
        self.grants.put_back(0, grant);
    }

    /// Takes out the grant at this place.
    pub fn take_at(&mut self, place: usize) -> Grant
        requires { place < length self.old.grants.items }
        ensures grant { slice_get self.old.grants.items place ≡ Some result }
        ensures hand { self.new ≡ record {
          room = self.old.room;
          given = self.old.given;
          grants = record {
            items = remove self.old.grants.items place;
            room = self.old.grants.room;
          };
          values = self.old.values;
        } }
    {
        self.grants.take(place)
    }

    /// Puts a grant back in at this place.
    pub fn put_at(&mut self, place: usize, grant: Grant)
        requires room { length self.old.grants.items < self.old.grants.room }
        requires place { place ≤ length self.old.grants.items }
        ensures { self.new ≡ record {
          room = self.old.room;
          given = self.old.given;
          grants = record {
            items = insert self.old.grants.items place grant;
            room = self.old.grants.room;
          };
          values = self.old.values;
        } }
    {
        self.grants.put_back(place, grant);
    }

    /// Puts a grant that was raised back in at this place, and beside it the old value that came along.
    pub fn put_raised(&mut self, place: usize, grant: Grant, old: Option<(Value, u64)>)
        requires room { length self.old.grants.items < self.old.grants.room }
        requires place { place ≤ length self.old.grants.items }
        requires given { place < length self.old.given }
        requires values { place < length self.old.values }
        ensures { self.new ≡ record {
          room = self.old.room;
          given = set self.old.given place grant;
          grants = record {
            items = insert self.old.grants.items place grant;
            room = self.old.grants.room;
          };
          values = set self.old.values place (option_map (λ (o : List ℕ × ℕ). o.0) old);
        } }
    {
        self.notes[place] = Note::of(&grant);
        self.grants.put_back(place, grant);
        self.values[place] = old.map(|(value, _)| value);
    }

    /// Forgets the grant at this place, which is spent, and the value beside it.
    pub fn forget(&mut self, place: usize)
        requires given { place < length self.old.given }
        requires values { place < length self.old.values }
        ensures { self.new ≡ record {
          room = self.old.room;
          given = remove self.old.given place;
          grants = self.old.grants;
          values = remove self.old.values place;
        } }
    {
        self.notes.remove(place);
        self.values.remove(place);
    }

    /// Lets go of the grants. Their quarantines are not ended by that, and stand until others end them.
    pub fn let_go(self) {
        let Hand {
            room: _,
            notes: _,
            grants,
            values: _,
        } = self;
        grants.let_go();
    }
}

ghost use Rattle.lease_table.specs.declared.records.Mode.TheVariants as Mode;

/// Makes the old value beside a grant the new one, if the grant is to refresh.
fn refresh_one(
    alloc: Global,
    txn: &Txn,
    note: &Note,
    value: &mut Option<Value>,
) -> Result<(), Memory>
    ensures ok { OnOk result (value.new ≡ renewed txn.now note.now value.old) }
    ensures memory { OnErr result (note.now.mode ≡ Mode.Refresh) }
{
    if note.mode() == Mode::Refresh {
        if let Some(old) = value {
            *value = refresh(alloc, &note.key(), old, txn)?;
        }
    }
    Ok(())
}

/// Makes the old value beside each grant to refresh the new one.
fn refresh_all(
    alloc: Global,
    txn: &Txn,
    notes: &[Note],
    values: &mut [Option<Value>],
) -> Result<(), Memory>
    requires { length values.old ≡ length notes.now }
    ensures ok { OnOk result (values.new ≡ all_renewed txn.now notes.now values.old) }
    ensures as_many { length values.new ≡ length values.old }
    ensures memory { OnErr result (Any (λ (grant : Permit). grant.mode ≡ Mode.Refresh) notes.now) }
{
    for i in 0..notes.len() {
        refresh_one(alloc, txn, &notes[i], &mut values[i])?;
    }
    Ok(())
}
