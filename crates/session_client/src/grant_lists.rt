ghost use Rattle.std.specs.Prelude.{◌≡◌, ◌<◌, ◌≤◌, [], ◌∷◌, ◌++◌, length, ◌↔◌, IfOk, IsTrue, Some, slice_get};
ghost use Rattle.std.specs.List.{insert, remove};

use key_shard::Grant;
use rows_model::Memory;
use std::alloc::Global;
use std::marker::Model;
use std::mem;

/// The grants of a session, in the order in which they were given. There is room for so many, taken
/// when the list is made.
pub struct Grants {
    items: Vec<Grant>,
    room: u32,
}

impl Model for Grants {
    ghost use Rattle.std.specs.Prelude.{◌≤◌, length, vec_capacity};
    ghost use Rattle.session_client.specs.Grants.{GrantsView};

    ghost Value = { GrantsView };

    ghost view = { λ g. record { items = g.items.items; room = g.room } };

    ghost invariant = { λ g. (length g.items.items ≤ g.room) × (g.room ≤ vec_capacity g.items) };
}

impl Grants {
    /// No grants yet, and room for so many.
    pub fn new(alloc: Global, room: u32) -> Result<Grants, Memory>
        ensures { IfOk result (λ grants. grants ≡ record { items = []; room = room }) }
    {
        Ok(Grants {
            items: Vec::with_capacity(alloc, room as usize)?,
            room,
        })
    }

    /// No grants, and no room for any. It takes no memory.
    pub(crate) fn none(alloc: Global) -> Grants
        ensures { result ≡ record { items = []; room = 0 } }
    {
        Grants {
            items: Vec::new(alloc),
            room: 0,
        }
    }

    /// The grants, the one that was given first in front.
    pub fn items(&self) -> &[Grant]
        ensures { result.now ≡ self.now.items }
    {
        self.items.as_slice()
    }

    /// For how many grants there is room.
    pub fn room(&self) -> u32
        ensures { result ≡ self.now.room }
    {
        self.room
    }

    /// How many grants there are.
    pub fn len(&self) -> usize
        ensures { result ≡ length self.now.items }
    {
        self.items.len()
    }

    pub fn is_empty(&self) -> bool
        ensures { IsTrue result ↔ (self.now.items ≡ []) }
    {
        self.items.is_empty()
    }

    /// Puts a grant last. It takes no memory.
    pub fn add(&mut self, grant: Grant)
        requires { length self.old.items < self.old.room }
        ensures items { self.new.items ≡ self.old.items ++ grant ∷ [] }
        ensures room { self.new.room ≡ self.old.room }
    {
        self.items.push_reserved(grant);
    }

    /// Takes out the grant at this place, from 0. The others keep their order, and there is room to put
    /// it back. It takes no memory.
    pub fn take(&mut self, place: usize) -> Grant
        requires { place < length self.old.items }
        ensures grant { slice_get self.old.items place ≡ Some result }
        ensures items { self.new.items ≡ remove self.old.items place }
        ensures room { self.new.room ≡ self.old.room }
        ensures vacant { length self.new.items < self.new.room }
    {
        self.items.remove(place)
    }

    /// Puts a grant in at this place, from 0, in front of the one that stood there. The others keep
    /// their order. It takes no memory.
    pub fn put_back(&mut self, place: usize, grant: Grant)
        requires room { length self.old.items < self.old.room }
        requires place { place ≤ length self.old.items }
        ensures items { self.new.items ≡ insert self.old.items place grant }
        ensures room { self.new.room ≡ self.old.room }
    {
        if let Err(failed) = self.items.insert(place, grant) {
            failed.value.let_go();
        }
    }

    /// Hands all the grants out, with their room: none are left, and no room for any. It takes no memory.
    pub fn lend(&mut self) -> Grants
        ensures grants { result ≡ self.old }
        ensures none { self.new ≡ record { items = []; room = 0 } }
    {
        let alloc = *self.items.allocator();
        mem::replace(self, Grants::none(alloc))
    }

    /// Lets go of all the grants. Their quarantines are not ended by that, and stand until others end
    /// them. It takes no memory.
    pub fn let_go(self) {
        let Grants { mut items, room: _ } = self;
        while let Some(grant) = items.pop() {
            grant.let_go();
        }
        items.destroy_empty();
    }
}
