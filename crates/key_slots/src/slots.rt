ghost use Rattle.std.specs.Prelude.{[], ◌≡◌, ◌≤◌, ◌<◌, ◌↔◌, ◌^◌, None, IsTrue, IsSome, IsNone, IfOk, IfSome, IfNone, OnOk, OnErr, length};
ghost use Rattle.std.specs.Option.{option_copied, option_map};
ghost use Rattle.key_slots.specs.Slots.{Slots, IsSlotKey, IsSound, slot_of, key_of, taken, with_key, without_key};
ghost use Rattle.key_slots.specs.Kept.{IsKept};

use crate::names::Name;
use rows_model::Memory;
use std::alloc::Global;
use std::collections::HashMap;
use std::marker::Model;
use std::mem;

/// Which key has which slot: a key of 1 to 250 bytes has at most one, and a slot is at most one key's.
/// A slot is a number below the room. Contracts see the room, and who has each slot from 0 on, or
/// nobody. A call looks at one key or one slot. A key is found by a hash with a fixed seed.
#[derive(Drop)]
pub struct KeySlots {
    alloc: Global,
    room: u32,
    places: HashMap<Vec<u8>, u32>,
    holders: Vec<Option<Name>>,
    free: Vec<u32>,
}

impl Model for KeySlots {
    ghost use Rattle.key_slots.specs.Slots.{Slots};
    ghost use Rattle.key_slots.specs.Kept.{IsKept};

    ghost Value = { Slots };

    ghost view = { λ s. record { room = s.room; holders = s.holders.items } };

    ghost invariant = { λ s. IsKept s.room s.places.entries s.holders.items s.free.items s.free.cap };
}

impl KeySlots {
    /// No key has a slot yet. It takes no memory.
    pub fn new(alloc: Global, room: u32) -> KeySlots
        ensures { result ≡ record { room = room; holders = [] } }
    {
        KeySlots {
            alloc,
            room,
            places: HashMap::new(alloc),
            holders: Vec::new(alloc),
            free: Vec::new(alloc),
        }
    }

    /// The slot of a key, if it has one.
    pub fn slot(&self, key: &[u8]) -> Option<u32>
        ensures slot { result ≡ slot_of self.now key.now }
        ensures sound { IsSound self.now }
    {
        self.places.get(key).copied()
    }

    /// The key that has a slot, if one has it.
    pub fn key(&self, slot: u32) -> Option<&[u8]>
        ensures key { option_map (λ found. found.now) result ≡ key_of self.now slot }
        ensures fit { IfSome result (λ found. IsSlotKey found.now) }
        ensures sound { IsSound self.now }
    {
        match self.holders.get(slot as usize) {
            Some(Some(name)) => Some(name.bytes()),
            Some(None) => None,
            None => None,
        }
    }

    /// Gives a slot to a key that has none: the one that was freed last, or else the first that no key
    /// has had. There is none exactly where each slot has a key, and then nothing changes. After want
    /// of memory all is as before.
    pub fn give(&mut self, key: &[u8]) -> Result<Option<u32>, Memory>
        requires fit { IsSlotKey key.now }
        requires none { slot_of self.old key.now ≡ None }
        // The slot was nobody's, and is the key's.
        ensures free { IfOk result (λ given. IfSome given (λ slot. key_of self.old slot ≡ None)) }
        ensures next { IfOk result (λ given. IfSome given (λ slot. slot ≤ length self.old.holders)) }
        ensures within { IfOk result (λ given. IfSome given (λ slot. slot < self.old.room)) }
        ensures given { IfOk result (λ given. IfSome given
            (λ slot. self.new ≡ with_key self.old slot key.now)) }

        ensures full { IfOk result (λ given. IsNone given ↔ (taken self.old ≡ self.old.room)) }
        ensures refused { IfOk result (λ given. IfNone given (self.new ≡ self.old)) }
        ensures err { OnErr result (self.new ≡ self.old) }
        ensures sound { IsSound self.new }
    {
        if self.free.len() == 0 && self.holders.len() == self.room as usize {
            return Ok(None);
        }
        let own = Vec::from_slice(self.alloc, key)?;
        let name = Name::of(self.alloc, key)?;
        if self.free.len() == 0 {
            self.give_next(own, name)
        } else {
            self.give_freed(own, name)
        }
    }

    // Gives a slot that was freed. After want of memory all is as before.
    fn give_freed(&mut self, own: Vec<u8>, name: Name) -> Result<Option<u32>, Memory>
        requires same { own.items ≡ name }
        requires fit { IsSlotKey name }
        requires none { slot_of self.old name ≡ None }
        requires some { taken self.old < length self.old.holders }
        ensures free { IfOk result (λ given. IfSome given (λ slot. key_of self.old slot ≡ None)) }
        ensures next { IfOk result (λ given. IfSome given (λ slot. slot < length self.old.holders)) }
        ensures given { IfOk result (λ given. IfSome given
            (λ slot. self.new ≡ with_key self.old slot name)) }
        ensures some { IfOk result (λ given. IsSome given) }
        ensures err { OnErr result (self.new ≡ self.old) }
        ensures sound { IsSound self.new }
    {
        let slot = *self.free.last().unwrap();
        self.places.insert(own, slot)?;
        self.free.pop();
        self.holders[slot as usize] = Some(name);
        Ok(Some(slot))
    }

    // Gives the first slot that no key has had. After want of memory all is as before.
    fn give_next(&mut self, own: Vec<u8>, name: Name) -> Result<Option<u32>, Memory>
        requires same { own.items ≡ name }
        requires fit { IsSlotKey name }
        requires none { slot_of self.old name ≡ None }
        requires all { taken self.old ≡ length self.old.holders }
        requires room { length self.old.holders < self.old.room }
        ensures given { IfOk result (λ given. given ≡ Some (length self.old.holders)) }
        ensures holds { OnOk result (self.new ≡ with_key self.old (length self.old.holders) name) }
        ensures err { OnErr result (self.new ≡ self.old) }
        ensures sound { IsSound self.new }
    {
        let next = self.holders.len();
        self.holders.reserve(1)?;
        self.free.reserve(next + 1)?;
        self.places.insert(own, next as u32)?;
        self.holders.push_reserved(Some(name));
        Ok(Some(next as u32))
    }

    /// Frees a slot, and tells whether a key had it. It takes no memory.
    pub fn free(&mut self, slot: u32) -> bool
        ensures had { IsTrue result ↔ IsSome (key_of self.old slot) }
        ensures freed { self.new ≡ without_key self.old slot }
        ensures sound { IsSound self.new }
    {
        let place = slot as usize;
        if place >= self.holders.len() {
            return false;
        }
        match mem::replace(&mut self.holders[place], None) {
            Some(name) => {
                self.places.remove(name.bytes());
                self.free.push_reserved(slot);
                true
            }
            None => false,
        }
    }
}
