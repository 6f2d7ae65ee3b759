ghost use Rattle.std.specs.Prelude.{◌≡◌, ◌≤◌, ◌↔◌, ◌∷◌, ◌++◌, [], length, IsTrue, IfOk, IfErr, OnErr, IsSome, IsNone, IsOk, option_map};
ghost use Rattle.std.specs.Option.{option_to_list};
ghost use Rattle.entry_table.specs.Kept.{dropped_for};

use lru::LruCache;
use rows_model::{Memory, QKey, Value};
use std::alloc::Global;
use std::marker::Model;
use std::mem;
use std::num::NonZeroUsize;

#[derive(Drop)]
struct Held {
    value: Value,
    stamp: u64,
}

/// Values by key, each with its stamp, in order of recency, and no more of them than there is room
/// for. Contracts see that room, and the list of (key, bytes of the value, stamp), most recent
/// first. A call looks at one key, which it finds by a hash with a fixed seed.
#[derive(Drop)]
pub struct Entries {
    cache: LruCache<QKey, Held>,
}

impl Model for Entries {
    ghost use Rattle.entry_table.specs.Entries.{Table, IsSound};
    ghost use Rattle.entry_table.specs.Kept.{shown_table};

    ghost Value = { Table };

    ghost view = { λ t. shown_table t.cache };

    ghost invariant = { λ t. IsSound (shown_table t.cache) };
}

// What a full cache dropped for a key, of what `push` answers: that may be the key's own entry too.
fn dropped_for(key: &QKey, pushed: Option<(QKey, Held)>) -> Option<(QKey, Value, u64)>
    ensures { result ≡ dropped_for key.now pushed }
{
    let (dropped, held) = pushed?;
    if dropped == *key {
        return None;
    }
    Some((dropped, held.value, held.stamp))
}

impl Entries {
    ghost use Rattle.entry_table.specs.Entries.{Table, IsSound, lookup, without, replaced, promoted};

    /// An empty table with room for that many entries. It takes memory for none of them yet.
    pub fn new(alloc: Global, room: u32) -> Result<Entries, Memory>
        requires { 1 ≤ room }
        ensures { IfOk result (λ table. table ≡ record { room = room; list = [] }) }
    {
        let room = NonZeroUsize::new(room as usize).unwrap();
        Ok(Entries {
            cache: LruCache::sparse(alloc, room)?,
        })
    }

    /// The value and the stamp of the key's entry, which keeps its place.
    pub fn peek(&self, key: &QKey) -> Option<(&Value, u64)>
        ensures value { option_map (λ found. (found.0.now, found.1)) result ≡ lookup key.now self.now.list }
        ensures sound { IsSound self.now }
    {
        let held = self.cache.peek(key)?;
        Some((&held.value, held.stamp))
    }

    /// Brings the key's entry to the front. Where the key has none, nothing changes. It takes no memory.
    pub fn promote(&mut self, key: &QKey)
        ensures promotes { self.new ≡ promoted key.now self.old }
        ensures sound { IsSound self.new }
    {
        if !self.is_first(key) {
            self.cache.promote(key);
        }
    }

    // Whether the first entry is the key's, which then needs no look by its hash.
    fn is_first(&self, key: &QKey) -> bool
        ensures in_front { IsTrue result → promoted key.now self.now ≡ self.now }
        ensures sound { IsSound self.now }
    {
        match self.cache.peek_mru() {
            Some((first, _)) => first == key,
            None => false,
        }
    }

    /// A copy of the list of entries, each as key, value and stamp, most recent first. It takes
    /// memory for that copy alone; where it is refused, `Memory` comes. The table stays as it is.
    pub fn list(&self) -> Result<Vec<(QKey, Value, u64)>, Memory>
        ensures { IfOk result (λ copy. copy.items ≡ self.now.list) }
    {
        let mut copy = Vec::with_capacity(*self.cache.allocator(), self.cache.len())?;
        for (key, held) in self.cache.iter() {
            copy.push((*key, held.value.copy()?, held.stamp))?;
        }
        Ok(copy)
    }

    /// Puts an entry in front. It takes the place of the key's own, which wants no memory; a new key in
    /// a full table drops the last entry, which is returned. A new key may want memory, also in a full
    /// table. Where that is refused, the value comes back and nothing changes.
    pub fn put(
        &mut self,
        key: QKey,
        value: Value,
        stamp: u64,
    ) -> Result<Option<(QKey, Value, u64)>, Value>
        // What is dropped was the last, so that it stands behind what is kept.
        ensures list { IfOk result (λ dropped. self.new.list ++ option_to_list dropped
            ≡ (key, value, stamp) ∷ without key self.old.list) }
        ensures drops { IfOk result (λ dropped. IsSome dropped
            ↔ (IsNone (lookup key self.old.list) × (length self.old.list ≡ self.old.room))) }

        // No memory is wanted for a key that is there.
        ensures there { IsSome (lookup key self.old.list) → IsOk result }
        ensures returned { IfErr result (λ back. back ≡ value) }
        ensures err { OnErr result (self.new ≡ self.old) }

        ensures room { self.new.room ≡ self.old.room }
        ensures sound { IsSound self.new }
    {
        match self.cache.push(key, Held { value, stamp }) {
            Ok(pushed) => Ok(dropped_for(&key, pushed)),
            Err(failed) => Err(failed.value.1.value),
        }
    }

    /// Gives the key's entry another value and stamp, in its place, and returns the value that it
    /// had. Where the key has none, nothing changes and the value is let go. It takes no memory.
    pub fn reput(&mut self, key: &QKey, value: Value, stamp: u64) -> Option<Value>
        ensures list { self.new.list ≡ replaced key.now value stamp self.old.list }
        ensures had { result ≡ option_map (λ found. found.0) (lookup key.now self.old.list) }
        ensures room { self.new.room ≡ self.old.room }
        ensures sound { IsSound self.new }
    {
        let held = self.cache.peek_mut(key)?;
        let had = mem::replace(held, Held { value, stamp });
        Some(had.value)
    }

    /// Drops the key's entry, and says whether there was one. It takes no memory.
    pub fn drop_key(&mut self, key: &QKey) -> bool
        ensures list { self.new.list ≡ without key.now self.old.list }
        ensures had { IsTrue result ↔ IsSome (lookup key.now self.old.list) }
        ensures room { self.new.room ≡ self.old.room }
        ensures sound { IsSound self.new }
    {
        self.cache.pop(key).is_some()
    }
}
