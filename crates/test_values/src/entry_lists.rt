//! The entries as a plain list that is walked by key: the program of the definitions, to compare
//! the cache with.
ghost use Rattle.std.specs.Prelude.{◌≡◌, ◌≤◌, position};
ghost use Rattle.rows_model.specs.Key.{same_key};

use rows_model::{Memory, QKey, Value};
use std::alloc::Global;
use std::mem;

#[derive(Drop)]
struct Entry {
    key: QKey,
    value: Value,
    stamp: u64,
}

#[derive(Drop)]
pub struct ListTable {
    room: u32,

    /// The most recent stands last.
    entries: Vec<Entry>,
    ghost roomy: { 1 ≤ room },
}

fn place(entries: &[Entry], key: &QKey) -> Option<usize>
    ensures { result ≡ position (λ e. same_key e.key key.now) entries.now }
{
    entries.iter().position(|entry| entry.key == *key)
}

impl ListTable {
    pub fn new(alloc: Global, room: u32) -> Result<ListTable, Memory>
        requires { 1 ≤ room }
    {
        Ok(ListTable {
            room,
            entries: Vec::with_capacity(alloc, 1)?,
        })
    }

    pub fn peek(&self, key: &QKey) -> Option<(&Value, u64)> {
        let entry = &self.entries[place(&self.entries, key)?];
        Some((&entry.value, entry.stamp))
    }

    pub fn find(&mut self, key: &QKey) -> Option<(&Value, u64)> {
        let place = place(&self.entries, key)?;
        let entry = self.entries.remove(place);
        self.entries.push_reserved(entry);
        self.peek(key)
    }

    pub fn put(
        &mut self,
        key: QKey,
        value: Value,
        stamp: u64,
    ) -> Result<Option<(QKey, Value, u64)>, Value> {
        let entry = Entry { key, value, stamp };
        if let Some(place) = place(&self.entries, &key) {
            let _ = self.entries.remove(place);
            self.entries.push_reserved(entry);
            return Ok(None);
        }
        if self.entries.len() == self.room as usize {
            let last = self.entries.remove(0);
            self.entries.push_reserved(entry);
            return Ok(Some((last.key, last.value, last.stamp)));
        }
        if let Err(failed) = self.entries.push(entry) {
            return Err(failed.value.value);
        }
        Ok(None)
    }

    pub fn reput(&mut self, key: &QKey, value: Value, stamp: u64) -> Option<Value> {
        let place = place(&self.entries, key)?;
        let entry = &mut self.entries[place];
        entry.stamp = stamp;
        Some(mem::replace(&mut entry.value, value))
    }

    pub fn drop_key(&mut self, key: &QKey) -> bool {
        let Some(place) = place(&self.entries, key) else {
            return false;
        };
        let _ = self.entries.remove(place);
        true
    }
}
