// The entries by a hash of their keys, with a running sum of their bytes.
ghost use Rattle.std.specs.Prelude.{[], ◌++◌, ◌≡◌, ◌≤◌, ◌+◌, ◌-◌, ◌^◌, true, false, length, nat_le, nat_lt, ◌&&◌, OnOk, OnErr, IfOk};
ghost use Rattle.std.specs.Option.{option_copied, option_map, option_to_list, MatchOption};
ghost use Rattle.std.specs.List.Sorted.{IsPermutation};
ghost use Rattle.plain_ops.specs.declared.items.Item.{Item};
ghost use Rattle.plain_ops.specs.Entries.{item_of, item_at, without, with_item, bytes_in, is_fit, told_of, found_in};
ghost use Rattle.plain_ops.specs.Tables.{IsTable};

use crate::items::Item;
use crate::kept::Kept;
use mc_text::{Found, FoundItems, PlainKey};
use rows_model::{Memory, Value};
use std::alloc::Global;
use std::collections::HashMap;
use std::marker::Model;

// The most keys, and the most bytes of keys and values together.
const MOST_KEYS: usize = 65_536;

const MOST_BYTES: usize = 268_435_456;

// The items by their keys. Contracts see the entries.
#[derive(Drop)]
pub struct Table {
    alloc: Global,
    items: HashMap<PlainKey, Item>,
    bytes: usize,
}

impl Model for Table {
    ghost use Rattle.std.specs.Prelude.{List, ℕ};
    ghost use Rattle.plain_ops.specs.declared.items.Item.{Item};
    ghost use Rattle.plain_ops.specs.Tables.{IsTable};

    ghost Value = { List (List ℕ × Item) };

    ghost view = { λ t. t.items.entries };

    ghost invariant = { λ t. IsTable t.items.entries t.bytes };
}

impl Table {
    /// A table with no entry. It takes no memory.
    pub(crate) fn new(alloc: Global) -> Table
        ensures { result ≡ [] }
    {
        Table {
            alloc,
            items: HashMap::new(alloc),
            bytes: 0,
        }
    }

    /// The item that a key has.
    pub(crate) fn find(&self, key: &PlainKey) -> Option<&Item>
        ensures { option_copied result ≡ item_at self.now key.now }
    {
        self.items.get(key)
    }

    /// What is told of some keys. No value of more than 256 bytes is copied.
    pub(crate) fn find_all(&self, keys: &[PlainKey]) -> Result<FoundItems, Memory>
        ensures { IfOk result (λ found. found ≡ found_in self.now keys.now) }
    {
        let mut found = Vec::new(self.alloc);
        for key in keys {
            self.tell(key, &mut found)?;
        }
        Ok(FoundItems::from(found))
    }

    // Tells the item of a key behind others, if it has one.
    fn tell(&self, key: &PlainKey, found: &mut Vec<Found>) -> Result<(), Memory>
        ensures { OnOk result (found.new.items ≡ found.old.items
            ++ option_to_list (option_map (told_of key.now) (item_at self.now key.now))) }
    {
        let Some(item) = self.items.get(key) else {
            return Ok(());
        };
        found.push(Found {
            key: key.copy()?,
            flags: item.flags,
            value: item.value.value()?,
            unique: item.unique,
        })?;
        Ok(())
    }

    /// Whether a value may stand at a key.
    pub(crate) fn has_room(&self, key: &PlainKey, value: &Value) -> bool
        ensures { (item : Item) → item.value ≡ value.now →
            result ≡ is_fit (with_item self.now key.now item) }
    {
        let (short, long) = (key.bytes().len(), value.bytes().len());
        if fits(self.items.len(), self.bytes, short, long) {
            return true;
        }
        let (count, bytes) = self.others(key);
        fits(count, bytes, short, long)
    }

    /// Puts an item at a key, whatever the key had. After want of memory all is as before.
    pub(crate) fn put(
        &mut self,
        key: &PlainKey,
        flags: u32,
        value: &Value,
        unique: u64,
    ) -> Result<(), Memory>
        requires { is_fit (with_item self.old key.now (item_of flags value.now unique)) ≡ true }
        ensures ok { OnOk result
            (IsPermutation (with_item self.old key.now (item_of flags value.now unique)) self.new) }
        ensures err { OnErr result (self.new ≡ self.old) }
    {
        let Some(item) = self.items.get_mut(key) else {
            return self.add(key, flags, value, unique);
        };
        let own = item.value.bytes().len();
        item.put(self.alloc, flags, value, unique)?;
        let rest = self.bytes - own;
        self.bytes = rest + value.bytes().len();
        Ok(())
    }

    // Puts an item at a key that has none. After want of memory all is as before.
    fn add(&mut self, key: &PlainKey, flags: u32, value: &Value, unique: u64) -> Result<(), Memory>
        requires none { item_at self.old key.now ≡ None }
        requires fit { is_fit (with_item self.old key.now (item_of flags value.now unique)) ≡ true }
        ensures ok { OnOk result
            (IsPermutation (with_item self.old key.now (item_of flags value.now unique)) self.new) }
        ensures err { OnErr result (self.new ≡ self.old) }
    {
        let item = Item {
            flags,
            value: Kept::of(self.alloc, value)?,
            unique,
        };
        self.items.insert(key.copy()?, item)?;
        self.bytes += key.bytes().len() + value.bytes().len();
        Ok(())
    }

    /// Takes out the item of a key, and tells whether it had one.
    pub(crate) fn take_out(&mut self, key: &PlainKey) -> bool
        ensures { MatchOption (item_at self.old key.now)
            ((result ≡ false) × (self.new ≡ self.old))
            (λ item. (result ≡ true) × IsPermutation (without self.old key.now) self.new) }
    {
        match self.items.remove(key) {
            Some(item) => {
                self.bytes -= key.bytes().len() + item.value.bytes().len();
                true
            }
            None => false,
        }
    }

    // How many other keys there are, and how many bytes they and their values have.
    fn others(&self, key: &PlainKey) -> (usize, usize)
        ensures count { result.0 ≡ length (without self.now key.now) }
        ensures bytes { result.1 ≡ bytes_in (without self.now key.now) }
        ensures small { IsTable (without self.now key.now) result.1 }
    {
        match self.items.get(key) {
            Some(item) => {
                let own = key.bytes().len() + item.value.bytes().len();
                (self.items.len() - 1, self.bytes - own)
            }
            None => (self.items.len(), self.bytes),
        }
    }
}

// Whether a key and a value of so many bytes have room beside so many other keys, which have so many bytes with
// their values.
fn fits(count: usize, bytes: usize, short: usize, long: usize) -> bool
    requires small { bytes ≤ 268435456 }
    requires short { short ≤ 250 }
    ensures { result ≡ (nat_lt count 65536 && nat_le (bytes + (short + long)) 268435456) }
{
    count < MOST_KEYS && long <= MOST_BYTES && bytes + short + long <= MOST_BYTES
}
