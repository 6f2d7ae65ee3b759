use crate::plain_keys::{PlainKey, PlainKeys};
use rows_model::Value;

/// A command on plain keys, with what stands behind its verb. It says nothing of the time when an
/// item expires, since none does, nor whether the client wants a reply.
#[derive(Drop)]
pub enum PlainCommand {
    /// Tells the items of some keys.
    Get {
        keys: PlainKeys,
    },
    /// Tells the items of some keys, and the unique of each.
    Gets {
        keys: PlainKeys,
    },
    /// Stores an item.
    Set {
        key: PlainKey,
        flags: u32,
        value: Value,
    },
    /// Stores an item where the key has none.
    Add {
        key: PlainKey,
        flags: u32,
        value: Value,
    },
    /// Stores an item where the key has one.
    Replace {
        key: PlainKey,
        flags: u32,
        value: Value,
    },
    /// Stores an item where the key has the one of this unique.
    Cas {
        key: PlainKey,
        flags: u32,
        value: Value,
        unique: u64,
    },
    /// Takes out the item of a key.
    Delete {
        key: PlainKey,
    },
    /// Adds to the number that a key's item is. It wraps at 2^64.
    Incr {
        key: PlainKey,
        by: u64,
    },
    /// Takes from the number that a key's item is. It stops at 0.
    Decr {
        key: PlainKey,
        by: u64,
    },
}
