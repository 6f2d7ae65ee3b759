ghost use Rattle.std.specs.Prelude.{◌≡◌};

use crate::plain_keys::PlainKey;
use rows_model::Value;
use std::marker::Model;

/// An item that was found at a key.
#[derive(Drop)]
pub struct Found {
    pub key: PlainKey,
    /// A number that the client gave, and that means nothing here.
    pub flags: u32,
    pub value: Value,
    /// The number that the change drew that stored the item.
    pub unique: u64,
}

/// The items that were found, in the order in which they were asked for. Contracts see the list.
#[derive(Drop)]
pub struct FoundItems {
    items: Vec<Found>,
}

impl Model for FoundItems {
    ghost use Rattle.std.specs.Prelude.{List};
    ghost use Rattle.mc_text.specs.declared.plain_replies.Found.{Found};

    ghost Value = { List Found };

    ghost view = { λ f. f.items.items };
}

impl FoundItems {
    /// The items, in their order.
    pub fn items(&self) -> &[Found]
        ensures { result.now ≡ self.now }
    {
        self.items.as_slice()
    }
}

impl From<Vec<Found>> for FoundItems {
    ghost from_gives = { λ items found. found ≡ items.items };

    fn from(items: Vec<Found>) -> FoundItems {
        FoundItems { items }
    }
}

/// A reply to a plain command.
#[derive(Drop)]
pub enum PlainReply {
    /// What a `get` found.
    Values { found: FoundItems },
    /// What a `gets` found; each item is told with its unique.
    Uniques { found: FoundItems },
    /// The item is stored.
    Stored,
    /// The key has an item where it should have none, or none where it should have one.
    NotStored,
    /// The key's item is another one.
    Exists,
    /// The key has no item.
    NotFound,
    /// The item is taken out.
    Deleted,
    /// The number that the key's item is now.
    Number { number: u64 },
    /// One of the keys is a key of the cache.
    QueryKey,
    /// The time of expiry isn't 0.
    Exptime,
    /// The key's item is no number below 2^64.
    NotNumber,
    /// No unique is left.
    Spent,
    /// There would be too many keys or bytes.
    Full,
    /// Memory ran out.
    Memory,
}
