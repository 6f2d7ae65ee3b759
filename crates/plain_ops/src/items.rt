ghost use Rattle.std.specs.Prelude.{◌≡◌, OnOk, OnErr};
ghost use Rattle.plain_ops.specs.Entries.{item_of};

use crate::kept::Kept;
use rows_model::{Memory, Value};
use std::alloc::Global;

/// What a plain key has.
#[derive(Drop)]
pub struct Item {
    /// A number that the client gave, and that means nothing here.
    pub flags: u32,
    pub value: Kept,
    /// The number that the change drew that stored the item.
    pub unique: u64,
}

impl Item {
    /// Puts another item in this one's place. After want of memory all is as before.
    pub(crate) fn put(
        &mut self,
        alloc: Global,
        flags: u32,
        value: &Value,
        unique: u64,
    ) -> Result<(), Memory>
        ensures ok { OnOk result (self.new ≡ item_of flags value.now unique) }
        ensures err { OnErr result (self.new ≡ self.old) }
    {
        self.value.put(alloc, value)?;
        self.flags = flags;
        self.unique = unique;
        Ok(())
    }
}
