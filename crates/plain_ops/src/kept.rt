ghost use Rattle.std.specs.Prelude.{◌≡◌, IfOk, OnOk, OnErr};
ghost use Rattle.std.specs.Bool.{MatchBool};

use rows_model::{Memory, Value};
use std::alloc::Global;
use std::marker::Model;

// The most bytes of a short value.
const MOST_SHORT: usize = 256;

/// The value of an item, as the map keeps it. A short one has bytes of its own, and the next short one
/// of its key is written over it. A longer one shares its bytes with whoever is told it. Contracts see
/// the bytes.
#[derive(Drop)]
pub struct Kept {
    text: Text,
}

// Where the bytes stand.
#[derive(Drop)]
enum Text {
    Short(Vec<u8>),
    Long(Value),
}

impl Model for Kept {
    ghost use Rattle.std.specs.Prelude.{List, ℕ};
    ghost use Rattle.plain_ops.specs.Kept.{bytes_of};

    ghost Value = { List ℕ };

    ghost view = { λ k. bytes_of k.text };
}

impl Kept {
    /// The value as the map keeps it. A long one isn't copied, if it shares its bytes.
    #[tactic(auto, unfolding(crate::specs::Kept::bytes_of))]
    pub(crate) fn of(alloc: Global, value: &Value) -> Result<Kept, Memory>
        ensures { IfOk result (λ kept. kept ≡ value.now) }
    {
        let bytes = value.bytes();
        let text = if bytes.len() <= MOST_SHORT {
            Text::Short(Vec::from_slice(alloc, bytes)?)
        } else {
            Text::Long(value.copy()?)
        };
        Ok(Kept { text })
    }

    /// The value, to be told.
    #[tactic(auto, unfolding(crate::specs::Kept::bytes_of))]
    pub(crate) fn value(&self) -> Result<Value, Memory>
        ensures { IfOk result (λ value. value ≡ self.now) }
    {
        match &self.text {
            Text::Short(text) => Ok(Value::from(text.clone()?)),
            Text::Long(value) => Ok(value.copy()?),
        }
    }

    /// The bytes of the value.
    #[tactic(auto, unfolding(crate::specs::Kept::bytes_of))]
    pub(crate) fn bytes(&self) -> &[u8]
        ensures { result.now ≡ self.now }
    {
        match &self.text {
            Text::Short(text) => text.as_slice(),
            Text::Long(value) => value.bytes(),
        }
    }

    /// Puts a value in this one's place. After want of memory all is as before.
    #[tactic(auto, unfolding(crate::specs::Kept::bytes_of))]
    pub(crate) fn put(&mut self, alloc: Global, value: &Value) -> Result<(), Memory>
        ensures ok { OnOk result (self.new ≡ value.now) }
        ensures err { OnErr result (self.new ≡ self.old) }
    {
        if !self.write(value) {
            *self = Kept::of(alloc, value)?;
        }
        Ok(())
    }

    // Writes a value over a short one whose room it fits into, and tells whether it did.
    #[tactic(auto, unfolding(crate::specs::Kept::bytes_of))]
    fn write(&mut self, value: &Value) -> bool
        ensures { MatchBool result (self.new ≡ value.now) (self.new ≡ self.old) }
    {
        let Text::Short(text) = &mut self.text else {
            return false;
        };
        let bytes = value.bytes();
        if text.capacity() < bytes.len() {
            return false;
        }
        text.clear();
        text.extend_from_slice(bytes).is_ok()
    }
}
