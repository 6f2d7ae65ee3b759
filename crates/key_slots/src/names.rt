ghost use Rattle.std.specs.Prelude.{◌≡◌, IfOk};

use rows_model::Memory;
use std::alloc::Global;
use std::marker::Model;

/// The bytes of a key that has a slot. Contracts see them.
#[derive(Drop)]
pub struct Name {
    bytes: Vec<u8>,
}

impl Model for Name {
    ghost use Rattle.std.specs.Prelude.{List, ℕ};

    ghost Value = { List ℕ };

    ghost view = { λ n. n.bytes.items };
}

impl Name {
    /// A copy of these bytes.
    pub(crate) fn of(alloc: Global, bytes: &[u8]) -> Result<Name, Memory>
        ensures { IfOk result (λ name. name ≡ bytes.now) }
    {
        Ok(Name {
            bytes: Vec::from_slice(alloc, bytes)?,
        })
    }

    /// The bytes.
    pub(crate) fn bytes(&self) -> &[u8]
        ensures { result.now ≡ self.now }
    {
        self.bytes.as_slice()
    }
}
