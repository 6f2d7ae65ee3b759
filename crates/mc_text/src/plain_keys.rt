ghost use Rattle.std.specs.Prelude.{◌≡◌, ◌≤◌, length, nat_eq, IfOk, IfSome, IfNone};
ghost use Rattle.std.specs.Cmp.{partial_equiv_from_equiv};
ghost use Rattle.std.specs.Cmp.Rules.{hashing};
ghost use Rattle.std.specs.Cmp.Lexicographic.{pointwise, nat_list_eq_equiv};
ghost use Rattle.std.specs.Hash as fed;
ghost use Rattle.std.proofs.Common.{rules};
ghost use Rattle.mc_text.specs.PlainKeys.{IsPlainKey};

use crate::numbers::key_of;
use rows_model::{Memory, Value};
use std::alloc::Global;
use std::hash::{Hash, Hasher};
use std::marker::Model;

/// A key of a plain command: 1 to 250 bytes that may stand in a key, and that name no key of the
/// cache. Contracts see its bytes.
#[derive(Drop)]
pub struct PlainKey {
    bytes: Value,
}

impl Model for PlainKey {
    ghost use Rattle.std.specs.Prelude.{List, ℕ};
    ghost use Rattle.mc_text.specs.PlainKeys.{IsPlainKey};

    ghost Value = { List ℕ };

    ghost view = { λ k. k.bytes };

    ghost invariant = { λ k. IsPlainKey k.bytes };
}

impl PlainKey {
    /// The key of these bytes; `None` exactly where they are no key of a plain command.
    pub fn of(alloc: Global, bytes: &[u8]) -> Result<Option<PlainKey>, Memory>
        ensures found { IfOk result (λ read. IfSome read (λ key. key ≡ bytes.now)) }
        ensures plain { IfOk result (λ read. IfSome read (λ key. IsPlainKey bytes.now)) }
        ensures none { IfOk result (λ read. IfNone read (IsPlainKey bytes.now → ⊥)) }
    {
        match key_of(bytes) {
            Some(None) => Ok(Some(PlainKey::of_plain(alloc, bytes)?)),
            Some(Some(_)) => Ok(None),
            None => Ok(None),
        }
    }

    // The key of bytes that are one of a plain command.
    pub(crate) fn of_plain(alloc: Global, bytes: &[u8]) -> Result<PlainKey, Memory>
        requires { IsPlainKey bytes.now }
        ensures { IfOk result (λ key. key ≡ bytes.now) }
    {
        Ok(PlainKey {
            bytes: Value::from(Vec::from_slice(alloc, bytes)?),
        })
    }

    /// The same key once more, with bytes of its own.
    pub fn copy(&self) -> Result<PlainKey, Memory>
        ensures { IfOk result (λ key. key ≡ self.now) }
    {
        Ok(PlainKey {
            bytes: self.bytes.copy()?,
        })
    }

    /// The bytes of the key.
    pub fn bytes(&self) -> &[u8]
        ensures same { result.now ≡ self.now }
        ensures plain { IsPlainKey result.now }
        ensures short { length result.now ≤ 250 }
    {
        self.bytes.bytes()
    }
}

impl PartialEq for PlainKey {
    ghost eq = { pointwise nat_eq };

    ghost laws = { partial_equiv_from_equiv nat_list_eq_equiv };

    fn eq(&self, other: &PlainKey) -> bool {
        self.bytes() == other.bytes()
    }
}

impl Eq for PlainKey {
    ghost laws = { nat_list_eq_equiv };
}

impl Hash for PlainKey {
    ghost hash_input = { fed.slice fed.u8 };

    ghost respects_eq = { Prim.search (hashing, rules) };

    fn hash<H: Hasher>(&self, state: &mut H) {
        self.bytes().hash(state);
    }
}

/// The keys of one command, in their order. Contracts see the list.
#[derive(Drop)]
pub struct PlainKeys {
    keys: Vec<PlainKey>,
}

impl Model for PlainKeys {
    ghost use Rattle.std.specs.Prelude.{List, ℕ};

    ghost Value = { List (List ℕ) };

    ghost view = { λ k. k.keys.items };
}

impl PlainKeys {
    /// The keys, in their order.
    pub fn keys(&self) -> &[PlainKey]
        ensures { result.now ≡ self.now }
    {
        self.keys.as_slice()
    }
}

impl From<Vec<PlainKey>> for PlainKeys {
    ghost from_gives = { λ items keys. keys ≡ items.items };

    fn from(keys: Vec<PlainKey>) -> PlainKeys {
        PlainKeys { keys }
    }
}
