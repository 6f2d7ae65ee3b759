ghost use Rattle.std.specs.Prelude.{◌≡◌, IfOk, nat_eq};
ghost use Rattle.std.specs.Cmp.{partial_equiv_from_equiv};
ghost use Rattle.std.specs.Cmp.Lexicographic.{pointwise, nat_list_eq_equiv};

use crate::refusals::Memory;
use std::alloc::Global;
use std::marker::Model;
use std::sync::ArcSlice;

/// A value of the cache: the text of an answer. Contracts see its bytes.
#[derive(Debug, Drop)]
pub struct Value {
    text: Text,
}

/// Where the bytes of a value stand: in a block of its own, which a copy makes anew, or in one that
/// its copies share.
#[derive(Debug, Drop)]
enum Text {
    Own(Vec<u8>),
    Shared(ArcSlice<u8>),
}

impl Model for Value {
    ghost use Rattle.std.specs.Prelude.{List, ℕ};

    ghost Value = { List ℕ };

    ghost use Rattle.rows_model.specs.Text.{bytes_of};

    ghost view = { λ v. bytes_of v.text };
}

impl Value {
    /// The value of these bytes.
    pub fn of(alloc: Global, text: &[u8]) -> Result<Value, Memory>
        ensures { IfOk result (λ value. value ≡ text.now) }
    {
        Value::shared(Vec::from_slice(alloc, text)?)
    }

    // The value of these bytes, whose copies share them.
    #[tactic(auto, unfolding(crate::specs::Text::bytes_of))]
    pub(crate) fn shared(text: Vec<u8>) -> Result<Value, Memory>
        ensures { IfOk result (λ value. value ≡ text.items) }
    {
        Ok(Value {
            text: Text::Shared(ArcSlice::from_vec(text)?),
        })
    }

    /// A value of the same bytes. No byte is copied, but of a value that was made `From` bytes.
    #[tactic(auto, unfolding(crate::specs::Text::bytes_of))]
    pub fn copy(&self) -> Result<Value, Memory>
        ensures { IfOk result (λ value. value ≡ self.now) }
    {
        let text = match &self.text {
            Text::Own(text) => Text::Own(text.clone()?),
            Text::Shared(text) => Text::Shared(text.clone()?),
        };
        Ok(Value { text })
    }

    /// The bytes of the value.
    #[tactic(auto, unfolding(crate::specs::Text::bytes_of))]
    pub fn bytes(&self) -> &[u8]
        ensures { result.now ≡ self.now }
    {
        match &self.text {
            Text::Own(text) => text.as_slice(),
            Text::Shared(text) => text.as_slice(),
        }
    }
}

impl From<Vec<u8>> for Value {
    ghost from_gives = { λ bytes value. value ≡ bytes.items };

    #[tactic(auto, unfolding(crate::specs::Text::bytes_of))]
    fn from(text: Vec<u8>) -> Value {
        Value {
            text: Text::Own(text),
        }
    }
}

impl PartialEq for Value {
    ghost eq = { pointwise nat_eq };

    ghost laws = { partial_equiv_from_equiv nat_list_eq_equiv };

    fn eq(&self, other: &Value) -> bool {
        self.bytes() == other.bytes()
    }
}

impl Eq for Value {
    ghost laws = { nat_list_eq_equiv };
}
