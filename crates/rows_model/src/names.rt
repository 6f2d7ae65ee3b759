ghost use Rattle.std.specs.Prelude.{◌≡◌, ◌+◌, ◌<◌, ◌∷◌, length, decimal, IfSome, IfNone};
ghost use Rattle.rows_model.specs.Name.{IsName};

use itoa::Buffer;
use std::marker::Model;

const LONGEST: usize = 40;

/// A member's name: 1 to 40 printable ASCII bytes, none of them a space. Contracts see its bytes.
#[derive(Clone, Copy, PartialEq, Eq)]
pub struct Name {
    // The name, and zeros behind it.
    bytes: [u8; 40],
    len: u8,
}

impl Model for Name {
    ghost use Rattle.std.specs.Prelude.{List, ℕ, ◌-◌, ◌++◌, length, take, replicate};
    ghost use Rattle.rows_model.specs.Name.{IsPaddedName, padded_back, front_len};

    ghost Value = { List ℕ };

    ghost view = { λ n. take n.len n.bytes };

    ghost invariant = { λ n. IsPaddedName n.len n.bytes };

    ghost inverse = { λ text. record { bytes = text ++ replicate (40 - length text) 0; len = length text } };

    ghost inverse_ok = { λ n h i. record {
      bytes = padded_back n.len n.bytes h i;
      len = front_len n.len n.bytes h i;
    } };
}

impl Name {
    /// The name of these bytes, or `None` exactly where they are no name.
    pub fn of(text: &[u8]) -> Option<Name>
        ensures found { IfSome result (λ name. name ≡ text.now) }
        ensures valid { IfSome result (λ _. IsName text.now) }
        ensures none { IfNone result (IsName text.now → ⊥) }
    {
        let printable = text.iter().all(|byte| (0x21..=0x7e).contains(byte));
        if !printable || text.is_empty() || text.len() > LONGEST {
            return None;
        }
        Some(Name::filled(text))
    }

    // The name of bytes that are known to be one.
    fn filled(text: &[u8]) -> Name
        requires { IsName text.now }
        ensures { result ≡ text.now }
    {
        let mut bytes = [0; 40];
        bytes[..text.len()].copy_from_slice(text);
        Name {
            bytes,
            len: text.len() as u8,
        }
    }

    /// The name of `m` and the number in decimal.
    pub(crate) fn numbered(number: u32) -> Name
        ensures { result ≡ 109 ∷ decimal number }
    {
        let mut buffer = Buffer::new();
        let digits = buffer.format(number).as_bytes();
        let mut text = [b'm'; 11];
        text[1..digits.len() + 1].copy_from_slice(digits);
        Name::filled(&text[..digits.len() + 1])
    }

    /// The bytes of the name.
    pub fn bytes(&self) -> &[u8]
        ensures value { result.now ≡ self.now }
        ensures valid { IsName self.now }
    {
        &self.bytes[..usize::from(self.len)]
    }
}
