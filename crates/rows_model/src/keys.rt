ghost use Rattle.std.specs.Prelude.{◌≡◌, position, IfSome, IfNone, IfOk};
ghost use Rattle.rows_model.specs.Key.{word_of, key_text, IsKeyText, IsNoWord, IsNoKeyText, is_colon, TextsTellKeys, ZeroHasNoText};

use crate::numbers::{id_of, push_decimal};
use crate::refusals::Memory;
use crate::values::Value;
use std::alloc::Global;

/// The number of a session, given by the store: from 1, in the order in which sessions begin.
#[derive(Clone, Copy, Debug, PartialEq, Eq, PartialOrd, Ord)]
pub struct Sid {
    pub number: u64,
}

/// What a key asks of a member. Keys are ordered by kind in this order, and then by id.
#[derive(Clone, Copy, Debug, PartialEq, Eq, PartialOrd, Ord, Hash)]
pub enum Kind {
    /// The member's name, and how many friends and pending invitations it has.
    Profile,
    /// The ids of the member's friends.
    Friends,
    /// The ids of those who invited the member and wait for an answer.
    Pending,
    /// How many friends the member has.
    NFriends,
    /// How many invitations to the member are pending.
    NPending,
    /// The ids of those whom the member has blocked.
    Blocked,
}

/// A key of the cache: one query, of one member.
#[derive(Clone, Copy, Debug, PartialEq, Eq, PartialOrd, Ord, Hash)]
pub struct QKey {
    pub kind: Kind,
    /// The member's id. No key text has the id 0.
    pub id: u32,
}

impl Kind {
    /// The word that stands in front in the text of each key of this kind.
    pub fn word(self) -> &'static [u8]
        ensures { result.now ≡ word_of self }
    {
        match self {
            Kind::Profile => b"profile",
            Kind::Friends => b"friends",
            Kind::Pending => b"pending",
            Kind::NFriends => b"nfriends",
            Kind::NPending => b"npending",
            Kind::Blocked => b"blocked",
        }
    }

    /// The kind of which this is the word.
    pub fn of_word(word: &[u8]) -> Option<Kind>
        ensures found { IfSome result (λ kind. word.now ≡ word_of kind) }
        ensures none { IfNone result (IsNoWord word.now) }
    {
        match word {
            b"profile" => Some(Kind::Profile),
            b"friends" => Some(Kind::Friends),
            b"pending" => Some(Kind::Pending),
            b"nfriends" => Some(Kind::NFriends),
            b"npending" => Some(Kind::NPending),
            b"blocked" => Some(Kind::Blocked),
            _ => None,
        }
    }
}

impl QKey {
    /// The key of which this is the text, with an id from 1, or `None` exactly where there is none.
    pub fn parse(text: &[u8]) -> Option<QKey>
        ensures found { IfSome result (λ key. IsKeyText text.now key) }
        ensures none { IfNone result (IsNoKeyText text.now) }
    {
        let colon = colon_of(text)?;
        let kind = Kind::of_word(&text[..colon])?;
        let id = id_of(&text[colon + 1..])?;
        Some(QKey { kind, id })
    }

    /// The key's text. That of a key with the id 0 is no text that `parse` takes.
    pub fn text(&self, alloc: Global) -> Result<Value, Memory>
        ensures { IfOk result (λ value. value ≡ key_text self.now) }
    {
        let mut text = Vec::from_slice(alloc, self.kind.word())?;
        text.push(b':')?;
        push_decimal(&mut text, u64::from(self.id))?;
        Ok(Value::from(text))
    }
}

/// Keys with one text are one key, and no key with the id 0 has a text that `QKey::parse` takes.
pub fn texts_tell_keys()
    ensures keys { TextsTellKeys }
    ensures zero { ZeroHasNoText }
{}

// Where the first colon stands.
fn colon_of(text: &[u8]) -> Option<usize>
    ensures { result ≡ position is_colon text.now }
{
    text.iter().position(|byte| *byte == b':')
}
