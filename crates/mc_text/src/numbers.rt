// What a word is: a key, a number, the number of a session.
ghost use Rattle.std.specs.Prelude.{◌≡◌, ◌<◌, ◌≤◌, ◌^◌, ◌∷◌, ◌++◌, ℕ, ℤ, pos, neg_ℤ, List, Option, SomeIff, IfSome, IfNone};
ghost use Rattle.std.specs.List.{list_all};
ghost use Rattle.rows_model.specs.declared.keys.Kind.{Kind};
ghost use Rattle.rows_model.specs.declared.keys.QKey.{QKey};
ghost use Rattle.rows_model.specs.Key.{word_of};
ghost use Rattle.mc_text.specs.Words.{is_key_byte, is_key, Names, IsMember, IsKey, IsNumber, IsFlags, IsSid, IsBy};

use rows_model::{Kind, QKey, Sid};

// The most bytes of a key, and the most digits of a number.
const LONGEST_KEY: usize = 250;

// The greatest id that a member can have. No key beyond it is served, since each key that is missed and
// never set has a lease for good: so they are bounded.
pub(crate) const LAST_ID: u64 = 100_000;

pub(crate) const MOST_DIGITS: usize = 20;

/// The key of the cache that the word is, if it is one whose id a member can have; `None` where it may not
/// be a key at all.
#[tactic(auto, using(crate::proofs::KindLemmas::served_form))]
pub(crate) fn key_of(word: &[u8]) -> Option<Option<QKey>>
    ensures found { IfSome result (λ key. IsKey word.now key) }
    ensures none { IfNone result ((key : Option QKey) → IsKey word.now key → ⊥) }
{
    if let Some(key) = served_of(word) {
        return Some(Some(key));
    }
    if !is_key(word) {
        return None;
    }
    Some(None)
}

// The key of the cache that the word is, if it is one whose id a member can have.
fn served_of(word: &[u8]) -> Option<QKey>
    ensures { Names word.now result }
{
    let (kind, digits) = kind_of(word)?;
    let id = id_of(digits)?;
    Some(QKey { kind, id })
}

// The kind whose word stands in front, with a colon behind it, and what stands behind that.
fn kind_of(word: &[u8]) -> Option<(Kind, &[u8])>
    ensures found { IfSome result (λ read. word.now ≡ word_of read.0 ++ 58 ∷ read.1.now) }
    ensures none { IfNone result ((kind : Kind) (digits : List ℕ) →
        word.now ≡ word_of kind ++ 58 ∷ digits → ⊥) }
{
    let kind = likely_kind(word);
    match word.strip_prefix(kind.word())? {
        [b':', digits @ ..] => Some((kind, digits)),
        _ => None,
    }
}

// The kind that the word is of, if it is of one: its first two bytes tell them apart.
fn likely_kind(word: &[u8]) -> Kind
    ensures { (kind : Kind) (digits : List ℕ) → word.now ≡ word_of kind ++ 58 ∷ digits →
        result ≡ kind }
{
    match word {
        [b'p', b'r', ..] => Kind::Profile,
        [b'p', ..] => Kind::Pending,
        [b'f', ..] => Kind::Friends,
        [b'n', b'f', ..] => Kind::NFriends,
        [b'n', ..] => Kind::NPending,
        _ => Kind::Blocked,
    }
}

// The id that a member can have and whose decimal this is.
fn id_of(digits: &[u8]) -> Option<u32>
    ensures found { IfSome result (λ id. IsMember digits.now id) }
    ensures none { IfNone result ((id : ℕ) → IsMember digits.now id → ⊥) }
{
    let [b'1'..=b'9', ..] = digits else {
        return None;
    };
    let number = number_of(digits)?;
    if number > LAST_ID {
        return None;
    }
    Some(number as u32)
}

/// The number below 2^64 that the word is: 1 to 20 digits, with zeros in front or without.
pub(crate) fn number_of(word: &[u8]) -> Option<u64>
    ensures found { IfSome result (λ number. IsNumber word.now number) }
    ensures none { IfNone result ((number : ℕ) → IsNumber word.now number → ⊥) }
{
    if word.is_empty() || word.len() > MOST_DIGITS {
        return None;
    }
    let mut number: u64 = 0;
    for byte in word {
        if !(b'0'..=b'9').contains(byte) {
            return None;
        }
        number = number
            .checked_mul(10)?
            .checked_add(u64::from(*byte - b'0'))?;
    }
    Some(number)
}

/// The number below 2^32 that the word is.
pub(crate) fn flags_of(word: &[u8]) -> Option<u32>
    ensures found { IfSome result (λ number. IsFlags word.now number) }
    ensures none { IfNone result ((number : ℕ) → IsFlags word.now number → ⊥) }
{
    let number = number_of(word)?;
    if number > 4_294_967_295 {
        return None;
    }
    Some(number as u32)
}

/// The session whose number the word is.
pub(crate) fn sid_of(word: &[u8]) -> Option<Sid>
    ensures found { IfSome result (λ sid. IsSid word.now sid) }
    ensures none { IfNone result ((number : ℕ) → IsNumber word.now number → ⊥) }
{
    let number = number_of(word)?;
    Some(Sid { number })
}

/// The number of 32 bits that the word is, with a minus in front or without.
pub(crate) fn by_of(word: &[u8]) -> Option<i32>
    ensures found { IfSome result (λ by. IsBy word.now by) }
    ensures none { IfNone result ((by : ℤ) → IsBy word.now by → ⊥) }
{
    match word {
        [b'-', digits @ ..] => below_zero(number_of(digits)?),
        _ => from_zero(number_of(word)?),
    }
}

// So far below 0.
fn below_zero(number: u64) -> Option<i32>
    ensures { SomeIff result (number ≤ 2 ^ 31) (neg_ℤ (pos number)) }
{
    if number > 2_147_483_648 {
        return None;
    }
    Some((-(number as i64)) as i32)
}

// So far above 0.
fn from_zero(number: u64) -> Option<i32>
    ensures { SomeIff result (number < 2 ^ 31) (pos number) }
{
    if number > 2_147_483_647 {
        return None;
    }
    Some(number as i32)
}

// Whether the word may be a key.
fn is_key(word: &[u8]) -> bool
    ensures { result ≡ is_key word.now }
{
    if word.is_empty() || word.len() > LONGEST_KEY {
        return false;
    }
    are_key_bytes(word)
}

// Whether each byte may stand in a key.
fn are_key_bytes(word: &[u8]) -> bool
    ensures { result ≡ list_all is_key_byte word.now }
{
    word.iter().all(|byte| *byte >= 0x21 && *byte != 0x7f)
}
