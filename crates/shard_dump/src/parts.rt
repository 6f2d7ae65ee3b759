// The parts of a text, taken off its front: a number, a head, a row.
ghost use Rattle.std.specs.Prelude.{◌≡◌, ◌≢◌, ◌<◌, ◌^◌, ◌∷◌, ◌++◌, ℕ, List, All, length, decimal, IfSome, IfNone};
ghost use Rattle.shard_dump.specs.Texts.{head_text, row_text, IsHead, IsRow, HasNoHead, HasNoRow};

use crate::heads::{Head, MOST_BYTES};
use rows_model::{QKey, number_of, shard_number};

/// What stands before the first such byte, and what behind it.
fn cut(text: &[u8], byte: u8) -> Option<(&[u8], &[u8])>
    ensures found { IfSome result (λ read. text.now ≡ read.0.now ++ byte ∷ read.1.now) }
    ensures first { IfSome result (λ read. All (λ b. b ≢ byte) read.0.now) }
    ensures none { IfNone result (All (λ b. b ≢ byte) text.now) }
{
    let at = text.iter().position(|b| *b == byte)?;
    Some((&text[..at], &text[at + 1..]))
}

/// The number below 2^64 in front of this byte, which is no digit, and what stands behind it.
pub(crate) fn number_before(text: &[u8], byte: u8) -> Option<(u64, &[u8])>
    requires { byte < 48 }
    ensures found { IfSome result (λ read. text.now ≡ decimal read.0 ++ byte ∷ read.1.now) }
    ensures small { IfSome result (λ read. read.0 < 2 ^ 64) }
    ensures none { IfNone result ((number : ℕ) (rest : List ℕ) → number < 2 ^ 64
        → text.now ≡ decimal number ++ byte ∷ rest → ⊥) }
{
    let (word, rest) = cut(text, byte)?;
    let number = number_of(word)?;
    Some((number, rest))
}

/// What stands behind this front.
pub(crate) fn behind<'a>(text: &'a [u8], front: &[u8]) -> Option<&'a [u8]>
    ensures found { IfSome result (λ rest. text.now ≡ front.now ++ rest.now) }
    ensures none { IfNone result ((rest : List ℕ) → text.now ≡ front.now ++ rest → ⊥) }
{
    text.strip_prefix(front)
}

/// The head that stands in front, and what stands behind it.
pub(crate) fn head_of(text: &[u8]) -> Option<(Head, &[u8])>
    ensures found { IfSome result (λ read. text.now ≡ head_text read.0 ++ read.1.now) }
    ensures right { IfSome result (λ read. IsHead read.0) }
    ensures none { IfNone result (HasNoHead text.now) }
{
    let rest = behind(text, b"iqdump 1 ")?;
    let (shard, rest) = number_before(rest, b' ')?;
    let (count, rest) = number_before(rest, b' ')?;
    let (rows, rest) = number_before(rest, b'\n')?;
    Some((Head::of(shard, count, rows)?, rest))
}

/// The key of the row that stands in front, its value, and what stands behind it; `None` where no row
/// that may stand under this head does.
pub(crate) fn row_of(head: Head, text: &[u8]) -> Option<(QKey, &[u8], &[u8])>
    requires { IsHead head }
    ensures found { IfSome result (λ read. text.now
        ≡ row_text (record { key = read.0; value = read.1.now }) ++ read.2.now) }
    ensures right { IfSome result (λ read. IsRow head (record { key = read.0; value = read.1.now })) }
    ensures none { IfNone result (HasNoRow head text.now) }
{
    let (word, rest) = cut(text, b' ')?;
    let key = QKey::parse(word)?;
    if shard_number(&key, head.count) != head.shard {
        return None;
    }
    let (bytes, rest) = number_before(rest, b'\n')?;
    if bytes > MOST_BYTES {
        return None;
    }
    let (value, rest) = value_of(rest, bytes as usize)?;
    Some((key, value, rest))
}

/// The value of so many bytes that stands in front with an LF behind it, and what stands behind that.
fn value_of(text: &[u8], bytes: usize) -> Option<(&[u8], &[u8])>
    ensures found { IfSome result (λ read. text.now ≡ read.0.now ++ 10 ∷ read.1.now) }
    ensures long { IfSome result (λ read. length read.0.now ≡ bytes) }
    ensures none { IfNone result ((value rest : List ℕ) → length value ≡ bytes
        → text.now ≡ value ++ 10 ∷ rest → ⊥) }
{
    if bytes >= text.len() || text[bytes] != b'\n' {
        return None;
    }
    Some((&text[..bytes], &text[bytes + 1..]))
}
