// The words of a line, taken off its front one after another.
ghost use Rattle.std.specs.Prelude.{ℕ, ◌≡◌, ◌==◌, ◌<◌, ◌≤◌, [], ◌∷◌, IfSome, IfNone, not, length, position, slice_index};
ghost use Rattle.std.specs.Bool.{MatchBool};
ghost use Rattle.mc_text.specs.Words.{words_in, IsKey, IsNumber, IsFlags, IsSid, IsBy};
ghost use Rattle.mc_text.specs.Parsing.{IsFirst, IsNoFirst};

use crate::numbers::{by_of, flags_of, key_of, number_of, sid_of};
use rows_model::{QKey, Sid};

/// The first word of a text, and what stands behind it; `None` exactly where there is no word.
pub fn next_word(text: &[u8]) -> Option<(&[u8], &[u8])>
    ensures found { IfSome result (λ read. words_in text.now ≡ read.0.now ∷ words_in read.1.now) }
    ensures none { IfNone result (words_in text.now ≡ []) }
{
    let from = word_start(text)?;
    let behind = &text[from..];
    match space_in(behind) {
        Some(at) => Some((&behind[..at], &behind[at + 1..])),
        None => Some((behind, b"")),
    }
}

/// Whether there is no word more.
pub(crate) fn has_ended(text: &[u8]) -> bool
    ensures { MatchBool result (words_in text.now ≡ []) (words_in text.now ≡ [] → ⊥) }
{
    word_start(text).is_none()
}

/// The key that the first word names, and what stands behind it.
#[inline(always)]
pub(crate) fn take_key(args: &[u8]) -> Option<(Option<QKey>, &[u8])>
    ensures found { IfSome result
        (λ read. IsFirst IsKey (words_in args.now) read.0 (words_in read.1.now)) }
    ensures none { IfNone result (IsNoFirst IsKey (words_in args.now)) }
{
    let (word, rest) = next_word(args)?;
    let key = key_of(word)?;
    Some((key, rest))
}

/// The session whose number the first word is, and what stands behind it.
#[inline(always)]
pub(crate) fn take_sid(args: &[u8]) -> Option<(Sid, &[u8])>
    ensures found { IfSome result
        (λ read. IsFirst IsSid (words_in args.now) read.0 (words_in read.1.now)) }
    ensures none { IfNone result (IsNoFirst IsNumber (words_in args.now)) }
{
    let (word, rest) = next_word(args)?;
    let sid = sid_of(word)?;
    Some((sid, rest))
}

/// The number below 2^64 that the first word is, and what stands behind it.
#[inline(always)]
pub(crate) fn take_number(args: &[u8]) -> Option<(u64, &[u8])>
    ensures found { IfSome result
        (λ read. IsFirst IsNumber (words_in args.now) read.0 (words_in read.1.now)) }
    ensures none { IfNone result (IsNoFirst IsNumber (words_in args.now)) }
{
    let (word, rest) = next_word(args)?;
    let number = number_of(word)?;
    Some((number, rest))
}

/// The number below 2^32 that the first word is, and what stands behind it.
pub(crate) fn take_flags(args: &[u8]) -> Option<(u32, &[u8])>
    ensures found { IfSome result
        (λ read. IsFirst IsFlags (words_in args.now) read.0 (words_in read.1.now)) }
    ensures none { IfNone result (IsNoFirst IsFlags (words_in args.now)) }
{
    let (word, rest) = next_word(args)?;
    let flags = flags_of(word)?;
    Some((flags, rest))
}

/// The number with a sign that the first word is, and what stands behind it.
pub(crate) fn take_by(args: &[u8]) -> Option<(i32, &[u8])>
    ensures found { IfSome result
        (λ read. IsFirst IsBy (words_in args.now) read.0 (words_in read.1.now)) }
    ensures none { IfNone result (IsNoFirst IsBy (words_in args.now)) }
{
    let (word, rest) = next_word(args)?;
    let by = by_of(word)?;
    Some((by, rest))
}

// Where the first word begins.
fn word_start(text: &[u8]) -> Option<usize>
    ensures { result ≡ position (λ byte. not (byte == 32)) text.now }
{
    text.iter().position(|byte| *byte != b' ')
}

// Where the first space stands. Four bytes are looked at in a turn, since each command's words are
// searched so.
fn space_in(text: &[u8]) -> Option<usize>
    ensures { result ≡ position (λ byte. byte == 32) text.now }
{
    let mut at = 0;
    while text.len() - at >= 4 {
        if text[at] == b' ' {
            return Some(at);
        }
        if text[at + 1] == b' ' {
            return Some(at + 1);
        }
        if text[at + 2] == b' ' {
            return Some(at + 2);
        }
        if text[at + 3] == b' ' {
            return Some(at + 3);
        }
        at += 4;
    }
    space_behind(text, at)
}

// The same, where none stands before this place.
fn space_behind(text: &[u8], from: usize) -> Option<usize>
    requires within { from ≤ length text.now }
    requires none { (place : ℕ) → place < from → slice_index text.now place ≡ 32 → ⊥ }
    ensures { result ≡ position (λ byte. byte == 32) text.now }
{
    let mut at = from;
    while at < text.len() {
        if text[at] == b' ' {
            return Some(at);
        }
        at += 1;
    }
    None
}
