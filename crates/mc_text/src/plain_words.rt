// The words of a plain command's line, taken off its front one after another.
ghost use Rattle.std.specs.Prelude.{◌≡◌, ◌∷◌, Bool, cond, codes, Some, None, IfSome, IfNone, IfOk};
ghost use Rattle.std.specs.Bool.{MatchBool};
ghost use Rattle.mc_text.specs.Words.{words_in};
ghost use Rattle.mc_text.specs.Parsing.{IsFirst, IsNoFirst};
ghost use Rattle.mc_text.specs.PlainWords.{IsKeyWord, unsigned, IsExptime, IsLast};

use crate::numbers::{key_of, number_of};
use crate::plain_keys::PlainKey;
use crate::words::{has_ended, next_word};
use rows_model::Memory;
use std::alloc::Global;

/// A word that may be a key.
#[derive(Clone, Copy)]
pub struct KeyWord<'a> {
    pub word: &'a [u8],
    /// Whether it is a plain key, and no key of the cache.
    pub is_plain: bool,
}

impl<'a> KeyWord<'a> {
    /// The plain key that the word is, if it is one.
    pub(crate) fn key(self, alloc: Global) -> Result<Option<PlainKey>, Memory>
        requires { IsKeyWord self.word.now self.is_plain }
        ensures { IfOk result
            (λ key. key ≡ cond self.entry.is_plain (Some self.entry.word.now) None) }
    {
        if self.is_plain {
            Ok(Some(PlainKey::of_plain(alloc, self.word)?))
        } else {
            Ok(None)
        }
    }
}

/// The first word, which may be a key, and what stands behind it.
pub(crate) fn take_key_word(args: &[u8]) -> Option<(KeyWord<'_>, &[u8])>
    ensures found { IfSome result
        (λ read. words_in args.now ≡ read.0.word.now ∷ words_in read.1.now) }
    ensures key { IfSome result (λ read. IsKeyWord read.0.word.now read.0.is_plain) }
    ensures none { IfNone result (IsNoFirst IsKeyWord (words_in args.now)) }
{
    let (word, rest) = next_word(args)?;
    let is_plain = is_plain_key(word)?;
    Some((KeyWord { word, is_plain }, rest))
}

/// Whether the word is a plain key, where it may be a key.
pub(crate) fn is_plain_key(word: &[u8]) -> Option<bool>
    ensures found { IfSome result (λ is_plain. IsKeyWord word.now is_plain) }
    ensures none { IfNone result ((is_plain : Bool) → IsKeyWord word.now is_plain → ⊥) }
{
    match key_of(word) {
        Some(None) => Some(true),
        Some(Some(_)) => Some(false),
        None => None,
    }
}

/// Whether the time of expiry isn't 0 that the first word is, and what stands behind it.
pub(crate) fn take_exptime(args: &[u8]) -> Option<(bool, &[u8])>
    ensures found { IfSome result
        (λ read. IsFirst IsExptime (words_in args.now) read.0 (words_in read.1.now)) }
    ensures none { IfNone result (IsNoFirst IsExptime (words_in args.now)) }
{
    let (word, rest) = next_word(args)?;
    let expires = exptime_of(word)?;
    Some((expires, rest))
}

// Whether the time of expiry isn't 0 that the word is.
fn exptime_of(word: &[u8]) -> Option<bool>
    ensures found { IfSome result (λ expires. IsExptime word.now expires) }
    ensures none { IfNone result ((expires : Bool) → IsExptime word.now expires → ⊥) }
{
    let number = number_of(unsigned(word))?;
    Some(number != 0)
}

// The word without the minus in front of it, if there is one.
fn unsigned(word: &[u8]) -> &[u8]
    ensures { result.now ≡ unsigned word.now }
{
    match word {
        [b'-', digits @ ..] => digits,
        _ => word,
    }
}

/// Whether no reply is wanted: `noreply` is the last word then. `None` where more stands there.
pub(crate) fn noreply_of(args: &[u8]) -> Option<bool>
    ensures found { IfSome result (λ noreply. IsLast (words_in args.now) noreply) }
    ensures none { IfNone result ((noreply : Bool) → IsLast (words_in args.now) noreply → ⊥) }
{
    let Some((word, rest)) = next_word(args) else {
        return Some(false);
    };
    if !is_noreply(word) || !has_ended(rest) {
        return None;
    }
    Some(true)
}

fn is_noreply(word: &[u8]) -> bool
    ensures { MatchBool result (word.now ≡ codes "noreply") (word.now ≡ codes "noreply" → ⊥) }
{
    word == b"noreply".as_slice()
}
