// A lookup that stands first in a stream, read in one pass. Most commands are lookups.
ghost use Rattle.std.specs.Prelude.{◌≡◌, ◌∷◌, ◌++◌, Some, IfSome};
ghost use Rattle.rows_model.specs.Key.{word_of};
ghost use Rattle.mc_text.specs.Verbs.{lease_text};
ghost use Rattle.mc_text.specs.Commands.{verb_of};
ghost use Rattle.mc_text.specs.declared.verb_words.LeaseVerb.TheVariants.{IqGet};
ghost use Rattle.mc_text.specs.Streams.{IsCommand};
ghost use Rattle.mc_text.specs.Lookups.{BeginsWithKey, BeginsWithNumber};

use crate::commands::Command;
use crate::items::LONGEST_LINE;
use crate::numbers::{LAST_ID, MOST_DIGITS};
use rows_model::{Kind, QKey, Sid};

/// The greatest number behind which one more digit can stand below 2^64, whichever it is.
const LAST_FRONT: u64 = 1_844_674_407_370_955_160;

/// The lookup that stands first in a stream, and how many bytes it takes. It is found where its line has
/// one space between its words and no other, and its key is one of the cache. It takes no memory. `None`
/// says nothing of the stream.
#[inline(always)]
pub fn lookup_front(stream: &[u8]) -> Option<(Command, usize)>
    ensures stands { IfSome result (λ read. IsCommand stream.now read.0 read.1) }
    ensures looks_up { IfSome result (λ read. verb_of read.0 ≡ Some IqGet) }
{
    let args = behind_verb(stream)?;
    let (key, behind_key) = front_key(args)?;
    let (sid, behind_sid) = front_number(behind_space(behind_key)?)?;
    let (floor, behind_floor) = front_number(behind_space(behind_sid)?)?;
    let rest = behind_end(behind_floor)?;
    let taken = stream.len() - rest.len();
    if taken > LONGEST_LINE + 2 {
        return None;
    }
    let command = Command::IqGet {
        key: Some(key),
        sid: Sid { number: sid },
        floor,
    };
    Some((command, taken))
}

// What stands behind the verb of a lookup and one space.
#[inline(always)]
fn behind_verb(stream: &[u8]) -> Option<&[u8]>
    ensures { IfSome result (λ args. stream.now ≡ lease_text IqGet ++ 32 ∷ args.now) }
{
    match stream {
        [b'i', b'q', b'g', b'e', b't', b' ', args @ ..] => Some(args),
        _ => None,
    }
}

// What stands behind one space.
#[inline(always)]
fn behind_space(text: &[u8]) -> Option<&[u8]>
    ensures { IfSome result (λ rest. text.now ≡ 32 ∷ rest.now) }
{
    match text {
        [b' ', rest @ ..] => Some(rest),
        _ => None,
    }
}

// What stands behind the end of a line.
#[inline(always)]
fn behind_end(text: &[u8]) -> Option<&[u8]>
    ensures { IfSome result (λ rest. text.now ≡ 13 ∷ 10 ∷ rest.now) }
{
    match text {
        [b'\r', b'\n', rest @ ..] => Some(rest),
        _ => None,
    }
}

// The key of the cache with which a text begins, and what stands behind it.
#[inline(always)]
fn front_key(text: &[u8]) -> Option<(QKey, &[u8])>
    ensures { IfSome result (λ read. BeginsWithKey text.now read.0 read.1.now) }
{
    let (kind, digits) = front_kind(text)?;
    let [b'1'..=b'9', ..] = digits else {
        return None;
    };
    let (number, rest) = front_number(digits)?;
    if number > LAST_ID {
        return None;
    }
    let id = number as u32;
    Some((QKey { kind, id }, rest))
}

// The kind whose word stands in front, with a colon behind it, and what stands behind that: for each kind one
// comparison with bytes that are known.
#[inline(always)]
fn front_kind(text: &[u8]) -> Option<(Kind, &[u8])>
    ensures { IfSome result (λ read. text.now ≡ word_of read.0 ++ 58 ∷ read.1.now) }
{
    match text {
        [b'p', b'r', b'o', b'f', b'i', b'l', b'e', b':', rest @ ..] => Some((Kind::Profile, rest)),
        [b'f', b'r', b'i', b'e', b'n', b'd', b's', b':', rest @ ..] => Some((Kind::Friends, rest)),
        [b'p', b'e', b'n', b'd', b'i', b'n', b'g', b':', rest @ ..] => Some((Kind::Pending, rest)),
        [
            b'n',
            b'f',
            b'r',
            b'i',
            b'e',
            b'n',
            b'd',
            b's',
            b':',
            rest @ ..,
        ] => { Some((Kind::NFriends, rest)) }
        [
            b'n',
            b'p',
            b'e',
            b'n',
            b'd',
            b'i',
            b'n',
            b'g',
            b':',
            rest @ ..,
        ] => { Some((Kind::NPending, rest)) }
        [b'b', b'l', b'o', b'c', b'k', b'e', b'd', b':', rest @ ..] => Some((Kind::Blocked, rest)),
        _ => None,
    }
}

// The number with which a text begins, and what stands behind its last digit.
#[inline(always)]
fn front_number(text: &[u8]) -> Option<(u64, &[u8])>
    ensures { IfSome result (λ read. BeginsWithNumber text.now read.0 read.1.now) }
{
    let mut number: u64 = 0;
    let mut at = 0;
    while at < text.len() && text[at] >= b'0' && text[at] <= b'9' {
        if number > LAST_FRONT {
            return None;
        }
        number = number * 10 + u64::from(text[at] - b'0');
        at += 1;
    }
    if at == 0 || at > MOST_DIGITS {
        return None;
    }
    Some((number, &text[at..]))
}
