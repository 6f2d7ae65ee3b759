// Lines, words and numbers, cut off the front of a text.
ghost use Rattle.std.specs.Prelude.{◌≡◌, ◌==◌, position, ℕ, ◌<◌, ◌≤◌, [], ◌∷◌, length, Option, IfSome, IfNone};
ghost use Rattle.std.specs.List.{list_all};
ghost use Rattle.std.specs.Option.{option_copied};
ghost use Rattle.rows_model.specs.Shift.{is_digit, is_number};
ghost use Rattle.run_inputs.specs.Texts.{parts_at, lines_in};
ghost use Rattle.run_inputs.specs.Lines.{IsSessionNumber, AreNumber, AreCount};
ghost use Rattle.run_inputs.specs.Parsing.{parts_behind, words_behind};

use rows_model::number_of;

// The most turns of one line.
const MOST_AT_ONCE: u64 = 1_000;

// Where the first such byte stands.
fn place_of(text: &[u8], byte: u8) -> Option<usize>
    ensures { result ≡ position (λ b. b == byte) text.now }
{
    text.iter().position(|b| *b == byte)
}

/// What stands before the first such byte, and what stands behind it if there is one.
pub(crate) fn cut(text: &[u8], byte: u8) -> (&[u8], Option<&[u8]>)
    ensures parts { parts_at byte text.now ≡ result.0.now ∷ parts_behind byte
        (option_copied result.1) }
    ensures shorter { IfSome result.1 (λ rest. length rest.now < length text.now) }
    ensures whole { IfNone result.1 (result.0.now ≡ text.now) }
{
    match place_of(text, byte) {
        Some(at) => (&text[..at], Some(&text[at + 1..])),
        None => (text, None),
    }
}

/// The first line of a text that isn't empty, and the text behind it.
pub(crate) fn first_line(text: &[u8]) -> (&[u8], &[u8])
    requires { 0 < length text.now }
    ensures lines { lines_in text.now ≡ result.0.now ∷ lines_in result.1.now }
    ensures shorter { length result.1.now < length text.now }
{
    let (line, behind) = cut(text, b'\n');
    match behind {
        Some(rest) => (line, rest),
        None => (line, b""),
    }
}

// Whether all bytes are decimal digits.
fn are_digits(word: &[u8]) -> bool
    ensures { result ≡ list_all is_digit word.now }
{
    word.iter().all(|byte| b'0' <= *byte && *byte <= b'9')
}

// Whether the word is a number of any size, with no sign and no leading zero.
fn is_number(word: &[u8]) -> bool
    ensures { result ≡ is_number word.now }
{
    if word.is_empty() {
        return false;
    }
    if word.len() > 1 && word[0] == b'0' {
        return false;
    }
    are_digits(word)
}

/// The number of a session, or that it is too great for one; `None` where the word is no number.
pub(crate) fn session_number(word: &[u8]) -> Option<Option<u64>>
    ensures found { IfSome result (λ number. IsSessionNumber word.now number) }
    ensures none { IfNone result ((number : Option ℕ) → IsSessionNumber word.now number → ⊥) }
{
    if is_number(word) {
        Some(number_of(word))
    } else {
        None
    }
}

/// The number that is the only word.
pub(crate) fn only_number(args: Option<&[u8]>) -> Option<u64>
    ensures found { IfSome result
        (λ number. AreNumber number (words_behind (option_copied args.entry))) }
    ensures none { IfNone result
        ((number : ℕ) → AreNumber number (words_behind (option_copied args.entry)) → ⊥) }
{
    let (word, more) = cut(args?, b' ');
    match more {
        Some(_) => None,
        None => number_of(word),
    }
}

/// The count that is the only word, or that there is none; `None` where there are other words.
pub(crate) fn count_of(args: Option<&[u8]>) -> Option<Option<u32>>
    ensures found { IfSome result
        (λ count. AreCount count (words_behind (option_copied args.entry))) }
    ensures none { IfNone result
        ((count : Option ℕ) → AreCount count (words_behind (option_copied args.entry)) → ⊥) }
{
    let Some(_) = args else {
        return Some(None);
    };
    let count = only_number(args)?;
    if count < 1 || count > MOST_AT_ONCE {
        return None;
    }
    Some(Some(count as u32))
}
