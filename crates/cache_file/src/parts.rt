// The parts of a text, taken off its front.
ghost use Rattle.std.specs.Prelude.{◌≡◌, ◌≢◌, ◌∷◌, ◌++◌, ◌<◌, ◌^◌, ℕ, List, All, length, decimal, IfSome, IfNone};
ghost use Rattle.cache_file.specs.Texts.{part_text};

use rows_model::number_of;

/// What stands before the first such byte, and what behind it.
pub(crate) fn cut(text: &[u8], byte: u8) -> Option<(&[u8], &[u8])>
    ensures found { IfSome result (λ read. text.now ≡ read.0.now ++ byte ∷ read.1.now) }
    ensures first { IfSome result (λ read. All (λ b. b ≢ byte) read.0.now) }
    ensures none { IfNone result (All (λ b. b ≢ byte) text.now) }
{
    let at = text.iter().position(|b| *b == byte)?;
    Some((&text[..at], &text[at + 1..]))
}

// The number below 2^64 on the first line, and what stands behind it.
fn number_on_line(text: &[u8]) -> Option<(u64, &[u8])>
    ensures found { IfSome result (λ read. text.now ≡ decimal read.0 ++ 10 ∷ read.1.now) }
    ensures small { IfSome result (λ read. read.0 < 2 ^ 64) }
    ensures none { IfNone result ((number : ℕ) (rest : List ℕ) → number < 2 ^ 64
        → text.now ≡ decimal number ++ 10 ∷ rest → ⊥) }
{
    let (word, rest) = cut(text, b'\n')?;
    let number = number_of(word)?;
    Some((number, rest))
}

/// The dump's text that stands in front with its length on a line, and what stands behind it.
pub(crate) fn part_of(text: &[u8]) -> Option<(&[u8], &[u8])>
    ensures found { IfSome result (λ read. text.now ≡ part_text read.0.now ++ read.1.now) }
    ensures none { IfNone result
        ((dump rest : List ℕ) → text.now ≡ part_text dump ++ rest → ⊥) }
{
    let (bytes, rest) = number_on_line(text)?;
    if bytes > rest.len() as u64 {
        return None;
    }
    Some(rest.split_at(bytes as usize))
}
