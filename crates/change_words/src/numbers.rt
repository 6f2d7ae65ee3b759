// The id of a member that a word is.
ghost use Rattle.std.specs.Prelude.{◌≡◌, ℕ, IfSome, IfNone};
ghost use Rattle.change_words.specs.Txns.{IsId};

use rows_model::number_of;

/// The id that the word is: such a number from 1 and below 2^32; `None` where it is none.
pub fn id_of(word: &[u8]) -> Option<u32>
    ensures found { IfSome result (λ id. IsId word.now id) }
    ensures none { IfNone result ((id : ℕ) → IsId word.now id → ⊥) }
{
    let number = number_of(word)?;
    if number < 1 || number > 4_294_967_295 {
        return None;
    }
    Some(number as u32)
}
