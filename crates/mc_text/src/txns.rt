// The transaction that words say.
ghost use Rattle.std.specs.Prelude.{◌≡◌, ◌∷◌, true, false, List, IfSome, IfNone, IfOk, OnErr};
ghost use Rattle.rows_model.specs.declared.changes.Change.{Change};
ghost use Rattle.change_words.specs.Txns.{AreTxnWords};
ghost use Rattle.change_words.specs.Parsing.{BeginsWith, BeginsWithNone};
ghost use Rattle.mc_text.specs.Words.{words_in};

use crate::words::next_word;
use change_words::{MOST_CHANGES, change_of, is_plus, whole_txn};
use rows_model::{Change, Memory, Txn};
use std::alloc::Global;

/// The transaction of which these are the words: 1 to 8 changes, joined by `+`. Memory is asked for
/// only where they are the words of one.
pub(crate) fn txn_of(alloc: Global, words: &[u8]) -> Result<Option<Txn>, Memory>
    ensures found { IfOk result (λ read. IfSome read
        (λ txn. AreTxnWords txn (words_in words.now))) }
    ensures none { IfOk result (λ read. IfNone read
        ((txn : List Change) → AreTxnWords txn (words_in words.now) → ⊥)) }
    ensures memory { OnErr result
        ((txn : List Change) × AreTxnWords txn (words_in words.now)) }
{
    if !are_txn(words) {
        return Ok(None);
    }
    read_txn(alloc, words)
}

// Whether these are the words of a transaction. It takes no memory.
fn are_txn(words: &[u8]) -> bool
    ensures yes { result ≡ true → (txn : List Change) × AreTxnWords txn (words_in words.now) }
    ensures no { result ≡ false →
        (txn : List Change) → AreTxnWords txn (words_in words.now) → ⊥ }
{
    let mut rest = words;
    for _ in 0..MOST_CHANGES {
        let Some((_change, behind)) = first_change(rest) else {
            return false;
        };
        let Some((word, more)) = next_word(behind) else {
            return true;
        };
        if !is_plus(word) {
            return false;
        }
        rest = more;
    }
    false
}

// The transaction of which these are the words. Its changes are kept while they are read.
fn read_txn(alloc: Global, words: &[u8]) -> Result<Option<Txn>, Memory>
    ensures found { IfOk result (λ read. IfSome read
        (λ txn. AreTxnWords txn (words_in words.now))) }
    ensures none { IfOk result (λ read. IfNone read
        ((txn : List Change) → AreTxnWords txn (words_in words.now) → ⊥)) }
{
    let mut changes = Vec::new(alloc);
    let mut rest = words;
    for _ in 0..MOST_CHANGES {
        let Some((change, behind)) = first_change(rest) else {
            return Ok(None);
        };
        changes.push(change)?;
        let Some((word, more)) = next_word(behind) else {
            let txn = whole_txn(alloc, changes.as_slice())?;
            return Ok(Some(txn));
        };
        if !is_plus(word) {
            return Ok(None);
        }
        rest = more;
    }
    Ok(None)
}

// The change that the first three words are, and what stands behind them.
fn first_change(text: &[u8]) -> Option<(Change, &[u8])>
    ensures found { IfSome result
        (λ read. BeginsWith read.0 (words_in text.now) (words_in read.1.now)) }
    ensures none { IfNone result (BeginsWithNone (words_in text.now)) }
{
    let (word, rest) = next_word(text)?;
    let (first, rest) = next_word(rest)?;
    let (second, rest) = next_word(rest)?;
    let change = change_of(word, first, second)?;
    Some((change, rest))
}
