// The change that three words say, and the transaction of changes.
ghost use Rattle.std.specs.Prelude.{◌≡◌, ◌≢◌, IfSome, IfNone, IfOk, codes};
ghost use Rattle.std.specs.Bool.{MatchBool};
ghost use Rattle.rows_model.specs.declared.changes.Change.{Change};
ghost use Rattle.rows_model.specs.Changes.{IsTxn};
ghost use Rattle.change_words.specs.Txns.{change_word, AreSides};
ghost use Rattle.change_words.specs.Parsing.{IsPair};

use crate::numbers::id_of;
use rows_model::{Change, Memory, Name, Txn, TxnFault};
use std::alloc::Global;

/// The most changes of a transaction.
pub const MOST_CHANGES: usize = 8;

/// The change of which these are the word and the sides; `None` where they are those of no change.
pub fn change_of(word: &[u8], first: &[u8], second: &[u8]) -> Option<Change>
    ensures word { IfSome result (λ change. word.now ≡ change_word change) }
    ensures sides { IfSome result (λ change. AreSides change first.now second.now) }
    ensures none { IfNone result
        ((change : Change) → word.now ≡ change_word change → AreSides change first.now second.now → ⊥) }
{
    let a = id_of(first)?;
    if word == b"rename".as_slice() {
        let name = Name::of(second)?;
        return Some(Change::Rename { a, name });
    }
    pair_of(word, a, id_of(second)?)
}

// The change between two members of which this is the word.
fn pair_of(word: &[u8], a: u32, b: u32) -> Option<Change>
    ensures word { IfSome result (λ change. word.now ≡ change_word change) }
    ensures pair { IfSome result (λ change. IsPair change a b) }
    ensures none { IfNone result
        ((change : Change) → word.now ≡ change_word change → change_word change ≢ codes "rename" → ⊥) }
{
    match word {
        b"invite" => Some(Change::Invite { a, b }),
        b"accept" => Some(Change::Accept { a, b }),
        b"reject" => Some(Change::Reject { a, b }),
        b"thaw" => Some(Change::Thaw { a, b }),
        b"block" => Some(Change::Block { a, b }),
        _ => None,
    }
}

/// Whether the word is the one that joins two changes.
pub fn is_plus(word: &[u8]) -> bool
    ensures { MatchBool result (word.now ≡ codes "+") (word.now ≡ codes "+" → ⊥) }
{
    word == b"+".as_slice()
}

/// The transaction of these changes: 1 to 8, with ids and names that may stand in one.
pub fn whole_txn(alloc: Global, changes: &[Change]) -> Result<Txn, Memory>
    requires { IsTxn changes.now }
    ensures { IfOk result (λ txn. txn ≡ changes.now) }
{
    match Txn::of(alloc, changes) {
        Ok(txn) => Ok(txn),
        Err(TxnFault::Length { .. }) => unreachable!(),
        Err(TxnFault::Memory) => Err(Memory),
    }
}
