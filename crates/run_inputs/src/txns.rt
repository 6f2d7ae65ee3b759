// The transaction that words say, before any memory is asked for.
ghost use Rattle.std.specs.Prelude.{◌≡◌, List, IfSome, IfNone, IfOk};
ghost use Rattle.std.specs.Option.{option_copied};
ghost use Rattle.rows_model.specs.declared.changes.Change.{Change};
ghost use Rattle.rows_model.specs.Changes.{touches};
ghost use Rattle.change_words.specs.Txns.{AreTxnWords};
ghost use Rattle.change_words.specs.Parsing.{BeginsWith, BeginsWithNone};
ghost use Rattle.run_inputs.specs.Parsing.{words_behind};

use crate::cuts::cut;
use change_words::{MOST_CHANGES, change_of, is_plus, whole_txn};
use rows_model::{Change, Memory, QKey, Txn, any_touches};
use std::alloc::Global;
use std::marker::Model;

// What a place holds in which no change stands.
const BLANK: Change = Change::Reject { a: 1, b: 1 };

/// The changes of a transaction, 1 to 8, for which no memory was asked. Contracts see the list.
#[derive(Drop)]
pub struct Changes {
    // The changes, and blanks behind them.
    list: [Change; MOST_CHANGES],
    count: usize,
}

impl Model for Changes {
    ghost use Rattle.std.specs.Prelude.{◌≤◌, List, take};
    ghost use Rattle.rows_model.specs.declared.changes.Change.{Change};
    ghost use Rattle.rows_model.specs.Changes.{IsTxn};

    ghost Value = { List Change };

    ghost view = { λ c. take c.count c.list };

    ghost invariant = { λ c. (c.count ≤ 8) × IsTxn (take c.count c.list) };
}

impl Changes {
    /// Whether the key is one that they touch. It takes no memory.
    pub(crate) fn touch(&self, key: &QKey) -> bool
        ensures { result ≡ touches self.now key.now }
    {
        any_touches(&self.list[..self.count], key)
    }

    /// The transaction that they are.
    pub(crate) fn to_txn(&self, alloc: Global) -> Result<Txn, Memory>
        ensures { IfOk result (λ txn. txn ≡ self.now) }
    {
        whole_txn(alloc, &self.list[..self.count])
    }
}

/// The transaction of which these are the words: 1 to 8 changes, joined by `+`.
pub(crate) fn changes_of(args: Option<&[u8]>) -> Option<Changes>
    ensures found { IfSome result
        (λ txn. AreTxnWords txn (words_behind (option_copied args.entry))) }
    ensures none { IfNone result
        ((txn : List Change) → AreTxnWords txn (words_behind (option_copied args.entry)) → ⊥) }
{
    let mut list = [BLANK; MOST_CHANGES];
    let mut rest = args;
    for place in 0..MOST_CHANGES {
        let Some((change, behind)) = first_change(rest) else {
            return None;
        };
        list[place] = change;
        let Some(behind) = behind else {
            return Some(Changes {
                list,
                count: place + 1,
            });
        };
        let (word, more) = cut(behind, b' ');
        if !is_plus(word) {
            return None;
        }
        rest = more;
    }
    None
}

// The change that the first three words are, and what stands behind them if anything does.
fn first_change(text: Option<&[u8]>) -> Option<(Change, Option<&[u8]>)>
    ensures found { IfSome result
        (λ read. BeginsWith read.0 (words_behind (option_copied text.entry))
        (words_behind (option_copied read.1))) }
    ensures none { IfNone result (BeginsWithNone (words_behind (option_copied text.entry))) }
{
    let (word, rest) = cut(text?, b' ');
    let (first, rest) = cut(rest?, b' ');
    let (second, rest) = cut(rest?, b' ');
    let change = change_of(word, first, second)?;
    Some((change, rest))
}
