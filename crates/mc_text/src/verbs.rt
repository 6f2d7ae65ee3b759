ghost use Rattle.std.specs.Prelude.{◌≡◌, IfSome, IfNone};
ghost use Rattle.mc_text.specs.Verbs.{seen, IsRowOf, IsNoVerb, lease_rows, plain_rows};

use crate::plain_verb_words::PlainVerb;
use crate::verb_words::{LeaseVerb, Verb};
use std::marker::Model;

/// What a table says of one verb.
#[derive(Clone, Copy, PartialEq, Eq)]
pub struct VerbRow {
    /// The verb.
    pub which: Verb,
    /// The word that stands first in the line of such a command.
    pub verb: &'static [u8],
    /// How many words stand behind the verb, where that number is fixed. A transaction, which has
    /// some words of its own, counts as one.
    pub fields: u8,
    /// Whether a block of data follows the line.
    pub block: bool,
    /// The number of the row, from 1. It is for readers: nothing is decided by it.
    pub number: u8,
}

/// A table of `N` verbs. Contracts see its rows, in their order.
#[derive(Drop)]
pub struct Verbs<const N: usize> {
    rows: [Row; N],
}

// A row as the table keeps it.
#[derive(Clone, Copy)]
struct Row {
    which: Verb,
    fields: u8,
    block: bool,
    number: u8,
}

impl<const N: usize> Model for Verbs<N> {
    ghost use Rattle.std.specs.Prelude.{List, map};
    ghost use Rattle.mc_text.specs.Verbs.{TableRow, row_of};

    ghost Value = { List TableRow };

    ghost view = { λ verbs. map row_of verbs.rows };
}

impl<const N: usize> Verbs<N> {
    /// A row that has this word as its verb, or `None` exactly where no row has it.
    #[inline]
    pub fn find(&self, word: &[u8]) -> Option<VerbRow>
        ensures found { IfSome result (λ row. IsRowOf self.now word.now (seen row)) }
        ensures none { IfNone result (IsNoVerb self.now word.now) }
    {
        let which = Verb::of_word(word)?;
        for row in &self.rows {
            if row.which == which {
                return Some(VerbRow {
                    which,
                    verb: which.text(),
                    fields: row.fields,
                    block: row.block,
                    number: row.number,
                });
            }
        }
        None
    }
}

/// Writes out the table of verbs of one kind, a row in each line: its number, the verb, how many
/// words stand behind it, and whether a block does.
macro_rules! verbs {
    ($kind:ident $verbs:ident $($number:literal $verb:ident $fields:literal $block:literal;)*) => {
        Verbs {
            rows: [$(Row {
                which: Verb::$kind($verbs::$verb),
                fields: $fields,
                block: $block,
                number: $number,
            }),*],
        }
    };
}

/// The verbs of the lease commands.
pub fn lease_verbs() -> Verbs<14>
    ensures { result ≡ lease_rows }
{
    verbs! {
        Lease LeaseVerb
        1 Begin 1 false;
        2 IqGet 3 false;
        3 Ask 2 false;
        4 Stage 3 false;
        5 IqSet 6 true;
        6 QaReg 2 false;
        7 QaRead 2 false;
        8 IqDelta 3 false;
        9 Sql 2 false;
        10 Dar 2 false;
        11 Sar 5 true;
        12 IqCommit 2 false;
        13 IqAbort 1 false;
        14 Quit 0 false;
    }
}

/// The verbs of the plain commands. Of these, how many words stand behind the verb is told without
/// `noreply`, and of `get` and `gets`, which take any number of keys, as one.
pub fn plain_verbs() -> Verbs<9>
    ensures { result ≡ plain_rows }
{
    verbs! {
        Plain PlainVerb
        15 Get 1 false;
        16 Gets 1 false;
        17 Set 4 true;
        18 Add 4 true;
        19 Replace 4 true;
        20 Cas 5 true;
        21 Delete 1 false;
        22 Incr 2 false;
        23 Decr 2 false;
    }
}
