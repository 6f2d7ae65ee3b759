// The verbs of commands, and the words that they are written by.
ghost use Rattle.std.specs.Prelude.{◌≡◌, IfSome, IfNone};
ghost use Rattle.mc_text.specs.declared.verb_words.LeaseVerb.{LeaseVerb};
ghost use Rattle.mc_text.specs.declared.verb_words.Verb.{Verb};
ghost use Rattle.mc_text.specs.Verbs.{lease_text, text_of};

use crate::plain_verb_words::{PlainVerb, plain_verb};

/// A verb of a lease command.
#[derive(Clone, Copy, PartialEq, Eq)]
pub enum LeaseVerb {
    Begin,
    IqGet,
    Ask,
    Stage,
    IqSet,
    QaReg,
    QaRead,
    IqDelta,
    Sql,
    Dar,
    Sar,
    IqCommit,
    IqAbort,
    Quit,
}

/// A verb of a command.
#[derive(Clone, Copy, PartialEq, Eq)]
pub enum Verb {
    Lease(LeaseVerb),
    Plain(PlainVerb),
}

impl LeaseVerb {
    /// The verb as it is written.
    pub fn text(self) -> &'static [u8]
        ensures { result.now ≡ lease_text self }
    {
        match self {
            LeaseVerb::Begin => b"begin",
            LeaseVerb::IqGet => b"iqget",
            LeaseVerb::Ask => b"ask",
            LeaseVerb::Stage => b"stage",
            LeaseVerb::IqSet => b"iqset",
            LeaseVerb::QaReg => b"qareg",
            LeaseVerb::QaRead => b"qaread",
            LeaseVerb::IqDelta => b"iqdelta",
            LeaseVerb::Sql => b"sql",
            LeaseVerb::Dar => b"dar",
            LeaseVerb::Sar => b"sar",
            LeaseVerb::IqCommit => b"iqcommit",
            LeaseVerb::IqAbort => b"iqabort",
            LeaseVerb::Quit => b"quit",
        }
    }
    /// The verb that the word is.
    #[inline]
    pub fn of_word(word: &[u8]) -> Option<LeaseVerb>
        ensures found { IfSome result (λ verb. word.now ≡ lease_text verb) }
        ensures none { IfNone result ((verb : LeaseVerb) → word.now ≡ lease_text verb → ⊥) }
    {
        match word {
            b"begin" => Some(LeaseVerb::Begin),
            b"iqget" => Some(LeaseVerb::IqGet),
            b"ask" => Some(LeaseVerb::Ask),
            b"stage" => Some(LeaseVerb::Stage),
            b"iqset" => Some(LeaseVerb::IqSet),
            b"qareg" => Some(LeaseVerb::QaReg),
            b"qaread" => Some(LeaseVerb::QaRead),
            b"iqdelta" => Some(LeaseVerb::IqDelta),
            b"sql" => Some(LeaseVerb::Sql),
            b"dar" => Some(LeaseVerb::Dar),
            b"sar" => Some(LeaseVerb::Sar),
            b"iqcommit" => Some(LeaseVerb::IqCommit),
            b"iqabort" => Some(LeaseVerb::IqAbort),
            b"quit" => Some(LeaseVerb::Quit),
            _ => None,
        }
    }
}

impl Verb {
    /// The verb as it is written.
    pub fn text(self) -> &'static [u8]
        ensures { result.now ≡ text_of self }
    {
        match self {
            Verb::Lease(verb) => verb.text(),
            Verb::Plain(verb) => verb.text(),
        }
    }

    /// The verb that the word is.
    #[inline]
    pub fn of_word(word: &[u8]) -> Option<Verb>
        ensures found { IfSome result (λ verb. word.now ≡ text_of verb) }
        ensures none { IfNone result ((verb : Verb) → word.now ≡ text_of verb → ⊥) }
    {
        if let Some(verb) = LeaseVerb::of_word(word) {
            return Some(Verb::Lease(verb));
        }
        let verb = plain_verb(word)?;
        Some(Verb::Plain(verb))
    }
}
