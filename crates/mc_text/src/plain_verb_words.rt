// The verbs of plain commands.
ghost use Rattle.std.specs.Prelude.{◌≡◌, IfSome, IfNone};
ghost use Rattle.mc_text.specs.declared.plain_verb_words.PlainVerb.{PlainVerb};
ghost use Rattle.mc_text.specs.PlainVerbs.{text_of};

/// A verb of a plain command.
#[derive(Clone, Copy, PartialEq, Eq)]
pub enum PlainVerb {
    Get,
    Gets,
    Set,
    Add,
    Replace,
    Cas,
    Delete,
    Incr,
    Decr,
}

impl PlainVerb {
    /// The verb as it is written.
    pub fn text(self) -> &'static [u8]
        ensures { result.now ≡ text_of self }
    {
        match self {
            PlainVerb::Get => b"get",
            PlainVerb::Gets => b"gets",
            PlainVerb::Set => b"set",
            PlainVerb::Add => b"add",
            PlainVerb::Replace => b"replace",
            PlainVerb::Cas => b"cas",
            PlainVerb::Delete => b"delete",
            PlainVerb::Incr => b"incr",
            PlainVerb::Decr => b"decr",
        }
    }
}

/// The verb that the word is.
#[inline]
pub fn plain_verb(word: &[u8]) -> Option<PlainVerb>
    ensures found { IfSome result (λ verb. word.now ≡ text_of verb) }
    ensures none { IfNone result ((verb : PlainVerb) → word.now ≡ text_of verb → ⊥) }
{
    match word {
        b"get" => Some(PlainVerb::Get),
        b"gets" => Some(PlainVerb::Gets),
        b"set" => Some(PlainVerb::Set),
        b"add" => Some(PlainVerb::Add),
        b"replace" => Some(PlainVerb::Replace),
        b"cas" => Some(PlainVerb::Cas),
        b"delete" => Some(PlainVerb::Delete),
        b"incr" => Some(PlainVerb::Incr),
        b"decr" => Some(PlainVerb::Decr),
        _ => None,
    }
}
