ghost use Rattle.std.specs.Prelude.{◌≡◌};
ghost use Rattle.run_inputs.specs.Script.{kind_word};

/// What is wrong with a line of a text, or with the text as a whole.
#[derive(Clone, Copy, PartialEq, Eq)]
pub enum ScriptKind {
    /// The text has more than 16,777,216 bytes. The line is then 0.
    LongText,
    /// The line has more than 2,048 bytes.
    LongLine,
    /// The line is of no form, or stands at a wrong place in the head, or has a number out of its
    /// range.
    Form,
    /// A session line's number isn't the next one, or a turn is of a session that no line before
    /// began.
    Number,
    /// The key of a `look` or `skip` line isn't one that its transaction touches.
    Key,
    /// With this line the turns, ticks and sweeps are more than 1,000,000.
    Turns,
    /// The text ends without the line `end`. The line is one more than the number of lines.
    NoEnd,
    /// The line stands behind the line `end`.
    AfterEnd,
}

/// Why a text was not read as a script.
#[derive(Clone, Copy, PartialEq, Eq)]
pub enum ScriptFault {
    /// This line, from 1, is the first that has a fault, and this is the first kind of fault that
    /// it has.
    Bad { line: u64, kind: ScriptKind },
    /// Memory ran out for the act of a line: a session, turns, a tick or sweeps. No line before it
    /// has a fault, and it has none itself, or none but that of its key.
    Memory,
}

impl ScriptKind {
    /// The kind's name in lower case, as messages have it.
    pub fn word(self) -> &'static str
        ensures { result.now ≡ kind_word self }
    {
        match self {
            ScriptKind::LongText => "longtext",
            ScriptKind::LongLine => "longline",
            ScriptKind::Form => "form",
            ScriptKind::Number => "number",
            ScriptKind::Key => "key",
            ScriptKind::Turns => "turns",
            ScriptKind::NoEnd => "noend",
            ScriptKind::AfterEnd => "afterend",
        }
    }
}
