// What a line of a script says, by its words.
ghost use Rattle.std.specs.Prelude.{◌≡◌, ◌≤◌, IfSome, IfNone};
ghost use Rattle.std.specs.Option.{option_copied};
ghost use Rattle.run_inputs.specs.declared.lines.Verb.TheVariants as verb;
ghost use Rattle.run_inputs.specs.Texts.{words_in};
ghost use Rattle.run_inputs.specs.Lines.{most, verb_word, AreWords};
ghost use Rattle.run_inputs.specs.Script.{place_of};
ghost use Rattle.run_inputs.specs.Parsing.{words_behind, fault_at, IsLineOf, IsNoLine};

use crate::cuts::{count_of, cut, only_number, session_number};
use crate::faults::{ScriptFault, ScriptKind};
use crate::jobs::job_of;
use crate::txns::Changes;
use lease_table::Mode;
use rows_model::{Memory, QKey};

/// A line of the head.
#[derive(Clone, Copy, PartialEq, Eq)]
pub enum Part {
    Members,
    Shards,
    Room,
    Life,
}

/// What a session line is for.
#[derive(Clone, Copy)]
pub enum Task {
    Read,
    Write,
    Look,
    Quit,
    Skip,
    Raise,
    Renew,
}

/// The first word of a line.
#[derive(Clone, Copy)]
pub enum Verb {
    Head { part: Part },
    Session { task: Task },
    Turn,
    Tick,
    Sweep,
    End,
}

/// What the words behind a session's number say.
#[derive(Drop)]
pub enum Job {
    /// Read a key, with a floor if there is one.
    Read { key: QKey, floor: Option<u64> },
    /// Write in this mode.
    Write { mode: Mode, txn: Changes },
    /// Write in this mode, and look at this key before the commit.
    Look { mode: Mode, key: QKey, txn: Changes },
    /// Write in this mode up to the commit, and end without it.
    Quit { mode: Mode, txn: Changes },
    /// Write in mode invalidate, without the quarantine of this key.
    Skip { key: QKey, txn: Changes },
    /// Write in mode invalidate, and raise each quarantine before the commit.
    Raise { txn: Changes },
    /// Write in this mode, and renew each quarantine before the commit.
    Renew { mode: Mode, txn: Changes },
}

/// What a line says. The number of a session is told if it is below 2^64; no session has a greater
/// one.
#[derive(Drop)]
pub enum Line {
    /// A line of the head, and its number.
    Head {
        part: Part,
        number: u64,
    },
    /// The session of this number begins.
    Session {
        number: Option<u64>,
        job: Job,
    },
    /// So many turns of the session of this number.
    Turn {
        number: Option<u64>,
        count: Option<u32>,
    },
    /// The clock goes on by so many ticks.
    Tick {
        ticks: u64,
    },
    /// So many steps of the sweeper.
    Sweep {
        count: Option<u32>,
    },
    /// The last line.
    End,
}

/// Why a line was not taken.
#[derive(Clone, Copy)]
pub enum LineFault {
    /// This is its first fault.
    Bad { kind: ScriptKind },
    /// Memory ran out for its act. It has no fault, or none but that of its key.
    Memory,
}

impl LineFault {
    /// The fault of a text in which this is the line's, by the line's number.
    pub(crate) fn at(self, line: u64) -> ScriptFault
        ensures { result ≡ fault_at line self }
    {
        match self {
            LineFault::Bad { kind } => ScriptFault::Bad { line, kind },
            LineFault::Memory => ScriptFault::Memory,
        }
    }
}

impl From<ScriptKind> for LineFault {
    ghost use Rattle.run_inputs.specs.declared.lines.LineFault.TheVariants.{Bad};

    ghost from_gives = { λ kind fault. fault ≡ Bad kind };

    fn from(kind: ScriptKind) -> LineFault {
        LineFault::Bad { kind }
    }
}

impl From<Memory> for LineFault {
    ghost use Rattle.run_inputs.specs.declared.lines.LineFault.TheVariants.{Memory};

    ghost from_gives = { λ _ fault. fault ≡ Memory };

    fn from(_memory: Memory) -> LineFault {
        LineFault::Memory
    }
}

impl Part {
    /// The most that the number of such a line may be.
    pub(crate) fn most(self) -> u64
        ensures { result ≡ most self }
    {
        match self {
            Part::Members => 100_000,
            Part::Shards => 64,
            Part::Room => 65_536,
            Part::Life => u64::MAX,
        }
    }

    /// The place of such a line in the head, from 1.
    pub(crate) fn place(self) -> u32
        ensures { result ≡ place_of self }
    {
        match self {
            Part::Members => 1,
            Part::Shards => 2,
            Part::Room => 3,
            Part::Life => 4,
        }
    }
}

impl Verb {
    /// The verb of which this is the word.
    fn of_word(word: &[u8]) -> Option<Verb>
        ensures found { IfSome result (λ verb. word.now ≡ verb_word verb) }
        ensures none { IfNone result ((verb : Verb) → word.now ≡ verb_word verb → ⊥) }
    {
        match word {
            b"members" => Some(Verb::Head {
                part: Part::Members,
            }),
            b"shards" => Some(Verb::Head { part: Part::Shards }),
            b"room" => Some(Verb::Head { part: Part::Room }),
            b"life" => Some(Verb::Head { part: Part::Life }),
            b"read" => Some(Verb::Session { task: Task::Read }),
            b"write" => Some(Verb::Session { task: Task::Write }),
            b"look" => Some(Verb::Session { task: Task::Look }),
            b"quit" => Some(Verb::Session { task: Task::Quit }),
            b"skip" => Some(Verb::Session { task: Task::Skip }),
            b"raise" => Some(Verb::Session { task: Task::Raise }),
            b"renew" => Some(Verb::Session { task: Task::Renew }),
            b"turn" => Some(Verb::Turn),
            b"tick" => Some(Verb::Tick),
            b"sweep" => Some(Verb::Sweep),
            b"end" => Some(Verb::End),
            _ => None,
        }
    }
}

/// What the line says, or `None` exactly where it has the words of no line.
pub(crate) fn line_of(line: &[u8]) -> Option<Line>
    ensures found { IfSome result (λ said. AreWords said (words_in line.now)) }
    ensures none { IfNone result ((said : Line) → AreWords said (words_in line.now) → ⊥) }
{
    let (word, args) = cut(line, b' ');
    with_verb(Verb::of_word(word)?, args)
}

// What the words behind the verb say.
fn with_verb(verb: Verb, args: Option<&[u8]>) -> Option<Line>
    ensures found { IfSome result
        (λ said. IsLineOf verb (words_behind (option_copied args.entry)) said) }
    ensures none { IfNone result (IsNoLine verb (words_behind (option_copied args.entry))) }
{
    match verb {
        Verb::Head { part } => head_of(part, args),
        Verb::Session { task } => session_of(task, args),
        Verb::Turn => turn_of(args),
        Verb::Tick => tick_of(args),
        Verb::Sweep => sweep_of(args),
        Verb::End => end_of(args),
    }
}

fn head_of(part: Part, args: Option<&[u8]>) -> Option<Line>
    ensures found { IfSome result
        (λ said. IsLineOf (verb.Head part) (words_behind (option_copied args.entry)) said) }
    ensures none { IfNone result
        (IsNoLine (verb.Head part) (words_behind (option_copied args.entry))) }
{
    let number = only_number(args)?;
    if number < 1 || number > part.most() {
        return None;
    }
    Some(Line::Head { part, number })
}

fn session_of(task: Task, args: Option<&[u8]>) -> Option<Line>
    ensures found { IfSome result
        (λ said. IsLineOf (verb.Session task) (words_behind (option_copied args.entry)) said) }
    ensures none { IfNone result
        (IsNoLine (verb.Session task) (words_behind (option_copied args.entry))) }
{
    let (word, more) = cut(args?, b' ');
    let number = session_number(word)?;
    let job = job_of(task, more)?;
    Some(Line::Session { number, job })
}

fn turn_of(args: Option<&[u8]>) -> Option<Line>
    ensures found { IfSome result
        (λ said. IsLineOf verb.Turn (words_behind (option_copied args.entry)) said) }
    ensures none { IfNone result (IsNoLine verb.Turn (words_behind (option_copied args.entry))) }
{
    let (word, more) = cut(args?, b' ');
    let number = session_number(word)?;
    let count = count_of(more)?;
    Some(Line::Turn { number, count })
}

fn tick_of(args: Option<&[u8]>) -> Option<Line>
    ensures found { IfSome result
        (λ said. IsLineOf verb.Tick (words_behind (option_copied args.entry)) said) }
    ensures none { IfNone result (IsNoLine verb.Tick (words_behind (option_copied args.entry))) }
{
    let ticks = only_number(args)?;
    Some(Line::Tick { ticks })
}

fn sweep_of(args: Option<&[u8]>) -> Option<Line>
    ensures found { IfSome result
        (λ said. IsLineOf verb.Sweep (words_behind (option_copied args.entry)) said) }
    ensures none { IfNone result (IsNoLine verb.Sweep (words_behind (option_copied args.entry))) }
{
    let count = count_of(args)?;
    Some(Line::Sweep { count })
}

fn end_of(args: Option<&[u8]>) -> Option<Line>
    ensures found { IfSome result
        (λ said. IsLineOf verb.End (words_behind (option_copied args.entry)) said) }
    ensures none { IfNone result (IsNoLine verb.End (words_behind (option_copied args.entry))) }
{
    match args {
        Some(_) => None,
        None => Some(Line::End),
    }
}
