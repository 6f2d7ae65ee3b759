// How far a script has come.
ghost use Rattle.std.specs.Prelude.{◌≡◌, ◌+◌, ◌≤◌, ◌<◌, ◌^◌, nat_lt, IfOk, IfErr, IfSome, IfNone, IsTrue, ◌↔◌};
ghost use Rattle.run_inputs.specs.declared.stages.Stage.TheVariants as stage;
ghost use Rattle.run_inputs.specs.declared.lines.Line.{Line};
ghost use Rattle.run_inputs.specs.Lines.{most, verb_of};
ghost use Rattle.run_inputs.specs.Script.{is_in_place, sessions_in, turns_in, shape_with, shape_after, stage_after, after, start, is_numbered, Says, IsPlaced, IsFaulty};
ghost use Rattle.run_inputs.specs.Parsing.{IsWithin};

use crate::faults::ScriptKind;
use crate::lines::{Line, Part, line_of};
use session_client::Shape;

// The longest line, in bytes before its line feed.
const LONGEST_LINE: usize = 2048;

// The most turns, ticks and sweeps of a script.
const MOST_TURNS: u32 = 1_000_000;

/// Which line was the last one.
#[derive(Clone, Copy, PartialEq, Eq)]
pub enum Stage {
    /// There was none.
    Start,
    /// This line of the head.
    Head { last: Part },
    /// A line of a session, a turn, a tick or a sweep.
    Body,
    /// The line `end`.
    End,
}

/// What the lines so far come to.
#[derive(Clone, Copy)]
pub struct Progress {
    pub stage: Stage,
    pub shape: Shape,
    /// How many session lines there were.
    pub begun: u64,
    /// How many turns, ticks and sweeps.
    pub turns: u32,
}

impl Stage {
    // Whether the line may stand next.
    fn has_place_for(self, line: &Line) -> bool
        ensures { result ≡ is_in_place self (verb_of line.now) }
    {
        match (self, line) {
            (Stage::Start, Line::Head { part, .. }) => *part == Part::Members,
            (Stage::Head { last }, Line::Head { part, .. }) => last.place() < part.place(),
            (_, Line::Head { .. }) | (Stage::Start, _) => false,
            _ => true,
        }
    }

    // Whether the line `end` was the last one.
    fn is_end(self) -> bool
        ensures { IsTrue result ↔ (self ≡ stage.End) }
    {
        self == Stage::End
    }
}

impl Line {
    // How many sessions the line begins.
    fn sessions(&self) -> u64
        ensures { result ≡ sessions_in self.now }
    {
        match self {
            Line::Session { .. } => 1,
            _ => 0,
        }
    }

    // How many turns, ticks and sweeps the line is.
    fn turns(&self) -> u32
        ensures { result ≡ turns_in self.now }
    {
        match self {
            Line::Turn { count, .. } | Line::Sweep { count } => count.unwrap_or(1),
            Line::Tick { .. } => 1,
            _ => 0,
        }
    }

    // What the line makes the last one.
    fn stage(&self) -> Stage
        ensures { result ≡ stage_after self.now }
    {
        match self {
            Line::Head { part, .. } => Stage::Head { last: *part },
            Line::End => Stage::End,
            _ => Stage::Body,
        }
    }

    // Whether the session's number is the next one after so many, or the turn is of one of these.
    fn is_numbered(&self, begun: u64) -> bool
        requires { begun + 1 < 2 ^ 64 }
        ensures { result ≡ is_numbered begun self.now }
    {
        match self {
            Line::Session { number, .. } => *number == Some(begun + 1),
            Line::Turn { number, .. } => number.is_some_and(|number| 1 <= number
                && number <= begun),
            _ => true,
        }
    }
}

// The shape with this number of the head.
fn shape_with(part: Part, number: u64, shape: Shape) -> Shape
    requires { number ≤ most part }
    ensures { result ≡ shape_with part number shape }
{
    match part {
        Part::Members => Shape {
            members: number as u32,
            ..shape
        },
        Part::Shards => Shape {
            shards: number as u32,
            ..shape
        },
        Part::Room => Shape {
            room: number as u32,
            ..shape
        },
        Part::Life => Shape {
            life: number,
            ..shape
        },
    }
}

impl Progress {
    /// No line yet.
    pub(crate) fn start() -> Progress
        ensures { result ≡ start }
    {
        Progress {
            stage: Stage::Start,
            shape: Shape {
                members: 0,
                shards: 1,
                room: 16,
                life: 100,
            },
            begun: 0,
            turns: 0,
        }
    }

    /// What the lines come to with this one more.
    pub(crate) fn after(&self, line: &Line) -> Progress
        requires within { IsWithin line.now }
        requires few { self.now.begun + 1 < 2 ^ 64 }
        requires short { self.now.turns + turns_in line.now ≤ 1000000 }
        ensures { result ≡ after self.now line.now }
    {
        Progress {
            stage: line.stage(),
            shape: self.shape_after(line),
            begun: self.begun + line.sessions(),
            turns: self.turns + line.turns(),
        }
    }

    fn shape_after(&self, line: &Line) -> Shape
        requires { IsWithin line.now }
        ensures { result ≡ shape_after line.now self.now.shape }
    {
        match line {
            Line::Head { part, number } => shape_with(*part, *number, self.shape),
            _ => self.shape,
        }
    }

    /// Whether the line `end` was the last one.
    pub(crate) fn has_ended(&self) -> bool
        ensures { IsTrue result ↔ (self.now.stage ≡ stage.End) }
    {
        self.stage.is_end()
    }

    /// Whether with the line the turns, ticks and sweeps are too many.
    pub(crate) fn is_full_at(&self, line: &Line) -> bool
        ensures { result ≡ nat_lt 1000000 (self.now.turns + turns_in line.now) }
    {
        self.turns.saturating_add(line.turns()) > MOST_TURNS
    }

    /// What the next line says in its place, if the number of its session is right, or its first
    /// fault so far.
    pub(crate) fn read(&self, line: &[u8]) -> Result<Line, ScriptKind>
        requires { self.now.begun + 1 < 2 ^ 64 }
        ensures said { IfOk result (λ said. IsPlaced self.now line.now said) }
        ensures fault { IfErr result (λ kind. IsFaulty self.now line.now kind) }
    {
        if line.len() > LONGEST_LINE {
            return Err(ScriptKind::LongLine);
        }
        if self.has_ended() {
            return Err(ScriptKind::AfterEnd);
        }
        let Some(said) = self.said_by(line) else {
            return Err(ScriptKind::Form);
        };
        if !said.is_numbered(self.begun) {
            return Err(ScriptKind::Number);
        }
        Ok(said)
    }

    // What the line says, if it may stand next.
    fn said_by(&self, line: &[u8]) -> Option<Line>
        ensures said { IfSome result (λ said. Says self.now line.now said) }
        ensures none { IfNone result ((said : Line) → Says self.now line.now said → ⊥) }
    {
        let said = line_of(line)?;
        if self.stage.has_place_for(&said) {
            Some(said)
        } else {
            None
        }
    }
}
