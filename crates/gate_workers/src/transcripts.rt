ghost use Rattle.std.specs.Prelude.{◌≡◌, Some, None, MatchResult};
ghost use Rattle.gate_workers.specs.Rows.{is_short, row_of};

use crate::marks::Mark;
use crate::notes::Notes;
use rows_model::{Memory, Sid};
use session_client::{Fault, Outcome};
use std::marker::Model;

/// What became of one session: its number, how it ended, and the mark of each request that it made.
#[derive(Drop)]
pub struct Row {
    sid: Sid,
    outcome: Outcome,
    marks: Vec<Mark>,
}

impl Model for Row {
    ghost use Rattle.gate_workers.specs.Rows.{RowView};

    ghost Value = { RowView };

    ghost view = { λ row. record { sid = row.sid; outcome = row.outcome; marks = row.marks.items } };
}

impl Row {
    /// The row of this session, which ended so and left these notes. There is none exactly where memory
    /// ran out for the session, or its marks are lost.
    pub(crate) fn of(sid: Sid, outcome: Outcome, notes: Notes) -> Result<Row, Memory>
        ensures { MatchResult result (λ row. row_of sid outcome notes ≡ Some row)
            (λ _. row_of sid outcome notes ≡ None) }
    {
        if is_short(outcome) {
            return Err(Memory);
        }
        match notes.into_marks() {
            Some(marks) => Ok(Row {
                sid,
                outcome,
                marks,
            }),
            None => Err(Memory),
        }
    }

    /// The number of the session.
    pub fn sid(&self) -> Sid
        ensures { result ≡ self.now.sid }
    {
        self.sid
    }

    /// How it ended.
    pub fn outcome(&self) -> Outcome
        ensures { result ≡ self.now.outcome }
    {
        self.outcome
    }

    /// Its requests and their replies in their bare forms, in the order in which they were made.
    pub fn marks(&self) -> &[Mark]
        ensures { result.now ≡ self.now.marks }
    {
        self.marks.as_slice()
    }
}

/// Whether a session ended so by want of memory.
fn is_short(outcome: Outcome) -> bool
    ensures { result ≡ is_short outcome }
{
    matches!(
        outcome,
        Outcome::Failed {
            fault: Fault::Memory
        }
    )
}

/// What a worker's sessions did. Contracts see the list of its rows, one for each plan in their order.
#[derive(Drop)]
pub struct Transcript {
    rows: Vec<Row>,
}

impl Model for Transcript {
    ghost use Rattle.std.specs.Prelude.{List};
    ghost use Rattle.gate_workers.specs.Rows.{RowView};

    ghost Value = { List RowView };

    ghost view = { λ transcript. transcript.rows.items };
}

impl Transcript {
    /// The transcript of these rows. It takes no memory.
    pub(crate) fn of(rows: Vec<Row>) -> Transcript
        ensures { result ≡ rows.items }
    {
        Transcript { rows }
    }

    /// The rows, that of the first plan in front.
    pub fn rows(&self) -> &[Row]
        ensures { result.now ≡ self.now }
    {
        self.rows.as_slice()
    }
}
