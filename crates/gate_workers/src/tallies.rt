ghost use Rattle.std.specs.Prelude.{◌≡◌, ◌-◌, ◌^◌, sum_by, min};
ghost use Rattle.gate_workers.specs.Tallies.{is_again, is_one, agains_in, count_of};

use crate::marks::{Mark, Response};
use crate::transcripts::{Row, Transcript};
use session_client::Outcome;
use sql_keeper::CommitFault;

/// What is counted in a transcript.
#[derive(Clone, Copy, PartialEq, Eq)]
pub struct Tally {
    /// How many readers got an entry.
    pub hits: u64,
    /// How many readers stored the store's answer.
    pub stores: u64,
    /// How many readers had a lease that stood no longer.
    pub voids: u64,
    /// How often a session was told to try again. It stands still at its type's end.
    pub agains: u64,
    /// How many readers had no lease.
    pub bypasses: u64,
    /// How many writers committed.
    pub commits: u64,
    /// How many writers had a change that doesn't apply.
    pub rejected: u64,
    /// How many writers were refused a quarantine.
    pub refused: u64,
}

impl Transcript {
    ghost use Rattle.gate_workers.specs.Tallies.{tally_of};

    /// The counts of the transcript. It takes no memory.
    pub fn tally(&self) -> Tally
        ensures { result ≡ tally_of self.now }
    {
        let rows = self.rows();
        Tally {
            hits: count(rows, Counted::Hit),
            stores: count(rows, Counted::Stored),
            voids: count(rows, Counted::Void),
            agains: agains(rows),
            bypasses: count(rows, Counted::Bypass),
            commits: count(rows, Counted::Committed),
            rejected: count(rows, Counted::Rejected),
            refused: count(rows, Counted::Refused),
        }
    }
}

/// An outcome that is counted.
#[derive(Clone, Copy)]
enum Counted {
    Hit,
    Stored,
    Void,
    Bypass,
    Committed,
    Rejected,
    Refused,
}

/// Whether the session of the row has this outcome.
fn is_one(counted: Counted, row: &Row) -> bool
    ensures { result ≡ is_one counted row.now.outcome }
{
    matches!(
        (counted, row.outcome()),
        (Counted::Hit, Outcome::Hit)
            | (Counted::Stored, Outcome::Stored)
            | (Counted::Void, Outcome::Void)
            | (Counted::Bypass, Outcome::Bypass)
            | (Counted::Committed, Outcome::Committed { number: _ })
            | (
                Counted::Rejected,
                Outcome::NotCommitted {
                    fault: CommitFault::Rejected { index: _ },
                },
            )
            | (Counted::Refused, Outcome::Refused { holder: _, mode: _ })
    )
}

/// How many rows have this outcome.
fn count(rows: &[Row], counted: Counted) -> u64
    ensures { result ≡ count_of counted rows.now }
{
    let mut count = 0u64;
    for row in rows {
        if is_one(counted, row) {
            count += 1;
        }
    }
    count
}

/// Whether a session was told to try again.
fn is_again(mark: &Mark) -> bool
    ensures { result ≡ is_again mark.now.response }
{
    matches!(mark.response, Response::Again { standing: _ })
}

/// How often the session of a row was told to try again.
fn agains_in(row: &Row) -> u64
    ensures { result ≡ agains_in row.now }
{
    row.marks().iter().filter(|mark| is_again(mark)).count() as u64
}

/// How often the sessions were told so. It stands still at its type's end.
fn agains(rows: &[Row]) -> u64
    ensures { result ≡ min (sum_by agains_in rows.now) (2 ^ 64 - 1) }
{
    let mut agains = 0u64;
    for row in rows {
        agains = agains.saturating_add(agains_in(row));
    }
    agains
}
