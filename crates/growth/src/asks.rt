ghost use Rattle.std.specs.Prelude.{◌≤◌};

use crate::times::Unmeasured;
use rows_model::{Change, Kind, QKey, Rows, Txn, ask};
use std::alloc::Global;

/// How many members each member invites.
const INVITED: u32 = 10;

/// The rows of so many members, at least one and at most 100,000, each of whom has invited ten others.
pub fn linked_rows(alloc: Global, members: u32) -> Result<Rows, Unmeasured> {
    let mut rows = Rows::start(alloc, members.max(1).min(100_000))?;
    for step in 1..INVITED + 1 {
        invite_each(alloc, &mut rows, members, step)?;
    }
    Ok(rows)
}

/// Asks for so many profiles, one after another.
pub fn ask_each(alloc: Global, rows: &Rows, members: u32, count: u32) -> Result<(), Unmeasured> {
    for number in 0..count {
        let key = QKey {
            kind: Kind::Profile,
            id: number % members.max(1) + 1,
        };
        let _value = ask(alloc, rows, &key)?;
    }
    Ok(())
}

/// Each member invites the one that stands so many places behind it.
fn invite_each(alloc: Global, rows: &mut Rows, members: u32, step: u32) -> Result<(), Unmeasured> {
    for place in 0..members {
        let behind = (u64::from(place) + u64::from(step)) % u64::from(members.max(1));
        invite(alloc, rows, place + 1, behind as u32 + 1)?;
    }
    Ok(())
}

fn invite(alloc: Global, rows: &mut Rows, a: u32, b: u32) -> Result<(), Unmeasured>
    requires a { 1 ≤ a }
    requires b { 1 ≤ b }
{
    let txn = Txn::of(alloc, &[Change::Invite { a, b }])?;
    rows.apply(&txn)?;
    Ok(())
}
