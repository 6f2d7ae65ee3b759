// The lines of the clock and of the sweeper.
ghost use Rattle.std.specs.Prelude.{◌≡◌, ◌++◌, ℕ, Option, IfOk, OnOk};
ghost use Rattle.key_shard.specs.declared.steps.Step.{Step};
ghost use Rattle.core_history.specs.Events.{Ticked, Swept};
ghost use Rattle.core_history.specs.Lines.{sweep_words, swept_words};
ghost use Rattle.core_history.specs.TurnLines.{IsLineOf};
ghost use Rattle.core_history.specs.Words.{spaced};

use crate::lines::{push_counted, push_number, push_open, push_release, push_verb, push_word};
use crate::turn_lines::TurnLine;
use expiry_sweeper::{SweepReply, SweepWanted};
use rows_model::Memory;
use std::alloc::Global;

/// What a tick prints, by what the clock says after it.
pub(crate) fn tick_line(alloc: Global, now: u64) -> Result<TurnLine, Memory>
    ensures { IfOk result (IsLineOf (Ticked now)) }
{
    let mut line = Vec::from_slice(alloc, b"tick")?;
    push_number(&mut line, now)?;
    line.push(b'\n')?;
    Ok(TurnLine { line, fault: false })
}

/// What a step of the sweeper's prints: what was wanted, and the reply.
pub(crate) fn sweep_line(
    alloc: Global,
    request: SweepWanted,
    reply: SweepReply,
) -> Result<TurnLine, Memory>
    ensures { (shard : ℕ) (made : Option Step) →
        IfOk result (IsLineOf (Swept shard request made reply)) }
{
    let mut line = Vec::from_slice(alloc, b"sweep")?;
    push_wanted(alloc, &mut line, request)?;
    push_swept(alloc, &mut line, reply)?;
    line.push(b'\n')?;
    Ok(TurnLine { line, fault: false })
}

fn push_wanted(alloc: Global, text: &mut Vec<u8>, request: SweepWanted) -> Result<(), Memory>
    ensures { OnOk result (text.new.items ≡ text.old.items ++ spaced (sweep_words request)) }
{
    match request {
        SweepWanted::Scan { shard } => push_counted(text, b"scan", shard as u64),
        SweepWanted::End { sid } => push_counted(text, b"end", sid.number),
        SweepWanted::Drop { key, .. } => push_verb(alloc, text, b"drop", &key),
    }
}

fn push_swept(alloc: Global, text: &mut Vec<u8>, reply: SweepReply) -> Result<(), Memory>
    ensures { OnOk result (text.new.items ≡ text.old.items ++ spaced (swept_words reply)) }
{
    match reply {
        SweepReply::Found { shard: _, due } => {
            push_verb(alloc, text, b"FOUND", &due.key)?;
            push_number(text, due.sid.number)
        }
        SweepReply::NoneFound { .. } => push_word(text, b"NONE"),
        SweepReply::Ended { closed } => push_open(text, closed.was()),
        SweepReply::Dropped { answer } => push_release(alloc, text, answer),
    }
}
