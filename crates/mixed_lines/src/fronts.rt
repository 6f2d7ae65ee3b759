// What stands first in a stream of lease commands and plain ones.
ghost use Rattle.std.specs.Prelude.{ℕ, ◌≡◌, ◌∷◌, List, take, IfOk};
ghost use Rattle.mc_text.specs.Words.{words_in};
ghost use Rattle.mc_text.specs.Streams.{IsLine};
ghost use Rattle.mc_text.specs.PlainVerbs.{text_of};
ghost use Rattle.mc_text.specs.PlainWords.{IsKeyWord};
ghost use Rattle.mc_text.specs.Telling as leases;
ghost use Rattle.mixed_lines.specs.Items.{IsHeaded, IsNoPlainLine};
ghost use Rattle.mixed_lines.specs.Fronts.{IsFront};

use crate::streams::Said;
use mc_text::{
    Front, LeaseVerb, PlainHead, PlainLine, PlainVerb, ends_at, front_by, front_of, line_end,
    next_word, plain_line, plain_verb,
};
use rows_model::Memory;
use std::alloc::Global;

/// The most bytes of a block.
const BIGGEST_BLOCK: u64 = 1_048_576;

/// What stands first in a stream.
#[derive(Drop)]
pub enum MixedFront {
    /// A command, with how many bytes it takes.
    Command { said: Said, taken: usize },
    /// A line that isn't of its verb's form, with how many bytes it takes.
    BadLine { taken: usize },
    /// A line that is too long.
    LongLine,
    /// A block that doesn't end where it should.
    BadBlock,
    /// A block that is too big.
    BigBlock,
    /// Neither a whole command nor a fault.
    Open,
}

/// What stands first in the stream. The end of its first line is looked for once, and its verb is read once.
pub(crate) fn mixed_front(alloc: Global, stream: &[u8]) -> Result<MixedFront, Memory>
    ensures { IfOk result (λ front. IsFront stream.now front) }
{
    let Some(long) = line_end(stream) else {
        return lease_front(alloc, stream);
    };
    let Some((word, args)) = next_word(&stream[..long]) else {
        return lease_front(alloc, stream);
    };
    if let Some(verb) = plain_verb(word) {
        return with_verb(alloc, stream, long, verb, args);
    }
    match LeaseVerb::of_word(word) {
        Some(verb) => Ok(mixed(front_by(alloc, stream, long, verb, args)?)),
        None => lease_front(alloc, stream),
    }
}

/// What stands first in a stream in which no line of a plain command does.
fn lease_front(alloc: Global, stream: &[u8]) -> Result<MixedFront, Memory>
    requires { IsNoPlainLine stream.now }
    ensures { IfOk result (λ front. IsFront stream.now front) }
{
    Ok(mixed(front_of(alloc, stream)?))
}

/// What stands first by the grammar of lease commands, where no line of a plain one does.
fn mixed(front: Front) -> MixedFront
    ensures { (stream : List ℕ) → IsNoPlainLine stream → leases.IsFront stream front → IsFront stream result }
{
    match front {
        Front::Command { command, taken } => MixedFront::Command {
            said: Said::Lease { command },
            taken,
        },
        Front::BadLine { taken } => MixedFront::BadLine { taken },
        Front::LongLine => MixedFront::LongLine,
        Front::BadBlock => MixedFront::BadBlock,
        Front::BigBlock => MixedFront::BigBlock,
        Front::Open => MixedFront::Open,
    }
}

/// What stands first in a stream whose first line begins with this verb.
fn with_verb(
    alloc: Global,
    stream: &[u8],
    long: usize,
    verb: PlainVerb,
    args: &[u8],
) -> Result<MixedFront, Memory>
    requires line { IsLine stream.now long }
    requires words { words_in (take long stream.now) ≡ text_of verb ∷ words_in args.now }
    ensures { IfOk result (λ front. IsFront stream.now front) }
{
    match plain_line(alloc, verb, args)? {
        PlainLine::Whole { said, noreply } => Ok(MixedFront::Command {
            said: Said::Plain { said, noreply },
            taken: long + 2,
        }),
        PlainLine::Headed { head } => with_head(alloc, stream, long, head),
        PlainLine::Bad => Ok(MixedFront::BadLine { taken: long + 2 }),
    }
}

/// What stands first in a stream whose first line announces a block.
fn with_head(
    alloc: Global,
    stream: &[u8],
    long: usize,
    head: PlainHead<'_>,
) -> Result<MixedFront, Memory>
    requires line { IsHeaded stream.now long head }
    requires key { IsKeyWord head.fields.key.word.now head.fields.key.is_plain }
    ensures { IfOk result (λ front. IsFront stream.now front) }
{
    let bytes = head.fields.bytes;
    if bytes > BIGGEST_BLOCK {
        return Ok(MixedFront::BigBlock);
    }
    let from = long + 2;
    let to = from + bytes as usize;
    if stream.len() < to + 2 {
        return Ok(MixedFront::Open);
    }
    if !ends_at(stream, to) {
        return Ok(MixedFront::BadBlock);
    }
    let noreply = head.noreply;
    let said = head.with_block(alloc, &stream[from..to])?;
    Ok(MixedFront::Command {
        said: Said::Plain { said, noreply },
        taken: to + 2,
    })
}
