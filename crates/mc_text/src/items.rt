// What stands first in a stream: a command, a fault, or not enough to tell.
ghost use Rattle.std.specs.Prelude.{◌≡◌, ◌∷◌, ◌+◌, ◌-◌, ◌≤◌, [], ◌<◌, ◌^◌, true, false, length, take, slice_index, IfSome, IfNone, IfOk, OnErr};
ghost use Rattle.std.specs.Bool.{MatchBool};
ghost use Rattle.mc_text.specs.Words.{words_in};
ghost use Rattle.mc_text.specs.Verbs.{lease_text};
ghost use Rattle.mc_text.specs.Commands.{AreWords};
ghost use Rattle.mc_text.specs.Streams.{EndsAt, IsLine, WantsMemory};
ghost use Rattle.mc_text.specs.Parsing.{with_block};
ghost use Rattle.mc_text.specs.Telling.{WordsSay, IsFront, IsEndless};

use crate::commands::{Command, Head};
use crate::lines::{Said, said_by, said_of};
use crate::verb_words::LeaseVerb;
use memchr::memchr;
use rows_model::{Memory, Value};
use std::alloc::Global;

// The most bytes of a line, without its CR LF, and of a block.
pub(crate) const LONGEST_LINE: usize = 2_048;

const BIGGEST_BLOCK: u64 = 1_048_576;

/// What stands first in a stream.
#[derive(Drop)]
pub enum Front {
    /// A command, with how many bytes it takes.
    Command { command: Command, taken: usize },
    /// A line that isn't of its verb's form, with how many bytes it takes.
    BadLine { taken: usize },
    /// A line that is too long.
    LongLine,
    /// A block that doesn't end where it should.
    BadBlock,
    /// A block that is too big.
    BigBlock,
    /// Neither a whole command nor a fault.
    Open,
}

/// What stands first in the stream. Memory is asked for only where a whole command with a transaction or a
/// block stands there.
pub fn front_of(alloc: Global, stream: &[u8]) -> Result<Front, Memory>
    ensures front { IfOk result (λ front. IsFront stream.now front) }
    ensures memory { OnErr result (WantsMemory stream.now) }
{
    match line_end(stream) {
        Some(long) => with_line(alloc, stream, long),
        None => Ok(without_line(stream)),
    }
}

/// How long the first line is: where the first CR LF begins, if that is within the longest line.
pub fn line_end(stream: &[u8]) -> Option<usize>
    ensures found { IfSome result (λ long. IsLine stream.now long) }
    ensures none { IfNone result (IsEndless stream.now 2049) }
{
    let near = &stream[..(LONGEST_LINE + 2).min(stream.len())];
    let mut from = 0;
    while from < near.len() {
        let Some(behind) = memchr(b'\n', &near[from..]) else {
            return None;
        };
        let feed = from + behind;
        if is_behind_return(near, feed) {
            return Some(feed - 1);
        }
        from = feed + 1;
    }
    None
}

// Whether a CR stands right before this place.
fn is_behind_return(bytes: &[u8], place: usize) -> bool
    requires { place ≤ length bytes.now }
    ensures yes { result ≡ true → (1 ≤ place) × (slice_index bytes.now (place - 1) ≡ 13) }
    ensures no { result ≡ false → 1 ≤ place → slice_index bytes.now (place - 1) ≡ 13 → ⊥ }
{
    place > 0 && bytes[place - 1] == b'\r'
}

/// Whether a CR LF begins at this place.
pub fn ends_at(stream: &[u8], place: usize) -> bool
    requires { place < length stream.now }
    ensures { MatchBool result (EndsAt stream.now place) (EndsAt stream.now place → ⊥) }
{
    stream[place] == b'\r' && place + 1 < stream.len() && stream[place + 1] == b'\n'
}

// A stream with no line.
fn without_line(stream: &[u8]) -> Front
    requires { IsEndless stream.now 2049 }
    ensures { IsFront stream.now result }
{
    if stream.len() > LONGEST_LINE + 1 {
        Front::LongLine
    } else {
        Front::Open
    }
}

// A stream whose first line is so long.
fn with_line(alloc: Global, stream: &[u8], long: usize) -> Result<Front, Memory>
    requires { IsLine stream.now long }
    ensures front { IfOk result (λ front. IsFront stream.now front) }
    ensures memory { OnErr result (WantsMemory stream.now) }
{
    let said = said_of(alloc, &stream[..long])?;
    with_said(alloc, stream, long, said)
}

/// What stands first in a stream whose first line is so long, where its first word was read already: it is
/// this verb, and the other words of the line are those of this text. Memory is asked for only where a whole
/// command with a transaction or a block stands there.
pub fn front_by(
    alloc: Global,
    stream: &[u8],
    long: usize,
    verb: LeaseVerb,
    args: &[u8],
) -> Result<Front, Memory>
    requires line { IsLine stream.now long }
    requires words { words_in (take long stream.now) ≡ lease_text verb ∷ words_in args.now }
    ensures front { IfOk result (λ front. IsFront stream.now front) }
    ensures memory { OnErr result (WantsMemory stream.now) }
{
    let said = said_by(alloc, verb, args)?;
    with_said(alloc, stream, long, said)
}

// A stream whose first line is so long and says this.
fn with_said(alloc: Global, stream: &[u8], long: usize, said: Said) -> Result<Front, Memory>
    requires line { IsLine stream.now long }
    requires told { WordsSay (words_in (take long stream.now)) said }
    ensures front { IfOk result (λ front. IsFront stream.now front) }
    ensures memory { OnErr result (WantsMemory stream.now) }
{
    match said {
        Said::Whole { command } => Ok(Front::Command {
            command,
            taken: long + 2,
        }),
        Said::Headed { head } => with_block(alloc, stream, long, head),
        Said::Bad => Ok(Front::BadLine { taken: long + 2 }),
    }
}

// A stream whose first line announces a block.
fn with_block(alloc: Global, stream: &[u8], long: usize, head: Head) -> Result<Front, Memory>
    requires line { IsLine stream.now long }
    requires says { AreWords (with_block head []) (words_in (take long stream.now)) }
    ensures front { IfOk result (λ front. IsFront stream.now front) }
    ensures memory { OnErr result (WantsMemory stream.now) }
{
    let bytes = head.bytes();
    if bytes > BIGGEST_BLOCK {
        return Ok(Front::BigBlock);
    }
    let from = long + 2;
    let to = from + bytes as usize;
    if stream.len() < to + 2 {
        return Ok(Front::Open);
    }
    if !ends_at(stream, to) {
        return Ok(Front::BadBlock);
    }
    let block = Value::of(alloc, &stream[from..to])?;
    Ok(Front::Command {
        command: head.with_block(block),
        taken: to + 2,
    })
}
