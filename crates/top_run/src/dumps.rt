// The dumps of shards, which are read at once, and the lines that tell of them.
ghost use Rattle.std.specs.Prelude.{◌≡◌, ◌≤◌, ◌++◌, ℕ, All, List, Option, IfOk, IfErr, OnOk, length};
ghost use Rattle.run_audit.specs.Findings.{AreNumbered, AreWhole};
ghost use Rattle.shard_dump.specs.declared.rows.Dump.{Dump};
ghost use Rattle.shard_dump.specs.Texts.{IsDumpText};
ghost use Rattle.top_run.specs.declared.dumps.Dumped.{Dumped};
ghost use Rattle.top_run.specs.Runs.{Prints, RoseWhere};
ghost use Rattle.top_run.specs.Plays.{at_write};
ghost use Rattle.top_run.specs.Warms.{dump_line, IsLinesPart};
ghost use Rattle.top_run.specs.Warming.{AreDumped, HasBytes, lines_in, stop_status};

use crate::phases::stop_status;
use crate::plays::Stop;
use crate::printing::print;
use crate::summaries::push_field;
use iq_outside::Sink;
use key_shard::Shard;
use rows_model::Memory;
use shard_dump::{Dump, DumpFault, LastTouches, dump_beside, read_dump};
use sql_keeper::Commit;
use std::alloc::Global;

/// The dump of a shard as its text was read, and how many bytes that has.
#[derive(Drop)]
pub(crate) struct Dumped {
    pub(crate) dump: Dump,
    pub(crate) bytes: u64,
}

/// The dumps of the shards, beside this log. Each is written as text, which is read at once.
pub(crate) fn dumps_of(
    alloc: Global,
    shards: &[Shard],
    log: &[Commit],
) -> Result<Vec<Dumped>, Memory>
    requires some { 1 ≤ length shards.now }
    requires few { length shards.now ≤ 64 }
    requires whole { AreWhole shards.now }
    requires numbered { AreNumbered shards.now }
    requires roomy { All (λ shard. shard.terms.room ≤ 65536) shards.now }
    ensures { IfOk result (λ dumps. AreDumped log.now shards.now dumps.items) }
{
    let touches = LastTouches::of(alloc, log)?;
    let mut dumps = Vec::with_capacity(alloc, shards.len())?;
    for shard in shards {
        let text = dump_beside(alloc, shard, &touches)?;
        dumps.push_reserved(dumped_in(alloc, text.as_slice())?);
    }
    Ok(dumps)
}

/// The dump of which this is the text, and how many bytes that has.
fn dumped_in(alloc: Global, text: &[u8]) -> Result<Dumped, Memory>
    requires { (dump : Dump) × IsDumpText text.now dump }
    ensures only { (dump : Dump) → IsDumpText text.now dump →
        IfOk result (λ dumped. dumped.dump ≡ dump) }
    ensures bytes { IfOk result (λ dumped. dumped.bytes ≡ length text.now) }
{
    match read_dump(alloc, text) {
        Ok(dump) => Ok(Dumped {
            dump,
            bytes: text.len() as u64,
        }),
        Err(DumpFault::Bad { .. }) => unreachable!(),
        Err(DumpFault::Memory) => Err(Memory),
    }
}

/// Writes a line for each dump.
pub(crate) fn tell_dumps<W: Sink>(
    alloc: Global,
    sink: &mut W,
    written: &mut u64,
    dumps: &[Dumped],
) -> Result<(), Stop>
    requires { All HasBytes dumps.now }
    ensures all { (taken : Option (List ℕ)) (printed : List ℕ) →
        Prints taken (W.taken sink.old) printed written.old →
        OnOk result (Prints taken (W.taken sink.new) (printed ++ lines_in dumps.now) written.new) }
    ensures some { (taken : Option (List ℕ)) (printed : List ℕ) →
        Prints taken (W.taken sink.old) printed written.old →
        IfErr result (λ stop. (front : List ℕ) ×
        IsLinesPart (stop_status stop) (lines_in dumps.now) front ×
        Prints taken (W.taken sink.new) (printed ++ front) written.new) }
    ensures counts { RoseWhere W.faults (at_write result) sink.old sink.new }
    ensures never_falls { W.faults sink.old ≤ W.faults sink.new }
{
    let Ok(lines) = lines_of(alloc, dumps) else {
        return Err(Stop::Memory);
    };
    match print(sink, written, lines.as_slice()) {
        Ok(()) => Ok(()),
        Err(_) => Err(Stop::WriteFault),
    }
}

/// The lines of the dumps.
fn lines_of(alloc: Global, dumps: &[Dumped]) -> Result<Vec<u8>, Memory>
    requires { All HasBytes dumps.now }
    ensures { IfOk result (λ text. text.items ≡ lines_in dumps.now) }
{
    let mut text = Vec::new(alloc);
    for dumped in dumps {
        push_dump(&mut text, dumped)?;
    }
    Ok(text)
}

/// The line of a dump.
fn push_dump(text: &mut Vec<u8>, dumped: &Dumped) -> Result<(), Memory>
    requires { HasBytes dumped.now }
    ensures { OnOk result (text.new.items ≡ text.old.items ++ dump_line dumped.now.dump) }
{
    push_field(text, b"dump ", dumped.dump.shard as u128)?;
    push_field(text, b" ", dumped.dump.rows.as_slice().len() as u128)?;
    push_field(text, b" ", dumped.bytes as u128)?;
    text.push(b'\n')?;
    Ok(())
}
