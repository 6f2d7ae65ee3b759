ghost use Rattle.std.specs.Prelude.{◌≡◌, ◌<◌, ◌≤◌, ◌++◌, length, take, vec_len, IfOk, IfErr, OnOk, OnErr};
ghost use Rattle.std.specs.Bool.{MatchBool};
ghost use Rattle.iq_outside.specs.Outside.{Rose, Takes, TakesAtMost, AtEnd, Gains};

use crate::failures::{Failed, ReadStop, Short};
use crate::sinks::Sink;
use crate::sources::Source;
use std::alloc::Global;

/// The most bytes that one read is asked for.
const PIECE: usize = 4096;

/// What was read of a source.
#[derive(Drop)]
pub struct TextRead {
    /// The bytes, in order.
    pub text: Vec<u8>,
    /// Whether the source came to its end; else the limit was reached.
    pub at_end: bool,
}

/// Reads a source to its end, or until `limit` bytes were taken from it. It never takes more, and the
/// first read that fails ends it.
///
/// After an error some bytes, no more than `limit`, were taken from the source and are lost.
pub fn read_up_to<S: Source>(
    alloc: Global,
    source: &mut S,
    limit: usize,
) -> Result<TextRead, ReadStop>
    ensures bytes { IfOk result (λ read. Takes (S.left source.old)
        (S.left source.new) read.text.items) }
    ensures end { IfOk result (λ read. MatchBool read.at_end
        ((vec_len read.text < limit) × AtEnd (S.left source.new))
        (vec_len read.text ≡ limit)) }
    ensures lost { OnErr result (TakesAtMost limit (S.left source.old) (S.left source.new)) }
    ensures failed_rose { result ≡ Err ReadStop.Failed →
        Rose (S.faults source.old) (S.faults source.new) }
    ensures no_fault { OnOk result (S.faults source.new ≡ S.faults source.old) }
    ensures memory { result ≡ Err ReadStop.Memory → S.faults source.new ≡ S.faults source.old }
    ensures never_falls { S.faults source.old ≤ S.faults source.new }
{
    let mut text = Vec::new(alloc);
    let mut room = [0u8; PIECE];
    while text.len() < limit {
        let most = room.len().min(limit - text.len());
        let given = source.read(&mut room[..most])?;
        if given == 0 {
            return Ok(TextRead { text, at_end: true });
        }
        text.extend_from_slice(&room[..given])?;
    }
    Ok(TextRead {
        text,
        at_end: false,
    })
}

/// Writes all bytes to a sink, in as many pieces as it takes. The first write that fails ends it.
///
/// After a fault the sink has taken the first bytes, as many as the error tells, and no others. Where
/// the sink is a line, what it tells of its reading is as before.
pub fn write_all<W: Sink>(sink: &mut W, bytes: &[u8]) -> Result<(), Short>
    ensures all { OnOk result (Gains (W.taken sink.old) (W.taken sink.new) bytes.now) }
    ensures some { IfErr result (λ short. Gains (W.taken sink.old) (W.taken sink.new)
        (take short.written bytes.now)) }
    ensures fewer { IfErr result (λ short. short.written < length bytes.now) }
    ensures keeps_reading { W.read_side sink.new ≡ W.read_side sink.old }
    ensures failed_rose { OnErr result (Rose (W.faults sink.old) (W.faults sink.new)) }
    ensures no_fault { OnOk result (W.faults sink.new ≡ W.faults sink.old) }
    ensures never_falls { W.faults sink.old ≤ W.faults sink.new }
{
    let mut written = 0;
    while written < bytes.len() {
        match sink.write(&bytes[written..]) {
            Ok(count) => written += count,
            Err(Failed) => return Err(Short { written }),
        }
    }
    Ok(())
}
