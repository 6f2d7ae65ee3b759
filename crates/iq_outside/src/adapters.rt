ghost use Rattle.std.specs.Prelude.{◌≡◌, ◌<◌, ◌≤◌, None, Ok, length, IfOk, OnOk, OnErr, IsErr};
ghost use Rattle.std.specs.Io.KnownBytes.{ReadConsumes, WriteAppends};
ghost use Rattle.iq_outside.specs.Outside.{Rose, count_up};

use crate::failures::Failed;
use crate::sinks::Sink;
use crate::sources::Source;
use std::io::{self, Read, Write};
use std::marker::Model;

/// A source over one of std's readers. It hands on what the reader gives, and counts each error of the
/// reader, an interrupted read too, as a fault. As a source it tells nothing of the bytes. Contracts
/// see the reader, which may tell them, and the count.
#[derive(Drop)]
pub struct ReaderSource<R: Read + Drop> {
    reader: R,
    faults: u64,
}

impl<R: Read + Drop> Model for ReaderSource<R> {
    ghost use Rattle.iq_outside.specs.Adapters.{ReaderView};

    ghost Value = { ReaderView R };

    ghost view = { λ s. record { reader = s.reader; faults = s.faults } };
}

impl<R: Read + Drop> ReaderSource<R> {
    pub fn new(reader: R) -> ReaderSource<R>
        ensures { result ≡ record { reader = reader; faults = 0 } }
    {
        ReaderSource { reader, faults: 0 }
    }

    /// How often the reader failed.
    pub fn faults(&self) -> u64
        ensures { result ≡ self.now.faults }
    {
        self.faults
    }
}

impl<R: Read + Drop> Source for ReaderSource<R> {
    ghost left = { λ _. None };

    ghost faults = { λ s. s.faults };

    /// Gives what the reader gives, and 0 only where the reader is at its end. `Failed` comes where the
    /// reader answers an error, and then it has given nothing.
    fn read(&mut self, room: &mut [u8]) -> Result<usize, Failed>
        requires { 0 < length room.old }
        ensures within { IfOk result (λ n. n ≤ length room.new) }
        ensures failed_rose { OnErr result (Rose self.old.faults self.new.faults) }
        ensures never_falls { self.old.faults ≤ self.new.faults }
        ensures no_fault { OnOk result (self.new.faults ≡ self.old.faults) }

        ensures bytes { ReadConsumes
            (R.remaining self.old.reader) (R.remaining self.new.reader) result room.new }
        ensures err { OnErr result (self.new.faults ≡ count_up self.old.faults) }
    {
        let answer = bytes_given(self.reader.read(room));
        if answer.is_err() {
            self.faults = self.faults.saturating_add(1);
        }
        answer
    }
}

/// A sink over one of std's writers. It hands the bytes on to the writer, and counts each error of the
/// writer, an interrupted write too, and each write that takes no byte as a fault. As a sink it tells
/// nothing of the bytes. Contracts see the writer, which may tell them, and the count.
///
/// It never flushes. Hand in a writer without a buffer: one with a buffer reports an error only after
/// it has taken the bytes, or not at all.
#[derive(Drop)]
pub struct WriterSink<W: Write + Drop> {
    writer: W,
    faults: u64,
}

impl<W: Write + Drop> Model for WriterSink<W> {
    ghost use Rattle.iq_outside.specs.Adapters.{WriterView};

    ghost Value = { WriterView W };

    ghost view = { λ s. record { writer = s.writer; faults = s.faults } };
}

impl<W: Write + Drop> WriterSink<W> {
    pub fn new(writer: W) -> WriterSink<W>
        ensures { result ≡ record { writer = writer; faults = 0 } }
    {
        WriterSink { writer, faults: 0 }
    }

    /// How often the writer failed.
    pub fn faults(&self) -> u64
        ensures { result ≡ self.now.faults }
    {
        self.faults
    }
}

impl<W: Write + Drop> Sink for WriterSink<W> {
    ghost taken = { λ _. None };

    ghost faults = { λ s. s.faults };

    /// Takes what the writer takes, and answers how much that is. `Failed` comes where the writer answers
    /// an error or takes no byte, and then it has taken nothing.
    fn write(&mut self, piece: &[u8]) -> Result<usize, Failed>
        requires { 0 < length piece.now }
        ensures progress { IfOk result (λ n. 1 ≤ n) }
        ensures within { IfOk result (λ n. n ≤ length piece.now) }
        ensures failed_rose { OnErr result (Rose self.old.faults self.new.faults) }
        ensures never_falls { self.old.faults ≤ self.new.faults }
        ensures no_fault { OnOk result (self.new.faults ≡ self.old.faults) }

        ensures bytes { WriteAppends
            (W.contents self.old.writer) (W.contents self.new.writer) result piece.now }
        ensures err { OnErr result (self.new.faults ≡ count_up self.old.faults) }
    {
        let answer = bytes_taken(self.writer.write(piece));
        if answer.is_err() {
            self.faults = self.faults.saturating_add(1);
        }
        answer
    }
}

/// What a source answers, by a reader's answer: how many bytes it gave. An error is a fault, and never the
/// end of the bytes.
pub(crate) fn bytes_given(answer: io::Result<usize>) -> Result<usize, Failed>
    ensures count { IfOk answer (λ count. result ≡ Ok count) }
    ensures fault { OnErr answer (IsErr result) }
{
    match answer {
        Ok(count) => Ok(count),
        Err(_) => Err(Failed),
    }
}

/// What a sink answers, by a writer's answer: how many bytes it took. An error is a fault, and so is an
/// answer that it took none.
pub(crate) fn bytes_taken(answer: io::Result<usize>) -> Result<usize, Failed>
    ensures count { IfOk answer (λ count. 1 ≤ count → result ≡ Ok count) }
    ensures none { IfOk answer (λ count. count ≡ 0 → IsErr result) }
    ensures fault { OnErr answer (IsErr result) }
{
    match answer {
        Ok(count) if count > 0 => Ok(count),
        _ => Err(Failed),
    }
}
