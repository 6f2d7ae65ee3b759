ghost use Rattle.std.specs.Prelude.{◌≡◌, ◌≤◌, List, ℕ, OnOk};
ghost use Rattle.iq_outside.specs.Outside.{Takes, Gains};

use iq_outside::{
    Clock, Door, Failed, Line, ListClock, ListDoor, MemLine, MemSink, MemSource, ReadStop,
    ReaderSource, RuntimeClock, Short, Sink, Source, TcpDoor, WriterSink, read_up_to, write_all,
};
use rows_model::Memory;
use std::alloc::Global;
use std::io::{self, ErrorKind, Read, Write};
use std::net::{Ipv4Addr, Net, TcpStream};
use std::process::Abort;
use std::test::Fail;
use std::thread;
use std::time::{self, Duration};

const TEXT: &[u8] = b"1 get profile:2";

// A source of the text above.
fn source(alloc: Global, piece: usize, fails: &[u64]) -> Result<MemSource, Memory>
    requires { 1 ≤ piece }
{
    let text = Vec::from_slice(alloc, TEXT)?;
    let fails = Vec::from_slice(alloc, fails)?;
    Ok(MemSource::new(text, piece, fails))
}

fn sink(alloc: Global, room: usize, piece: usize, fails: &[u64]) -> Result<MemSink, Memory>
    requires { 1 ≤ piece }
{
    MemSink::new(alloc, room, piece, Vec::from_slice(alloc, fails)?)
}

// Reads a piece of a line and sends it back. What it knows of lines is their trait alone.
fn echo<L: Line>(line: &mut L) -> Result<(), Failed>
    ensures same { OnOk result ((bytes : List ℕ) × Takes (L.left line.old) (L.left line.new) bytes
        × Gains (L.given line.old) (L.given line.new) bytes
        × Gains (L.taken line.old) (L.taken line.new) bytes) }
    ensures no_read_fault { OnOk result (L.Source.faults line.new ≡ L.Source.faults line.old) }
    ensures no_write_fault { OnOk result (L.Sink.faults line.new ≡ L.Sink.faults line.old) }
{
    let mut room = [0u8; 8];
    let count = line.read(&mut room)?;
    let sent = write_all(line, &room[..count]);
    line.finish();
    match sent {
        Ok(()) => Ok(()),
        Err(_) => Err(Failed),
    }
}

// Each read fails.
#[derive(Drop)]
struct BrokenReader;

impl Read for BrokenReader {
    fn read(&mut self, _buf: &mut [u8]) -> io::Result<usize> {
        Err(io::Error::from(ErrorKind::Other))
    }
}

// Can't be read.
struct BrokenClock;

impl time::Clock for BrokenClock {
    fn monotonic(&self) -> io::Result<Duration> {
        Err(io::Error::from(ErrorKind::Other))
    }

    fn since_1970(&self) -> io::Result<Duration> {
        Err(io::Error::from(ErrorKind::Other))
    }
}

// Takes a byte, then none, and then fails.
#[derive(Drop)]
struct TiredWriter {
    calls: u8,
}

impl Write for TiredWriter {
    fn write(&mut self, buf: &[u8]) -> io::Result<usize> {
        self.calls = self.calls.saturating_add(1);
        match self.calls {
            1 => Ok(buf.len().min(1)),
            2 => Ok(0),
            _ => Err(io::Error::from(ErrorKind::Other)),
        }
    }

    fn flush(&mut self) -> io::Result<()> {
        Ok(())
    }
}

/// The next read gives these bytes, or fails.
fn gives(rt: &impl Abort, source: &mut MemSource, want: Option<&[u8]>) {
    let mut room = [0u8; 8];
    match source.read(&mut room) {
        Ok(count) => assert!(rt; Some(&room[..count]) == want),
        Err(Failed) => assert!(rt; want.is_none()),
    }
}

/// What reads of five bytes give, of which the second fails.
const PIECES: [Option<&[u8]>; 6] = [
    Some(b"1 get"),
    None,
    Some(b" prof"),
    Some(b"ile:2"),
    Some(b""),
    Some(b""),
];

#[test]
fn a_source_gives_pieces_and_keeps_its_bytes_at_a_fault(rt: HostRuntime) -> Result<(), Fail> {
    let mut source = source(rt.alloc(), 5, &[2])?;
    for want in PIECES.iter() {
        gives(&rt, &mut source, *want);
    }
    Ok(())
}

const WRITES: [Result<usize, Failed>; 4] = [Ok(5), Err(Failed), Ok(2), Err(Failed)];

#[test]
fn a_sink_takes_pieces_until_it_is_full(rt: HostRuntime) -> Result<(), Fail> {
    let mut sink = sink(rt.alloc(), 7, 5, &[2])?;
    for want in WRITES.iter() {
        let wrote = sink.write(TEXT);
        assert!(rt; wrote == *want);
    }
    assert!(rt; sink.taken() == b"1 get1 ".as_slice());
    Ok(())
}

/// A read of so many bytes at most: the pieces, the reads that fail, the limit, and how many bytes come and
/// whether the end does.
const READS: [(usize, &[u64], usize, Result<(usize, bool), ReadStop>); 10] = [
    (1, &[], 100, Ok((15, true))),
    (5, &[], 100, Ok((15, true))),
    (5, &[], 16, Ok((15, true))),
    (5, &[], 15, Ok((15, false))),
    (5, &[], 14, Ok((14, false))),
    (5, &[], 0, Ok((0, false))),
    (5, &[3], 10, Ok((10, false))),
    (5, &[3], 11, Err(ReadStop::Failed)),
    (5, &[4], 100, Err(ReadStop::Failed)),
    (1, &[1], 1, Err(ReadStop::Failed)),
];

/// So much of the text is read up to a limit.
fn reads(
    rt: &impl Abort,
    alloc: Global,
    source: &mut MemSource,
    limit: usize,
    want: Result<(usize, bool), ReadStop>,
) {
    match read_up_to(alloc, source, limit) {
        Ok(read) => {
            assert!(rt; want == Ok((read.text.len(), read.at_end)), "up to {limit}");
            assert!(rt; TEXT.starts_with(read.text.as_slice()));
        }
        Err(stop) => assert!(rt; want == Err(stop), "up to {limit}"),
    }
}

#[test]
fn reads_stop_at_the_end_at_the_limit_and_at_faults(rt: HostRuntime) -> Result<(), Fail> {
    for (piece, fails, limit, want) in READS.iter() {
        assert!(rt; 1 <= *piece);
        let mut source = source(rt.alloc(), *piece, fails)?;
        reads(&rt, rt.alloc(), &mut source, *limit, *want);
    }
    Ok(())
}

/// Writes of the text: the room, the pieces, the writes that fail, and how it ends.
const WHOLE_WRITES: [(usize, usize, &[u64], Result<(), Short>); 7] = [
    (4096, 1, &[], Ok(())),
    (4096, 5, &[], Ok(())),
    (15, 4096, &[], Ok(())),
    (4096, 5, &[3], Err(Short { written: 10 })),
    (4096, 5, &[1], Err(Short { written: 0 })),
    (4096, 1, &[15], Err(Short { written: 14 })),
    (12, 5, &[], Err(Short { written: 12 })),
];

/// The text is written, or stops so.
fn stops(rt: &impl Abort, sink: &mut MemSink, want: Result<(), Short>) {
    let wrote = write_all(sink, TEXT);
    assert!(rt; wrote == want);
    let written = match wrote {
        Ok(()) => TEXT.len(),
        Err(short) => short.written,
    };
    assert!(rt; sink.taken().len() == written);
    assert!(rt; TEXT.starts_with(sink.taken()));
}

#[test]
fn writes_stop_at_faults_and_where_no_room_is_left(rt: HostRuntime) -> Result<(), Fail> {
    for (room, piece, fails, want) in WHOLE_WRITES.iter() {
        assert!(rt; 1 <= *piece);
        let mut sink = sink(rt.alloc(), *room, *piece, fails)?;
        stops(&rt, &mut sink, *want);
    }
    Ok(())
}

#[test]
fn an_adapted_reader_hands_bytes_on(rt: HostRuntime) -> Result<(), Fail> {
    let mut source = ReaderSource::new(TEXT);
    let read = read_up_to(rt.alloc(), &mut source, 100)?;
    assert!(rt; read.text.as_slice() == TEXT);
    assert!(rt; read.at_end);
    assert!(rt; source.faults() == 0);
    Ok(())
}

#[test]
fn an_adapted_writer_hands_bytes_on(rt: HostRuntime) -> Result<(), Fail> {
    let mut written = Vec::new(rt.alloc());
    let mut sink = WriterSink::new(&mut written);
    write_all(&mut sink, TEXT)?;
    assert!(rt; sink.faults() == 0);
    assert!(rt; written.as_slice() == TEXT);
    Ok(())
}

#[test]
fn an_adapted_reader_counts_faults(rt: HostRuntime) {
    let mut source = ReaderSource::new(BrokenReader);
    let stop = read_up_to(rt.alloc(), &mut source, 100);
    assert!(rt; matches!(&stop, Err(ReadStop::Failed)));
    assert!(rt; source.faults() == 1);
}

#[test]
fn an_adapted_writer_counts_faults(rt: HostRuntime) {
    let mut sink = WriterSink::new(TiredWriter { calls: 0 });
    let wrote = write_all(&mut sink, TEXT);
    assert!(rt; wrote == Err(Short { written: 1 }));
    assert!(rt; sink.faults() == 1);
    let wrote = sink.write(TEXT);
    assert!(rt; wrote == Err(Failed));
    assert!(rt; sink.faults() == 2);
}

#[test]
fn a_list_clock_tells_its_times_and_then_the_last(rt: HostRuntime) -> Result<(), Fail> {
    let clock = ListClock::new(Vec::from_slice(rt.alloc(), &[5, 3, 7])?);
    for want in [5, 3, 7, 7, 7].iter() {
        assert!(rt; clock.now() == *want);
    }
    let still = ListClock::new(Vec::from_slice(rt.alloc(), &[9])?);
    for _ in 0..3 {
        assert!(rt; still.now() == 9);
    }
    Ok(())
}

#[test]
fn a_runtime_clock_is_read_and_one_that_cannot_be_is_at_0(rt: HostRuntime) -> Result<(), Fail> {
    let clock = RuntimeClock::new(&rt);
    let first = clock.now();
    assert!(rt; 0 < first && first <= clock.now());
    assert!(rt; RuntimeClock::new(&BrokenClock).now() == 0);
    Ok(())
}

// A line with this text, which gives it whole.
fn mem_line(alloc: Global, text: &[u8]) -> Result<MemLine, Memory> {
    let none = Vec::new(alloc);
    let source = MemSource::new(Vec::from_slice(alloc, text)?, 100, none);
    Ok(MemLine::new(source, sink(alloc, 100, 100, &[])?))
}

#[test]
fn a_line_gives_and_takes_each_for_itself(rt: HostRuntime) -> Result<(), Fail> {
    let mut line = mem_line(rt.alloc(), b"1 get")?;
    echo(&mut line)?;
    assert!(rt; line.taken() == b"1 get".as_slice());
    Ok(())
}

/// A door of two lines that fails at the first and the third call.
fn door_of_two(alloc: Global) -> Result<ListDoor, Memory> {
    let mut lines = Vec::new(alloc);
    lines.push(mem_line(alloc, b"a")?)?;
    lines.push(mem_line(alloc, b"b")?)?;
    ListDoor::new(alloc, lines, Vec::from_slice(alloc, &[1, 3])?)
}

/// The door gives a line, which is echoed and closed.
fn echoes(rt: &impl Abort, door: &mut ListDoor, text: &[u8]) -> Result<(), Fail> {
    match door.accept() {
        Ok(Some(mut line)) => {
            echo(&mut line)?;
            assert!(rt; line.taken() == text);
            line.finish();
            door.close(line);
        }
        Ok(None) => panic!(rt; "no line"),
        Err(Failed) => panic!(rt; "a fault"),
    }
    Ok(())
}

#[test]
fn a_door_counts_binds_and_accepts_together(rt: HostRuntime) -> Result<(), Fail> {
    let mut door = door_of_two(rt.alloc())?;
    assert!(rt; door.bind(b"x") == Err(Failed));
    assert!(rt; door.bind(b"x") == Ok(()));
    assert!(rt; door.accept().is_err());
    echoes(&rt, &mut door, b"a")?;
    echoes(&rt, &mut door, b"b")?;
    assert!(rt; matches!(door.accept(), Ok(None)));
    let mut third = mem_line(rt.alloc(), b"c")?;
    third.finish();
    door.close(third);
    assert!(rt; door.closed().len() == 2);
    assert!(rt; door.closed()[1].taken() == b"b".as_slice());
    Ok(())
}

// Sends the text to this port of the loopback. Whether it came back whole and then the connection ended.
fn is_echoed(rt: &impl Net, port: u16, text: &[u8]) -> io::Result<bool> {
    let mut stream = TcpStream::connect(rt, (Ipv4Addr::LOCALHOST, port))?;
    stream.write_all(text)?;
    let mut back = [0u8; 6];
    let count = stream.read(&mut back)?;
    let end = stream.read(&mut [0u8; 1])?;
    Ok(&back[..count] == text && end == 0)
}

#[test]
fn a_tcp_line_carries_bytes_until_it_is_finished(rt: HostRuntime) -> Result<(), Fail> {
    let mut door = TcpDoor::new(&rt);
    door.bind(b"127.0.0.1:0")?;
    let Some(port) = door.port() else {
        return Err(Fail::from(Failed));
    };
    let client = thread::spawn(&rt, move || {
        is_echoed(&rt, port, b"1 get").unwrap_or(false)
    })?;
    let Some(mut line) = door.accept()? else {
        return Err(Fail::from(Failed));
    };
    echo(&mut line)?;
    assert!(rt; client.join(&rt));
    assert!(rt; (line.read_faults(), line.write_faults()) == (0, 0));
    assert!(rt; line.write(b"x") == Err(Failed));
    assert!(rt; (line.read_faults(), line.write_faults()) == (0, 1));
    door.close(line);
    assert!(rt; door.faults() == 0);
    Ok(())
}

#[test]
fn a_tcp_door_counts_faults(rt: HostRuntime) -> Result<(), Fail> {
    let mut door = TcpDoor::new(&rt);
    assert!(rt; door.accept().is_err());
    assert!(rt; door.bind(b"127.0.0.1:\xFF") == Err(Failed));
    assert!(rt; door.bind(b"127.0.0.1") == Err(Failed));
    assert!(rt; door.faults() == 3);
    assert!(rt; door.port() == None);
    door.bind(b"127.0.0.1:0")?;
    assert!(rt; door.faults() == 3);
    Ok(())
}
