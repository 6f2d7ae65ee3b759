ghost use Rattle.std.specs.Prelude.{◌≤◌, ◌<◌, None, refl};

use crate::test_desk::TestDesk;
use conn_server::{LineEnd, serve_line};
use iq_outside::{Failed, Line, MemLine, MemSink, MemSource, Sink, Source};
use mc_text::FrameFault;
use plain_ops::Plain;
use std::alloc::{AllocError, Global};
use std::process::Abort;
use std::test::Fail;

pub const TALK: &[u8] = b"begin read\r\niqget npending:2 1 0\r\niqset npending:2 0 0 1 1 7\r\n5\r\n\
    iqget npending:2 1 x\r\nwhat is this\r\nbegin write\r\nqaread npending:2 2\r\nsql 2 invite 1 2\r\n\
    sar npending:2 0 0 1 2\r\n6\r\nquit\r\nbegin read\r\n";

pub const REPLIES: &str = "SESSION 1\r\nLEASE 1\r\nSTORED\r\nCLIENT_ERROR bad line\r\nERROR\r\n\
    SESSION 2\r\nGRANTED 2\r\nVALUE npending:2 0 1 7\r\n5\r\nEND\r\nCOMMITTED 1\r\nSTORED\r\n";

/// A line of which this is said, and that gives and takes at most so many bytes at a time.
pub fn line_of(alloc: Global, said: &[u8], pieces: (usize, usize)) -> Result<MemLine, Fail>
    requires read { 1 ≤ pieces.0 }
    requires write { 1 ≤ pieces.1 }
{
    failing_line(alloc, said, pieces, &[], &[])
}

/// Such a line, of which these reads and these writes fail, counted from 1.
pub fn failing_line(
    alloc: Global,
    said: &[u8],
    pieces: (usize, usize),
    reads: &[u64],
    writes: &[u64],
) -> Result<MemLine, Fail>
    requires read { 1 ≤ pieces.0 }
    requires write { 1 ≤ pieces.1 }
{
    let said = Vec::from_slice(alloc, said)?;
    let source = MemSource::new(said, pieces.0, Vec::from_slice(alloc, reads)?);
    let sink = MemSink::new(alloc, 262_144, pieces.1, Vec::from_slice(alloc, writes)?)?;
    Ok(MemLine::new(source, sink))
}

/// What is told over a line that is served at a desk, and how it ends.
pub fn served(
    rt: &impl Abort,
    alloc: Global,
    mut line: MemLine,
    desk: &mut TestDesk,
) -> (String, LineEnd) {
    let mut plain = Plain::new(alloc, 1);
    let end = serve_line(alloc, &mut line, desk, &mut plain);
    let text = String::from_utf8_lossy(alloc, line.taken()).expect(rt, "memory");
    (text, end)
}

/// Serves a line at a desk, and compares what is told and how it ends.
fn serves(
    rt: &impl Abort,
    alloc: Global,
    line: MemLine,
    desk: &mut TestDesk,
    want: (&str, LineEnd),
) {
    let (text, end) = served(rt, alloc, line, desk);
    assert!(rt; text.as_str() == want.0);
    assert!(rt; end == want.1);
}

/// The same at a new desk.
fn serves_anew(
    rt: &impl Abort,
    alloc: Global,
    line: MemLine,
    want: (&str, LineEnd),
) -> Result<(), Fail> {
    let mut desk = TestDesk::new(alloc, &[])?;
    serves(rt, alloc, line, &mut desk, want);
    Ok(())
}

#[test]
fn pieces_tell_nothing(rt: HostRuntime) -> Result<(), Fail> {
    for piece in 1..=TALK.len() {
        let line = line_of(rt.alloc(), TALK, (piece, piece))?;
        serves_anew(&rt, rt.alloc(), line, (REPLIES, LineEnd::Quit))?;
    }
    Ok(())
}

/// What is said, what is told, and how the line ends.
const INPUTS: &[(&[u8], &str, LineEnd)] = &[
    (b"", "", LineEnd::Closed { left: 0 }),
    (b"\n\n", "", LineEnd::Closed { left: 2 }),
    (b"\0\0\0", "", LineEnd::Closed { left: 3 }),
    (
        b"\0\r\n\r\n",
        "ERROR\r\nERROR\r\n",
        LineEnd::Closed { left: 0 },
    ),
    (b"begin read\r", "", LineEnd::Closed { left: 11 }),
    (
        b"begin read\r\niqset profile:2 0 0 6 1 0\r\nm2",
        "SESSION 1\r\n",
        LineEnd::Closed { left: 29 },
    ),
    (
        b"iqset profile:2 0 0 2 1 0\r\nm2x",
        "",
        LineEnd::Closed { left: 30 },
    ),
    (
        b"begin read\r\niqset profile:2 0 0 2 1 0\r\nm2xxquit\r\n",
        "SESSION 1\r\nCLIENT_ERROR bad block\r\n",
        LineEnd::Shut {
            fault: FrameFault::BadBlock { place: 12 },
        },
    ),
    (
        b"what\r\niqset profile:2 0 0 1048577 1 0\r\nquit\r\n",
        "ERROR\r\nCLIENT_ERROR big block\r\n",
        LineEnd::Shut {
            fault: FrameFault::BigBlock { place: 6 },
        },
    ),
    (
        b"iqset profile:2 0 0 12 1 0\r\nbegin read\r\n\r\nquit\r\nbegin read\r\n",
        "NOT_STORED\r\n",
        LineEnd::Quit,
    ),
    (
        b"set a 0 0 2 noreply\r\nhi\r\nget a",
        "",
        LineEnd::Closed { left: 5 },
    ),
    (
        b"set a 0 0 2 noreply\r\nhi\r",
        "",
        LineEnd::Closed { left: 24 },
    ),
    (
        b"set a 0 0 2 noreply\r\nhixxquit\r\n",
        "CLIENT_ERROR bad block\r\n",
        LineEnd::Shut {
            fault: FrameFault::BadBlock { place: 0 },
        },
    ),
    (
        b"get a\r\nset profile:2 0 0 1048577\r\nquit\r\n",
        "END\r\nCLIENT_ERROR big block\r\n",
        LineEnd::Shut {
            fault: FrameFault::BigBlock { place: 7 },
        },
    ),
    (
        b"begin\r\nquit\r\nwhat\r\n",
        "CLIENT_ERROR bad line\r\n",
        LineEnd::Quit,
    ),
];

#[test]
fn inputs_end_as_they_should(rt: HostRuntime) -> Result<(), Fail> {
    for (said, replies, end) in INPUTS.iter() {
        let line = line_of(rt.alloc(), said, (4096, 4096))?;
        serves_anew(&rt, rt.alloc(), line, (replies, *end))?;
    }
    Ok(())
}

// Two lines of 2,048 and 2,049 bytes, and one more.
fn long_lines(alloc: Global) -> Result<Vec<u8>, AllocError> {
    let long = vec![in alloc; b'a'; 2049]?;
    let mut said = Vec::from_slice(alloc, &long[1..])?;
    said.extend_from_slice(b"\r\n")?;
    said.extend_from_slice(long.as_slice())?;
    said.extend_from_slice(b"\r\nquit\r\n")?;
    Ok(said)
}

#[test]
fn long_input_is_answered(rt: HostRuntime) -> Result<(), Fail> {
    let said = long_lines(rt.alloc())?;
    let line = line_of(rt.alloc(), said.as_slice(), (4096, 4096))?;
    let fault = FrameFault::LongLine { place: 2050 };
    let text = "ERROR\r\nCLIENT_ERROR long line\r\n";
    serves_anew(&rt, rt.alloc(), line, (text, LineEnd::Shut { fault }))
}

// What is told of so many sessions that begin.
fn sessions_text(alloc: Global, count: u64) -> Result<String, AllocError> {
    let mut text = String::new(alloc);
    for number in 1..=count {
        text.push_str(format!(in alloc; "SESSION {number}\r\n")?.as_str())?;
    }
    Ok(text)
}

// So many sessions begin.
fn sessions_begin(alloc: Global, count: u64) -> Result<Vec<u8>, AllocError> {
    let mut said = Vec::new(alloc);
    for _ in 0..count {
        said.extend_from_slice(b"begin read\r\n")?;
    }
    Ok(said)
}

#[test]
fn many_commands_are_answered(rt: HostRuntime) -> Result<(), Fail> {
    let said = sessions_begin(rt.alloc(), 1000)?;
    let text = sessions_text(rt.alloc(), 1000)?;
    let line = line_of(rt.alloc(), said.as_slice(), (65536, 65536))?;
    let want = (text.as_str(), LineEnd::Closed { left: 0 });
    serves_anew(&rt, rt.alloc(), line, want)
}

#[test]
fn faults_end_it(rt: HostRuntime) -> Result<(), Fail> {
    let alloc = rt.alloc();
    let mut desk = TestDesk::new(alloc, &[])?;
    let said = b"begin write\r\nqareg profile:2 1\r\nqareg friends:2 1\r\n";
    let line = failing_line(alloc, said, (32, 4096), &[2], &[])?;
    let want = ("SESSION 1\r\nGRANTED 1\r\n", LineEnd::ReadFault);
    serves(&rt, alloc, line, &mut desk, want);

    let line = failing_line(
        alloc,
        b"begin read\r\niqget profile:2 2 0\r\n",
        (4096, 4),
        &[],
        &[4],
    )?;
    serves(
        &rt,
        alloc,
        line,
        &mut desk,
        ("SESSION 2\r\nL", LineEnd::WriteFault),
    );

    let line = failing_line(alloc, b"begin read\r\nquit\r\n", (4096, 4), &[], &[1])?;
    serves(&rt, alloc, line, &mut desk, ("", LineEnd::WriteFault));
    Ok(())
}

/// A line whose client says so many commands at a time, each with a reply of one line, and says more only
/// once all those are told. It counts the reads that come before, and tells the most bytes that it was
/// handed at once.
#[derive(Drop)]
pub struct Patient {
    line: MemLine,
    at_once: usize,
    /// How many commands were given.
    given: usize,
    /// How many reads came while a reply was due.
    early: usize,
    most: usize,
    read_faults: u64,
    write_faults: u64,
}

impl Patient {
    /// A line whose client says so many commands at a time.
    pub fn new(line: MemLine, at_once: usize) -> Patient {
        Patient {
            line,
            at_once,
            given: 0,
            early: 0,
            most: 0,
            read_faults: 0,
            write_faults: 0,
        }
    }

    /// What it took.
    pub fn taken(&self) -> &[u8] {
        self.line.taken()
    }

    /// The most bytes that it was handed at once.
    pub fn most(&self) -> usize {
        self.most
    }

    /// How many lines it took.
    fn taken_so_far(&self) -> usize {
        let mut lines = 0usize;
        for byte in self.line.taken() {
            if *byte == b'\n' {
                lines = lines.saturating_add(1);
            }
        }
        lines
    }
}

impl Source for Patient {
    ghost left = { λ _. None };

    ghost faults = { λ patient. patient.read_faults };

    ghost write_side = { λ patient. record { taken = None; faults = patient.write_faults } };

    fn read(&mut self, room: &mut [u8]) -> Result<usize, Failed> {
        if self.taken_so_far() < self.given {
            self.early = self.early.saturating_add(1);
        }
        match self.line.read(room) {
            Ok(count) => {
                if count > 0 {
                    self.given = self.given.saturating_add(self.at_once);
                }
                Ok(count)
            }
            Err(_) => {
                self.read_faults = self.read_faults.saturating_add(1);
                Err(Failed)
            }
        }
    }
}

impl Sink for Patient {
    ghost taken = { λ _. None };

    ghost faults = { λ patient. patient.write_faults };

    ghost read_side = { λ patient. record { left = None; given = None; faults = patient.read_faults } };

    fn write(&mut self, piece: &[u8]) -> Result<usize, Failed> {
        self.most = self.most.max(piece.len());
        match self.line.write(piece) {
            Ok(count) => Ok(count),
            Err(_) => {
                self.write_faults = self.write_faults.saturating_add(1);
                Err(Failed)
            }
        }
    }
}

impl Line for Patient {
    ghost reading = { λ _. refl };

    ghost writing = { λ _. refl };

    ghost tells_given = { λ _ given. given };

    ghost finished = { λ patient. patient.line.finished };

    fn finish(&mut self) {
        self.line.finish();
    }
}

/// Twelve commands, so many at a time and of so many bytes together, are each answered before the next are read.
fn answers_first(rt: &impl Abort, alloc: Global, at_once: usize, piece: usize) -> Result<(), Fail>
    requires { 1 ≤ piece }
{
    let mut desk = TestDesk::new(alloc, &[])?;
    let said = sessions_begin(alloc, 12)?;
    let mut line = Patient::new(line_of(alloc, &said, (piece, 5))?, at_once);
    let mut plain = Plain::new(alloc, 1);
    let end = serve_line(alloc, &mut line, &mut desk, &mut plain);
    assert!(rt; end == LineEnd::Closed { left: 0 });
    assert!(rt; (line.given, line.taken_so_far(), line.early) == (12, 12, 0));
    Ok(())
}

#[test]
fn replies_are_written_before_each_read(rt: HostRuntime) -> Result<(), Fail> {
    answers_first(&rt, rt.alloc(), 1, 12)?;
    answers_first(&rt, rt.alloc(), 2, 24)?;
    answers_first(&rt, rt.alloc(), 12, 144)
}
