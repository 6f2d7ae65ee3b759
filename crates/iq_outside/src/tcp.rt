ghost use Rattle.std.specs.Prelude.{◌≡◌, ◌<◌, ◌≤◌, None, is_none, true, false, length, refl, Some, IfOk, OnOk, OnErr, IfSome};
ghost use Rattle.std.specs.IoError.{raw_os_error};
ghost use Rattle.iq_outside.specs.Adapters.{is_passing};
ghost use Rattle.iq_outside.specs.Outside.{Rose, count_up, lines_with};

use crate::adapters::{bytes_given, bytes_taken};
use crate::addresses::Address;
use crate::doors::Door;
use crate::failures::Failed;
use crate::lines::Line;
use crate::sinks::Sink;
use crate::sources::Source;
use std::io::{self, Read, Write};
use std::marker::Model;
use std::net::{Net, Shutdown, TcpListener, TcpStream};
use std::time::{self, Duration};
use std::{str, thread};

/// How long a read waits for the peer, in seconds.
const READ_SECONDS: u64 = 300;

/// How long a write waits for the peer, in seconds.
const WRITE_SECONDS: u64 = 30;

/// How long a line that is ended waits for what the peer still sends, each time, in milliseconds.
const LINGER: u64 = 500;

/// How often it does so at most.
const MOST_LINGERS: u32 = 240;

/// How many bytes it reads and drops each time, at most.
const DROPPED: usize = 65_536;

/// How long the first pause is after an error that passes, in milliseconds.
const FIRST_PAUSE: u64 = 1;

/// How long a pause is at most, in milliseconds.
const LONGEST_PAUSE: u64 = 100;

/// How often an error that passes is waited out at most: for about a day.
const MOST_PAUSES: u32 = 864_000;

// The system's numbers of the errors of an accept that pass: EINTR, ENOMEM, ENFILE, EMFILE, EPROTO,
// ECONNABORTED and ENOBUFS.
const PASSING: [i32; 7] = [4, 12, 23, 24, 71, 103, 105];

/// A line over a TCP stream. Each error of the stream counts as a fault, an interrupted read or
/// write too, and so does a write that takes no byte. It tells nothing of the bytes. Contracts see
/// the two counts, and whether it is finished. A read waits for the peer for up to 300 seconds, and a write for up to 30: then
/// it fails.
#[derive(Drop)]
pub struct TcpLine {
    /// None once the line is finished: then each read and each write fails.
    stream: Option<TcpStream>,
    read_faults: u64,
    write_faults: u64,
}

impl Model for TcpLine {
    ghost use Rattle.std.specs.Prelude.{is_none};
    ghost use Rattle.iq_outside.specs.Adapters.{TcpLineView};

    ghost Value = { TcpLineView };

    ghost view = { λ line. record {
      read_faults = line.read_faults;
      write_faults = line.write_faults;
      finished = is_none line.stream;
    } };
}

impl TcpLine {
    // A line over this stream, which sends small pieces at once and gives up a silent peer, where the
    // system can.
    fn new(stream: TcpStream) -> TcpLine
        ensures { result ≡ record { read_faults = 0; write_faults = 0; finished = false } }
    {
        let _ = stream.set_nodelay(true);
        let _ = stream.set_read_timeout(Some(Duration::from_secs(READ_SECONDS)));
        let _ = stream.set_write_timeout(Some(Duration::from_secs(WRITE_SECONDS)));
        TcpLine {
            stream: Some(stream),
            read_faults: 0,
            write_faults: 0,
        }
    }

    /// How often a read failed.
    pub fn read_faults(&self) -> u64
        ensures { result ≡ self.now.read_faults }
    {
        self.read_faults
    }

    /// How often a write failed.
    pub fn write_faults(&self) -> u64
        ensures { result ≡ self.now.write_faults }
    {
        self.write_faults
    }
}

impl Source for TcpLine {
    ghost left = { λ _. None };

    ghost faults = { λ line. line.read_faults };

    ghost write_side = { λ line. record { taken = None; faults = line.write_faults } };

    /// Gives what the stream gives. `Failed` comes where the stream answers an error, where nothing
    /// came in time, and where the line is finished.
    fn read(&mut self, room: &mut [u8]) -> Result<usize, Failed>
        requires { 0 < length room.old }
        ensures within { IfOk result (λ n. n ≤ length room.new) }
        ensures failed_rose { OnErr result (Rose self.old.read_faults self.new.read_faults) }
        ensures never_falls { self.old.read_faults ≤ self.new.read_faults }
        ensures no_fault { OnOk result (self.new.read_faults ≡ self.old.read_faults) }
        ensures keeps_writing { self.new.write_faults ≡ self.old.write_faults }

        ensures err { OnErr result (self.new.read_faults ≡ count_up self.old.read_faults) }
    {
        let answer = match &mut self.stream {
            Some(stream) => bytes_given(stream.read(room)),
            None => Err(Failed),
        };
        if answer.is_err() {
            self.read_faults = self.read_faults.saturating_add(1);
        }
        answer
    }
}

impl Sink for TcpLine {
    ghost taken = { λ _. None };

    ghost faults = { λ line. line.write_faults };

    ghost read_side = { λ line. record { left = None; given = None; faults = line.read_faults } };

    /// The stream takes what it takes. `Failed` comes where the stream answers an error or takes no
    /// byte, where it took none in time, and where the line is finished.
    fn write(&mut self, piece: &[u8]) -> Result<usize, Failed>
        requires { 0 < length piece.now }
        ensures progress { IfOk result (λ n. 1 ≤ n) }
        ensures within { IfOk result (λ n. n ≤ length piece.now) }
        ensures failed_rose { OnErr result (Rose self.old.write_faults self.new.write_faults) }
        ensures never_falls { self.old.write_faults ≤ self.new.write_faults }
        ensures no_fault { OnOk result (self.new.write_faults ≡ self.old.write_faults) }
        ensures keeps_reading { self.new.read_faults ≡ self.old.read_faults }

        ensures err { OnErr result (self.new.write_faults ≡ count_up self.old.write_faults) }
    {
        let answer = match &mut self.stream {
            Some(stream) => bytes_taken(stream.write(piece)),
            None => Err(Failed),
        };
        if answer.is_err() {
            self.write_faults = self.write_faults.saturating_add(1);
        }
        answer
    }
}

impl Line for TcpLine {
    ghost reading = { λ _. refl };

    ghost writing = { λ _. refl };

    ghost tells_given = { λ _ given. given };

    ghost finished = { λ line. line.finished };

    /// Ends the stream and closes it, where it isn't yet. The peer is told first that no more comes, and
    /// what it still sends is dropped for a while, so that the last reply reaches it. Its descriptor is
    /// free then, before the line is handed back. It may wait for two minutes, where the peer goes on.
    fn finish(&mut self)
        ensures { self.new ≡ record self.old { finished = true } }
    {
        if let Some(stream) = self.stream.take() {
            end_stream(stream);
        }
    }
}

/// Writes no more to the stream, and reads and drops what the peer still sends. That ends where the peer
/// ends too, or nothing comes for half a second, or it was done 240 times. Were a stream closed with
/// bytes that nobody read, the system would take back what the peer hasn't got yet.
fn end_stream(stream: TcpStream) {
    let mut stream = stream;
    let _ = stream.shutdown(Shutdown::Write);
    let _ = stream.set_read_timeout(Some(Duration::from_millis(LINGER)));
    let mut room = [0; DROPPED];
    for _ in 0..MOST_LINGERS {
        match stream.read(&mut room) {
            Ok(0) => break,
            Ok(_) => {}
            Err(_) => break,
        }
    }
    let _ = stream.shutdown(Shutdown::Both);
}

/// A listener, and the address that it was asked to listen at.
#[derive(Drop)]
struct Listening {
    listener: TcpListener,
    at: Address,
}

/// A door over TCP. Each error of the system that doesn't pass counts as a fault, as does an address
/// that isn't UTF-8, and an `accept` before the door is bound. It never tells that no more connections
/// come, and it tells nothing of the lines that were handed back. Contracts see the address that it is
/// bound to, the count of faults, and how many lines it gave.
#[derive(Drop)]
pub struct TcpDoor<'a, R: Net<Listener = TcpListener, Stream = TcpStream> + time::Clock + Sync> {
    rt: &'a R,
    listening: Option<Listening>,
    faults: u64,
    given: u64,
}

impl<'a, R: Net<Listener = TcpListener, Stream = TcpStream> + time::Clock + Sync> Model
    for TcpDoor<'a, R> {
    ghost use Rattle.std.specs.Option.{option_map};
    ghost use Rattle.iq_outside.specs.Adapters.{TcpDoorView};

    ghost Value = { TcpDoorView };

    ghost view = { λ door. record {
      bound = option_map (λ listening. listening.at) door.listening;
      faults = door.faults;
      given = door.given;
    } };
}

impl<'a, R: Net<Listener = TcpListener, Stream = TcpStream> + time::Clock + Sync> TcpDoor<'a, R> {
    /// A door over this runtime's network, not bound yet.
    pub fn new(rt: &'a R) -> TcpDoor<'a, R>
        ensures { result ≡ record { bound = None; faults = 0; given = 0 } }
    {
        TcpDoor {
            rt,
            listening: None,
            faults: 0,
            given: 0,
        }
    }

    /// How often it failed.
    pub fn faults(&self) -> u64
        ensures { result ≡ self.now.faults }
    {
        self.faults
    }

    /// The port that it is bound to, and None where it isn't bound or the system can't tell.
    pub fn port(&self) -> Option<u16> {
        match self.listening.as_ref()?.listener.local_addr() {
            Ok(addr) => Some(addr.port()),
            Err(_) => None,
        }
    }
}

impl<'a, R: Net<Listener = TcpListener, Stream = TcpStream> + time::Clock + Sync> Door
    for TcpDoor<'a, R> {
    type Line = TcpLine;

    ghost bound = { λ door. door.bound };

    ghost faults = { λ door. door.faults };

    ghost lines = { λ door. door.given };

    ghost ended = { λ _. false };

    ghost fresh = { λ _. ⊥ };

    ghost closed = { λ _. None };

    /// Listens at this address, a host and a port with a colon between. A door that was bound before
    /// no longer listens there, once it listens here.
    fn bind(&mut self, addr: &[u8]) -> Result<(), Failed>
        ensures bound { OnOk result (self.new.bound ≡ Some addr.now) }
        ensures not_bound { OnErr result (self.new.bound ≡ self.old.bound) }
        ensures failed_rose { OnErr result (Rose self.old.faults self.new.faults) }
        ensures never_falls { self.old.faults ≤ self.new.faults }
        ensures no_line { self.new.given ≡ self.old.given }
        ensures no_fault { OnOk result (self.new.faults ≡ self.old.faults) }

        ensures err { OnErr result (self.new.faults ≡ count_up self.old.faults) }
    {
        if let Ok(text) = str::from_utf8(addr) {
            if let Ok(listener) = TcpListener::bind(self.rt, text) {
                let at = Address::of(addr);
                self.listening = Some(Listening { listener, at });
                return Ok(());
            }
        }
        self.faults = self.faults.saturating_add(1);
        Err(Failed)
    }

    /// Waits for the next connection. It never answers None. An error that passes, as the lack of a
    /// descriptor does, is waited out and doesn't count: the pauses grow to 100 milliseconds, for about
    /// a day. The door fails where an error stays.
    fn accept(&mut self) -> Result<Option<TcpLine>, Failed>
        ensures stays_bound { self.new.bound ≡ self.old.bound }
        ensures failed_rose { OnErr result (Rose self.old.faults self.new.faults) }
        ensures never_falls { self.old.faults ≤ self.new.faults }
        ensures no_fault { OnOk result (self.new.faults ≡ self.old.faults) }

        ensures counts { IfOk result
            (λ answer. self.new.given ≡ lines_with answer self.old.given) }
        ensures never_ends { IfOk result (λ answer. is_none answer ≡ false) }
        ensures no_line { OnErr result (self.new.given ≡ self.old.given) }
        ensures gives { IfOk result (λ answer. IfSome answer
            (λ line. line ≡ record { read_faults = 0; write_faults = 0; finished = false })) }
        ensures err { OnErr result (self.new.faults ≡ count_up self.old.faults) }
    {
        if let Some(listening) = &self.listening {
            if let Some(stream) = next_stream(self.rt, &listening.listener) {
                self.given = self.given.saturating_add(1);
                return Ok(Some(TcpLine::new(stream)));
            }
        }
        self.faults = self.faults.saturating_add(1);
        Err(Failed)
    }

    /// Drops the line, which closes its stream.
    fn close(&mut self, line: TcpLine)
        ensures { self.new ≡ self.old }
    {
        drop(line);
    }
}

/// The next connection, and None where an error stays.
fn next_stream<R: time::Clock>(rt: &R, listener: &TcpListener) -> Option<TcpStream> {
    let mut pause = FIRST_PAUSE;
    for _ in 0..MOST_PAUSES {
        match listener.accept() {
            Ok((stream, _)) => return Some(stream),
            Err(error) if passes(&error) => {}
            Err(_) => return None,
        }
        thread::sleep(rt, Duration::from_millis(pause));
        pause = (pause * 2).min(LONGEST_PAUSE);
    }
    None
}

/// Whether the error of an `accept` passes: it was interrupted, or its connection was aborted, or the
/// system or the process lacks memory or descriptors.
fn passes(error: &io::Error) -> bool
    ensures { result ≡ is_passing (raw_os_error error.now) }
{
    match error.raw_os_error() {
        Some(code) => PASSING.contains(&code),
        None => false,
    }
}
