// A server that is run through the top call, over TCP on the loopback.
use crate::outsides::{keeper, no_file, still_clock, unread_outside, words_of};
use conn_server::LineEnd;
use iq_outside::{Door, Failed, OpenGate, TcpDoor};
use std::alloc::Global;
use std::io::{Read, Write};
use std::net::{Ipv4Addr, Net, TcpListener, TcpStream};
use std::sync::Wait;
use std::test::Fail;
use std::thread::Threads;
use std::{io, thread, time};
use top_run::{Status, run};

/// A reader that stores what the store answers, and hits it.
const READS: &[u8] =
    b"begin read\r\niqget profile:2 1 0\r\nask profile:2 1\r\niqset profile:2 0 0 6 1 0\r\nm2 0 0\r\niqget profile:2 1 0\r\nquit\r\n";

/// What it is told.
const READ: &[u8] =
    b"SESSION 1\r\nLEASE 1\r\nVALUE profile:2 0 6 0\r\nm2 0 0\r\nEND\r\nSTORED\r\nVALUE profile:2 0 6 0\r\nm2 0 0\r\nEND\r\n";

/// Connects to this port of the loopback, once somebody listens there.
fn connected(rt: &impl Net<Stream = TcpStream>, port: u16) -> io::Result<TcpStream> {
    for _ in 0..1_000_000 {
        if let Ok(stream) = TcpStream::connect(rt, (Ipv4Addr::LOCALHOST, port)) {
            return Ok(stream);
        }
    }
    TcpStream::connect(rt, (Ipv4Addr::LOCALHOST, port))
}

/// Sends what the reader says to this port. Whether it is told what it must be, and then the end comes. The
/// list has room for what it is told.
fn is_told(rt: &impl Net<Stream = TcpStream>, port: u16, back: &mut [u8]) -> io::Result<bool> {
    let mut stream = connected(rt, port)?;
    stream.write_all(READS)?;
    stream.read_exact(back)?;
    let end = stream.read(&mut [0u8; 1])?;
    Ok(*back == *READ && end == 0)
}

/// A port on which nobody listens.
fn free_port(
    rt: &(impl Net<Listener = TcpListener, Stream = TcpStream> + time::Clock + Sync),
) -> Result<u16, Fail> {
    let mut probe = TcpDoor::new(rt);
    probe.bind(b"127.0.0.1:0")?;
    match probe.port() {
        Some(port) => Ok(port),
        None => Err(Fail::from(Failed)),
    }
}

/// Serves one connection at this port. Whether it ended as the client said, and nothing failed.
fn serves_one<
    R: Threads + Wait + Net<Listener = TcpListener, Stream = TcpStream> + time::Clock + Sync,
>(rt: &R, alloc: Global, port: u16) -> Result<bool, Fail> {
    let words = format!(in alloc; "serve 127.0.0.1:{port} 1 1 1 3")?;
    let words = words_of(alloc, words.as_str())?;
    let mut door = TcpDoor::new(rt);
    let mut outside = unread_outside(alloc)?;
    let mut file = no_file(alloc)?;
    let clock = still_clock(alloc)?;
    let end = run(
        rt,
        alloc,
        words.as_slice(),
        &mut outside.source,
        &mut outside.sink,
        keeper(alloc),
        &mut file,
        &mut door,
        &clock,
        &OpenGate,
    );
    let is_done = end.status == Status::Done && door.faults() == 0;
    let has_quit = end.ends.as_slice() == [LineEnd::Quit].as_slice();
    Ok(is_done && has_quit && outside.sink.taken() == b"ready\nserved 1\n".as_slice())
}

#[test]
fn a_client_is_served_over_tcp(rt: HostRuntime) -> Result<(), Fail> {
    let port = free_port(&rt)?;
    let mut back = vec![in rt.alloc(); 0u8; READ.len()]?;
    let client = thread::spawn(&rt, move || {
        is_told(&rt, port, back.as_mut_slice()).unwrap_or(false)
    })?;
    let is_served = serves_one(&rt, rt.alloc(), port)?;
    assert!(rt; client.join(&rt));
    assert!(rt; is_served);
    Ok(())
}
