// Each read and each write of a connection fails once, in pieces of one and of five bytes.
ghost use Rattle.std.specs.Prelude.{◌≤◌};

use crate::lines::{REPLIES, TALK, failing_line, line_of, served};
use crate::test_desk::TestDesk;
use conn_server::LineEnd;
use std::alloc::Global;
use std::process::Abort;
use std::test::Fail;

/// What a client is told, and how its line ends, that says no more than these bytes.
fn told_to(rt: &impl Abort, alloc: Global, said: &[u8]) -> Result<(String, LineEnd), Fail> {
    let mut desk = TestDesk::new(alloc, &[])?;
    Ok(served(rt, alloc, line_of(alloc, said, (4096, 4096))?, &mut desk))
}

/// Where the read behind these bytes fails, all whole commands in them are answered, and the line ends so, or as the
/// client said before.
fn read_fails(
    rt: &impl Abort,
    alloc: Global,
    piece: usize,
    read: u64,
    given: &[u8],
) -> Result<(), Fail>
    requires { 1 ≤ piece }
{
    let mut desk = TestDesk::new(alloc, &[])?;
    let line = failing_line(alloc, TALK, (piece, 4096), &[read], &[])?;
    let (text, end) = served(rt, alloc, line, &mut desk);
    let (wanted, ended) = told_to(rt, alloc, given)?;
    assert!(rt; text.as_str() == wanted.as_str());
    assert!(rt; REPLIES.starts_with(text.as_str()));
    let has_quit = ended == LineEnd::Quit;
    assert!(rt;
        end == if has_quit {
            LineEnd::Quit
        } else {
            LineEnd::ReadFault
        }
    );
    Ok(())
}

/// Where a write behind these bytes fails, they are all that is told.
fn write_fails(
    rt: &impl Abort,
    alloc: Global,
    piece: usize,
    write: u64,
    taken: &[u8],
) -> Result<(), Fail>
    requires { 1 ≤ piece }
{
    let mut desk = TestDesk::new(alloc, &[])?;
    let line = failing_line(alloc, TALK, (4096, piece), &[], &[write])?;
    let (text, end) = served(rt, alloc, line, &mut desk);
    assert!(rt; text.as_bytes() == taken);
    assert!(rt; end == LineEnd::WriteFault);
    Ok(())
}

/// Each call fails once.
fn calls_fail(rt: &impl Abort, alloc: Global, piece: usize) -> Result<(), Fail>
    requires { 1 ≤ piece }
{
    let mut call = 0u64;
    for place in 0..TALK.len().max(REPLIES.len()) {
        let before = place.saturating_mul(piece);
        call = call.saturating_add(1);
        if let Some(given) = TALK.get(..before) {
            read_fails(rt, alloc, piece, call, given)?;
        }
        if before < REPLIES.len() {
            let taken = REPLIES.as_bytes().get(..before).unwrap_or(b"");
            write_fails(rt, alloc, piece, call, taken)?;
        }
    }
    Ok(())
}

#[test]
fn each_call_fails_once(rt: HostRuntime) -> Result<(), Fail> {
    calls_fail(&rt, rt.alloc(), 1)?;
    calls_fail(&rt, rt.alloc(), 5)
}
