ghost use Rattle.std.specs.Prelude.{◌≡◌, ◌≤◌, [], IfSome, vec_capacity};

use crate::test_desk::TestDesk;
use conn_server::LineEnd;
use door_workers::{Attended, serve_all};
use iq_outside::{Door, ListDoor, MemLine, MemSink, MemSource};
use plain_ops::{Plain, PlainBox};
use rows_model::Memory;
use std::alloc::Global;
use std::sync::Wait;
use std::test::Fail;
use std::thread::Threads;

/// A line whose peer sends this text.
fn line(alloc: Global, text: &str) -> Result<MemLine, Memory> {
    let text = Vec::from_slice(alloc, text.as_bytes())?;
    let source = MemSource::new(text, 64, Vec::new(alloc));
    let sink = MemSink::new(alloc, 64, 64, Vec::new(alloc))?;
    Ok(MemLine::new(source, sink))
}

/// A door of three lines that fails at these calls.
fn door(alloc: Global, fails: &[u64]) -> Result<ListDoor, Memory> {
    let mut lines = Vec::new(alloc);
    lines.push(line(alloc, "what\r\nquit\r\n")?)?;
    lines.push(line(alloc, "iqabort 1\r\n")?)?;
    lines.push(line(alloc, "beg")?)?;
    ListDoor::new(alloc, lines, Vec::from_slice(alloc, fails)?)
}

/// Two workers attend the door, until so many lines were accepted.
fn attend<R: Threads + Wait + Sync>(
    rt: &R,
    alloc: Global,
    door: &mut ListDoor,
    most: u32,
) -> Result<Attended, Fail> {
    let ends = Vec::with_capacity(alloc, most as usize)?;
    attend_for(rt, alloc, door, Some(most), ends)
}

/// They attend it for so many lines, or for any number.
fn attend_for<R: Threads + Wait + Sync>(
    rt: &R,
    alloc: Global,
    door: &mut ListDoor,
    conns: Option<u32>,
    ends: Vec<LineEnd>,
) -> Result<Attended, Fail>
    requires none { ends.items ≡ [] }
    requires room { IfSome conns (λ most. most ≤ vec_capacity ends) }
{
    let mut desks = Vec::new(alloc);
    desks.push(TestDesk::new(alloc, &[])?)?;
    desks.push(TestDesk::new(alloc, &[])?)?;
    let plain = PlainBox::new(Plain::new(alloc, 1));
    Ok(serve_all(rt, alloc, desks.as_mut_slice(), &plain, door, conns, ends))
}

/// How many lines were handed back with this text and end.
fn count(lines: &[MemLine], ends: &[LineEnd], text: &str, end: LineEnd) -> usize {
    lines
        .iter()
        .zip(ends)
        .filter(|(line, ended)| line.taken() == text.as_bytes() && **ended == end)
        .count()
}

/// Each line comes back with its replies, in the order of the ends.
#[test]
fn two_workers_serve_each_line(rt: HostRuntime) -> Result<(), Fail> {
    let mut door = door(rt.alloc(), &[])?;
    let attended = attend(&rt, rt.alloc(), &mut door, 5)?;
    let ends = attended.ends.as_slice();
    let lines = door.closed();
    assert!(&rt; !attended.failed);
    assert!(&rt; (ends.len(), lines.len()) == (3, 3));
    let refused = "CLIENT_ERROR not yours\r\n";
    assert!(&rt; count(lines, ends, "ERROR\r\n", LineEnd::Quit) == 1);
    assert!(&rt; count(lines, ends, refused, LineEnd::Closed { left: 0 }) == 1);
    assert!(&rt; count(lines, ends, "", LineEnd::Closed { left: 3 }) == 1);
    Ok(())
}

#[test]
fn workers_leave_a_door_that_fails(rt: HostRuntime) -> Result<(), Fail> {
    let mut door = door(rt.alloc(), &[2])?;
    let attended = attend(&rt, rt.alloc(), &mut door, 3)?;
    assert!(&rt; attended.failed);
    assert!(&rt; matches!(attended.ends.as_slice(), [LineEnd::Quit]));
    assert!(&rt; door.closed().len() == 1);
    Ok(())
}

#[test]
fn workers_leave_a_door_that_gave_enough_lines(rt: HostRuntime) -> Result<(), Fail> {
    let mut door = door(rt.alloc(), &[])?;
    let attended = attend(&rt, rt.alloc(), &mut door, 2)?;
    assert!(&rt; !attended.failed);
    assert!(&rt; (attended.ends.len(), door.closed().len()) == (2, 2));
    assert!(&rt; matches!(door.accept(), Ok(Some(_))));
    Ok(())
}

/// No number of lines is enough: they are served until no more come, and how they ended isn't kept.
#[test]
fn workers_stay_until_no_more_lines_come(rt: HostRuntime) -> Result<(), Fail> {
    let mut door = door(rt.alloc(), &[])?;
    let attended = attend_for(&rt, rt.alloc(), &mut door, None, Vec::new(rt.alloc()))?;
    assert!(&rt; !attended.failed);
    assert!(&rt; (attended.served, attended.ends.len()) == (3, 0));
    assert!(&rt; door.closed().len() == 3);
    Ok(())
}
