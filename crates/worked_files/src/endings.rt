// How a run ended, told in lines.
use crate::outsides::Outside;
use conn_server::LineEnd;
use iq_outside::{MemLine, read_up_to};
use mc_text::FrameFault;
use rows_model::Memory;
use sql_keeper::MapKeeper;
use std::alloc::Global;
use std::str;
use top_run::{RunEnd, Status};

/// Tells how a run ended. It reads what is left of standard input.
pub fn told_of(
    alloc: Global,
    end: &RunEnd<MapKeeper>,
    outside: &mut Outside,
) -> Result<String, Memory> {
    let ends = status_text(alloc, end.status)?;
    let closed = outside.door.closed().len();
    let saved = outside.file.text().unwrap_or(b"").len();
    let started = if end.opening.is_some() { "yes" } else { "no" };
    let unread = match read_up_to(alloc, &mut outside.source, usize::MAX) {
        Ok(read) => read.text.len(),
        Err(_) => usize::MAX,
    };
    let mut text = format!(in alloc;
        "ends {ends}\nstarted {started}\ncommits {}\nhistories {}\nearlier {}\nserved {}\nclosed {closed}\nsaved {saved}\nwritten {}\nunread {unread}\n",
        end.log.len(),
        end.histories.len(),
        end.earlier.len(),
        end.ends.len(),
        end.written,
    )?;
    for line in outside.door.closed() {
        push_told(alloc, &mut text, line)?;
    }
    for end in end.ends.iter() {
        push_end(alloc, &mut text, end)?;
    }
    Ok(text)
}

/// What the program writes to standard error at this end, or `done`.
fn status_text(alloc: Global, status: Status) -> Result<String, Memory> {
    let text = match status {
        Status::Script { line, kind } => {
            return Ok(format!(in alloc; "script line {line} {}", kind.word())?);
        }
        Status::Done => "done",
        Status::Usage => "usage",
        Status::ReadFault => "read fault",
        Status::WriteFault => "write fault",
        Status::DoorFault => "door fault",
        Status::KeepFault => "store fault",
        Status::FileFault => "file fault",
        Status::Memory => "memory",
        Status::Spent { .. } => "spent",
    };
    Ok(String::from_str(alloc, text)?)
}

/// Tells what a connection was told, with `;` for CR LF.
fn push_told(alloc: Global, its_text: &mut String, line: &MemLine) -> Result<(), Memory> {
    let text = str::from_utf8(line.taken()).unwrap_or("no text");
    let text = text.replace(alloc, "\r\n", ";")?;
    let line = format!(in alloc; "client told {text}\n")?;
    Ok(its_text.push_str(line.as_str())?)
}

/// Tells how a connection ended.
fn push_end(alloc: Global, text: &mut String, end: &LineEnd) -> Result<(), Memory> {
    let line = match end {
        LineEnd::Quit => format!(in alloc; "client ended quit\n")?,
        LineEnd::Closed { left } => format!(in alloc; "client ended closed {left}\n")?,
        LineEnd::Shut {
            fault: FrameFault::BadBlock { place },
        } => format!(in alloc; "client ended bad block {place}\n")?,
        _ => format!(in alloc; "client ended otherwise\n")?,
    };
    Ok(text.push_str(line.as_str())?)
}
