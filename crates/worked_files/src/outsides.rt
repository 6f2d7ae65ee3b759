// What is outside of a run: standard input, standard output, a door with its connections, and the file of a cache.
use crate::settings::numbers;
use cache_file::MemFile;
use iq_outside::{Line, ListDoor, MemLine, MemSink, MemSource};
use rows_model::Memory;
use std::alloc::Global;

/// The most bytes that a run may print, and that a connection may be told.
const ROOM: usize = 4096;

/// What is outside of a run.
#[derive(Drop)]
pub struct Outside {
    pub source: MemSource,
    pub sink: MemSink,
    pub door: ListDoor,
    pub file: MemFile,
}

/// The outside of a run with these settings and this input, of which so many bytes are read at once.
pub fn outside_of(
    alloc: Global,
    block: &str,
    input: &[u8],
    piece: usize,
) -> Result<Outside, Memory> {
    let source = source_of(alloc, block, input, piece)?;
    let sink = sink_of(alloc, block, piece)?;
    let door = door_of(alloc, block, piece)?;
    let file = file_of(alloc, block)?;
    Ok(Outside {
        source,
        sink,
        door,
        file,
    })
}

fn source_of(alloc: Global, block: &str, input: &[u8], piece: usize) -> Result<MemSource, Memory> {
    let fails = numbers(alloc, block, "reads fail")?;
    let text = Vec::from_slice(alloc, input)?;
    Ok(MemSource::new(text, piece.max(1), fails))
}

fn sink_of(alloc: Global, block: &str, piece: usize) -> Result<MemSink, Memory> {
    let fails = numbers(alloc, block, "writes fail")?;
    let room = match numbers(alloc, block, "room")?.first() {
        Some(room) => *room as usize,
        None => ROOM,
    };
    MemSink::new(alloc, room, piece.max(1), fails)
}

fn door_of(alloc: Global, block: &str, piece: usize) -> Result<ListDoor, Memory> {
    let mut lines = Vec::new(alloc);
    for line in block.lines() {
        if let Some(text) = line.strip_prefix("client says ") {
            lines.push(line_of(alloc, text, piece)?)?;
        }
    }
    ListDoor::new(alloc, lines, numbers(alloc, block, "door fails")?)
}

/// A connection that sends this text, with CR LF for `;`.
fn line_of(alloc: Global, text: &str, piece: usize) -> Result<MemLine, Memory> {
    let text = text.replace(alloc, ";", "\r\n")?.into_bytes();
    let source = MemSource::new(text, piece.max(1), Vec::new(alloc));
    let sink = MemSink::new(alloc, ROOM, piece.max(1), Vec::new(alloc))?;
    Ok(MemLine::new(source, sink))
}

/// The file of a cache, which isn't there yet.
fn file_of(alloc: Global, block: &str) -> Result<MemFile, Memory> {
    let path = Vec::from_slice(alloc, b"cache")?;
    Ok(MemFile::new(path, None, numbers(alloc, block, "file fails")?))
}
