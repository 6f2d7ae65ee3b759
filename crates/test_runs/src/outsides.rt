// What is outside of a run, in memory.
use cache_file::MemFile;
use iq_outside::{ListClock, ListDoor, MemSink, MemSource, OpenGate};
use sql_keeper::MapKeeper;
use std::alloc::Global;
use std::sync::Wait;
use std::test::Fail;
use std::thread::Threads;
use top_run::{RunEnd, run};

/// Where a run reads and where it writes.
#[derive(Drop)]
pub(crate) struct Outside {
    pub(crate) source: MemSource,
    pub(crate) sink: MemSink,
}

/// An outside that gives this text, so many bytes at a read, and takes so many at a write.
pub(crate) fn outside_of(
    alloc: Global,
    text: &[u8],
    read: usize,
    written: usize,
) -> Result<Outside, Fail> {
    let text = Vec::from_slice(alloc, text)?;
    let source = MemSource::new(text, read.max(1), Vec::new(alloc));
    let sink = MemSink::new(alloc, 4096, written.max(1), Vec::new(alloc))?;
    Ok(Outside { source, sink })
}

/// An outside whose first read fails, so that a run which reads doesn't end done. It takes 60 bytes at a write.
pub(crate) fn unread_outside(alloc: Global) -> Result<Outside, Fail> {
    let mut fails = Vec::new(alloc);
    fails.push(1)?;
    let source = MemSource::new(Vec::new(alloc), 1, fails);
    let sink = MemSink::new(alloc, 4096, 60, Vec::new(alloc))?;
    Ok(Outside { source, sink })
}

/// The words of a command.
pub(crate) fn words_of(alloc: Global, text: &str) -> Result<Vec<Vec<u8>>, Fail> {
    let mut words = Vec::new(alloc);
    for word in text.split(' ') {
        words.push(Vec::from_slice(alloc, word.as_bytes())?)?;
    }
    Ok(words)
}

/// A keeper in memory that never fails.
pub(crate) fn keeper(alloc: Global) -> MapKeeper {
    MapKeeper::new(Vec::new(alloc))
}

/// A door with no connection.
pub(crate) fn shut_door(alloc: Global) -> Result<ListDoor, Fail> {
    Ok(ListDoor::new(alloc, Vec::new(alloc), Vec::new(alloc))?)
}

/// The file of a cache, at the path `cache`, which isn't there. It never fails.
pub(crate) fn no_file(alloc: Global) -> Result<MemFile, Fail> {
    let path = Vec::from_slice(alloc, b"cache")?;
    Ok(MemFile::new(path, None, Vec::new(alloc)))
}

/// A clock that stands still.
pub(crate) fn still_clock(alloc: Global) -> Result<ListClock, Fail> {
    let mut times = Vec::new(alloc);
    times.push(0)?;
    Ok(ListClock::new(times))
}

/// Runs a command at a door with no connection and over a clock that stands still.
pub(crate) fn run_alone(
    rt: &(impl Threads + Wait + Sync),
    alloc: Global,
    words: &str,
    outside: &mut Outside,
) -> Result<RunEnd<MapKeeper>, Fail> {
    let words = words_of(alloc, words)?;
    let mut door = shut_door(alloc)?;
    let mut file = no_file(alloc)?;
    let clock = still_clock(alloc)?;
    Ok(run(
        rt,
        alloc,
        words.as_slice(),
        &mut outside.source,
        &mut outside.sink,
        keeper(alloc),
        &mut file,
        &mut door,
        &clock,
        &OpenGate,
    ))
}
