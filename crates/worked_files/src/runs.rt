// Runs, and whether they end as written.
use crate::endings::told_of;
use crate::outsides::{Outside, outside_of};
use crate::settings::{are_told, numbers, said, words_of};
use iq_outside::{ListClock, OpenGate};
use rows_model::Memory;
use sql_keeper::MapKeeper;
use std::alloc::Global;
use std::sync::Wait;
use std::thread::Threads;
use top_run::{RunEnd, run};

/// Whether each run of the settings ends as written.
pub fn are_met(
    rt: &(impl Threads + Wait + Sync),
    alloc: Global,
    settings: &str,
    input: &[u8],
    wanted: &[u8],
) -> Result<bool, Memory> {
    for block in settings.split("\n\n") {
        if !is_met(rt, alloc, block, input, wanted)? {
            return Ok(false);
        }
    }
    Ok(true)
}

/// Whether the run ends as written with each of its lines `words`, and there is one.
fn is_met(
    rt: &(impl Threads + Wait + Sync),
    alloc: Global,
    block: &str,
    input: &[u8],
    wanted: &[u8],
) -> Result<bool, Memory> {
    let mut is_run = false;
    for line in block.lines() {
        if let Some(words) = line.strip_prefix("words") {
            if !is_met_with(rt, alloc, words, block, input, wanted)? {
                return Ok(false);
            }
            is_run = true;
        }
    }
    Ok(is_run)
}

/// Whether the run of these words ends as written in pieces of each size, and there is one.
fn is_met_with(
    rt: &(impl Threads + Wait + Sync),
    alloc: Global,
    words: &str,
    block: &str,
    input: &[u8],
    wanted: &[u8],
) -> Result<bool, Memory> {
    let words = words_of(alloc, words)?;
    let pieces = numbers(alloc, block, "pieces")?;
    for piece in pieces.iter() {
        let outside = outside_of(alloc, block, input, *piece as usize)?;
        if !ends_so(rt, alloc, words.as_slice(), block, outside, wanted)? {
            return Ok(false);
        }
    }
    Ok(!pieces.is_empty())
}

/// Whether this run ends as written.
fn ends_so(
    rt: &(impl Threads + Wait + Sync),
    alloc: Global,
    words: &[Vec<u8>],
    block: &str,
    mut outside: Outside,
    wanted: &[u8],
) -> Result<bool, Memory> {
    let keeper = MapKeeper::new(numbers(alloc, block, "keeper fails")?);
    let end = play(rt, alloc, words, &mut outside, keeper, still_clock(alloc)?);
    let text = told_of(alloc, &end, &mut outside)?;
    let printed = outside.sink.taken();
    let is_whole = said(block, "written").is_some() || printed.len() == wanted.len();
    let is_first = wanted.starts_with(printed) && end.written == printed.len() as u64;
    Ok(is_whole && is_first && are_told(block, text.as_str()))
}

/// A clock that stands still.
fn still_clock(alloc: Global) -> Result<ListClock, Memory> {
    let mut times = Vec::new(alloc);
    times.push(0)?;
    Ok(ListClock::new(times))
}

/// Makes the run.
fn play(
    rt: &(impl Threads + Wait + Sync),
    alloc: Global,
    words: &[Vec<u8>],
    outside: &mut Outside,
    keeper: MapKeeper,
    clock: ListClock,
) -> RunEnd<MapKeeper> {
    run(
        rt,
        alloc,
        words,
        &mut outside.source,
        &mut outside.sink,
        keeper,
        &mut outside.file,
        &mut outside.door,
        &clock,
        &OpenGate,
    )
}
