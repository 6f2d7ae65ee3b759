// A load on several threads, a load that no file holds, and a text that is too long.
use crate::outsides::{outside_of, run_alone, unread_outside};
use iq_outside::read_up_to;
use key_shard::Step;
use run_inputs::ScriptKind;
use sql_keeper::MapKeeper;
use std::alloc::Global;
use std::str;
use std::sync::Wait;
use std::test::Fail;
use std::thread::Threads;
use top_run::{RunEnd, Status};

/// The hits, stores, voids, agains and refusals of all histories.
fn counted(histories: &[Vec<Step>]) -> [u64; 5] {
    let [mut hits, mut stores, mut voids, mut agains, mut refused] = [0u64; 5];
    for history in histories {
        for step in history {
            match step {
                Step::Hit { .. } => hits = hits.saturating_add(1),
                Step::Stored { .. } => stores = stores.saturating_add(1),
                Step::Void { .. } => voids = voids.saturating_add(1),
                Step::Again { .. } => agains = agains.saturating_add(1),
                Step::Refused { .. } => refused = refused.saturating_add(1),
                _ => {}
            }
        }
    }
    [hits, stores, voids, agains, refused]
}

/// The numbers of the second line of a summary.
fn totals_in(alloc: Global, printed: &[u8]) -> Result<Vec<u64>, Fail> {
    let mut totals = Vec::new(alloc);
    let text = str::from_utf8(printed).unwrap_or("");
    let Some((_, rest)) = text.split_once('\n') else {
        return Ok(totals);
    };
    let Some((line, _)) = rest.split_once('\n') else {
        return Ok(totals);
    };
    for word in line.split(' ') {
        if let Ok(number) = word.parse::<u64>() {
            totals.push(number)?;
        }
    }
    Ok(totals)
}

/// Whether there are eight totals, of which those of the ways for a session to end add up to 20,000, and those
/// that a run's log and histories tell are these.
fn are_those_kept(totals: &[u64], counts: [u64; 5], kept: u64) -> bool {
    let [
        hits,
        stores,
        voids,
        agains,
        bypasses,
        commits,
        rejected,
        refused,
    ] = totals
    else {
        return false;
    };
    let mut ends = 0u64;
    for count in [hits, stores, voids, bypasses, commits, rejected, refused].iter() {
        ends = ends.saturating_add(**count);
    }
    let counted = [*hits, *stores, *voids, *agains, *refused];
    ends == 20_000 && counted == counts && *commits == kept
}

/// Whether a run ended done and kept eight histories.
fn is_done(end: &RunEnd<MapKeeper>) -> bool {
    end.status == Status::Done && end.histories.len() == 8
}

// The seven ways for a session to end add up to the sessions, and the totals of the summary are those
// that are counted anew in what is kept.
#[test]
fn the_totals_of_a_load_are_those_of_what_it_keeps(rt: HostRuntime) -> Result<(), Fail> {
    let mut outside = unread_outside(rt.alloc())?;
    let end = run_alone(&rt, rt.alloc(), "work 1000 20000 4 8 1", &mut outside)?;
    assert!(rt; is_done(&end));
    let printed = outside.sink.taken();
    assert!(rt; end.written == printed.len() as u64);
    assert!(rt;
        printed.starts_with(b"work members 1000 sessions 20000 workers 4 shards 8 seed 1\n")
    );
    assert!(rt; printed.ends_with(b"\naudit clean\n"));
    let totals = totals_in(rt.alloc(), printed)?;
    let counts = counted(end.histories.as_slice());
    assert!(rt; are_those_kept(totals.as_slice(), counts, end.log.len()));
    Ok(())
}

/// What a large load on one worker prints, or nothing where it doesn't end done.
fn large_load(rt: &(impl Threads + Wait + Sync), alloc: Global) -> Result<Vec<u8>, Fail> {
    let mut outside = unread_outside(alloc)?;
    let end = run_alone(rt, alloc, "work 100000 200000 1 8 7", &mut outside)?;
    if !is_done(&end) {
        return Ok(Vec::new(alloc));
    }
    Ok(Vec::from_slice(alloc, outside.sink.taken())?)
}

#[test]
fn one_worker_writes_a_large_load_the_same_twice(rt: HostRuntime) -> Result<(), Fail> {
    let first = large_load(&rt, rt.alloc())?;
    let second = large_load(&rt, rt.alloc())?;
    assert!(rt; first.as_slice().ends_with(b"\naudit clean\n"));
    assert!(rt; first.as_slice() == second.as_slice());
    Ok(())
}

#[test]
fn of_a_text_that_is_too_long_no_more_is_read(rt: HostRuntime) -> Result<(), Fail> {
    let mut text = Vec::new(rt.alloc());
    text.resize(16_777_220, b'x')?;
    let mut outside = outside_of(rt.alloc(), text.as_slice(), 4096, 4096)?;
    let end = run_alone(&rt, rt.alloc(), "replay", &mut outside)?;
    let long = Status::Script {
        line: 0,
        kind: ScriptKind::LongText,
    };
    assert!(rt; end.status == long);
    assert!(rt; outside.sink.taken().is_empty());
    let unread = read_up_to(rt.alloc(), &mut outside.source, usize::MAX)?;
    assert!(rt; unread.text.len() == 3);
    Ok(())
}
