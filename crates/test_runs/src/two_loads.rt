// Two loads, of which the second takes over what is still right in the cache of the first.
use crate::outsides::{run_alone, unread_outside};
use key_shard::{Ended, Step};
use rows_model::QKey;
use std::alloc::Global;
use std::str;
use std::test::Fail;
use top_run::{Phase, Status};

/// The shard, the rows and the bytes of each line `dump`.
fn dumps_in(alloc: Global, printed: &[u8]) -> Result<Vec<[u64; 3]>, Fail> {
    let mut dumps = Vec::new(alloc);
    for line in str::from_utf8(printed).unwrap_or("").lines() {
        if let Some(numbers) = numbers_of(line) {
            dumps.push(numbers)?;
        }
    }
    Ok(dumps)
}

/// The numbers of a line `dump`.
fn numbers_of(line: &str) -> Option<[u64; 3]> {
    let mut words = line.strip_prefix("dump ")?.split(' ');
    let shard = words.next()?.parse::<u64>().ok()?;
    let rows = words.next()?.parse::<u64>().ok()?;
    let bytes = words.next()?.parse::<u64>().ok()?;
    Some([shard, rows, bytes])
}

/// The key and the bytes of the value that two steps load: a lease, and a value with stamp 0 stored under it.
fn loaded_by(lease: &Step, stored: &Step) -> Option<(QKey, usize)> {
    match (lease, stored) {
        (
            Step::Lease { key, token, .. },
            Step::Stored {
                key: on,
                token: under,
                value,
                stamp: 0,
                ..
            },
        ) if key == on && token == under => Some((*key, value.bytes().len())),
        _ => None,
    }
}

/// The keys that so many rows at the front of a history load, and how many bytes their dump has.
fn rows_loaded(alloc: Global, history: &[Step], dump: [u64; 3]) -> Result<(Vec<QKey>, u64), Fail> {
    let [shard, rows, _] = dump;
    let mut keys = Vec::new(alloc);
    let head = format!(in alloc; "iqdump 1 {shard} 8 {rows}\nend\n")?;
    let mut bytes = head.len() as u64;
    for pair in history.chunks(2).take(rows as usize) {
        let [lease, stored] = pair else {
            break;
        };
        let Some((key, long)) = loaded_by(lease, stored) else {
            break;
        };
        let name = key.text(alloc)?;
        let line = format!(in alloc; " {long}\n\n")?;
        let both = name.bytes().len() as u64 + line.len() as u64;
        bytes = bytes.saturating_add(both).saturating_add(long as u64);
        keys.push(key)?;
    }
    Ok((keys, bytes))
}

/// The key of a step that brings it to the front.
fn key_in_front(step: &Step) -> Option<QKey> {
    match step {
        Step::Hit { key, .. } | Step::Stored { key, .. } => Some(*key),
        Step::Released {
            key,
            how: Ended::Put { .. },
            ..
        } => Some(*key),
        _ => None,
    }
}

/// The place behind the last step that brings the key to the front, or 0.
fn last_use(history: &[Step], key: QKey) -> usize {
    let mut last = 0;
    for (place, step) in history.iter().enumerate() {
        if key_in_front(step) == Some(key) {
            last = place.saturating_add(1);
        }
    }
    last
}

/// Whether the keys are in the order of their last uses, the least recent first.
fn are_in_order(history: &[Step], keys: &[QKey]) -> bool {
    let mut before = 0;
    for key in keys {
        let last = last_use(history, *key);
        if last <= before {
            return false;
        }
        before = last;
    }
    true
}

/// Whether a history begins with the steps of each row of its dump, in the order of the history before.
fn is_taken_over(
    alloc: Global,
    first: &[Step],
    second: &[Step],
    dump: [u64; 3],
) -> Result<bool, Fail> {
    let [_, rows, bytes] = dump;
    let (keys, long) = rows_loaded(alloc, second, dump)?;
    let all = keys.len() as u64 == rows && rows > 0;
    Ok(all && long == bytes && are_in_order(first, keys.as_slice()))
}

/// Whether each of eight histories is taken over so.
fn are_taken_over(
    alloc: Global,
    phase: &Phase,
    seconds: &[Vec<Step>],
    dumps: &[[u64; 3]],
) -> Result<bool, Fail> {
    let mut count = 0u64;
    for ((first, second), dump) in phase.histories.iter().zip(seconds).zip(dumps) {
        if !is_taken_over(alloc, first.as_slice(), second.as_slice(), *dump)? {
            return Ok(false);
        }
        count = count.saturating_add(1);
    }
    Ok(count == 8)
}

#[test]
fn a_second_load_begins_with_what_is_right_of_the_first(rt: HostRuntime) -> Result<(), Fail> {
    let alloc = rt.alloc();
    let mut outside = unread_outside(alloc)?;
    let end = run_alone(&rt, alloc, "warm 1000 20000 4 8 1", &mut outside)?;
    assert!(rt; end.status == Status::Done);
    let printed = str::from_utf8(outside.sink.taken()).unwrap_or("");
    assert!(rt;
        printed
            .lines()
            .filter(|line| *line == "audit clean")
            .count()
            == 2
    );
    let dumps = dumps_in(alloc, outside.sink.taken())?;
    let Some(phase) = end.earlier.first() else {
        panic!(rt; "no earlier load");
    };
    let seconds = end.histories.as_slice();
    assert!(rt; are_taken_over(alloc, phase, seconds, dumps.as_slice())?);
    Ok(())
}
