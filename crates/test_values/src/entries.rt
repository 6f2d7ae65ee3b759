//! The entries in order of recency: some calls by hand, and many drawn ones against a list.
ghost use Rattle.std.specs.Prelude.{◌≤◌};

use crate::draws::Draws;
use crate::entry_lists::ListTable;
use crate::txns::value_of;
use entry_table::Entries;
use rows_model::{Kind, QKey, Value};
use std::alloc::{AllocError, Global};
use std::process::Abort;

/// A call on the friends of the member with the id that comes first.
#[derive(Clone, Copy)]
enum Call {
    Promote(u32),
    Peek(u32),
    Drop(u32),
    /// With a value and a stamp.
    Put(u32, &'static str, u64),
    /// With a value and a stamp.
    Reput(u32, &'static str, u64),
}

fn key(id: u32) -> QKey {
    QKey {
        kind: Kind::Friends,
        id,
    }
}

fn text_of(alloc: Global, value: &Value) -> Result<String, AllocError> {
    String::from_utf8_lossy(alloc, value.bytes())
}

fn found(alloc: Global, answer: Option<(&Value, u64)>) -> Result<String, AllocError> {
    match answer {
        Some((value, stamp)) => format!(in alloc; "{} {stamp}", text_of(alloc, value)?),
        None => format!(in alloc; "none"),
    }
}

fn was(alloc: Global, old: Option<Value>) -> Result<String, AllocError> {
    match old {
        Some(old) => format!(in alloc; "was {}", text_of(alloc, &old)?),
        None => format!(in alloc; "none"),
    }
}

fn dropped(
    alloc: Global,
    answer: Result<Option<(QKey, Value, u64)>, Value>,
) -> Result<String, AllocError> {
    match answer {
        Ok(Some((key, value, stamp))) => {
            format!(in alloc; "dropped {} {} {stamp}", key.id, text_of(alloc, &value)?)
        }
        Ok(None) => format!(in alloc; "put"),
        Err(_) => format!(in alloc; "no memory"),
    }
}

/// Makes the call, and tells its answer.
fn call_text(
    rt: &impl Abort,
    alloc: Global,
    table: &mut Entries,
    call: Call,
) -> Result<String, AllocError> {
    match call {
        Call::Promote(id) => {
            table.promote(&key(id));
            found(alloc, table.peek(&key(id)))
        }
        Call::Peek(id) => found(alloc, table.peek(&key(id))),
        Call::Drop(id) => format!(in alloc; "{}", table.drop_key(&key(id))),
        Call::Put(id, text, stamp) => {
            let value = value_of(rt, alloc, text);
            dropped(alloc, table.put(key(id), value, stamp))
        }
        Call::Reput(id, text, stamp) => {
            let value = value_of(rt, alloc, text);
            was(alloc, table.reput(&key(id), value, stamp))
        }
    }
}

fn new_table(rt: &impl Abort, alloc: Global, room: u32) -> Entries
    requires { 1 ≤ room }
{
    match Entries::new(alloc, room) {
        Ok(table) => table,
        Err(_) => panic!(rt; "no memory"),
    }
}

/// Makes the calls in turn on a table with so much room, and compares the answers.
fn check(rt: &impl Abort, alloc: Global, room: u32, calls: &[(Call, &str)])
    requires { 1 ≤ room }
{
    let mut table = new_table(rt, alloc, room);
    for (call, want) in calls.iter() {
        match call_text(rt, alloc, &mut table, *call) {
            Ok(answer) => assert!(rt; answer.as_str() == *want, "{answer}"),
            Err(_) => panic!(rt; "no memory"),
        }
    }
}

const ROOM_FOR_TWO: [(Call, &str); 16] = [
    (Call::Put(1, "a", 0), "put"),
    (Call::Put(2, "b", 1), "put"),
    (Call::Promote(1), "a 0"),
    (Call::Put(3, "c", 2), "dropped 2 b 1"),
    (Call::Promote(2), "none"),
    (Call::Put(1, "d", 3), "put"),
    (Call::Peek(3), "c 2"),
    (Call::Put(4, "e", 4), "dropped 3 c 2"),
    (Call::Reput(1, "f", 5), "was d"),
    (Call::Put(5, "g", 6), "dropped 1 f 5"),
    (Call::Reput(1, "h", 7), "none"),
    (Call::Peek(1), "none"),
    (Call::Drop(4), "true"),
    (Call::Drop(4), "false"),
    (Call::Put(6, "i", 8), "put"),
    (Call::Peek(5), "g 6"),
];

const ROOM_FOR_ONE: [(Call, &str); 5] = [
    (Call::Put(1, "a", 0), "put"),
    (Call::Put(2, "b", 1), "dropped 1 a 0"),
    (Call::Promote(2), "b 1"),
    (Call::Put(2, "c", 2), "put"),
    (Call::Peek(2), "c 2"),
];

#[test]
fn keeps_the_most_recent(rt: HostRuntime) {
    check(&rt, rt.alloc(), 2, &ROOM_FOR_TWO);
    check(&rt, rt.alloc(), 1, &ROOM_FOR_ONE);
}

/// One of eight keys.
fn drawn_key(draws: &mut Draws) -> QKey {
    let kind = match draws.below(2) {
        0 => Kind::Friends,
        _ => Kind::Pending,
    };
    let id = draws.below(4) as u32;
    QKey { kind, id }
}

fn drawn_value(rt: &impl Abort, alloc: Global, byte: u8) -> Value {
    match Value::of(alloc, &[byte]) {
        Ok(value) => value,
        Err(_) => panic!(rt; "no memory"),
    }
}

/// Puts the values, which are the same, into both tables, and compares the answers.
fn puts(
    rt: &impl Abort,
    cache: &mut Entries,
    list: &mut ListTable,
    key: QKey,
    values: (Value, Value),
    stamp: u64,
) {
    let (one, other) = values;
    let (answer, want) = (cache.put(key, one, stamp), list.put(key, other, stamp));
    assert!(rt; answer == want);
}

/// Puts the values, which are the same, in the places of others, and compares the answers.
fn reputs(
    rt: &impl Abort,
    cache: &mut Entries,
    list: &mut ListTable,
    key: QKey,
    values: (Value, Value),
    stamp: u64,
) {
    let (one, other) = values;
    let (answer, want) = (
        cache.reput(&key, one, stamp),
        list.reput(&key, other, stamp),
    );
    assert!(rt; answer == want);
}

/// Makes a call that is drawn, of both tables, and compares their answers.
fn agree(
    rt: &impl Abort,
    alloc: Global,
    cache: &mut Entries,
    list: &mut ListTable,
    draws: &mut Draws,
) {
    let key = drawn_key(draws);
    let byte = draws.below(256) as u8;
    let stamp = draws.below(1_000_000);
    let values = (drawn_value(rt, alloc, byte), drawn_value(rt, alloc, byte));
    match draws.below(7) {
        0 => {
            cache.promote(&key);
            assert!(rt; cache.peek(&key) == list.find(&key));
        }
        1 => assert!(rt; cache.peek(&key) == list.peek(&key)),
        2 => assert!(rt; cache.drop_key(&key) == list.drop_key(&key)),
        3 => reputs(rt, cache, list, key, values, stamp),
        _ => puts(rt, cache, list, key, values, stamp),
    }
}

/// Puts as many new keys as there is room for, which drops all that was there from the back.
fn reads_out(rt: &impl Abort, alloc: Global, cache: &mut Entries, list: &mut ListTable, room: u32) {
    for id in 0..room {
        let key = QKey {
            kind: Kind::Profile,
            id,
        };
        let values = (value_of(rt, alloc, "new"), value_of(rt, alloc, "new"));
        puts(rt, cache, list, key, values, 0);
    }
}

/// Makes a hundred calls of both tables, and reads both out.
fn run(rt: &impl Abort, alloc: Global, room: u32, draws: &mut Draws)
    requires { 1 ≤ room }
{
    let mut cache = new_table(rt, alloc, room);
    let Ok(mut list) = ListTable::new(alloc, room) else {
        panic!(rt; "no memory");
    };
    for _ in 0..100 {
        agree(rt, alloc, &mut cache, &mut list, draws);
    }
    reads_out(rt, alloc, &mut cache, &mut list, room);
}

/// 100,000 calls over eight keys, with room for one to four entries.
#[test]
fn answers_as_the_list_does(rt: HostRuntime) {
    let mut draws = Draws::new(1);
    for number in 0..1_000 {
        run(&rt, rt.alloc(), 1 + number % 4, &mut draws);
    }
}
