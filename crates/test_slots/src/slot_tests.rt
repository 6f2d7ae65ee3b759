//! Slots by hand: each line of a table is a call, with what it has to answer.
ghost use Rattle.std.specs.Prelude.{◌≤◌, length};

use key_slots::KeySlots;
use rows_model::Memory;
use std::alloc::{AllocError, Global};
use std::process::Abort;

/// A call, on the key of this one byte or on this slot.
#[derive(Clone, Copy)]
enum Call {
    /// Gives a slot to the key, if it has none.
    Give(u8),
    /// Which slot the key has.
    Slot(u8),
    /// Which key has the slot.
    Key(u32),
    Free(u32),
}

const ROOM_FOR_TWO: [(Call, &str); 18] = [
    (Call::Slot(b'a'), "none"),
    (Call::Key(0), "nobody"),
    (Call::Free(0), "nobody's"),
    (Call::Give(b'a'), "0"),
    (Call::Give(b'b'), "1"),
    (Call::Give(b'c'), "none"),
    (Call::Slot(b'a'), "0"),
    (Call::Slot(b'c'), "none"),
    (Call::Key(1), "b"),
    (Call::Free(0), "freed"),
    (Call::Free(0), "nobody's"),
    (Call::Slot(b'a'), "none"),
    (Call::Give(b'c'), "0"),
    (Call::Key(0), "c"),
    (Call::Give(b'a'), "none"),
    (Call::Free(1), "freed"),
    (Call::Give(b'a'), "1"),
    (Call::Slot(b'c'), "0"),
];

/// The slot that was freed last is given first.
const FREED_LAST: [(Call, &str); 8] = [
    (Call::Give(b'a'), "0"),
    (Call::Give(b'b'), "1"),
    (Call::Give(b'c'), "2"),
    (Call::Free(2), "freed"),
    (Call::Free(0), "freed"),
    (Call::Give(b'd'), "0"),
    (Call::Give(b'e'), "2"),
    (Call::Give(b'f'), "3"),
];

const NO_ROOM: [(Call, &str); 3] = [
    (Call::Give(b'a'), "none"),
    (Call::Free(0), "nobody's"),
    (Call::Slot(b'a'), "none"),
];

fn number(alloc: Global, slot: Option<u32>) -> Result<String, AllocError> {
    match slot {
        Some(slot) => format!(in alloc; "{slot}"),
        None => format!(in alloc; "none"),
    }
}

fn gives(slots: &mut KeySlots, byte: u8) -> Result<Option<u32>, Memory> {
    let key = [byte];
    match slots.slot(&key) {
        Some(slot) => Ok(Some(slot)),
        None => slots.give(&key),
    }
}

fn answer(alloc: Global, slots: &mut KeySlots, call: Call) -> Result<String, AllocError> {
    match call {
        Call::Give(byte) => match gives(slots, byte) {
            Ok(slot) => number(alloc, slot),
            Err(Memory) => format!(in alloc; "no memory"),
        },
        Call::Slot(byte) => number(alloc, slots.slot(&[byte])),
        Call::Key(slot) => match slots.key(slot) {
            Some(key) => String::from_utf8_lossy(alloc, key),
            None => format!(in alloc; "nobody"),
        },
        Call::Free(slot) => {
            if slots.free(slot) {
                format!(in alloc; "freed")
            } else {
                format!(in alloc; "nobody's")
            }
        }
    }
}

fn check(rt: &impl Abort, alloc: Global, room: u32, calls: &[(Call, &'static str)]) {
    let mut slots = KeySlots::new(alloc, room);
    for (place, (call, wanted)) in calls.iter().enumerate() {
        match answer(alloc, &mut slots, *call) {
            Ok(told) => assert!(rt; told.as_str() == *wanted, "call {place}: {told}"),
            Err(_) => panic!(rt; "no memory"),
        }
    }
}

#[test]
fn gives_each_key_one_slot(rt: HostRuntime) {
    check(&rt, rt.alloc(), 2, &ROOM_FOR_TWO);
    check(&rt, rt.alloc(), 4, &FREED_LAST);
    check(&rt, rt.alloc(), 0, &NO_ROOM);
}
