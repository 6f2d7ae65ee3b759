//! Values and transactions, made from their texts.
ghost use Rattle.std.specs.Prelude.{All, IfSome};
ghost use Rattle.rows_model.specs.Changes.{HasIds};

use change_words::change_of;
use rows_model::{Change, Txn, Value};
use std::alloc::Global;
use std::process::Abort;

/// The value of this text.
pub fn value_of(rt: &impl Abort, alloc: Global, text: &str) -> Value {
    match Value::of(alloc, text.as_bytes()) {
        Ok(value) => value,
        Err(_) => panic!(rt; "no memory"),
    }
}

/// What stands before the first such byte of the text, and what stands behind it.
fn cut(text: &[u8], byte: u8) -> (&[u8], &[u8]) {
    match text.iter().position(|other| *other == byte) {
        Some(place) => (&text[..place], &text[place + 1..]),
        None => (text, &[]),
    }
}

/// The change that the text says, as `invite 3 7` or `rename 7 ann`.
fn change_in(text: &[u8]) -> Option<Change>
    ensures { IfSome result HasIds }
{
    let (word, sides) = cut(text, b' ');
    let (first, second) = cut(sides, b' ');
    change_of(word, first, second)
}

/// The changes that the text says, 1 to 8 with a comma between two.
fn changes_in(rt: &impl Abort, alloc: Global, text: &str) -> Vec<Change>
    ensures { All HasIds result.items }
{
    let mut changes = Vec::new(alloc);
    let mut rest = text.as_bytes();
    for _ in 0..8 {
        let (part, more) = cut(rest, b',');
        match change_in(part) {
            Some(change) => changes.push(change).expect(rt, "memory"),
            None => panic!(rt; "no change in {text}"),
        }
        if more.is_empty() {
            return changes;
        }
        rest = more;
    }
    panic!(rt; "more than eight changes in {text}")
}

/// The transaction of the changes that the text says.
pub fn txn_of(rt: &impl Abort, alloc: Global, text: &str) -> Txn {
    match Txn::of(alloc, changes_in(rt, alloc, text).as_slice()) {
        Ok(txn) => txn,
        Err(fault) => panic!(rt; "{fault:?}"),
    }
}
