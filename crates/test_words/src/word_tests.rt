ghost use Rattle.std.specs.Prelude.{◌≡◌};
ghost use Rattle.log_word.specs.Views.{nothing_seen};

use log_word::{LogWord, Note, Pass, ShardPass, StoreEvent, StorePass};
use rows_model::Sid;
use std::test::Fail;
use std::thread;
use std::thread::Threads;

/// The store's pass sees a session begin, and hands out a note.
fn begun(word: &LogWord, pass: StorePass) -> (StorePass, Note)
    requires word { pass.word ≡ word.now }
    requires blind { pass.seen ≡ nothing_seen }
    ensures pass { result.0.word ≡ word.now }
    ensures note { result.1.word ≡ word.now }
{
    let mut pass = pass;
    let event = StoreEvent::Begin {
        sid: Sid { number: 1 },
        worker: 0,
        writes: true,
    };
    pass.add(word, &event);
    pass.fail(word);
    let note = pass.note(word);
    (pass, note)
}

/// A shard's pass hears of a caller, who hears of the shard.
fn met(word: &LogWord, pass: ShardPass, caller: Pass) -> Pass
    requires word { pass.word ≡ word.now }
    requires caller { caller.word ≡ word.now }
    ensures { result.word ≡ word.now }
{
    let mut pass = pass;
    let mut caller = caller;
    pass.join(word, caller.note(word));
    caller.join(word, pass.note(word));
    caller
}

/// Both at once, and then the caller hears of the store.
fn both<R: Threads + Sync>(
    rt: &R,
    word: &LogWord,
    store: StorePass,
    shard: ShardPass,
    caller: Pass,
) -> Pass
    requires store { (store.word ≡ word.now) × (store.seen ≡ nothing_seen) }
    requires shard { shard.word ≡ word.now }
    requires caller { caller.word ≡ word.now }
    ensures { result.word ≡ word.now }
{
    let ((_store, note), mut caller) = thread::join(
        rt,
        move || -> (StorePass, Note)
            requires { (store.word ≡ word.now) × (store.seen ≡ nothing_seen) }
            ensures { result.1.word ≡ word.entry.now }
        { begun(word, store) },
        move || -> Pass
            requires { (shard.word ≡ word.now) × (caller.word ≡ word.now) }
            ensures { result.word ≡ word.entry.now }
        { met(word, shard, caller) },
    );
    caller.join(word, note);
    caller
}

#[test]
fn a_word_is_made_and_passes_meet_over_two_threads(rt: HostRuntime) -> Result<(), Fail> {
    let (word, store, mut shards, caller) = LogWord::new(rt.alloc(), 2)?;
    assert!(rt; shards.len() == 2);
    let Some(shard) = shards.pop() else {
        panic!(rt; "there are two shards")
    };
    let _caller = both(&rt, &word, store, shard, caller);
    Ok(())
}
