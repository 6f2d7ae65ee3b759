//! The hub: a lock round each shard, one round the store, and the word.
ghost use Rattle.std.specs.Prelude.{◌≡◌, ◌+◌, ◌^◌, ◌<◌, ◌≤◌, All, MatchResult, length, is_none, vec_len, vec_capacity};
ghost use Rattle.rows_model.specs.Placement.{shard_of};
ghost use Rattle.shard_lock.specs.Names.{AreAll, ArePlaced, AreTokens, IsNamed, IsNamedStore};
ghost use Rattle.log_word.specs.Views.{nothing_seen};
ghost use Rattle.log_word.specs.Passes.{blind_pass, blind_shard_passes};
ghost use Rattle.bound_hub.specs.Ties.{HasCount, HasSeenOnly, IsNewShard, IsNewStore};

use crate::bound_shards::BoundShard;
use crate::bound_stores::BoundStore;
use crate::names::BoundName;
use key_shard::Shard;
use log_word::{LogWord, Note, Pass, ShardPass, StorePass};
use rows_model::{QKey, shard_number};
use shard_lock::{KeptRoom, StartOf, token_of};
use sql_keeper::{Keeper, Store};
use std::alloc::{AllocError, Global};
use std::marker::Model;
use std::sync::Mutex;
use std::sync::atomic::AtomicU64;
use std::sync::ledger::{Blank, Total};

/// A cache that threads share, and whose locks know what happened: a lock round each of its shards and
/// one round its store, with a pass of one word under each. Contracts see how many shards there are.
///
/// Each time a lock is free, what lies under it and its pass belong together.
#[derive(Drop)]
pub struct BoundHub<K: Keeper, H: BoundName> {
    pub(crate) word: LogWord,
    pub(crate) shards: Vec<Mutex<BoundShard<H>>>,
    /// For each shard a time before which no quarantine on it is due. It is written under the shard's
    /// lock and read without, so that a sweep passes a shard without a lock where nothing can be due.
    pub(crate) dues: Vec<AtomicU64>,
    pub(crate) store: Mutex<BoundStore<K, H>>,
    pub(crate) count: u32,
    /// Room for the shards, once they are taken from under their locks.
    pub(crate) room: Mutex<KeptRoom<H>>,
    /// What the tokens of all shards have. They take no bytes.
    pub(crate) tokens: Total<H>,
}

impl<K: Keeper, H: BoundName> Model for BoundHub<K, H> {
    ghost use Rattle.std.specs.Prelude.{ℕ, ◌≡◌, ◌≤◌, vec_len};
    ghost use Rattle.shard_lock.specs.Names.{AreTokens, HaveCount};

    ghost Value = { ℕ };

    ghost view = { λ hub. hub.count };

    ghost invariant = { λ hub. (1 ≤ hub.count) × (vec_len hub.shards ≡ hub.count)
        × (H.parts ≡ hub.count) × (hub.word ≡ H.word) × (H.word.shards ≡ hub.count)
        × HaveCount H.terms hub.count × AreTokens hub.count hub.tokens.parts hub.tokens.amount };
}

impl<K: Keeper, H: BoundName> BoundHub<K, H> {
    /// A hub of this store and these shards, of which each has its place for its number, of a ledger with
    /// a part for each, and of a new word with its passes. What is named of the hub is what there is: the
    /// word, the steps that each shard has made, and the store's sessions and failed calls. No commit is
    /// in the log, no session is open, no quarantine stands, no lease to read is recorded, and each entry
    /// is of stamp 0, and right where the store tells its rows.
    ///
    /// The pass of a caller comes with the hub. For want of memory store and shards come back as they were.
    pub fn new(
        alloc: Global,
        store: Store<K, StartOf<H>>,
        shards: Vec<Shard>,
        ledger: Blank,
        made: (LogWord, StorePass, Vec<ShardPass>, Pass),
    ) -> Result<(BoundHub<K, H>, Pass), (Store<K, StartOf<H>>, Vec<Shard>)>
        requires store { IsNamedStore H.opening H.cap H.known_rows H.start store }
        requires new_store { IsNewStore H.begun H.failed store }
        requires shards { AreAll H.terms shards.items }
        requires new_shards { All (IsNewShard H.opening H.before (is_none store.known_rows)) shards.items }
        requires few { length shards.items ≤ 64 }
        requires ledger { (ledger.name ≡ H.name) × (ledger.parts ≡ H.parts) }
        requires one_each { ledger.parts ≡ length shards.items }
        requires word { made.0 ≡ H.word }
        requires of_shards { H.word.shards ≡ length shards.items }
        requires store_pass { made.1 ≡ blind_pass H.word }
        requires shard_passes { made.2.items ≡ blind_shard_passes H.word (length shards.items) }
        requires caller { made.3 ≡ blind_pass H.word }
        ensures { MatchResult result
            (λ made. (made.0 ≡ length shards.items) × (made.1.word ≡ H.word)
            × HasSeenOnly (is_none store.known_rows) made.1.seen)
            (λ back. (back.0 ≡ store) × (back.1.items ≡ shards.items)) }
    {
        let Ok(locks) = Vec::with_capacity(alloc, shards.len()) else {
            return Err((store, shards));
        };
        let Ok(dues) = dues_of(alloc, &shards) else {
            return Err((store, shards));
        };
        let (word, store_pass, passes, caller) = made;
        let count = shards.len() as u32;
        let mut store = BoundStore::new(&word, store, store_pass);
        let mut caller = noted(&word, caller, store.note(&word));
        let (locks, room, tokens) = locked(locks, shards, passes, ledger, &word, &mut caller);
        let hub = BoundHub {
            word,
            shards: locks,
            dues,
            store: Mutex::new(store),
            count,
            room: Mutex::new(KeptRoom::new(room)),
            tokens,
        };
        Ok((hub, caller))
    }

    /// How many shards there are: at least one. It takes no lock and no memory.
    pub fn shards(&self) -> u32
        ensures count { result ≡ self.now }
        ensures some { 1 ≤ result }
    {
        self.count
    }

    /// The number of the key's shard. It takes no lock and no memory.
    pub fn shard_of(&self, key: &QKey) -> u32
        ensures { result ≡ shard_of key.now self.now }
    {
        shard_number(key, self.count)
    }

    /// One more pass, which has seen what this one has. It takes no lock and no memory.
    pub fn pass(&self, from: &mut Pass) -> Pass
        requires { from.old.word ≡ H.word }
        ensures same { from.new ≡ from.old }
        ensures pass { result ≡ from.old }
    {
        from.note(&self.word).into_pass()
    }
}

/// For each shard the time before which none of its quarantines is due.
fn dues_of(alloc: Global, shards: &[Shard]) -> Result<Vec<AtomicU64>, AllocError> {
    let mut dues = Vec::with_capacity(alloc, shards.len())?;
    for shard in shards {
        dues.push(AtomicU64::new(shard.next_due()))?;
    }
    Ok(dues)
}

/// The pass of a caller once it has joined the first note.
fn noted(word: &LogWord, pass: Pass, note: Note) -> Pass
    requires word { pass.word ≡ word.now }
    requires blind { pass.seen ≡ nothing_seen }
    requires note { note.word ≡ word.now }
    requires only { HasSeenOnly note.seen.stopped note.seen }
    ensures word { result.word ≡ pass.word }
    ensures only { HasSeenOnly note.seen.stopped result.seen }
{
    let mut pass = pass;
    pass.join(word, note);
    pass
}

/// The pass of a shard once it has joined the first note.
fn shard_noted(word: &LogWord, pass: ShardPass, note: Note) -> ShardPass
    requires word { pass.word ≡ word.now }
    requires blind { pass.seen ≡ nothing_seen }
    requires note { note.word ≡ word.now }
    requires only { HasSeenOnly note.seen.stopped note.seen }
    ensures word { result.word ≡ pass.word }
    ensures shard { result.shard ≡ pass.shard }
    ensures only { HasSeenOnly note.seen.stopped result.seen }
{
    let mut pass = pass;
    pass.join(word, note);
    pass
}

/// Puts each shard under a lock of its own with a token and the pass of its number, in their order. The
/// list that they leave has the room that it had.
fn locked<H: BoundName>(
    locks: Vec<Mutex<BoundShard<H>>>,
    shards: Vec<Shard>,
    passes: Vec<ShardPass>,
    ledger: Blank,
    word: &LogWord,
    caller: &mut Pass,
) -> (Vec<Mutex<BoundShard<H>>>, Vec<Shard>, Total<H>)
    requires none { vec_len locks ≡ 0 }
    requires room { vec_len shards ≤ vec_capacity locks }
    requires named { All (IsNamed H.terms) shards.items }
    requires counted { All (HasCount H.word.shards) shards.items }
    requires new { All (IsNewShard H.opening H.before caller.old.seen.stopped) shards.items }
    requires placed { ArePlaced shards.items }
    requires few { vec_len shards ≤ 64 }
    requires ledger { (ledger.name ≡ H.name) × (ledger.parts ≡ H.parts) }
    requires one_each { ledger.parts ≡ vec_len shards }
    requires word { word.now ≡ H.word }
    requires passes { passes.items ≡ blind_shard_passes H.word (length shards.items) }
    requires caller { caller.old.word ≡ H.word }
    requires only { HasSeenOnly caller.old.seen.stopped caller.old.seen }
    ensures all { vec_len result.0 ≡ vec_len shards }
    ensures left { vec_len result.1 ≡ 0 }
    ensures room { vec_capacity result.1 ≡ vec_capacity shards }
    ensures tokens { AreTokens (vec_len shards) result.2.parts result.2.amount }
    ensures caller { caller.new ≡ caller.old }
{
    let mut locks = locks;
    let mut shards = shards;
    let mut passes = passes;
    let (mut book, mut rest) = ledger.open::<H>();
    while let Some(shard) = shards.pop() {
        let Some(pass) = passes.pop() else {
            unreachable!()
        };
        let token = token_of(&mut book, &mut rest, shards.len() as u32);
        let pass = shard_noted(word, pass, caller.note(word));
        locks.push_reserved(Mutex::new(BoundShard::new(shard, token, pass)));
    }
    locks.reverse();
    (locks, shards, book.close())
}
