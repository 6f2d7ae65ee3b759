//! A hub is taken apart: what lay under its locks, once the threads have ended.
ghost use Rattle.std.specs.Prelude.{◌≡◌, ◌≤◌, ◌^◌, All, IsSome, length, sum_by, vec_len, vec_capacity};
ghost use Rattle.key_shard.specs.Answers.{Legal};
ghost use Rattle.log_word.specs.declared.seen.Seen.{Seen};
ghost use Rattle.log_word.specs.Steps.{IsSound, IsBeginning};
ghost use Rattle.shard_lock.specs.Names.{AreAll, AreLegal, ArePlaced, AreTokens, IsNamed, IsNamedStore, IsTokenOf};
ghost use Rattle.bound_hub.specs.Ties.{IsBoundShard, IsBoundStore};
ghost use Rattle.bound_hub.specs.Parts.{IsGathered, IsLeft};
ghost use Rattle.bound_hub.specs.TrueLogs.{IsTrueLog, IsTrueSoFar};

use crate::bound_shards::BoundShard;
use crate::bound_stores::BoundStore;
use crate::hubs::BoundHub;
use crate::names::BoundName;
use key_shard::Shard;
use log_word::{LogWord, Pass};
use shard_lock::StartOf;
use sql_keeper::{Keeper, Store};
use std::sync::Mutex;
use std::sync::ledger::{Share, Total};

impl<K: Keeper, H: BoundName> BoundHub<K, H> {
    /// The store and the shards, after the threads have ended: as many as were handed in, each in its
    /// place, with a legal history that goes on from the one that it had. Each entry is of a number of
    /// commits of the log, and each later commit on its key has its quarantine standing. Where the store
    /// tells its rows, each transaction of the log applied where it was committed, each entry is its key's
    /// answer after so many commits, and each hit since is fresh.
    /// Each key that a commit touches was granted to its session since. It takes no lock and no memory.
    ///
    /// The passes of its callers are handed in: all that they have seen is a beginning of what happened,
    /// of which the commits are the log, and of which no shard made other steps first.
    pub fn into_parts(self, passes: Vec<Pass>) -> (Store<K, StartOf<H>>, Vec<Shard>)
        requires { All (λ pass. pass.word ≡ H.word) passes.items }
        ensures store { IsNamedStore H.opening H.cap H.known_rows H.start result.0 }
        ensures as_many { length result.1.items ≡ self }
        ensures all { AreAll H.terms result.1.items }
        ensures legal { AreLegal result.1.items }
        ensures kept { (seen : Seen) × IsGathered H.word.shards H.failed result.0 passes.items seen
            × All (IsLeft H.opening H.before result.0 seen) result.1.items }
        ensures true_log { IsSome result.0.known_rows → IsTrueLog H.opening result.0.ledger.log }
    {
        let BoundHub {
            word,
            shards,
            dues: _,
            store,
            count: _,
            room,
            tokens,
        } = self;
        let mut store = store.into_inner();
        gather(&word, passes, &mut store);
        store.tied();
        let shards = unlocked(
            &word,
            shards,
            room.into_inner().into_shards(),
            &tokens,
            &mut store,
        );
        (store.into_store(), shards)
    }
}

impl<H: BoundName> BoundShard<H> {
    /// The shard and its token.
    pub(crate) fn into_parts(self) -> (Shard, Share<H>)
        ensures same { result.0 ≡ self.shard }
        ensures named { IsNamed H.terms result.0 }
        ensures legal { Legal result.0.terms result.0.history }
        ensures token { IsTokenOf result.0.terms.no result.1.parts result.1.amount }
        ensures sound { IsSound H.word.shards self.seen }
        ensures bound { IsBoundShard H.word H.opening H.before self.shard
            (record { word = H.word; shard = self.shard.terms.no; seen = self.seen }) }
    {
        let BoundShard { shard, token, pass } = self;
        let _legal = shard.history();
        pass.sound();
        (shard, token)
    }
}

impl<K: Keeper, H: BoundName> BoundStore<K, H> {
    /// The store and what its pass has seen belong together, and that is sound. Where the store tells its
    /// rows, each transaction of the log applied.
    pub(crate) fn tied(&self)
        ensures tied { IsBoundStore H.word H.begun H.failed self.now.store
            (record { word = H.word; seen = self.now.seen }) }
        ensures sound { IsSound H.word.shards self.now.seen }
        ensures true_so_far { IsTrueSoFar H.opening self.now.seen }
    {
        self.pass.sound();
    }

    /// The store alone.
    pub(crate) fn into_store(self) -> Store<K, StartOf<H>>
        ensures same { result ≡ self.store }
        ensures named { IsNamedStore H.opening H.cap H.known_rows H.start result }
    {
        let BoundStore { store, pass: _ } = self;
        store
    }
}

/// The store's pass sees all that these passes have seen.
fn gather<K: Keeper, H: BoundName>(word: &LogWord, passes: Vec<Pass>, store: &mut BoundStore<K, H>)
    requires word { word.now ≡ H.word }
    requires passes { All (λ pass. pass.word ≡ H.word) passes.items }
    ensures store { store.new.store ≡ store.old.store }
    ensures begun { All (λ pass. IsBeginning pass.seen store.new.seen) passes.items }
{
    let mut passes = passes;
    while let Some(pass) = passes.pop() {
        let mut pass = pass;
        store.join(word, pass.note(word));
    }
}

/// Takes each shard from under its lock, in the order of their numbers. By their tokens no two have the
/// same number, so each has its place.
fn unlocked<K: Keeper, H: BoundName>(
    word: &LogWord,
    locks: Vec<Mutex<BoundShard<H>>>,
    room: Vec<Shard>,
    tokens: &Total<H>,
    store: &mut BoundStore<K, H>,
) -> Vec<Shard>
    requires word { word.now ≡ H.word }
    requires some { 1 ≤ vec_len locks }
    requires none { vec_len room ≡ 0 }
    requires room { vec_len locks ≤ vec_capacity room }
    requires tokens { AreTokens (vec_len locks) tokens.now.parts tokens.now.amount }
    ensures store { store.new.store ≡ store.old.store }
    ensures as_many { length result.items ≡ vec_len locks }
    ensures named { All (IsNamed H.terms) result.items }
    ensures legal { AreLegal result.items }
    ensures placed { ArePlaced result.items }
    ensures left { All (IsLeft H.opening H.before store.old.store store.old.seen) result.items }
{
    let (mut shards, mut all) = taken(word, locks, room, store);
    tokens.audit(&mut all);
    shards.sort_unstable_by_key(|shard| shard.no());
    shards
}

/// Takes each shard from under its lock, in any order, and puts their tokens together.
fn taken<K: Keeper, H: BoundName>(
    word: &LogWord,
    locks: Vec<Mutex<BoundShard<H>>>,
    room: Vec<Shard>,
    store: &mut BoundStore<K, H>,
) -> (Vec<Shard>, Share<H>)
    requires word { word.now ≡ H.word }
    requires some { 1 ≤ vec_len locks }
    requires none { vec_len room ≡ 0 }
    requires room { vec_len locks ≤ vec_capacity room }
    ensures store { store.new.store ≡ store.old.store }
    ensures as_many { length result.0.items ≡ vec_len locks }
    ensures named { All (IsNamed H.terms) result.0.items }
    ensures legal { AreLegal result.0.items }
    ensures left { All (IsLeft H.opening H.before store.old.store store.old.seen) result.0.items }
    ensures parts { result.1.parts ≡ vec_len locks }
    ensures amount { result.1.amount ≡ sum_by (λ shard. 2 ^ shard.terms.no) result.0.items }
{
    let mut locks = locks;
    let mut shards = room;
    let Some(first) = locks.pop() else {
        unreachable!()
    };
    let (shard, mut all) = left(word, first.into_inner(), store);
    shards.push_reserved(shard);
    while let Some(lock) = locks.pop() {
        let (shard, token) = left(word, lock.into_inner(), store);
        all.merge(token);
        shards.push_reserved(shard);
    }
    (shards, all)
}

/// The shard and its token from under the lock, once the shard's pass and the store's have told each
/// other what they saw.
fn left<K: Keeper, H: BoundName>(
    word: &LogWord,
    bound: BoundShard<H>,
    store: &mut BoundStore<K, H>,
) -> (Shard, Share<H>)
    requires word { word.now ≡ H.word }
    ensures store { store.new.store ≡ store.old.store }
    ensures named { IsNamed H.terms result.0 }
    ensures legal { Legal result.0.terms result.0.history }
    ensures token { IsTokenOf result.0.terms.no result.1.parts result.1.amount }
    ensures left { IsLeft H.opening H.before store.old.store store.old.seen result.0 }
    ensures goes_on { IsBeginning store.old.seen store.new.seen }
{
    let mut bound = bound;
    store.join(word, bound.note(word));
    store.tied();
    bound.join(word, store.note(word));
    bound.into_parts()
}
