//! The locks of a hub, its word, and when its shards are due. To take a lock may wait.
ghost use Rattle.std.specs.Prelude.{◌≡◌, ◌<◌};
ghost use Rattle.std.specs.Sync.Mutex.{mutex_guard_value};
ghost use Rattle.rows_model.specs.Placement.{shard_of};
ghost use Rattle.key_shard.specs.Answers.{IsAtHome};
ghost use Rattle.shard_lock.specs.Names.{IsNamed};

use crate::bound_shards::BoundShard;
use crate::bound_stores::BoundStore;
use crate::hubs::BoundHub;
use crate::names::BoundName;
use brief_lock::locked_soon;
use log_word::LogWord;
use rows_model::{QKey, shard_number};
use shard_lock::wait_for_ever;
use sql_keeper::Keeper;
use std::sync::atomic::Ordering;
use std::sync::{MutexGuard, Wait};

/// How often a worker looks again for a lock that another has, before it sleeps.
const LOOKS: u32 = 1_024;

impl<K: Keeper, H: BoundName> BoundHub<K, H> {
    /// The word that all passes of the hub are of. It takes no lock and no memory.
    pub fn word(&self) -> &LogWord
        ensures word { result.now ≡ H.word }
        ensures shards { H.word.shards ≡ self.now }
    {
        &self.word
    }

    /// A time before which no quarantine of the shard of this number was due when its lock was last free.
    /// It takes no lock and no memory.
    pub fn next_due(&self, place: u32) -> u64 {
        match self.dues.get(place as usize) {
            Some(due) => due.load(Ordering::Relaxed),
            None => 0,
        }
    }

    /// Writes down when the next quarantine of the shard of this number may be due. Its lock is held. It
    /// takes no memory.
    pub fn note_due(&self, place: u32, next: u64) {
        if let Some(due) = self.dues.get(place as usize)
            && due.load(Ordering::Relaxed) != next
        {
            due.store(next, Ordering::Relaxed);
        }
    }

    /// The lock of the store.
    pub fn lock_store<R: Wait>(&self, rt: &R) -> MutexGuard<'_, BoundStore<K, H>> {
        locked_soon(rt, &self.store, LOOKS)
    }

    /// The lock of the shard of this number. No type says that this lock has it: where another shard lies
    /// under it, the call waits for ever.
    pub fn lock_at<R: Wait>(&self, rt: &R, place: u32) -> MutexGuard<'_, BoundShard<H>>
        requires { place < self.now }
        ensures number { (mutex_guard_value result).shard.terms.no ≡ place }
        ensures named { IsNamed H.terms (mutex_guard_value result).shard }
    {
        let bound = locked_soon(rt, &self.shards[place as usize], LOOKS);
        if bound.no() != place {
            wait_for_ever(rt);
        }
        bound
    }

    /// The lock of the key's shard.
    pub fn lock_of<R: Wait>(&self, rt: &R, key: &QKey) -> MutexGuard<'_, BoundShard<H>>
        ensures number { (mutex_guard_value result).shard.terms.no ≡ shard_of key.now self.now }
        ensures home { IsAtHome (mutex_guard_value result).shard.terms key.now }
    {
        self.lock_at(rt, shard_number(key, self.count))
    }
}
