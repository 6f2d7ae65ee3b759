//! Room for the shards of a hub, once they are taken from under their locks.
ghost use Rattle.std.specs.Prelude.{◌≡◌, ◌≤◌, vec_len, vec_capacity};

use crate::names::HubName;
use key_shard::Shard;
use std::marker::{Model, PhantomData};

/// Room for all shards of a hub, in which there is none. It is under a lock as they are: one thread at
/// a time may have a shard, but no two may look at one.
#[derive(Drop)]
pub struct KeptRoom<H: HubName> {
    shards: Vec<Shard>,
    of: PhantomData<H>,
}

impl<H: HubName> Model for KeptRoom<H> {
    ghost use Rattle.std.specs.Prelude.{◌≡◌, ◌≤◌, vec_len, vec_capacity};

    ghost Value = { Unit {0} };

    ghost view = { λ kept. tt };

    ghost invariant = { λ kept. (vec_len kept.shards ≡ 0) × (H.parts ≤ vec_capacity kept.shards) };
}

impl<H: HubName> KeptRoom<H> {
    pub fn new(shards: Vec<Shard>) -> KeptRoom<H>
        requires none { vec_len shards ≡ 0 }
        requires room { H.parts ≤ vec_capacity shards }
    {
        KeptRoom {
            shards,
            of: PhantomData,
        }
    }

    /// No shards, and room for all.
    pub fn into_shards(self) -> Vec<Shard>
        ensures none { vec_len result ≡ 0 }
        ensures room { H.parts ≤ vec_capacity result }
    {
        self.shards
    }
}
