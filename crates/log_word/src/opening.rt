//! How a word comes to be.
ghost use Rattle.std.specs.Prelude.{◌≡◌, ◌≤◌, IfOk, OnOk, []};
ghost use Rattle.log_word.specs.Views.{store_view, made_view};
ghost use Rattle.log_word.specs.Passes.{IsAt, Becomes, blind_pass, blind_shard_passes};

use crate::passes::{Pass, ShardPass, StorePass};
use crate::seen::View;
use crate::words::LogWord;
use atomic_table::{Seat, Table};
use rows_model::Memory;
use std::alloc::Global;

impl LogWord {
    /// A word that is 0, for so many shards, the pass of the store, that of each shard by its number,
    /// and one of a caller. Nothing is seen yet. This is the one call here that takes memory.
    pub fn new(
        alloc: Global,
        shards: u32,
    ) -> Result<(LogWord, StorePass, Vec<ShardPass>, Pass), Memory>
        requires some { 1 ≤ shards }
        requires few { shards ≤ 64 }
        ensures shards { IfOk result (λ made. made.0.shards ≡ shards) }
        ensures store { IfOk result (λ made. made.1 ≡ blind_pass made.0) }
        ensures passes { IfOk result (λ made. made.2.items ≡ blind_shard_passes made.0 shards) }
        ensures caller { IfOk result (λ made. made.3 ≡ blind_pass made.0) }
    {
        let (table, mut seat) = Table::of_words(alloc, &[0], &shards)?;
        let word = LogWord { table };
        let passes = shard_passes(alloc, &word, &mut seat, shards)?;
        let caller = Pass {
            seat: word.copy(&mut seat),
        };
        Ok((word, StorePass { seat }, passes, caller))
    }
}

// The passes of the shards in turn, made of the store's seat while that has seen nothing.
fn shard_passes(
    alloc: Global,
    word: &LogWord,
    seat: &mut Seat<(), View>,
    shards: u32,
) -> Result<Vec<ShardPass>, Memory>
    requires word { IsAt word.now seat.old }
    requires seat { seat.old.me ≡ (store_view word.now.shards, []) }
    ensures seat { OnOk result (Becomes (made_view word.now.shards shards) seat.old seat.new) }
    ensures passes { IfOk result (λ passes. passes.items ≡ blind_shard_passes word.now shards) }
{
    let mut passes = Vec::new(alloc);
    for number in 0..shards {
        passes.push(ShardPass {
            seat: word.shard(seat),
        })?;
    }
    Ok(passes)
}
