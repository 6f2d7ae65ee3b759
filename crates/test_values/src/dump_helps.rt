//! Shards, keys and rows for the tests of dumps.
ghost use Rattle.std.specs.Prelude.{◌≡◌, ◌≢◌, ◌<◌, ◌≤◌, AllPairs};
ghost use Rattle.shard_dump.specs.Loads.{IsEmpty};

use crate::txns::value_of;
use key_shard::{Got, Shard};
use rows_model::{Kind, QKey, Sid};
use shard_dump::{Dump, DumpFault, read_dump};
use std::alloc::Global;
use std::process::Abort;

pub fn profile(id: u32) -> QKey {
    QKey {
        kind: Kind::Profile,
        id,
    }
}

/// A new shard with room for four entries and leases that live 100.
pub fn new_shard(rt: &impl Abort, alloc: Global, no: u32, count: u32, first: u64) -> Shard
    requires one_of { no < count }
    requires tokens { 1 ≤ first }
    ensures one_of { result.terms.no < result.terms.count }
    ensures shards { result.terms.count ≡ count }
    ensures room { result.terms.room ≡ 4 }
    ensures life { result.terms.life ≡ 100 }
    ensures empty { IsEmpty result }
{
    match Shard::new(alloc, no, count, 4, 100, first) {
        Ok(shard) => shard,
        Err(_) => panic!(rt; "no memory"),
    }
}

/// Stores a text for a key that misses, with this stamp.
pub fn store(rt: &impl Abort, alloc: Global, shard: &mut Shard, key: QKey, text: &str, stamp: u64)
    ensures { shard.new.terms ≡ shard.old.terms }
{
    match shard.get(key, Sid { number: 1 }, 0, 0) {
        Ok(Got::Lease { token }) => {
            let _ = shard.set(key, token, value_of(rt, alloc, text), stamp, 0);
        }
        _ => panic!(rt; "no lease"),
    }
}

/// Compares what a text is read as: the rows in order, each as id of a profile and text.
pub fn says(rt: &impl Abort, dump: &Dump, shard: u32, count: u32, want: &[(u32, &str)]) {
    let rows = dump.rows.as_slice();
    assert!(rt; dump.shard == shard && dump.count == count && rows.len() == want.len());
    for (row, (id, text)) in rows.iter().zip(want.iter()) {
        assert!(rt; row.key == profile(*id) && row.value.bytes() == text.as_bytes());
    }
}

/// The dump that a text says.
pub fn read(rt: &impl Abort, alloc: Global, text: &[u8]) -> Dump
    ensures { AllPairs (λ row later. row.key ≢ later.key) result.rows }
{
    match read_dump(alloc, text) {
        Ok(dump) => dump,
        Err(DumpFault::Bad { place }) => panic!(rt; "bad at {place}"),
        Err(DumpFault::Memory) => panic!(rt; "no memory"),
    }
}
