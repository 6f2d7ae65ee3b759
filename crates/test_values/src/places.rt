//! Which shard of two a key belongs to.
use rows_model::{Kind, QKey, shard_number};

const SHARDS: [(u32, u32); 2] = [(2, 0), (1, 1)];

#[test]
fn places_keys(rt: HostRuntime) {
    for (id, shard) in SHARDS.iter() {
        let key = QKey {
            kind: Kind::Profile,
            id: *id,
        };
        assert!(rt; shard_number(&key, 2) == *shard, "profile:{id}");
    }
}
