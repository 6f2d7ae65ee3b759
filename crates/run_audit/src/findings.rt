use rows_model::QKey;

/// What an audit finds.
#[derive(Clone, Copy, PartialEq, Eq)]
pub enum Finding {
    /// Each commit is covered, and each hit is fresh.
    Clean,
    /// The first commit, counted from 1, that touches a key which wasn't granted to its session,
    /// and the least such key.
    Uncovered { commit: u64, key: QKey },
    /// The first hit that isn't fresh: by the number of its shard, and then by its place in the
    /// history, from 0.
    Stale { shard: u32, place: u64 },
}
