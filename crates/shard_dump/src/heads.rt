// The head of a dump.
ghost use Rattle.std.specs.Prelude.{◌≡◌, IfSome, IfNone};
ghost use Rattle.shard_dump.specs.Texts.{IsHead};

/// The most shards of which a dump can be one.
pub(crate) const MOST_SHARDS: u64 = 64;

/// The most rows of a dump.
pub(crate) const MOST_ROWS: u64 = 65_536;

/// The most bytes of a value in a dump.
pub(crate) const MOST_BYTES: u64 = 1_048_576;

/// What the first line of a dump says: the shard's number, how many shards there are, and how many rows
/// follow.
#[derive(Clone, Copy)]
pub struct Head {
    pub shard: u32,
    pub count: u32,
    pub rows: u32,
}

impl Head {
    /// The head of these numbers, if a dump can have it.
    pub(crate) fn of(shard: u64, count: u64, rows: u64) -> Option<Head>
        ensures shard { IfSome result (λ head. head.shard ≡ shard) }
        ensures count { IfSome result (λ head. head.count ≡ count) }
        ensures rows { IfSome result (λ head. head.rows ≡ rows) }
        ensures right { IfSome result IsHead }
        ensures none { IfNone result (IsHead (record { shard = shard; count = count; rows = rows }) → ⊥) }
    {
        if shard >= count || count > MOST_SHARDS || rows > MOST_ROWS {
            return None;
        }
        Some(Head {
            shard: shard as u32,
            count: count as u32,
            rows: rows as u32,
        })
    }
}
