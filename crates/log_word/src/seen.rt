//! What a seat at the word has seen. No value of these types is made: they are for contracts.
use crate::events::{Short, StoreEvent};
use std::collections::LinkedList;

/// What was seen of the store and of the shards. Lists have the latest first.
pub struct Seen {
    /// The store's events.
    pub events: LinkedList<StoreEvent>,
    /// How many calls the store's keeper failed.
    pub failures: u64,
    /// Whether the store has stopped telling its rows.
    pub stopped: bool,
    /// The steps of each shard, by the shard's number.
    pub steps: LinkedList<LinkedList<Short>>,
}

/// Whose a seat is: the store's, a shard's, or a caller's.
pub enum Part {
    Caller,
    Store,
    Shard(u32),
}

/// A seat's view: whose it is, of how many shards the word is, how many of their seats the store's
/// has made, what was seen, and, between a join and the load after it, what both had seen before.
pub struct View {
    pub part: Part,
    pub shards: u32,
    pub made: u32,
    pub seen: Seen,
    pub olds: LinkedList<Seen>,
}
