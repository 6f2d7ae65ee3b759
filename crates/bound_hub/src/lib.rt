//! The cache for many threads whose locks know what happened: each holds a pass of one word beside its
//! shard, or beside the store.
#![tactic(auto)]

pub use bound_shards::BoundShard;
pub use bound_stores::BoundStore;
pub use hubs::BoundHub;
pub use names::BoundName;
pub use shorts::short_of;

pub mod bound_asks;
pub mod bound_commits;
pub mod bound_lapses;
pub mod bound_quarantines;
pub mod bound_raises;
pub mod bound_releases;
pub mod bound_sets;
pub mod bound_shards;
pub mod bound_stores;
pub mod bound_sweeps;
pub mod hub_calls;
pub mod hub_parts;
pub mod hubs;
pub mod laws;
pub mod names;
pub mod shorts;
pub mod step_shorts;
pub mod store_calls;
