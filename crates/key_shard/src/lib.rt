//! One shard of the cache: entries and leases under one `&mut self`, and the history of its steps.
#![tactic(auto)]

pub use grants::Grant;
pub use replies::{Back, Got, How, QAnswer, Raising, Rel, Renewal, SetAnswer, ShardFault};
pub use shards::Shard;
pub use steps::{Blocker, Ended, Step};

mod bodies;
mod gets;
pub mod grants;
mod histories;
mod lapses;
pub mod laws;
mod lookups;
mod outs;
mod quarantines;
mod raises;
pub mod readers;
mod releases;
pub mod replies;
mod sets;
pub mod shards;
pub mod steps;
mod sweeps;
