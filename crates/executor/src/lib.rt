//! The executor: a session's request is made by one body, on a shard or at the store that is lent.
#![tactic(auto)]

pub use requests::{Request, key_of};
pub use shards::on_shard;
pub use stores::on_store;

pub mod requests;
pub mod shards;
pub mod stores;
