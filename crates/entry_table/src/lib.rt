//! The entries of a shard of the cache, kept in order of recency.
#![tactic(auto)]

pub use table::Entries;

pub mod table;
