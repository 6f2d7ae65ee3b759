//! Why no hit goes stale: the laws of one key, over what the steps of its shard mark on it and what is
//! known of the store. Nothing here runs; crates above cite the laws.
#![tactic(auto)]

pub mod laws;
