//! One word that counts the store's events, and what each that holds a pass has seen: of the store,
//! and of the steps of each shard. What it has seen is always a beginning of what happened.
#![tactic(auto)]

pub use events::{Short, ShortKind, StoreEvent};
pub use passes::{Note, Pass, ShardPass, StorePass};
pub use words::LogWord;

pub mod events;
pub mod laws;
mod opening;
pub mod passes;
pub mod seen;
pub mod steps;
pub mod words;
